//! How many objects there are, and how long they are.

/// How many objects are ever made, freed ones included (this project's choice).
pub const OBJECT_LIMIT: usize = 1024;

/// How many bytes an object has at most (this project's choice).
pub const OBJECT_BYTES: usize = 65536;
