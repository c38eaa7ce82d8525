//! What was done to objects, as a history tells it. No value of these types is made: they are for clauses.

use crate::access::Op;
use std::collections::LinkedList;

/// What is done to an object at once.
pub enum Deed {
    /// An access of a machine.
    Accesses(Op),
    /// So many bytes are read, from an offset on.
    Reads { offset: u32, count: u32 },
    /// These bytes are written over those from an offset on.
    Writes { offset: u32, bytes: LinkedList<u8> },
}

/// What is given back for it.
pub enum Given {
    /// The answer of an access.
    Number(u64),
    /// The bytes that were read.
    Bytes(LinkedList<u8>),
    /// Nothing, for bytes that are written.
    Nothing,
}

/// An entry of a history: what was done to the object of that number, and what was given back.
pub struct Entry {
    pub number: u32,
    pub deed: Deed,
    pub given: Given,
}
