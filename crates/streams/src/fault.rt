//! Faults of a stream, without the system's reason: no clause could say which it is.

use thiserror::Error;

/// What is said of a reader that failed.
pub const READ_FAULT: &str = "read fault";

/// What is said of a writer that failed.
pub const WRITE_FAULT: &str = "write fault";

/// What is said where memory ran out.
pub const NO_MEMORY: &str = "no memory";

/// The reader failed.
#[derive(Clone, Copy, Drop, Debug, PartialEq, Eq, Error)]
#[error("{READ_FAULT}")]
pub struct ReadFault;

/// The writer failed, or took no byte.
#[derive(Clone, Copy, Drop, Debug, PartialEq, Eq, Error)]
#[error("{WRITE_FAULT}")]
pub struct WriteFault;

/// Why input can't be had.
#[derive(Clone, Copy, Drop, Debug, PartialEq, Eq, Error)]
pub enum InputFault {
    /// The reader failed.
    #[error("{READ_FAULT}")]
    Read,
    /// Out of memory.
    #[error("{NO_MEMORY}")]
    NoMemory,
}
