//! Bytes in and bytes out, with what a reader gave and a writer took also where the device fails; lines while they are made.
#![tactic(auto)]

mod fault;
mod line;
mod reading;
#[cfg(test)]
mod tests;
mod writing;

pub use fault::{InputFault, NO_MEMORY, READ_FAULT, ReadFault, WRITE_FAULT, WriteFault};
pub use line::Line;
pub use reading::{fill, read_at_most, skip};
pub use writing::put_all;
