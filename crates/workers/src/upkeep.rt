//! What the mover does of its own accord.

use crate::job::{Direction, Request};
use memory::{OBJECT_BYTES, OBJECT_LIMIT};

/// The bytes that all objects of a table have at most. A bound of so many binds nothing.
pub const KEEP_ALL: u64 = 67_108_864;

/// What the mover does of its own accord, beside requests.
#[derive(Clone, Copy, Drop, Debug, PartialEq, Eq)]
pub struct Upkeep {
    /// It looks at an object each 10 ms in which there is no request, and sends one away that nobody has used since the last look.
    pub sweep: bool,
    /// So many bytes of objects are here at most, unless objects that are in use have more.
    pub keep: u64,
}

impl Upkeep {
    /// Nothing.
    pub fn none() -> Self {
        Upkeep {
            sweep: false,
            keep: KEEP_ALL,
        }
    }

    /// How many bytes of objects are here at most, if that binds.
    pub(crate) fn bound(self) -> Option<u64> {
        if self.keep < (OBJECT_LIMIT * OBJECT_BYTES) as u64 {
            Some(self.keep)
        } else {
            None
        }
    }
}

/// What the mover tells of its work, beside what became of a move.
#[derive(Clone, Copy, Drop, Debug, PartialEq, Eq)]
pub enum MoverEvent {
    /// It begins with a request. For an object that is to come back it makes room first.
    Begins(Request),
    /// An object of so many bytes has gone this way.
    Carried(Direction, usize),
    /// It sent the object of this number away to stay within its bound.
    Evicted(u32),
    /// An object came back for which there was no room: so many bytes are here, more than the bound.
    Passed(u64),
}
