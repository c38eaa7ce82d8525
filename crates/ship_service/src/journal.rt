//! What whoever runs a service may want to know.

use console::DriveFault;
use workers::{Moved, MoverEvent, Request};

/// So many objects, and their bytes in all.
#[derive(Clone, Copy, Drop, Debug, PartialEq, Eq)]
pub struct Tally {
    pub objects: u64,
    pub bytes: u64,
}

impl Tally {
    /// None yet.
    pub(crate) fn none() -> Tally {
        Tally {
            objects: 0,
            bytes: 0,
        }
    }

    /// One more, of so many bytes.
    pub(crate) fn and(self, bytes: usize) -> Tally {
        Tally {
            objects: self.objects.saturating_add(1),
            bytes: self.bytes.saturating_add(bytes as u64),
        }
    }
}

/// What happens to a service.
#[derive(Clone, Copy, Drop, Debug, PartialEq, Eq)]
pub enum ServiceEvent {
    /// The client of this number came.
    Came(u64),
    /// It went, or was given up.
    Went(u64, Result<(), DriveFault>),
    /// This became of an object that was asked to move.
    Moved(Request, Moved),
    /// The mover tells of its work.
    Mover(MoverEvent),
    /// All clients have ended: so many objects are here, and so many are far.
    Closed { here: Tally, far: Tally },
}
