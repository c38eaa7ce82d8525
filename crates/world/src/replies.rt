//! Replies to commands: each holds what the machine, the debugger or the object store answered, as it was made.

ghost use Rattle.std.specs.Prelude.{◌≡◌};
ghost use Rattle.world.specs.Answers.{denied};

use crate::world::Move;
use debugger::{Debugged, ShowReply, StepReply};
use loader::LoadError;
use memory::Bytes;
use object_store::{Denied, Moved};

/// What a command was answered.
#[derive(Drop, Debug, PartialEq, Eq)]
pub enum Reply {
    /// There is an object of this number now.
    Made {
        object: u32,
    },
    /// What came of freeing the object.
    Freed {
        object: u32,
        moved: Moved,
    },
    /// What came of a move of the object, or of its end.
    Moved {
        object: u32,
        kind: Move,
        moved: Moved,
    },
    /// It was done.
    Done,
    /// The bytes of an object that were asked for.
    Bytes(Bytes),
    /// The code is a machine now, of this number.
    Shipped {
        machine: usize,
    },
    /// What the machine answered to a step.
    Stepped {
        machine: usize,
        reply: StepReply,
    },
    /// What is shown of the machine, or why it isn't.
    Shown {
        machine: usize,
        reply: ShowReply,
    },
    /// What a command of the debugger did.
    Debugged(Debugged),
    /// Out of memory. Nothing is changed.
    NoMemory,
    /// There are as many machines or objects as there can be.
    Full,
    /// The budget has no room for the object.
    NoRoom,
    /// The bytes are not all within the object.
    Outside,
    /// The object isn't here.
    Away {
        object: u32,
    },
    /// The code is not valid.
    Refused(LoadError),
    /// There is no such machine, or no such object.
    Missing,
}

impl Reply {
    /// The reply where an access of an object is denied.
    pub fn denied(object: u32, why: Denied) -> Reply
        ensures { result ≡ denied object why }
    {
        match why {
            Denied::Outside => Reply::Outside,
            Denied::Away => Reply::Away { object },
        }
    }
}
