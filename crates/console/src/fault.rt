//! Faults of a line and of a conversation. Out of memory is apart from what spells no command, as its reply is.
ghost use Rattle.std.specs.Prelude.{◌≡◌};
ghost use Rattle.console.specs.Faults.{line_fault_number, drive_fault_number};
ghost use Rattle.console.specs.declared.fault.DriveFault.TheVariants.{Write as WriteFailed};

use streams::{NO_MEMORY, READ_FAULT, WRITE_FAULT, WriteFault};
use thiserror::Error;

/// Why a line gives no command.
#[derive(Clone, Copy, Drop, Debug, PartialEq, Eq, Error)]
pub enum LineFault {
    /// It spells none.
    #[error("the line spells no command")]
    Bad = 1,
    /// It spells one, and there is no memory for the bytes that it carries.
    #[error("{NO_MEMORY}")]
    NoMemory = 2,
}

impl LineFault {
    /// The fault's number.
    pub fn number(self) -> u8
        ensures { result ≡ line_fault_number self }
    {
        self as u8
    }
}

/// Why a drive ended before its input did.
#[derive(Clone, Copy, Drop, Debug, PartialEq, Eq, Error)]
pub enum DriveFault {
    /// The reader failed, or its input had no end.
    #[error("{READ_FAULT}")]
    Read = 1,
    /// The writer failed, or took no byte.
    #[error("{WRITE_FAULT}")]
    Write = 2,
}

impl DriveFault {
    /// The fault's number.
    pub fn number(self) -> u8
        ensures { result ≡ drive_fault_number self }
    {
        self as u8
    }
}

impl From<WriteFault> for DriveFault {
    ghost from_gives = { λ _ fault. fault ≡ WriteFailed };

    fn from(_fault: WriteFault) -> DriveFault {
        DriveFault::Write
    }
}
