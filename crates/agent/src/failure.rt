//! What the program ends with.
ghost use Rattle.std.specs.Prelude.{◌≡◌, ◌⊎◌, ◌≤◌, ◌++◌, ◌∷◌, [], length};
ghost use Rattle.asm_grammar.specs.Reasons.{why_name};
ghost use Rattle.agent.specs.Failures.{FailsToAssemble, FailsToLoad, failure_of_drive, status_number, failure_line, status_of};
ghost use Rattle.agent.specs.declared.failure.Failure.TheVariants.{Read as ReadFailed, Write as WriteFailed, NoMemory as OutOfMemory};

use assembler::{AsmError, Why};
use console::DriveFault;
use loader::LoadError;
use std::alloc::AllocError;
use streams::{InputFault, Line, NO_MEMORY, READ_FAULT, WRITE_FAULT, WriteFault};
use thiserror::Error;

/// How the program ended.
#[derive(Clone, Copy, Debug, PartialEq, Eq)]
pub enum ExitStatus {
    /// All was done.
    Done = 0,
    /// The input was refused.
    Refused = 1,
    /// The arguments name nothing that the program does.
    InvalidArguments = 2,
    /// A stream failed, or out of memory.
    Failed = 3,
}

impl ExitStatus {
    /// The exit status.
    pub fn number(self) -> u8
        ensures { result ≡ status_number self }
    {
        self as u8
    }
}

/// What is said of input that is too long.
const INPUT_TOO_LONG: &str = "input too long";

/// Why the program gave up.
#[derive(Clone, Copy, Drop, Debug, PartialEq, Eq, Error)]
pub enum Failure {
    /// The code of the input isn't valid.
    #[error("{0}")]
    Refused(LoadError),
    /// The input isn't assembly.
    #[error("{0}")]
    WrongLine(AsmError),
    /// The input is longer than any assembly may be.
    #[error("{INPUT_TOO_LONG}")]
    InputTooLong,
    /// The input can't be read.
    #[error("{READ_FAULT}")]
    Read,
    /// The output can't be written.
    #[error("{WRITE_FAULT}")]
    Write,
    /// Out of memory.
    #[error("{NO_MEMORY}")]
    NoMemory,
}

impl From<InputFault> for Failure {
    ghost from_gives = { λ _ failure. (failure ≡ ReadFailed) ⊎ (failure ≡ OutOfMemory) };

    fn from(fault: InputFault) -> Failure {
        match fault {
            InputFault::Read => Failure::Read,
            InputFault::NoMemory => Failure::NoMemory,
        }
    }
}

impl From<WriteFault> for Failure {
    ghost from_gives = { λ _ failure. failure ≡ WriteFailed };

    fn from(_fault: WriteFault) -> Failure {
        Failure::Write
    }
}

impl From<LoadError> for Failure {
    ghost from_gives = { FailsToLoad };

    fn from(error: LoadError) -> Failure {
        if error.why != loader::Why::Memory {
            return Failure::Refused(error);
        }
        Failure::NoMemory
    }
}

impl From<AsmError> for Failure {
    ghost from_gives = { FailsToAssemble };

    fn from(error: AsmError) -> Failure {
        if error.why != Why::Memory {
            return Failure::WrongLine(error);
        }
        Failure::NoMemory
    }
}

impl From<DriveFault> for Failure {
    ghost from_gives = { λ ended failure. failure ≡ failure_of_drive ended };

    fn from(ended: DriveFault) -> Failure {
        match ended {
            DriveFault::Read => Failure::Read,
            DriveFault::Write => Failure::Write,
        }
    }
}

impl From<AllocError> for Failure {
    ghost from_gives = { λ _ failure. failure ≡ OutOfMemory };

    fn from(_error: AllocError) -> Failure {
        Failure::NoMemory
    }
}

/// A line about a failure: at most a slot's or a line's number and the longest of the names.
pub(crate) type FailureLine = Line<48>;

/// The line of this text.
pub(crate) fn line_of(text: &[u8]) -> FailureLine
    requires { length text.now ≤ 47 }
    ensures { result.items ≡ text.now ++ 10 ∷ [] }
{
    let mut line = FailureLine::new();
    line.put(text);
    line.end();
    line
}

/// The name of what is wrong with a line.
fn name_of(why: Why) -> &'static [u8]
    ensures name { result.now ≡ why_name why }
    ensures short { length result.now ≤ 10 }
{
    why.name().as_bytes()
}

impl Failure {
    /// The status that the program ends with.
    pub fn status(self) -> ExitStatus
        ensures { result ≡ status_of self }
    {
        match self {
            Failure::Refused(_) | Failure::WrongLine(_) | Failure::InputTooLong =>
                ExitStatus::Refused,
            Failure::Read | Failure::Write | Failure::NoMemory => ExitStatus::Failed,
        }
    }

    /// The line that tells of it.
    pub(crate) fn line(self) -> FailureLine
        ensures { result.items ≡ failure_line self }
    {
        let mut line = FailureLine::new();
        match self {
            Failure::Refused(error) => {
                line.put(b"slot ");
                line.put_decimal(error.slot);
                line.put(b": ");
                line.put(error.why.name());
            }
            Failure::WrongLine(error) => {
                line.put(b"line ");
                line.put_decimal(error.line);
                line.put(b": ");
                line.put(name_of(error.why));
            }
            Failure::InputTooLong => line.put(INPUT_TOO_LONG.as_bytes()),
            Failure::Read => line.put(READ_FAULT.as_bytes()),
            Failure::Write => line.put(WRITE_FAULT.as_bytes()),
            Failure::NoMemory => line.put(NO_MEMORY.as_bytes()),
        }
        line.end();
        line
    }
}
