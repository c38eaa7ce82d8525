//! What is reported at the end.
ghost use Rattle.std.specs.Prelude.{◌≡◌, ◌≢◌, true, false, Err};
ghost use Rattle.std.specs.Io.KnownBytes.{Appends};
ghost use Rattle.std.specs.IoError.{error_kind};
ghost use Rattle.agent.specs.ErrorShown.{not_text};
ghost use Rattle.agent.specs.Failures.{status_number};
ghost use Rattle.agent.specs.Reports.{Reports, ReportsOutcome};
ghost use Rattle.streams.specs.Streams.{AppendsPart, AppendsSome};

use crate::failure::{ExitStatus, Failure};
use std::io::{self, ErrorKind, Write};
use streams::put_all;

/// Writes this text, and answers whether the stream took all of it. What it doesn't take is lost.
pub(crate) fn say<E: Write>(text: &[u8], errors: &mut E) -> bool
    ensures some { AppendsSome (E.contents errors.old) (E.contents errors.new) text.now }
    ensures all { result ≡ true → Appends (E.contents errors.old) (E.contents errors.new) text.now }
    ensures part { result ≡ false → AppendsPart (E.contents errors.old) (E.contents errors.new) text.now }
{
    put_all(errors, text).is_ok()
}

/// Reports a failure, and gives the status. What the stream doesn't take of the line is lost.
pub(crate) fn report<E: Write>(outcome: Result<(), Failure>, errors: &mut E) -> ExitStatus
    ensures { Reports (E.contents errors.old) (E.contents errors.new) outcome result }
{
    match outcome {
        Ok(()) => ExitStatus::Done,
        Err(failure) => {
            let _told = say(&failure.line(), errors);
            failure.status()
        }
    }
}

/// Says that the arguments themselves can't be had, and gives the exit status: there is no memory
/// for them, or they are not UTF-8.
pub fn refuse_arguments<E: Write>(error: &io::Error, errors: &mut E) -> u8
    ensures memory { error_kind error.now ≡ ErrorKind.OutOfMemory → ReportsOutcome (λ outcome. outcome ≡ Err Failure.NoMemory)
        (E.contents errors.old) (E.contents errors.new) result }
    ensures other { error_kind error.now ≢ ErrorKind.OutOfMemory
        → AppendsSome (E.contents errors.old) (E.contents errors.new) not_text × (result ≡ status_number ExitStatus.InvalidArguments) }
{
    if error.kind() == ErrorKind::OutOfMemory {
        return report(Err(Failure::NoMemory), errors).number();
    }
    let _told = say(b"error: the arguments are not valid UTF-8\n", errors);
    ExitStatus::InvalidArguments.number()
}
