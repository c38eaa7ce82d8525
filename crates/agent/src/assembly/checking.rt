//! `check`: raw code in, whether it is valid out.
ghost use Rattle.std.specs.Prelude.{◌≡◌, ◌⊎◌, IfSome, Result, Err, ⊤};
ghost use Rattle.agent.specs.CheckLeaves.{CheckLeaves, Finds, check_limit, ok_line};
ghost use Rattle.agent.specs.Explained.{ReportsAs, ReportsExplaining};
ghost use Rattle.agent.specs.Reports.{Reports};
ghost use Rattle.agent.specs.declared.failure.Failure.{Failure};
ghost use Rattle.streams.specs.Streams.{ConsumesAtMost};

use crate::assembly::explained::report_explained;
use crate::assembly::refusals::explanation;
use crate::failure::{ExitStatus, Failure};
use crate::reporting::report;
use loader::{CODE_LIMIT, LoadError, load};
use std::alloc::Global;
use std::io::{Read, Write};
use streams::{Line, put_all, read_at_most};

/// As much as is read: the longest code that can be valid, and one byte more, which shows that
/// there is more.
pub(crate) const CHECK_LIMIT: usize = CODE_LIMIT + 1;

/// How many slots the code has, where it is valid.
fn count_slots(alloc: Global, code: &[u8]) -> Result<usize, Failure>
    ensures { Finds code.now result }
{
    let program = load(alloc, code)?;
    Ok(program.slots())
}

/// The line about valid code of so many slots.
fn ok_line_of(slots: usize) -> Line<32>
    ensures { result.items ≡ ok_line slots }
{
    let mut line = Line::new();
    line.put(b"ok ");
    line.put_decimal(slots);
    line.end();
    line
}

/// Writes how many slots the code has, where it is valid.
fn put_slots<W: Write>(alloc: Global, code: &[u8], writer: &mut W) -> Result<(), Failure>
    ensures { CheckLeaves code.now (W.contents writer.old) (W.contents writer.new) result }
{
    let slots = count_slots(alloc, code)?;
    put_all(writer, &ok_line_of(slots))?;
    Ok(())
}

/// Reports what was found about the code with an explanation of a refusal, or that there is no memory for one.
fn report_check<E: Write>(
    alloc: Global,
    outcome: Result<(), Failure>,
    code: &[u8],
    errors: &mut E,
) -> ExitStatus
    ensures { ReportsExplaining (E.contents errors.old) (E.contents errors.new) outcome result
        ⊎ ((error : LoadError) × (outcome ≡ Err (Failure.Refused error))
        × Reports (E.contents errors.old) (E.contents errors.new) (Err Failure.NoMemory) result) }
{
    match explanation(alloc, outcome, code) {
        Ok(text) => report_explained(outcome, &text, errors),
        Err(_) => report(Err(Failure::NoMemory), errors),
    }
}

/// Reads raw code, writes how many slots it has where it is valid, and reports how that went, with an explanation of a refusal or
/// without. At most one byte is read past the longest valid code.
pub(crate) fn check<R: Read, W: Write, E: Write>(
    alloc: Global,
    explains: bool,
    reader: &mut R,
    writer: &mut W,
    errors: &mut E,
) -> ExitStatus
    ensures reported { IfSome (R.remaining reader.old) (λ input. (outcome : Result ⊤ Failure)
        × CheckLeaves input (W.contents writer.old) (W.contents writer.new) outcome
        × ReportsAs explains (E.contents errors.old) (E.contents errors.new) outcome result) }
    ensures consumed { ConsumesAtMost check_limit (R.remaining reader.old) (R.remaining reader.new) }
{
    let code = match read_at_most(alloc, reader, CHECK_LIMIT) {
        Ok(code) => code,
        Err(fault) => return report(Err(Failure::from(fault)), errors),
    };
    let outcome = put_slots(alloc, &code, writer);
    if explains {
        return report_check(alloc, outcome, &code, errors);
    }
    report(outcome, errors)
}
