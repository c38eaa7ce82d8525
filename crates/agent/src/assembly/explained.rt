//! What is reported where `--explain` asks for explanations.
ghost use Rattle.std.specs.Prelude.{◌≡◌, ◌≤◌, ◌++◌, ◌∷◌, [], List, ℕ, Err};
ghost use Rattle.arrayvec.specs.ArrayVec.{array_vec_len};
ghost use Rattle.agent.specs.Explained.{IsExplanation, ReportsExplained, ReportsExplaining, shown_byte};

use crate::failure::{ExitStatus, Failure};
use crate::reporting::{report, say};
use std::io::Write;
use streams::Line;

/// The longest explanation, in bytes.
const EXPLANATION_LIMIT: usize = 1000;

/// The line of a failure, which has at most 48 bytes, and a line with an explanation.
type Explained = Line<1049>;

/// A byte as it is shown.
fn shown_byte(b: u8) -> u8
    ensures { result ≡ shown_byte b }
{
    if b == b'\t' {
        return b' ';
    }
    if b >= b' ' && b <= b'~' {
        return b;
    }
    b'?'
}

/// Adds a text as a line, as much of it as fits.
fn put_line(out: &mut Explained, text: &[u8])
    requires { array_vec_len out.old ≤ 48 }
    ensures { (line : List ℕ) × IsExplanation line × (out.new.items ≡ out.old.items ++ line ++ 10 ∷ []) }
{
    let shown = &text[..EXPLANATION_LIMIT.min(text.len())];
    for b in shown {
        out.push(shown_byte(*b));
    }
    out.end();
}

/// Reports a refusal and explains it by this text. What the stream doesn't take is lost.
fn report_refusal<E: Write>(failure: Failure, text: &[u8], errors: &mut E) -> ExitStatus
    ensures { ReportsExplained (E.contents errors.old) (E.contents errors.new) failure result }
{
    let mut lines = Explained::new();
    lines.put(&failure.line());
    put_line(&mut lines, text);
    let _told = say(&lines, errors);
    failure.status()
}

/// Reports a failure, and explains it by this text if it is a refusal.
fn report_failure<E: Write>(failure: Failure, text: &[u8], errors: &mut E) -> ExitStatus
    ensures { ReportsExplaining (E.contents errors.old) (E.contents errors.new) (Err failure) result }
{
    match failure {
        Failure::Refused(_) | Failure::WrongLine(_) => report_refusal(failure, text, errors),
        Failure::InputTooLong | Failure::Read | Failure::Write | Failure::NoMemory => {
            report(Err(failure), errors)
        }
    }
}

/// Reports an outcome, and explains a refusal by this text.
pub(crate) fn report_explained<E: Write>(
    outcome: Result<(), Failure>,
    text: &[u8],
    errors: &mut E,
) -> ExitStatus
    ensures { ReportsExplaining (E.contents errors.old) (E.contents errors.new) outcome result }
{
    match outcome {
        Ok(()) => ExitStatus::Done,
        Err(failure) => report_failure(failure, text, errors),
    }
}
