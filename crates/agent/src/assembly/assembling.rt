//! `asm`: assembly in, raw code out.
ghost use Rattle.std.specs.Prelude.{◌≡◌, IfOk, IfErr, IfSome, Ok, Err};
ghost use Rattle.std.specs.Char.{encode_utf8};
ghost use Rattle.std.specs.String.{string_bytes};
ghost use Rattle.std.specs.Prelude.{⊤, Result};
ghost use Rattle.agent.specs.AsmLeaves.{AsmLeaves, Assembles, asm_limit, char_text, text_of_bytes};
ghost use Rattle.agent.specs.Explained.{ReportsAs};
ghost use Rattle.agent.specs.declared.failure.Failure.{Failure};
ghost use Rattle.streams.specs.Streams.{ConsumesAtMost};

use crate::assembly::explained::report_explained;
use crate::assembly::explaining::explanation;
use crate::failure::{ExitStatus, Failure};
use crate::reporting::report;
use assembler::assemble;
use loader::encode_all;
use std::alloc::{AllocError, Global};
use std::io::{Read, Write};
use streams::{put_all, read_at_most};

/// The longest text.
const TEXT_LIMIT: usize = 1_048_576;

/// The character of a byte: U+0080, which begins no token, for one above 127.
fn char_of(byte: u8) -> char
    ensures { encode_utf8 result ≡ char_text byte }
{
    if byte < 128 {
        char::from(byte)
    } else {
        '\u{80}'
    }
}

/// The text that the bytes are.
fn text_of(alloc: Global, bytes: &[u8]) -> Result<String, AllocError>
    ensures { IfOk result (λ text. string_bytes text ≡ text_of_bytes bytes.now) }
{
    let mut text = String::new(alloc);
    for b in bytes {
        text.push(char_of(*b))?;
    }
    Ok(text)
}

/// The code that the input spells.
fn assemble_input(alloc: Global, input: &[u8]) -> Result<Vec<u8>, Failure>
    ensures ok { IfOk result (λ code. Assembles input.now (Ok code.items)) }
    ensures err { IfErr result (λ failure. Assembles input.now (Err failure)) }
{
    if input.len() > TEXT_LIMIT {
        return Err(Failure::InputTooLong);
    }
    let text = text_of(alloc, input)?;
    let instrs = assemble(alloc, text.as_str())?;
    let code = encode_all(alloc, &instrs)?;
    Ok(code)
}

/// Writes the code that the input spells.
fn put_code<W: Write>(alloc: Global, input: &[u8], writer: &mut W) -> Result<(), Failure>
    ensures { AsmLeaves input.now (W.contents writer.old) (W.contents writer.new) result }
{
    let code = assemble_input(alloc, input)?;
    put_all(writer, &code)?;
    Ok(())
}

/// Reports how the input was assembled, with an explanation of an error or without.
fn report_asm<E: Write>(
    explains: bool,
    outcome: Result<(), Failure>,
    input: &[u8],
    errors: &mut E,
) -> ExitStatus
    ensures { ReportsAs explains (E.contents errors.old) (E.contents errors.new) outcome result }
{
    if explains {
        return report_explained(outcome, &explanation(outcome, input), errors);
    }
    report(outcome, errors)
}

/// Reads assembly, writes the code that it spells, and reports how that went, with an explanation of an error or without. At
/// most one byte is read past the longest text.
pub(crate) fn asm<R: Read, W: Write, E: Write>(
    alloc: Global,
    explains: bool,
    reader: &mut R,
    writer: &mut W,
    errors: &mut E,
) -> ExitStatus
    ensures reported { IfSome (R.remaining reader.old) (λ input. (outcome : Result ⊤ Failure)
        × AsmLeaves input (W.contents writer.old) (W.contents writer.new) outcome
        × ReportsAs explains (E.contents errors.old) (E.contents errors.new) outcome result) }
    ensures consumed { ConsumesAtMost asm_limit (R.remaining reader.old) (R.remaining reader.new) }
{
    let input = match read_at_most(alloc, reader, TEXT_LIMIT + 1) {
        Ok(input) => input,
        Err(fault) => return report(Err(Failure::from(fault)), errors),
    };
    let outcome = put_code(alloc, &input, writer);
    report_asm(explains, outcome, &input, errors)
}
