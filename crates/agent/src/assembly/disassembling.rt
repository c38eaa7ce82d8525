//! `dis`: raw code in, its text out.
ghost use Rattle.std.specs.Prelude.{IfOk, IfErr, IfSome, Ok, Err};
ghost use Rattle.agent.specs.CheckLeaves.{check_limit};
ghost use Rattle.agent.specs.DisLeaves.{DisLeaves, Disassembles, IsSpelled};
ghost use Rattle.streams.specs.Streams.{ConsumesAtMost};

use crate::arguments::Showing;
use crate::assembly::checking::CHECK_LIMIT;
use crate::failure::Failure;
use disassembler::listing;
use llvm_text::llvm_listing;
use loader::{Program, load};
use std::alloc::{AllocError, Global};
use std::io::{Read, Write};
use streams::{put_all, read_at_most};

/// The text of the program, in the spelling and with the slots that are asked for.
fn show(alloc: Global, showing: Showing, program: &Program) -> Result<Vec<u8>, AllocError>
    ensures { IfOk result (λ shown. IsSpelled showing.is_llvm showing.has_slots program.now shown.items) }
{
    if showing.is_llvm {
        return llvm_listing(alloc, showing.has_slots, program);
    }
    listing(alloc, showing.has_slots, program)
}

/// The text of the code, where it is valid.
fn show_code(alloc: Global, showing: Showing, code: &[u8]) -> Result<Vec<u8>, Failure>
    ensures ok { IfOk result (λ shown. Disassembles showing code.now (Ok shown.items)) }
    ensures err { IfErr result (λ failure. Disassembles showing code.now (Err failure)) }
{
    let program = load(alloc, code)?;
    let shown = show(alloc, showing, &program)?;
    Ok(shown)
}

/// The text of the code that the reader has.
fn find_text<R: Read>(alloc: Global, showing: Showing, reader: &mut R) -> Result<Vec<u8>, Failure>
    ensures ok { IfSome (R.remaining reader.old) (λ input. IfOk result (λ shown. Disassembles showing input (Ok shown.items))) }
    ensures err { IfSome (R.remaining reader.old) (λ input. IfErr result (λ failure. Disassembles showing input (Err failure))) }
    ensures consumed { ConsumesAtMost check_limit (R.remaining reader.old) (R.remaining reader.new) }
{
    let code = read_at_most(alloc, reader, CHECK_LIMIT)?;
    show_code(alloc, showing, &code)
}

/// Reads raw code, and writes its text where it is valid: as assembly or as `llvm-objdump` spells it,
/// with the number of its slot before each instruction or without. At most one byte is read past the longest valid code.
pub fn dis<R: Read, W: Write>(
    alloc: Global,
    showing: Showing,
    reader: &mut R,
    writer: &mut W,
) -> Result<(), Failure>
    ensures left { IfSome (R.remaining reader.old) (λ input.
        DisLeaves showing input (W.contents writer.old) (W.contents writer.new) result) }
    ensures consumed { ConsumesAtMost check_limit (R.remaining reader.old) (R.remaining reader.new) }
{
    let shown = find_text(alloc, showing, reader)?;
    put_all(writer, &shown)?;
    Ok(())
}
