//! The text of a program.
ghost use Rattle.std.specs.Prelude.{IfOk};
ghost use Rattle.std.specs.String.{string_bytes};
ghost use Rattle.asm_table.specs.Canonical.{line_text};
ghost use Rattle.disassembler.specs.TextOf.{IsShownAs, IsTextOf};

use crate::lines::line;
use crate::spelling::{Spelling, spelled_lines};
use isa_table::Instr;
use loader::Program;
use std::alloc::{AllocError, Global};

/// The canonical spelling.
struct Canonical;

impl Spelling for Canonical {
    ghost spelled = { line_text };

    fn put(i: &Instr, out: &mut Vec<u8>) -> Result<(), AllocError> {
        line(i, out)
    }
}

/// The lines without slots, which are the canonical spelling.
fn plain_bytes(alloc: Global, program: &Program) -> Result<Vec<u8>, AllocError>
    ensures { IfOk result (λ t. IsTextOf program.now t.items) }
{
    spelled_lines::<Canonical>(alloc, false, program)
}

/// The canonical spelling of the program, each line with a line end.
pub fn text(alloc: Global, program: &Program) -> Result<String, AllocError>
    ensures { IfOk result (λ t. IsTextOf program.now (string_bytes t)) }
{
    let bytes = plain_bytes(alloc, program)?;
    match String::from_utf8(bytes) {
        Ok(text) => Ok(text),
        Err(_) => {
            prove!(false);
            Err(AllocError)
        }
    }
}

/// The same as bytes, where it is asked for with the number of its first slot before each
/// instruction, as in `2: exit`.
pub fn listing(alloc: Global, has_slots: bool, program: &Program) -> Result<Vec<u8>, AllocError>
    ensures { IfOk result (λ t. IsShownAs has_slots program.now t.items) }
{
    spelled_lines::<Canonical>(alloc, has_slots, program)
}
