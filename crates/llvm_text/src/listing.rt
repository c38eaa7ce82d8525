//! The lines of a program.
ghost use Rattle.std.specs.Prelude.{IfOk};
ghost use Rattle.llvm_text.specs.Listing.{HasLlvmLines};
ghost use Rattle.llvm_text.specs.Spelling.{llvm_text};

use crate::lines::llvm_line;
use disassembler::{Spelling, spelled_lines};
use isa_table::Instr;
use loader::Program;
use std::alloc::{AllocError, Global};

/// The spelling of `llvm-objdump`.
struct Llvm;

impl Spelling for Llvm {
    ghost spelled = { llvm_text };

    fn put(i: &Instr, out: &mut Vec<u8>) -> Result<(), AllocError> {
        llvm_line(i, out)
    }
}

/// The lines of the program as `llvm-objdump` spells them, each with a line end, and after the
/// number of its first slot where it is asked for, as in `2: exit`.
pub fn llvm_listing(
    alloc: Global,
    has_slots: bool,
    program: &Program,
) -> Result<Vec<u8>, AllocError>
    ensures { IfOk result (λ t. HasLlvmLines has_slots program.now t.items) }
{
    spelled_lines::<Llvm>(alloc, has_slots, program)
}
