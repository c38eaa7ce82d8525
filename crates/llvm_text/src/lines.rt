//! The line of an instruction.
ghost use Rattle.std.specs.Prelude.{◌≡◌, ◌++◌, OnOk, OnErr};
ghost use Rattle.llvm_text.specs.Spelling.{llvm_text};

use crate::operands::LlvmLine;
use crate::rows::put_instr;
use isa_table::Instr;
use std::alloc::AllocError;

/// Adds an instruction as `llvm-objdump` spells it, without a line end. Out of memory changes nothing.
pub fn llvm_line(i: &Instr, out: &mut Vec<u8>) -> Result<(), AllocError>
    ensures ok { OnOk result (out.new.items ≡ out.old.items ++ llvm_text i.now) }
    ensures err { OnErr result (out.new.items ≡ out.old.items) }
{
    let mut line = LlvmLine::new();
    put_instr(&mut line, i);
    out.extend_from_slice(line.as_slice())
}
