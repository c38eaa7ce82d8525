//! The line of an instruction.
ghost use Rattle.std.specs.Prelude.{◌≡◌, ◌≤◌, ◌++◌, length, OnOk, OnErr};
ghost use Rattle.arrayvec.specs.ArrayVec.{array_vec_len};
ghost use Rattle.asm_table.specs.Canonical.{line_text};

use crate::operands::{InstrLine, put_operands};
use asm_table::{mnemonic_of, operands_of};
use isa_table::Instr;
use std::alloc::AllocError;

fn line_of(i: &Instr) -> InstrLine
    ensures text { result.items ≡ line_text i.now }
    ensures short { array_vec_len result ≤ 256 }
{
    let mut line = InstrLine::new();
    line.put(mnemonic_of(i).name());
    put_operands(&mut line, operands_of(i).as_slice());
    line
}

/// Adds the canonical spelling of an instruction, without a line end: at most 256 bytes. Out of memory changes nothing.
pub fn line(i: &Instr, out: &mut Vec<u8>) -> Result<(), AllocError>
    ensures ok { OnOk result (out.new.items ≡ out.old.items ++ line_text i.now) }
    ensures err { OnErr result (out.new.items ≡ out.old.items) }
    ensures short { length (line_text i.now) ≤ 256 }
{
    out.extend_from_slice(line_of(i).as_slice())
}
