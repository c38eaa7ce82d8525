//! The text of an operand.
ghost use Rattle.std.specs.Prelude.{◌≡◌, ◌≤◌, ◌<◌, ◌+◌, ◌*◌, ◌++◌, length, decimal, pos, false, ◌∷◌, []};
ghost use Rattle.std.specs.Fmt.{digits};
ghost use Rattle.arrayvec.specs.ArrayVec.{array_vec_len};
ghost use Rattle.asm_table.specs.Canonical.{plus_text, offset_text, operand_text, more_text, operands_text};

use crate::hex::hex_digits;
use asm_table::{AsmOperand, register_name};
use streams::Line;

/// The line of an instruction.
pub type InstrLine = Line<256>;

/// With a sign before it in any case.
fn put_plus(line: &mut InstrLine, z: i32)
    requires { array_vec_len line.old + 41 ≤ 256 }
    ensures text { line.new.items ≡ line.old.items ++ plus_text z }
    ensures len { array_vec_len line.new ≤ array_vec_len line.old + 41 }
{
    if z >= 0 {
        line.put(b"+");
    }
    line.put_decimal(z);
}

/// Nothing for 0.
fn put_offset(line: &mut InstrLine, z: i16)
    requires { array_vec_len line.old + 41 ≤ 256 }
    ensures text { line.new.items ≡ line.old.items ++ offset_text z }
    ensures len { array_vec_len line.new ≤ array_vec_len line.old + 41 }
{
    if z == 0 {
        return;
    }
    put_plus(line, i32::from(z))
}

fn put_imm64(line: &mut InstrLine, k: u64)
    requires { array_vec_len line.old + 18 ≤ 256 }
    ensures text { line.new.items ≡ line.old.items ++ 48 ∷ 120 ∷ digits 16 false k }
    ensures len { array_vec_len line.new ≤ array_vec_len line.old + 18 }
{
    let mut buffer = [0u8; 16];
    let at = hex_digits(k, &mut buffer);
    line.put(b"0x");
    line.put(&buffer[at..]);
}

fn put_operand(line: &mut InstrLine, o: AsmOperand)
    requires { array_vec_len line.old + 50 ≤ 256 }
    ensures text { line.new.items ≡ line.old.items ++ operand_text o }
    ensures len { array_vec_len line.new ≤ array_vec_len line.old + 50 }
{
    match o {
        AsmOperand::Register(r) => line.put(register_name(r)),
        AsmOperand::Imm(z) => line.put_decimal(z),
        AsmOperand::Memory(r, z) => {
            line.put(b"[");
            line.put(register_name(r));
            put_offset(line, z);
            line.put(b"]");
        }
        AsmOperand::Imm64(k) => put_imm64(line, k),
        AsmOperand::Offset(z) => put_plus(line, i32::from(z)),
        AsmOperand::LongOffset(z) => put_plus(line, z),
    }
}

/// Adds the operands after the first.
fn put_more(line: &mut InstrLine, operands: &[AsmOperand])
    requires { array_vec_len line.old + 52 * length operands.now ≤ 256 }
    ensures text { line.new.items ≡ line.old.items ++ more_text operands.now }
    ensures len { array_vec_len line.new ≤ array_vec_len line.old + 52 * length operands.now }
{
    for o in operands {
        line.put(b", ");
        put_operand(line, *o);
    }
}

/// Adds a blank and all operands, or nothing where there is none.
pub fn put_operands(line: &mut InstrLine, operands: &[AsmOperand])
    requires { array_vec_len line.old + 52 * length operands.now ≤ 256 }
    ensures text { line.new.items ≡ line.old.items ++ operands_text operands.now }
    ensures len { array_vec_len line.new ≤ array_vec_len line.old + 52 * length operands.now }
{
    match operands {
        [] => {}
        [first, rest @ ..] => {
            line.put(b" ");
            put_operand(line, *first);
            put_more(line, rest);
        }
    }
}
