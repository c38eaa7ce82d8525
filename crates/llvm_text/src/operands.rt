//! The text of an operand.
ghost use Rattle.std.specs.Prelude.{◌≡◌, ◌≤◌, ◌+◌, ◌++◌, ◌∷◌, decimal, suc, pos};
ghost use Rattle.std.specs.Fmt.{signed_decimal};
ghost use Rattle.arrayvec.specs.ArrayVec.{array_vec_len};
ghost use Rattle.llvm_text.specs.Spelling.{letter, moved_width, place_text, pointer_text, register_text, second_text, target_text};

use crate::signs::offset_sign;
use isa_table::{Operand, Reg, Size, Width};
use streams::Line;

/// The line of an instruction.
pub type LlvmLine = Line<256>;

fn letter(width: Width) -> u8
    ensures { result ≡ letter width }
{
    match width {
        Width::W64 => b'r',
        Width::W32 => b'w',
    }
}

pub fn put_register(line: &mut LlvmLine, width: Width, r: Reg)
    requires { array_vec_len line.old + 4 ≤ 256 }
    ensures text { line.new.items ≡ line.old.items ++ register_text width r }
    ensures len { array_vec_len line.new ≤ array_vec_len line.old + 4 }
{
    line.push(letter(width));
    line.put_decimal(r.number());
}

pub fn put_second(line: &mut LlvmLine, width: Width, src: Operand)
    requires { array_vec_len line.old + 11 ≤ 256 }
    ensures text { line.new.items ≡ line.old.items ++ second_text width src }
    ensures len { array_vec_len line.new ≤ array_vec_len line.old + 11 }
{
    match src {
        Operand::Imm(z) => line.put_decimal(z),
        Operand::Register(r) => put_register(line, width, r),
    }
}

/// With a sign before it in any case.
pub fn put_target(line: &mut LlvmLine, offset: i32)
    requires { array_vec_len line.old + 12 ≤ 256 }
    ensures text { line.new.items ≡ line.old.items ++ target_text offset }
    ensures len { array_vec_len line.new ≤ array_vec_len line.old + 12 }
{
    if offset >= 0 {
        line.put(b"+");
    }
    line.put_decimal(offset);
}

pub fn put_place(line: &mut LlvmLine, r: Reg, offset: i16)
    requires { array_vec_len line.old + 12 ≤ 256 }
    ensures text { line.new.items ≡ line.old.items ++ place_text r offset }
    ensures len { array_vec_len line.new ≤ array_vec_len line.old + 12 }
{
    put_register(line, Width::W64, r);
    line.put(offset_sign(offset));
    line.put_decimal(offset.unsigned_abs());
}

/// A number of that size at a place, where `kind` is `u`, or `s` with its sign.
pub fn put_pointer(line: &mut LlvmLine, kind: u8, size: Size, r: Reg, offset: i16)
    requires { array_vec_len line.old + 39 ≤ 256 }
    ensures text { line.new.items ≡ line.old.items ++ pointer_text kind size r offset }
    ensures len { array_vec_len line.new ≤ array_vec_len line.old + 39 }
{
    line.push(b'(');
    line.push(kind);
    line.put_decimal(8 * size.bytes());
    line.put(b" *)(");
    put_place(line, r, offset);
    line.push(b')');
}

/// Which bits of a register a load writes or a store reads.
pub fn moved_width(size: Size) -> Width
    ensures { result ≡ moved_width size }
{
    match size {
        Size::Double => Width::W64,
        Size::Byte | Size::Half | Size::Word => Width::W32,
    }
}
