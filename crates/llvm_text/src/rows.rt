//! The text of an instruction, row by row.
ghost use Rattle.std.specs.Prelude.{◌≡◌, ◌≤◌, ◌+◌, ◌++◌, length, codes};
ghost use Rattle.std.specs.Fmt.{signed_decimal};
ghost use Rattle.arrayvec.specs.ArrayVec.{array_vec_len};
ghost use Rattle.llvm_text.specs.Spelling.{atomic_text, called_text, compared_text, exchanged_text, fetched_text, last_text, llvm_text};
ghost use Rattle.llvm_text.specs.Spelling.{locked_text, register_text, target_text};

use crate::operands::{
    LlvmLine, moved_width, put_place, put_pointer, put_register, put_second, put_target,
};
use crate::signs::{binary_sign, compare_name, cond_sign, exchange_name, order_name, swap_bits};
use isa_table::{
    AtomicOp, Binary, Cond, Instr, Operand, Order, Reg, SignedSize, Size, SwapWidth, Width,
};

fn put_alu(line: &mut LlvmLine, width: Width, op: Binary, dst: Reg, src: Operand)
    requires { array_vec_len line.old + 21 ≤ 256 }
    ensures { line.new.items ≡ line.old.items ++ llvm_text (Instr.Alu width op dst src) }
{
    put_register(line, width, dst);
    line.put(binary_sign(op));
    put_second(line, width, src);
}

/// A register that is made of another, or of itself, by what stands between them.
fn put_made(line: &mut LlvmLine, width: Width, dst: Reg, sign: &[u8], src: Reg)
    requires { (array_vec_len line.old + 8) + length sign.now ≤ 256 }
    ensures { line.new.items ≡ line.old.items ++ register_text width dst ++ sign.now ++ register_text width src }
{
    put_register(line, width, dst);
    line.put(sign);
    put_register(line, width, src);
}

fn put_end(line: &mut LlvmLine, order: Order, width: SwapWidth, dst: Reg)
    requires { array_vec_len line.old + 19 ≤ 256 }
    ensures { line.new.items ≡ line.old.items ++ llvm_text (Instr.End order width dst) }
{
    put_register(line, Width::W64, dst);
    line.put(b" = ");
    line.put(order_name(order));
    line.put(swap_bits(width));
    line.put(b" ");
    put_register(line, Width::W64, dst);
}

fn put_jump(line: &mut LlvmLine, width: Width, cond: Cond, dst: Reg, src: Operand, offset: i16)
    requires { array_vec_len line.old + 42 ≤ 256 }
    ensures { line.new.items ≡ line.old.items ++ llvm_text (Instr.Jump width cond dst src offset) }
{
    line.put(b"if ");
    put_register(line, width, dst);
    line.put(cond_sign(cond));
    put_second(line, width, src);
    line.put(b" goto ");
    put_target(line, i32::from(offset));
}

fn put_load(line: &mut LlvmLine, size: Size, dst: Reg, src: Reg, offset: i16)
    requires { array_vec_len line.old + 47 ≤ 256 }
    ensures { line.new.items ≡ line.old.items ++ llvm_text (Instr.Load size dst src offset) }
{
    put_register(line, moved_width(size), dst);
    line.put(b" = *");
    put_pointer(line, b'u', size, src, offset);
}

fn put_load_signed(line: &mut LlvmLine, size: SignedSize, dst: Reg, src: Reg, offset: i16)
    requires { array_vec_len line.old + 47 ≤ 256 }
    ensures { line.new.items ≡ line.old.items ++ llvm_text (Instr.LoadSigned size dst src offset) }
{
    put_register(line, Width::W64, dst);
    line.put(b" = *");
    put_pointer(line, b's', size.size(), src, offset);
}

fn put_store(line: &mut LlvmLine, size: Size, dst: Reg, src: Operand, offset: i16)
    requires { array_vec_len line.old + 54 ≤ 256 }
    ensures { line.new.items ≡ line.old.items ++ llvm_text (Instr.Store size dst src offset) }
{
    line.put(b"*");
    put_pointer(line, b'u', size, dst, offset);
    line.put(b" = ");
    put_second(line, moved_width(size), src);
}

fn put_imm64(line: &mut LlvmLine, dst: Reg, value: u64)
    requires { array_vec_len line.old + 30 ≤ 256 }
    ensures { line.new.items ≡ line.old.items ++ llvm_text (Instr.LoadImm64 dst value) }
{
    put_register(line, Width::W64, dst);
    line.put(b" = ");
    line.put_decimal(value.cast_signed());
    line.put(b" ll");
}

/// An atomic operation that gives the old value to no register.
fn put_locked(line: &mut LlvmLine, sign: &[u8], width: Width, dst: Reg, src: Reg, offset: i16)
    requires { (array_vec_len line.old + 49) + length sign.now ≤ 256 }
    ensures { line.new.items ≡ line.old.items ++ locked_text sign.now width dst src offset }
{
    line.put(b"lock *");
    put_pointer(line, b'u', width.size(), dst, offset);
    line.put(sign);
    put_register(line, width, src);
}

/// A register's new value, up to the first operand that it is made of.
fn put_called(line: &mut LlvmLine, width: Width, r: Reg, name: &[u8])
    requires { (array_vec_len line.old + 8) + length name.now ≤ 256 }
    ensures text { line.new.items ≡ line.old.items ++ called_text width r name.now }
    ensures len { array_vec_len line.new ≤ (array_vec_len line.old + 8) + length name.now }
{
    put_register(line, width, r);
    line.put(b" = ");
    line.put(name);
    line.put(b"(");
}

/// The last operand of those that a register's new value is made of.
fn put_last(line: &mut LlvmLine, width: Width, r: Reg)
    requires { array_vec_len line.old + 7 ≤ 256 }
    ensures { line.new.items ≡ line.old.items ++ last_text width r }
{
    line.put(b", ");
    put_register(line, width, r);
    line.put(b")");
}

/// An atomic operation that gives the old value to the source register.
fn put_fetched(line: &mut LlvmLine, name: &[u8], width: Width, dst: Reg, src: Reg, offset: i16)
    requires { (array_vec_len line.old + 54) + length name.now ≤ 256 }
    ensures { line.new.items ≡ line.old.items ++ fetched_text name.now width dst src offset }
{
    put_called(line, width, src, name);
    put_pointer(line, b'u', width.size(), dst, offset);
    put_last(line, width, src);
}

fn put_exchanged(line: &mut LlvmLine, width: Width, dst: Reg, src: Reg, offset: i16)
    requires { array_vec_len line.old + 39 ≤ 256 }
    ensures { line.new.items ≡ line.old.items ++ exchanged_text width dst src offset }
{
    put_called(line, width, src, exchange_name(width));
    put_place(line, dst, offset);
    put_last(line, width, src);
}

fn put_compared(line: &mut LlvmLine, width: Width, dst: Reg, src: Reg, offset: i16)
    requires { array_vec_len line.old + 45 ≤ 256 }
    ensures { line.new.items ≡ line.old.items ++ compared_text width dst src offset }
{
    put_called(line, width, Reg::R0, compare_name(width));
    put_place(line, dst, offset);
    line.put(b", ");
    put_register(line, width, Reg::R0);
    put_last(line, width, src);
}

fn put_atomic(line: &mut LlvmLine, width: Width, op: AtomicOp, dst: Reg, src: Reg, offset: i16)
    requires { array_vec_len line.old + 80 ≤ 256 }
    ensures { line.new.items ≡ line.old.items ++ atomic_text width op dst src offset }
{
    match op {
        AtomicOp::Add => put_locked(line, b" += ", width, dst, src, offset),
        AtomicOp::Or => put_locked(line, b" |= ", width, dst, src, offset),
        AtomicOp::And => put_locked(line, b" &= ", width, dst, src, offset),
        AtomicOp::Xor => put_locked(line, b" ^= ", width, dst, src, offset),
        AtomicOp::FetchAdd => put_fetched(line, b"atomic_fetch_add", width, dst, src, offset),
        AtomicOp::FetchOr => put_fetched(line, b"atomic_fetch_or", width, dst, src, offset),
        AtomicOp::FetchAnd => put_fetched(line, b"atomic_fetch_and", width, dst, src, offset),
        AtomicOp::FetchXor => put_fetched(line, b"atomic_fetch_xor", width, dst, src, offset),
        AtomicOp::Exchange => put_exchanged(line, width, dst, src, offset),
        AtomicOp::CompareExchange => put_compared(line, width, dst, src, offset),
    }
}

fn put_goto(line: &mut LlvmLine, word: &[u8], offset: i32)
    requires { (array_vec_len line.old + 12) + length word.now ≤ 256 }
    ensures { line.new.items ≡ line.old.items ++ word.now ++ target_text offset }
{
    line.put(word);
    put_target(line, offset);
}

fn put_call(line: &mut LlvmLine, number: i32)
    requires { array_vec_len line.old + 16 ≤ 256 }
    ensures { line.new.items ≡ line.old.items ++ codes "call " ++ signed_decimal number }
{
    line.put(b"call ");
    line.put_decimal(number);
}

/// Adds the text of an instruction.
pub fn put_instr(line: &mut LlvmLine, i: &Instr)
    requires { array_vec_len line.old + 80 ≤ 256 }
    ensures { line.new.items ≡ line.old.items ++ llvm_text i.now }
{
    match *i {
        Instr::Alu {
            width,
            op,
            dst,
            src,
        } => put_alu(line, width, op, dst, src),
        Instr::Neg { width, dst } => put_made(line, width, dst, b" = -", dst),
        Instr::MovSx8 { width, dst, src } => put_made(line, width, dst, b" = (s8)", src),
        Instr::MovSx16 { width, dst, src } => put_made(line, width, dst, b" = (s16)", src),
        Instr::MovSx32 { dst, src } => put_made(line, Width::W64, dst, b" = (s32)", src),
        Instr::End { order, width, dst } => put_end(line, order, width, dst),
        Instr::Jump {
            width,
            cond,
            dst,
            src,
            offset,
        } => put_jump(line, width, cond, dst, src, offset),
        Instr::Ja { offset } => put_goto(line, b"goto ", i32::from(offset)),
        Instr::JaLong { offset } => put_goto(line, b"gotol ", offset),
        Instr::CallHelper { id } => put_call(line, id),
        Instr::CallLocal { offset } => put_call(line, offset),
        Instr::Exit => line.put(b"exit"),
        Instr::Load {
            size,
            dst,
            src,
            offset,
        } => put_load(line, size, dst, src, offset),
        Instr::LoadSigned {
            size,
            dst,
            src,
            offset,
        } => put_load_signed(line, size, dst, src, offset),
        Instr::Store {
            size,
            dst,
            src,
            offset,
        } => put_store(line, size, dst, src, offset),
        Instr::Atomic {
            width,
            op,
            dst,
            src,
            offset,
        } => put_atomic(line, width, op, dst, src, offset),
        Instr::LoadImm64 { dst, value } => put_imm64(line, dst, value),
    }
}
