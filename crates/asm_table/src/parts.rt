//! An instruction's mnemonic and operands.
ghost use Rattle.std.specs.Prelude.{◌≡◌, ◌∷◌, []};
ghost use Rattle.asm_table.specs.Parts.{mnemonic_of, operands_of, second_operand};

use crate::mnemonic::Mnemonic;
use crate::operands::AsmOperand::{Imm, Imm64, LongOffset, Memory, Offset, Register};
use crate::operands::{AsmOperand, Operands};
use isa_table::{Instr, Operand};

/// What the instruction does.
pub fn mnemonic_of(i: &Instr) -> Mnemonic
    ensures { result ≡ mnemonic_of i.now }
{
    match *i {
        Instr::Alu { width, op, .. } => Mnemonic::Alu(width, op),
        Instr::Neg { width, .. } => Mnemonic::Neg(width),
        Instr::MovSx8 { width, .. } => Mnemonic::MovSx8(width),
        Instr::MovSx16 { width, .. } => Mnemonic::MovSx16(width),
        Instr::MovSx32 { .. } => Mnemonic::MovSx32,
        Instr::End { order, width, .. } => Mnemonic::End(order, width),
        Instr::Jump { width, cond, .. } => Mnemonic::Jump(width, cond),
        Instr::Ja { .. } => Mnemonic::Ja,
        Instr::JaLong { .. } => Mnemonic::JaLong,
        Instr::CallHelper { .. } => Mnemonic::CallHelper,
        Instr::CallLocal { .. } => Mnemonic::CallLocal,
        Instr::Exit => Mnemonic::Exit,
        Instr::Load { size, .. } => Mnemonic::Load(size),
        Instr::LoadSigned { size, .. } => Mnemonic::LoadSigned(size),
        Instr::Store {
            size,
            src: Operand::Imm(_),
            ..
        } => Mnemonic::StoreImm(size),
        Instr::Store {
            size,
            src: Operand::Register(_),
            ..
        } => Mnemonic::StoreRegister(size),
        Instr::Atomic { width, op, .. } => Mnemonic::Atomic(width, op),
        Instr::LoadImm64 { .. } => Mnemonic::LoadImm64,
    }
}

fn second(src: Operand) -> AsmOperand
    ensures { result ≡ second_operand src }
{
    match src {
        Operand::Imm(z) => Imm(z),
        Operand::Register(r) => Register(r),
    }
}

fn one(a: AsmOperand) -> Operands
    ensures { result.items ≡ a ∷ [] }
{
    let mut all = Operands::new();
    all.push(a);
    all
}

fn two(a: AsmOperand, b: AsmOperand) -> Operands
    ensures { result.items ≡ a ∷ b ∷ [] }
{
    let mut all = Operands::new();
    all.push(a);
    all.push(b);
    all
}

fn three(a: AsmOperand, b: AsmOperand, c: AsmOperand) -> Operands
    ensures { result.items ≡ a ∷ b ∷ c ∷ [] }
{
    let mut all = Operands::new();
    all.push(a);
    all.push(b);
    all.push(c);
    all
}

/// What stands after its mnemonic.
pub fn operands_of(i: &Instr) -> Operands
    ensures { result.items ≡ operands_of i.now }
{
    match *i {
        Instr::Alu { dst, src, .. } => two(Register(dst), second(src)),
        Instr::Neg { dst, .. } => one(Register(dst)),
        Instr::MovSx8 { dst, src, .. } => two(Register(dst), Register(src)),
        Instr::MovSx16 { dst, src, .. } => two(Register(dst), Register(src)),
        Instr::MovSx32 { dst, src } => two(Register(dst), Register(src)),
        Instr::End { dst, .. } => one(Register(dst)),
        Instr::Jump {
            dst,
            src,
            offset,
            ..
        } => three(Register(dst), second(src), Offset(offset)),
        Instr::Ja { offset } => one(Offset(offset)),
        Instr::JaLong { offset } => one(LongOffset(offset)),
        Instr::CallHelper { id } => one(Imm(id)),
        Instr::CallLocal { offset } => one(LongOffset(offset)),
        Instr::Exit => Operands::new(),
        Instr::Load {
            dst,
            src,
            offset,
            ..
        } => two(Register(dst), Memory(src, offset)),
        Instr::LoadSigned {
            dst,
            src,
            offset,
            ..
        } => two(Register(dst), Memory(src, offset)),
        Instr::Store {
            dst,
            src,
            offset,
            ..
        } => two(Memory(dst, offset), second(src)),
        Instr::Atomic {
            dst,
            src,
            offset,
            ..
        } => two(Memory(dst, offset), Register(src)),
        Instr::LoadImm64 { dst, value } => two(Register(dst), Imm64(value)),
    }
}
