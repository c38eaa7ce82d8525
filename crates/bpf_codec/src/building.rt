//! Puts what a slot holds into the instruction of a row.
ghost use Rattle.std.specs.Prelude.{◌≡◌};
ghost use Rattle.bpf_codec.specs.Decoding.{register, operands, built_operand, built};

use crate::slot::Slot;
use isa_table::{Instr, Operand, Reg, registers};

/// The register of the number, or R0 where there is none.
#[tactic(auto, unfolding(crate::specs::Decoding::register))]
#[inline(always)]
fn register_at(n: u8) -> Reg
    ensures { result ≡ register n }
{
    if n < 11 {
        registers()[n as usize]
    } else {
        Reg::R0
    }
}

/// What a slot's fields hold, in each way that a row may read them.
#[derive(Clone, Copy, Drop)]
pub struct Operands {
    pub dst: Reg,
    pub src: Reg,
    pub offset: i16,
    pub imm: i32,
    pub value: u64,
}

/// The operands in a slot, and in the imm field of a second one.
#[tactic(auto, unfolding(crate::specs::Decoding::operands))]
#[inline(always)]
pub fn operands_of(f: Slot, next_imm: u32) -> Operands
    ensures { result ≡ operands f next_imm }
{
    Operands {
        dst: register_at(f.dst),
        src: register_at(f.src),
        offset: f.offset.cast_signed(),
        imm: f.imm.cast_signed(),
        value: f.imm as u64 + next_imm as u64 * 0x1_0000_0000,
    }
}

#[inline(always)]
fn operand_of(row: Operand, o: Operands) -> Operand
    ensures { result ≡ built_operand row o }
{
    match row {
        Operand::Imm(_) => Operand::Imm(o.imm),
        Operand::Register(_) => Operand::Register(o.src),
    }
}

/// The row's instruction with these operands.
#[tactic(auto, unfolding(crate::specs::Decoding::built))]
#[inline(always)]
pub fn build(row: Instr, o: Operands) -> Instr
    ensures { result ≡ built row o }
{
    let Operands {
        dst,
        src,
        offset,
        imm,
        value,
    } = o;
    match row {
        Instr::Alu { width, op, src, .. } => Instr::Alu {
            width,
            op,
            dst,
            src: operand_of(src, o),
        },
        Instr::Neg { width, .. } => Instr::Neg { width, dst },
        Instr::MovSx8 { width, .. } => Instr::MovSx8 { width, dst, src },
        Instr::MovSx16 { width, .. } => Instr::MovSx16 { width, dst, src },
        Instr::MovSx32 { .. } => Instr::MovSx32 { dst, src },
        Instr::End { order, width, .. } => Instr::End { order, width, dst },
        Instr::Jump {
            width,
            cond,
            src,
            ..
        } => Instr::Jump {
            width,
            cond,
            dst,
            src: operand_of(src, o),
            offset,
        },
        Instr::Ja { .. } => Instr::Ja { offset },
        Instr::JaLong { .. } => Instr::JaLong { offset: imm },
        Instr::CallHelper { .. } => Instr::CallHelper { id: imm },
        Instr::CallLocal { .. } => Instr::CallLocal { offset: imm },
        Instr::Exit => Instr::Exit,
        Instr::Load { size, .. } => Instr::Load {
            size,
            dst,
            src,
            offset,
        },
        Instr::LoadSigned { size, .. } => Instr::LoadSigned {
            size,
            dst,
            src,
            offset,
        },
        Instr::Store { size, src, .. } => Instr::Store {
            size,
            dst,
            src: operand_of(src, o),
            offset,
        },
        Instr::Atomic { width, op, .. } => Instr::Atomic {
            width,
            op,
            dst,
            src,
            offset,
        },
        Instr::LoadImm64 { .. } => Instr::LoadImm64 { dst, value },
    }
}
