//! Takes a slot as one of a row, by one match on the row.
ghost use Rattle.std.specs.Prelude.{◌≡◌};
ghost use Rattle.bpf_codec.specs.Decoding.{holds, taken, taken_of};

use crate::building::{Operands, build};
use crate::checks::may_hold_in;
use crate::layout::{Layout, layout_of};
use crate::slot::Slot;
use isa_table::{Instr, Operand};

/// Whether each of the slot's fields holds what that of the layout may hold.
#[tactic(auto, unfolding(crate::specs::Decoding::holds))]
#[inline(always)]
fn fits_fields(f: Slot, l: Layout) -> bool
    ensures { result ≡ holds f l }
{
    may_hold_in(l.dst, f.dst as u32)
        && may_hold_in(l.src, f.src as u32)
        && may_hold_in(l.offset, f.offset as u32)
        && may_hold_in(l.imm, f.imm)
}

/// The row's instruction with these operands, where the slot's fields hold what the row's may.
#[inline(always)]
fn take(f: Slot, row: Instr, o: Operands) -> Option<Instr>
    ensures { result ≡ taken f row o }
{
    if fits_fields(f, layout_of(row)) {
        Some(build(row, o))
    } else {
        None
    }
}

/// A match on an instruction, with an arm for each of these shapes: each shape is a pattern, and the instruction that it fits.
macro_rules! by_shape {
    ($row:expr, $take:ident, $slot:expr, $operands:expr; $([$($shape:tt)+])+) => {
        match $row {
            $($($shape)+ => $take($slot, $($shape)+, $operands),)+
        }
    };
}

/// The same, by variant. Each arm passes its variant on, so that the compiler knows its layout there.
#[inline(always)]
fn take_row(f: Slot, row: Instr, o: Operands) -> Option<Instr>
    ensures { result ≡ taken f row o }
{
    by_shape!(
        row, take, f, o;
        [Instr::Alu { width, op, dst, src: Operand::Imm(n) }]
        [Instr::Alu { width, op, dst, src: Operand::Register(src) }]
        [Instr::Jump { width, cond, dst, src: Operand::Imm(n), offset }]
        [Instr::Jump { width, cond, dst, src: Operand::Register(src), offset }]
        [Instr::Store { size, dst, src: Operand::Imm(n), offset }]
        [Instr::Store { size, dst, src: Operand::Register(src), offset }]
        [Instr::Load { size, dst, src, offset }]
        [Instr::LoadSigned { size, dst, src, offset }]
        [Instr::Atomic { width, op, dst, src, offset }]
        [Instr::Neg { width, dst }]
        [Instr::MovSx8 { width, dst, src }]
        [Instr::MovSx16 { width, dst, src }]
        [Instr::MovSx32 { dst, src }]
        [Instr::End { order, width, dst }]
        [Instr::Ja { offset }]
        [Instr::JaLong { offset }]
        [Instr::CallHelper { id }]
        [Instr::CallLocal { offset }]
        [Instr::Exit]
        [Instr::LoadImm64 { dst, value }]
    )
}

/// The same of the first of these rows. The others of an opcode are rare.
#[inline(always)]
pub fn take_first(f: Slot, rows: &[Instr], o: Operands) -> Option<Instr>
    ensures { result ≡ taken_of f rows.now o }
{
    if rows.is_empty() {
        return None;
    }
    take_row(f, rows[0], o)
}
