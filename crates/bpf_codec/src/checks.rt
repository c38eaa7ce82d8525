//! Which row of the instruction table a slot is of.
ghost use Rattle.std.specs.Prelude.{◌≡◌};
ghost use Rattle.std.specs.List.{list_any};
ghost use Rattle.bpf_codec.specs.Faults.{is_register, may_hold, has_registers_of, is_of, is_of_platform};
ghost use Rattle.bpf_codec.specs.Decoding.{row_for, have_registers, checked};

use crate::fault::Fault;
use crate::layout::{Field, Layout, layout_of, platform_layouts};
use crate::slot::Slot;
use isa_table::Instr;

/// Whether the number is a register's, where the field is read as one.
#[inline(always)]
fn is_register_in(field: Field, n: u32) -> bool
    ensures { result ≡ is_register field n }
{
    match field {
        Field::Register(_) => n < 11,
        _ => true,
    }
}

/// Whether a field of this kind may hold the number.
#[inline(always)]
pub fn may_hold_in(field: Field, n: u32) -> bool
    ensures { result ≡ may_hold field n }
{
    match field {
        Field::Only(m) => n == m,
        _ => is_register_in(field, n),
    }
}

/// Whether the slot has the layout's opcode, and registers where the layout has them.
#[tactic(auto, unfolding(crate::specs::Faults::has_registers_of))]
fn holds_registers(f: Slot, l: Layout) -> bool
    ensures { result ≡ has_registers_of f l }
{
    f.opcode == l.opcode
        && is_register_in(l.dst, f.dst as u32)
        && is_register_in(l.src, f.src as u32)
}

/// Whether the slot has the layout's opcode, and each of its fields holds what that of the layout may hold.
#[tactic(auto, unfolding(crate::specs::Faults::is_of))]
#[inline(always)]
fn fits_layout(f: Slot, l: Layout) -> bool
    ensures { result ≡ is_of f l }
{
    f.opcode == l.opcode
        && may_hold_in(l.dst, f.dst as u32)
        && may_hold_in(l.src, f.src as u32)
        && may_hold_in(l.offset, f.offset as u32)
        && may_hold_in(l.imm, f.imm)
}

/// The first of these rows that the slot is of.
#[inline(always)]
fn find_row(f: Slot, rows: &[Instr]) -> Option<Instr>
    ensures { result ≡ row_for f rows.now }
{
    for row in rows {
        if fits_layout(f, layout_of(*row)) {
            return Some(*row);
        }
    }
    None
}

/// Whether the slot holds registers where some of these rows have them.
fn any_holds_registers(f: Slot, rows: &[Instr]) -> bool
    ensures { result ≡ have_registers f rows.now }
{
    for row in rows {
        if holds_registers(f, layout_of(*row)) {
            return true;
        }
    }
    false
}

/// Whether the slot is of one of these layouts.
fn fits_any(f: Slot, layouts: &[Layout]) -> bool
    ensures { result ≡ list_any (is_of f) layouts.now }
{
    for layout in layouts {
        if fits_layout(f, *layout) {
            return true;
        }
    }
    false
}

/// Whether only a platform defines what the slot means.
fn is_of_platform(f: Slot) -> bool
    ensures { result ≡ is_of_platform f }
{
    fits_any(f, platform_layouts())
}

/// The row that the slot is of, by the rows of its opcode; none where the slot is the platform's.
#[tactic(auto, unfolding(crate::specs::Decoding::checked))]
#[inline(always)]
pub fn check(f: Slot, rows: &[Instr]) -> Result<Option<Instr>, Fault>
    ensures { result ≡ checked f rows.now }
{
    if let Some(row) = find_row(f, rows) {
        return Ok(Some(row));
    }
    if is_of_platform(f) {
        return Ok(None);
    }
    if any_holds_registers(f, rows) {
        Err(Fault::Field)
    } else {
        Err(Fault::Register)
    }
}
