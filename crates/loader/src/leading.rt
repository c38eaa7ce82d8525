//! Where an instruction leads.
ghost use Rattle.std.specs.Prelude.{◌≡◌, ◌<◌, ◌≤◌, ◌*◌, ℕ, pos, IfSome, IfNone};
ghost use Rattle.loader.specs.Instructions.{target};
ghost use Rattle.loader.specs.Rows.{IsLead};
ghost use Rattle.loader.specs.ValidCode.{code_limit};

use isa_table::Instr;

/// The slot to which the instruction at the slot jumps or calls.
pub(crate) fn target_of(slot: usize, instr: Instr) -> Option<i64>
    requires { 8 * slot < code_limit }
    ensures { result ≡ target slot instr }
{
    let next = slot as i64 + 1;
    match instr {
        Instr::Jump { offset, .. } => Some(next + i64::from(offset)),
        Instr::Ja { offset } => Some(next + i64::from(offset)),
        Instr::JaLong { offset } => Some(next + i64::from(offset)),
        Instr::CallLocal { offset } => Some(next + i64::from(offset)),
        _ => None,
    }
}

/// The slot of this number, where there are so many.
pub(crate) fn slot_of(number: i64, count: usize) -> Option<usize>
    requires { 8 * count ≤ code_limit }
    ensures some { IfSome result (λ m. (number ≡ pos m) × (m < count)) }
    ensures none { IfNone result ((m : ℕ) → number ≡ pos m → m < count → ⊥) }
{
    if 0 <= number && number < count as i64 {
        Some(number as usize)
    } else {
        None
    }
}

/// How many slots code may have.
const SLOT_LIMIT: usize = 4096;

/// The slot of code to which the instruction at the slot jumps or calls; 0 where it leads to none.
pub(crate) fn lead(slot: usize, instr: Instr) -> u16
    requires { 8 * slot < code_limit }
    ensures { IsLead slot instr result }
{
    let Some(to) = target_of(slot, instr) else {
        return 0;
    };
    match slot_of(to, SLOT_LIMIT) {
        Some(to) => to as u16,
        None => 0,
    }
}
