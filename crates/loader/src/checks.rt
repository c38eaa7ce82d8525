//! What is asked of decoded code.
ghost use Rattle.std.specs.Prelude.{◌≡◌, ◌<◌, ◌≤◌, ◌+◌, ◌*◌, ◌↔◌, List, [], length, MatchOption};
ghost use Rattle.isa_table.specs.declared.instr.Instr.{Instr};
ghost use Rattle.isa_table.specs.Slots.{slots};
ghost use Rattle.loader.specs.Instructions.{writes_r10, calls_unknown_helper, ends_code};
ghost use Rattle.loader.specs.ValidCode.{code_limit, LeadsInside, IsSound, AllSound};
ghost use Rattle.loader.specs.Entries.{all_entries, instrs};
ghost use Rattle.loader.specs.Refusals.{IsLeastComplaint, IsFirstWrong};

use crate::leading::{slot_of, target_of};
use crate::loading::{LoadError, Why};
use crate::program::{CodeEntry, entry_at, plain_at};
use helpers::Helper;
use isa_table::{Instr, Reg, slots_of};

/// Whether R10 is written, which holds the frame pointer by the convention of the BPF ABI.
fn writes_frame_pointer(instr: Instr) -> bool
    ensures { result ≡ writes_r10 instr }
{
    matches!(instr.destination(), Some(Reg::R10))
}

/// Whether a helper function is called of a number that no helper has.
fn calls_missing_helper(instr: Instr) -> bool
    ensures { result ≡ calls_unknown_helper instr }
{
    match instr {
        Instr::CallHelper { id } => Helper::from_number(id).is_none(),
        _ => false,
    }
}

fn never_goes_on(instr: Instr) -> bool
    ensures { result ≡ ends_code instr }
{
    matches!(instr, Instr::Exit | Instr::Ja { .. } | Instr::JaLong { .. })
}

/// What is wrong with where the instruction leads.
fn jump_complaint(entries: &[CodeEntry], slot: usize, instr: Instr) -> Option<Why>
    requires short { 8 * length entries.now ≤ code_limit }
    requires room { 8 * slot < code_limit }
    ensures { (code after : List Instr) → instrs entries.now ≡ all_entries code
        → MatchOption result (LeadsInside code slot instr) (λ why. IsLeastComplaint code slot instr after why) }
{
    let to = target_of(slot, instr)?;
    let Some(to) = slot_of(to, entries.len()) else {
        return Some(Why::JumpOut);
    };
    match entry_at(entries, to) {
        Some(_) => None,
        None => Some(Why::JumpInside),
    }
}

/// The least that is wrong with the instruction.
fn complaint(entries: &[CodeEntry], slot: usize, instr: Instr) -> Option<Why>
    requires short { 8 * length entries.now ≤ code_limit }
    requires room { 8 * slot < code_limit }
    ensures { (code after : List Instr) → instrs entries.now ≡ all_entries code → (after ≡ []) ↔ (slot + slots instr ≡ length entries.now)
        → MatchOption result (IsSound code slot instr after) (λ why. IsLeastComplaint code slot instr after why) }
{
    if let Some(why) = jump_complaint(entries, slot, instr) {
        return Some(why);
    }
    if writes_frame_pointer(instr) {
        return Some(Why::WritesR10);
    }
    if calls_missing_helper(instr) {
        return Some(Why::Helper);
    }
    if slot + slots_of(&instr) == entries.len() && !never_goes_on(instr) {
        return Some(Why::FallsOff);
    }
    None
}

/// The first instruction with which something is wrong, and the least that is wrong with it.
pub(crate) fn first_complaint(entries: &[CodeEntry]) -> Option<LoadError>
    requires { 8 * length entries.now ≤ code_limit }
    ensures { (code : List Instr) → instrs entries.now ≡ all_entries code → MatchOption result (AllSound code code 0) (λ e. IsFirstWrong code code 0 e.slot e.why) }
{
    let mut slot = 0;
    'instrs: loop {
        if plain_at(entries, slot) && slot + 1 < entries.len() {
            slot += 1;
            continue 'instrs;
        }
        let instr = entry_at(entries, slot)?;
        if let Some(why) = complaint(entries, slot, instr) {
            return Some(why.at(slot));
        }
        slot += slots_of(&instr);
    }
}
