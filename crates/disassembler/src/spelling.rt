//! The lines of a program, in any spelling of its instructions.
ghost use Rattle.std.specs.Prelude.{◌≡◌, ◌++◌, ℕ, List, codes, decimal, IfOk, OnOk};
ghost use Rattle.isa_table.specs.declared.instr.Instr.{Instr};
ghost use Rattle.disassembler.specs.TextOf.{HasLines, shown_line};

use isa_table::{Instr, slots_of};
use loader::Program;
use std::alloc::{AllocError, Global};

/// How an instruction is spelled.
pub trait Spelling {
    /// Its line, without a line end.
    ghost spelled: { Instr → List ℕ };

    /// Adds the line of an instruction, without a line end.
    fn put(i: &Instr, out: &mut Vec<u8>) -> Result<(), AllocError>
        ensures { OnOk result (out.new.items ≡ out.old.items ++ spelled i.now) };
}

/// Adds the number of a slot, as it stands before a line.
fn put_slot(slot: usize, out: &mut Vec<u8>) -> Result<(), AllocError>
    ensures { OnOk result (out.new.items ≡ (out.old.items ++ decimal slot) ++ codes ": ") }
{
    out.extend_from_slice(itoa::Buffer::new().format(slot).as_bytes())?;
    out.extend_from_slice(b": ")
}

/// Adds the line of the instruction at a slot, after the slot's number where it is asked for.
fn put_line<S: Spelling>(
    has_slots: bool,
    slot: usize,
    i: &Instr,
    out: &mut Vec<u8>,
) -> Result<(), AllocError>
    ensures { OnOk result (out.new.items ≡ out.old.items ++ shown_line S.spelled has_slots slot i.now) }
{
    if has_slots {
        put_slot(slot, out)?;
    }
    S::put(i, out)?;
    out.extend_from_slice(b"\n")
}

/// The lines of the program in the spelling `S`, each with a line end, and after the number of its
/// first slot where it is asked for, as in `2: exit`.
pub fn spelled_lines<S: Spelling>(
    alloc: Global,
    has_slots: bool,
    program: &Program,
) -> Result<Vec<u8>, AllocError>
    ensures { IfOk result (λ t. HasLines S.spelled has_slots program.now t.items) }
{
    let mut out = Vec::new(alloc);
    let mut slot = 0;
    prove!(program.slots() > 0);
    while let Some(i) = program.at(slot) {
        put_line::<S>(has_slots, slot, &i, &mut out)?;
        slot += slots_of(&i);
    }
    Ok(out)
}
