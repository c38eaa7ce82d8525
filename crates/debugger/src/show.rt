//! What is shown of a machine, as it is: what is asked, what is answered. Nothing changes.
ghost use Rattle.std.specs.Prelude.{◌≡◌, ◌<◌, ◌^◌};
ghost use Rattle.debugger.specs.Showing.{state_of, shown_of, Shows, ShowsBytes, ShowsLine};

use crate::debuggee::Debuggee;
use crate::shown::{LineText, Shown, State, Values};
use disassembler::line;
use loader::Program;
use machine::Stop;
use memory::Bytes;
use std::alloc::Global;

/// What is to be shown of a machine.
#[derive(Clone, Copy, Drop, Debug)]
pub enum ShowCommand {
    /// Its registers, with slot, fuel and state.
    Regs,
    /// The values that it has emitted.
    Out,
    /// So many bytes of its stack, from an offset on.
    Stack { offset: u32, length: u32 },
    /// The instruction that begins at a slot of its code.
    Line { slot: u32 },
}

/// What is shown of a machine, or why it isn't.
#[derive(Drop, Debug, PartialEq, Eq)]
pub enum ShowReply {
    /// What the machine is.
    Registers(Shown),
    /// What it has emitted.
    Emitted(Values),
    /// The bytes that were asked for.
    Bytes(Bytes),
    /// The instruction at a slot, as assembly.
    Disassembled { slot: u32, text: LineText },
    /// The bytes are not all within the stack.
    Outside,
    /// No instruction begins at the slot.
    NoSlot,
    /// Out of memory.
    NoMemory,
}

/// Whether a machine goes on, is paused or is stopped.
fn state_of(stop: Option<Stop>, paused: bool) -> State
    ensures { result ≡ state_of stop paused }
{
    match stop {
        Some(stop) => State::Stopped(stop),
        None if paused => State::Paused,
        None => State::Running,
    }
}

impl Debuggee {
    /// What is shown of the machine: its state, as it is.
    pub fn show(&self, alloc: Global, command: ShowCommand) -> ShowReply
        ensures { Shows command self.now result }
    {
        match command {
            ShowCommand::Regs => ShowReply::Registers(self.shown()),
            ShowCommand::Out => ShowReply::Emitted(Values::new(self.machine.emitted())),
            ShowCommand::Stack { offset, length } => {
                show_range(
                    alloc,
                    self.machine.stack(),
                    offset as usize,
                    length as usize,
                )
            }
            ShowCommand::Line { slot } => show_line(alloc, self.machine.program(), slot),
        }
    }

    /// Slot, fuel, state and registers. Takes no memory.
    pub fn shown(&self) -> Shown
        ensures { result ≡ shown_of self.now.machine self.now.debugger }
    {
        Shown {
            slot: self.machine.slot(),
            fuel: self.machine.fuel(),
            state: state_of(self.machine.stop(), self.debugger.is_paused()),
            registers: *self.machine.registers(),
        }
    }
}

/// So many of these bytes, from an offset on.
fn show_range(alloc: Global, bytes: &[u8], offset: usize, length: usize) -> ShowReply
    requires { (offset < 2 ^ 32) × (length < 2 ^ 32) }
    ensures { ShowsBytes bytes.now offset length result }
{
    if offset + length > bytes.len() {
        return ShowReply::Outside;
    }
    match Vec::from_slice(alloc, &bytes[offset..offset + length]) {
        Ok(shown) => ShowReply::Bytes(Bytes::new(shown)),
        Err(_) => ShowReply::NoMemory,
    }
}

/// The canonical spelling, without a line end, of the instruction that begins at a slot, if one does.
fn show_line(alloc: Global, program: &Program, slot: u32) -> ShowReply
    ensures { ShowsLine program.now slot result }
{
    let Some(instr) = program.at(slot as usize) else {
        return ShowReply::NoSlot;
    };
    let mut text = Vec::new(alloc);
    match line(&instr, &mut text) {
        Ok(()) => ShowReply::Disassembled {
            slot,
            text: LineText::new(text),
        },
        Err(_) => ShowReply::NoMemory,
    }
}
