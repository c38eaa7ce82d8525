//! What is done with a debugged machine and what is answered, as plain values.

use crate::common::{Session, session_of, show, step_over};
use crate::compared::compare_row;
use debugger::{
    BREAK_LIMIT, DebugCommand, Debugged, ShowCommand, ShowReply, State, StepReply, Way,
};
use std::alloc::Global;
use std::process::Abort;
use std::test::Fail;

/// What is done.
#[derive(Clone, Copy, Drop, Debug)]
pub enum Act {
    /// `step`: a stop comes first, then a pause.
    Step,
    /// `one`: without a look at pauses.
    One,
    /// A breakpoint at a slot.
    Break(u32),
    Unbreak(u32),
    /// A range is watched: an address and a length.
    Watch(u64, u32),
    Unwatch(u64, u32),
    /// The machine may go on.
    GoOn,
    /// It is looked at the slot, the fuel and the state.
    Point,
    Registers,
    /// One register.
    Register(usize),
    Breakpoints,
    /// How many ranges are watched.
    Watches,
    /// Whether the next breakpoint is passed, and whether the machine is paused.
    Passes,
    /// Whether the machine would pause at a slot.
    Pauses(usize),
    /// The first four bytes of object 1.
    Object,
    /// The emitted values are shown.
    Out,
    /// Bytes of the stack are shown: an offset and a length.
    Stack(u32, u32),
}

/// What is answered.
#[derive(Clone, Copy, Drop, Debug, PartialEq, Eq)]
pub enum Answer {
    Stepped(StepReply),
    Debugged(Debugged),
    Point(usize, u64, State),
    Registers([u64; 11]),
    Register(u64),
    /// How many there are, and their slots, with zeros behind.
    Breakpoints(usize, [usize; BREAK_LIMIT]),
    Watches(usize),
    Passes(bool, bool),
    Pauses(bool),
    /// How many bytes there are, and the first five, with zeros behind.
    Bytes(usize, [u8; 5]),
    /// How many values there are, and the first two, with zeros behind.
    Values(usize, [u64; 2]),
    Outside,
    /// Something else than what was asked for.
    Else,
}

/// A command of the debugger that was done.
pub const DONE: Answer = Answer::Debugged(Debugged::Done);

/// The reply to `step` where a breakpoint, a watched range or nothing was met, with the slot that is next.
macro_rules! stepped {
    ($reply:ident $slot:expr) => {
        Answer::Stepped(StepReply::$reply($slot))
    };
}

pub(crate) use stepped;

/// How many bytes these are, and the first five.
fn bytes_of(bytes: &[u8]) -> Answer {
    let mut first = [0; 5];
    for index in 0..5 {
        if let Some(&byte) = bytes.get(index) {
            first[index] = byte;
        }
    }
    Answer::Bytes(bytes.len(), first)
}

/// How many slots these are, and all of them.
fn breakpoints_of(slots: &[usize]) -> Answer {
    let mut all = [0; BREAK_LIMIT];
    for index in 0..BREAK_LIMIT {
        if let Some(&slot) = slots.get(index) {
            all[index] = slot;
        }
    }
    Answer::Breakpoints(slots.len(), all)
}

/// How many values these are, and the first two.
fn values_of(values: &[u64]) -> Answer {
    let first = values.first().copied().unwrap_or(0);
    let second = values.get(1).copied().unwrap_or(0);
    Answer::Values(values.len(), [first, second])
}

/// What a command shows.
fn shown(alloc: Global, session: &Session, command: ShowCommand) -> Answer {
    match show(alloc, session, command) {
        ShowReply::Emitted(values) => values_of(values.as_slice()),
        ShowReply::Bytes(bytes) => bytes_of(bytes.as_slice()),
        ShowReply::Outside => Answer::Outside,
        _ => Answer::Else,
    }
}

/// The first four bytes of object 1.
fn object(session: &Session) -> Answer {
    match session.store.get(1, 0, 4) {
        Ok(bytes) => bytes_of(bytes.as_slice()),
        Err(_) => Answer::Else,
    }
}

/// What is seen of a machine.
fn point(session: &Session) -> Answer {
    let shown = session.debuggee.shown();
    Answer::Point(shown.slot, shown.fuel, shown.state)
}

/// One step over the objects.
fn step(session: &mut Session, way: Way) -> Answer {
    Answer::Stepped(step_over(&mut session.debuggee, &mut session.store, way))
}

/// A command of the debugger.
fn debug(session: &mut Session, command: DebugCommand) -> Answer {
    Answer::Debugged(session.debuggee.debug(command))
}

/// The answer to one act.
fn done(alloc: Global, session: &mut Session, act: Act) -> Answer {
    match act {
        Act::Step => step(session, Way::Step),
        Act::One => step(session, Way::One),
        Act::Break(slot) => debug(session, DebugCommand::Break { slot }),
        Act::Unbreak(slot) => debug(session, DebugCommand::Unbreak { slot }),
        Act::Watch(address, length) => debug(session, DebugCommand::Watch { address, length }),
        Act::Unwatch(address, length) => debug(session, DebugCommand::Unwatch { address, length }),
        Act::GoOn => debug(session, DebugCommand::Resume),
        Act::Point => point(session),
        Act::Registers => Answer::Registers(session.debuggee.shown().registers),
        Act::Register(number) => {
            let registers = session.debuggee.shown().registers;
            Answer::Register(registers.get(number).copied().unwrap_or(0))
        }
        Act::Breakpoints => breakpoints_of(session.debuggee.debugger.breakpoints()),
        Act::Watches => Answer::Watches(session.debuggee.debugger.watches().len()),
        Act::Passes => {
            let debugger = &session.debuggee.debugger;
            Answer::Passes(debugger.passes(), debugger.is_paused())
        }
        Act::Pauses(slot) => Answer::Pauses(session.debuggee.debugger.pauses(slot)),
        Act::Object => object(session),
        Act::Out => shown(alloc, session, ShowCommand::Out),
        Act::Stack(offset, length) => {
            shown(alloc, session, ShowCommand::Stack { offset, length })
        }
    }
}

/// A machine with fuel, R1 to R5 and this code, over an object of eight bytes, answers each act so.
pub fn tells(
    rt: &impl Abort,
    alloc: Global,
    fuel: u64,
    arguments: [u64; 5],
    slots: &[u64],
    table: &[(Act, Answer)],
) -> Result<(), Fail> {
    let mut session = session_of(alloc, fuel, arguments, slots)?;
    for row in 0..table.len() {
        let (act, wanted) = table[row];
        let found = done(alloc, &mut session, act);
        compare_row(rt, "answer", &(row, act), &found, &wanted);
    }
    Ok(())
}
