//! What is done with a machine and the objects that it reaches, and what is answered, as plain values.

use crate::common::{EXIT, machine_of, objects, runs, step, store_of};
use crate::compared::compare_row;
use crate::grants::{May, granted};
use far_store::OwnStore;
use isa_table::Instr;
use machine::{Frame, Machine, Stepped, Stop};
use memory::OBJECT_BYTES;
use object_store::{Moved, ObjectStore};
use std::alloc::Global;
use std::mem::swap;
use std::process::Abort;
use std::test::Fail;

/// What is done. Every machine has number 1.
#[derive(Clone, Copy, Drop, Debug)]
pub enum Act {
    /// The store is another one, which has one object of these bytes.
    Object([u8; 8]),
    /// The store is another one, without objects.
    NoObjects,
    /// An object of so many bytes is made.
    Make(u32),
    /// So many objects of eight bytes are made, of which the last is told.
    MakeAll(u32),
    /// The scopes of the machine are closed, and an object is freed.
    Free(u32),
    /// An object begins to leave.
    Leave(u32),
    /// The eight bytes of an object are read.
    Bytes(u32),
    /// The machine is another one, with fuel, R1 to R5 and this code.
    Start(u64, [u64; 5], &'static [u64]),
    /// The machine is another one, which may reach these objects and has R1 and R2. Its code is this slot and EXIT.
    Granted(May, [u64; 2], u64),
    /// The same, and it does its first instruction.
    First(May, [u64; 2], u64),
    /// The machine and the one beside it change places.
    Swap,
    /// The machine does its next instruction.
    Step,
    /// The machine does so many instructions, none of which writes.
    Runs(u64),
    /// It is looked at something of the machine.
    Show(Show),
}

/// What of a machine is looked at.
#[derive(Clone, Copy, Drop, Debug)]
pub enum Show {
    /// Its slot, its fuel and its stop.
    Point,
    /// One register.
    Register(usize),
    Registers,
    /// How many calls are open.
    Frames,
    /// What the first open call keeps.
    FirstFrame,
    /// How long the stack is, and its eight bytes from a place on.
    Stack(usize),
    /// How long the stack is, and whether all of its bytes are zero.
    IsStackClear,
    /// Its number, how many slots its program has, and the instruction at slot 1.
    Program,
}

/// What is answered.
#[derive(Clone, Copy, Drop, Debug, PartialEq, Eq)]
pub enum Answer {
    Done,
    Made(u32),
    Moved(Moved),
    Bytes([u8; 8]),
    Stepped(Stepped),
    /// So many instructions were done and wrote nothing.
    Ran(u64),
    Point(usize, u64, Option<Stop>),
    Register(u64),
    Registers([u64; 11]),
    Frames(usize),
    Frame(Option<Frame>),
    Stack(usize, [u8; 8]),
    StackClear(usize, bool),
    Program(usize, usize, Option<Instr>),
    /// No object may have so many bytes, so that none was made.
    Unasked,
}

/// An instruction that writes nothing.
pub const RAN: Answer = Answer::Stepped(Stepped::Ran(None));

/// An access that is outside.
pub const OUTSIDE: Answer = Answer::Stepped(Stepped::Stopped(Stop::Outside));

/// An atomic operation that isn't aligned.
pub const MISALIGNED: Answer = Answer::Stepped(Stepped::Stopped(Stop::Misaligned));

/// A machine, one beside it, and the objects that both reach.
#[derive(Drop)]
struct Bench {
    machine: Machine,
    beside: Machine,
    store: ObjectStore<OwnStore>,
}

/// The first eight of these bytes, with zeros behind.
pub fn first_eight(bytes: &[u8]) -> [u8; 8] {
    let mut first = [0; 8];
    for index in 0..8 {
        if let Some(&byte) = bytes.get(index) {
            first[index] = byte;
        }
    }
    first
}

/// What is seen of a machine.
fn shown(machine: &Machine, show: Show) -> Answer {
    match show {
        Show::Point => Answer::Point(machine.slot(), machine.fuel(), machine.stop()),
        Show::Register(number) => {
            Answer::Register(machine.registers().get(number).copied().unwrap_or(0))
        }
        Show::Registers => Answer::Registers(*machine.registers()),
        Show::Frames => Answer::Frames(machine.frames().len()),
        Show::FirstFrame => Answer::Frame(machine.frames().first().copied()),
        Show::Stack(place) => {
            let stack = machine.stack();
            Answer::Stack(stack.len(), first_eight(stack.get(place..).unwrap_or(&[])))
        }
        Show::IsStackClear => {
            let stack = machine.stack();
            Answer::StackClear(stack.len(), stack.iter().all(|&byte| byte == 0))
        }
        Show::Program => {
            let program = machine.program();
            Answer::Program(machine.number(), program.slots(), program.at(1))
        }
    }
}

/// Makes an object.
fn made(store: &mut ObjectStore<OwnStore>, length: u32) -> Result<Answer, Fail> {
    if length == 0 || length > OBJECT_BYTES as u32 {
        return Ok(Answer::Unasked);
    }
    Ok(Answer::Made(store.make(length)?))
}

/// Makes so many objects of eight bytes.
fn made_all(store: &mut ObjectStore<OwnStore>, count: u32) -> Result<Answer, Fail> {
    let mut last = 0;
    for _ in 0..count {
        last = store.make(8)?;
    }
    Ok(Answer::Made(last))
}

impl Bench {
    /// The store is this one.
    fn with_store(&mut self, store: ObjectStore<OwnStore>) -> Answer {
        self.store = store;
        Answer::Done
    }

    /// The machine is this one.
    fn with_machine(&mut self, machine: Machine) -> Answer {
        self.machine = machine;
        Answer::Done
    }

    /// The machine and the one beside it change places.
    fn swap(&mut self) -> Answer {
        swap(&mut self.machine, &mut self.beside);
        Answer::Done
    }

    /// One step of the machine.
    fn step(&mut self) -> Answer {
        Answer::Stepped(step(&mut self.machine, &mut self.store))
    }

    /// The first eight bytes of an object.
    fn bytes(&self, number: u32) -> Result<Answer, Fail> {
        let bytes = self.store.get(number, 0, 8)?;
        Ok(Answer::Bytes(first_eight(bytes.as_slice())))
    }

    /// Frees an object of which no scope is open.
    fn free(&mut self, number: u32) -> Answer {
        self.store.close_scopes(1);
        Answer::Moved(self.store.free(number))
    }

    /// The answer to one act.
    fn done(&mut self, alloc: Global, act: Act) -> Result<Answer, Fail> {
        Ok(match act {
            Act::Object(bytes) => self.with_store(store_of(alloc, bytes)?),
            Act::NoObjects => self.with_store(objects(alloc)?),
            Act::Make(length) => made(&mut self.store, length)?,
            Act::MakeAll(count) => made_all(&mut self.store, count)?,
            Act::Free(number) => self.free(number),
            Act::Leave(number) => Answer::Moved(self.store.leave(number)),
            Act::Bytes(number) => self.bytes(number)?,
            Act::Start(fuel, arguments, slots) => {
                self.with_machine(machine_of(alloc, fuel, arguments, slots)?)
            }
            Act::Granted(may, first, slot) => {
                self.with_machine(granted(alloc, may, first, slot)?)
            }
            Act::First(may, first, slot) => {
                let _ = self.with_machine(granted(alloc, may, first, slot)?);
                self.step()
            }
            Act::Swap => self.swap(),
            Act::Step => self.step(),
            Act::Runs(count) => Answer::Ran(runs(&mut self.machine, &mut self.store, count)),
            Act::Show(show) => shown(&self.machine, show),
        })
    }
}

/// Each act is answered so. There are no objects at first, and the machines have no fuel.
pub fn tells(rt: &impl Abort, alloc: Global, table: &[(Act, Answer)]) -> Result<(), Fail> {
    let mut bench = Bench {
        machine: machine_of(alloc, 0, [0; 5], &[EXIT])?,
        beside: machine_of(alloc, 0, [0; 5], &[EXIT])?,
        store: objects(alloc)?,
    };
    for row in 0..table.len() {
        let (act, wanted) = table[row];
        let found = bench.done(alloc, act)?;
        compare_row(rt, "answer", &(row, act), &found, &wanted);
    }
    Ok(())
}
