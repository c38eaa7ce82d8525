//! Parts of a machine that others see.
ghost use Rattle.std.specs.Prelude.{◌≡◌, ◌≢◌, ◌<◌, ◌≤◌, ℕ, Some, length, IfSome, IfNone};
ghost use Rattle.machine.specs.Points.{fuel_after};
ghost use Rattle.machine.specs.Stops.{stop_name, stop_number};
ghost use Rattle.machine.specs.declared.state.Stop.{Stop};
ghost use Rattle.machine.specs.declared.state.Stop.TheVariants as stop;

use isa_table::Size;
use loader::CodeEntry;
use memory::Op;

/// How many calls may be open at a time: this project's choice.
pub(crate) const DEPTH_LIMIT: usize = 8;

/// How many bytes a machine's own stack has: this project's choice.
pub const STACK_SIZE: usize = 4096;

/// The number by which a running machine reaches its own stack.
pub(crate) const OWN_STACK: u32 = 0xffff_ffff;

/// Why a machine goes on no more.
#[derive(Clone, Copy, Drop, Debug, PartialEq, Eq)]
pub enum Stop {
    /// The program ended, with this value in R0.
    Exit(u64),
    /// An access that isn't within the bytes of an object, or of the machine's stack.
    Outside,
    /// An atomic operation at an offset that is no multiple of its size.
    Misaligned,
    /// A ninth call, where eight have not returned.
    Depth,
    /// No fuel is left.
    Spent,
    /// The stamps of an object have run out.
    Worn,
    /// An access to an object that the machine may not reach, or not in this way.
    NotGranted,
}

impl Stop {
    ghost use Rattle.machine.specs.Runs.{fuel_of_stop};

    /// How much fuel it takes: that of EXIT.
    #[inline(always)]
    pub fn cost(self) -> u64
        ensures { result ≡ fuel_of_stop self }
    {
        match self {
            Stop::Exit(_) => 1,
            _ => 0,
        }
    }

    /// Its name, as replies write it.
    pub fn name(self) -> &'static [u8]
        ensures name { result.now ≡ stop_name self }
        ensures short { length result.now ≤ 10 }
    {
        match self {
            Stop::Exit(_) => b"exit",
            Stop::Outside => b"outside",
            Stop::Misaligned => b"misaligned",
            Stop::Depth => b"depth",
            Stop::Spent => b"spent",
            Stop::Worn => b"worn",
            Stop::NotGranted => b"notgranted",
        }
    }

    /// Its number, as the library for C has it: from 1 on, since 0 says there that a machine goes on.
    pub fn number(self) -> u32
        ensures { result ≡ stop_number self }
    {
        match self {
            Stop::Exit(_) => 1,
            Stop::Outside => 2,
            Stop::Misaligned => 3,
            Stop::Depth => 4,
            Stop::Spent => 5,
            Stop::Worn => 6,
            Stop::NotGranted => 7,
        }
    }

    /// The stop of that number. An exit's value isn't in its number, and is 0 here.
    pub fn numbered(number: u32) -> Option<Self>
        ensures some { IfSome result (λ stop. stop_number stop ≡ number) }
        ensures none { IfNone result ((stop : Stop) → stop_number stop ≢ number) }
        ensures exit { (value : ℕ) → result ≡ Some (stop.Exit value) → value ≡ 0 }
    {
        match number {
            1 => Some(Stop::Exit(0)),
            2 => Some(Stop::Outside),
            3 => Some(Stop::Misaligned),
            4 => Some(Stop::Depth),
            5 => Some(Stop::Spent),
            6 => Some(Stop::Worn),
            7 => Some(Stop::NotGranted),
            _ => None,
        }
    }
}

/// The bytes that an instruction wrote: of the object of that number, from the offset on.
#[derive(Clone, Copy, Drop, Debug, PartialEq, Eq)]
pub struct Written {
    pub number: u32,
    pub offset: u32,
    pub size: Size,
}

/// What a step did.
#[derive(Clone, Copy, Drop, Debug, PartialEq, Eq)]
pub enum Stepped {
    /// The instruction was done, and wrote these bytes, if any.
    Ran(Option<Written>),
    /// The object of that number can't be reached now. Nothing was done.
    Waiting(u32),
    /// The machine is stopped.
    Stopped(Stop),
}

/// Why a run of steps ended.
#[derive(Clone, Copy, Drop, Debug, PartialEq, Eq)]
pub enum Ended {
    /// As many instructions ran as were asked for.
    AllRan,
    /// The object of that number can't be reached now.
    Waiting(u32),
    /// The machine is stopped.
    Stopped(Stop),
}

/// An access, and the number of the object that it is to.
#[derive(Clone, Copy, Drop, Debug, PartialEq, Eq)]
pub struct Accessing {
    pub number: u32,
    pub op: Op,
}

/// Where a machine is, and what fuel it has. While it runs both are kept apart from it, in registers of the processor.
#[derive(Clone, Copy, Drop, Debug, PartialEq, Eq)]
pub struct Point {
    /// The slot where the next instruction begins.
    pub slot: usize,
    /// How many instructions may still be done.
    pub fuel: u64,
}

impl Point {
    /// The same point, with its slot read from the entry: a run doesn't count slots.
    #[inline(always)]
    pub(crate) fn at(self, entry: &CodeEntry) -> Point
        requires { entry.now.slot ≡ self.slot }
        ensures { result ≡ self }
    {
        Point {
            slot: entry.slot(),
            ..self
        }
    }
}

/// What a step did, the slot where the machine is then, and whether all its scopes close. What fuel it took, the answer tells.
#[derive(Clone, Copy, Drop, Debug, PartialEq, Eq)]
pub struct Done {
    pub slot: usize,
    pub answer: Stepped,
    pub closes: bool,
}

/// What one dispatch of a run did.
#[derive(Clone, Copy, Drop)]
pub enum Dispatched {
    /// One instruction ran and closes no scope. The machine goes on at the next slot.
    Past,
    /// The same, but the machine goes on at this slot.
    One(usize),
    /// Two instructions ran and close no scope. The machine goes on at the slot after the next one.
    PastTwo,
    /// The same, but the machine goes on at this slot.
    Two(usize),
    /// Whatever else one instruction came to.
    Other(Done),
}

impl Dispatched {
    ghost use Rattle.std.specs.Prelude.{ℕ, ◌+◌, Some};
    ghost use Rattle.machine.specs.Dispatches.{IsOf, IsRan, goes_to, two_go_to};

    /// What is kept of an instruction that was done: mostly it ran and closes no scope, and then its slot tells all.
    #[inline(always)]
    pub(crate) fn of(done: Done) -> Dispatched
        ensures { (slot : ℕ) → IsOf slot result done }
    {
        match done.answer {
            Stepped::Ran(_) if !done.closes => Dispatched::One(done.slot),
            _ => Dispatched::Other(done),
        }
    }

    /// What it is of two instructions, of which this is the second.
    #[inline(always)]
    pub(crate) fn second(self) -> Dispatched
        ensures { (slot to : ℕ) → goes_to (slot + 1) self ≡ Some to → two_go_to slot result ≡ Some to }
    {
        match self {
            Dispatched::Past => Dispatched::PastTwo,
            Dispatched::One(slot) => Dispatched::Two(slot),
            other => other,
        }
    }

    /// The same of an instruction after which the machine goes on at the next slot.
    #[inline(always)]
    pub(crate) fn past(done: Done) -> Dispatched
        ensures { (slot : ℕ) → (IsRan done.answer → done.slot ≡ slot + 1) → IsOf slot result done }
    {
        match done.answer {
            Stepped::Ran(_) if !done.closes => Dispatched::Past,
            _ => Dispatched::Other(done),
        }
    }
}

/// The fuel that is left after a step: an instruction that ran takes one, and so does EXIT.
#[inline(always)]
pub(crate) fn fuel_after(fuel: u64, answer: Stepped) -> u64
    requires { 0 < fuel }
    ensures { result ≡ fuel_after fuel answer }
{
    match answer {
        Stepped::Ran(_) => fuel - 1,
        Stepped::Stopped(Stop::Exit(_)) => fuel - 1,
        _ => fuel,
    }
}

/// What a call keeps for its return. That R6 to R9 and R10 are kept is the BPF ABI's convention.
#[derive(Clone, Copy, Drop, Debug, Default, PartialEq, Eq)]
pub struct Frame {
    /// The slot after the call.
    pub slot: usize,
    /// R6 to R9 are the caller's, whatever the called function does with them.
    pub r6: u64,
    pub r7: u64,
    pub r8: u64,
    pub r9: u64,
    /// The caller's frame pointer.
    pub r10: u64,
}
