//! The commands: their names, and what comes after the name. All of it is this project's choice.
ghost use Rattle.std.specs.Prelude.{◌≡◌, ◌≤◌, ◌<◌, ℕ, take, get_or, slice_index, length};
ghost use Rattle.console.specs.Tokens.{within, IsWithin};
ghost use Rattle.console.specs.Commands.{command_name, event_with, first_named, form_of, kind_named, most_bytes, number_limits, numbered, takes_grants};

use crate::commands::LINE_LIMIT;
use crate::numbers::{NUMBERS, Numbers};
use loader::CODE_LIMIT;
use machine::{Grants, STACK_SIZE};
use memory::{OBJECT_BYTES, OBJECT_LIMIT};
use std::marker::Model;
use world::{
    Bytes, DebugCommand, Event, MACHINE_LIMIT, MachineCommand, Move, ObjectCommand, ObjectLength,
    ShowCommand, Start, Way,
};

/// The command that a line's first token names.
#[derive(Clone, Copy, Debug, PartialEq, Eq)]
pub enum Kind {
    Make,
    Free,
    Put,
    Get,
    Ship,
    Ship2,
    Leave,
    Left,
    Return,
    Returned,
    Step,
    One,
    Regs,
    Out,
    Stack,
    Line,
    Break,
    Unbreak,
    Watch,
    Unwatch,
    Resume,
}

/// All of them.
pub const KINDS: &[Kind] = &[
    Kind::Make,
    Kind::Free,
    Kind::Put,
    Kind::Get,
    Kind::Ship,
    Kind::Ship2,
    Kind::Leave,
    Kind::Left,
    Kind::Return,
    Kind::Returned,
    Kind::Step,
    Kind::One,
    Kind::Regs,
    Kind::Out,
    Kind::Stack,
    Kind::Line,
    Kind::Break,
    Kind::Unbreak,
    Kind::Watch,
    Kind::Unwatch,
    Kind::Resume,
];

/// What a number may be.
#[derive(Clone, Copy, Debug, PartialEq, Eq)]
pub struct Limits {
    pub least: u64,
    pub most: u64,
}

/// The most bytes that a line or a reply carries, but for code.
pub const RANGE_LIMIT: usize = 4096;

/// Any number of 64 bits.
const ANY: Limits = Limits {
    least: 0,
    most: u64::MAX,
};

/// How many bytes an object may have.
const OBJECT_LENGTH: Limits = Limits {
    least: 1,
    most: OBJECT_BYTES as u64,
};

/// The number of an object that there may be.
pub const OBJECT: Limits = Limits {
    least: 1,
    most: OBJECT_LIMIT as u64,
};

/// The number of a machine that there may be.
const MACHINE: Limits = Limits {
    least: 1,
    most: MACHINE_LIMIT as u64,
};

/// Where a range of an object's bytes may begin.
const OBJECT_OFFSET: Limits = Limits {
    least: 0,
    most: OBJECT_BYTES as u64 - 1,
};

/// Where a range of a stack's bytes may begin.
const STACK_OFFSET: Limits = Limits {
    least: 0,
    most: STACK_SIZE as u64 - 1,
};

/// A slot of code that there may be.
const SLOT: Limits = Limits {
    least: 0,
    most: CODE_LIMIT as u64 / 8 - 1,
};

/// How many bytes may be shown at once, or watched as one range.
const RANGE_LENGTH: Limits = Limits {
    least: 1,
    most: RANGE_LIMIT as u64,
};

/// What a line of a command has.
#[derive(Drop)]
struct Form {
    name: &'static [u8],
    /// The limits of the numbers after the name.
    numbers: &'static [Limits],
    /// How many bytes may come after the numbers, in hex, where some have to.
    bytes: Option<usize>,
    /// Whether words that grant objects may come last.
    takes_grants: bool,
}

impl Model for Form {
    ghost use Rattle.console.specs.Commands.{LineForm};

    ghost Value = { LineForm };

    ghost view = { λ f. record { name = f.name.now; numbers = f.numbers.now; bytes = f.bytes; takes_grants = f.takes_grants } };
}

/// The form of a line that has numbers alone after its name.
#[inline(always)]
fn numbered(name: &'static [u8], numbers: &'static [Limits]) -> Form
    ensures { result ≡ numbered name.now numbers.now }
{
    Form {
        name,
        numbers,
        bytes: None,
        takes_grants: false,
    }
}

/// Fuel, and what R1 to R5 begin with.
const START: [Limits; NUMBERS] = [ANY; NUMBERS];

impl Kind {
    /// How a line of this kind is written: the one table of commands. Inlined, so that each reader of it looks up its own part.
    #[inline(always)]
    fn form(self) -> Form
        ensures { result ≡ form_of self }
    {
        match self {
            Kind::Make => numbered(b"make", &[OBJECT_LENGTH]),
            Kind::Free => numbered(b"free", &[OBJECT]),
            Kind::Put => Form {
                bytes: Some(RANGE_LIMIT),
                ..numbered(b"put", &[OBJECT, OBJECT_OFFSET])
            },
            Kind::Get => numbered(b"get", &[OBJECT, OBJECT_OFFSET, RANGE_LENGTH]),
            Kind::Ship => Form {
                bytes: Some(LINE_LIMIT),
                ..numbered(b"ship", &START)
            },
            Kind::Ship2 => Form {
                bytes: Some(LINE_LIMIT),
                takes_grants: true,
                ..numbered(b"ship2", &START)
            },
            Kind::Leave => numbered(b"leave", &[OBJECT]),
            Kind::Left => numbered(b"left", &[OBJECT]),
            Kind::Return => numbered(b"return", &[OBJECT]),
            Kind::Returned => numbered(b"returned", &[OBJECT]),
            Kind::Step => numbered(b"step", &[MACHINE]),
            Kind::One => numbered(b"one", &[MACHINE]),
            Kind::Regs => numbered(b"regs", &[MACHINE]),
            Kind::Out => numbered(b"out", &[MACHINE]),
            Kind::Stack => numbered(b"stack", &[MACHINE, STACK_OFFSET, RANGE_LENGTH]),
            Kind::Line => numbered(b"line", &[MACHINE, SLOT]),
            Kind::Break => numbered(b"break", &[MACHINE, SLOT]),
            Kind::Unbreak => numbered(b"unbreak", &[MACHINE, SLOT]),
            Kind::Watch => numbered(b"watch", &[MACHINE, ANY, RANGE_LENGTH]),
            Kind::Unwatch => numbered(b"unwatch", &[MACHINE, ANY, RANGE_LENGTH]),
            Kind::Resume => numbered(b"resume", &[MACHINE]),
        }
    }

    /// The kind of this name, if it names one.
    pub fn named(name: &[u8]) -> Option<Kind>
        ensures { result ≡ kind_named name.now }
    {
        find_named(name, KINDS)
    }

    /// The name.
    pub fn name(self) -> &'static [u8]
        ensures name { result.now ≡ command_name self }
        ensures short { length result.now ≤ 8 }
    {
        self.form().name
    }

    /// The limits of the numbers after the name.
    pub fn numbers(self) -> &'static [Limits]
        ensures limits { result.now ≡ number_limits self }
        ensures few { length result.now ≤ NUMBERS }
    {
        self.form().numbers
    }

    /// How many bytes may come after the numbers, in hex, where some have to.
    pub fn bytes(self) -> Option<usize>
        ensures { result ≡ most_bytes self }
    {
        self.form().bytes
    }

    /// Whether words that grant objects may come last.
    pub fn takes_grants(self) -> bool
        ensures { result ≡ takes_grants self }
    {
        self.form().takes_grants
    }

    /// The command of this kind, with these numbers, bytes and grants.
    pub fn event(self, numbers: Numbers, bytes: Bytes, grants: Grants) -> Event
        requires { (i : ℕ) → i < length (number_limits self) → IsWithin (get_or (number_limits self) i (within 0 0)) (slice_index numbers i) }
        ensures { result ≡ event_with self (take (length (number_limits self)) numbers) bytes grants }
    {
        let object = numbers.object();
        let machine = numbers.machine();
        let offset = numbers.offset();
        let slot = numbers.slot();
        let address = numbers.address();
        let length = numbers.length();
        match self {
            Kind::Make => Event::Make {
                length: ObjectLength::new(numbers.new_length()).unwrap(),
            },
            Kind::Ship | Kind::Ship2 => Event::Ship {
                start: Start {
                    fuel: numbers.fuel(),
                    arguments: numbers.arguments(),
                    grants,
                },
                code: bytes,
            },
            Kind::Free => of_object(object, ObjectCommand::Free),
            Kind::Put => of_object(object, ObjectCommand::Put { offset, bytes }),
            Kind::Get => of_object(object, ObjectCommand::Get { offset, length }),
            Kind::Leave => of_object(object, ObjectCommand::Move(Move::Leave)),
            Kind::Left => of_object(object, ObjectCommand::Move(Move::Left)),
            Kind::Return => of_object(object, ObjectCommand::Move(Move::Return)),
            Kind::Returned => of_object(object, ObjectCommand::Move(Move::Returned)),
            Kind::Step => of_machine(machine, MachineCommand::Step(Way::Step)),
            Kind::One => of_machine(machine, MachineCommand::Step(Way::One)),
            Kind::Regs => showing(machine, ShowCommand::Regs),
            Kind::Out => showing(machine, ShowCommand::Out),
            Kind::Stack => showing(machine, ShowCommand::Stack { offset, length }),
            Kind::Line => showing(machine, ShowCommand::Line { slot }),
            Kind::Break => debugging(machine, DebugCommand::Break { slot }),
            Kind::Unbreak => debugging(machine, DebugCommand::Unbreak { slot }),
            Kind::Watch => debugging(machine, DebugCommand::Watch { address, length }),
            Kind::Unwatch => debugging(machine, DebugCommand::Unwatch { address, length }),
            Kind::Resume => debugging(machine, DebugCommand::Resume),
        }
    }
}

/// The first of these kinds that has this name.
#[inline]
fn find_named(name: &[u8], kinds: &[Kind]) -> Option<Kind>
    ensures { result ≡ first_named name.now kinds.now }
{
    for kind in kinds {
        if name == kind.form().name {
            return Some(*kind);
        }
    }
    None
}

/// A command on the object of this number.
fn of_object(object: u32, command: ObjectCommand) -> Event
    ensures { result ≡ Event.Object object command }
{
    Event::Object { object, command }
}

/// A command on the machine of this number.
fn of_machine(machine: usize, command: MachineCommand) -> Event
    ensures { result ≡ Event.Machine machine command }
{
    Event::Machine { machine, command }
}

/// A command that shows something of the machine of this number.
fn showing(machine: usize, command: ShowCommand) -> Event
    ensures { result ≡ Event.Machine machine (MachineCommand.Show command) }
{
    of_machine(machine, MachineCommand::Show(command))
}

/// A command of the debugger of the machine of this number.
fn debugging(machine: usize, command: DebugCommand) -> Event
    ensures { result ≡ Event.Machine machine (MachineCommand.Debug command) }
{
    of_machine(machine, MachineCommand::Debug(command))
}
