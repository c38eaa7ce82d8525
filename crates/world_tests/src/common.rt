//! Commands and replies as plain values, and code by hand.

use crate::compared::{compare, compare_row};
use far_store::{FarStore, OwnStore, StoreFault};
use loader::LoadError;
use machine::Stop;
use std::alloc::{AllocError, Global};
use std::process::Abort;
use world::{
    Bytes, DebugCommand, Debugged, Event, MachineCommand, Move, Moved, ObjectCommand, ObjectLength,
    Place, Reply, ShowCommand, ShowReply, Shown, Start, StepReply, Values, Way, World,
};

/// EXIT, as the other slots: its bytes from the first to the last.
pub const EXIT: u64 = 0x9500_0000_0000_0000;

/// The address of the first byte of object 1.
pub const FIRST: u64 = 0x1_0000_0000;

/// The budget of the program, unless it is given another.
pub const AMPLE: u32 = 67_108_864;

/// R10 at the start.
pub const STACK_TOP: u64 = 0xffff_ffff_0000_1000;

/// A command. Objects and machines are given by their numbers.
#[derive(Clone, Copy, Drop)]
pub enum Say {
    /// An object of so many bytes is made.
    Make(u64),
    /// A machine is shipped with fuel, R1 to R5, and code of these slots. It may reach every object.
    Ship(u64, [u64; 5], &'static [u64]),
    /// A machine is shipped with fuel and these bytes of code.
    Code(u64, &'static [u8]),
    /// A machine is shipped with fuel and so many bytes of code, all of them zero.
    Zeros(u64, usize),
    /// An object is freed.
    Free(u32),
    /// Bytes for an object, from an offset on.
    Put(u32, u32, &'static [u8]),
    /// So many bytes of an object, the last number, from an offset on.
    Get(u32, u32, u32),
    /// An object moves, or its move ends.
    Move(u32, Move),
    /// One step.
    Step(usize),
    /// One step, paused or not.
    One(usize),
    /// Shows something of a machine.
    Show(usize, ShowCommand),
    /// Debugs a machine.
    Debug(usize, DebugCommand),
}

/// A reply. Objects and machines are told by their numbers, which come first.
#[derive(Clone, Copy, Drop)]
pub enum Told {
    Made(u32),
    Freed(u32),
    Leaving(u32),
    Left(u32),
    Returning(u32),
    Home(u32),
    Away(u32),
    Scoped(u32),
    Misplaced(u32, Place),
    Faulted(u32, StoreFault),
    Bytes(&'static [u8]),
    Shipped(usize),
    /// The slot comes last, here and in the next two.
    Ran(usize, usize),
    Hit(usize, usize),
    Paused(usize, usize),
    Waiting(usize, u32),
    Stopped(usize, Stop),
    Registers(usize, Shown),
    /// At most 64 values.
    Emitted(usize, &'static [u64]),
    Refused(LoadError),
    Done,
    Full,
    NoRoom,
    Outside,
    NoSlot,
    NoWatch,
    NotPaused,
    Missing,
}

/// The bytes of these slots.
fn code(alloc: Global, slots: &[u64]) -> Result<Vec<u8>, AllocError> {
    let mut bytes = Vec::new(alloc);
    for slot in slots {
        bytes.extend_from_slice(&slot.to_be_bytes())?;
    }
    Ok(bytes)
}

fn object(object: u32, command: ObjectCommand) -> Event {
    Event::Object { object, command }
}

fn machine(machine: usize, command: MachineCommand) -> Event {
    Event::Machine { machine, command }
}

/// A machine of these bytes of code.
fn ship(alloc: Global, fuel: u64, arguments: [u64; 5], code: &[u8]) -> Result<Event, AllocError> {
    Ok(Event::Ship {
        start: Start::new(fuel, arguments),
        code: Bytes::new(code.to_vec(alloc)?),
    })
}

/// The command. Where no object may have so many bytes there is none, and the test fails by this error.
pub fn event(alloc: Global, say: Say) -> Result<Event, AllocError> {
    match say {
        Say::Make(length) => match ObjectLength::new(length) {
            Some(length) => Ok(Event::Make { length }),
            None => Err(AllocError),
        },
        Say::Ship(fuel, arguments, slots) => {
            ship(alloc, fuel, arguments, code(alloc, slots)?.as_slice())
        }
        Say::Code(fuel, code) => ship(alloc, fuel, [0; 5], code),
        Say::Zeros(fuel, count) => {
            ship(alloc, fuel, [0; 5], vec![in alloc; 0u8; count]?.as_slice())
        }
        Say::Free(number) => Ok(object(number, ObjectCommand::Free)),
        Say::Put(number, offset, bytes) => {
            let bytes = Bytes::new(bytes.to_vec(alloc)?);
            Ok(object(number, ObjectCommand::Put { offset, bytes }))
        }
        Say::Get(number, offset, length) => {
            Ok(object(number, ObjectCommand::Get { offset, length }))
        }
        Say::Move(number, kind) => Ok(object(number, ObjectCommand::Move(kind))),
        Say::Step(number) => Ok(machine(number, MachineCommand::Step(Way::Step))),
        Say::One(number) => Ok(machine(number, MachineCommand::Step(Way::One))),
        Say::Show(number, command) => Ok(machine(number, MachineCommand::Show(command))),
        Say::Debug(number, command) => Ok(machine(number, MachineCommand::Debug(command))),
    }
}

/// The values, if there are 64 at most.
fn values_of(values: &[u64]) -> Values {
    if values.len() > 64 {
        return Values::new(&[]);
    }
    Values::new(values)
}

/// What came of a move, or of freeing, that isn't done. A table that tells something else fails by this error, here and below.
fn unmoved(told: Told) -> Result<Moved, AllocError> {
    match told {
        Told::Missing => Ok(Moved::NoObject),
        Told::Misplaced(_, place) => Ok(Moved::Misplaced(place)),
        Told::Scoped(_) => Ok(Moved::Scoped),
        Told::NoRoom => Ok(Moved::NoRoom),
        Told::Faulted(_, fault) => Ok(Moved::Fault(fault)),
        _ => Err(AllocError),
    }
}

/// What came of freeing.
fn freed(told: Told) -> Result<Moved, AllocError> {
    match told {
        Told::Freed(_) => Ok(Moved::Done),
        _ => unmoved(told),
    }
}

/// What came of a move.
fn moved(kind: Move, told: Told) -> Result<Moved, AllocError> {
    match (kind, told) {
        (Move::Leave, Told::Leaving(_))
        | (Move::Left, Told::Left(_))
        | (Move::Return, Told::Returning(_))
        | (Move::Returned, Told::Home(_)) => Ok(Moved::Done),
        _ => unmoved(told),
    }
}

/// What a machine, which is there, answers to a step.
fn stepped(told: Told) -> Result<Reply, AllocError> {
    let (machine, reply) = match told {
        Told::Ran(machine, slot) => (machine, StepReply::Ran(slot)),
        Told::Hit(machine, slot) => (machine, StepReply::Hit(slot)),
        Told::Paused(machine, slot) => (machine, StepReply::Paused(slot)),
        Told::Waiting(machine, object) => (machine, StepReply::Waiting(object)),
        Told::Stopped(machine, stop) => (machine, StepReply::Stopped(stop)),
        _ => return Err(AllocError),
    };
    Ok(Reply::Stepped { machine, reply })
}

/// What is shown of a machine that is there.
fn shown(alloc: Global, told: Told) -> Result<ShowReply, AllocError> {
    match told {
        Told::Registers(_, shown) => Ok(ShowReply::Registers(shown)),
        Told::Emitted(_, values) => Ok(ShowReply::Emitted(values_of(values))),
        Told::Bytes(bytes) => Ok(ShowReply::Bytes(Bytes::new(bytes.to_vec(alloc)?))),
        Told::Outside => Ok(ShowReply::Outside),
        Told::NoSlot => Ok(ShowReply::NoSlot),
        _ => Err(AllocError),
    }
}

/// What a command of the debugger did on a machine that is there.
fn debugged(told: Told) -> Result<Debugged, AllocError> {
    match told {
        Told::Done => Ok(Debugged::Done),
        Told::NoSlot => Ok(Debugged::NoSlot),
        Told::Outside => Ok(Debugged::Outside),
        Told::Full => Ok(Debugged::Full),
        Told::NoWatch => Ok(Debugged::NoWatch),
        Told::NotPaused => Ok(Debugged::NotPaused),
        _ => Err(AllocError),
    }
}

/// The reply to another command.
fn plain(alloc: Global, told: Told) -> Result<Reply, AllocError> {
    match told {
        Told::Made(object) => Ok(Reply::Made { object }),
        Told::Away(object) => Ok(Reply::Away { object }),
        Told::Bytes(bytes) => Ok(Reply::Bytes(Bytes::new(bytes.to_vec(alloc)?))),
        Told::Shipped(machine) => Ok(Reply::Shipped { machine }),
        Told::Refused(error) => Ok(Reply::Refused(error)),
        Told::Done => Ok(Reply::Done),
        Told::Full => Ok(Reply::Full),
        Told::NoRoom => Ok(Reply::NoRoom),
        Told::Outside => Ok(Reply::Outside),
        Told::Missing => Ok(Reply::Missing),
        _ => Err(AllocError),
    }
}

/// The reply to the command.
fn reply(alloc: Global, say: Say, told: Told) -> Result<Reply, AllocError> {
    match (say, told) {
        (Say::Free(object), _) => Ok(Reply::Freed {
            object,
            moved: freed(told)?,
        }),
        (Say::Move(object, kind), _) => Ok(Reply::Moved {
            object,
            kind,
            moved: moved(kind, told)?,
        }),
        (_, Told::Missing) => Ok(Reply::Missing),
        (Say::Step(_) | Say::One(_), _) => stepped(told),
        (Say::Show(machine, _), _) => Ok(Reply::Shown {
            machine,
            reply: shown(alloc, told)?,
        }),
        (Say::Debug(_, _), _) => Ok(Reply::Debugged(debugged(told)?)),
        _ => plain(alloc, told),
    }
}

/// A world over a store of its own, with this budget.
pub fn world_within(alloc: Global, budget: u32) -> Result<World<OwnStore>, AllocError> {
    World::new(alloc, budget, OwnStore::new(alloc))
}

/// A world over a store of its own.
pub fn new_world(alloc: Global) -> Result<World<OwnStore>, AllocError> {
    world_within(alloc, AMPLE)
}

/// Each command is answered so.
pub fn tells<F: FarStore>(
    rt: &impl Abort,
    alloc: Global,
    world: &mut World<F>,
    table: &[(Say, Told)],
) -> Result<(), AllocError> {
    for row in 0..table.len() {
        let (say, told) = table[row];
        let found = world.apply(event(alloc, say)?);
        let wanted = reply(alloc, say, told)?;
        compare_row(rt, "reply", &(row, event(alloc, say)?), &found, &wanted);
    }
    Ok(())
}

/// A new world answers each command so.
pub fn new_tells(rt: &impl Abort, alloc: Global, table: &[(Say, Told)]) -> Result<(), AllocError> {
    tells(rt, alloc, &mut new_world(alloc)?, table)
}

/// Commands, which a world answers in one run, behind what it told before.
pub fn run_of<F: FarStore>(
    alloc: Global,
    world: &mut World<F>,
    table: &[(Say, Told)],
    replies: &mut Vec<Reply>,
) -> Result<(), AllocError> {
    let mut events = Vec::with_capacity(alloc, table.len())?;
    for &(say, _) in table {
        events.push(event(alloc, say)?)?;
    }
    world.run(events, replies)
}

/// These are the replies of these commands.
pub fn are_told(
    rt: &impl Abort,
    alloc: Global,
    replies: &[Reply],
    table: &[(Say, Told)],
) -> Result<(), AllocError> {
    compare(rt, "replies", &replies.len(), &table.len());
    for row in 0..table.len() {
        let (say, told) = table[row];
        let wanted = reply(alloc, say, told)?;
        compare_row(rt, "reply", &row, &replies.get(row), &Some(&wanted));
    }
    Ok(())
}

/// A run of a new world answers so.
pub fn runs(rt: &impl Abort, alloc: Global, table: &[(Say, Told)]) -> Result<(), AllocError> {
    let mut world = new_world(alloc)?;
    let mut replies = Vec::new(alloc);
    run_of(alloc, &mut world, table, &mut replies)?;
    are_told(rt, alloc, replies.as_slice(), table)
}
