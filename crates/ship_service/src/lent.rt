//! Commands on machines, on what the lock of a cell lends.
ghost use Rattle.std.specs.Prelude.{◌≡◌, None};
ghost use Rattle.debugger.specs.declared.commands.MachineCommand.{MachineCommand};
ghost use Rattle.workers.specs.Cells.{seat_state};
ghost use Rattle.ship_service.specs.Lent.{AnswersLent, ShipsCell};

use debugger::{DebugCommand, MachineCommand, ShowCommand, Start, StepReply, Way};
use far_store::FarStore;
use loader::{Why, load};
use shared_objects::ActorSeat;
use std::alloc::Global;
use std::sync::Wait;
use workers::{Locked, Pool, TableName};
use world::Reply;

/// Asks the mover for the object for which a machine waits, if it does.
fn call_awaited<F: FarStore, K: TableName, R: Wait>(rt: &R, pool: &Pool<F, K>, reply: StepReply) {
    if let StepReply::Waiting(object) = reply {
        pool.call(rt, object);
    }
}

/// One step of the cell's machine, whose seat learns this seat's stamp before it, and this one that one's after it.
fn step<F: FarStore, K: TableName, R: Wait>(
    rt: &R,
    pool: &Pool<F, K>,
    locked: &mut Locked<K>,
    seat: &mut ActorSeat,
    machine: usize,
    way: Way,
) -> Reply
    ensures seat { seat.new.seat ≡ seat.old.seat }
    ensures answers { AnswersLent (MachineCommand.Step way) (seat_state seat.old) locked.old machine result (seat_state seat.new) locked.new }
{
    if !locked.has_machine() {
        return Reply::Missing;
    }
    locked.learn(seat.stamp());
    match locked.step(pool.table(), way) {
        Some(reply) => {
            seat.learn(locked.stamp());
            call_awaited(rt, pool, reply);
            Reply::Stepped { machine, reply }
        }
        None => unreachable!(),
    }
}

/// Shows something of the cell's machine, whose stamp the seat learns.
fn show<K: TableName>(
    alloc: Global,
    locked: &Locked<K>,
    seat: &mut ActorSeat,
    machine: usize,
    command: ShowCommand,
) -> Reply
    ensures seat { seat.new.seat ≡ seat.old.seat }
    ensures answers { AnswersLent (MachineCommand.Show command) (seat_state seat.old) locked.now machine result (seat_state seat.new) locked.now }
{
    let Some(reply) = locked.show(alloc, command) else {
        return Reply::Missing;
    };
    seat.learn(locked.stamp());
    Reply::Shown { machine, reply }
}

/// Does a command of the debugger on the cell's machine, whose stamp the seat learns.
fn debug<K: TableName>(
    locked: &mut Locked<K>,
    seat: &mut ActorSeat,
    machine: usize,
    command: DebugCommand,
) -> Reply
    ensures seat { seat.new.seat ≡ seat.old.seat }
    ensures answers { AnswersLent (MachineCommand.Debug command) (seat_state seat.old) locked.old machine result (seat_state seat.new) locked.new }
{
    let Some(done) = locked.debug(command) else {
        return Reply::Missing;
    };
    seat.learn(locked.stamp());
    Reply::Debugged(done)
}

/// Does a command on the machine of the cell, if it has one.
pub(crate) fn answer_lent<F: FarStore, K: TableName, R: Wait>(
    rt: &R,
    alloc: Global,
    pool: &Pool<F, K>,
    locked: &mut Locked<K>,
    seat: &mut ActorSeat,
    machine: usize,
    command: MachineCommand,
) -> Reply
    ensures seat { seat.new.seat ≡ seat.old.seat }
    ensures answers { AnswersLent command (seat_state seat.old) locked.old machine result (seat_state seat.new) locked.new }
{
    match command {
        MachineCommand::Step(way) => step(rt, pool, locked, seat, machine, way),
        MachineCommand::Show(command) => show(alloc, locked, seat, machine, command),
        MachineCommand::Debug(command) => debug(locked, seat, machine, command),
    }
}

/// Makes the code a machine of the cell, and puts it into the queue. A worker is to be woken for it.
pub(crate) fn ship_lent<F: FarStore, K: TableName, R: Wait>(
    rt: &R,
    alloc: Global,
    pool: &Pool<F, K>,
    locked: &mut Locked<K>,
    start: Start,
    code: &[u8],
) -> Reply
    requires { locked.old.running ≡ None }
    ensures { ShipsCell start code.now locked.old result locked.new }
{
    match load(alloc, code) {
        Ok(program) => {
            locked.ship(program, start);
            pool.put_in_queue(rt, locked);
            Reply::Shipped {
                machine: locked.number(),
            }
        }
        Err(error) if error.why == Why::Memory => Reply::NoMemory,
        Err(error) => Reply::Refused(error),
    }
}
