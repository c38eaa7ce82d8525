//! Turns that a connection does of a machine that it has resumed, so that a short request is done before the next line is answered.
ghost use Rattle.std.specs.Prelude.{◌≡◌, ◌≤◌, ℕ, IsTrue, IsFalse, true, false};
ghost use Rattle.scopes.specs.Windows.{machine_limit};
ghost use Rattle.workers.specs.Cells.{CellState, seat_state};
ghost use Rattle.workers.specs.Pools.{TurnsCell, turn_limit};
ghost use Rattle.ship_service.specs.Lent.{learning, resumes};
ghost use Rattle.ship_service.specs.Served.{GoesOn, TakesTurn, TakesTurns, own_turns};

use crate::cells::lend;
use crate::shared_agent::Agent;
use debugger::{DebugCommand, Debugged, MachineCommand};
use far_store::FarStore;
use shared_objects::ActorSeat;
use std::sync::Wait;
use workers::{Locked, Pool, TableName};
use world::Reply;

/// How many turns a connection does of a machine that it has resumed, before a worker goes on with it: this project's choice.
const OWN_TURNS: usize = 64;

/// Whether the command was answered that a paused machine goes on.
pub(crate) fn resumes(command: MachineCommand, said: &Reply) -> bool
    ensures yes { IsTrue result → resumes command said.now ≡ true }
    ensures no { IsFalse result → resumes command said.now ≡ false }
{
    matches!(
        (command, said),
        (
            MachineCommand::Debug(DebugCommand::Resume),
            Reply::Debugged(Debugged::Done)
        )
    )
}

/// What a connection does under the lock of a cell.
#[derive(Clone, Copy, Drop, Debug, PartialEq, Eq)]
enum Part {
    /// A turn of the machine.
    Turn,
    /// It leaves the machine to the workers.
    Leave,
}

/// Does this with the cell, and says whether its machine goes on.
fn take_part<F: FarStore, K: TableName, R: Wait>(
    rt: &R,
    pool: &Pool<F, K>,
    locked: &mut Locked<K>,
    part: Part,
) -> bool
    ensures { TurnsCell turn_limit locked.old locked.new }
{
    match part {
        Part::Turn => pool.turn_lent(rt, locked),
        Part::Leave => {
            pool.put_in_queue(rt, locked);
            true
        }
    }
}

/// The same, and the connection learns what the machine has seen.
fn take_and_learn<F: FarStore, K: TableName, R: Wait>(
    rt: &R,
    pool: &Pool<F, K>,
    locked: &mut Locked<K>,
    seat: &mut ActorSeat,
    part: Part,
) -> bool
    ensures seat { seat.new.seat ≡ seat.old.seat }
    ensures turn { TurnsCell turn_limit locked.old locked.new }
    ensures learns { seat_state seat.new ≡ learning locked.new.seat.stamp (seat_state seat.old) }
{
    let on = take_part(rt, pool, locked, part);
    seat.learn(locked.stamp());
    on
}

/// The same with the machine of a number, under the lock of its cell.
fn hold<F: FarStore, K: TableName, R: Wait>(
    rt: &R,
    agent: &Agent<F, K>,
    seat: &mut ActorSeat,
    machine: usize,
    part: Part,
) -> bool
    requires { (1 ≤ machine) × (machine ≤ machine_limit) }
    ensures seat { seat.new.seat ≡ seat.old.seat }
    ensures takes { (after : CellState) × TakesTurn K.opening K.starts K.passed machine (seat_state seat.old) after (seat_state seat.new) }
{
    let Some(mut locked) = lend(rt, agent, machine) else {
        unreachable!()
    };
    let on = take_and_learn(rt, agent.pool(), &mut locked, seat, part);
    locked.fact();
    agent.pool().give_back(locked);
    on
}

/// How many turns are done of a machine that was resumed: none where nobody works.
fn turns_of<F: FarStore, K: TableName>(pool: &Pool<F, K>) -> usize
    ensures { result ≤ own_turns }
{
    if pool.is_worked() { OWN_TURNS } else { 0 }
}

/// At most so many turns of a machine, as long as it goes on: whether it still does.
fn take_turns<F: FarStore, K: TableName, R: Wait>(
    rt: &R,
    agent: &Agent<F, K>,
    seat: &mut ActorSeat,
    machine: usize,
    turns: usize,
) -> bool
    requires exists { (1 ≤ machine) × (machine ≤ machine_limit) }
    requires few { turns ≤ own_turns }
    ensures seat { seat.new.seat ≡ seat.old.seat }
    ensures on { IsTrue result → (taken : ℕ) × (taken ≤ own_turns)
        × TakesTurns K.opening K.starts K.passed machine taken (seat_state seat.old) (seat_state seat.new) }
    ensures off { IsFalse result → (after : CellState) × GoesOn K.opening K.starts K.passed machine (seat_state seat.old) after (seat_state seat.new) }
{
    for taken in 0..turns {
        let on = hold(rt, agent, seat, machine, Part::Turn);
        if !on {
            return false;
        }
    }
    true
}

/// Does turns of a machine that was resumed, as a worker would, as long as it goes on, and leaves it to the workers then. Between two
/// turns its lock is free.
pub(crate) fn go_on<F: FarStore, K: TableName, R: Wait>(
    rt: &R,
    agent: &Agent<F, K>,
    seat: &mut ActorSeat,
    machine: usize,
)
    requires { (1 ≤ machine) × (machine ≤ machine_limit) }
    ensures seat { seat.new.seat ≡ seat.old.seat }
    ensures goes { (after : CellState) × GoesOn K.opening K.starts K.passed machine (seat_state seat.old) after (seat_state seat.new) }
{
    let on = take_turns(rt, agent, seat, machine, turns_of(agent.pool()));
    if !on {
        return;
    }
    hold(rt, agent, seat, machine, Part::Leave);
    agent.pool().wake_worker();
}
