//! Machines over one table, and what is done with their pool.
ghost use Rattle.std.specs.Prelude.{◌≡◌, ◌≤◌, true, length, All};
ghost use Rattle.shared_objects.specs.Kinds.{dealer};
ghost use Rattle.shared_objects.specs.Opened.{AreFresh, seated};
ghost use Rattle.shared_objects.specs.Tables.{IsActorOf, IsMoverOf};
ghost use Rattle.workers.specs.Cells.{IsTableOf};
ghost use Rattle.workers.specs.TableNames.{each_passed};
ghost use Rattle.workers.specs.Pools.{machines_of};

use crate::apart::waits;
use crate::common::program;
use crate::gates::{Heard, LeftByFour, LeftByTwo, four, looks_at_fuel, numbers, two};
use crate::leaving::steps;
use crate::lent_turns::{LentLeft, turns_lent};
use crate::locks::{Lent, lent_after_turn, lent_thrice};
use crate::moving::{MovesLeft, moves};
use crate::turns::{Plan, TurnsLeft, turned};
use crate::untold::{beside, beside_waiting};
use debugger::{DebugCommand, Debuggee, Start, StepReply};
use far_store::OwnStore;
use shared_objects::{ActorSeat, MoverSeat, Shared};
use std::alloc::{AllocError, Global};
use std::marker::Brand;
use std::sync::Wait;
use std::test::Fail;
use std::thread::Threads;
use test_devices::objects;
use workers::{Pool, TableName};

/// A machine at the start of its code.
#[derive(Clone, Copy, Drop)]
pub struct Code {
    pub fuel: u64,
    /// R1 to R5.
    pub arguments: [u64; 5],
    pub slots: &'static [u64],
    /// What is done with it before there is a pool.
    pub debug: Option<DebugCommand>,
}

/// What is done with a pool of machines.
#[derive(Clone, Copy, Drop)]
pub enum Course {
    Two,
    Four,
    Numbers,
    Fuel,
    Steps,
    Locks,
    Worked,
    Moves,
    Turns(Plan),
    Waits,
    Beside,
    Waiting,
    Lent,
}

/// What it leaves.
#[derive(Clone, Copy, Drop, Debug, PartialEq, Eq)]
pub enum Left {
    Two(LeftByTwo),
    Four(LeftByFour),
    Numbers(Heard),
    Fuel([u64; 2]),
    Steps([(Option<StepReply>, bool); 4]),
    Locks([Lent; 3]),
    Worked(Lent),
    Moves(MovesLeft),
    Turns([TurnsLeft; 2]),
    Waits([[bool; 2]; 3]),
    Found(bool),
    Lent(LentLeft),
}

/// What the course leaves.
fn left_by<K: TableName + Send + Sync, R: Threads + Wait + Sync>(
    rt: &R,
    alloc: Global,
    pool: &Pool<OwnStore, K>,
    mover: MoverSeat,
    course: Course,
) -> Result<Left, Fail>
    requires of { IsMoverOf pool.now.shared.table mover }
    requires fresh { (mover.seat.table_id ≡ K.table) × (mover.seat.me.0 ≡ seated K.seats (dealer true K.opening)) }
{
    match course {
        Course::Two => Ok(Left::Two(two(rt, alloc, pool)?)),
        Course::Four => Ok(Left::Four(four(rt, pool))),
        Course::Numbers => Ok(Left::Numbers(numbers(rt, pool))),
        Course::Fuel => Ok(Left::Fuel(looks_at_fuel(rt, alloc, pool))),
        Course::Steps => Ok(Left::Steps(steps(rt, pool, mover))),
        Course::Locks => Ok(Left::Locks(lent_thrice(rt, pool))),
        Course::Worked => Ok(Left::Worked(lent_after_turn(rt, pool))),
        Course::Moves => Ok(Left::Moves(moves(rt, alloc, pool, mover)?)),
        Course::Turns(plan) => Ok(Left::Turns(turned(rt, alloc, pool, mover, plan))),
        Course::Waits => Ok(Left::Waits(waits(rt, alloc, pool, mover)?)),
        Course::Beside => Ok(Left::Found(beside(rt, alloc, pool))),
        Course::Lent => Ok(Left::Lent(turns_lent(rt, alloc, pool))),
        Course::Waiting => Ok(Left::Found(beside_waiting(rt, alloc, pool, mover))),
    }
}

/// What the course leaves of a pool of these machines.
fn left_over<K: TableName + Send + Sync, R: Threads + Wait + Sync>(
    rt: &R,
    alloc: Global,
    shared: Shared<OwnStore>,
    seats: Vec<ActorSeat>,
    mover: MoverSeat,
    machines: Vec<Debuggee>,
    course: Course,
) -> Result<Left, Fail>
    requires table { IsTableOf K.table K.opening shared.table }
    requires seats { AreFresh (dealer true K.opening) seats.items × All (IsActorOf shared.table) seats.items }
    requires of { IsMoverOf shared.table mover }
    requires fresh { (mover.seat.table_id ≡ K.table) × (mover.seat.me.0 ≡ seated K.seats (dealer true K.opening)) }
    requires machines { K.starts ≡ machines_of machines.items }
    requires lent { K.passed ≡ each_passed }
    requires room { length machines.items ≤ length seats.items }
{
    let pool: Pool<OwnStore, K> = Pool::new(rt, alloc, shared, seats, machines)?;
    left_by(rt, alloc, &pool, mover, course)
}

/// The machine of this number.
fn machine(alloc: Global, number: usize, it: &Code) -> Result<Debuggee, Fail> {
    let start = Start::new(it.fuel, it.arguments);
    let mut made = Debuggee::new(program(alloc, it.slots)?, number, start);
    if let Some(command) = it.debug {
        let _ = made.debug(command);
    }
    Ok(made)
}

/// The machines, numbered from 1 on.
fn machines(alloc: Global, codes: &[Code]) -> Result<Vec<Debuggee>, Fail> {
    let mut machines = Vec::new(alloc);
    for index in 0..codes.len() {
        machines.push(machine(alloc, index + 1, &codes[index])?)?;
    }
    Ok(machines)
}

/// What the course leaves of these machines, three at most, over two objects of eight bytes, all zero.
pub fn left_of<R: Threads + Wait + Sync>(
    rt: &R,
    alloc: Global,
    codes: &[Code],
    course: Course,
) -> Result<Left, Fail> {
    let machines = machines(alloc, codes)?;
    let bodies = objects(alloc, 2, 8)?;
    let (shared, seats, mover) = Shared::<OwnStore>::open(alloc, bodies, 3)?;
    if machines.len() > seats.len() {
        return Err(Fail::from(AllocError));
    }
    left_over::<Brand, R>(rt, alloc, shared, seats, mover, machines, course)
}
