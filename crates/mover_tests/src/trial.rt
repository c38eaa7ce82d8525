//! What is done with a mover and what came of it, as plain values.
ghost use Rattle.std.specs.Prelude.{◌≡◌, ◌≤◌, length, All, IfOk};
ghost use Rattle.shared_objects.specs.Kinds.{dealer};
ghost use Rattle.shared_objects.specs.Opened.{AreFresh, seated};
ghost use Rattle.shared_objects.specs.Tables.{IsActorOf};
ghost use Rattle.workers.specs.Cells.{IsTableOf};
ghost use Rattle.workers.specs.TableNames.{each_passed};
ghost use Rattle.workers.specs.Pools.{machines_of};

use crate::common::adding;
use debugger::{Debuggee, StepReply, Way};
use far_store::{FarStore, OwnStore};
use shared_objects::{ActorSeat, MoverSeat, Phase, Shared};
use std::alloc::{AllocError, Global};
use std::marker::Brand;
use std::sync::Wait;
use std::sync::atomic::{AtomicU64, Ordering};
use std::test::Fail;
use test_devices::{number_kept, objects};
use test_gates::{Rounds, Turns};
use workers::{
    Direction, Gate, KEEP_ALL, Looked, Moved, Mover, MoverEvent, Pool, TableName, Upkeep, mover,
    work,
};

/// The mover looks at objects of its own accord.
const SWEEPING: Upkeep = Upkeep {
    sweep: true,
    keep: KEEP_ALL,
};

/// What is done.
#[derive(Clone, Copy, Drop)]
pub enum Act {
    /// The mover is to take the object of this number away.
    Leave(u32),
    /// It is to bring it back.
    Return(u32),
    /// It looks at the next object.
    Look,
    /// It looks at the next object for room.
    LookPast,
    /// The machine of this number makes a step.
    Step(usize),
    /// A worker has so many turns.
    Work(u64),
    /// The pool is asked to have an object moved.
    Request(u32, Direction),
    /// The mover has so many rounds, in which it serves requests alone.
    Rounds(u64),
    /// The same, but it looks at the next object where there is no request.
    Sweeps(u64),
    /// The mover has so many rounds, in which it serves requests and keeps so many bytes.
    Keeps(u64, u64),
    /// The same with looks where there is no request.
    SweepsAndKeeps(u64, u64),
}

/// What came of it.
#[derive(Clone, Copy, Drop, Debug, PartialEq, Eq)]
pub enum Answer {
    Moved(Moved),
    Looked(Looked),
    Replied(StepReply),
    /// There is no such machine.
    NoMachine,
    /// Whether there was room for the request.
    Requested(bool),
    /// With a bound: how many objects left to make room, how often there was none, and how many bytes left and came back.
    Kept([u64; 4]),
    Served,
}

/// An act, and what is to come of it.
pub type Row = (Act, Answer);

/// A move that was done.
pub const DONE: Answer = Answer::Moved(Moved::Done);

/// What a mover left.
#[derive(Clone, Copy, Drop, Debug, PartialEq, Eq)]
pub struct Left {
    /// The first row of which something else came, counted from 0, and what came.
    pub other: Option<(usize, Answer)>,
    /// Where objects 1 to 3 are.
    pub phases: [Phase; 3],
    /// For which number the parcel stands that is kept of each of them, if one is.
    pub kept: [Option<u64>; 3],
    /// How many faults the far store counted.
    pub faults: u64,
}

/// All came as the rows say, all objects are here, and there was no fault.
pub const LEFT: Left = Left {
    other: None,
    phases: [Phase::In; 3],
    kept: [None; 3],
    faults: 0,
};

/// A step of the machine of a number.
fn step<F: FarStore, K: TableName, R: Wait>(
    rt: &R,
    pool: &Pool<F, K>,
    number: usize,
) -> Option<StepReply> {
    let cell = pool.cell(number)?;
    cell.lock(rt).step(pool.table(), Way::Step)
}

/// Lets the mover have so many rounds.
fn serve<F: FarStore, K: TableName, R: Wait>(
    rt: &R,
    pool: &Pool<F, K>,
    served: &mut Mover<F, K>,
    rounds: u64,
    upkeep: Upkeep,
) -> Answer {
    mover(rt, &Rounds::new(rounds), pool, served, upkeep);
    Answer::Served
}

/// Lets a mover go on for a given number of rounds, and counts what it tells.
#[derive(Drop)]
struct Counting {
    rounds: Rounds,
    evictions: AtomicU64,
    passes: AtomicU64,
    left: AtomicU64,
    back: AtomicU64,
}

impl Gate for Counting {
    fn before(&self, _worker: usize, _machine: usize) {}

    fn after(&self, _worker: usize, _machine: usize) {}

    fn event(&self, event: MoverEvent) {
        let (count, more) = match event {
            MoverEvent::Begins(_) => return,
            MoverEvent::Evicted(_) => (&self.evictions, 1),
            MoverEvent::Passed(_) => (&self.passes, 1),
            MoverEvent::Carried(Direction::Leave, bytes) => (&self.left, bytes as u64),
            MoverEvent::Carried(Direction::Return, bytes) => (&self.back, bytes as u64),
        };
        count.fetch_add(more, Ordering::SeqCst);
    }

    fn go_on(&self) -> bool {
        self.rounds.go_on()
    }
}

/// The same with a bound.
fn keep_within<F: FarStore, K: TableName, R: Wait>(
    rt: &R,
    pool: &Pool<F, K>,
    served: &mut Mover<F, K>,
    rounds: u64,
    upkeep: Upkeep,
) -> Answer {
    let gate = Counting {
        rounds: Rounds::new(rounds),
        evictions: AtomicU64::new(0),
        passes: AtomicU64::new(0),
        left: AtomicU64::new(0),
        back: AtomicU64::new(0),
    };
    mover(rt, &gate, pool, served, upkeep);
    Answer::Kept([
        gate.evictions.load(Ordering::SeqCst),
        gate.passes.load(Ordering::SeqCst),
        gate.left.load(Ordering::SeqCst),
        gate.back.load(Ordering::SeqCst),
    ])
}

/// What comes of one act.
fn answer_to<F: FarStore, K: TableName, R: Wait>(
    rt: &R,
    pool: &Pool<F, K>,
    served: &mut Mover<F, K>,
    act: Act,
) -> Answer {
    match act {
        Act::Leave(number) => Answer::Moved(served.one(pool, number, Direction::Leave)),
        Act::Return(number) => Answer::Moved(served.one(pool, number, Direction::Return)),
        Act::Look => Answer::Looked(served.look(pool)),
        Act::LookPast => Answer::Looked(served.look_past(pool)),
        Act::Step(number) => match step(rt, pool, number) {
            Some(reply) => Answer::Replied(reply),
            None => Answer::NoMachine,
        },
        Act::Work(turns) => {
            work(rt, &Turns::new(turns), pool, 0);
            Answer::Served
        }
        Act::Request(number, direction) => {
            Answer::Requested(pool.request(rt, number, direction))
        }
        Act::Rounds(rounds) => serve(rt, pool, served, rounds, Upkeep::none()),
        Act::Sweeps(rounds) => serve(rt, pool, served, rounds, SWEEPING),
        Act::Keeps(rounds, keep) => {
            keep_within(rt, pool, served, rounds, Upkeep { sweep: false, keep })
        }
        Act::SweepsAndKeeps(rounds, keep) => {
            keep_within(rt, pool, served, rounds, Upkeep { sweep: true, keep })
        }
    }
}

/// The first row of which something else comes, and what comes of it.
fn other_of<F: FarStore, K: TableName, R: Wait>(
    rt: &R,
    pool: &Pool<F, K>,
    served: &mut Mover<F, K>,
    rows: &[Row],
) -> Option<(usize, Answer)> {
    let mut other = None;
    for (place, &(act, wanted)) in rows.iter().enumerate() {
        let answer = answer_to(rt, pool, served, act);
        if answer != wanted && other.is_none() {
            other = Some((place, answer));
        }
    }
    other
}

/// What a mover leaves, where that was the first other answer.
fn left_of<F: FarStore + Drop, K: TableName>(
    served: Mover<F, K>,
    other: Option<(usize, Answer)>,
) -> Left {
    let (seat, mut store, parcels) = served.into_parts();
    let faults = store.faults();
    let kept = [
        number_kept(&mut store, parcels.as_slice(), 1),
        number_kept(&mut store, parcels.as_slice(), 2),
        number_kept(&mut store, parcels.as_slice(), 3),
    ];
    Left {
        other,
        phases: [seat.phase(1), seat.phase(2), seat.phase(3)],
        kept,
        faults,
    }
}

/// A table with its seats and its far store.
#[derive(Drop)]
struct Parts<F: FarStore> {
    shared: Shared<F>,
    seats: Vec<ActorSeat>,
    mover: MoverSeat,
    store: F,
}

fn run<F: FarStore + Drop, K: TableName, R: Wait>(
    rt: &R,
    alloc: Global,
    parts: Parts<F>,
    machines: Vec<Debuggee>,
    rows: &[Row],
) -> Result<Left, AllocError>
    requires table { IsTableOf K.table K.opening parts.shared.table }
    requires seats { AreFresh (dealer F.RETURNS K.opening) parts.seats.items × All (IsActorOf parts.shared.table) parts.seats.items }
    requires mover { (parts.mover.seat.table_id ≡ K.table) × (parts.mover.seat.me.0 ≡ seated K.seats (dealer F.RETURNS K.opening)) }
    requires machines { K.starts ≡ machines_of machines.items }
    requires lent { K.passed ≡ each_passed }
    requires room { length machines.items ≤ length parts.seats.items }
{
    let Parts {
        shared,
        seats,
        mover,
        store,
    } = parts;
    let pool: Pool<F, K> = Pool::new(rt, alloc, shared, seats, machines)?;
    let mut served: Mover<F, K> = Mover::new(alloc, mover, store)?;
    let other = other_of(rt, &pool, &mut served, rows);
    Ok(left_of(served, other))
}

/// Two machines, which add 5 and 6 to objects 1 and 2.
fn two_machines(alloc: Global) -> Result<Vec<Debuggee>, Fail>
    ensures { IfOk result (λ v. length v.items ≡ 2) }
{
    let one = adding(alloc, 1, 5)?;
    let two = adding(alloc, 2, 6)?;
    Ok(vec![in alloc; one, two]?)
}

/// What the acts of these rows leave over a table of these objects.
fn tried_over<F: FarStore + Drop, R: Wait>(
    rt: &R,
    alloc: Global,
    store: F,
    bodies: Vec<Vec<u8>>,
    rows: &[Row],
) -> Result<Left, Fail>
    requires { length bodies.items ≤ 1024 }
{
    let machines = two_machines(alloc)?;
    let (shared, seats, mover) = Shared::<F>::open(alloc, bodies, 2)?;
    let parts = Parts {
        shared,
        seats,
        mover,
        store,
    };
    Ok(run::<F, Brand, R>(rt, alloc, parts, machines, rows)?)
}

/// What the acts of these rows leave over two objects of eight bytes, which go to this far store. Machine 1 adds 5 to object 1,
/// and machine 2 adds 6 to object 2.
pub fn tried<F: FarStore + Drop, R: Wait>(
    rt: &R,
    alloc: Global,
    store: F,
    rows: &[Row],
) -> Result<Left, Fail> {
    let bodies = objects(alloc, 2, 8)?;
    tried_over(rt, alloc, store, bodies, rows)
}

/// The same over three objects of eight bytes, which stay within the agent.
pub fn tried_with_three<R: Wait>(rt: &R, alloc: Global, rows: &[Row]) -> Result<Left, Fail> {
    let bodies = objects(alloc, 3, 8)?;
    tried_over(rt, alloc, OwnStore::new(alloc), bodies, rows)
}

/// The same over objects 1 and 3, which stay within the agent. There is no object 2.
pub fn tried_with_a_gap<R: Wait>(rt: &R, alloc: Global, rows: &[Row]) -> Result<Left, Fail> {
    let mut bodies = objects(alloc, 2, 8)?;
    bodies.insert(1, Vec::new(alloc))?;
    tried_over(rt, alloc, OwnStore::new(alloc), bodies, rows)
}
