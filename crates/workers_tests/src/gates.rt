//! Workers, and who is told of each instruction.

use crate::common::{
    ADD, Crowd, EXIT, Holds, JUMP, LOAD, OBJECT, fuel, program, run_driven, waits_for,
};
use crate::compared::same;
use crate::course::{Code, Course, Left, left_of};
use debugger::{Start, StepReply, Way};
use far_store::{FarStore, OwnStore};
use loader::Program;
use machine::Stop;
use std::alloc::Global;
use std::sync::Wait;
use std::sync::atomic::{AtomicBool, AtomicU64, Ordering};
use std::test::Fail;
use std::thread::Threads;
use workers::{Gate, Pool, TableName, run_workers, work};

/// Ships a machine into cell 3, and steps it.
fn ship_third<F: FarStore, K: TableName, R: Wait>(
    rt: &R,
    pool: &Pool<F, K>,
    program: Program,
) -> [Option<StepReply>; 2] {
    let Some(cell) = pool.cell(3) else {
        return [None, None];
    };
    let mut locked = cell.lock(rt);
    if locked.has_machine() {
        return [None, None];
    }
    locked.ship(program, Start::new(2, [OBJECT, 0, 0, 0, 0]));
    let first = locked.step(pool.table(), Way::Step);
    let second = locked.step(pool.table(), Way::Step);
    [first, second]
}

/// What two workers left.
#[derive(Clone, Copy, Drop, Debug, PartialEq, Eq)]
pub struct LeftByTwo {
    made: usize,
    /// Whether machines 1 and 2 came to their ends.
    ended: bool,
    /// Whether both workers came, and what the gate waited for.
    both: bool,
    met: bool,
    /// What machine 3, shipped then, was answered to its two steps.
    replies: [Option<StepReply>; 2],
}

/// Two workers under a gate that holds them until they have met.
pub fn two<K: TableName + Send + Sync, R: Threads + Wait + Sync>(
    rt: &R,
    alloc: Global,
    pool: &Pool<OwnStore, K>,
) -> Result<LeftByTwo, Fail> {
    let program = program(alloc, &[LOAD, EXIT])?;
    let gate = Holds::new();
    let (made, ended) = run_driven(rt, &gate, pool, 2);
    Ok(LeftByTwo {
        made,
        ended,
        both: gate.both.load(Ordering::SeqCst),
        met: gate.met.load(Ordering::SeqCst),
        replies: ship_third(rt, pool, program),
    })
}

/// Adds 1 to object 1.
const ONE_MORE: Code = Code {
    fuel: 10,
    arguments: [OBJECT, 1, 0, 0, 0],
    slots: &[ADD, EXIT],
    debug: None,
};

#[test]
fn gate_two_workers(rt: HostRuntime) -> Result<(), Fail> {
    let left = left_of(&rt, rt.alloc(), &[ONE_MORE, ONE_MORE], Course::Two)?;
    let wanted = LeftByTwo {
        made: 2,
        ended: true,
        both: true,
        met: true,
        replies: [
            Some(StepReply::Ran(1)),
            Some(StepReply::Stopped(Stop::Exit(2))),
        ],
    };
    same!(rt; left, Left::Two(wanted));
    Ok(())
}

/// What four workers left.
#[derive(Clone, Copy, Drop, Debug, PartialEq, Eq)]
pub struct LeftByFour {
    made: usize,
    /// Whether machines 1 and 2 came to their ends.
    ended: bool,
    /// Whether two were at an instruction of one machine at a time.
    met: bool,
    /// How many instructions were done, and how many workers were told to end.
    done: u64,
    told: u64,
}

/// Four workers.
pub fn four<K: TableName + Send + Sync, R: Threads + Wait + Sync>(
    rt: &R,
    pool: &Pool<OwnStore, K>,
) -> LeftByFour {
    let gate = Crowd::new();
    let (made, ended) = run_driven(rt, &gate, pool, 4);
    LeftByFour {
        made,
        ended,
        met: gate.met.load(Ordering::SeqCst),
        done: gate.done.load(Ordering::SeqCst),
        told: gate.ended.load(Ordering::SeqCst),
    }
}

/// Runs until its fuel is spent.
const ENDLESS: Code = Code {
    fuel: 2000,
    arguments: [0; 5],
    slots: &[JUMP],
    debug: None,
};

#[test]
fn each_machine_is_run_by_one_worker_at_a_time(rt: HostRuntime) -> Result<(), Fail> {
    let left = left_of(&rt, rt.alloc(), &[ENDLESS, ENDLESS], Course::Four)?;
    let wanted = LeftByFour {
        made: 4,
        ended: true,
        met: false,
        done: 4002,
        told: 4,
    };
    same!(rt; left, Left::Four(wanted));
    Ok(())
}

/// Holds worker 0 at an instruction until worker 1 has come to one, and the other way round, and ends both then.
#[derive(Drop)]
struct Numbered {
    first: AtomicBool,
    second: AtomicBool,
    other: AtomicBool,
    ends: AtomicBool,
}

impl Gate for Numbered {
    fn before(&self, worker: usize, _machine: usize) {
        let (own, awaited) = match worker {
            0 => (&self.first, &self.second),
            1 => (&self.second, &self.first),
            _ => (&self.other, &self.other),
        };
        own.store(true, Ordering::SeqCst);
        waits_for(awaited);
        self.ends.store(true, Ordering::SeqCst);
    }

    fn after(&self, _worker: usize, _machine: usize) {}

    fn go_on(&self) -> bool {
        !self.ends.load(Ordering::SeqCst)
    }
}

/// What two workers told.
#[derive(Clone, Copy, Drop, Debug, PartialEq, Eq)]
pub struct Heard {
    made: usize,
    first: bool,
    second: bool,
    other: bool,
}

/// Two workers that tell their numbers.
pub fn numbers<K: TableName + Send + Sync, R: Threads + Wait + Sync>(
    rt: &R,
    pool: &Pool<OwnStore, K>,
) -> Heard {
    let gate = Numbered {
        first: AtomicBool::new(false),
        second: AtomicBool::new(false),
        other: AtomicBool::new(false),
        ends: AtomicBool::new(false),
    };
    let made = run_workers(rt, &gate, pool, 2);
    Heard {
        made,
        first: gate.first.load(Ordering::SeqCst),
        second: gate.second.load(Ordering::SeqCst),
        other: gate.other.load(Ordering::SeqCst),
    }
}

/// Ends at once.
const SHORT: Code = Code {
    fuel: 10,
    arguments: [0; 5],
    slots: &[EXIT],
    debug: None,
};

#[test]
fn each_worker_has_its_number(rt: HostRuntime) -> Result<(), Fail> {
    let wanted = Heard {
        made: 2,
        first: true,
        second: true,
        other: false,
    };
    same!(rt; left_of(&rt, rt.alloc(), &[SHORT, SHORT], Course::Numbers)?, Left::Numbers(wanted));
    Ok(())
}

/// Looks at the fuel of machine 1 before and after each instruction, and lets a worker have so many turns.
#[derive(Drop)]
struct Looks<'a, R: Wait, F: FarStore, K: TableName> {
    rt: &'a R,
    alloc: Global,
    pool: &'a Pool<F, K>,
    turns: AtomicU64,
    before: AtomicU64,
    after: AtomicU64,
}

impl<'a, R: Wait, F: FarStore, K: TableName> Looks<'a, R, F, K> {
    /// The fuel of machine 1, or none.
    fn fuel(&self) -> u64 {
        fuel(self.rt, self.alloc, self.pool).unwrap_or(0)
    }
}

impl<'a, R: Wait, F: FarStore, K: TableName> Gate for Looks<'a, R, F, K> {
    fn before(&self, _worker: usize, _machine: usize) {
        self.before.store(self.fuel(), Ordering::SeqCst);
    }

    fn after(&self, _worker: usize, _machine: usize) {
        self.after.store(self.fuel(), Ordering::SeqCst);
    }

    fn go_on(&self) -> bool {
        self.turns.fetch_sub(1, Ordering::SeqCst) > 0
    }
}

/// One turn of a worker under a gate that looks: what it sees before its instruction, and after it.
pub fn looks_at_fuel<K: TableName, R: Wait>(
    rt: &R,
    alloc: Global,
    pool: &Pool<OwnStore, K>,
) -> [u64; 2] {
    let gate = Looks {
        rt,
        alloc,
        pool,
        turns: AtomicU64::new(1),
        before: AtomicU64::new(0),
        after: AtomicU64::new(0),
    };
    work(rt, &gate, pool, 0);
    [
        gate.before.load(Ordering::SeqCst),
        gate.after.load(Ordering::SeqCst),
    ]
}

#[test]
fn a_gate_is_told_when_the_instruction_is_done(rt: HostRuntime) -> Result<(), Fail> {
    same!(rt; left_of(&rt, rt.alloc(), &[SHORT], Course::Fuel)?, Left::Fuel([10, 9]));
    Ok(())
}
