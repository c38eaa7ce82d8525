//! A worker whose gate isn't told of instructions, on a thread of its own.
ghost use Rattle.shared_objects.specs.Tables.{IsMoverOf};

use crate::common::{Driven, EXIT, JUMP, LOAD, LOOKS, OBJECT, fuel, rest, run_driven};
use crate::compared::same;
use crate::course::{Code, Course, Left, left_of};
use far_store::{FarStore, OwnStore};
use shared_objects::MoverSeat;
use std::alloc::Global;
use std::sync::Wait;
use std::sync::atomic::{AtomicBool, Ordering};
use std::test::Fail;
use std::thread::Threads;
use workers::{Gate, Pool, TableName};

/// More than a worker uses up, and so many whole turns.
const FUEL: u64 = 64 << 50;

/// Lets a worker go on until machine 1 was found as it should be.
#[derive(Drop)]
struct Untold {
    alloc: Global,
    /// Whether machine 1 waits.
    waits: bool,
    ends: AtomicBool,
}

impl Gate for Untold {
    const IS_TOLD: bool = false;

    fn before(&self, _worker: usize, _machine: usize) {}

    fn after(&self, _worker: usize, _machine: usize) {}

    fn go_on(&self) -> bool {
        !self.ends.load(Ordering::SeqCst)
    }
}

impl Driven for Untold {
    fn is_seen<F: FarStore, K: TableName, R: Wait>(&self, rt: &R, pool: &Pool<F, K>) -> bool {
        if self.waits {
            is_found_waiting(rt, self.alloc, pool)
        } else {
            is_found_between(rt, self.alloc, pool)
        }
    }

    fn end(&self) {
        self.ends.store(true, Ordering::SeqCst);
    }
}

/// Whether machine 1 is found between two turns, after so many looks at most.
fn is_found_between<F: FarStore, K: TableName, R: Wait>(
    rt: &R,
    alloc: Global,
    pool: &Pool<F, K>,
) -> bool {
    for _ in 0..LOOKS {
        match fuel(rt, alloc, pool) {
            Some(fuel) if fuel < FUEL => return fuel % 64 == 0,
            _ => rest(),
        }
    }
    false
}

/// Whether machine 1 is found with all its fuel, again and again.
fn is_found_waiting<F: FarStore, K: TableName, R: Wait>(
    rt: &R,
    alloc: Global,
    pool: &Pool<F, K>,
) -> bool {
    for _ in 0..8 {
        if fuel(rt, alloc, pool) != Some(FUEL) {
            return false;
        }
        rest();
    }
    true
}

/// Whether machine 1 is found as it should be beside a worker that isn't told of instructions.
fn is_found<K: TableName + Send + Sync, R: Threads + Wait + Sync>(
    rt: &R,
    alloc: Global,
    pool: &Pool<OwnStore, K>,
    waits: bool,
) -> bool {
    let gate = Untold {
        alloc,
        waits,
        ends: AtomicBool::new(false),
    };
    run_driven(rt, &gate, pool, 1) == (1, true)
}

/// Whether machine 1 is found between two turns.
pub fn beside<K: TableName + Send + Sync, R: Threads + Wait + Sync>(
    rt: &R,
    alloc: Global,
    pool: &Pool<OwnStore, K>,
) -> bool {
    is_found(rt, alloc, pool, false)
}

/// Whether machine 1 is found that waits for object 1, which is on its way.
pub fn beside_waiting<K: TableName + Send + Sync, R: Threads + Wait + Sync>(
    rt: &R,
    alloc: Global,
    pool: &Pool<OwnStore, K>,
    mover: MoverSeat,
) -> bool
    requires { IsMoverOf pool.now.shared.table mover }
{
    let mut mover = mover;
    let _ = pool.table().begin_leave(&mut mover, 1);
    is_found(rt, alloc, pool, true)
}

const LOADING: Code = Code {
    fuel: FUEL,
    arguments: [OBJECT, 0, 0, 0, 0],
    slots: &[LOAD, EXIT],
    debug: None,
};

#[test]
fn who_wants_a_machine_that_waits_has_it(rt: HostRuntime) -> Result<(), Fail> {
    same!(rt; left_of(&rt, rt.alloc(), &[LOADING], Course::Waiting)?, Left::Found(true));
    Ok(())
}

const LONG: Code = Code {
    fuel: FUEL,
    arguments: [0; 5],
    slots: &[JUMP],
    debug: None,
};

#[test]
fn who_wants_a_machine_has_it_between_two_turns(rt: HostRuntime) -> Result<(), Fail> {
    same!(rt; left_of(&rt, rt.alloc(), &[LONG], Course::Beside)?, Left::Found(true));
    Ok(())
}
