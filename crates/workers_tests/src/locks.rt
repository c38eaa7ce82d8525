//! What a cell's lock lends is what it was left with. Expected stamps are worked out by hand.

use crate::common::{ADD, EXIT, OBJECT};
use crate::compared::same;
use crate::course::{Code, Course, Left, left_of};
use debugger::{DebugCommand, Way};
use far_store::{FarStore, OwnStore};
use std::sync::Wait;
use std::test::Fail;
use test_gates::UntoldRounds;
use workers::{Pool, TableName, work};

/// Up to which stamp machine 1 has seen, and whether it goes on.
pub type Lent = Option<(u64, bool)>;

/// Machine 1 as its lock lends it.
fn lent<F: FarStore, K: TableName, R: Wait>(rt: &R, pool: &Pool<F, K>) -> Lent {
    let locked = pool.cell(1)?.lock(rt);
    Some((locked.stamp(), locked.is_going()))
}

/// A step of machine 1.
fn step<F: FarStore, K: TableName, R: Wait>(rt: &R, pool: &Pool<F, K>, way: Way) {
    if let Some(cell) = pool.cell(1) {
        let _ = cell.lock(rt).step(pool.table(), way);
    }
}

/// Machine 1 as its lock lends it at first, after the step in place of which it pauses, and after one step from there.
pub fn lent_thrice<K: TableName, R: Wait>(rt: &R, pool: &Pool<OwnStore, K>) -> [Lent; 3] {
    let first = lent(rt, pool);
    step(rt, pool, Way::Step);
    let second = lent(rt, pool);
    step(rt, pool, Way::One);
    [first, second, lent(rt, pool)]
}

/// Machine 1 as its lock lends it after a turn of a worker, which takes another way to the lock.
pub fn lent_after_turn<F: FarStore, K: TableName, R: Wait>(rt: &R, pool: &Pool<F, K>) -> Lent {
    work(rt, &UntoldRounds::new(1), pool, 0);
    lent(rt, pool)
}

/// Adds 1 to object 1, and pauses before.
const PAUSING: Code = Code {
    fuel: 10,
    arguments: [OBJECT, 1, 0, 0, 0],
    slots: &[ADD, EXIT],
    debug: Some(DebugCommand::Break { slot: 0 }),
};

#[test]
fn a_lock_lends_what_it_was_left_with(rt: HostRuntime) -> Result<(), Fail> {
    let wanted = [Some((0, true)), Some((0, false)), Some((1, false))];
    same!(rt; left_of(&rt, rt.alloc(), &[PAUSING], Course::Locks)?, Left::Locks(wanted));
    Ok(())
}

/// Adds 1 to object 1.
const ADDING: Code = Code {
    debug: None,
    ..PAUSING
};

#[test]
fn a_lock_lends_what_a_worker_left(rt: HostRuntime) -> Result<(), Fail> {
    same!(rt; left_of(&rt, rt.alloc(), &[ADDING], Course::Worked)?, Left::Worked(Some((1, false))));
    Ok(())
}
