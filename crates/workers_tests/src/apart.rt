//! Machines that wait for different objects. Expected answers are worked out by hand.
ghost use Rattle.std.specs.Prelude.{◌≡◌, true};
ghost use Rattle.shared_objects.specs.Kinds.{dealer};
ghost use Rattle.shared_objects.specs.Opened.{seated};

use crate::common::{EXIT, LOAD, OBJECT, goes};
use crate::compared::same;
use crate::course::{Code, Course, Left, left_of};
use crate::moving::goes_away;
use far_store::{FarStore, OwnStore};
use shared_objects::MoverSeat;
use std::alloc::{AllocError, Global};
use std::sync::Wait;
use std::test::Fail;
use test_gates::{Rounds, Turns};
use workers::{Mover, Pool, TableName, Upkeep, mover, work};

/// Whether machines 1 and 2 go on, once a worker has had two turns.
fn turned<F: FarStore, K: TableName, R: Wait>(rt: &R, pool: &Pool<F, K>) -> [bool; 2] {
    work(rt, &Turns::new(2), pool, 0);
    [goes(rt, pool, 1), goes(rt, pool, 2)]
}

/// The same, once the mover has served one request before.
fn served_and_turned<F: FarStore, K: TableName, R: Wait>(
    rt: &R,
    pool: &Pool<F, K>,
    served: &mut Mover<F, K>,
) -> [bool; 2] {
    mover(rt, &Rounds::new(1), pool, served, Upkeep::none());
    turned(rt, pool)
}

/// Which machines go on while objects 1 and 2 are far, when the first is back, and when both are.
pub fn waits<K: TableName, R: Wait>(
    rt: &R,
    alloc: Global,
    pool: &Pool<OwnStore, K>,
    mover: MoverSeat,
) -> Result<[[bool; 2]; 3], AllocError>
    requires { (mover.seat.table_id ≡ K.table) × (mover.seat.me.0 ≡ seated K.seats (dealer true K.opening)) }
{
    let mut served: Mover<OwnStore, K> = Mover::new(alloc, mover, OwnStore::new(alloc))?;
    goes_away(pool, &mut served, 1);
    goes_away(pool, &mut served, 2);
    let both_far = turned(rt, pool);
    let one_back = served_and_turned(rt, pool, &mut served);
    let both_back = served_and_turned(rt, pool, &mut served);
    Ok([both_far, one_back, both_back])
}

/// Reads an object and ends.
const LOADING: Code = Code {
    fuel: 10,
    arguments: [OBJECT, 0, 0, 0, 0],
    slots: &[LOAD, EXIT],
    debug: None,
};

const LOADING_2: Code = Code {
    arguments: [2 * OBJECT, 0, 0, 0, 0],
    ..LOADING
};

#[test]
fn a_machine_waits_on_while_another_object_returns(rt: HostRuntime) -> Result<(), Fail> {
    let left = left_of(&rt, rt.alloc(), &[LOADING, LOADING_2], Course::Waits)?;
    same!(rt; left, Left::Waits([[true, true], [false, true], [false, false]]));
    Ok(())
}
