//! When a body may leave that a machine has open. Expected answers are worked out by hand.
ghost use Rattle.shared_objects.specs.Tables.{IsMoverOf};

use crate::common::{CLOSE, EXIT, LOAD, OBJECT};
use crate::compared::same;
use crate::course::{Code, Course, Left, left_of};
use debugger::{StepReply, Way};
use far_store::{FarStore, OwnStore};
use machine::Stop;
use shared_objects::{Leave, MoverSeat};
use std::sync::Wait;
use std::test::Fail;
use workers::{Pool, TableName};

/// What a step of machine 1 is answered, and whether object 1 may leave then. If so, it comes home as it was.
fn step_and_leave<F: FarStore, K: TableName, R: Wait>(
    rt: &R,
    pool: &Pool<F, K>,
    mover: &mut MoverSeat,
) -> (Option<StepReply>, bool)
    requires { IsMoverOf pool.now.shared.table mover.old }
    ensures { IsMoverOf pool.now.shared.table mover.new }
{
    let Some(cell) = pool.cell(1) else {
        return (None, false);
    };
    let reply = cell.lock(rt).step(pool.table(), Way::Step);
    let Leave::Taken(bytes) = pool.table().begin_leave(mover, 1) else {
        return (reply, false);
    };
    pool.table().undo_leave(mover, 1, bytes);
    (reply, true)
}

/// What comes of each of four steps.
pub fn steps<K: TableName, R: Wait>(
    rt: &R,
    pool: &Pool<OwnStore, K>,
    mut mover: MoverSeat,
) -> [(Option<StepReply>, bool); 4]
    requires { IsMoverOf pool.now.shared.table mover }
{
    let first = step_and_leave(rt, pool, &mut mover);
    let second = step_and_leave(rt, pool, &mut mover);
    let third = step_and_leave(rt, pool, &mut mover);
    let fourth = step_and_leave(rt, pool, &mut mover);
    [first, second, third, fourth]
}

const LOADS: Code = Code {
    fuel: 10,
    arguments: [OBJECT, 0, 0, 0, 0],
    slots: &[LOAD, CLOSE, LOAD, EXIT],
    debug: None,
};

#[test]
fn helper_four_and_a_stop_close_scopes(rt: HostRuntime) -> Result<(), Fail> {
    let done = left_of(&rt, rt.alloc(), &[LOADS], Course::Steps)?;
    let wanted = [
        (Some(StepReply::Ran(1)), false),
        (Some(StepReply::Ran(2)), true),
        (Some(StepReply::Ran(3)), false),
        (Some(StepReply::Stopped(Stop::Exit(0))), true),
    ];
    same!(rt; done, Left::Steps(wanted));
    Ok(())
}
