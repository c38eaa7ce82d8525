//! Turns under a lock that a pool lends, by somebody who isn't a worker. Expected values are worked out by hand.

use crate::common::{ADD, EXIT, JUMP, OBJECT};
use crate::compared::same;
use crate::course::{Code, Course, Left, left_of};
use crate::turns::{Point, point};
use debugger::{DebugCommand, State};
use far_store::FarStore;
use machine::Stop;
use std::alloc::{AllocError, Global};
use std::sync::Wait;
use std::test::Fail;
use std::thread::Threads;
use test_gates::Turns;
use workers::{Pool, TableName, work};

/// What turns under lent locks left.
#[derive(Clone, Copy, Drop, Debug, PartialEq, Eq)]
pub struct LentLeft {
    /// Whether machine 1 went on after each of two turns.
    on: [bool; 2],
    machine: Option<Point>,
    /// Whether there are cells of the numbers 0 to 4.
    there: [bool; 5],
    /// Whether somebody worked before there was a worker, and after one that was told of each instruction.
    worked: [bool; 2],
}

/// Whether machine 1 goes on after a turn.
fn goes_on<F: FarStore, K: TableName, R: Wait>(rt: &R, pool: &Pool<F, K>) -> bool {
    let Some(mut locked) = pool.lend(rt, 1) else {
        return false;
    };
    let on = pool.turn_lent(rt, &mut locked);
    pool.give_back(locked);
    on
}

/// Whether the pool lends the cell of this number.
fn is_there<F: FarStore, K: TableName, R: Wait>(rt: &R, pool: &Pool<F, K>, number: usize) -> bool {
    match pool.lend(rt, number) {
        Some(locked) => locked.number() == number,
        None => false,
    }
}

/// What two turns of machine 1 leave.
pub fn turns_lent<F: FarStore, K: TableName, R: Wait>(
    rt: &R,
    alloc: Global,
    pool: &Pool<F, K>,
) -> LentLeft {
    let before = pool.is_worked();
    let on = [goes_on(rt, pool), goes_on(rt, pool)];
    let machine = point(rt, alloc, pool, 1);
    work(rt, &Turns::new(0), pool, 0);
    LentLeft {
        on,
        machine,
        there: [
            is_there(rt, pool, 0),
            is_there(rt, pool, 1),
            is_there(rt, pool, 2),
            is_there(rt, pool, 3),
            is_there(rt, pool, 4),
        ],
        worked: [before, pool.is_worked()],
    }
}

/// The same of a machine with this code, with fuel 1000.
fn left_by<R: Threads + Wait + Sync>(
    rt: &R,
    alloc: Global,
    slots: &'static [u64],
    debug: Option<DebugCommand>,
) -> Result<LentLeft, Fail> {
    let code = Code {
        fuel: 1000,
        arguments: [OBJECT, 1, 0, 0, 0],
        slots,
        debug,
    };
    match left_of(rt, alloc, &[code], Course::Lent)? {
        Left::Lent(left) => Ok(left),
        _ => Err(Fail::from(AllocError)),
    }
}

/// What is left after this, of three cells.
fn wanted(on: [bool; 2], point: Point) -> LentLeft {
    LentLeft {
        on,
        machine: Some(point),
        there: [false, true, true, true, false],
        worked: [false; 2],
    }
}

#[test]
fn a_lent_turn_is_64_instructions(rt: HostRuntime) -> Result<(), Fail> {
    let left = left_by(&rt, rt.alloc(), &[JUMP], None)?;
    same!(rt; left, wanted([true; 2], (0, 872, State::Running)));
    Ok(())
}

#[test]
fn a_lent_turn_ends_where_the_machine_stops_or_pauses(rt: HostRuntime) -> Result<(), Fail> {
    let left = left_by(&rt, rt.alloc(), &[ADD, EXIT], None)?;
    let stopped = (1, 998, State::Stopped(Stop::Exit(0)));
    same!(rt; left, wanted([false; 2], stopped));
    let paused = Some(DebugCommand::Break { slot: 1 });
    let left = left_by(&rt, rt.alloc(), &[ADD, EXIT], paused)?;
    same!(rt; left, wanted([false; 2], (1, 999, State::Paused)));
    Ok(())
}
