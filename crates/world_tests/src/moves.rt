//! Objects that move while machines run.

use crate::common::{EXIT, FIRST, Say, Told, new_tells, tells, world_within};
use machine::Stop;
use std::test::Fail;
use world::{Move, Place};

/// `aadd [r1], r2`
const ADD: u64 = 0xdb21_0000_0000_0000;

/// `ldxb r0, [r1]`
const LOAD: u64 = 0x7110_0000_0000_0000;

/// `call 4`, which closes the machine's scopes.
const CLOSE: u64 = 0x8500_0000_0400_0000;

const HELD: &[(Say, Told)] = &[
    (Say::Make(8), Told::Made(1)),
    (
        Say::Ship(10, [FIRST, 1, 0, 0, 0], &[ADD, ADD, EXIT]),
        Told::Shipped(1),
    ),
    (
        Say::Ship(10, [FIRST, 1, 0, 0, 0], &[ADD, ADD, EXIT]),
        Told::Shipped(2),
    ),
    (Say::Step(1), Told::Ran(1, 1)),
    (Say::Move(1, Move::Leave), Told::Scoped(1)),
    (Say::Move(1, Move::Left), Told::Misplaced(1, Place::Here)),
    (Say::Step(2), Told::Ran(2, 1)),
    (Say::Step(2), Told::Ran(2, 2)),
    (Say::Step(1), Told::Ran(1, 2)),
    (Say::Step(1), Told::Stopped(1, Stop::Exit(0))),
    (Say::Move(1, Move::Leave), Told::Scoped(1)),
    (Say::Step(2), Told::Stopped(2, Stop::Exit(0))),
    (Say::Move(1, Move::Leave), Told::Leaving(1)),
    (Say::Get(1, 0, 8), Told::Away(1)),
    (Say::Move(1, Move::Left), Told::Left(1)),
    (Say::Move(1, Move::Return), Told::Returning(1)),
    (Say::Move(1, Move::Returned), Told::Home(1)),
    (Say::Get(1, 0, 8), Told::Bytes(&[4, 0, 0, 0, 0, 0, 0, 0])),
];

#[test]
fn two_machines_hold_an_object(rt: HostRuntime) -> Result<(), Fail> {
    new_tells(&rt, rt.alloc(), HELD)?;
    Ok(())
}

const WAITING: &[(Say, Told)] = &[
    (Say::Make(8), Told::Made(1)),
    (
        Say::Ship(10, [FIRST, 0, 0, 0, 0], &[LOAD, CLOSE, LOAD, EXIT]),
        Told::Shipped(1),
    ),
    (Say::Step(1), Told::Ran(1, 1)),
    (Say::Move(1, Move::Leave), Told::Scoped(1)),
    (Say::Step(1), Told::Ran(1, 2)),
    (Say::Move(1, Move::Leave), Told::Leaving(1)),
    (Say::Step(1), Told::Waiting(1, 1)),
    (Say::Move(1, Move::Left), Told::Left(1)),
    (Say::Step(1), Told::Waiting(1, 1)),
    (Say::Move(1, Move::Return), Told::Returning(1)),
    (Say::Move(1, Move::Returned), Told::Home(1)),
    (Say::Step(1), Told::Ran(1, 3)),
];

#[test]
fn a_machine_waits_until_its_object_is_home(rt: HostRuntime) -> Result<(), Fail> {
    new_tells(&rt, rt.alloc(), WAITING)?;
    Ok(())
}

/// A machine loads a byte of each of five objects: the same load by R1 to R5.
const FIVE: &[(Say, Told)] = &[
    (Say::Make(1), Told::Made(1)),
    (Say::Make(1), Told::Made(2)),
    (Say::Make(1), Told::Made(3)),
    (Say::Make(1), Told::Made(4)),
    (Say::Make(1), Told::Made(5)),
    (
        Say::Ship(
            10,
            [FIRST, 2 * FIRST, 3 * FIRST, 4 * FIRST, 5 * FIRST],
            &[
                0x7110_0000_0000_0000,
                0x7120_0000_0000_0000,
                0x7130_0000_0000_0000,
                0x7140_0000_0000_0000,
                0x7150_0000_0000_0000,
                EXIT,
            ],
        ),
        Told::Shipped(1),
    ),
    (Say::Step(1), Told::Ran(1, 1)),
    (Say::Step(1), Told::Ran(1, 2)),
    (Say::Step(1), Told::Ran(1, 3)),
    (Say::Step(1), Told::Ran(1, 4)),
    (Say::Step(1), Told::Ran(1, 5)),
    (Say::Move(1, Move::Leave), Told::Leaving(1)),
    (Say::Move(2, Move::Leave), Told::Scoped(2)),
    (Say::Step(1), Told::Stopped(1, Stop::Exit(0))),
    (Say::Move(2, Move::Leave), Told::Leaving(2)),
    (Say::Move(3, Move::Return), Told::Misplaced(3, Place::Here)),
    (Say::Free(1), Told::Misplaced(1, Place::Leaving)),
    (Say::Free(3), Told::Freed(3)),
    (Say::Get(3, 0, 1), Told::Outside),
    (Say::Move(3, Move::Leave), Told::Missing),
];

#[test]
fn a_fifth_object_pushes_out_the_first(rt: HostRuntime) -> Result<(), Fail> {
    new_tells(&rt, rt.alloc(), FIVE)?;
    Ok(())
}

/// Over a budget of eight bytes.
const ROOM: &[(Say, Told)] = &[
    (Say::Make(8), Told::Made(1)),
    (Say::Make(1), Told::NoRoom),
    (Say::Move(1, Move::Leave), Told::Leaving(1)),
    (Say::Make(1), Told::NoRoom),
    (Say::Move(1, Move::Left), Told::Left(1)),
    (Say::Make(1), Told::Made(2)),
    (Say::Move(1, Move::Return), Told::NoRoom),
    (Say::Free(2), Told::Freed(2)),
    (Say::Move(1, Move::Return), Told::Returning(1)),
    (Say::Make(1), Told::NoRoom),
    (
        Say::Move(1, Move::Leave),
        Told::Misplaced(1, Place::Returning),
    ),
];

#[test]
fn an_object_returns_where_there_is_room(rt: HostRuntime) -> Result<(), Fail> {
    tells(&rt, rt.alloc(), &mut world_within(rt.alloc(), 8)?, ROOM)?;
    Ok(())
}

const AWAY: &[(Say, Told)] = &[
    (Say::Make(2), Told::Made(1)),
    (Say::Move(1, Move::Leave), Told::Leaving(1)),
    (Say::Put(1, 1, &[7]), Told::Away(1)),
    (Say::Put(1, 1, &[7, 7]), Told::Outside),
    (Say::Get(1, 0, 3), Told::Outside),
    (
        Say::Move(1, Move::Returned),
        Told::Misplaced(1, Place::Leaving),
    ),
];

#[test]
fn nothing_is_put_in_an_object_that_is_away(rt: HostRuntime) -> Result<(), Fail> {
    new_tells(&rt, rt.alloc(), AWAY)?;
    Ok(())
}
