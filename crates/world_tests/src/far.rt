//! What a far store is asked, and what becomes of its faults.

use crate::common::{AMPLE, EXIT, FIRST, Say, Told, tells};
use crate::compared::same;
use far_store::{Failing, OwnStore, StoreFault};
use machine::Stop;
use std::alloc::{AllocError, Global};
use std::process::Abort;
use std::rc::Rc;
use std::test::Fail;
use test_devices::{Asked, Counting};
use world::{Move, Place, World};

/// `acmpxchg [r1], r2`, which finds no 0 where R0 is 1.
const EXCHANGE: u64 = 0xdb21_0000_f100_0000;

/// `mov r0, 1`
const ONE: u64 = 0xb700_0000_0100_0000;

fn failing(alloc: Global, call: u64) -> Result<World<Failing<OwnStore>>, AllocError> {
    World::new(alloc, AMPLE, Failing::new(OwnStore::new(alloc), call))
}

const NOT_SENT: &[(Say, Told)] = &[
    (Say::Make(1), Told::Made(1)),
    (Say::Move(1, Move::Leave), Told::Leaving(1)),
    (
        Say::Move(1, Move::Left),
        Told::Faulted(1, StoreFault::Refused),
    ),
    (Say::Move(1, Move::Leave), Told::Leaving(1)),
    (Say::Move(1, Move::Left), Told::Left(1)),
];

#[test]
fn an_object_that_cannot_leave_is_here(rt: HostRuntime) -> Result<(), Fail> {
    tells(&rt, rt.alloc(), &mut failing(rt.alloc(), 1)?, NOT_SENT)?;
    Ok(())
}

#[test]
fn an_object_is_back_where_its_move_began(rt: HostRuntime) {
    same!(rt; Move::Leave.back(), Place::Here);
    same!(rt; Move::Left.back(), Place::Here);
    same!(rt; Move::Return.back(), Place::Far);
    same!(rt; Move::Returned.back(), Place::Far);
}

const NOT_FETCHED: &[(Say, Told)] = &[
    (Say::Make(2), Told::Made(1)),
    (Say::Put(1, 0, &[8, 9]), Told::Done),
    (Say::Move(1, Move::Leave), Told::Leaving(1)),
    (Say::Move(1, Move::Left), Told::Left(1)),
    (Say::Move(1, Move::Return), Told::Returning(1)),
    (
        Say::Move(1, Move::Returned),
        Told::Faulted(1, StoreFault::Refused),
    ),
    (Say::Move(1, Move::Return), Told::Returning(1)),
    (Say::Move(1, Move::Returned), Told::Home(1)),
    (Say::Get(1, 0, 2), Told::Bytes(&[8, 9])),
];

#[test]
fn an_object_that_cannot_return_is_far(rt: HostRuntime) -> Result<(), Fail> {
    tells(&rt, rt.alloc(), &mut failing(rt.alloc(), 2)?, NOT_FETCHED)?;
    Ok(())
}

/// An object, and a machine that exchanges in it. The object is taken away and brought back.
const TRAVELLED: &[(Say, Told)] = &[
    (Say::Make(8), Told::Made(1)),
    (
        Say::Ship(10, [FIRST, 5, 0, 0, 0], &[ONE, EXCHANGE, EXIT]),
        Told::Shipped(1),
    ),
    (Say::Move(1, Move::Leave), Told::Leaving(1)),
    (Say::Move(1, Move::Left), Told::Left(1)),
    (Say::Move(1, Move::Return), Told::Returning(1)),
    (Say::Move(1, Move::Returned), Told::Home(1)),
];

/// It is once more.
const AGAIN: &[(Say, Told)] = &[
    (Say::Move(1, Move::Leave), Told::Leaving(1)),
    (Say::Move(1, Move::Left), Told::Left(1)),
    (Say::Move(1, Move::Return), Told::Returning(1)),
    (Say::Move(1, Move::Returned), Told::Home(1)),
];

/// How often an object was put in the far store that was away, met this, and was away again.
fn puts_of(rt: &impl Abort, alloc: Global, between: &[(Say, Told)]) -> Result<u32, AllocError> {
    let asked = Rc::new(alloc, Asked::new())?;
    let mut world = World::new(alloc, AMPLE, Counting::new(alloc, &asked)?)?;
    tells(rt, alloc, &mut world, TRAVELLED)?;
    tells(rt, alloc, &mut world, between)?;
    tells(rt, alloc, &mut world, AGAIN)?;
    Ok(asked.counts().0)
}

#[test]
fn an_object_that_was_read_is_not_put_again(rt: HostRuntime) -> Result<(), Fail> {
    let read = [(Say::Get(1, 0, 1), Told::Bytes(&[0]))];
    same!(rt; puts_of(&rt, rt.alloc(), &read)?, 1);
    Ok(())
}

#[test]
fn an_object_that_was_written_is_put_again(rt: HostRuntime) -> Result<(), Fail> {
    let written = [(Say::Put(1, 0, &[1]), Told::Done)];
    same!(rt; puts_of(&rt, rt.alloc(), &written)?, 2);
    Ok(())
}

const EXCHANGED: &[(Say, Told)] = &[
    (Say::Step(1), Told::Ran(1, 1)),
    (Say::Step(1), Told::Ran(1, 2)),
    (Say::Step(1), Told::Stopped(1, Stop::Exit(0))),
    (Say::Get(1, 0, 1), Told::Bytes(&[0])),
];

#[test]
fn a_failed_exchange_counts_as_a_write(rt: HostRuntime) -> Result<(), Fail> {
    same!(rt; puts_of(&rt, rt.alloc(), EXCHANGED)?, 2);
    Ok(())
}
