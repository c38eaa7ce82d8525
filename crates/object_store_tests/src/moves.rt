//! Moves, scopes and the budget.

use crate::acts::{ADD_ONE, Act, Answer, DONE, LOAD, NO_OBJECT, tells};
use crate::stores::{AMPLE, failing_objects, objects_within, own_objects};
use far_store::StoreFault;
use memory::Reach;
use object_store::{Denied, GetError, MakeError, Moved, Place};
use scopes::MACHINE_LIMIT;
use std::test::Fail;

const HERE: Answer = Answer::Moved(Moved::Misplaced(Place::Here));

const LEAVING: Answer = Answer::Moved(Moved::Misplaced(Place::Leaving));

const FAR: Answer = Answer::Moved(Moved::Misplaced(Place::Far));

const RETURNING: Answer = Answer::Moved(Moved::Misplaced(Place::Returning));

const SCOPED: Answer = Answer::Moved(Moved::Scoped);

const REFUSED: Answer = Answer::Moved(Moved::Fault(StoreFault::Refused));

const AWAY: Answer = Answer::Reached(Reach::Away);

const HELD: &[(Act, Answer)] = &[
    (Act::Make(8), Answer::Made(1)),
    (Act::Touch(1, 1, ADD_ONE), Answer::Reached(Reach::Done(0))),
    (Act::Leave(1), SCOPED),
    (Act::Left(1), HERE),
    (Act::Touch(2, 1, ADD_ONE), Answer::Reached(Reach::Done(1))),
    (Act::Touch(2, 1, ADD_ONE), Answer::Reached(Reach::Done(2))),
    (Act::Touch(1, 1, ADD_ONE), Answer::Reached(Reach::Done(3))),
    (Act::Close(1), Answer::Closed),
    (Act::Leave(1), SCOPED),
    (Act::Close(2), Answer::Closed),
    (Act::Leave(1), DONE),
    (
        Act::Get(1, 0, 8),
        Answer::NotGot(GetError::Denied(Denied::Away)),
    ),
    (Act::Left(1), DONE),
    (Act::Return(1), DONE),
    (Act::Home(1), DONE),
    (Act::Get(1, 0, 8), Answer::Got(8, [4, 0, 0, 0, 0, 0, 0, 0])),
];

#[test]
fn two_machines_hold_an_object(rt: HostRuntime) -> Result<(), Fail> {
    tells(&rt, &mut own_objects(rt.alloc())?, HELD);
    Ok(())
}

const ABROAD: &[(Act, Answer)] = &[
    (Act::Make(8), Answer::Made(1)),
    (Act::Touch(1, 1, LOAD), Answer::Reached(Reach::Done(0))),
    (Act::Close(1), Answer::Closed),
    (Act::Leave(1), DONE),
    (Act::Touch(1, 1, LOAD), AWAY),
    (Act::Left(1), DONE),
    (Act::Touch(1, 1, LOAD), AWAY),
    (Act::Put(1, 0, &[1]), Answer::Put(Err(Denied::Away))),
    (Act::Put(1, 8, &[1]), Answer::Put(Err(Denied::Outside))),
    (
        Act::Get(1, 8, 1),
        Answer::NotGot(GetError::Denied(Denied::Outside)),
    ),
    (Act::Length(1), Answer::Length(8)),
    (Act::Leave(1), FAR),
    (Act::Home(1), FAR),
    (Act::Return(1), DONE),
    (Act::Touch(1, 1, LOAD), AWAY),
    (Act::Free(1), RETURNING),
    (Act::Home(1), DONE),
    (Act::Touch(1, 1, LOAD), Answer::Reached(Reach::Done(0))),
];

#[test]
fn an_object_abroad_is_away(rt: HostRuntime) -> Result<(), Fail> {
    tells(&rt, &mut own_objects(rt.alloc())?, ABROAD);
    Ok(())
}

const FIVE: &[(Act, Answer)] = &[
    (Act::Make(1), Answer::Made(1)),
    (Act::Make(1), Answer::Made(2)),
    (Act::Make(1), Answer::Made(3)),
    (Act::Make(1), Answer::Made(4)),
    (Act::Make(1), Answer::Made(5)),
    (Act::Touch(1, 1, LOAD), Answer::Reached(Reach::Done(0))),
    (Act::Touch(1, 2, LOAD), Answer::Reached(Reach::Done(0))),
    (Act::Touch(1, 3, LOAD), Answer::Reached(Reach::Done(0))),
    (Act::Touch(1, 4, LOAD), Answer::Reached(Reach::Done(0))),
    (Act::Touch(1, 5, LOAD), Answer::Reached(Reach::Done(0))),
    (Act::Leave(1), DONE),
    (Act::Leave(2), SCOPED),
    (Act::Close(1), Answer::Closed),
    (Act::Leave(2), DONE),
    (Act::Return(3), HERE),
    (Act::Free(1), LEAVING),
    (Act::Free(3), DONE),
    (
        Act::Get(3, 0, 1),
        Answer::NotGot(GetError::Denied(Denied::Outside)),
    ),
];

#[test]
fn a_fifth_object_closes_the_oldest_scope(rt: HostRuntime) -> Result<(), Fail> {
    tells(&rt, &mut own_objects(rt.alloc())?, FIVE);
    Ok(())
}

#[test]
fn all_machines_hold_one_object(rt: HostRuntime) -> Result<(), Fail> {
    let mut objects = own_objects(rt.alloc())?;
    tells(&rt, &mut objects, &[(Act::Make(1), Answer::Made(1))]);
    for who in 1..MACHINE_LIMIT + 1 {
        let touch = (Act::Touch(who, 1, LOAD), Answer::Reached(Reach::Done(0)));
        tells(&rt, &mut objects, &[touch, touch]);
    }
    for who in 1..MACHINE_LIMIT + 1 {
        let closed = (Act::Close(who), Answer::Closed);
        tells(
            &rt,
            &mut objects,
            &[(Act::Leave(1), SCOPED), (Act::Free(1), SCOPED), closed],
        );
    }
    tells(&rt, &mut objects, &[(Act::Leave(1), DONE)]);
    Ok(())
}

/// No room for an object.
const FULL: Answer = Answer::NotMade(MakeError::NoRoom);

/// Over a budget of eight bytes.
const EIGHT: &[(Act, Answer)] = &[
    (Act::Make(9), FULL),
    (Act::Make(8), Answer::Made(1)),
    (Act::Make(1), FULL),
    (Act::Leave(1), DONE),
    (Act::Left(1), DONE),
    (Act::Make(1), Answer::Made(2)),
    (Act::Return(1), Answer::Moved(Moved::NoRoom)),
    (Act::Free(2), DONE),
    (Act::Return(1), DONE),
    (Act::Make(1), FULL),
    (Act::Home(1), DONE),
    (Act::Make(1), FULL),
];

#[test]
fn a_far_object_takes_no_budget(rt: HostRuntime) -> Result<(), Fail> {
    tells(&rt, &mut objects_within(rt.alloc(), 8)?, EIGHT);
    Ok(())
}

/// Over a budget of no byte.
const NOTHING: &[(Act, Answer)] = &[(Act::Make(1), FULL), (Act::Length(1), Answer::Length(0))];

#[test]
fn a_budget_of_nothing(rt: HostRuntime) -> Result<(), Fail> {
    tells(&rt, &mut objects_within(rt.alloc(), 0)?, NOTHING);
    Ok(())
}

/// The first call of the far store is refused.
const NOT_SENT: &[(Act, Answer)] = &[
    (Act::Make(1), Answer::Made(1)),
    (Act::Put(1, 0, &[7]), Answer::Put(Ok(()))),
    (Act::Leave(1), DONE),
    (Act::Left(1), REFUSED),
    (Act::Get(1, 0, 1), Answer::Got(1, [7, 0, 0, 0, 0, 0, 0, 0])),
    (Act::Leave(1), DONE),
    (Act::Left(1), DONE),
    (Act::Return(1), DONE),
    (Act::Home(1), DONE),
    (Act::Get(1, 0, 1), Answer::Got(1, [7, 0, 0, 0, 0, 0, 0, 0])),
];

#[test]
fn a_fault_leaves_the_object_where_it_was(rt: HostRuntime) -> Result<(), Fail> {
    tells(&rt, &mut failing_objects(rt.alloc(), AMPLE, 1)?, NOT_SENT);
    Ok(())
}

/// The second call of the far store is refused, and the budget is eight bytes.
const NOT_FETCHED: &[(Act, Answer)] = &[
    (Act::Make(8), Answer::Made(1)),
    (Act::Put(1, 7, &[9]), Answer::Put(Ok(()))),
    (Act::Leave(1), DONE),
    (Act::Left(1), DONE),
    (Act::Return(1), DONE),
    (Act::Home(1), REFUSED),
    (Act::Leave(1), FAR),
    (Act::Make(8), Answer::Made(2)),
    (Act::Free(2), DONE),
    (Act::Return(1), DONE),
    (Act::Home(1), DONE),
    (Act::Get(1, 7, 1), Answer::Got(1, [9, 0, 0, 0, 0, 0, 0, 0])),
];

#[test]
fn a_failed_return_keeps_the_parcel(rt: HostRuntime) -> Result<(), Fail> {
    tells(&rt, &mut failing_objects(rt.alloc(), 8, 2)?, NOT_FETCHED);
    Ok(())
}

const NOWHERE: &[(Act, Answer)] = &[
    (Act::Make(1), Answer::Made(1)),
    (Act::Leave(0), NO_OBJECT),
    (Act::Left(0), NO_OBJECT),
    (Act::Return(0), NO_OBJECT),
    (Act::Home(0), NO_OBJECT),
    (Act::Leave(2), NO_OBJECT),
    (Act::Left(2), NO_OBJECT),
    (Act::Return(2), NO_OBJECT),
    (Act::Home(2), NO_OBJECT),
    (Act::Leave(1025), NO_OBJECT),
    (Act::Left(1025), NO_OBJECT),
    (Act::Return(1025), NO_OBJECT),
    (Act::Home(1025), NO_OBJECT),
    (Act::Leave(u32::MAX), NO_OBJECT),
    (Act::Left(u32::MAX), NO_OBJECT),
    (Act::Return(u32::MAX), NO_OBJECT),
    (Act::Home(u32::MAX), NO_OBJECT),
];

#[test]
fn numbers_that_are_no_object_do_not_move(rt: HostRuntime) -> Result<(), Fail> {
    tells(&rt, &mut own_objects(rt.alloc())?, NOWHERE);
    Ok(())
}
