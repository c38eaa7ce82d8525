//! What is sent to the far store, and what isn't sent again.

use crate::acts::{Act, Answer, DONE, EXCHANGE, LOAD_DOUBLE, tells};
use crate::compared::same;
use crate::stores::counting_objects;
use memory::Reach;
use std::alloc::{AllocError, Global};
use std::process::Abort;
use std::rc::Rc;
use std::test::Fail;
use test_devices::Asked;

/// Puts, gets and forgets of the far store after acts that are answered so, and after more of them.
fn counts_after(
    rt: &impl Abort,
    alloc: Global,
    table: &[(Act, Answer)],
    rest: &[(Act, Answer)],
) -> Result<[(u32, u32, u32); 2], AllocError> {
    let asked = Rc::new(alloc, Asked::new())?;
    let mut objects = counting_objects(alloc, &asked)?;
    tells(rt, &mut objects, table);
    let counts = asked.counts();
    tells(rt, &mut objects, rest);
    Ok([counts, asked.counts()])
}

/// An object is made, sent away, and got back.
const TRAVELLED: &[(Act, Answer)] = &[
    (Act::Make(8), Answer::Made(1)),
    (Act::Leave(1), DONE),
    (Act::Left(1), DONE),
    (Act::Return(1), DONE),
    (Act::Home(1), DONE),
];

const READ: &[(Act, Answer)] = &[
    (Act::Get(1, 0, 1), Answer::Got(1, [0; 8])),
    (
        Act::Touch(1, 1, LOAD_DOUBLE),
        Answer::Reached(Reach::Done(0)),
    ),
    (Act::Close(1), Answer::Closed),
    (Act::Leave(1), DONE),
    (Act::Left(1), DONE),
];

#[test]
fn an_object_that_was_read_is_not_sent_again(rt: HostRuntime) -> Result<(), Fail> {
    let counts = counts_after(&rt, rt.alloc(), TRAVELLED, READ)?;
    same!(rt; counts, [(1, 1, 0), (1, 1, 0)]);
    Ok(())
}

/// An object is made, sent away, and got back, and a byte is put.
const THEN_PUT: &[(Act, Answer)] = &[
    (Act::Make(8), Answer::Made(1)),
    (Act::Leave(1), DONE),
    (Act::Left(1), DONE),
    (Act::Return(1), DONE),
    (Act::Home(1), DONE),
    (Act::Put(1, 0, &[1]), Answer::Put(Ok(()))),
];

const AFTER_PUT: &[(Act, Answer)] = &[
    (Act::Leave(1), DONE),
    (Act::Left(1), DONE),
    (Act::Return(1), DONE),
    (Act::Home(1), DONE),
    (Act::Get(1, 0, 1), Answer::Got(1, [1, 0, 0, 0, 0, 0, 0, 0])),
];

#[test]
fn an_object_that_was_put_is_sent_again(rt: HostRuntime) -> Result<(), Fail> {
    let counts = counts_after(&rt, rt.alloc(), THEN_PUT, AFTER_PUT)?;
    same!(rt; counts, [(1, 1, 0), (2, 2, 1)]);
    Ok(())
}

const EXCHANGED: &[(Act, Answer)] = &[
    (Act::Touch(1, 1, EXCHANGE), Answer::Reached(Reach::Done(0))),
    (Act::Close(1), Answer::Closed),
    (Act::Leave(1), DONE),
    (Act::Left(1), DONE),
];

#[test]
fn a_failed_exchange_counts_as_a_write(rt: HostRuntime) -> Result<(), Fail> {
    let counts = counts_after(&rt, rt.alloc(), TRAVELLED, EXCHANGED)?;
    same!(rt; counts, [(1, 1, 0), (2, 1, 1)]);
    Ok(())
}

#[test]
fn a_freed_object_forgets_its_parcel(rt: HostRuntime) -> Result<(), Fail> {
    let counts = counts_after(&rt, rt.alloc(), TRAVELLED, &[(Act::Free(1), DONE)])?;
    same!(rt; counts, [(1, 1, 0), (1, 1, 1)]);
    Ok(())
}
