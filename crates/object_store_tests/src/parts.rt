//! Stores taken apart.

use crate::acts::{Act, Answer, DONE, shown, tells};
use crate::compared::same;
use crate::stores::{counting_objects, own_objects};
use far_store::FarStore;
use object_store::{ObjectStore, PartsError, Place};
use std::alloc::Global;
use std::process::Abort;
use std::rc::Rc;
use std::test::Fail;
use test_devices::Asked;

/// A body, if there is one at this index.
fn body_at(bodies: &[Vec<u8>], index: usize) -> Option<Answer> {
    match bodies.get(index) {
        Some(bytes) => Some(shown(bytes.as_slice())),
        None => None,
    }
}

/// How many bodies a store leaves, and the first three of them.
fn left_of<F: FarStore + Drop>(
    objects: ObjectStore<F>,
) -> Result<(usize, [Option<Answer>; 3]), PartsError> {
    let bodies = objects.into_parts()?.bodies;
    let first = body_at(bodies.as_slice(), 0);
    let second = body_at(bodies.as_slice(), 1);
    let third = body_at(bodies.as_slice(), 2);
    Ok((bodies.len(), [first, second, third]))
}

const THREE: &[(Act, Answer)] = &[
    (Act::Make(1), Answer::Made(1)),
    (Act::Make(2), Answer::Made(2)),
    (Act::Make(3), Answer::Made(3)),
    (Act::Put(3, 1, &[7]), Answer::Put(Ok(()))),
    (Act::Free(2), DONE),
];

#[test]
fn bodies_stand_by_number(rt: HostRuntime) -> Result<(), Fail> {
    let mut objects = own_objects(rt.alloc())?;
    tells(&rt, &mut objects, THREE);
    let bodies = [
        Some(Answer::Got(1, [0; 8])),
        Some(Answer::Got(0, [0; 8])),
        Some(Answer::Got(3, [0, 7, 0, 0, 0, 0, 0, 0])),
    ];
    same!(rt; left_of(objects), Ok((3, bodies)));
    Ok(())
}

#[test]
fn where_nothing_was_made_one_body_is_empty(rt: HostRuntime) -> Result<(), Fail> {
    let bodies = [Some(Answer::Got(0, [0; 8])), None, None];
    same!(rt; left_of(own_objects(rt.alloc())?), Ok((1, bodies)));
    Ok(())
}

/// Of two objects the second travels.
const TRAVELLED: &[(Act, Answer)] = &[
    (Act::Make(8), Answer::Made(1)),
    (Act::Make(8), Answer::Made(2)),
    (Act::Leave(2), DONE),
    (Act::Left(2), DONE),
    (Act::Return(2), DONE),
    (Act::Home(2), DONE),
];

/// Puts, gets and forgets after that, how many bodies are left then, and puts, gets and forgets with that.
fn travelled(
    rt: &impl Abort,
    alloc: Global,
) -> Result<((u32, u32, u32), usize, (u32, u32, u32)), Fail> {
    let asked = Rc::new(alloc, Asked::new())?;
    let mut objects = counting_objects(alloc, &asked)?;
    tells(rt, &mut objects, TRAVELLED);
    let before = asked.counts();
    let (count, _) = left_of(objects)?;
    Ok((before, count, asked.counts()))
}

#[test]
fn parcels_are_forgotten(rt: HostRuntime) -> Result<(), Fail> {
    same!(rt; travelled(&rt, rt.alloc())?, ((1, 1, 0), 2, (1, 1, 1)));
    Ok(())
}

const PLACES: &[(Act, Answer)] = &[
    (Act::Make(8), Answer::Made(1)),
    (Act::Make(8), Answer::Made(2)),
    (Act::Make(8), Answer::Made(3)),
    (Act::Make(8), Answer::Made(4)),
    (Act::Free(1), DONE),
    (Act::Leave(4), DONE),
    (Act::Leave(3), DONE),
    (Act::Left(3), DONE),
    (Act::Place(0), Answer::Place(None)),
    (Act::Place(1), Answer::Place(None)),
    (Act::Place(5), Answer::Place(None)),
    (Act::Place(2), Answer::Place(Some(Place::Here))),
    (Act::Place(3), Answer::Place(Some(Place::Far))),
    (Act::Place(4), Answer::Place(Some(Place::Leaving))),
];

#[test]
fn the_first_object_that_is_away_is_told(rt: HostRuntime) -> Result<(), Fail> {
    let mut objects = own_objects(rt.alloc())?;
    tells(&rt, &mut objects, PLACES);
    same!(rt; left_of(objects), Err(PartsError::NotHere(3)));
    Ok(())
}
