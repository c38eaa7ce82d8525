//! Making, freeing, and ranges.

use crate::acts::{Act, Answer, DONE, LOAD, NO_OBJECT, tells};
use crate::stores::own_objects;
use memory::{OBJECT_LIMIT, Reach};
use object_store::{Denied, GetError, MakeError};
use std::test::Fail;

/// Nothing is got there.
const NOT_GOT: Answer = Answer::NotGot(GetError::Denied(Denied::Outside));

/// Nothing is put there.
const NOT_PUT: Answer = Answer::Put(Err(Denied::Outside));

/// After as many objects as can be made.
const FULL: &[(Act, Answer)] = &[
    (Act::Make(1), Answer::NotMade(MakeError::Full)),
    (Act::Free(5), DONE),
    (Act::Free(5), NO_OBJECT),
    (Act::Make(1), Answer::NotMade(MakeError::Full)),
];

#[test]
fn numbers_are_not_used_again(rt: HostRuntime) -> Result<(), Fail> {
    let mut objects = own_objects(rt.alloc())?;
    for number in 1..OBJECT_LIMIT as u32 + 1 {
        tells(&rt, &mut objects, &[(Act::Make(1), Answer::Made(number))]);
    }
    tells(&rt, &mut objects, FULL);
    Ok(())
}

const FREED: &[(Act, Answer)] = &[
    (Act::Make(4), Answer::Made(1)),
    (Act::Make(4), Answer::Made(2)),
    (Act::Free(1), DONE),
    (Act::Length(1), Answer::Length(0)),
    (Act::Length(2), Answer::Length(4)),
    (Act::Get(1, 0, 1), NOT_GOT),
    (Act::Put(1, 0, &[1]), NOT_PUT),
    (Act::Touch(1, 1, LOAD), Answer::Reached(Reach::Outside)),
    (Act::Make(4), Answer::Made(3)),
];

#[test]
fn a_freed_number_is_no_object(rt: HostRuntime) -> Result<(), Fail> {
    tells(&rt, &mut own_objects(rt.alloc())?, FREED);
    Ok(())
}

const NO_OBJECTS: &[(Act, Answer)] = &[
    (Act::Make(8), Answer::Made(1)),
    (Act::Length(0), Answer::Length(0)),
    (Act::Get(0, 0, 1), NOT_GOT),
    (Act::Put(0, 0, &[1]), NOT_PUT),
    (Act::Free(0), NO_OBJECT),
    (Act::Length(2), Answer::Length(0)),
    (Act::Get(2, 0, 1), NOT_GOT),
    (Act::Put(2, 0, &[1]), NOT_PUT),
    (Act::Free(2), NO_OBJECT),
    (Act::Length(1024), Answer::Length(0)),
    (Act::Get(1024, 0, 1), NOT_GOT),
    (Act::Put(1024, 0, &[1]), NOT_PUT),
    (Act::Free(1024), NO_OBJECT),
    (Act::Length(1025), Answer::Length(0)),
    (Act::Get(1025, 0, 1), NOT_GOT),
    (Act::Put(1025, 0, &[1]), NOT_PUT),
    (Act::Free(1025), NO_OBJECT),
    (Act::Length(0xffff_ffff), Answer::Length(0)),
    (Act::Get(u32::MAX, 0, 1), NOT_GOT),
    (Act::Put(u32::MAX, 0, &[1]), NOT_PUT),
    (Act::Free(u32::MAX), NO_OBJECT),
    (Act::Length(u64::MAX), Answer::Length(0)),
    (Act::Length(0x1_0000_0001), Answer::Length(0)),
    (Act::Free(1), DONE),
];

#[test]
fn numbers_that_are_no_object(rt: HostRuntime) -> Result<(), Fail> {
    tells(&rt, &mut own_objects(rt.alloc())?, NO_OBJECTS);
    Ok(())
}

/// In an object of the greatest length.
const ENDS: &[(Act, Answer)] = &[
    (Act::Make(65_536), Answer::Made(1)),
    (Act::Put(1, 65535, &[7]), Answer::Put(Ok(()))),
    (Act::Put(1, 65535, &[8, 9]), NOT_PUT),
    (Act::Put(1, u32::MAX, &[8]), NOT_PUT),
    (
        Act::Get(1, 65534, 2),
        Answer::Got(2, [0, 7, 0, 0, 0, 0, 0, 0]),
    ),
    (Act::Get(1, 65535, 2), NOT_GOT),
    (Act::Get(1, 1, u32::MAX), NOT_GOT),
];

#[test]
fn ranges_end_within_the_object(rt: HostRuntime) -> Result<(), Fail> {
    tells(&rt, &mut own_objects(rt.alloc())?, ENDS);
    Ok(())
}
