//! Objects: their numbers, their ends, and what is free.

use crate::common::{EXIT, FIRST, Say, Told, new_world, runs, tells};
use machine::Stop;
use std::test::Fail;

/// After as many objects as can be made.
const FULL: &[(Say, Told)] = &[
    (Say::Make(1), Told::Full),
    (Say::Free(5), Told::Freed(5)),
    (Say::Make(1), Told::Full),
];

#[test]
fn a_thousand_and_twenty_four_are_made_and_no_more(rt: HostRuntime) -> Result<(), Fail> {
    let mut world = new_world(rt.alloc())?;
    for object in 1..1025u32 {
        let made = [(Say::Make(1), Told::Made(object))];
        tells(&rt, rt.alloc(), &mut world, &made)?;
    }
    tells(&rt, rt.alloc(), &mut world, FULL)?;
    Ok(())
}

const ENDS: &[(Say, Told)] = &[
    (Say::Make(8), Told::Made(1)),
    (Say::Get(1, 7, 2), Told::Outside),
    (Say::Get(2, 0, 1), Told::Outside),
    (Say::Get(0, 0, 1), Told::Outside),
    (Say::Get(1025, 0, 1), Told::Outside),
    (Say::Get(u32::MAX, 0, 1), Told::Outside),
    (Say::Get(1, u32::MAX, u32::MAX), Told::Outside),
    (Say::Put(1, 7, &[1, 2]), Told::Outside),
    (Say::Put(2, 0, &[1]), Told::Outside),
    (Say::Put(0, 0, &[1]), Told::Outside),
];

#[test]
fn a_range_ends_within_its_object(rt: HostRuntime) -> Result<(), Fail> {
    runs(&rt, rt.alloc(), ENDS)?;
    Ok(())
}

/// `ldxb r0, [r1]` of an object that was freed.
const FREED: &[(Say, Told)] = &[
    (Say::Make(8), Told::Made(1)),
    (Say::Make(8), Told::Made(2)),
    (Say::Free(1), Told::Freed(1)),
    (Say::Free(1), Told::Missing),
    (Say::Free(3), Told::Missing),
    (Say::Get(1, 0, 1), Told::Outside),
    (Say::Put(1, 0, &[1]), Told::Outside),
    (
        Say::Ship(10, [FIRST, 0, 0, 0, 0], &[0x7110_0000_0000_0000, EXIT]),
        Told::Shipped(1),
    ),
    (Say::Step(1), Told::Stopped(1, Stop::Outside)),
    (Say::Make(1), Told::Made(3)),
];

#[test]
fn a_freed_object_is_no_more(rt: HostRuntime) -> Result<(), Fail> {
    runs(&rt, rt.alloc(), FREED)?;
    Ok(())
}
