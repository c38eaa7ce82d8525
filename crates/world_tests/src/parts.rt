//! Worlds taken apart.

use crate::common::{EXIT, Say, Told, new_world, tells};
use crate::compared::same;
use far_store::FarStore;
use machine::Stop;
use std::test::Fail;
use world::{Move, PartsError, World, WorldParts};

/// What a world left.
#[derive(Clone, Copy, Drop, Debug, PartialEq, Eq)]
struct Left {
    bodies: usize,
    /// The length of the first body, and its first two bytes.
    length: usize,
    bytes: [Option<u8>; 2],
    machines: usize,
    /// The numbers of the first two machines, and their fuel.
    fuel: [Option<(usize, u64)>; 2],
}

/// The number and the fuel of a machine, by its index.
fn fuel_at<F>(parts: &WorldParts<F>, index: usize) -> Option<(usize, u64)> {
    match parts.machines.get(index) {
        Some(kept) => Some((kept.machine.number(), kept.machine.fuel())),
        None => None,
    }
}

/// The length of the first body and its first two bytes.
fn first_of(bodies: &[Vec<u8>]) -> (usize, [Option<u8>; 2]) {
    match bodies.first() {
        Some(bytes) => (bytes.len(), [bytes.get(0).copied(), bytes.get(1).copied()]),
        None => (0, [None; 2]),
    }
}

/// What these parts are.
fn left_of<F>(parts: &WorldParts<F>) -> Left {
    let (length, bytes) = first_of(parts.bodies.as_slice());
    Left {
        bodies: parts.bodies.len(),
        length,
        bytes,
        machines: parts.machines.len(),
        fuel: [fuel_at(parts, 0), fuel_at(parts, 1)],
    }
}

/// What a world leaves that is taken apart.
fn taken_apart<F: FarStore + Drop>(world: World<F>) -> Result<Left, PartsError> {
    let parts = world.into_parts()?;
    Ok(left_of(&parts))
}

const TWO_MACHINES: &[(Say, Told)] = &[
    (Say::Make(2), Told::Made(1)),
    (Say::Put(1, 0, &[7, 8]), Told::Done),
    (Say::Ship(10, [0; 5], &[EXIT]), Told::Shipped(1)),
    (Say::Ship(10, [0; 5], &[EXIT]), Told::Shipped(2)),
    (Say::One(2), Told::Stopped(2, Stop::Exit(0))),
];

#[test]
fn machines_and_bytes_stay(rt: HostRuntime) -> Result<(), Fail> {
    let mut world = new_world(rt.alloc())?;
    tells(&rt, rt.alloc(), &mut world, TWO_MACHINES)?;
    let left = Left {
        bodies: 1,
        length: 2,
        bytes: [Some(7), Some(8)],
        machines: 2,
        fuel: [Some((1, 10)), Some((2, 9))],
    };
    same!(rt; taken_apart(world), Ok(left));
    Ok(())
}

const LEAVING: &[(Say, Told)] = &[
    (Say::Make(2), Told::Made(1)),
    (Say::Move(1, Move::Leave), Told::Leaving(1)),
];

#[test]
fn an_object_that_leaves_is_told(rt: HostRuntime) -> Result<(), Fail> {
    let mut world = new_world(rt.alloc())?;
    tells(&rt, rt.alloc(), &mut world, LEAVING)?;
    same!(rt; taken_apart(world), Err(PartsError::NotHere(1)));
    Ok(())
}
