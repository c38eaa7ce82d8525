//! A world to begin with: an object of eight bytes, and one machine.

use far_store::OwnStore;
use std::alloc::{AllocError, Global};
use world::{Bytes, Event, ObjectLength, Reply, Start, World};

/// R0 = 7, then EXIT.
const SEVEN: [u8; 16] = [0xb7, 0, 0, 0, 7, 0, 0, 0, 0x95, 0, 0, 0, 0, 0, 0, 0];

/// How many bytes the objects that aren't far may have.
const BUDGET: u32 = 65_536;

/// Makes an object of eight bytes.
pub fn make() -> Result<Event, AllocError> {
    let length = ObjectLength::new(8).ok_or(AllocError)?;
    Ok(Event::Make { length })
}

/// A world with one such object and one machine. The machine may do ten instructions.
pub fn with_machine(alloc: Global) -> Result<World<OwnStore>, AllocError> {
    let mut world = World::new(alloc, BUDGET, OwnStore::new(alloc))?;
    let Reply::Made { .. } = world.apply(make()?) else {
        return Err(AllocError);
    };
    let start = Start::new(10, [0; 5]);
    let code = Bytes::new(SEVEN.to_vec(alloc)?);
    match world.apply(Event::Ship { start, code }) {
        Reply::Shipped { .. } => Ok(world),
        _ => Err(AllocError),
    }
}
