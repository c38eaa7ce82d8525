//! `run`: commands in, replies out.
ghost use Rattle.std.specs.Prelude.{◌≡◌, IfOk, IfSome};
ghost use Rattle.world.specs.WorldState.{state_of, world_start};
ghost use Rattle.agent.specs.RunLeaves.{CommandsLeave, RunLeaves};

use crate::failure::Failure;
use console::{Console, drive};
use far_store::OwnStore;
use std::alloc::{AllocError, Global};
use std::io::{Read, Write};
use world::World;

/// A world with no machine and no object, which keeps what leaves by itself.
fn make_world(alloc: Global, budget: u32) -> Result<World<OwnStore>, AllocError>
    ensures { IfOk result (λ w. state_of w ≡ world_start budget 0) }
{
    World::new(alloc, budget, OwnStore::new(alloc))
}

/// Does the commands that the reader has, from a world with no machine and no object, writes their replies, and gives the
/// world that they leave. Out of memory before the first line reads no input.
pub(crate) fn do_commands<R: Read, W: Write>(
    alloc: Global,
    budget: u32,
    reader: &mut R,
    writer: &mut W,
) -> Result<World<OwnStore>, Failure>
    ensures { IfSome (R.remaining reader.old)
        (λ input. CommandsLeave budget input (W.contents writer.old) (W.contents writer.new) (R.remaining reader.new) result) }
{
    let mut world = make_world(alloc, budget)?;
    let mut console = Console::new(alloc)?;
    drive(reader, writer, &mut console, &mut world)?;
    Ok(world)
}

/// Does the commands that the reader has, from a world with no machine and no object, and writes
/// their replies. The objects that aren't far have at most `budget` bytes. Out of memory before the
/// first line reads no input.
pub fn run<R: Read, W: Write>(
    alloc: Global,
    budget: u32,
    reader: &mut R,
    writer: &mut W,
) -> Result<(), Failure>
    ensures { IfSome (R.remaining reader.old)
        (λ input. RunLeaves budget input (W.contents writer.old) (W.contents writer.new) (R.remaining reader.new) result) }
{
    let _world = do_commands(alloc, budget, reader, writer)?;
    Ok(())
}
