//! Agents are made and freed.
ghost use Rattle.std.specs.Prelude.{◌≡◌, ◌≢◌, true, false, IfSome};
ghost use Rattle.world.specs.WorldState.{opened_world};

use crate::handle::{Agent, give, take};
use crate::numbers::{NOMEM, OK};
use library_store::LibraryStore;
use std::alloc::Global;
use world::World;

/// The number of this version: 10,000 times the first part, 100 times the second, and the third.
const VERSION: u32 = 900;

/// A world on the heap, over this store.
fn world_of(alloc: Global, budget: u32, store: LibraryStore) -> Option<Box<World<LibraryStore>>>
    ensures { IfSome result (λ world. world.value ≡ opened_world budget store.faults store) }
{
    match World::new(alloc, budget, store) {
        Ok(world) => Box::new(alloc, world).ok(),
        Err(_) => None,
    }
}

/// Makes an agent over this store in a handle.
fn open(agent: &mut Agent, alloc: Global, budget: u32, store: LibraryStore) -> u32
    ensures ok { result ≡ OK → (agent.new.live ≡ true) × (agent.new.held.state ≡ opened_world budget store.faults store) }
    ensures refused { result ≢ OK → (result ≡ NOMEM) × (agent.new ≡ agent.old) }
{
    match world_of(alloc, budget, store) {
        Some(world) => {
            give(agent, alloc, world);
            OK
        }
        None => NOMEM,
    }
}

/// Makes an agent without machines and objects in a handle; the library keeps the bytes of its far objects. One that the handle
/// had is freed; out of memory it stays.
#[unsafe(no_mangle)]
pub extern "C" fn bpfagent_new(alloc: Global, agent: &mut Agent, budget: u32) -> u32
    ensures ok { result ≡ OK → (agent.new.live ≡ true) × (agent.new.held.state ≡ opened_world budget 0 (record { keeps = true; faults = 0 })) }
    ensures refused { result ≢ OK → (result ≡ NOMEM) × (agent.new ≡ agent.old) }
{
    open(agent, alloc, budget, LibraryStore::keeping(alloc))
}

/// The same, of an agent whose caller keeps the bytes of its far objects.
#[unsafe(no_mangle)]
pub extern "C" fn bpfagent_new_handing(alloc: Global, agent: &mut Agent, budget: u32) -> u32
    ensures ok { result ≡ OK → (agent.new.live ≡ true) × (agent.new.held.state ≡ opened_world budget 0 (record { keeps = false; faults = 0 })) }
    ensures refused { result ≢ OK → (result ≡ NOMEM) × (agent.new ≡ agent.old) }
{
    open(agent, alloc, budget, LibraryStore::handing(alloc))
}

/// Frees an agent, and leaves none in the handle.
#[unsafe(no_mangle)]
pub extern "C" fn bpfagent_delete(alloc: Global, agent: &mut Agent)
    ensures { agent.new.live ≡ false }
{
    drop(take(agent, alloc));
}

/// The version of the library.
#[unsafe(no_mangle)]
pub extern "C" fn bpfagent_version() -> u32
    ensures { result ≡ VERSION }
{
    VERSION
}
