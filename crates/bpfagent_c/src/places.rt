//! Where objects are.
ghost use Rattle.std.specs.Prelude.{◌≡◌, ◌⊎◌, true, false, length, None, Some};
ghost use Rattle.memory.specs.Objects.{object_limit};
ghost use Rattle.placement.specs.declared.places.Place.{Place};
ghost use Rattle.bpfagent_c.specs.Codes.{number_of_place, place_numbered};
ghost use Rattle.bpfagent_c.specs.Commanded.{HasNone};
ghost use Rattle.bpfagent_c.specs.Shown.{over};
ghost use Rattle.bpfagent_c.specs.Handing.{IsCalm, IsIn, bytes_at, is_at, standing};

use crate::codes::{number_of_place, place_numbered};
use crate::handle::{Agent, give, take};
use crate::numbers::{BAD, NOAGENT, NONE, OK};
use crate::shown::write_numbers;
use arrayvec::ArrayVec;
use library_store::LibraryStore;
use memory::OBJECT_LIMIT;
use object_store::Place;
use std::alloc::Global;
use world::World;

/// Where an object is, and how many bytes it has.
#[unsafe(no_mangle)]
pub extern "C" fn bpfagent_place_of(
    alloc: Global,
    agent: &mut Agent,
    object: u32,
    place: &mut u32,
    size: &mut usize,
) -> u32
    ensures found { result ≡ OK → (found : Place) × IsIn agent.old object (Some found) × IsCalm agent.old agent.new × (place.new ≡ number_of_place found)
        × (size.new ≡ length (bytes_at agent.old object)) }
    ensures missing { result ≡ NONE → IsIn agent.old object None × IsCalm agent.old agent.new × (place.new ≡ place.old) × (size.new ≡ size.old) }
    ensures none { result ≡ NOAGENT → HasNone agent.old agent.new × (place.new ≡ place.old) × (size.new ≡ size.old) }
    ensures each { (result ≡ OK) ⊎ ((result ≡ NONE) ⊎ (result ≡ NOAGENT)) }
{
    let Some(world) = take(agent, alloc) else {
        return NOAGENT;
    };
    let found = world.place(object);
    let count = world.length(object);
    give(agent, alloc, world);
    let Some(found) = found else {
        return NONE;
    };
    *place = number_of_place(found);
    *size = count;
    OK
}

/// Whether there is an object of this number in a place.
fn is_at(world: &World<LibraryStore>, place: Place, object: u32) -> bool
    ensures { result ≡ is_at place world.now.store.state object }
{
    match world.place(object) {
        Some(found) => found == place,
        None => false,
    }
}

/// The objects in a place, by rising numbers.
#[tactic(auto, using(crate::proofs::Standing::standing_steps))]
fn objects_in(world: &World<LibraryStore>, place: Place) -> ArrayVec<u32, OBJECT_LIMIT>
    ensures { result.items ≡ standing place world.now.store.state object_limit }
{
    let mut found = ArrayVec::new();
    for index in 0..OBJECT_LIMIT {
        let object = index as u32 + 1;
        if is_at(world, place, object) {
            found.push(object);
        }
    }
    found
}

/// The objects in a place, by rising numbers: as many as there is room for, and how many there are.
#[unsafe(no_mangle)]
pub extern "C" fn bpfagent_objects(
    alloc: Global,
    agent: &mut Agent,
    place: u32,
    objects: &mut [u32],
    count: &mut usize,
) -> u32
    ensures replied { (p : Place) → place_numbered place ≡ Some p → agent.old.live ≡ true
        → (result ≡ OK) × IsCalm agent.old agent.new × (objects.new ≡ over (standing p agent.old.held.state.store.state object_limit) objects.old)
        × (count.new ≡ length (standing p agent.old.held.state.store.state object_limit)) }
    ensures bad { place_numbered place ≡ None → (result ≡ BAD) × (agent.new ≡ agent.old) × (objects.new ≡ objects.old) × (count.new ≡ count.old) }
    ensures none { (p : Place) → place_numbered place ≡ Some p → agent.old.live ≡ false
        → (result ≡ NOAGENT) × HasNone agent.old agent.new × (objects.new ≡ objects.old) × (count.new ≡ count.old) }
{
    let Some(place) = place_numbered(place) else {
        return BAD;
    };
    let Some(world) = take(agent, alloc) else {
        return NOAGENT;
    };
    let found = objects_in(&world, place);
    give(agent, alloc, world);
    write_numbers(objects, found.as_slice());
    *count = found.len();
    OK
}
