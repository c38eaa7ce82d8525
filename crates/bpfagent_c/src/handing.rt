//! Objects whose bytes the caller keeps while they are away, and objects that are freed where they are far.
ghost use Rattle.std.specs.Prelude.{◌≡◌, ◌≢◌, ◌<◌, ◌≤◌, ◌⊎◌, true, false, length, Option, Some, IfSome, IfNone};
ghost use Rattle.library_store.specs.Parcels.{Alike};
ghost use Rattle.world.specs.Answers.{Answers};
ghost use Rattle.world.specs.WorldState.{state_of};
ghost use Rattle.memory.specs.Objects.{bytes_of};
ghost use Rattle.object_store.specs.Stores.{StandsAt};
ghost use Rattle.sha2.specs.Sha256.{sha256};
ghost use Rattle.far_store.specs.declared.fault.StoreFault.{StoreFault};
ghost use Rattle.far_store.specs.declared.fault.StoreFault.TheVariants.{Damaged};
ghost use Rattle.placement.specs.declared.places.Moved.TheVariants as moved;
ghost use Rattle.placement.specs.declared.places.Place.TheVariants as place;
ghost use Rattle.world.specs.declared.events.Event.{Event};
ghost use Rattle.world.specs.declared.events.ObjectCommand.{ObjectCommand};
ghost use Rattle.world.specs.declared.world.moving.Move.{Move};
ghost use Rattle.world.specs.declared.replies.Reply.{Reply};
ghost use Rattle.bpfagent_c.specs.Codes.{code_of, code_of_reply};
ghost use Rattle.bpfagent_c.specs.Commanded.{Commanded, HasNone};
ghost use Rattle.bpfagent_c.specs.Handing.{Forgets, IsCalm, bytes_at, left_count, left_digest, left_over};

use crate::codes::{code_of_back, code_of_moved};
use crate::handle::{Agent, give, take};
use crate::numbers::{DAMAGED, FAULT_FAR, FAULT_HERE, NOAGENT, OK, SHORT};
use crate::shown::Parcel;
use library_store::LibraryStore;
use object_store::{Moved, Place};
use std::alloc::Global;
use world::World;

/// Writes the SHA-256 of the bytes of an object that is far.
fn tell_parcel(world: &World<LibraryStore>, object: u32, parcel: &mut Parcel)
    requires far { StandsAt place.Far world.now.store.state object }
    ensures { parcel.new.digest ≡ sha256 (bytes_of world.now.store.state.objects object) }
{
    match world.parcel(object) {
        Some(kept) => parcel.digest = kept.digest(),
        None => unreachable!(),
    }
}

/// The command `left` of an object for which the buffer has room.
fn leave_into(
    world: &mut World<LibraryStore>,
    object: u32,
    buffer: &mut [u8],
    size: &mut usize,
    parcel: &mut Parcel,
) -> u32
    requires room { length (bytes_of world.old.store.state.objects object) ≤ length buffer.old }
    ensures replied { (replied : Reply) × Answers (state_of world.old) (Event.Object object (ObjectCommand.Move Move.Left)) replied (state_of world.new)
        × (result ≡ code_of_reply replied)
        × (buffer.new ≡ left_over replied (bytes_of world.old.store.state.objects object) buffer.old)
        × (size.new ≡ left_count replied (bytes_of world.old.store.state.objects object) size.old)
        × (parcel.new.digest ≡ left_digest replied (bytes_of world.old.store.state.objects object) parcel.old.digest) }
    ensures works { result ≢ FAULT_HERE }
{
    let count = world.length(object);
    let moved = world.left_into(object, &mut buffer[..count]);
    if moved == Moved::Done {
        *size = count;
        tell_parcel(world, object, parcel);
    }
    code_of_moved(moved, Place::Here)
}

/// The command `left`, where the caller keeps the bytes: they are written over the first ones of a buffer. Of an object that has
/// more than there is room for it only tells how many it has.
#[unsafe(no_mangle)]
pub extern "C" fn bpfagent_left_into(
    alloc: Global,
    agent: &mut Agent,
    object: u32,
    buffer: &mut [u8],
    size: &mut usize,
    parcel: &mut Parcel,
) -> u32
    ensures replied { agent.old.live ≡ true → length (bytes_at agent.old object) ≤ length buffer.old
        → (replied : Reply) × Commanded agent.old (Event.Object object (ObjectCommand.Move Move.Left)) (Some replied) agent.new × (result ≡ code_of_reply replied)
        × (buffer.new ≡ left_over replied (bytes_at agent.old object) buffer.old) × (size.new ≡ left_count replied (bytes_at agent.old object) size.old)
        × (parcel.new.digest ≡ left_digest replied (bytes_at agent.old object) parcel.old.digest) }
    ensures short { agent.old.live ≡ true → length buffer.old < length (bytes_at agent.old object)
        → (result ≡ SHORT) × IsCalm agent.old agent.new × (buffer.new ≡ buffer.old) × (size.new ≡ length (bytes_at agent.old object))
        × (parcel.new ≡ parcel.old) }
    ensures none { agent.old.live ≡ false → (result ≡ NOAGENT) × HasNone agent.old agent.new × (buffer.new ≡ buffer.old)
        × (size.new ≡ size.old) × (parcel.new ≡ parcel.old) }
    ensures works { result ≢ FAULT_HERE }
{
    let Some(mut world) = take(agent, alloc) else {
        return NOAGENT;
    };
    let count = world.length(object);
    if count > buffer.len() {
        give(agent, alloc, world);
        *size = count;
        return SHORT;
    }
    let number = leave_into(&mut world, object, buffer, size, parcel);
    give(agent, alloc, world);
    number
}

/// The command `returned`, with the bytes that the caller kept: what came of it, if there is an agent.
fn take_back(agent: &mut Agent, alloc: Global, object: u32, bytes: &[u8]) -> Option<Moved>
    requires premise { agent.old.live ≡ true → Alike (bytes_at agent.old object) bytes.now → bytes.now ≡ bytes_at agent.old object }
    ensures some { IfSome result (λ m. Commanded agent.old (Event.Object object (ObjectCommand.Move Move.Returned))
        (Some (Reply.Moved object Move.Returned m)) agent.new) }
    ensures none { IfNone result (HasNone agent.old agent.new) }
    ensures back { IfSome result (λ m. m ≡ moved.Done → bytes.now ≡ bytes_at agent.old object) }
    ensures damaged { IfSome result (λ m. m ≡ moved.Fault Damaged → bytes.now ≢ bytes_at agent.old object) }
    ensures others { IfSome result (λ m. (f : StoreFault) → m ≡ moved.Fault f → bytes.now ≢ bytes_at agent.old object → f ≡ Damaged) }
{
    let mut world = take(agent, alloc)?;
    let moved = world.returned_from(object, bytes);
    give(agent, alloc, world);
    Some(moved)
}

/// The command `returned`, with the bytes that the caller kept. Bytes of that length and that SHA-256 have to be those.
#[unsafe(no_mangle)]
pub extern "C" fn bpfagent_returned_from(
    alloc: Global,
    agent: &mut Agent,
    object: u32,
    bytes: &[u8],
) -> u32
    requires premise { agent.old.live ≡ true → Alike (bytes_at agent.old object) bytes.now → bytes.now ≡ bytes_at agent.old object }
    ensures replied { (given : Option Reply) × Commanded agent.old (Event.Object object (ObjectCommand.Move Move.Returned)) given agent.new
        × ((result ≡ code_of given) ⊎ ((result ≡ DAMAGED) × (code_of given ≡ FAULT_FAR))) }
    ensures back { result ≡ OK → bytes.now ≡ bytes_at agent.old object }
    ensures damaged { result ≡ DAMAGED → bytes.now ≢ bytes_at agent.old object }
    ensures others { result ≡ FAULT_FAR → bytes.now ≢ bytes_at agent.old object → ⊥ }
{
    match take_back(agent, alloc, object, bytes) {
        Some(moved) => code_of_back(moved),
        None => NOAGENT,
    }
}

/// Frees an object that is far.
#[unsafe(no_mangle)]
pub extern "C" fn bpfagent_forget(alloc: Global, agent: &mut Agent, object: u32) -> u32
    ensures replied { agent.old.live ≡ true → Forgets object agent.old result agent.new }
    ensures none { agent.old.live ≡ false → (result ≡ NOAGENT) × HasNone agent.old agent.new }
{
    let Some(mut world) = take(agent, alloc) else {
        return NOAGENT;
    };
    let moved = world.forget(object);
    give(agent, alloc, world);
    code_of_moved(moved, Place::Far)
}
