//! The commands on objects.
ghost use Rattle.std.specs.Prelude.{◌≡◌, ◌≢◌, ◌≤◌, ◌+◌, min, length, Option};
ghost use Rattle.memory.specs.Objects.{object_bytes};
ghost use Rattle.world.specs.declared.events.Event.{Event};
ghost use Rattle.world.specs.declared.events.ObjectCommand.{ObjectCommand};
ghost use Rattle.world.specs.declared.world.moving.Move.{Move};
ghost use Rattle.world.specs.declared.replies.Reply.{Reply};
ghost use Rattle.bpfagent_c.specs.Codes.{code_of};
ghost use Rattle.bpfagent_c.specs.Commanded.{Commanded, RepliesNumber};
ghost use Rattle.bpfagent_c.specs.Shown.{made_of, bytes_of};

use crate::codes::{code_of, code_of_denied};
use crate::handle::{Agent, give, take};
use crate::numbers::{BAD, NOAGENT, NOMEM, OK};
use crate::telling::{command, tell_move, tell_object};
use memory::OBJECT_BYTES;
use std::alloc::Global;
use world::{Event, Move, ObjectCommand, ObjectLength, Reply};

/// One byte more than any object has: for more a command asks for so many.
const TOO_MANY: usize = OBJECT_BYTES + 1;

/// Makes an object.
#[unsafe(no_mangle)]
pub extern "C" fn bpfagent_make(
    alloc: Global,
    agent: &mut Agent,
    length: u64,
    object: &mut u32,
) -> u32
    ensures replied { (1 ≤ length) × (length ≤ object_bytes)
        → (given : Option Reply) × Commanded agent.old (Event.Make length) given agent.new × (result ≡ code_of given)
        × (object.new ≡ made_of given object.old) }
    ensures bad { ((1 ≤ length) × (length ≤ object_bytes) → ⊥) → (result ≡ BAD) × (agent.new ≡ agent.old) × (object.new ≡ object.old) }
{
    let Some(length) = ObjectLength::new(length) else {
        return BAD;
    };
    let given = command(agent, alloc, Event::Make { length });
    if let Some(Reply::Made { object: number }) = &given {
        *object = *number;
    }
    code_of(&given)
}

/// Frees an object.
#[unsafe(no_mangle)]
pub extern "C" fn bpfagent_free(alloc: Global, agent: &mut Agent, object: u32) -> u32
    ensures { RepliesNumber agent.old (Event.Object object ObjectCommand.Free) result agent.new }
{
    tell_object(agent, alloc, object, ObjectCommand::Free)
}

/// An object begins to leave.
#[unsafe(no_mangle)]
pub extern "C" fn bpfagent_leave(alloc: Global, agent: &mut Agent, object: u32) -> u32
    ensures { RepliesNumber agent.old (Event.Object object (ObjectCommand.Move Move.Leave)) result agent.new }
{
    tell_move(agent, alloc, object, Move::Leave)
}

/// An object that is leaving is put in the far store.
#[unsafe(no_mangle)]
pub extern "C" fn bpfagent_left(alloc: Global, agent: &mut Agent, object: u32) -> u32
    ensures { RepliesNumber agent.old (Event.Object object (ObjectCommand.Move Move.Left)) result agent.new }
{
    tell_move(agent, alloc, object, Move::Left)
}

/// An object that is far begins to return.
#[unsafe(no_mangle)]
pub extern "C" fn bpfagent_return(alloc: Global, agent: &mut Agent, object: u32) -> u32
    ensures { RepliesNumber agent.old (Event.Object object (ObjectCommand.Move Move.Return)) result agent.new }
{
    tell_move(agent, alloc, object, Move::Return)
}

/// An object that is returning is got from the far store.
#[unsafe(no_mangle)]
pub extern "C" fn bpfagent_returned(alloc: Global, agent: &mut Agent, object: u32) -> u32
    ensures { RepliesNumber agent.old (Event.Object object (ObjectCommand.Move Move.Returned)) result agent.new }
{
    tell_move(agent, alloc, object, Move::Returned)
}

/// Writes bytes into an object.
fn put(agent: &mut Agent, alloc: Global, object: u32, offset: u32, bytes: &[u8]) -> Option<Reply>
    ensures { Commanded agent.old (Event.Object object (ObjectCommand.Put offset bytes.now)) result agent.new }
{
    let mut world = take(agent, alloc)?;
    let reply = world.put(object, offset, bytes);
    give(agent, alloc, world);
    Some(reply)
}

/// Writes bytes into an object.
#[unsafe(no_mangle)]
pub extern "C" fn bpfagent_put(
    alloc: Global,
    agent: &mut Agent,
    object: u32,
    offset: u32,
    bytes: &[u8],
) -> u32
    ensures { RepliesNumber agent.old (Event.Object object (ObjectCommand.Put offset bytes.now)) result agent.new }
{
    let given = put(agent, alloc, object, offset, bytes);
    code_of(&given)
}

/// Copies bytes of an object over these, as many as they are, and tells the number of the reply.
fn get(agent: &mut Agent, alloc: Global, object: u32, offset: u32, bytes: &mut [u8]) -> u32
    ensures replied { (given : Option Reply) × Commanded agent.old (Event.Object object (ObjectCommand.Get offset (length bytes.old))) given agent.new
        × (result ≡ code_of given) × (bytes.new ≡ bytes_of given bytes.old) }
    ensures memory { result ≢ NOMEM }
{
    let Some(world) = take(agent, alloc) else {
        return NOAGENT;
    };
    let number = match world.read(object, offset, bytes) {
        Ok(()) => OK,
        Err(why) => code_of_denied(why),
    };
    give(agent, alloc, world);
    number
}

/// Reads bytes of an object: as many as there is room for.
#[unsafe(no_mangle)]
pub extern "C" fn bpfagent_get(
    alloc: Global,
    agent: &mut Agent,
    object: u32,
    offset: u32,
    bytes: &mut [u8],
) -> u32
    ensures replied { (given : Option Reply) × Commanded agent.old
        (Event.Object object (ObjectCommand.Get offset (min (length bytes.old) (object_bytes + 1)))) given agent.new
        × (result ≡ code_of given) × (bytes.new ≡ bytes_of given bytes.old) }
    ensures memory { result ≢ NOMEM }
{
    let count = bytes.len().min(TOO_MANY);
    get(agent, alloc, object, offset, &mut bytes[..count])
}
