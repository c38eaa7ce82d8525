//! Who answers the commands of a conversation.
ghost use Rattle.std.specs.Prelude.{◌≡◌, ◌≤◌, ℕ, List};
ghost use Rattle.world.specs.Answers.{AnswersGet};
ghost use Rattle.world.specs.declared.replies.Reply.{Reply};
ghost use Rattle.console.specs.Lines.{ended};
ghost use Rattle.console.specs.Commands.{SpellsCommand};
ghost use Rattle.console.specs.Conversations.{Protocol};
ghost use Rattle.console.specs.Agent.{agent};
ghost use Rattle.console.specs.Replies.{reply_text};

use crate::kind::RANGE_LIMIT;
use crate::replies::{ReplyLine, print_bytes, print_reply, print_step};
use far_store::FarStore;
use world::{Event, MachineCommand, ObjectCommand, Reply, World};

/// Who answers the commands of a conversation, by means of something that it may share with others.
pub trait Answerer<C> {
    /// Its states, what it answers, and the texts of the replies.
    ghost protocol: { Protocol };

    /// The state that it is in.
    ghost state: { Self → protocol.State };

    /// Does a command that a line spells, and makes the line of the reply.
    fn perform(&mut self, shared: &C, event: Event, reply: &mut ReplyLine)
        requires { (line : List ℕ) × SpellsCommand line event }
        ensures { (replied : protocol.Reply) × protocol.step (state self.old) event replied (state self.new)
            × (reply.new.items ≡ ended (protocol.text replied)) };
}

/// The longest range that is read through a small room.
const SMALL_RANGE: u32 = 64;

/// Makes this the line of the reply to `get`, read through a room of so many bytes. Not inlined, so that the frame of a step has no
/// room for bytes.
#[inline(never)]
fn print_get_through<F: FarStore, const ROOM: usize>(
    world: &World<F>,
    object: u32,
    offset: u32,
    length: u32,
    reply: &mut ReplyLine,
)
    requires range { length ≤ ROOM }
    requires room { ROOM ≤ RANGE_LIMIT }
    ensures { (replied : Reply) × AnswersGet world.now.store.state object offset length replied × (reply.new.items ≡ ended (reply_text replied)) }
{
    let mut room = [0u8; ROOM];
    let bytes = &mut room[..length as usize];
    match world.read(object, offset, bytes) {
        Ok(()) => print_bytes(bytes, reply),
        Err(why) => print_reply(&Reply::denied(object, why), reply),
    }
}

/// Makes this the line of the reply to `get`. A short range doesn't pay for the zeros of a long one.
fn print_get<F: FarStore>(
    world: &World<F>,
    object: u32,
    offset: u32,
    length: u32,
    reply: &mut ReplyLine,
)
    requires { length ≤ RANGE_LIMIT }
    ensures { (replied : Reply) × AnswersGet world.now.store.state object offset length replied × (reply.new.items ≡ ended (reply_text replied)) }
{
    if length <= SMALL_RANGE {
        print_get_through::<F, 64>(world, object, offset, length, reply);
    } else {
        print_get_through::<F, RANGE_LIMIT>(world, object, offset, length, reply);
    }
}

impl<F: FarStore> Answerer<()> for World<F> {
    ghost use Rattle.world.specs.WorldState.{state_of};

    ghost protocol = { agent };

    ghost state = { λ world. state_of world };

    fn perform(&mut self, _shared: &(), event: Event, reply: &mut ReplyLine) {
        match event {
            // a step's reply is small, and isn't moved as one that may be large
            Event::Machine {
                machine,
                command: MachineCommand::Step(way),
            } => print_step(machine, self.step(machine, way), reply),
            // the bytes go from the object to the line, without memory for them
            Event::Object {
                object,
                command: ObjectCommand::Get { offset, length },
            } => print_get(self, object, offset, length, reply),
            event => print_reply(&self.apply(event), reply),
        }
    }
}
