//! Commands, whose replies are numbers.
ghost use Rattle.std.specs.Prelude.{◌≡◌};
ghost use Rattle.bpfagent_c.specs.Commanded.{Commanded, RepliesNumber};

use crate::codes::code_of;
use crate::handle::{Agent, give, take};
use std::alloc::Global;
use world::{DebugCommand, Event, MachineCommand, Move, ObjectCommand, Reply, ShowCommand};

/// Does one command, if there is an agent.
pub(crate) fn command(agent: &mut Agent, alloc: Global, event: Event) -> Option<Reply>
    ensures { Commanded agent.old event result agent.new }
{
    let mut world = take(agent, alloc)?;
    let reply = world.apply(event);
    give(agent, alloc, world);
    Some(reply)
}

/// Does one command, and gives the number of its reply.
fn tell(agent: &mut Agent, alloc: Global, event: Event) -> u32
    ensures { RepliesNumber agent.old event result agent.new }
{
    let given = command(agent, alloc, event);
    code_of(&given)
}

/// Does a command on an object.
pub(crate) fn tell_object(
    agent: &mut Agent,
    alloc: Global,
    object: u32,
    command: ObjectCommand,
) -> u32
    ensures { RepliesNumber agent.old (Event.Object object command) result agent.new }
{
    tell(agent, alloc, Event::Object { object, command })
}

/// Does a move of an object, or ends it.
pub(crate) fn tell_move(agent: &mut Agent, alloc: Global, object: u32, kind: Move) -> u32
    ensures { RepliesNumber agent.old (Event.Object object (ObjectCommand.Move kind)) result agent.new }
{
    tell_object(agent, alloc, object, ObjectCommand::Move(kind))
}

/// Does a command of the debugger.
pub(crate) fn tell_debug(
    agent: &mut Agent,
    alloc: Global,
    machine: usize,
    command: DebugCommand,
) -> u32
    ensures { RepliesNumber agent.old (Event.Machine machine (MachineCommand.Debug command)) result agent.new }
{
    let command = MachineCommand::Debug(command);
    tell(agent, alloc, Event::Machine { machine, command })
}

/// Shows something of a machine.
pub(crate) fn show(
    agent: &mut Agent,
    alloc: Global,
    machine: usize,
    shown: ShowCommand,
) -> Option<Reply>
    ensures { Commanded agent.old (Event.Machine machine (MachineCommand.Show shown)) result agent.new }
{
    let event = Event::Machine {
        machine,
        command: MachineCommand::Show(shown),
    };
    command(agent, alloc, event)
}
