//! Machines are shown, paused and watched.
ghost use Rattle.std.specs.Prelude.{◌≡◌, ◌≢◌, length, Option};
ghost use Rattle.debugger.specs.declared.commands.DebugCommand.{DebugCommand};
ghost use Rattle.debugger.specs.declared.commands.MachineCommand.{MachineCommand};
ghost use Rattle.debugger.specs.declared.show.ShowCommand.{ShowCommand};
ghost use Rattle.world.specs.declared.events.Event.{Event};
ghost use Rattle.world.specs.declared.replies.Reply.{Reply};
ghost use Rattle.bpfagent_c.specs.Codes.{code_of};
ghost use Rattle.bpfagent_c.specs.Commanded.{Commanded, RepliesNumber};
ghost use Rattle.bpfagent_c.specs.Shown.{registers_of, values_of, value_count_of, bytes_of, text_of, text_count_of};

use crate::codes::{code_of, code_of_stack};
use crate::handle::{Agent, give, take};
use crate::numbers::{NOAGENT, NOMEM, OK};
use crate::shown::{Registers, write_bytes, write_values};
use crate::telling::{show, tell_debug};
use std::alloc::Global;
use world::{DebugCommand, Reply, ShowCommand, ShowReply};

/// Shows R0 to R10, slot, fuel and state of a machine.
#[unsafe(no_mangle)]
pub extern "C" fn bpfagent_regs(
    alloc: Global,
    agent: &mut Agent,
    machine: usize,
    registers: &mut Registers,
) -> u32
    ensures { (given : Option Reply) × Commanded agent.old (Event.Machine machine (MachineCommand.Show ShowCommand.Regs)) given agent.new
        × (result ≡ code_of given) × (registers.new ≡ registers_of given registers.old) }
{
    let given = show(agent, alloc, machine, ShowCommand::Regs);
    if let Some(
        Reply::Shown {
            reply: ShowReply::Registers(shown),
            ..
        },
    ) = &given
    {
        *registers = Registers::of(shown);
    }
    code_of(&given)
}

/// Shows what a machine has emitted, the oldest first: as many values as there is room for, and how many there are.
#[unsafe(no_mangle)]
pub extern "C" fn bpfagent_out(
    alloc: Global,
    agent: &mut Agent,
    machine: usize,
    values: &mut [u64],
    count: &mut usize,
) -> u32
    ensures { (given : Option Reply) × Commanded agent.old (Event.Machine machine (MachineCommand.Show ShowCommand.Out)) given agent.new
        × (result ≡ code_of given) × (values.new ≡ values_of given values.old) × (count.new ≡ value_count_of given count.old) }
{
    let given = show(agent, alloc, machine, ShowCommand::Out);
    if let Some(
        Reply::Shown {
            reply: ShowReply::Emitted(shown),
            ..
        },
    ) = &given
    {
        write_values(values, shown.as_slice());
        *count = shown.as_slice().len();
    }
    code_of(&given)
}

/// Copies bytes of a machine's stack over these, as many as they are.
#[unsafe(no_mangle)]
pub extern "C" fn bpfagent_stack(
    alloc: Global,
    agent: &mut Agent,
    machine: usize,
    offset: u32,
    bytes: &mut [u8],
) -> u32
    ensures replied { (given : Option Reply) × Commanded agent.old (Event.Machine machine (MachineCommand.Show (ShowCommand.Stack offset (length bytes.old))))
        given agent.new × (result ≡ code_of given) × (bytes.new ≡ bytes_of given bytes.old) }
    ensures memory { result ≢ NOMEM }
{
    let Some(world) = take(agent, alloc) else {
        return NOAGENT;
    };
    let number = match world.read_stack(machine, offset, bytes) {
        Ok(()) => OK,
        Err(error) => code_of_stack(error),
    };
    give(agent, alloc, world);
    number
}

/// The instruction at a slot, as assembly without a line end: as many bytes of it as there is room for, and how many it has.
#[unsafe(no_mangle)]
pub extern "C" fn bpfagent_line(
    alloc: Global,
    agent: &mut Agent,
    machine: usize,
    slot: u32,
    text: &mut [u8],
    count: &mut usize,
) -> u32
    ensures { (given : Option Reply) × Commanded agent.old (Event.Machine machine (MachineCommand.Show (ShowCommand.Line slot))) given agent.new
        × (result ≡ code_of given) × (text.new ≡ text_of given text.old) × (count.new ≡ text_count_of given count.old) }
{
    let given = show(agent, alloc, machine, ShowCommand::Line { slot });
    if let Some(
        Reply::Shown {
            reply: ShowReply::Disassembled { text: shown, .. },
            ..
        },
    ) = &given
    {
        write_bytes(text, shown.as_slice());
        *count = shown.as_slice().len();
    }
    code_of(&given)
}

/// Sets a breakpoint at a slot.
#[unsafe(no_mangle)]
pub extern "C" fn bpfagent_break(alloc: Global, agent: &mut Agent, machine: usize, slot: u32) -> u32
    ensures { RepliesNumber agent.old (Event.Machine machine (MachineCommand.Debug (DebugCommand.Break slot))) result agent.new }
{
    tell_debug(agent, alloc, machine, DebugCommand::Break { slot })
}

/// Clears the breakpoint at a slot.
#[unsafe(no_mangle)]
pub extern "C" fn bpfagent_unbreak(
    alloc: Global,
    agent: &mut Agent,
    machine: usize,
    slot: u32,
) -> u32
    ensures { RepliesNumber agent.old (Event.Machine machine (MachineCommand.Debug (DebugCommand.Unbreak slot))) result agent.new }
{
    tell_debug(agent, alloc, machine, DebugCommand::Unbreak { slot })
}

/// Watches a machine's writes to so many bytes from an address on.
#[unsafe(no_mangle)]
pub extern "C" fn bpfagent_watch(
    alloc: Global,
    agent: &mut Agent,
    machine: usize,
    address: u64,
    length: u32,
) -> u32
    ensures { RepliesNumber agent.old (Event.Machine machine (MachineCommand.Debug (DebugCommand.Watch address length))) result agent.new }
{
    tell_debug(
        agent,
        alloc,
        machine,
        DebugCommand::Watch { address, length },
    )
}

/// Watches a range no more.
#[unsafe(no_mangle)]
pub extern "C" fn bpfagent_unwatch(
    alloc: Global,
    agent: &mut Agent,
    machine: usize,
    address: u64,
    length: u32,
) -> u32
    ensures { RepliesNumber agent.old (Event.Machine machine (MachineCommand.Debug (DebugCommand.Unwatch address length))) result agent.new }
{
    tell_debug(
        agent,
        alloc,
        machine,
        DebugCommand::Unwatch { address, length },
    )
}

/// Lets a paused machine go on.
#[unsafe(no_mangle)]
pub extern "C" fn bpfagent_resume(alloc: Global, agent: &mut Agent, machine: usize) -> u32
    ensures { RepliesNumber agent.old (Event.Machine machine (MachineCommand.Debug DebugCommand.Resume)) result agent.new }
{
    tell_debug(agent, alloc, machine, DebugCommand::Resume)
}
