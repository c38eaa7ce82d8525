//! Commands on machines, by their numbers.
ghost use Rattle.std.specs.Prelude.{◌≡◌, ◌≤◌, ◌<◌, suc, None, length, IfSome, IfNone};
ghost use Rattle.object_store.specs.Lending.{HasWindow, within_memory, store_memory};
ghost use Rattle.scopes.specs.Windows.{machine_limit};
ghost use Rattle.debugger.specs.declared.commands.MachineCommand.{MachineCommand};
ghost use Rattle.debugger.specs.Debuggees.{AnswersStep};
ghost use Rattle.world.specs.WorldState.{machine_at};
ghost use Rattle.world.specs.Machines.{AnswersMachine, AnswersCommand, reply_of};
ghost use Rattle.world.specs.Running.{RunsMachine, RunAsks};

use crate::replies::Reply;
use crate::running::run_over;
use debugger::{Debuggee, MachineCommand, MachineRun, StepReply, Way};
use far_store::FarStore;
use object_store::{ObjectStore, StoreMemory};
use std::alloc::Global;

/// The index of the machine of a number.
#[inline]
pub(crate) fn index_of(machines: &[Debuggee], machine: usize) -> Option<usize>
    ensures some { IfSome result (λ index. (machine ≡ suc index) × (index < length machines.now)) }
    ensures none { IfNone result (machine_at machines.now machine ≡ None) }
{
    if machine == 0 || machine > machines.len() {
        return None;
    }
    Some(machine - 1)
}

/// One step of a machine over the objects.
#[inline]
pub(crate) fn step_over<F: FarStore>(
    debuggee: &mut Debuggee,
    store: &mut ObjectStore<F>,
    who: usize,
    way: Way,
) -> StepReply
    requires { HasWindow who }
    ensures steps { AnswersStep (store_memory who) way debuggee.old store.old.state result debuggee.new store.new.state }
    ensures asks { AnswersStep (within_memory who) way debuggee.old store.old result debuggee.new store.new }
{
    let mut memory = StoreMemory { store, who };
    debuggee.step(way, &mut memory)
}

/// One step of the machine of a number, if there is one.
#[inline]
pub(crate) fn step_machine<F: FarStore>(
    machines: &mut [Debuggee],
    store: &mut ObjectStore<F>,
    machine: usize,
    way: Way,
) -> Option<StepReply>
    requires { length machines.old ≤ machine_limit }
    ensures answers { AnswersMachine (store_memory machine) machines.old store.old.state machine (MachineCommand.Step way)
        (reply_of machine result) machines.new store.new.state }
    ensures asks { AnswersMachine (within_memory machine) machines.old store.old machine (MachineCommand.Step way)
        (reply_of machine result) machines.new store.new }
{
    let index = index_of(machines, machine)?;
    Some(step_over(&mut machines[index], store, machine, way))
}

/// At most so many steps of the machine of a number, if there is one.
pub(crate) fn run_machine<F: FarStore>(
    machines: &mut [Debuggee],
    store: &mut ObjectStore<F>,
    machine: usize,
    most: u64,
) -> Option<MachineRun>
    requires { length machines.old ≤ machine_limit }
    ensures runs { RunsMachine machine most (record { machines = machines.old; store = store.old.state }) result
        (record { machines = machines.new; store = store.new.state }) }
    ensures asks { RunAsks machine most (record { machines = machines.old; store = store.old }) result (record { machines = machines.new; store = store.new }) }
{
    let index = index_of(machines, machine)?;
    Some(run_over(&mut machines[index], store, machine, most))
}

/// Does a command on one machine.
fn answer_debuggee<F: FarStore>(
    alloc: Global,
    debuggee: &mut Debuggee,
    store: &mut ObjectStore<F>,
    machine: usize,
    command: MachineCommand,
) -> Reply
    requires { HasWindow machine }
    ensures answers { AnswersCommand (store_memory machine) debuggee.old store.old.state machine command result debuggee.new store.new.state }
    ensures asks { AnswersCommand (within_memory machine) debuggee.old store.old machine command result debuggee.new store.new }
{
    match command {
        MachineCommand::Step(way) => Reply::Stepped {
            machine,
            reply: step_over(debuggee, store, machine, way),
        },
        MachineCommand::Show(command) => Reply::Shown {
            machine,
            reply: debuggee.show(alloc, command),
        },
        MachineCommand::Debug(command) => Reply::Debugged(debuggee.debug(command)),
    }
}

/// Does a command on the machine of a number, if there is one.
pub(crate) fn answer_machine<F: FarStore>(
    alloc: Global,
    machines: &mut [Debuggee],
    store: &mut ObjectStore<F>,
    machine: usize,
    command: MachineCommand,
) -> Reply
    requires { length machines.old ≤ machine_limit }
    ensures answers { AnswersMachine (store_memory machine) machines.old store.old.state machine command result machines.new store.new.state }
    ensures asks { AnswersMachine (within_memory machine) machines.old store.old machine command result machines.new store.new }
{
    let Some(index) = index_of(machines, machine) else {
        return Reply::Missing;
    };
    answer_debuggee(alloc, &mut machines[index], store, machine, command)
}
