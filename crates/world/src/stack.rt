//! Bytes of a machine's stack, copied without taking memory.
ghost use Rattle.std.specs.Prelude.{◌≡◌, length, OnOk, OnErr, IfErr};
ghost use Rattle.object_store.specs.Stores.{StoreState, store_memory};
ghost use Rattle.debugger.specs.Showing.{ShowsBytes};
ghost use Rattle.debugger.specs.declared.commands.MachineCommand.{MachineCommand};
ghost use Rattle.debugger.specs.declared.show.ShowCommand.{ShowCommand};
ghost use Rattle.debugger.specs.declared.show.ShowReply.{ShowReply};
ghost use Rattle.world.specs.declared.replies.Reply.{Reply};
ghost use Rattle.world.specs.Machines.{AnswersMachine, refused_stack};

use crate::machines::index_of;
use debugger::Debuggee;
use thiserror::Error;

/// Why bytes of a stack aren't read. A refusal changes nothing.
#[derive(Clone, Copy, Drop, Debug, PartialEq, Eq, Error)]
pub enum StackError {
    /// There is no such machine.
    #[error("there is no such machine")]
    Missing,
    /// The bytes are not all within the stack.
    #[error("outside the stack")]
    Outside,
}

/// Copies a range over these bytes, as many as they are. Where it doesn't end within the others, they stay.
fn read_range(bytes: &[u8], offset: usize, into: &mut [u8]) -> Result<(), StackError>
    ensures shown { OnOk result (ShowsBytes bytes.now offset (length into.old) (ShowReply.Bytes into.new)) }
    ensures refused { IfErr result (λ error. (error ≡ StackError.Outside) × ShowsBytes bytes.now offset (length into.old) ShowReply.Outside) }
    ensures kept { OnErr result (into.new ≡ into.old) }
{
    let count = into.len();
    if offset > bytes.len() || count > bytes.len() - offset {
        return Err(StackError::Outside);
    }
    into.copy_from_slice(&bytes[offset..offset + count]);
    Ok(())
}

/// Copies bytes of the stack of the machine of a number over these, as many as they are. On a refusal they stay.
pub(crate) fn read_stack(
    machines: &[Debuggee],
    machine: usize,
    offset: u32,
    into: &mut [u8],
) -> Result<(), StackError>
    ensures shown { OnOk result ((store : StoreState)
        → AnswersMachine (store_memory machine) machines.now store machine (MachineCommand.Show (ShowCommand.Stack offset (length into.old)))
        (Reply.Shown machine (ShowReply.Bytes into.new)) machines.now store) }
    ensures refused { IfErr result (λ error. (store : StoreState)
        → AnswersMachine (store_memory machine) machines.now store machine (MachineCommand.Show (ShowCommand.Stack offset (length into.old)))
        (refused_stack machine error) machines.now store) }
    ensures kept { OnErr result (into.new ≡ into.old) }
{
    let Some(index) = index_of(machines, machine) else {
        return Err(StackError::Missing);
    };
    read_range(machines[index].machine.stack(), offset as usize, into)
}
