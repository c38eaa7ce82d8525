//! What is asked of one machine.

use crate::show::ShowCommand;

/// A command on a machine.
#[derive(Clone, Copy, Drop, Debug)]
pub enum MachineCommand {
    /// Makes one step.
    Step(Way),
    /// Shows something of it. Nothing changes.
    Show(ShowCommand),
    /// Changes where it pauses, or lets it go on.
    Debug(DebugCommand),
}

/// How a step treats pauses.
#[derive(Clone, Copy, Drop, Debug)]
pub enum Way {
    /// The machine may pause in place of the step, and is paused where it hits.
    Step,
    /// The step is made, paused or not, and the machine is paused after it.
    One,
}

/// A command of the debugger.
#[derive(Clone, Copy, Drop, Debug)]
pub enum DebugCommand {
    /// Sets a breakpoint at a slot of the machine's code.
    Break { slot: u32 },
    /// Clears the breakpoint at a slot.
    Unbreak { slot: u32 },
    /// Watches the machine's writes to so many bytes from an address on.
    Watch { address: u64, length: u32 },
    /// Watches a range no more. It has to have this address and this length.
    Unwatch { address: u64, length: u32 },
    /// Lets a paused machine go on. The breakpoint where it is, if any, is passed.
    Resume,
}
