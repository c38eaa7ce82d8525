//! What a machine answers to its commands.

use machine::Stop;

/// What a step was answered. It is much smaller than what may be shown, and is moved faster.
#[derive(Clone, Copy, Drop, Debug, PartialEq, Eq)]
pub enum StepReply {
    /// An instruction was done, and the machine goes on at the slot.
    Ran(usize),
    /// An instruction was done that wrote a byte of a watched range, and the machine is at the slot, paused.
    Hit(usize),
    /// The next instruction waits for the object of this number, and nothing was done.
    Waiting(u32),
    /// The machine is paused at the slot, and nothing was done.
    Paused(usize),
    /// The machine is stopped.
    Stopped(Stop),
}

/// What a command of the debugger did. All but `Done` change nothing.
#[derive(Clone, Copy, Drop, Debug, PartialEq, Eq)]
pub enum Debugged {
    /// It was done.
    Done,
    /// No instruction begins at the slot, or it has no breakpoint.
    NoSlot,
    /// The range ends past the last offset of 32 bits.
    Outside,
    /// As many others are set as there may be ([`BREAK_LIMIT`](crate::BREAK_LIMIT), [`WATCH_LIMIT`](crate::WATCH_LIMIT)).
    Full,
    /// The range is not watched.
    NoWatch,
    /// The machine is not paused.
    NotPaused,
}
