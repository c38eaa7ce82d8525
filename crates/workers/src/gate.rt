//! Who is notified of each instruction that a worker does, and of each move.

use crate::job::Request;
use crate::upkeep::MoverEvent;
use placement::Moved;

/// Notified of each instruction, before and after it, while no cell's lock is held, unless it says that it isn't. It is notified of moves too,
/// and asked whether to go on.
pub trait Gate {
    /// Whether it is notified of instructions. One that isn't is only asked whether to go on, and a worker keeps a cell's lock in its
    /// turn.
    const IS_TOLD: bool = true;

    /// This worker comes to an instruction of the machine of this number.
    fn before(&self, worker: usize, machine: usize);

    /// The instruction was done, or the machine waited, paused or was stopped.
    fn after(&self, worker: usize, machine: usize);

    /// The mover served a request, with this outcome. It also tells of an object that it looked at of its own accord, where that left
    /// or the far store failed.
    fn moved(&self, _request: Request, _moved: Moved) {}

    /// The mover tells of its work.
    fn event(&self, _event: MoverEvent) {}

    /// Whether workers and mover go on. One that isn't notified of instructions may be asked while a cell's lock is held.
    fn go_on(&self) -> bool;
}
