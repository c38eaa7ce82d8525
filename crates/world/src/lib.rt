//! The machines and objects of one agent, and the commands on them.
#![tactic(auto)]

mod events;
mod laws;
mod machines;
mod replies;
mod running;
mod stack;
mod world;

pub use debugger::{
    DebugCommand, Debugged, Debuggee, LineText, MachineCommand, MachineRun, ShowCommand, ShowReply,
    Shown, Start, State, StepReply, Values, Way,
};
pub use events::{Event, ObjectCommand, ObjectLength};
pub use laws::{debugging_changes_nothing, moving_changes_nothing, neither_changes_anything};
pub use memory::Bytes;
pub use object_store::{Moved, PartsError, Place};
pub use replies::Reply;
pub use scopes::MACHINE_LIMIT;
pub use stack::StackError;
pub use world::{Move, World, WorldParts};
