//! The agent for programs in C, over `world`. Each export states again what the command's relation says; `include/bpfagent.h`
//! declares them.
#![tactic(auto)]

mod codes;
mod debugging;
mod handing;
mod handle;
mod life;
mod loose;
mod machines;
mod names;
mod numbers;
mod objects;
mod places;
mod shown;
mod telling;
mod texts;

pub use handle::Agent;
pub use shown::{End, Granted, Parcel, Refusal, Registers};
pub use texts::WrongLine;
