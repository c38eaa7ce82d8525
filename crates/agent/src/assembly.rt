//! The tools for code: `asm`, `check` and `dis`.

mod assembling;
mod checking;
mod disassembling;
mod explained;
mod explaining;
mod faults;
mod refusals;

pub(crate) use assembling::asm;
pub(crate) use checking::check;
pub use disassembling::dis;
