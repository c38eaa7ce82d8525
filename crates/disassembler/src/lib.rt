//! Instructions in, their canonical spelling as assembly out. [`spelled_lines`] writes the lines of a program in any [`Spelling`].
#![tactic(auto)]

mod hex;
mod lines;
mod operands;
mod programs;
mod spelling;

pub use lines::line;
pub use programs::{listing, text};
pub use spelling::{Spelling, spelled_lines};
