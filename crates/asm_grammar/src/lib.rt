//! What a line of assembly says: its label, and its instruction under given labels.
#![tactic(auto)]

mod blame;
mod gather;
mod line;
mod reading;
mod taking;
mod wanted;
mod why;
mod written;

pub use blame::blamed_token;
pub use gather::{Gathered, Labels};
pub use line::{outline, read_line};
pub use wanted::{Wanted, wanted_in};
pub use why::Why;
pub use written::{Sign, Written};
