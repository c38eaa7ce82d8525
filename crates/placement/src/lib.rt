//! Where an object is, and what a move did: what both stores of objects answer, that of one thread and that of many.
#![tactic(auto)]

mod places;

pub use places::{Moved, Place};
