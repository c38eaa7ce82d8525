//! Gates for tests and measurements: each lets a mover or a worker go on for a given number of rounds.
#![tactic(auto)]

mod rounds;
mod turns;

pub use rounds::{Rounds, UntoldRounds};
pub use turns::Turns;
