//! Gates that count rounds alone.

use std::sync::atomic::{AtomicU64, Ordering};
use workers::Gate;

/// Lets a mover or a worker go on for a given number of rounds.
#[derive(Drop)]
pub struct Rounds {
    left: AtomicU64,
}

impl Rounds {
    /// A gate for this many rounds.
    pub fn new(rounds: u64) -> Self {
        Rounds {
            left: AtomicU64::new(rounds),
        }
    }
}

impl Gate for Rounds {
    fn before(&self, _worker: usize, _machine: usize) {}

    fn after(&self, _worker: usize, _machine: usize) {}

    fn go_on(&self) -> bool {
        self.left.fetch_sub(1, Ordering::SeqCst) > 0
    }
}

/// The same, but the worker doesn't tell it of instructions.
#[derive(Drop)]
pub struct UntoldRounds {
    rounds: Rounds,
}

impl UntoldRounds {
    /// A gate for this many rounds.
    pub fn new(rounds: u64) -> Self {
        UntoldRounds {
            rounds: Rounds::new(rounds),
        }
    }
}

impl Gate for UntoldRounds {
    const IS_TOLD: bool = false;

    fn before(&self, _worker: usize, _machine: usize) {}

    fn after(&self, _worker: usize, _machine: usize) {}

    fn go_on(&self) -> bool {
        self.rounds.go_on()
    }
}
