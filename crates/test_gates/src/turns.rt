//! A gate that counts the turns and the instructions of one worker.

use crate::rounds::Rounds;
use std::sync::atomic::{AtomicBool, AtomicU64, Ordering};
use workers::Gate;

/// Lets one worker go on for a given number of turns, while it comes to an instruction in each. Counts how often it comes to one of
/// machine 1, of machine 2, of machine 3, and of any other.
#[derive(Drop)]
pub struct Turns {
    rounds: Rounds,
    /// Whether the worker came to an instruction since it asked last.
    busy: AtomicBool,
    done: [AtomicU64; 4],
}

impl Turns {
    /// A gate for this many turns.
    pub fn new(turns: u64) -> Self {
        Turns {
            rounds: Rounds::new(turns),
            busy: AtomicBool::new(true),
            done: [
                AtomicU64::new(0),
                AtomicU64::new(0),
                AtomicU64::new(0),
                AtomicU64::new(0),
            ],
        }
    }

    /// How often the worker came to an instruction of machine 1, of machine 2, of machine 3, and of any other.
    pub fn counts(&self) -> [u64; 4] {
        [
            self.done[0].load(Ordering::SeqCst),
            self.done[1].load(Ordering::SeqCst),
            self.done[2].load(Ordering::SeqCst),
            self.done[3].load(Ordering::SeqCst),
        ]
    }
}

impl Gate for Turns {
    fn before(&self, _worker: usize, machine: usize) {
        let index = machine.saturating_sub(1).min(3);
        self.done[index].fetch_add(1, Ordering::SeqCst);
        self.busy.store(true, Ordering::SeqCst);
    }

    fn after(&self, _worker: usize, _machine: usize) {}

    fn go_on(&self) -> bool {
        self.busy.swap(false, Ordering::SeqCst) && self.rounds.go_on()
    }
}
