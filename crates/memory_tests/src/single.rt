//! One object as a memory, with nothing beside it.
ghost use Rattle.std.specs.Prelude.{◌≡◌};

use memory::{Memory, Op, Reach, act};
use std::marker::Model;

/// A memory whose one object has number 1. It is seen as that object's bytes.
#[derive(Drop)]
pub struct Single {
    bytes: Vec<u8>,
}

impl Model for Single {
    ghost use Rattle.std.specs.Prelude.{ℕ, List};

    ghost Value = { List ℕ };

    ghost view = { λ s. s.bytes.items };
}

impl Single {
    /// An object of these bytes.
    pub fn new(bytes: Vec<u8>) -> Self
        ensures { result ≡ bytes.items }
    {
        Single { bytes }
    }
}

impl Memory for Single {
    ghost use Rattle.memory_tests.specs.Singles.{single_memory, single_promises};

    ghost is_ready = { λ _. Unit {0} };

    ghost acts = { single_memory };

    ghost promises = { single_promises };

    #[tactic(auto, using(crate::proofs::Numbers::number_steps))]
    fn length(&self, number: u64) -> usize {
        if number == 1 { self.bytes.len() } else { 0 }
    }

    #[tactic(auto, using(crate::proofs::Numbers::number_steps))]
    fn touch(&mut self, number: u32, op: &Op) -> Reach {
        if number != 1 || !op.is_inside(self.bytes.len()) {
            return Reach::Outside;
        }
        Reach::Done(act(self.bytes.as_mut_slice(), op))
    }

    fn close_scopes(&mut self) {}
}
