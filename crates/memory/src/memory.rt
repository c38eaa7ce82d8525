//! Memory, as a machine sees it.
ghost use Rattle.std.specs.Prelude.{◌≡◌};
ghost use Rattle.memory.specs.Memories.{Memories, KeepsPromises};

use crate::access::{Op, Reach};

/// Memory, by what one access does to it.
pub trait Memory {
    /// The memory may be used.
    ghost is_ready: { Self → Type 0 };

    /// What may be done with it.
    ghost acts: { Memories Self };

    /// How many bytes an object has, wherever it is; 0 where there is no object of that number.
    fn length(&self, number: u64) -> usize
        requires { is_ready self.now }
        ensures { result ≡ acts.length_of self.now number };

    /// One access.
    fn touch(&mut self, number: u32, op: &Op) -> Reach
        requires { is_ready self.old }
        ensures ready { is_ready self.new }
        ensures touch { acts.reaches self.old number op.now result self.new };

    /// Closes all scopes of the machine that has the memory.
    fn close_scopes(&mut self)
        requires { is_ready self.old }
        ensures ready { is_ready self.new }
        ensures close { acts.closes self.old self.new };

    /// What every memory promises.
    ghost promises: { KeepsPromises acts };
}
