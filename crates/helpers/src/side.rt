//! What a machine keeps for its helpers.
ghost use Rattle.std.specs.Prelude.{◌≡◌, ◌<◌, ◌≤◌, ◌++◌, [], ◌∷◌, length};
ghost use Rattle.helpers.specs.Helpers.{SideState, emit_value, with_emitted, emitted_limit};

use arrayvec::ArrayVec;
use std::marker::Model;

/// How many values a machine may emit (this project's choice).
pub const EMITTED_LIMIT: usize = 64;

/// The machine's number, and the values that it has emitted.
#[derive(Drop)]
pub struct Side {
    number: usize,
    emitted: ArrayVec<u64, EMITTED_LIMIT>,
}

impl Model for Side {
    ghost use Rattle.std.specs.Prelude.{length, ◌≤◌};
    ghost use Rattle.helpers.specs.Helpers.{SideState, emitted_limit};

    ghost Value = { SideState };

    ghost view = { λ s. record { number = s.number; emitted = s.emitted.items } };

    ghost invariant = { λ s. length s.emitted.items ≤ emitted_limit };
}

impl Side {
    /// Of a machine that has emitted nothing.
    pub fn new(number: usize) -> Self
        ensures { result ≡ record { number = number; emitted = [] } }
    {
        Side {
            number,
            emitted: ArrayVec::new(),
        }
    }

    /// The machine's number.
    pub fn number(&self) -> usize
        ensures { result ≡ self.now.number }
    {
        self.number
    }

    /// The emitted values, the oldest first.
    pub fn emitted(&self) -> &[u64]
        ensures value { result.now ≡ self.now.emitted }
        ensures room { length self.now.emitted ≤ emitted_limit }
    {
        self.emitted.as_slice()
    }

    /// Keeps a value, while there is room: 0 where it is kept, 1 where it isn't.
    pub fn emit(&mut self, x: u64) -> u64
        ensures value { result ≡ emit_value self.old.emitted }
        ensures side { self.new ≡ record self.old { emitted = with_emitted self.old.emitted x } }
    {
        if self.emitted.is_full() {
            return 1;
        }
        self.emitted.push(x);
        0
    }
}
