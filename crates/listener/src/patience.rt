//! Rests between tries to accept a client.
ghost use Rattle.std.specs.Prelude.{◌≡◌};
ghost use Rattle.listener.specs.Accepting.{first_rest, next_rest};

use crate::bell::Bell;
use crate::journal::{Journal, Shortage};
use std::io::Error;
use std::sync::Wait;

/// The first rest, and the longest, in milliseconds.
const FIRST_REST: u64 = 10;

const LONGEST_REST: u64 = 1000;

/// How long the next rest is, and whether there was one since a client was accepted.
#[derive(Drop)]
pub(crate) struct Patience {
    // in milliseconds
    next: u64,
    is_told: bool,
}

impl Patience {
    pub fn new() -> Patience
        ensures { result.next ≡ first_rest }
    {
        Patience {
            next: FIRST_REST,
            is_told: false,
        }
    }

    /// Rests after this error, of which the journal is told if it is the first. Says whether to try again: the bell hasn't rung.
    pub fn rest<R: Wait, J: Journal<Shortage>>(
        &mut self,
        rt: &R,
        bell: &Bell,
        journal: &J,
        error: Error,
    ) -> bool
        ensures { self.new.next ≡ next_rest self.old.next }
    {
        if !self.is_told {
            journal.note(Shortage(error));
            self.is_told = true;
        }
        bell.rest(rt, self.next);
        self.next = self.next.saturating_mul(2).min(LONGEST_REST);
        !bell.has_rung()
    }
}
