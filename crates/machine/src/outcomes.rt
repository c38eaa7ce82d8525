//! What a step came to.
ghost use Rattle.std.specs.Prelude.{◌≡◌, None, false, true};
ghost use Rattle.machine.specs.TableStep.{Closes};

use crate::state::{Done, Stepped, Stop, Written};
use memory::Memory;

/// An instruction was done, and wrote no byte.
#[inline(always)]
pub fn ran(slot: usize) -> Done
    ensures { result ≡ record { slot = slot; answer = Stepped.Ran None; closes = false } }
{
    wrote(slot, None)
}

/// An instruction was done, and wrote these bytes, if any.
#[inline(always)]
pub fn wrote(slot: usize, written: Option<Written>) -> Done
    ensures { result ≡ record { slot = slot; answer = Stepped.Ran written; closes = false } }
{
    Done {
        slot,
        answer: Stepped::Ran(written),
        closes: false,
    }
}

/// A helper was run, which closes all scopes or none.
#[inline(always)]
pub fn helped(slot: usize, closes: bool) -> Done
    ensures { result ≡ record { slot = slot; answer = Stepped.Ran None; closes = closes } }
{
    Done {
        closes,
        ..ran(slot)
    }
}

/// The object of that number can't be reached now.
#[inline(always)]
pub fn wait(slot: usize, number: u32) -> Done
    ensures { result ≡ record { slot = slot; answer = Stepped.Waiting number; closes = false } }
{
    Done {
        slot,
        answer: Stepped::Waiting(number),
        closes: false,
    }
}

/// The machine stops, and all its scopes close.
#[inline(always)]
pub fn halted(slot: usize, stop: Stop) -> Done
    ensures { result ≡ record { slot = slot; answer = Stepped.Stopped stop; closes = true } }
{
    Done {
        slot,
        answer: Stepped::Stopped(stop),
        closes: true,
    }
}

/// Closes all scopes of the machine, or none.
#[inline(always)]
pub fn close_if<M: Memory>(closes: bool, memory: &mut M)
    requires ready { M.is_ready memory.old }
    ensures ready { M.is_ready memory.new }
    ensures closes { Closes closes M.acts memory.old memory.new }
{
    if closes {
        memory.close_scopes();
    }
}
