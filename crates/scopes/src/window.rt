//! Which objects must stay because a machine reached them last, and which one a new access lets go.
ghost use Rattle.std.specs.Prelude.{◌≡◌, [], ◌∷◌, false, None, IfSome};
ghost use Rattle.scopes.specs.Windows.{IsWindow, holds, noted, pushed_out};
ghost use Rattle.scopes.specs.Places.{number_at};

use std::marker::Model;
use std::mem;

/// The greatest number of a machine, each of which has a window (this project's choice).
pub const MACHINE_LIMIT: usize = 48;

/// The greatest number.
const GREATEST: u64 = 0xffff_ffff;

/// What stands at a place without a number: above the greatest, and stored by a machine instruction that has it within.
const NO_NUMBER: u64 = u64::MAX;

/// The numbers of the objects that a machine reached last: at most four distinct ones, the oldest first. An object whose
/// number is held is in scope, so it stays where it is. Takes no memory.
///
/// The four stand at places of their own, those of the newest first, so that no loop looks for one.
#[derive(Drop)]
pub struct Window {
    newest: u64,
    second: u64,
    third: u64,
    oldest: u64,
}

impl Model for Window {
    ghost use Rattle.std.specs.Prelude.{ℕ, List};
    ghost use Rattle.scopes.specs.Places.{IsKeptWindow, numbers_in};

    ghost Value = { List ℕ };

    ghost view = { λ w. numbers_in w.oldest w.third w.second w.newest };

    ghost invariant = { λ w. IsKeptWindow w.oldest w.third w.second w.newest };
}

impl Default for Window {
    ghost use Rattle.std.specs.Prelude.{◌≡◌, []};

    ghost is_default = { λ w. w ≡ [] };

    fn default() -> Self {
        Window::new()
    }
}

impl Window {
    /// A window that holds nothing.
    pub fn new() -> Self
        ensures { result ≡ [] }
    {
        Window {
            newest: NO_NUMBER,
            second: NO_NUMBER,
            third: NO_NUMBER,
            oldest: NO_NUMBER,
        }
    }

    /// Whether it holds the number.
    #[inline(always)]
    pub fn holds(&self, number: u32) -> bool
        ensures value { result ≡ holds number self.now }
        ensures window { IsWindow self.now }
    {
        let number = number as u64;
        number == self.newest
            || number == self.second
            || number == self.third
            || number == self.oldest
    }

    /// Notes a number, and answers the one that it pushes out: the oldest, where four others are held. A number that is
    /// held already changes nothing, and isn't made the newest.
    #[inline(always)]
    pub fn note(&mut self, number: u32) -> Option<u32>
        ensures window { IsWindow self.old }
        ensures new { self.new ≡ noted number self.old }
        ensures out { result ≡ pushed_out number self.old }
    {
        if self.holds(number) {
            return None;
        }
        self.note_new(number)
    }

    /// Notes a number that isn't held, and answers the one that it pushes out: the oldest, where four others are held.
    #[inline(always)]
    pub fn note_new(&mut self, number: u32) -> Option<u32>
        requires { holds number self.old ≡ false }
        ensures window { IsWindow self.old }
        ensures new { self.new ≡ noted number self.old }
        ensures out { result ≡ pushed_out number self.old }
    {
        let out = number_of(self.oldest);
        self.oldest = self.third;
        self.third = self.second;
        self.second = self.newest;
        self.newest = number as u64;
        out
    }

    /// Takes the oldest number out, or answers that there is none.
    pub fn pop(&mut self) -> Option<u32>
        ensures none { result ≡ None → ((self.old ≡ []) × (self.new ≡ [])) }
        ensures some { IfSome result (λ n. self.old ≡ n ∷ self.new) }
        ensures window { IsWindow self.old }
    {
        let out = if self.oldest <= GREATEST {
            mem::replace(&mut self.oldest, NO_NUMBER)
        } else if self.third <= GREATEST {
            mem::replace(&mut self.third, NO_NUMBER)
        } else if self.second <= GREATEST {
            mem::replace(&mut self.second, NO_NUMBER)
        } else {
            mem::replace(&mut self.newest, NO_NUMBER)
        };
        number_of(out)
    }
}

/// The number that stands at a place, if there is one.
#[inline(always)]
fn number_of(place: u64) -> Option<u32>
    ensures { result ≡ number_at place }
{
    if place <= GREATEST {
        Some(place as u32)
    } else {
        None
    }
}
