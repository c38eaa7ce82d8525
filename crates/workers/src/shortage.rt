//! When a mover that found no room looks for it again.

use std::sync::atomic::{AtomicU64, Ordering};

/// After how many turns of machines the mover looks again, which is doubled each time that it finds no room, and the most of these.
const FIRST_TURNS: u64 = 1;

const MOST_TURNS: u64 = 4096;

/// Whether more bytes are here than are kept, since objects are in use, and when the mover looks again.
#[derive(Drop)]
pub(crate) struct Shortage {
    // after how many turns the mover is woken: 0, if it isn't short of room
    left: AtomicU64,
    // after how many the next time; the mover's alone
    next: AtomicU64,
}

impl Shortage {
    /// There is room.
    pub(crate) fn none() -> Self {
        Shortage {
            left: AtomicU64::new(0),
            next: AtomicU64::new(FIRST_TURNS),
        }
    }

    /// There may be no room: from now on the mover is woken when scopes may have ended. It looks for room after this call, so that
    /// no end of a scope passes unseen.
    pub(crate) fn begin(&self) {
        let turns = self.next.load(Ordering::SeqCst);
        self.next
            .store(turns.saturating_mul(2).min(MOST_TURNS), Ordering::SeqCst);
        self.left.store(turns, Ordering::SeqCst);
    }

    /// There is room.
    pub(crate) fn end(&self) {
        self.next.store(FIRST_TURNS, Ordering::SeqCst);
        self.left.store(0, Ordering::SeqCst);
    }

    /// A turn has ended: whether the mover is to be woken. Of two turns that end at once one may be passed over.
    #[inline]
    pub(crate) fn turn_ended(&self) -> bool {
        let left = self.left.load(Ordering::SeqCst);
        if left == 0 {
            return false;
        }
        self.left
            .compare_exchange(
                left,
                left.saturating_sub(1),
                Ordering::SeqCst,
                Ordering::SeqCst,
            )
            .is_ok()
            && left == 1
    }

    /// A machine or a command has ended, and with it its scopes: whether the mover is to be woken.
    #[inline]
    pub(crate) fn scopes_ended(&self) -> bool {
        self.left.load(Ordering::SeqCst) != 0 && self.left.swap(0, Ordering::SeqCst) != 0
    }
}
