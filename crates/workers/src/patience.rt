//! What one does while another has its turn on an object.

use std::hint::spin_loop;
use std::sync::Wait;
use std::sync::atomic::AtomicU64;
use std::time::Duration;

/// How many tries to get a turn are made before the first sleep.
const TRIES_AWAKE: u32 = 16;

/// How many more times one spins before each of these tries than before the last.
const SPINS: u32 = 4;

/// Lets some time pass before a try to get a turn, after so many that found it another's. While its holder runs, a turn is held for two
/// microseconds at most: the tries awake last for several turns, though for less than 50 microseconds. Whoever holds one for longer
/// doesn't run, maybe since this thread has its processor. So this thread sleeps before each later try, as briefly as it can.
pub fn give_time<R: Wait>(rt: &R, tries: u32) {
    if tries >= TRIES_AWAKE {
        AtomicU64::new(0).park_timeout(rt, 0, Duration::from_micros(1));
        return;
    }
    for _ in 0..tries * SPINS {
        spin_loop();
    }
}
