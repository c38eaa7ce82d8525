//! When a return that failed is asked for again, and how long the far store is left alone after it failed. No clock is read: the
//! time is that which the mover has slept.

use crate::job::{Direction, Request};
use placement::Moved;
use std::alloc::{AllocError, Global};

/// After how many milliseconds a return that failed is asked for again, which is doubled each time that it fails again, and the
/// longest of these times.
const FIRST_DELAY: u64 = 10;

const LONGEST_DELAY: u64 = 1000;

/// How many milliseconds the mover rests after the far store failed, which is doubled each time that it fails again, and the
/// longest rest: so a store that refuses is asked for no more than 20 moves in a second.
const FIRST_REST: u64 = 10;

const LONGEST_REST: u64 = 60;

/// When the return of an object is asked for again.
#[derive(Clone, Copy, Drop, Debug, PartialEq, Eq)]
struct Delay {
    // in milliseconds: 0, if it didn't fail
    last: u64,
    left: u64,
}

impl Delay {
    fn is_due(&self) -> bool {
        self.last != 0 && self.left == 0
    }
}

/// Which returns failed and are asked for again.
#[derive(Drop)]
pub(crate) struct Retries {
    // by number
    delays: Vec<Delay>,
    // how many returns failed
    count: usize,
    // the number of the one that was asked for last
    last: u32,
    rests: Rests,
}

/// How many milliseconds the mover rests where the far store fails next to take an object, and to give one back.
#[derive(Clone, Copy, Drop, Debug, PartialEq, Eq)]
struct Rests {
    leave: u64,
    back: u64,
}

/// The rest after this one.
fn longer(rest: u64) -> u64 {
    rest.saturating_mul(2).min(LONGEST_REST)
}

impl Rests {
    /// The far store failed: how long the mover rests.
    fn fail(&mut self, direction: Direction) -> u64 {
        let Rests { leave, back } = *self;
        *self = Rests {
            leave: longer(leave),
            back: longer(back),
        };
        match direction {
            Direction::Leave => leave,
            Direction::Return => back,
        }
    }

    /// The far store did as it was asked. That it takes objects doesn't say that it gives them back.
    fn succeed(&mut self, direction: Direction) {
        match direction {
            Direction::Leave => self.leave = FIRST_REST,
            Direction::Return => self.back = FIRST_REST,
        }
    }
}

impl Retries {
    /// For so many numbers, none yet.
    pub(crate) fn new(alloc: Global, numbers: usize) -> Result<Self, AllocError> {
        let mut delays = Vec::new(alloc);
        for _ in 0..numbers {
            delays.push(Delay { last: 0, left: 0 })?;
        }
        Ok(Retries {
            delays,
            count: 0,
            last: 0,
            rests: Rests {
                leave: FIRST_REST,
                back: FIRST_REST,
            },
        })
    }

    /// What became of a return. One that failed is asked for again after its delay: says whether it is.
    pub(crate) fn heed(&mut self, number: u32, moved: Moved) -> bool {
        let Some(delay) = self.delays.get_mut(number as usize) else {
            return false;
        };
        self.last = number;
        if delay.last != 0 {
            self.count = self.count.saturating_sub(1);
        }
        let Moved::Fault(_) = moved else {
            *delay = Delay { last: 0, left: 0 };
            return false;
        };
        self.count = self.count.saturating_add(1);
        let next = delay
            .last
            .saturating_mul(2)
            .clamp(FIRST_DELAY, LONGEST_DELAY);
        *delay = Delay {
            last: next,
            left: next,
        };
        true
    }

    /// What the far store did with an object that went this way: for how many milliseconds it is left alone.
    pub(crate) fn pause_after(&mut self, direction: Direction, moved: Moved) -> u64 {
        match moved {
            Moved::Fault(_) => self.rests.fail(direction),
            Moved::Done => {
                self.rests.succeed(direction);
                0
            }
            _ => 0,
        }
    }

    /// So many milliseconds have passed.
    pub(crate) fn pass(&mut self, millis: u64) {
        if self.count == 0 {
            return;
        }
        for delay in self.delays.iter_mut() {
            delay.left = delay.left.saturating_sub(millis);
        }
    }

    /// The return that is to be asked for again now, if there is one: the next after the one that was asked for last.
    pub(crate) fn due(&self) -> Option<Request> {
        if self.count == 0 {
            return None;
        }
        let mut found = None;
        let mut number: u32 = 0;
        for delay in self.delays.iter() {
            if delay.is_due() {
                let due = Some(Request {
                    number,
                    direction: Direction::Return,
                });
                if number > self.last {
                    return due;
                }
                found = found.or(due);
            }
            number = number.wrapping_add(1);
        }
        found
    }

    /// After how many milliseconds the next return is to be asked for again, if any failed.
    pub(crate) fn due_in(&self) -> Option<u64> {
        if self.count == 0 {
            return None;
        }
        let mut least = LONGEST_DELAY;
        for delay in self.delays.iter() {
            if delay.last != 0 {
                least = least.min(delay.left);
            }
        }
        Some(least)
    }
}
