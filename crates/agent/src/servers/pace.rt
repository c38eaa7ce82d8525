//! How long a far server may take for a request.

use std::time::{Clock, Duration, Instant};

/// How many bytes of a request and its answer come in a second, at least: half a megabit.
const LEAST_RATE: u64 = 65_536;

/// How many bytes a request without bytes has.
const HEAD_LENGTH: usize = 13;

/// The first byte of a request to forget a parcel.
const FORGET: u8 = 3;

/// The time that requests and their answers take together. A time-out of each read bounds a silence, and not a server that sends a
/// byte now and then.
#[derive(Drop)]
pub(crate) struct Pace<R> {
    rt: R,
    /// What each request may take beside its bytes.
    longest: Duration,
    /// Since when the requests of the last write are on their way; none if the clock can't be read.
    since: Option<Instant>,
    /// How many they are.
    requests: u32,
    /// How many bytes were written and read for them.
    bytes: u64,
    is_answered: bool,
}

/// How many requests are written as one: forgets, and the one after them.
fn requests_in(text: &[u8]) -> u32 {
    let mut requests = 1u32;
    for head in text.chunks(HEAD_LENGTH) {
        if !head.starts_with(&[FORGET]) {
            return requests;
        }
        requests = requests.saturating_add(1);
    }
    requests
}

impl<R: Clock + Copy> Pace<R> {
    /// Nothing is on its way yet.
    pub fn new(rt: R, longest: Duration) -> Self {
        Pace {
            rt,
            longest,
            since: None,
            requests: 0,
            bytes: 0,
            is_answered: true,
        }
    }

    /// This is written. Time runs from the first write after a read on.
    pub fn asks(&mut self, text: &[u8]) {
        if self.is_answered {
            self.since = Instant::now(&self.rt).ok();
            self.requests = requests_in(text);
            self.bytes = 0;
            self.is_answered = false;
        }
    }

    /// An answer is read.
    pub fn answers(&mut self) {
        self.is_answered = true;
    }

    /// So many bytes were written or read.
    pub fn moved(&mut self, count: usize) {
        self.bytes = self.bytes.saturating_add(count as u64);
    }

    /// Whether the time is over.
    pub fn is_overdue(&self) -> bool {
        let Some(since) = self.since else {
            return false;
        };
        let Ok(elapsed) = since.elapsed(&self.rt) else {
            return false;
        };
        let given = self.longest.saturating_mul(self.requests);
        let moving = Duration::from_millis(self.bytes.saturating_mul(1000) / LEAST_RATE);
        elapsed > given.saturating_add(moving)
    }
}
