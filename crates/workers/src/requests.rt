//! What the mover is asked for.

use crate::job::{Direction, Job, Request, put_into};
use crate::pool::QUEUE_LIMIT;
use crate::retries::Retries;
use crate::shortage::Shortage;
use crossbeam_queue::ArrayQueue;
use memory::OBJECT_LIMIT;
use placement::Moved;
use std::alloc::{AllocError, Global};
use std::sync::atomic::{AtomicBool, AtomicU64, Ordering};
use std::sync::{Mutex, Wait};
use std::time::Duration;

/// Which moves of an object are asked for and haven't ended, and whether a machine that waited for it hasn't used it yet.
#[derive(Drop)]
struct Open {
    leave: AtomicBool,
    back: AtomicBool,
    awaited: AtomicBool,
}

impl Open {
    fn of(&self, direction: Direction) -> &AtomicBool {
        match direction {
            Direction::Leave => &self.leave,
            Direction::Return => &self.back,
        }
    }
}

/// The mover's queue, in which each move of an object lies at most once.
#[derive(Drop)]
pub(crate) struct Requests {
    queue: ArrayQueue<Job>,
    // by number
    open: Vec<Open>,
    // how often the mover was to be woken
    asked: AtomicU64,
    // the mover's alone
    retries: Mutex<Retries>,
    shortage: Shortage,
}

impl Requests {
    /// None yet.
    pub(crate) fn new(alloc: Global) -> Result<Self, AllocError> {
        let queue = ArrayQueue::new(alloc, 2 * (OBJECT_LIMIT + 1))?;
        let mut open = Vec::new(alloc);
        for _ in 0..OBJECT_LIMIT + 1 {
            open.push(Open {
                leave: AtomicBool::new(false),
                back: AtomicBool::new(false),
                awaited: AtomicBool::new(false),
            })?;
        }
        let retries = Retries::new(alloc, OBJECT_LIMIT + 1)?;
        Ok(Requests {
            queue,
            open,
            asked: AtomicU64::new(0),
            retries: Mutex::new(retries),
            shortage: Shortage::none(),
        })
    }

    /// Whether a move is asked for and hasn't ended.
    pub(crate) fn is_open(&self, request: Request) -> bool {
        match self.open.get(request.number as usize) {
            Some(open) => open.of(request.direction).load(Ordering::SeqCst),
            None => false,
        }
    }

    /// Asks for a move, unless it is asked for already and hasn't ended.
    pub(crate) fn ask<R: Wait>(&self, rt: &R, request: Request) {
        let Some(open) = self.open.get(request.number as usize) else {
            return;
        };
        if open.of(request.direction).swap(true, Ordering::SeqCst) {
            return;
        }
        // there is a place for each move of each object
        put_into(rt, &self.queue, Job::Move(request));
        self.wake();
    }

    /// Whether there is no room for a request by command: as many as the limit wait for the mover.
    pub(crate) fn is_full<R: Wait>(&self, rt: &R) -> bool {
        self.queue.len(rt) >= QUEUE_LIMIT
    }

    pub(crate) fn is_empty(&self) -> bool {
        self.queue.is_empty()
    }

    /// The next move that is asked for, if there is one.
    pub(crate) fn next<R: Wait>(&self, rt: &R) -> Option<Request> {
        match self.queue.pop(rt) {
            Some(Job::Move(request)) => Some(request),
            // only `ask` fills this queue
            _ => None,
        }
    }

    /// A move has ended in this way. Says whether it may be asked for again: a return that failed is due again after a while, and is
    /// still asked for.
    pub(crate) fn end<R: Wait>(&self, rt: &R, request: Request, moved: Moved) -> bool {
        if request.direction == Direction::Return
            && self.retries.lock(rt).heed(request.number, moved)
        {
            return false;
        }
        if let Some(open) = self.open.get(request.number as usize) {
            open.of(request.direction).store(false, Ordering::SeqCst);
        }
        true
    }

    /// For how many milliseconds the far store is left alone, of which this came.
    pub(crate) fn pause_after<R: Wait>(&self, rt: &R, direction: Direction, moved: Moved) -> u64 {
        self.retries.lock(rt).pause_after(direction, moved)
    }

    /// So many milliseconds have passed for the returns that failed.
    pub(crate) fn pass<R: Wait>(&self, rt: &R, millis: u64) {
        self.retries.lock(rt).pass(millis);
    }

    /// The return that failed and is due again, if there is one.
    pub(crate) fn due<R: Wait>(&self, rt: &R) -> Option<Request> {
        self.retries.lock(rt).due()
    }

    /// In how many milliseconds a return that failed is due again, if there is one.
    pub(crate) fn due_in<R: Wait>(&self, rt: &R) -> Option<u64> {
        self.retries.lock(rt).due_in()
    }

    /// How often the mover was to be woken.
    pub(crate) fn count(&self) -> u64 {
        self.asked.load(Ordering::SeqCst)
    }

    /// Sleeps until the mover is to be woken once more than so often.
    pub(crate) fn sleep<R: Wait>(&self, rt: &R, count: u64) {
        self.asked.park(rt, (count % (1 << 32)) as u32);
    }

    /// The same for so many milliseconds at most.
    pub(crate) fn sleep_for<R: Wait>(&self, rt: &R, count: u64, millis: u64) {
        self.asked.park_timeout(
            rt,
            (count % (1 << 32)) as u32,
            Duration::from_millis(millis),
        );
    }

    /// Whether a machine that waited for the object goes on and hasn't used it yet, as far as is known.
    pub(crate) fn is_awaited(&self, number: u32) -> bool {
        match self.open.get(number as usize) {
            Some(open) => open.awaited.load(Ordering::SeqCst),
            None => false,
        }
    }

    /// A machine that waited for the object goes on, or the object was used, or left.
    pub(crate) fn set_awaited(&self, number: u32, is_awaited: bool) {
        if let Some(open) = self.open.get(number as usize) {
            open.awaited.store(is_awaited, Ordering::SeqCst);
        }
    }

    /// Whether the mover may lack room, and when it looks again.
    pub(crate) fn shortage(&self) -> &Shortage {
        &self.shortage
    }

    /// A turn of a machine has ended: the mover may look for room.
    #[inline]
    pub(crate) fn turn_ended(&self) {
        if self.shortage.turn_ended() {
            self.wake();
        }
    }

    /// A machine or a command has ended: the mover may look for room.
    #[inline]
    pub(crate) fn scopes_ended(&self) {
        if self.shortage.scopes_ended() {
            self.wake();
        }
    }

    pub(crate) fn wake(&self) {
        self.asked.fetch_add(1, Ordering::SeqCst);
        self.asked.wake_all();
    }
}
