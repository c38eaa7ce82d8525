//! What lies in the queues of a pool.

use crate::cell::Ticket;
use crossbeam_queue::ArrayQueue;
use std::sync::Wait;

/// Which way an object is to go.
#[derive(Clone, Copy, Drop, Debug, PartialEq, Eq)]
pub enum Direction {
    /// To the far store.
    Leave,
    /// Back from it.
    Return,
}

/// What lies in a queue: the ticket of a machine that is to be run, or of one that waits for the object of a number, or what the
/// mover is asked for. It is one type, since the prover takes queues of one type alone in a struct.
#[derive(Drop, Debug)]
pub enum Job {
    Run(Ticket),
    Wait(Ticket, u32),
    Move(Request),
}

impl Job {
    /// The ticket that lies in it, if there is one: each is a machine's, which would end with it.
    pub(crate) fn into_ticket(self) -> Option<Ticket> {
        match self {
            Job::Run(ticket) => Some(ticket),
            Job::Wait(ticket, _) => Some(ticket),
            Job::Move(_) => None,
        }
    }
}

/// Puts a job into a queue that has a place for whatever may come. If there were none it would be tried again, since a machine ends with
/// its ticket.
pub(crate) fn put_into<R: Wait>(rt: &R, queue: &ArrayQueue<Job>, job: Job) {
    let mut left = job;
    for _ in rt.forever() {
        match queue.push(rt, left) {
            Ok(()) => return,
            Err(back) => left = back,
        }
    }
}

/// An object that is to be moved.
#[derive(Clone, Copy, Drop, Debug, PartialEq, Eq)]
pub struct Request {
    pub number: u32,
    pub direction: Direction,
}
