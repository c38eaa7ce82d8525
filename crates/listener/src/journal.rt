//! What whoever runs a server may want to know.

use std::io::Error;

/// Told of each event of a server, by each of its threads.
pub trait Journal<E> {
    fn note(&self, event: E);
}

/// No journal: nothing is written down.
#[derive(Clone, Copy, Drop, Debug, PartialEq, Eq)]
pub struct Unwritten;

impl<E: Drop> Journal<E> for Unwritten {
    fn note(&self, _event: E) {}
}

/// No client can be accepted for now, for this reason. Noted once until one is accepted.
#[derive(Drop, Debug)]
pub struct Shortage(pub Error);
