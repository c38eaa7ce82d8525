//! What the threads of a service share in tests, and how its connection asks.

use crate::stage::talk;
use far_store::FarStore;
use ship_service::{Agent, Connection};
use std::alloc::Global;
use std::sync::atomic::{AtomicBool, Ordering};
use std::sync::{Mutex, Wait};
use std::thread::yield_now;
use workers::{Gate, TableName};

/// How often a connection asks at most until it is answered what it waits for.
pub const LOOKS: usize = 10_000;

/// What the connection says while workers and mover run.
#[derive(Clone, Copy, Drop, PartialEq, Eq)]
pub enum Talk {
    /// It asks a few times that object 1 leaves.
    Leaves,
    /// It asks all the time that object 1 leaves, and what its bytes are.
    Watches,
}

/// Lets workers and mover go on until it is told that they end.
#[derive(Drop)]
pub struct UntilEnd {
    pub ended: AtomicBool,
}

impl Gate for UntilEnd {
    fn before(&self, _worker: usize, _machine: usize) {}

    fn after(&self, _worker: usize, _machine: usize) {}

    fn go_on(&self) -> bool {
        !self.ended.load(Ordering::SeqCst)
    }
}

/// What all threads share.
#[derive(Drop)]
pub struct Tools<'a, R: Wait, F: FarStore, K: TableName> {
    pub rt: &'a R,
    pub alloc: Global,
    pub gate: &'a UntilEnd,
    pub agent: &'a Agent<F, K>,
    pub connection: &'a Mutex<Connection<K>>,
    pub talk: Talk,
}

/// Lets other threads run.
pub fn rest() {
    for _ in 0..1000 {
        yield_now();
    }
}

/// What the connection is answered.
pub fn ask<R: Wait, F: FarStore, K: TableName>(tools: &Tools<R, F, K>, said: &[u8]) -> Vec<u8> {
    let mut connection = tools.connection.lock(tools.rt);
    let (told, _) = talk(
        tools.rt,
        tools.alloc,
        tools.agent,
        &mut connection,
        said,
        usize::MAX,
        usize::MAX,
    );
    told
}

/// Whether the text has a stop by `exit` in it.
pub fn has_exit(text: &[u8]) -> bool {
    text.windows(6).any(|part| part == b" exit ".as_slice())
}
