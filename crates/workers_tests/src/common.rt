//! Machines, and gates with what other threads do meanwhile. A slot of code is written as its bytes, first to last.

use debugger::{ShowCommand, ShowReply};
use far_store::FarStore;
use loader::{Program, load};
use std::alloc::Global;
use std::sync::Wait;
use std::sync::atomic::{AtomicBool, AtomicU64, Ordering};
use std::test::Fail;
use std::thread::{self, Threads, yield_now};
use test_devices::code;
use workers::{Gate, Pool, TableName, work};

pub const EXIT: u64 = 0x9500_0000_0000_0000;

/// aadd [r1], r2
pub const ADD: u64 = 0xdb21_0000_0000_0000;

/// ldxdw r0, [r1]
pub const LOAD: u64 = 0x7910_0000_0000_0000;

/// ja -1
pub const JUMP: u64 = 0x0500_ffff_0000_0000;

/// call 4
pub const CLOSE: u64 = 0x8500_0000_0400_0000;

/// The address of object 1.
pub const OBJECT: u64 = 0x0000_0001_0000_0000;

/// How often is looked at a flag at most.
pub const LOOKS: u64 = 10_000;

/// A program of these slots.
pub fn program(alloc: Global, slots: &[u64]) -> Result<Program, Fail> {
    Ok(load(alloc, code(alloc, slots)?.as_slice())?)
}

/// Whether the machine of this number goes on.
pub fn goes<F: FarStore, K: TableName, R: Wait>(rt: &R, pool: &Pool<F, K>, number: usize) -> bool {
    match pool.cell(number) {
        Some(cell) => cell.lock(rt).is_going(),
        None => false,
    }
}

/// What fuel machine 1 has.
pub fn fuel<F: FarStore, K: TableName, R: Wait>(
    rt: &R,
    alloc: Global,
    pool: &Pool<F, K>,
) -> Option<u64> {
    let cell = pool.cell(1)?;
    match cell.lock(rt).show(alloc, ShowCommand::Regs)? {
        ShowReply::Registers(shown) => Some(shown.fuel),
        _ => None,
    }
}

/// Lets other threads run: one yield alone ends too soon on a machine whose processors all have other work.
pub fn rest() {
    for _ in 0..1000 {
        yield_now();
    }
}

/// Waits until a flag is set, for so many looks at most, and says whether it is.
pub fn waits_for(flag: &AtomicBool) -> bool {
    for _ in 0..LOOKS {
        if flag.load(Ordering::SeqCst) {
            return true;
        }
        rest();
    }
    false
}

/// Whether neither machine 1 nor machine 2 goes on, after so many looks at most.
fn waits_for_ends<F: FarStore, K: TableName, R: Wait>(
    rt: &R,
    pool: &Pool<F, K>,
    looks: u64,
) -> bool {
    for _ in 0..looks {
        if !goes(rt, pool, 1) && !goes(rt, pool, 2) {
            return true;
        }
        rest();
    }
    false
}

/// A gate, and what is done while workers run under it.
pub trait Driven: Gate {
    /// Waits until it has seen what it is for, and says whether it has.
    fn is_seen<F: FarStore, K: TableName, R: Wait>(&self, rt: &R, pool: &Pool<F, K>) -> bool;

    /// Has the workers end.
    fn end(&self);
}

/// So many workers on threads of their own, until the gate has seen what it is for: how many were made, and whether it has.
pub fn run_driven<F, K, R, G>(rt: &R, gate: &G, pool: &Pool<F, K>, workers: usize) -> (usize, bool)
where
    F: FarStore + Send + Sync,
    K: TableName + Send + Sync,
    R: Threads + Wait + Sync,
    G: Driven + Sync,
    F::Parcel: Send,
{
    thread::scope(thread::scope_env(), rt, |scope| {
        let mut made: usize = 0;
        for worker in 0..workers {
            if scope.spawn(move || work(rt, gate, pool, worker)).is_ok() {
                made = made.wrapping_add(1);
            }
        }
        let seen = gate.is_seen(rt, pool);
        gate.end();
        pool.wake_all();
        (made, seen)
    })
}

/// Holds the first instruction of machine 1 until another thread has looked at that machine and machine 2 has answered one, and
/// the first worker until there are two.
#[derive(Drop)]
pub struct Holds {
    pub asked: AtomicU64,
    pub both: AtomicBool,
    pub first: AtomicBool,
    pub looked: AtomicBool,
    pub other: AtomicBool,
    pub met: AtomicBool,
    pub ends: AtomicBool,
}

impl Holds {
    pub fn new() -> Self {
        Holds {
            asked: AtomicU64::new(0),
            both: AtomicBool::new(false),
            first: AtomicBool::new(false),
            looked: AtomicBool::new(false),
            other: AtomicBool::new(false),
            met: AtomicBool::new(false),
            ends: AtomicBool::new(false),
        }
    }
}

impl Gate for Holds {
    fn before(&self, _worker: usize, machine: usize) {
        if machine == 1 && !self.first.swap(true, Ordering::SeqCst) {
            let met = waits_for(&self.looked) && waits_for(&self.other);
            self.met.store(met, Ordering::SeqCst);
        }
    }

    fn after(&self, _worker: usize, machine: usize) {
        if machine == 2 {
            self.other.store(true, Ordering::SeqCst);
        }
    }

    // The first that asks waits for the second, so both workers have come.
    fn go_on(&self) -> bool {
        match self.asked.fetch_add(1, Ordering::SeqCst) {
            0 => {
                waits_for(&self.both);
            }
            1 => self.both.store(true, Ordering::SeqCst),
            _ => {}
        }
        !self.ends.load(Ordering::SeqCst)
    }
}

impl Driven for Holds {
    /// Looks at machine 1 when a worker is held at its first instruction, and waits for both machines' ends.
    fn is_seen<F: FarStore, K: TableName, R: Wait>(&self, rt: &R, pool: &Pool<F, K>) -> bool {
        waits_for(&self.first);
        goes(rt, pool, 1);
        self.looked.store(true, Ordering::SeqCst);
        waits_for_ends(rt, pool, LOOKS)
    }

    fn end(&self) {
        self.ends.store(true, Ordering::SeqCst);
    }
}

/// Notes whether two workers are at an instruction of one machine at a time, how many instructions were done, and how many
/// workers were told to end.
#[derive(Drop)]
pub struct Crowd {
    pub first: AtomicU64,
    pub other: AtomicU64,
    pub met: AtomicBool,
    pub done: AtomicU64,
    pub ends: AtomicBool,
    pub ended: AtomicU64,
}

impl Crowd {
    pub fn new() -> Self {
        Crowd {
            first: AtomicU64::new(0),
            other: AtomicU64::new(0),
            met: AtomicBool::new(false),
            done: AtomicU64::new(0),
            ends: AtomicBool::new(false),
            ended: AtomicU64::new(0),
        }
    }

    /// How many workers are at an instruction of this machine.
    fn inside(&self, machine: usize) -> &AtomicU64 {
        if machine == 1 {
            &self.first
        } else {
            &self.other
        }
    }
}

impl Gate for Crowd {
    fn before(&self, _worker: usize, machine: usize) {
        if self.inside(machine).fetch_add(1, Ordering::SeqCst) > 0 {
            self.met.store(true, Ordering::SeqCst);
        }
    }

    fn after(&self, _worker: usize, machine: usize) {
        self.inside(machine).fetch_sub(1, Ordering::SeqCst);
        self.done.fetch_add(1, Ordering::SeqCst);
    }

    fn go_on(&self) -> bool {
        let ends = self.ends.load(Ordering::SeqCst);
        if ends {
            self.ended.fetch_add(1, Ordering::SeqCst);
        }
        !ends
    }
}

impl Driven for Crowd {
    /// Waits for both machines' ends.
    fn is_seen<F: FarStore, K: TableName, R: Wait>(&self, rt: &R, pool: &Pool<F, K>) -> bool {
        waits_for_ends(rt, pool, 100 * LOOKS)
    }

    fn end(&self) {
        self.ends.store(true, Ordering::SeqCst);
    }
}
