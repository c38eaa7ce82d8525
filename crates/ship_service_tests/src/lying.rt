//! Services over a far store that lies: no connection is shown wrong bytes, and no object is lost.
ghost use Rattle.std.specs.Prelude.{◌≡◌, ◌≤◌, length, All, false};
ghost use Rattle.far_store.specs.Stores.{Rises};
ghost use Rattle.shared_objects.specs.Kinds.{dealer};
ghost use Rattle.shared_objects.specs.Opened.{AreFresh, seated};
ghost use Rattle.shared_objects.specs.Tables.{IsActorOf};
ghost use Rattle.workers.specs.Cells.{IsSeatOf, IsTableOf};
ghost use Rattle.workers.specs.TableNames.{each_passed};
ghost use Rattle.workers.specs.Pools.{machines_of};

use crate::closing::{Parts, Service, move_one, service_of};
use crate::closing_two::close_over;
use crate::compared::same;
use crate::stage::{last_seat, tells};
use crate::tools::Talk;
use far_store::{FarStore, StoreFault};
use shared_objects::Shared;
use std::alloc::{AllocError, Global};
use std::marker::Brand;
use std::process::Abort;
use std::sync::Wait;
use std::sync::atomic::{AtomicBool, Ordering};
use std::test::Fail;
use test_gates::Rounds;
use workers::{Direction, Moved, TableName, Upkeep, mover};

/// What stands for bytes in a [`Lying`] store.
#[derive(Drop)]
pub struct LyingParcel {
    bytes: Vec<u8>,
    asked: AtomicBool,
}

/// A far store whose first answer to a `get` of each parcel is a lie, and each later one is right. In turn it tells that the
/// bytes are damaged, and gives a byte too few. It promises nothing of what it gives back.
#[derive(Drop)]
pub struct Lying {
    alloc: Global,
    lies: u64,
    faults: u64,
}

impl Lying {
    pub fn new(alloc: Global) -> Self {
        Lying {
            alloc,
            lies: 0,
            faults: 0,
        }
    }

    /// Counts a fault.
    fn fails(&mut self, fault: StoreFault) -> StoreFault
        ensures { Rises self.old.faults self.new.faults }
    {
        self.faults = self.faults.saturating_add(1);
        fault
    }
}

impl FarStore for Lying {
    ghost RETURNS = { false };

    const RETURNS: bool = false;

    type Parcel = LyingParcel;

    ghost bytes_in = { λ p. p.bytes.items };

    ghost faults_of = { λ s. s.faults };

    ghost called = { λ s call t. Unit {0} };

    fn put(&mut self, bytes: Vec<u8>) -> Result<LyingParcel, (StoreFault, Vec<u8>)> {
        Ok(LyingParcel {
            bytes,
            asked: AtomicBool::new(false),
        })
    }

    fn get(&mut self, parcel: &LyingParcel) -> Result<Vec<u8>, StoreFault> {
        let Ok(mut bytes) = parcel.bytes.to_vec(self.alloc) else {
            return Err(self.fails(StoreFault::Memory));
        };
        if parcel.asked.swap(true, Ordering::SeqCst) {
            return Ok(bytes);
        }
        self.lies = self.lies.wrapping_add(1);
        if self.lies % 2 == 1 {
            return Err(self.fails(StoreFault::Damaged));
        }
        bytes.pop();
        Ok(bytes)
    }

    fn forget(&mut self, parcel: LyingParcel) {
        drop(parcel);
    }

    fn faults(&self) -> u64 {
        self.faults
    }
}

/// What is done with a service without workers, and what comes of it.
#[derive(Clone, Copy, Drop)]
enum Act {
    /// The connection asks for the bytes of object 1, and is answered so.
    Looks(&'static [u8]),
    /// The mover is called to move object 1, with this outcome.
    Moves(Direction, Moved),
    /// The mover serves one request.
    Serves,
}

/// The mover serves one request.
fn serves<F: FarStore, K: TableName, R: Wait>(rt: &R, service: &mut Service<F, K>) {
    let gate = Rounds::new(1);
    let pool = service.agent.pool();
    mover(rt, &gate, pool, &mut service.served, Upkeep::none());
}

/// An act is done, and comes to what it should.
fn does<F: FarStore, K: TableName, R: Wait + Abort>(
    rt: &R,
    alloc: Global,
    service: &mut Service<F, K>,
    act: Act,
) {
    match act {
        Act::Looks(told) => {
            let lines = (b"get 1 0 20\n".as_slice(), told);
            tells(rt, alloc, &service.agent, &mut service.connection, lines);
        }
        Act::Moves(direction, wanted) => {
            let moved = move_one(&service.agent, &mut service.served, direction);
            same!(rt; moved, wanted);
        }
        Act::Serves => serves(rt, service),
    }
}

/// How many faults the far store of a service counted.
fn faults_of<F: FarStore + Drop, K: TableName>(service: Service<F, K>) -> u64 {
    let (_, store, _) = service.served.into_parts();
    store.faults()
}

/// The acts are done with a service: how many faults its far store counts then.
fn faults_by<F: FarStore + Drop, K: TableName, R: Wait + Abort>(
    rt: &R,
    alloc: Global,
    mut service: Service<F, K>,
    acts: &[Act],
) -> u64 {
    for act in acts {
        does(rt, alloc, &mut service, *act);
    }
    faults_of(service)
}

/// The acts are done with a service of these parts: how many faults its far store counts then.
fn faults_after<F: FarStore + Drop, K: TableName, R: Wait + Abort>(
    rt: &R,
    alloc: Global,
    parts: Parts<F>,
    acts: &[Act],
) -> Result<u64, AllocError>
    requires table { IsTableOf K.table K.opening parts.shared.table }
    requires seats { AreFresh (dealer F.RETURNS K.opening) parts.seats.items × All (IsActorOf parts.shared.table) parts.seats.items
        × (length parts.seats.items ≡ 48) }
    requires machines { (K.starts ≡ machines_of parts.machines.items) × (length parts.machines.items ≤ 48) }
    requires lent { K.passed ≡ each_passed }
    requires connection { IsSeatOf K.table K.opening parts.connection }
    requires mover { (parts.mover.seat.table_id ≡ K.table) × (parts.mover.seat.me.0 ≡ seated K.seats (dealer F.RETURNS K.opening)) }
{
    let service: Service<F, K> = service_of(rt, alloc, parts)?;
    Ok(faults_by(rt, alloc, service, acts))
}

/// The acts are done with a service over a store that lies, whose object 1 has the bytes 1 to 20: how many faults that store counts
/// then.
fn lies<R: Wait + Abort>(rt: &R, alloc: Global, acts: &[Act]) -> Result<u64, Fail> {
    let body = Vec::from_array(
        alloc,
        [
            1, 2, 3, 4, 5, 6, 7, 8, 9, 10, 11, 12, 13, 14, 15, 16, 17, 18, 19, 20,
        ],
    )?;
    let bodies = Vec::from_array(alloc, [body])?;
    let (shared, mut seats, mover) = Shared::<Lying>::open(alloc, bodies, 49)?;
    let Some(connection) = last_seat(&shared, &mut seats) else {
        return Err(Fail::from(AllocError));
    };
    let parts = Parts {
        shared,
        machines: Vec::new(alloc),
        seats,
        connection,
        mover,
        store: Lying::new(alloc),
    };
    Ok(faults_after::<Lying, Brand, R>(rt, alloc, parts, acts)?)
}

const AWAY: Act = Act::Looks(b"away 1\n");

const HERE: Act = Act::Looks(b"bytes 0102030405060708090a0b0c0d0e0f1011121314\n");

const LEAVES: Act = Act::Moves(Direction::Leave, Moved::Done);

const RETURNS: Act = Act::Moves(Direction::Return, Moved::Done);

/// The store tells that the bytes are damaged.
const DAMAGED: Act = Act::Moves(Direction::Return, Moved::Fault(StoreFault::Damaged));

/// The object leaves twice, and comes back by calls of the mover. The second time the store gives a byte too few.
const CALLS: &[Act] = &[
    LEAVES, AWAY, DAMAGED, AWAY, RETURNS, HERE, LEAVES, AWAY, DAMAGED, AWAY, RETURNS, HERE,
];

#[test]
fn an_object_comes_when_the_mover_is_called_again(rt: HostRuntime) -> Result<(), Fail> {
    // the store counts what it told as damaged, and not the byte too few
    same!(rt; lies(&rt, rt.alloc(), CALLS)?, 1);
    Ok(())
}

/// The object leaves twice, and comes back since the connection looks for it.
const REQUESTS: &[Act] = &[
    LEAVES,
    AWAY,
    Act::Serves,
    AWAY,
    Act::Serves,
    HERE,
    LEAVES,
    AWAY,
    Act::Serves,
    AWAY,
    Act::Serves,
    HERE,
];

#[test]
fn an_object_comes_when_it_is_asked_for_again(rt: HostRuntime) -> Result<(), Fail> {
    same!(rt; lies(&rt, rt.alloc(), REQUESTS)?, 1);
    Ok(())
}

#[test]
fn two_machines_add_over_a_store_that_lies(rt: HostRuntime) -> Result<(), Fail> {
    let store = Lying::new(rt.alloc());
    same!(rt; close_over(&rt, rt.alloc(), store, Talk::Watches, 10_000)?, Some(20_000));
    Ok(())
}
