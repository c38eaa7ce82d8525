//! A pool with one machine, and a mover that takes the machine's object away and brings it back.
ghost use Rattle.std.specs.Prelude.{◌≡◌, ◌≤◌, length, All, IfSome};
ghost use Rattle.shared_objects.specs.Opened.{AreFresh, seated, IsActorOf, dealer};
ghost use Rattle.workers.specs.Pools.{IsTableOf, each_passed, machines_of};

use crate::bodies::bodies;
use debugger::{Debuggee, Start, StepReply, Way};
use far_store::{FarStore, OwnStore, StoreFault};
use loader::load;
use machine::Stop;
use shared_objects::{ActorSeat, MoverSeat, OpenFault, Shared};
use std::alloc::{AllocError, Global};
use std::marker::Brand;
use std::sync::Wait;
use workers::{Direction, Moved, Mover, Pool, TableName};

/// aadd [r1], r2; call 4; ldxdw r0, [r1]; exit
const CODE: [u8; 32] = [
    0xdb, 0x21, 0, 0, 0, 0, 0, 0, 0x85, 0, 0, 0, 4, 0, 0, 0, 0x79, 0x10, 0, 0, 0, 0, 0, 0, 0x95, 0,
    0, 0, 0, 0, 0, 0,
];

/// The address of object 1.
const OBJECT: u64 = 0x0000_0001_0000_0000;

/// A machine that adds 5 to object 1, closes its scope, and ends with what it reads there then.
fn machines(alloc: Global) -> Option<Vec<Debuggee>>
    ensures { IfSome result (λ v. length v.items ≡ 1) }
{
    let program = load(alloc, &CODE).ok()?;
    let one = Debuggee::new(program, 1, Start::new(10, [OBJECT, 5, 0, 0, 0]));
    vec![in alloc; one].ok()
}

/// A step of the machine.
fn step<F: FarStore, K: TableName, R: Wait>(rt: &R, pool: &Pool<F, K>) -> Option<StepReply> {
    let cell = pool.cell(1)?;
    cell.lock(rt).step(pool.table(), Way::Step)
}

/// What came of the object.
#[derive(Clone, Copy, Drop)]
enum Came {
    NoPool,
    NoMover,
    NotLeft,
    NotHome,
    OtherBytes,
    Home,
    /// At the second request, since there was no memory at the first.
    HomeAgain,
}

/// How the object came home.
fn home<F: FarStore, K: TableName>(pool: &Pool<F, K>, mover: &mut Mover<F, K>) -> Came {
    match mover.one(pool, 1, Direction::Return) {
        Moved::Done => Came::Home,
        Moved::Fault(StoreFault::Memory) => match mover.one(pool, 1, Direction::Return) {
            Moved::Done => Came::HomeAgain,
            _ => Came::NotHome,
        },
        _ => Came::NotHome,
    }
}

/// What came of the object, to which the machine adds before and which it reads after.
fn there_and_back<F: FarStore, K: TableName, R: Wait>(
    rt: &R,
    pool: &Pool<F, K>,
    mover: &mut Mover<F, K>,
) -> Came {
    step(rt, pool);
    step(rt, pool);
    if mover.one(pool, 1, Direction::Leave) != Moved::Done {
        return Came::NotLeft;
    }
    let home = home(pool, mover);
    step(rt, pool);
    match step(rt, pool) {
        Some(StepReply::Stopped(Stop::Exit(5))) => home,
        _ => Came::OtherBytes,
    }
}

fn moved<F: FarStore + Drop, K: TableName, R: Wait>(
    rt: &R,
    alloc: Global,
    shared: Shared<F>,
    seats: Vec<ActorSeat>,
    mover: MoverSeat,
    machines: Vec<Debuggee>,
    store: F,
) -> Came
    requires table { IsTableOf K.table K.opening shared.table }
    requires seats { AreFresh (dealer F.RETURNS K.opening) seats.items × All (IsActorOf shared.table) seats.items }
    requires mover { (mover.seat.table_id ≡ K.table) × (mover.seat.me.0 ≡ seated K.seats (dealer F.RETURNS K.opening)) }
    requires machines { K.starts ≡ machines_of machines.items }
    requires lent { K.passed ≡ each_passed }
    requires room { length machines.items ≤ length seats.items }
{
    let made: Result<Pool<F, K>, AllocError> = Pool::new(rt, alloc, shared, seats, machines);
    let Ok(pool) = made else {
        return Came::NoPool;
    };
    let made: Result<Mover<F, K>, AllocError> = Mover::new(alloc, mover, store);
    let Ok(mut mover) = made else {
        return Came::NoMover;
    };
    there_and_back(rt, &pool, &mut mover)
}

fn told(came: Came) -> &'static str {
    match came {
        Came::NoPool => "no pool",
        Came::NoMover => "no mover",
        Came::NotLeft => "not left",
        Came::NotHome => "not home",
        Came::OtherBytes => "other bytes",
        Came::Home => "came home",
        Came::HomeAgain => "came home, asked again",
    }
}

/// What came of the object, or what there wasn't.
pub fn run<R: Wait>(rt: &R, alloc: Global) -> &'static str {
    let Ok(bodies) = bodies(alloc) else {
        return "no bodies";
    };
    let Some(machines) = machines(alloc) else {
        return "no machines";
    };
    let opened: Result<(Shared<OwnStore>, Vec<ActorSeat>, MoverSeat), OpenFault> = Shared::open(
        alloc, bodies, 1,
    );
    let Ok((shared, seats, mover)) = opened else {
        return "no table";
    };
    let store = OwnStore::new(alloc);
    told(moved::<OwnStore, Brand, _>(rt, alloc, shared, seats, mover, machines, store))
}
