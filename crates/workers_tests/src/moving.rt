//! Two workers and the mover, each on a thread of its own, while objects leave and return. Expected sums are worked out by hand.
ghost use Rattle.std.specs.Prelude.{◌≡◌, true};
ghost use denote.Param.Send.{IsSync};
ghost use Rattle.shared_objects.specs.Kinds.{dealer};
ghost use Rattle.shared_objects.specs.Opened.{seated};

use crate::common::{CLOSE, Crowd, EXIT, LOAD, LOOKS, OBJECT, goes, program, rest};
use crate::compared::same;
use crate::course::{Code, Course, Left, left_of};
use debugger::{Start, StepReply, Way};
use far_store::{FarStore, OwnStore};
use loader::Program;
use shared_objects::MoverSeat;
use std::alloc::Global;
use std::sync::Wait;
use std::sync::atomic::Ordering;
use std::test::Fail;
use std::thread;
use std::thread::Threads;
use workers::{Direction, Moved, Mover, Place, Pool, TableName, Upkeep, run_all};

/// How often each machine adds to each object.
const TIMES: u64 = 500;

/// R1 and R2 are the addresses of two objects, to which R4 and R5 are added, R3 times: aadd [r1], r4; aadd [r2], r5; call 4;
/// add r3, -1; jne r3, 0, -5; exit.
const ADDING: &[u64] = &[
    0xdb41_0000_0000_0000,
    0xdb52_0000_0000_0000,
    CLOSE,
    0x0703_0000_ffff_ffff,
    0x5503_fbff_0000_0000,
    EXIT,
];

/// Reads object 1, closes its scope, and does so again: ldxdw r0, [r1]; call 4; ja -3.
const LOOKING: &[u64] = &[LOAD, CLOSE, 0x0500_fdff_0000_0000];

/// What workers and mover left.
#[derive(Clone, Copy, Drop, Debug, PartialEq, Eq)]
pub struct MovesLeft {
    /// How many threads were made.
    made: usize,
    /// Whether both machines came to their ends.
    ended: bool,
    /// Whether object 1 was away then, when it was asked to leave.
    left: bool,
    /// Whether both objects are far at last.
    far: [bool; 2],
    /// Which numbers the far store has of them.
    sums: [Option<u64>; 2],
    /// Whether two workers were at an instruction of one machine at a time, and how many were told to end.
    met: bool,
    told: u64,
}

/// A machine that adds so much to objects 1 and 2.
const fn adding(first: u64, second: u64) -> Code {
    Code {
        fuel: 10 * TIMES,
        arguments: [OBJECT, 2 * OBJECT, TIMES, first, second],
        slots: ADDING,
        debug: None,
    }
}

/// Asks for both objects to leave, again and again, until both machines came to their ends.
fn leave_until_ended<F: FarStore, K: TableName, R: Wait>(rt: &R, pool: &Pool<F, K>) -> bool {
    for _ in 0..4 * LOOKS {
        if !goes(rt, pool, 1) && !goes(rt, pool, 2) {
            return true;
        }
        pool.request(rt, 1, Direction::Leave);
        pool.request(rt, 2, Direction::Leave);
        rest();
    }
    false
}

fn step<F: FarStore, K: TableName, R: Wait>(
    rt: &R,
    pool: &Pool<F, K>,
    number: usize,
) -> Option<StepReply> {
    let cell = pool.cell(number)?;
    cell.lock(rt).step(pool.table(), Way::Step)
}

/// Whether machine 3 waits for object 1. Else it reads it, and closes its scope.
fn is_away<F: FarStore, K: TableName, R: Wait>(rt: &R, pool: &Pool<F, K>) -> bool {
    if let Some(StepReply::Waiting(_)) = step(rt, pool, 3) {
        return true;
    }
    step(rt, pool, 3);
    step(rt, pool, 3);
    false
}

/// Ships machine 3, and asks for object 1 to leave, again and again, until that machine waits for it.
fn leave_until_away<F: FarStore, K: TableName, R: Wait>(
    rt: &R,
    pool: &Pool<F, K>,
    program: Program,
) -> bool {
    let Some(cell) = pool.cell(3) else {
        return false;
    };
    let mut locked = cell.lock(rt);
    if locked.has_machine() {
        return false;
    }
    locked.ship(program, Start::new(3 * LOOKS, [OBJECT, 0, 0, 0, 0]));
    drop(locked);
    for _ in 0..LOOKS {
        pool.request(rt, 1, Direction::Leave);
        rest();
        if is_away(rt, pool) {
            return true;
        }
    }
    false
}

/// Has objects leave, and ends workers and mover then.
fn drive<F: FarStore, K: TableName, R: Wait>(
    rt: &R,
    gate: &Crowd,
    pool: &Pool<F, K>,
    program: Program,
) -> (bool, bool) {
    let ended = leave_until_ended(rt, pool);
    let left = leave_until_away(rt, pool, program);
    gate.ends.store(true, Ordering::SeqCst);
    pool.wake_all();
    (ended, left)
}

/// Workers and mover on threads of their own, beside the one that has objects leave.
fn run_moves<K: TableName + Send + Sync, R: Threads + Wait + Sync>(
    rt: &R,
    gate: &Crowd,
    pool: &Pool<OwnStore, K>,
    served: &mut Mover<OwnStore, K>,
    program: Program,
) -> (usize, (bool, bool)) {
    thread::scope(
        thread::scope_env(),
        rt,
        |scope| -> (usize, (bool, bool))
            requires { IsSync R.row }
        {
            let Ok(driver) = scope.spawn(move || drive(rt, gate, pool, program)) else {
                return (0, (false, false));
            };
            let made = run_all(rt, gate, pool, served, 2, Upkeep::none());
            (made, driver.join(rt))
        },
    )
}

/// Whether an object is far, now that it is asked to leave.
pub fn goes_away<F: FarStore, K: TableName>(
    pool: &Pool<F, K>,
    served: &mut Mover<F, K>,
    number: u32,
) -> bool {
    match served.one(pool, number, Direction::Leave) {
        Moved::Done | Moved::Misplaced(Place::Far) => true,
        _ => false,
    }
}

/// The number for which the parcel of an object stands.
fn sum_of<F: FarStore>(store: &mut F, parcels: &[Option<F::Parcel>], number: usize) -> Option<u64> {
    let parcel = parcels.get(number)?.as_ref()?;
    let bytes = store.get(parcel).ok()?;
    Some(u64::from_le_bytes(bytes.as_slice().try_into().ok()?))
}

/// Which numbers the far store has of both objects.
fn sums_of<K: TableName>(served: Mover<OwnStore, K>) -> [Option<u64>; 2] {
    let (_seat, mut store, parcels) = served.into_parts();
    let first = sum_of(&mut store, parcels.as_slice(), 1);
    let second = sum_of(&mut store, parcels.as_slice(), 2);
    [first, second]
}

/// Both objects leave, and then workers and mover run.
pub fn moves<K: TableName + Send + Sync, R: Threads + Wait + Sync>(
    rt: &R,
    alloc: Global,
    pool: &Pool<OwnStore, K>,
    mover: MoverSeat,
) -> Result<MovesLeft, Fail>
    requires { (mover.seat.table_id ≡ K.table) × (mover.seat.me.0 ≡ seated K.seats (dealer true K.opening)) }
{
    let program = program(alloc, LOOKING)?;
    let mut served: Mover<OwnStore, K> = Mover::new(alloc, mover, OwnStore::new(alloc))?;
    goes_away(pool, &mut served, 1);
    goes_away(pool, &mut served, 2);
    let gate = Crowd::new();
    let (made, (ended, left)) = run_moves(rt, &gate, pool, &mut served, program);
    let far = [
        goes_away(pool, &mut served, 1),
        goes_away(pool, &mut served, 2),
    ];
    Ok(MovesLeft {
        made,
        ended,
        left,
        far,
        sums: sums_of(served),
        met: gate.met.load(Ordering::SeqCst),
        told: gate.ended.load(Ordering::SeqCst),
    })
}

/// Both objects are far at first, so that the machines come to their ends only where the mover brings them back.
#[test]
fn machines_add_while_objects_leave_and_return(rt: HostRuntime) -> Result<(), Fail> {
    let left = left_of(
        &rt,
        rt.alloc(),
        &[adding(1, 2), adding(10, 20)],
        Course::Moves,
    )?;
    let wanted = MovesLeft {
        made: 3,
        ended: true,
        left: true,
        far: [true; 2],
        sums: [Some(11 * TIMES), Some(22 * TIMES)],
        met: false,
        told: 3,
    };
    same!(rt; left, Left::Moves(wanted));
    Ok(())
}
