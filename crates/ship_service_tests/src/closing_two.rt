//! A service closes that two workers and a mover ran on threads of their own.
ghost use Rattle.std.specs.Prelude.{◌≡◌, ◌≤◌, length, All};
ghost use Rattle.shared_objects.specs.Kinds.{dealer};
ghost use Rattle.shared_objects.specs.Opened.{AreFresh, seated};
ghost use Rattle.shared_objects.specs.Tables.{IsActorOf};
ghost use Rattle.workers.specs.Cells.{IsSeatOf, IsTableOf};
ghost use Rattle.workers.specs.TableNames.{each_passed};
ghost use Rattle.workers.specs.Pools.{machines_of};
ghost use denote.Param.Send.{IsSend, IsSync};

use crate::closing::{Parts, Service, closed_of, fetched, service_of};
use crate::compared::same;
use crate::stage::{last_seat, machine};
use crate::tools::{LOOKS, Talk, Tools, UntilEnd, ask, has_exit, rest};
use crate::watching::watches;
use far_store::{FarStore, OwnStore};
use shared_objects::{ObjectEnd, Shared};
use ship_service::{Closed, Connection};
use std::alloc::{AllocError, Global};
use std::marker::Brand;
use std::sync::atomic::{AtomicBool, Ordering};
use std::sync::{Mutex, Wait};
use std::test::Fail;
use std::thread::{self, Threads, yield_now};
use workers::{Mover, TableName, Upkeep, mover, work};

/// aadd [r1], r2 · call 4 · add r3, -1 · jne r3, 0, -4 · exit: between two additions the object may leave
const ADDS: &[u64] = &[
    0xdb21_0000_0000_0000,
    0x8500_0000_0400_0000,
    0x0703_0000_ffff_ffff,
    0x5503_fcff_0000_0000,
    0x9500_0000_0000_0000,
];

/// More than so many additions take.
const FUEL: u64 = 100_000;

/// The address of object 1.
const OBJECT: u64 = 0x0000_0001_0000_0000;

/// Asks for a machine's registers until it has stopped by `exit`, and says whether it has.
fn waits_for_exit<R: Wait, F: FarStore, K: TableName>(tools: &Tools<R, F, K>, said: &[u8]) -> bool {
    for _ in 0..LOOKS {
        if has_exit(&ask(tools, said)) {
            return true;
        }
        rest();
    }
    false
}

/// Asks 20 times that object 1 leaves, and then waits until both machines have stopped by `exit`.
fn leaves<R: Wait, F: FarStore, K: TableName>(tools: &Tools<R, F, K>) -> bool {
    for _ in 0..20 {
        let _told = ask(tools, b"leave 1\n");
        yield_now();
    }
    waits_for_exit(tools, b"regs 1\n") && waits_for_exit(tools, b"regs 2\n")
}

/// Says what is to be said, and tells whether it was answered as it should be and both machines have ended.
fn converses<R: Wait, F: FarStore, K: TableName>(tools: &Tools<R, F, K>) -> bool {
    match tools.talk {
        Talk::Leaves => leaves(tools),
        Talk::Watches => watches(tools),
    }
}

fn serve_moves<R: Wait, F: FarStore, K: TableName>(
    tools: &Tools<R, F, K>,
    served: &mut Mover<F, K>,
) {
    mover(
        tools.rt,
        tools.gate,
        tools.agent.pool(),
        served,
        Upkeep::none(),
    );
}

/// Runs two workers while the connection converses, and says whether both came and both machines ended.
fn run_workers<F: FarStore + Send + Sync, K: TableName + Send + Sync, R: Threads + Wait + Sync>(
    tools: &Tools<R, F, K>,
) -> bool
where
    F::Parcel: Send,
{
    thread::scope(
        thread::scope_env(),
        tools.rt,
        |scope| -> bool
            requires { IsSync R.row }
        {
            let mut made: usize = 0;
            for worker in 0..2 {
                if scope
                    .spawn(move || work(tools.rt, tools.gate, tools.agent.pool(), worker))
                    .is_ok()
                {
                    made = made.wrapping_add(1);
                }
            }
            let ended = converses(tools);
            tools.gate.ended.store(true, Ordering::SeqCst);
            tools.agent.pool().wake_all();
            made == 2 && ended
        },
    )
}

/// Runs the mover, too.
fn run<F: FarStore + Send + Sync, K: TableName + Send + Sync, R: Threads + Wait + Sync>(
    tools: &Tools<R, F, K>,
    served: &mut Mover<F, K>,
) -> bool
where
    F::Parcel: Send,
{
    let served = &mut *served;
    thread::scope(
        thread::scope_env(),
        tools.rt,
        |scope| -> bool
            requires { IsSend F.row × IsSend K.row × IsSend F.Parcel.row × IsSync R.row }
        {
            let moves = scope.spawn(move || serve_moves(tools, served)).is_ok();
            let ended = run_workers(tools);
            moves && ended
        },
    )
}

/// The number that eight bytes are.
fn number_of(bytes: &[u8]) -> Option<u64> {
    Some(u64::from_le_bytes(bytes.try_into().ok()?))
}

/// The number that the bytes of object 1 are, here or from the far store, which is asked again where it first gives another length.
fn count_of_one<F: FarStore>(alloc: Global, closed: &mut Closed<F>) -> Option<u64> {
    if let Some(ObjectEnd::Here(bytes)) = closed.object(1) {
        return number_of(bytes);
    }
    let count = number_of(&fetched(alloc, closed));
    if count.is_some() {
        return count;
    }
    number_of(&fetched(alloc, closed))
}

/// Runs and closes a service: the number that object 1 is then, or none, unless workers and mover came and all was answered as it
/// should be.
fn close_after<
    F: FarStore + Drop + Send + Sync,
    K: TableName + Send + Sync,
    R: Threads + Wait + Sync,
>(rt: &R, alloc: Global, parts: Parts<F>, talk: Talk) -> Result<Option<u64>, AllocError>
where
    F::Parcel: Send,
    requires table { IsTableOf K.table K.opening parts.shared.table }
    requires seats { AreFresh (dealer F.RETURNS K.opening) parts.seats.items × All (IsActorOf parts.shared.table) parts.seats.items
        × (length parts.seats.items ≡ 48) }
    requires machines { (K.starts ≡ machines_of parts.machines.items) × (length parts.machines.items ≤ 48) }
    requires lent { K.passed ≡ each_passed }
    requires connection { IsSeatOf K.table K.opening parts.connection }
    requires mover { (parts.mover.seat.table_id ≡ K.table) × (parts.mover.seat.me.0 ≡ seated K.seats (dealer F.RETURNS K.opening)) }
    requires all { K.seats ≡ 49 }
{
    let Service::<F, K> {
        agent,
        connection,
        mut served,
    } = service_of(rt, alloc, parts)?;
    let connection: Mutex<Connection<K>> = Mutex::new(connection);
    let gate = UntilEnd {
        ended: AtomicBool::new(false),
    };
    let tools = Tools {
        rt,
        alloc,
        gate: &gate,
        agent: &agent,
        connection: &connection,
        talk,
    };
    let ended = run(&tools, &mut served);
    let mut closed = closed_of(alloc, agent, connection.into_inner(), served)?;
    if !ended {
        return Ok(None);
    }
    Ok(count_of_one(alloc, &mut closed))
}

/// The number that object 1 is when two machines have each added 1 to it so many times, and a service over this far store has closed.
pub fn close_over<F: FarStore + Drop + Send + Sync, R: Threads + Wait + Sync>(
    rt: &R,
    alloc: Global,
    store: F,
    talk: Talk,
    times: u64,
) -> Result<Option<u64>, Fail>
where
    F::Parcel: Send,
{
    let first = machine(alloc, 1, ADDS, FUEL, [OBJECT, 1, times, 0, 0])?;
    let second = machine(alloc, 2, ADDS, FUEL, [OBJECT, 1, times, 0, 0])?;
    let machines = Vec::from_array(alloc, [first, second])?;
    let bodies = Vec::from_array(alloc, [vec![in alloc; 0u8; 8]?])?;
    let (shared, mut seats, mover) = Shared::<F>::open(alloc, bodies, 49)?;
    let Some(connection) = last_seat(&shared, &mut seats) else {
        return Err(Fail::from(AllocError));
    };
    let parts = Parts {
        shared,
        machines,
        seats,
        connection,
        mover,
        store,
    };
    Ok(close_after::<F, Brand, R>(rt, alloc, parts, talk)?)
}

/// The same of a service over a store of its own, whose connection asks 20 times that object 1 leaves.
fn close_after_leaves<R: Threads + Wait + Sync>(
    rt: &R,
    alloc: Global,
    times: u64,
) -> Result<Option<u64>, Fail> {
    close_over(rt, alloc, OwnStore::new(alloc), Talk::Leaves, times)
}

#[test]
fn close_two(rt: HostRuntime) -> Result<(), Fail> {
    same!(rt; close_after_leaves(&rt, rt.alloc(), 100)?, Some(200));
    Ok(())
}

#[test]
fn two_machines_add_often_while_their_object_leaves(rt: HostRuntime) -> Result<(), Fail> {
    same!(rt; close_after_leaves(&rt, rt.alloc(), 10_000)?, Some(20_000));
    Ok(())
}
