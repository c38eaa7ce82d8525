//! One machine, run by one worker until it stops.
ghost use Rattle.std.specs.Prelude.{◌≡◌, ◌≤◌, length, All, IfOk, IfSome};
ghost use Rattle.shared_objects.specs.Opened.{AreFresh, IsActorOf, dealer};
ghost use Rattle.workers.specs.Pools.{IsTableOf, each_passed, machines_of};

use debugger::{Debuggee, Start};
use far_store::{FarStore, OwnStore};
use loader::load;
use shared_objects::{ActorSeat, MoverSeat, Shared};
use std::alloc::{AllocError, Global};
use std::marker::Brand;
use std::sync::Wait;
use test_gates::UntoldRounds;
use workers::{Pool, TURN_LIMIT, TableName, work};

/// The address of the object.
const OBJECT: u64 = 0x0000_0001_0000_0000;

/// How many bytes it has.
const LENGTH: usize = 64;

/// The object, of zeros.
fn bodies(alloc: Global) -> Result<Vec<Vec<u8>>, AllocError>
    ensures { IfOk result (λ v. length v.items ≡ 1) }
{
    Ok(vec![in alloc; vec![in alloc; 0u8; LENGTH]?]?)
}

/// The machine of the code, if it can be loaded.
fn machines(alloc: Global, fuel: u64, code: &str) -> Option<Vec<Debuggee>>
    ensures { IfSome result (λ v. length v.items ≡ 1) }
{
    let bytes = hex::decode(alloc, code).ok()?;
    let program = load(alloc, bytes.as_slice()).ok()?;
    let one = Debuggee::new(program, 1, Start::new(fuel, [OBJECT, 1, 2, 3, 4]));
    vec![in alloc; one].ok()
}

/// One worker has so many turns.
fn run<F: FarStore, K: TableName, R: Wait>(
    rt: &R,
    alloc: Global,
    shared: Shared<F>,
    seats: Vec<ActorSeat>,
    machines: Vec<Debuggee>,
    turns: u64,
) -> Result<(), AllocError>
    requires table { IsTableOf K.table K.opening shared.table }
    requires seats { AreFresh (dealer F.RETURNS K.opening) seats.items × All (IsActorOf shared.table) seats.items }
    requires machines { K.starts ≡ machines_of machines.items }
    requires lent { K.passed ≡ each_passed }
    requires room { length machines.items ≤ length seats.items }
{
    let pool: Pool<F, K> = Pool::new(rt, alloc, shared, seats, machines)?;
    work(rt, &UntoldRounds::new(turns), &pool, 0);
    Ok(())
}

/// How many turns a worker has for the machine of the code, which is written in hex, with so much fuel, R1 at an object of 64
/// bytes, and 1 to 4 in R2 to R5.
pub fn done<R: Wait>(rt: &R, alloc: Global, fuel: u64, code: &str) -> Option<u64> {
    let machines = machines(alloc, fuel, code)?;
    let bodies = bodies(alloc).ok()?;
    let (shared, seats, _) = Shared::<OwnStore>::open(alloc, bodies, 1).ok()?;
    let turns = fuel / TURN_LIMIT as u64 + 1;
    run::<OwnStore, Brand, _>(rt, alloc, shared, seats, machines, turns).ok()?;
    Some(turns)
}
