//! Two threads that wait for one another. Expected answers are worked out by hand.
ghost use Rattle.shared_objects.specs.Tables.{IsActorOf, IsMoverOf};

use crate::compared::same;
use crate::stage::{LOAD, Stage, add, may_leave, stays_far};
use far_store::OwnStore;
use memory::Reach;
use shared_objects::{ActorSeat, Denied, MoverSeat, SharedTable};
use std::sync::atomic::{AtomicU64, Ordering};
use std::test::Fail;
use std::thread::{Threads, join, yield_now};

/// How often one thread looks at most whether the other has come so far.
const LOOKS: u32 = 1_000_000;

/// Waits until the other thread has told this number, or a greater one, and gives what it told.
fn wait_for(told: &AtomicU64, number: u64) -> u64 {
    for _ in 0..LOOKS {
        let found = told.load(Ordering::SeqCst);
        if found >= number {
            return found;
        }
        yield_now();
    }
    0
}

/// Adds 1 three times, and closes its scopes once the mover has tried to take the body.
fn add_thrice(table: &SharedTable, mut actor: ActorSeat, told: &AtomicU64) -> [Reach; 3]
    requires { IsActorOf table.now actor }
{
    let first = table.touch(&mut actor, 1, &add(1));
    let second = table.touch(&mut actor, 1, &add(1));
    let third = table.touch(&mut actor, 1, &add(1));
    told.store(1, Ordering::SeqCst);
    wait_for(told, 2);
    table.close_scopes(&mut actor);
    told.store(3, Ordering::SeqCst);
    [first, second, third]
}

/// Whether the body may leave while the actor has it open, and whether it may once all scopes are closed.
fn leave_twice(table: &SharedTable, mut mover: MoverSeat, told: &AtomicU64) -> [bool; 2]
    requires { IsMoverOf table.now mover }
{
    wait_for(told, 1);
    let first = may_leave(table, &mut mover, 1);
    told.store(2, Ordering::SeqCst);
    wait_for(told, 3);
    let second = may_leave(table, &mut mover, 1);
    [first, second]
}

fn one_beside<R: Threads + Sync>(
    rt: &R,
    table: &SharedTable,
    actor: ActorSeat,
    mover: MoverSeat,
) -> ([Reach; 3], [bool; 2])
    requires { IsActorOf table.now actor × IsMoverOf table.now mover }
{
    let told = AtomicU64::new(0);
    join(
        rt,
        || -> [Reach; 3]
            requires { IsActorOf table.now actor }
        { add_thrice(table, actor, &told) },
        || -> [bool; 2]
            requires { IsMoverOf table.now mover }
        { leave_twice(table, mover, &told) },
    )
}

#[test]
fn one_actor(rt: HostRuntime) -> Result<(), Fail> {
    let Stage {
        shared,
        mut actors,
        mover,
    }: Stage<OwnStore> = Stage::open(rt.alloc(), 1, 1)?;
    let actor = actors.remove(0);
    let (sums, left) = one_beside(&rt, shared.table(), actor, mover);
    same!(rt; sums, [Reach::Done(0), Reach::Done(1), Reach::Done(2)]);
    same!(rt; left, [false, true]);
    Ok(())
}

/// Reads object 2, writes 7 into object 1, and tells its stamp.
fn write_seven(
    table: &SharedTable,
    mut actor: ActorSeat,
    told: &AtomicU64,
) -> (Reach, Result<(), Denied>)
    requires { IsActorOf table.now actor }
{
    let read = table.touch(&mut actor, 2, &LOAD);
    let written = table.put(&mut actor, 1, 0, &[7]);
    told.store(actor.stamp(), Ordering::SeqCst);
    (read, written)
}

/// What object 1 has once a stamp was told and learnt, that stamp, and the one of the read.
fn read_seven(table: &SharedTable, mut actor: ActorSeat, told: &AtomicU64) -> (Reach, u64, u64)
    requires { IsActorOf table.now actor }
{
    let stamp = wait_for(told, 1);
    actor.learn(stamp);
    let found = table.touch(&mut actor, 1, &LOAD);
    (found, stamp, actor.stamp())
}

fn read_beside<R: Threads + Sync>(
    rt: &R,
    table: &SharedTable,
    one: ActorSeat,
    two: ActorSeat,
) -> ((Reach, Result<(), Denied>), (Reach, u64, u64))
    requires { IsActorOf table.now one × IsActorOf table.now two }
{
    let told = AtomicU64::new(0);
    join(
        rt,
        || -> (Reach, Result<(), Denied>)
            requires { IsActorOf table.now one }
        { write_seven(table, one, &told) },
        || -> (Reach, u64, u64)
            requires { IsActorOf table.now two }
        { read_seven(table, two, &told) },
    )
}

#[test]
fn read_back(rt: HostRuntime) -> Result<(), Fail> {
    let Stage {
        shared,
        mut actors,
        mover: _,
    }: Stage<OwnStore> = Stage::open(rt.alloc(), 2, 2)?;
    let two = actors.remove(1);
    let one = actors.remove(0);
    let ((seen, written), (read, stamp, later)) = read_beside(&rt, shared.table(), one, two);
    same!(rt; seen, Reach::Done(0));
    same!(rt; written, Ok(()));
    same!(rt; read, Reach::Done(7));
    same!(rt; stamp, 2);
    same!(rt; later, 3);
    Ok(())
}

/// The body leaves and comes home as it was; once the actor has closed its scopes it goes far, and its return is undone.
fn move_twice(table: &SharedTable, mut mover: MoverSeat, told: &AtomicU64) -> [bool; 2]
    requires { IsMoverOf table.now mover }
{
    let first = may_leave(table, &mut mover, 1);
    told.store(1, Ordering::SeqCst);
    wait_for(told, 2);
    let second = stays_far(table, &mut mover, 1);
    told.store(3, Ordering::SeqCst);
    [first, second]
}

/// What the actor reads after each of these moves.
fn read_twice(table: &SharedTable, mut actor: ActorSeat, told: &AtomicU64) -> [Reach; 2]
    requires { IsActorOf table.now actor }
{
    wait_for(told, 1);
    let first = table.touch(&mut actor, 1, &LOAD);
    table.close_scopes(&mut actor);
    told.store(2, Ordering::SeqCst);
    wait_for(told, 3);
    let second = table.touch(&mut actor, 1, &LOAD);
    [first, second]
}

fn undo_beside<R: Threads + Sync>(
    rt: &R,
    table: &SharedTable,
    actor: ActorSeat,
    mover: MoverSeat,
) -> ([bool; 2], [Reach; 2])
    requires { IsActorOf table.now actor × IsMoverOf table.now mover }
{
    let told = AtomicU64::new(0);
    join(
        rt,
        || -> [bool; 2]
            requires { IsMoverOf table.now mover }
        { move_twice(table, mover, &told) },
        || -> [Reach; 2]
            requires { IsActorOf table.now actor }
        { read_twice(table, actor, &told) },
    )
}

#[test]
fn undo(rt: HostRuntime) -> Result<(), Fail> {
    let mut stage: Stage<OwnStore> = Stage::open(rt.alloc(), 1, 1)?;
    same!(rt; stage.touch(0, 1, &add(5)), Reach::Done(0));
    stage.close_scopes(0);
    let Stage {
        shared,
        mut actors,
        mover,
    } = stage;
    let actor = actors.remove(0);
    let (moved, read) = undo_beside(&rt, shared.table(), actor, mover);
    same!(rt; moved, [true, true]);
    same!(rt; read, [Reach::Done(5), Reach::Away]);
    Ok(())
}
