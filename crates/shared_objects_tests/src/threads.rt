//! Threads that add to the same objects, while bodies come and go.
ghost use Rattle.std.specs.Prelude.{◌≡◌, length, All, IfOk};
ghost use Rattle.shared_objects.specs.Tables.{IsActorOf, IsMoverOf};
ghost use Rattle.shared_objects_tests.specs.Stages.{AreSeatsOf};
ghost use denote.Param.Send.{IsSync};

use crate::compared::same;
use crate::stage::{add, goes_and_returns, number_of};
use far_store::OwnStore;
use memory::Reach;
use shared_objects::{ActorSeat, MoverSeat, Shared, SharedTable};
use std::alloc::AllocError;
use std::test::Fail;
use std::thread::{Threads, join, map_vec, yield_now};
use test_devices::objects;

/// How often an actor tries at most, in all.
const TRIES: u32 = 500_000;

/// Adds 1 so many times to each of so many objects, in turn. Where one isn't done it is tried again.
fn add_all(table: &SharedTable, mut actor: ActorSeat, objects: u32, times: u32) -> ActorSeat
    requires { IsActorOf table.now actor }
    ensures { IsActorOf table.now result }
{
    let mut left = objects.saturating_mul(times);
    for _ in 0..TRIES {
        if left == 0 {
            break;
        }
        match table.touch(&mut actor, left % objects.max(1) + 1, &add(1)) {
            Reach::Done(_) => left -= 1,
            Reach::Away => {
                table.close_scopes(&mut actor);
                yield_now();
            }
            _ => yield_now(),
        }
    }
    table.close_scopes(&mut actor);
    actor
}

/// Two actors add 1 to object 1, 1000 times each.
fn by_two<R: Threads + Sync>(
    rt: &R,
    table: &SharedTable,
    one: ActorSeat,
    two: ActorSeat,
) -> (ActorSeat, ActorSeat)
    requires { IsActorOf table.now one × IsActorOf table.now two }
    ensures { IsActorOf table.now result.0 × IsActorOf table.now result.1 }
{
    join(
        rt,
        || -> ActorSeat
            requires { IsActorOf table.now one }
            ensures { IsActorOf table.entry.now result }
        { add_all(table, one, 1, 1000) },
        || -> ActorSeat
            requires { IsActorOf table.now two }
            ensures { IsActorOf table.entry.now result }
        { add_all(table, two, 1, 1000) },
    )
}

#[test]
fn two_threads_add(rt: HostRuntime) -> Result<(), Fail> {
    let bodies = objects(rt.alloc(), 1, 8)?;
    let (shared, mut actors, mover): (Shared<OwnStore>, Vec<ActorSeat>, MoverSeat) = Shared::open(
        rt.alloc(),
        bodies,
        2,
    )?;
    let two = actors.remove(1);
    let one = actors.remove(0);
    let (one, two) = by_two(&rt, shared.table(), one, two);
    same!(rt; one.stamp().max(two.stamp()), 2000);
    actors.push(one)?;
    actors.push(two)?;
    let ended = shared.close(actors, mover)?;
    same!(rt; number_of(&ended[1]), Some(2000));
    Ok(())
}

/// Looks at object 1 again and again: the seat, and whether each word was one that the object may have, with a stamp that never
/// falls.
fn look_all(table: &SharedTable, mut actor: ActorSeat) -> (ActorSeat, bool)
    requires { IsActorOf table.now actor }
    ensures { IsActorOf table.now result.0 }
{
    if table.length(1) == 0 {
        return (actor, false);
    }
    let mut last = 0;
    let mut fits = true;
    for _ in 0..20_000 {
        let word = table.look(&mut actor, 1);
        fits = fits && word >> 16 >= last && word % 4 == 0 && word >> 8 & 0xff <= 2;
        last = word >> 16;
    }
    (actor, fits)
}

/// Two actors add to object 1, while a third one looks at it.
fn by_three<R: Threads + Sync>(
    rt: &R,
    table: &SharedTable,
    one: ActorSeat,
    two: ActorSeat,
    three: ActorSeat,
) -> ((ActorSeat, ActorSeat), (ActorSeat, bool))
    requires { IsActorOf table.now one × IsActorOf table.now two × IsActorOf table.now three }
    ensures { IsActorOf table.now result.0.0 × IsActorOf table.now result.0.1 × IsActorOf table.now result.1.0 }
{
    join(
        rt,
        || -> (ActorSeat, ActorSeat)
            requires { IsSync R.row × IsActorOf table.now one × IsActorOf table.now two }
            ensures { IsActorOf table.entry.now result.0 × IsActorOf table.entry.now result.1 }
        { by_two(rt, table, one, two) },
        || -> (ActorSeat, bool)
            requires { IsActorOf table.now three }
            ensures { IsActorOf table.entry.now result.0 }
        { look_all(table, three) },
    )
}

#[test]
fn a_look_while_two_threads_add_finds_rising_stamps(rt: HostRuntime) -> Result<(), Fail> {
    let bodies = objects(rt.alloc(), 1, 8)?;
    let (shared, mut actors, mover): (Shared<OwnStore>, Vec<ActorSeat>, MoverSeat) = Shared::open(
        rt.alloc(),
        bodies,
        3,
    )?;
    let three = actors.remove(2);
    let two = actors.remove(1);
    let one = actors.remove(0);
    let ((one, two), (mut three, fits)) = by_three(&rt, shared.table(), one, two, three);
    same!(rt; fits, true);
    same!(rt; shared.table().length(1), 8);
    if shared.table().length(1) > 0 {
        same!(rt; shared.table().look(&mut three, 1), 2000 * 65_536 + 8);
    }
    actors.push(one)?;
    actors.push(two)?;
    actors.push(three)?;
    let ended = shared.close(actors, mover)?;
    same!(rt; number_of(&ended[1]), Some(2000));
    Ok(())
}

/// How many objects the eight threads have, and how often each adds to each of them.
const OBJECTS: u32 = 4;

const TIMES: u32 = 250;

/// Moves each object there and back, again and again: the seat, and whether one went.
fn move_all(table: &SharedTable, mut mover: MoverSeat) -> (MoverSeat, bool)
    requires { IsMoverOf table.now mover }
    ensures mover { IsMoverOf table.now result.0 }
    ensures others { (result.0.seat.me.0.gathered ≡ mover.seat.me.0.gathered) × (result.0.seat.me.0.alive ≡ mover.seat.me.0.alive) }
{
    let mut went = false;
    for round in 0..20_000 {
        if goes_and_returns(table, &mut mover, round % OBJECTS + 1) {
            went = true;
        }
        yield_now();
    }
    (mover, went)
}

/// Each actor on a thread of its own.
fn by_each<R: Threads + Sync>(
    rt: &R,
    table: &SharedTable,
    actors: Vec<ActorSeat>,
) -> Result<Vec<ActorSeat>, AllocError>
    requires { All (IsActorOf table.now) actors.items }
    ensures { IfOk result (λ v. All (IsActorOf table.now) v.items × (length v.items ≡ length actors.items)) }
{
    map_vec(
        rt,
        actors,
        &|actor: ActorSeat| -> ActorSeat
            requires { IsActorOf table.now actor }
            ensures { IsActorOf table.entry.now result }
        { add_all(table, actor, OBJECTS, TIMES) },
    )
}

/// All actors add while the mover moves.
fn by_all<R: Threads + Sync>(
    rt: &R,
    table: &SharedTable,
    actors: Vec<ActorSeat>,
    mover: MoverSeat,
) -> (Result<Vec<ActorSeat>, AllocError>, (MoverSeat, bool))
    requires { AreSeatsOf table.now actors.items mover }
    ensures { IfOk result.0 (λ v. AreSeatsOf table.now v.items result.1.0) }
{
    join(
        rt,
        || -> Result<Vec<ActorSeat>, AllocError>
            requires { IsSync R.row × All (IsActorOf table.now) actors.items }
            ensures { IfOk result (λ v. All (IsActorOf table.entry.now) v.items × (length v.items ≡ length actors.items)) }
        { by_each(rt, table, actors) },
        || -> (MoverSeat, bool)
            requires { IsMoverOf table.now mover }
            ensures mover { IsMoverOf table.entry.now result.0 }
            ensures others { (result.0.seat.me.0.gathered ≡ mover.seat.me.0.gathered) × (result.0.seat.me.0.alive ≡ mover.seat.me.0.alive) }
        { move_all(table, mover) },
    )
}

#[test]
fn eight_threads_add_while_bodies_move(rt: HostRuntime) -> Result<(), Fail> {
    let bodies = objects(rt.alloc(), 4, 8)?;
    let (shared, actors, mover): (Shared<OwnStore>, Vec<ActorSeat>, MoverSeat) = Shared::open(
        rt.alloc(),
        bodies,
        8,
    )?;
    let (actors, (mover, went)) = by_all(&rt, shared.table(), actors, mover);
    let ended = shared.close(actors?, mover)?;
    for number in 1..5 {
        same!(rt; number_of(&ended[number]), Some(2000));
    }
    same!(rt; went, true);
    Ok(())
}
