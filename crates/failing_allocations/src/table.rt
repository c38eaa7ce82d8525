//! A table of three shared objects, which four actors touch, and which is read and closed.
ghost use Rattle.std.specs.Prelude.{◌≡◌, ◌<◌, All, length, IfOk};
ghost use Rattle.shared_objects.specs.Tables.{IsActorOf};

use far_store::OwnStore;
use isa_table::Size;
use memory::{Action, Op, Reach};
use pointer_word::STAMP_LIMIT;
use shared_objects::{ActorSeat, GetError, MoverSeat, ObjectEnd, OpenFault, Shared, SharedTable};
use std::alloc::{AllocError, Global};

/// Eight bytes, read.
const LOAD: Op = Op {
    offset: 0,
    action: Action::Load { size: Size::Double },
};

/// Three bodies of eight bytes.
fn bodies(alloc: Global) -> Result<Vec<Vec<u8>>, AllocError>
    ensures { IfOk result (λ v. length v.items ≡ 3) }
{
    Ok(vec![in alloc;
        vec![in alloc; 0u8; 8]?,
        vec![in alloc; 0u8; 8]?,
        vec![in alloc; 0u8; 8]?,
    ]?)
}

/// What an actor is answered that touches an object, and the stamp that it has seen then.
fn touch(table: &SharedTable, actors: &mut Vec<ActorSeat>, who: usize, number: u32) -> (Reach, u64)
    requires seats { All (IsActorOf table.now) actors.old.items }
    requires who { who < length actors.old.items }
    ensures seats { All (IsActorOf table.now) actors.new.items }
    ensures count { length actors.new.items ≡ length actors.old.items }
{
    let reach = table.touch(&mut actors[who], number, &LOAD);
    (reach, actors[who].stamp())
}

/// Lets an actor see a stamp.
fn learn(actors: &mut Vec<ActorSeat>, _table: &SharedTable, who: usize, stamp: u64)
    requires seats { All (IsActorOf _table.now) actors.old.items }
    requires who { who < length actors.old.items }
    ensures seats { All (IsActorOf _table.now) actors.new.items }
    ensures count { length actors.new.items ≡ length actors.old.items }
{
    actors[who].learn(stamp);
}

/// Whether four actors get the stamps that they should.
fn are_stamped(table: &SharedTable, actors: &mut Vec<ActorSeat>) -> bool
    requires seats { All (IsActorOf table.now) actors.old.items }
    requires count { length actors.old.items ≡ 4 }
    ensures seats { All (IsActorOf table.now) actors.new.items }
    ensures count { length actors.new.items ≡ 4 }
{
    let first = touch(table, actors, 0, 1);
    let second = touch(table, actors, 1, 1);
    let third = touch(table, actors, 1, 2);
    let fourth = touch(table, actors, 0, 2);
    learn(actors, table, 2, 9);
    let fifth = touch(table, actors, 2, 3);
    learn(actors, table, 3, STAMP_LIMIT);
    let sixth = touch(table, actors, 3, 3);
    let done = Reach::Done(0);
    first == (done, 1)
        && second == (done, 2)
        && third == (done, 3)
        && fourth == (done, 4)
        && fifth == (done, 10)
        && sixth == (Reach::Worn, STAMP_LIMIT)
}

/// How a range was read that was written before.
#[derive(Clone, Copy, Drop)]
enum Reading {
    Done,
    /// At the second try, since there was no memory at the first.
    DoneAgain,
    Wrong,
}

/// How a table closed.
#[derive(Clone, Copy, Drop)]
enum End {
    Done,
    Wrong,
    Refused,
}

/// How reading a range went that was written before.
fn read(table: &SharedTable, actor: &mut ActorSeat) -> Reading
    requires { IsActorOf table.now actor.old }
    ensures { IsActorOf table.now actor.new }
{
    let _ = table.put(actor, 1, 0, &[7]);
    match table.get(actor, 1, 0, 2) {
        Ok(bytes) if is_seven(&bytes) => Reading::Done,
        Ok(_) | Err(GetError::Denied(_)) => Reading::Wrong,
        Err(GetError::Memory) => match table.get(actor, 1, 0, 2) {
            Ok(bytes) if is_seven(&bytes) => Reading::DoneAgain,
            _ => Reading::Wrong,
        },
    }
}

/// Whether these are the bytes that were written.
fn is_seven(bytes: &Vec<u8>) -> bool {
    bytes.as_slice() == [7, 0].as_slice()
}

/// How closing went.
fn closing(ended: Result<Vec<ObjectEnd>, AllocError>) -> End {
    match ended {
        Ok(ended)
            if ended.len() == 4 && ended.iter().all(|one| matches!(one, ObjectEnd::Here(_))) => {
            End::Done
        }
        Ok(_) => End::Wrong,
        Err(_) => End::Refused,
    }
}

/// How the reading went, and how the closing; or what there wasn't.
pub fn run(alloc: Global) -> &'static str {
    let Ok(bodies) = bodies(alloc) else {
        return "no bodies";
    };
    let opened: Result<(Shared<OwnStore>, Vec<ActorSeat>, MoverSeat), OpenFault> = Shared::open(
        alloc, bodies, 4,
    );
    let Ok((shared, mut actors, mover)) = opened else {
        return "no table";
    };
    if !are_stamped(shared.table(), &mut actors) {
        return "other stamps";
    }
    let reading = read(shared.table(), &mut actors[0]);
    match (reading, closing(shared.close(actors, mover))) {
        (Reading::Done, End::Done) => "opened, read, closed",
        (Reading::DoneAgain, End::Done) => "opened, read again, closed",
        (Reading::Done, End::Refused) => "opened, read, not closed",
        _ => "opened, and read or closed wrongly",
    }
}
