//! Which objects leave to make room. There are three of eight bytes, unless a test says otherwise.

use crate::compared::same;
use crate::trial::{Act, Answer, DONE, LEFT, Left, Row, tried, tried_with_three};
use debugger::StepReply::Ran;
use far_store::{Failing, OwnStore};
use shared_objects::Phase;
use std::test::Fail;
use workers::{Direction, Looked, Moved, Place};

const ROOM: Answer = Answer::Requested(true);

/// It is far, and stays so.
const FAR: Answer = Answer::Looked(Looked::Cold(Moved::Misplaced(Place::Far)));

const FIRST_RETURNS: Act = Act::Request(1, Direction::Return);

/// Object 1 is far. Machine 2 has used object 2, and closed its scope.
const NONE_USED: &[Row] = &[
    (Act::Leave(1), DONE),
    (FIRST_RETURNS, ROOM),
    (Act::Keeps(1, 16), Answer::Kept([1, 0, 8, 8])),
];

const ONE_USED: &[Row] = &[
    (Act::Leave(1), DONE),
    (Act::Step(2), Answer::Replied(Ran(1))),
    (Act::Step(2), Answer::Replied(Ran(2))),
    (FIRST_RETURNS, ROOM),
    (Act::Keeps(1, 16), Answer::Kept([1, 0, 8, 8])),
];

/// The mover has looked at object 2 before.
const ONE_SEEN: &[Row] = &[
    (Act::Leave(1), DONE),
    (Act::LookPast, FAR),
    (Act::Step(2), Answer::Replied(Ran(1))),
    (Act::Step(2), Answer::Replied(Ran(2))),
    (Act::LookPast, Answer::Looked(Looked::Hot)),
    (FIRST_RETURNS, ROOM),
    (Act::Keeps(1, 16), Answer::Kept([1, 0, 8, 8])),
    (Act::Leave(1), DONE),
    (FIRST_RETURNS, ROOM),
    (Act::Keeps(1, 8), Answer::Kept([1, 0, 8, 8])),
];

/// Object 3, which nobody used, is far.
const THIRD_FAR: Left = Left {
    phases: [Phase::In, Phase::In, Phase::Far],
    kept: [None, None, Some(0)],
    ..LEFT
};

/// Objects 2, which machine 2 has used, and 3 are far.
const TWO_FAR: Left = Left {
    phases: [Phase::In, Phase::Far, Phase::Far],
    kept: [None, Some(6), Some(0)],
    ..LEFT
};

#[test]
fn the_next_object_that_nobody_used_makes_room(rt: HostRuntime) -> Result<(), Fail> {
    let left = tried_with_three(&rt, rt.alloc(), NONE_USED)?;
    let second_far = Left {
        phases: [Phase::In, Phase::Far, Phase::In],
        kept: [None, Some(0), None],
        ..LEFT
    };
    same!(rt; left, second_far);
    let left = tried_with_three(&rt, rt.alloc(), ONE_USED)?;
    same!(rt; left, THIRD_FAR);
    let left = tried_with_three(&rt, rt.alloc(), ONE_SEEN)?;
    same!(rt; left, TWO_FAR);
    Ok(())
}

/// A bound of eight bytes takes the object too that was used, at the second look.
const TWICE_LOOKED: &[Row] = &[
    (Act::Leave(1), DONE),
    (Act::Step(2), Answer::Replied(Ran(1))),
    (Act::Step(2), Answer::Replied(Ran(2))),
    (FIRST_RETURNS, ROOM),
    (Act::Keeps(1, 8), Answer::Kept([2, 0, 16, 8])),
];

/// Object 2 is in scope.
const SCOPED: &[Row] = &[
    (Act::Leave(1), DONE),
    (Act::Step(2), Answer::Replied(Ran(1))),
    (FIRST_RETURNS, ROOM),
    (Act::Keeps(1, 8), Answer::Kept([1, 1, 8, 8])),
];

#[test]
fn an_object_that_was_used_has_a_second_chance(rt: HostRuntime) -> Result<(), Fail> {
    let left = tried_with_three(&rt, rt.alloc(), TWICE_LOOKED)?;
    same!(rt; left, TWO_FAR);
    Ok(())
}

#[test]
fn an_object_in_scope_stays_and_the_other_comes(rt: HostRuntime) -> Result<(), Fail> {
    let left = tried_with_three(&rt, rt.alloc(), SCOPED)?;
    same!(rt; left, THIRD_FAR);
    Ok(())
}

/// Nothing leaves for an object that is here, nor for one that is to leave, nor below the bound.
const NO_ROOM_NEEDED: &[Row] = &[
    (FIRST_RETURNS, ROOM),
    (Act::Keeps(1, 8), Answer::Kept([0, 0, 0, 0])),
    (Act::Request(2, Direction::Leave), ROOM),
    (Act::Keeps(1, 8), Answer::Kept([0, 0, 8, 0])),
    (Act::Request(2, Direction::Return), ROOM),
    (Act::Keeps(1, 24), Answer::Kept([0, 0, 0, 8])),
];

#[test]
fn nothing_leaves_where_there_is_room(rt: HostRuntime) -> Result<(), Fail> {
    let left = tried_with_three(&rt, rt.alloc(), NO_ROOM_NEEDED)?;
    same!(rt; left, LEFT);
    Ok(())
}

/// Machine 1 waits for object 1. When that has come back it stays until the machine has used it, and for one look more.
const AWAITED: &[Row] = &[
    (Act::Leave(1), DONE),
    (Act::Work(1), Answer::Served),
    (Act::Keeps(1, 8), Answer::Kept([2, 0, 16, 8])),
    (Act::LookPast, Answer::Looked(Looked::Awaited)),
    (Act::LookPast, FAR),
    (Act::LookPast, FAR),
    (Act::LookPast, Answer::Looked(Looked::Awaited)),
    (Act::Step(1), Answer::Replied(Ran(1))),
    (Act::Step(1), Answer::Replied(Ran(2))),
    (Act::Request(2, Direction::Return), ROOM),
    (Act::Keeps(1, 8), Answer::Kept([1, 0, 8, 8])),
];

#[test]
fn an_object_that_a_machine_waited_for_stays_until_it_is_used(rt: HostRuntime) -> Result<(), Fail> {
    let left = tried_with_three(&rt, rt.alloc(), AWAITED)?;
    let wanted = Left {
        phases: [Phase::Far, Phase::In, Phase::Far],
        kept: [Some(5), None, Some(0)],
        ..LEFT
    };
    same!(rt; left, wanted);
    Ok(())
}

/// Where more is here than is kept when nobody asks for anything, objects leave at once. The looks of a sweep come after that.
const TOO_MUCH_HERE: &[Row] = &[(Act::SweepsAndKeeps(1, 16), Answer::Kept([1, 0, 16, 0]))];

#[test]
fn objects_leave_until_the_bound_is_kept(rt: HostRuntime) -> Result<(), Fail> {
    let left = tried_with_three(&rt, rt.alloc(), TOO_MUCH_HERE)?;
    let wanted = Left {
        phases: [Phase::Far, Phase::Far, Phase::In],
        kept: [Some(0), Some(0), None],
        ..LEFT
    };
    same!(rt; left, wanted);
    Ok(())
}

/// The far store refuses to take an object: another isn't tried, and the object comes back.
const REFUSED: &[Row] = &[
    (Act::Leave(1), DONE),
    (FIRST_RETURNS, ROOM),
    (Act::Keeps(1, 8), Answer::Kept([0, 1, 0, 8])),
];

#[test]
fn a_store_that_fails_is_asked_once(rt: HostRuntime) -> Result<(), Fail> {
    let store = Failing::new(OwnStore::new(rt.alloc()), 2);
    let left = tried(&rt, rt.alloc(), store, REFUSED)?;
    same!(rt; left, Left { faults: 1, ..LEFT });
    Ok(())
}
