//! The mover's loop, on the thread of the test.

use crate::compared::same;
use crate::trial::{Act, Answer, LEFT, Left, Row, tried, tried_with_a_gap};
use debugger::StepReply::Ran;
use far_store::OwnStore;
use shared_objects::Phase;
use std::alloc::{AllocError, Global};
use std::test::Fail;
use workers::Direction;

const ROOM: Answer = Answer::Requested(true);

const IN_TURN: &[Row] = &[
    (Act::Step(1), Answer::Replied(Ran(1))),
    (Act::Step(1), Answer::Replied(Ran(2))),
    (Act::Request(1, Direction::Leave), ROOM),
    (Act::Request(2, Direction::Leave), ROOM),
    (Act::Request(9, Direction::Leave), ROOM),
    (Act::Request(2, Direction::Return), ROOM),
    (Act::Rounds(4), Answer::Served),
];

/// Object 1 is far, with the number that machine 1 has added.
const FIRST_FAR: Left = Left {
    phases: [Phase::Far, Phase::In, Phase::In],
    kept: [Some(5), None, None],
    ..LEFT
};

#[test]
fn requests_are_served_in_turn(rt: HostRuntime) -> Result<(), Fail> {
    let left = tried(&rt, rt.alloc(), OwnStore::new(rt.alloc()), IN_TURN)?;
    same!(rt; left, FIRST_FAR);
    Ok(())
}

const ONE_ROUND: &[Row] = &[
    (Act::Request(1, Direction::Leave), ROOM),
    (Act::Request(2, Direction::Leave), ROOM),
    (Act::Rounds(1), Answer::Served),
];

#[test]
fn a_round_serves_one_request(rt: HostRuntime) -> Result<(), Fail> {
    let left = tried(&rt, rt.alloc(), OwnStore::new(rt.alloc()), ONE_ROUND)?;
    let wanted = Left {
        kept: [Some(0), None, None],
        ..FIRST_FAR
    };
    same!(rt; left, wanted);
    Ok(())
}

/// Requests for objects 101 to 165 to leave.
fn requests_65(alloc: Global) -> Result<Vec<Row>, AllocError> {
    let mut rows = Vec::new(alloc);
    for number in 101..166u32 {
        rows.push((Act::Request(number, Direction::Leave), ROOM))?;
    }
    Ok(rows)
}

/// The last of them has no room.
#[test]
fn there_is_room_for_64_requests(rt: HostRuntime) -> Result<(), Fail> {
    let rows = requests_65(rt.alloc())?;
    let left = tried(&rt, rt.alloc(), OwnStore::new(rt.alloc()), rows.as_slice())?;
    let wanted = Left {
        other: Some((64, Answer::Requested(false))),
        ..LEFT
    };
    same!(rt; left, wanted);
    Ok(())
}

const AGAIN: &[Row] = &[(Act::Request(1, Direction::Leave), ROOM); 65];

const THERE_AND_BACK: &[Row] = &[
    (Act::Request(1, Direction::Leave), ROOM),
    (Act::Request(2, Direction::Leave), ROOM),
    (Act::Request(1, Direction::Leave), ROOM),
    (Act::Rounds(2), Answer::Served),
    (Act::Request(1, Direction::Return), ROOM),
    (Act::Request(1, Direction::Return), ROOM),
    (Act::Request(2, Direction::Return), ROOM),
    (Act::Rounds(2), Answer::Served),
];

#[test]
fn a_move_is_queued_once(rt: HostRuntime) -> Result<(), Fail> {
    let left = tried(&rt, rt.alloc(), OwnStore::new(rt.alloc()), AGAIN)?;
    same!(rt; left, LEFT);
    // each round has another move
    let left = tried(&rt, rt.alloc(), OwnStore::new(rt.alloc()), THERE_AND_BACK)?;
    same!(rt; left, LEFT);
    Ok(())
}

const SWEEPS_3: &[Row] = &[
    (Act::Step(1), Answer::Replied(Ran(1))),
    (Act::Step(1), Answer::Replied(Ran(2))),
    (Act::Sweeps(3), Answer::Served),
];

const SWEEPS_4: &[Row] = &[
    (Act::Step(1), Answer::Replied(Ran(1))),
    (Act::Step(1), Answer::Replied(Ran(2))),
    (Act::Sweeps(4), Answer::Served),
];

/// Object 3, which nobody uses, is far.
const LAST_FAR: Left = Left {
    phases: [Phase::In, Phase::In, Phase::Far],
    kept: [None, None, Some(0)],
    ..LEFT
};

#[test]
fn a_sweep_takes_what_is_cold(rt: HostRuntime) -> Result<(), Fail> {
    let left = tried_with_a_gap(&rt, rt.alloc(), SWEEPS_3)?;
    same!(rt; left, LAST_FAR);
    let left = tried_with_a_gap(&rt, rt.alloc(), SWEEPS_4)?;
    let wanted = Left {
        phases: [Phase::Far, Phase::In, Phase::Far],
        kept: [Some(5), None, Some(0)],
        ..LEFT
    };
    same!(rt; left, wanted);
    Ok(())
}

/// There is no object 9, and object 3 is here.
const NOTHING_ASKED: &[Row] = &[
    (Act::Request(3, Direction::Return), ROOM),
    (Act::Request(9, Direction::Leave), ROOM),
    (Act::Rounds(2), Answer::Served),
];

const ASKED: &[Row] = &[
    (Act::Request(3, Direction::Leave), ROOM),
    (Act::Sweeps(1), Answer::Served),
];

#[test]
fn nothing_leaves_without_a_request_or_a_sweep(rt: HostRuntime) -> Result<(), Fail> {
    let left = tried_with_a_gap(&rt, rt.alloc(), NOTHING_ASKED)?;
    same!(rt; left, LEFT);
    let left = tried_with_a_gap(&rt, rt.alloc(), ASKED)?;
    same!(rt; left, LAST_FAR);
    Ok(())
}
