//! Far stores that fail, or give other bytes.

use crate::compared::same;
use crate::trial::{Act, Answer, DONE, LEFT, Left, Row, tried};
use debugger::StepReply::{Ran, Stopped, Waiting};
use far_store::{Failing, OwnStore, StoreFault};
use machine::Stop;
use shared_objects::Phase;
use std::alloc::Global;
use std::sync::Wait;
use std::test::Fail;
use test_devices::Short;
use workers::Moved;

/// A move that the far store refused.
const REFUSED: Answer = Answer::Moved(Moved::Fault(StoreFault::Refused));

/// What the acts of these rows leave where the far store refuses its k-th call.
fn refused_at<R: Wait>(rt: &R, alloc: Global, k: u64, rows: &[Row]) -> Result<Left, Fail> {
    tried(rt, alloc, Failing::new(OwnStore::new(alloc), k), rows)
}

const LEAVE_FAILS: &[Row] = &[
    (Act::Step(1), Answer::Replied(Ran(1))),
    (Act::Step(1), Answer::Replied(Ran(2))),
    (Act::Leave(1), REFUSED),
    (Act::Step(1), Answer::Replied(Ran(3))),
    (Act::Step(1), Answer::Replied(Stopped(Stop::Exit(5)))),
];

#[test]
fn an_object_whose_leave_fails_is_here(rt: HostRuntime) -> Result<(), Fail> {
    let left = refused_at(&rt, rt.alloc(), 1, LEAVE_FAILS)?;
    same!(rt; left, Left { faults: 1, ..LEFT });
    Ok(())
}

/// Object 1 is far, with the number that machine 1 has added.
const FIRST_FAR: Left = Left {
    phases: [Phase::Far, Phase::In, Phase::In],
    kept: [Some(5), None, None],
    ..LEFT
};

const RETURN_FAILS: &[Row] = &[
    (Act::Step(1), Answer::Replied(Ran(1))),
    (Act::Step(1), Answer::Replied(Ran(2))),
    (Act::Leave(1), DONE),
    (Act::Return(1), REFUSED),
    (Act::Step(1), Answer::Replied(Waiting(1))),
];

#[test]
fn an_object_whose_return_fails_is_far(rt: HostRuntime) -> Result<(), Fail> {
    let left = refused_at(&rt, rt.alloc(), 2, RETURN_FAILS)?;
    same!(rt; left, Left { faults: 1, ..FIRST_FAR });
    Ok(())
}

/// Both machines add, and close their scopes.
const BEFORE: &[Row] = &[
    (Act::Step(1), Answer::Replied(Ran(1))),
    (Act::Step(1), Answer::Replied(Ran(2))),
    (Act::Step(2), Answer::Replied(Ran(1))),
    (Act::Step(2), Answer::Replied(Ran(2))),
];

/// Each of these asks the far store once, for a `put` or a `get`.
const MOVES: &[Act] = &[
    Act::Leave(1),
    Act::Leave(2),
    Act::Return(2),
    Act::Leave(2),
    Act::Return(1),
    Act::Return(2),
];

/// Both machines read what they added, and end.
const AFTER: &[Row] = &[
    (Act::Step(1), Answer::Replied(Ran(3))),
    (Act::Step(1), Answer::Replied(Stopped(Stop::Exit(5)))),
    (Act::Step(2), Answer::Replied(Ran(3))),
    (Act::Step(2), Answer::Replied(Stopped(Stop::Exit(6)))),
];

/// Where the far store refuses its k-th call that move is asked for again, and done then, as all others are.
fn again_at<R: Wait>(rt: &R, alloc: Global, k: usize) -> Result<Left, Fail> {
    let mut rows = Vec::new(alloc);
    rows.extend_from_slice(BEFORE)?;
    for (place, act) in MOVES.iter().enumerate() {
        if place + 1 == k {
            rows.push((*act, REFUSED))?;
        }
        rows.push((*act, DONE))?;
    }
    rows.extend_from_slice(AFTER)?;
    refused_at(rt, alloc, k as u64, rows.as_slice())
}

#[test]
fn each_call_fails_once_and_is_made_again(rt: HostRuntime) -> Result<(), Fail> {
    for k in 1..7 {
        same!(rt; again_at(&rt, rt.alloc(), k)?, Left { faults: 1, ..LEFT }, k);
    }
    Ok(())
}

const DAMAGED: Answer = Answer::Moved(Moved::Fault(StoreFault::Damaged));

const SHORT: &[Row] = &[
    (Act::Step(1), Answer::Replied(Ran(1))),
    (Act::Step(1), Answer::Replied(Ran(2))),
    (Act::Leave(1), DONE),
    (Act::Return(1), DAMAGED),
];

const SHORT_ONCE: &[Row] = &[
    (Act::Step(1), Answer::Replied(Ran(1))),
    (Act::Step(1), Answer::Replied(Ran(2))),
    (Act::Leave(1), DONE),
    (Act::Return(1), DAMAGED),
    (Act::Return(1), DONE),
    (Act::Step(1), Answer::Replied(Ran(3))),
    (Act::Step(1), Answer::Replied(Stopped(Stop::Exit(5)))),
];

#[test]
fn fewer_bytes_than_were_taken_are_damaged(rt: HostRuntime) -> Result<(), Fail> {
    let left = tried(&rt, rt.alloc(), Short::new(rt.alloc()), SHORT)?;
    same!(rt; left, FIRST_FAR);
    let left = tried(&rt, rt.alloc(), Short::new(rt.alloc()), SHORT_ONCE)?;
    same!(rt; left, LEFT);
    Ok(())
}
