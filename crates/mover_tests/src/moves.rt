//! Requests, one after the other, over a far store within the agent.

use crate::compared::same;
use crate::trial::{Act, Answer, DONE, LEFT, Left, Row, tried};
use debugger::StepReply::{Ran, Stopped, Waiting};
use far_store::OwnStore;
use machine::Stop;
use shared_objects::Phase;
use std::test::Fail;
use workers::{Moved, Place};

const GOES_AND_COMES_BACK: &[Row] = &[
    (Act::Step(1), Answer::Replied(Ran(1))),
    (Act::Step(1), Answer::Replied(Ran(2))),
    (Act::Leave(1), DONE),
    (Act::Leave(1), Answer::Moved(Moved::Misplaced(Place::Far))),
    (Act::Step(1), Answer::Replied(Waiting(1))),
    (Act::Return(1), DONE),
    (Act::Return(1), Answer::Moved(Moved::Misplaced(Place::Here))),
    (Act::Step(1), Answer::Replied(Ran(3))),
    (Act::Step(1), Answer::Replied(Stopped(Stop::Exit(5)))),
];

#[test]
fn an_object_goes_and_comes_back(rt: HostRuntime) -> Result<(), Fail> {
    let left = tried(
        &rt,
        rt.alloc(),
        OwnStore::new(rt.alloc()),
        GOES_AND_COMES_BACK,
    )?;
    same!(rt; left, LEFT);
    Ok(())
}

const ONE_COMES_BACK: &[Row] = &[
    (Act::Step(2), Answer::Replied(Ran(1))),
    (Act::Step(2), Answer::Replied(Ran(2))),
    (Act::Leave(1), DONE),
    (Act::Leave(2), DONE),
    (Act::Return(1), DONE),
];

#[test]
fn an_object_that_is_far_has_its_parcel(rt: HostRuntime) -> Result<(), Fail> {
    let left = tried(&rt, rt.alloc(), OwnStore::new(rt.alloc()), ONE_COMES_BACK)?;
    let wanted = Left {
        phases: [Phase::In, Phase::Far, Phase::In],
        kept: [None, Some(6), None],
        ..LEFT
    };
    same!(rt; left, wanted);
    Ok(())
}

/// There is none of the number.
const NONE: Answer = Answer::Moved(Moved::NoObject);

const NO_OBJECTS: &[Row] = &[
    (Act::Leave(0), NONE),
    (Act::Return(0), NONE),
    (Act::Leave(3), NONE),
    (Act::Return(3), NONE),
    (Act::Leave(u32::MAX), NONE),
];

#[test]
fn a_number_without_an_object(rt: HostRuntime) -> Result<(), Fail> {
    let left = tried(&rt, rt.alloc(), OwnStore::new(rt.alloc()), NO_OBJECTS)?;
    same!(rt; left, LEFT);
    Ok(())
}

const IN_SCOPE: &[Row] = &[
    (Act::Step(1), Answer::Replied(Ran(1))),
    (Act::Leave(1), Answer::Moved(Moved::Scoped)),
    (Act::Leave(2), DONE),
    (Act::Step(1), Answer::Replied(Ran(2))),
    (Act::Leave(1), DONE),
];

#[test]
fn an_object_in_scope_stays(rt: HostRuntime) -> Result<(), Fail> {
    let left = tried(&rt, rt.alloc(), OwnStore::new(rt.alloc()), IN_SCOPE)?;
    let wanted = Left {
        phases: [Phase::Far, Phase::Far, Phase::In],
        kept: [Some(5), Some(0), None],
        ..LEFT
    };
    same!(rt; left, wanted);
    Ok(())
}
