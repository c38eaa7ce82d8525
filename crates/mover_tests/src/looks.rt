//! Looks at objects, one after the other.

use crate::compared::same;
use crate::trial::{Act, Answer, DONE, LEFT, Left, Row, tried, tried_with_a_gap};
use debugger::StepReply::Ran;
use far_store::OwnStore;
use shared_objects::Phase;
use std::test::Fail;
use workers::{Looked, Moved, Place};

/// It wasn't used since the last look, and left.
const COLD: Answer = Answer::Looked(Looked::Cold(Moved::Done));

const HOT: Answer = Answer::Looked(Looked::Hot);

const HOT_FOR_ONE_LOOK: &[Row] = &[
    (Act::Step(1), Answer::Replied(Ran(1))),
    (Act::Step(1), Answer::Replied(Ran(2))),
    (Act::Look, HOT),
    (Act::Look, COLD),
    (Act::Look, COLD),
    (
        Act::Look,
        Answer::Looked(Looked::Cold(Moved::Misplaced(Place::Far))),
    ),
];

#[test]
fn a_hot_object_stays_for_one_look(rt: HostRuntime) -> Result<(), Fail> {
    let left = tried(&rt, rt.alloc(), OwnStore::new(rt.alloc()), HOT_FOR_ONE_LOOK)?;
    let wanted = Left {
        phases: [Phase::Far, Phase::Far, Phase::In],
        kept: [Some(5), Some(0), None],
        ..LEFT
    };
    same!(rt; left, wanted);
    Ok(())
}

const COLD_IN_SCOPE: &[Row] = &[
    (Act::Step(1), Answer::Replied(Ran(1))),
    (Act::Look, HOT),
    (Act::Look, COLD),
    (Act::Look, Answer::Looked(Looked::Cold(Moved::Scoped))),
];

#[test]
fn a_cold_object_in_scope_stays(rt: HostRuntime) -> Result<(), Fail> {
    let left = tried(&rt, rt.alloc(), OwnStore::new(rt.alloc()), COLD_IN_SCOPE)?;
    let wanted = Left {
        phases: [Phase::In, Phase::Far, Phase::In],
        kept: [None, Some(0), None],
        ..LEFT
    };
    same!(rt; left, wanted);
    Ok(())
}

const PAST_THE_LAST: &[Row] = &[
    (Act::Look, COLD),
    (Act::Look, Answer::Looked(Looked::NoObject)),
    (Act::Look, COLD),
    (Act::Return(1), DONE),
    (Act::Look, COLD),
];

#[test]
fn the_number_after_the_last_is_1(rt: HostRuntime) -> Result<(), Fail> {
    let left = tried_with_a_gap(&rt, rt.alloc(), PAST_THE_LAST)?;
    let wanted = Left {
        phases: [Phase::Far, Phase::In, Phase::Far],
        kept: [Some(0), None, Some(0)],
        ..LEFT
    };
    same!(rt; left, wanted);
    Ok(())
}
