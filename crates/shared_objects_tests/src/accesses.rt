//! Accesses of actors, and the stamps that they get.

use crate::compared::same;
use crate::stage::{LOAD, Stage};
use far_store::OwnStore;
use memory::{Op, Reach};
use shared_objects::{Denied, GetError};
use std::test::Fail;

/// The greatest stamp.
const LAST: u64 = 281_474_976_710_655;

#[test]
fn an_entry_has_the_next_stamp_of_its_actor_and_object(rt: HostRuntime) -> Result<(), Fail> {
    let mut stage: Stage<OwnStore> = Stage::open(rt.alloc(), 3, 4)?;
    for &(actor, number, stamp) in &[(0, 1, 1), (1, 1, 2), (1, 2, 3), (0, 2, 4)] {
        same!(rt; stage.touch(actor, number, &LOAD), Reach::Done(0));
        same!(rt; stage.actors[actor].stamp(), stamp);
    }
    stage.learn(2, 9);
    same!(rt; stage.touch(2, 3, &LOAD), Reach::Done(0));
    same!(rt; stage.actors[2].stamp(), 10);
    stage.learn(3, LAST);
    same!(rt; stage.touch(3, 3, &LOAD), Reach::Worn);
    same!(rt; stage.actors[3].stamp(), LAST);
    same!(rt; stage.touch(2, 3, &LOAD), Reach::Done(0));
    Ok(())
}

#[test]
fn a_fifth_object_closes_the_oldest_scope(rt: HostRuntime) -> Result<(), Fail> {
    let mut stage: Stage<OwnStore> = Stage::open(rt.alloc(), 6, 1)?;
    for number in [1, 2, 3, 4, 1] {
        same!(rt; stage.touch(0, number, &LOAD), Reach::Done(0));
    }
    for number in 1..5 {
        same!(rt; stage.may_leave(number), false);
    }
    same!(rt; stage.touch(0, 5, &LOAD), Reach::Done(0));
    for &(number, leaves) in &[(1, true), (2, false), (3, false), (4, false), (5, false)] {
        same!(rt; stage.may_leave(number), leaves);
    }
    same!(rt; stage.touch(0, 6, &LOAD), Reach::Done(0));
    same!(rt; stage.may_leave(2), true);
    same!(rt; stage.may_leave(3), false);
    Ok(())
}

#[test]
fn ranges(rt: HostRuntime) -> Result<(), Fail> {
    let mut stage: Stage<OwnStore> = Stage::open(rt.alloc(), 2, 1)?;
    same!(rt; stage.put(0, 2, 6, &[1, 2]), Ok(()));
    let bytes = stage.get(0, 2, 5, 3)?;
    same!(rt; bytes.as_slice(), [0, 1, 2].as_slice());
    let whole = stage.get(0, 1, 0, 8)?;
    same!(rt; whole.as_slice(), [0; 8].as_slice());
    same!(rt; stage.put(0, 2, 7, &[1, 2]), Err(Denied::Outside));
    same!(rt; stage.put(0, 3, 0, &[1]), Err(Denied::Outside));
    same!(rt; stage.put(0, 2, u32::MAX, &[1]), Err(Denied::Outside));
    same!(rt; matches!(stage.get(0, 2, 1, 8), Err(GetError::Denied(Denied::Outside))), true);
    same!(rt; matches!(stage.get(0, 0, 0, 0), Err(GetError::Denied(Denied::Outside))), true);
    Ok(())
}

#[test]
fn outside_is_no_step(rt: HostRuntime) -> Result<(), Fail> {
    let mut stage: Stage<OwnStore> = Stage::open(rt.alloc(), 1, 1)?;
    let over = Op { offset: 1, ..LOAD };
    same!(rt; stage.touch(0, 1, &over), Reach::Outside);
    same!(rt; stage.touch(0, 0, &LOAD), Reach::Outside);
    same!(rt; stage.touch(0, 2, &LOAD), Reach::Outside);
    same!(rt; stage.actors[0].stamp(), 0);
    same!(rt; stage.cool(1), Some(false));
    same!(rt; stage.may_leave(1), true);
    Ok(())
}

#[test]
fn a_look_finds_stamp_scopes_and_heat(rt: HostRuntime) -> Result<(), Fail> {
    let mut stage: Stage<OwnStore> = Stage::open(rt.alloc(), 2, 2)?;
    same!(rt; stage.look(1, 1), Some(0));
    same!(rt; stage.touch(0, 1, &LOAD), Reach::Done(0));
    same!(rt; stage.look(1, 1), Some(65_536 + 256 + 8));
    stage.close_scopes(0);
    same!(rt; stage.look(1, 1), Some(65_536 + 8));
    same!(rt; stage.cool(1), Some(true));
    same!(rt; stage.look(1, 1), Some(65_536));
    same!(rt; stage.look(1, 2), Some(0));
    same!(rt; stage.look(1, 3), None);
    Ok(())
}

#[test]
fn a_touch_heats(rt: HostRuntime) -> Result<(), Fail> {
    let mut stage: Stage<OwnStore> = Stage::open(rt.alloc(), 2, 1)?;
    same!(rt; stage.touch(0, 1, &LOAD), Reach::Done(0));
    for &(number, hot) in &[
        (1, Some(true)),
        (1, Some(false)),
        (2, Some(false)),
        (0, None),
        (3, None),
    ] {
        same!(rt; stage.cool(number), hot);
    }
    Ok(())
}
