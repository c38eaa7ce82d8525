//! Bodies that leave and come back.

use crate::compared::same;
use crate::stage::{LOAD, Stage, add, number_of};
use far_store::OwnStore;
use memory::Reach;
use shared_objects::{Denied, GetError, Leave, ObjectEnd};
use std::alloc::Global;
use std::test::Fail;
use test_devices::Short;

#[test]
fn an_object_that_is_out_is_away(rt: HostRuntime) -> Result<(), Fail> {
    let mut stage: Stage<OwnStore> = Stage::open(rt.alloc(), 2, 1)?;
    same!(rt; matches!(stage.begin_leave(1), Leave::Taken(_)), true);
    same!(rt; matches!(stage.begin_leave(1), Leave::Held), true);
    same!(rt; stage.touch(0, 1, &LOAD), Reach::Away);
    same!(rt; stage.end_leave(1), true);
    same!(rt; stage.touch(0, 1, &LOAD), Reach::Away);
    same!(rt; stage.put(0, 1, 0, &[1]), Err(Denied::Away));
    same!(rt; matches!(stage.get(0, 1, 0, 1), Err(GetError::Denied(Denied::Away))), true);
    same!(rt; matches!(stage.get(0, 1, 8, 1), Err(GetError::Denied(Denied::Outside))), true);
    same!(rt; matches!(stage.begin_leave(1), Leave::Held), true);
    same!(rt; matches!(stage.begin_leave(3), Leave::NoObject), true);
    same!(rt; stage.touch(0, 2, &LOAD), Reach::Done(0));
    Ok(())
}

/// Two objects are on their way at once, and go far in the other order.
#[test]
fn two_objects_leave_at_once(rt: HostRuntime) -> Result<(), Fail> {
    let mut stage: Stage<OwnStore> = Stage::open(rt.alloc(), 3, 1)?;
    same!(rt; stage.touch(0, 3, &LOAD), Reach::Done(0));
    same!(rt; matches!(stage.begin_leave(1), Leave::Taken(_)), true);
    same!(rt; matches!(stage.begin_leave(2), Leave::Taken(_)), true);
    same!(rt; matches!(stage.begin_leave(3), Leave::Held), true);
    same!(rt; stage.end_leave(2), true);
    same!(rt; stage.end_leave(1), true);
    same!(rt; stage.touch(0, 1, &LOAD), Reach::Away);
    same!(rt; stage.touch(0, 2, &LOAD), Reach::Away);
    let ended = stage.close()?;
    let out: Vec<bool> = ended
        .iter()
        .map(|one| matches!(one, ObjectEnd::Out))
        .collect(rt.alloc())?;
    same!(rt; out.as_slice(), [false, true, true, false].as_slice());
    Ok(())
}

#[test]
fn bytes_of_another_length_are_handed_back(rt: HostRuntime) -> Result<(), Fail> {
    let mut stage: Stage<Short> = Stage::open(rt.alloc(), 1, 1)?;
    same!(rt; matches!(stage.begin_leave(1), Leave::Taken(_)), true);
    same!(rt; stage.end_leave(1), true);
    same!(rt; stage.begin_return(1), true);
    let Some(Err(back)) = stage.end_return(1, vec![in rt.alloc(); 1u8; 9]?) else {
        panic!(rt; "nine bytes for eight")
    };
    same!(rt; back.as_slice(), [1; 9].as_slice());
    same!(rt; stage.touch(0, 1, &LOAD), Reach::Away);
    let others = vec![in rt.alloc(); 1u8; 8]?;
    same!(rt; matches!(stage.end_return(1, others), Some(Ok(()))), true);
    same!(rt;
        stage.touch(0, 1, &LOAD),
        Reach::Done(0x0101_0101_0101_0101)
    );
    Ok(())
}

/// Three objects: one far with 1, one here with 2 and 40, one on its way.
fn moved(alloc: Global) -> Result<Stage<OwnStore>, Fail> {
    let mut stage: Stage<OwnStore> = Stage::open(alloc, 3, 2)?;
    let _ = stage.touch(0, 1, &add(1));
    let _ = stage.touch(0, 2, &add(2));
    stage.close_scopes(0);
    let _ = stage.touch(1, 2, &add(40));
    let _ = stage.begin_leave(1);
    stage.end_leave(1);
    let _ = stage.begin_leave(3);
    Ok(stage)
}

#[test]
fn a_table_closes_with_what_is_out(rt: HostRuntime) -> Result<(), Fail> {
    let ended = moved(rt.alloc())?.close()?;
    let numbers: Vec<Option<u64>> = ended.iter().map(number_of).collect(rt.alloc())?;
    same!(rt; numbers.as_slice(), [None, None, Some(42), None].as_slice());
    let out: Vec<bool> = ended
        .iter()
        .map(|one| matches!(one, ObjectEnd::Out))
        .collect(rt.alloc())?;
    same!(rt; out.as_slice(), [false, true, false, true].as_slice());
    Ok(())
}
