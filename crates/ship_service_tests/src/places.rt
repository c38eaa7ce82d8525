//! Objects that are away, stamps and scopes.

use crate::compared::same;
use crate::stage::{Lines, NOTHING, PLAIN, Setting, answers};
use std::alloc::{AllocError, Global};
use std::test::Fail;

/// The address of object 1.
const OBJECT: u64 = 0x0000_0001_0000_0000;

/// ldxdw r0, [r1] · exit
const LOAD: Setting<'static> = Setting {
    code: &[0x7910_0000_0000_0000, 0x9500_0000_0000_0000],
    arguments: [OBJECT, 0, 0, 0, 0],
    ..PLAIN
};

/// The same while object 1 is on its way.
const LOAD_AWAY: Setting<'static> = Setting {
    leaving: true,
    ..LOAD
};

const AWAY: Lines<'static> = (
    b"get 1 0 1\nput 1 0 01\nput 1 8 01\nstep 1\none 1\nleave 1\n",
    b"away 1\naway 1\noutside\nwaiting 1 1\nwaiting 1 1\nasked 1\n",
);

#[test]
fn an_object_that_is_away(rt: HostRuntime) -> Result<(), Fail> {
    answers(&rt, rt.alloc(), &LOAD_AWAY, [AWAY, NOTHING])?;
    Ok(())
}

/// The first connection has seen up to the greatest stamp.
const LOAD_WORN: Setting<'static> = Setting {
    stamp: 281_474_976_710_655,
    ..LOAD
};

const WORN: Lines<'static> = (
    b"get 1 0 1\nput 1 0 01\nget 1 8 1\nstep 1\n",
    b"worn\nworn\noutside\nstopped 1 worn\n",
);

const WORN_THEN: Lines<'static> = (
    b"get 1 0 1\nregs 1\nget 1 0 1\n",
    b"bytes 00\n\
        regs 1 0 10 worn 0000000000000000 0000000100000000 0000000000000000 0000000000000000 0000000000000000 \
        0000000000000000 0000000000000000 0000000000000000 0000000000000000 0000000000000000 ffffffff00001000\n\
        worn\n",
);

#[test]
fn stamps_that_run_out(rt: HostRuntime) -> Result<(), Fail> {
    answers(&rt, rt.alloc(), &LOAD_WORN, [WORN, WORN_THEN])?;
    Ok(())
}

const LOAD_AT_41: Setting<'static> = Setting { stamp: 41, ..LOAD };

const STEP: Lines<'static> = (b"step 1\n", b"ran 1 1\n");

const LINE: Lines<'static> = (b"line 1 0\n", b"line 1 0 ldxdw r0, [r1]\n");

const REGS: Lines<'static> = (
    b"regs 1\n",
    b"regs 1 0 10 run 0000000000000000 0000000100000000 0000000000000000 0000000000000000 0000000000000000 \
        0000000000000000 0000000000000000 0000000000000000 0000000000000000 0000000000000000 ffffffff00001000\n",
);

#[test]
fn stamps_are_learnt(rt: HostRuntime) -> Result<(), Fail> {
    // the step's entry has the stamp 42, which both connections learn
    let left = answers(&rt, rt.alloc(), &LOAD_AT_41, [STEP, LINE])?;
    same!(rt; left.stamps, [42, 42, 42]);
    // nothing is learnt before a command that only shows
    let left = answers(&rt, rt.alloc(), &LOAD_AT_41, [REGS, REGS])?;
    same!(rt; left.stamps, [41, 0, 0]);
    Ok(())
}

const GET: Lines<'static> = (b"get 1 0 1\n", b"bytes 00\n");

const PUT: Lines<'static> = (b"put 1 0 01\n", b"ok\n");

#[test]
fn scopes_are_closed(rt: HostRuntime) -> Result<(), Fail> {
    let left = answers(&rt, rt.alloc(), &PLAIN, [GET, PUT])?;
    same!(rt; left.leaves, true);
    // the machine's scope stays open
    let left = answers(&rt, rt.alloc(), &LOAD, [STEP, NOTHING])?;
    same!(rt; left.leaves, false);
    Ok(())
}

/// These bytes so many times, and then those.
fn repeated(alloc: Global, count: usize, bytes: &[u8], last: &[u8]) -> Result<Vec<u8>, AllocError> {
    let mut all = Vec::new(alloc);
    for _ in 0..count {
        all.extend_from_slice(bytes)?;
    }
    all.extend_from_slice(last)?;
    Ok(all)
}

/// What is asked and answered where objects from this number to 65 are to leave, in order, and the queue has room for all but the
/// last.
fn leaves(alloc: Global, first: u32) -> Result<(String, String), AllocError> {
    let mut said = String::new(alloc);
    let mut told = String::new(alloc);
    for number in first..65 {
        said.push_str(format!(in alloc; "leave {number}\n")?.as_str())?;
        told.push_str(format!(in alloc; "asked {number}\n")?.as_str())?;
    }
    said.push_str("leave 65\n")?;
    told.push_str("full\n")?;
    Ok((said, told))
}

/// 65 objects.
const MANY: Setting<'static> = Setting {
    objects: 65,
    ..PLAIN
};

/// The same, of which the first is on its way.
const MANY_AWAY: Setting<'static> = Setting {
    objects: 65,
    ..LOAD_AWAY
};

#[test]
fn requests_without_a_mover(rt: HostRuntime) -> Result<(), Fail> {
    let (leaves, answers_to_leaves) = leaves(rt.alloc(), 1)?;
    // a move that is asked for already needs no room
    let said = repeated(
        rt.alloc(),
        1,
        leaves.as_bytes(),
        b"leave 1\nreturn 1\nleave 66\n",
    )?;
    let told = repeated(
        rt.alloc(),
        1,
        answers_to_leaves.as_bytes(),
        b"asked 1\nfull\nnone\n",
    )?;
    answers(
        &rt,
        rt.alloc(),
        &MANY,
        [(said.as_slice(), told.as_slice()), NOTHING],
    )?;
    Ok(())
}

#[test]
fn moves_of_one_object_take_two_places(rt: HostRuntime) -> Result<(), Fail> {
    let said = repeated(rt.alloc(), 64, b"leave 1\nreturn 1\n", b"leave 2\n")?;
    let told = repeated(rt.alloc(), 64, b"asked 1\nasked 1\n", b"none\n")?;
    answers(
        &rt,
        rt.alloc(),
        &PLAIN,
        [(said.as_slice(), told.as_slice()), NOTHING],
    )?;
    Ok(())
}

#[test]
fn missed_objects_are_asked_for_once(rt: HostRuntime) -> Result<(), Fail> {
    let (leaves, answers_to_leaves) = leaves(rt.alloc(), 2)?;
    let said = repeated(
        rt.alloc(),
        32,
        b"get 1 0 1\nstep 1\nget 1 8 1\n",
        leaves.as_bytes(),
    )?;
    let told = repeated(
        rt.alloc(),
        32,
        b"away 1\nwaiting 1 1\noutside\n",
        answers_to_leaves.as_bytes(),
    )?;
    // the object that is missed has one of the 64 places
    answers(
        &rt,
        rt.alloc(),
        &MANY_AWAY,
        [(said.as_slice(), told.as_slice()), NOTHING],
    )?;
    Ok(())
}
