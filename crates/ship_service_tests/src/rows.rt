//! Whole conversations.

use crate::stage::{Lines, NOTHING, PLAIN, Setting, answers};
use std::test::Fail;

/// The address of object 1.
const OBJECT: u64 = 0x0000_0001_0000_0000;

/// aadd [r1], r2 · exit
const ADD: Setting<'static> = Setting {
    code: &[0xdb21_0000_0000_0000, 0x9500_0000_0000_0000],
    arguments: [OBJECT, 1, 0, 0, 0],
    ..PLAIN
};

const ONE_OBJECT: Lines<'static> = (
    b"make 8\nput 1 0 2a\nget 1 0 1\n",
    b"unserved\nok\nbytes 2a\n",
);

#[test]
fn one_object(rt: HostRuntime) -> Result<(), Fail> {
    answers(&rt, rt.alloc(), &PLAIN, [ONE_OBJECT, NOTHING])?;
    Ok(())
}

const A_MACHINE: Lines<'static> = (
    b"step 1\nget 1 0 1\nleft 1\nleave 1\nstep 1\nship 10 0 0 0 0 0 9500000000000000\nline 2 0\nstack 2 0 1\nbreak 2 0\nwatch 2 0x100000000 1\nstep 2\n",
    b"ran 1 1\nbytes 01\nunserved\nasked 1\nstopped 1 exit 0000000000000000\nshipped 2\nline 2 0 exit\nbytes 00\nok\nok\npaused 2 0\n",
);

#[test]
fn a_machine_that_was_there(rt: HostRuntime) -> Result<(), Fail> {
    answers(&rt, rt.alloc(), &ADD, [A_MACHINE, NOTHING])?;
    Ok(())
}

const ADD_FIVE: Setting<'static> = Setting {
    arguments: [OBJECT, 5, 0, 0, 0],
    ..ADD
};

const FIRST: Lines<'static> = (
    b"put 1 0 02\nstep 1\nbad line\nget 1",
    b"ok\nran 1 1\nbad\ncut\n",
);

const SECOND: Lines<'static> = (
    b"get 1 0 8\nregs 2\nship 1 0 0 0 0 0 9500000000000000\nregs 2",
    b"bytes 0700000000000000\nnone\nshipped 2\ncut\n",
);

#[test]
fn two_connections(rt: HostRuntime) -> Result<(), Fail> {
    answers(&rt, rt.alloc(), &ADD_FIVE, [FIRST, SECOND])?;
    Ok(())
}
