//! Connections whose reader or writer fails.

use crate::compared::same;
use crate::stage::{Lines, NOTHING, PLAIN, Setting, answers};
use console::DriveFault;
use std::alloc::Global;
use std::process::Abort;
use std::sync::Wait;
use std::test::Fail;

const SAID: &[u8] = b"put 1 0 0102\nget 1 0 2\nregs 1\nfree 1\nget 1 0";

const TOLD: &[u8] = b"ok\nbytes 0102\nnone\nunserved\ncut\n";

/// What is answered after so many reads of 16 bytes: three have all of it, and the fourth its end.
const REPLIES: &[&[u8]] = &[
    b"",
    b"ok\n",
    b"ok\nbytes 0102\nnone\n",
    b"ok\nbytes 0102\nnone\nunserved\n",
];

/// How a conversation ends whose reader fails after so many reads, and is answered so.
fn ends_after<R: Wait + Abort>(
    rt: &R,
    alloc: Global,
    reads: usize,
    told: &[u8],
) -> Result<Result<(), DriveFault>, Fail> {
    let setting = Setting {
        reads,
        again: true,
        ..PLAIN
    };
    // what was heard of a line is dropped
    let lines = [
        (SAID, told),
        (b" 1\nregs 2\n".as_slice(), b"bad\nnone\n".as_slice()),
    ];
    Ok(answers(rt, alloc, &setting, lines)?.ended)
}

#[test]
fn readers_that_fail(rt: HostRuntime) -> Result<(), Fail> {
    for reads in 0..REPLIES.len() {
        let ended = ends_after(&rt, rt.alloc(), reads, REPLIES[reads])?;
        same!(rt; ended, Err(DriveFault::Read), reads);
    }
    Ok(())
}

/// How a conversation ends whose writer takes so many bytes, and is answered so.
fn ends_within<R: Wait + Abort>(
    rt: &R,
    alloc: Global,
    room: usize,
    told: &[u8],
) -> Result<Result<(), DriveFault>, Fail> {
    let setting = Setting { room, ..PLAIN };
    // the command whose reply was due is done
    let lines = [
        (SAID, told),
        (b"get 1 0 3\n".as_slice(), b"bytes 010200\n".as_slice()),
    ];
    Ok(answers(rt, alloc, &setting, lines)?.ended)
}

#[test]
fn writers_that_fail(rt: HostRuntime) -> Result<(), Fail> {
    for room in 0..TOLD.len() {
        let ended = ends_within(&rt, rt.alloc(), room, &TOLD[..room])?;
        same!(rt; ended, Err(DriveFault::Write), room);
    }
    same!(rt; ends_within(&rt, rt.alloc(), usize::MAX, TOLD)?, Ok(()));
    Ok(())
}

/// What a client says that waits for each reply, and what it is answered.
const PIPED: Lines<'static> = (
    b"put 1 0 0102\nget 1 0 2\nresume 1\nregs 1\n\nget 1 0 1\n",
    b"ok\nbytes 0102\nnone\nnone\nbad\nbytes 01\n",
);

/// A client that waits for each reply before it says the next line is answered to the end: replies are written before more is read.
#[test]
fn each_reply_comes_before_the_next_line(rt: HostRuntime) -> Result<(), Fail> {
    let setting = Setting {
        piped: true,
        ..PLAIN
    };
    let left = answers(&rt, rt.alloc(), &setting, [PIPED, NOTHING])?;
    same!(rt; left.ended, Ok(()));
    Ok(())
}
