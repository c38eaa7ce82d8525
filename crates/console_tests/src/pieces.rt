//! Input in pieces, and the end of it.

use crate::compared::same;
use crate::talks::{Agent, INPUT, OUTPUT, answers, new_agent, told_of};
use console::DriveFault;
use far_store::OwnStore;
use std::alloc::{AllocError, Global};
use std::cell::Cell;
use std::test::Fail;
use test_devices::{Pieces, PipeReader, PipeWriter};

#[test]
fn any_pieces(rt: HostRuntime) -> Result<(), Fail> {
    for size in 1..101usize {
        same!(rt; answers(rt.alloc(), INPUT, size)?.as_slice(), OUTPUT, size);
    }
    Ok(())
}

/// How a conversation ends with a client that waits for each reply before it says the next line, and how many right bytes it is
/// told.
fn piped(alloc: Global) -> Result<(Result<(), DriveFault>, Option<usize>), AllocError> {
    let mut agent = new_agent(alloc)?;
    let replies = Cell::new(0usize);
    let mut writer = PipeWriter::new(alloc, &replies);
    let ended = agent.hear(&mut PipeReader::new(INPUT, &replies), &mut writer);
    Ok((ended, told_of(&writer.taken, OUTPUT)))
}

/// A client that waits for each reply before it says the next line is answered to the end.
#[test]
fn each_reply_comes_before_the_next_line(rt: HostRuntime) -> Result<(), Fail> {
    same!(rt; piped(rt.alloc())?, (Ok(()), Some(OUTPUT.len())));
    Ok(())
}

/// How a conversation of three bytes a read ends, and how many reads there were.
fn reads_of(alloc: Global, input: &str) -> Result<(Result<(), DriveFault>, usize), AllocError> {
    let mut agent = new_agent(alloc)?;
    let mut out = Vec::new(alloc);
    let mut reader = Pieces::new(input.as_bytes(), 3);
    let ended = agent.hear(&mut reader, &mut out);
    Ok((ended, reader.calls))
}

/// Nothing is read after the end, whether or not something is cut.
#[test]
fn the_end_is_read_once(rt: HostRuntime) -> Result<(), Fail> {
    for &(input, calls) in &[("", 1usize), ("step 1\n", 4), ("step 1\nstep", 5)] {
        same!(rt; reads_of(rt.alloc(), input)?, (Ok(()), calls), input);
    }
    Ok(())
}

/// A line of so many bytes that is no command, and one that is.
fn long_line(alloc: Global, count: usize) -> Result<Vec<u8>, AllocError> {
    let mut input = vec![in alloc; b'a'; count]?;
    input.extend_from_slice(b"\nstep 1\n")?;
    Ok(input)
}

/// More reads than fit any small count are no fault.
#[test]
fn a_million_reads(rt: HostRuntime) -> Result<(), Fail> {
    let input = long_line(rt.alloc(), 1_200_000)?;
    let out = answers(rt.alloc(), &input, 1)?;
    same!(rt; out.as_slice(), b"bad\nnone\n".as_slice());
    Ok(())
}

/// The longest line, which is 18 bytes and 69,982 digits, then one of a byte more, and a command.
fn longest_line(alloc: Global) -> Result<(Vec<u8>, usize), AllocError> {
    let mut input = Vec::from_slice(alloc, b"ship 10 0 0 0 0 0 ")?;
    let digits = vec![in alloc; b'0'; 69_982]?;
    input.extend_from_slice(&digits)?;
    let length = input.len();
    input.extend_from_slice(b"\nship 100 0 0 0 0 0 ")?;
    input.extend_from_slice(&digits)?;
    input.extend_from_slice(b"\nstep 1\n")?;
    Ok((input, length))
}

#[test]
fn the_longest_line(rt: HostRuntime) -> Result<(), Fail> {
    let (input, length) = longest_line(rt.alloc())?;
    same!(rt; length, 70_000);
    let wanted = b"refused 0 TooLong\nbad\nnone\n".as_slice();
    for size in (1..101usize).chain([4095, 4096, 5000]) {
        same!(rt; answers(rt.alloc(), &input, size)?.as_slice(), wanted, size);
    }
    Ok(())
}

/// Commands with the most bytes that a `put` carries and a `get` shows.
fn longest_put(alloc: Global, digits: &[u8]) -> Result<Vec<u8>, AllocError> {
    let mut input = Vec::from_slice(alloc, b"make 65536\nput 1 61440 ")?;
    input.extend_from_slice(digits)?;
    input.extend_from_slice(b"\nget 1 61440 4096\nput 1 0 ")?;
    input.extend_from_slice(digits)?;
    input.extend_from_slice(b"ee\nstack 1 0 4096\n")?;
    Ok(input)
}

/// What they are answered.
fn longest_get(alloc: Global, digits: &[u8]) -> Result<Vec<u8>, AllocError> {
    let mut output = Vec::from_slice(alloc, b"made 1\nok\nbytes ")?;
    output.extend_from_slice(digits)?;
    output.extend_from_slice(b"\nbad\nnone\n")?;
    Ok(output)
}

/// The most bytes that a `put` carries and a `get` shows.
#[test]
fn the_longest_reply(rt: HostRuntime) -> Result<(), Fail> {
    let digits = vec![in rt.alloc(); b'e'; 8192]?;
    let input = longest_put(rt.alloc(), &digits)?;
    let output = longest_get(rt.alloc(), &digits)?;
    for &size in &[1usize, 4096] {
        let out = answers(rt.alloc(), &input, size)?;
        same!(rt; out.as_slice(), output.as_slice(), size);
    }
    Ok(())
}

/// How a conversation ends that an agent goes on with, and whether it holds a rest then.
fn goes_on(
    agent: &mut Agent<OwnStore>,
    input: &str,
    out: &mut Vec<u8>,
) -> (Result<(), DriveFault>, bool) {
    let ended = agent.hear(&mut Pieces::new(input.as_bytes(), 3), out);
    (ended, agent.console.rest())
}

#[test]
fn a_rest_is_cut_and_dropped(rt: HostRuntime) -> Result<(), Fail> {
    let mut agent = new_agent(rt.alloc())?;
    let mut out = Vec::new(rt.alloc());
    for &input in &["step 1\nst", "ep 1", "", "step 1\n"] {
        same!(rt; goes_on(&mut agent, input, &mut out), (Ok(()), false), input);
    }
    same!(rt; out.as_slice(), b"none\ncut\ncut\nnone\n".as_slice());
    Ok(())
}

/// A rest that is too long is cut once.
#[test]
fn a_long_rest_is_cut_once(rt: HostRuntime) -> Result<(), Fail> {
    let long = vec![in rt.alloc(); b'a'; 70_001]?;
    let out = answers(rt.alloc(), &long, 4096)?;
    same!(rt; out.as_slice(), b"cut\n".as_slice());
    Ok(())
}
