//! Replies that are written together: before more is read, where the next one finds no room, and at the end.

use crate::compared::same;
use crate::talks::{Agent, INPUT, OUTPUT, first_lines, new_agent, told_of};
use console::{DriveFault, converse_gathering};
use far_store::OwnStore;
use std::alloc::{AllocError, Global};
use std::cell::Cell;
use std::io::{ErrorKind, Read, Write};
use std::test::Fail;
use test_devices::{FailingReader, FailingWriter, Failure, Narrow, Pieces, PipeReader, PipeWriter};

/// How many bytes of replies are kept at most.
const ROOM: usize = 8192;

/// How a conversation ends whose replies are written together.
fn hear<R: Read, W: Write>(
    agent: &mut Agent<OwnStore>,
    reader: &mut R,
    writer: &mut W,
) -> Result<(), DriveFault> {
    converse_gathering(reader, writer, &mut agent.console, &(), &mut agent.world)
}

/// How a conversation ends with a client that waits for each reply before it says the next line, and how many right bytes it is
/// told.
fn piped(alloc: Global) -> Result<(Result<(), DriveFault>, Option<usize>), AllocError> {
    let mut agent = new_agent(alloc)?;
    let replies = Cell::new(0usize);
    let mut writer = PipeWriter::new(alloc, &replies);
    let ended = hear(
        &mut agent,
        &mut PipeReader::new(INPUT, &replies),
        &mut writer,
    );
    Ok((ended, told_of(&writer.taken, OUTPUT)))
}

/// Who reads first and writes what it keeps afterwards waits for ever here.
#[test]
fn replies_are_written_before_more_is_read(rt: HostRuntime) -> Result<(), Fail> {
    same!(rt; piped(rt.alloc())?, (Ok(()), Some(OUTPUT.len())));
    Ok(())
}

/// How a conversation ends whose input comes in pieces, of which so many are read, and whose writer takes so many bytes: how many right
/// bytes were told, by how many writes.
fn told_in(
    alloc: Global,
    (input, output): (&[u8], &[u8]),
    size: usize,
    reads: usize,
    room: usize,
) -> Result<(Result<(), DriveFault>, Option<usize>, usize), AllocError> {
    let mut agent = new_agent(alloc)?;
    let mut reader = FailingReader::new(Pieces::new(input, size), reads);
    let mut writer = Narrow::new(alloc, usize::MAX, room);
    let ended = hear(&mut agent, &mut reader, &mut writer);
    Ok((ended, told_of(&writer.taken, output), writer.calls))
}

/// Seven commands in a piece, in two, and one to a piece at most: as many writes as pieces in which lines end.
#[test]
fn a_piece_has_one_write(rt: HostRuntime) -> Result<(), Fail> {
    let lines = (INPUT, OUTPUT);
    for &(size, writes) in &[(4096usize, 1usize), (100, 2), (90, 2), (7, 7)] {
        let told = told_in(rt.alloc(), lines, size, usize::MAX, usize::MAX)?;
        same!(rt; told, (Ok(()), Some(OUTPUT.len()), writes), size);
    }
    Ok(())
}

/// Of a writer that takes so many bytes: the first bytes of all replies are written, whatever is done after them.
#[test]
fn a_writer_with_little_room(rt: HostRuntime) -> Result<(), Fail> {
    for room in 0..OUTPUT.len() {
        let told = told_in(rt.alloc(), (INPUT, OUTPUT), 4096, usize::MAX, room)?;
        let writes = if room == 0 { 1 } else { 2 };
        same!(rt; told, (Err(DriveFault::Write), Some(room), writes), room);
    }
    Ok(())
}

/// How a conversation ends of which a write fails, after so many good ones, and how many right bytes were told, by how many writes.
fn write_fails(
    alloc: Global,
    size: usize,
    writes: usize,
) -> Result<(Result<(), DriveFault>, Option<usize>, usize), AllocError> {
    let mut agent = new_agent(alloc)?;
    let mut writer = FailingWriter::new(alloc, writes, Failure::Error(ErrorKind::Interrupted));
    let ended = hear(&mut agent, &mut Pieces::new(INPUT, size), &mut writer);
    Ok((ended, told_of(&writer.taken, OUTPUT), writer.calls))
}

/// A failed write ends the conversation and isn't tried again.
#[test]
fn a_write_that_fails_once(rt: HostRuntime) -> Result<(), Fail> {
    let fault = Err(DriveFault::Write);
    same!(rt; write_fails(rt.alloc(), 4096, 0)?, (fault, Some(0), 1));
    // a line to a piece at most
    for writes in 0..7usize {
        let told = first_lines(OUTPUT, writes).len();
        same!(rt; write_fails(rt.alloc(), 7, writes)?, (fault, Some(told), writes + 1), writes);
    }
    Ok(())
}

/// What is kept when a read fails was written before it.
#[test]
fn a_read_that_fails(rt: HostRuntime) -> Result<(), Fail> {
    let told = told_in(rt.alloc(), (INPUT, OUTPUT), 4096, 1, usize::MAX)?;
    same!(rt; told, (Err(DriveFault::Read), Some(OUTPUT.len()), 1));
    Ok(())
}

/// Text, so many times.
fn repeated(alloc: Global, text: &[u8], times: usize) -> Result<Vec<u8>, AllocError> {
    let mut all = Vec::new(alloc);
    for _ in 0..times {
        all.extend_from_slice(text)?;
    }
    Ok(all)
}

/// An object, and so many readings of 8 bytes in one piece, of ten bytes each: so many have room.
const READINGS: usize = 400;

/// What is said, what is answered, and how much of it is written first: the replies that fit whole.
fn readings(alloc: Global) -> Result<(Vec<u8>, Vec<u8>, usize), AllocError> {
    let mut said = Vec::from_slice(alloc, b"make 8\n")?;
    said.extend_from_slice(&repeated(alloc, b"get 1 0 8\n", READINGS)?)?;
    let mut told = Vec::from_slice(alloc, b"made 1\n")?;
    told.extend_from_slice(&repeated(alloc, b"bytes 0000000000000000\n", READINGS)?)?;
    let whole = 7 + (ROOM - 7) / 23 * 23;
    Ok((said, told, whole))
}

/// What is kept is written as soon as the next reply has no room beside it, and by lines: a writer that takes no more has whole lines.
#[test]
fn a_full_buffer(rt: HostRuntime) -> Result<(), Fail> {
    let (said, told, whole) = readings(rt.alloc())?;
    let lines = (said.as_slice(), told.as_slice());
    let found = told_in(rt.alloc(), lines, 4096, usize::MAX, usize::MAX)?;
    same!(rt; found, (Ok(()), Some(told.len()), 2));
    let found = told_in(rt.alloc(), lines, 4096, usize::MAX, whole)?;
    same!(rt; found, (Err(DriveFault::Write), Some(whole), 2));
    Ok(())
}

/// A reply of more bytes than are kept, before and after one that is kept.
#[test]
fn a_reply_that_is_never_kept(rt: HostRuntime) -> Result<(), Fail> {
    let digits = repeated(rt.alloc(), b"00", 4096)?;
    let mut told = Vec::from_slice(rt.alloc(), b"made 1\nbytes ")?;
    told.extend_from_slice(&digits)?;
    told.extend_from_slice(b"\nbytes 00\n")?;
    let said = b"make 4096\nget 1 0 4096\nget 1 0 1\n".as_slice();
    let found = told_in(
        rt.alloc(),
        (said, told.as_slice()),
        4096,
        usize::MAX,
        usize::MAX,
    )?;
    same!(rt; found, (Ok(()), Some(told.len()), 3));
    Ok(())
}
