//! Readers and writers that fail.

use crate::compared::same;
use crate::talks::{
    INPUT, OUTPUT, count_done, count_lines, first_lines, new_agent, seen_done, told_of,
};
use console::{DriveFault, LineFault};
use std::alloc::{AllocError, Global};
use std::fmt::Display;
use std::io::ErrorKind;
use std::test::Fail;
use streams::{WriteFault, put_all};
use test_devices::{FailingReader, FailingWriter, Failure, Narrow, Pieces};

/// The text of a fault.
fn text_of<F: Display>(alloc: Global, fault: &F) -> Result<String, Fail> {
    Ok(format!(in alloc; "{fault}")?)
}

#[test]
fn numbers_and_texts(rt: HostRuntime) -> Result<(), Fail> {
    for &(fault, number, text) in &[
        (LineFault::Bad, 1u8, "the line spells no command"),
        (LineFault::NoMemory, 2, "no memory"),
    ] {
        same!(rt; fault.number(), number);
        same!(rt; text_of(rt.alloc(), &fault)?.as_str(), text);
    }
    for &(fault, number, text) in &[
        (DriveFault::Read, 1u8, "read fault"),
        (DriveFault::Write, 2, "write fault"),
    ] {
        same!(rt; fault.number(), number);
        same!(rt; text_of(rt.alloc(), &fault)?.as_str(), text);
    }
    same!(rt; text_of(rt.alloc(), &WriteFault)?.as_str(), "write fault");
    Ok(())
}

/// What came of a conversation: how it ended, how many calls there were of the device that fails, how many right bytes were
/// told, and how many commands are done.
type Came = (Result<(), DriveFault>, usize, Option<usize>, usize);

/// What comes of reads of seven bytes, of which one fails after so many good ones. Then how the conversation ends that goes
/// on, and how many right bytes were told in both.
fn read_fails(
    alloc: Global,
    kind: ErrorKind,
    reads: usize,
) -> Result<(Came, Result<(), DriveFault>, Option<usize>), AllocError> {
    let mut agent = new_agent(alloc)?;
    let mut out = Vec::new(alloc);
    let mut reader = FailingReader::new(Pieces::new(INPUT, 7), reads);
    reader.kind = kind;
    let ended = agent.hear(&mut reader, &mut out);
    let (calls, told) = (reader.calls, told_of(&out, OUTPUT));
    let came = (ended, calls, told, count_done(&mut agent.world));
    let ended = agent.hear(&mut reader, &mut out);
    Ok((came, ended, told_of(&out, OUTPUT)))
}

/// Any error of a reader ends the conversation at once, an interrupted call too, and it can go on
/// later with nothing lost.
#[test]
fn a_read_fails(rt: HostRuntime) -> Result<(), Fail> {
    for &kind in &[ErrorKind::BrokenPipe, ErrorKind::Interrupted] {
        // 101 bytes, seven at a time, and the end
        for reads in 0..16usize {
            let found = read_fails(rt.alloc(), kind, reads)?;
            let heard = count_lines(&INPUT[..INPUT.len().min(reads * 7)]);
            let told = first_lines(OUTPUT, heard).len();
            let fault = Err(DriveFault::Read);
            let came = (fault, reads + 1, Some(told), seen_done(heard));
            same!(rt; found, (came, Ok(()), Some(OUTPUT.len())), reads);
        }
    }
    Ok(())
}

/// What comes of writes of which one fails so, after so many good ones. Then how many reads there were, and whether the console
/// holds the beginning of a line, and a whole one.
fn write_fails(
    alloc: Global,
    failure: Failure,
    writes: usize,
) -> Result<(Came, usize, [bool; 2]), AllocError> {
    let mut agent = new_agent(alloc)?;
    let mut writer = FailingWriter::new(alloc, writes, failure);
    let mut reader = Pieces::new(INPUT, 4096);
    let ended = agent.hear(&mut reader, &mut writer);
    let (calls, told) = (writer.calls, told_of(&writer.taken, OUTPUT));
    let came = (ended, calls, told, count_done(&mut agent.world));
    Ok((came, reader.calls, agent.holds()))
}

/// A failed write, or one that took no byte, ends the conversation at once and is not tried again.
#[test]
fn a_write_fails(rt: HostRuntime) -> Result<(), Fail> {
    for &failure in &[
        Failure::Error(ErrorKind::BrokenPipe),
        Failure::Error(ErrorKind::Interrupted),
        Failure::TakesNothing,
    ] {
        for writes in 0..7usize {
            let found = write_fails(rt.alloc(), failure, writes)?;
            let told = first_lines(OUTPUT, writes).len();
            // the command whose reply was due is done, and no later one
            let done = seen_done(writes + 1);
            let came = (Err(DriveFault::Write), writes + 1, Some(told), done);
            same!(rt; found, (came, 1, [false; 2]), writes);
        }
    }
    Ok(())
}

/// What comes of a writer that takes so many bytes, some at a time.
fn with_room(alloc: Global, size: usize, room: usize) -> Result<Came, AllocError> {
    let mut agent = new_agent(alloc)?;
    let mut writer = Narrow::new(alloc, size, room);
    let ended = agent.hear(&mut Pieces::new(INPUT, 4096), &mut writer);
    let (calls, told) = (writer.calls, told_of(&writer.taken, OUTPUT));
    Ok((ended, calls, told, count_done(&mut agent.world)))
}

#[test]
fn a_writer_takes_no_more(rt: HostRuntime) -> Result<(), Fail> {
    for room in 0..=OUTPUT.len() {
        let told = count_lines(&OUTPUT[..room]);
        let done = seen_done(told.saturating_add(1).min(7));
        let wanted = if room < OUTPUT.len() {
            Err(DriveFault::Write)
        } else {
            Ok(())
        };
        for &size in &[1usize, 5] {
            let (ended, _, told, did) = with_room(rt.alloc(), size, room)?;
            same!(rt; (ended, told, did), (wanted, Some(room), done), room);
        }
    }
    Ok(())
}

#[test]
fn each_reply_is_one_write(rt: HostRuntime) -> Result<(), Fail> {
    let (ended, calls, _, _) = with_room(rt.alloc(), 10_000, 10_000)?;
    same!(rt; (ended, calls), (Ok(()), 7));
    Ok(())
}

/// How a conversation ends with a rest, over a writer that takes two bytes, how many reads there were, whether the console holds
/// the rest, and whether the bytes are of `cut`.
fn cut_with_room(alloc: Global) -> Result<(Result<(), DriveFault>, usize, bool, bool), AllocError> {
    let mut agent = new_agent(alloc)?;
    let mut writer = Narrow::new(alloc, 1, 2);
    let mut reader = Pieces::new(b"regs 1".as_slice(), 4096);
    let ended = agent.hear(&mut reader, &mut writer);
    let is_told = writer.taken.as_slice() == b"cu".as_slice();
    Ok((ended, reader.calls, agent.console.rest(), is_told))
}

#[test]
fn cut_is_not_written(rt: HostRuntime) -> Result<(), Fail> {
    let found = cut_with_room(rt.alloc())?;
    same!(rt; found, (Err(DriveFault::Write), 2, false, true));
    Ok(())
}

#[test]
fn all_is_put(rt: HostRuntime) {
    let mut writer = Narrow::new(rt.alloc(), 2, 100);
    same!(rt; put_all(&mut writer, b"abcde"), Ok(()));
    same!(rt; writer.taken.as_slice(), b"abcde".as_slice());
    same!(rt; writer.calls, 3);
    same!(rt; put_all(&mut writer, b""), Ok(()));
    same!(rt; writer.calls, 3);
}
