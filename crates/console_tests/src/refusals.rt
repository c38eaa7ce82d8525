//! A conversation that moves an object, with its input cut and with devices and stores that fail.

use crate::compared::same;
use crate::talks::{Agent, count_lines, first_lines, new_agent, told_of};
use console::{Console, DriveFault};
use far_store::{Failing, OwnStore};
use std::alloc::{AllocError, Global};
use std::io::ErrorKind;
use std::test::Fail;
use test_devices::{FailingReader, FailingWriter, Failure, Narrow, Pieces};
use world::World;

/// Two machines add to an object, which leaves when both have ended, and comes back.
const INPUT: &[u8] = b"make 8\n\
ship 10 0x100000000 1 0 0 0 db21000000000000db210000000000009500000000000000\n\
ship 10 0x100000000 1 0 0 0 db21000000000000db210000000000009500000000000000\n\
step 1\nleave 1\nleft 1\nstep 2\nstep 2\nstep 1\nstep 1\nstep 2\nleave 1\nget 1 0 8\nleft 1\nreturn 1\nreturned 1\nget 1 0 8\n";

/// What they are answered.
const OUTPUT: &[u8] =
    b"made 1\nshipped 1\nshipped 2\nran 1 1\nkept 1 scoped\nplace 1 here\nran 2 1\nran 2 2\nran 1 2\n\
stopped 1 exit 0000000000000000\nstopped 2 exit 0000000000000000\nleaving 1\naway 1\nleft 1\nreturning 1\nhome 1\n\
bytes 0400000000000000\n";

/// An agent whose far store fails at this call.
fn failing_at(alloc: Global, call: u64) -> Result<Agent<Failing<OwnStore>>, AllocError> {
    let store = Failing::new(OwnStore::new(alloc), call);
    Ok(Agent {
        world: World::new(alloc, 67_108_864, store)?,
        console: Console::new(alloc)?,
    })
}

/// What such an agent answers to an input.
fn answers(alloc: Global, call: u64, input: &[u8]) -> Result<Vec<u8>, Fail> {
    let mut agent = failing_at(alloc, call)?;
    let mut out = Vec::new(alloc);
    agent.hear(&mut Pieces::new(input, 4096), &mut out)?;
    Ok(out)
}

/// What is answered to the first so many bytes of the conversation: as in the whole one to each line that is ended, and `cut` to
/// what is cut.
fn cut_after(alloc: Global, input: &[u8]) -> Result<Vec<u8>, AllocError> {
    let mut wanted = Vec::from_slice(alloc, first_lines(OUTPUT, count_lines(input)))?;
    if !input.is_empty() && !input.ends_with(b"\n") {
        wanted.extend_from_slice(b"cut\n")?;
    }
    Ok(wanted)
}

/// Each ended line is answered as in the whole conversation, and what is cut is `cut`.
#[test]
fn cut_lines(rt: HostRuntime) -> Result<(), Fail> {
    for length in 0..=INPUT.len() {
        let input = &INPUT[..length];
        let wanted = cut_after(rt.alloc(), input)?;
        same!(rt; answers(rt.alloc(), 0, input)?.as_slice(), wanted.as_slice(), length);
    }
    Ok(())
}

/// How a conversation ends, and how many right bytes it told.
type Ended = (Result<(), DriveFault>, Option<usize>);

/// The same of one of whose reads the one after so many fails.
fn with_reads(alloc: Global, reads: usize) -> Result<Ended, AllocError> {
    let mut agent = new_agent(alloc)?;
    let mut out = Vec::new(alloc);
    let mut reader = FailingReader::new(Pieces::new(INPUT, 16), reads);
    let ended = agent.hear(&mut reader, &mut out);
    Ok((ended, told_of(&out, OUTPUT)))
}

/// The same of one of whose writes the one after so many fails.
fn with_writes(alloc: Global, writes: usize) -> Result<Ended, AllocError> {
    let mut agent = new_agent(alloc)?;
    let failure = Failure::Error(ErrorKind::BrokenPipe);
    let mut writer = FailingWriter::new(alloc, writes, failure);
    let ended = agent.hear(&mut Pieces::new(INPUT, 4096), &mut writer);
    Ok((ended, told_of(&writer.taken, OUTPUT)))
}

/// The same of one whose writer takes so many bytes.
fn with_room(alloc: Global, room: usize) -> Result<Ended, AllocError> {
    let mut agent = new_agent(alloc)?;
    let mut writer = Narrow::new(alloc, 1, room);
    let ended = agent.hear(&mut Pieces::new(INPUT, 4096), &mut writer);
    Ok((ended, told_of(&writer.taken, OUTPUT)))
}

/// What was written before a read or a write failed is whole replies, or a beginning of them where
/// the writer took a part.
#[test]
fn failing_device(rt: HostRuntime) -> Result<(), Fail> {
    for reads in 0..INPUT.len() / 16 + 2 {
        let heard = count_lines(&INPUT[..INPUT.len().min(reads * 16)]);
        let wanted = (
            Err(DriveFault::Read),
            Some(first_lines(OUTPUT, heard).len()),
        );
        same!(rt; with_reads(rt.alloc(), reads)?, wanted, reads);
    }
    for writes in 0..count_lines(OUTPUT) {
        let wanted = (
            Err(DriveFault::Write),
            Some(first_lines(OUTPUT, writes).len()),
        );
        same!(rt; with_writes(rt.alloc(), writes)?, wanted, writes);
    }
    for room in 0..OUTPUT.len() {
        same!(rt; with_room(rt.alloc(), room)?, (Err(DriveFault::Write), Some(room)), room);
    }
    Ok(())
}

/// A conversation in which an object leaves and comes home, twice each.
const MOVES: &[u8] =
    b"make 8\nput 1 0 07\nleave 1\nleft 1\nleave 1\nleft 1\nreturn 1\nreturned 1\nreturn 1\nreturned 1\nget 1 0 1\n";

/// What its moves are answered after the first one, where no call fails, the first or the second.
const MOVED: &[&[u8]] = &[
    b"left 1\nplace 1 far\nplace 1 far\nreturning 1\nhome 1\nplace 1 here\nplace 1 here\n",
    b"kept 1 fault here\nleaving 1\nleft 1\nreturning 1\nhome 1\nplace 1 here\nplace 1 here\n",
    b"left 1\nplace 1 far\nplace 1 far\nreturning 1\nkept 1 fault far\nreturning 1\nhome 1\n",
];

/// What the whole conversation is answered.
fn moved(alloc: Global, told: &[u8]) -> Result<Vec<u8>, AllocError> {
    let mut wanted = Vec::from_slice(alloc, b"made 1\nok\nleaving 1\n")?;
    wanted.extend_from_slice(told)?;
    wanted.extend_from_slice(b"bytes 07\n")?;
    Ok(wanted)
}

/// An object whose bytes can't be sent is here again, one whose bytes can't be fetched is far
/// again, and the next attempt moves it.
#[test]
fn failing_store(rt: HostRuntime) -> Result<(), Fail> {
    for (call, told) in MOVED.iter().enumerate() {
        let wanted = moved(rt.alloc(), told)?;
        let found = answers(rt.alloc(), call as u64, MOVES)?;
        same!(rt; found.as_slice(), wanted.as_slice(), call);
    }
    Ok(())
}
