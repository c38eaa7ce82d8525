//! What a server answers.

use crate::compared::same;
use crate::frames::{
    DONE, FORGET, GET, NO_ROOM, PUT, REFUSED_ID, add_frame, add_head, first, pattern,
};
use crate::wire::{BYTES, Heard, Limits, UNLIMITED, Wire};
use far_stream::{Budget, KEPT_LIMIT, PAYLOAD_LIMIT, StreamFault, serve_store, serve_store_within};
use std::alloc::{AllocError, Global};
use std::test::Fail;

#[test]
fn limits_and_numbers(rt: HostRuntime) -> Result<(), Fail> {
    same!(rt; KEPT_LIMIT, 1024);
    same!(rt; PAYLOAD_LIMIT, 65_536);
    for &(fault, number, text) in &[
        (StreamFault::Io, 1u8, "the stream failed"),
        (StreamFault::Damaged, 2, "damaged bytes"),
        (StreamFault::Protocol, 3, "protocol broken"),
    ] {
        same!(rt; fault.number(), number);
        same!(rt; format!(in rt.alloc(); "{fault}")?.as_str(), text);
    }
    Ok(())
}

/// A request, its kind, id and bytes, and its answer, status and bytes.
type Step = (u8, u64, &'static [u8], u8, &'static [u8]);

/// A conversation with each request and each answer, of short payloads.
const TALK: &[Step] = &[
    (PUT, 1, b"abc", DONE, b""),
    (PUT, 1, b"other", REFUSED_ID, b""),
    (GET, 1, b"", DONE, b"abc"),
    (GET, 2, b"", REFUSED_ID, b""),
    (PUT, u64::MAX, b"last", DONE, b""),
    (PUT, 0, b"z", DONE, b""),
    (GET, 0, b"", DONE, b"z"),
    (FORGET, 1, b"", DONE, b""),
    (FORGET, 1, b"", REFUSED_ID, b""),
    (GET, 1, b"", REFUSED_ID, b""),
    (PUT, 1, b"new", DONE, b""),
    (GET, 1, b"", DONE, b"new"),
    (GET, u64::MAX, b"", DONE, b"last"),
    (FORGET, u64::MAX, b"", DONE, b""),
    (GET, u64::MAX, b"", REFUSED_ID, b""),
];

/// The bytes of these requests.
fn asks(alloc: Global, steps: &[Step]) -> Result<Vec<u8>, AllocError> {
    let mut asks = Vec::new(alloc);
    for (kind, id, bytes, _, _) in steps {
        add_frame(&mut asks, *kind, *id, bytes)?;
    }
    Ok(asks)
}

/// The bytes of their answers.
fn says(alloc: Global, steps: &[Step]) -> Result<Vec<u8>, AllocError> {
    let mut says = Vec::new(alloc);
    for (_, id, _, status, bytes) in steps {
        add_frame(&mut says, *status, *id, bytes)?;
    }
    Ok(says)
}

/// The bytes of the conversation's requests and of its answers.
fn talk(alloc: Global) -> Result<(Vec<u8>, Vec<u8>), AllocError> {
    Ok((asks(alloc, TALK)?, says(alloc, TALK)?))
}

/// How many bytes are answered to the first so many of the conversation, and whether they end with a
/// request.
fn answered(count: usize) -> (usize, bool) {
    let mut asked = 0usize;
    let mut said = 0usize;
    for (_, _, bytes, _, gives) in TALK {
        let end = asked.saturating_add(13).saturating_add(bytes.len());
        if count < end {
            return (said, count == asked);
        }
        asked = end;
        said = said.saturating_add(13).saturating_add(gives.len());
    }
    (said, true)
}

/// How a server ends that is asked this over a stream with these limits, and whether it answers so many bytes of what it should.
fn served_within(
    alloc: Global,
    asks: &[u8],
    says: &[u8],
    limits: Limits,
    count: usize,
) -> (Result<(), StreamFault>, bool) {
    let heard = Heard::new();
    let mut wire = Wire::within(asks, says, &heard, limits);
    let ended = serve_store(alloc, &mut wire);
    (ended, heard.is(count))
}

/// How a server ends that is asked this, if it answers so many bytes of what it should.
fn served(
    alloc: Global,
    asks: &[u8],
    says: &[u8],
    count: usize,
) -> Option<Result<(), StreamFault>> {
    let (ended, is_right) = served_within(alloc, asks, says, UNLIMITED, count);
    is_right.then_some(ended)
}

/// Each answer is one write.
#[test]
fn each_request_is_answered(rt: HostRuntime) -> Result<(), Fail> {
    let (asks, says) = talk(rt.alloc())?;
    let heard = Heard::new();
    let mut wire = Wire::new(&asks, &says, &heard);
    same!(rt; serve_store(rt.alloc(), &mut wire), Ok(()));
    assert!(rt; heard.is(says.len()));
    same!(rt; heard.writes.get(), TALK.len());
    Ok(())
}

#[test]
fn nothing_is_asked(rt: HostRuntime) {
    same!(rt; served(rt.alloc(), &[], &[], 0), Some(Ok(())));
}

/// Input that ends between requests is its proper end, and within one it breaks the protocol. What was
/// whole is answered.
#[test]
fn requests_cut_after_each_byte(rt: HostRuntime) -> Result<(), Fail> {
    let (asks, says) = talk(rt.alloc())?;
    for count in 0..=asks.len() {
        let (said, is_whole) = answered(count);
        let ended = served(rt.alloc(), first(&asks, count), &says, said);
        let wanted = if is_whole {
            Ok(())
        } else {
            Err(StreamFault::Protocol)
        };
        same!(rt; ended, Some(wanted), count);
    }
    Ok(())
}

/// How a server ends whose stream fails.
const FAILS: Result<(), StreamFault> = Err(StreamFault::Io);

#[test]
fn each_read_of_the_server_fails(rt: HostRuntime) -> Result<(), Fail> {
    let (asks, says) = talk(rt.alloc())?;
    for good_reads in 0..=asks.len() {
        let (said, _) = answered(good_reads);
        let limits = Limits {
            good_reads,
            ..BYTES
        };
        let found = served_within(rt.alloc(), &asks, &says, limits, said);
        same!(rt; found, (FAILS, true), good_reads);
    }
    Ok(())
}

#[test]
fn each_write_of_the_server_fails(rt: HostRuntime) -> Result<(), Fail> {
    let (asks, says) = talk(rt.alloc())?;
    for good_writes in 0..says.len() {
        for &takes_nothing in &[false, true] {
            let limits = Limits {
                good_writes,
                takes_nothing,
                ..BYTES
            };
            let found = served_within(rt.alloc(), &asks, &says, limits, good_writes);
            same!(rt; found, (FAILS, true), (good_writes, takes_nothing));
        }
    }
    Ok(())
}

#[test]
fn requests_in_pieces(rt: HostRuntime) -> Result<(), Fail> {
    let (asks, says) = talk(rt.alloc())?;
    for size in 1..=20usize {
        let limits = Limits { size, ..UNLIMITED };
        let found = served_within(rt.alloc(), &asks, &says, limits, says.len());
        same!(rt; found, (Ok(()), true), size);
    }
    Ok(())
}

/// How a server ends that has put `abc`, and then is asked what has this head; to that it answers
/// nothing.
fn served_after_a_put(alloc: Global, kind: u8, count: u32) -> Option<StreamFault> {
    let mut asks = Vec::new(alloc);
    let mut says = Vec::new(alloc);
    add_frame(&mut asks, PUT, 1, b"abc").ok()?;
    add_head(&mut says, DONE, 1, 0).ok()?;
    add_head(&mut asks, kind, 2, count).ok()?;
    asks.extend_from_slice(b"xyz").ok()?;
    served(alloc, &asks, &says, says.len())?.err()
}

/// Heads that no request has: nothing is answered to them, and what came before is.
#[test]
fn what_is_no_request(rt: HostRuntime) {
    for &(kind, count) in &[
        (0u8, 0u32),
        (4, 0),
        (4, 3),
        (255, 0),
        (PUT, 0),
        (PUT, 65_537),
        (PUT, u32::MAX),
        (GET, 1),
        (GET, u32::MAX),
        (FORGET, 1),
    ] {
        let ended = served_after_a_put(rt.alloc(), kind, count);
        same!(rt; ended, Some(StreamFault::Protocol), (kind, count));
    }
}

/// Puts of one byte, of this payload and of one byte less under an id that is kept, and gets of both.
fn lengths_asked(alloc: Global, whole: &[u8]) -> Result<Vec<u8>, AllocError> {
    let mut asks = Vec::new(alloc);
    add_frame(&mut asks, PUT, 1, b"a")?;
    add_frame(&mut asks, PUT, 2, whole)?;
    add_frame(&mut asks, PUT, 2, first(whole, 65_535))?;
    add_head(&mut asks, GET, 2, 0)?;
    add_head(&mut asks, GET, 1, 0)?;
    Ok(asks)
}

/// Their answers.
fn lengths_said(alloc: Global, whole: &[u8]) -> Result<Vec<u8>, AllocError> {
    let mut says = Vec::new(alloc);
    add_head(&mut says, DONE, 1, 0)?;
    add_head(&mut says, DONE, 2, 0)?;
    add_head(&mut says, REFUSED_ID, 2, 0)?;
    add_frame(&mut says, DONE, 2, whole)?;
    add_frame(&mut says, DONE, 1, b"a")?;
    Ok(says)
}

/// The shortest and the longest payload.
#[test]
fn lengths_that_are_kept(rt: HostRuntime) -> Result<(), Fail> {
    let whole = pattern(rt.alloc(), 65_536)?;
    let asks = lengths_asked(rt.alloc(), &whole)?;
    let says = lengths_said(rt.alloc(), &whole)?;
    let ended = served(rt.alloc(), &asks, &says, says.len());
    same!(rt; ended, Some(Ok(())));
    Ok(())
}

/// What is asked after 1024 puts, each of its id as eight bytes: the next finds no room; an id that is
/// kept is refused first.
const FULL: &[Step] = &[
    (PUT, 1025, b"late", NO_ROOM, b""),
    (PUT, 5, b"again", REFUSED_ID, b""),
    (GET, 1025, b"", REFUSED_ID, b""),
    (GET, 1024, b"", DONE, b"\0\0\0\0\0\0\x04\0"),
    (GET, 1, b"", DONE, b"\0\0\0\0\0\0\0\x01"),
    (FORGET, 7, b"", DONE, b""),
    (PUT, 1025, b"late", DONE, b""),
    (PUT, 1026, b"later", NO_ROOM, b""),
    (GET, 1025, b"", DONE, b"late"),
    (GET, 7, b"", REFUSED_ID, b""),
];

/// The puts, and what is asked after them.
fn many_asked(alloc: Global) -> Result<Vec<u8>, AllocError> {
    let mut asked = Vec::new(alloc);
    for id in 1..=1024u64 {
        add_frame(&mut asked, PUT, id, &id.to_be_bytes())?;
    }
    asked.extend_from_slice(&asks(alloc, FULL)?)?;
    Ok(asked)
}

/// Their answers.
fn many_said(alloc: Global) -> Result<Vec<u8>, AllocError> {
    let mut said = Vec::new(alloc);
    for id in 1..=1024u64 {
        add_head(&mut said, DONE, id, 0)?;
    }
    said.extend_from_slice(&says(alloc, FULL)?)?;
    Ok(said)
}

/// 1024 parcels are kept, and the next finds no room.
#[test]
fn parcels_up_to_the_limit(rt: HostRuntime) -> Result<(), Fail> {
    let (asks, says) = (many_asked(rt.alloc())?, many_said(rt.alloc())?);
    let ended = served(rt.alloc(), &asks, &says, says.len());
    same!(rt; ended, Some(Ok(())));
    Ok(())
}

/// How a server ends that is asked this alone, where it answers what it should.
fn served_alone(alloc: Global, step: Step) -> Result<Option<Result<(), StreamFault>>, AllocError> {
    let (asks, says) = (asks(alloc, &[step])?, says(alloc, &[step])?);
    Ok(served(alloc, &asks, &says, says.len()))
}

/// A second client begins with nothing kept.
#[test]
fn a_conversation_keeps_nothing_for_the_next(rt: HostRuntime) -> Result<(), Fail> {
    let put = served_alone(rt.alloc(), (PUT, 1, b"abc", DONE, b""))?;
    same!(rt; put, Some(Ok(())));
    let got = served_alone(rt.alloc(), (GET, 1, b"", REFUSED_ID, b""))?;
    same!(rt; got, Some(Ok(())));
    Ok(())
}

/// A conversation of a server that keeps five bytes at most.
const BOUNDED: &[Step] = &[
    (PUT, 1, b"abc", DONE, b""),
    (PUT, 2, b"xyz", NO_ROOM, b""),
    (PUT, 1, b"xyz", REFUSED_ID, b""),
    (PUT, 3, b"de", DONE, b""),
    (PUT, 4, b"f", NO_ROOM, b""),
    (FORGET, 1, b"", DONE, b""),
    (PUT, 4, b"fgh", DONE, b""),
    (GET, 4, b"", DONE, b"fgh"),
    (GET, 2, b"", REFUSED_ID, b""),
];

/// How often this conversation is answered as it should be, of two times over the same budget.
fn bounded(alloc: Global) -> Result<usize, AllocError> {
    let (asks, says) = (asks(alloc, BOUNDED)?, says(alloc, BOUNDED)?);
    let budget = Budget::new(5);
    let mut right = 0usize;
    for _ in 0..2 {
        let heard = Heard::new();
        let mut wire = Wire::new(&asks, &says, &heard);
        let ended = serve_store_within(alloc, &mut wire, &budget);
        right = right.saturating_add(usize::from(ended == Ok(()) && heard.is(says.len())));
    }
    Ok(right)
}

/// A put beyond the budget finds no room. What is forgotten, and what is kept at the end, is given back.
#[test]
fn a_budget_bounds_what_is_kept(rt: HostRuntime) -> Result<(), Fail> {
    same!(rt; bounded(rt.alloc())?, 2);
    Ok(())
}
