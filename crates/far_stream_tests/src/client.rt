//! What a client takes, and what it doesn't.

use crate::calls::{Client, Outcome};
use crate::compared::same;
use crate::frames::{
    ALL_ASKS, ASKS, DONE, DONE_ONE, GET_ASKS, GIVES_ABC, PUT, PUT_ASKS, SAYS, add_frame, frame,
    joined, pattern,
};
use crate::wire::{Heard, Wire};
use far_store::StoreFault;
use far_stream::StreamStore;
use std::alloc::{AllocError, Global};
use std::test::Fail;

/// A client whose stream says this, and should hear that.
fn client<'a>(
    alloc: Global,
    says: &'a [u8],
    hears: &'a [u8],
    heard: &'a Heard,
) -> Client<StreamStore<Wire<'a>>> {
    Client::new(
        alloc,
        StreamStore::new(alloc, Wire::new(says, hears, heard)),
    )
}

/// A put of `abc`, a get and a forget of it: what came of the first two, whether what was written by
/// then is right after each, and how many faults were counted.
fn there_and_back(alloc: Global) -> ([Outcome; 2], [bool; 3], u64) {
    let heard = Heard::new();
    let mut client = client(alloc, SAYS, ASKS, &heard);
    let put = client.put(b"abc");
    let is_put = heard.is(PUT_ASKS) && heard.writes.get() == 1;
    let got = client.get(0, b"abc");
    let is_got = heard.is(GET_ASKS);
    client.forget();
    let is_forgotten = heard.is(ALL_ASKS);
    ([put, got], [is_put, is_got, is_forgotten], client.faults())
}

#[test]
fn a_put_and_a_get_byte_for_byte(rt: HostRuntime) {
    let found = there_and_back(rt.alloc());
    same!(rt; found, ([Outcome::Done; 2], [true; 3], 0));
}

const REFUSED: Outcome = Outcome::Fault(StoreFault::Refused);

const DAMAGED: Outcome = Outcome::Fault(StoreFault::Damaged);

const PROTOCOL: Outcome = Outcome::Fault(StoreFault::Protocol);

const LOST: Outcome = Outcome::Fault(StoreFault::Io);

/// What a get of `abc` may be answered, what comes of it, and what comes of the next get, for which the
/// right answer follows.
const GETS: &[(&[u8], Outcome, Outcome)] = &[
    (
        b"\x00\0\0\0\0\0\0\0\x01\0\0\0\x03abc",
        Outcome::Done,
        Outcome::Done,
    ),
    (
        b"\x00\0\0\0\0\0\0\0\x01\0\0\0\x03abd",
        DAMAGED,
        Outcome::Done,
    ),
    (b"\x00\0\0\0\0\0\0\0\x01\0\0\0\x00", DAMAGED, Outcome::Done),
    (
        b"\x00\0\0\0\0\0\0\0\x01\0\0\0\x02ab",
        DAMAGED,
        Outcome::Done,
    ),
    (
        b"\x00\0\0\0\0\0\0\0\x01\0\0\0\x04abca",
        DAMAGED,
        Outcome::Done,
    ),
    (b"\x01\0\0\0\0\0\0\0\x01\0\0\0\x00", REFUSED, Outcome::Done),
    (b"\x02\0\0\0\0\0\0\0\x01\0\0\0\x00", REFUSED, Outcome::Done),
    (b"\x00\0\0\0\0\0\0\0\x02\0\0\0\x03abc", PROTOCOL, PROTOCOL),
    (b"\x00\x01\0\0\0\0\0\0\x01\0\0\0\x03abc", PROTOCOL, PROTOCOL),
    (b"\x03\0\0\0\0\0\0\0\x01\0\0\0\x00", PROTOCOL, PROTOCOL),
    (b"\x01\0\0\0\0\0\0\0\x01\0\0\0\x03abc", PROTOCOL, PROTOCOL),
    (b"\x00\0\0\0\0\0\0\0\x01\0\x01\0\x01", PROTOCOL, PROTOCOL),
    (
        b"\x00\0\0\0\0\0\0\0\x01\xff\xff\xff\xff",
        PROTOCOL,
        PROTOCOL,
    ),
];

/// A put of `abc` as id 1, and two gets of it.
const GOT_TWICE: &[u8] =
    b"\x01\0\0\0\0\0\0\0\x01\0\0\0\x03abc\x02\0\0\0\0\0\0\0\x01\0\0\0\0\x02\0\0\0\0\0\0\0\x01\0\0\0\0";

/// A put of these bytes and two gets of them: what comes of each get, and how many faults were counted
/// after it, where what is written is what should be.
fn got_twice<'a>(
    alloc: Global,
    bytes: &[u8],
    says: &'a [u8],
    hears: &'a [u8],
) -> [Option<(Outcome, u64)>; 2] {
    let heard = Heard::new();
    let mut client = client(alloc, says, hears, &heard);
    client.put(bytes);
    let once = hears.len().saturating_sub(13);
    let first = (client.get(0, bytes), client.faults());
    let is_first = heard.is(once);
    let next = (client.get(0, bytes), client.faults());
    let is_next = heard.is(if next.0 == Outcome::Done {
        hears.len()
    } else {
        once
    });
    [is_first.then_some(first), is_next.then_some(next)]
}

/// The same of `abc`, where the first get has this answer and the second the right one.
fn got_after(alloc: Global, answer: &[u8]) -> [Option<(Outcome, u64)>; 2] {
    match joined(alloc, DONE_ONE, answer, GIVES_ABC) {
        Ok(says) => got_twice(alloc, b"abc", &says, GOT_TWICE),
        Err(_) => [None, None],
    }
}

#[test]
fn what_a_get_may_be_answered(rt: HostRuntime) {
    for &(answer, outcome, next) in GETS {
        let faults = if outcome == Outcome::Done { 0u64 } else { 1 };
        let later = if next == Outcome::Done { faults } else { 2 };
        let wanted = [Some((outcome, faults)), Some((next, later))];
        same!(rt; got_after(rt.alloc(), answer), wanted, answer);
    }
}

/// A get over a stream that says this, and then a get, a put and a forget: what came of the first three,
/// how many faults were counted before the forget and after it, and whether nothing was read and
/// written after the first.
fn asked_again(alloc: Global, says: &[u8]) -> ([Outcome; 3], [u64; 2], bool) {
    let heard = Heard::new();
    let mut client = client(alloc, says, ASKS, &heard);
    client.put(b"abc");
    let first = client.get(0, b"abc");
    let calls = (heard.reads.get(), heard.writes.get());
    let next = [first, client.get(0, b"abc"), client.put(b"xyz")];
    let faults = client.faults();
    client.forget();
    let is_silent = (heard.reads.get(), heard.writes.get()) == calls;
    (next, [faults, client.faults()], is_silent)
}

/// The answer to the put, and an answer to the get that is cut off, or has a status that there isn't.
const BROKEN: &[(&[u8], StoreFault)] = &[
    (
        b"\0\0\0\0\0\0\0\0\x01\0\0\0\0\0\0\0\0\0\0\0\0\x01",
        StoreFault::Io,
    ),
    (
        b"\0\0\0\0\0\0\0\0\x01\0\0\0\0\x04\0\0\0\0\0\0\0\x01\0\0\0\0",
        StoreFault::Protocol,
    ),
];

/// After `Io` and `Protocol` each call answers that fault, counts it, writes nothing and reads nothing.
#[test]
fn a_broken_stream_stays_broken(rt: HostRuntime) {
    for &(says, fault) in BROKEN {
        let found = asked_again(rt.alloc(), says);
        same!(rt; found, ([Outcome::Fault(fault); 3], [3, 4], true));
    }
}

/// What a put may be answered, what comes of it, and whether the stream goes on.
const PUTS: &[(&[u8], Outcome, bool)] = &[
    (b"\x00\0\0\0\0\0\0\0\x01\0\0\0\0", Outcome::Done, true),
    (b"\x01\0\0\0\0\0\0\0\x01\0\0\0\0", REFUSED, true),
    (b"\x02\0\0\0\0\0\0\0\x01\0\0\0\0", REFUSED, true),
    (b"\x03\0\0\0\0\0\0\0\x01\0\0\0\0", PROTOCOL, false),
    (b"\x00\0\0\0\0\0\0\0\x00\0\0\0\0", PROTOCOL, false),
    (b"\x00\0\0\0\0\0\0\0\x02\0\0\0\0", PROTOCOL, false),
    (b"\x00\0\0\0\0\0\0\0\x01\0\0\0\x03abc", PROTOCOL, false),
    (b"\x00\0\0\0\0\0\0\0\x01\0\0\0", LOST, false),
];

/// A put of `abc` as id 1, and a put of `x` as id 2.
const PUT_TWICE: &[u8] = b"\x01\0\0\0\0\0\0\0\x01\0\0\0\x03abc\x01\0\0\0\0\0\0\0\x02\0\0\0\x01x";

/// The answer to the second.
const DONE_TWO: &[u8] = b"\0\0\0\0\0\0\0\0\x02\0\0\0\0";

/// Two puts over a stream that says this: what comes of each, where what is written is what should be.
fn put_twice(alloc: Global, says: &[u8]) -> Option<(Outcome, Outcome)> {
    let heard = Heard::new();
    let mut client = client(alloc, says, PUT_TWICE, &heard);
    let first = client.put(b"abc");
    let is_first = heard.is(PUT_ASKS);
    let second = client.put(b"x");
    let is_asked = second == Outcome::Done;
    let asked = if is_asked { PUT_TWICE.len() } else { PUT_ASKS };
    (is_first && heard.is(asked)).then_some((first, second))
}

/// The same, with these answers.
fn put_after(alloc: Global, answer: &[u8], next: &[u8]) -> Option<(Outcome, Outcome)> {
    let says = joined(alloc, answer, next, &[]).ok()?;
    put_twice(alloc, &says)
}

#[test]
fn what_a_put_may_be_answered(rt: HostRuntime) {
    for &(answer, outcome, goes_on) in PUTS {
        let second = if goes_on { Outcome::Done } else { outcome };
        let next = if goes_on { DONE_TWO } else { &[] };
        let found = put_after(rt.alloc(), answer, next);
        same!(rt; found, Some((outcome, second)), answer);
    }
}

/// What a forget may be answered, and how many faults were counted after it and one more put.
const FORGETS: &[(&[u8], u64)] = &[
    (b"\x00\0\0\0\0\0\0\0\x01\0\0\0\x00", 0),
    (b"\x01\0\0\0\0\0\0\0\x01\0\0\0\x00", 0),
    (b"\x02\0\0\0\0\0\0\0\x01\0\0\0\x00", 0),
    (b"\x03\0\0\0\0\0\0\0\x01\0\0\0\x00", 2),
    (b"\x00\0\0\0\0\0\0\0\x02\0\0\0\x00", 2),
    (b"\x00\0\0\0\0\0\0\0\x01\0\0\0\x03", 2),
];

/// A put of `abc` as id 1, a forget of it, and a put of `x` as id 2.
const FORGOTTEN: &[u8] =
    b"\x01\0\0\0\0\0\0\0\x01\0\0\0\x03abc\x03\0\0\0\0\0\0\0\x01\0\0\0\0\x01\0\0\0\0\0\0\0\x02\0\0\0\x01x";

/// A put, a forget and a put over a stream that says this: whether both puts are done, and how many
/// faults were counted, where what is written is what should be.
fn forgotten(alloc: Global, says: &[u8]) -> Option<(bool, u64)> {
    let heard = Heard::new();
    let mut client = client(alloc, says, FORGOTTEN, &heard);
    let is_put = client.put(b"abc") == Outcome::Done;
    client.forget();
    let goes_on = client.put(b"x") == Outcome::Done;
    let asked = if goes_on { FORGOTTEN.len() } else { GET_ASKS };
    heard
        .is(asked)
        .then_some((is_put && goes_on, client.faults()))
}

/// The same, where the forget has this answer.
fn forgotten_after(alloc: Global, answer: &[u8]) -> Option<(bool, u64)> {
    let says = joined(alloc, DONE_ONE, answer, DONE_TWO).ok()?;
    forgotten(alloc, &says)
}

/// A forget takes a refusal for done; any other answer is a fault.
#[test]
fn what_a_forget_may_be_answered(rt: HostRuntime) {
    for &(answer, faults) in FORGETS {
        let found = forgotten_after(rt.alloc(), answer);
        same!(rt; found, Some((faults == 0, faults)), answer);
    }
}

/// A put of these bytes, and then of `abc`: what comes of each, and whether the first writes nothing and
/// takes no number.
fn put_before(alloc: Global, bytes: &[u8]) -> ([Outcome; 2], bool) {
    let heard = Heard::new();
    let mut client = client(alloc, DONE_ONE, ASKS, &heard);
    let first = client.put(bytes);
    let is_unsent = heard.writes.get() == 0 && client.faults() == 1;
    let next = client.put(b"abc");
    ([first, next], is_unsent && heard.is(PUT_ASKS))
}

/// Bytes that no frame can carry are refused: nothing is written, and no number is taken.
#[test]
fn lengths_that_no_put_has(rt: HostRuntime) -> Result<(), Fail> {
    for &count in &[0usize, 65_537, 1_048_576] {
        let bytes = pattern(rt.alloc(), count)?;
        let found = put_before(rt.alloc(), &bytes);
        same!(rt; found, ([REFUSED, Outcome::Done], true), count);
    }
    Ok(())
}

/// The frames of the shortest put, as id 1, and of the longest, as id 2.
fn shortest_and_longest(alloc: Global, longest: &[u8]) -> Result<Vec<u8>, AllocError> {
    let mut hears = frame(alloc, PUT, 1, b"a")?;
    add_frame(&mut hears, PUT, 2, longest)?;
    Ok(hears)
}

/// Puts of one byte and of these over a stream that should hear this: what comes of each, and whether
/// each is one right write.
fn put_both<'a>(alloc: Global, longest: &[u8], hears: &'a [u8]) -> ([Outcome; 2], bool) {
    let says = b"\0\0\0\0\0\0\0\0\x01\0\0\0\0\0\0\0\0\0\0\0\0\x02\0\0\0\0";
    let heard = Heard::new();
    let mut client = client(alloc, says, hears, &heard);
    let put = [client.put(b"a"), client.put(longest)];
    (put, heard.is(hears.len()) && heard.writes.get() == 2)
}

#[test]
fn lengths_of_a_put(rt: HostRuntime) -> Result<(), Fail> {
    let longest = pattern(rt.alloc(), 65_536)?;
    let hears = shortest_and_longest(rt.alloc(), &longest)?;
    let found = put_both(rt.alloc(), &longest, &hears);
    same!(rt; found, ([Outcome::Done; 2], true));
    Ok(())
}

/// The longest put and two gets of it.
fn longest_hears(alloc: Global, longest: &[u8]) -> Result<Vec<u8>, AllocError> {
    let mut hears = frame(alloc, PUT, 1, longest)?;
    hears.extend_from_slice(b"\x02\0\0\0\0\0\0\0\x01\0\0\0\0\x02\0\0\0\0\0\0\0\x01\0\0\0\0")?;
    Ok(hears)
}

/// The answers to the longest put, of another get, and to a get of it.
fn longest_says(alloc: Global, longest: &[u8], other: &[u8]) -> Result<Vec<u8>, AllocError> {
    let mut says = joined(alloc, DONE_ONE, other, &[])?;
    add_frame(&mut says, DONE, 1, longest)?;
    Ok(says)
}

/// Two gets of the longest put, of which the first has this answer.
fn longest_got_after(alloc: Global, other: &[u8]) -> Option<[Option<(Outcome, u64)>; 2]> {
    let longest = pattern(alloc, 65_536).ok()?;
    let hears = longest_hears(alloc, &longest).ok()?;
    let says = longest_says(alloc, &longest, other).ok()?;
    Some(got_twice(alloc, &longest, &says, &hears))
}

/// What a get comes to that is answered with another length, and the next.
const ONCE_DAMAGED: [Option<(Outcome, u64)>; 2] = [Some((DAMAGED, 1)), Some((Outcome::Done, 1))];

/// A get of the greatest length, after one that is answered with another: the stream goes on.
#[test]
fn lengths_of_a_get(rt: HostRuntime) {
    for &other in &[DONE_ONE, GIVES_ABC] {
        let found = longest_got_after(rt.alloc(), other);
        same!(rt; found, Some(ONCE_DAMAGED));
    }
}

/// A parcel of three bytes for which the greatest payload comes: it is dropped.
#[test]
fn a_get_that_answers_too_much(rt: HostRuntime) -> Result<(), Fail> {
    let longest = pattern(rt.alloc(), 65_536)?;
    let answer = frame(rt.alloc(), DONE, 1, &longest)?;
    same!(rt; got_after(rt.alloc(), &answer), ONCE_DAMAGED);
    Ok(())
}

/// A put of `abc` and a get of it, as the greatest id.
const LAST_ASKS: &[u8] =
    b"\x01\xff\xff\xff\xff\xff\xff\xff\xff\0\0\0\x03abc\x02\xff\xff\xff\xff\xff\xff\xff\xff\0\0\0\0";

/// Their answers.
const LAST_SAYS: &[u8] =
    b"\0\xff\xff\xff\xff\xff\xff\xff\xff\0\0\0\0\0\xff\xff\xff\xff\xff\xff\xff\xff\0\0\0\x03abc";

/// A put that takes the greatest number, two more, and a get: what comes of each, and whether what is
/// written after the first, the third and the last is right.
fn last_numbers(alloc: Global) -> ([Outcome; 4], [bool; 3]) {
    let heard = Heard::new();
    let wire = Wire::new(LAST_SAYS, LAST_ASKS, &heard);
    let store = StreamStore::numbered_from(alloc, wire, u64::MAX - 1);
    let mut client = Client::new(alloc, store);
    let put = client.put(b"abc");
    let is_put = heard.is(PUT_ASKS);
    let (second, third) = (client.put(b"x"), client.put(b"x"));
    let is_silent = heard.is(PUT_ASKS);
    let got = client.get(0, b"abc");
    (
        [put, second, third, got],
        [is_put, is_silent, heard.is(GET_ASKS)],
    )
}

/// The greatest number is used, and then each put is refused; a get goes on.
#[test]
fn the_last_number(rt: HostRuntime) {
    let wanted = [Outcome::Done, REFUSED, REFUSED, Outcome::Done];
    same!(rt; last_numbers(rt.alloc()), (wanted, [true; 3]));
}
