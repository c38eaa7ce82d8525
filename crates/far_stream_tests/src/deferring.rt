//! A client that keeps forgets back: what it writes, when, and what it counts.

use crate::calls::{Client, Outcome};
use crate::compared::same;
use crate::frames::{
    DONE, DONE_ONE, FORGET, GIVES_ABC, PUT, PUT_ASKS, add_frame, first, joined, pattern,
};
use crate::wire::{BYTES, Heard, Limits, UNLIMITED, Wire};
use far_store::{FarStore, StoreFault};
use far_stream::{Buffered, DeferringStore, serve_store};
use std::alloc::{AllocError, Global};
use std::net::{Ipv4Addr, TcpListener, TcpStream};
use std::test::Fail;
use std::thread;

/// A put of `abc` as id 1, a forget of it, and a put of `x` as id 2.
const PUT_TWICE: &[u8] =
    b"\x01\0\0\0\0\0\0\0\x01\0\0\0\x03abc\x03\0\0\0\0\0\0\0\x01\0\0\0\0\x01\0\0\0\0\0\0\0\x02\0\0\0\x01x";

/// The answer to the second put.
const DONE_TWO: &[u8] = b"\0\0\0\0\0\0\0\0\x02\0\0\0\0";

const PROTOCOL: Outcome = Outcome::Fault(StoreFault::Protocol);

const LOST: Outcome = Outcome::Fault(StoreFault::Io);

/// What came of two puts with a forget between them, and of one more put.
#[derive(Clone, Copy, Drop, Debug, PartialEq, Eq)]
struct Seen {
    puts: [Outcome; 3],
    /// How many faults were counted after the forget, after the second put, and after the third.
    faults: [u64; 3],
    /// How many writes there were by then.
    writes: [usize; 3],
    is_right: bool,
}

/// Two puts with a forget between them, and a third put of bytes that no frame carries or that a broken stream refuses.
fn put_twice(alloc: Global, wire: Wire<'_>, heard: &Heard, hears: usize) -> Seen {
    let mut client = Client::new(alloc, DeferringStore::new(alloc, wire));
    let first = client.put(b"abc");
    client.forget();
    let after_forget = (client.faults(), heard.writes.get());
    let second = client.put(b"x");
    let after_second = (client.faults(), heard.writes.get());
    let third = client.put(b"");
    Seen {
        puts: [first, second, third],
        faults: [after_forget.0, after_second.0, client.faults()],
        writes: [after_forget.1, after_second.1, heard.writes.get()],
        is_right: heard.is(hears),
    }
}

/// The same over a stream that says this between the answers to the puts.
fn put_twice_after(alloc: Global, answer: &[u8], last: &[u8]) -> Option<Seen> {
    let says = joined(alloc, DONE_ONE, answer, last).ok()?;
    let heard = Heard::new();
    let wire = Wire::new(&says, PUT_TWICE, &heard);
    Some(put_twice(alloc, wire, &heard, PUT_TWICE.len()))
}

/// What is seen if the forget meets no fault.
const WELL: Seen = Seen {
    puts: [
        Outcome::Done,
        Outcome::Done,
        Outcome::Fault(StoreFault::Refused),
    ],
    faults: [0, 0, 1],
    writes: [1, 2, 2],
    is_right: true,
};

/// What is seen if it meets a fault: the next put has it, and so has each later call. It is counted once, when it is met.
const BROKEN: Seen = Seen {
    puts: [Outcome::Done, PROTOCOL, PROTOCOL],
    faults: [0, 1, 2],
    writes: [1, 2, 2],
    is_right: true,
};

const CUT: Seen = Seen {
    puts: [Outcome::Done, LOST, LOST],
    ..BROKEN
};

/// How a forget may go.
#[derive(Clone, Copy, Drop)]
enum Forgets {
    Well,
    Broken,
    Cut,
}

impl Forgets {
    /// What is seen then.
    fn seen(self) -> Seen {
        match self {
            Forgets::Well => WELL,
            Forgets::Broken => BROKEN,
            Forgets::Cut => CUT,
        }
    }
}

/// What a forget may be answered, and what is seen then.
const ANSWERS: &[(&[u8], &[u8], Forgets)] = &[
    (b"\x00\0\0\0\0\0\0\0\x01\0\0\0\0", DONE_TWO, Forgets::Well),
    (b"\x01\0\0\0\0\0\0\0\x01\0\0\0\0", DONE_TWO, Forgets::Well),
    (b"\x02\0\0\0\0\0\0\0\x01\0\0\0\0", DONE_TWO, Forgets::Well),
    (b"\x03\0\0\0\0\0\0\0\x01\0\0\0\0", DONE_TWO, Forgets::Broken),
    (b"\x00\0\0\0\0\0\0\0\x02\0\0\0\0", DONE_TWO, Forgets::Broken),
    (
        b"\x00\0\0\0\0\0\0\0\x01\0\0\0\x03",
        DONE_TWO,
        Forgets::Broken,
    ),
    (b"\x00\0\0\0\0\0\0\0\x01\0\0\0", b"", Forgets::Cut),
    (b"", b"", Forgets::Cut),
    (b"\x00\0\0\0\0\0\0\0\x01\0\0\0\0", b"", Forgets::Cut),
];

/// A forget is written ahead of the next request, in one write with it, and its answer is read then.
#[test]
fn a_forget_goes_ahead_of_the_next_request(rt: HostRuntime) {
    for &(answer, last, forgets) in ANSWERS {
        same!(rt; put_twice_after(rt.alloc(), answer, last), Some(forgets.seen()), answer);
    }
}

/// A write that fails takes the forgets with it.
#[test]
fn a_write_that_fails(rt: HostRuntime) {
    let heard = Heard::new();
    let limits = Limits {
        good_writes: 1,
        ..UNLIMITED
    };
    let wire = Wire::within(DONE_ONE, PUT_TWICE, &heard, limits);
    let found = put_twice(rt.alloc(), wire, &heard, PUT_ASKS);
    same!(rt; found, CUT);
}

/// A put of `abc` as id 1, a forget of another parcel, and a get of the first.
const ASKS_AFTER: &[u8] =
    b"\x01\0\0\0\0\0\0\0\x01\0\0\0\x03abc\x01\0\0\0\0\0\0\0\x02\0\0\0\x01x\x03\0\0\0\0\0\0\0\x02\0\0\0\0\x02\0\0\0\0\0\0\0\x01\0\0\0\0";

/// The answers to both puts and to the forget.
const SAYS_BEFORE: &[u8] =
    b"\0\0\0\0\0\0\0\0\x01\0\0\0\0\0\0\0\0\0\0\0\0\x02\0\0\0\0\0\0\0\0\0\0\0\0\x02\0\0\0\0";

/// Two puts, a forget of the second and a get of the first, over a buffered stream: what the get is answered, how many faults
/// were counted, and how often the get wrote and read.
fn got_after(alloc: Global, answer: &[u8], limits: Limits) -> Option<(Outcome, u64, [usize; 2])> {
    let says = joined(alloc, SAYS_BEFORE, answer, &[]).ok()?;
    let heard = Heard::new();
    let wire = Wire::within(&says, ASKS_AFTER, &heard, limits);
    let stream = Buffered::new(alloc, wire).ok()?;
    let mut client = Client::new(alloc, DeferringStore::new(alloc, stream));
    client.put(b"abc");
    client.put(b"x");
    client.forget();
    let before = (heard.writes.get(), heard.reads.get());
    let got = client.get(0, b"abc");
    let writes = heard.writes.get().saturating_sub(before.0);
    let reads = heard.reads.get().saturating_sub(before.1);
    heard
        .is(ASKS_AFTER.len())
        .then_some((got, client.faults(), [writes, reads]))
}

/// The first read of all took all answers, since they were there.
#[test]
fn a_get_after_a_forget_is_one_write(rt: HostRuntime) {
    let damaged = Outcome::Fault(StoreFault::Damaged);
    let found = got_after(rt.alloc(), GIVES_ABC, UNLIMITED);
    same!(rt; found, Some((Outcome::Done, 0, [1, 0])));
    let other = b"\0\0\0\0\0\0\0\0\x01\0\0\0\x03abd";
    let found = got_after(rt.alloc(), other, UNLIMITED);
    same!(rt; found, Some((damaged, 1, [1, 0])));
    let cut = b"\0\0\0\0\0\0\0\0\x01\0\0\0\x03ab";
    let found = got_after(rt.alloc(), cut, UNLIMITED);
    same!(rt; found, Some((LOST, 1, [1, 1])));
}

/// The bytes come one a call: each is written and read in a call of its own.
#[test]
fn a_get_after_a_forget_in_pieces(rt: HostRuntime) {
    let found = got_after(rt.alloc(), GIVES_ABC, BYTES);
    same!(rt; found, Some((Outcome::Done, 0, [26, 29])));
}

/// How many forgets are kept back: one more is sent with them.
const DEFERRED: u64 = 64;

/// The puts of so many bytes `a`, and then the forgets, last put first.
fn asks_of(alloc: Global, count: u64) -> Result<Vec<u8>, AllocError> {
    let mut asks = Vec::new(alloc);
    for id in 1..=count {
        add_frame(&mut asks, PUT, id, b"a")?;
    }
    for k in 0..count {
        add_frame(&mut asks, FORGET, count.saturating_sub(k), &[])?;
    }
    Ok(asks)
}

/// The answers to them.
fn says_of(alloc: Global, count: u64) -> Result<Vec<u8>, AllocError> {
    let mut says = Vec::new(alloc);
    for id in 1..=count {
        add_frame(&mut says, DONE, id, &[])?;
    }
    for k in 0..count {
        add_frame(&mut says, DONE, count.saturating_sub(k), &[])?;
    }
    Ok(says)
}

/// So many puts and as many forgets: how many writes the forgets took, and whether everything was written, without a fault.
fn forgotten(alloc: Global, count: u64) -> Option<(usize, bool)> {
    let asks = asks_of(alloc, count).ok()?;
    let says = says_of(alloc, count).ok()?;
    let heard = Heard::new();
    let wire = Wire::new(&says, &asks, &heard);
    let mut client = Client::new(alloc, DeferringStore::new(alloc, wire));
    for _ in 0..count {
        client.put(b"a");
    }
    let puts = heard.writes.get();
    for _ in 0..count {
        client.forget();
    }
    let is_whole = heard.is(asks.len()) && client.faults() == 0;
    Some((heard.writes.get().saturating_sub(puts), is_whole))
}

#[test]
fn so_many_forgets_are_kept_back(rt: HostRuntime) {
    same!(rt; forgotten(rt.alloc(), DEFERRED), Some((0, false)));
    same!(rt; forgotten(rt.alloc(), DEFERRED + 1), Some((1, true)));
}

/// A store over this wire after a put of `abc` and its forget.
fn kept_back<'a>(alloc: Global, wire: Wire<'a>) -> DeferringStore<Wire<'a>> {
    let mut store = DeferringStore::new(alloc, wire);
    if let Ok(bytes) = b"abc".as_slice().to_vec(alloc)
        && let Ok(parcel) = store.put(bytes)
    {
        store.forget(parcel);
    }
    store
}

/// How many writes there were after a put and a forget, after `reach`, and after one more call of it; and the faults.
fn reached(alloc: Global, says: &[u8]) -> ([usize; 3], u64, bool) {
    let heard = Heard::new();
    let mut store = kept_back(alloc, Wire::new(says, REACHED, &heard));
    let before = heard.writes.get();
    let _found = store.reach();
    let after = heard.writes.get();
    let is_right = heard.is(REACHED_ONCE);
    let _found = store.reach();
    (
        [before, after, heard.writes.get()],
        store.faults(),
        is_right,
    )
}

/// A put of `abc` as id 1, its forget, and two forgets of id 0.
const REACHED: &[u8] =
    b"\x01\0\0\0\0\0\0\0\x01\0\0\0\x03abc\x03\0\0\0\0\0\0\0\x01\0\0\0\0\x03\0\0\0\0\0\0\0\0\0\0\0\0\x03\0\0\0\0\0\0\0\0\0\0\0\0";

/// How many of these bytes come before the last of the forgets.
const REACHED_ONCE: usize = 42;

/// Forgets that are left are sent by `reach`, once.
#[test]
fn forgets_that_are_left_are_sent(rt: HostRuntime) {
    let says =
        b"\0\0\0\0\0\0\0\0\x01\0\0\0\0\0\0\0\0\0\0\0\0\x01\0\0\0\0\x01\0\0\0\0\0\0\0\0\0\0\0\0\x01\0\0\0\0\0\0\0\0\0\0\0\0";
    same!(rt; reached(rt.alloc(), says), ([1, 2, 3], 0, true));
    same!(rt; reached(rt.alloc(), DONE_ONE), ([1, 2, 2], 2, true));
}

/// A store that is dropped sends no forget that it kept back.
#[test]
fn forgets_are_dropped_with_the_store(rt: HostRuntime) {
    let heard = Heard::new();
    let store = kept_back(rt.alloc(), Wire::new(DONE_ONE, REACHED, &heard));
    same!(rt; (heard.writes.get(), heard.reads.get()), (1, 1));
    drop(store);
    same!(rt; (heard.writes.get(), heard.reads.get()), (1, 1));
    same!(rt; heard.is(PUT_ASKS), true);
}

/// Rounds of a put, a get and a forget, of these bytes, or of their beginning: how many were right, and how many faults there
/// were.
fn rounds(alloc: Global, stream: TcpStream, bytes: &[u8], count: usize) -> Option<(usize, u64)> {
    let buffered = Buffered::new(alloc, stream).ok()?;
    let mut client = Client::new(alloc, DeferringStore::new(alloc, buffered));
    let mut right = 0usize;
    for k in 0..count {
        let length = if k % 200 == 0 {
            bytes.len()
        } else {
            k % 64 + 1
        };
        let part = first(bytes, length);
        let is_put = client.put(part) == Outcome::Done;
        if is_put && client.get(0, part) == Outcome::Done {
            right = right.saturating_add(1);
        }
        client.forget();
    }
    Some((right, client.faults()))
}

/// More puts than a server keeps, each forgotten: so the forgets arrive.
#[test]
fn forgets_arrive(rt: HostRuntime) -> Result<(), Fail> {
    let alloc = rt.alloc();
    let bytes = pattern(alloc, 65_536)?;
    let listener = TcpListener::bind(&rt, (Ipv4Addr::LOCALHOST, 0))?;
    let stream = TcpStream::connect(&rt, listener.local_addr()?)?;
    let (mut far, _) = listener.accept()?;
    // the answers to a forget and to the request after it are two small writes
    far.set_nodelay(true)?;
    let server = thread::spawn(&rt, move || serve_store(alloc, &mut far))?;
    let found = rounds(alloc, stream, &bytes, 1100);
    same!(rt; server.join(&rt), Ok(()));
    same!(rt; found, Some((1100, 0)));
    Ok(())
}
