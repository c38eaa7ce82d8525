//! A client over a stream that ends, fails or gives bytes in pieces.

use crate::calls::{Client, Outcome};
use crate::compared::same;
use crate::frames::{
    ALL_ASKS, ALL_SAYS, ASKS, GET_ASKS, GET_SAYS, PUT_ASKS, PUT_SAYS, SAYS, first,
};
use crate::wire::{BYTES, Heard, Limits, UNLIMITED, Wire};
use far_store::StoreFault;
use far_stream::StreamStore;
use std::alloc::Global;

/// What comes of a put of `abc`, a get and a forget of it, and how many faults were counted. After a put
/// that failed nothing more is asked.
fn asked(alloc: Global, wire: Wire<'_>) -> (Outcome, Option<Outcome>, u64) {
    let mut client = Client::new(alloc, StreamStore::new(alloc, wire));
    let put = client.put(b"abc");
    if put != Outcome::Done {
        return (put, None, client.faults());
    }
    let got = client.get(0, b"abc");
    client.forget();
    (put, Some(got), client.faults())
}

/// What comes of them where the stream failed after so many bytes, of which the put and the get took
/// so many.
fn failed_after(
    count: usize,
    put: usize,
    get: usize,
    all: usize,
) -> (Outcome, Option<Outcome>, u64) {
    if count < put {
        (Outcome::Fault(StoreFault::Io), None, 1)
    } else if count < get {
        (Outcome::Done, Some(Outcome::Fault(StoreFault::Io)), 2)
    } else if count < all {
        (Outcome::Done, Some(Outcome::Done), 1)
    } else {
        (Outcome::Done, Some(Outcome::Done), 0)
    }
}

#[test]
fn answers_cut_after_each_byte(rt: HostRuntime) {
    for count in 0..=ALL_SAYS {
        let heard = Heard::new();
        let wire = Wire::new(first(SAYS, count), ASKS, &heard);
        let wanted = failed_after(count, PUT_SAYS, GET_SAYS, ALL_SAYS);
        same!(rt; asked(rt.alloc(), wire), wanted, count);
    }
}

#[test]
fn each_read_fails(rt: HostRuntime) {
    for good in 0..=ALL_SAYS {
        let heard = Heard::new();
        let limits = Limits {
            good_reads: good,
            ..BYTES
        };
        let wire = Wire::within(SAYS, ASKS, &heard, limits);
        let wanted = failed_after(good, PUT_SAYS, GET_SAYS, ALL_SAYS);
        same!(rt; asked(rt.alloc(), wire), wanted, good);
        let reads = ALL_SAYS.min(good.saturating_add(1));
        same!(rt; heard.reads.get(), reads, good);
    }
}

/// What was written is the beginning of the requests up to where the writer failed.
#[test]
fn each_write_fails(rt: HostRuntime) {
    for &takes_nothing in &[false, true] {
        for good in 0..=ALL_ASKS {
            let heard = Heard::new();
            let limits = Limits {
                good_writes: good,
                takes_nothing,
                ..BYTES
            };
            let wire = Wire::within(SAYS, ASKS, &heard, limits);
            let wanted = failed_after(good, PUT_ASKS, GET_ASKS, ALL_ASKS);
            same!(rt; asked(rt.alloc(), wire), wanted, good);
            assert!(rt; heard.is(good), "{good} writes");
        }
    }
}

#[test]
fn pieces_of_each_size(rt: HostRuntime) {
    for size in 1..=20usize {
        let heard = Heard::new();
        let wire = Wire::within(SAYS, ASKS, &heard, Limits { size, ..UNLIMITED });
        let wanted = (Outcome::Done, Some(Outcome::Done), 0);
        same!(rt; asked(rt.alloc(), wire), wanted, size);
        assert!(rt; heard.is(ALL_ASKS), "pieces of {size}");
    }
}

/// The answers to a put of `abc` and to a get of it, with five bytes, and to a forget.
const OTHER_LENGTH: &[u8] =
    b"\0\0\0\0\0\0\0\0\x01\0\0\0\0\0\0\0\0\0\0\0\0\x01\0\0\0\x05abcde\0\0\0\0\0\0\0\0\x01\0\0\0\0";

/// A payload that is dropped, since its length is wrong, and doesn't come whole: the fault is the
/// stream's.
#[test]
fn a_dropped_payload_cut_after_each_byte(rt: HostRuntime) {
    let dropped = PUT_SAYS + 18;
    for count in PUT_SAYS..=OTHER_LENGTH.len() {
        let heard = Heard::new();
        let wire = Wire::new(first(OTHER_LENGTH, count), ASKS, &heard);
        let (fault, faults) = if count < dropped {
            (StoreFault::Io, 2)
        } else if count < OTHER_LENGTH.len() {
            (StoreFault::Damaged, 2)
        } else {
            (StoreFault::Damaged, 1)
        };
        let wanted = (Outcome::Done, Some(Outcome::Fault(fault)), faults);
        same!(rt; asked(rt.alloc(), wire), wanted, count);
    }
}
