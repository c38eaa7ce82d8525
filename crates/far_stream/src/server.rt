//! The server's end.
ghost use Rattle.std.specs.Prelude.{◌≡◌, ◌++◌, ◌+◌, ◌<◌, ◌≤◌, ◌^◌, [], true, false, vec_len, vec_capacity, IfOk, IfErr, OnOk, Result, Ok, Err};
ghost use Rattle.std.specs.Io.KnownBytes.{Appends};
ghost use Rattle.streams.specs.Streams.{AppendsPart};
ghost use Rattle.far_stream.specs.Payloads.{CutsOff};
ghost use Rattle.far_stream.specs.Refusals.{MemoryIsRefused};
ghost use Rattle.far_stream.specs.Frames.{head, IsHead, put_kind, get_kind, forget_kind, payload_limit};
ghost use Rattle.far_stream.specs.Conversations.{Converses, EndsBetween};
ghost use Rattle.far_stream.specs.Serving.{Forgotten, PutTaken, ServesOn};

use crate::fault::{Cut, PayloadFault, StreamFault};
use crate::frame::{FrameKind, Head, Status};
use crate::keeping::{KEPT_LIMIT, Kept, place_of};
use crate::payload::drop_payload;
use crate::room::{Budget, make_room, with_room};
use std::alloc::Global;
use std::io::{Read, Write};
use streams::put_all;

/// Writes an answer.
fn answer<W: Write>(writer: &mut W, frame: &[u8]) -> Result<(), StreamFault>
    ensures ok { OnOk result (Appends (W.contents writer.old) (W.contents writer.new) frame.now) }
    ensures err { IfErr result (λ fault. (fault ≡ StreamFault.Io) × AppendsPart (W.contents writer.old) (W.contents writer.new) frame.now) }
{
    put_all(writer, frame).map_err(|_| StreamFault::Io)
}

/// Makes room for one more parcel of so many bytes.
fn has_room(kept: &mut Vec<Kept>, budget: &Budget, count: u32) -> bool
    ensures items { kept.new.items ≡ kept.old.items }
    ensures room { result ≡ true → vec_len kept.new + 1 ≤ vec_capacity kept.new }
    ensures refused { result ≡ false → MemoryIsRefused }
{
    if make_room(kept).is_err() {
        return false;
    }
    budget.take(u64::from(count))
}

/// Reads the bytes of a put, and keeps them where the id is free and there is room. Bytes that aren't
/// kept are read and dropped.
fn take<R: Read>(
    alloc: Global,
    reader: &mut R,
    kept: &mut Vec<Kept>,
    budget: &Budget,
    id: u64,
    count: u32,
) -> Result<Status, Cut>
    ensures ok { IfOk result (λ status. PutTaken (R.remaining reader.old) (R.remaining reader.new) kept.old.items id count status kept.new.items) }
    ensures err { IfErr result (λ cut. CutsOff cut count (R.remaining reader.old) (R.remaining reader.new)) }
{
    if place_of(kept, id).is_some() {
        drop_payload(reader, count)?;
        return Ok(Status::RefusedId);
    }
    if kept.len() >= KEPT_LIMIT {
        drop_payload(reader, count)?;
        return Ok(Status::NoRoom);
    }
    if !has_room(kept, budget, count) {
        drop_payload(reader, count)?;
        return Ok(Status::NoRoom);
    }
    match Kept::read(alloc, reader, id, count) {
        Ok(parcel) => {
            kept.push_reserved(parcel);
            Ok(Status::Done)
        }
        Err(fault) => {
            budget.give_back(u64::from(count));
            match fault {
                PayloadFault::NoMemory => Ok(Status::NoRoom),
                PayloadFault::CutOff(cut) => Err(cut),
            }
        }
    }
}

/// Serves a put whose head came.
fn serve_put<S: Read + Write>(
    alloc: Global,
    stream: &mut S,
    kept: &mut Vec<Kept>,
    budget: &Budget,
    id: u64,
    count: u32,
) -> Result<(), StreamFault>
    requires { (0 < count) × (count ≤ payload_limit) }
    ensures { ServesOn S.remaining S.contents (head put_kind id count) stream.old kept.old.items result kept.new.items stream.new }
{
    let status = take(alloc, stream, kept, budget, id, count)?;
    answer(stream, &status.head(id).bytes())
}

/// Serves a get whose head came.
fn serve_get<S: Read + Write>(stream: &mut S, kept: &[Kept], id: u64) -> Result<(), StreamFault>
    ensures { ServesOn S.remaining S.contents (head get_kind id 0) stream.old kept.now result kept.now stream.new }
{
    match place_of(kept, id) {
        Some(place) => answer(stream, kept[place].answer()),
        None => answer(stream, &Status::RefusedId.head(id).bytes()),
    }
}

/// Keeps an id no more.
fn forget(kept: &mut Vec<Kept>, budget: &Budget, id: u64) -> Status
    ensures { Forgotten kept.old.items id result kept.new.items }
{
    match place_of(kept, id) {
        Some(place) => {
            budget.give_back(kept.remove(place).count());
            Status::Done
        }
        None => Status::RefusedId,
    }
}

/// Serves a forget whose head came.
fn serve_forget<S: Read + Write>(
    stream: &mut S,
    kept: &mut Vec<Kept>,
    budget: &Budget,
    id: u64,
) -> Result<(), StreamFault>
    ensures { ServesOn S.remaining S.contents (head forget_kind id 0) stream.old kept.old.items result kept.new.items stream.new }
{
    let status = forget(kept, budget, id);
    answer(stream, &status.head(id).bytes())
}

/// Serves the request whose head came.
fn serve_request<S: Read + Write>(
    alloc: Global,
    stream: &mut S,
    kept: &mut Vec<Kept>,
    budget: &Budget,
    request: Head,
) -> Result<(), StreamFault>
    requires { IsHead request.kind request.id request.count }
    ensures { ServesOn S.remaining S.contents (head request.kind request.id request.count) stream.old kept.old.items result kept.new.items stream.new }
{
    match request.asks() {
        Some(FrameKind::Put) => serve_put(alloc, stream, kept, budget, request.id, request.count),
        Some(FrameKind::Get) => serve_get(stream, kept, request.id),
        Some(FrameKind::Forget) => serve_forget(stream, kept, budget, request.id),
        None => Err(StreamFault::Protocol),
    }
}

/// Serves the next request, and tells whether there was one.
fn serve_next<S: Read + Write>(
    alloc: Global,
    stream: &mut S,
    kept: &mut Vec<Kept>,
    budget: &Budget,
) -> Result<bool, StreamFault>
    ensures served { result ≡ Ok true → ServesOn S.remaining S.contents [] stream.old kept.old.items (Ok tt) kept.new.items stream.new }
    ensures ended { result ≡ Ok false → EndsBetween S.remaining stream.old stream.new }
    ensures err { IfErr result (λ fault. ServesOn S.remaining S.contents [] stream.old kept.old.items (Err fault) kept.new.items stream.new) }
{
    match Head::read(stream)? {
        Some(request) => {
            serve_request(alloc, stream, kept, budget, request)?;
            Ok(true)
        }
        None => Ok(false),
    }
}

/// Serves requests until the input ends.
fn converse<S: Read + Write>(
    alloc: Global,
    stream: &mut S,
    kept: &mut Vec<Kept>,
    budget: &Budget,
) -> Result<(), StreamFault>
    requires { kept.old.items ≡ [] }
    ensures { Converses S.remaining S.contents stream.old result stream.new }
{
    for _turns in 0..u64::MAX {
        if !serve_next(alloc, stream, kept, budget)? {
            return Ok(());
        }
    }
    Err(StreamFault::Io)
}

/// A list for all that may be kept. Its room is taken before any bytes come, so that what is given back later lies above it. If
/// there is none, the list grows with each put.
fn room_to_keep(alloc: Global) -> Vec<Kept>
    ensures { result.items ≡ [] }
{
    match with_room(alloc, KEPT_LIMIT) {
        Ok(kept) => kept,
        Err(_) => Vec::new(alloc),
    }
}

/// Serves a client from a store that is empty at first, until the input ends. Each request is
/// answered before the next is read, by one write where the writer takes all of it; bytes that aren't
/// kept are read and dropped. At most [`KEPT_LIMIT`] parcels are kept.
///
/// `Protocol` is answered where what came is no request, or the input ended within one; `Io` where
/// the stream failed, or after `2^64 - 1` requests.
pub fn serve_store<S: Read + Write>(alloc: Global, stream: &mut S) -> Result<(), StreamFault>
    ensures { Converses S.remaining S.contents stream.old result stream.new }
{
    serve_store_within(alloc, stream, &Budget::unlimited())
}

/// The same, where a put beyond the budget finds no room. What is kept at the end is given back to it.
pub fn serve_store_within<S: Read + Write>(
    alloc: Global,
    stream: &mut S,
    budget: &Budget,
) -> Result<(), StreamFault>
    ensures { Converses S.remaining S.contents stream.old result stream.new }
{
    let mut kept = room_to_keep(alloc);
    let outcome = converse(alloc, stream, &mut kept, budget);
    for parcel in &kept {
        budget.give_back(parcel.count());
    }
    outcome
}
