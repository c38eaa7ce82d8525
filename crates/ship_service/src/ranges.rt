//! Commands on objects, at a connection's seat.
ghost use Rattle.std.specs.Prelude.{◌≡◌};
ghost use Rattle.workers.specs.Cells.{IsSeatOf, seat_state};
ghost use Rattle.ship_service.specs.Ranges.{PutsOnce, GetsOnce, InTries, AsksMover, reply_to_denied, reply_of_get};
ghost use Rattle.ship_service.specs.Replies.{IsShortReply, is_busy, service_text};
ghost use Rattle.console.specs.Lines.{ended};

use crate::replies::{ServiceReply, print_service_reply};
use console::{ReplyLine, print_bytes};
use far_store::FarStore;
use memory::Bytes;
use shared_objects::{ActorSeat, Denied, GetError};
use std::sync::Wait;
use workers::{Direction, Pool, TableName, give_time};
use world::Reply;

/// How often a range is tried again that was found busy.
const RETRY_LIMIT: u32 = 64;

/// The reply where an access is denied. The mover is asked to bring back an object that is away.
fn reply_to_denied<F: FarStore, K: TableName, R: Wait>(
    rt: &R,
    pool: &Pool<F, K>,
    object: u32,
    why: Denied,
) -> ServiceReply
    ensures { result ≡ reply_to_denied object why }
{
    match why {
        Denied::Outside => ServiceReply::Plain(Reply::Outside),
        Denied::Away => {
            pool.call(rt, object);
            ServiceReply::Plain(Reply::Away { object })
        }
        Denied::Busy => ServiceReply::Busy { object },
        Denied::Worn => ServiceReply::Worn,
    }
}

/// Tries to write bytes into an object, once.
fn put_once<F: FarStore, K: TableName, R: Wait>(
    rt: &R,
    pool: &Pool<F, K>,
    seat: &mut ActorSeat,
    object: u32,
    offset: u32,
    bytes: &[u8],
) -> ServiceReply
    requires { IsSeatOf K.table K.opening seat.old }
    ensures of { IsSeatOf K.table K.opening seat.new }
    ensures put { PutsOnce object offset bytes.now (seat_state seat.old) result (seat_state seat.new) }
{
    match pool.table().put(seat, object, offset, bytes) {
        Ok(()) => ServiceReply::Plain(Reply::Done),
        Err(why) => reply_to_denied(rt, pool, object, why),
    }
}

/// Writes bytes into an object, in a few tries if another has its turn.
pub(crate) fn put<F: FarStore, K: TableName, R: Wait>(
    rt: &R,
    pool: &Pool<F, K>,
    seat: &mut ActorSeat,
    object: u32,
    offset: u32,
    bytes: &[u8],
) -> ServiceReply
    requires { IsSeatOf K.table K.opening seat.old }
    ensures of { IsSeatOf K.table K.opening seat.new }
    ensures put { InTries (PutsOnce object offset bytes.now) object (seat_state seat.old) result (seat_state seat.new) }
{
    for retry in 0..RETRY_LIMIT {
        let reply = put_once(rt, pool, seat, object, offset, bytes);
        if !reply.is_busy() {
            return reply;
        }
        give_time(rt, retry);
    }
    put_once(rt, pool, seat, object, offset, bytes)
}

/// Whether another had its turn on the object whose bytes were to be read.
fn found_busy(found: &Result<Vec<u8>, GetError>, _object: u32) -> bool
    ensures { result ≡ is_busy (reply_of_get _object found.now) }
{
    matches!(found, Err(GetError::Denied(Denied::Busy)))
}

/// The reply to what became of a range that was to be read.
fn reply_of_get<F: FarStore, K: TableName, R: Wait>(
    rt: &R,
    pool: &Pool<F, K>,
    object: u32,
    found: Result<Vec<u8>, GetError>,
) -> ServiceReply
    ensures { result ≡ reply_of_get object found }
{
    match found {
        Ok(bytes) => ServiceReply::Plain(Reply::Bytes(Bytes::new(bytes))),
        Err(GetError::Denied(why)) => reply_to_denied(rt, pool, object, why),
        Err(GetError::Memory) => ServiceReply::Plain(Reply::NoMemory),
    }
}

/// Tries to read bytes of an object, once.
fn fetch_once<F: FarStore, K: TableName>(
    pool: &Pool<F, K>,
    seat: &mut ActorSeat,
    object: u32,
    offset: u32,
    length: u32,
) -> Result<Vec<u8>, GetError>
    requires { IsSeatOf K.table K.opening seat.old }
    ensures of { IsSeatOf K.table K.opening seat.new }
    ensures get { GetsOnce object offset length (seat_state seat.old) (reply_of_get object result) (seat_state seat.new) }
{
    pool.table().get(seat, object, offset, length)
}

/// Reads bytes of an object, in as many tries.
pub(crate) fn fetch<F: FarStore, K: TableName, R: Wait>(
    rt: &R,
    pool: &Pool<F, K>,
    seat: &mut ActorSeat,
    object: u32,
    offset: u32,
    length: u32,
) -> Result<Vec<u8>, GetError>
    requires { IsSeatOf K.table K.opening seat.old }
    ensures of { IsSeatOf K.table K.opening seat.new }
    ensures get { InTries (GetsOnce object offset length) object (seat_state seat.old) (reply_of_get object result) (seat_state seat.new) }
{
    for retry in 0..RETRY_LIMIT {
        let found = fetch_once(pool, seat, object, offset, length);
        if !found_busy(&found, object) {
            return found;
        }
        give_time(rt, retry);
    }
    fetch_once(pool, seat, object, offset, length)
}

/// Reads bytes of an object, as a reply. A conversation makes the line of a `get` without one ([`print_found`]).
pub(crate) fn get<F: FarStore, K: TableName, R: Wait>(
    rt: &R,
    pool: &Pool<F, K>,
    seat: &mut ActorSeat,
    object: u32,
    offset: u32,
    length: u32,
) -> ServiceReply
    requires { IsSeatOf K.table K.opening seat.old }
    ensures of { IsSeatOf K.table K.opening seat.new }
    ensures get { InTries (GetsOnce object offset length) object (seat_state seat.old) result (seat_state seat.new) }
{
    let found = fetch(rt, pool, seat, object, offset, length);
    reply_of_get(rt, pool, object, found)
}

/// Makes this the line of what became of a range. The bytes go into the line without a reply, which has room for much more and
/// would be moved on its way.
pub(crate) fn print_found<F: FarStore, K: TableName, R: Wait>(
    rt: &R,
    pool: &Pool<F, K>,
    object: u32,
    found: Result<Vec<u8>, GetError>,
    line: &mut ReplyLine,
)
    requires { IsShortReply (reply_of_get object found) }
    ensures { line.new.items ≡ ended (service_text (reply_of_get object found)) }
{
    match found {
        Ok(bytes) => print_bytes(&bytes, line),
        found => print_service_reply(&reply_of_get(rt, pool, object, found), line),
    }
}

/// Asks the mover to move an object.
pub(crate) fn ask<F: FarStore, K: TableName, R: Wait>(
    rt: &R,
    pool: &Pool<F, K>,
    object: u32,
    direction: Direction,
) -> ServiceReply
    ensures { AsksMover K.opening object result }
{
    if pool.table().length(object as u64) == 0 {
        return ServiceReply::Plain(Reply::Missing);
    }
    if pool.request(rt, object, direction) {
        ServiceReply::Asked { object }
    } else {
        ServiceReply::Plain(Reply::Full)
    }
}
