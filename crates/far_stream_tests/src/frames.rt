//! Frames by hand.

use std::alloc::{AllocError, Global};

/// A request's kind.
pub const PUT: u8 = 1;

pub const GET: u8 = 2;

pub const FORGET: u8 = 3;

/// An answer's status.
pub const DONE: u8 = 0;

pub const REFUSED_ID: u8 = 1;

pub const NO_ROOM: u8 = 2;

/// A put of `abc` as id 1, a get and a forget of it.
pub const ASKS: &[u8] =
    b"\x01\0\0\0\0\0\0\0\x01\0\0\0\x03abc\x02\0\0\0\0\0\0\0\x01\0\0\0\0\x03\0\0\0\0\0\0\0\x01\0\0\0\0";

/// How many bytes the put is, the put and the get, and all of it.
pub const PUT_ASKS: usize = 16;

pub const GET_ASKS: usize = 29;

pub const ALL_ASKS: usize = 42;

/// The answer to the put, and to the forget.
pub const DONE_ONE: &[u8] = b"\0\0\0\0\0\0\0\0\x01\0\0\0\0";

/// The answer to the get.
pub const GIVES_ABC: &[u8] = b"\0\0\0\0\0\0\0\0\x01\0\0\0\x03abc";

/// All three answers.
pub const SAYS: &[u8] =
    b"\0\0\0\0\0\0\0\0\x01\0\0\0\0\0\0\0\0\0\0\0\0\x01\0\0\0\x03abc\0\0\0\0\0\0\0\0\x01\0\0\0\0";

/// How many bytes the answer to the put is, those to the put and the get, and all of it.
pub const PUT_SAYS: usize = 13;

pub const GET_SAYS: usize = 29;

pub const ALL_SAYS: usize = 42;

/// Adds the head of a frame: a kind or a status, an id and a length.
pub fn add_head(to: &mut Vec<u8>, kind: u8, id: u64, count: u32) -> Result<(), AllocError> {
    to.push(kind)?;
    to.extend_from_slice(&id.to_be_bytes())?;
    to.extend_from_slice(&count.to_be_bytes())
}

/// Adds a frame.
pub fn add_frame(to: &mut Vec<u8>, kind: u8, id: u64, bytes: &[u8]) -> Result<(), AllocError> {
    let Ok(count) = u32::try_from(bytes.len()) else {
        return Err(AllocError);
    };
    add_head(to, kind, id, count)?;
    to.extend_from_slice(bytes)
}

/// A frame alone.
pub fn frame(alloc: Global, kind: u8, id: u64, bytes: &[u8]) -> Result<Vec<u8>, AllocError> {
    let mut frame = Vec::new(alloc);
    add_frame(&mut frame, kind, id, bytes)?;
    Ok(frame)
}

/// Three parts, one after the other.
pub fn joined(
    alloc: Global,
    first: &[u8],
    second: &[u8],
    third: &[u8],
) -> Result<Vec<u8>, AllocError> {
    let mut whole = owned(alloc, first)?;
    whole.extend_from_slice(second)?;
    whole.extend_from_slice(third)?;
    Ok(whole)
}

/// So many bytes that differ from their neighbours.
pub fn pattern(alloc: Global, count: usize) -> Result<Vec<u8>, AllocError> {
    let mut bytes = Vec::new(alloc);
    for k in 0..count {
        bytes.push((k % 251) as u8)?;
    }
    Ok(bytes)
}

/// The same bytes in a vector of their own.
pub fn owned(alloc: Global, bytes: &[u8]) -> Result<Vec<u8>, AllocError> {
    let mut copy = Vec::new(alloc);
    copy.extend_from_slice(bytes)?;
    Ok(copy)
}

/// The first so many bytes, or all.
pub fn first(bytes: &[u8], count: usize) -> &[u8] {
    &bytes[..bytes.len().min(count)]
}
