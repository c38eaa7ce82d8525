//! What a machine asks of memory: accesses to objects, which are numbered arrays of bytes.
//!
//! An access is data ([`Op`]), and what it answers and which bytes stand after it are functions of the bytes before
//! (`specs/Access`). A machine sees memory by the trait [`Memory`] alone.
#![tactic(auto)]

mod access;
mod bytes;
mod deeds;
mod laws;
mod limits;
mod memory;
mod owned;

pub use access::{Action, Op, Reach};
pub use bytes::{act, overwrite};
pub use deeds::{Deed, Entry, Given};
pub use laws::{
    accesses_commute, accesses_one_way, failed_exchanges_change_nothing, lengths_stay,
    loads_what_was_stored, map_keeps_promises, other_bytes_stay, other_objects_stay,
    unwritten_stays, writes_are_inside,
};
pub use limits::{OBJECT_BYTES, OBJECT_LIMIT};
pub use memory::Memory;
pub use owned::Bytes;
