//! A far store at the other end of a stream: the client, which is a `FarStore`, and the server.
#![tactic(auto)]

mod answers;
mod buffered;
mod client;
mod fault;
mod forgets;
mod frame;
mod keeping;
mod parcel;
mod payload;
mod room;
mod server;

pub use buffered::Buffered;
pub use client::{DeferringStore, StreamStore};
pub use fault::StreamFault;
pub use frame::PAYLOAD_LIMIT;
pub use keeping::KEPT_LIMIT;
pub use parcel::StreamParcel;
pub use room::Budget;
pub use server::{serve_store, serve_store_within};
