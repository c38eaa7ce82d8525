//! The far store of an agent in the library for C: the library's own memory, or its caller.
#![tactic(auto)]

mod parcel;
mod store;

pub use parcel::{Handed, LibraryParcel};
pub use store::LibraryStore;
