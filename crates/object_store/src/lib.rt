//! Objects that move: a store of objects whose bytes can be taken to a far store and brought back while machines run.
//!
//! Accesses and memory are those of `memory`; [`StoreMemory`], a store lent to a machine, is a `Memory`. A machine
//! that reaches an object has it in scope, and it stays here until the scope closes (after AIFM's dereference scopes;
//! windows, budget and moves are this project's choice).
#![tactic(auto)]

mod bodies;
mod errors;
mod parts;
mod scoping;
mod standing;
mod stores;

pub use errors::{Denied, GetError, MakeError, PartsError};
pub use parts::Parts;
pub use placement::{Moved, Place};
pub use stores::leased::{Lease, LeasedMemory};
pub use stores::{ObjectStore, StoreMemory};
