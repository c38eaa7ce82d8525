//! Reads and writes the instructions of RFC 9669 as bytes.
#![tactic(auto)]

mod building;
mod checks;
mod fault;
mod laws;
mod layout;
mod places;
mod reading;
mod slot;
mod taking;
mod writing;

pub use checks::may_hold_in;
pub use fault::Fault;
pub use laws::{no_fault_where_encoded, none_begins_another, none_shared};
pub use layout::{Field, Layout, layout_of};
pub use places::rows_at;
pub use reading::{decode_at, decode_one};
pub use slot::{Slot, slot_at};
pub use writing::encode;
