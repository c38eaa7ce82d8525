//! Objects that threads share, and that a mover takes away and brings back.
#![tactic(auto)]

mod body;
mod closing;
mod errors;
mod kinds;
mod laws;
mod moving;
mod opening;
mod seat_memory;
mod seats;
mod shared;
mod table;
mod touching;
mod view;

pub use closing::ObjectEnd;
pub use errors::{Denied, GetError};
pub use kinds::Key;
pub use laws::{
    counts_stay_few, learnt_stands_before, legal_histories_run, one_lists_are_legal,
    sorted_entries_run, stamps_cover, tables_have_histories, words_show_seats,
};
pub use moving::Leave;
pub use seat_memory::SeatMemory;
pub use seats::{ActorSeat, MoverSeat, Phase};
pub use shared::{OpenFault, Shared};
pub use table::SharedTable;
pub use view::{Mark, Part, SharedEntry, Turn, View, Whereabouts};
