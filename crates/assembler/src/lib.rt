//! Assembly in, instructions out.
#![tactic(auto)]

mod error;
mod laws;
mod lines;
mod passes;

pub use asm_grammar::Why;
pub use error::AsmError;
pub use laws::{
    canonical_spells, label_last, least_first, ok_exactly, one_meaning, one_spelling, tokens_decide,
};
pub use lines::line_at;
pub use passes::{assemble, assemble_bytes};
