//! Loads code: finds it valid, or says what is wrong with it and where. Writes code too.
#![tactic(auto)]

mod checks;
mod laws;
mod leading;
mod loading;
mod meaning;
mod pairs;
mod program;
mod rows;
mod writing;

pub use laws::{refused_for_one_reason, valid_code_is_taken};
pub use loading::{CODE_LIMIT, LoadError, Why, load};
pub use program::{CodeEntry, Program};
pub use rows::{Operands, Row};
pub use writing::encode_all;
