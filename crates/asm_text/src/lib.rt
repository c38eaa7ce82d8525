//! The tokens of one line of assembly, with where they stand.
#![tactic(auto)]

mod cursor;
mod laws;
mod token;
mod tokens;

pub use cursor::Tokens;
pub use laws::{
    blanks_dont_matter, comments_dont_matter, hex_case_doesnt_matter, marks_part, tokens_part,
};
pub use token::{Fault, Token};
pub use tokens::Found;
