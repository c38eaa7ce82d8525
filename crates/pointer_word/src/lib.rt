//! The word that stands for an object while it is moved and shared: where it is, who has it, how many hold it in scope.
#![tactic(auto)]

mod laws;
#[cfg(test)]
mod tests;
mod word;

pub use laws::{one_number, scopes_keep_objects_here};
pub use word::{FARTHER, HOT, PLACE, SCOPE, STAMP, STAMP_LIMIT, TURN, Word, WordPlace, is_away};
