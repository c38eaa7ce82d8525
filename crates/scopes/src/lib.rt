//! The objects that a machine has in scope: at most four, the oldest first.
#![tactic(auto)]

mod laws;
#[cfg(test)]
mod tests;
mod window;

pub use laws::{noting_again_changes_nothing, noting_keeps_the_newest, windows_stay_windows};
pub use window::{MACHINE_LIMIT, Window};
