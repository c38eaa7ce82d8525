//! Tests of accesses through public calls, and a memory for tests. Expected bytes are worked out by hand.
#![tactic(auto)]

#[cfg(test)]
mod accesses;
mod single;

pub use single::Single;
