//! Tests of the codec: worked encodings, and bytes that are no instruction.
#![tactic(auto)]

#[cfg(test)]
mod tests;
