//! Tests of the loader: code that is valid, and code that is refused.
#![tactic(auto)]

#[cfg(test)]
mod compared;
#[cfg(test)]
mod tests;
