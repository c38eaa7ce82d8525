//! Tests of the instruction table, row for row, by values that `vectors.py` computes apart from it.
#![tactic(auto)]

#[cfg(test)]
mod tables;
#[cfg(test)]
mod tests;
