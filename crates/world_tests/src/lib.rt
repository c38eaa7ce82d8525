//! Tests of commands through the world's public calls.
#![tactic(auto)]

#[cfg(test)]
mod common;
#[cfg(test)]
mod compared;
#[cfg(test)]
#[cfg(test)]
mod debugging;
#[cfg(test)]
mod far;
#[cfg(test)]
mod machines;
#[cfg(test)]
mod moves;
#[cfg(test)]
mod objects;
#[cfg(test)]
mod parts;
#[cfg(test)]
mod rows;
#[cfg(test)]
mod running;
