//! Tests of objects that threads share, through public calls. Expected answers are worked out by hand.
#![tactic(auto)]

#[cfg(test)]
mod accesses;
#[cfg(test)]
mod compared;
#[cfg(test)]
mod moves;
#[cfg(test)]
mod pairs;
#[cfg(test)]
mod stage;
#[cfg(test)]
mod threads;
