//! The mover of a table, over public calls alone. Expected answers are worked out by hand.
#![tactic(auto)]

#[cfg(test)]
mod common;
#[cfg(test)]
mod compared;
#[cfg(test)]
mod damage;
#[cfg(test)]
mod faults;
#[cfg(test)]
mod keeps;
#[cfg(test)]
mod looks;
#[cfg(test)]
mod moves;
#[cfg(test)]
mod requests;
#[cfg(test)]
mod trial;
