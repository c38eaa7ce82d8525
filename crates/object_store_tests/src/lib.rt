//! Tests of objects that move, through public calls. Expected answers are worked out by hand.
#![tactic(auto)]

#[cfg(test)]
mod acts;
#[cfg(test)]
mod compared;
#[cfg(test)]
mod moves;
#[cfg(test)]
mod objects;
#[cfg(test)]
mod parcels;
#[cfg(test)]
mod parts;
#[cfg(test)]
mod stores;
#[cfg(test)]
mod trips;
