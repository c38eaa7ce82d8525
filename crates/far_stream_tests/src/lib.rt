//! Tests of a far store over a stream, through public calls. Frames are laid out here by hand, and
//! expected answers are those that docs/FAR-MEMORY.md gives.
#![tactic(auto)]

#[cfg(test)]
mod calls;
#[cfg(test)]
mod client;
#[cfg(test)]
mod compared;
#[cfg(test)]
mod cuts;
#[cfg(test)]
mod deferring;
#[cfg(test)]
mod frames;
#[cfg(test)]
mod listening;
#[cfg(test)]
mod server;
#[cfg(test)]
mod threads;
#[cfg(test)]
mod wire;
