//! Machines that run small programs, over the store of objects.
#![tactic(auto)]

#[cfg(test)]
mod accesses;
#[cfg(test)]
mod acts;
#[cfg(test)]
mod atomics;
#[cfg(test)]
mod common;
#[cfg(test)]
mod compared;
#[cfg(test)]
mod grants;
#[cfg(test)]
mod helper_calls;
#[cfg(test)]
mod pairs;
#[cfg(test)]
mod programs;
