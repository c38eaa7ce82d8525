//! Conversations with the service, over public calls alone.
#![tactic(auto)]

#[cfg(test)]
mod closing;
#[cfg(test)]
mod closing_two;
#[cfg(test)]
mod commands;
#[cfg(test)]
mod compared;
#[cfg(test)]
mod debugging;
#[cfg(test)]
mod devices;
#[cfg(test)]
mod listening;
#[cfg(test)]
mod lying;
#[cfg(test)]
mod opening;
#[cfg(test)]
mod places;
#[cfg(test)]
mod rows;
#[cfg(test)]
mod stage;
#[cfg(test)]
mod tools;
#[cfg(test)]
mod watching;
