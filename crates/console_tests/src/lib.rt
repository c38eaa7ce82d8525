//! Lines, replies and devices of a console, over public calls alone. Whole conversations are
//! scripts, which the program `script_runner` runs.
#![tactic(auto)]

#[cfg(test)]
mod compared;
#[cfg(test)]
mod faults;
#[cfg(test)]
mod gathered;
#[cfg(test)]
mod lines;
#[cfg(test)]
mod pieces;
#[cfg(test)]
mod refusals;
#[cfg(test)]
mod replies;
#[cfg(test)]
mod talks;
