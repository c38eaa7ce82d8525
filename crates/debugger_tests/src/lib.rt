//! Debugged machines, over public calls alone.
#![tactic(auto)]

#[cfg(test)]
mod acts;
#[cfg(test)]
mod breakpoints;
#[cfg(test)]
mod common;
#[cfg(test)]
mod compared;
#[cfg(test)]
mod shown;
#[cfg(test)]
mod watches;
