//! Machines that workers step over one table, over public calls alone.
#![tactic(auto)]

#[cfg(test)]
mod apart;
#[cfg(test)]
mod common;
#[cfg(test)]
mod compared;
#[cfg(test)]
mod course;
#[cfg(test)]
mod gates;
#[cfg(test)]
mod leaving;
#[cfg(test)]
mod lent_turns;
#[cfg(test)]
mod locks;
#[cfg(test)]
mod moving;
#[cfg(test)]
mod turns;
#[cfg(test)]
mod untold;
