//! The program, called with arguments and streams as a user would.
#![tactic(auto)]

#[cfg(test)]
mod arguments;
#[cfg(test)]
mod assembly;
#[cfg(test)]
mod budgets;
#[cfg(test)]
mod checking;
#[cfg(test)]
mod commands;
#[cfg(test)]
mod compared;
#[cfg(test)]
mod errors;
#[cfg(test)]
mod help_list;
#[cfg(test)]
mod moving;
#[cfg(test)]
mod outcome;
#[cfg(test)]
mod running;
#[cfg(test)]
mod servers;
#[cfg(test)]
mod storing;
