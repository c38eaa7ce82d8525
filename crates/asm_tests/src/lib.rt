//! Texts by hand, and each form of assembly against the bytes of RFC 9669.
#![tactic(auto)]

#[cfg(test)]
mod answers;
#[cfg(test)]
mod compared;
#[cfg(test)]
mod example_list;
#[cfg(test)]
mod examples;
#[cfg(test)]
mod form_list;
#[cfg(test)]
mod forms;
#[cfg(test)]
mod limits;
#[cfg(test)]
mod lines;
#[cfg(test)]
mod page;
#[cfg(test)]
mod page_list;
#[cfg(test)]
mod programs;
#[cfg(test)]
mod refusals;
#[cfg(test)]
mod rows;
