//! The service: conversations of many connections over one table of objects and the machines that work on them.
#![tactic(auto)]

mod cells;
mod closing;
mod closing_lines;
mod connection;
mod journal;
mod laws;
mod lent;
mod listening;
mod opened;
mod ranges;
mod replies;
mod serving;
mod shared_agent;
mod texts;
mod threads;
mod turns;

pub use closing::{Closed, ClosedParts};
pub use closing_lines::{print_machine, print_object, write_closing_lines};
pub use connection::{Connection, Session};
pub use journal::{ServiceEvent, Tally};
pub use laws::{
    answered_machines_are_seen, machines_replay_the_list, opened_machines_stay,
    replies_are_entries, reply_is_entry, seen_machines_are_granted, shares_are_granted,
    steps_stand_above, unwritten_objects_stay,
};
pub use listener::{Journal, Unwritten};
pub use listening::{ListenFault, listen, listen_over};
pub use opened::{CONNECTION_LIMIT, OpenAgent, Opened};
pub use replies::ServiceReply;
pub use serving::{Service, serve};
pub use shared_agent::Agent;
pub use threads::Plan;
