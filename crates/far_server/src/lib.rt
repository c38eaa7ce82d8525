//! A program's server of far objects: it listens on 127.0.0.1, and serves clients, each on a thread of its own, until its input
//! ends.
#![tactic(auto)]

mod clients;
mod ended;
mod fault;
mod journal;
mod limits;
mod listening;
mod texts;
mod threads;

pub use clients::CLIENT_LIMIT;
pub use fault::ServerFault;
pub use journal::{Refusal, ServerEvent};
pub use limits::{Limits, UNLIMITED};
pub use listener::{Journal, Unwritten};
pub use listening::run_server;
