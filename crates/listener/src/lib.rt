//! A listener on 127.0.0.1 or at a socket file: how it is bound and announced, and how its clients are accepted.
#![tactic(auto)]

mod accepting;
mod announcing;
mod bell;
mod binding;
mod door;
mod filing;
mod journal;
mod lock;
mod patience;

pub use accepting::{accept, accept_or_rest};
pub use announcing::{Name, announce, announce_at, file_name, port_name};
pub use bell::Bell;
pub use binding::bind;
pub use door::{Accepts, Door};
pub use filing::{SocketFile, bind_file};
pub use journal::{Journal, Shortage, Unwritten};

/// What is said of a network that failed.
pub const NET_FAULT: &str = "net fault";
