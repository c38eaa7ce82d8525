//! Faults that end a server. Those of one client's stream end its thread alone.
ghost use Rattle.std.specs.Prelude.{◌≡◌, ◌≤◌, length};
ghost use Rattle.far_server.specs.Texts.{server_fault_name};

use listener::NET_FAULT;
use streams::{NO_MEMORY, READ_FAULT, WRITE_FAULT};
use thiserror::Error;

/// Why a server ended otherwise than with its input.
#[derive(Clone, Copy, Drop, Debug, PartialEq, Eq, Error)]
#[error("{}", self.name())]
pub enum ServerFault {
    /// The port can't be listened on, or the listener is broken.
    Net,
    /// The input failed.
    Read,
    /// The output failed.
    Write,
    /// Out of memory, for a thread too, before it listens.
    NoMemory,
}

impl ServerFault {
    /// As it is shown to a user.
    pub fn name(self) -> &'static str
        ensures name { result.now ≡ server_fault_name self }
        ensures short { length result.now ≤ 11 }
    {
        match self {
            ServerFault::Net => NET_FAULT,
            ServerFault::Read => READ_FAULT,
            ServerFault::Write => WRITE_FAULT,
            ServerFault::NoMemory => NO_MEMORY,
        }
    }
}
