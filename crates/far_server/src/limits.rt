//! What bounds the clients of a server.

use std::time::Duration;

/// What bounds the clients of a server, beside how many there are.
#[derive(Clone, Copy, Drop, Debug, PartialEq, Eq)]
pub struct Limits {
    /// How long a client may send nothing, or leave what it is sent unread. Then it is given up.
    pub idle: Option<Duration>,
    /// How many bytes are kept at most, of all clients together, if there is a bound.
    pub memory: Option<u64>,
}

/// Clients may be idle for ever, and what they send is kept while there is memory.
pub const UNLIMITED: Limits = Limits {
    idle: None,
    memory: None,
};
