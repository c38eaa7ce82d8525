//! What whoever runs a server may want to know.

use far_stream::StreamFault;
use std::io::Error;

/// Why a client is refused.
#[derive(Clone, Copy, Drop, Debug, PartialEq, Eq)]
pub enum Refusal {
    /// As many are there as are served at the same time.
    TooMany,
    /// No thread can be made for it.
    NoThread,
}

/// What happens to a server.
#[derive(Drop, Debug)]
pub enum ServerEvent {
    /// This port can't be listened on.
    PortRefused(u16, Error),
    /// This port is listened on.
    Listening(u16),
    /// The client of this number came.
    Came(u64),
    /// It went, or was given up.
    Went(u64, Result<(), StreamFault>),
    /// A client was refused.
    Refused(Refusal),
    /// No client can be accepted for now, for this reason. Noted once until one is accepted.
    Short(Error),
}
