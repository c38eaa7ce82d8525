//! Where clients come in.

use std::io;
use std::net::{TcpListener, TcpStream};
use std::os::fd::OwnedFd;
use std::os::unix::net::UnixListener;

/// Where the next client is waited for.
pub trait Accepts {
    /// The next client's stream.
    fn next_client(&self) -> io::Result<TcpStream>;
}

impl Accepts for TcpListener {
    fn next_client(&self) -> io::Result<TcpStream> {
        let (stream, _) = self.accept()?;
        let _ = stream.set_nodelay(true);
        Ok(stream)
    }
}

impl Accepts for UnixListener {
    // The system reads, writes and shuts down a stream of either kind by the same calls.
    fn next_client(&self) -> io::Result<TcpStream> {
        let (stream, _) = self.accept()?;
        Ok(TcpStream::from(OwnedFd::from(stream)))
    }
}

/// Where clients of a service come in: at a port of 127.0.0.1, or at a socket file.
#[derive(Drop)]
pub enum Door {
    Port(TcpListener),
    File(UnixListener),
}

impl Accepts for Door {
    fn next_client(&self) -> io::Result<TcpStream> {
        match self {
            Door::Port(listener) => listener.next_client(),
            Door::File(listener) => listener.next_client(),
        }
    }
}
