//! Binding a port.

use std::io;
use std::net::{Ipv4Addr, Net, SocketAddr, TcpListener, TcpStream};

/// A listener on this port of 127.0.0.1, or on any free one where it is 0, and its address.
pub fn bind<R: Net<Listener = TcpListener, Stream = TcpStream>>(
    rt: &R,
    port: u16,
) -> io::Result<(TcpListener, SocketAddr)> {
    let listener = TcpListener::bind(rt, SocketAddr::from((Ipv4Addr::LOCALHOST, port)))?;
    let address = listener.local_addr()?;
    Ok((listener, address))
}
