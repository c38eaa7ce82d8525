//! Streams over TCP.

use far_stream::{StreamFault, serve_store};
use std::alloc::Global;
use std::io::{Error, ErrorKind, Read, Result as IoResult, Write};
use std::net::{Ipv4Addr, Net, TcpListener, TcpStream};

/// Both ends of a stream.
pub fn ends<R: Net<Listener = TcpListener, Stream = TcpStream>>(
    rt: &R,
) -> IoResult<(TcpStream, TcpStream)> {
    let listener = TcpListener::bind(rt, (Ipv4Addr::LOCALHOST, 0))?;
    let near = TcpStream::connect(rt, listener.local_addr()?)?;
    let (far, _) = listener.accept()?;
    Ok((near, far))
}

/// What becomes of one write.
#[derive(Clone, Copy, Drop, PartialEq, Eq)]
pub enum Flaw {
    /// Its last byte is another one.
    Damages,
    /// It fails.
    Fails,
}

/// A stream of which one write goes wrong.
#[derive(Drop)]
struct Flawed {
    flaw: Flaw,
    stream: TcpStream,
    alloc: Global,
    /// How many writes come before that one.
    good: usize,
    writes: usize,
}

impl Read for Flawed {
    fn read(&mut self, buf: &mut [u8]) -> IoResult<usize> {
        self.stream.read(buf)
    }
}

impl Write for Flawed {
    fn write(&mut self, buf: &[u8]) -> IoResult<usize> {
        let before = self.writes;
        self.writes = before.saturating_add(1);
        if before != self.good {
            return self.stream.write(buf);
        }
        if self.flaw == Flaw::Fails {
            return Err(Error::from(ErrorKind::BrokenPipe));
        }
        let mut damaged = buf.to_vec(self.alloc)?;
        if let Some(last) = damaged.pop() {
            damaged.push(last ^ 1)?;
        }
        let taken = self.stream.write(&damaged)?;
        Ok(taken.min(buf.len()))
    }

    fn flush(&mut self) -> IoResult<()> {
        self.stream.flush()
    }
}

/// Has a far store serve the one client that comes. The answer after so many goes wrong.
pub fn serve_flawed(
    alloc: Global,
    listener: TcpListener,
    flaw: Flaw,
    good: usize,
) -> Result<(), StreamFault> {
    let Ok((stream, _)) = listener.accept() else {
        return Err(StreamFault::Io);
    };
    let mut stream = Flawed {
        flaw,
        stream,
        alloc,
        good,
        writes: 0,
    };
    serve_store(alloc, &mut stream)
}
