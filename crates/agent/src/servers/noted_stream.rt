//! The stream of a far server, whose errors are written down.
ghost use Rattle.std.specs.Prelude.{◌≡◌, IfSome};

use crate::servers::notes::{Note, Notes};
use crate::servers::pace::Pace;
use std::io::{self, Eprint, Error, ErrorKind, Read, Write};
use std::marker::Model;
use std::net::TcpStream;
use std::time::{Clock, Duration};

/// How often in a row a call that was interrupted is made again.
const CALLS: usize = 1000;

/// A stream, and where its errors are written down. A call that is interrupted is made again: a process that is stopped by a signal
/// and goes on finds its calls with a time-out interrupted, and its stream is well. A server whose bytes come too slowly is given up
/// as one that is silent.
#[derive(Drop)]
pub(crate) struct NotedStream<R: Copy> {
    stream: TcpStream,
    notes: Notes<R>,
    pace: Pace<R>,
}

impl<R: Copy> Model for NotedStream<R> {
    ghost use Rattle.std.specs.declared.net.tcp.TcpStream.{TcpStream};

    ghost Value = { TcpStream };

    ghost view = { λ s. s.stream };
}

impl<R: Clock + Copy> NotedStream<R> {
    /// This stream, written down so. Each answer may take so long, beside the time that its bytes take at the least rate.
    pub fn new(rt: R, stream: TcpStream, longest: Duration, notes: Notes<R>) -> Self {
        NotedStream {
            stream,
            notes,
            pace: Pace::new(rt, longest),
        }
    }
}

impl<R: Clock + Eprint + Copy> NotedStream<R> {
    /// What a call answered, unless it was interrupted and is made again. An error is written down.
    fn answer(&mut self, called: io::Result<usize>) -> Option<io::Result<usize>>
        ensures { IfSome result (λ answer. answer ≡ called) }
    {
        match called {
            Ok(count) => {
                self.pace.moved(count);
                Some(Ok(count))
            }
            Err(error) if error.kind() == ErrorKind::Interrupted => None,
            Err(error) => {
                self.notes.write(Note::Broken(error.kind()));
                Some(Err(error))
            }
        }
    }

    /// The error of a server that is too slow, which is written down.
    fn give_up(&self) -> Error {
        self.notes.write(Note::Broken(ErrorKind::TimedOut));
        Error::from(ErrorKind::TimedOut)
    }
}

impl<R: Clock + Eprint + Copy> Read for NotedStream<R> {
    fn read(&mut self, buf: &mut [u8]) -> io::Result<usize> {
        self.pace.answers();
        for _ in 0..CALLS {
            if self.pace.is_overdue() {
                return Err(self.give_up());
            }
            let called = self.stream.read(buf);
            if !buf.is_empty() && matches!(called, Ok(0)) {
                self.notes.write(Note::Broken(ErrorKind::UnexpectedEof));
            }
            if let Some(answer) = self.answer(called) {
                return answer;
            }
        }
        Err(Error::from(ErrorKind::Interrupted))
    }
}

impl<R: Clock + Eprint + Copy> Write for NotedStream<R> {
    fn write(&mut self, buf: &[u8]) -> io::Result<usize> {
        self.pace.asks(buf);
        for _ in 0..CALLS {
            if self.pace.is_overdue() {
                return Err(self.give_up());
            }
            let called = self.stream.write(buf);
            if let Some(answer) = self.answer(called) {
                return answer;
            }
        }
        Err(Error::from(ErrorKind::Interrupted))
    }

    // a stream of TCP keeps nothing back
    fn flush(&mut self) -> io::Result<()> {
        Ok(())
    }
}
