//! A client at the other end of a pipe: it says its next line only when it has read the reply to
//! the last one.

use std::alloc::Global;
use std::cell::Cell;
use std::io::{Error, ErrorKind, Read, Result, Write};

/// Gives one line a call. A call that comes while replies are missing would wait for ever, so it
/// fails.
#[derive(Drop)]
pub struct PipeReader<'a> {
    rest: &'a [u8],
    lines: usize,
    replies: &'a Cell<usize>,
}

/// Takes all that it is given, and counts the replies.
#[derive(Drop)]
pub struct PipeWriter<'a> {
    pub taken: Vec<u8>,
    replies: &'a Cell<usize>,
}

impl<'a> PipeReader<'a> {
    /// A client that says these lines, and sees the replies that are counted here.
    pub fn new(lines: &'a [u8], replies: &'a Cell<usize>) -> Self {
        PipeReader {
            rest: lines,
            lines: 0,
            replies,
        }
    }
}

impl<'a> PipeWriter<'a> {
    /// A writer that counts replies here.
    pub fn new(alloc: Global, replies: &'a Cell<usize>) -> Self {
        PipeWriter {
            taken: Vec::new(alloc),
            replies,
        }
    }
}

impl<'a> Read for PipeReader<'a> {
    fn read(&mut self, buf: &mut [u8]) -> Result<usize> {
        if self.replies.get() < self.lines {
            return Err(Error::from(ErrorKind::WouldBlock));
        }
        let line = match self.rest.iter().position(|b| *b == b'\n') {
            Some(at) => at + 1,
            None => self.rest.len(),
        };
        let n = line.min(buf.len());
        buf[..n].copy_from_slice(&self.rest[..n]);
        self.rest = &self.rest[n..];
        self.lines = self.lines.saturating_add(1);
        Ok(n)
    }
}

impl<'a> Write for PipeWriter<'a> {
    fn write(&mut self, buf: &[u8]) -> Result<usize> {
        self.taken.extend_from_slice(buf)?;
        let ended = buf.iter().filter(|b| **b == b'\n').count();
        self.replies.set(self.replies.get().saturating_add(ended));
        Ok(buf.len())
    }

    fn flush(&mut self) -> Result<()> {
        Ok(())
    }
}
