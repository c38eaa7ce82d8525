//! Writers that take little in a call, or fail, at a place that the test picks.

use std::alloc::Global;
use std::io::{Error, ErrorKind, Result, Write};

/// A writer that takes at most so many bytes a call, and none once it has so many in all.
#[derive(Drop)]
pub struct Narrow {
    pub taken: Vec<u8>,
    /// The most bytes of a call.
    pub size: usize,
    /// How many bytes it takes in all.
    pub room: usize,
    /// How often it was called.
    pub calls: usize,
}

impl Narrow {
    pub fn new(alloc: Global, size: usize, room: usize) -> Self {
        Narrow {
            taken: Vec::new(alloc),
            size,
            room,
            calls: 0,
        }
    }
}

impl Write for Narrow {
    fn write(&mut self, buf: &[u8]) -> Result<usize> {
        self.calls = self.calls.saturating_add(1);
        let left = self.room.saturating_sub(self.taken.len());
        let n = buf.len().min(self.size).min(left);
        self.taken.extend_from_slice(&buf[..n])?;
        Ok(n)
    }

    fn flush(&mut self) -> Result<()> {
        Ok(())
    }
}

/// How a write fails.
#[derive(Clone, Copy, Drop, Debug, PartialEq, Eq)]
pub enum Failure {
    /// With this error.
    Error(ErrorKind),
    /// It takes no byte.
    TakesNothing,
}

/// A writer that fails once, and takes all that it is given before and after.
#[derive(Drop)]
pub struct FailingWriter {
    pub taken: Vec<u8>,
    /// How many calls come before the one that fails.
    pub good: usize,
    /// How that one fails.
    pub failure: Failure,
    /// How often it was called.
    pub calls: usize,
}

impl FailingWriter {
    pub fn new(alloc: Global, good: usize, failure: Failure) -> Self {
        FailingWriter {
            taken: Vec::new(alloc),
            good,
            failure,
            calls: 0,
        }
    }
}

impl Write for FailingWriter {
    fn write(&mut self, buf: &[u8]) -> Result<usize> {
        let calls = self.calls;
        self.calls = calls.saturating_add(1);
        if calls == self.good {
            return match self.failure {
                Failure::Error(kind) => Err(Error::from(kind)),
                Failure::TakesNothing => Ok(0),
            };
        }
        self.taken.extend_from_slice(buf)?;
        Ok(buf.len())
    }

    fn flush(&mut self) -> Result<()> {
        Ok(())
    }
}
