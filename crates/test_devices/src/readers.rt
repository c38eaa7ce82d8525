//! Readers that give little in a call, or fail, at a place that the test picks.

use std::io::{Error, ErrorKind, Read, Result};

/// A reader that gives at most so many bytes a call, and then is at its end.
#[derive(Drop)]
pub struct Pieces<'a> {
    /// What it has still to give.
    pub rest: &'a [u8],
    /// The most bytes of a call.
    pub size: usize,
    /// How often it was called.
    pub calls: usize,
}

impl<'a> Pieces<'a> {
    pub fn new(bytes: &'a [u8], size: usize) -> Self {
        Pieces {
            rest: bytes,
            size,
            calls: 0,
        }
    }
}

impl<'a> Read for Pieces<'a> {
    fn read(&mut self, buf: &mut [u8]) -> Result<usize> {
        self.calls = self.calls.saturating_add(1);
        let n = self.rest.len().min(buf.len()).min(self.size);
        buf[..n].copy_from_slice(&self.rest[..n]);
        self.rest = &self.rest[n..];
        Ok(n)
    }
}

/// A reader that fails once, and is another reader before and after.
#[derive(Drop)]
pub struct FailingReader<R: Drop> {
    pub reader: R,
    /// How many calls come before the one that fails.
    pub good: usize,
    /// How that one fails.
    pub kind: ErrorKind,
    /// How often it was called.
    pub calls: usize,
}

impl<R: Drop> FailingReader<R> {
    /// A reader that breaks after so many calls.
    pub fn new(reader: R, good: usize) -> Self {
        FailingReader {
            reader,
            good,
            kind: ErrorKind::BrokenPipe,
            calls: 0,
        }
    }
}

impl<R: Read + Drop> Read for FailingReader<R> {
    fn read(&mut self, buf: &mut [u8]) -> Result<usize> {
        let calls = self.calls;
        self.calls = calls.saturating_add(1);
        if calls == self.good {
            return Err(Error::from(self.kind));
        }
        self.reader.read(buf)
    }
}
