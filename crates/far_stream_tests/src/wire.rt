//! A stream whose other end says what it was told to say, and hears whether it is told what it should be.

use std::cell::Cell;
use std::io::{Error, ErrorKind, Read, Result, Write};

/// What was heard over a wire, and how often it was asked.
#[derive(Drop)]
pub struct Heard {
    right: Cell<usize>,
    is_wrong: Cell<bool>,
    pub reads: Cell<usize>,
    pub writes: Cell<usize>,
}

impl Heard {
    /// Nothing yet.
    pub fn new() -> Self {
        Heard {
            right: Cell::new(0),
            is_wrong: Cell::new(false),
            reads: Cell::new(0),
            writes: Cell::new(0),
        }
    }

    /// Whether so many bytes were heard, all of them right, and nothing else.
    pub fn is(&self, count: usize) -> bool {
        !self.is_wrong.get() && self.right.get() == count
    }
}

/// What a wire gives and takes.
#[derive(Clone, Copy, Drop)]
pub struct Limits {
    /// The most bytes of a call.
    pub size: usize,
    /// How many reads come before the one that fails.
    pub good_reads: usize,
    /// How many writes come before the one that fails.
    pub good_writes: usize,
    /// Whether that write takes no byte, in place of an error.
    pub takes_nothing: bool,
}

/// Whatever it is asked for, without a failure.
pub const UNLIMITED: Limits = Limits {
    size: usize::MAX,
    good_reads: usize::MAX,
    good_writes: usize::MAX,
    takes_nothing: false,
};

/// A byte a call.
pub const BYTES: Limits = Limits {
    size: 1,
    ..UNLIMITED
};

/// A stream that gives the bytes that it has, within its limits, and then is at its end.
#[derive(Drop)]
pub struct Wire<'a> {
    /// What is still to be said.
    says: &'a [u8],
    /// What should be heard from now on.
    hears: &'a [u8],
    heard: &'a Heard,
    limits: Limits,
}

impl<'a> Wire<'a> {
    /// A wire without limits.
    pub fn new(says: &'a [u8], hears: &'a [u8], heard: &'a Heard) -> Self {
        Wire::within(says, hears, heard, UNLIMITED)
    }

    /// A wire with these limits.
    pub fn within(says: &'a [u8], hears: &'a [u8], heard: &'a Heard, limits: Limits) -> Self {
        Wire {
            says,
            hears,
            heard,
            limits,
        }
    }
}

/// Counts a call, and gives how many there were before.
fn count(calls: &Cell<usize>) -> usize {
    let before = calls.get();
    calls.set(before.saturating_add(1));
    before
}

impl<'a> Read for Wire<'a> {
    fn read(&mut self, buf: &mut [u8]) -> Result<usize> {
        if count(&self.heard.reads) == self.limits.good_reads {
            return Err(Error::from(ErrorKind::Interrupted));
        }
        let n = self.says.len().min(buf.len()).min(self.limits.size);
        buf[..n].copy_from_slice(&self.says[..n]);
        self.says = &self.says[n..];
        Ok(n)
    }
}

impl<'a> Write for Wire<'a> {
    fn write(&mut self, buf: &[u8]) -> Result<usize> {
        if count(&self.heard.writes) == self.limits.good_writes {
            return match self.limits.takes_nothing {
                true => Ok(0),
                false => Err(Error::from(ErrorKind::Interrupted)),
            };
        }
        let n = buf.len().min(self.limits.size);
        match self.hears.strip_prefix(&buf[..n]) {
            Some(rest) => {
                self.hears = rest;
                let right = self.heard.right.get().saturating_add(n);
                self.heard.right.set(right);
            }
            None => self.heard.is_wrong.set(true),
        }
        Ok(n)
    }

    fn flush(&mut self) -> Result<()> {
        Ok(())
    }
}
