//! Replies that are written together.
ghost use Rattle.std.specs.Prelude.{◌≡◌, ◌++◌, ◌<◌, ◌≤◌, ℕ, List, [], length, take, drop, IsTrue, IsFalse, OnOk, OnErr};
ghost use Rattle.std.specs.Io.KnownBytes.{Appends};
ghost use Rattle.console.specs.Gathered.{Sends, grows, kept_after};

use crate::link::Link;
use std::io::{Read, Write};
use std::marker::Model;
use streams::{Line, ReadFault, WriteFault, put_all};

/// How many bytes of replies are kept.
const ROOM: usize = 8192;

/// The calls of std's readers and writers, where lines are kept until the next one finds no room, or until more is read.
#[derive(Drop)]
pub struct Gathering {
    lines: Line<ROOM>,
}

impl Model for Gathering {
    ghost use Rattle.std.specs.Prelude.{ℕ, List};

    ghost Value = { List ℕ };

    ghost view = { λ g. g.lines.items };
}

/// Writes these bytes until a write fails or takes none, and says how many were taken.
fn put_some<W: Write>(writer: &mut W, bytes: &[u8]) -> usize
    ensures bound { result ≤ length bytes.now }
    ensures bytes { Appends (W.contents writer.old) (W.contents writer.new) (take result bytes.now) }
{
    let mut written = 0;
    while written < bytes.len() {
        match writer.write(&bytes[written..]) {
            Ok(0) => return written,
            Ok(n) => written += n,
            Err(_) => return written,
        }
    }
    written
}

impl Gathering {
    /// One that keeps nothing.
    pub fn new() -> Self
        ensures { result ≡ [] }
    {
        Gathering { lines: Line::new() }
    }

    /// How many bytes are kept.
    fn length(&self) -> usize
        ensures value { result ≡ length self.now }
        ensures fits { result ≤ ROOM }
    {
        self.lines.as_slice().len()
    }

    /// Keeps these bytes too, if there is room for them.
    fn add(&mut self, bytes: &[u8]) -> bool
        ensures added { IsTrue result → self.new ≡ self.old ++ bytes.now }
        ensures same { IsFalse result → self.new ≡ self.old }
        ensures some { IsFalse result → 0 < length bytes.now }
    {
        if bytes.len() > ROOM - self.length() {
            return false;
        }
        self.lines.put(bytes);
        true
    }

    /// Drops the first of what is kept. Not inlined, so that no other frame has room for a second line.
    #[cold]
    #[inline(never)]
    fn drop_first(&mut self, count: usize)
        requires { count ≤ length self.old }
        ensures { self.new ≡ drop count self.old }
    {
        let mut rest: Line<ROOM> = Line::new();
        rest.put(&self.lines.as_slice()[count..]);
        self.lines = rest;
    }

    /// Writes all that is kept. Where that fails, what was not written is kept.
    pub fn send<W: Write>(&mut self, writer: &mut W) -> Result<(), WriteFault>
        ensures ok { OnOk result (self.new ≡ []) }
        ensures err { OnErr result (0 < length self.new) }
        ensures sends { Sends self.old (W.contents writer.old) (W.contents writer.new) self.new }
    {
        let count = put_some(writer, self.lines.as_slice());
        if count < self.length() {
            self.drop_first(count);
            return Err(WriteFault);
        }
        self.lines.clear();
        Ok(())
    }

    /// Writes what is kept at the end of a conversation. What is kept after one that failed is what a write left, which isn't tried again.
    pub fn finish<W: Write>(&mut self, writer: &mut W, failed: bool) -> Result<(), WriteFault>
        ensures ok { OnOk result (self.new ≡ []) }
        ensures err { OnErr result (0 < length self.new) }
        ensures sends { Sends self.old (W.contents writer.old) (W.contents writer.new) self.new }
    {
        if failed && self.length() > 0 {
            return Err(WriteFault);
        }
        self.send(writer)
    }
}

impl<R: Read, W: Write> Link<R, W> for Gathering {
    ghost use Rattle.console.specs.Gathered.{grows, kept_after};

    ghost remaining = { R.remaining };

    ghost contents = { λ gathering writer. kept_after (W.contents writer) gathering };

    ghost called = { λ reader writer call reader_after writer_after. grows (W.contents writer) (W.contents writer_after) };

    fn read(
        &mut self,
        reader: &mut R,
        writer: &mut W,
        buffer: &mut [u8],
    ) -> Result<usize, ReadFault> {
        let Ok(()) = self.send(writer) else {
            return Err(ReadFault);
        };
        match reader.read(buffer) {
            Ok(n) => Ok(n),
            Err(_) => Err(ReadFault),
        }
    }

    fn write_line(&mut self, _reader: &R, writer: &mut W, line: &[u8]) -> Result<(), WriteFault> {
        if self.add(line) {
            return Ok(());
        }
        self.send(writer)?;
        if self.add(line) {
            return Ok(());
        }
        put_all(writer, line)
    }
}
