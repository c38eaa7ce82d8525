//! Bytes in, commands out.
ghost use Rattle.std.specs.Prelude.{◌≡◌, ◌++◌, ◌<◌, ◌≤◌, length, IfSome, IfNone, IfOk, IsTrue, IsFalse, ◌↔◌};
ghost use Rattle.console.specs.Lines.{IsLine};
ghost use Rattle.console.specs.Commands.{Reads, SpellsCommand};
ghost use Rattle.console.specs.Held.{Held, nothing_held, TakesBytes, clip};

use crate::commands::{LINE_LIMIT, read_line};
use crate::fault::LineFault;
use crate::tokens::find;
use std::alloc::{AllocError, Global};
use std::marker::Model;
use world::Event;

/// The line that is coming: at most one byte more than a command may have.
#[derive(Drop)]
pub struct Console {
    alloc: Global,
    line: Vec<u8>,
    waits: bool,
}

impl Model for Console {
    ghost use Rattle.std.specs.Prelude.{◌≤◌, ◌+◌, length, vec_capacity};
    ghost use Rattle.console.specs.Lines.{IsLine, line_limit};
    ghost use Rattle.console.specs.Held.{Held};

    ghost Value = { Held };

    ghost view = { λ c. record { line = c.line.items; waits = c.waits } };

    ghost invariant = { λ c. IsLine c.line.items × (length c.line.items ≤ line_limit + 1) × (line_limit + 1 ≤ vec_capacity c.line) };
}

impl Console {
    /// A console that holds nothing. All the memory that it needs for lines is taken here.
    pub fn new(alloc: Global) -> Result<Self, AllocError>
        ensures { IfOk result (λ console. console ≡ nothing_held) }
    {
        Ok(Console {
            alloc,
            line: Vec::with_capacity(alloc, LINE_LIMIT + 1)?,
            waits: false,
        })
    }

    /// Takes bytes up to and with the first line end, none while a line waits, and says how many.
    pub fn feed(&mut self, bytes: &[u8]) -> usize
        ensures waits { IsTrue self.old.waits → (result ≡ 0) × (self.new ≡ self.old) }
        ensures count { result ≤ length bytes.now }
        ensures progress { IsFalse self.old.waits → 0 < length bytes.now → 0 < result }
        ensures feeds { IsFalse self.old.waits → TakesBytes self.old.line bytes.now result self.new }
    {
        if self.waits {
            return 0;
        }
        match find(b'\n', bytes) {
            Some(at) => {
                self.keep(&bytes[..at]);
                self.waits = true;
                at + 1
            }
            None => {
                self.keep(bytes);
                bytes.len()
            }
        }
    }

    /// Keeps as much of these bytes of the line as is needed.
    fn keep(&mut self, bytes: &[u8])
        requires { IsLine bytes.now }
        ensures line { self.new.line ≡ clip (self.old.line ++ bytes.now) }
        ensures waits { self.new.waits ≡ self.old.waits }
    {
        let room = LINE_LIMIT + 1 - self.line.len();
        let kept = bytes.len().min(room);
        let _ = self.line.extend_from_slice(&bytes[..kept]);
    }

    /// What the line that waits says, if one does. It waits no more.
    pub fn next_command(&mut self) -> Option<Result<Event, LineFault>>
        ensures some { IfSome result (λ command. IsTrue self.old.waits × Reads (SpellsCommand self.old.line) command × (self.new ≡ nothing_held)) }
        ensures none { IfNone result (IsFalse self.old.waits × (self.new ≡ self.old)) }
        ensures line { IsLine self.old.line × (clip self.old.line ≡ self.old.line) }
    {
        if !self.waits {
            return None;
        }
        let command = read_line(self.alloc, &self.line);
        self.clear();
        Some(command)
    }

    /// Whether a line has begun and its end has not come.
    pub fn rest(&self) -> bool
        ensures { IsTrue result ↔ (IsFalse self.now.waits × (0 < length self.now.line)) }
    {
        !self.waits && !self.line.is_empty()
    }

    /// Drops what is held.
    pub fn clear(&mut self)
        ensures { self.new ≡ nothing_held }
    {
        self.line.clear();
        self.waits = false;
    }
}
