//! Commands as data, so that a front end builds them and a world runs them.

ghost use Rattle.std.specs.Prelude.{◌≡◌, ◌≤◌, IfSome, IfNone};
ghost use Rattle.memory.specs.Objects.{object_bytes};

use crate::world::Move;
use debugger::{MachineCommand, Start};
use memory::{Bytes, OBJECT_BYTES};
use std::marker::Model;

/// How many bytes an object is made of: at least one, and at most 65,536.
#[derive(Clone, Copy, Drop, Debug)]
pub struct ObjectLength {
    count: u32,
}

impl Model for ObjectLength {
    ghost use Rattle.std.specs.Prelude.{ℕ, ◌≤◌};
    ghost use Rattle.memory.specs.Objects.{object_bytes};

    ghost Value = { ℕ };

    ghost view = { λ l. l.count };

    ghost inverse = { λ n. record { count = n } };

    ghost invariant = { λ l. (1 ≤ l.count) × (l.count ≤ object_bytes) };
}

impl ObjectLength {
    /// The length, if it is one.
    pub fn new(count: u64) -> Option<Self>
        ensures some { IfSome result (λ l. (l ≡ count) × (1 ≤ count) × (count ≤ object_bytes)) }
        ensures none { IfNone result ((1 ≤ count) × (count ≤ object_bytes) → ⊥) }
    {
        if count == 0 || count > OBJECT_BYTES as u64 {
            return None;
        }
        Some(ObjectLength {
            count: count as u32,
        })
    }

    /// The number of bytes.
    pub fn get(self) -> u32
        ensures value { result ≡ self }
        ensures bounds { (1 ≤ result) × (result ≤ object_bytes) }
    {
        self.count
    }
}

/// A command. Machines are numbered from 1, in the order in which they were shipped, and objects from 1, in the order in
/// which they were made. No number is given twice.
#[derive(Drop, Debug)]
pub enum Event {
    /// Makes an object of so many bytes, all of them zero.
    Make {
        length: ObjectLength,
    },
    /// Makes a machine of this code.
    Ship {
        start: Start,
        code: Bytes,
    },
    /// Does something with an object.
    Object {
        object: u32,
        command: ObjectCommand,
    },
    /// Does something with a machine.
    Machine {
        machine: usize,
        command: MachineCommand,
    },
}

/// A command on an object.
#[derive(Drop, Debug)]
pub enum ObjectCommand {
    /// Frees it.
    Free,
    /// Writes these bytes into it, from an offset on.
    Put { offset: u32, bytes: Bytes },
    /// Shows so many bytes of it, from an offset on.
    Get { offset: u32, length: u32 },
    /// Moves it, or ends its move.
    Move(Move),
}
