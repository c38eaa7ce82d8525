//! What a seat knows. No value of these types is made: they are for clauses and for the rule of the table.

use memory::{Deed, Given};
use std::collections::LinkedList;

/// One access to one object, or one range of it that was read or written.
pub struct SharedEntry {
    pub actor: usize,
    pub stamp: u64,
    /// The stamp that its turn found.
    pub found: u64,
    pub object: u32,
    pub deed: Deed,
    pub given: Given,
}

/// The turn on an object, which was taken at this stamp with these bytes.
pub struct Turn {
    pub object: usize,
    pub stamp: u64,
    pub bytes: LinkedList<u8>,
}

/// Why an access was not done.
pub enum Mark {
    /// The object was found away.
    Away(usize),
    /// Another had the turn.
    Busy(usize),
    /// The stamps ran out: the turn found this one.
    Worn(usize, u64),
}

/// What a seat that was taken in had done.
pub struct Part {
    pub actor: usize,
    pub entries: LinkedList<SharedEntry>,
    pub marks: LinkedList<Mark>,
}

/// Where an object is for the seat of the mover.
pub enum Whereabouts {
    /// It is here.
    Here,
    /// It is on its way, and was taken with these bytes.
    Moving(LinkedList<u8>),
    /// It is far, and was taken with these bytes.
    Far(LinkedList<u8>),
}

/// One cooling of an object, and whether it was hot then.
pub struct Cooling {
    pub object: usize,
    pub hot: bool,
}

/// What one seat knows.
pub struct View {
    /// How many seats there are, where this seat made the others; else 0.
    pub made: usize,
    /// How many seats are not spent, where this seat made the others.
    pub alive: usize,
    pub live: bool,
    /// The seats that were taken in.
    pub gathered: LinkedList<Part>,
    pub actor: usize,
    /// The bytes of each number when the table was opened.
    pub opening: LinkedList<LinkedList<u8>>,
    /// Whether far stores give back what was put.
    pub returns: bool,
    /// The objects that were found here, with their scope open.
    pub scopes: LinkedList<usize>,
    /// The objects that were found away, and are still counted.
    pub passing: LinkedList<usize>,
    pub turn: Option<Turn>,
    pub entries: LinkedList<SharedEntry>,
    pub marks: LinkedList<Mark>,
    /// By number where each object is, at the seat of the mover; none at any other.
    pub out: LinkedList<Whereabouts>,
    /// What each cooling found, in order, at the seat of the mover; none at any other.
    pub coolings: LinkedList<Cooling>,
}
