//! What is shown of a machine.
ghost use Rattle.std.specs.Prelude.{◌≡◌, ◌≤◌, length};
ghost use Rattle.std.specs.Str.{bytes_eq};
ghost use Rattle.std.specs.Cmp.Rules.{comparing};
ghost use Rattle.std.proofs.Common.{rules};
ghost use Rattle.helpers.specs.Helpers.{emitted_limit};

use arrayvec::ArrayVec;
use helpers::EMITTED_LIMIT;
use machine::Stop;
use std::marker::Model;

/// Whether a machine goes on.
#[derive(Clone, Copy, Drop, Debug, PartialEq, Eq)]
pub enum State {
    /// Its next step is done.
    Running,
    /// It is paused.
    Paused,
    /// It is stopped.
    Stopped(Stop),
}

/// What is shown of a machine.
#[derive(Clone, Copy, Drop, Debug, PartialEq, Eq)]
pub struct Shown {
    /// The slot where the next instruction begins.
    pub slot: usize,
    /// How many instructions may still be done.
    pub fuel: u64,
    /// Whether it goes on.
    pub state: State,
    /// R0 to R10.
    pub registers: [u64; 11],
}

/// An instruction as assembly: at most 256 bytes.
#[derive(Drop, Debug)]
pub struct LineText {
    text: Vec<u8>,
}

impl Model for LineText {
    ghost use Rattle.std.specs.Prelude.{ℕ, List, ◌≤◌, length};

    ghost Value = { List ℕ };

    ghost view = { λ t. t.text.items };

    ghost invariant = { λ t. length t.text.items ≤ 256 };
}

impl LineText {
    pub fn new(text: Vec<u8>) -> Self
        requires { length text.items ≤ 256 }
        ensures { result ≡ text.items }
    {
        LineText { text }
    }

    /// The text, of at most 256 bytes.
    pub fn as_slice(&self) -> &[u8]
        ensures text { result.now ≡ self.now }
        ensures short { length result.now ≤ 256 }
    {
        self.text.as_slice()
    }
}

impl PartialEq for LineText {
    ghost eq = { λ a b. bytes_eq a b };

    ghost laws = { Prim.search (comparing, rules) };

    fn eq(&self, other: &LineText) -> bool {
        self.as_slice() == other.as_slice()
    }
}

impl Eq for LineText {
    ghost laws = { Prim.search (comparing, rules) };
}

/// What a machine has emitted, the oldest first.
#[derive(Drop, Debug)]
pub struct Values {
    values: ArrayVec<u64, EMITTED_LIMIT>,
}

impl Model for Values {
    ghost use Rattle.std.specs.Prelude.{ℕ, List};

    ghost Value = { List ℕ };

    ghost view = { λ v. v.values.items };
}

impl Values {
    pub fn new(values: &[u64]) -> Self
        requires { length values.now ≤ emitted_limit }
        ensures { result ≡ values.now }
    {
        let mut kept = ArrayVec::new();
        let _ = kept.try_extend_from_slice(values);
        Values { values: kept }
    }

    pub fn as_slice(&self) -> &[u64]
        ensures values { result.now ≡ self.now }
        ensures count { length result.now ≤ emitted_limit }
    {
        self.values.as_slice()
    }
}

impl PartialEq for Values {
    ghost eq = { λ a b. bytes_eq a b };

    ghost laws = { Prim.search (comparing, rules) };

    fn eq(&self, other: &Values) -> bool {
        self.as_slice() == other.as_slice()
    }
}

impl Eq for Values {
    ghost laws = { Prim.search (comparing, rules) };
}
