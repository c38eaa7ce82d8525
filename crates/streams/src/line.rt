//! A line while it is made.
ghost use Rattle.std.specs.Prelude.{◌≡◌, ◌+◌, ◌≤◌, ◌<◌, ◌++◌, ◌∷◌, [], length};
ghost use Rattle.arrayvec.specs.ArrayVec.{array_vec_len};

use arrayvec::ArrayVec;
use itoa::Integer;
use std::marker::Model;
use std::ops::DerefSlice;

/// A line while it is made: at most so many bytes, which lie in the value itself.
#[derive(Drop)]
pub struct Line<const LIMIT: usize> {
    bytes: ArrayVec<u8, LIMIT>,
}

impl<const LIMIT: usize> Model for Line<LIMIT> {
    ghost use Rattle.std.specs.Prelude.{ℕ};
    ghost use Rattle.arrayvec.specs.ArrayVec.{ArrayVec as Items};

    ghost Value = { Items ℕ };

    ghost view = { λ l. l.bytes };
}

impl<const LIMIT: usize> Line<LIMIT> {
    /// An empty line.
    pub fn new() -> Self
        ensures { result.items ≡ [] }
    {
        Line {
            bytes: ArrayVec::new(),
        }
    }

    /// Makes it empty again.
    #[inline]
    pub fn clear(&mut self)
        ensures { self.new.items ≡ [] }
    {
        self.bytes.clear();
    }

    /// Adds a text.
    #[inline]
    pub fn put(&mut self, text: &[u8])
        requires { array_vec_len self.old + length text.now ≤ LIMIT }
        ensures text { self.new.items ≡ self.old.items ++ text.now }
        ensures len { array_vec_len self.new ≡ array_vec_len self.old + length text.now }
    {
        let _ = self.bytes.try_extend_from_slice(text);
    }

    /// Adds a byte.
    #[inline]
    pub fn push(&mut self, byte: u8)
        requires { array_vec_len self.old < LIMIT }
        ensures items { self.new.items ≡ self.old.items ++ byte ∷ [] }
        ensures len { array_vec_len self.new ≡ array_vec_len self.old + 1 }
    {
        self.bytes.push(byte);
    }

    /// Adds a number in decimal.
    #[inline]
    pub fn put_decimal<I: Integer>(&mut self, number: I)
        requires { array_vec_len self.old + I.MAX_STR_LEN ≤ LIMIT }
        ensures text { self.new.items ≡ self.old.items ++ I.text number }
        ensures short { array_vec_len self.new ≤ array_vec_len self.old + I.MAX_STR_LEN }
    {
        self.put(itoa::Buffer::new().format(number).as_bytes());
    }

    /// Adds the line end.
    #[inline]
    pub fn end(&mut self)
        requires { array_vec_len self.old < LIMIT }
        ensures { self.new.items ≡ self.old.items ++ 10 ∷ [] }
    {
        self.push(b'\n');
    }

    /// What it has so far.
    #[inline]
    pub fn as_slice(&self) -> &[u8]
        ensures value { result.now ≡ self.now.items }
        ensures fits { length result.now ≤ LIMIT }
    {
        self.bytes.as_slice()
    }
}

impl<const LIMIT: usize> DerefSlice for Line<LIMIT> {
    type Elem = u8;

    ghost deref_gives = { λ l xs. (xs ≡ l.items) × (length xs ≤ LIMIT) };

    #[inline]
    fn deref(&self) -> &[u8] {
        self.as_slice()
    }
}
