//! The bytes of one object.
ghost use Rattle.std.specs.Prelude.{◌≡◌, ◌+◌, ◌≤◌, length};
ghost use Rattle.memory.specs.Access.{IsInside, answer, after, part, replaced};

use memory::{Op, act, overwrite};

/// The bytes of one object, which lie in a slot of the table.
#[derive(Drop)]
pub struct Body {
    pub bytes: Vec<u8>,
}

impl Body {
    /// Does an access on the bytes.
    #[inline(always)]
    pub fn act(&mut self, op: &Op) -> u64
        requires { IsInside op.now (length self.old.bytes.items) }
        ensures answer { result ≡ answer op.now self.old.bytes.items }
        ensures after { self.new.bytes.items ≡ after op.now self.old.bytes.items }
    {
        act(self.bytes.as_mut_slice(), op)
    }

    /// Copies as many bytes as `into` has, from an offset on.
    pub fn read(&mut self, offset: usize, into: &mut [u8])
        requires { offset + length into.old ≤ length self.old.bytes.items }
        ensures part { into.new ≡ part offset (length into.old) self.old.bytes.items }
        ensures same { self.new ≡ self.old }
    {
        into.copy_from_slice(&self.bytes[offset..offset + into.len()]);
    }

    /// Writes bytes over those from an offset on.
    pub fn write(&mut self, offset: usize, bytes: &[u8])
        requires { offset + length bytes.now ≤ length self.old.bytes.items }
        ensures { self.new.bytes.items ≡ replaced offset bytes.now self.old.bytes.items }
    {
        overwrite(self.bytes.as_mut_slice(), offset, bytes);
    }
}
