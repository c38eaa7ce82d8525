//! Watched ranges: a machine pauses after it writes a byte of one.
ghost use Rattle.std.specs.Prelude.{◌≡◌};
ghost use Rattle.debugger.specs.DebugState.{watch_at, ends_within, is_same_watch, overlaps};

use machine::Written;

/// How many offsets a number has.
const OFFSETS: u64 = 0x1_0000_0000;

/// A range of bytes: of the object or stack of that number, from the offset on. There need not be such an object.
#[derive(Clone, Copy, Drop, Debug, Default)]
pub struct Watch {
    pub number: u32,
    pub offset: u32,
    pub length: u32,
}

impl Watch {
    /// So many bytes from an address on: the number is its upper half, the offset its lower half.
    pub fn at(address: u64, length: u32) -> Self
        ensures { result ≡ watch_at address length }
    {
        Watch {
            number: (address >> 32) as u32,
            offset: (address & 0xffff_ffff) as u32,
            length,
        }
    }

    /// Whether it ends within the offsets of 32 bits.
    pub fn ends_within(&self) -> bool
        ensures { result ≡ ends_within self.now }
    {
        self.offset as u64 + self.length as u64 <= OFFSETS
    }

    /// Whether both begin at one address and have one length.
    pub fn is_same(&self, other: &Watch) -> bool
        ensures { result ≡ is_same_watch self.now other.now }
    {
        self.number == other.number && (self.offset == other.offset && self.length == other.length)
    }

    /// Whether a write reaches a byte of it.
    pub fn is_reached(&self, written: &Written) -> bool
        ensures { result ≡ overlaps written.now self.now }
    {
        let written_end = written.offset as u64 + written.size.bytes() as u64;
        let end = self.offset as u64 + self.length as u64;
        written.number == self.number
            && (written.offset as u64).max(self.offset as u64) < written_end.min(end)
    }
}
