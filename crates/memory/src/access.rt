//! What one access asks of memory, and what memory answers.
ghost use Rattle.std.specs.Prelude.{◌≡◌, ◌↔◌, IsTrue};

use isa_table::{AtomicOp, Size, Width};

/// What an access does with the bytes at its place. Numbers stand in memory with the lowest byte first.
#[derive(Clone, Copy, Drop, Debug, PartialEq, Eq)]
pub enum Action {
    /// A load of so many bytes (RFC 9669, section 5.1).
    Load {
        size: Size,
    },
    /// A store of the value's low bytes (RFC 9669, section 5.1).
    Store {
        size: Size,
        value: u64,
    },
    /// An atomic operation with the values of the source register and of R0 (RFC 9669, section 5.3). Its width is its
    /// size: 4 or 8 bytes.
    Atomic {
        width: Width,
        op: AtomicOp,
        src: u64,
        r0: u64,
    },
}

/// One access to the bytes of an object, `offset` bytes from its first.
#[derive(Clone, Copy, Drop, Debug, PartialEq, Eq)]
pub struct Op {
    pub offset: u32,
    pub action: Action,
}

/// What memory answered to an access.
#[derive(Clone, Copy, Drop, Debug, PartialEq, Eq)]
pub enum Reach {
    /// It was done: the value loaded, an atomic operation's old value, 0 for a store.
    Done(u64),
    /// The object is not here now.
    Away,
    /// Another has its turn on the object.
    Busy,
    /// The access does not end within the object's bytes.
    Outside,
    /// The object's stamps have run out.
    Worn,
}

impl Action {
    ghost use Rattle.memory.specs.Access.{size_of, writes};

    /// How many bytes it reaches.
    #[inline(always)]
    pub fn size(&self) -> Size
        ensures { result ≡ size_of self.now }
    {
        match *self {
            Action::Load { size } => size,
            Action::Store { size, .. } => size,
            Action::Atomic { width, .. } => width.size(),
        }
    }

    /// Whether it wrote, where memory answered this: not a load, nor a compare-exchange whose comparison failed.
    #[inline(always)]
    pub fn writes(&self, answer: u64) -> bool
        ensures { result ≡ writes self.now answer }
    {
        match *self {
            Action::Load { .. } => false,
            Action::Store { .. } => true,
            Action::Atomic {
                width: Width::W32,
                op: AtomicOp::CompareExchange,
                r0,
                ..
            } => answer == r0 & 0xffff_ffff,
            Action::Atomic {
                width: Width::W64,
                op: AtomicOp::CompareExchange,
                r0,
                ..
            } => answer == r0,
            Action::Atomic { .. } => true,
        }
    }
}

impl Op {
    ghost use Rattle.memory.specs.Access.{IsInside, is_inside};

    /// Whether it ends within so many bytes.
    #[inline(always)]
    pub fn is_inside(&self, count: usize) -> bool
        ensures value { result ≡ is_inside self.now count }
        ensures inside { IsTrue result ↔ IsInside self.now count }
    {
        self.offset as usize + self.action.size().bytes() <= count
    }
}
