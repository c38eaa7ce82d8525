//! Operands as they are written.

#[derive(Clone, Copy, Drop, Debug, PartialEq, Eq)]
pub enum Sign {
    Plus,
    Minus,
}

/// An operand as it is written. A number is its value, or nothing where that is above 2^64 - 1.
#[derive(Clone, Copy, Drop, Debug)]
pub enum Written<'a> {
    /// `r1`, `again`
    Word(&'a [u8]),
    /// `7`
    Bare(Option<u64>),
    /// `+7`, `-7`
    Signed(Sign, Option<u64>),
    /// `[r1]`
    Memory(&'a [u8]),
    /// `[r1+8]`, `[r1-8]`
    MemoryAt(&'a [u8], Sign, Option<u64>),
}
