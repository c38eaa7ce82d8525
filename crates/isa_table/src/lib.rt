//! The instruction table of RFC 9669: which instructions there are, and what each operation computes.
#![tactic(auto)]

mod bits;
mod instr;
mod operations;
mod row_list;

pub use bits::alu64;
pub use instr::{
    AluOp, AtomicOp, Binary, Cond, Instr, Operand, Order, Reg, SignedSize, Size, SwapWidth, Width,
    registers, slots_of,
};
pub use operations::{alu32, atomic, holds, mov_sx32, swap};
pub use row_list::rows;
