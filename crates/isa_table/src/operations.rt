//! What the operations compute. Each function is total: no operand traps.
ghost use Rattle.std.specs.Prelude.{◌≡◌, ◌<◌, ◌^◌};
ghost use Rattle.isa_table.specs.Words.{unsigned};
ghost use Rattle.isa_table.specs.Table.{
  alu_row,
  atomic_row,
  cond_row,
  mov_sx32_row,
  swap_row,
  width_bits,
};

use crate::bits::{alu_of_32, atomic_of_32, atomic_of_64, holds32, holds64};
use crate::instr::{AluOp, AtomicOp, Cond, Order, SwapWidth, Width};

/// The operation on the low 32 bits (RFC 9669, section 4.1, class ALU); the upper half of the answer is zero.
#[inline(always)]
pub fn alu32(op: AluOp, d: u64, s: u64) -> u64
    ensures { result ≡ alu_row 32 op (unsigned 32 d) (unsigned 32 s) }
{
    alu_of_32(op, (d & 0xffff_ffff) as u32, (s & 0xffff_ffff) as u32) as u64
}

/// The low 32 bits, sign-extended to 64 (RFC 9669, section 4.1).
#[inline(always)]
pub fn mov_sx32(s: u64) -> u64
    ensures { result ≡ mov_sx32_row s }
{
    (((s & 0xffff_ffff) as u32).cast_signed() as i64).cast_unsigned()
}

/// The low bytes of d in the order named (RFC 9669, section 4.2), on a host that keeps the lowest first.
pub fn swap(order: Order, width: SwapWidth, d: u64) -> u64
    ensures { result ≡ swap_row order width d }
{
    match (order, width) {
        (Order::Little, SwapWidth::W16) => d & 0xffff,
        (Order::Little, SwapWidth::W32) => d & 0xffff_ffff,
        (Order::Little, SwapWidth::W64) => d,
        (_, SwapWidth::W16) => ((d & 0xffff) as u16).swap_bytes() as u64,
        (_, SwapWidth::W32) => ((d & 0xffff_ffff) as u32).swap_bytes() as u64,
        (_, SwapWidth::W64) => d.swap_bytes(),
    }
}

/// Whether the condition holds of the low bits (RFC 9669, section 4.3).
#[inline(always)]
pub fn holds(cond: Cond, width: Width, d: u64, s: u64) -> bool
    ensures { result
        ≡ cond_row (width_bits width) cond (unsigned (width_bits width) d) (
        unsigned (width_bits width) s
        ) }
{
    match width {
        Width::W64 => holds64(cond, d, s),
        Width::W32 => holds32(cond, (d & 0xffff_ffff) as u32, (s & 0xffff_ffff) as u32),
    }
}

/// What the operation writes to memory in place of `old`, from the low bits of the source register and of R0 (RFC 9669,
/// section 5.3). `None` is a compare-exchange that finds another number than R0's, and writes nothing.
#[inline(always)]
pub fn atomic(op: AtomicOp, width: Width, old: u64, src: u64, r0: u64) -> Option<u64>
    requires { old < 2 ^ width_bits width }
    ensures { result
        ≡ atomic_row (width_bits width) op old (unsigned (width_bits width) src) (
        unsigned (width_bits width) r0
        ) }
{
    match width {
        Width::W64 => atomic_of_64(op, old, src, r0),
        Width::W32 => {
            let new = atomic_of_32(
                op,
                old as u32,
                (src & 0xffff_ffff) as u32,
                (r0 & 0xffff_ffff) as u32,
            );
            match new {
                Some(new) => Some(new as u64),
                None => None,
            }
        }
    }
}
