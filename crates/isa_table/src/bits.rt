//! What the operations compute on 32 bits and on 64. Each row is said once for both; `$signed` is the signed type of that width.
ghost use Rattle.std.specs.Prelude.{◌≡◌};
ghost use Rattle.isa_table.specs.declared.instr.AluOp.TheVariants.{Two};
ghost use Rattle.isa_table.specs.declared.instr.Binary.TheVariants.{SDiv, SMod};
ghost use Rattle.isa_table.specs.Table.{alu_row, atomic_row, cond_row};

use crate::instr::{AluOp, AtomicOp, Binary, Cond};

/// Rounded toward zero; 0 where s is 0. The least number by -1 is the least number.
macro_rules! signed_quotient {
    ($d:ident, $s:ident) => {
        if $s == 0 { 0 } else { $d.cast_signed().wrapping_div($s.cast_signed()).cast_unsigned() }
    };
}

/// With the sign of d; d where s is 0.
macro_rules! signed_remainder {
    ($d:ident, $s:ident) => {
        if $s == 0 { $d } else { $d.cast_signed().wrapping_rem($s.cast_signed()).cast_unsigned() }
    };
}

/// The operation (RFC 9669, section 4.1). A shift takes its count modulo the number of bits.
macro_rules! operation {
    ($op:ident, $d:ident, $s:ident, $bits:literal, $signed:ty, $signed_quotient:ident, $signed_remainder:ident) => {
        match $op {
            AluOp::Two(Binary::Add) => $d.wrapping_add($s),
            AluOp::Two(Binary::Sub) => $d.wrapping_sub($s),
            AluOp::Two(Binary::Mul) => $d.wrapping_mul($s),
            AluOp::Two(Binary::Div) => if $s == 0 { 0 } else { $d / $s },
            AluOp::Two(Binary::SDiv) => $signed_quotient($d, $s),
            AluOp::Two(Binary::Or) => $d | $s,
            AluOp::Two(Binary::And) => $d & $s,
            AluOp::Two(Binary::Lsh) => $d << ($s % $bits),
            AluOp::Two(Binary::Rsh) => $d >> ($s % $bits),
            AluOp::Neg => $d.wrapping_neg(),
            AluOp::Two(Binary::Mod) => if $s == 0 { $d } else { $d % $s },
            AluOp::Two(Binary::SMod) => $signed_remainder($d, $s),
            AluOp::Two(Binary::Xor) => $d ^ $s,
            AluOp::Two(Binary::Mov) => $s,
            AluOp::MovSx8 => ((($s & 0xff) as u8).cast_signed() as $signed).cast_unsigned(),
            AluOp::MovSx16 => ((($s & 0xffff) as u16).cast_signed() as $signed).cast_unsigned(),
            AluOp::Two(Binary::Arsh) => ($d.cast_signed() >> ($s % $bits)).cast_unsigned(),
        }
    };
}

/// Whether the condition holds (RFC 9669, section 4.3).
macro_rules! condition {
    ($cond:ident, $d:ident, $s:ident) => {
        match $cond {
            Cond::Eq => $d == $s,
            Cond::Gt => $d > $s,
            Cond::Ge => $d >= $s,
            Cond::Set => $d & $s != 0,
            Cond::Ne => $d != $s,
            Cond::SGt => $d.cast_signed() > $s.cast_signed(),
            Cond::SGe => $d.cast_signed() >= $s.cast_signed(),
            Cond::Lt => $d < $s,
            Cond::Le => $d <= $s,
            Cond::SLt => $d.cast_signed() < $s.cast_signed(),
            Cond::SLe => $d.cast_signed() <= $s.cast_signed(),
        }
    };
}

/// What the operation writes to memory in place of `old` (RFC 9669, section 5.3); `None` where a compare-exchange writes nothing.
macro_rules! atomic_operation {
    ($op:ident, $old:ident, $src:ident, $r0:ident) => {
        match $op {
            AtomicOp::Add | AtomicOp::FetchAdd => Some($old.wrapping_add($src)),
            AtomicOp::Or | AtomicOp::FetchOr => Some($old | $src),
            AtomicOp::And | AtomicOp::FetchAnd => Some($old & $src),
            AtomicOp::Xor | AtomicOp::FetchXor => Some($old ^ $src),
            AtomicOp::Exchange => Some($src),
            AtomicOp::CompareExchange => if $old == $r0 { Some($src) } else { None },
        }
    };
}

fn signed_quotient_32(d: u32, s: u32) -> u32
    ensures { result ≡ alu_row 32 (Two SDiv) d s }
{
    signed_quotient!(d, s)
}

fn signed_quotient_64(d: u64, s: u64) -> u64
    ensures { result ≡ alu_row 64 (Two SDiv) d s }
{
    signed_quotient!(d, s)
}

fn signed_remainder_32(d: u32, s: u32) -> u32
    ensures { result ≡ alu_row 32 (Two SMod) d s }
{
    signed_remainder!(d, s)
}

fn signed_remainder_64(d: u64, s: u64) -> u64
    ensures { result ≡ alu_row 64 (Two SMod) d s }
{
    signed_remainder!(d, s)
}

/// The operation on 32 bits.
#[inline(always)]
pub fn alu_of_32(op: AluOp, d: u32, s: u32) -> u32
    ensures { result ≡ alu_row 32 op d s }
{
    operation!(op, d, s, 32, i32, signed_quotient_32, signed_remainder_32)
}

/// The operation on 64 bits (RFC 9669, section 4.1, class ALU64). A shift takes its count modulo 64.
#[inline(always)]
pub fn alu64(op: AluOp, d: u64, s: u64) -> u64
    ensures { result ≡ alu_row 64 op d s }
{
    operation!(op, d, s, 64, i64, signed_quotient_64, signed_remainder_64)
}

/// Whether the condition holds of 32 bits.
#[inline(always)]
pub fn holds32(cond: Cond, d: u32, s: u32) -> bool
    ensures { result ≡ cond_row 32 cond d s }
{
    condition!(cond, d, s)
}

/// Whether the condition holds of 64 bits.
#[inline(always)]
pub fn holds64(cond: Cond, d: u64, s: u64) -> bool
    ensures { result ≡ cond_row 64 cond d s }
{
    condition!(cond, d, s)
}

/// What the operation writes to memory of 32 bits.
#[inline(always)]
pub fn atomic_of_32(op: AtomicOp, old: u32, src: u32, r0: u32) -> Option<u32>
    ensures { result ≡ atomic_row 32 op old src r0 }
{
    atomic_operation!(op, old, src, r0)
}

/// What the operation writes to memory of 64 bits.
#[inline(always)]
pub fn atomic_of_64(op: AtomicOp, old: u64, src: u64, r0: u64) -> Option<u64>
    ensures { result ≡ atomic_row 64 op old src r0 }
{
    atomic_operation!(op, old, src, r0)
}
