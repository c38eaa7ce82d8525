//! What a written operand stands for.
ghost use Rattle.std.specs.Prelude.{◌≡◌, ◌≤◌, ◌<◌, ◌^◌, ℤ, pos, ◌≤ℤ◌, ◌<ℤ◌, neg_ℤ, IfSome, Some, None};
ghost use Rattle.asm_grammar.specs.Writing.{written_seen};
ghost use Rattle.asm_grammar.specs.Writing.Written.{Word, Bare, Signed, Memory, MemoryAt};
ghost use Rattle.asm_grammar.specs.Sorts.{counted, fitting, imm64_of, operand_taken};
ghost use Rattle.asm_grammar.specs.Views.{taken_by};

use crate::written::{Sign, Written};
use asm_table::{AsmOperand, Sort, register_named};

/// How a written operand is taken where a sort is wanted.
#[derive(Clone, Copy, Drop)]
pub enum Taken<'a> {
    /// It has not the sort's form.
    No,
    /// It has, with a number out of range.
    Out,
    Is(AsmOperand),
    /// The offset of 16 bits to the label's slot.
    To(&'a [u8]),
    /// The offset of 32 bits to the label's slot.
    LongTo(&'a [u8]),
}

/// The number after a sign, below the limit, or with a minus at most the limit.
fn fit(limit: u64, sign: Sign, n: Option<u64>) -> Option<i64>
    requires some { 0 < limit }
    requires small { limit ≤ 2 ^ 31 }
    ensures value { result ≡ fitting limit sign n }
    ensures low { IfSome result (λ z. neg_ℤ (pos limit) ≤ℤ z) }
    ensures high { IfSome result (λ z. z <ℤ pos limit) }
{
    let k = n?;
    match sign {
        Sign::Plus => { if k < limit { Some(k as i64) } else { None } }
        Sign::Minus => { if k <= limit { Some(-(k as i64)) } else { None } }
    }
}

fn fit32(sign: Sign, n: Option<u64>) -> Option<i32>
    ensures { result ≡ fitting (2 ^ 31) sign n }
{
    Some(fit(1 << 31, sign, n)? as i32)
}

fn fit16(sign: Sign, n: Option<u64>) -> Option<i16>
    ensures { result ≡ fitting (2 ^ 15) sign n }
{
    Some(fit(1 << 15, sign, n)? as i16)
}

fn fit64(sign: Sign, n: Option<u64>) -> Option<u64>
    ensures { result ≡ imm64_of sign n }
{
    let k = n?;
    match sign {
        Sign::Plus => Some(k),
        Sign::Minus => {
            if k <= 1 << 63 {
                Some(k.wrapping_neg())
            } else {
                None
            }
        }
    }
}

/// Taken with this number, or out of range where there is none.
fn counted<'a>(number: Option<AsmOperand>) -> Taken<'a>
    ensures { taken_by result ≡ counted (λ operand. operand) number }
{
    match number {
        Some(operand) => Taken::Is(operand),
        None => Taken::Out,
    }
}

fn take_register<'a>(name: &[u8]) -> Taken<'a>
    ensures { taken_by result ≡ operand_taken Sort.Register (Word name.now) }
{
    match register_named(name) {
        Some(r) => Taken::Is(AsmOperand::Register(r)),
        None => Taken::No,
    }
}

fn take_imm<'a>(sign: Sign, n: Option<u64>) -> Taken<'a>
    ensures { taken_by result ≡ operand_taken Sort.Imm (Signed sign n) }
{
    counted(fit32(sign, n).map(|z| AsmOperand::Imm(z)))
}

fn take_memory<'a>(name: &[u8], sign: Sign, n: Option<u64>) -> Taken<'a>
    ensures { taken_by result ≡ operand_taken Sort.Memory (MemoryAt name.now sign n) }
{
    match register_named(name) {
        Some(r) => counted(fit16(sign, n).map(|z| AsmOperand::Memory(r, z))),
        None => Taken::No,
    }
}

fn take_base<'a>(name: &[u8]) -> Taken<'a>
    ensures { taken_by result ≡ operand_taken Sort.Memory (Memory name.now) }
{
    match register_named(name) {
        Some(r) => Taken::Is(AsmOperand::Memory(r, 0)),
        None => Taken::No,
    }
}

fn take_imm64<'a>(sign: Sign, n: Option<u64>) -> Taken<'a>
    ensures { taken_by result ≡ operand_taken Sort.Imm64 (Signed sign n) }
{
    counted(fit64(sign, n).map(|k| AsmOperand::Imm64(k)))
}

fn take_offset<'a>(sign: Sign, n: Option<u64>) -> Taken<'a>
    ensures { taken_by result ≡ operand_taken Sort.Target (Signed sign n) }
{
    counted(fit16(sign, n).map(|z| AsmOperand::Offset(z)))
}

fn take_long_offset<'a>(sign: Sign, n: Option<u64>) -> Taken<'a>
    ensures { taken_by result ≡ operand_taken Sort.LongTarget (Signed sign n) }
{
    counted(fit32(sign, n).map(|z| AsmOperand::LongOffset(z)))
}

/// What is taken where this sort is wanted.
pub fn take<'a>(sort: Sort, w: Written<'a>) -> Taken<'a>
    ensures { taken_by result ≡ operand_taken sort (written_seen w.entry) }
{
    match (sort, w) {
        (Sort::Register, Written::Word(name)) => take_register(name),
        (Sort::RegisterOrImm, Written::Word(name)) => take_register(name),
        (Sort::RegisterOrImm, Written::Bare(n)) => take_imm(Sign::Plus, n),
        (Sort::RegisterOrImm, Written::Signed(sign, n)) => take_imm(sign, n),
        (Sort::Imm, Written::Bare(n)) => take_imm(Sign::Plus, n),
        (Sort::Imm, Written::Signed(sign, n)) => take_imm(sign, n),
        (Sort::Memory, Written::Memory(name)) => take_base(name),
        (Sort::Memory, Written::MemoryAt(name, sign, n)) => take_memory(name, sign, n),
        (Sort::Imm64, Written::Bare(n)) => take_imm64(Sign::Plus, n),
        (Sort::Imm64, Written::Signed(sign, n)) => take_imm64(sign, n),
        (Sort::Target, Written::Word(name)) => Taken::To(name),
        (Sort::Target, Written::Signed(sign, n)) => take_offset(sign, n),
        (Sort::LongTarget, Written::Word(name)) => Taken::LongTo(name),
        (Sort::LongTarget, Written::Signed(sign, n)) => take_long_offset(sign, n),
        _ => Taken::No,
    }
}
