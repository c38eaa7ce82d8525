//! Each row of the table on its operands.
use crate::tables::{
    ATOMICS32, ATOMICS64, BINARY32, BINARY64, COMPARED, CONDITIONS, COUNTS, EXCHANGES32,
    EXCHANGES64, MOVED, PAIRS, SINGLE, SWAPS, TRIPLES, UNARY,
};
use isa_table::{
    AluOp, AtomicOp, Binary, Cond, Instr, Operand, Order, Reg, Size, SwapWidth, Width, alu32,
    alu64, atomic, holds, mov_sx32, rows, swap,
};
use std::process::Abort;

/// Whether the operand can stand in a row of this kind: an imm is 32 bits, sign-extended.
fn can_stand(kind: Operand, s: u64) -> bool {
    match kind {
        Operand::Imm(_) => i32::try_from(s.cast_signed()).is_ok(),
        Operand::Register(_) => true,
    }
}

fn pairs_of(op: Binary) -> &'static [(u64, u64)] {
    match op {
        Binary::Lsh | Binary::Rsh | Binary::Arsh => &COUNTS,
        _ => &PAIRS,
    }
}

/// The operation of the tables that writes what this one writes.
fn written_by(op: AtomicOp) -> AtomicOp {
    match op {
        AtomicOp::FetchAdd => AtomicOp::Add,
        AtomicOp::FetchOr => AtomicOp::Or,
        AtomicOp::FetchAnd => AtomicOp::And,
        AtomicOp::FetchXor => AtomicOp::Xor,
        op => op,
    }
}

fn alu(op: AluOp, width: Width, d: u64, s: u64) -> u64 {
    match width {
        Width::W64 => alu64(op, d, s),
        Width::W32 => alu32(op, d, s),
    }
}

fn try_pairs(
    rt: &impl Abort,
    width: Width,
    op: Binary,
    kind: Operand,
    values: &[u64; 12],
) -> usize {
    let mut tried = 0usize;
    for (&(d, s), &want) in pairs_of(op).iter().zip(values.iter()) {
        if can_stand(kind, s) {
            tried = tried.saturating_add(1);
            assert_eq!(rt;
                alu(AluOp::Two(op), width, d, s),
                want,
                "{op:?} of {d} and {s}"
            );
        }
    }
    tried
}

fn try_conditions(
    rt: &impl Abort,
    width: Width,
    cond: Cond,
    kind: Operand,
    values: &[bool],
) -> usize {
    let mut tried = 0usize;
    for (&(d, s), &want) in COMPARED.iter().zip(values) {
        if can_stand(kind, s) {
            tried = tried.saturating_add(1);
            assert_eq!(rt; holds(cond, width, d, s), want, "{cond:?} of {d} and {s}");
        }
    }
    tried
}

fn try_values(rt: &impl Abort, width: Width, op: AluOp, values: &[u64]) -> usize {
    for (&x, &want) in SINGLE.iter().zip(values) {
        let (d, s) = if op == AluOp::Neg { (x, 1) } else { (1, x) };
        assert_eq!(rt; alu(op, width, d, s), want, "{op:?} of {x}");
    }
    values.len()
}

/// What the operation writes, in the low bits of the old value where it is of 32 bits.
fn written(op: AtomicOp, width: Width, old: u64, src: u64, r0: u64) -> Option<u64> {
    let low = old & 0xffff_ffff;
    match width {
        Width::W64 => atomic(op, Width::W64, old, src, r0),
        Width::W32 if low < 1 << 32 => atomic(op, Width::W32, low, src, r0),
        Width::W32 => None,
    }
}

fn try_written(rt: &impl Abort, width: Width, op: AtomicOp, values: &[u64; 12]) -> usize {
    for (&(old, src, r0), &want) in TRIPLES.iter().zip(values.iter()) {
        let found = written(op, width, old, src, r0);
        assert_eq!(rt; found, Some(want), "{op:?} of {old} and {src}, {r0}");
    }
    values.len()
}

fn try_exchanges(rt: &impl Abort, width: Width) -> usize {
    let values: &[Option<u64>] = match width {
        Width::W64 => &EXCHANGES64,
        Width::W32 => &EXCHANGES32,
    };
    for (&(old, src, r0), &want) in TRIPLES.iter().zip(values) {
        let found = written(AtomicOp::CompareExchange, width, old, src, r0);
        assert_eq!(rt; found, want, "of {old} and {src}, {r0}");
    }
    values.len()
}

fn try_swaps(rt: &impl Abort, order: Order, width: SwapWidth, values: &[u64]) -> usize {
    for (&d, &want) in SINGLE.iter().zip(values) {
        assert_eq!(rt; swap(order, width, d), want, "{order:?} {width:?} of {d}");
    }
    values.len()
}

fn try_mov_sx32(rt: &impl Abort) -> usize {
    for (&s, &want) in SINGLE.iter().zip(&MOVED) {
        assert_eq!(rt; mov_sx32(s), want, "of {s}");
    }
    MOVED.len()
}

fn try_binary_row(rt: &impl Abort, width: Width, op: Binary, kind: Operand) -> usize {
    let table = match width {
        Width::W64 => BINARY64,
        Width::W32 => BINARY32,
    };
    for &(its_op, values) in table {
        if its_op == op {
            return try_pairs(rt, width, op, kind, &values);
        }
    }
    0
}

fn try_unary_row(rt: &impl Abort, width: Width, op: AluOp) -> usize {
    for &(its_width, its_op, values) in UNARY {
        if its_width == width && its_op == op {
            return try_values(rt, width, op, &values);
        }
    }
    0
}

fn try_condition_row(rt: &impl Abort, width: Width, cond: Cond, kind: Operand) -> usize {
    for &(its_width, its_cond, values) in CONDITIONS {
        if its_width == width && its_cond == cond {
            return try_conditions(rt, width, cond, kind, &values);
        }
    }
    0
}

fn try_atomic_row(rt: &impl Abort, width: Width, op: AtomicOp) -> usize {
    if op == AtomicOp::CompareExchange {
        return try_exchanges(rt, width);
    }
    let table = match width {
        Width::W64 => ATOMICS64,
        Width::W32 => ATOMICS32,
    };
    for &(its_op, values) in table {
        if its_op == written_by(op) {
            return try_written(rt, width, op, &values);
        }
    }
    0
}

fn try_swap_row(rt: &impl Abort, order: Order, width: SwapWidth) -> usize {
    for &(its_order, its_width, values) in SWAPS {
        if its_order == order && its_width == width {
            return try_swaps(rt, order, width, &values);
        }
    }
    0
}

/// How many operands the row was tried on; none where no function of `isa_table` computes it.
fn try_row(rt: &impl Abort, row: Instr) -> Option<usize> {
    let tried = match row {
        Instr::Alu { width, op, src, .. } => try_binary_row(rt, width, op, src),
        Instr::Neg { width, .. } => try_unary_row(rt, width, AluOp::Neg),
        Instr::MovSx8 { width, .. } => try_unary_row(rt, width, AluOp::MovSx8),
        Instr::MovSx16 { width, .. } => try_unary_row(rt, width, AluOp::MovSx16),
        Instr::MovSx32 { .. } => try_mov_sx32(rt),
        Instr::End { order, width, .. } => try_swap_row(rt, order, width),
        Instr::Jump {
            width,
            cond,
            src,
            ..
        } => try_condition_row(rt, width, cond, src),
        Instr::Atomic { width, op, .. } => try_atomic_row(rt, width, op),
        Instr::Ja { .. }
        | Instr::JaLong { .. }
        | Instr::CallHelper { .. }
        | Instr::CallLocal { .. }
        | Instr::Exit
        | Instr::Load { .. }
        | Instr::LoadSigned { .. }
        | Instr::Store { .. }
        | Instr::LoadImm64 { .. } => return None,
    };
    Some(tried)
}

#[test]
fn each_row_computes_its_values(rt: HostRuntime) {
    assert_eq!(rt; rows().len(), 157);
    let mut computing = 0u32;
    for row in rows() {
        if let Some(tried) = try_row(&rt, *row) {
            assert!(rt; tried >= 3, "{row:?}");
            computing = computing.saturating_add(1);
        }
    }
    assert_eq!(rt; computing, 136);
}

fn atomic_instr(op: AtomicOp) -> Instr {
    Instr::Atomic {
        width: Width::W32,
        op,
        dst: Reg::R2,
        src: Reg::R3,
        offset: 0,
    }
}

#[test]
fn registers_that_rows_write(rt: HostRuntime) {
    let (dst, src, size, offset) = (Reg::R2, Reg::R3, Size::Byte, 0);
    let load = Instr::Load {
        size,
        dst,
        src,
        offset,
    };
    let store = Instr::Store {
        size,
        dst,
        src: Operand::Register(src),
        offset,
    };
    let cases = [
        (load, Some(dst)),
        (Instr::LoadImm64 { dst, value: 0 }, Some(dst)),
        (store, None),
        (atomic_instr(AtomicOp::Add), None),
        (atomic_instr(AtomicOp::FetchAdd), Some(src)),
        (atomic_instr(AtomicOp::Exchange), Some(src)),
        (atomic_instr(AtomicOp::CompareExchange), Some(Reg::R0)),
        (Instr::CallHelper { id: 1 }, Some(Reg::R0)),
        (Instr::CallLocal { offset: 1 }, None),
        (Instr::Exit, None),
    ];
    for (instr, want) in &cases {
        assert_eq!(rt; instr.destination(), *want, "{instr:?}");
    }
}
