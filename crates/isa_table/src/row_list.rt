//! One instruction for each row of the table, in rising order of the opcode, which stands beside it.
ghost use Rattle.std.specs.Prelude.{◌≡◌, ◌≢◌, All, AllPairs, Contains};
ghost use Rattle.isa_table.specs.declared.instr.Instr.{Instr};
ghost use Rattle.isa_table.specs.Rows.{all_rows, row_of};

use crate::instr::{
    AtomicOp, Binary, Cond, Instr, Operand, Order, Reg, SignedSize, Size, SwapWidth, Width,
};

const NUMBER: Operand = Operand::Imm(0);

const REGISTER: Operand = Operand::Register(Reg::R1);

macro_rules! alu {
    ($width:ident, $op:ident, $src:expr) => {
        Instr::Alu { width: Width::$width, op: Binary::$op, dst: Reg::R0, src: $src }
    };
}

macro_rules! mov_sx {
    ($row:ident, $width:ident) => {
        Instr::$row { width: Width::$width, dst: Reg::R0, src: Reg::R1 }
    };
}

macro_rules! end {
    ($order:ident, $width:ident) => {
        Instr::End { order: Order::$order, width: SwapWidth::$width, dst: Reg::R0 }
    };
}

macro_rules! jump {
    ($width:ident, $cond:ident, $src:expr) => {
        Instr::Jump { width: Width::$width, cond: Cond::$cond, dst: Reg::R0, src: $src, offset: 0 }
    };
}

macro_rules! load {
    ($row:ident, $sizes:ident, $size:ident) => {
        Instr::$row { size: $sizes::$size, dst: Reg::R0, src: Reg::R1, offset: 0 }
    };
}

macro_rules! store {
    ($size:ident, $src:expr) => {
        Instr::Store { size: Size::$size, dst: Reg::R0, src: $src, offset: 0 }
    };
}

macro_rules! atomic {
    ($width:ident, $op:ident) => {
        Instr::Atomic { width: Width::$width, op: AtomicOp::$op, dst: Reg::R0, src: Reg::R1, offset: 0 }
    };
}

const ROWS: [Instr; 157] = [
    alu!(W32, Add, NUMBER), // 04
    Instr::Ja { offset: 0 }, // 05
    Instr::JaLong { offset: 0 }, // 06
    alu!(W64, Add, NUMBER), // 07
    alu!(W32, Add, REGISTER), // 0c
    alu!(W64, Add, REGISTER), // 0f
    alu!(W32, Sub, NUMBER), // 14
    jump!(W64, Eq, NUMBER), // 15
    jump!(W32, Eq, NUMBER), // 16
    alu!(W64, Sub, NUMBER), // 17
    Instr::LoadImm64 {
        dst: Reg::R0,
        value: 0,
    }, // 18
    alu!(W32, Sub, REGISTER), // 1c
    jump!(W64, Eq, REGISTER), // 1d
    jump!(W32, Eq, REGISTER), // 1e
    alu!(W64, Sub, REGISTER), // 1f
    alu!(W32, Mul, NUMBER), // 24
    jump!(W64, Gt, NUMBER), // 25
    jump!(W32, Gt, NUMBER), // 26
    alu!(W64, Mul, NUMBER), // 27
    alu!(W32, Mul, REGISTER), // 2c
    jump!(W64, Gt, REGISTER), // 2d
    jump!(W32, Gt, REGISTER), // 2e
    alu!(W64, Mul, REGISTER), // 2f
    alu!(W32, Div, NUMBER), // 34
    alu!(W32, SDiv, NUMBER), // 34
    jump!(W64, Ge, NUMBER), // 35
    jump!(W32, Ge, NUMBER), // 36
    alu!(W64, Div, NUMBER), // 37
    alu!(W64, SDiv, NUMBER), // 37
    alu!(W32, Div, REGISTER), // 3c
    alu!(W32, SDiv, REGISTER), // 3c
    jump!(W64, Ge, REGISTER), // 3d
    jump!(W32, Ge, REGISTER), // 3e
    alu!(W64, Div, REGISTER), // 3f
    alu!(W64, SDiv, REGISTER), // 3f
    alu!(W32, Or, NUMBER), // 44
    jump!(W64, Set, NUMBER), // 45
    jump!(W32, Set, NUMBER), // 46
    alu!(W64, Or, NUMBER), // 47
    alu!(W32, Or, REGISTER), // 4c
    jump!(W64, Set, REGISTER), // 4d
    jump!(W32, Set, REGISTER), // 4e
    alu!(W64, Or, REGISTER), // 4f
    alu!(W32, And, NUMBER), // 54
    jump!(W64, Ne, NUMBER), // 55
    jump!(W32, Ne, NUMBER), // 56
    alu!(W64, And, NUMBER), // 57
    alu!(W32, And, REGISTER), // 5c
    jump!(W64, Ne, REGISTER), // 5d
    jump!(W32, Ne, REGISTER), // 5e
    alu!(W64, And, REGISTER), // 5f
    load!(Load, Size, Word), // 61
    store!(Word, NUMBER), // 62
    store!(Word, REGISTER), // 63
    alu!(W32, Lsh, NUMBER), // 64
    jump!(W64, SGt, NUMBER), // 65
    jump!(W32, SGt, NUMBER), // 66
    alu!(W64, Lsh, NUMBER), // 67
    load!(Load, Size, Half), // 69
    store!(Half, NUMBER), // 6a
    store!(Half, REGISTER), // 6b
    alu!(W32, Lsh, REGISTER), // 6c
    jump!(W64, SGt, REGISTER), // 6d
    jump!(W32, SGt, REGISTER), // 6e
    alu!(W64, Lsh, REGISTER), // 6f
    load!(Load, Size, Byte), // 71
    store!(Byte, NUMBER), // 72
    store!(Byte, REGISTER), // 73
    alu!(W32, Rsh, NUMBER), // 74
    jump!(W64, SGe, NUMBER), // 75
    jump!(W32, SGe, NUMBER), // 76
    alu!(W64, Rsh, NUMBER), // 77
    load!(Load, Size, Double), // 79
    store!(Double, NUMBER), // 7a
    store!(Double, REGISTER), // 7b
    alu!(W32, Rsh, REGISTER), // 7c
    jump!(W64, SGe, REGISTER), // 7d
    jump!(W32, SGe, REGISTER), // 7e
    alu!(W64, Rsh, REGISTER), // 7f
    load!(LoadSigned, SignedSize, Word), // 81
    Instr::Neg {
        width: Width::W32,
        dst: Reg::R0,
    }, // 84
    Instr::CallHelper { id: 0 }, // 85
    Instr::CallLocal { offset: 0 }, // 85
    Instr::Neg {
        width: Width::W64,
        dst: Reg::R0,
    }, // 87
    load!(LoadSigned, SignedSize, Half), // 89
    load!(LoadSigned, SignedSize, Byte), // 91
    alu!(W32, Mod, NUMBER), // 94
    alu!(W32, SMod, NUMBER), // 94
    Instr::Exit, // 95
    alu!(W64, Mod, NUMBER), // 97
    alu!(W64, SMod, NUMBER), // 97
    alu!(W32, Mod, REGISTER), // 9c
    alu!(W32, SMod, REGISTER), // 9c
    alu!(W64, Mod, REGISTER), // 9f
    alu!(W64, SMod, REGISTER), // 9f
    alu!(W32, Xor, NUMBER), // a4
    jump!(W64, Lt, NUMBER), // a5
    jump!(W32, Lt, NUMBER), // a6
    alu!(W64, Xor, NUMBER), // a7
    alu!(W32, Xor, REGISTER), // ac
    jump!(W64, Lt, REGISTER), // ad
    jump!(W32, Lt, REGISTER), // ae
    alu!(W64, Xor, REGISTER), // af
    alu!(W32, Mov, NUMBER), // b4
    jump!(W64, Le, NUMBER), // b5
    jump!(W32, Le, NUMBER), // b6
    alu!(W64, Mov, NUMBER), // b7
    alu!(W32, Mov, REGISTER), // bc
    mov_sx!(MovSx8, W32), // bc
    mov_sx!(MovSx16, W32), // bc
    jump!(W64, Le, REGISTER), // bd
    jump!(W32, Le, REGISTER), // be
    alu!(W64, Mov, REGISTER), // bf
    mov_sx!(MovSx8, W64), // bf
    mov_sx!(MovSx16, W64), // bf
    Instr::MovSx32 {
        dst: Reg::R0,
        src: Reg::R1,
    }, // bf
    atomic!(W32, Add), // c3
    atomic!(W32, FetchAdd), // c3
    atomic!(W32, Or), // c3
    atomic!(W32, FetchOr), // c3
    atomic!(W32, And), // c3
    atomic!(W32, FetchAnd), // c3
    atomic!(W32, Xor), // c3
    atomic!(W32, FetchXor), // c3
    atomic!(W32, Exchange), // c3
    atomic!(W32, CompareExchange), // c3
    alu!(W32, Arsh, NUMBER), // c4
    jump!(W64, SLt, NUMBER), // c5
    jump!(W32, SLt, NUMBER), // c6
    alu!(W64, Arsh, NUMBER), // c7
    alu!(W32, Arsh, REGISTER), // cc
    jump!(W64, SLt, REGISTER), // cd
    jump!(W32, SLt, REGISTER), // ce
    alu!(W64, Arsh, REGISTER), // cf
    end!(Little, W16), // d4
    end!(Little, W32), // d4
    end!(Little, W64), // d4
    jump!(W64, SLe, NUMBER), // d5
    jump!(W32, SLe, NUMBER), // d6
    end!(Swapped, W16), // d7
    end!(Swapped, W32), // d7
    end!(Swapped, W64), // d7
    atomic!(W64, Add), // db
    atomic!(W64, FetchAdd), // db
    atomic!(W64, Or), // db
    atomic!(W64, FetchOr), // db
    atomic!(W64, And), // db
    atomic!(W64, FetchAnd), // db
    atomic!(W64, Xor), // db
    atomic!(W64, FetchXor), // db
    atomic!(W64, Exchange), // db
    atomic!(W64, CompareExchange), // db
    end!(Big, W16), // dc
    end!(Big, W32), // dc
    end!(Big, W64), // dc
    jump!(W64, SLe, REGISTER), // dd
    jump!(W32, SLe, REGISTER), // de
];

/// The rows of the table, each as one instruction: destination r0, source r1, and numbers 0. Rows of one opcode stand
/// side by side.
pub fn rows() -> &'static [Instr]
    ensures now { result.now ≡ all_rows }
    // No row is missing.
    ensures complete { (i : Instr) → Contains result.now (row_of i) }
    // Each element is a row.
    ensures only { All (λ i. row_of i ≡ i) result.now }
    // No row stands twice.
    ensures once { AllPairs (λ i j. i ≢ j) result.now }
{
    &ROWS
}
