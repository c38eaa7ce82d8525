//! Operands of each operation, and what it gives for them. Written by `vectors.py`.
use isa_table::{AluOp, AtomicOp, Binary, Cond, Order, SwapWidth, Width};

/// Destination and second operand of an operation.
#[rattlefmt::skip]
pub const PAIRS: [(u64, u64); 12] = [
    (0, 0), (0xffff_ffff_ffff_ffff, 0), (0x8000_0000_0000_0000, 0xffff_ffff_ffff_ffff), (0x7fff_ffff_ffff_ffff, 1),
    (0xffff_ffff_ffff_ffff, 1), (0xffff_ffff_ffff_fff3, 3), (13, 0xffff_ffff_ffff_fffd), (0, 0xffff_ffff_ffff_ffff),
    (0x1_0000_0005, 0x1_0000_0000), (0x5_8000_0000, 0xffff_ffff_ffff_ffff), (0x7fff_ffff, 1),
    (0x1122_3344_5566_7788, 0x8877_6655_4433_2211),
];

/// The same of a shift.
#[rattlefmt::skip]
pub const COUNTS: [(u64, u64); 12] = [
    (0x1122_3344_5566_7788, 0), (0x8877_6655_4433_2211, 1), (0xffff_ffff_ffff_fff8, 1), (1, 31), (0x8000_0000_8000_0000, 31),
    (0xffff_ffff_ffff_fffd, 32), (1, 33), (0x8000_0000_0000_0000, 63), (7, 64), (0x8000_0000_0000_0005, 65),
    (0x8877_6655_4433_2211, 0xffff_ffff_ffff_ffff), (0xffff_ffff_ffff_ffff, 0x1_0000_0004),
];

/// What an operation on 64 bits computes.
#[rattlefmt::skip]
pub const BINARY64: &[(Binary, [u64; 12])] = &[
    (Binary::Add, [
        0, 0xffff_ffff_ffff_ffff, 0x7fff_ffff_ffff_ffff, 0x8000_0000_0000_0000, 0, 0xffff_ffff_ffff_fff6, 10, 0xffff_ffff_ffff_ffff,
        0x2_0000_0005, 0x5_7fff_ffff, 0x8000_0000, 0x9999_9999_9999_9999,
    ]),
    (Binary::Sub, [
        0, 0xffff_ffff_ffff_ffff, 0x8000_0000_0000_0001, 0x7fff_ffff_ffff_fffe, 0xffff_ffff_ffff_fffe, 0xffff_ffff_ffff_fff0, 16, 1, 5,
        0x5_8000_0001, 0x7fff_fffe, 0x88aa_ccef_1133_5577,
    ]),
    (Binary::Mul, [
        0, 0, 0x8000_0000_0000_0000, 0x7fff_ffff_ffff_ffff, 0xffff_ffff_ffff_ffff, 0xffff_ffff_ffff_ffd9, 0xffff_ffff_ffff_ffd9, 0,
        0x5_0000_0000, 0xffff_fffa_8000_0000, 0x7fff_ffff, 0xa3e_9633_37c6_0008,
    ]),
    (Binary::Div, [0, 0, 0, 0x7fff_ffff_ffff_ffff, 0xffff_ffff_ffff_ffff, 0x5555_5555_5555_5551, 0, 0, 1, 0, 0x7fff_ffff, 0]),
    (Binary::SDiv, [
        0, 0, 0x8000_0000_0000_0000, 0x7fff_ffff_ffff_ffff, 0xffff_ffff_ffff_ffff, 0xffff_ffff_ffff_fffc, 0xffff_ffff_ffff_fffc, 0, 1,
        0xffff_fffa_8000_0000, 0x7fff_ffff, 0,
    ]),
    (Binary::Or, [
        0, 0xffff_ffff_ffff_ffff, 0xffff_ffff_ffff_ffff, 0x7fff_ffff_ffff_ffff, 0xffff_ffff_ffff_ffff, 0xffff_ffff_ffff_fff3,
        0xffff_ffff_ffff_fffd, 0xffff_ffff_ffff_ffff, 0x1_0000_0005, 0xffff_ffff_ffff_ffff, 0x7fff_ffff, 0x9977_7755_5577_7799,
    ]),
    (Binary::And, [0, 0, 0x8000_0000_0000_0000, 1, 1, 3, 13, 0, 0x1_0000_0000, 0x5_8000_0000, 1, 0x22_2244_4422_2200]),
    (Binary::Lsh, [
        0x1122_3344_5566_7788, 0x10ee_ccaa_8866_4422, 0xffff_ffff_ffff_fff0, 0x8000_0000, 0x4000_0000_0000_0000, 0xffff_fffd_0000_0000,
        0x2_0000_0000, 0, 7, 10, 0x8000_0000_0000_0000, 0xffff_ffff_ffff_fff0,
    ]),
    (Binary::Rsh, [
        0x1122_3344_5566_7788, 0x443b_b32a_a219_9108, 0x7fff_ffff_ffff_fffc, 0, 0x1_0000_0001, 0xffff_ffff, 0, 1, 7, 0x4000_0000_0000_0002,
        1, 0xfff_ffff_ffff_ffff,
    ]),
    (Binary::Mod, [0, 0xffff_ffff_ffff_ffff, 0x8000_0000_0000_0000, 0, 0, 0, 13, 0, 5, 0x5_8000_0000, 0, 0x1122_3344_5566_7788]),
    (Binary::SMod, [0, 0xffff_ffff_ffff_ffff, 0, 0, 0, 0xffff_ffff_ffff_ffff, 1, 0, 5, 0, 0, 0x1122_3344_5566_7788]),
    (Binary::Xor, [
        0, 0xffff_ffff_ffff_ffff, 0x7fff_ffff_ffff_ffff, 0x7fff_ffff_ffff_fffe, 0xffff_ffff_ffff_fffe, 0xffff_ffff_ffff_fff0,
        0xffff_ffff_ffff_fff0, 0xffff_ffff_ffff_ffff, 5, 0xffff_fffa_7fff_ffff, 0x7fff_fffe, 0x9955_5511_1155_5599,
    ]),
    (Binary::Mov, [
        0, 0, 0xffff_ffff_ffff_ffff, 1, 1, 3, 0xffff_ffff_ffff_fffd, 0xffff_ffff_ffff_ffff, 0x1_0000_0000, 0xffff_ffff_ffff_ffff, 1,
        0x8877_6655_4433_2211,
    ]),
    (Binary::Arsh, [
        0x1122_3344_5566_7788, 0xc43b_b32a_a219_9108, 0xffff_ffff_ffff_fffc, 0, 0xffff_ffff_0000_0001, 0xffff_ffff_ffff_ffff, 0,
        0xffff_ffff_ffff_ffff, 7, 0xc000_0000_0000_0002, 0xffff_ffff_ffff_ffff, 0xffff_ffff_ffff_ffff,
    ]),
];

/// What an operation on 32 bits computes.
#[rattlefmt::skip]
pub const BINARY32: &[(Binary, [u64; 12])] = &[
    (Binary::Add, [0, 0xffff_ffff, 0xffff_ffff, 0, 0, 0xffff_fff6, 10, 0xffff_ffff, 5, 0x7fff_ffff, 0x8000_0000, 0x9999_9999]),
    (Binary::Sub, [0, 0xffff_ffff, 1, 0xffff_fffe, 0xffff_fffe, 0xffff_fff0, 16, 1, 5, 0x8000_0001, 0x7fff_fffe, 0x1133_5577]),
    (Binary::Mul, [0, 0, 0, 0xffff_ffff, 0xffff_ffff, 0xffff_ffd9, 0xffff_ffd9, 0, 0, 0x8000_0000, 0x7fff_ffff, 0x37c6_0008]),
    (Binary::Div, [0, 0, 0, 0xffff_ffff, 0xffff_ffff, 0x5555_5551, 0, 0, 0, 0, 0x7fff_ffff, 1]),
    (Binary::SDiv, [0, 0, 0, 0xffff_ffff, 0xffff_ffff, 0xffff_fffc, 0xffff_fffc, 0, 0, 0x8000_0000, 0x7fff_ffff, 1]),
    (Binary::Or, [
        0, 0xffff_ffff, 0xffff_ffff, 0xffff_ffff, 0xffff_ffff, 0xffff_fff3, 0xffff_fffd, 0xffff_ffff, 5, 0xffff_ffff, 0x7fff_ffff,
        0x5577_7799,
    ]),
    (Binary::And, [0, 0, 0, 1, 1, 3, 13, 0, 0, 0x8000_0000, 1, 0x4422_2200]),
    (Binary::Lsh, [0x5566_7788, 0x8866_4422, 0xffff_fff0, 0x8000_0000, 0, 0xffff_fffd, 2, 0, 7, 10, 0x8000_0000, 0xffff_fff0]),
    (Binary::Rsh, [0x5566_7788, 0x2219_9108, 0x7fff_fffc, 0, 1, 0xffff_fffd, 0, 0, 7, 2, 0, 0xfff_ffff]),
    (Binary::Mod, [0, 0xffff_ffff, 0, 0, 0, 0, 13, 0, 5, 0x8000_0000, 0, 0x1133_5577]),
    (Binary::SMod, [0, 0xffff_ffff, 0, 0, 0, 0xffff_ffff, 1, 0, 5, 0, 0, 0x1133_5577]),
    (Binary::Xor, [
        0, 0xffff_ffff, 0xffff_ffff, 0xffff_fffe, 0xffff_fffe, 0xffff_fff0, 0xffff_fff0, 0xffff_ffff, 5, 0x7fff_ffff, 0x7fff_fffe,
        0x1155_5599,
    ]),
    (Binary::Mov, [0, 0, 0xffff_ffff, 1, 1, 3, 0xffff_fffd, 0xffff_ffff, 0, 0xffff_ffff, 1, 0x4433_2211]),
    (Binary::Arsh, [0x5566_7788, 0x2219_9108, 0xffff_fffc, 0, 0xffff_ffff, 0xffff_fffd, 0, 0, 7, 2, 0, 0xffff_ffff]),
];

/// Destination and second operand of a condition.
#[rattlefmt::skip]
pub const COMPARED: [(u64, u64); 13] = [
    (0, 0), (0, 1), (1, 0), (0xffff_ffff_ffff_ffff, 0), (0, 0xffff_ffff_ffff_ffff), (0xffff_ffff_ffff_ffff, 0xffff_ffff_ffff_ffff),
    (0x8000_0000_0000_0000, 0x7fff_ffff_ffff_ffff), (0x7fff_ffff_ffff_ffff, 0x8000_0000_0000_0000), (0x1_0000_0000, 0),
    (0x8000_0000, 0x7fff_ffff), (0x7fff_ffff, 0xffff_ffff_8000_0000), (6, 9), (6, 3),
];

/// Whether a condition holds.
#[rattlefmt::skip]
pub const CONDITIONS: &[(Width, Cond, [bool; 13])] = &[
    (Width::W64, Cond::Eq, [true, false, false, false, false, true, false, false, false, false, false, false, false]),
    (Width::W64, Cond::Gt, [false, false, true, true, false, false, true, false, true, true, false, false, true]),
    (Width::W64, Cond::Ge, [true, false, true, true, false, true, true, false, true, true, false, false, true]),
    (Width::W64, Cond::Set, [false, false, false, false, false, true, false, false, false, false, false, false, true]),
    (Width::W64, Cond::Ne, [false, true, true, true, true, false, true, true, true, true, true, true, true]),
    (Width::W64, Cond::SGt, [false, false, true, false, true, false, false, true, true, true, true, false, true]),
    (Width::W64, Cond::SGe, [true, false, true, false, true, true, false, true, true, true, true, false, true]),
    (Width::W64, Cond::Lt, [false, true, false, false, true, false, false, true, false, false, true, true, false]),
    (Width::W64, Cond::Le, [true, true, false, false, true, true, false, true, false, false, true, true, false]),
    (Width::W64, Cond::SLt, [false, true, false, true, false, false, true, false, false, false, false, true, false]),
    (Width::W64, Cond::SLe, [true, true, false, true, false, true, true, false, false, false, false, true, false]),
    (Width::W32, Cond::Eq, [true, false, false, false, false, true, false, false, true, false, false, false, false]),
    (Width::W32, Cond::Gt, [false, false, true, true, false, false, false, true, false, true, false, false, true]),
    (Width::W32, Cond::Ge, [true, false, true, true, false, true, false, true, true, true, false, false, true]),
    (Width::W32, Cond::Set, [false, false, false, false, false, true, false, false, false, false, false, false, true]),
    (Width::W32, Cond::Ne, [false, true, true, true, true, false, true, true, false, true, true, true, true]),
    (Width::W32, Cond::SGt, [false, false, true, false, true, false, true, false, false, false, true, false, true]),
    (Width::W32, Cond::SGe, [true, false, true, false, true, true, true, false, true, false, true, false, true]),
    (Width::W32, Cond::Lt, [false, true, false, false, true, false, true, false, false, false, true, true, false]),
    (Width::W32, Cond::Le, [true, true, false, false, true, true, true, false, true, false, true, true, false]),
    (Width::W32, Cond::SLt, [false, true, false, true, false, false, false, true, false, true, false, true, false]),
    (Width::W32, Cond::SLe, [true, true, false, true, false, true, false, true, true, true, false, true, false]),
];

/// The old value, the source register and R0.
#[rattlefmt::skip]
pub const TRIPLES: [(u64, u64, u64); 12] = [
    (0, 0, 0), (0, 0xffff_ffff_ffff_ffff, 1), (0xffff_ffff_ffff_ffff, 1, 0xffff_ffff_ffff_ffff), (0x7fff_ffff, 1, 0x7fff_ffff),
    (0x8000_0000, 0x8000_0000, 0x8000_0000_0000_0000), (5, 7, 0x1_0000_0005), (5, 7, 5), (0x1_0000_0005, 7, 5),
    (0x8000_0000_0000_0000, 0x8000_0000_0000_0000, 0x8000_0000_0000_0000), (0xf0f0, 0xff00, 0),
    (0xffff_ffff_ffff_fff3, 13, 0xffff_ffff_ffff_fff3), (0x1122_3344_5566_7788, 0x8877_6655_4433_2211, 0x1122_3344_5566_7788),
];

/// What an atomic operation on 64 bits writes.
#[rattlefmt::skip]
pub const ATOMICS64: &[(AtomicOp, [u64; 12])] = &[
    (AtomicOp::Add, [
        0, 0xffff_ffff_ffff_ffff, 0, 0x8000_0000, 0x1_0000_0000, 12, 12, 0x1_0000_000c, 0, 0x1_eff0, 0, 0x9999_9999_9999_9999,
    ]),
    (AtomicOp::Or, [
        0, 0xffff_ffff_ffff_ffff, 0xffff_ffff_ffff_ffff, 0x7fff_ffff, 0x8000_0000, 7, 7, 0x1_0000_0007, 0x8000_0000_0000_0000, 0xfff0,
        0xffff_ffff_ffff_ffff, 0x9977_7755_5577_7799,
    ]),
    (AtomicOp::And, [0, 0, 1, 1, 0x8000_0000, 5, 5, 5, 0x8000_0000_0000_0000, 0xf000, 1, 0x22_2244_4422_2200]),
    (AtomicOp::Xor, [
        0, 0xffff_ffff_ffff_ffff, 0xffff_ffff_ffff_fffe, 0x7fff_fffe, 0, 2, 2, 0x1_0000_0002, 0, 0xff0, 0xffff_ffff_ffff_fffe,
        0x9955_5511_1155_5599,
    ]),
    (AtomicOp::Exchange, [0, 0xffff_ffff_ffff_ffff, 1, 1, 0x8000_0000, 7, 7, 7, 0x8000_0000_0000_0000, 0xff00, 13, 0x8877_6655_4433_2211]),
];

/// What a compare-exchange of 64 bits writes, if it does.
#[rattlefmt::skip]
pub const EXCHANGES64: [Option<u64>; 12] = [
    Some(0), None, Some(1), Some(1), None, None, Some(7), None, Some(0x8000_0000_0000_0000), None, Some(13), Some(0x8877_6655_4433_2211),
];

/// What an atomic operation on 32 bits writes.
#[rattlefmt::skip]
pub const ATOMICS32: &[(AtomicOp, [u64; 12])] = &[
    (AtomicOp::Add, [0, 0xffff_ffff, 0, 0x8000_0000, 0, 12, 12, 12, 0, 0x1_eff0, 0, 0x9999_9999]),
    (AtomicOp::Or, [0, 0xffff_ffff, 0xffff_ffff, 0x7fff_ffff, 0x8000_0000, 7, 7, 7, 0, 0xfff0, 0xffff_ffff, 0x5577_7799]),
    (AtomicOp::And, [0, 0, 1, 1, 0x8000_0000, 5, 5, 5, 0, 0xf000, 1, 0x4422_2200]),
    (AtomicOp::Xor, [0, 0xffff_ffff, 0xffff_fffe, 0x7fff_fffe, 0, 2, 2, 2, 0, 0xff0, 0xffff_fffe, 0x1155_5599]),
    (AtomicOp::Exchange, [0, 0xffff_ffff, 1, 1, 0x8000_0000, 7, 7, 7, 0, 0xff00, 13, 0x4433_2211]),
];

/// What a compare-exchange of 32 bits writes, if it does.
#[rattlefmt::skip]
pub const EXCHANGES32: [Option<u64>; 12] = [
    Some(0), None, Some(1), Some(1), None, Some(7), Some(7), Some(7), Some(0), None, Some(13), Some(0x4433_2211),
];

/// The operand of an operation on one.
#[rattlefmt::skip]
pub const SINGLE: [u64; 13] = [
    0, 1, 0xffff_ffff_ffff_ffff, 127, 128, 0xff80, 0x7fff, 0x8000, 0x7fff_ffff, 0x8000_0000, 0x7fff_ffff_ffff_ffff, 0x8000_0000_0000_0000,
    0x1122_3344_5566_7788,
];

/// What it computes.
#[rattlefmt::skip]
pub const UNARY: &[(Width, AluOp, [u64; 13])] = &[
    (Width::W64, AluOp::Neg, [
        0, 0xffff_ffff_ffff_ffff, 1, 0xffff_ffff_ffff_ff81, 0xffff_ffff_ffff_ff80, 0xffff_ffff_ffff_0080, 0xffff_ffff_ffff_8001,
        0xffff_ffff_ffff_8000, 0xffff_ffff_8000_0001, 0xffff_ffff_8000_0000, 0x8000_0000_0000_0001, 0x8000_0000_0000_0000,
        0xeedd_ccbb_aa99_8878,
    ]),
    (Width::W64, AluOp::MovSx8, [
        0, 1, 0xffff_ffff_ffff_ffff, 127, 0xffff_ffff_ffff_ff80, 0xffff_ffff_ffff_ff80, 0xffff_ffff_ffff_ffff, 0, 0xffff_ffff_ffff_ffff, 0,
        0xffff_ffff_ffff_ffff, 0, 0xffff_ffff_ffff_ff88,
    ]),
    (Width::W64, AluOp::MovSx16, [
        0, 1, 0xffff_ffff_ffff_ffff, 127, 128, 0xffff_ffff_ffff_ff80, 0x7fff, 0xffff_ffff_ffff_8000, 0xffff_ffff_ffff_ffff, 0,
        0xffff_ffff_ffff_ffff, 0, 0x7788,
    ]),
    (Width::W32, AluOp::Neg, [
        0, 0xffff_ffff, 1, 0xffff_ff81, 0xffff_ff80, 0xffff_0080, 0xffff_8001, 0xffff_8000, 0x8000_0001, 0x8000_0000, 1, 0, 0xaa99_8878,
    ]),
    (Width::W32, AluOp::MovSx8, [
        0, 1, 0xffff_ffff, 127, 0xffff_ff80, 0xffff_ff80, 0xffff_ffff, 0, 0xffff_ffff, 0, 0xffff_ffff, 0, 0xffff_ff88,
    ]),
    (Width::W32, AluOp::MovSx16, [0, 1, 0xffff_ffff, 127, 128, 0xffff_ff80, 0x7fff, 0xffff_8000, 0xffff_ffff, 0, 0xffff_ffff, 0, 0x7788]),
];

/// What a move of 32 bits with sign extension computes.
#[rattlefmt::skip]
pub const MOVED: [u64; 13] = [
    0, 1, 0xffff_ffff_ffff_ffff, 127, 128, 0xff80, 0x7fff, 0x8000, 0x7fff_ffff, 0xffff_ffff_8000_0000, 0xffff_ffff_ffff_ffff, 0,
    0x5566_7788,
];

/// What a byte swap computes.
#[rattlefmt::skip]
pub const SWAPS: &[(Order, SwapWidth, [u64; 13])] = &[
    (Order::Little, SwapWidth::W16, [0, 1, 0xffff, 127, 128, 0xff80, 0x7fff, 0x8000, 0xffff, 0, 0xffff, 0, 0x7788]),
    (Order::Big, SwapWidth::W16, [0, 0x100, 0xffff, 0x7f00, 0x8000, 0x80ff, 0xff7f, 128, 0xffff, 0, 0xffff, 0, 0x8877]),
    (Order::Swapped, SwapWidth::W16, [0, 0x100, 0xffff, 0x7f00, 0x8000, 0x80ff, 0xff7f, 128, 0xffff, 0, 0xffff, 0, 0x8877]),
    (Order::Little, SwapWidth::W32, [
        0, 1, 0xffff_ffff, 127, 128, 0xff80, 0x7fff, 0x8000, 0x7fff_ffff, 0x8000_0000, 0xffff_ffff, 0, 0x5566_7788,
    ]),
    (Order::Big, SwapWidth::W32, [
        0, 0x100_0000, 0xffff_ffff, 0x7f00_0000, 0x8000_0000, 0x80ff_0000, 0xff7f_0000, 0x80_0000, 0xffff_ff7f, 128, 0xffff_ffff, 0,
        0x8877_6655,
    ]),
    (Order::Swapped, SwapWidth::W32, [
        0, 0x100_0000, 0xffff_ffff, 0x7f00_0000, 0x8000_0000, 0x80ff_0000, 0xff7f_0000, 0x80_0000, 0xffff_ff7f, 128, 0xffff_ffff, 0,
        0x8877_6655,
    ]),
    (Order::Little, SwapWidth::W64, [
        0, 1, 0xffff_ffff_ffff_ffff, 127, 128, 0xff80, 0x7fff, 0x8000, 0x7fff_ffff, 0x8000_0000, 0x7fff_ffff_ffff_ffff,
        0x8000_0000_0000_0000, 0x1122_3344_5566_7788,
    ]),
    (Order::Big, SwapWidth::W64, [
        0, 0x100_0000_0000_0000, 0xffff_ffff_ffff_ffff, 0x7f00_0000_0000_0000, 0x8000_0000_0000_0000, 0x80ff_0000_0000_0000,
        0xff7f_0000_0000_0000, 0x80_0000_0000_0000, 0xffff_ff7f_0000_0000, 0x80_0000_0000, 0xffff_ffff_ffff_ff7f, 128,
        0x8877_6655_4433_2211,
    ]),
    (Order::Swapped, SwapWidth::W64, [
        0, 0x100_0000_0000_0000, 0xffff_ffff_ffff_ffff, 0x7f00_0000_0000_0000, 0x8000_0000_0000_0000, 0x80ff_0000_0000_0000,
        0xff7f_0000_0000_0000, 0x80_0000_0000_0000, 0xffff_ff7f_0000_0000, 0x80_0000_0000, 0xffff_ffff_ffff_ff7f, 128,
        0x8877_6655_4433_2211,
    ]),
];
