//! Mnemonics by their names.
ghost use Rattle.std.specs.Prelude.{◌≡◌, ◌<◌};
ghost use Rattle.asm_table.specs.Names.{named, nth};

use crate::mnemonic::Mnemonic;
use isa_table::{AtomicOp, Binary, Cond, Order, SignedSize, Size, SwapWidth, Width};
use std::cmp::Ordering;

/// All mnemonics of one word, by their names.
pub const BY_NAME: &[Mnemonic] = &[
    Mnemonic::Atomic(Width::W64, AtomicOp::Add),
    Mnemonic::Atomic(Width::W32, AtomicOp::Add),
    Mnemonic::Atomic(Width::W64, AtomicOp::And),
    Mnemonic::Atomic(Width::W32, AtomicOp::And),
    Mnemonic::Atomic(Width::W64, AtomicOp::CompareExchange),
    Mnemonic::Atomic(Width::W32, AtomicOp::CompareExchange),
    Mnemonic::Alu(Width::W64, Binary::Add),
    Mnemonic::Alu(Width::W32, Binary::Add),
    Mnemonic::Atomic(Width::W64, AtomicOp::FetchAdd),
    Mnemonic::Atomic(Width::W32, AtomicOp::FetchAdd),
    Mnemonic::Atomic(Width::W64, AtomicOp::FetchAnd),
    Mnemonic::Atomic(Width::W32, AtomicOp::FetchAnd),
    Mnemonic::Atomic(Width::W64, AtomicOp::FetchOr),
    Mnemonic::Atomic(Width::W32, AtomicOp::FetchOr),
    Mnemonic::Atomic(Width::W64, AtomicOp::FetchXor),
    Mnemonic::Atomic(Width::W32, AtomicOp::FetchXor),
    Mnemonic::Alu(Width::W64, Binary::And),
    Mnemonic::Alu(Width::W32, Binary::And),
    Mnemonic::Atomic(Width::W64, AtomicOp::Or),
    Mnemonic::Atomic(Width::W32, AtomicOp::Or),
    Mnemonic::Alu(Width::W64, Binary::Arsh),
    Mnemonic::Alu(Width::W32, Binary::Arsh),
    Mnemonic::Atomic(Width::W64, AtomicOp::Exchange),
    Mnemonic::Atomic(Width::W32, AtomicOp::Exchange),
    Mnemonic::Atomic(Width::W64, AtomicOp::Xor),
    Mnemonic::Atomic(Width::W32, AtomicOp::Xor),
    Mnemonic::End(Order::Big, SwapWidth::W16),
    Mnemonic::End(Order::Big, SwapWidth::W32),
    Mnemonic::End(Order::Big, SwapWidth::W64),
    Mnemonic::End(Order::Swapped, SwapWidth::W16),
    Mnemonic::End(Order::Swapped, SwapWidth::W32),
    Mnemonic::End(Order::Swapped, SwapWidth::W64),
    Mnemonic::CallHelper,
    Mnemonic::Alu(Width::W64, Binary::Div),
    Mnemonic::Alu(Width::W32, Binary::Div),
    Mnemonic::Exit,
    Mnemonic::Ja,
    Mnemonic::JaLong,
    Mnemonic::Jump(Width::W64, Cond::Eq),
    Mnemonic::Jump(Width::W32, Cond::Eq),
    Mnemonic::Jump(Width::W64, Cond::Ge),
    Mnemonic::Jump(Width::W32, Cond::Ge),
    Mnemonic::Jump(Width::W64, Cond::Gt),
    Mnemonic::Jump(Width::W32, Cond::Gt),
    Mnemonic::Jump(Width::W64, Cond::Le),
    Mnemonic::Jump(Width::W32, Cond::Le),
    Mnemonic::Jump(Width::W64, Cond::Lt),
    Mnemonic::Jump(Width::W32, Cond::Lt),
    Mnemonic::Jump(Width::W64, Cond::Ne),
    Mnemonic::Jump(Width::W32, Cond::Ne),
    Mnemonic::Jump(Width::W64, Cond::Set),
    Mnemonic::Jump(Width::W32, Cond::Set),
    Mnemonic::Jump(Width::W64, Cond::SGe),
    Mnemonic::Jump(Width::W32, Cond::SGe),
    Mnemonic::Jump(Width::W64, Cond::SGt),
    Mnemonic::Jump(Width::W32, Cond::SGt),
    Mnemonic::Jump(Width::W64, Cond::SLe),
    Mnemonic::Jump(Width::W32, Cond::SLe),
    Mnemonic::Jump(Width::W64, Cond::SLt),
    Mnemonic::Jump(Width::W32, Cond::SLt),
    Mnemonic::LoadImm64,
    Mnemonic::Load(Size::Byte),
    Mnemonic::Load(Size::Double),
    Mnemonic::Load(Size::Half),
    Mnemonic::LoadSigned(SignedSize::Byte),
    Mnemonic::LoadSigned(SignedSize::Half),
    Mnemonic::LoadSigned(SignedSize::Word),
    Mnemonic::Load(Size::Word),
    Mnemonic::End(Order::Little, SwapWidth::W16),
    Mnemonic::End(Order::Little, SwapWidth::W32),
    Mnemonic::End(Order::Little, SwapWidth::W64),
    Mnemonic::Alu(Width::W64, Binary::Lsh),
    Mnemonic::Alu(Width::W32, Binary::Lsh),
    Mnemonic::Alu(Width::W64, Binary::Mod),
    Mnemonic::Alu(Width::W32, Binary::Mod),
    Mnemonic::Alu(Width::W64, Binary::Mov),
    Mnemonic::Alu(Width::W32, Binary::Mov),
    Mnemonic::MovSx16(Width::W64),
    Mnemonic::MovSx16(Width::W32),
    Mnemonic::MovSx32,
    Mnemonic::MovSx8(Width::W64),
    Mnemonic::MovSx8(Width::W32),
    Mnemonic::Alu(Width::W64, Binary::Mul),
    Mnemonic::Alu(Width::W32, Binary::Mul),
    Mnemonic::Neg(Width::W64),
    Mnemonic::Neg(Width::W32),
    Mnemonic::Alu(Width::W64, Binary::Or),
    Mnemonic::Alu(Width::W32, Binary::Or),
    Mnemonic::Alu(Width::W64, Binary::Rsh),
    Mnemonic::Alu(Width::W32, Binary::Rsh),
    Mnemonic::Alu(Width::W64, Binary::SDiv),
    Mnemonic::Alu(Width::W32, Binary::SDiv),
    Mnemonic::Alu(Width::W64, Binary::SMod),
    Mnemonic::Alu(Width::W32, Binary::SMod),
    Mnemonic::StoreImm(Size::Byte),
    Mnemonic::StoreImm(Size::Double),
    Mnemonic::StoreImm(Size::Half),
    Mnemonic::StoreImm(Size::Word),
    Mnemonic::StoreRegister(Size::Byte),
    Mnemonic::StoreRegister(Size::Double),
    Mnemonic::StoreRegister(Size::Half),
    Mnemonic::StoreRegister(Size::Word),
    Mnemonic::Alu(Width::W64, Binary::Sub),
    Mnemonic::Alu(Width::W32, Binary::Sub),
    Mnemonic::Alu(Width::W64, Binary::Xor),
    Mnemonic::Alu(Width::W32, Binary::Xor),
];

/// The mnemonic at this place of the table.
#[tactic(auto, unfolding(crate::specs::Names::nth))]
fn nth(at: usize) -> Mnemonic
    requires { at < 106 }
    ensures { result ≡ nth at }
{
    BY_NAME[at]
}

impl Mnemonic {
    /// The mnemonic of one word that has this name; of `call` it is that of helpers.
    pub fn named(word: &[u8]) -> Option<Mnemonic>
        ensures { result ≡ named word.now }
    {
        let mut low = 0;
        let mut high = BY_NAME.len();
        while low < high {
            let middle = low + (high - low) / 2;
            let m = nth(middle);
            match m.name().cmp(word) {
                Ordering::Less => low = middle + 1,
                Ordering::Greater => high = middle,
                Ordering::Equal => return Some(m),
            }
        }
        None
    }
}
