//! The first words of instructions.
ghost use Rattle.std.specs.Prelude.{◌≡◌, ◌≤◌, length};
ghost use Rattle.asm_table.specs.Mnemonics.{name, sorts, slots_of};

use isa_table::{AtomicOp, Binary, Cond, Order, SignedSize, Size, SwapWidth, Width};

/// What an instruction does, without its operands: a mnemonic of assembly.
#[derive(Clone, Copy, Drop, Debug, PartialEq, Eq)]
pub enum Mnemonic {
    Alu(Width, Binary),
    Neg(Width),
    MovSx8(Width),
    MovSx16(Width),
    MovSx32,
    End(Order, SwapWidth),
    Jump(Width, Cond),
    Ja,
    JaLong,
    CallHelper,
    /// The one mnemonic of two words.
    CallLocal,
    Exit,
    Load(Size),
    LoadSigned(SignedSize),
    StoreImm(Size),
    StoreRegister(Size),
    Atomic(Width, AtomicOp),
    LoadImm64,
}

/// What may stand at the place of an operand.
#[derive(Clone, Copy, Drop, Debug, PartialEq, Eq)]
pub enum Sort {
    /// A register.
    Register,
    /// A register, or a number of 32 bits.
    RegisterOrImm,
    /// A number of 32 bits.
    Imm,
    /// A place in memory: a register and an offset of 16 bits, in brackets.
    Memory,
    /// A number of 64 bits.
    Imm64,
    /// A label, or an offset of 16 bits with its sign.
    Target,
    /// A label, or an offset of 32 bits with its sign.
    LongTarget,
}

/// Of an operation with a destination and a second operand.
fn alu_name(width: Width, op: Binary) -> &'static [u8]
    ensures name { result.now ≡ name (Mnemonic.Alu width op) }
    ensures short { length result.now ≤ 10 }
{
    match (width, op) {
        (Width::W64, Binary::Add) => b"add",
        (Width::W32, Binary::Add) => b"add32",
        (Width::W64, Binary::Sub) => b"sub",
        (Width::W32, Binary::Sub) => b"sub32",
        (Width::W64, Binary::Mul) => b"mul",
        (Width::W32, Binary::Mul) => b"mul32",
        (Width::W64, Binary::Div) => b"div",
        (Width::W32, Binary::Div) => b"div32",
        (Width::W64, Binary::SDiv) => b"sdiv",
        (Width::W32, Binary::SDiv) => b"sdiv32",
        (Width::W64, Binary::Or) => b"or",
        (Width::W32, Binary::Or) => b"or32",
        (Width::W64, Binary::And) => b"and",
        (Width::W32, Binary::And) => b"and32",
        (Width::W64, Binary::Lsh) => b"lsh",
        (Width::W32, Binary::Lsh) => b"lsh32",
        (Width::W64, Binary::Rsh) => b"rsh",
        (Width::W32, Binary::Rsh) => b"rsh32",
        (Width::W64, Binary::Mod) => b"mod",
        (Width::W32, Binary::Mod) => b"mod32",
        (Width::W64, Binary::SMod) => b"smod",
        (Width::W32, Binary::SMod) => b"smod32",
        (Width::W64, Binary::Xor) => b"xor",
        (Width::W32, Binary::Xor) => b"xor32",
        (Width::W64, Binary::Mov) => b"mov",
        (Width::W32, Binary::Mov) => b"mov32",
        (Width::W64, Binary::Arsh) => b"arsh",
        (Width::W32, Binary::Arsh) => b"arsh32",
    }
}

/// Of a byte swap.
fn swap_name(order: Order, width: SwapWidth) -> &'static [u8]
    ensures name { result.now ≡ name (Mnemonic.End order width) }
    ensures short { length result.now ≤ 10 }
{
    match (order, width) {
        (Order::Little, SwapWidth::W16) => b"le16",
        (Order::Little, SwapWidth::W32) => b"le32",
        (Order::Little, SwapWidth::W64) => b"le64",
        (Order::Big, SwapWidth::W16) => b"be16",
        (Order::Big, SwapWidth::W32) => b"be32",
        (Order::Big, SwapWidth::W64) => b"be64",
        (Order::Swapped, SwapWidth::W16) => b"bswap16",
        (Order::Swapped, SwapWidth::W32) => b"bswap32",
        (Order::Swapped, SwapWidth::W64) => b"bswap64",
    }
}

/// Of a conditional jump.
fn jump_name(width: Width, cond: Cond) -> &'static [u8]
    ensures name { result.now ≡ name (Mnemonic.Jump width cond) }
    ensures short { length result.now ≤ 10 }
{
    match (width, cond) {
        (Width::W64, Cond::Eq) => b"jeq",
        (Width::W32, Cond::Eq) => b"jeq32",
        (Width::W64, Cond::Gt) => b"jgt",
        (Width::W32, Cond::Gt) => b"jgt32",
        (Width::W64, Cond::Ge) => b"jge",
        (Width::W32, Cond::Ge) => b"jge32",
        (Width::W64, Cond::Set) => b"jset",
        (Width::W32, Cond::Set) => b"jset32",
        (Width::W64, Cond::Ne) => b"jne",
        (Width::W32, Cond::Ne) => b"jne32",
        (Width::W64, Cond::SGt) => b"jsgt",
        (Width::W32, Cond::SGt) => b"jsgt32",
        (Width::W64, Cond::SGe) => b"jsge",
        (Width::W32, Cond::SGe) => b"jsge32",
        (Width::W64, Cond::Lt) => b"jlt",
        (Width::W32, Cond::Lt) => b"jlt32",
        (Width::W64, Cond::Le) => b"jle",
        (Width::W32, Cond::Le) => b"jle32",
        (Width::W64, Cond::SLt) => b"jslt",
        (Width::W32, Cond::SLt) => b"jslt32",
        (Width::W64, Cond::SLe) => b"jsle",
        (Width::W32, Cond::SLe) => b"jsle32",
    }
}

/// Of a load.
fn load_name(size: Size) -> &'static [u8]
    ensures name { result.now ≡ name (Mnemonic.Load size) }
    ensures short { length result.now ≤ 10 }
{
    match size {
        Size::Byte => b"ldxb",
        Size::Half => b"ldxh",
        Size::Word => b"ldxw",
        Size::Double => b"ldxdw",
    }
}

/// Of a load that extends the sign.
fn load_signed_name(size: SignedSize) -> &'static [u8]
    ensures name { result.now ≡ name (Mnemonic.LoadSigned size) }
    ensures short { length result.now ≤ 10 }
{
    match size {
        SignedSize::Byte => b"ldxsb",
        SignedSize::Half => b"ldxsh",
        SignedSize::Word => b"ldxsw",
    }
}

/// Of a store of a number.
fn store_imm_name(size: Size) -> &'static [u8]
    ensures name { result.now ≡ name (Mnemonic.StoreImm size) }
    ensures short { length result.now ≤ 10 }
{
    match size {
        Size::Byte => b"stb",
        Size::Half => b"sth",
        Size::Word => b"stw",
        Size::Double => b"stdw",
    }
}

/// Of a store of a register.
fn store_register_name(size: Size) -> &'static [u8]
    ensures name { result.now ≡ name (Mnemonic.StoreRegister size) }
    ensures short { length result.now ≤ 10 }
{
    match size {
        Size::Byte => b"stxb",
        Size::Half => b"stxh",
        Size::Word => b"stxw",
        Size::Double => b"stxdw",
    }
}

/// Of an atomic operation.
fn atomic_name(width: Width, op: AtomicOp) -> &'static [u8]
    ensures name { result.now ≡ name (Mnemonic.Atomic width op) }
    ensures short { length result.now ≤ 10 }
{
    match (width, op) {
        (Width::W64, AtomicOp::Add) => b"aadd",
        (Width::W32, AtomicOp::Add) => b"aadd32",
        (Width::W64, AtomicOp::Or) => b"aor",
        (Width::W32, AtomicOp::Or) => b"aor32",
        (Width::W64, AtomicOp::And) => b"aand",
        (Width::W32, AtomicOp::And) => b"aand32",
        (Width::W64, AtomicOp::Xor) => b"axor",
        (Width::W32, AtomicOp::Xor) => b"axor32",
        (Width::W64, AtomicOp::FetchAdd) => b"afadd",
        (Width::W32, AtomicOp::FetchAdd) => b"afadd32",
        (Width::W64, AtomicOp::FetchOr) => b"afor",
        (Width::W32, AtomicOp::FetchOr) => b"afor32",
        (Width::W64, AtomicOp::FetchAnd) => b"afand",
        (Width::W32, AtomicOp::FetchAnd) => b"afand32",
        (Width::W64, AtomicOp::FetchXor) => b"afxor",
        (Width::W32, AtomicOp::FetchXor) => b"afxor32",
        (Width::W64, AtomicOp::Exchange) => b"axchg",
        (Width::W32, AtomicOp::Exchange) => b"axchg32",
        (Width::W64, AtomicOp::CompareExchange) => b"acmpxchg",
        (Width::W32, AtomicOp::CompareExchange) => b"acmpxchg32",
    }
}

impl Mnemonic {
    /// As it is written. `call local` may be written with more blanks between its words.
    pub fn name(self) -> &'static [u8]
        ensures name { result.now ≡ name self }
        ensures short { length result.now ≤ 10 }
    {
        match self {
            Mnemonic::Alu(width, op) => alu_name(width, op),
            Mnemonic::Neg(Width::W64) => b"neg",
            Mnemonic::Neg(Width::W32) => b"neg32",
            Mnemonic::MovSx8(Width::W64) => b"movs8",
            Mnemonic::MovSx8(Width::W32) => b"movs8_32",
            Mnemonic::MovSx16(Width::W64) => b"movs16",
            Mnemonic::MovSx16(Width::W32) => b"movs16_32",
            Mnemonic::MovSx32 => b"movs32",
            Mnemonic::End(order, width) => swap_name(order, width),
            Mnemonic::Jump(width, cond) => jump_name(width, cond),
            Mnemonic::Ja => b"ja",
            Mnemonic::JaLong => b"ja32",
            Mnemonic::CallHelper => b"call",
            Mnemonic::CallLocal => b"call local",
            Mnemonic::Exit => b"exit",
            Mnemonic::Load(size) => load_name(size),
            Mnemonic::LoadSigned(size) => load_signed_name(size),
            Mnemonic::StoreImm(size) => store_imm_name(size),
            Mnemonic::StoreRegister(size) => store_register_name(size),
            Mnemonic::Atomic(width, op) => atomic_name(width, op),
            Mnemonic::LoadImm64 => b"lddw",
        }
    }

    /// What stands after it, joined by commas.
    pub fn sorts(self) -> &'static [Sort]
        ensures { result.now ≡ sorts self }
    {
        match self {
            Mnemonic::Alu(_, _) => &[Sort::Register, Sort::RegisterOrImm],
            Mnemonic::Neg(_) | Mnemonic::End(_, _) => &[Sort::Register],
            Mnemonic::MovSx8(_) | Mnemonic::MovSx16(_) | Mnemonic::MovSx32 => {
                &[Sort::Register, Sort::Register]
            }
            Mnemonic::Jump(_, _) => &[Sort::Register, Sort::RegisterOrImm, Sort::Target],
            Mnemonic::Ja => &[Sort::Target],
            Mnemonic::JaLong | Mnemonic::CallLocal => &[Sort::LongTarget],
            Mnemonic::CallHelper => &[Sort::Imm],
            Mnemonic::Exit => &[],
            Mnemonic::Load(_) | Mnemonic::LoadSigned(_) => &[Sort::Register, Sort::Memory],
            Mnemonic::StoreImm(_) => &[Sort::Memory, Sort::Imm],
            Mnemonic::StoreRegister(_) | Mnemonic::Atomic(_, _) => {
                &[Sort::Memory, Sort::Register]
            }
            Mnemonic::LoadImm64 => &[Sort::Register, Sort::Imm64],
        }
    }

    /// How many slots its instruction takes (RFC 9669, section 3).
    pub fn slots(self) -> usize
        ensures { result ≡ slots_of self }
    {
        match self {
            Mnemonic::LoadImm64 => 2,
            _ => 1,
        }
    }
}
