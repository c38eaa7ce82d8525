//! The instructions. A value of `Instr` is a row of the table with its operands, and nothing else is.
ghost use Rattle.std.specs.Prelude.{◌≡◌, ◌<◌};
ghost use Rattle.isa_table.specs.Destination.{destination, old_value_to};
ghost use Rattle.isa_table.specs.Registers.{all_registers, register_number};
ghost use Rattle.isa_table.specs.Slots.{slots};
ghost use Rattle.isa_table.specs.Table.{size_bytes, size_of_signed, size_of_width};

/// A register, R0 to R10 (RFC 9669, section 3.1).
#[derive(Clone, Copy, Drop, Debug, PartialEq, Eq)]
pub enum Reg {
    R0,
    R1,
    R2,
    R3,
    R4,
    R5,
    R6,
    R7,
    R8,
    R9,
    R10,
}

impl Reg {
    /// The register's number, as a register field holds it.
    pub fn number(self) -> u8
        ensures value { result ≡ register_number self }
        ensures bound { result < 11 }
    {
        self as u8
    }
}

const REGISTERS: [Reg; 11] = [
    Reg::R0,
    Reg::R1,
    Reg::R2,
    Reg::R3,
    Reg::R4,
    Reg::R5,
    Reg::R6,
    Reg::R7,
    Reg::R8,
    Reg::R9,
    Reg::R10,
];

/// The registers, each at the place of its number.
pub fn registers() -> &'static [Reg]
    ensures { result.now ≡ all_registers }
{
    &REGISTERS
}

/// An arithmetic operation with a destination and a second operand, in both widths (RFC 9669, section 4.1). Those that
/// begin with `S` are signed.
#[derive(Clone, Copy, Drop, Debug, PartialEq, Eq)]
pub enum Binary {
    Add,
    Sub,
    Mul,
    Div,
    SDiv,
    Or,
    And,
    Lsh,
    Rsh,
    Mod,
    SMod,
    Xor,
    Mov,
    Arsh,
}

/// Any arithmetic operation that both widths have (RFC 9669, section 4.1). `Neg` reads the destination alone; a move with
/// sign extension reads the second operand alone.
#[derive(Clone, Copy, Drop, Debug, PartialEq, Eq)]
pub enum AluOp {
    Two(Binary),
    Neg,
    MovSx8,
    MovSx16,
}

/// How many bits an operation works on: all 64, or the low 32 (RFC 9669, sections 4.1 and 4.3: the classes ALU64 and ALU,
/// JMP and JMP32).
#[derive(Clone, Copy, Drop, Debug, PartialEq, Eq)]
pub enum Width {
    W32,
    W64,
}

/// The second operand: a number in the instruction, or a register.
#[derive(Clone, Copy, Drop, Debug, PartialEq, Eq)]
pub enum Operand {
    Imm(i32),
    Register(Reg),
}

/// When a conditional jump is taken (RFC 9669, section 4.3). Those that begin with `S` compare signed numbers.
#[derive(Clone, Copy, Drop, Debug, PartialEq, Eq)]
pub enum Cond {
    Eq,
    Gt,
    Ge,
    Set,
    Ne,
    SGt,
    SGe,
    Lt,
    Le,
    SLt,
    SLe,
}

/// A byte swap's order (RFC 9669, section 4.2): to little endian (opcode d4), to big endian (dc), or in any case (d7).
#[derive(Clone, Copy, Drop, Debug, PartialEq, Eq)]
pub enum Order {
    Little,
    Big,
    Swapped,
}

/// How many bits a byte swap works on.
#[derive(Clone, Copy, Drop, Debug, PartialEq, Eq)]
pub enum SwapWidth {
    W16,
    W32,
    W64,
}

/// How many bytes an access of memory reads or writes: 1, 2, 4 or 8 (RFC 9669, section 5: B, H, W, DW).
#[derive(Clone, Copy, Drop, Debug, PartialEq, Eq)]
pub enum Size {
    Byte,
    Half,
    Word,
    Double,
}

impl Size {
    /// The number of bytes.
    pub fn bytes(self) -> usize
        ensures { result ≡ size_bytes self }
    {
        match self {
            Size::Byte => 1,
            Size::Half => 2,
            Size::Word => 4,
            Size::Double => 8,
        }
    }
}

impl Width {
    /// The size of a number of that many bits in memory (RFC 9669, section 5.3: W or DW).
    pub fn size(self) -> Size
        ensures { result ≡ size_of_width self }
    {
        match self {
            Width::W32 => Size::Word,
            Width::W64 => Size::Double,
        }
    }
}

/// The sizes that a load extends with the sign (RFC 9669, section 5.2: B, H, W).
#[derive(Clone, Copy, Drop, Debug, PartialEq, Eq)]
pub enum SignedSize {
    Byte,
    Half,
    Word,
}

impl SignedSize {
    /// The same size.
    pub fn size(self) -> Size
        ensures { result ≡ size_of_signed self }
    {
        match self {
            SignedSize::Byte => Size::Byte,
            SignedSize::Half => Size::Half,
            SignedSize::Word => Size::Word,
        }
    }
}

/// An atomic operation (RFC 9669, section 5.3). Those that begin with `Fetch`, and `Exchange`, give the old value to the
/// source register, `CompareExchange` gives it to R0.
#[derive(Clone, Copy, Drop, Debug, PartialEq, Eq)]
pub enum AtomicOp {
    Add,
    Or,
    And,
    Xor,
    FetchAdd,
    FetchOr,
    FetchAnd,
    FetchXor,
    Exchange,
    CompareExchange,
}

impl AtomicOp {
    /// The register that the old value is loaded into, where `src` is the instruction's source register; none where the
    /// old value isn't loaded.
    pub fn old_value_to(self, src: Reg) -> Option<Reg>
        ensures { result ≡ old_value_to self src }
    {
        match self {
            AtomicOp::Add | AtomicOp::Or | AtomicOp::And | AtomicOp::Xor => None,
            AtomicOp::FetchAdd
            | AtomicOp::FetchOr
            | AtomicOp::FetchAnd
            | AtomicOp::FetchXor
            | AtomicOp::Exchange => Some(src),
            AtomicOp::CompareExchange => Some(Reg::R0),
        }
    }
}

/// An instruction of the table. Offsets of jumps and calls count slots, those of memory count bytes.
#[derive(Clone, Copy, Drop, Debug, PartialEq, Eq)]
pub enum Instr {
    /// An operation on the destination and a second operand (section 4.1).
    Alu {
        width: Width,
        op: Binary,
        dst: Reg,
        src: Operand,
    },
    /// The destination with its sign changed (section 4.1).
    Neg {
        width: Width,
        dst: Reg,
    },
    /// A move of the low 8 bits, sign-extended (section 4.1).
    MovSx8 {
        width: Width,
        dst: Reg,
        src: Reg,
    },
    /// A move of the low 16 bits, sign-extended (section 4.1).
    MovSx16 {
        width: Width,
        dst: Reg,
        src: Reg,
    },
    /// A move of the low 32 bits, sign-extended to 64 (section 4.1).
    MovSx32 {
        dst: Reg,
        src: Reg,
    },
    /// A byte swap of the low bits of the destination (section 4.2).
    End {
        order: Order,
        width: SwapWidth,
        dst: Reg,
    },
    /// A jump by `offset` slots from the next slot, where the condition holds (section 4.3).
    Jump {
        width: Width,
        cond: Cond,
        dst: Reg,
        src: Operand,
        offset: i16,
    },
    /// A jump by `offset` slots, which stands in the offset field (section 4.3).
    Ja {
        offset: i16,
    },
    /// A jump by `offset` slots, which stands in the imm field (section 4.3).
    JaLong {
        offset: i32,
    },
    /// A call of the helper function of that number (section 4.3.1).
    CallHelper {
        id: i32,
    },
    /// A call of the function `offset` slots from the next slot (section 4.3.2).
    CallLocal {
        offset: i32,
    },
    /// The end of a function, or of the program (section 4.3).
    Exit,
    /// A load from memory at `src` plus `offset`, zero-extended (section 5.1).
    Load {
        size: Size,
        dst: Reg,
        src: Reg,
        offset: i16,
    },
    /// A load from memory at `src` plus `offset`, sign-extended (section 5.2).
    LoadSigned {
        size: SignedSize,
        dst: Reg,
        src: Reg,
        offset: i16,
    },
    /// A store of the operand's low bytes to memory at `dst` plus `offset` (section 5.1).
    Store {
        size: Size,
        dst: Reg,
        src: Operand,
        offset: i16,
    },
    /// An atomic operation on memory at `dst` plus `offset` (section 5.3).
    Atomic {
        width: Width,
        op: AtomicOp,
        dst: Reg,
        src: Reg,
        offset: i16,
    },
    /// A load of a 64-bit number that stands in the instruction's two slots (section 5.4).
    LoadImm64 {
        dst: Reg,
        value: u64,
    },
}

impl Instr {
    /// The register that the instruction writes; none where it writes none. What a local call and an exit do to the
    /// registers of the functions isn't counted.
    #[inline(always)]
    pub fn destination(&self) -> Option<Reg>
        ensures { result ≡ destination self.now }
    {
        match *self {
            Instr::Alu { dst, .. }
            | Instr::Neg { dst, .. }
            | Instr::MovSx8 { dst, .. }
            | Instr::MovSx16 { dst, .. }
            | Instr::MovSx32 { dst, .. }
            | Instr::End { dst, .. }
            | Instr::Load { dst, .. }
            | Instr::LoadSigned { dst, .. }
            | Instr::LoadImm64 { dst, .. } => Some(dst),
            Instr::Atomic { op, src, .. } => op.old_value_to(src),
            Instr::CallHelper { .. } => Some(Reg::R0),
            Instr::Jump { .. }
            | Instr::Ja { .. }
            | Instr::JaLong { .. }
            | Instr::CallLocal { .. }
            | Instr::Exit
            | Instr::Store { .. } => None,
        }
    }
}

/// How many slots the instruction takes: two in the wide encoding (RFC 9669, section 3.2), else one.
pub fn slots_of(instr: &Instr) -> usize
    ensures { result ≡ slots instr.now }
{
    match instr {
        Instr::LoadImm64 { .. } => 2,
        _ => 1,
    }
}
