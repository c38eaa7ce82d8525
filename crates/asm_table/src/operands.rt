//! Operands as values, between the spelling of a line and the fields of an instruction.
use arrayvec::ArrayVec;
use isa_table::Reg;

/// What stands after a mnemonic, between commas.
#[derive(Clone, Copy, Drop, Debug, PartialEq, Eq)]
pub enum AsmOperand {
    Register(Reg),
    /// A number of 32 bits.
    Imm(i32),
    /// A place in memory, with an offset in bytes.
    Memory(Reg, i16),
    /// A number of 64 bits.
    Imm64(u64),
    /// Where a jump leads, in slots from the next one.
    Offset(i16),
    /// Where a jump or a local call leads whose offset has 32 bits.
    LongOffset(i32),
}

/// The operands of an instruction.
pub type Operands = ArrayVec<AsmOperand, 3>;

impl Default for AsmOperand {
    fn default() -> AsmOperand {
        AsmOperand::Imm64(0)
    }
}
