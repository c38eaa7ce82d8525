//! The layout of each instruction's first slot.
ghost use Rattle.std.specs.Prelude.{◌≡◌, ◌<◌, ◌≤◌};
ghost use Rattle.isa_table.specs.declared.instr.Instr.TheVariants.{Alu, Jump, Store, Atomic};
ghost use Rattle.bpf_codec.specs.declared.layout.Field.TheVariants.{Register};
ghost use Rattle.bpf_codec.specs.Faults.{platform_layouts};
ghost use Rattle.bpf_codec.specs.Slots.{alu_code, alu_offset, cond_code, alu_class, jump_class, size_code, end_code, swap_bits, atomic_code, unused, row};
ghost use Rattle.bpf_codec.specs.Slots.{layout};

use isa_table::{AtomicOp, Binary, Cond, Instr, Operand, Order, Reg, Size, SwapWidth, Width};

/// What a field of a slot holds.
#[derive(Clone, Copy, Drop, Debug)]
pub enum Field {
    /// The number of a register.
    Register(Reg),
    /// A signed number of 16 bits, in the offset field.
    Offset(i16),
    /// A signed number of 32 bits, in the imm field.
    Imm(i32),
    /// A number of 64 bits: its low half in the imm field, its high half in that of the second slot.
    Wide(u64),
    /// This number, in every instruction of the row.
    Only(u32),
}

/// What the fields of an instruction's first slot hold.
#[derive(Clone, Copy, Drop, Debug)]
pub struct Layout {
    pub opcode: u8,
    pub dst: Field,
    pub src: Field,
    pub offset: Field,
    pub imm: Field,
}

const UNUSED: Field = Field::Only(0);

/// The layout of a wide encoding with this number in its source field. A constant holds no call.
macro_rules! wide_of_source {
    ($source:literal) => {
        Layout {
            opcode: 0x18,
            dst: Field::Register(Reg::R0),
            src: Field::Only($source),
            offset: UNUSED,
            imm: Field::Wide(0),
        }
    };
}

/// The layouts of what only a platform defines: wide encodings with source 1 to 6 (RFC 9669, section 5.4), and calls with
/// source 2 (section 4.3.1).
const PLATFORM_LAYOUTS: [Layout; 7] = [
    wide_of_source!(1),
    wide_of_source!(2),
    wide_of_source!(3),
    wide_of_source!(4),
    wide_of_source!(5),
    wide_of_source!(6),
    Layout {
        opcode: 0x85,
        dst: UNUSED,
        src: Field::Only(2),
        offset: UNUSED,
        imm: Field::Imm(0),
    },
];

// By reference, as the tables of `places`.
#[tactic(auto, unfolding(crate::specs::Faults::platform_layouts))]
pub fn platform_layouts() -> &'static [Layout]
    ensures { result.now ≡ platform_layouts }
{
    &PLATFORM_LAYOUTS
}

#[inline(always)]
fn alu_code_of(op: Binary) -> u8
    ensures { result ≡ alu_code op }
{
    match op {
        Binary::Add => 0x00,
        Binary::Sub => 0x10,
        Binary::Mul => 0x20,
        Binary::Div | Binary::SDiv => 0x30,
        Binary::Or => 0x40,
        Binary::And => 0x50,
        Binary::Lsh => 0x60,
        Binary::Rsh => 0x70,
        Binary::Mod | Binary::SMod => 0x90,
        Binary::Xor => 0xa0,
        Binary::Mov => 0xb0,
        Binary::Arsh => 0xc0,
    }
}

#[inline(always)]
fn alu_offset_of(op: Binary) -> u32
    ensures { result ≡ alu_offset op }
{
    match op {
        Binary::SDiv | Binary::SMod => 1,
        _ => 0,
    }
}

#[inline(always)]
fn cond_code_of(cond: Cond) -> u8
    ensures { result ≡ cond_code cond }
{
    match cond {
        Cond::Eq => 0x10,
        Cond::Gt => 0x20,
        Cond::Ge => 0x30,
        Cond::Set => 0x40,
        Cond::Ne => 0x50,
        Cond::SGt => 0x60,
        Cond::SGe => 0x70,
        Cond::Lt => 0xa0,
        Cond::Le => 0xb0,
        Cond::SLt => 0xc0,
        Cond::SLe => 0xd0,
    }
}

#[inline(always)]
fn alu_class_of(width: Width) -> u8
    ensures { result ≡ alu_class width }
{
    match width {
        Width::W64 => 7,
        Width::W32 => 4,
    }
}

#[inline(always)]
fn jump_class_of(width: Width) -> u8
    ensures { result ≡ jump_class width }
{
    match width {
        Width::W64 => 5,
        Width::W32 => 6,
    }
}

#[inline(always)]
fn size_code_of(size: Size) -> u8
    ensures { result ≡ size_code size }
{
    match size {
        Size::Byte => 0x10,
        Size::Half => 0x08,
        Size::Word => 0x00,
        Size::Double => 0x18,
    }
}

#[inline(always)]
fn end_code_of(order: Order) -> u8
    ensures { result ≡ end_code order }
{
    match order {
        Order::Little => 0xd4,
        Order::Big => 0xdc,
        Order::Swapped => 0xd7,
    }
}

#[inline(always)]
fn swap_bits_of(width: SwapWidth) -> u32
    ensures { result ≡ swap_bits width }
{
    match width {
        SwapWidth::W16 => 16,
        SwapWidth::W32 => 32,
        SwapWidth::W64 => 64,
    }
}

#[inline(always)]
fn atomic_code_of(op: AtomicOp) -> u32
    ensures { result ≡ atomic_code op }
{
    match op {
        AtomicOp::Add => 0x00,
        AtomicOp::Or => 0x40,
        AtomicOp::And => 0x50,
        AtomicOp::Xor => 0xa0,
        AtomicOp::FetchAdd => 0x01,
        AtomicOp::FetchOr => 0x41,
        AtomicOp::FetchAnd => 0x51,
        AtomicOp::FetchXor => 0xa1,
        AtomicOp::Exchange => 0xe1,
        AtomicOp::CompareExchange => 0xf1,
    }
}

#[inline(always)]
fn make_row(opcode: u8, dst: Field, src: Field, offset: Field, imm: Field) -> Layout
    ensures { result ≡ row opcode dst src offset imm }
{
    Layout {
        opcode,
        dst,
        src,
        offset,
        imm,
    }
}

#[inline(always)]
fn alu_layout(width: Width, op: Binary, dst: Reg, src: Operand) -> Layout
    ensures { result ≡ layout (Alu width op dst src) }
{
    let opcode = alu_code_of(op) + alu_class_of(width);
    let dst = Field::Register(dst);
    let offset = Field::Only(alu_offset_of(op));
    match src {
        Operand::Imm(imm) => make_row(opcode, dst, UNUSED, offset, Field::Imm(imm)),
        Operand::Register(src) => make_row(opcode + 8, dst, Field::Register(src), offset, UNUSED),
    }
}

#[inline(always)]
fn jump_layout(width: Width, cond: Cond, dst: Reg, src: Operand, offset: i16) -> Layout
    ensures { result ≡ layout (Jump width cond dst src offset) }
{
    let opcode = cond_code_of(cond) + jump_class_of(width);
    let dst = Field::Register(dst);
    let offset = Field::Offset(offset);
    match src {
        Operand::Imm(imm) => make_row(opcode, dst, UNUSED, offset, Field::Imm(imm)),
        Operand::Register(src) => make_row(opcode + 8, dst, Field::Register(src), offset, UNUSED),
    }
}

#[inline(always)]
fn store_layout(size: Size, dst: Reg, src: Operand, offset: i16) -> Layout
    ensures { result ≡ layout (Store size dst src offset) }
{
    let size = size_code_of(size);
    let dst = Field::Register(dst);
    let offset = Field::Offset(offset);
    match src {
        Operand::Imm(imm) => make_row(0x62 + size, dst, UNUSED, offset, Field::Imm(imm)),
        Operand::Register(src) => make_row(0x63 + size, dst, Field::Register(src), offset, UNUSED),
    }
}

/// The layout of a row with a destination, and no source or offset.
#[inline(always)]
fn one_register(opcode: u8, dst: Reg, imm: Field) -> Layout
    ensures { result ≡ row opcode (Register dst) unused unused imm }
{
    make_row(opcode, Field::Register(dst), UNUSED, UNUSED, imm)
}

/// The layout of a row with a destination and a source, and no number in the imm field.
#[inline(always)]
fn two_registers(opcode: u8, dst: Reg, src: Reg, offset: Field) -> Layout
    ensures { result ≡ row opcode (Register dst) (Register src) offset unused }
{
    make_row(
        opcode,
        Field::Register(dst),
        Field::Register(src),
        offset,
        UNUSED,
    )
}

#[inline(always)]
fn atomic_layout(width: Width, op: AtomicOp, dst: Reg, src: Reg, offset: i16) -> Layout
    ensures { result ≡ layout (Atomic width op dst src offset) }
{
    let opcode = 0xc3 + size_code_of(width.size());
    let offset = Field::Offset(offset);
    let imm = Field::Only(atomic_code_of(op));
    make_row(
        opcode,
        Field::Register(dst),
        Field::Register(src),
        offset,
        imm,
    )
}

/// What the fields of the instruction's first slot hold (RFC 9669, sections 3 to 5). Unused fields are zero, by this
/// project's choice.
#[inline(always)]
pub fn layout_of(instr: Instr) -> Layout
    ensures { result ≡ layout instr }
{
    match instr {
        Instr::Alu {
            width,
            op,
            dst,
            src,
        } => alu_layout(width, op, dst, src),
        Instr::Neg { width, dst } => one_register(0x80 + alu_class_of(width), dst, UNUSED),
        Instr::MovSx8 { width, dst, src } => {
            two_registers(0xb8 + alu_class_of(width), dst, src, Field::Only(8))
        }
        Instr::MovSx16 { width, dst, src } => {
            two_registers(0xb8 + alu_class_of(width), dst, src, Field::Only(16))
        }
        Instr::MovSx32 { dst, src } => two_registers(0xbf, dst, src, Field::Only(32)),
        Instr::End { order, width, dst } => {
            one_register(end_code_of(order), dst, Field::Only(swap_bits_of(width)))
        }
        Instr::Jump {
            width,
            cond,
            dst,
            src,
            offset,
        } => jump_layout(width, cond, dst, src, offset),
        Instr::Ja { offset } => make_row(0x05, UNUSED, UNUSED, Field::Offset(offset), UNUSED),
        Instr::JaLong { offset } => make_row(0x06, UNUSED, UNUSED, UNUSED, Field::Imm(offset)),
        Instr::CallHelper { id } => make_row(0x85, UNUSED, UNUSED, UNUSED, Field::Imm(id)),
        Instr::CallLocal { offset } => {
            make_row(0x85, UNUSED, Field::Only(1), UNUSED, Field::Imm(offset))
        }
        Instr::Exit => make_row(0x95, UNUSED, UNUSED, UNUSED, UNUSED),
        Instr::Load {
            size,
            dst,
            src,
            offset,
        } => { two_registers(0x61 + size_code_of(size), dst, src, Field::Offset(offset)) }
        Instr::LoadSigned {
            size,
            dst,
            src,
            offset,
        } => {
            two_registers(
                0x81 + size_code_of(size.size()),
                dst,
                src,
                Field::Offset(offset),
            )
        }
        Instr::Store {
            size,
            dst,
            src,
            offset,
        } => store_layout(size, dst, src, offset),
        Instr::Atomic {
            width,
            op,
            dst,
            src,
            offset,
        } => atomic_layout(width, op, dst, src, offset),
        Instr::LoadImm64 { dst, value } => one_register(0x18, dst, Field::Wide(value)),
    }
}
