//! The instruction that a mnemonic and operands are.
ghost use Rattle.std.specs.Prelude.{◌≡◌};
ghost use Rattle.asm_table.specs.Parts.{instr_of_parts};

use crate::mnemonic::Mnemonic;
use crate::operands::AsmOperand;
use isa_table::{
    AtomicOp, Binary, Cond, Instr, Operand, Order, SignedSize, Size, SwapWidth, Width,
};

fn alu(width: Width, op: Binary, operands: &[AsmOperand]) -> Option<Instr>
    ensures { result ≡ instr_of_parts (Mnemonic.Alu width op) operands.now }
{
    match operands {
        [AsmOperand::Register(dst), AsmOperand::Register(src)] => Some(Instr::Alu {
            width,
            op,
            dst: *dst,
            src: Operand::Register(*src),
        }),
        [AsmOperand::Register(dst), AsmOperand::Imm(z)] => Some(Instr::Alu {
            width,
            op,
            dst: *dst,
            src: Operand::Imm(*z),
        }),
        _ => None,
    }
}

fn neg(width: Width, operands: &[AsmOperand]) -> Option<Instr>
    ensures { result ≡ instr_of_parts (Mnemonic.Neg width) operands.now }
{
    match operands {
        [AsmOperand::Register(dst)] => Some(Instr::Neg { width, dst: *dst }),
        _ => None,
    }
}

fn mov_sx8(width: Width, operands: &[AsmOperand]) -> Option<Instr>
    ensures { result ≡ instr_of_parts (Mnemonic.MovSx8 width) operands.now }
{
    match operands {
        [AsmOperand::Register(dst), AsmOperand::Register(src)] => Some(Instr::MovSx8 {
            width,
            dst: *dst,
            src: *src,
        }),
        _ => None,
    }
}

fn mov_sx16(width: Width, operands: &[AsmOperand]) -> Option<Instr>
    ensures { result ≡ instr_of_parts (Mnemonic.MovSx16 width) operands.now }
{
    match operands {
        [AsmOperand::Register(dst), AsmOperand::Register(src)] => Some(Instr::MovSx16 {
            width,
            dst: *dst,
            src: *src,
        }),
        _ => None,
    }
}

fn mov_sx32(operands: &[AsmOperand]) -> Option<Instr>
    ensures { result ≡ instr_of_parts Mnemonic.MovSx32 operands.now }
{
    match operands {
        [AsmOperand::Register(dst), AsmOperand::Register(src)] => Some(Instr::MovSx32 {
            dst: *dst,
            src: *src,
        }),
        _ => None,
    }
}

fn end(order: Order, width: SwapWidth, operands: &[AsmOperand]) -> Option<Instr>
    ensures { result ≡ instr_of_parts (Mnemonic.End order width) operands.now }
{
    match operands {
        [AsmOperand::Register(dst)] => Some(Instr::End {
            order,
            width,
            dst: *dst,
        }),
        _ => None,
    }
}

fn jump(width: Width, cond: Cond, operands: &[AsmOperand]) -> Option<Instr>
    ensures { result ≡ instr_of_parts (Mnemonic.Jump width cond) operands.now }
{
    match operands {
        [
            AsmOperand::Register(dst),
            AsmOperand::Register(src),
            AsmOperand::Offset(offset),
        ] => Some(Instr::Jump {
            width,
            cond,
            dst: *dst,
            src: Operand::Register(*src),
            offset: *offset,
        }),
        [
            AsmOperand::Register(dst),
            AsmOperand::Imm(z),
            AsmOperand::Offset(offset),
        ] => Some(Instr::Jump {
            width,
            cond,
            dst: *dst,
            src: Operand::Imm(*z),
            offset: *offset,
        }),
        _ => None,
    }
}

fn ja(operands: &[AsmOperand]) -> Option<Instr>
    ensures { result ≡ instr_of_parts Mnemonic.Ja operands.now }
{
    match operands {
        [AsmOperand::Offset(offset)] => Some(Instr::Ja { offset: *offset }),
        _ => None,
    }
}

fn ja_long(operands: &[AsmOperand]) -> Option<Instr>
    ensures { result ≡ instr_of_parts Mnemonic.JaLong operands.now }
{
    match operands {
        [AsmOperand::LongOffset(offset)] => Some(Instr::JaLong { offset: *offset }),
        _ => None,
    }
}

fn call_helper(operands: &[AsmOperand]) -> Option<Instr>
    ensures { result ≡ instr_of_parts Mnemonic.CallHelper operands.now }
{
    match operands {
        [AsmOperand::Imm(id)] => Some(Instr::CallHelper { id: *id }),
        _ => None,
    }
}

fn call_local(operands: &[AsmOperand]) -> Option<Instr>
    ensures { result ≡ instr_of_parts Mnemonic.CallLocal operands.now }
{
    match operands {
        [AsmOperand::LongOffset(offset)] => Some(Instr::CallLocal { offset: *offset }),
        _ => None,
    }
}

fn exit(operands: &[AsmOperand]) -> Option<Instr>
    ensures { result ≡ instr_of_parts Mnemonic.Exit operands.now }
{
    match operands {
        [] => Some(Instr::Exit),
        _ => None,
    }
}

fn load(size: Size, operands: &[AsmOperand]) -> Option<Instr>
    ensures { result ≡ instr_of_parts (Mnemonic.Load size) operands.now }
{
    match operands {
        [AsmOperand::Register(dst), AsmOperand::Memory(src, offset)] => Some(Instr::Load {
            size,
            dst: *dst,
            src: *src,
            offset: *offset,
        }),
        _ => None,
    }
}

fn load_signed(size: SignedSize, operands: &[AsmOperand]) -> Option<Instr>
    ensures { result ≡ instr_of_parts (Mnemonic.LoadSigned size) operands.now }
{
    match operands {
        [AsmOperand::Register(dst), AsmOperand::Memory(src, offset)] => Some(Instr::LoadSigned {
            size,
            dst: *dst,
            src: *src,
            offset: *offset,
        }),
        _ => None,
    }
}

fn store_imm(size: Size, operands: &[AsmOperand]) -> Option<Instr>
    ensures { result ≡ instr_of_parts (Mnemonic.StoreImm size) operands.now }
{
    match operands {
        [AsmOperand::Memory(dst, offset), AsmOperand::Imm(z)] => Some(Instr::Store {
            size,
            dst: *dst,
            src: Operand::Imm(*z),
            offset: *offset,
        }),
        _ => None,
    }
}

fn store_register(size: Size, operands: &[AsmOperand]) -> Option<Instr>
    ensures { result ≡ instr_of_parts (Mnemonic.StoreRegister size) operands.now }
{
    match operands {
        [AsmOperand::Memory(dst, offset), AsmOperand::Register(src)] => Some(Instr::Store {
            size,
            dst: *dst,
            src: Operand::Register(*src),
            offset: *offset,
        }),
        _ => None,
    }
}

fn atomic(width: Width, op: AtomicOp, operands: &[AsmOperand]) -> Option<Instr>
    ensures { result ≡ instr_of_parts (Mnemonic.Atomic width op) operands.now }
{
    match operands {
        [AsmOperand::Memory(dst, offset), AsmOperand::Register(src)] => Some(Instr::Atomic {
            width,
            op,
            dst: *dst,
            src: *src,
            offset: *offset,
        }),
        _ => None,
    }
}

fn load_imm64(operands: &[AsmOperand]) -> Option<Instr>
    ensures { result ≡ instr_of_parts Mnemonic.LoadImm64 operands.now }
{
    match operands {
        [AsmOperand::Register(dst), AsmOperand::Imm64(value)] => Some(Instr::LoadImm64 {
            dst: *dst,
            value: *value,
        }),
        _ => None,
    }
}

/// The instruction of this mnemonic that has these operands.
pub fn build(m: Mnemonic, operands: &[AsmOperand]) -> Option<Instr>
    ensures { result ≡ instr_of_parts m operands.now }
{
    match m {
        Mnemonic::Alu(width, op) => alu(width, op, operands),
        Mnemonic::Neg(width) => neg(width, operands),
        Mnemonic::MovSx8(width) => mov_sx8(width, operands),
        Mnemonic::MovSx16(width) => mov_sx16(width, operands),
        Mnemonic::MovSx32 => mov_sx32(operands),
        Mnemonic::End(order, width) => end(order, width, operands),
        Mnemonic::Jump(width, cond) => jump(width, cond, operands),
        Mnemonic::Ja => ja(operands),
        Mnemonic::JaLong => ja_long(operands),
        Mnemonic::CallHelper => call_helper(operands),
        Mnemonic::CallLocal => call_local(operands),
        Mnemonic::Exit => exit(operands),
        Mnemonic::Load(size) => load(size, operands),
        Mnemonic::LoadSigned(size) => load_signed(size, operands),
        Mnemonic::StoreImm(size) => store_imm(size, operands),
        Mnemonic::StoreRegister(size) => store_register(size, operands),
        Mnemonic::Atomic(width, op) => atomic(width, op, operands),
        Mnemonic::LoadImm64 => load_imm64(operands),
    }
}
