//! Encodings by the tables of RFC 9669, by hand.
use bpf_codec::{Fault, decode_at, decode_one, encode};
use isa_table::{
    AtomicOp, Binary, Cond, Instr, Operand, Order, Reg, SignedSize, Size, SwapWidth, Width,
    slots_of,
};

const ENCODINGS: &[([u8; 8], Instr)] = &[
    (
        [0xb7, 0x00, 0x00, 0x00, 0xf3, 0xff, 0xff, 0xff],
        Instr::Alu {
            width: Width::W64,
            op: Binary::Mov,
            dst: Reg::R0,
            src: Operand::Imm(-13),
        },
    ),
    (
        [0x97, 0x00, 0x01, 0x00, 0x03, 0x00, 0x00, 0x00],
        Instr::Alu {
            width: Width::W64,
            op: Binary::SMod,
            dst: Reg::R0,
            src: Operand::Imm(3),
        },
    ),
    (
        [0x9c, 0x10, 0x00, 0x00, 0x00, 0x00, 0x00, 0x00],
        Instr::Alu {
            width: Width::W32,
            op: Binary::Mod,
            dst: Reg::R0,
            src: Operand::Register(Reg::R1),
        },
    ),
    (
        [0x84, 0x03, 0x00, 0x00, 0x00, 0x00, 0x00, 0x00],
        Instr::Neg {
            width: Width::W32,
            dst: Reg::R3,
        },
    ),
    (
        [0xbc, 0x10, 0x08, 0x00, 0x00, 0x00, 0x00, 0x00],
        Instr::MovSx8 {
            width: Width::W32,
            dst: Reg::R0,
            src: Reg::R1,
        },
    ),
    (
        [0xbf, 0x10, 0x10, 0x00, 0x00, 0x00, 0x00, 0x00],
        Instr::MovSx16 {
            width: Width::W64,
            dst: Reg::R0,
            src: Reg::R1,
        },
    ),
    (
        [0xbf, 0x21, 0x20, 0x00, 0x00, 0x00, 0x00, 0x00],
        Instr::MovSx32 {
            dst: Reg::R1,
            src: Reg::R2,
        },
    ),
    (
        [0xdc, 0x00, 0x00, 0x00, 0x10, 0x00, 0x00, 0x00],
        Instr::End {
            order: Order::Big,
            width: SwapWidth::W16,
            dst: Reg::R0,
        },
    ),
    (
        [0xd7, 0x05, 0x00, 0x00, 0x40, 0x00, 0x00, 0x00],
        Instr::End {
            order: Order::Swapped,
            width: SwapWidth::W64,
            dst: Reg::R5,
        },
    ),
    (
        [0xa5, 0x00, 0xfe, 0xff, 0x03, 0x00, 0x00, 0x00],
        Instr::Jump {
            width: Width::W64,
            cond: Cond::Lt,
            dst: Reg::R0,
            src: Operand::Imm(3),
            offset: -2,
        },
    ),
    (
        [0x4e, 0xa9, 0x01, 0x00, 0x00, 0x00, 0x00, 0x00],
        Instr::Jump {
            width: Width::W32,
            cond: Cond::Set,
            dst: Reg::R9,
            src: Operand::Register(Reg::R10),
            offset: 1,
        },
    ),
    (
        [0x05, 0x00, 0x01, 0x00, 0x00, 0x00, 0x00, 0x00],
        Instr::Ja { offset: 1 },
    ),
    (
        [0x06, 0x00, 0x00, 0x00, 0x01, 0x00, 0x00, 0x00],
        Instr::JaLong { offset: 1 },
    ),
    (
        [0x85, 0x00, 0x00, 0x00, 0x05, 0x00, 0x00, 0x00],
        Instr::CallHelper { id: 5 },
    ),
    (
        [0x85, 0x10, 0x00, 0x00, 0xff, 0xff, 0xff, 0xff],
        Instr::CallLocal { offset: -1 },
    ),
    (
        [0x95, 0x00, 0x00, 0x00, 0x00, 0x00, 0x00, 0x00],
        Instr::Exit,
    ),
    (
        [0x79, 0x1a, 0xf8, 0xff, 0x00, 0x00, 0x00, 0x00],
        Instr::Load {
            size: Size::Double,
            dst: Reg::R10,
            src: Reg::R1,
            offset: -8,
        },
    ),
    (
        [0x89, 0x21, 0xff, 0x7f, 0x00, 0x00, 0x00, 0x00],
        Instr::LoadSigned {
            size: SignedSize::Half,
            dst: Reg::R1,
            src: Reg::R2,
            offset: 32767,
        },
    ),
    (
        [0x72, 0x0a, 0x00, 0x80, 0xff, 0x00, 0x00, 0x00],
        Instr::Store {
            size: Size::Byte,
            dst: Reg::R10,
            src: Operand::Imm(255),
            offset: -32768,
        },
    ),
    (
        [0x63, 0x21, 0x04, 0x00, 0x00, 0x00, 0x00, 0x00],
        Instr::Store {
            size: Size::Word,
            dst: Reg::R1,
            src: Operand::Register(Reg::R2),
            offset: 4,
        },
    ),
    (
        [0xc3, 0x21, 0x04, 0x00, 0xa1, 0x00, 0x00, 0x00],
        Instr::Atomic {
            width: Width::W32,
            op: AtomicOp::FetchXor,
            dst: Reg::R1,
            src: Reg::R2,
            offset: 4,
        },
    ),
    (
        [0xdb, 0xa1, 0x00, 0x00, 0xf1, 0x00, 0x00, 0x00],
        Instr::Atomic {
            width: Width::W64,
            op: AtomicOp::CompareExchange,
            dst: Reg::R1,
            src: Reg::R10,
            offset: 0,
        },
    ),
];

/// What stands at the first slot.
fn first(bytes: [u8; 8]) -> Result<(Instr, usize), Fault> {
    decode_at(&bytes, 0)
}

/// The same, read alone.
fn alone(bytes: [u8; 8]) -> Result<(Instr, usize), Fault> {
    decode_one(&bytes, 0)
}

fn padded(bytes: [u8; 8]) -> [u8; 16] {
    let [a, b, c, d, e, f, g, h] = bytes;
    [a, b, c, d, e, f, g, h, 0, 0, 0, 0, 0, 0, 0, 0]
}

#[test]
fn reads_and_writes_the_same_bytes(rt: HostRuntime) {
    for &(bytes, instr) in ENCODINGS {
        assert!(rt; first(bytes) == Ok((instr, 1)), "read {bytes:?}");
        assert!(rt; alone(bytes) == Ok((instr, 1)), "read alone {bytes:?}");
        assert!(rt; encode(&instr) == (padded(bytes), 1), "written {bytes:?}");
    }
}

#[test]
fn reads_and_writes_the_wide_encoding(rt: HostRuntime) {
    let code = [
        0x18, 0x00, 0, 0, 0x88, 0x77, 0x66, 0x55, 0, 0, 0, 0, 0x44, 0x33, 0x22, 0x11,
    ];
    let instr = Instr::LoadImm64 {
        dst: Reg::R0,
        value: 0x1122_3344_5566_7788,
    };
    assert!(rt; decode_at(&code, 0) == Ok((instr, 2)));
    assert_eq!(rt; slots_of(&instr), 2);
    assert_eq!(rt; slots_of(&Instr::Exit), 1);
    assert!(rt; encode(&instr) == (code, 2));
}

/// The opcodes of the instruction table and of packet access, from the tables of RFC 9669.
const OPCODES: &[u8] = &[
    0x04, 0x05, 0x06, 0x07, 0x0c, 0x0f, 0x14, 0x15, 0x16, 0x17, 0x18, 0x1c, 0x1d, 0x1e, 0x1f, 0x24,
    0x25, 0x26, 0x27, 0x2c, 0x2d, 0x2e, 0x2f, 0x34, 0x35, 0x36, 0x37, 0x3c, 0x3d, 0x3e, 0x3f, 0x44,
    0x45, 0x46, 0x47, 0x4c, 0x4d, 0x4e, 0x4f, 0x54, 0x55, 0x56, 0x57, 0x5c, 0x5d, 0x5e, 0x5f, 0x61,
    0x62, 0x63, 0x64, 0x65, 0x66, 0x67, 0x69, 0x6a, 0x6b, 0x6c, 0x6d, 0x6e, 0x6f, 0x71, 0x72, 0x73,
    0x74, 0x75, 0x76, 0x77, 0x79, 0x7a, 0x7b, 0x7c, 0x7d, 0x7e, 0x7f, 0x81, 0x84, 0x85, 0x87, 0x89,
    0x91, 0x94, 0x95, 0x97, 0x9c, 0x9f, 0xa4, 0xa5, 0xa6, 0xa7, 0xac, 0xad, 0xae, 0xaf, 0xb4, 0xb5,
    0xb6, 0xb7, 0xbc, 0xbd, 0xbe, 0xbf, 0xc3, 0xc4, 0xc5, 0xc6, 0xc7, 0xcc, 0xcd, 0xce, 0xcf, 0xd4,
    0xd5, 0xd6, 0xd7, 0xdb, 0xdc, 0xdd, 0xde, 0x20, 0x28, 0x30, 0x40, 0x48, 0x50,
];

#[test]
fn knows_the_opcodes(rt: HostRuntime) {
    for opcode in 0..=255 {
        let is_known = OPCODES.iter().any(|known| *known == opcode);
        let fault = first([opcode, 0, 0, 0, 0, 0, 0, 0]) == Err(Fault::Opcode);
        assert!(rt; fault != is_known, "opcode {opcode}");
    }
}

const FAULTS: &[([u8; 8], Fault)] = &[
    // Neither in the table nor one of packet access, whatever the fields hold.
    (
        [0x8d, 0x00, 0x00, 0x00, 0x00, 0x00, 0x00, 0x00],
        Fault::Opcode,
    ),
    (
        [0x8c, 0xff, 0x00, 0x00, 0x00, 0x00, 0x00, 0x00],
        Fault::Opcode,
    ),
    (
        [0x00, 0xff, 0xff, 0xff, 0xff, 0xff, 0xff, 0xff],
        Fault::Opcode,
    ),
    (
        [0x99, 0x00, 0x00, 0x00, 0x00, 0x00, 0x00, 0x00],
        Fault::Opcode,
    ),
    // A register above 10, also where another field is bad.
    (
        [0xb7, 0x0b, 0x00, 0x00, 0x00, 0x00, 0x00, 0x00],
        Fault::Register,
    ),
    (
        [0xbf, 0xb0, 0x00, 0x00, 0x00, 0x00, 0x00, 0x00],
        Fault::Register,
    ),
    (
        [0x0f, 0x1f, 0x01, 0x00, 0x00, 0x00, 0x00, 0x00],
        Fault::Register,
    ),
    (
        [0x1e, 0xb0, 0x00, 0x00, 0x01, 0x00, 0x00, 0x00],
        Fault::Register,
    ),
    (
        [0x71, 0x0b, 0x00, 0x00, 0x00, 0x00, 0x00, 0x00],
        Fault::Register,
    ),
    (
        [0x72, 0x0f, 0x00, 0x00, 0x01, 0x00, 0x00, 0x00],
        Fault::Register,
    ),
    (
        [0xc3, 0xb1, 0x00, 0x00, 0x02, 0x00, 0x00, 0x00],
        Fault::Register,
    ),
    // A field that the row does not use, also with 11 to 15 where others have a register.
    (
        [0x95, 0x00, 0x00, 0x00, 0x01, 0x00, 0x00, 0x00],
        Fault::Field,
    ),
    (
        [0xb7, 0xb0, 0x00, 0x00, 0x00, 0x00, 0x00, 0x00],
        Fault::Field,
    ),
    (
        [0xb7, 0x00, 0x01, 0x00, 0x00, 0x00, 0x00, 0x00],
        Fault::Field,
    ),
    (
        [0xbf, 0x10, 0x08, 0x00, 0x01, 0x00, 0x00, 0x00],
        Fault::Field,
    ),
    (
        [0x87, 0x00, 0x00, 0x00, 0x01, 0x00, 0x00, 0x00],
        Fault::Field,
    ),
    (
        [0xdc, 0xb0, 0x00, 0x00, 0x10, 0x00, 0x00, 0x00],
        Fault::Field,
    ),
    (
        [0x1d, 0x10, 0x00, 0x00, 0x01, 0x00, 0x00, 0x00],
        Fault::Field,
    ),
    (
        [0x15, 0x10, 0x00, 0x00, 0x00, 0x00, 0x00, 0x00],
        Fault::Field,
    ),
    (
        [0x05, 0x0b, 0x00, 0x00, 0x00, 0x00, 0x00, 0x00],
        Fault::Field,
    ),
    (
        [0x06, 0x00, 0x01, 0x00, 0x00, 0x00, 0x00, 0x00],
        Fault::Field,
    ),
    (
        [0x61, 0x10, 0x00, 0x00, 0x01, 0x00, 0x00, 0x00],
        Fault::Field,
    ),
    (
        [0x62, 0xb0, 0x00, 0x00, 0x00, 0x00, 0x00, 0x00],
        Fault::Field,
    ),
    (
        [0x7b, 0x10, 0x00, 0x00, 0x01, 0x00, 0x00, 0x00],
        Fault::Field,
    ),
    // A field with none of its values.
    (
        [0x37, 0x00, 0x02, 0x00, 0x00, 0x00, 0x00, 0x00],
        Fault::Field,
    ),
    (
        [0x07, 0x00, 0x01, 0x00, 0x00, 0x00, 0x00, 0x00],
        Fault::Field,
    ),
    (
        [0xbf, 0x10, 0x18, 0x00, 0x00, 0x00, 0x00, 0x00],
        Fault::Field,
    ),
    (
        [0xbc, 0x10, 0x20, 0x00, 0x00, 0x00, 0x00, 0x00],
        Fault::Field,
    ),
    (
        [0xd7, 0x00, 0x00, 0x00, 0x08, 0x00, 0x00, 0x00],
        Fault::Field,
    ),
    (
        [0xc3, 0x21, 0x00, 0x00, 0x02, 0x00, 0x00, 0x00],
        Fault::Field,
    ),
    (
        [0xdb, 0x21, 0x00, 0x00, 0xe0, 0x00, 0x00, 0x00],
        Fault::Field,
    ),
    (
        [0xdb, 0x21, 0x00, 0x00, 0x01, 0x01, 0x00, 0x00],
        Fault::Field,
    ),
    // A call's source is no register; a platform's call has no other field but imm.
    (
        [0x85, 0x30, 0x00, 0x00, 0x00, 0x00, 0x00, 0x00],
        Fault::Field,
    ),
    (
        [0x85, 0xb0, 0x00, 0x00, 0x00, 0x00, 0x00, 0x00],
        Fault::Field,
    ),
    (
        [0x85, 0x1b, 0x00, 0x00, 0x00, 0x00, 0x00, 0x00],
        Fault::Field,
    ),
    (
        [0x85, 0x00, 0x01, 0x00, 0x01, 0x00, 0x00, 0x00],
        Fault::Field,
    ),
    (
        [0x85, 0x21, 0x00, 0x00, 0x07, 0x00, 0x00, 0x00],
        Fault::Field,
    ),
    (
        [0x85, 0x20, 0x01, 0x00, 0x00, 0x00, 0x00, 0x00],
        Fault::Field,
    ),
    (
        [0x85, 0x20, 0x00, 0x00, 0x07, 0x00, 0x00, 0x00],
        Fault::Platform,
    ),
    // A wide encoding at the end: the first slot's faults come before the missing second slot.
    (
        [0x18, 0x00, 0x00, 0x00, 0x00, 0x00, 0x00, 0x00],
        Fault::HalfWide,
    ),
    (
        [0x18, 0x10, 0x00, 0x00, 0x00, 0x00, 0x00, 0x00],
        Fault::HalfWide,
    ),
    (
        [0x18, 0x0b, 0x00, 0x00, 0x00, 0x00, 0x00, 0x00],
        Fault::Register,
    ),
    (
        [0x18, 0x70, 0x00, 0x00, 0x00, 0x00, 0x00, 0x00],
        Fault::Field,
    ),
    (
        [0x18, 0xb0, 0x00, 0x00, 0x00, 0x00, 0x00, 0x00],
        Fault::Field,
    ),
    (
        [0x18, 0x10, 0x01, 0x00, 0x00, 0x00, 0x00, 0x00],
        Fault::Field,
    ),
    // Packet access, whatever the fields hold.
    (
        [0x20, 0x00, 0x00, 0x00, 0x00, 0x00, 0x00, 0x00],
        Fault::Packet,
    ),
    (
        [0x28, 0xff, 0xff, 0xff, 0xff, 0xff, 0xff, 0xff],
        Fault::Packet,
    ),
    (
        [0x30, 0x00, 0x00, 0x00, 0x00, 0x00, 0x00, 0x00],
        Fault::Packet,
    ),
    (
        [0x40, 0x00, 0x00, 0x00, 0x00, 0x00, 0x00, 0x00],
        Fault::Packet,
    ),
    (
        [0x48, 0x0b, 0x00, 0x00, 0x00, 0x00, 0x00, 0x00],
        Fault::Packet,
    ),
    (
        [0x50, 0x00, 0x00, 0x00, 0x01, 0x00, 0x00, 0x00],
        Fault::Packet,
    ),
];

#[test]
fn answers_the_least_fault_of_a_slot(rt: HostRuntime) {
    for &(bytes, fault) in FAULTS {
        assert!(rt; first(bytes) == Err(fault), "at {bytes:?}");
    }
}

const WIDE_FAULTS: &[([u8; 16], Fault)] = &[
    // Sources 1 to 6 are the platform's, and both imm fields may hold anything.
    (
        [0x18, 0x10, 0, 0, 1, 0, 0, 0, 0, 0, 0, 0, 2, 0, 0, 0],
        Fault::Platform,
    ),
    (
        [0x18, 0x6a, 0, 0, 0, 0, 0, 0, 0, 0, 0, 0, 0, 0, 0, 0],
        Fault::Platform,
    ),
    (
        [0x18, 0x70, 0, 0, 0, 0, 0, 0, 0, 0, 0, 0, 0, 0, 0, 0],
        Fault::Field,
    ),
    // Reserved bits of the second slot.
    (
        [0x18, 0x10, 0, 0, 0, 0, 0, 0, 0, 0, 0, 1, 0, 0, 0, 0],
        Fault::Field,
    ),
    (
        [0x18, 0x00, 0, 0, 0, 0, 0, 0, 1, 0, 0, 0, 0, 0, 0, 0],
        Fault::Field,
    ),
    (
        [0x18, 0x0b, 0, 0, 0, 0, 0, 0, 1, 0, 0, 0, 0, 0, 0, 0],
        Fault::Register,
    ),
];

#[test]
fn answers_the_least_fault_of_two_slots(rt: HostRuntime) {
    for &(bytes, fault) in WIDE_FAULTS {
        assert!(rt; decode_at(&bytes, 0) == Err(fault), "at {bytes:?}");
        assert!(rt; decode_one(&bytes, 0) == Err(fault), "alone {bytes:?}");
    }
    // The second slot is looked at only where it is there whole.
    let bytes = [0x18, 0, 0, 0, 0, 0, 0, 0, 1, 1, 1, 1, 1, 1, 1];
    assert!(rt; decode_at(&bytes, 0) == Err(Fault::HalfWide));
}

#[test]
fn reads_at_any_slot(rt: HostRuntime) {
    let code = [
        0xb7, 0, 0, 0, 7, 0, 0, 0, 0x95, 0, 0, 0, 0, 0, 0, 0, 0x95, 0,
    ];
    assert!(rt; decode_at(&code, 1) == Ok((Instr::Exit, 1)));
    assert!(rt; decode_one(&code, 1) == Ok((Instr::Exit, 1)));
    for &slot in &[2, 3, 1 << 61, usize::MAX] {
        assert!(rt; decode_at(&code, slot) == Err(Fault::Short), "at {slot}");
        assert!(rt;
            decode_one(&code, slot) == Err(Fault::Short),
            "alone at {slot}"
        );
    }
    assert!(rt; decode_at(&[], 0) == Err(Fault::Short));
}

#[test]
fn numbers_and_names_faults(rt: HostRuntime) {
    let faults: &[(Fault, u8, &str)] = &[
        (Fault::Opcode, 1, "Opcode"),
        (Fault::Register, 2, "Register"),
        (Fault::Field, 3, "Field"),
        (Fault::HalfWide, 4, "HalfWide"),
        (Fault::Packet, 5, "Packet"),
        (Fault::Platform, 6, "Platform"),
        (Fault::Short, 7, "Short"),
    ];
    for &(fault, number, name) in faults {
        assert_eq!(rt; fault.number(), number);
        assert!(rt; fault.name() == name.as_bytes());
        let text = format!(in rt.alloc(); "{fault}");
        assert!(rt;
            text.is_ok_and(|text| text.as_str() == name),
            "text of {name}"
        );
    }
}
