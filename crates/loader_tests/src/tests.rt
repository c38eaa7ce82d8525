//! Code by hand. A slot is written as its bytes, first to last.
use crate::compared::same;
use bpf_codec::Fault;
use isa_table::{Binary, Instr, Operand, Reg, Width};
use loader::{CODE_LIMIT, LoadError, Why, load};
use std::alloc::{AllocError, Global};
use std::test::Fail;

const EXIT: u64 = 0x9500_0000_0000_0000;

const MOV_R0_7: u64 = 0xb700_0000_0700_0000;

const WIDE_R0: u64 = 0x1800_0000_0000_0000;

fn bytes_of(alloc: Global, slots: &[u64]) -> Result<Vec<u8>, AllocError> {
    let mut bytes = Vec::new(alloc);
    for slot in slots {
        bytes.extend_from_slice(&slot.to_be_bytes())?;
    }
    Ok(bytes)
}

fn refusal(alloc: Global, slots: &[u64]) -> Result<Option<LoadError>, AllocError> {
    let bytes = bytes_of(alloc, slots)?;
    Ok(load(alloc, bytes.as_slice()).err())
}

/// Slots that are refused, at which slot, and why.
const REFUSED: &[(&[u64], usize, Why)] = &[
    (
        &[0x0500_0100_0000_0000, WIDE_R0, 0, EXIT],
        0,
        Why::JumpInside,
    ),
    (&[WIDE_R0], 0, Why::Decoder(Fault::HalfWide)),
    (&[0x0500_0100_0000_0000, EXIT], 0, Why::JumpOut),
    (&[MOV_R0_7], 0, Why::FallsOff),
    (&[0x9500_0000_0100_0000], 0, Why::Decoder(Fault::Field)),
    (&[0x2000_0000_0000_0000], 0, Why::Decoder(Fault::Packet)),
    (
        &[0x1810_0000_0000_0000, 0, EXIT],
        0,
        Why::Decoder(Fault::Platform),
    ),
    (
        &[0xb70b_0000_0000_0000, EXIT],
        0,
        Why::Decoder(Fault::Register),
    ),
    (&[0x8d00_0000_0000_0000], 0, Why::Decoder(Fault::Opcode)),
    (&[0xb70a_0000_0000_0000, EXIT], 0, Why::WritesR10),
    // A slot that encodes no instruction comes before all else.
    (
        &[0xb70a_0000_0000_0000, 0x8d00_0000_0000_0000],
        1,
        Why::Decoder(Fault::Opcode),
    ),
    // Then the least slot, and there the least number.
    (
        &[0xb70a_0000_0000_0000, 0x0500_0100_0000_0000],
        0,
        Why::WritesR10,
    ),
    (&[EXIT, 0x1500_0100_0000_0000], 1, Why::JumpOut),
    (&[WIDE_R0, 0, 0x1500_feff_0000_0000], 2, Why::JumpInside),
    (&[EXIT, 0xb70a_0000_0000_0000], 1, Why::WritesR10),
    // R10 is loaded, fetched into, or exchanged.
    (&[0x791a_0000_0000_0000, EXIT], 0, Why::WritesR10),
    (&[0x911a_0000_0000_0000, EXIT], 0, Why::WritesR10),
    (&[0xdba1_0000_0100_0000, EXIT], 0, Why::WritesR10),
    (&[0xc3a1_0000_a100_0000, EXIT], 0, Why::WritesR10),
    (&[0xdba1_0000_e100_0000, EXIT], 0, Why::WritesR10),
    // Helper functions have the numbers 1 to 4.
    (&[0x8500_0000_0500_0000, EXIT], 0, Why::Helper),
    (&[EXIT, 0x8500_0000_0000_0000, EXIT], 1, Why::Helper),
    (&[0x8500_0000_ffff_ffff, EXIT], 0, Why::Helper),
    (&[0x8500_0000_0101_0000, EXIT], 0, Why::Helper),
    (&[EXIT, 0x8500_0000_0500_0000], 1, Why::Helper),
    (&[EXIT, 0x8500_0000_0100_0000], 1, Why::FallsOff),
    // A wide instruction at the end is named by its first slot.
    (&[MOV_R0_7, WIDE_R0, 0], 1, Why::FallsOff),
    (&[0x180a_0000_0000_0000, 0, EXIT], 0, Why::WritesR10),
    (&[0xdc0a_0000_1000_0000, EXIT], 0, Why::WritesR10),
    (&[0x0500_feff_0000_0000, EXIT], 0, Why::JumpOut),
    (&[0x0600_0000_ffff_ff7f, EXIT], 0, Why::JumpOut),
    (&[0x8510_0000_0100_0000, EXIT], 0, Why::JumpOut),
    (&[EXIT, 0x8510_0000_feff_ffff], 1, Why::FallsOff),
];

#[test]
fn refuses(rt: HostRuntime) -> Result<(), Fail> {
    for &(slots, slot, why) in REFUSED {
        same!(rt; refusal(rt.alloc(), slots)?, Some(LoadError { slot, why }), slots);
    }
    Ok(())
}

#[test]
fn refuses_a_part_of_a_slot(rt: HostRuntime) {
    let at = |slot, why| Some(LoadError { slot, why });
    let short = Why::Decoder(Fault::Short);
    let longer = [0x95, 0, 0, 0, 0, 0, 0, 0, 0x95];
    same!(rt; load(rt.alloc(), &[0x95, 0]).err(), at(0, short));
    same!(rt; load(rt.alloc(), &longer).err(), at(1, short));
    same!(rt; load(rt.alloc(), &[]).err(), at(0, Why::Empty));
}

/// A loop, a jump to the last slot, and calls of the first and the last slot; the four helper functions; and what
/// reads R10 or the memory there: a store, an addition, an atomic operation, and a compare-exchange, which writes R0.
const VALID: &[&[u64]] = &[
    &[0x0500_ffff_0000_0000],
    &[0x1500_0100_0000_0000, MOV_R0_7, EXIT],
    &[0x8510_0000_ffff_ffff, EXIT],
    &[0x8510_0000_0100_0000, EXIT, EXIT],
    &[
        0x8500_0000_0100_0000,
        0x8500_0000_0200_0000,
        0x8500_0000_0300_0000,
        0x8500_0000_0400_0000,
        EXIT,
    ],
    &[0x7b1a_f8ff_0000_0000, 0x7ba1_0000_0000_0000, EXIT],
    &[0xdb1a_f8ff_0100_0000, EXIT],
    &[0xdba1_0000_0000_0000, EXIT],
    &[0xdba1_0000_f100_0000, EXIT],
];

#[test]
fn takes_valid_code(rt: HostRuntime) -> Result<(), Fail> {
    for &slots in VALID {
        let bytes = bytes_of(rt.alloc(), slots)?;
        let program = load(rt.alloc(), bytes.as_slice())?;
        same!(rt; program.slots(), slots.len(), slots);
    }
    Ok(())
}

#[test]
fn answers_instructions_by_slot(rt: HostRuntime) -> Result<(), Fail> {
    let bytes = bytes_of(
        rt.alloc(),
        &[WIDE_R0, 0x0000_0000_0000_0080, MOV_R0_7, EXIT],
    )?;
    let program = load(rt.alloc(), bytes.as_slice())?;
    let wide = Instr::LoadImm64 {
        dst: Reg::R0,
        value: 1 << 63,
    };
    let mov = Instr::Alu {
        width: Width::W64,
        op: Binary::Mov,
        dst: Reg::R0,
        src: Operand::Imm(7),
    };
    same!(rt; program.slots(), 4);
    same!(rt; program.at(0), Some(wide));
    same!(rt; program.at(1), None);
    same!(rt; program.at(2), Some(mov));
    same!(rt; program.at(3), Some(Instr::Exit));
    same!(rt; program.at(4), None);
    Ok(())
}

#[test]
fn takes_no_more_than_4096_slots(rt: HostRuntime) -> Result<(), Fail> {
    let mut bytes = Vec::new(rt.alloc());
    for _ in 0..4096 {
        bytes.extend_from_slice(&EXIT.to_be_bytes())?;
    }
    same!(rt; bytes.len(), CODE_LIMIT);
    same!(rt; load(rt.alloc(), bytes.as_slice())?.slots(), 4096);
    let too_long = Some(LoadError {
        slot: 0,
        why: Why::TooLong,
    });
    bytes.push(0)?;
    same!(rt; load(rt.alloc(), bytes.as_slice()).err(), too_long);
    bytes.extend_from_slice(&[0, 0, 0, 0, 0, 0, 0])?;
    same!(rt; load(rt.alloc(), bytes.as_slice()).err(), too_long);
    Ok(())
}

/// Each reason, its number, and its name.
const REASONS: &[(Why, u8, &str)] = &[
    (Why::Decoder(Fault::Opcode), 1, "Opcode"),
    (Why::Decoder(Fault::Register), 2, "Register"),
    (Why::Decoder(Fault::Field), 3, "Field"),
    (Why::Decoder(Fault::HalfWide), 4, "HalfWide"),
    (Why::Decoder(Fault::Packet), 5, "Packet"),
    (Why::Decoder(Fault::Platform), 6, "Platform"),
    (Why::Decoder(Fault::Short), 7, "Short"),
    (Why::Empty, 8, "Empty"),
    (Why::TooLong, 9, "TooLong"),
    (Why::JumpOut, 10, "JumpOut"),
    (Why::JumpInside, 11, "JumpInside"),
    (Why::WritesR10, 12, "WritesR10"),
    (Why::Helper, 13, "Helper"),
    (Why::FallsOff, 14, "FallsOff"),
    (Why::Memory, 15, "Memory"),
];

#[test]
fn reasons_have_numbers_names_and_texts(rt: HostRuntime) -> Result<(), Fail> {
    for &(why, number, name) in REASONS {
        same!(rt; (why.number(), why.name()), (number, name.as_bytes()));
        same!(rt; format!(in rt.alloc(); "{why}")?.as_str(), name);
    }
    let error = LoadError {
        slot: 4095,
        why: Why::FallsOff,
    };
    same!(rt; format!(in rt.alloc(); "{error}")?.as_str(), "slot 4095: FallsOff");
    Ok(())
}
