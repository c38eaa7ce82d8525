//! Atomic operations, of both widths, in objects and on the stack.

use crate::acts::{Act, Answer, MISALIGNED, OUTSIDE, RAN, Show, first_eight, tells};
use crate::common::{EXIT, OBJECT, STACK, first_step, machine_of, objects, runs, step, store_of};
use crate::compared::same;
use crate::grants::May;
use far_store::OwnStore;
use isa_table::Size;
use machine::{Machine, Stepped, Stop, Written};
use object_store::ObjectStore;
use std::alloc::Global;
use std::process::Abort;
use std::test::Fail;

/// What R2 is.
const SOURCE: u64 = 0xaaaa_aaaa_1234_5678;

/// What the eight bytes are before, as a number.
const OLD: u64 = 0x8000_0001_f000_000f;

/// An operation as the imm field has it, R0 before it, and what it leaves: the eight bytes as a number, R2 and R0.
type Case = (u64, u64, (u64, u64, u64));

/// The ten operations as the imm field has them.
const OPERATIONS: &[u64] = &[0x00, 0x40, 0x50, 0xa0, 0x01, 0x41, 0x51, 0xa1, 0xe1, 0xf1];

/// The operation at [r1 + 8] with r2; 32 bits wide, or 64.
fn slot_of(operation: u64, double: bool) -> u64 {
    let opcode = if double {
        0xdb21_0800_0000_0000
    } else {
        0xc321_0800_0000_0000
    };
    opcode | (operation & 0xff) << 24
}

/// A machine that stores r3 at [r1 + 8], moves r4 to r0, does the operation, and loads what is there then into r5.
fn machine_with(
    alloc: Global,
    place: u64,
    src: u64,
    old: u64,
    r0: u64,
    slot: u64,
) -> Result<Machine, Fail> {
    let slots = [
        0x7b31_0800_0000_0000,
        0xbf40_0000_0000_0000,
        slot,
        0x7915_0800_0000_0000,
        EXIT,
    ];
    machine_of(alloc, 10, [place, src, old, r0, 0], &slots)
}

/// What the operation at a place answers, what the load after it answers, and the bytes, R2 and R0 that it leaves.
fn operated(
    alloc: Global,
    place: u64,
    slot: u64,
    r0: u64,
) -> Result<(Stepped, Stepped, (u64, u64, u64)), Fail> {
    let mut store = objects(alloc)?;
    let _ = store.make(16)?;
    let mut machine = machine_with(alloc, place, SOURCE, OLD, r0, slot)?;
    let _ = runs(&mut machine, &mut store, 2);
    let told = step(&mut machine, &mut store);
    let loaded = step(&mut machine, &mut store);
    let registers = machine.registers();
    Ok((told, loaded, (registers[5], registers[2], registers[0])))
}

/// What a step answers that leaves these bytes at a place where OLD was.
fn told_of(place: u64, bytes: u64, double: bool) -> Stepped {
    if bytes == OLD {
        return Stepped::Ran(None);
    }
    Stepped::Ran(Some(Written {
        number: (place >> 32) as u32,
        offset: 8,
        size: if double { Size::Double } else { Size::Word },
    }))
}

/// Each operation leaves what its row says, in the object and on the stack.
fn leaves(rt: &impl Abort, alloc: Global, double: bool, cases: &[Case]) -> Result<(), Fail> {
    for &place in &[OBJECT, STACK] {
        for &(operation, r0, left) in cases {
            let slot = slot_of(operation, double);
            let wanted = (told_of(place, left.0, double), Stepped::Ran(None), left);
            same!(*rt; operated(alloc, place, slot, r0)?, wanted, (place, slot));
        }
    }
    Ok(())
}

const DOUBLES: &[Case] = &[
    (0x00, 7, (0x2aaa_aaac_0234_5687, SOURCE, 7)),
    (0x40, 7, (0xaaaa_aaab_f234_567f, SOURCE, 7)),
    (0x50, 7, (0x8000_0000_1000_0008, SOURCE, 7)),
    (0xa0, 7, (0x2aaa_aaab_e234_5677, SOURCE, 7)),
    (0x01, 7, (0x2aaa_aaac_0234_5687, OLD, 7)),
    (0x41, 7, (0xaaaa_aaab_f234_567f, OLD, 7)),
    (0x51, 7, (0x8000_0000_1000_0008, OLD, 7)),
    (0xa1, 7, (0x2aaa_aaab_e234_5677, OLD, 7)),
    (0xe1, 7, (SOURCE, OLD, 7)),
    (0xf1, 0xf000_000f, (OLD, SOURCE, OLD)),
    (0xf1, OLD, (SOURCE, SOURCE, OLD)),
];

#[test]
fn operations_of_64_bits(rt: HostRuntime) -> Result<(), Fail> {
    leaves(&rt, rt.alloc(), true, DOUBLES)
}

/// Of the eight bytes the lower four are changed.
const WORDS: &[Case] = &[
    (0x00, 7, (0x8000_0001_0234_5687, SOURCE, 7)),
    (0x40, 7, (0x8000_0001_f234_567f, SOURCE, 7)),
    (0x50, 7, (0x8000_0001_1000_0008, SOURCE, 7)),
    (0xa0, 7, (0x8000_0001_e234_5677, SOURCE, 7)),
    (0x01, 7, (0x8000_0001_0234_5687, 0xf000_000f, 7)),
    (0x41, 7, (0x8000_0001_f234_567f, 0xf000_000f, 7)),
    (0x51, 7, (0x8000_0001_1000_0008, 0xf000_000f, 7)),
    (0xa1, 7, (0x8000_0001_e234_5677, 0xf000_000f, 7)),
    (0xe1, 7, (0x8000_0001_1234_5678, 0xf000_000f, 7)),
    (0xf1, 0xf000_000e, (OLD, SOURCE, 0xf000_000f)),
    // The upper half of R0 isn't compared.
    (
        0xf1,
        0x5555_5555_f000_000f,
        (0x8000_0001_1234_5678, SOURCE, 0xf000_000f),
    ),
];

#[test]
fn operations_of_32_bits(rt: HostRuntime) -> Result<(), Fail> {
    leaves(&rt, rt.alloc(), false, WORDS)
}

/// lddw r0, 0xaaaaaaaa11223344; acmpxchg32 [r1], r2; exit
const EXCHANGE: &[u64] = &[
    0x1800_0000_4433_2211,
    0x0000_0000_aaaa_aaaa,
    0xc321_0000_f100_0000,
    EXIT,
];

/// What a write to object 1 answers.
macro_rules! wrote {
    ($offset:expr, $size:expr) => {
        Answer::Stepped(Stepped::Ran(Some(Written {
            number: 1,
            offset: $offset,
            size: $size,
        })))
    };
}

const EXCHANGED: &[(Act, Answer)] = &[
    (
        Act::Object([0x44, 0x33, 0x22, 0x11, 0, 0, 0, 0]),
        Answer::Done,
    ),
    (
        Act::Start(10, [OBJECT, 0x5566_7788, 0, 0, 0], EXCHANGE),
        Answer::Done,
    ),
    (Act::Step, RAN),
    (Act::Show(Show::Point), Answer::Point(2, 9, None)),
    (Act::Step, wrote!(0, Size::Word)),
    (
        Act::Step,
        Answer::Stepped(Stepped::Stopped(Stop::Exit(0x1122_3344))),
    ),
    (
        Act::Bytes(1),
        Answer::Bytes([0x88, 0x77, 0x66, 0x55, 0, 0, 0, 0]),
    ),
];

#[test]
fn an_exchange_of_words(rt: HostRuntime) -> Result<(), Fail> {
    tells(&rt, rt.alloc(), EXCHANGED)
}

/// At how many of the offsets from 1 up to this one the slot is misaligned.
fn misaligned_before(
    alloc: Global,
    store: &mut ObjectStore<OwnStore>,
    place: u64,
    slot: u64,
    end: u64,
) -> Result<u64, Fail> {
    let mut count = 0u64;
    for offset in 1..end {
        let told = first_step(alloc, store, place.wrapping_add(offset), 0, slot)?;
        if told == Stepped::Stopped(Stop::Misaligned) {
            count = count.saturating_add(1);
        }
    }
    Ok(count)
}

/// At how many of three and of seven offsets behind a place an operation of 32 bits and of 64 bits is misaligned, and the
/// bytes of object 1 after them, which are zeros before.
fn misaligned(alloc: Global, place: u64, operation: u64) -> Result<(u64, u64, [u8; 8]), Fail> {
    let mut store = store_of(alloc, [0; 8])?;
    let words = misaligned_before(alloc, &mut store, place, slot_of(operation, false), 4)?;
    let doubles = misaligned_before(alloc, &mut store, place, slot_of(operation, true), 8)?;
    Ok((words, doubles, first_eight(store.get(1, 0, 8)?.as_slice())))
}

#[test]
fn misaligned_by_the_address_alone(rt: HostRuntime) -> Result<(), Fail> {
    // In an object, on the stack, and at numbers that are no object, where an aligned one would be outside.
    for &place in &[OBJECT, STACK, 0, 0x0000_0401_0000_0000] {
        for &operation in OPERATIONS {
            let found = misaligned(rt.alloc(), place, operation)?;
            same!(rt; found, (3, 7, [0; 8]), (place, operation));
        }
    }
    Ok(())
}

/// aadd [r1+4], r2
const ADD: u64 = 0xdb21_0400_0000_0000;

/// aadd32 [r1+4], r2
const ADD32: u64 = 0xc321_0400_0000_0000;

/// stxdw [r1+4], r2
const STORE: u64 = 0x7b21_0400_0000_0000;

const OFFSETS: &[(Act, Answer)] = &[
    (Act::Make(16), Answer::Made(1)),
    (Act::First(May::All, [OBJECT, 1], ADD), MISALIGNED),
    (
        Act::First(May::All, [OBJECT, 1], STORE),
        wrote!(4, Size::Double),
    ),
    (
        Act::First(May::All, [OBJECT, 1], ADD32),
        wrote!(4, Size::Word),
    ),
    (
        Act::First(May::All, [OBJECT + 4, 1], ADD),
        wrote!(8, Size::Double),
    ),
];

#[test]
fn the_offset_of_the_address_is_aligned_not_that_of_the_instruction(
    rt: HostRuntime,
) -> Result<(), Fail> {
    tells(&rt, rt.alloc(), OFFSETS)
}

const ALIGNED: &[(Act, Answer)] = &[
    (Act::Object([0; 8]), Answer::Done),
    // aadd [r1+8], r2, and aadd32
    (
        Act::First(May::All, [OBJECT, 0], 0xdb21_0800_0000_0000),
        OUTSIDE,
    ),
    (
        Act::First(May::All, [OBJECT, 0], 0xc321_0800_0000_0000),
        OUTSIDE,
    ),
    (
        Act::First(May::All, [STACK + 4088, 0], 0xdb21_0800_0000_0000),
        OUTSIDE,
    ),
    // acmpxchg [r1+8], r2
    (
        Act::First(May::All, [0x0000_0401_0000_0000, 0], 0xdb21_0800_f100_0000),
        OUTSIDE,
    ),
];

#[test]
fn an_aligned_one_may_be_outside(rt: HostRuntime) -> Result<(), Fail> {
    tells(&rt, rt.alloc(), ALIGNED)
}
