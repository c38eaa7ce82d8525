//! Loads and stores, in objects and on the stack.

use crate::acts::{Act, Answer, OUTSIDE, RAN, Show, first_eight, tells};
use crate::common::{EXIT, OBJECT, STACK, first_step, machine_of, step, store_of};
use crate::compared::same;
use crate::grants::May;
use isa_table::Size;
use machine::{Stepped, Stop, Written};
use object_store::Moved;
use std::alloc::Global;
use std::process::Abort;
use std::test::Fail;

const OUT: Stepped = Stepped::Stopped(Stop::Outside);

/// r0 = the eight bytes at r1 plus 1.
const LOAD_AT_1: u64 = 0x7910_0100_0000_0000;

const OVER_THE_LAST: &[(Act, Answer)] = &[
    (Act::Object([1, 2, 3, 4, 5, 6, 7, 8]), Answer::Done),
    (
        Act::Start(10, [OBJECT, 0, 0, 0, 0], &[LOAD_AT_1, EXIT]),
        Answer::Done,
    ),
    (Act::Step, OUTSIDE),
    (
        Act::Show(Show::Point),
        Answer::Point(0, 10, Some(Stop::Outside)),
    ),
    (Act::Show(Show::Register(0)), Answer::Register(0)),
    (Act::Show(Show::Register(1)), Answer::Register(OBJECT)),
    (Act::Step, OUTSIDE),
    (
        Act::Show(Show::Point),
        Answer::Point(0, 10, Some(Stop::Outside)),
    ),
    (Act::Show(Show::Register(0)), Answer::Register(0)),
    (Act::Show(Show::Register(1)), Answer::Register(OBJECT)),
    // stxdw [r1+1], r2 writes none of its bytes.
    (
        Act::First(May::All, [OBJECT, 9], 0x7b21_0100_0000_0000),
        OUTSIDE,
    ),
    (Act::Bytes(1), Answer::Bytes([1, 2, 3, 4, 5, 6, 7, 8])),
];

#[test]
fn an_access_over_the_last_byte_changes_nothing(rt: HostRuntime) -> Result<(), Fail> {
    tells(&rt, rt.alloc(), OVER_THE_LAST)
}

/// A load of R0 at r1, and what it gives over the bytes f1 82 73 84 65 86 77 88.
const LOADS: &[(u64, u64)] = &[
    (0x7110_0000_0000_0000, 0xf1),
    (0x6910_0000_0000_0000, 0x82f1),
    (0x6110_0000_0000_0000, 0x8473_82f1),
    (0x7910_0000_0000_0000, 0x8877_8665_8473_82f1),
    (0x9110_0000_0000_0000, 0xffff_ffff_ffff_fff1),
    (0x8910_0000_0000_0000, 0xffff_ffff_ffff_82f1),
    (0x8110_0000_0000_0000, 0xffff_ffff_8473_82f1),
];

/// What a load at object 1 and EXIT answer, and the object's bytes after them.
fn loaded(alloc: Global, bytes: [u8; 8], load: u64) -> Result<(Stepped, Stepped, [u8; 8]), Fail> {
    let mut store = store_of(alloc, bytes)?;
    let mut machine = machine_of(alloc, 10, [OBJECT, 0, 0, 0, 0], &[load, EXIT])?;
    let first = step(&mut machine, &mut store);
    let second = step(&mut machine, &mut store);
    Ok((first, second, first_eight(store.get(1, 0, 8)?.as_slice())))
}

/// Each load over these bytes gives R0 this value, and changes none of them.
fn gives(rt: &impl Abort, alloc: Global, bytes: [u8; 8], loads: &[(u64, u64)]) -> Result<(), Fail> {
    for &(load, value) in loads {
        let exit = Stepped::Stopped(Stop::Exit(value));
        same!(*rt; loaded(alloc, bytes, load)?, (Stepped::Ran(None), exit, bytes), load);
    }
    Ok(())
}

#[test]
fn loads_of_each_size(rt: HostRuntime) -> Result<(), Fail> {
    let bytes = [0xf1, 0x82, 0x73, 0x84, 0x65, 0x86, 0x77, 0x88];
    gives(&rt, rt.alloc(), bytes, LOADS)
}

/// ldxsb, ldxsh, ldxsw at r1 plus 1, and what they give over bytes whose sign bits are clear.
const POSITIVE_LOADS: &[(u64, u64)] = &[
    (0x9110_0100_0000_0000, 0x02),
    (0x8910_0100_0000_0000, 0x0302),
    (0x8110_0100_0000_0000, 0x0504_0302),
];

#[test]
fn loads_of_positive_numbers_with_sign(rt: HostRuntime) -> Result<(), Fail> {
    gives(&rt, rt.alloc(), [1, 2, 3, 4, 5, 6, 7, 8], POSITIVE_LOADS)
}

/// A store of -2 or of r2 at r1 plus 1, its size, and the bytes after it.
const STORES: &[(u64, Size, [u8; 8])] = &[
    (
        0x7201_0000_feff_ffff,
        Size::Byte,
        [0xfe, 0, 0, 0, 0, 0, 0, 0],
    ),
    (
        0x6a01_0000_feff_ffff,
        Size::Half,
        [0xfe, 0xff, 0, 0, 0, 0, 0, 0],
    ),
    (
        0x6201_0000_feff_ffff,
        Size::Word,
        [0xfe, 0xff, 0xff, 0xff, 0, 0, 0, 0],
    ),
    (
        0x7a01_0000_feff_ffff,
        Size::Double,
        [0xfe, 0xff, 0xff, 0xff, 0xff, 0xff, 0xff, 0xff],
    ),
    (
        0x7321_0000_0000_0000,
        Size::Byte,
        [0x88, 0, 0, 0, 0, 0, 0, 0],
    ),
    (
        0x6b21_0000_0000_0000,
        Size::Half,
        [0x88, 0x77, 0, 0, 0, 0, 0, 0],
    ),
    (
        0x6321_0000_0000_0000,
        Size::Word,
        [0x88, 0x77, 0x66, 0x55, 0, 0, 0, 0],
    ),
    (
        0x7b21_0000_0000_0000,
        Size::Double,
        [0x88, 0x77, 0x66, 0x55, 0x44, 0x33, 0x22, 0x11],
    ),
];

/// What a store at object 1, which is all zeros, answers, and the object's bytes after it.
fn stored(alloc: Global, slot: u64) -> Result<(Stepped, [u8; 8]), Fail> {
    let mut store = store_of(alloc, [0; 8])?;
    let told = first_step(alloc, &mut store, OBJECT, 0x1122_3344_5566_7788, slot)?;
    Ok((told, first_eight(store.get(1, 0, 8)?.as_slice())))
}

#[test]
fn stores_of_each_size(rt: HostRuntime) -> Result<(), Fail> {
    for &(slot, size, bytes) in STORES {
        let written = Written {
            number: 1,
            offset: 0,
            size,
        };
        let wanted = (Stepped::Ran(Some(written)), bytes);
        same!(rt; stored(rt.alloc(), slot)?, wanted, slot);
    }
    Ok(())
}

/// Loads of 1, 2, 4 and 8 bytes at r1.
const PLAIN_LOADS: &[(u64, u64)] = &[
    (0x7110_0000_0000_0000, 1),
    (0x6910_0000_0000_0000, 2),
    (0x6110_0000_0000_0000, 4),
    (0x7910_0000_0000_0000, 8),
];

/// What a load of a size answers at the last place before an end, and at the place after that.
fn loaded_at_the_end(
    alloc: Global,
    end: u64,
    load: u64,
    size: u64,
) -> Result<(Stepped, Stepped), Fail> {
    let mut store = store_of(alloc, [0; 8])?;
    let last = end.wrapping_sub(size);
    let inside = first_step(alloc, &mut store, last, 0, load)?;
    let over = first_step(alloc, &mut store, last.wrapping_add(1), 0, load)?;
    Ok((inside, over))
}

#[test]
fn the_last_byte(rt: HostRuntime) -> Result<(), Fail> {
    for &(load, size) in PLAIN_LOADS {
        for &end in &[OBJECT + 8, STACK + 4096] {
            let found = loaded_at_the_end(rt.alloc(), end, load, size)?;
            same!(rt; found, (Stepped::Ran(None), OUT), (load, end));
        }
    }
    Ok(())
}

/// A load of a byte at r1 plus 1.
const NEXT: u64 = 0x7110_0100_0000_0000;

/// A load of a byte at r1 minus 1.
const LAST: u64 = 0x7110_ffff_0000_0000;

const MODULO: &[(Act, Answer)] = &[
    // Object 1 has eight bytes.
    (Act::Object([0; 8]), Answer::Done),
    // address 0
    (
        Act::First(May::All, [0xffff_ffff_ffff_ffff, 0], NEXT),
        OUTSIDE,
    ),
    // the last of all addresses, which the stack doesn't reach
    (Act::First(May::All, [0, 0], LAST), OUTSIDE),
    // from object 0 to object 1, and back
    (Act::First(May::All, [0x0000_0000_ffff_ffff, 0], NEXT), RAN),
    (Act::First(May::All, [OBJECT, 0], LAST), OUTSIDE),
    // from object 1 to object 2
    (
        Act::First(May::All, [0x0000_0001_ffff_ffff, 0], NEXT),
        OUTSIDE,
    ),
    // within object 1
    (Act::First(May::All, [0x0000_0001_0000_0006, 0], NEXT), RAN),
    (
        Act::First(May::All, [0x0000_0001_0000_0007, 0], NEXT),
        OUTSIDE,
    ),
    (Act::First(May::All, [0x0000_0001_0000_0008, 0], LAST), RAN),
];

#[test]
fn addresses_are_taken_modulo_two_to_the_64(rt: HostRuntime) -> Result<(), Fail> {
    tells(&rt, rt.alloc(), MODULO)
}

/// A load of a byte at r1.
const LOAD: u64 = 0x7110_0000_0000_0000;

const NO_OBJECT: &[(Act, Answer)] = &[
    (Act::Object([0; 8]), Answer::Done),
    // 0, 2, 1024, 1025 and 0xfffffffe
    (Act::First(May::All, [0, 0], LOAD), OUTSIDE),
    (
        Act::First(May::All, [0x0000_0002_0000_0000, 0], LOAD),
        OUTSIDE,
    ),
    (
        Act::First(May::All, [0x0000_0400_0000_0000, 0], LOAD),
        OUTSIDE,
    ),
    (
        Act::First(May::All, [0x0000_0401_0000_0000, 0], LOAD),
        OUTSIDE,
    ),
    (
        Act::First(May::All, [0xffff_fffe_0000_0000, 0], LOAD),
        OUTSIDE,
    ),
    (Act::First(May::All, [OBJECT, 0], LOAD), RAN),
    (Act::Free(1), Answer::Moved(Moved::Done)),
    (Act::First(May::All, [OBJECT, 0], LOAD), OUTSIDE),
];

#[test]
fn numbers_that_are_no_object(rt: HostRuntime) -> Result<(), Fail> {
    tells(&rt, rt.alloc(), NO_OBJECT)
}

/// stw [r10-4], -1; ldxsw r0, [r10-4]; exit
const STACK_SLOTS: &[u64] = &[0x620a_fcff_ffff_ffff, 0x81a0_fcff_0000_0000, EXIT];

const ON_THE_STACK: &[(Act, Answer)] = &[
    (Act::Start(10, [0; 5], STACK_SLOTS), Answer::Done),
    (
        Act::Show(Show::IsStackClear),
        Answer::StackClear(4096, true),
    ),
    (
        Act::Step,
        Answer::Stepped(Stepped::Ran(Some(Written {
            number: 0xffff_ffff,
            offset: 4092,
            size: Size::Word,
        }))),
    ),
    (Act::Step, RAN),
    (
        Act::Step,
        Answer::Stepped(Stepped::Stopped(Stop::Exit(0xffff_ffff_ffff_ffff))),
    ),
    (
        Act::Show(Show::Stack(4088)),
        Answer::Stack(4096, [0, 0, 0, 0, 0xff, 0xff, 0xff, 0xff]),
    ),
    // While this one is there, another has a stack of its own.
    (Act::Swap, Answer::Done),
    (Act::Start(10, [0; 5], STACK_SLOTS), Answer::Done),
    (
        Act::Show(Show::IsStackClear),
        Answer::StackClear(4096, true),
    ),
];

#[test]
fn the_stack_is_the_machine_s_own(rt: HostRuntime) -> Result<(), Fail> {
    tells(&rt, rt.alloc(), ON_THE_STACK)
}

const TWO_MACHINES: &[(Act, Answer)] = &[
    (Act::Object([0; 8]), Answer::Done),
    // ldxb r0, [r1+2] in one
    (
        Act::Granted(May::All, [OBJECT, 0], 0x7110_0200_0000_0000),
        Answer::Done,
    ),
    (Act::Swap, Answer::Done),
    // stxb [r1+2], r2 in the other
    (
        Act::First(May::All, [OBJECT, 5], 0x7321_0200_0000_0000),
        Answer::Stepped(Stepped::Ran(Some(Written {
            number: 1,
            offset: 2,
            size: Size::Byte,
        }))),
    ),
    (Act::Swap, Answer::Done),
    (Act::Step, RAN),
    (Act::Show(Show::Register(0)), Answer::Register(5)),
];

#[test]
fn two_machines_reach_one_object(rt: HostRuntime) -> Result<(), Fail> {
    tells(&rt, rt.alloc(), TWO_MACHINES)
}
