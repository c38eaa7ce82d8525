//! Conversations with objects, each a run of a new world.

use crate::common::{EXIT, FIRST, STACK_TOP, Say, Told, runs};
use machine::Stop;
use std::test::Fail;
use world::{ShowCommand, Shown, State};

/// The arguments of a machine that is given the address of object 1 alone.
const ADDRESS: [u64; 5] = [FIRST, 0, 0, 0, 0];

/// A machine that stopped outside at its first slot.
const OUTSIDE: Shown = Shown {
    slot: 0,
    fuel: 10,
    state: State::Stopped(Stop::Outside),
    registers: [0, FIRST, 0, 0, 0, 0, 0, 0, 0, 0, STACK_TOP],
};

const OVER_THE_LAST: &[(Say, Told)] = &[
    (Say::Make(8), Told::Made(1)),
    (
        Say::Ship(10, ADDRESS, &[0x7910_0100_0000_0000, EXIT]),
        Told::Shipped(1),
    ),
    (Say::Step(1), Told::Stopped(1, Stop::Outside)),
    (Say::Show(1, ShowCommand::Regs), Told::Registers(1, OUTSIDE)),
];

#[test]
fn a_load_over_the_last_byte_is_outside(rt: HostRuntime) -> Result<(), Fail> {
    runs(&rt, rt.alloc(), OVER_THE_LAST)?;
    Ok(())
}

const LOADED: &[(Say, Told)] = &[
    (Say::Make(8), Told::Made(1)),
    (Say::Put(1, 0, &[1, 2, 3, 4, 5, 6, 7, 8]), Told::Done),
    (
        Say::Ship(10, ADDRESS, &[0x7910_0000_0000_0000, EXIT]),
        Told::Shipped(1),
    ),
    (Say::Step(1), Told::Ran(1, 1)),
    (
        Say::Step(1),
        Told::Stopped(1, Stop::Exit(0x0807_0605_0403_0201)),
    ),
];

#[test]
fn a_machine_loads_what_was_put(rt: HostRuntime) -> Result<(), Fail> {
    runs(&rt, rt.alloc(), LOADED)?;
    Ok(())
}

const LOW_HALVES: &[(Say, Told)] = &[
    (Say::Make(8), Told::Made(1)),
    (Say::Put(1, 0, &[0x44, 0x33, 0x22, 0x11]), Told::Done),
    (
        Say::Ship(
            10,
            [FIRST, 0x5566_7788, 0, 0, 0],
            &[
                0x1800_0000_4433_2211,
                0x0000_0000_aaaa_aaaa,
                0xc321_0000_f100_0000,
                EXIT,
            ],
        ),
        Told::Shipped(1),
    ),
    (Say::Step(1), Told::Ran(1, 2)),
    (Say::Step(1), Told::Ran(1, 3)),
    (Say::Step(1), Told::Stopped(1, Stop::Exit(0x1122_3344))),
    (
        Say::Get(1, 0, 8),
        Told::Bytes(&[0x88, 0x77, 0x66, 0x55, 0, 0, 0, 0]),
    ),
];

#[test]
fn a_32_bit_exchange_compares_low_halves(rt: HostRuntime) -> Result<(), Fail> {
    runs(&rt, rt.alloc(), LOW_HALVES)?;
    Ok(())
}

const OLD_VALUE: &[(Say, Told)] = &[
    (Say::Make(8), Told::Made(1)),
    (Say::Put(1, 0, &[9]), Told::Done),
    (
        Say::Ship(
            10,
            [FIRST, 5, 0, 0, 0],
            &[0xdb21_0000_e100_0000, 0xbf20_0000_0000_0000, EXIT],
        ),
        Told::Shipped(1),
    ),
    (Say::Step(1), Told::Ran(1, 1)),
    (Say::Step(1), Told::Ran(1, 2)),
    (Say::Step(1), Told::Stopped(1, Stop::Exit(9))),
    (Say::Get(1, 0, 8), Told::Bytes(&[5, 0, 0, 0, 0, 0, 0, 0])),
];

#[test]
fn an_exchange_takes_the_old_value(rt: HostRuntime) -> Result<(), Fail> {
    runs(&rt, rt.alloc(), OLD_VALUE)?;
    Ok(())
}

const ALIGNED: &[(Say, Told)] = &[
    (Say::Make(16), Told::Made(1)),
    (
        Say::Ship(10, ADDRESS, &[0xdb21_0400_0000_0000, EXIT]),
        Told::Shipped(1),
    ),
    (
        Say::Ship(10, ADDRESS, &[0x7b21_0400_0000_0000, EXIT]),
        Told::Shipped(2),
    ),
    (Say::Step(1), Told::Stopped(1, Stop::Misaligned)),
    (Say::Step(2), Told::Ran(2, 1)),
];

#[test]
fn an_atomic_operation_is_aligned_and_a_store_need_not_be(rt: HostRuntime) -> Result<(), Fail> {
    runs(&rt, rt.alloc(), ALIGNED)?;
    Ok(())
}

const BOTH_ADD: &[(Say, Told)] = &[
    (Say::Make(8), Told::Made(1)),
    (
        Say::Ship(
            10,
            [FIRST, 1, 0, 0, 0],
            &[0xdb21_0000_0000_0000, 0xdb21_0000_0000_0000, EXIT],
        ),
        Told::Shipped(1),
    ),
    (
        Say::Ship(
            10,
            [FIRST, 1, 0, 0, 0],
            &[0xdb21_0000_0000_0000, 0xdb21_0000_0000_0000, EXIT],
        ),
        Told::Shipped(2),
    ),
    (Say::Step(1), Told::Ran(1, 1)),
    (Say::Step(2), Told::Ran(2, 1)),
    (Say::Step(2), Told::Ran(2, 2)),
    (Say::Step(1), Told::Ran(1, 2)),
    (Say::Step(1), Told::Stopped(1, Stop::Exit(0))),
    (Say::Step(2), Told::Stopped(2, Stop::Exit(0))),
    (Say::Get(1, 0, 8), Told::Bytes(&[4, 0, 0, 0, 0, 0, 0, 0])),
];

#[test]
fn two_machines_add_to_one_object(rt: HostRuntime) -> Result<(), Fail> {
    runs(&rt, rt.alloc(), BOTH_ADD)?;
    Ok(())
}

const STORED: &[(Say, Told)] = &[
    (Say::Make(8), Told::Made(1)),
    (
        Say::Ship(10, [FIRST, 5, 0, 0, 0], &[0x7321_0200_0000_0000, EXIT]),
        Told::Shipped(1),
    ),
    (Say::Step(1), Told::Ran(1, 1)),
    (Say::Step(1), Told::Stopped(1, Stop::Exit(0))),
    (Say::Get(1, 0, 4), Told::Bytes(&[0, 0, 5, 0])),
];

#[test]
fn a_stored_byte_is_shown(rt: HostRuntime) -> Result<(), Fail> {
    runs(&rt, rt.alloc(), STORED)?;
    Ok(())
}

const STACK: &[(Say, Told)] = &[
    (
        Say::Ship(
            10,
            [0; 5],
            &[0x620a_fcff_ffff_ffff, 0x81a0_fcff_0000_0000, EXIT],
        ),
        Told::Shipped(1),
    ),
    (Say::Step(1), Told::Ran(1, 1)),
    (Say::Step(1), Told::Ran(1, 2)),
    (Say::Step(1), Told::Stopped(1, Stop::Exit(u64::MAX))),
    (
        Say::Show(
            1,
            ShowCommand::Stack {
                offset: 4092,
                length: 4,
            },
        ),
        Told::Bytes(&[0xff, 0xff, 0xff, 0xff]),
    ),
    (
        Say::Show(
            1,
            ShowCommand::Stack {
                offset: 4093,
                length: 4,
            },
        ),
        Told::Outside,
    ),
    (
        Say::Show(
            1,
            ShowCommand::Stack {
                offset: 4095,
                length: 1,
            },
        ),
        Told::Bytes(&[0xff]),
    ),
    (
        Say::Show(
            2,
            ShowCommand::Stack {
                offset: 0,
                length: 1,
            },
        ),
        Told::Missing,
    ),
];

#[test]
fn a_stack_is_shown(rt: HostRuntime) -> Result<(), Fail> {
    runs(&rt, rt.alloc(), STACK)?;
    Ok(())
}

const EMITTED: &[(Say, Told)] = &[
    (
        Say::Ship(
            10,
            [0; 5],
            &[0xb701_0000_0500_0000, 0x8500_0000_0300_0000, EXIT],
        ),
        Told::Shipped(1),
    ),
    (Say::Show(1, ShowCommand::Out), Told::Emitted(1, &[])),
    (Say::Step(1), Told::Ran(1, 1)),
    (Say::Step(1), Told::Ran(1, 2)),
    (Say::Show(1, ShowCommand::Out), Told::Emitted(1, &[5])),
    (Say::Show(2, ShowCommand::Out), Told::Missing),
];

#[test]
fn emitted_values_are_shown(rt: HostRuntime) -> Result<(), Fail> {
    runs(&rt, rt.alloc(), EMITTED)?;
    Ok(())
}
