//! Machines that are debugged.

use crate::common::{EXIT, FIRST, STACK_TOP, Say, Told, new_tells};
use machine::Stop;
use std::test::Fail;
use world::{DebugCommand, ShowCommand, Shown, State};

/// The arguments of a machine that is given the address of object 1 alone.
const ADDRESS: [u64; 5] = [FIRST, 0, 0, 0, 0];

const RESUME: Say = Say::Debug(1, DebugCommand::Resume);

// A constant's value may hold no call.
macro_rules! of_range {
    ($command:ident, $address:expr, $length:expr) => {
        Say::Debug(
            1,
            DebugCommand::$command {
                address: $address,
                length: $length,
            },
        )
    };
}

/// The machine after two instructions, with 8 in R0.
const EIGHT: Shown = Shown {
    slot: 2,
    fuel: 8,
    state: State::Paused,
    registers: [8, FIRST, 0, 0, 0, 0, 0, 0, 0, 0, STACK_TOP],
};

/// The same where it isn't paused.
const EIGHT_RUNNING: Shown = Shown {
    slot: 2,
    fuel: 8,
    state: State::Running,
    registers: [8, FIRST, 0, 0, 0, 0, 0, 0, 0, 0, STACK_TOP],
};

/// `mov r0, 7; add r0, 1`
const PAUSES: &[(Say, Told)] = &[
    (Say::Make(8), Told::Made(1)),
    (
        Say::Ship(
            10,
            ADDRESS,
            &[0xb700_0000_0700_0000, 0x0700_0000_0100_0000, EXIT],
        ),
        Told::Shipped(1),
    ),
    (Say::Debug(1, DebugCommand::Break { slot: 1 }), Told::Done),
    (RESUME, Told::NotPaused),
    (Say::Step(1), Told::Ran(1, 1)),
    (Say::Step(1), Told::Paused(1, 1)),
    (Say::Step(1), Told::Paused(1, 1)),
    (Say::One(1), Told::Ran(1, 2)),
    (Say::Show(1, ShowCommand::Regs), Told::Registers(1, EIGHT)),
    (Say::Step(1), Told::Paused(1, 2)),
    (RESUME, Told::Done),
    (
        Say::Show(1, ShowCommand::Regs),
        Told::Registers(1, EIGHT_RUNNING),
    ),
    (Say::Step(1), Told::Stopped(1, Stop::Exit(8))),
    (Say::One(1), Told::Stopped(1, Stop::Exit(8))),
];

#[test]
fn a_machine_pauses_at_a_breakpoint(rt: HostRuntime) -> Result<(), Fail> {
    new_tells(&rt, rt.alloc(), PAUSES)?;
    Ok(())
}

/// `ja -1`
const PASSED_ONCE: &[(Say, Told)] = &[
    (Say::Make(8), Told::Made(1)),
    (
        Say::Ship(10, ADDRESS, &[0x0500_ffff_0000_0000]),
        Told::Shipped(1),
    ),
    (Say::Debug(1, DebugCommand::Break { slot: 0 }), Told::Done),
    (Say::Step(1), Told::Paused(1, 0)),
    (RESUME, Told::Done),
    (Say::Step(1), Told::Ran(1, 0)),
    (Say::Step(1), Told::Paused(1, 0)),
    (Say::Debug(1, DebugCommand::Unbreak { slot: 0 }), Told::Done),
    (Say::Step(1), Told::Paused(1, 0)),
    (RESUME, Told::Done),
    (Say::Step(1), Told::Ran(1, 0)),
    (Say::Step(1), Told::Ran(1, 0)),
];

#[test]
fn a_breakpoint_is_passed_once(rt: HostRuntime) -> Result<(), Fail> {
    new_tells(&rt, rt.alloc(), PASSED_ONCE)?;
    Ok(())
}

const BEFORE_FUEL: &[(Say, Told)] = &[
    (Say::Ship(0, [0; 5], &[EXIT]), Told::Shipped(1)),
    (Say::Debug(1, DebugCommand::Break { slot: 0 }), Told::Done),
    (Say::Step(1), Told::Paused(1, 0)),
    (Say::One(1), Told::Stopped(1, Stop::Spent)),
    (RESUME, Told::NotPaused),
    (Say::Step(1), Told::Stopped(1, Stop::Spent)),
];

#[test]
fn a_breakpoint_comes_before_fuel(rt: HostRuntime) -> Result<(), Fail> {
    new_tells(&rt, rt.alloc(), BEFORE_FUEL)?;
    Ok(())
}

/// `lddw r0, 0x8000000000000000`
const BEGINNINGS: &[(Say, Told)] = &[
    (Say::Make(8), Told::Made(1)),
    (
        Say::Ship(
            10,
            ADDRESS,
            &[0x1800_0000_0000_0000, 0x0000_0000_0000_0080, EXIT],
        ),
        Told::Shipped(1),
    ),
    (Say::Debug(1, DebugCommand::Break { slot: 1 }), Told::NoSlot),
    (Say::Debug(1, DebugCommand::Break { slot: 3 }), Told::NoSlot),
    (
        Say::Debug(1, DebugCommand::Unbreak { slot: 0 }),
        Told::NoSlot,
    ),
    (Say::Debug(1, DebugCommand::Break { slot: 2 }), Told::Done),
    (
        Say::Debug(2, DebugCommand::Break { slot: 0 }),
        Told::Missing,
    ),
    (Say::Debug(1, DebugCommand::Unbreak { slot: 2 }), Told::Done),
    (
        Say::Debug(1, DebugCommand::Unbreak { slot: 2 }),
        Told::NoSlot,
    ),
];

#[test]
fn breakpoints_are_set_where_instructions_begin(rt: HostRuntime) -> Result<(), Fail> {
    new_tells(&rt, rt.alloc(), BEGINNINGS)?;
    Ok(())
}

/// `stxb [r1+2], r2`
const HIT: &[(Say, Told)] = &[
    (Say::Make(8), Told::Made(1)),
    (
        Say::Ship(10, [FIRST, 5, 0, 0, 0], &[0x7321_0200_0000_0000, EXIT]),
        Told::Shipped(1),
    ),
    (of_range!(Watch, FIRST + 2, 1), Told::Done),
    (Say::Step(1), Told::Hit(1, 1)),
    (Say::Step(1), Told::Paused(1, 1)),
    (Say::Get(1, 0, 4), Told::Bytes(&[0, 0, 5, 0])),
];

#[test]
fn a_write_to_a_watched_byte_is_a_hit(rt: HostRuntime) -> Result<(), Fail> {
    new_tells(&rt, rt.alloc(), HIT)?;
    Ok(())
}

/// `stxb [r1+2], r2`; then `ldxb r0, [r1+1]`
const BESIDE: &[(Say, Told)] = &[
    (Say::Make(8), Told::Made(1)),
    (
        Say::Ship(
            10,
            [FIRST, 5, 0, 0, 0],
            &[0x7321_0200_0000_0000, 0x7110_0100_0000_0000, EXIT],
        ),
        Told::Shipped(1),
    ),
    (of_range!(Watch, FIRST + 1, 1), Told::Done),
    (of_range!(Watch, FIRST + 3, 1), Told::Done),
    (Say::Step(1), Told::Ran(1, 1)),
    (Say::Step(1), Told::Ran(1, 2)),
];

#[test]
fn a_write_beside_a_watched_byte_is_none(rt: HostRuntime) -> Result<(), Fail> {
    new_tells(&rt, rt.alloc(), BESIDE)?;
    Ok(())
}

/// `stw [r10-4], -1`
const STACK: &[(Say, Told)] = &[
    (Say::Make(8), Told::Made(1)),
    (
        Say::Ship(10, ADDRESS, &[0x620a_fcff_ffff_ffff, EXIT]),
        Told::Shipped(1),
    ),
    (of_range!(Watch, STACK_TOP - 4, 4), Told::Done),
    (Say::One(1), Told::Hit(1, 1)),
    (RESUME, Told::Done),
    (Say::Step(1), Told::Stopped(1, Stop::Exit(0))),
];

#[test]
fn a_stack_is_watched(rt: HostRuntime) -> Result<(), Fail> {
    new_tells(&rt, rt.alloc(), STACK)?;
    Ok(())
}

/// `mov r0, 1`; then `acmpxchg [r1], r2`
const EXCHANGE: &[(Say, Told)] = &[
    (Say::Make(8), Told::Made(1)),
    (
        Say::Ship(
            10,
            [FIRST, 5, 0, 0, 0],
            &[0xb700_0000_0100_0000, 0xdb21_0000_f100_0000, EXIT],
        ),
        Told::Shipped(1),
    ),
    (of_range!(Watch, FIRST, 8), Told::Done),
    (Say::Step(1), Told::Ran(1, 1)),
    (Say::Step(1), Told::Ran(1, 2)),
];

#[test]
fn a_failed_exchange_is_no_hit(rt: HostRuntime) -> Result<(), Fail> {
    new_tells(&rt, rt.alloc(), EXCHANGE)?;
    Ok(())
}

const EIGHT_RANGES: &[(Say, Told)] = &[
    (Say::Make(8), Told::Made(1)),
    (Say::Ship(10, ADDRESS, &[EXIT]), Told::Shipped(1)),
    (of_range!(Watch, FIRST, 1), Told::Done),
    (of_range!(Watch, FIRST, 2), Told::Done),
    (of_range!(Watch, FIRST, 3), Told::Done),
    (of_range!(Watch, FIRST, 4), Told::Done),
    (of_range!(Watch, FIRST, 5), Told::Done),
    (of_range!(Watch, FIRST, 6), Told::Done),
    (of_range!(Watch, FIRST, 7), Told::Done),
    (of_range!(Watch, FIRST, 8), Told::Done),
    (of_range!(Watch, FIRST, 9), Told::Full),
    (of_range!(Watch, FIRST, 8), Told::Done),
    (of_range!(Watch, 2 * FIRST - 1, 2), Told::Outside),
    (of_range!(Unwatch, FIRST, 9), Told::NoWatch),
    (of_range!(Unwatch, FIRST, 8), Told::Done),
    (of_range!(Watch, 2 * FIRST - 1, 1), Told::Done),
    (Say::Debug(2, DebugCommand::Resume), Told::Missing),
];

#[test]
fn eight_ranges_are_watched(rt: HostRuntime) -> Result<(), Fail> {
    new_tells(&rt, rt.alloc(), EIGHT_RANGES)?;
    Ok(())
}
