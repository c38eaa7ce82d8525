//! Machines: what they are answered, one command at a time and as a run.

use crate::common::{STACK_TOP, Say, Told, are_told, new_tells, new_world, run_of, runs, tells};
use bpf_codec::Fault;
use loader::{LoadError, Why};
use machine::Stop;
use std::alloc::{AllocError, Global};
use std::test::Fail;
use world::{Reply, ShowCommand, Shown, State};

/// R0 = 7, then EXIT.
const SEVEN: &[u8] = &[0xb7, 0, 0, 0, 7, 0, 0, 0, 0x95, 0, 0, 0, 0, 0, 0, 0];

/// R0 = 7, then EXIT, as slots.
const SEVEN_SLOTS: &[u64] = &[0xb700_0000_0700_0000, 0x9500_0000_0000_0000];

/// EXIT alone.
const EXIT: &[u8] = &[0x95, 0, 0, 0, 0, 0, 0, 0];

const REGS: ShowCommand = ShowCommand::Regs;

const AFTER_SEVEN: Shown = Shown {
    slot: 1,
    fuel: 8,
    state: State::Stopped(Stop::Exit(7)),
    registers: [7, 0, 0, 0, 0, 0, 0, 0, 0, 0, STACK_TOP],
};

const SEVEN_RUN: &[(Say, Told)] = &[
    (Say::Code(10, SEVEN), Told::Shipped(1)),
    (Say::Step(1), Told::Ran(1, 1)),
    (Say::Step(1), Told::Stopped(1, Stop::Exit(7))),
    (Say::Step(1), Told::Stopped(1, Stop::Exit(7))),
    (Say::Show(1, REGS), Told::Registers(1, AFTER_SEVEN)),
];

#[test]
fn a_run_has_the_replies_of_its_commands(rt: HostRuntime) -> Result<(), Fail> {
    runs(&rt, rt.alloc(), SEVEN_RUN)?;
    Ok(())
}

/// The replies of two runs of a new world, behind one that was there.
fn two_runs(
    alloc: Global,
    first: &[(Say, Told)],
    second: &[(Say, Told)],
) -> Result<Vec<Reply>, AllocError> {
    let mut world = new_world(alloc)?;
    let mut replies = vec![in alloc; Reply::Full]?;
    run_of(alloc, &mut world, first, &mut replies)?;
    run_of(alloc, &mut world, second, &mut replies)?;
    Ok(replies)
}

const SHIPPED: &[(Say, Told)] = &[(Say::Code(0, EXIT), Told::Shipped(1))];

const STEPPED: &[(Say, Told)] = &[(Say::Step(1), Told::Stopped(1, Stop::Spent))];

/// What was there, as if it were the reply to a command, and the two runs.
const ALL_TOLD: &[(Say, Told)] = &[
    (Say::Make(1), Told::Full),
    (Say::Code(0, EXIT), Told::Shipped(1)),
    (Say::Step(1), Told::Stopped(1, Stop::Spent)),
];

#[test]
fn a_run_adds_to_the_replies(rt: HostRuntime) -> Result<(), Fail> {
    let replies = two_runs(rt.alloc(), SHIPPED, STEPPED)?;
    are_told(&rt, rt.alloc(), replies.as_slice(), ALL_TOLD)?;
    Ok(())
}

/// After 48 machines. As there is no room, the code is not looked at.
const NO_ROOM: &[(Say, Told)] = &[
    (Say::Code(1, EXIT), Told::Full),
    (Say::Code(1, &[]), Told::Full),
    (Say::Step(48), Told::Stopped(48, Stop::Exit(0))),
    (Say::Step(49), Told::Missing),
];

#[test]
fn the_forty_ninth_machine_is_refused(rt: HostRuntime) -> Result<(), Fail> {
    let mut world = new_world(rt.alloc())?;
    for machine in 1..49usize {
        let shipped = [(Say::Code(1, EXIT), Told::Shipped(machine))];
        tells(&rt, rt.alloc(), &mut world, &shipped)?;
    }
    tells(&rt, rt.alloc(), &mut world, NO_ROOM)?;
    Ok(())
}

/// The code is empty, too long, ends within a slot, and has no end.
const REFUSED: &[(Say, Told)] = &[
    (
        Say::Code(1, &[]),
        Told::Refused(LoadError {
            slot: 0,
            why: Why::Empty,
        }),
    ),
    (Say::Show(1, REGS), Told::Missing),
    (
        Say::Zeros(1, 32_769),
        Told::Refused(LoadError {
            slot: 0,
            why: Why::TooLong,
        }),
    ),
    (Say::Show(1, REGS), Told::Missing),
    (
        Say::Code(1, &[0x95, 0]),
        Told::Refused(LoadError {
            slot: 0,
            why: Why::Decoder(Fault::Short),
        }),
    ),
    (Say::Show(1, REGS), Told::Missing),
    (
        Say::Code(1, &[0xb7, 0, 0, 0, 7, 0, 0, 0]),
        Told::Refused(LoadError {
            slot: 0,
            why: Why::FallsOff,
        }),
    ),
    (Say::Show(1, REGS), Told::Missing),
    (Say::Code(1, EXIT), Told::Shipped(1)),
];

#[test]
fn refused_code_makes_no_machine(rt: HostRuntime) -> Result<(), Fail> {
    new_tells(&rt, rt.alloc(), REFUSED)?;
    Ok(())
}

const NO_MACHINE: &[(Say, Told)] = &[
    (Say::Code(1, EXIT), Told::Shipped(1)),
    (Say::Step(0), Told::Missing),
    (Say::Show(0, REGS), Told::Missing),
    (Say::Step(2), Told::Missing),
    (Say::Show(2, REGS), Told::Missing),
    (Say::Step(48), Told::Missing),
    (Say::Show(48, REGS), Told::Missing),
    (Say::Step(49), Told::Missing),
    (Say::Show(49, REGS), Told::Missing),
    (Say::Step(usize::MAX), Told::Missing),
    (Say::Show(usize::MAX, REGS), Told::Missing),
];

#[test]
fn numbers_without_a_machine(rt: HostRuntime) -> Result<(), Fail> {
    new_tells(&rt, rt.alloc(), NO_MACHINE)?;
    Ok(())
}

/// A machine before its first step, with 5 in R1.
const FIVE: Shown = Shown {
    slot: 0,
    fuel: 2,
    state: State::Running,
    registers: [0, 5, 0, 0, 0, 0, 0, 0, 0, 0, STACK_TOP],
};

const TWO_MACHINES: &[(Say, Told)] = &[
    (Say::Ship(2, [3, 0, 0, 0, 0], SEVEN_SLOTS), Told::Shipped(1)),
    (Say::Ship(2, [5, 0, 0, 0, 0], SEVEN_SLOTS), Told::Shipped(2)),
    (Say::Show(2, REGS), Told::Registers(2, FIVE)),
    (Say::Step(1), Told::Ran(1, 1)),
    (Say::Show(2, REGS), Told::Registers(2, FIVE)),
];

#[test]
fn machines_do_not_touch_each_other(rt: HostRuntime) -> Result<(), Fail> {
    new_tells(&rt, rt.alloc(), TWO_MACHINES)?;
    Ok(())
}
