//! Breakpoints.

use crate::acts::{Act, Answer, DONE, stepped, tells};
use crate::common::{EXIT, MOV, OBJECT};
use debugger::{BREAK_LIMIT, Debugged, State, StepReply};
use machine::Stop;
use std::test::Fail;

/// add r0, 1
const ADD: u64 = 0x0700_0000_0100_0000;

const NOT_PAUSED: Answer = Answer::Debugged(Debugged::NotPaused);

const NO_SLOT: Answer = Answer::Debugged(Debugged::NoSlot);

const FULL: Answer = Answer::Debugged(Debugged::Full);

const SPENT: Answer = stepped!(Stopped Stop::Spent);

const GOES_ON: &[(Act, Answer)] = &[
    (Act::Break(1), DONE),
    (Act::Step, stepped!(Ran 1)),
    (Act::Step, stepped!(Paused 1)),
    (Act::Step, stepped!(Paused 1)),
    (Act::One, stepped!(Ran 2)),
    (Act::Point, Answer::Point(2, 8, State::Paused)),
    (Act::Register(0), Answer::Register(8)),
    (Act::GoOn, DONE),
    (Act::Step, stepped!(Stopped Stop::Exit(8))),
];

#[test]
fn pauses_runs_one_and_goes_on(rt: HostRuntime) -> Result<(), Fail> {
    tells(&rt, rt.alloc(), 10, [0; 5], &[MOV, ADD, EXIT], GOES_ON)
}

const BEFORE_FUEL: &[(Act, Answer)] = &[
    (Act::Break(0), DONE),
    (Act::Step, stepped!(Paused 0)),
    (Act::One, SPENT),
    (Act::GoOn, NOT_PAUSED),
    (Act::Step, SPENT),
    (Act::Breakpoints, Answer::Breakpoints(1, [0; BREAK_LIMIT])),
];

#[test]
fn a_breakpoint_comes_before_fuel(rt: HostRuntime) -> Result<(), Fail> {
    tells(&rt, rt.alloc(), 0, [0; 5], &[EXIT], BEFORE_FUEL)
}

const RESUMED: &[(Act, Answer)] = &[
    (Act::GoOn, NOT_PAUSED),
    (Act::Break(0), DONE),
    (Act::Break(1), DONE),
    (Act::Step, stepped!(Paused 0)),
    (Act::GoOn, DONE),
    (Act::Passes, Answer::Passes(true, false)),
    (Act::Step, stepped!(Ran 1)),
    (Act::Step, stepped!(Paused 1)),
    (Act::One, stepped!(Ran 2)),
    (Act::Passes, Answer::Passes(false, true)),
];

#[test]
fn a_resumed_machine_passes_one_breakpoint(rt: HostRuntime) -> Result<(), Fail> {
    tells(&rt, rt.alloc(), 10, [0; 5], &[MOV, ADD, EXIT], RESUMED)
}

const WAITS: &[(Act, Answer)] = &[
    (Act::Break(0), DONE),
    (Act::Step, stepped!(Paused 0)),
    (Act::GoOn, DONE),
    // A machine that waits asks again, and nothing is told in between.
    (Act::Pauses(0), Answer::Pauses(false)),
    (Act::Pauses(0), Answer::Pauses(false)),
    (Act::Pauses(0), Answer::Pauses(false)),
    (Act::Step, stepped!(Ran 1)),
    (Act::Pauses(0), Answer::Pauses(true)),
];

#[test]
fn waiting_leaves_a_breakpoint_passed(rt: HostRuntime) -> Result<(), Fail> {
    tells(&rt, rt.alloc(), 10, [0; 5], &[MOV, EXIT], WAITS)
}

const AFTER_A_HIT: &[(Act, Answer)] = &[
    (Act::Break(1), DONE),
    (Act::Watch(OBJECT, 1), DONE),
    (Act::Step, stepped!(Hit 1)),
    (Act::GoOn, DONE),
    (Act::Step, stepped!(Ran 2)),
];

#[test]
fn after_a_hit_the_next_breakpoint_is_passed(rt: HostRuntime) -> Result<(), Fail> {
    // stxb [r1], r2
    let slots = &[0x7321_0000_0000_0000, MOV, EXIT];
    tells(
        &rt,
        rt.alloc(),
        10,
        [OBJECT, 5, 0, 0, 0],
        slots,
        AFTER_A_HIT,
    )
}

/// Seventeen instructions and EXIT.
const LONG: &[u64] = &[
    MOV, MOV, MOV, MOV, MOV, MOV, MOV, MOV, MOV, MOV, MOV, MOV, MOV, MOV, MOV, MOV, MOV, EXIT,
];

const SIXTEEN: &[(Act, Answer)] = &[
    (Act::Break(0), DONE),
    (Act::Break(1), DONE),
    (Act::Break(2), DONE),
    (Act::Break(3), DONE),
    (Act::Break(4), DONE),
    (Act::Break(5), DONE),
    (Act::Break(6), DONE),
    (Act::Break(7), DONE),
    (Act::Break(8), DONE),
    (Act::Break(9), DONE),
    (Act::Break(10), DONE),
    (Act::Break(11), DONE),
    (Act::Break(12), DONE),
    (Act::Break(13), DONE),
    (Act::Break(14), DONE),
    (Act::Break(15), DONE),
    (
        Act::Breakpoints,
        Answer::Breakpoints(16, [0, 1, 2, 3, 4, 5, 6, 7, 8, 9, 10, 11, 12, 13, 14, 15]),
    ),
    (Act::Break(16), FULL),
    (Act::Break(18), NO_SLOT),
    (Act::Break(3), DONE),
    (Act::Unbreak(3), DONE),
    (Act::Unbreak(3), NO_SLOT),
    (Act::Break(16), DONE),
    (Act::Break(3), FULL),
    (
        Act::Breakpoints,
        Answer::Breakpoints(16, [0, 1, 2, 4, 5, 6, 7, 8, 9, 10, 11, 12, 13, 14, 15, 16]),
    ),
];

#[test]
fn sixteen_breakpoints_are_set_and_no_more(rt: HostRuntime) -> Result<(), Fail> {
    tells(&rt, rt.alloc(), 100, [0; 5], LONG, SIXTEEN)
}

/// lddw r0, 0x8000000000000000; sdiv r0, -1; exit
const WIDE: &[u64] = &[
    0x1800_0000_0000_0000,
    0x0000_0000_0000_0080,
    0x3700_0100_ffff_ffff,
    EXIT,
];

const SECOND_SLOT: &[(Act, Answer)] = &[
    (Act::Break(1), NO_SLOT),
    (Act::Break(4), NO_SLOT),
    (Act::Break(4095), NO_SLOT),
    (Act::Unbreak(0), NO_SLOT),
    (Act::Break(2), DONE),
    (Act::Step, stepped!(Ran 2)),
    (Act::Step, stepped!(Paused 2)),
    // The machine stays paused where its breakpoint is cleared.
    (Act::Unbreak(2), DONE),
    (Act::Step, stepped!(Paused 2)),
];

#[test]
fn no_instruction_begins_at_a_second_slot(rt: HostRuntime) -> Result<(), Fail> {
    tells(&rt, rt.alloc(), 10, [0; 5], WIDE, SECOND_SLOT)
}
