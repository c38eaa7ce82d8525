//! Programs by hand, without objects.

use crate::acts::{Act, Answer, RAN, Show, tells};
use crate::common::{EXIT, machine_of, objects, runs};
use crate::compared::same;
use isa_table::Instr;
use loader::load;
use machine::{Frame, Machine, Stepped, Stop};
use std::alloc::Global;
use std::test::Fail;

/// R10 at the start.
const STACK_TOP: u64 = 0xffff_ffff_0000_1000;

const EXIT_AGAIN: &[(Act, Answer)] = &[
    // mov r0, 7; exit
    (
        Act::Start(10, [0; 5], &[0xb700_0000_0700_0000, EXIT]),
        Answer::Done,
    ),
    (
        Act::Show(Show::Program),
        Answer::Program(1, 2, Some(Instr::Exit)),
    ),
    (Act::Show(Show::Point), Answer::Point(0, 10, None)),
    (Act::Step, RAN),
    (Act::Show(Show::Point), Answer::Point(1, 9, None)),
    (Act::Step, Answer::Stepped(Stepped::Stopped(Stop::Exit(7)))),
    (
        Act::Show(Show::Point),
        Answer::Point(1, 8, Some(Stop::Exit(7))),
    ),
    (Act::Step, Answer::Stepped(Stepped::Stopped(Stop::Exit(7)))),
    (
        Act::Show(Show::Point),
        Answer::Point(1, 8, Some(Stop::Exit(7))),
    ),
    (
        Act::Show(Show::Registers),
        Answer::Registers([7, 0, 0, 0, 0, 0, 0, 0, 0, 0, STACK_TOP]),
    ),
    (Act::Show(Show::Frames), Answer::Frames(0)),
];

#[test]
fn an_exit_is_answered_again(rt: HostRuntime) -> Result<(), Fail> {
    tells(&rt, rt.alloc(), EXIT_AGAIN)
}

#[test]
fn a_machine_starts_with_its_arguments(rt: HostRuntime) -> Result<(), Fail> {
    let program = load(rt.alloc(), &EXIT.to_be_bytes())?;
    let machine = Machine::new(program, 48, 3, [1, 2, 3, 4, 5]);
    same!(rt; machine.number(), 48);
    same!(rt; machine.fuel(), 3);
    same!(rt; *machine.registers(), [0, 1, 2, 3, 4, 5, 0, 0, 0, 0, STACK_TOP]);
    Ok(())
}

/// The stop of a program, and how many instructions it did, of a hundred at most.
fn run(alloc: Global, first: u64, slots: &[u64]) -> Result<(Option<Stop>, u64), Fail> {
    let mut machine = machine_of(alloc, 100, [first, 0, 0, 0, 0], slots)?;
    let mut store = objects(alloc)?;
    let _ = runs(&mut machine, &mut store, 101);
    Ok((machine.stop(), 100 - machine.fuel().min(100)))
}

/// The same of this code with EXIT behind it.
fn run_to_exit(alloc: Global, first: u64, code: &[u64]) -> Result<(Option<Stop>, u64), Fail> {
    let mut slots = code.to_vec(alloc)?;
    slots.push(EXIT)?;
    run(alloc, first, slots.as_slice())
}

/// R1, the code before EXIT, what it exits with, how many instructions that takes.
const ARITHMETIC: &[(u64, &[u64], u64, u64)] = &[
    // lddw r0, 0x8000000000000000; sdiv r0, -1
    (
        0,
        &[
            0x1800_0000_0000_0000,
            0x0000_0000_0000_0080,
            0x3700_0100_ffff_ffff,
        ],
        0x8000_0000_0000_0000,
        3,
    ),
    // mov r0, -13; smod r0, 3, and mod
    (
        0,
        &[0xb700_0000_f3ff_ffff, 0x9700_0100_0300_0000],
        0xffff_ffff_ffff_ffff,
        3,
    ),
    (0, &[0xb700_0000_f3ff_ffff, 0x9700_0000_0300_0000], 0, 3),
    // lddw r0, 0x100000005; mod32 r0, r1, and mod
    (
        0,
        &[
            0x1800_0000_0500_0000,
            0x0000_0000_0100_0000,
            0x9c10_0000_0000_0000,
        ],
        5,
        3,
    ),
    (
        0,
        &[
            0x1800_0000_0500_0000,
            0x0000_0000_0100_0000,
            0x9f10_0000_0000_0000,
        ],
        0x0000_0001_0000_0005,
        3,
    ),
    // mov r0, 7; lsh r0, 64
    (0, &[0xb700_0000_0700_0000, 0x6700_0000_4000_0000], 7, 3),
    // movs8 r0, r1, and movs8_32
    (0x80, &[0xbf10_0800_0000_0000], 0xffff_ffff_ffff_ff80, 2),
    (0x80, &[0xbc10_0800_0000_0000], 0x0000_0000_ffff_ff80, 2),
    // lddw r0, 0x1122334455667788; be16 r0, and le16
    (
        0,
        &[
            0x1800_0000_8877_6655,
            0x0000_0000_4433_2211,
            0xdc00_0000_1000_0000,
        ],
        0x8877,
        3,
    ),
    (
        0,
        &[
            0x1800_0000_8877_6655,
            0x0000_0000_4433_2211,
            0xd400_0000_1000_0000,
        ],
        0x7788,
        3,
    ),
    // mov r0, 0; add r0, 1; jlt r0, 3, -2
    (
        0,
        &[
            0xb700_0000_0000_0000,
            0x0700_0000_0100_0000,
            0xa500_feff_0300_0000,
        ],
        3,
        8,
    ),
    // neg32 r0, which zeroes the upper half
    (
        1,
        &[0xbf10_0000_0000_0000, 0x8400_0000_0000_0000],
        0xffff_ffff,
        3,
    ),
];

#[test]
fn arithmetic(rt: HostRuntime) -> Result<(), Fail> {
    for &(first, code, value, count) in ARITHMETIC {
        let stopped = run_to_exit(rt.alloc(), first, code)?;
        same!(rt; stopped, (Some(Stop::Exit(value)), count), value);
    }
    Ok(())
}

/// R1, a jump over EXIT, whether it is taken.
const JUMPS: &[(u64, u64, bool)] = &[
    // ja, ja32
    (0, 0x0500_0100_0000_0000, true),
    (0, 0x0600_0000_0100_0000, true),
    // jeq r1, 5, and jeq32
    (5, 0x1501_0100_0500_0000, true),
    (0x0000_0001_0000_0005, 0x1501_0100_0500_0000, false),
    (0x0000_0001_0000_0005, 0x1601_0100_0500_0000, true),
    // jeq r1, -1, which is sign-extended
    (u64::MAX, 0x1501_0100_ffff_ffff, true),
    (0xffff_ffff, 0x1501_0100_ffff_ffff, false),
    // jgt r1, r0, and jsgt
    (u64::MAX, 0x2d01_0100_0000_0000, true),
    (u64::MAX, 0x6d01_0100_0000_0000, false),
    // jslt r1, 0, and jslt32
    (u64::MAX, 0xc501_0100_0000_0000, true),
    (0x8000_0000, 0xc501_0100_0000_0000, false),
    (0x8000_0000, 0xc601_0100_0000_0000, true),
    // jset r1, 4
    (6, 0x4501_0100_0400_0000, true),
    (3, 0x4501_0100_0400_0000, false),
];

/// The same of a jump over EXIT.
fn run_jump(alloc: Global, first: u64, jump: u64) -> Result<(Option<Stop>, u64), Fail> {
    run(alloc, first, &[jump, EXIT, 0xb700_0000_0100_0000, EXIT])
}

#[test]
fn jumps(rt: HostRuntime) -> Result<(), Fail> {
    for &(first, jump, taken) in JUMPS {
        let (value, count) = if taken { (1, 3) } else { (0, 2) };
        let stopped = run_jump(rt.alloc(), first, jump)?;
        same!(rt; stopped, (Some(Stop::Exit(value)), count), jump);
    }
    Ok(())
}

/// mov r6, 17; call local +2; mov r0, r6; exit; and the function: mov r6, 34; mov r9, r10; mov r5, 5; exit
const CALLS: &[u64] = &[
    0xb706_0000_1100_0000,
    0x8510_0000_0200_0000,
    0xbf60_0000_0000_0000,
    EXIT,
    0xb706_0000_2200_0000,
    0xbfa9_0000_0000_0000,
    0xb705_0000_0500_0000,
    EXIT,
];

/// R10 in the function.
const LOWER: u64 = 0xffff_ffff_0000_0e00;

/// What the call keeps.
const KEPT: Frame = Frame {
    slot: 2,
    r6: 17,
    r7: 0,
    r8: 0,
    r9: 0,
    r10: STACK_TOP,
};

const GIVES_BACK: &[(Act, Answer)] = &[
    (Act::Start(20, [3, 0, 0, 0, 0], CALLS), Answer::Done),
    (Act::Runs(5), Answer::Ran(5)),
    (Act::Show(Show::Frames), Answer::Frames(1)),
    (Act::Show(Show::FirstFrame), Answer::Frame(Some(KEPT))),
    (
        Act::Show(Show::Registers),
        Answer::Registers([0, 3, 0, 0, 0, 5, 34, 0, 0, LOWER, LOWER]),
    ),
    (Act::Step, RAN),
    (Act::Show(Show::Point), Answer::Point(2, 14, None)),
    (Act::Show(Show::Frames), Answer::Frames(0)),
    (
        Act::Show(Show::Registers),
        Answer::Registers([0, 3, 0, 0, 0, 5, 17, 0, 0, 0, STACK_TOP]),
    ),
    (Act::Step, RAN),
    (Act::Step, Answer::Stepped(Stepped::Stopped(Stop::Exit(17)))),
    (
        Act::Show(Show::Point),
        Answer::Point(3, 12, Some(Stop::Exit(17))),
    ),
];

#[test]
fn a_call_gives_its_registers_back(rt: HostRuntime) -> Result<(), Fail> {
    tells(&rt, rt.alloc(), GIVES_BACK)
}

/// call local -1
const CALLS_ITSELF: &[u64] = &[0x8510_0000_ffff_ffff, EXIT];

/// What the ninth call answers.
const TOO_DEEP: Answer = Answer::Stepped(Stepped::Stopped(Stop::Depth));

const NINTH: &[(Act, Answer)] = &[
    (Act::Start(100, [0; 5], CALLS_ITSELF), Answer::Done),
    (Act::Step, RAN),
    (Act::Show(Show::Point), Answer::Point(0, 99, None)),
    (Act::Step, RAN),
    (Act::Show(Show::Point), Answer::Point(0, 98, None)),
    (Act::Step, RAN),
    (Act::Show(Show::Point), Answer::Point(0, 97, None)),
    (Act::Step, RAN),
    (Act::Show(Show::Point), Answer::Point(0, 96, None)),
    (Act::Step, RAN),
    (Act::Show(Show::Point), Answer::Point(0, 95, None)),
    (Act::Step, RAN),
    (Act::Show(Show::Point), Answer::Point(0, 94, None)),
    (Act::Step, RAN),
    (Act::Show(Show::Point), Answer::Point(0, 93, None)),
    (Act::Step, RAN),
    (Act::Show(Show::Point), Answer::Point(0, 92, None)),
    (Act::Step, TOO_DEEP),
    (
        Act::Show(Show::Point),
        Answer::Point(0, 92, Some(Stop::Depth)),
    ),
    (
        Act::Show(Show::Register(10)),
        Answer::Register(0xffff_ffff_0000_0000),
    ),
    (Act::Show(Show::Frames), Answer::Frames(8)),
    (Act::Step, TOO_DEEP),
    (
        Act::Show(Show::Point),
        Answer::Point(0, 92, Some(Stop::Depth)),
    ),
    (
        Act::Show(Show::Register(10)),
        Answer::Register(0xffff_ffff_0000_0000),
    ),
    (Act::Show(Show::Frames), Answer::Frames(8)),
];

#[test]
fn the_ninth_call_stops(rt: HostRuntime) -> Result<(), Fail> {
    tells(&rt, rt.alloc(), NINTH)
}

/// What a machine without fuel answers.
const SPENT: Answer = Answer::Stepped(Stepped::Stopped(Stop::Spent));

const WITHOUT_FUEL: &[(Act, Answer)] = &[
    (Act::Start(0, [0; 5], &[EXIT]), Answer::Done),
    (Act::Step, SPENT),
    // Before a call that would be the ninth, too: fuel comes first.
    (Act::Start(8, [0; 5], CALLS_ITSELF), Answer::Done),
    (Act::Runs(8), Answer::Ran(8)),
    (Act::Step, SPENT),
    (
        Act::Show(Show::Point),
        Answer::Point(0, 0, Some(Stop::Spent)),
    ),
    (Act::Step, SPENT),
    (
        Act::Show(Show::Point),
        Answer::Point(0, 0, Some(Stop::Spent)),
    ),
];

#[test]
fn fuel_runs_out(rt: HostRuntime) -> Result<(), Fail> {
    tells(&rt, rt.alloc(), WITHOUT_FUEL)
}
