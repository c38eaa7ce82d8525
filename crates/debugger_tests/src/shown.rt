//! What is shown.

use crate::acts::{Act, Answer, DONE, stepped, tells};
use crate::common::{EXIT, MOV, session_of, show};
use crate::compared::same;
use debugger::{ShowCommand, ShowReply, State, StepReply};
use machine::Stop;
use std::alloc::Global;
use std::test::Fail;

const STATES: &[(Act, Answer)] = &[
    (Act::Point, Answer::Point(0, 10, State::Running)),
    (
        Act::Registers,
        Answer::Registers([0, 1, 2, 3, 4, 5, 0, 0, 0, 0, 0xffff_ffff_0000_1000]),
    ),
    (Act::Break(1), DONE),
    (Act::Step, stepped!(Ran 1)),
    (Act::Step, stepped!(Paused 1)),
    (Act::Point, Answer::Point(1, 9, State::Paused)),
    (Act::GoOn, DONE),
    (Act::Step, stepped!(Stopped Stop::Exit(7))),
    (
        Act::Point,
        Answer::Point(1, 8, State::Stopped(Stop::Exit(7))),
    ),
    (Act::Register(0), Answer::Register(7)),
];

#[test]
fn the_state_of_a_machine(rt: HostRuntime) -> Result<(), Fail> {
    tells(&rt, rt.alloc(), 10, [1, 2, 3, 4, 5], &[MOV, EXIT], STATES)
}

const EMITTED: &[(Act, Answer)] = &[
    (Act::Out, Answer::Values(0, [0; 2])),
    (Act::Step, stepped!(Ran 1)),
    (Act::Step, stepped!(Ran 2)),
    (Act::Out, Answer::Values(2, [5, 5])),
];

#[test]
fn what_was_emitted(rt: HostRuntime) -> Result<(), Fail> {
    // call 3, twice
    let slots = &[0x8500_0000_0300_0000, 0x8500_0000_0300_0000, EXIT];
    tells(&rt, rt.alloc(), 10, [5, 0, 0, 0, 0], slots, EMITTED)
}

const STACK: &[(Act, Answer)] = &[
    (Act::Step, stepped!(Ran 1)),
    (
        Act::Stack(4091, 5),
        Answer::Bytes(5, [0, 255, 255, 255, 255]),
    ),
    (Act::Stack(4095, 2), Answer::Outside),
    (Act::Stack(0xffff_ffff, 0xffff_ffff), Answer::Outside),
    (Act::Stack(0, 4096), Answer::Bytes(4096, [0; 5])),
];

#[test]
fn bytes_of_the_stack(rt: HostRuntime) -> Result<(), Fail> {
    // stw [r10-4], -1
    let slots = &[0x620a_fcff_ffff_ffff, EXIT];
    tells(&rt, rt.alloc(), 10, [0; 5], slots, STACK)
}

/// lddw r0, 0x8000000000000000; sdiv r0, -1; exit
const SLOTS: &[u64] = &[
    0x1800_0000_0000_0000,
    0x0000_0000_0000_0080,
    0x3700_0100_ffff_ffff,
    EXIT,
];

/// A slot, and the text of the instruction that begins there, if one does.
const LINES: &[(u32, Option<&[u8]>)] = &[
    (0, Some(b"lddw r0, 0x8000000000000000")),
    (1, None),
    (2, Some(b"sdiv r0, -1")),
    (3, Some(b"exit")),
    (4, None),
];

/// Whether a slot of the program is shown with this text, or as none where there is no text.
fn is_shown(alloc: Global, slot: u32, line: Option<&[u8]>) -> Result<bool, Fail> {
    let session = session_of(alloc, 10, [0; 5], SLOTS)?;
    Ok(match show(alloc, &session, ShowCommand::Line { slot }) {
        ShowReply::Disassembled { text, .. } => line == Some(text.as_slice()),
        ShowReply::NoSlot => line.is_none(),
        _ => false,
    })
}

#[test]
fn lines_of_the_program(rt: HostRuntime) -> Result<(), Fail> {
    for &(slot, line) in LINES {
        same!(rt; is_shown(rt.alloc(), slot, line)?, true, slot);
    }
    Ok(())
}
