//! Watched ranges.

use crate::acts::{Act, Answer, DONE, stepped, tells};
use crate::common::{EXIT, MOV, OBJECT, STACK, session_of};
use crate::compared::same;
use debugger::{DebugCommand, Debugged, StepReply, WATCH_LIMIT, Way};
use isa_table::Size;
use machine::Written;
use std::alloc::Global;
use std::test::Fail;

const OUTSIDE: Answer = Answer::Debugged(Debugged::Outside);

const NO_WATCH: Answer = Answer::Debugged(Debugged::NoWatch);

const FULL: Answer = Answer::Debugged(Debugged::Full);

const WATCHED: &[(Act, Answer)] = &[
    (Act::Watch(OBJECT + 2, 1), DONE),
    (Act::Step, stepped!(Hit 1)),
    (Act::Step, stepped!(Paused 1)),
    (Act::Object, Answer::Bytes(4, [0, 0, 5, 0, 0])),
];

#[test]
fn a_write_of_a_watched_byte_hits(rt: HostRuntime) -> Result<(), Fail> {
    // stxb [r1+2], r2
    let slots = &[0x7321_0200_0000_0000, EXIT];
    tells(&rt, rt.alloc(), 10, [OBJECT, 5, 0, 0, 0], slots, WATCHED)
}

const BY_ONE: &[(Act, Answer)] = &[
    (Act::Watch(OBJECT, 4), DONE),
    (Act::One, stepped!(Hit 1)),
    (Act::One, stepped!(Ran 2)),
    (Act::Step, stepped!(Paused 2)),
];

#[test]
fn one_tells_a_hit(rt: HostRuntime) -> Result<(), Fail> {
    // stxb [r1+2], r2
    let slots = &[0x7321_0200_0000_0000, MOV, EXIT];
    tells(&rt, rt.alloc(), 10, [OBJECT, 5, 0, 0, 0], slots, BY_ONE)
}

const END_OF_STACK: &[(Act, Answer)] = &[
    (Act::Watch(STACK + 4092, 4), DONE),
    (Act::Step, stepped!(Hit 1)),
    (Act::GoOn, DONE),
    (Act::Step, stepped!(Ran 2)),
];

#[test]
fn the_end_of_the_stack_is_watched(rt: HostRuntime) -> Result<(), Fail> {
    // stw [r10-4], -1; ldxsw r0, [r10-4]
    let slots = &[0x620a_fcff_ffff_ffff, 0x81a0_fcff_0000_0000, EXIT];
    tells(&rt, rt.alloc(), 10, [0; 5], slots, END_OF_STACK)
}

/// R2, the first instruction of a program whose R0 is 0 and R1 the address of object 1, and what it is answered with the first
/// byte of the object watched.
const FIRST_STEPS: &[(u64, u64, StepReply)] = &[
    // ldxdw r0, [r1]
    (0, 0x7910_0000_0000_0000, StepReply::Ran(1)),
    // aadd [r1], r2
    (0, 0xdb21_0000_0000_0000, StepReply::Hit(1)),
    // acmpxchg [r1], r2, where R0 and the object are 0
    (0, 0xdb21_0000_f100_0000, StepReply::Hit(1)),
    // stxb [r1+1], r2
    (9, 0x7321_0100_0000_0000, StepReply::Ran(1)),
];

#[test]
fn what_is_written_hits_changed_or_not(rt: HostRuntime) -> Result<(), Fail> {
    for &(r2, slot, reply) in FIRST_STEPS {
        let table = &[
            (Act::Watch(OBJECT, 1), DONE),
            (Act::Step, Answer::Stepped(reply)),
        ];
        tells(
            &rt,
            rt.alloc(),
            10,
            [OBJECT, r2, 0, 0, 0],
            &[slot, EXIT],
            table,
        )?;
    }
    Ok(())
}

const FAILED_EXCHANGE: &[(Act, Answer)] = &[
    (Act::Watch(OBJECT, 8), DONE),
    (Act::Step, stepped!(Ran 1)),
    (Act::Step, stepped!(Ran 2)),
];

#[test]
fn a_failed_exchange_hits_nothing(rt: HostRuntime) -> Result<(), Fail> {
    // mov r0, 7; acmpxchg [r1], r2
    let slots = &[MOV, 0xdb21_0000_f100_0000, EXIT];
    tells(
        &rt,
        rt.alloc(),
        10,
        [OBJECT, 5, 0, 0, 0],
        slots,
        FAILED_EXCHANGE,
    )
}

/// Whether a write of eight bytes from offset 8 of object 1 on hits, with one range watched.
fn hits(alloc: Global, address: u64, length: u32) -> Result<bool, Fail> {
    let mut s = session_of(alloc, 10, [0; 5], &[EXIT])?;
    let _ = s.debuggee.debug(DebugCommand::Watch { address, length });
    let written = Written {
        number: 1,
        offset: 8,
        size: Size::Double,
    };
    Ok(s.debuggee.debugger.after(Way::Step, Some(written)))
}

/// Whether it hits with a range of object 1 watched, of object 2 and of the stack.
fn hits_of(alloc: Global, offset: u32, length: u32) -> Result<[bool; 3], Fail> {
    let first = hits(alloc, OBJECT + offset as u64, length)?;
    let second = hits(alloc, 2 * OBJECT + offset as u64, length)?;
    let stack = hits(alloc, STACK + offset as u64, length)?;
    Ok([first, second, stack])
}

/// Ranges that have at least one of the eight bytes.
const NEAR: &[(u32, u32)] = &[(0, 9), (15, 1), (15, 100), (8, 8), (10, 2), (0, 4096)];

/// Ranges that have none.
const BESIDE: &[(u32, u32)] = &[(0, 8), (16, 1), (7, 1), (10, 0), (0xffff_ffff, 1)];

#[test]
fn one_byte_is_enough(rt: HostRuntime) -> Result<(), Fail> {
    for &(offset, length) in NEAR {
        same!(rt; hits_of(rt.alloc(), offset, length)?, [true, false, false], offset);
    }
    for &(offset, length) in BESIDE {
        same!(rt; hits_of(rt.alloc(), offset, length)?, [false; 3], offset);
    }
    Ok(())
}

const ENDS: &[(Act, Answer)] = &[
    (Act::Watch(0x1_ffff_ffff, 1), DONE),
    (Act::Watch(0x1_ffff_ffff, 2), OUTSIDE),
    (Act::Watch(0xffff_ffff_ffff_f000, 4096), DONE),
    (Act::Watch(0xffff_ffff_ffff_f001, 4096), OUTSIDE),
    (Act::Unwatch(0x1_ffff_ffff, 2), NO_WATCH),
    (Act::Watches, Answer::Watches(2)),
];

#[test]
fn a_range_ends_within_its_number(rt: HostRuntime) -> Result<(), Fail> {
    tells(&rt, rt.alloc(), 10, [0; 5], &[EXIT], ENDS)
}

const EIGHT: &[(Act, Answer)] = &[
    // They overlap.
    (Act::Watch(OBJECT, 1), DONE),
    (Act::Watch(OBJECT, 2), DONE),
    (Act::Watch(OBJECT, 3), DONE),
    (Act::Watch(OBJECT, 4), DONE),
    (Act::Watch(OBJECT, 5), DONE),
    (Act::Watch(OBJECT, 6), DONE),
    (Act::Watch(OBJECT, 7), DONE),
    (Act::Watch(OBJECT, 8), DONE),
    (Act::Watches, Answer::Watches(WATCH_LIMIT)),
    (Act::Watch(OBJECT, 9), FULL),
    (Act::Watch(OBJECT + 1, 8), FULL),
    (Act::Watch(0x1_ffff_ffff, 2), OUTSIDE),
    (Act::Watch(OBJECT, 5), DONE),
    (Act::Unwatch(OBJECT + 1, 5), NO_WATCH),
    (Act::Unwatch(OBJECT, 5), DONE),
    (Act::Unwatch(OBJECT, 5), NO_WATCH),
    (Act::Watch(OBJECT, 9), DONE),
    (Act::Watch(OBJECT, 5), FULL),
    (Act::Watches, Answer::Watches(WATCH_LIMIT)),
];

#[test]
fn eight_ranges_are_watched_and_no_more(rt: HostRuntime) -> Result<(), Fail> {
    tells(&rt, rt.alloc(), 10, [0; 5], &[EXIT], EIGHT)
}
