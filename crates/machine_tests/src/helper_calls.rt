//! Calls of the four helpers.

use crate::common::{EXIT, machine_of, objects, runs, step, store_of};
use crate::compared::same;
use far_store::OwnStore;
use helpers::Helper;
use machine::{Machine, Stepped, Stop};
use object_store::{Moved, ObjectStore};
use std::alloc::Global;
use std::process::Abort;
use std::test::Fail;

/// R10 at the start.
const STACK_TOP: u64 = 0xffff_ffff_0000_1000;

/// mov r0, 9; call the helper; exit
fn machine_with(alloc: Global, r1: u64, call: u64) -> Result<Machine, Fail> {
    let slots = [0xb700_0000_0900_0000, call, EXIT];
    machine_of(alloc, 10, [r1, 2, 3, 4, 5], &slots)
}

/// What each of the three steps of a machine answers, with the slot and the fuel behind it, and its registers after the second.
type Called = ([(Stepped, usize, u64); 3], [u64; 11]);

/// One step, with the slot and the fuel behind it.
fn step_told(machine: &mut Machine, store: &mut ObjectStore<OwnStore>) -> (Stepped, usize, u64) {
    let told = step(machine, store);
    (told, machine.slot(), machine.fuel())
}

/// What a machine with this R1 does.
fn called(
    alloc: Global,
    store: &mut ObjectStore<OwnStore>,
    r1: u64,
    call: u64,
) -> Result<Called, Fail> {
    let mut machine = machine_with(alloc, r1, call)?;
    let first = step_told(&mut machine, store);
    let second = step_told(&mut machine, store);
    let registers = *machine.registers();
    let third = step_told(&mut machine, store);
    Ok(([first, second, third], registers))
}

/// Each call with its R1 has its answer in R0. No other register changes, and the step writes nothing.
fn answers(
    rt: &impl Abort,
    alloc: Global,
    store: &mut ObjectStore<OwnStore>,
    call: u64,
    cases: &[(u64, u64)],
) -> Result<(), Fail> {
    for &(r1, r0) in cases {
        let steps = [
            (Stepped::Ran(None), 1, 9),
            (Stepped::Ran(None), 2, 8),
            (Stepped::Stopped(Stop::Exit(r0)), 2, 7),
        ];
        let registers = [r0, r1, 2, 3, 4, 5, 0, 0, 0, 0, STACK_TOP];
        same!(*rt; called(alloc, store, r1, call)?, (steps, registers), r1);
    }
    Ok(())
}

const NUMBERS: &[(i32, Option<Helper>)] = &[
    (-1, None),
    (0, None),
    (1, Some(Helper::Length)),
    (2, Some(Helper::Number)),
    (3, Some(Helper::Emit)),
    (4, Some(Helper::CloseScopes)),
    (5, None),
    (i32::MAX, None),
    (i32::MIN, None),
];

#[test]
fn each_helper_has_a_number(rt: HostRuntime) -> Result<(), Fail> {
    for &(number, helper) in NUMBERS {
        same!(rt; Helper::from_number(number), helper, number);
    }
    Ok(())
}

const LENGTH: u64 = 0x8500_0000_0100_0000;

/// R1, and the length. All 64 bits of R1 are the number: an address is none.
const LENGTHS: &[(u64, u64)] = &[
    (1, 8),
    (2, 65536),
    (0, 0),
    (3, 0),
    (0x0000_0001_0000_0001, 0),
    (0xffff_ffff, 0),
    (u64::MAX, 0),
];

#[test]
fn lengths_of_objects(rt: HostRuntime) -> Result<(), Fail> {
    let mut store = store_of(rt.alloc(), [0; 8])?;
    let _ = store.make(65536)?;
    answers(&rt, rt.alloc(), &mut store, LENGTH, LENGTHS)?;
    same!(rt; store.free(1), Moved::Done);
    answers(&rt, rt.alloc(), &mut store, LENGTH, &[(1, 0)])
}

#[test]
fn the_number_of_the_machine_and_the_end_of_scopes(rt: HostRuntime) -> Result<(), Fail> {
    let mut store = store_of(rt.alloc(), [0; 8])?;
    answers(
        &rt,
        rt.alloc(),
        &mut store,
        0x8500_0000_0200_0000,
        &[(7, 1)],
    )?;
    answers(
        &rt,
        rt.alloc(),
        &mut store,
        0x8500_0000_0400_0000,
        &[(7, 0)],
    )
}

/// call 3; add r1, 1; ja -3
const EMITS: &[u64] = &[
    0x8500_0000_0300_0000,
    0x0701_0000_0100_0000,
    0x0500_fdff_0000_0000,
];

/// What a step answers, R0 and R1 after it, how many values are emitted, and how many of two more steps ran and wrote nothing.
fn emitted(
    machine: &mut Machine,
    store: &mut ObjectStore<OwnStore>,
) -> (Stepped, u64, u64, u64, u64) {
    let told = step(machine, store);
    let (r0, r1) = (machine.registers()[0], machine.registers()[1]);
    let values = machine.emitted().len() as u64;
    (told, r0, r1, values, runs(machine, store, 2))
}

/// 66 values from 100 on are emitted one after the other, of which the last two are refused.
fn emits(rt: &impl Abort, machine: &mut Machine, store: &mut ObjectStore<OwnStore>) {
    for count in 0..66_u64 {
        let (refused, values) = if count < 64 { (0, count + 1) } else { (1, 64) };
        let wanted = (Stepped::Ran(None), refused, 100 + count, values, 2);
        same!(*rt; emitted(machine, store), wanted, count);
    }
}

#[test]
fn values_are_emitted_while_there_is_room(rt: HostRuntime) -> Result<(), Fail> {
    let mut store = objects(rt.alloc())?;
    let mut machine = machine_of(rt.alloc(), 1000, [100, 0, 0, 0, 0], EMITS)?;
    same!(rt; machine.emitted().is_empty(), true);
    emits(&rt, &mut machine, &mut store);
    same!(rt; machine.emitted().first().copied(), Some(100));
    same!(rt; machine.emitted().last().copied(), Some(163));
    same!(rt; machine.fuel(), 1000 - 3 * 66);
    Ok(())
}
