//! Runs of a machine in one call, as a host asks for them, for a program in C that measures them. It stands beside `bench_steps`,
//! since a program that both steps and runs machines has two copies of all that a step does, and calls them.
#![tactic(auto)]

use bench_start::{BUDGET, Work, first_objects, length_after};
use far_store::OwnStore;
use machine::{GRANT_LIMIT, Grants};
use std::alloc::Global;
use world::{
    Event, MachineCommand, ObjectLength, Reply, ShowCommand, ShowReply, Start, Way, World,
};

/// A load of a byte from where R1 points, and the end.
const LOAD: [u8; 16] = [
    0x71, 0x10, 0, 0, 0, 0, 0, 0, //
    0x95, 0, 0, 0, 0, 0, 0, 0,
];

/// Runs the code on the machine of that number, in one call. Gives R0 as the machine stops, and how many instructions ran; 0 where
/// it doesn't start.
#[unsafe(no_mangle)]
pub extern "C" fn bpf_run(alloc: Global, code: &[u8], work: &Work, steps: &mut u64) -> u64 {
    let Some(mut world) = world_of(alloc, code, *work) else {
        return 0;
    };
    let machine = work.machines;
    let Some(run) = world.run_machine(machine, u64::MAX) else {
        return 0;
    };
    *steps = run.ran;
    let command = MachineCommand::Show(ShowCommand::Regs);
    match world.apply(Event::Machine { machine, command }) {
        Reply::Shown {
            reply: ShowReply::Registers(shown),
            ..
        } => shown.registers[0],
        _ => 0,
    }
}

/// The objects, machines that have the last of them in their scopes, and the one that is measured.
fn world_of(alloc: Global, code: &[u8], work: Work) -> Option<World<OwnStore>> {
    if work.granted > GRANT_LIMIT {
        return None;
    }
    let mut world = World::new(alloc, BUDGET, OwnStore::new(alloc)).ok()?;
    for count in 0..work.objects {
        let length = ObjectLength::new(length_after(count) as u64)?;
        let _ = world.apply(Event::Make { length });
    }
    for who in 1..work.machines {
        let last = Start::new(1, [(work.objects as u64) << 32, 0, 0, 0, 0]);
        let _ = world.ship(last, &LOAD);
        let _ = world.step(who, Way::Step);
    }
    let grants = if work.granted == 0 {
        Grants::all()
    } else {
        first_objects(work.granted)
    };
    let start = Start {
        fuel: work.fuel,
        arguments: [work.argument, 0, 0, 0, 0],
        grants,
    };
    match world.ship(start, code) {
        Reply::Shipped { .. } => Some(world),
        _ => None,
    }
}
