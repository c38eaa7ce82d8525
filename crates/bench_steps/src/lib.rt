//! Steps of a machine, for a program in C that measures them.
#![tactic(auto)]

ghost use Rattle.bench_steps.specs.Reached.{RunsTo, IsEnd};

use bench_start::{Work, instructions_run, memory_of, start};
use machine::{Machine, Stepped};
use memory::Memory;
use std::alloc::Global;

/// Steps the machine until it stops, or waits. Counts nothing, since the fuel tells how many steps ran.
fn run_to_end<M: Memory>(machine: &mut Machine, memory: &mut M) -> Stepped
    requires ready { M.is_ready memory.old }
    ensures ready { M.is_ready memory.new }
    ensures steps { RunsTo M.acts machine.old memory.old machine.new memory.new }
    ensures end { IsEnd result }
{
    'run: loop {
        match machine.step(memory) {
            Stepped::Ran(_) => {}
            Stepped::Waiting(number) => return Stepped::Waiting(number),
            Stepped::Stopped(stop) => return Stepped::Stopped(stop),
        }
    }
}

/// Runs the code as `start` has it, step by step. Gives R0 as the machine stops, and how many instructions ran; 0 where it doesn't
/// start.
#[unsafe(no_mangle)]
pub extern "C" fn bpf_run(alloc: Global, code: &[u8], work: &Work, steps: &mut u64) -> u64 {
    let Some((mut machine, mut store)) = start(alloc, code, *work) else {
        return 0;
    };
    let mut memory = memory_of(&mut store, *work);
    let _ = run_to_end(&mut machine, &mut memory);
    *steps = instructions_run(work, &machine);
    machine.registers()[0]
}
