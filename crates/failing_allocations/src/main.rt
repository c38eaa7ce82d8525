//! Five parts of the agent, each from its opening to its end: a list of commands, a table of shared objects, a stream, a pool and a
//! service. The input is the name of the one to run, or empty, and then each is run. `tests/product/refusals.py` runs each with each of
//! its allocations failing in turn; here all are granted.
#![tactic(auto)]

mod bodies;
mod first_world;
mod list;
mod pool;
mod service;
mod stream;
mod table;

use std::io::{self, Read};
use stream::{Course, Met};

/// Whether the input asks for the part of this name.
fn asks_for(input: &[u8], name: &[u8]) -> bool {
    input.is_empty() || input == name
}

fn main(rt: HostRuntime) -> io::Result<()> {
    let alloc = rt.alloc();
    let mut room = [0u8; 8];
    let count = rt.stdin().read(&mut room)?;
    let input = &room[..count.min(8)];
    if asks_for(input, b"list") {
        list::run(&rt, alloc)?;
    }
    if asks_for(input, b"table") {
        let told = table::run(alloc);
        println!(rt; "{told}")?;
    }
    if asks_for(input, b"stream") {
        let Course {
            came,
            met,
            counted,
            served,
        } = stream::run(&rt, alloc);
        let Met {
            memory,
            refused,
            others,
        } = met;
        println!(rt;
            "{came}, {memory} without memory, {refused} refused, {others} otherwise, {counted} faults, {served}"
        )?;
    }
    if asks_for(input, b"pool") {
        let told = pool::run(&rt, alloc);
        println!(rt; "{told}")?;
    }
    if asks_for(input, b"service") {
        let told = service::run(&rt, alloc);
        println!(rt; "{told}")?;
    }
    Ok(())
}
