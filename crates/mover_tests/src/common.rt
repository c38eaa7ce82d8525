//! Machines. A slot of code is written as its bytes, first to last.

use debugger::{Debuggee, Start};
use loader::load;
use std::alloc::Global;
use std::test::Fail;
use test_devices::code;

const EXIT: u64 = 0x9500_0000_0000_0000;

/// aadd [r1], r2
const ADD: u64 = 0xdb21_0000_0000_0000;

/// ldxdw r0, [r1]
const LOAD: u64 = 0x7910_0000_0000_0000;

/// call 4
const CLOSE: u64 = 0x8500_0000_0400_0000;

/// A machine of this number, which adds a number to the object of its own number, closes its scope, and ends with what it reads
/// there then. Each of the four is a step.
pub fn adding(alloc: Global, number: usize, added: u64) -> Result<Debuggee, Fail> {
    let program = load(alloc, code(alloc, &[ADD, CLOSE, LOAD, EXIT])?.as_slice())?;
    let address = (number as u64) << 32;
    Ok(Debuggee::new(program, number, Start::new(10, [address, added, 0, 0, 0])))
}
