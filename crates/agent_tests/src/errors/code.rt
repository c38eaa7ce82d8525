//! Errors of code: slots, and code as a whole.

use crate::errors::told::are_told;
use bpf_codec::Fault;
use loader::{LoadError, Why};
use std::test::Fail;

#[test]
fn slots(rt: HostRuntime) -> Result<(), Fail> {
    let cases = &[
        (Fault::Opcode, "Opcode"),
        (Fault::Register, "Register"),
        (Fault::Field, "Field"),
        (Fault::HalfWide, "HalfWide"),
        (Fault::Packet, "Packet"),
        (Fault::Platform, "Platform"),
        (Fault::Short, "Short"),
    ];
    are_told(&rt, rt.alloc(), cases)
}

/// Why slot 9 is wrong.
const fn at_9(why: Why) -> LoadError {
    LoadError { slot: 9, why }
}

#[test]
fn reasons(rt: HostRuntime) -> Result<(), Fail> {
    let cases = &[
        (at_9(Why::Decoder(Fault::Packet)), "slot 9: Packet"),
        (at_9(Why::Empty), "slot 9: Empty"),
        (at_9(Why::TooLong), "slot 9: TooLong"),
        (at_9(Why::JumpOut), "slot 9: JumpOut"),
        (at_9(Why::JumpInside), "slot 9: JumpInside"),
        (at_9(Why::WritesR10), "slot 9: WritesR10"),
        (at_9(Why::Helper), "slot 9: Helper"),
        (at_9(Why::FallsOff), "slot 9: FallsOff"),
        (at_9(Why::Memory), "slot 9: Memory"),
    ];
    are_told(&rt, rt.alloc(), cases)
}
