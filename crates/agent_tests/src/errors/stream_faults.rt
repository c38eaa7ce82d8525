//! Errors of streams, and of conversations and servers over them.

use crate::errors::told::are_told;
use console::{DriveFault, LineFault};
use far_server::ServerFault;
use std::test::Fail;
use streams::{InputFault, ReadFault, WriteFault};

#[test]
fn streams(rt: HostRuntime) -> Result<(), Fail> {
    are_told(&rt, rt.alloc(), &[(ReadFault, "read fault")])?;
    are_told(&rt, rt.alloc(), &[(WriteFault, "write fault")])?;
    let cases = &[
        (InputFault::Read, "read fault"),
        (InputFault::NoMemory, "no memory"),
    ];
    are_told(&rt, rt.alloc(), cases)
}

#[test]
fn conversations(rt: HostRuntime) -> Result<(), Fail> {
    let drives = &[
        (DriveFault::Read, "read fault"),
        (DriveFault::Write, "write fault"),
    ];
    are_told(&rt, rt.alloc(), drives)?;
    let lines = &[
        (LineFault::Bad, "the line spells no command"),
        (LineFault::NoMemory, "no memory"),
    ];
    are_told(&rt, rt.alloc(), lines)
}

#[test]
fn servers(rt: HostRuntime) -> Result<(), Fail> {
    let cases = &[
        (ServerFault::Net, "net fault"),
        (ServerFault::Read, "read fault"),
        (ServerFault::Write, "write fault"),
        (ServerFault::NoMemory, "no memory"),
    ];
    are_told(&rt, rt.alloc(), cases)
}
