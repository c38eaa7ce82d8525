//! `run`, where a stream fails or a line is cut. Whole conversations are scripts, which `script_runner` runs.

use crate::compared::same;
use crate::outcome::{ended, leaves, outcome_of};
use agent::Failure;
use bpf_codec::Fault;
use loader::{LoadError, Why};
use std::test::Fail;
use test_devices::{FailingReader, Narrow, Pieces};

#[test]
fn a_closed_output_ends_the_run(rt: HostRuntime) {
    let mut input = b"step 1\nstep 1\nstep 1\n".as_slice();
    let mut closed = Narrow::new(rt.alloc(), 1, 7);
    let (status, errors) = ended(rt.alloc(), &["run"], &mut input, &mut closed);
    same!(rt; (status, errors.as_slice()), (3, b"write fault\n".as_slice()));
    same!(rt; closed.taken.as_slice(), b"none\nno".as_slice());
}

#[test]
fn a_broken_input_ends_the_run(rt: HostRuntime) {
    let mut input = FailingReader::new(b"step 1\nstep".as_slice(), 1);
    let found = outcome_of(rt.alloc(), &["run"], &mut input);
    same!(rt; (found.status, found.errors.as_slice()), (3, b"read fault\n".as_slice()));
    same!(rt; found.output.as_slice(), b"none\n".as_slice());
}

#[test]
fn an_empty_line_a_long_line_and_a_cut_line(rt: HostRuntime) -> Result<(), Fail> {
    let alloc = rt.alloc();
    let mut input = vec![in alloc; b'a'; 70_002]?;
    input[0] = b'\n';
    input.extend_from_slice(b"\nregs 1")?;
    leaves(&rt, alloc, &["run"], &input, (0, b"bad\nbad\ncut\n", b""));
    let mut pieces = Pieces::new(&input, 1);
    let found = outcome_of(alloc, &["run"], &mut pieces);
    same!(rt; (found.status, found.output.as_slice()), (0, b"bad\nbad\ncut\n".as_slice()));
    Ok(())
}

#[test]
fn failures_have_their_texts(rt: HostRuntime) -> Result<(), Fail> {
    let alloc = rt.alloc();
    let refused = LoadError {
        slot: 3,
        why: Why::Decoder(Fault::HalfWide),
    };
    let texts = [
        (Failure::Refused(refused), "slot 3: HalfWide"),
        (Failure::Read, "read fault"),
        (Failure::Write, "write fault"),
        (Failure::NoMemory, "no memory"),
    ];
    for (failure, text) in texts {
        same!(rt; format!(in alloc; "{failure}")?.as_str(), text);
    }
    Ok(())
}
