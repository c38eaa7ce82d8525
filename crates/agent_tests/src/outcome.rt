//! What the program does with its streams.

use agent::tool;
use std::alloc::Global;
use std::io::{Read, Write};
use std::process::Abort;

/// The exit status, what was written, and what was said on standard error.
#[derive(Drop)]
pub struct Outcome {
    pub status: u8,
    pub output: Vec<u8>,
    pub errors: Vec<u8>,
}

/// What the program does with these arguments and this input.
pub fn outcome_of<R: Read>(alloc: Global, arguments: &[&str], reader: &mut R) -> Outcome {
    let mut output = Vec::new(alloc);
    let (status, errors) = ended(alloc, arguments, reader, &mut output);
    Outcome {
        status,
        output,
        errors,
    }
}

/// The same where its output is this writer: the exit status, and what was said on standard error.
pub fn ended<R: Read, W: Write>(
    alloc: Global,
    arguments: &[&str],
    reader: &mut R,
    writer: &mut W,
) -> (u8, Vec<u8>) {
    let mut errors = Vec::new(alloc);
    let status = tool(alloc, arguments, reader, writer, &mut errors);
    (status, errors)
}

fn text(bytes: &[u8]) -> &str {
    std::str::from_utf8(bytes).unwrap_or("bytes that are no text")
}

/// The program ends with this status over this input, writes this, and says this on standard error.
pub fn leaves(
    rt: &impl Abort,
    alloc: Global,
    arguments: &[&str],
    input: &[u8],
    wanted: (u8, &[u8], &[u8]),
) {
    let mut reader = input;
    let outcome = outcome_of(alloc, arguments, &mut reader);
    let found = (
        outcome.status,
        outcome.output.as_slice(),
        outcome.errors.as_slice(),
    );
    let (status, output, errors) = (found.0, text(found.1), text(found.2));
    assert!(rt;
        found == wanted,
        "{arguments:?}: {status}, {output}, {errors}"
    );
}
