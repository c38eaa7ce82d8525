//! Programs, from bytes to text and back.
use crate::answers::{code_of, hex_of};
use crate::compared::same;
use bpf_codec::encode;
use disassembler::text;
use isa_table::Instr;
use loader::{Program, load};
use std::alloc::{AllocError, Global};
use std::test::Fail;

fn bytes_of(alloc: Global, code: &[Instr]) -> Result<Vec<u8>, AllocError> {
    let mut bytes = Vec::new(alloc);
    for i in code {
        let (slots, count) = encode(i);
        for k in 0..count * 8 {
            if let Some(b) = slots.get(k) {
                bytes.push(*b)?;
            }
        }
    }
    Ok(bytes)
}

fn program_of(alloc: Global, bytes: &[u8]) -> Result<Program, Fail> {
    match load(alloc, bytes) {
        Ok(program) => Ok(program),
        Err(_) => Err(Fail::new("the code is refused")),
    }
}

/// Texts that are valid code, and their canonical spelling.
const PROGRAMS: &[(&str, &str)] = &[
    (
        "mov r0, 0 # n\nagain: add r0, 1\njlt r0, 3, again\nexit",
        "mov r0, 0\nadd r0, 1\njlt r0, 3, -2\nexit\n",
    ),
    (
        "lddw r0, 0x8000000000000000\nsdiv r0, -1\nexit",
        "lddw r0, 0x8000000000000000\nsdiv r0, -1\nexit\n",
    ),
    ("acmpxchg32 [r1], r2\nexit", "acmpxchg32 [r1], r2\nexit\n"),
    (
        "call local f\nexit\nf: lddw r0, 7\ncall 3\nexit",
        "call local +1\nexit\nlddw r0, 0x7\ncall 3\nexit\n",
    ),
    (
        "stb [r10-1], 7\nldxsb r0, [r10-1]\nja32 end\nlddw r1, 0\nend: exit",
        "stb [r10-1], 7\nldxsb r0, [r10-1]\nja32 +2\nlddw r1, 0x0\nexit\n",
    ),
    ("exit", "exit\n"),
];

#[test]
fn a_program_has_one_text_and_is_read_from_it(rt: HostRuntime) -> Result<(), Fail> {
    for (source, want) in PROGRAMS {
        let code = code_of(rt.alloc(), source)?;
        let bytes = bytes_of(rt.alloc(), code.as_slice())?;
        let program = program_of(rt.alloc(), bytes.as_slice())?;
        let told = text(rt.alloc(), &program)?;
        same!(rt; told.as_str(), *want, source);
        let again = code_of(rt.alloc(), told.as_str())?;
        let hex = hex_of(rt.alloc(), code.as_slice())?;
        same!(rt; hex_of(rt.alloc(), again.as_slice())?.as_str(), hex.as_str(), source);
    }
    Ok(())
}
