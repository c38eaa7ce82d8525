//! What `check --explain` says beside the line of a refusal.
ghost use Rattle.std.specs.Prelude.{◌≡◌, ◌*◌, drop, IfErr, Err};
ghost use Rattle.bpf_codec.specs.Faults.{IsLeastFault};
ghost use Rattle.loader.specs.declared.loading.LoadError.{LoadError};

use crate::assembly::faults::{Added, put_decimal, put_fault, put_hex};
use crate::failure::Failure;
use bpf_codec::{Fault, decode_one};
use disassembler::line;
use isa_table::Instr;
use loader::{LoadError, Why};
use std::alloc::{AllocError, Global};

/// How an ELF object file begins.
const ELF: &[u8] = b"\x7fELF";

/// What is said of an object file.
const OF_ELF: &[u8] =
    b"this is an ELF object file, and not raw code; 'bpfagent-ship FILE' takes object files";

/// The rule that code breaks which is refused for this reason.
fn rule_of(why: Why) -> &'static [u8] {
    match why {
        Why::Decoder(_) => b"no instruction begins here (RFC 9669, section 3)",
        Why::Empty => b"there are no bytes, and code has at least one instruction",
        Why::TooLong => b"there are more than 32768 bytes, which are 4096 slots",
        Why::JumpOut => {
            b"outside the code; slots are counted from the next one (RFC 9669, section 4.3)"
        }
        Why::JumpInside => {
            b"the second one of a wide instruction; slots are counted from the next one (RFC 9669, section 4.3)"
        }
        Why::WritesR10 => b"R10, the frame pointer, is only read (the ABI of BPF)",
        Why::Helper => {
            b"no helper function has this number, they are 1 to 4 (RFC 9669, section 4.3.1)"
        }
        Why::FallsOff => b"the last instruction has to be exit, ja or ja32",
        Why::Memory => b"out of memory",
    }
}

/// Whether the reason is about what stands at a slot.
fn is_about_slot(why: Why) -> bool {
    !matches!(why, Why::Empty | Why::TooLong)
}

/// Whether the reason is about where an instruction leads.
fn is_about_target(why: Why) -> bool {
    matches!(why, Why::JumpOut | Why::JumpInside)
}

/// The slot to which the instruction at a slot jumps or calls.
fn target_of(slot: usize, instr: &Instr) -> Option<i128> {
    let next = slot as i128 + 1;
    match *instr {
        Instr::Jump { offset, .. } => Some(next + i128::from(offset)),
        Instr::Ja { offset } => Some(next + i128::from(offset)),
        Instr::JaLong { offset } => Some(next + i128::from(offset)),
        Instr::CallLocal { offset } => Some(next + i128::from(offset)),
        _ => None,
    }
}

/// Adds the slot to which an instruction leads.
fn put_target(out: &mut Vec<u8>, slot: i128) -> Added {
    out.extend_from_slice(b"it leads to slot ")?;
    put_decimal(out, slot)?;
    out.extend_from_slice(b", ")
}

/// Adds where an instruction leads, if that is asked for.
fn put_lead(out: &mut Vec<u8>, is_asked: bool, to: Option<i128>) -> Added {
    if !is_asked {
        return Ok(());
    }
    match to {
        Some(slot) => put_target(out, slot),
        None => Ok(()),
    }
}

/// Adds what is said of the instruction at a slot.
fn put_instruction(out: &mut Vec<u8>, slot: usize, instr: &Instr, why: Why) -> Added {
    line(instr, out)?;
    out.extend_from_slice(b": ")?;
    put_lead(out, is_about_target(why), target_of(slot, instr))?;
    out.extend_from_slice(rule_of(why))
}

/// The bytes from a slot on.
fn bytes_from(code: &[u8], slot: usize) -> &[u8]
    ensures { result.now ≡ drop (8 * slot) code.now }
{
    let start = code.len().min(slot.saturating_mul(8));
    &code[start..]
}

/// Adds what is said of bytes that begin with no instruction.
fn put_bytes(alloc: Global, out: &mut Vec<u8>, bytes: &[u8], fault: Fault) -> Added
    requires { IsLeastFault fault bytes.now }
{
    put_hex(alloc, out, &bytes[..bytes.len().min(8)])?;
    out.extend_from_slice(b": ")?;
    put_fault(alloc, out, bytes, fault)
}

/// Adds what is said of what stands at a slot.
fn put_place(alloc: Global, out: &mut Vec<u8>, code: &[u8], slot: usize, why: Why) -> Added {
    match decode_one(code, slot) {
        Ok((instr, _)) => put_instruction(out, slot, &instr, why),
        Err(fault) => put_bytes(alloc, out, bytes_from(code, slot), fault),
    }
}

/// Adds what is said of a refusal.
fn put_explanation(alloc: Global, out: &mut Vec<u8>, code: &[u8], error: LoadError) -> Added {
    if code.starts_with(ELF) {
        return out.extend_from_slice(OF_ELF);
    }
    if is_about_slot(error.why) {
        return put_place(alloc, out, code, error.slot, error.why);
    }
    out.extend_from_slice(rule_of(error.why))
}

/// What is said of code that is refused.
fn explain(alloc: Global, code: &[u8], error: LoadError) -> Result<Vec<u8>, AllocError> {
    let mut text = Vec::new(alloc);
    put_explanation(alloc, &mut text, code, error)?;
    Ok(text)
}

/// What is said of code that is refused. Of another outcome nothing is said.
pub(crate) fn explanation(
    alloc: Global,
    outcome: Result<(), Failure>,
    code: &[u8],
) -> Result<Vec<u8>, AllocError>
    ensures { IfErr result (λ _. (error : LoadError) × (outcome ≡ Err (Failure.Refused error))) }
{
    match outcome {
        Err(Failure::Refused(error)) => explain(alloc, code, error),
        _ => Ok(Vec::new(alloc)),
    }
}
