//! Reads instructions.
ghost use Rattle.std.specs.Prelude.{◌≡◌, ◌*◌, drop, IfOk, IfErr, IfSome, Ok};
ghost use Rattle.isa_table.specs.declared.instr.Instr.{Instr};
ghost use Rattle.isa_table.specs.Slots.{slots};
ghost use Rattle.bpf_codec.specs.Slots.{Fits, Begins};
ghost use Rattle.bpf_codec.specs.Faults.{IsLeastFault, is_packet};
ghost use Rattle.bpf_codec.specs.Decoding.{next_imm, decoded, with_slots};

use crate::building::{build, operands_of};
use crate::checks::check;
use crate::fault::Fault;
use crate::places::rows_at;
use crate::slot::slot_at;
use crate::taking::take_first;
use isa_table::{Instr, slots_of};

/// The imm field of the second slot, or 0 where the opcode has none.
#[tactic(auto, unfolding(crate::specs::Decoding::next_imm))]
#[inline(always)]
fn next_imm_at(opcode: u8, more: &[u8]) -> Result<u32, Fault>
    ensures { result ≡ next_imm opcode more.now }
{
    if opcode != 0x18 {
        return Ok(0);
    }
    if more.len() < 8 {
        return Err(Fault::HalfWide);
    }
    if more[0] != 0 || more[1] != 0 || more[2] != 0 || more[3] != 0 {
        return Err(Fault::Field);
    }
    Ok(slot_at(more).imm)
}

/// Whether the opcode is one of legacy packet access, which is deprecated (RFC 9669, section 5.5).
#[tactic(auto, unfolding(crate::specs::Faults::is_packet))]
fn is_packet_opcode(opcode: u8) -> bool
    ensures { result ≡ is_packet opcode }
{
    matches!(opcode, 0x20 | 0x28 | 0x30 | 0x40 | 0x48 | 0x50)
}

/// The instruction at the head of the bytes, or the least fault, by each of the tests.
#[tactic(auto, unfolding(crate::specs::Decoding::decoded))]
#[inline(never)]
fn read_or_refuse(bytes: &[u8]) -> Result<Instr, Fault>
    ensures { result ≡ decoded bytes.now }
{
    if bytes.len() < 8 {
        return Err(Fault::Short);
    }
    let f = slot_at(bytes);
    let rows = rows_at(f.opcode);
    if rows.is_empty() {
        let packet = is_packet_opcode(f.opcode);
        return Err(if packet { Fault::Packet } else { Fault::Opcode });
    }
    let row = check(f, rows)?;
    let next_imm = next_imm_at(f.opcode, &bytes[8..])?;
    match row {
        Some(row) => Ok(build(row, operands_of(f, next_imm))),
        None => Err(Fault::Platform),
    }
}

/// The instruction at the head of the bytes, where they begin with one.
#[inline(always)]
fn read_valid(bytes: &[u8]) -> Option<Instr>
    ensures { IfSome result (λ i. decoded bytes.now ≡ Ok i) }
{
    if bytes.len() < 8 {
        return None;
    }
    let f = slot_at(bytes);
    // no row has another number there: tested once, not for each use
    if f.dst > 10 || f.src > 10 {
        return None;
    }
    let Ok(next_imm) = next_imm_at(f.opcode, &bytes[8..]) else {
        return None;
    };
    take_first(f, rows_at(f.opcode), operands_of(f, next_imm))
}

/// The instruction at the head of the bytes, or the least fault.
#[inline(always)]
fn read(bytes: &[u8]) -> Result<Instr, Fault>
    ensures { result ≡ decoded bytes.now }
{
    match read_valid(bytes) {
        Some(instr) => Ok(instr),
        None => read_or_refuse(bytes),
    }
}

/// An instruction that was read, and how many slots it takes.
#[inline(always)]
fn with_slots(read: Result<Instr, Fault>) -> Result<(Instr, usize), Fault>
    ensures { result ≡ with_slots read }
{
    let instr = read?;
    Ok((instr, slots_of(&instr)))
}

/// As `decode_at`, by what the bytes from the slot on are read as.
#[tactic(auto, using(crate::proofs::Encodings::past_the_end))]
#[inline(always)]
fn read_at(code: &[u8], slot: usize) -> Result<(Instr, usize), Fault>
    ensures { result ≡ with_slots (decoded (drop (8 * slot) code.now)) }
{
    if slot > code.len() / 8 {
        return Err(Fault::Short);
    }
    with_slots(read(&code[8 * slot..]))
}

/// The instruction that stands at the slot, and how many slots it takes (RFC 9669, section 3). A slot has eight bytes.
///
/// # Errors
///
/// Where no instruction is encoded there, the least fault of the bytes from the slot on. Any slot may be asked for: past
/// the end of the code the fault is `Short`.
#[inline(always)]
pub fn decode_at(code: &[u8], slot: usize) -> Result<(Instr, usize), Fault>
    // What is read stands there.
    ensures found { IfOk result (λ x. Fits x.0 × Begins (drop (8 * slot) code.now) x.0 × (x.1 ≡ slots x.0)) }
    // What stands there is read.
    ensures only { (i : Instr) → Fits i → Begins (drop (8 * slot) code.now) i → result ≡ Ok (i, slots i) }
    // The fault is the least that the bytes there have.
    ensures fault { IfErr result (λ f. IsLeastFault f (drop (8 * slot) code.now)) }
{
    read_at(code, slot)
}

/// As `decode_one`, by what the bytes from the slot on are read as.
#[tactic(auto, using(crate::proofs::Encodings::past_the_end))]
fn read_one(code: &[u8], slot: usize) -> Result<(Instr, usize), Fault>
    ensures { result ≡ with_slots (decoded (drop (8 * slot) code.now)) }
{
    if slot > code.len() / 8 {
        return Err(Fault::Short);
    }
    with_slots(read_or_refuse(&code[8 * slot..]))
}

/// What `decode_at` gives, by each of the tests: for a caller that reads an instruction or two. `decode_at` reads many faster, and
/// is large, so that it is inlined in one place of a program alone.
///
/// # Errors
///
/// As those of `decode_at`.
pub fn decode_one(code: &[u8], slot: usize) -> Result<(Instr, usize), Fault>
    ensures found { IfOk result (λ x. Fits x.0 × Begins (drop (8 * slot) code.now) x.0 × (x.1 ≡ slots x.0)) }
    ensures only { (i : Instr) → Fits i → Begins (drop (8 * slot) code.now) i → result ≡ Ok (i, slots i) }
    ensures fault { IfErr result (λ f. IsLeastFault f (drop (8 * slot) code.now)) }
{
    read_one(code, slot)
}
