//! Writes instructions.
ghost use Rattle.std.specs.Prelude.{◌≡◌};
ghost use Rattle.isa_table.specs.Slots.{slots};
ghost use Rattle.bpf_codec.specs.Slots.{number_in, padded, next_word};

use crate::layout::{Field, layout_of};
use isa_table::{Instr, slots_of};

/// The number in a field; of a 64-bit number its low half.
fn number_of(field: Field) -> u32
    ensures { result ≡ number_in field }
{
    match field {
        Field::Register(r) => r.number() as u32,
        Field::Offset(z) => z.cast_unsigned() as u32,
        Field::Imm(z) => z.cast_unsigned(),
        Field::Wide(v) => (v & 0xffff_ffff) as u32,
        Field::Only(n) => n,
    }
}

/// The imm field of the second slot, or 0 where there is none.
fn next_imm_of(instr: Instr) -> u32
    ensures { result ≡ next_word instr }
{
    match instr {
        Instr::LoadImm64 { value, .. } => (value >> 32) as u32,
        _ => 0,
    }
}

/// The one encoding of the instruction (RFC 9669, section 3), then zeros; and how many slots it takes.
pub fn encode(instr: &Instr) -> ([u8; 16], usize)
    ensures encoded { result.0 ≡ padded instr.now }
    ensures count { result.1 ≡ slots instr.now }
{
    let layout = layout_of(*instr);
    let registers = number_of(layout.dst) + 16 * number_of(layout.src);
    let o = number_of(layout.offset).to_le_bytes();
    let m = number_of(layout.imm).to_le_bytes();
    let n = next_imm_of(*instr).to_le_bytes();
    let bytes = [
        layout.opcode,
        registers as u8,
        o[0],
        o[1],
        m[0],
        m[1],
        m[2],
        m[3],
        0,
        0,
        0,
        0,
        n[0],
        n[1],
        n[2],
        n[3],
    ];
    (bytes, slots_of(instr))
}
