//! What `check --explain` says of bytes that begin with no instruction.
ghost use Rattle.std.specs.Prelude.{◌≤◌, length};
ghost use Rattle.bpf_codec.specs.Faults.{IsLeastFault};

use asm_table::mnemonic_of;
use bpf_codec::{Fault, Field, Slot, layout_of, may_hold_in, rows_at, slot_at};
use isa_table::Instr;
use itoa::Integer;
use std::alloc::{AllocError, Global};

/// How adding to a text went: out of memory, or well.
pub(crate) type Added = Result<(), AllocError>;

/// A field of a slot beside the opcode (RFC 9669, section 3.1).
#[derive(Clone, Copy, Drop)]
enum FieldPlace {
    Dst,
    Src,
    Offset,
    Imm,
}

/// The field's name.
fn place_name(place: FieldPlace) -> &'static [u8] {
    match place {
        FieldPlace::Dst => b"dst",
        FieldPlace::Src => b"src",
        FieldPlace::Offset => b"offset",
        FieldPlace::Imm => b"imm",
    }
}

/// The number that a slot holds there.
fn number_in(place: FieldPlace, f: Slot) -> u32 {
    match place {
        FieldPlace::Dst => u32::from(f.dst),
        FieldPlace::Src => u32::from(f.src),
        FieldPlace::Offset => u32::from(f.offset),
        FieldPlace::Imm => f.imm,
    }
}

/// The same as it is shown: offset and imm are signed.
fn shown_in(place: FieldPlace, f: Slot) -> i32 {
    match place {
        FieldPlace::Dst => i32::from(f.dst),
        FieldPlace::Src => i32::from(f.src),
        FieldPlace::Offset => i32::from(f.offset.cast_signed()),
        FieldPlace::Imm => f.imm.cast_signed(),
    }
}

/// What an instruction has there.
fn field_of(place: FieldPlace, instr: Instr) -> Field {
    let layout = layout_of(instr);
    match place {
        FieldPlace::Dst => layout.dst,
        FieldPlace::Src => layout.src,
        FieldPlace::Offset => layout.offset,
        FieldPlace::Imm => layout.imm,
    }
}

/// Whether the instruction's row may hold what the slot holds there.
fn fits_in(place: FieldPlace, f: Slot, instr: Instr) -> bool {
    may_hold_in(field_of(place, instr), number_in(place, f))
}

/// Whether some of these rows may.
fn some_fits_in(place: FieldPlace, f: Slot, rows: &[Instr]) -> bool {
    for row in rows {
        if fits_in(place, f, *row) {
            return true;
        }
    }
    false
}

/// Whether the row may hold it, or none may.
fn is_like(place: FieldPlace, f: Slot, rows: &[Instr], row: Instr) -> bool {
    !some_fits_in(place, f, rows) || fits_in(place, f, row)
}

/// Whether the row may hold what the slot holds, except in the fields in which none may.
fn is_meant(f: Slot, rows: &[Instr], row: Instr) -> bool {
    is_like(FieldPlace::Dst, f, rows, row)
        && is_like(FieldPlace::Src, f, rows, row)
        && is_like(FieldPlace::Offset, f, rows, row)
        && is_like(FieldPlace::Imm, f, rows, row)
}

/// The first row that is meant.
fn meant(f: Slot, rows: &[Instr]) -> Option<Instr> {
    for row in rows {
        if is_meant(f, rows, *row) {
            return Some(*row);
        }
    }
    None
}

/// Adds a number in decimal.
pub(crate) fn put_decimal<I: Integer>(out: &mut Vec<u8>, number: I) -> Added {
    out.extend_from_slice(itoa::Buffer::new().format(number).as_bytes())
}

/// Adds bytes in hex.
pub(crate) fn put_hex(alloc: Global, out: &mut Vec<u8>, bytes: &[u8]) -> Added {
    let digits = hex::encode(alloc, bytes)?;
    out.extend_from_slice(digits.as_bytes())
}

/// Adds the numbers that a field may hold.
fn put_allowed(out: &mut Vec<u8>, field: Field) -> Added {
    match field {
        Field::Register(_) => out.extend_from_slice(b"0 to 10"),
        Field::Only(n) => put_decimal(out, n),
        _ => out.extend_from_slice(b"any number"),
    }
}

/// Adds the same, and in which instruction.
fn put_choice(out: &mut Vec<u8>, place: FieldPlace, instr: Instr) -> Added {
    put_allowed(out, field_of(place, instr))?;
    out.extend_from_slice(b" in ")?;
    out.extend_from_slice(mnemonic_of(&instr).name())
}

/// Whether two fields hold different numbers in every instruction.
fn differs(first: Field, other: Field) -> bool {
    match (first, other) {
        (Field::Only(m), Field::Only(n)) => m != n,
        _ => false,
    }
}

/// Adds what a field may hold in another row, where that differs from the first one.
fn put_other(out: &mut Vec<u8>, place: FieldPlace, first: Instr, row: Instr) -> Added {
    if !differs(field_of(place, first), field_of(place, row)) {
        return Ok(());
    }
    out.extend_from_slice(b" or ")?;
    put_choice(out, place, row)
}

/// Adds the same of each row.
fn put_others(out: &mut Vec<u8>, place: FieldPlace, first: Instr, rows: &[Instr]) -> Added {
    for row in rows {
        put_other(out, place, first, *row)?;
    }
    Ok(())
}

/// Adds what a field may hold in each of these rows, the first of which is meant.
fn put_choices(out: &mut Vec<u8>, place: FieldPlace, first: Instr, rows: &[Instr]) -> Added {
    put_choice(out, place, first)?;
    put_others(out, place, first, rows)
}

/// Adds what a slot holds in a field.
fn put_held(out: &mut Vec<u8>, place: FieldPlace, f: Slot) -> Added {
    out.extend_from_slice(place_name(place))?;
    out.extend_from_slice(b" is ")?;
    put_decimal(out, shown_in(place, f))
}

/// Adds what is said of a field that is wrong.
fn put_wrong(out: &mut Vec<u8>, place: FieldPlace, f: Slot, first: Instr, rows: &[Instr]) -> Added {
    put_held(out, place, f)?;
    out.extend_from_slice(b", and has to be ")?;
    put_choices(out, place, first, rows)?;
    out.extend_from_slice(b"; ")
}

/// Adds what is said of a field.
fn put_field(out: &mut Vec<u8>, place: FieldPlace, f: Slot, first: Instr, rows: &[Instr]) -> Added {
    if some_fits_in(place, f, rows) {
        return Ok(());
    }
    put_wrong(out, place, f, first, rows)
}

/// Adds what is said of each field of the slot.
fn put_fields(out: &mut Vec<u8>, f: Slot, first: Instr, rows: &[Instr]) -> Added {
    put_field(out, FieldPlace::Dst, f, first, rows)?;
    put_field(out, FieldPlace::Src, f, first, rows)?;
    put_field(out, FieldPlace::Offset, f, first, rows)?;
    put_field(out, FieldPlace::Imm, f, first, rows)
}

/// Adds the same where an instruction is meant, otherwise a general rule.
fn put_slot(out: &mut Vec<u8>, first: Option<Instr>, f: Slot, rows: &[Instr]) -> Added {
    match first {
        Some(first) => put_fields(out, f, first, rows),
        None => out.extend_from_slice(
            b"a field that isn't used isn't zero, or one has a value that it can't have; ",
        ),
    }
}

/// Whether one of the second slot's reserved bits is set (RFC 9669, section 3.2).
fn has_reserved_bits(bytes: &[u8]) -> bool
    requires { 16 ≤ length bytes.now }
{
    bytes[8] != 0 || bytes[9] != 0 || bytes[10] != 0 || bytes[11] != 0
}

/// Whether it is a wide instruction, and its second slot has such bits.
fn sets_reserved_bits(bytes: &[u8]) -> bool {
    bytes.len() >= 16 && bytes[0] == 0x18 && has_reserved_bits(bytes)
}

/// The first four bytes of the second slot, as many as there are.
fn second_head(bytes: &[u8]) -> &[u8] {
    let rest = &bytes[bytes.len().min(8)..];
    &rest[..rest.len().min(4)]
}

/// Adds what is said of reserved bits that are set.
fn put_reserved(alloc: Global, out: &mut Vec<u8>, bytes: &[u8]) -> Added {
    out.extend_from_slice(b"the second slot begins with ")?;
    put_hex(alloc, out, second_head(bytes))?;
    out.extend_from_slice(b", and has to begin with 00000000 in lddw; ")
}

/// Adds what is said of a second slot.
fn put_second(alloc: Global, out: &mut Vec<u8>, bytes: &[u8]) -> Added {
    if !sets_reserved_bits(bytes) {
        return Ok(());
    }
    put_reserved(alloc, out, bytes)
}

/// Adds what is said of an instruction's slots in which a field is wrong.
fn put_encoding(alloc: Global, out: &mut Vec<u8>, bytes: &[u8]) -> Added
    requires { 8 ≤ length bytes.now }
{
    let f = slot_at(bytes);
    let rows = rows_at(f.opcode);
    put_slot(out, meant(f, rows), f, rows)?;
    put_second(alloc, out, bytes)?;
    out.extend_from_slice(b"see RFC 9669, sections 3 to 5")
}

/// Adds the opcode, in hex.
fn put_opcode(alloc: Global, out: &mut Vec<u8>, bytes: &[u8]) -> Added
    requires { 8 ≤ length bytes.now }
{
    out.extend_from_slice(b"opcode 0x")?;
    put_hex(alloc, out, &bytes[..1])
}

/// What `lddw` loads, by its source field (RFC 9669, section 5.4).
fn loaded_text(source: u8) -> &'static [u8] {
    match source {
        1 => b"a map by its file descriptor",
        2 => b"an address in a map, by the map's file descriptor",
        3 => b"the address of a variable",
        4 => b"the address of an instruction",
        5 => b"a map by its index",
        _ => b"an address in a map, by the map's index",
    }
}

/// Adds what is asked of a platform: by `lddw`, or else by a call with source 2 (RFC 9669, section 4.3.1).
fn put_platform(out: &mut Vec<u8>, f: Slot) -> Added {
    if f.opcode != 0x18 {
        return out.extend_from_slice(
            b"src is 2, so call calls a function by its BTF ID; there is no platform here to supply it (RFC 9669, section 4.3.1)",
        );
    }
    out.extend_from_slice(b"src is ")?;
    put_decimal(out, f.src)?;
    out.extend_from_slice(b", so lddw loads ")?;
    out.extend_from_slice(loaded_text(f.src))?;
    out.extend_from_slice(b"; there is no platform here to supply it (RFC 9669, section 5.4)")
}

/// Adds what is said of an opcode that no instruction has.
fn put_no_opcode(alloc: Global, out: &mut Vec<u8>, bytes: &[u8]) -> Added
    requires { 8 ≤ length bytes.now }
{
    out.extend_from_slice(b"no instruction has ")?;
    put_opcode(alloc, out, bytes)?;
    out.extend_from_slice(b" (RFC 9669, section 3.1)")
}

/// Adds what is said of a wide instruction whose second slot isn't there whole.
fn put_half(out: &mut Vec<u8>, bytes: &[u8]) -> Added
    requires { 8 ≤ length bytes.now }
{
    out.extend_from_slice(b"lddw takes two slots, and the second one has ")?;
    put_decimal(out, bytes.len() - 8)?;
    out.extend_from_slice(b" of 8 bytes (RFC 9669, section 3.2)")
}

/// Adds what is said of legacy packet access.
fn put_packet(alloc: Global, out: &mut Vec<u8>, bytes: &[u8]) -> Added
    requires { 8 ≤ length bytes.now }
{
    put_opcode(alloc, out, bytes)?;
    out.extend_from_slice(
        b" is legacy packet access, which is deprecated and isn't run here (RFC 9669, section 5.5)",
    )
}

/// Adds what is said of a slot that isn't there whole.
fn put_short(out: &mut Vec<u8>, bytes: &[u8]) -> Added {
    out.extend_from_slice(b"the slot has ")?;
    put_decimal(out, bytes.len())?;
    out.extend_from_slice(b" of 8 bytes (RFC 9669, section 3.1)")
}

/// Adds what is said of bytes of which this is the least fault, without a line end.
#[tactic(auto, using(crate::proofs::FirstSlot::whole))]
pub(crate) fn put_fault(alloc: Global, out: &mut Vec<u8>, bytes: &[u8], fault: Fault) -> Added
    requires { IsLeastFault fault bytes.now }
{
    match fault {
        Fault::Opcode => put_no_opcode(alloc, out, bytes),
        Fault::Register | Fault::Field => put_encoding(alloc, out, bytes),
        Fault::HalfWide => put_half(out, bytes),
        Fault::Packet => put_packet(alloc, out, bytes),
        Fault::Platform => put_platform(out, slot_at(bytes)),
        Fault::Short => put_short(out, bytes),
    }
}
