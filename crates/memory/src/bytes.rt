//! Numbers in bytes, the lowest byte first.
ghost use Rattle.std.specs.Prelude.{◌≡◌, ◌+◌, ◌*◌, ◌^◌, ◌<◌, ◌≤◌, length, take, drop};
ghost use Rattle.isa_table.specs.Words.{number_of, low_bytes};
ghost use Rattle.isa_table.specs.Table.{size_bytes};
ghost use Rattle.memory.specs.Access.{IsInside, replaced, with_number, answer, after};

use crate::access::{Action, Op};
use byteorder::{ByteOrder, LittleEndian};
use isa_table::{Size, atomic};

#[inline(always)]
fn read(bytes: &[u8], offset: usize, size: Size) -> u64
    requires { offset + size_bytes size ≤ length bytes.now }
    ensures value { result ≡ number_of (take (size_bytes size) (drop offset bytes.now)) }
    ensures bound { result < 2 ^ (8 * size_bytes size) }
{
    match size {
        Size::Byte => bytes[offset] as u64,
        Size::Half => LittleEndian::read_u16(&bytes[offset..]) as u64,
        Size::Word => LittleEndian::read_u32(&bytes[offset..]) as u64,
        Size::Double => LittleEndian::read_u64(&bytes[offset..]),
    }
}

#[inline(always)]
fn write(bytes: &mut [u8], offset: usize, size: Size, value: u64)
    requires { offset + size_bytes size ≤ length bytes.old }
    ensures { bytes.new ≡ replaced offset (low_bytes (size_bytes size) value) bytes.old }
{
    match size {
        Size::Byte => bytes[offset] = (value & 0xff) as u8,
        Size::Half => LittleEndian::write_u16(&mut bytes[offset..], (value & 0xffff) as u16),
        Size::Word => LittleEndian::write_u32(&mut bytes[offset..], (value & 0xffff_ffff) as u32),
        Size::Double => LittleEndian::write_u64(&mut bytes[offset..], value),
    }
}

#[inline(always)]
fn write_if(bytes: &mut [u8], offset: usize, size: Size, value: Option<u64>)
    requires { offset + size_bytes size ≤ length bytes.old }
    ensures { bytes.new ≡ with_number offset (size_bytes size) value bytes.old }
{
    if let Some(value) = value {
        write(bytes, offset, size, value);
    }
}

/// Writes bytes over those from an offset on.
pub fn overwrite(bytes: &mut [u8], offset: usize, new: &[u8])
    requires { offset + length new.now ≤ length bytes.old }
    ensures { bytes.new ≡ replaced offset new.now bytes.old }
{
    bytes[offset..offset + new.len()].copy_from_slice(new);
}

/// Does an access on the bytes.
#[inline(always)]
pub fn act(bytes: &mut [u8], op: &Op) -> u64
    requires { IsInside op.now (length bytes.old) }
    ensures answer { result ≡ answer op.now bytes.old }
    ensures after { bytes.new ≡ after op.now bytes.old }
{
    let offset = op.offset as usize;
    match op.action {
        Action::Load { size } => read(bytes, offset, size),
        Action::Store { size, value } => {
            write(bytes, offset, size, value);
            0
        }
        Action::Atomic { width, op, src, r0 } => {
            let size = width.size();
            let old = read(bytes, offset, size);
            write_if(bytes, offset, size, atomic(op, width, old, src, r0));
            old
        }
    }
}
