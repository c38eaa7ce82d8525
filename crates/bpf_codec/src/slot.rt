//! The fields of a slot.
ghost use Rattle.std.specs.Prelude.{◌≡◌, ◌≤◌, length};
ghost use Rattle.bpf_codec.specs.Slots.{fields};

use byteorder::{ByteOrder, LittleEndian};

/// The fields of eight bytes (RFC 9669, section 3.1).
#[derive(Clone, Copy, Drop, Debug)]
pub struct Slot {
    pub opcode: u8,
    pub dst: u8,
    pub src: u8,
    pub offset: u16,
    pub imm: u32,
}

/// The fields of the first eight bytes.
pub fn slot_at(bytes: &[u8]) -> Slot
    requires { 8 ≤ length bytes.now }
    ensures { result ≡ fields bytes.now }
{
    Slot {
        opcode: bytes[0],
        dst: bytes[1] % 16,
        src: bytes[1] / 16,
        offset: LittleEndian::read_u16(&bytes[2..]),
        imm: LittleEndian::read_u32(&bytes[4..]),
    }
}
