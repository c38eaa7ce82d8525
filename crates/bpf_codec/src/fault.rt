//! Why no instruction is read.
ghost use Rattle.std.specs.Prelude.{◌≡◌, ◌≤◌, length};
ghost use Rattle.bpf_codec.specs.Faults.{fault_number, fault_name};

use thiserror::Error;

/// Why the bytes at a slot encode no instruction. The least number whose condition holds is answered. The numbers and
/// names are this project's choice; the text of an error is its name.
#[derive(Clone, Copy, Drop, Debug, PartialEq, Eq, Error)]
#[error("{}", self.text())]
pub enum Fault {
    /// The opcode is neither in the instruction table nor one of legacy packet access.
    Opcode = 1,
    /// A field that the opcode reads as a register holds 11 to 15 (RFC 9669, section 3.1).
    Register = 2,
    /// An unused field or a reserved bit is not zero, or a field holds none of the opcode's values.
    Field = 3,
    /// The second slot of a wide instruction is not there whole (section 3.2).
    HalfWide = 4,
    /// The opcode is one of legacy packet access, which is deprecated (section 5.5).
    Packet = 5,
    /// A form that needs a platform's maps, variables or functions (sections 4.3.1 and 5.4).
    Platform = 6,
    /// Fewer than eight bytes are left.
    Short = 7,
}

impl Fault {
    /// The fault's number. Of the faults that bytes have, that of the least number is answered.
    pub fn number(self) -> u8
        ensures { result ≡ fault_number self }
    {
        self as u8
    }

    /// The fault's name, as replies and refusals write it.
    pub fn name(self) -> &'static [u8]
        ensures name { result.now ≡ fault_name self }
        ensures short { length result.now ≤ 10 }
    {
        self.text().as_bytes()
    }

    /// The same as a text.
    pub fn text(self) -> &'static str
        ensures name { result.now ≡ fault_name self }
        ensures short { length result.now ≤ 10 }
    {
        match self {
            Fault::Opcode => "Opcode",
            Fault::Register => "Register",
            Fault::Field => "Field",
            Fault::HalfWide => "HalfWide",
            Fault::Packet => "Packet",
            Fault::Platform => "Platform",
            Fault::Short => "Short",
        }
    }
}
