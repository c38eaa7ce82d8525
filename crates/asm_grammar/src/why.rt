//! What may be wrong with a text.
ghost use Rattle.std.specs.Prelude.{◌≡◌, ◌≤◌, length};
ghost use Rattle.asm_grammar.specs.Reasons.{why_number, why_name};

use thiserror::Error;

/// Why a text is refused. In one line the least of these is answered, but `Label` only where there is no other in any line.
#[derive(Clone, Copy, Drop, Debug, PartialEq, Eq, Error)]
#[error("{}", self.name())]
pub enum Why {
    /// A byte begins no token, or what stands after the label isn't a mnemonic.
    Word = 1,
    /// The operands have no form of the mnemonic, or something stands after them.
    Operand = 2,
    /// A number is out of its range.
    Range = 3,
    /// A label that is used stands nowhere.
    Label = 4,
    /// The line's label stands in an earlier line too.
    TwiceLabel = 5,
    /// The instruction would use a slot past slot 4095.
    TooLong = 6,
    /// Out of memory.
    Memory = 7,
}

impl Why {
    /// The reason's number.
    pub fn number(self) -> u8
        ensures { result ≡ why_number self }
    {
        self as u8
    }

    /// As it is shown to a user.
    pub fn name(self) -> &'static str
        ensures name { result.now ≡ why_name self }
        ensures short { length result.now ≤ 10 }
    {
        match self {
            Why::Word => "Word",
            Why::Operand => "Operand",
            Why::Range => "Range",
            Why::Label => "Label",
            Why::TwiceLabel => "TwiceLabel",
            Why::TooLong => "TooLong",
            Why::Memory => "Memory",
        }
    }
}
