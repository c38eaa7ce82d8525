//! Tokens and classes of bytes.
ghost use Rattle.std.specs.Prelude.{◌≡◌};
ghost use Rattle.asm_text.specs.Tokens.{in_class, mark_of, lexeme_seen, is_letter, fault_in, fault_number};

use thiserror::Error;

/// A token of a line of assembly.
#[derive(Clone, Copy, Drop, Debug)]
pub enum Token<'a> {
    /// A letter or `_`, then letters, digits and `_`.
    Name(&'a [u8]),
    /// The value of decimal digits, or of `0x` and hex digits, where that is below 2^64.
    Number(Option<u64>),
    Colon,
    Comma,
    Open,
    Close,
    Plus,
    Minus,
    /// A byte that begins no token, or a comment with a byte above 127.
    Stray,
}

/// What may be wrong with a token by itself. The text of an error is its name.
#[derive(Clone, Copy, Drop, Debug, PartialEq, Eq, Error)]
pub enum Fault {
    /// It is no token, or a comment that isn't ASCII.
    #[error("Char")]
    Char = 1,
    /// It is a number above 2^64 - 1.
    #[error("Number")]
    Number = 2,
}

impl Fault {
    /// The fault's number.
    pub fn number(self) -> u8
        ensures { result ≡ fault_number self }
    {
        self as u8
    }
}

impl<'a> Token<'a> {
    /// What is wrong with the token, if anything.
    pub fn fault(self) -> Option<Fault>
        ensures { result ≡ fault_in (lexeme_seen self.entry) }
    {
        match self {
            Token::Stray => Some(Fault::Char),
            Token::Number(None) => Some(Fault::Number),
            _ => None,
        }
    }
}

/// A class of bytes.
#[derive(Clone, Copy, Drop)]
pub enum Class {
    Blank,
    NameByte,
    Digit,
    HexDigit,
    Ascii,
}

impl Class {
    pub fn has(self, b: u8) -> bool
        ensures { result ≡ in_class self b }
    {
        match self {
            Class::Blank => b == b' ' || b == b'\t',
            Class::NameByte => is_letter(b) || b.is_ascii_digit(),
            Class::Digit => b.is_ascii_digit(),
            Class::HexDigit => b.is_ascii_hexdigit(),
            Class::Ascii => b < 128,
        }
    }
}

pub fn is_letter(b: u8) -> bool
    ensures { result ≡ is_letter b }
{
    b.is_ascii_alphabetic() || b == b'_'
}

/// The token of a byte that is no letter and no digit.
pub fn mark<'a>(b: u8) -> Token<'a>
    ensures { lexeme_seen result ≡ mark_of b }
{
    match b {
        b':' => Token::Colon,
        b',' => Token::Comma,
        b'[' => Token::Open,
        b']' => Token::Close,
        b'+' => Token::Plus,
        b'-' => Token::Minus,
        _ => Token::Stray,
    }
}
