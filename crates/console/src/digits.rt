//! Hex digits. Loops without a test or a table, of which the compiler makes instructions that treat many bytes at once.
ghost use Rattle.std.specs.Prelude.{◌≡◌, ◌<◌, ◌*◌, ◌/◌, ℕ, List, length, slice_index, true, IsTrue, ◌↔◌};
ghost use Rattle.std.specs.List.{AllPass};
ghost use Rattle.hex.specs.Hex.{decode_of, encode_lower, hex_digit_value, is_hex_digit, lower_digits};

/// Whether all bytes are hex digits of either case.
pub fn are_hex_digits(token: &[u8]) -> bool
    ensures { IsTrue result ↔ AllPass is_hex_digit token.now }
{
    let mut all = true;
    for b in token {
        all &= is_digit(*b);
    }
    all
}

/// Whether a byte is a hex digit of either case.
fn is_digit(b: u8) -> bool
    ensures { result ≡ is_hex_digit b }
{
    matches!(b, b'A'..=b'F') || matches!(b, b'a'..=b'f') || matches!(b, b'0'..=b'9')
}

/// Writes the bytes of hex text.
pub fn write_bytes(text: &[u8], bytes: &mut [u8])
    requires text { (value : List ℕ) × (decode_of text.now ≡ Ok value) }
    requires room { length text.now / 2 ≡ length bytes.old }
    ensures { decode_of text.now ≡ Ok bytes.new }
{
    for i in 0..bytes.len() {
        bytes[i] = value_of(text[2 * i]) * 16 + value_of(text[2 * i + 1]);
    }
}

/// The value of a hex digit: the low half of its byte, and 9 more for a letter.
fn value_of(digit: u8) -> u8
    requires { is_hex_digit digit ≡ true }
    ensures { hex_digit_value digit ≡ Some result }
{
    digit % 16 + digit / 64 * 9
}

/// Writes the digits of bytes, in lower case.
pub fn write_digits(bytes: &[u8], text: &mut [u8])
    requires { length text.old ≡ 2 * length bytes.now }
    ensures { text.new ≡ encode_lower bytes.now }
{
    for i in 0..bytes.len() {
        text[2 * i] = digit_of(bytes[i] / 16);
        text[2 * i + 1] = digit_of(bytes[i] % 16);
    }
}

/// The hex digit of a value, in lower case.
fn digit_of(value: u8) -> u8
    requires { value < 16 }
    ensures { result ≡ slice_index lower_digits value }
{
    value + b'0' + if value > 9 { 39 } else { 0 }
}
