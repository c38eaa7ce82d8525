//! Reads the tokens of a line.
ghost use Rattle.std.specs.Prelude.{◌≡◌, ◌∷◌, ◌≤◌, ◌<◌, ◌+◌, ◌-◌, ◌⊎◌, List, [], length, drop, take, slice_range, IfSome, MatchOption, cond, IsTrue};
ghost use Rattle.std.specs.Str.Parse.{IsNumeral, digits_value};
ghost use Rattle.asm_text.specs.Tokens.{bounded, in_class, is_ascii, run, word_length, begins_hex, begins_comment, is_clean, lexeme_of, numeral_value, tokens};
ghost use Rattle.asm_text.specs.Tokens.{lexeme_seen, lexemes_left, next_start, next_end, IsFirstOf, IsNumberToken, IsToken};
ghost use Rattle.asm_text.specs.Tokens.Lexeme.{Stray};

use crate::cursor::Tokens;
use crate::token::{Class, Token, is_letter, mark};

/// A token, and where it stands in its line.
#[derive(Clone, Copy, Drop, Debug)]
pub struct Found<'a> {
    pub token: Token<'a>,
    pub start: usize,
    pub end: usize,
}

/// How many bytes at the front are of the class.
#[tactic(auto, using(crate::proofs::Scanned::run_more, crate::proofs::Scanned::run_ends, crate::proofs::Scanned::run_all))]
fn run(class: Class, bytes: &[u8]) -> usize
    ensures run { result ≡ run (in_class class) bytes.now }
    ensures bound { result ≤ length bytes.now }
{
    for i in 0..bytes.len() {
        if !class.has(bytes[i]) {
            return i;
        }
    }
    bytes.len()
}

fn begins_comment(b: u8) -> bool
    ensures { result ≡ begins_comment b }
{
    b == b'#' || b == b';'
}

/// Whether all bytes are ASCII.
fn is_clean(comment: &[u8]) -> bool
    ensures { result ≡ is_clean comment.now }
{
    run(Class::Ascii, comment) == comment.len()
}

/// Whether `x` and a hex digit are at the front.
fn begins_hex(bytes: &[u8]) -> bool
    ensures { result ≡ begins_hex bytes.now }
{
    bytes.len() >= 2 && bytes[0] == b'x' && bytes[1].is_ascii_hexdigit()
}

/// The length of the token at the front.
#[tactic(auto, unfolding(crate::specs::Tokens::word_length))]
fn word_length(bytes: &[u8]) -> usize
    requires { 0 < length bytes.now }
    ensures length { result ≡ word_length bytes.now }
    ensures some { 0 < result }
    ensures bound { result ≤ length bytes.now }
{
    let after = &bytes[1..];
    if is_letter(bytes[0]) {
        return 1 + run(Class::NameByte, after);
    }
    if bytes[0] == b'0' && begins_hex(after) {
        return 2 + run(Class::HexDigit, &after[1..]);
    }
    if bytes[0].is_ascii_digit() {
        return 1 + run(Class::Digit, after);
    }
    1
}

/// The value of digits.
fn digits(radix: u32, text: &[u8]) -> Option<u64>
    requires low { 2 ≤ radix }
    requires high { radix ≤ 36 }
    requires numeral { IsNumeral radix text.now }
    ensures { result ≡ bounded (digits_value radix text.now) }
{
    match str::from_utf8(text) {
        Ok(text) => match u64::from_str_radix(text, radix) {
            Ok(n) => Some(n),
            Err(_) => None,
        },
        Err(_) => None,
    }
}

/// The value of a word that begins with a digit.
fn number(word: &[u8]) -> Option<u64>
    requires { IsNumberToken word.now }
    ensures { result ≡ numeral_value word.now }
{
    if word.len() >= 2 && word[1] == b'x' {
        return digits(16, &word[2..]);
    }
    digits(10, word)
}

/// The token that the bytes of a token are.
#[tactic(auto, unfolding(crate::specs::Tokens::lexeme_of))]
fn token<'a>(word: &'a [u8]) -> Token<'a>
    requires { IsToken word.now }
    ensures { lexeme_seen result ≡ lexeme_of word.now }
{
    let first = word[0];
    if is_letter(first) {
        return Token::Name(word);
    }
    if first.is_ascii_digit() {
        return Token::Number(number(word));
    }
    mark(first)
}

impl<'a> Tokens<'a> {
    /// All tokens of a line.
    pub fn new(line: &'a [u8]) -> Tokens<'a>
        ensures tokens { lexemes_left result ≡ tokens line.now }
        ensures line { result.line.now ≡ line.now }
    {
        Tokens { line, at: 0 }
    }

    /// The next token, or the comment that is one since it isn't ASCII. Spans are of the line's bytes: each token is what the
    /// bytes of its span are.
    #[tactic(auto, using(crate::proofs::Scanned::start_is))]
    pub fn next(&mut self) -> Option<Found<'a>>
        // the tokens in turn
        ensures tokens { MatchOption result (lexemes_left self.old ≡ []) (λ f. lexemes_left self.old ≡ lexeme_seen f.token ∷ lexemes_left self.new) }
        ensures start { IfSome result (λ f. f.start ≡ next_start self.old.at self.old.line.now) }
        ensures end { IfSome result (λ f. (f.start < f.end) × (f.end ≡ self.new.at) × (f.end ≤ length self.old.line.now)) }
        // no token is cut in two
        ensures whole { IfSome result (λ f. IsFirstOf (lexemes_left self.old) self.old.line.now f.start f.end) }
        // a comment reaches to the line's end
        ensures bytes { IfSome result (λ f. lexeme_seen f.token ≡ lexeme_of (slice_range self.old.line.now f.start f.end)
            ⊎ ((lexeme_seen f.token ≡ Stray) × (f.end ≡ length self.old.line.now))) }
        ensures line { self.new.line.now ≡ self.old.line.now }
    {
        let after = &self.line[self.at..];
        let start = self.at + run(Class::Blank, after);
        let rest = &self.line[start..];
        if rest.is_empty() {
            return None;
        }
        if begins_comment(rest[0]) {
            self.at = self.line.len();
            if is_clean(&rest[1..]) {
                return None;
            }
            return Some(Found {
                token: Token::Stray,
                start,
                end: self.line.len(),
            });
        }
        let length = word_length(rest);
        let end = start + length;
        self.at = end;
        Some(Found {
            token: token(&rest[..length]),
            start,
            end,
        })
    }
}
