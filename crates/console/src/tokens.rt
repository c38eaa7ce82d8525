//! The tokens of a line, one after the other.
ghost use Rattle.std.specs.Prelude.{◌≡◌, ◌∷◌, ◌≤◌, ◌<◌, ◌^◌, ◌≢◌, ◌+◌, ◌++◌, ℕ, List, [], length, take, drop, get_or, All, codes, true, OnOk, IfOk, IfErr};
ghost use Rattle.std.specs.Prelude.{IfSome, IfNone, Some, IsTrue, ◌↔◌, MatchOption, ◌==◌};
ghost use Rattle.std.specs.Str.Parse.{IsNumeral, digits_value};
ghost use Rattle.hex.specs.Hex.{decode_of};
ghost use Rattle.machine.specs.Grants.{GrantState};
ghost use Rattle.console.specs.Tokens.{tokens_left, tokens_of, AreNumbers, AreBytes, IsNumber, IsNumberWithin, IsHex};
ghost use Rattle.console.specs.Granting.{AreGrants, IsGrant};

use crate::digits::are_hex_digits;
use crate::fault::LineFault;
use crate::kind::{Limits, OBJECT};
use crate::numbers::{NUMBERS, Numbers};
use machine::{GRANT_LIMIT, Grant, Grants};
use memchr::memchr;

/// The tokens that are still to be read.
#[derive(Drop)]
pub struct Tokens<'a> {
    rest: Option<&'a [u8]>,
}

impl<'a> Tokens<'a> {
    /// All tokens of a line.
    pub fn new(line: &'a [u8]) -> Tokens<'a>
        ensures { tokens_left result ≡ tokens_of line.now }
    {
        Tokens { rest: Some(line) }
    }

    /// The next token.
    fn next(&mut self) -> Option<&'a [u8]>
        ensures { MatchOption result (tokens_left self.old ≡ []) (λ token. tokens_left self.old ≡ token.now ∷ tokens_left self.new) }
    {
        let rest = self.rest?;
        match find(b' ', rest) {
            Some(at) => {
                self.rest = Some(&rest[at + 1..]);
                Some(&rest[..at])
            }
            None => {
                self.rest = None;
                Some(rest)
            }
        }
    }

    /// The next token, which has to be there.
    pub fn token(&mut self) -> Result<&'a [u8], LineFault>
        ensures ok { IfOk result (λ token. tokens_left self.old ≡ token.now ∷ tokens_left self.new) }
        ensures err { IfErr result (λ e. (e ≡ LineFault.Bad) × (tokens_left self.old ≡ [])) }
    {
        match self.next() {
            Some(token) => Ok(token),
            None => Err(LineFault::Bad),
        }
    }

    /// The next token, which has to be a number within the limits.
    fn number(&mut self, limits: Limits) -> Result<u64, LineFault>
        ensures ok { IfOk result (λ n. (token : List ℕ) × (tokens_left self.old ≡ token ∷ tokens_left self.new) × IsNumberWithin limits token n) }
        ensures err { IfErr result (λ e. (e ≡ LineFault.Bad)
            × ((token : List ℕ) (left : List (List ℕ)) (n : ℕ) → tokens_left self.old ≡ token ∷ left → IsNumberWithin limits token n → ⊥)) }
    {
        let token = self.token()?;
        match read_within(token, limits) {
            Some(n) => Ok(n),
            None => Err(LineFault::Bad),
        }
    }

    /// The next tokens, which have to be numbers, one for each of the limits and within them. They come first, then zeros.
    pub fn numbers(&mut self, limits: &[Limits]) -> Result<Numbers, LineFault>
        requires { length limits.now ≤ NUMBERS }
        ensures ok { IfOk result (λ numbers. AreNumbers limits.now (tokens_left self.old) (take (length limits.now) numbers) (tokens_left self.new)) }
        ensures room { IfOk result (λ numbers. length numbers ≡ NUMBERS) }
        ensures err { IfErr result (λ e. (e ≡ LineFault.Bad)
            × ((numbers : List ℕ) (left : List (List ℕ)) → AreNumbers limits.now (tokens_left self.old) numbers left → ⊥)) }
    {
        let mut numbers = [0; NUMBERS];
        for i in 0..limits.len() {
            numbers[i] = self.number(limits[i])?;
        }
        Ok(Numbers::new(numbers))
    }

    /// The hex text of the bytes that come next: at most so many. Where there may be none, nothing is read.
    pub fn bytes(&mut self, most: Option<usize>) -> Result<&'a [u8], LineFault>
        ensures ok { IfOk result (λ text. (bytes : List ℕ) × AreBytes most (tokens_left self.old) bytes (tokens_left self.new)
            × (decode_of text.now ≡ Ok bytes)) }
        ensures err { IfErr result (λ e. (e ≡ LineFault.Bad)
            × ((bytes : List ℕ) (left : List (List ℕ)) → AreBytes most (tokens_left self.old) bytes left → ⊥)) }
    {
        match most {
            Some(most) => self.hex(most),
            None => Ok(b""),
        }
    }

    /// The next token, which has to be hex text of at most so many bytes.
    fn hex(&mut self, most: usize) -> Result<&'a [u8], LineFault>
        ensures ok { IfOk result (λ text. (bytes : List ℕ) × AreBytes (Some most) (tokens_left self.old) bytes (tokens_left self.new)
            × (decode_of text.now ≡ Ok bytes)) }
        ensures err { IfErr result (λ e. (e ≡ LineFault.Bad)
            × ((bytes : List ℕ) (left : List (List ℕ)) → AreBytes (Some most) (tokens_left self.old) bytes left → ⊥)) }
    {
        let text = self.token()?;
        if !is_hex(text) {
            return Err(LineFault::Bad);
        }
        if text.len() / 2 > most {
            return Err(LineFault::Bad);
        }
        Ok(text)
    }

    /// What the tokens that come last grant: some objects, or all where there may be no such tokens.
    pub fn grants(&mut self, some: bool) -> Result<Grants, LineFault>
        ensures ok { IfOk result (λ grants. AreGrants some (tokens_left self.old) grants) }
        ensures err { IfErr result (λ e. (e ≡ LineFault.Bad) × ((grants : GrantState) → AreGrants some (tokens_left self.old) grants → ⊥)) }
    {
        if some {
            return self.some_grants();
        }
        self.end()?;
        Ok(Grants::all())
    }

    /// What the tokens that come last grant, which have to grant objects of rising numbers.
    fn some_grants(&mut self) -> Result<Grants, LineFault>
        ensures ok { IfOk result (λ grants. AreGrants true (tokens_left self.old) grants) }
        ensures err { IfErr result (λ e. (e ≡ LineFault.Bad) × ((grants : GrantState) → AreGrants true (tokens_left self.old) grants → ⊥)) }
    {
        let mut grants = Grants::none();
        let mut last = 0;
        'words: for count in 0..GRANT_LIMIT {
            let Some(word) = self.next() else {
                return Ok(grants);
            };
            let Some(grant) = read_grant(word, last) else {
                return Err(LineFault::Bad);
            };
            last = grant.number;
            grants.add(grant);
        }
        self.end()?;
        Ok(grants)
    }

    /// That no token is left.
    fn end(&mut self) -> Result<(), LineFault>
        ensures ok { OnOk result (tokens_left self.old ≡ []) }
        ensures err { IfErr result (λ e. (e ≡ LineFault.Bad) × (tokens_left self.old ≢ [])) }
    {
        match self.next() {
            None => Ok(()),
            Some(_) => Err(LineFault::Bad),
        }
    }
}

/// The number that digits stand for.
fn digits(radix: u32, text: &[u8]) -> Option<u64>
    requires low { 2 ≤ radix }
    requires high { radix ≤ 36 }
    ensures some { IfSome result (λ n. IsNumeral radix text.now × (digits_value radix text.now ≡ n) × (n < 2 ^ 64)) }
    ensures none { IfNone result (IsNumeral radix text.now → digits_value radix text.now < 2 ^ 64 → ⊥) }
{
    // `from_str_radix` would take a sign
    if text.is_empty() || text[0] == b'+' {
        return None;
    }
    match str::from_utf8(text) {
        Ok(text) => match u64::from_str_radix(text, radix) {
            Ok(n) => Some(n),
            Err(_) => None,
        },
        Err(_) => None,
    }
}

/// The number that a token is.
fn read_number(token: &[u8]) -> Option<u64>
    ensures some { IfSome result (λ n. IsNumber token.now n) }
    ensures none { IfNone result ((n : ℕ) → IsNumber token.now n → ⊥) }
{
    if token.len() >= 2 && token[0] == b'0' {
        if token[1] != b'x' || token.len() > 18 {
            return None;
        }
        return digits(16, &token[2..]);
    }
    digits(10, token)
}

/// The number that a token is, which has to be within the limits.
fn read_within(token: &[u8], limits: Limits) -> Option<u64>
    ensures some { IfSome result (λ n. IsNumberWithin limits token.now n) }
    ensures none { IfNone result ((n : ℕ) → IsNumberWithin limits token.now n → ⊥) }
{
    let n = read_number(token)?;
    if n < limits.least {
        return None;
    }
    if n > limits.most {
        return None;
    }
    Some(n)
}

/// The object that a word grants, which has to have a number above the last one's.
fn read_grant(word: &[u8], last: u32) -> Option<Grant>
    ensures some { IfSome result (λ grant. IsGrant word.now grant × (last < grant.number)) }
    ensures none { IfNone result ((grant : Grant) → IsGrant word.now grant → last < grant.number → ⊥) }
{
    if word.is_empty() {
        return None;
    }
    let writes = word[0] == b'w';
    if !writes && word[0] != b'r' {
        return None;
    }
    let number = read_within(&word[1..], OBJECT)? as u32;
    if number <= last {
        return None;
    }
    Some(Grant { number, writes })
}

/// Whether a token is hex text of at least one byte.
fn is_hex(token: &[u8]) -> bool
    ensures { IsTrue result ↔ ((bytes : List ℕ) × IsHex token.now bytes) }
{
    if token.is_empty() {
        return false;
    }
    if token.len() % 2 != 0 {
        return false;
    }
    are_hex_digits(token)
}

/// Where the byte stands first.
pub fn find(byte: u8, text: &[u8]) -> Option<usize>
    ensures found { IfSome result (λ at. (at < length text.now) × (text.now ≡ take at text.now ++ byte ∷ drop (at + 1) text.now)
        × All (λ b. b ≢ byte) (take at text.now)) }
    ensures none { IfNone result (All (λ b. b ≢ byte) text.now) }
{
    memchr(byte, text)
}
