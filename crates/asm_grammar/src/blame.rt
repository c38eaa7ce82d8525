//! Which token of a line a reason against it is about.
ghost use Rattle.std.specs.Prelude.{◌≡◌, ◌≢◌, ◌<◌, ◌≤◌, length, List, [], MatchOption, IfSome, Some, None, true, if◌then◌else◌};
ghost use Rattle.asm_text.specs.Tokens.{lexemes_left, lexeme_seen, tokens, IsFirstOf};
ghost use Rattle.asm_grammar.specs.Blame.{blamed, first_from, in_body, is_about, is_sought, operand_from, passed, past_comma};
ghost use Rattle.asm_grammar.specs.Views.{taken_by};

use crate::line::{has_stray, read_mnemonic, split};
use crate::reading::next_operand;
use crate::taking::{Taken, take};
use crate::why::Why;
use asm_table::Sort;
use asm_text::{Token, Tokens};

/// Whether a reason may be about an operand that is taken so.
fn is_about<'a>(why: Why, taken: Taken<'a>) -> bool
    ensures { result ≡ is_about why (taken_by taken.entry) }
{
    match (why, taken) {
        (Why::Operand, Taken::No) => true,
        (Why::Range, Taken::Out) => true,
        (Why::Label, Taken::To(_)) => true,
        (Why::Label, Taken::LongTo(_)) => true,
        _ => false,
    }
}

/// Passes the operand at the front, where it can be read and the reason isn't about it.
#[tactic(auto, unfolding(crate::specs::Blame::passed))]
pub(crate) fn pass<'a>(tokens: &mut Tokens<'a>, first: bool, sort: Sort, why: Why) -> bool
    ensures passed { passed why first sort (lexemes_left tokens.old) ≡ (if result then Some (lexemes_left tokens.new) else None) }
    ensures line { tokens.new.line.now ≡ tokens.old.line.now }
{
    match next_operand(tokens, first) {
        Some(w) => !is_about(why, take(sort, w)),
        None => false,
    }
}

/// The tokens after the comma at the front, which stands before each operand but the first.
fn past_comma<'a>(tokens: Tokens<'a>, first: bool) -> Tokens<'a>
    ensures tokens { lexemes_left result ≡ past_comma first (lexemes_left tokens.entry) }
    ensures line { result.line.now ≡ tokens.entry.line.now }
{
    if first {
        return tokens;
    }
    let mut rest = tokens;
    match rest.next() {
        Some(found) => match found.token {
            Token::Comma => rest,
            _ => tokens,
        },
        None => tokens,
    }
}

/// The tokens from that operand on which the reason is about.
fn find_operand<'a>(tokens: Tokens<'a>, sorts: &[Sort], why: Why) -> Tokens<'a>
    ensures tokens { lexemes_left result ≡ operand_from why true sorts.now (lexemes_left tokens.entry) }
    ensures line { result.line.now ≡ tokens.entry.line.now }
{
    let mut rest = tokens;
    for i in 0..sorts.len() {
        let here = past_comma(rest, i == 0);
        if !pass(&mut rest, i == 0, sorts[i], why) {
            return here;
        }
    }
    rest
}

/// The same of what stands after a line's label.
fn find_in_body<'a>(body: Tokens<'a>, why: Why) -> Tokens<'a>
    ensures tokens { lexemes_left result ≡ in_body why (lexemes_left body.entry) }
    ensures line { result.line.now ≡ body.entry.line.now }
{
    let mut rest = body;
    match rest.next() {
        None => body,
        Some(found) => match read_mnemonic(found.token, &mut rest) {
            Some(m) => find_operand(rest, m.sorts(), why),
            None => body,
        },
    }
}

/// Whether the token is a number, or else a stray byte.
fn is_sought<'a>(numbers: bool, token: Token<'a>) -> bool
    ensures { result ≡ is_sought numbers (lexeme_seen token.entry) }
{
    match token {
        Token::Number(_) => numbers,
        Token::Stray => !numbers,
        _ => false,
    }
}

/// The tokens from the first number on, or else from the first stray byte on.
fn find_first<'a>(tokens: Tokens<'a>, numbers: bool) -> Tokens<'a>
    ensures tokens { lexemes_left result ≡ first_from numbers (lexemes_left tokens.entry) }
    ensures line { result.line.now ≡ tokens.entry.line.now }
{
    let mut here = tokens;
    let mut rest = tokens;
    while let Some(found) = rest.next() {
        if is_sought(numbers, found.token) {
            return here;
        }
        here = rest;
    }
    here
}

/// The tokens from that one on which the reason is about.
fn find<'a>(line: &'a [u8], why: Why) -> Tokens<'a>
    ensures tokens { lexemes_left result ≡ blamed why (tokens line.now) }
    ensures line { result.line.now ≡ line.now }
{
    let (_, body) = split(line);
    match why {
        Why::Word => {
            if has_stray(line) {
                return find_first(Tokens::new(line), false);
            }
            body
        }
        Why::Operand => find_in_body(body, Why::Operand),
        Why::Range => find_first(find_in_body(body, Why::Range), true),
        Why::Label => find_in_body(body, Why::Label),
        Why::TwiceLabel => Tokens::new(line),
        Why::TooLong => body,
        Why::Memory => Tokens::new(line),
    }
}

/// Where the token begins and ends that a reason against a line is about; nothing where the reason
/// is that the line ends too early.
pub fn blamed_token(line: &[u8], why: Why) -> Option<(usize, usize)>
    ensures token { MatchOption result (blamed why (tokens line.now) ≡ []) (λ span. IsFirstOf (blamed why (tokens line.now)) line.now span.0 span.1) }
    ensures some { IfSome result (λ span. blamed why (tokens line.now) ≢ []) }
    ensures bounds { IfSome result (λ span. (span.0 < span.1) × (span.1 ≤ length line.now)) }
{
    let mut rest = find(line, why);
    let found = rest.next()?;
    Some((found.start, found.end))
}
