//! What would fit in place of the token that a reason against a line is about.
ghost use Rattle.std.specs.Prelude.{◌≡◌, true};
ghost use Rattle.asm_text.specs.Tokens.{lexemes_left, tokens};
ghost use Rattle.asm_grammar.specs.Wanting.{wanted, wanted_from, wanted_here, wanted_in_body};

use crate::blame::pass;
use crate::line::{has_stray, read_mnemonic, split};
use crate::why::Why;
use asm_table::Sort;
use asm_text::{Token, Tokens};

/// What would fit.
#[derive(Clone, Copy, Debug, PartialEq, Eq)]
pub enum Wanted {
    /// A byte that begins a token.
    Token,
    /// A mnemonic.
    Mnemonic,
    /// The comma before an operand.
    Comma,
    /// An operand.
    Operand(Sort),
    /// Nothing: the line ends there.
    End,
}

/// What would fit where an operand and the comma before it should stand.
fn wanted_here<'a>(tokens: Tokens<'a>, first: bool, sort: Sort) -> Wanted
    ensures { result ≡ wanted_here first sort (lexemes_left tokens.entry) }
{
    if first {
        return Wanted::Operand(sort);
    }
    let mut rest = tokens;
    match rest.next() {
        Some(found) => match found.token {
            Token::Comma => Wanted::Operand(sort),
            _ => Wanted::Comma,
        },
        None => Wanted::Comma,
    }
}

/// The same of the first operand that can't be read, or that the reason is about.
fn wanted_operand<'a>(tokens: Tokens<'a>, sorts: &[Sort], why: Why) -> Wanted
    ensures { result ≡ wanted_from why true sorts.now (lexemes_left tokens.entry) }
{
    let mut rest = tokens;
    for i in 0..sorts.len() {
        let here = rest;
        if !pass(&mut rest, i == 0, sorts[i], why) {
            return wanted_here(here, i == 0, sorts[i]);
        }
    }
    Wanted::End
}

/// The same of what stands after a line's label.
fn wanted_in_body<'a>(body: Tokens<'a>, why: Why) -> Wanted
    ensures { result ≡ wanted_in_body why (lexemes_left body.entry) }
{
    let mut rest = body;
    match rest.next() {
        None => Wanted::Mnemonic,
        Some(found) => match read_mnemonic(found.token, &mut rest) {
            Some(m) => wanted_operand(rest, m.sorts(), why),
            None => Wanted::Mnemonic,
        },
    }
}

/// What would fit in place of the token of a line that a reason is about, which `blamed_token` finds.
pub fn wanted_in(line: &[u8], why: Why) -> Wanted
    ensures { result ≡ wanted why (tokens line.now) }
{
    if has_stray(line) {
        return Wanted::Token;
    }
    let (_, body) = split(line);
    wanted_in_body(body, why)
}
