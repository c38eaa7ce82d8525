//! What a line says.
ghost use Rattle.std.specs.Prelude.{◌≡◌, ◌≤◌, ◌∷◌, List, [], option_map, MatchOption, Some, None};
ghost use Rattle.asm_text.specs.Tokens.{lexemes_left, tokens, lexeme_seen};
ghost use Rattle.asm_grammar.specs.Grammar.{label_of, after_label, has_stray};
ghost use Rattle.asm_grammar.specs.Reading.{said, finished, body, line_says, body_slots, mnemonic_at, after_call};
ghost use Rattle.asm_grammar.specs.Views.{gathered_seen, look_in, AllBelow, label_seen};

use crate::gather::{Gathered, Labels, gather};
use crate::why::Why;
use asm_table::{Mnemonic, build};
use asm_text::{Fault, Token, Tokens};
use isa_table::Instr;

/// The instruction, or the least reason against what was gathered.
fn finish(m: Mnemonic, gathered: Option<Gathered>) -> Result<Option<Instr>, Why>
    ensures { result ≡ said (finished m (option_map (λ g. gathered_seen g) gathered)) }
{
    match gathered {
        None => Err(Why::Operand),
        Some(g) => {
            if g.out {
                return Err(Why::Range);
            }
            match build(m, g.operands.as_slice()) {
                Some(i) => {
                    if g.unknown {
                        Err(Why::Label)
                    } else {
                        Ok(Some(i))
                    }
                }
                None => Err(Why::Operand),
            }
        }
    }
}

/// After `call`: with the word `local` it is `call local`.
fn read_called<'a>(tokens: &mut Tokens<'a>) -> Mnemonic
    ensures called { after_call (lexemes_left tokens.old) ≡ (result, lexemes_left tokens.new) }
    ensures line { tokens.new.line.now ≡ tokens.old.line.now }
{
    let mut ahead = *tokens;
    if let Some(found) = ahead.next() {
        if let Token::Name(word) = found.token {
            if word == b"local".as_slice() {
                *tokens = ahead;
                return Mnemonic::CallLocal;
            }
        }
    }
    Mnemonic::CallHelper
}

/// The mnemonic of which this token is the first.
pub(crate) fn read_mnemonic<'a>(first: Token<'a>, tokens: &mut Tokens<'a>) -> Option<Mnemonic>
    ensures mnemonic { MatchOption result (mnemonic_at (lexeme_seen first.entry ∷ lexemes_left tokens.old) ≡ None)
        (λ m. mnemonic_at (lexeme_seen first.entry ∷ lexemes_left tokens.old) ≡ Some (m, lexemes_left tokens.new)) }
    ensures line { tokens.new.line.now ≡ tokens.old.line.now }
{
    match first {
        Token::Name(word) => match Mnemonic::named(word) {
            Some(Mnemonic::CallHelper) => Some(read_called(tokens)),
            m => m,
        },
        _ => None,
    }
}

/// What the tokens after a line's label say.
fn read_body<'a>(
    labels: &Labels<'a>,
    n: usize,
    tokens: &mut Tokens<'a>,
) -> Result<Option<Instr>, Why>
    requires slots { AllBelow labels.now }
    requires n { n ≤ 4096 }
    ensures { result ≡ body (look_in labels.now) n (lexemes_left tokens.old) }
{
    match tokens.next() {
        None => Ok(None),
        Some(found) => match read_mnemonic(found.token, tokens) {
            Some(m) => finish(m, gather(tokens, labels, n, m.sorts())),
            None => Err(Why::Word),
        },
    }
}

/// A line's label, and the tokens after it.
pub(crate) fn split<'a>(line: &'a [u8]) -> (Option<&'a [u8]>, Tokens<'a>)
    ensures label { label_seen result.0 ≡ label_of (tokens line.now) }
    ensures rest { lexemes_left result.1 ≡ after_label (tokens line.now) }
    ensures line { result.1.line.now ≡ line.now }
{
    let mut rest = Tokens::new(line);
    match rest.next() {
        Some(first) => match first.token {
            Token::Name(name) => match rest.next() {
                Some(second) => match second.token {
                    Token::Colon => (Some(name), rest),
                    _ => (None, Tokens::new(line)),
                },
                None => (None, Tokens::new(line)),
            },
            _ => (None, Tokens::new(line)),
        },
        None => (None, Tokens::new(line)),
    }
}

/// Whether a byte of the line begins no token.
pub(crate) fn has_stray(line: &[u8]) -> bool
    ensures { result ≡ has_stray (tokens line.now) }
{
    let mut rest = Tokens::new(line);
    while let Some(found) = rest.next() {
        if let Some(Fault::Char) = found.token.fault() {
            return true;
        }
    }
    false
}

/// How many slots the instruction after a line's label takes.
fn slots<'a>(tokens: &mut Tokens<'a>) -> usize
    ensures { result ≡ body_slots (lexemes_left tokens.old) }
{
    match tokens.next() {
        None => 0,
        Some(found) => match read_mnemonic(found.token, tokens) {
            Some(m) => m.slots(),
            None => 0,
        },
    }
}

/// What a line says at slot n: its instruction, or nothing where it has none.
pub fn read_line<'a>(labels: &Labels<'a>, n: usize, line: &'a [u8]) -> Result<Option<Instr>, Why>
    requires slots { AllBelow labels.now }
    requires n { n ≤ 4096 }
    ensures { result ≡ line_says (look_in labels.now) n (tokens line.now) }
{
    if has_stray(line) {
        return Err(Why::Word);
    }
    let (_, mut rest) = split(line);
    read_body(labels, n, &mut rest)
}

/// A line's label, and how many slots its instruction takes.
pub fn outline<'a>(line: &'a [u8]) -> (Option<&'a [u8]>, usize)
    ensures label { label_seen result.0 ≡ label_of (tokens line.now) }
    ensures slots { result.1 ≡ body_slots (after_label (tokens line.now)) }
{
    let (label, mut rest) = split(line);
    (label, slots(&mut rest))
}
