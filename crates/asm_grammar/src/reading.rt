//! Reading operands.
ghost use Rattle.std.specs.Prelude.{◌≡◌, ◌∷◌, ◌≤◌, ◌<◌, ◌+◌, ◌-◌, ◌++◌, List, [], length, MatchOption, Some, None, Bool, true, false};
ghost use Rattle.asm_text.specs.Tokens.{lexemes_left, lexeme_seen};
ghost use Rattle.asm_text.specs.Tokens.Lexeme.{Comma};
ghost use Rattle.asm_grammar.specs.Reading.{next_operand};
ghost use Rattle.asm_grammar.specs.Writing.{operand_at, written_seen, signed_at, close_at, offset_at, base_at, memory_at};

use crate::written::{Sign, Written};
use asm_text::{Token, Tokens};

/// The number after a sign.
fn signed<'a>(tokens: &mut Tokens<'a>, sign: Sign) -> Option<Written<'a>>
    ensures operand { MatchOption result (signed_at sign (lexemes_left tokens.old) ≡ None)
        (λ w. signed_at sign (lexemes_left tokens.old) ≡ Some (written_seen w, lexemes_left tokens.new)) }
    ensures line { tokens.new.line.now ≡ tokens.old.line.now }
{
    match tokens.next()?.token {
        Token::Number(n) => Some(Written::Signed(sign, n)),
        _ => None,
    }
}

/// A closing bracket after an operand.
fn close<'a>(tokens: &mut Tokens<'a>, w: Written<'a>) -> Option<Written<'a>>
    ensures operand { MatchOption result (close_at (written_seen w.entry) (lexemes_left tokens.old) ≡ None)
        (λ v. close_at (written_seen w.entry) (lexemes_left tokens.old) ≡ Some (written_seen v, lexemes_left tokens.new)) }
    ensures line { tokens.new.line.now ≡ tokens.old.line.now }
{
    match tokens.next()?.token {
        Token::Close => Some(w),
        _ => None,
    }
}

/// A number and a closing bracket.
fn offset<'a>(tokens: &mut Tokens<'a>, name: &'a [u8], sign: Sign) -> Option<Written<'a>>
    ensures operand { MatchOption result (offset_at name.now sign (lexemes_left tokens.old) ≡ None)
        (λ v. offset_at name.now sign (lexemes_left tokens.old) ≡ Some (written_seen v, lexemes_left tokens.new)) }
    ensures line { tokens.new.line.now ≡ tokens.old.line.now }
{
    match tokens.next()?.token {
        Token::Number(n) => close(tokens, Written::MemoryAt(name, sign, n)),
        _ => None,
    }
}

/// What stands after the register in brackets.
fn base<'a>(tokens: &mut Tokens<'a>, name: &'a [u8]) -> Option<Written<'a>>
    ensures operand { MatchOption result (base_at name.now (lexemes_left tokens.old) ≡ None)
        (λ v. base_at name.now (lexemes_left tokens.old) ≡ Some (written_seen v, lexemes_left tokens.new)) }
    ensures line { tokens.new.line.now ≡ tokens.old.line.now }
{
    match tokens.next()?.token {
        Token::Close => Some(Written::Memory(name)),
        Token::Plus => offset(tokens, name, Sign::Plus),
        Token::Minus => offset(tokens, name, Sign::Minus),
        _ => None,
    }
}

/// What stands after an opening bracket.
fn memory<'a>(tokens: &mut Tokens<'a>) -> Option<Written<'a>>
    ensures operand { MatchOption result (memory_at (lexemes_left tokens.old) ≡ None)
        (λ v. memory_at (lexemes_left tokens.old) ≡ Some (written_seen v, lexemes_left tokens.new)) }
    ensures line { tokens.new.line.now ≡ tokens.old.line.now }
{
    match tokens.next()?.token {
        Token::Name(name) => base(tokens, name),
        _ => None,
    }
}

/// The operand at the front.
fn operand<'a>(tokens: &mut Tokens<'a>) -> Option<Written<'a>>
    ensures operand { MatchOption result (operand_at (lexemes_left tokens.old) ≡ None)
        (λ v. operand_at (lexemes_left tokens.old) ≡ Some (written_seen v, lexemes_left tokens.new)) }
    ensures line { tokens.new.line.now ≡ tokens.old.line.now }
{
    match tokens.next()?.token {
        Token::Name(name) => Some(Written::Word(name)),
        Token::Number(n) => Some(Written::Bare(n)),
        Token::Plus => signed(tokens, Sign::Plus),
        Token::Minus => signed(tokens, Sign::Minus),
        Token::Open => memory(tokens),
        _ => None,
    }
}

/// The operand at the front, after a comma unless it is the first.
pub fn next_operand<'a>(tokens: &mut Tokens<'a>, first: bool) -> Option<Written<'a>>
    ensures operand { MatchOption result (next_operand first (lexemes_left tokens.old) ≡ None)
        (λ v. next_operand first (lexemes_left tokens.old) ≡ Some (written_seen v, lexemes_left tokens.new)) }
    ensures line { tokens.new.line.now ≡ tokens.old.line.now }
{
    if first {
        return operand(tokens);
    }
    match tokens.next()?.token {
        Token::Comma => operand(tokens),
        _ => None,
    }
}
