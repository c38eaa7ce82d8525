//! Tokens in, commands out.
ghost use Rattle.std.specs.Prelude.{◌≡◌, ◌<◌, ℕ, List, length, IfOk, IfErr};
ghost use Rattle.hex.specs.Hex.{decode_of};
ghost use Rattle.console.specs.Tokens.{tokens_left};
ghost use Rattle.console.specs.Commands.{Reads, Says, SaysOfKind, SpellsCommand};

use crate::digits::write_bytes;
use crate::fault::LineFault;
use crate::kind::Kind;
use crate::tokens::Tokens;
use std::alloc::Global;
use world::{Bytes, Event};

/// The most bytes that a line may have, without its end (this project's choice).
pub const LINE_LIMIT: usize = 70_000;

/// What a line says.
pub fn read_line(alloc: Global, line: &[u8]) -> Result<Event, LineFault>
    ensures { Reads (SpellsCommand line.now) result }
{
    if line.len() > LINE_LIMIT {
        return Err(LineFault::Bad);
    }
    read_tokens(alloc, Tokens::new(line))
}

/// What the tokens of a line say.
fn read_tokens<'a>(alloc: Global, mut tokens: Tokens<'a>) -> Result<Event, LineFault>
    ensures { Reads (Says (tokens_left tokens.entry)) result }
{
    let name = tokens.token()?;
    match Kind::named(name) {
        Some(kind) => read_parameters(alloc, kind, tokens),
        None => Err(LineFault::Bad),
    }
}

/// What the tokens after the name say. Memory is asked for only once they all say something.
fn read_parameters<'a>(
    alloc: Global,
    kind: Kind,
    mut tokens: Tokens<'a>,
) -> Result<Event, LineFault>
    ensures { Reads (SaysOfKind kind (tokens_left tokens.entry)) result }
{
    let numbers = tokens.numbers(kind.numbers())?;
    let text = tokens.bytes(kind.bytes())?;
    let grants = tokens.grants(kind.takes_grants())?;
    let bytes = decode(alloc, text)?;
    Ok(kind.event(numbers, bytes, grants))
}

/// The bytes of hex text. Where there is no text, no memory is needed.
fn decode(alloc: Global, text: &[u8]) -> Result<Bytes, LineFault>
    requires { (bytes : List ℕ) × (decode_of text.now ≡ Ok bytes) }
    ensures ok { IfOk result (λ bytes. decode_of text.now ≡ Ok bytes) }
    ensures err { IfErr result (λ e. (e ≡ LineFault.NoMemory) × (0 < length text.now)) }
{
    if text.is_empty() {
        return Ok(Bytes::new(Vec::new(alloc)));
    }
    match vec![in alloc; 0u8; text.len() / 2] {
        Ok(mut bytes) => {
            write_bytes(text, bytes.as_mut_slice());
            Ok(Bytes::new(bytes))
        }
        Err(_) => Err(LineFault::NoMemory),
    }
}
