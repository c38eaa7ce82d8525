//! Bytes in. Any error of the reader ends the reading, an interrupted call too.
ghost use Rattle.std.specs.Prelude.{◌≡◌, ◌<◌, ◌≤◌, take, length, IfOk, IfSome, OnErr};
ghost use Rattle.std.specs.Io.KnownBytes.{Consumes, IsAtEnd};
ghost use Rattle.streams.specs.Streams.{ConsumesAtMost, ConsumesCounted, ConsumesFewer};

use crate::fault::{InputFault, ReadFault};
use std::alloc::Global;
use std::io::Read;

/// How many bytes are asked for at once where they are read into a vector, or dropped.
const PIECE: usize = 4096;

/// The input that the reader has, or this many bytes of it.
pub fn read_at_most<R: Read>(
    alloc: Global,
    reader: &mut R,
    limit: usize,
) -> Result<Vec<u8>, InputFault>
    ensures whole { IfOk result (λ input. IfSome (R.remaining reader.old) (λ whole. input.items ≡ take limit whole)) }
    ensures consumed { ConsumesAtMost limit (R.remaining reader.old) (R.remaining reader.new) }
{
    let mut input = Vec::new(alloc);
    let mut piece = [0u8; PIECE];
    while input.len() < limit {
        let room = (limit - input.len()).min(piece.len());
        match reader.read(&mut piece[..room]) {
            Ok(0) => return Ok(input),
            Ok(n) => {
                if input.extend_from_slice(&piece[..n]).is_err() {
                    return Err(InputFault::NoMemory);
                }
            }
            Err(_) => return Err(InputFault::Read),
        }
    }
    Ok(input)
}

/// Reads until the buffer is full or the input ends, and gives how many bytes came. Where the
/// reader fails, fewer came than the buffer has room for.
pub fn fill<R: Read>(reader: &mut R, buffer: &mut [u8]) -> Result<usize, ReadFault>
    ensures room { length buffer.new ≡ length buffer.old }
    ensures most { IfOk result (λ n. n ≤ length buffer.new) }
    ensures came { IfOk result (λ n. Consumes (R.remaining reader.old) (R.remaining reader.new) (take n buffer.new)) }
    ensures end { IfOk result (λ n. n < length buffer.new → IsAtEnd (R.remaining reader.new)) }
    ensures err { OnErr result (ConsumesFewer (length buffer.old) (R.remaining reader.old) (R.remaining reader.new)) }
{
    let mut filled = 0;
    while filled < buffer.len() {
        match reader.read(&mut buffer[filled..]) {
            Ok(0) => return Ok(filled),
            Ok(n) => filled += n,
            Err(_) => return Err(ReadFault),
        }
    }
    Ok(filled)
}

/// Reads and drops so many bytes, or all where the input has fewer, and gives how many came. Where
/// the reader fails, fewer came.
pub fn skip<R: Read>(reader: &mut R, count: usize) -> Result<usize, ReadFault>
    ensures most { IfOk result (λ n. n ≤ count) }
    ensures came { IfOk result (λ n. ConsumesCounted n (R.remaining reader.old) (R.remaining reader.new)) }
    ensures end { IfOk result (λ n. n < count → IsAtEnd (R.remaining reader.new)) }
    ensures err { OnErr result (ConsumesFewer count (R.remaining reader.old) (R.remaining reader.new)) }
{
    let mut piece = [0u8; PIECE];
    let mut skipped = 0;
    while skipped < count {
        let room = (count - skipped).min(piece.len());
        match reader.read(&mut piece[..room]) {
            Ok(0) => return Ok(skipped),
            Ok(n) => skipped += n,
            Err(_) => return Err(ReadFault),
        }
    }
    Ok(skipped)
}
