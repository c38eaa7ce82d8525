//! Bytes in, bytes out.
ghost use Rattle.std.specs.Prelude.{◌≡◌, ◌++◌, ◌∷◌, ◌<◌, ◌≤◌, ℕ, List, [], length, map, IfSome, OnOk, OnErr, IsFalse, IsTrue};
ghost use Rattle.std.specs.Result.{IsErrOf};
ghost use Rattle.world.specs.WorldState.{state_of};
ghost use Rattle.console.specs.Lines.{IsLine};
ghost use Rattle.console.specs.Commands.{Reads, SpellsCommand};
ghost use Rattle.console.specs.Held.{bytes_so_far, clip, held_bytes, nothing_held};
ghost use Rattle.console.specs.Conversations.{Answered, AnswersSoFar, AnswersAll, FailsInReply, StopsReading, StopsWriting};
ghost use Rattle.console.specs.StreamCalls.{StreamCall, StreamCalls, EndsCalls, line_ends, lines_waiting};
ghost use Rattle.console.specs.StreamCalls.StreamCall.{LineWritten, LineBroken};
ghost use Rattle.console.specs.Agent.{agent};
ghost use Rattle.console.specs.Gathered.{StopsShort};

use crate::answerer::Answerer;
use crate::console::Console;
use crate::fault::{DriveFault, LineFault};
use crate::gathering::Gathering;
use crate::link::{Link, StdLink};
use crate::replies::{ReplyLine, print_fault};
use far_store::FarStore;
use std::io::{Read, Write};
use streams::{ReadFault, WriteFault};
use world::{Event, World};

/// How many bytes a read asks for.
const PIECE: usize = 4096;

/// Does what a line says, and makes the line of the reply.
fn perform<C, A: Answerer<C>>(
    shared: &C,
    answerer: &mut A,
    command: Result<Event, LineFault>,
    reply: &mut ReplyLine,
)
    requires { (line : List ℕ) × Reads (SpellsCommand line) command }
    ensures { (line : List ℕ) → IsLine line → Reads (SpellsCommand line) command
        → Answered A.protocol (A.state answerer.old) line reply.new.items (A.state answerer.new) }
{
    match command {
        Ok(event) => answerer.perform(shared, event, reply),
        Err(fault) => print_fault(fault, reply),
    }
}

/// Answers the line that waits, if one does.
fn answer_waiting<C, A: Answerer<C>, R, W, L: Link<R, W>>(
    link: &mut L,
    reader: &R,
    writer: &mut W,
    console: &mut Console,
    shared: &C,
    answerer: &mut A,
    reply: &mut ReplyLine,
) -> Result<(), WriteFault>
    ensures ok { OnOk result ((line : List ℕ) → IsLine line → console.old.line ≡ clip line →
        AnswersSoFar A.protocol (A.state answerer.old) (bytes_so_far line console.old.waits) (L.contents link.old writer.old) (L.contents link.new writer.new)
        (A.state answerer.new) console.new) }
    ensures err { OnErr result ((line : List ℕ) → IsLine line → console.old.line ≡ clip line →
        FailsInReply A.protocol [] (A.state answerer.old) (bytes_so_far line console.old.waits) (L.contents link.old writer.old) (L.contents link.new writer.new)
        (A.state answerer.new)) }
    ensures open { OnOk result (IsFalse console.new.waits) }
    ensures dropped { OnErr result (console.new ≡ nothing_held) }
    ensures line { IsLine console.old.line × (clip console.old.line ≡ console.old.line) }
    ensures calls { OnOk result ((replies : List (List ℕ)) × (length replies ≡ lines_waiting console.old.waits)
        × StreamCalls L.called reader.now writer.old (map LineWritten replies) reader.now writer.new) }
    ensures broken { OnErr result (IsTrue console.old.waits × (line : List ℕ)
        × StreamCalls L.called reader.now writer.old (LineBroken line ∷ []) reader.now writer.new) }
{
    if let Some(command) = console.next_command() {
        perform(shared, answerer, command, reply);
        link.write_line(reader, writer, reply)?;
    }
    Ok(())
}

/// Answers what is said in this piece of the input.
fn answer_piece<C, A: Answerer<C>, R, W, L: Link<R, W>>(
    piece: &[u8],
    link: &mut L,
    reader: &R,
    writer: &mut W,
    console: &mut Console,
    shared: &C,
    answerer: &mut A,
    reply: &mut ReplyLine,
) -> Result<(), WriteFault>
    requires { IsFalse console.old.waits }
    ensures ok { OnOk result ((line : List ℕ) → IsLine line → console.old.line ≡ clip line →
        AnswersSoFar A.protocol (A.state answerer.old) (line ++ piece.now) (L.contents link.old writer.old) (L.contents link.new writer.new) (A.state answerer.new) console.new) }
    ensures err { OnErr result ((line : List ℕ) → IsLine line → console.old.line ≡ clip line → (ahead : List ℕ) × (length ahead < length piece.now)
        × FailsInReply A.protocol ahead (A.state answerer.old) (line ++ piece.now) (L.contents link.old writer.old) (L.contents link.new writer.new) (A.state answerer.new)) }
    ensures dropped { OnErr result (console.new ≡ nothing_held) }
    ensures calls { OnOk result ((replies : List (List ℕ)) × (length replies ≡ line_ends piece.now)
        × StreamCalls L.called reader.now writer.old (map LineWritten replies) reader.now writer.new) }
    ensures broken { OnErr result ((replies : List (List ℕ)) × (length replies < line_ends piece.now) × (line : List ℕ)
        × StreamCalls L.called reader.now writer.old (map LineWritten replies ++ LineBroken line ∷ []) reader.now writer.new) }
{
    let mut rest = piece;
    while !rest.is_empty() {
        let taken = console.feed(rest);
        rest = &rest[taken..];
        answer_waiting(link, reader, writer, console, shared, answerer, reply)?;
    }
    Ok(())
}

/// Answers each line of the input, after what the console already holds of it, until it ends.
/// Trailing bytes without a line end are answered `cut` and dropped. Each reply is written before
/// more is read, and by as few writes as the writer needs.
///
/// The commands of all lines that were heard are done, and no other. After
/// `DriveFault::Read` all replies to them are written, and the console holds what was heard of the
/// next line. After `DriveFault::Write` the last of the replies, or `cut`, is written in part or
/// not at all, and the console holds nothing. Any error of the reader or the writer ends the
/// conversation.
///
/// The calls are rounds: a read, and for each line that ends in what came a line that is written. No
/// read is called while a whole line waits, or after one that failed or gave nothing.
/// `DriveFault::Read` comes only after a read that failed, or after 2^64 - 1 reads that gave bytes,
/// and `DriveFault::Write` only after a line that could not be written whole.
pub fn converse_over<C, A: Answerer<C>, R, W, L: Link<R, W>>(
    link: &mut L,
    reader: &mut R,
    writer: &mut W,
    console: &mut Console,
    shared: &C,
    answerer: &mut A,
) -> Result<(), DriveFault>
    ensures ok { OnOk result (IfSome (L.remaining reader.old) (λ input.
        AnswersAll A.protocol (A.state answerer.old) (held_bytes console.old ++ input) (L.contents link.old writer.old) (L.contents link.new writer.new)
        (A.state answerer.new))) }
    ensures read { IsErrOf result DriveFault.Read → IfSome (L.remaining reader.old) (λ input.
        StopsReading A.protocol (A.state answerer.old) (held_bytes console.old ++ input) (L.contents link.old writer.old) (L.contents link.new writer.new)
        (A.state answerer.new) console.new (L.remaining reader.new)) }
    ensures write { IsErrOf result DriveFault.Write → IfSome (L.remaining reader.old) (λ input.
        StopsWriting A.protocol (A.state answerer.old) (held_bytes console.old ++ input) (L.contents link.old writer.old) (L.contents link.new writer.new) (A.state answerer.new)
        (L.remaining reader.new)) }
    ensures emptied { OnOk result (console.new ≡ nothing_held) }
    ensures dropped { IsErrOf result DriveFault.Write → console.new ≡ nothing_held }
    ensures calls { (calls : List StreamCall) × StreamCalls L.called reader.old writer.old calls reader.new writer.new
        × EndsCalls console.old.waits result calls }
{
    let mut reply = ReplyLine::new();
    answer_waiting(link, reader, writer, console, shared, answerer, &mut reply)?;
    let mut piece = [0u8; PIECE];
    for _reads in 0..u64::MAX {
        match link.read(reader, writer, &mut piece) {
            Ok(0) => {
                let cut = console.rest();
                console.clear();
                if cut {
                    link.write_line(reader, writer, b"cut\n")?;
                }
                return Ok(());
            }
            Ok(n) => answer_piece(
                &piece[..n],
                link,
                reader,
                writer,
                console,
                shared,
                answerer,
                &mut reply,
            )?,
            Err(ReadFault) => return Err(DriveFault::Read),
        }
    }
    Err(DriveFault::Read)
}

/// Answers each line of the input, as [`converse_over`] says, from any reader and to any writer of
/// std.
pub fn converse<C, A: Answerer<C>, R: Read, W: Write>(
    reader: &mut R,
    writer: &mut W,
    console: &mut Console,
    shared: &C,
    answerer: &mut A,
) -> Result<(), DriveFault>
    ensures ok { OnOk result (IfSome (R.remaining reader.old) (λ input.
        AnswersAll A.protocol (A.state answerer.old) (held_bytes console.old ++ input) (W.contents writer.old) (W.contents writer.new)
        (A.state answerer.new))) }
    ensures read { IsErrOf result DriveFault.Read → IfSome (R.remaining reader.old) (λ input.
        StopsReading A.protocol (A.state answerer.old) (held_bytes console.old ++ input) (W.contents writer.old) (W.contents writer.new)
        (A.state answerer.new) console.new (R.remaining reader.new)) }
    ensures write { IsErrOf result DriveFault.Write → IfSome (R.remaining reader.old) (λ input.
        StopsWriting A.protocol (A.state answerer.old) (held_bytes console.old ++ input) (W.contents writer.old) (W.contents writer.new) (A.state answerer.new)
        (R.remaining reader.new)) }
    ensures emptied { OnOk result (console.new ≡ nothing_held) }
    ensures dropped { IsErrOf result DriveFault.Write → console.new ≡ nothing_held }
{
    converse_over(&mut StdLink, reader, writer, console, shared, answerer)
}

/// Answers each line of the input, as [`converse_over`] says, but replies to lines that came together are written together: before
/// more is read, and where there is no room for the next. Where a write fails, the bytes written are a beginning of the replies.
pub fn converse_gathering<C, A: Answerer<C>, R: Read, W: Write>(
    reader: &mut R,
    writer: &mut W,
    console: &mut Console,
    shared: &C,
    answerer: &mut A,
) -> Result<(), DriveFault>
    ensures ok { OnOk result (IfSome (R.remaining reader.old) (λ input.
        AnswersAll A.protocol (A.state answerer.old) (held_bytes console.old ++ input) (W.contents writer.old) (W.contents writer.new)
        (A.state answerer.new))) }
    ensures read { IsErrOf result DriveFault.Read → IfSome (R.remaining reader.old) (λ input.
        StopsReading A.protocol (A.state answerer.old) (held_bytes console.old ++ input) (W.contents writer.old) (W.contents writer.new)
        (A.state answerer.new) console.new (R.remaining reader.new)) }
    ensures write { IsErrOf result DriveFault.Write → IfSome (R.remaining reader.old) (λ input. IfSome (W.contents writer.old) (λ before.
        StopsShort A.protocol (A.state answerer.old) (held_bytes console.old ++ input) before (W.contents writer.new) (A.state answerer.new)
        (R.remaining reader.new))) }
    ensures emptied { OnOk result (console.new ≡ nothing_held) }
    ensures dropped { IsErrOf result DriveFault.Write → console.new ≡ nothing_held }
{
    let mut gathering = Gathering::new();
    let outcome = converse_over(&mut gathering, reader, writer, console, shared, answerer);
    let Ok(()) = gathering.finish(writer, outcome.is_err()) else {
        console.clear();
        return Err(DriveFault::Write);
    };
    outcome
}

/// Answers each line of the input by one world, as [`converse_over`] says.
pub fn drive<F: FarStore, R: Read, W: Write>(
    reader: &mut R,
    writer: &mut W,
    console: &mut Console,
    world: &mut World<F>,
) -> Result<(), DriveFault>
    ensures ok { OnOk result (IfSome (R.remaining reader.old) (λ input.
        AnswersAll agent (state_of world.old) (held_bytes console.old ++ input) (W.contents writer.old) (W.contents writer.new) (state_of world.new))) }
    ensures read { IsErrOf result DriveFault.Read → IfSome (R.remaining reader.old) (λ input.
        StopsReading agent (state_of world.old) (held_bytes console.old ++ input) (W.contents writer.old) (W.contents writer.new)
        (state_of world.new) console.new (R.remaining reader.new)) }
    ensures write { IsErrOf result DriveFault.Write → IfSome (R.remaining reader.old) (λ input.
        StopsWriting agent (state_of world.old) (held_bytes console.old ++ input) (W.contents writer.old) (W.contents writer.new) (state_of world.new)
        (R.remaining reader.new)) }
    ensures emptied { OnOk result (console.new ≡ nothing_held) }
    ensures dropped { IsErrOf result DriveFault.Write → console.new ≡ nothing_held }
{
    converse(reader, writer, console, &(), world)
}
