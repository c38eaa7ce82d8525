//! What a conversation goes over.
ghost use Rattle.std.specs.Prelude.{◌≡◌, ⊤, ℕ, List, Option, take, IfOk, OnOk, OnErr};
ghost use Rattle.std.specs.Io.{ReadsAtMost};
ghost use Rattle.std.specs.Io.KnownBytes.{Appends, Keeps, ReadConsumes};
ghost use Rattle.streams.specs.Streams.{AppendsPart};
ghost use Rattle.console.specs.StreamCalls.{StreamCall};
ghost use Rattle.console.specs.StreamCalls.StreamCall.{ReadGave, ReadFailed, LineWritten, LineBroken};

use std::io::{Read, Write};
use streams::{ReadFault, WriteFault, put_all};

/// How a conversation reads from a reader and writes lines to a writer. A conversation can do
/// nothing else with the two, so that what it says of its calls, and of their order, holds of any
/// reader and any writer.
pub trait Link<R, W> {
    /// The bytes that the reader will give, where they are known.
    ghost remaining: { R → Option (List ℕ) };

    /// The bytes that the writer holds, and after them those that the link keeps for it, where they are known.
    ghost contents: { Self → W → Option (List ℕ) };

    /// The reader and the writer before a call, the call, and both after it.
    ghost called: { R → W → StreamCall → R → W → Type 0 };

    /// Reads at most as many bytes as the buffer has room for, none only where the input has ended
    /// or there is no room. What the link keeps for the writer may be written first.
    fn read(
        &mut self,
        reader: &mut R,
        writer: &mut W,
        buffer: &mut [u8],
    ) -> Result<usize, ReadFault>
        ensures bound { ReadsAtMost result buffer.new }
        ensures bytes { ReadConsumes (remaining reader.old) (remaining reader.new) result buffer.new }
        ensures kept { Keeps (contents self.old writer.old) (contents self.new writer.new) }
        ensures gave { IfOk result (λ n. called reader.old writer.old (ReadGave (take n buffer.new)) reader.new writer.new) }
        ensures failed { OnErr result (called reader.old writer.old ReadFailed reader.new writer.new) };

    /// Writes a line with its end, or keeps it for later. Where that fails, the writer has the first
    /// of its bytes. The reader isn't touched.
    fn write_line(&mut self, reader: &R, writer: &mut W, line: &[u8]) -> Result<(), WriteFault>
        ensures ok { OnOk result (Appends (contents self.old writer.old) (contents self.new writer.new) line.now) }
        ensures err { OnErr result (AppendsPart (contents self.old writer.old) (contents self.new writer.new) line.now) }
        ensures written { OnOk result (called reader.now writer.old (LineWritten line.now) reader.now writer.new) }
        ensures broken { OnErr result (called reader.now writer.old (LineBroken line.now) reader.now writer.new) };
}

/// The calls of std's readers and writers. Any error ends a call, an interruption too.
#[derive(Drop)]
pub struct StdLink;

impl<R: Read, W: Write> Link<R, W> for StdLink {
    ghost remaining = { R.remaining };

    ghost contents = { λ _ writer. W.contents writer };

    ghost called = { λ reader writer call reader_after writer_after. ⊤ };

    fn read(
        &mut self,
        reader: &mut R,
        _writer: &mut W,
        buffer: &mut [u8],
    ) -> Result<usize, ReadFault> {
        match reader.read(buffer) {
            Ok(n) => Ok(n),
            Err(_) => Err(ReadFault),
        }
    }

    fn write_line(&mut self, _reader: &R, writer: &mut W, line: &[u8]) -> Result<(), WriteFault> {
        put_all(writer, line)
    }
}
