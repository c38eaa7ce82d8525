//! The lines that tell what a service left when it closed.
ghost use Rattle.std.specs.Prelude.{◌≡◌, ◌≤◌, ◌+◌, ◌++◌, codes, length, flat_map, Some, OnOk, OnErr};
ghost use Rattle.std.specs.Io.KnownBytes.{Appends};
ghost use Rattle.arrayvec.specs.ArrayVec.{array_vec_len};
ghost use Rattle.hex.specs.Hex.{encode_lower};
ghost use Rattle.sha2.specs.Sha256.{sha256};
ghost use Rattle.streams.specs.Streams.{AppendsPart};
ghost use Rattle.console.specs.Lines.{ended};
ghost use Rattle.console.specs.Replies.{number_text};
ghost use Rattle.ship_service.specs.Closing.{live_object};
ghost use Rattle.ship_service.specs.ClosingLines.{object_text, object_line, object_lines, machine_line, cell_line, closing_lines};

use crate::closing::Closed;
use console::{REPLY_LIMIT, ReplyLine, print_reply, put_named};
use far_store::FarStore;
use hex::encode_to_slice;
use sha2::{Digest, Sha256};
use shared_objects::ObjectEnd;
use std::io::Write;
use streams::{WriteFault, put_all};
use workers::{ClosedCell, Running};
use world::{Reply, ShowReply};

/// The SHA-256 of these bytes, in lower hex.
fn digest_text(bytes: &[u8]) -> [u8; 64]
    ensures { result ≡ encode_lower (sha256 bytes.now) }
{
    let mut digits = [0u8; 64];
    let _ = encode_to_slice(Sha256::digest(bytes), &mut digits);
    digits
}

/// Adds length and digest of these bytes.
fn put_here(line: &mut ReplyLine, bytes: &[u8])
    requires { array_vec_len line.old + 86 ≤ REPLY_LIMIT }
    ensures text { line.new.items ≡ line.old.items ++ number_text (length bytes.now) ++ codes " " ++ encode_lower (sha256 bytes.now) }
    ensures short { array_vec_len line.new ≤ array_vec_len line.old + 86 }
{
    put_named(line, b"", bytes.len() as u64);
    line.put(b" ");
    line.put(&digest_text(bytes));
}

/// Makes this the line of an object.
pub fn print_object(number: usize, object: &ObjectEnd, line: &mut ReplyLine)
    ensures { line.new.items ≡ ended (object_text number object.now) }
{
    line.clear();
    put_named(line, b"object", number as u64);
    match object {
        ObjectEnd::Here(bytes) => put_here(line, bytes),
        ObjectEnd::Out => line.put(b" out"),
    }
    line.end();
}

/// Makes this the line of a machine: that with which `regs` is answered.
pub fn print_machine(number: usize, running: &Running, line: &mut ReplyLine)
    ensures { line.new.items ≡ machine_line number (Some running.now) }
{
    let shown = running.debuggee().shown();
    print_reply(
        &Reply::Shown {
            machine: number,
            reply: ShowReply::Registers(shown),
        },
        line,
    );
}

/// Writes the line of the object of a number, if there is one.
fn write_object<F: FarStore, W: Write>(
    writer: &mut W,
    closed: &Closed<F>,
    number: usize,
    line: &mut ReplyLine,
) -> Result<(), WriteFault>
    ensures ok { OnOk result (Appends (W.contents writer.old) (W.contents writer.new) (object_line number (live_object closed.now number))) }
    ensures err { OnErr result (AppendsPart (W.contents writer.old) (W.contents writer.new) (object_line number (live_object closed.now number))) }
{
    let Some(object) = closed.object(number) else {
        return Ok(());
    };
    print_object(number, object, line);
    put_all(writer, line.as_slice())
}

/// Writes the lines of all objects, in order.
fn write_objects<F: FarStore, W: Write>(
    writer: &mut W,
    closed: &Closed<F>,
    line: &mut ReplyLine,
) -> Result<(), WriteFault>
    ensures ok { OnOk result (Appends (W.contents writer.old) (W.contents writer.new) (object_lines closed.now (length closed.now.lengths))) }
    ensures err { OnErr result (AppendsPart (W.contents writer.old) (W.contents writer.new) (object_lines closed.now (length closed.now.lengths))) }
{
    for number in 0..closed.numbers() {
        write_object(writer, closed, number, line)?;
    }
    Ok(())
}

/// Writes the line of the machine of a cell, if it has one.
fn write_machine<W: Write>(
    writer: &mut W,
    cell: &ClosedCell,
    line: &mut ReplyLine,
) -> Result<(), WriteFault>
    ensures ok { OnOk result (Appends (W.contents writer.old) (W.contents writer.new) (cell_line cell.now)) }
    ensures err { OnErr result (AppendsPart (W.contents writer.old) (W.contents writer.new) (cell_line cell.now)) }
{
    let Some(running) = &cell.running else {
        return Ok(());
    };
    print_machine(cell.number, running, line);
    put_all(writer, line.as_slice())
}

/// Writes the lines of the machines of cells, in order.
fn write_machines<W: Write>(
    writer: &mut W,
    cells: &[ClosedCell],
    line: &mut ReplyLine,
) -> Result<(), WriteFault>
    ensures ok { OnOk result (Appends (W.contents writer.old) (W.contents writer.new) (flat_map cell_line cells.now)) }
    ensures err { OnErr result (AppendsPart (W.contents writer.old) (W.contents writer.new) (flat_map cell_line cells.now)) }
{
    for cell in cells {
        write_machine(writer, cell, line)?;
    }
    Ok(())
}

/// Writes a line for each object, in order, and then the `regs` line of each machine. Where that fails, the writer has the
/// first of their bytes.
pub fn write_closing_lines<F: FarStore, W: Write>(
    writer: &mut W,
    closed: &Closed<F>,
) -> Result<(), WriteFault>
    ensures ok { OnOk result (Appends (W.contents writer.old) (W.contents writer.new) (closing_lines closed.now)) }
    ensures err { OnErr result (AppendsPart (W.contents writer.old) (W.contents writer.new) (closing_lines closed.now)) }
{
    let mut line = ReplyLine::new();
    write_objects(writer, closed, &mut line)?;
    write_machines(writer, closed.cells(), &mut line)
}
