//! Bytes out.
ghost use Rattle.std.specs.Prelude.{OnOk, OnErr};
ghost use Rattle.std.specs.Io.KnownBytes.{Appends};
ghost use Rattle.streams.specs.Streams.{AppendsPart};

use crate::fault::WriteFault;
use std::io::Write;

/// Writes all these bytes. Where that fails, the writer has the first of them.
///
/// It isn't std's `write_all`, which tells nothing of what was written when it fails, and which
/// writes again after `ErrorKind::Interrupted`: here the first error ends the writing, whatever its
/// kind, and so does a write that takes no byte.
pub fn put_all<W: Write>(writer: &mut W, bytes: &[u8]) -> Result<(), WriteFault>
    ensures ok { OnOk result (Appends (W.contents writer.old) (W.contents writer.new) bytes.now) }
    ensures err { OnErr result (AppendsPart (W.contents writer.old) (W.contents writer.new) bytes.now) }
{
    let mut rest = bytes;
    while !rest.is_empty() {
        match writer.write(rest) {
            Ok(0) => return Err(WriteFault),
            Ok(n) => rest = &rest[n..],
            Err(_) => return Err(WriteFault),
        }
    }
    Ok(())
}
