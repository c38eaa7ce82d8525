//! What comes after the head of a frame.
ghost use Rattle.std.specs.Prelude.{◌≡◌, ◌++◌, ◌≤◌, ◌<◌, ◌^◌, ℕ, List, length, vec_len, OnOk, IfErr};
ghost use Rattle.std.specs.Io.KnownBytes.{Consumes};
ghost use Rattle.streams.specs.Streams.{ConsumesCounted};
ghost use Rattle.far_stream.specs.Payloads.{CutsOff, LosesPayload};

use crate::fault::{Cut, PayloadFault};
use crate::room::lengthen;
use std::io::Read;
use streams::{fill, skip};

/// Reads a payload of so many bytes and drops it.
pub(crate) fn drop_payload<R: Read>(reader: &mut R, count: u32) -> Result<(), Cut>
    ensures ok { OnOk result (ConsumesCounted count (R.remaining reader.old) (R.remaining reader.new)) }
    ensures err { IfErr result (λ cut. CutsOff cut count (R.remaining reader.old) (R.remaining reader.new)) }
{
    match skip(reader, count as usize) {
        Ok(n) if n == count as usize => Ok(()),
        Ok(_) => Err(Cut::Ended),
        Err(_) => Err(Cut::Failed),
    }
}

/// Reads a payload of so many bytes to the end of a vector. Where that finds no memory, it is read
/// and dropped.
pub(crate) fn read_payload<R: Read>(
    reader: &mut R,
    count: u32,
    to: &mut Vec<u8>,
) -> Result<(), PayloadFault>
    requires { vec_len to.old < 2 ^ 32 }
    ensures ok { OnOk result ((payload : List ℕ) × (length payload ≡ count) × Consumes (R.remaining reader.old) (R.remaining reader.new) payload
        × (to.new.items ≡ to.old.items ++ payload)) }
    ensures err { IfErr result (λ fault. LosesPayload fault count (R.remaining reader.old) (R.remaining reader.new)) }
{
    let start = to.len();
    let Ok(()) = lengthen(to, start + count as usize) else {
        drop_payload(reader, count)?;
        return Err(PayloadFault::NoMemory);
    };
    match fill(reader, &mut to[start..]) {
        Ok(n) if n == count as usize => Ok(()),
        Ok(_) => Err(PayloadFault::CutOff(Cut::Ended)),
        Err(_) => Err(PayloadFault::CutOff(Cut::Failed)),
    }
}
