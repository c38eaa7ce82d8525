//! Answers, as the client hears them.
ghost use Rattle.std.specs.Prelude.{Result};
ghost use Rattle.far_stream.specs.Hearing.{ForgetHears, GetHears, HearsHead, PutHears, seen};

use crate::fault::PayloadFault;
use crate::frame::{Head, PAYLOAD_LIMIT, Status};
use crate::parcel::StreamParcel;
use crate::payload::{drop_payload, read_payload};
use far_store::StoreFault;
use std::alloc::Global;
use std::io::Read;

/// Reads the head of the answer to the request of this id, and gives how many bytes come with it,
/// at most so many.
pub(crate) fn read_answer<R: Read>(reader: &mut R, id: u64, most: u32) -> Result<u32, StoreFault>
    ensures { HearsHead id most (R.remaining reader.old) (R.remaining reader.new) result }
{
    let Ok(Some(head)) = Head::read(reader) else {
        return Err(StoreFault::Io);
    };
    if !head.is_proper(id, most) {
        return Err(StoreFault::Protocol);
    }
    if head.kind != Status::Done as u8 {
        return Err(StoreFault::Refused);
    }
    Ok(head.count)
}

/// Reads the answer to a put.
pub(crate) fn read_kept<R: Read>(reader: &mut R, id: u64) -> Result<(), StoreFault>
    ensures { PutHears id (R.remaining reader.old) (R.remaining reader.new) result }
{
    match read_answer(reader, id, 0) {
        Ok(_) => Ok(()),
        Err(fault) => Err(fault),
    }
}

/// Reads the answer to a forget. Whether the server had the id is no matter.
pub(crate) fn read_forgotten<R: Read>(reader: &mut R, id: u64) -> Result<(), StoreFault>
    ensures { ForgetHears id (R.remaining reader.old) (R.remaining reader.new) result }
{
    match read_answer(reader, id, 0) {
        Ok(_) => Ok(()),
        Err(StoreFault::Refused) => Ok(()),
        Err(fault) => Err(fault),
    }
}

/// Reads the bytes of a parcel: those that come, where their length and digest are the parcel's.
pub(crate) fn read_bytes<R: Read>(
    alloc: Global,
    reader: &mut R,
    parcel: &StreamParcel,
) -> Result<Vec<u8>, StoreFault>
    ensures { GetHears parcel.now (R.remaining reader.old) (R.remaining reader.new) (seen (λ v. v.items) result) }
{
    let count = read_answer(reader, parcel.id(), PAYLOAD_LIMIT)?;
    if count != parcel.count() {
        return match drop_payload(reader, count) {
            Ok(()) => Err(StoreFault::Damaged),
            Err(_) => Err(StoreFault::Io),
        };
    }
    let mut bytes = Vec::new(alloc);
    match read_payload(reader, count, &mut bytes) {
        Ok(()) if parcel.has_digest_of(&bytes) => Ok(bytes),
        Ok(()) => Err(StoreFault::Damaged),
        Err(PayloadFault::NoMemory) => Err(StoreFault::Memory),
        Err(PayloadFault::CutOff(_)) => Err(StoreFault::Io),
    }
}
