//! What a server keeps.
ghost use Rattle.std.specs.Prelude.{◌≡◌, ◌<◌, ◌≤◌, ◌++◌, [], ◌∷◌, remove, length, get_or, vec_len, None, Some, IfSome, IfNone, IfOk, IfErr, OnOk, OnErr};
ghost use Rattle.std.specs.Io.KnownBytes.{Consumes};
ghost use Rattle.far_stream.specs.Frames.{done, frame, head};
ghost use Rattle.far_stream.specs.Payloads.{LosesPayload};
ghost use Rattle.far_stream.specs.Refusals.{MemoryIsRefused};
ghost use Rattle.far_stream.specs.Sent.{Sent};
ghost use Rattle.far_stream.specs.Server.{kept_under, without};

use crate::fault::PayloadFault;
use crate::frame::{HEAD_LENGTH, Head, Status};
use crate::payload::{drop_payload, read_payload};
use crate::room::{append, with_room};
use std::alloc::{AllocError, Global};
use std::io::Read;
use std::marker::Model;

/// How many parcels are kept at most.
pub const KEPT_LIMIT: usize = 1024;

/// The bytes of a put, as the answer to a get of its id: a get takes no memory and copies nothing.
#[derive(Drop)]
pub(crate) struct Kept {
    id: u64,
    answer: Vec<u8>,
}

impl Model for Kept {
    ghost use Rattle.std.specs.Prelude.{◌≡◌, drop};
    ghost use Rattle.far_stream.specs.Frames.{done, frame};
    ghost use Rattle.far_stream.specs.Sent.{Sent};

    ghost Value = { Sent };

    ghost view = { λ k. record { id = k.id; bytes = drop 13 k.answer.items } };

    ghost invariant = { λ k. k.answer.items ≡ frame done k.id (drop 13 k.answer.items) };
}

impl Kept {
    /// The head of the answer, with room for so many bytes after it.
    fn begin(alloc: Global, id: u64, count: u32) -> Result<Vec<u8>, AllocError>
        ensures head { IfOk result (λ v. v.items ≡ head done id count) }
        ensures len { IfOk result (λ v. vec_len v ≡ 13) }
        ensures refused { OnErr result MemoryIsRefused }
    {
        let head = Head {
            kind: Status::Done as u8,
            id,
            count,
        };
        let mut answer = with_room(alloc, HEAD_LENGTH + count as usize)?;
        append(&mut answer, &head.bytes())?;
        Ok(answer)
    }

    /// Reads what is to be kept under an id. Where it finds no memory, it is read and dropped.
    pub fn read<R: Read>(
        alloc: Global,
        reader: &mut R,
        id: u64,
        count: u32,
    ) -> Result<Self, PayloadFault>
        ensures id { IfOk result (λ k. k.id ≡ id) }
        ensures count { IfOk result (λ k. length k.bytes ≡ count) }
        ensures bytes { IfOk result (λ k. Consumes (R.remaining reader.old) (R.remaining reader.new) k.bytes) }
        ensures err { IfErr result (λ fault. LosesPayload fault count (R.remaining reader.old) (R.remaining reader.new)) }
    {
        let Ok(mut answer) = Kept::begin(alloc, id, count) else {
            drop_payload(reader, count)?;
            return Err(PayloadFault::NoMemory);
        };
        read_payload(reader, count, &mut answer)?;
        Ok(Kept { id, answer })
    }

    /// The id.
    pub fn id(&self) -> u64
        ensures { result ≡ self.now.id }
    {
        self.id
    }

    /// How many bytes are kept.
    pub fn count(&self) -> u64 {
        self.answer.len().saturating_sub(HEAD_LENGTH) as u64
    }

    /// The frame that answers a get.
    pub fn answer(&self) -> &[u8]
        ensures { result.now ≡ frame done self.now.id self.now.bytes }
    {
        &self.answer
    }
}

/// Where an id is kept.
pub(crate) fn place_of(kept: &[Kept], id: u64) -> Option<usize>
    ensures there { IfSome result (λ place. place < length kept.now) }
    ensures id { IfSome result (λ place. (k : Sent) → (get_or kept.now place k).id ≡ id) }
    ensures bytes { IfSome result (λ place. (k : Sent) → kept_under id kept.now ≡ Some (get_or kept.now place k).bytes) }
    ensures rest { IfSome result (λ place. without id kept.now ≡ remove kept.now place) }
    ensures none { IfNone result (kept_under id kept.now ≡ None) }
{
    let mut place = 0;
    for k in kept {
        if k.id() == id {
            return Some(place);
        }
        place += 1;
    }
    None
}
