//! Frames, and their heads.
ghost use Rattle.std.specs.Prelude.{◌≡◌, ◌≢◌, ◌++◌, ◌<◌, ◌≤◌, [], true, false, OnOk, OnErr, IfOk, IfErr, IfSome, IfNone, Result};
ghost use Rattle.std.specs.Io.KnownBytes.{Consumes, IsAtEnd};
ghost use Rattle.far_stream.specs.Frames.{head, IsHead};
ghost use Rattle.far_stream.specs.Conversations.{IsAsking};
ghost use Rattle.far_stream.specs.Hearing.{IsProper};
ghost use Rattle.far_stream.specs.Kinds.{Asks, kind_number, status_number};
ghost use Rattle.far_stream.specs.declared.frame.FrameKind.{FrameKind};
ghost use Rattle.far_stream.specs.Payloads.{CutsOffWithin};
ghost use Rattle.far_stream.specs.Refusals.{MemoryIsRefused};

use crate::fault::Cut;
use crate::room::append;
use byteorder::{BigEndian, ByteOrder};
use std::alloc::AllocError;
use std::io::Read;
use streams::fill;

/// How many bytes a head has.
pub(crate) const HEAD_LENGTH: usize = 13;

/// How many bytes a frame carries at most.
pub const PAYLOAD_LIMIT: u32 = 65_536;

/// What is asked.
#[derive(Clone, Copy)]
pub(crate) enum FrameKind {
    Put = 1,
    Get = 2,
    Forget = 3,
}

/// What is answered.
#[derive(Clone, Copy)]
pub(crate) enum Status {
    /// It is done.
    Done = 0,
    /// The id is kept already, or isn't kept.
    RefusedId = 1,
    /// There is no room.
    NoRoom = 2,
}

impl FrameKind {
    /// The kind that a head's first byte names.
    fn of(number: u8) -> Option<FrameKind>
        ensures some { IfSome result (λ kind. number ≡ kind_number kind) }
        ensures none { IfNone result ((kind : FrameKind) → number ≢ kind_number kind) }
    {
        const PUT: u8 = FrameKind::Put as u8;
        const GET: u8 = FrameKind::Get as u8;
        const FORGET: u8 = FrameKind::Forget as u8;
        match number {
            PUT => Some(FrameKind::Put),
            GET => Some(FrameKind::Get),
            FORGET => Some(FrameKind::Forget),
            _ => None,
        }
    }

    /// The head of a request.
    pub fn head(self, id: u64, count: u32) -> Head
        ensures kind { result.kind ≡ kind_number self }
        ensures id { result.id ≡ id }
        ensures count { result.count ≡ count }
    {
        Head {
            kind: self as u8,
            id,
            count,
        }
    }
}

impl Status {
    /// The head of an answer without bytes.
    pub fn head(self, id: u64) -> Head
        ensures kind { result.kind ≡ status_number self }
        ensures id { result.id ≡ id }
        ensures count { result.count ≡ 0 }
    {
        Head {
            kind: self as u8,
            id,
            count: 0,
        }
    }
}

/// The head of a frame: a request's kind or an answer's status, the id, and how many bytes follow.
#[derive(Clone, Copy)]
pub(crate) struct Head {
    pub kind: u8,
    pub id: u64,
    pub count: u32,
}

impl Head {
    /// The head as bytes.
    #[tactic(auto, unfolding(crate::specs::Frames::head))]
    pub fn bytes(self) -> [u8; HEAD_LENGTH]
        ensures { result ≡ head self.kind self.id self.count }
    {
        let mut bytes = [0u8; HEAD_LENGTH];
        bytes[0] = self.kind;
        BigEndian::write_u64(&mut bytes[1..], self.id);
        BigEndian::write_u32(&mut bytes[9..], self.count);
        bytes
    }

    /// The head that these bytes are.
    pub fn of(bytes: &[u8; HEAD_LENGTH]) -> Head
        ensures { bytes.now ≡ head result.kind result.id result.count }
    {
        Head {
            kind: bytes[0],
            id: BigEndian::read_u64(&bytes[1..]),
            count: BigEndian::read_u32(&bytes[9..]),
        }
    }

    /// What a request with this head asks, where one may have it.
    pub fn asks(self) -> Option<FrameKind>
        ensures some { IfSome result (λ kind. Asks kind self.kind self.count) }
        ensures none { IfNone result (IsAsking self.kind self.count → ⊥) }
    {
        match FrameKind::of(self.kind)? {
            FrameKind::Put if self.count > 0 && self.count <= PAYLOAD_LIMIT => Some(FrameKind::Put),
            FrameKind::Get if self.count == 0 => Some(FrameKind::Get),
            FrameKind::Forget if self.count == 0 => Some(FrameKind::Forget),
            _ => None,
        }
    }

    /// Whether an answer to the request of this id may have it, where so many bytes may come with it.
    pub fn is_proper(self, id: u64, most: u32) -> bool
        ensures yes { result ≡ true → IsProper id most self.kind self.id self.count }
        ensures no { result ≡ false → IsProper id most self.kind self.id self.count → ⊥ }
    {
        self.id == id
            && self.kind <= Status::NoRoom as u8
            && self.count <= most
            && (self.kind == Status::Done as u8 || self.count == 0)
    }

    /// Reads the head of a frame. There is none where the input has ended before it.
    pub fn read<R: Read>(reader: &mut R) -> Result<Option<Head>, Cut>
        ensures found { IfOk result (λ found. IfSome found (λ h. IsHead h.kind h.id h.count
            × Consumes (R.remaining reader.old) (R.remaining reader.new) (head h.kind h.id h.count))) }
        ensures end { IfOk result (λ found. IfNone found (Consumes (R.remaining reader.old) (R.remaining reader.new) [] × IsAtEnd (R.remaining reader.new))) }
        ensures err { IfErr result (λ cut. CutsOffWithin cut (R.remaining reader.old) (R.remaining reader.new)) }
    {
        let mut bytes = [0u8; HEAD_LENGTH];
        match fill(reader, &mut bytes) {
            Ok(HEAD_LENGTH) => Ok(Some(Head::of(&bytes))),
            Ok(0) => Ok(None),
            Ok(_) => Err(Cut::Ended),
            Err(_) => Err(Cut::Failed),
        }
    }
}

/// Lays a frame out, in place of what was there.
pub(crate) fn lay_out(frame: &mut Vec<u8>, first: Head, bytes: &[u8]) -> Result<(), AllocError>
    ensures items { OnOk result (frame.new.items ≡ head first.kind first.id first.count ++ bytes.now) }
    ensures refused { OnErr result MemoryIsRefused }
{
    lay_out_after(frame, &[], first, bytes)
}

/// The same, after other frames.
pub(crate) fn lay_out_after(
    frame: &mut Vec<u8>,
    others: &[u8],
    first: Head,
    bytes: &[u8],
) -> Result<(), AllocError>
    ensures items { OnOk result (frame.new.items ≡ others.now ++ (head first.kind first.id first.count ++ bytes.now)) }
    ensures refused { OnErr result MemoryIsRefused }
{
    frame.clear();
    append(frame, others)?;
    append(frame, &first.bytes())?;
    append(frame, bytes)
}
