//! What stands for bytes that were put.
ghost use Rattle.std.specs.Prelude.{◌≡◌, ◌≢◌, ◌<◌, ◌^◌, true, false, length};
ghost use Rattle.sha2.specs.Sha256.{sha256};

use sha2::{Digest, Sha256};
use std::marker::Model;
use std::snapshot::Snapshot;

/// What stands for bytes that were put: the number of the put, and their length and SHA-256.
#[derive(Drop)]
pub struct StreamParcel {
    id: u64,
    count: u32,
    digest: [u8; 32],
    // the bytes, for clauses alone
    sent: Snapshot<Vec<u8>>,
}

impl Model for StreamParcel {
    ghost use Rattle.std.specs.Prelude.{◌≡◌, length};
    ghost use Rattle.sha2.specs.Sha256.{sha256};
    ghost use Rattle.far_stream.specs.Sent.{Sent};

    ghost Value = { Sent };

    ghost view = { λ p. record { id = p.id; bytes = p.sent.value.items } };

    ghost invariant = { λ p. (p.count ≡ length p.sent.value.items) × (p.digest ≡ sha256 p.sent.value.items) };
}

impl StreamParcel {
    /// The parcel of these bytes under this number.
    pub(crate) fn new(id: u64, bytes: &Vec<u8>) -> Self
        requires { length bytes.now.items < 2 ^ 32 }
        ensures id { result.id ≡ id }
        ensures bytes { result.bytes ≡ bytes.now.items }
    {
        StreamParcel {
            id,
            count: bytes.len() as u32,
            digest: Sha256::digest(bytes.as_slice()),
            sent: Snapshot::of(bytes),
        }
    }

    /// The number of the put.
    pub(crate) fn id(&self) -> u64
        ensures { result ≡ self.now.id }
    {
        self.id
    }

    /// How many bytes were put.
    pub(crate) fn count(&self) -> u32
        ensures { result ≡ length self.now.bytes }
    {
        self.count
    }

    /// Whether these bytes have the digest of those that were put.
    pub(crate) fn has_digest_of(&self, bytes: &[u8]) -> bool
        ensures yes { result ≡ true → sha256 bytes.now ≡ sha256 self.now.bytes }
        ensures no { result ≡ false → sha256 bytes.now ≢ sha256 self.now.bytes }
    {
        Sha256::digest(bytes) == self.digest
    }
}
