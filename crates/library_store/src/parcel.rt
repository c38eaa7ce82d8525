//! Parcels of bytes that the library keeps, and of bytes that its caller keeps. Of these the library has a digest, so that it
//! knows them again.
ghost use Rattle.std.specs.Prelude.{◌≡◌, ◌≢◌, true, false};
ghost use Rattle.sha2.specs.Sha256.{sha256};
ghost use Rattle.library_store.specs.Parcels.{Alike, bytes_in};

use sha2::{Digest, Sha256};
use std::marker::Model;
use std::snapshot::Snapshot;

/// The length and the SHA-256 of bytes that the caller keeps. It is seen as those bytes.
#[derive(Drop)]
pub struct Handed {
    count: usize,
    digest: [u8; 32],
    // the bytes, for clauses alone
    sent: Snapshot<Vec<u8>>,
}

impl Model for Handed {
    ghost use Rattle.std.specs.Prelude.{◌≡◌, ℕ, List, length};
    ghost use Rattle.sha2.specs.Sha256.{sha256};

    ghost Value = { List ℕ };

    ghost view = { λ h. h.sent.value.items };

    ghost invariant = { λ h. (h.count ≡ length h.sent.value.items) × (h.digest ≡ sha256 h.sent.value.items) };
}

impl Handed {
    /// What is kept of these bytes.
    pub(crate) fn of(bytes: &Vec<u8>) -> Handed
        ensures { result ≡ bytes.now.items }
    {
        Handed {
            count: bytes.len(),
            digest: Sha256::digest(bytes.as_slice()),
            sent: Snapshot::of(bytes),
        }
    }

    /// Whether bytes have this length and this SHA-256.
    fn stands_for(&self, bytes: &[u8]) -> bool
        ensures yes { result ≡ true → Alike self.now bytes.now }
        ensures no { result ≡ false → Alike self.now bytes.now → ⊥ }
    {
        bytes.len() == self.count && Sha256::digest(bytes) == self.digest
    }

    /// The SHA-256.
    fn digest(&self) -> [u8; 32]
        ensures { result ≡ sha256 self.now }
    {
        self.digest
    }
}

/// What stands for bytes that are away.
#[derive(Drop)]
pub enum LibraryParcel {
    /// The bytes themselves, which the library keeps.
    Kept(Vec<u8>),
    /// What is kept of bytes that the caller keeps.
    Handed(Handed),
}

impl LibraryParcel {
    /// Whether these are its bytes, as far as it can tell.
    pub fn stands_for(&self, bytes: &[u8]) -> bool
        ensures yes { result ≡ true → Alike (bytes_in self.now) bytes.now }
        ensures no { result ≡ false → bytes.now ≢ bytes_in self.now }
    {
        match self {
            LibraryParcel::Kept(kept) => kept.as_slice() == bytes,
            LibraryParcel::Handed(handed) => handed.stands_for(bytes),
        }
    }

    /// The SHA-256 of its bytes.
    pub fn digest(&self) -> [u8; 32]
        ensures { result ≡ sha256 (bytes_in self.now) }
    {
        match self {
            LibraryParcel::Kept(kept) => Sha256::digest(kept.as_slice()),
            LibraryParcel::Handed(handed) => handed.digest(),
        }
    }
}
