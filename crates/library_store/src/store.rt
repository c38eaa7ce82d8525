//! The far store of an agent in the library for C: it keeps the bytes, or its caller does.
ghost use Rattle.std.specs.Prelude.{◌≡◌, ◌≢◌, ◌+◌, true, false, Some, None, Ok, Err, IfOk, IfErr, OnOk, OnErr};
ghost use Rattle.far_store.specs.Stores.{Rises, capped};
ghost use Rattle.far_store.specs.Calls.Call.{Put, Get};
ghost use Rattle.far_store.specs.declared.fault.StoreFault.TheVariants.{Damaged, Memory, Refused};
ghost use Rattle.library_store.specs.Parcels.{Alike, IsHanded, bytes_in};
ghost use Rattle.library_store.specs.Calls.{library_called};

use crate::parcel::{Handed, LibraryParcel};
use far_store::{FarStore, HandsOut, StoreFault};
use std::alloc::Global;
use std::marker::Model;

/// A store that keeps bytes in the library's own memory, or refuses to: then all bytes are handed out. Of bytes that are handed
/// out it keeps length and SHA-256 alone.
#[derive(Drop)]
pub struct LibraryStore {
    alloc: Global,
    keeps: bool,
    faults: u64,
}

impl Model for LibraryStore {
    ghost use Rattle.library_store.specs.Calls.{LibraryState};

    ghost Value = { LibraryState };

    ghost view = { λ s. record { keeps = s.keeps; faults = s.faults } };
}

impl LibraryStore {
    /// A store that has seen no fault, and keeps what is put or refuses it.
    fn new(alloc: Global, keeps: bool) -> Self
        ensures { result ≡ record { keeps = keeps; faults = 0 } }
    {
        LibraryStore {
            alloc,
            keeps,
            faults: 0,
        }
    }

    /// A store that keeps what is put.
    pub fn keeping(alloc: Global) -> Self
        ensures { result ≡ record { keeps = true; faults = 0 } }
    {
        LibraryStore::new(alloc, true)
    }

    /// A store that refuses what is put.
    pub fn handing(alloc: Global) -> Self
        ensures { result ≡ record { keeps = false; faults = 0 } }
    {
        LibraryStore::new(alloc, false)
    }

    /// Counts a fault.
    fn note(&mut self, fault: StoreFault) -> StoreFault
        ensures fault { result ≡ fault }
        ensures counted { self.new ≡ record self.old { faults = capped (self.old.faults + 1) } }
    {
        self.faults = self.faults.saturating_add(1);
        fault
    }

    /// A copy of bytes.
    fn copy(&mut self, bytes: &[u8]) -> Result<Vec<u8>, StoreFault>
        ensures bytes { IfOk result (λ v. v.items ≡ bytes.now) }
        ensures calm { OnOk result (self.new ≡ self.old) }
        ensures memory { IfErr result (λ fault. fault ≡ Memory) }
        ensures counted { OnErr result (self.new ≡ record self.old { faults = capped (self.old.faults + 1) }) }
    {
        match bytes.to_vec(self.alloc) {
            Ok(copied) => Ok(copied),
            Err(_) => Err(self.note(StoreFault::Memory)),
        }
    }
}

impl FarStore for LibraryStore {
    ghost RETURNS = { true };

    const RETURNS: bool = true;

    type Parcel = LibraryParcel;

    ghost bytes_in = { bytes_in };

    ghost faults_of = { λ s. s.faults };

    ghost called = { library_called };

    fn put(&mut self, bytes: Vec<u8>) -> Result<LibraryParcel, (StoreFault, Vec<u8>)>
        ensures parcel { IfOk result (λ p. bytes_in p ≡ bytes.items) }
        ensures keeps { OnOk result ((self.old.keeps ≡ true) × (self.new ≡ self.old)) }
        ensures refused { IfErr result (λ e. (e.0 ≡ Refused) × (self.old.keeps ≡ false)) }
        ensures back { IfErr result (λ e. e.1.items ≡ bytes.items) }
        ensures fault { OnErr result (Rises self.old.faults self.new.faults) }
        ensures called { OnOk result (library_called self.old (Put bytes.items None) self.new) }
        ensures failed { IfErr result (λ e. library_called self.old (Put bytes.items (Some e.0)) self.new) }
    {
        if self.keeps {
            Ok(LibraryParcel::Kept(bytes))
        } else {
            Err((self.note(StoreFault::Refused), bytes))
        }
    }

    fn get(&mut self, parcel: &LibraryParcel) -> Result<Vec<u8>, StoreFault>
        ensures bytes { IfOk result (λ v. v.items ≡ bytes_in parcel.now) }
        ensures calm { OnOk result (self.new ≡ self.old) }
        ensures fault { OnErr result (Rises self.old.faults self.new.faults) }
        ensures called { IfOk result (λ v. library_called self.old (Get (bytes_in parcel.now) (Ok v.items)) self.new) }
        ensures failed { IfErr result (λ fault. library_called self.old (Get (bytes_in parcel.now) (Err fault)) self.new) }
    {
        match parcel {
            LibraryParcel::Kept(bytes) => self.copy(bytes.as_slice()),
            LibraryParcel::Handed(_) => Err(self.note(StoreFault::Refused)),
        }
    }

    fn forget(&mut self, parcel: LibraryParcel)
        ensures { self.new ≡ self.old }
    {
        drop(parcel);
    }

    fn faults(&self) -> u64 {
        self.faults
    }
}

impl HandsOut for LibraryStore {
    ghost alike = { Alike };

    fn hand_out(&mut self, bytes: &Vec<u8>) -> LibraryParcel
        ensures parcel { bytes_in result ≡ bytes.now.items }
        ensures digest { IsHanded result }
        ensures calm { self.new ≡ self.old }
    {
        LibraryParcel::Handed(Handed::of(bytes))
    }

    fn take_back(&mut self, parcel: &LibraryParcel, bytes: &[u8]) -> Result<Vec<u8>, StoreFault>
        requires premise { Alike (bytes_in parcel.now) bytes.now → bytes.now ≡ bytes_in parcel.now }
        ensures taken { IfOk result (λ v. (v.items ≡ bytes_in parcel.now) × (bytes.now ≡ bytes_in parcel.now)) }
        ensures damaged { IfErr result (λ fault. fault ≡ Damaged → bytes.now ≢ bytes_in parcel.now) }
        ensures others { IfErr result (λ fault. bytes.now ≢ bytes_in parcel.now → fault ≡ Damaged) }
        ensures calm { OnOk result (self.new ≡ self.old) }
        ensures fault { OnErr result (Rises self.old.faults self.new.faults) }
        ensures called { IfOk result (λ v. library_called self.old (Get (bytes_in parcel.now) (Ok v.items)) self.new) }
        ensures failed { IfErr result (λ fault. library_called self.old (Get (bytes_in parcel.now) (Err fault)) self.new) }
    {
        if parcel.stands_for(bytes) {
            self.copy(bytes)
        } else {
            Err(self.note(StoreFault::Damaged))
        }
    }
}
