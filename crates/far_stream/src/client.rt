//! The client's end: a store whose bytes are at the other end of a stream.
ghost use Rattle.std.specs.Prelude.{◌≡◌, ◌≤◌, ℕ, ◌+◌, length, false, OnOk, OnErr, IfOk, IfErr, Result};
ghost use Rattle.far_stream.specs.Hearing.{seen};
ghost use Rattle.far_store.specs.Stores.{Rises, capped};

mod deferring;

use crate::answers::{read_bytes, read_forgotten, read_kept};
use crate::frame::{FrameKind, Head, PAYLOAD_LIMIT, lay_out};
use crate::parcel::StreamParcel;
pub use deferring::DeferringStore;
use far_store::{FarStore, StoreFault};
use std::alloc::Global;
use std::io::{Read, Write};
use std::marker::Model;
use streams::put_all;

/// A store whose bytes are kept at the other end of a stream, by [`serve_store`](crate::serve_store)
/// or whoever answers as it does. It doesn't trust that end: bytes that come back are taken only
/// where they have the length and the SHA-256 of those that were put.
///
/// After `Io` and `Protocol` the stream is broken, and each later call answers that same fault.
/// After `Damaged`, `Memory` and `Refused` it goes on.
#[derive(Drop)]
pub struct StreamStore<S: Drop> {
    stream: S,
    alloc: Global,
    // the frame of the last put, kept for its room
    frame: Vec<u8>,
    puts: u64,
    broken: Option<StoreFault>,
    faults: u64,
}

impl<S: Drop> Model for StreamStore<S> {
    ghost use Rattle.far_stream.specs.Client.{Client};

    ghost Value = { Client S };

    ghost view = { λ s. record { stream = s.stream; puts = s.puts; broken = s.broken; faults = s.faults } };
}

impl<S: Drop> StreamStore<S> {
    ghost use Rattle.std.specs.Prelude.{None};
    ghost use Rattle.far_stream.specs.Client.{broken_by};

    /// A store over a stream at whose other end nothing is kept yet.
    pub fn new(alloc: Global, stream: S) -> Self
        ensures stream { result.stream ≡ stream }
        ensures puts { result.puts ≡ 0 }
        ensures broken { result.broken ≡ None }
        ensures faults { result.faults ≡ 0 }
    {
        StreamStore::numbered_from(alloc, stream, 0)
    }

    /// A store over a stream over which so many puts were numbered before: the next has the number
    /// after.
    pub fn numbered_from(alloc: Global, stream: S, puts: u64) -> Self
        ensures stream { result.stream ≡ stream }
        ensures puts { result.puts ≡ puts }
        ensures broken { result.broken ≡ None }
        ensures faults { result.faults ≡ 0 }
    {
        StreamStore {
            stream,
            alloc,
            frame: Vec::new(alloc),
            puts,
            broken: None,
            faults: 0,
        }
    }

    /// Counts a fault. Io and Protocol break the stream.
    fn note(&mut self, fault: StoreFault)
        ensures stream { self.new.stream ≡ self.old.stream }
        ensures puts { self.new.puts ≡ self.old.puts }
        ensures broken { self.new.broken ≡ broken_by self.old.broken fault }
        ensures faults { self.new.faults ≡ capped (self.old.faults + 1) }
        ensures more { self.old.faults ≤ self.new.faults }
    {
        if matches!(fault, StoreFault::Io | StoreFault::Protocol) {
            self.broken = Some(fault);
        }
        self.faults = self.faults.saturating_add(1);
    }
}

impl<S: Read + Write + Drop> StreamStore<S> {
    ghost use Rattle.far_stream.specs.Client.{AsksToForget, AsksToGet, AsksToPut};

    /// Asks for bytes to be kept.
    fn ask_to_put(&mut self, bytes: &Vec<u8>) -> Result<StreamParcel, StoreFault>
        ensures asked { AsksToPut S.remaining S.contents self.old bytes.now.items (seen (λ p. tt) result) self.new }
        ensures parcel { IfOk result (λ p. (p.id ≡ self.new.puts) × (p.bytes ≡ bytes.now.items)) }
        ensures broken { self.new.broken ≡ self.old.broken }
        ensures faults { self.new.faults ≡ self.old.faults }
    {
        if let Some(fault) = self.broken {
            return Err(fault);
        }
        if bytes.is_empty() || bytes.len() > PAYLOAD_LIMIT as usize || self.puts == u64::MAX {
            return Err(StoreFault::Refused);
        }
        let head = FrameKind::Put.head(self.puts + 1, bytes.len() as u32);
        if lay_out(&mut self.frame, head, bytes).is_err() {
            return Err(StoreFault::Memory);
        }
        self.puts += 1;
        if put_all(&mut self.stream, &self.frame).is_err() {
            return Err(StoreFault::Io);
        }
        // the server works meanwhile
        let parcel = StreamParcel::new(self.puts, bytes);
        read_kept(&mut self.stream, parcel.id())?;
        Ok(parcel)
    }

    /// Asks for the bytes of a parcel.
    fn ask_to_get(&mut self, parcel: &StreamParcel) -> Result<Vec<u8>, StoreFault>
        ensures asked { AsksToGet S.remaining S.contents self.old parcel.now (seen (λ v. v.items) result) self.new }
        ensures broken { self.new.broken ≡ self.old.broken }
        ensures faults { self.new.faults ≡ self.old.faults }
    {
        if let Some(fault) = self.broken {
            return Err(fault);
        }
        if put_all(
            &mut self.stream,
            &FrameKind::Get.head(parcel.id(), 0).bytes(),
        )
        .is_err()
        {
            return Err(StoreFault::Io);
        }
        read_bytes(self.alloc, &mut self.stream, parcel)
    }

    /// Asks for a parcel to be forgotten. Whether the server had it is no matter.
    fn ask_to_forget(&mut self, id: u64) -> Result<(), StoreFault>
        ensures asked { AsksToForget S.remaining S.contents self.old id result self.new }
        ensures broken { self.new.broken ≡ self.old.broken }
        ensures faults { self.new.faults ≡ self.old.faults }
    {
        if let Some(fault) = self.broken {
            return Err(fault);
        }
        if put_all(&mut self.stream, &FrameKind::Forget.head(id, 0).bytes()).is_err() {
            return Err(StoreFault::Io);
        }
        read_forgotten(&mut self.stream, id)
    }
}

impl<S: Read + Write + Drop> FarStore for StreamStore<S> {
    ghost use Rattle.sha2.specs.Sha256.{sha256};
    ghost use Rattle.std.specs.Prelude.{None, Some, Ok, Err};
    ghost use Rattle.far_store.specs.Calls.Call.{Forget, Get, Put};
    ghost use Rattle.far_stream.specs.Client.{Called, ForgetsOver, GetsOver, PutsOver, put_outcome};

    ghost RETURNS = { false };

    const RETURNS: bool = false;

    type Parcel = StreamParcel;

    ghost bytes_in = { λ p. p.bytes };

    ghost faults_of = { λ s. s.faults };

    ghost called = { Called S.remaining S.contents };

    fn put(&mut self, bytes: Vec<u8>) -> Result<StreamParcel, (StoreFault, Vec<u8>)>
        ensures puts { PutsOver S.remaining S.contents self.old bytes.items (put_outcome result) self.new }
        ensures number { IfOk result (λ p. p.id ≡ self.new.puts) }
        ensures parcel { IfOk result (λ p. p.bytes ≡ bytes.items) }
        ensures calm { OnOk result (self.new.faults ≡ self.old.faults) }
        ensures back { IfErr result (λ e. e.1.items ≡ bytes.items) }
        ensures fault { OnErr result (Rises self.old.faults self.new.faults) }
        ensures called { OnOk result (Called S.remaining S.contents self.old (Put bytes.items None) self.new) }
        ensures failed { IfErr result (λ e. Called S.remaining S.contents self.old (Put bytes.items (Some e.0)) self.new) }
    {
        match self.ask_to_put(&bytes) {
            Ok(parcel) => Ok(parcel),
            Err(fault) => {
                self.note(fault);
                Err((fault, bytes))
            }
        }
    }

    fn get(&mut self, parcel: &StreamParcel) -> Result<Vec<u8>, StoreFault>
        ensures gets { GetsOver S.remaining S.contents self.old parcel.now (seen (λ v. v.items) result) self.new }
        ensures bytes { IfOk result (λ v. (length v.items ≡ length parcel.now.bytes) × (sha256 v.items ≡ sha256 parcel.now.bytes)) }
        ensures calm { OnOk result (self.new.faults ≡ self.old.faults) }
        ensures fault { OnErr result (Rises self.old.faults self.new.faults) }
        ensures called { IfOk result (λ v. Called S.remaining S.contents self.old (Get parcel.now.bytes (Ok v.items)) self.new) }
        ensures failed { IfErr result (λ fault. Called S.remaining S.contents self.old (Get parcel.now.bytes (Err fault)) self.new) }
    {
        match self.ask_to_get(parcel) {
            Ok(bytes) => Ok(bytes),
            Err(fault) => {
                self.note(fault);
                Err(fault)
            }
        }
    }

    fn forget(&mut self, parcel: StreamParcel)
        ensures forgets { ForgetsOver S.remaining S.contents self.old parcel.id self.new }
        ensures faults { self.old.faults ≤ self.new.faults }
        ensures called { Called S.remaining S.contents self.old (Forget parcel.bytes) self.new }
    {
        if let Err(fault) = self.ask_to_forget(parcel.id()) {
            self.note(fault);
        }
    }

    fn faults(&self) -> u64 {
        self.faults
    }
}
