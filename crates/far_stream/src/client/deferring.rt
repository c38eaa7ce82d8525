//! A client that keeps forgets back, and sends them ahead of its next request.
ghost use Rattle.std.specs.Prelude.{◌≡◌, ◌≤◌, ◌<◌, ◌++◌, [], None, true, false, length, OnOk, OnErr, IfOk, IfErr, Result};
ghost use Rattle.far_store.specs.Stores.{Rises};
ghost use Rattle.far_store.specs.declared.fault.StoreFault.TheVariants.{Io};
ghost use Rattle.far_stream.specs.Client.{Counts, Talks};
ghost use Rattle.far_stream.specs.Deferring.{ForgetsHear, SendsForget, SendsGet, SendsPut, deferred_limit, forget_frames};
ghost use Rattle.far_stream.specs.Frames.{head};
ghost use Rattle.far_stream.specs.Hearing.{seen};

use crate::answers::{read_bytes, read_forgotten, read_kept};
use crate::client::StreamStore;
use crate::forgets::Forgets;
use crate::frame::{FrameKind, Head, PAYLOAD_LIMIT, lay_out_after};
use crate::parcel::StreamParcel;
use far_store::{FarStore, StoreFault};
use std::alloc::Global;
use std::io::{Read, Write};
use std::marker::Model;
use streams::put_all;

/// Writes this text, which ends with a request, and reads the answers to the forgets before it.
fn deliver<S: Read + Write>(
    stream: &mut S,
    text: &[u8],
    forgets: &mut Forgets,
) -> Result<(), StoreFault>
    ensures sent { Talks S.remaining S.contents stream.old text.now (λ before after. ForgetsHear forgets.old before after result) (result ≡ Err Io) stream.new }
    ensures none { forgets.new ≡ [] }
{
    if put_all(stream, text).is_err() {
        forgets.clear();
        return Err(StoreFault::Io);
    }
    forgets.hear(stream)
}

/// Writes forgets and a request without bytes as one, and reads the answers to the forgets.
fn send_after<S: Read + Write>(
    stream: &mut S,
    forgets: &mut Forgets,
    request: Head,
) -> Result<(), StoreFault>
    ensures sent { Talks S.remaining S.contents stream.old (forget_frames forgets.old ++ head request.kind request.id request.count)
        (λ before after. ForgetsHear forgets.old before after result) (result ≡ Err Io) stream.new }
    ensures none { forgets.new ≡ [] }
{
    let mut text = forgets.frames();
    text.put(&request.bytes());
    deliver(stream, &text, forgets)
}

impl<S: Read + Write + Drop> StreamStore<S> {
    /// Asks for bytes to be kept, after these forgets.
    fn send_put(
        &mut self,
        forgets: &mut Forgets,
        bytes: &Vec<u8>,
    ) -> Result<StreamParcel, StoreFault>
        ensures asked { SendsPut S.remaining S.contents (record { client = self.old; deferred = forgets.old }) bytes.now.items (seen (λ p. tt) result)
            (record { client = self.new; deferred = forgets.new }) }
        ensures parcel { IfOk result (λ p. (p.id ≡ self.new.puts) × (p.bytes ≡ bytes.now.items)) }
        ensures broken { self.new.broken ≡ self.old.broken }
        ensures faults { self.new.faults ≡ self.old.faults }
    {
        if let Some(fault) = self.broken {
            return Err(fault);
        }
        if bytes.is_empty() || bytes.len() > PAYLOAD_LIMIT as usize || self.puts == u64::MAX {
            return Err(StoreFault::Refused);
        }
        let head = FrameKind::Put.head(self.puts + 1, bytes.len() as u32);
        if lay_out_after(&mut self.frame, &forgets.frames(), head, bytes).is_err() {
            return Err(StoreFault::Memory);
        }
        self.puts += 1;
        deliver(&mut self.stream, &self.frame, forgets)?;
        // the server works meanwhile
        let parcel = StreamParcel::new(self.puts, bytes);
        match read_kept(&mut self.stream, parcel.id()) {
            Ok(()) => Ok(parcel),
            Err(fault) => Err(fault),
        }
    }

    /// Asks for the bytes of a parcel, after these forgets.
    fn send_get(
        &mut self,
        forgets: &mut Forgets,
        parcel: &StreamParcel,
    ) -> Result<Vec<u8>, StoreFault>
        ensures asked { SendsGet S.remaining S.contents (record { client = self.old; deferred = forgets.old }) parcel.now (seen (λ v. v.items) result)
            (record { client = self.new; deferred = forgets.new }) }
        ensures broken { self.new.broken ≡ self.old.broken }
        ensures faults { self.new.faults ≡ self.old.faults }
    {
        if let Some(fault) = self.broken {
            return Err(fault);
        }
        send_after(
            &mut self.stream,
            forgets,
            FrameKind::Get.head(parcel.id(), 0),
        )?;
        read_bytes(self.alloc, &mut self.stream, parcel)
    }

    /// Asks for a parcel to be forgotten, after these forgets.
    fn send_forget(&mut self, forgets: &mut Forgets, id: u64) -> Result<(), StoreFault>
        ensures asked { SendsForget S.remaining S.contents (record { client = self.old; deferred = forgets.old }) id result
            (record { client = self.new; deferred = forgets.new }) }
        ensures broken { self.new.broken ≡ self.old.broken }
        ensures faults { self.new.faults ≡ self.old.faults }
    {
        if let Some(fault) = self.broken {
            return Err(fault);
        }
        send_after(&mut self.stream, forgets, FrameKind::Forget.head(id, 0))?;
        read_forgotten(&mut self.stream, id)
    }

    /// Counts what a request found, where that is a fault.
    fn noted<A>(&mut self, found: Result<A, StoreFault>) -> Result<A, StoreFault>
        ensures result { result ≡ found }
        ensures counts { Counts self.old result self.new }
        ensures stream { self.new.stream ≡ self.old.stream }
        ensures puts { self.new.puts ≡ self.old.puts }
    {
        if let Err(fault) = &found {
            self.note(*fault);
        }
        found
    }
}

/// A [`StreamStore`] whose forgets wait for nothing: a forget is kept back, and sent ahead of the next request, in one write with
/// it. Then its answer is read. A fault that a forget meets is counted there, and is that request's answer too. At most 64 forgets
/// are kept back: one more is sent at once, with them. [`DeferringStore::reach`] sends those that are left. When it is
/// dropped it sends none: a server drops what it keeps for a client that goes.
#[derive(Drop)]
pub struct DeferringStore<S: Read + Write + Drop> {
    client: StreamStore<S>,
    forgets: Forgets,
}

impl<S: Read + Write + Drop> Model for DeferringStore<S> {
    ghost use Rattle.far_stream.specs.Deferring.{Deferring};

    ghost Value = { Deferring S };

    ghost view = { λ s. record { client = s.client; deferred = s.forgets } };
}

impl<S: Read + Write + Drop> DeferringStore<S> {
    /// A store over a stream at whose other end nothing is kept yet.
    pub fn new(alloc: Global, stream: S) -> Self
        ensures stream { result.client.stream ≡ stream }
        ensures puts { result.client.puts ≡ 0 }
        ensures broken { result.client.broken ≡ None }
        ensures faults { result.client.faults ≡ 0 }
        ensures deferred { result.deferred ≡ [] }
    {
        DeferringStore {
            client: StreamStore::new(alloc, stream),
            forgets: Forgets::new(),
        }
    }
}

impl<S: Read + Write + Drop> DeferringStore<S> {
    /// Whether a forget is kept back.
    fn defers(&self) -> bool
        ensures yes { result ≡ true → (self.now.client.broken ≡ None) × (length self.now.deferred < deferred_limit) }
        ensures no { result ≡ false → self.now.client.broken ≡ None → deferred_limit ≤ length self.now.deferred }
    {
        self.client.broken.is_none() && !self.forgets.is_full()
    }

    /// Sends the forgets that are kept back, with one of id 0, which no put has: so the other end has answered a request of this
    /// client when this returns.
    pub fn reach(&mut self) -> Result<(), StoreFault>
        ensures counts { Counts self.old.client result self.new.client }
        ensures asked { SendsForget S.remaining S.contents self.old 0 result self.new }
    {
        let found = self.client.send_forget(&mut self.forgets, 0);
        self.client.noted(found)
    }
}

impl<S: Read + Write + Drop> FarStore for DeferringStore<S> {
    ghost use Rattle.sha2.specs.Sha256.{sha256};
    ghost use Rattle.std.specs.Prelude.{Some, Ok, Err};
    ghost use Rattle.far_store.specs.Calls.Call.{Forget, Get, Put};
    ghost use Rattle.far_stream.specs.Client.{put_outcome};
    ghost use Rattle.far_stream.specs.Deferring.{CalledAfter, Defers, GetsAfter, PutsAfter};

    ghost RETURNS = { false };

    const RETURNS: bool = false;

    type Parcel = StreamParcel;

    ghost bytes_in = { λ p. p.bytes };

    ghost faults_of = { λ s. s.client.faults };

    ghost called = { CalledAfter S.remaining S.contents };

    fn put(&mut self, bytes: Vec<u8>) -> Result<StreamParcel, (StoreFault, Vec<u8>)>
        ensures puts { PutsAfter S.remaining S.contents self.old bytes.items (put_outcome result) self.new }
        ensures number { IfOk result (λ p. p.id ≡ self.new.client.puts) }
        ensures parcel { IfOk result (λ p. p.bytes ≡ bytes.items) }
        ensures calm { OnOk result (self.new.client.faults ≡ self.old.client.faults) }
        ensures back { IfErr result (λ e. e.1.items ≡ bytes.items) }
        ensures fault { OnErr result (Rises self.old.client.faults self.new.client.faults) }
        ensures called { OnOk result (CalledAfter S.remaining S.contents self.old (Put bytes.items None) self.new) }
        ensures failed { IfErr result (λ e. CalledAfter S.remaining S.contents self.old (Put bytes.items (Some e.0)) self.new) }
    {
        match self.client.send_put(&mut self.forgets, &bytes) {
            Ok(parcel) => Ok(parcel),
            Err(fault) => {
                self.client.note(fault);
                Err((fault, bytes))
            }
        }
    }

    fn get(&mut self, parcel: &StreamParcel) -> Result<Vec<u8>, StoreFault>
        ensures gets { GetsAfter S.remaining S.contents self.old parcel.now (seen (λ v. v.items) result) self.new }
        ensures bytes { IfOk result (λ v. (length v.items ≡ length parcel.now.bytes) × (sha256 v.items ≡ sha256 parcel.now.bytes)) }
        ensures calm { OnOk result (self.new.client.faults ≡ self.old.client.faults) }
        ensures fault { OnErr result (Rises self.old.client.faults self.new.client.faults) }
        ensures called { IfOk result (λ v. CalledAfter S.remaining S.contents self.old (Get parcel.now.bytes (Ok v.items)) self.new) }
        ensures failed { IfErr result (λ fault. CalledAfter S.remaining S.contents self.old (Get parcel.now.bytes (Err fault)) self.new) }
    {
        match self.client.send_get(&mut self.forgets, parcel) {
            Ok(bytes) => Ok(bytes),
            Err(fault) => {
                self.client.note(fault);
                Err(fault)
            }
        }
    }

    fn forget(&mut self, parcel: StreamParcel)
        ensures defers { Defers S.remaining S.contents self.old parcel.id self.new }
        ensures faults { self.old.client.faults ≤ self.new.client.faults }
        ensures called { CalledAfter S.remaining S.contents self.old (Forget parcel.bytes) self.new }
    {
        if self.defers() {
            self.forgets.keep(parcel.id());
            return;
        }
        if let Err(fault) = self.client.send_forget(&mut self.forgets, parcel.id()) {
            self.client.note(fault);
        }
    }

    fn faults(&self) -> u64 {
        self.client.faults
    }
}
