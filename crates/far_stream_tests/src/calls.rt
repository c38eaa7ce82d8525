//! A client whose calls answer plain values.

use crate::frames::owned;
use far_store::{FarStore, StoreFault};
use std::alloc::Global;

/// What came of a call.
#[derive(Clone, Copy, Drop, Debug, PartialEq, Eq)]
pub enum Outcome {
    Done,
    Fault(StoreFault),
    /// Other bytes came home, or came back from a put that failed.
    OtherBytes,
    NoParcel,
    NoMemory,
}

/// A client with what stands for its puts.
#[derive(Drop)]
pub struct Client<S: FarStore + Drop> {
    alloc: Global,
    store: S,
    parcels: Vec<S::Parcel>,
}

impl<S: FarStore + Drop> Client<S> {
    /// A client without a parcel.
    pub fn new(alloc: Global, store: S) -> Self {
        Client {
            alloc,
            store,
            parcels: Vec::new(alloc),
        }
    }

    /// Puts these bytes.
    pub fn put(&mut self, bytes: &[u8]) -> Outcome {
        let Ok(copy) = owned(self.alloc, bytes) else {
            return Outcome::NoMemory;
        };
        match self.store.put(copy) {
            Ok(parcel) => match self.parcels.push(parcel) {
                Ok(()) => Outcome::Done,
                Err(_) => Outcome::NoMemory,
            },
            Err((fault, back)) if back.as_slice() == bytes => Outcome::Fault(fault),
            Err(_) => Outcome::OtherBytes,
        }
    }

    /// Gets the bytes of a parcel, which should be these. The first put that was done has place 0.
    pub fn get(&mut self, place: usize, wanted: &[u8]) -> Outcome {
        let Some(parcel) = self.parcels.get(place) else {
            return Outcome::NoParcel;
        };
        match self.store.get(parcel) {
            Ok(bytes) if bytes.as_slice() == wanted => Outcome::Done,
            Ok(_) => Outcome::OtherBytes,
            Err(fault) => Outcome::Fault(fault),
        }
    }

    /// Forgets the parcel of the last put.
    pub fn forget(&mut self) {
        if let Some(parcel) = self.parcels.pop() {
            self.store.forget(parcel);
        }
    }

    /// How many faults were counted.
    pub fn faults(&self) -> u64 {
        self.store.faults()
    }
}
