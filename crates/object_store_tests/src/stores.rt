//! Stores for tests.
ghost use Rattle.std.specs.Prelude.{true};

use far_store::{Failing, FarStore, OwnStore, StoreFault};
use object_store::ObjectStore;
use std::alloc::{AllocError, Global};
use std::rc::Rc;
use test_devices::{Asked, Counting};

/// The budget of a store that never lacks room.
pub const AMPLE: u32 = 67_108_864;

/// A store over the agent's own memory, with this budget.
pub fn objects_within(alloc: Global, budget: u32) -> Result<ObjectStore<OwnStore>, AllocError> {
    ObjectStore::new(alloc, budget, OwnStore::new(alloc))
}

/// A store over the agent's own memory, with room for all objects.
pub fn own_objects(alloc: Global) -> Result<ObjectStore<OwnStore>, AllocError> {
    objects_within(alloc, AMPLE)
}

/// A store with this budget, of whose far store one call is refused.
pub fn failing_objects(
    alloc: Global,
    budget: u32,
    call: u64,
) -> Result<ObjectStore<Failing<OwnStore>>, AllocError> {
    ObjectStore::new(alloc, budget, Failing::new(OwnStore::new(alloc), call))
}

/// A store with room for all objects, which counts and logs what it asks.
pub fn counting_objects(
    alloc: Global,
    asked: &Rc<Asked>,
) -> Result<ObjectStore<Counting>, AllocError> {
    ObjectStore::new(alloc, AMPLE, Counting::new(alloc, asked)?)
}

/// What stands for bytes in an [`Unwilling`] store.
#[derive(Drop)]
pub struct Kept {
    bytes: Vec<u8>,
}

/// A store in the agent's own memory that has little room, or of which each `forget` fails.
#[derive(Drop)]
pub struct Unwilling {
    alloc: Global,
    /// For how many more parcels there is room.
    room: usize,
    forgets: bool,
    faults: u64,
}

impl Unwilling {
    /// A store with room for a single parcel. A put beside it is refused.
    pub fn single(alloc: Global) -> Self {
        Unwilling {
            alloc,
            room: 1,
            forgets: true,
            faults: 0,
        }
    }

    /// A store of which each `forget` fails, which is counted.
    pub fn grudging(alloc: Global) -> Self {
        Unwilling {
            alloc,
            room: usize::MAX,
            forgets: false,
            faults: 0,
        }
    }
}

impl FarStore for Unwilling {
    ghost RETURNS = { true };

    const RETURNS: bool = true;

    type Parcel = Kept;

    ghost bytes_in = { λ p. p.bytes.items };

    ghost faults_of = { λ s. s.faults };

    ghost called = { λ s call t. Unit };

    fn put(&mut self, bytes: Vec<u8>) -> Result<Kept, (StoreFault, Vec<u8>)> {
        if self.room == 0 {
            self.faults = self.faults.saturating_add(1);
            return Err((StoreFault::Refused, bytes));
        }
        self.room -= 1;
        Ok(Kept { bytes })
    }

    fn get(&mut self, parcel: &Kept) -> Result<Vec<u8>, StoreFault> {
        match parcel.bytes.to_vec(self.alloc) {
            Ok(bytes) => Ok(bytes),
            Err(_) => {
                self.faults = self.faults.saturating_add(1);
                Err(StoreFault::Memory)
            }
        }
    }

    fn forget(&mut self, parcel: Kept) {
        if self.forgets {
            self.room = self.room.saturating_add(1);
        } else {
            self.faults = self.faults.saturating_add(1);
        }
        drop(parcel);
    }

    fn faults(&self) -> u64 {
        self.faults
    }
}
