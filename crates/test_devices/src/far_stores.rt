//! Far stores within the agent's own memory.
ghost use Rattle.std.specs.Prelude.{false, true};
ghost use Rattle.far_store.specs.Calls.{own_called};

use crate::made::number_of;
use far_store::{FarStore, OwnParcel, OwnStore, StoreFault};
use std::alloc::{AllocError, Global};
use std::cell::Cell;
use std::rc::Rc;

/// A call of a [`Counting`] store, with how many bytes were put or came.
#[derive(Clone, Copy, Drop, Debug, PartialEq, Eq)]
pub enum Call {
    Put(usize),
    Get(usize),
    Forget,
}

/// How many calls are kept.
pub const LOGGED: usize = 12;

/// How often a [`Counting`] store was asked, and what it was asked first.
#[derive(Drop)]
pub struct Asked {
    puts: Cell<u32>,
    gets: Cell<u32>,
    forgets: Cell<u32>,
    calls: Cell<[Option<Call>; LOGGED]>,
    logged: Cell<usize>,
}

impl Asked {
    pub fn new() -> Self {
        Asked {
            puts: Cell::new(0),
            gets: Cell::new(0),
            forgets: Cell::new(0),
            calls: Cell::new([None; LOGGED]),
            logged: Cell::new(0),
        }
    }

    /// Puts, gets and forgets up to now.
    pub fn counts(&self) -> (u32, u32, u32) {
        (self.puts.get(), self.gets.get(), self.forgets.get())
    }

    /// The first calls, in their order.
    pub fn calls(&self) -> [Option<Call>; LOGGED] {
        self.calls.get()
    }

    fn log(&self, call: Call) {
        match call {
            Call::Put(_) => count(&self.puts),
            Call::Get(_) => count(&self.gets),
            Call::Forget => count(&self.forgets),
        }
        let at = self.logged.get();
        let mut calls = self.calls.get();
        if at < LOGGED {
            calls[at] = Some(call);
            self.logged.set(at + 1);
        }
        self.calls.set(calls);
    }
}

fn count(cell: &Cell<u32>) {
    cell.set(cell.get().saturating_add(1));
}

/// A store in the agent's own memory that counts and logs what it is asked.
#[derive(Drop)]
pub struct Counting {
    store: OwnStore,
    asked: Rc<Asked>,
}

impl Counting {
    /// A store that counts its calls here.
    pub fn new(alloc: Global, asked: &Rc<Asked>) -> Result<Self, AllocError> {
        Ok(Counting {
            store: OwnStore::new(alloc),
            asked: asked.clone()?,
        })
    }
}

impl FarStore for Counting {
    ghost RETURNS = { true };

    const RETURNS: bool = true;

    type Parcel = OwnParcel;

    ghost bytes_in = { λ p. p.bytes };

    ghost faults_of = { λ s. s.store };

    ghost called = { λ s call t. own_called s.store call t.store };

    fn put(&mut self, bytes: Vec<u8>) -> Result<OwnParcel, (StoreFault, Vec<u8>)> {
        self.asked.log(Call::Put(bytes.len()));
        self.store.put(bytes)
    }

    fn get(&mut self, parcel: &OwnParcel) -> Result<Vec<u8>, StoreFault> {
        match self.store.get(parcel) {
            Ok(bytes) => {
                self.asked.log(Call::Get(bytes.len()));
                Ok(bytes)
            }
            Err(fault) => Err(fault),
        }
    }

    fn forget(&mut self, parcel: OwnParcel) {
        self.asked.log(Call::Forget);
        self.store.forget(parcel);
    }

    fn faults(&self) -> u64 {
        self.store.faults()
    }
}

/// A far store whose first answer to a `get` has a byte too few. It promises nothing of what it gives back.
#[derive(Drop)]
pub struct Short {
    store: OwnStore,
    asked: bool,
}

impl Short {
    pub fn new(alloc: Global) -> Self {
        Short {
            store: OwnStore::new(alloc),
            asked: false,
        }
    }
}

impl FarStore for Short {
    ghost RETURNS = { false };

    const RETURNS: bool = false;

    type Parcel = OwnParcel;

    ghost bytes_in = { λ p. p.bytes };

    ghost faults_of = { λ s. s.store };

    ghost called = { λ s call t. Unit {0} };

    fn put(&mut self, bytes: Vec<u8>) -> Result<OwnParcel, (StoreFault, Vec<u8>)> {
        self.store.put(bytes)
    }

    fn get(&mut self, parcel: &OwnParcel) -> Result<Vec<u8>, StoreFault> {
        let mut bytes = self.store.get(parcel)?;
        if !self.asked {
            self.asked = true;
            bytes.pop();
        }
        Ok(bytes)
    }

    fn forget(&mut self, parcel: OwnParcel) {
        self.store.forget(parcel);
    }

    fn faults(&self) -> u64 {
        self.store.faults()
    }
}

/// The number for which the parcel of an object stands, if one is kept.
pub fn number_kept<F: FarStore>(
    store: &mut F,
    parcels: &[Option<F::Parcel>],
    object: usize,
) -> Option<u64> {
    let parcel = parcels.get(object)?.as_ref()?;
    number_of(&store.get(parcel).ok()?)
}
