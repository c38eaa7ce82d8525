//! Programs and objects for the tests. A slot is written as its bytes, first to last.

use far_store::OwnStore;
use loader::load;
use machine::{Machine, Stepped};
use object_store::{ObjectStore, StoreMemory};
use std::alloc::Global;
use std::test::Fail;

pub const EXIT: u64 = 0x9500_0000_0000_0000;

/// The address of object 1.
pub const OBJECT: u64 = 0x0000_0001_0000_0000;

/// The address of the machine's own stack.
pub const STACK: u64 = 0xffff_ffff_0000_0000;

/// A machine with number 1.
pub fn machine_of(
    alloc: Global,
    fuel: u64,
    arguments: [u64; 5],
    slots: &[u64],
) -> Result<Machine, Fail> {
    let mut bytes = Vec::new(alloc);
    for slot in slots {
        bytes.extend_from_slice(&slot.to_be_bytes())?;
    }
    let program = load(alloc, bytes.as_slice())?;
    Ok(Machine::new(program, 1, fuel, arguments))
}

/// A store without objects.
pub fn objects(alloc: Global) -> Result<ObjectStore<OwnStore>, Fail> {
    Ok(ObjectStore::new(alloc, 0x0400_0000, OwnStore::new(alloc))?)
}

/// One step over the objects.
pub fn step(machine: &mut Machine, store: &mut ObjectStore<OwnStore>) -> Stepped {
    machine.step(&mut StoreMemory { store, who: 1 })
}

/// Of so many steps, how many ran and wrote nothing.
pub fn runs(machine: &mut Machine, store: &mut ObjectStore<OwnStore>, count: u64) -> u64 {
    let mut ran = 0u64;
    for _ in 0..count {
        if step(machine, store) == Stepped::Ran(None) {
            ran = ran.saturating_add(1);
        }
    }
    ran
}

/// A store with one object of eight bytes.
pub fn store_of(alloc: Global, bytes: [u8; 8]) -> Result<ObjectStore<OwnStore>, Fail> {
    let mut store = objects(alloc)?;
    let number = store.make(8)?;
    store.put(number, 0, &bytes)?;
    Ok(store)
}

/// What the first step of a program answers, with R1 and R2 as given.
pub fn first_step(
    alloc: Global,
    store: &mut ObjectStore<OwnStore>,
    r1: u64,
    r2: u64,
    slot: u64,
) -> Result<Stepped, Fail> {
    let mut machine = machine_of(alloc, 10, [r1, r2, 0, 0, 0], &[slot, EXIT])?;
    Ok(step(&mut machine, store))
}
