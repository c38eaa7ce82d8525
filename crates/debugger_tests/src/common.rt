//! A debugged machine over a store of objects. A slot of code is written as its bytes, first to last.

use debugger::{Debuggee, ShowCommand, ShowReply, Start, StepReply, Way};
use far_store::OwnStore;
use loader::load;
use object_store::{ObjectStore, StoreMemory};
use std::alloc::Global;
use std::test::Fail;

pub const EXIT: u64 = 0x9500_0000_0000_0000;

/// mov r0, 7
pub const MOV: u64 = 0xb700_0000_0700_0000;

/// The address of object 1.
pub const OBJECT: u64 = 0x0000_0001_0000_0000;

/// The address of the machine's own stack.
pub const STACK: u64 = 0xffff_ffff_0000_0000;

/// A machine with number 1, its debugger, and the objects that it reaches.
#[derive(Drop)]
pub struct Session {
    pub debuggee: Debuggee,
    pub store: ObjectStore<OwnStore>,
}

/// A session over an object of eight bytes.
pub fn session_of(
    alloc: Global,
    fuel: u64,
    arguments: [u64; 5],
    slots: &[u64],
) -> Result<Session, Fail> {
    let mut bytes = Vec::new(alloc);
    for slot in slots {
        bytes.extend_from_slice(&slot.to_be_bytes())?;
    }
    let program = load(alloc, bytes.as_slice())?;
    let mut store = ObjectStore::new(alloc, 64, OwnStore::new(alloc))?;
    let _ = store.make(8)?;
    Ok(Session {
        debuggee: Debuggee::new(program, 1, Start::new(fuel, arguments)),
        store,
    })
}

/// One step over the objects.
pub fn step_over(
    debuggee: &mut Debuggee,
    store: &mut ObjectStore<OwnStore>,
    way: Way,
) -> StepReply {
    debuggee.step(way, &mut StoreMemory { store, who: 1 })
}

/// Shows something of the machine.
pub fn show(alloc: Global, session: &Session, command: ShowCommand) -> ShowReply {
    session.debuggee.show(alloc, command)
}
