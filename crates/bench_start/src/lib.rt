//! How the programs that are measured start.
#![tactic(auto)]

ghost use Rattle.std.specs.Prelude.{◌≡◌, ◌≤◌, ◌-◌, None, IfSome};
ghost use Rattle.machine.specs.Runs.{fuel_of_stop};
ghost use Rattle.memory.specs.Objects.{object_bytes};

use far_store::OwnStore;
use isa_table::Size;
use loader::load;
use machine::{GRANT_LIMIT, Grant, Grants, Machine};
use memory::{Action, Op};
use object_store::{ObjectStore, StoreMemory};
use scopes::MACHINE_LIMIT;
use std::alloc::Global;

/// How many bytes the objects that aren't far may have.
pub const BUDGET: u32 = 67_108_864;

/// How many bytes the first object has.
const FIRST_BYTES: u32 = 65_536;

/// How many bytes each other object has.
const OTHER_BYTES: u32 = 64;

const LOAD: Op = Op {
    offset: 0,
    action: Action::Load { size: Size::Byte },
};

/// What a machine that is measured starts with.
#[repr(C)]
#[derive(Clone, Copy, Drop)]
pub struct Work {
    /// The fuel.
    pub fuel: u64,
    /// R1; R2 to R5 are 0.
    pub argument: u64,
    /// How many objects there are: the first of 65,536 bytes, and each other of 64.
    pub objects: u32,
    /// The machine's number. Each machine of a lower number has the last object in its scope.
    pub machines: usize,
    /// How many of the first objects it is granted, or 0 for all of them.
    pub granted: usize,
}

/// A machine at the start of the code, and the objects that it reaches. Gives nothing where the code isn't loaded, no machine has
/// such a number, or more objects are granted than may be.
pub fn start(alloc: Global, code: &[u8], work: Work) -> Option<(Machine, ObjectStore<OwnStore>)>
    ensures { IfSome result (λ started. work.machines ≤ 48) }
{
    if work.machines > MACHINE_LIMIT || work.granted > GRANT_LIMIT {
        return None;
    }
    let program = load(alloc, code).ok()?;
    let mut store = store_of(alloc, work.objects)?;
    for who in 1..work.machines {
        hold(&mut store, who, work.objects);
    }
    let grants = if work.granted == 0 {
        Grants::all()
    } else {
        first_objects(work.granted)
    };
    let arguments = [work.argument, 0, 0, 0, 0];
    let machine = Machine::granted(program, work.machines, work.fuel, arguments, grants);
    Some((machine, store))
}

/// The memory of that machine.
pub fn memory_of<'a>(store: &'a mut ObjectStore<OwnStore>, work: Work) -> StoreMemory<'a, OwnStore>
    ensures { result.who ≡ work.machines }
{
    StoreMemory {
        store,
        who: work.machines,
    }
}

/// How many instructions the machine ran since it started, by its fuel. EXIT takes fuel too, and is none that ran.
pub fn instructions_run(work: &Work, machine: &Machine) -> u64
    ensures goes { machine.now.stop ≡ None → result ≡ work.now.fuel - machine.now.fuel }
    ensures stopped { IfSome machine.now.stop (λ s. result ≡ work.now.fuel - machine.now.fuel - fuel_of_stop s) }
{
    let taken = work.fuel.saturating_sub(machine.fuel());
    match machine.stop() {
        Some(stop) => taken.saturating_sub(stop.cost()),
        None => taken,
    }
}

/// How many bytes the object has that is made after so many others.
pub fn length_after(count: u32) -> u32
    ensures { (1 ≤ result) × (result ≤ object_bytes) }
{
    if count == 0 { FIRST_BYTES } else { OTHER_BYTES }
}

/// The first objects, so many, for writing.
pub fn first_objects(count: usize) -> Grants
    requires { count ≤ 16 }
{
    let mut grants = Grants::none();
    for index in 0..count {
        grants.add(Grant {
            number: index as u32 + 1,
            writes: true,
        });
    }
    grants
}

/// A store of so many objects.
fn store_of(alloc: Global, objects: u32) -> Option<ObjectStore<OwnStore>> {
    let mut store = ObjectStore::new(alloc, BUDGET, OwnStore::new(alloc)).ok()?;
    for count in 0..objects {
        store.make(length_after(count)).ok()?;
    }
    Some(store)
}

/// Loads from the object, so that the machine of this number has it in its scope.
fn hold(store: &mut ObjectStore<OwnStore>, who: usize, number: u32)
    requires { who ≤ 48 }
{
    let _ = store.touch(who, number, &LOAD);
}
