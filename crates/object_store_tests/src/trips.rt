//! What objects that go and come ask of their far store, and what comes of a far store that fails.
ghost use Rattle.std.specs.Prelude.{◌≤◌};

use crate::acts::{Act, Answer, tells};
use crate::compared::same;
use crate::stores::{AMPLE, Unwilling, counting_objects, failing_objects};
use far_store::{FarStore, StoreFault};
use memory::OBJECT_BYTES;
use object_store::{Denied, Moved, ObjectStore, PartsError, Place};
use std::alloc::{AllocError, Global};
use std::process::Abort;
use std::rc::Rc;
use std::test::Fail;
use test_devices::{Asked, Call, LOGGED};

/// An object leaves and has left, returns and has returned.
fn go<F: FarStore>(objects: &mut ObjectStore<F>, number: u32) -> [Moved; 4] {
    let leaving = objects.leave(number);
    let left = objects.left(number);
    let returning = objects.return_(number);
    [leaving, left, returning, objects.returned(number)]
}

const DONE: Moved = Moved::Done;

/// Whether an object has these bytes first.
fn begins_with<F: FarStore>(objects: &ObjectStore<F>, number: u32, bytes: &[u8]) -> bool {
    if bytes.len() > OBJECT_BYTES {
        return false;
    }
    match objects.get(number, 0, bytes.len() as u32) {
        Ok(came) => came.as_slice() == bytes,
        Err(_) => false,
    }
}

// ---- objects of 1 to 65,536 bytes

/// What came of an object's life.
#[derive(Clone, Copy, Drop, Debug, PartialEq, Eq)]
struct Life {
    trips: [[Moved; 4]; 3],
    kept: [bool; 3],
    freed: Moved,
    calls: [Option<Call>; LOGGED],
    counts: (u32, u32, u32),
}

/// Object 1 goes and comes: what came of that, and whether it has these bytes then.
fn goes<F: FarStore>(objects: &mut ObjectStore<F>, bytes: &[u8]) -> ([Moved; 4], bool) {
    let trip = go(objects, 1);
    (trip, begins_with(objects, 1, bytes))
}

/// The same of bytes that are all this one.
fn goes_with<F: FarStore>(
    alloc: Global,
    objects: &mut ObjectStore<F>,
    byte: u8,
    length: usize,
) -> Result<([Moved; 4], bool), AllocError> {
    let bytes = vec![in alloc; byte; length]?;
    Ok(goes(objects, bytes.as_slice()))
}

/// The same, where these bytes are put before.
fn put_goes_with<F: FarStore>(
    alloc: Global,
    objects: &mut ObjectStore<F>,
    byte: u8,
    length: usize,
) -> Result<([Moved; 4], bool), Fail> {
    let bytes = vec![in alloc; byte; length]?;
    objects.put(1, 0, bytes.as_slice())?;
    Ok(goes(objects, bytes.as_slice()))
}

/// The trips of an object of so many bytes, and whether it kept its bytes on each: one after it was put whole, one more, and
/// one after it was put again.
fn trips<F: FarStore>(
    alloc: Global,
    objects: &mut ObjectStore<F>,
    length: usize,
) -> Result<([[Moved; 4]; 3], [bool; 3]), Fail> {
    let (first, first_kept) = put_goes_with(alloc, objects, 0x5A, length)?;
    let (second, second_kept) = goes_with(alloc, objects, 0x5A, length)?;
    let (third, third_kept) = put_goes_with(alloc, objects, 0xA5, length)?;
    Ok((
        [first, second, third],
        [first_kept, second_kept, third_kept],
    ))
}

/// An object of so many bytes is put whole, goes and comes, goes and comes unchanged, is put again, goes and comes, and
/// is freed.
fn lived(alloc: Global, length: u32) -> Result<Life, Fail>
    requires { (1 ≤ length) × (length ≤ 65536) }
{
    let asked = Rc::new(alloc, Asked::new())?;
    let mut objects = counting_objects(alloc, &asked)?;
    objects.make(length)?;
    let (trips, kept) = trips(alloc, &mut objects, length as usize)?;
    let freed = objects.free(1);
    Ok(Life {
        trips,
        kept,
        freed,
        calls: asked.calls(),
        counts: asked.counts(),
    })
}

/// The bytes are sent twice and fetched three times: the second time the parcel stands for them. It is forgotten before
/// others are sent, and when the object is freed.
fn expected_life(length: usize) -> Life {
    let (put, get, forget) = (
        Some(Call::Put(length)),
        Some(Call::Get(length)),
        Some(Call::Forget),
    );
    let none = None;
    Life {
        trips: [[DONE; 4]; 3],
        kept: [true; 3],
        freed: Moved::Done,
        calls: [
            put, get, get, forget, put, get, forget, none, none, none, none, none,
        ],
        counts: (2, 3, 2),
    }
}

#[test]
fn short_objects_go_and_come(rt: HostRuntime) -> Result<(), Fail> {
    for length in 1u32..300 {
        let life = lived(rt.alloc(), length)?;
        same!(rt; life, expected_life(length as usize), length);
    }
    Ok(())
}

#[test]
fn objects_of_all_lengths_go_and_come(rt: HostRuntime) -> Result<(), Fail> {
    for step in 0u32..258 {
        let length = 1 + step * 255;
        let life = lived(rt.alloc(), length)?;
        same!(rt; life, expected_life(length as usize), length);
    }
    Ok(())
}

#[test]
fn the_longest_objects_go_and_come(rt: HostRuntime) -> Result<(), Fail> {
    for less in 0u32..17 {
        let length = OBJECT_BYTES as u32 - less;
        let life = lived(rt.alloc(), length)?;
        same!(rt; life, expected_life(length as usize), length);
    }
    Ok(())
}

// ---- a store that fails once

/// What came of two trips with a put between them, and of a last return.
#[derive(Clone, Copy, Drop, Debug, PartialEq, Eq)]
struct Faulted {
    first: [Moved; 4],
    put: Result<(), Denied>,
    second: [Moved; 4],
    last: [Moved; 2],
    begins: [bool; 2],
    faults: u64,
}

/// How many faults the far store of these objects counted.
fn faults_of<F: FarStore + Drop>(objects: ObjectStore<F>) -> Result<u64, PartsError> {
    Ok(objects.into_parts()?.store.faults())
}

/// The two trips of an object, without the count of faults.
fn tripped<F: FarStore>(objects: &mut ObjectStore<F>) -> Result<Faulted, Fail> {
    objects.make(8)?;
    objects.put(1, 0, &[1])?;
    let first = go(objects, 1);
    let put = objects.put(1, 0, &[2]);
    let second = go(objects, 1);
    let returning = objects.return_(1);
    let last = [returning, objects.returned(1)];
    let begins = [
        begins_with(objects, 1, &[1, 0]),
        begins_with(objects, 1, &[2, 0]),
    ];
    Ok(Faulted {
        first,
        put,
        second,
        last,
        begins,
        faults: 0,
    })
}

/// The two trips over a store that refuses its call `k`.
fn two_trips(alloc: Global, k: u64) -> Result<Faulted, Fail> {
    let mut objects = failing_objects(alloc, AMPLE, k)?;
    let found = tripped(&mut objects)?;
    let faults = faults_of(objects)?;
    Ok(Faulted { faults, ..found })
}

const REFUSED: Moved = Moved::Fault(StoreFault::Refused);

const HERE: Moved = Moved::Misplaced(Place::Here);

const FAR: Moved = Moved::Misplaced(Place::Far);

/// All of it done.
const CALM: Faulted = Faulted {
    first: [DONE; 4],
    put: Ok(()),
    second: [DONE; 4],
    last: [HERE; 2],
    begins: [false, true],
    faults: 0,
};

#[test]
fn no_call_fails(rt: HostRuntime) -> Result<(), Fail> {
    for k in [0, 5] {
        same!(rt; two_trips(rt.alloc(), k)?, CALM, k);
    }
    Ok(())
}

#[test]
fn the_first_put_fails(rt: HostRuntime) -> Result<(), Fail> {
    let expected = Faulted {
        first: [DONE, REFUSED, HERE, HERE],
        faults: 1,
        ..CALM
    };
    same!(rt; two_trips(rt.alloc(), 1)?, expected);
    Ok(())
}

#[test]
fn the_first_get_fails(rt: HostRuntime) -> Result<(), Fail> {
    let expected = Faulted {
        first: [DONE, DONE, DONE, REFUSED],
        put: Err(Denied::Away),
        second: [FAR, FAR, DONE, DONE],
        begins: [true, false],
        faults: 1,
        ..CALM
    };
    same!(rt; two_trips(rt.alloc(), 2)?, expected);
    Ok(())
}

#[test]
fn the_second_put_fails(rt: HostRuntime) -> Result<(), Fail> {
    let expected = Faulted {
        second: [DONE, REFUSED, HERE, HERE],
        faults: 1,
        ..CALM
    };
    same!(rt; two_trips(rt.alloc(), 3)?, expected);
    Ok(())
}

#[test]
fn the_second_get_fails(rt: HostRuntime) -> Result<(), Fail> {
    let expected = Faulted {
        second: [DONE, DONE, DONE, REFUSED],
        last: [DONE, DONE],
        faults: 1,
        ..CALM
    };
    same!(rt; two_trips(rt.alloc(), 4)?, expected);
    Ok(())
}

// ---- room for a single parcel

/// Two objects of eight bytes, the first with a 1 and the second with a 2 in front.
const TWO: &[(Act, Answer)] = &[
    (Act::Make(8), Answer::Made(1)),
    (Act::Make(8), Answer::Made(2)),
    (Act::Put(1, 0, &[1]), PUT),
    (Act::Put(2, 0, &[2]), PUT),
];

/// A move that was done, and an object that was freed.
const GOES: Answer = Answer::Moved(DONE);

const PUT: Answer = Answer::Put(Ok(()));

const REFUSES: Answer = Answer::Moved(REFUSED);

const STAYS: Answer = Answer::Moved(HERE);

/// How many faults the far store counted after acts that are answered so, and more of them.
fn faults_after<F: FarStore + Drop>(
    rt: &impl Abort,
    objects: ObjectStore<F>,
    table: &[(Act, Answer)],
    rest: &[(Act, Answer)],
) -> Result<u64, PartsError> {
    let mut objects = objects;
    tells(rt, &mut objects, table);
    tells(rt, &mut objects, rest);
    faults_of(objects)
}

/// The same of two objects over a store with room for a single parcel.
fn single(rt: &impl Abort, alloc: Global, rest: &[(Act, Answer)]) -> Result<u64, Fail> {
    let objects = ObjectStore::new(alloc, AMPLE, Unwilling::single(alloc))?;
    Ok(faults_after(rt, objects, TWO, rest)?)
}

const SECOND_REFUSED: &[(Act, Answer)] = &[
    (Act::Leave(1), GOES),
    (Act::Left(1), GOES),
    (Act::Return(1), GOES),
    (Act::Home(1), GOES),
    (Act::Leave(2), GOES),
    (Act::Left(2), REFUSES),
    (Act::Return(2), STAYS),
    (Act::Home(2), STAYS),
    (Act::Get(1, 0, 2), Answer::Got(2, [1, 0, 0, 0, 0, 0, 0, 0])),
    (Act::Get(2, 0, 2), Answer::Got(2, [2, 0, 0, 0, 0, 0, 0, 0])),
];

#[test]
fn a_second_parcel_is_refused(rt: HostRuntime) -> Result<(), Fail> {
    same!(rt; single(&rt, rt.alloc(), SECOND_REFUSED)?, 1);
    Ok(())
}

const SENT_ANEW: &[(Act, Answer)] = &[
    (Act::Leave(1), GOES),
    (Act::Left(1), GOES),
    (Act::Return(1), GOES),
    (Act::Home(1), GOES),
    (Act::Put(1, 0, &[3]), PUT),
    (Act::Leave(1), GOES),
    (Act::Left(1), GOES),
    (Act::Return(1), GOES),
    (Act::Home(1), GOES),
    (Act::Get(1, 0, 2), Answer::Got(2, [3, 0, 0, 0, 0, 0, 0, 0])),
];

#[test]
fn the_old_parcel_makes_room_for_the_new(rt: HostRuntime) -> Result<(), Fail> {
    same!(rt; single(&rt, rt.alloc(), SENT_ANEW)?, 0);
    Ok(())
}

const FREED: &[(Act, Answer)] = &[
    (Act::Leave(1), GOES),
    (Act::Left(1), GOES),
    (Act::Return(1), GOES),
    (Act::Home(1), GOES),
    (Act::Free(1), GOES),
    (Act::Leave(2), GOES),
    (Act::Left(2), GOES),
    (Act::Return(2), GOES),
    (Act::Home(2), GOES),
    (Act::Get(2, 0, 2), Answer::Got(2, [2, 0, 0, 0, 0, 0, 0, 0])),
];

#[test]
fn a_freed_object_makes_room(rt: HostRuntime) -> Result<(), Fail> {
    same!(rt; single(&rt, rt.alloc(), FREED)?, 0);
    Ok(())
}

// ---- a store that can't forget

const MADE_TWO: &[(Act, Answer)] = &[
    (Act::Make(8), Answer::Made(1)),
    (Act::Make(8), Answer::Made(2)),
];

const FORGOTTEN: &[(Act, Answer)] = &[
    (Act::Leave(1), GOES),
    (Act::Left(1), GOES),
    (Act::Return(1), GOES),
    (Act::Home(1), GOES),
    (Act::Put(1, 0, &[5]), PUT),
    (Act::Leave(1), GOES),
    (Act::Left(1), GOES),
    (Act::Return(1), GOES),
    (Act::Home(1), GOES),
    (Act::Get(1, 0, 2), Answer::Got(2, [5, 0, 0, 0, 0, 0, 0, 0])),
    (Act::Free(1), GOES),
    (Act::Leave(2), GOES),
    (Act::Left(2), GOES),
    (Act::Return(2), GOES),
    (Act::Home(2), GOES),
];

#[test]
fn a_fault_of_forget_is_counted_and_not_told(rt: HostRuntime) -> Result<(), Fail> {
    let objects = ObjectStore::new(rt.alloc(), AMPLE, Unwilling::grudging(rt.alloc()))?;
    same!(rt; faults_after(&rt, objects, MADE_TWO, FORGOTTEN)?, 3);
    Ok(())
}
