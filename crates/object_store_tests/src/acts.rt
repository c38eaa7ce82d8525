//! What is done with objects and what is answered, as plain values.

use crate::compared::compare_row;
use far_store::FarStore;
use isa_table::{AtomicOp, Size, Width};
use memory::{Action, OBJECT_BYTES, Op, Reach};
use object_store::{Denied, GetError, MakeError, Moved, ObjectStore, Place};
use scopes::MACHINE_LIMIT;
use std::process::Abort;

/// What is done with objects.
#[derive(Clone, Copy, Drop, Debug)]
pub enum Act {
    /// An object of so many bytes is made.
    Make(u32),
    /// An object is freed.
    Free(u32),
    /// It is asked how many bytes an object has.
    Length(u64),
    /// It is asked where an object is.
    Place(u32),
    /// It is asked for so many bytes of an object, the last number, from an offset on.
    Get(u32, u32, u32),
    /// Bytes are put into an object, from an offset on.
    Put(u32, u32, &'static [u8]),
    /// A machine, the first number, reaches an object.
    Touch(usize, u32, Op),
    /// The scopes of a machine are closed.
    Close(usize),
    /// An object begins to leave.
    Leave(u32),
    /// An object is put in the far store.
    Left(u32),
    /// An object begins to return.
    Return(u32),
    /// An object is got from the far store.
    Home(u32),
}

/// What is answered.
#[derive(Clone, Copy, Drop, Debug, PartialEq, Eq)]
pub enum Answer {
    Made(u32),
    NotMade(MakeError),
    Moved(Moved),
    Length(usize),
    Place(Option<Place>),
    /// So many bytes, and the first eight of them, with zeros behind.
    Got(usize, [u8; 8]),
    NotGot(GetError),
    Put(Result<(), Denied>),
    Reached(Reach),
    Closed,
    /// There is no object of such a length, or no machine of such a number, so that nothing was asked.
    Unasked,
}

/// A move that was done, and an object that was freed.
pub const DONE: Answer = Answer::Moved(Moved::Done);

/// There is no object of this number.
pub const NO_OBJECT: Answer = Answer::Moved(Moved::NoObject);

/// A load of the first byte.
pub const LOAD: Op = Op {
    offset: 0,
    action: Action::Load { size: Size::Byte },
};

/// A load of the first eight bytes.
pub const LOAD_DOUBLE: Op = Op {
    offset: 0,
    action: Action::Load { size: Size::Double },
};

/// One is added to the first eight bytes.
pub const ADD_ONE: Op = Op {
    offset: 0,
    action: Action::Atomic {
        width: Width::W64,
        op: AtomicOp::Add,
        src: 1,
        r0: 0,
    },
};

/// An exchange, which fails where the first eight bytes aren't 1.
pub const EXCHANGE: Op = Op {
    offset: 0,
    action: Action::Atomic {
        width: Width::W64,
        op: AtomicOp::CompareExchange,
        src: 7,
        r0: 1,
    },
};

/// How many bytes these are, and the first eight of them.
pub fn shown(bytes: &[u8]) -> Answer {
    let mut first = [0; 8];
    for index in 0..8 {
        if let Some(&byte) = bytes.get(index) {
            first[index] = byte;
        }
    }
    Answer::Got(bytes.len(), first)
}

/// The answer to one act.
pub fn done<F: FarStore>(objects: &mut ObjectStore<F>, act: Act) -> Answer {
    match act {
        Act::Make(length) => {
            if length == 0 || length > OBJECT_BYTES as u32 {
                return Answer::Unasked;
            }
            match objects.make(length) {
                Ok(number) => Answer::Made(number),
                Err(error) => Answer::NotMade(error),
            }
        }
        Act::Free(number) => Answer::Moved(objects.free(number)),
        Act::Length(number) => Answer::Length(objects.length(number)),
        Act::Place(number) => Answer::Place(objects.place(number)),
        Act::Get(number, offset, length) => match objects.get(number, offset, length) {
            Ok(bytes) => shown(bytes.as_slice()),
            Err(error) => Answer::NotGot(error),
        },
        Act::Put(number, offset, bytes) => Answer::Put(objects.put(number, offset, bytes)),
        Act::Touch(who, number, op) => {
            if who > MACHINE_LIMIT {
                return Answer::Unasked;
            }
            Answer::Reached(objects.touch(who, number, &op))
        }
        Act::Close(who) => {
            if who > MACHINE_LIMIT {
                return Answer::Unasked;
            }
            objects.close_scopes(who);
            Answer::Closed
        }
        Act::Leave(number) => Answer::Moved(objects.leave(number)),
        Act::Left(number) => Answer::Moved(objects.left(number)),
        Act::Return(number) => Answer::Moved(objects.return_(number)),
        Act::Home(number) => Answer::Moved(objects.returned(number)),
    }
}

/// Each act is answered so.
pub fn tells<F: FarStore>(rt: &impl Abort, objects: &mut ObjectStore<F>, table: &[(Act, Answer)]) {
    for row in 0..table.len() {
        let (act, wanted) = table[row];
        compare_row(rt, "answer", &(row, act), &done(objects, act), &wanted);
    }
}
