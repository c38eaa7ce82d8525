//! Machines that are granted some of the objects.
ghost use Rattle.std.specs.Prelude.{◌≤◌};

use crate::acts::{Act, Answer, MISALIGNED, OUTSIDE, RAN, Show, tells};
use crate::common::{EXIT, OBJECT, STACK};
use isa_table::Size;
use loader::load;
use machine::{GRANT_LIMIT, Grant, Grants, Machine, Stepped, Stop, Written};
use object_store::Moved;
use std::alloc::Global;
use std::test::Fail;

/// What a machine may reach.
#[derive(Clone, Copy, Drop, Debug)]
pub enum May {
    All,
    Nothing,
    /// Object 1 alone, for loads.
    ReadFirst,
    /// Object 1 alone, for stores too.
    WriteFirst,
    /// Object 2 alone, for loads.
    ReadSecond,
    /// Object 2 alone, for stores too.
    WriteSecond,
    /// Objects 1 to 16, each other one for writing too.
    Sixteen,
}

/// The object of this number alone.
fn one(number: u32, writes: bool) -> Grants
    requires { (1 ≤ number) × (number ≤ 1024) }
{
    let mut grants = Grants::none();
    grants.add(Grant { number, writes });
    grants
}

/// Objects 1 to 16, each other one for writing too.
fn sixteen() -> Grants {
    let mut grants = Grants::none();
    for count in 0..GRANT_LIMIT {
        grants.add(Grant {
            number: count as u32 + 1,
            writes: count % 2 == 0,
        });
    }
    grants
}

/// The grants by which a machine may reach so much.
fn grants_of(may: May) -> Grants {
    match may {
        May::All => Grants::all(),
        May::Nothing => Grants::none(),
        May::ReadFirst => one(1, false),
        May::WriteFirst => one(1, true),
        May::ReadSecond => one(2, false),
        May::WriteSecond => one(2, true),
        May::Sixteen => sixteen(),
    }
}

/// A machine with R1 and R2 as given: the slot, and EXIT.
pub fn granted(alloc: Global, may: May, first: [u64; 2], slot: u64) -> Result<Machine, Fail> {
    let mut bytes = Vec::new(alloc);
    bytes.extend_from_slice(&slot.to_be_bytes())?;
    bytes.extend_from_slice(&EXIT.to_be_bytes())?;
    let program = load(alloc, bytes.as_slice())?;
    let [r1, r2] = first;
    Ok(Machine::granted(program, 1, 10, [r1, r2, 0, 0, 0], grants_of(may)))
}

/// ldxb r0, [r1]
const LOAD: u64 = 0x7110_0000_0000_0000;

/// stb [r1], 1
const STORE: u64 = 0x7201_0000_0100_0000;

/// acmpxchg [r1], r2
const EXCHANGE: u64 = 0xdb21_0000_f100_0000;

/// call 1
const LENGTH: u64 = 0x8500_0000_0100_0000;

const NOT_GRANTED: Answer = Answer::Stepped(Stepped::Stopped(Stop::NotGranted));

/// What a store of a byte to object 1 answers.
const STORED: Answer = Answer::Stepped(Stepped::Ran(Some(Written {
    number: 1,
    offset: 0,
    size: Size::Byte,
})));

const NEEDS: &[(Act, Answer)] = &[
    (Act::Object([5, 0, 0, 0, 0, 0, 0, 0]), Answer::Done),
    (Act::First(May::Nothing, [OBJECT, 7], LOAD), NOT_GRANTED),
    (Act::First(May::WriteSecond, [OBJECT, 7], LOAD), NOT_GRANTED),
    (Act::First(May::All, [OBJECT, 7], LOAD), RAN),
    (Act::First(May::WriteFirst, [OBJECT, 7], LOAD), RAN),
    (Act::First(May::Nothing, [OBJECT, 7], STORE), NOT_GRANTED),
    (
        Act::First(May::WriteSecond, [OBJECT, 7], STORE),
        NOT_GRANTED,
    ),
    (Act::First(May::All, [OBJECT, 7], STORE), STORED),
    (Act::First(May::WriteFirst, [OBJECT, 7], STORE), STORED),
    // R0 is 0 and the object isn't, so that the exchanges fail.
    (Act::First(May::Nothing, [OBJECT, 7], EXCHANGE), NOT_GRANTED),
    (
        Act::First(May::WriteSecond, [OBJECT, 7], EXCHANGE),
        NOT_GRANTED,
    ),
    (Act::First(May::All, [OBJECT, 7], EXCHANGE), RAN),
    (Act::First(May::WriteFirst, [OBJECT, 7], EXCHANGE), RAN),
    (Act::First(May::ReadFirst, [OBJECT, 7], LOAD), RAN),
    (Act::First(May::ReadFirst, [OBJECT, 7], STORE), NOT_GRANTED),
    (
        Act::First(May::ReadFirst, [OBJECT, 7], EXCHANGE),
        NOT_GRANTED,
    ),
];

#[test]
fn loads_need_a_grant_and_all_else_one_to_write(rt: HostRuntime) -> Result<(), Fail> {
    tells(&rt, rt.alloc(), NEEDS)
}

const ORDER: &[(Act, Answer)] = &[
    (Act::Object([0; 8]), Answer::Done),
    (
        Act::First(May::Nothing, [OBJECT + 4, 7], EXCHANGE),
        MISALIGNED,
    ),
    (Act::First(May::Nothing, [OBJECT + 8, 7], LOAD), NOT_GRANTED),
    (Act::Leave(1), Answer::Moved(Moved::Done)),
    (Act::First(May::Nothing, [OBJECT, 7], LOAD), NOT_GRANTED),
    (
        Act::First(May::ReadFirst, [OBJECT, 7], LOAD),
        Answer::Stepped(Stepped::Waiting(1)),
    ),
];

#[test]
fn the_grant_comes_after_alignment_and_before_the_object(rt: HostRuntime) -> Result<(), Fail> {
    tells(&rt, rt.alloc(), ORDER)
}

const NO_OBJECTS: &[(Act, Answer)] = &[
    // 1, 2 and 1024
    (Act::First(May::Nothing, [OBJECT, 7], LOAD), NOT_GRANTED),
    (
        Act::First(May::Nothing, [0x0000_0002_0000_0000, 7], LOAD),
        NOT_GRANTED,
    ),
    (
        Act::First(May::Nothing, [0x0000_0400_0000_0000, 7], LOAD),
        NOT_GRANTED,
    ),
    // 0, 1025 and 0xfffffffe
    (Act::First(May::Nothing, [0, 7], LOAD), OUTSIDE),
    (
        Act::First(May::Nothing, [0x0000_0401_0000_0000, 7], LOAD),
        OUTSIDE,
    ),
    (
        Act::First(May::Nothing, [0xffff_fffe_0000_0000, 7], LOAD),
        OUTSIDE,
    ),
    (Act::First(May::Nothing, [STACK, 7], LOAD), RAN),
];

#[test]
fn numbers_of_no_object_need_no_grant(rt: HostRuntime) -> Result<(), Fail> {
    tells(&rt, rt.alloc(), NO_OBJECTS)
}

const LENGTHS: &[(Act, Answer)] = &[
    (Act::Object([0; 8]), Answer::Done),
    (Act::First(May::Nothing, [1, 7], LENGTH), RAN),
    (Act::Show(Show::Register(0)), Answer::Register(0)),
    (Act::First(May::WriteSecond, [1, 7], LENGTH), RAN),
    (Act::Show(Show::Register(0)), Answer::Register(0)),
    (Act::First(May::ReadFirst, [1, 7], LENGTH), RAN),
    (Act::Show(Show::Register(0)), Answer::Register(8)),
    (Act::First(May::WriteFirst, [1, 7], LENGTH), RAN),
    (Act::Show(Show::Register(0)), Answer::Register(8)),
    (Act::First(May::All, [1, 7], LENGTH), RAN),
    (Act::Show(Show::Register(0)), Answer::Register(8)),
];

#[test]
fn helper_1_tells_the_length_of_what_is_granted(rt: HostRuntime) -> Result<(), Fail> {
    tells(&rt, rt.alloc(), LENGTHS)
}

const SIXTEEN: &[(Act, Answer)] = &[
    (Act::MakeAll(17), Answer::Made(17)),
    (Act::First(May::Sixteen, [OBJECT, 7], LOAD), RAN),
    (Act::First(May::Sixteen, [16 * OBJECT, 7], LOAD), RAN),
    (
        Act::First(May::Sixteen, [17 * OBJECT, 7], LOAD),
        NOT_GRANTED,
    ),
];

#[test]
fn sixteen_objects_are_granted_one_by_one(rt: HostRuntime) -> Result<(), Fail> {
    tells(&rt, rt.alloc(), SIXTEEN)
}
