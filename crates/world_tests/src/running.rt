//! Many steps of a machine in one call, beside as many that are asked for one by one. The object that the machine reaches is out of
//! the store meanwhile, and nothing shows it.

use crate::common::{EXIT, FIRST, Say, Told, event, new_world, tells};
use crate::compared::compare_row;
use far_store::OwnStore;
use machine::Stop;
use std::alloc::{AllocError, Global};
use std::process::Abort;
use std::test::Fail;
use world::{MachineRun, Move, ShowCommand, StepReply, Way, World};

/// The address of the first byte of object 2.
const SECOND: u64 = 0x2_0000_0000;

/// More than each program takes, but for the longest.
const SHORT: u64 = 170;

/// Adds to the first number of object 1, R3 times.
const ONE_OBJECT: &[u64] = &[
    0x7910_0000_0000_0000, // r0 = *(u64 *)(r1 + 0)
    0x0700_0000_0100_0000, // r0 += 1
    0x7b01_0000_0000_0000, // *(u64 *)(r1 + 0) = r0
    0x1703_0000_0100_0000, // r3 -= 1
    0x5503_fbff_0000_0000, // if r3 != 0 goto -5
    EXIT,
];

/// The same to both objects in turn.
const IN_TURN: &[u64] = &[
    0x7910_0000_0000_0000, // r0 = *(u64 *)(r1 + 0)
    0x0700_0000_0100_0000, // r0 += 1
    0x7b01_0000_0000_0000, // *(u64 *)(r1 + 0) = r0
    0x7120_0800_0000_0000, // r0 = *(u8 *)(r2 + 8)
    0x0700_0000_0300_0000, // r0 += 3
    0x7302_0800_0000_0000, // *(u8 *)(r2 + 8) = r0
    0x1703_0000_0100_0000, // r3 -= 1
    0x5503_f8ff_0000_0000, // if r3 != 0 goto -8
    EXIT,
];

/// Adds to object 1, and then asks for the lengths of both: 64 + 16.
const MEASURES: &[u64] = &[
    0x7910_0000_0000_0000, // r0 = *(u64 *)(r1 + 0)
    0x0700_0000_0100_0000, // r0 += 1
    0x7b01_0000_0000_0000, // *(u64 *)(r1 + 0) = r0
    0x1703_0000_0100_0000, // r3 -= 1
    0x5503_fbff_0000_0000, // if r3 != 0 goto -5
    0xb701_0000_0100_0000, // r1 = 1
    0x8500_0000_0100_0000, // call 1
    0xbf06_0000_0000_0000, // r6 = r0
    0xb701_0000_0200_0000, // r1 = 2
    0x8500_0000_0100_0000, // call 1
    0x0f60_0000_0000_0000, // r0 += r6
    EXIT,
];

/// Adds to object 1, closes all scopes, and adds to object 2.
const CLOSES: &[u64] = &[
    0x7910_0000_0000_0000, // r0 = *(u64 *)(r1 + 0)
    0x0700_0000_0100_0000, // r0 += 1
    0x7b01_0000_0000_0000, // *(u64 *)(r1 + 0) = r0
    0x1703_0000_0100_0000, // r3 -= 1
    0x5503_fbff_0000_0000, // if r3 != 0 goto -5
    0x8500_0000_0400_0000, // call 4
    0x0500_0000_0000_0000, // goto +0
    0xdb02_0000_0000_0000, // lock *(u64 *)(r2 + 0) += r0
    EXIT,
];

/// Adds to object 1, and then leaves its bytes.
const LEAVES_BYTES: &[u64] = &[
    0x7910_0000_0000_0000, // r0 = *(u64 *)(r1 + 0)
    0x0700_0000_0100_0000, // r0 += 1
    0x7b01_0000_0000_0000, // *(u64 *)(r1 + 0) = r0
    0x1703_0000_0100_0000, // r3 -= 1
    0x5503_fbff_0000_0000, // if r3 != 0 goto -5
    0x7910_3900_0000_0000, // r0 = *(u64 *)(r1 + 57)
    EXIT,
];

/// Two objects. The first was far, and nothing was written since.
const BEFORE: &[(Say, Told)] = &[
    (Say::Make(64), Told::Made(1)),
    (Say::Make(16), Told::Made(2)),
    (Say::Put(1, 0, &[1, 2]), Told::Done),
    (Say::Move(1, Move::Leave), Told::Leaving(1)),
    (Say::Move(1, Move::Left), Told::Left(1)),
    (Say::Move(1, Move::Return), Told::Returning(1)),
    (Say::Move(1, Move::Returned), Told::Home(1)),
];

/// What shows the machine, the bytes, the scopes, and which bytes the far store has.
const AFTER: &[Say] = &[
    Say::Show(1, ShowCommand::Regs),
    Say::Get(1, 0, 64),
    Say::Get(2, 0, 16),
    Say::Move(1, Move::Leave),
    Say::Move(1, Move::Left),
    Say::Move(2, Move::Leave),
    Say::Move(2, Move::Left),
    Say::Show(1, ShowCommand::Regs),
];

/// What brings the objects back, if they are far.
const BACK: &[Say] = &[
    Say::Move(1, Move::Return),
    Say::Move(1, Move::Returned),
    Say::Move(2, Move::Return),
    Say::Move(2, Move::Returned),
    Say::Get(1, 0, 64),
    Say::Get(2, 0, 16),
    Say::Free(1),
];

/// A world whose machine 1 has this program, and R3.
fn world_of(
    rt: &impl Abort,
    alloc: Global,
    program: &'static [u64],
    times: u64,
) -> Result<World<OwnStore>, AllocError> {
    let mut world = new_world(alloc)?;
    tells(rt, alloc, &mut world, BEFORE)?;
    let ship = Say::Ship(1_000_000, [FIRST, SECOND, times, 0, 0], program);
    tells(rt, alloc, &mut world, &[(ship, Told::Shipped(1))])?;
    Ok(world)
}

/// At most so many steps of machine 1, one by one.
fn stepped(world: &mut World<OwnStore>, most: u64) -> Option<MachineRun> {
    for ran in 0..most {
        let told = world.step(1, Way::Step)?;
        if !matches!(told, StepReply::Ran(_)) {
            return Some(MachineRun {
                ran,
                end: Some(told),
            });
        }
    }
    Some(MachineRun {
        ran: most,
        end: None,
    })
}

/// Two worlds: in one machines run, in the other they step.
#[derive(Drop)]
struct Both {
    alloc: Global,
    running: World<OwnStore>,
    stepping: World<OwnStore>,
}

impl Both {
    /// Both as `world_of` has them.
    fn new(
        rt: &impl Abort,
        alloc: Global,
        program: &'static [u64],
        times: u64,
    ) -> Result<Self, AllocError> {
        Ok(Both {
            alloc,
            running: world_of(rt, alloc, program, times)?,
            stepping: world_of(rt, alloc, program, times)?,
        })
    }

    /// So many steps come to the same.
    fn go(&mut self, rt: &impl Abort, most: u64) {
        let found = self.running.run_machine(1, most);
        let wanted = stepped(&mut self.stepping, most);
        compare_row(rt, "run", &most, &found, &wanted);
    }

    /// Both answer these commands alike.
    fn answer(&mut self, rt: &impl Abort, says: &[Say]) -> Result<(), AllocError> {
        for &say in says {
            let found = self.running.apply(event(self.alloc, say)?);
            let wanted = self.stepping.apply(event(self.alloc, say)?);
            compare_row(rt, "reply", &event(self.alloc, say)?, &found, &wanted);
        }
        Ok(())
    }
}

/// However many steps a program is given, it comes to the same as by single steps, and so does what is done with its objects after it.
fn runs_as_it_steps(
    rt: &impl Abort,
    alloc: Global,
    program: &'static [u64],
) -> Result<(), AllocError> {
    for most in 0..SHORT {
        let mut both = Both::new(rt, alloc, program, 20)?;
        both.go(rt, most);
        both.answer(rt, AFTER)?;
        both.go(rt, SHORT);
        both.answer(rt, BACK)?;
        both.go(rt, SHORT);
    }
    Ok(())
}

#[test]
fn one_object(rt: HostRuntime) -> Result<(), Fail> {
    runs_as_it_steps(&rt, rt.alloc(), ONE_OBJECT)?;
    Ok(())
}

#[test]
fn two_objects_in_turn(rt: HostRuntime) -> Result<(), Fail> {
    runs_as_it_steps(&rt, rt.alloc(), IN_TURN)?;
    Ok(())
}

#[test]
fn lengths_of_objects(rt: HostRuntime) -> Result<(), Fail> {
    runs_as_it_steps(&rt, rt.alloc(), MEASURES)?;
    let mut world = world_of(&rt, rt.alloc(), MEASURES, 20)?;
    let _ = world.run_machine(1, SHORT);
    tells(
        &rt,
        rt.alloc(),
        &mut world,
        &[(Say::Step(1), Told::Stopped(1, Stop::Exit(80)))],
    )?;
    Ok(())
}

#[test]
fn scopes_that_close(rt: HostRuntime) -> Result<(), Fail> {
    runs_as_it_steps(&rt, rt.alloc(), CLOSES)?;
    Ok(())
}

#[test]
fn the_end_of_an_object(rt: HostRuntime) -> Result<(), Fail> {
    runs_as_it_steps(&rt, rt.alloc(), LEAVES_BYTES)?;
    Ok(())
}

#[test]
fn many_parts(rt: HostRuntime) -> Result<(), Fail> {
    for program in [ONE_OBJECT, IN_TURN] {
        let mut both = Both::new(&rt, rt.alloc(), program, 20_000)?;
        both.go(&rt, 150_000);
        both.answer(&rt, AFTER)?;
        both.answer(&rt, BACK)?;
    }
    Ok(())
}
