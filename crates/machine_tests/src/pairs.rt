//! Pairs of instructions that `run` does by one dispatch, compared with single steps.

use crate::common::{EXIT, machine_of, objects, runs};
use crate::compared::same;
use machine::{Ended, Machine, Stop};
use object_store::StoreMemory;
use std::alloc::Global;
use std::test::Fail;

/// What is seen of a machine: its slot, fuel, stop and registers.
type Seen = (usize, u64, Option<Stop>, [u64; 11]);

fn seen(machine: &Machine) -> Seen {
    (
        machine.slot(),
        machine.fuel(),
        machine.stop(),
        *machine.registers(),
    )
}

/// The machine after so many single steps.
fn stepped(alloc: Global, code: &[u64], fuel: u64, most: u64) -> Result<Seen, Fail> {
    let mut machine = machine_of(alloc, fuel, [5, 7, 9, 2, 1], code)?;
    let mut store = objects(alloc)?;
    let _ = runs(&mut machine, &mut store, most);
    Ok(seen(&machine))
}

/// The machine after so many steps by one call.
fn ran(alloc: Global, code: &[u64], fuel: u64, most: u64) -> Result<Seen, Fail> {
    let mut machine = machine_of(alloc, fuel, [5, 7, 9, 2, 1], code)?;
    let mut store = objects(alloc)?;
    let mut memory = StoreMemory {
        store: &mut store,
        who: 1,
    };
    let _ = machine.run(most, &mut memory);
    Ok(seen(&machine))
}

/// The machine after so many single steps at most, none of which begins at this slot.
fn stepped_to(alloc: Global, code: &[u64], fuel: u64, most: u64, end: usize) -> Result<Seen, Fail> {
    let mut machine = machine_of(alloc, fuel, [5, 7, 9, 2, 1], code)?;
    let mut store = objects(alloc)?;
    for _ in 0..most {
        if machine.stop().is_none() && machine.slot() == end {
            break;
        }
        let _ = runs(&mut machine, &mut store, 1);
    }
    Ok(seen(&machine))
}

/// The machine after so many steps at most by one call that ends at this slot, and at one that the code doesn't have.
fn ran_to(alloc: Global, code: &[u64], fuel: u64, most: u64, end: usize) -> Result<Seen, Fail> {
    let mut machine = machine_of(alloc, fuel, [5, 7, 9, 2, 1], code)?;
    let mut store = objects(alloc)?;
    let mut memory = StoreMemory {
        store: &mut store,
        who: 1,
    };
    let _ = machine.run_to(most, &[99, end], &mut memory);
    Ok(seen(&machine))
}

/// Each pair, and then EXIT.
const PAIRS: &[&[u64]] = &[
    // r0 = r1; r0 += r2
    &[0xbf10_0000_0000_0000, 0x0f20_0000_0000_0000, EXIT],
    // r0 = r1; r0 <<= 3
    &[0xbf10_0000_0000_0000, 0x6700_0000_0300_0000, EXIT],
    // r0 = r1; r0 >>= 1
    &[0xbf10_0000_0000_0000, 0x7700_0000_0100_0000, EXIT],
    // r0 = r1; r3 = r2
    &[0xbf10_0000_0000_0000, 0xbf23_0000_0000_0000, EXIT],
    // r0 = r1; w3 = w0
    &[0xbf10_0000_0000_0000, 0xbc03_0000_0000_0000, EXIT],
    // r1 <<= 60; r0 = r1
    &[0x6701_0000_3c00_0000, 0xbf10_0000_0000_0000, EXIT],
    // r1 -= r2; r0 = r1
    &[0x1f21_0000_0000_0000, 0xbf10_0000_0000_0000, EXIT],
    // r1 *= r2; r0 = r1
    &[0x2f21_0000_0000_0000, 0xbf10_0000_0000_0000, EXIT],
    // r1 *= r2; r1 >>= 1
    &[0x2f21_0000_0000_0000, 0x7701_0000_0100_0000, EXIT],
    // w0 = w1; w0 >>= 1
    &[0xbc10_0000_0000_0000, 0x7400_0000_0100_0000, EXIT],
    // w1 *= -3; w1 += 9
    &[0x2401_0000_fdff_ffff, 0x0401_0000_0900_0000, EXIT],
    // r1 += -1; if r1 != 0 goto -2
    &[0x0701_0000_ffff_ffff, 0x5501_feff_0000_0000, EXIT],
    // r1 += r4; if r1 < 12 goto -2
    &[0x0f41_0000_0000_0000, 0xa501_feff_0c00_0000, EXIT],
    // a jump to the second of a pair: goto 1; r0 = r1; r0 += r2
    &[
        0x0500_0100_0000_0000,
        0xbf10_0000_0000_0000,
        0x0f20_0000_0000_0000,
        EXIT,
    ],
    // two pairs that overlap: r0 = r1; r0 += r2; if r0 < 100 goto -3
    &[
        0xbf01_0000_0000_0000,
        0x0f20_0000_0000_0000,
        0xa500_fdff_6400_0000,
        EXIT,
    ],
];

/// How many of the pairs differ where so much may be done.
fn differ(alloc: Global, fuel: u64, most: u64) -> Result<u64, Fail> {
    let mut count = 0u64;
    for &code in PAIRS {
        if stepped(alloc, code, fuel, most)? != ran(alloc, code, fuel, most)? {
            count = count.saturating_add(1);
        }
    }
    Ok(count)
}

/// How many of the pairs differ where a run ends at this slot.
fn differ_to(alloc: Global, fuel: u64, most: u64, end: usize) -> Result<u64, Fail> {
    let mut count = 0u64;
    for &code in PAIRS {
        if stepped_to(alloc, code, fuel, most, end)? != ran_to(alloc, code, fuel, most, end)? {
            count = count.saturating_add(1);
        }
    }
    Ok(count)
}

#[test]
fn a_pair_is_two_steps(rt: HostRuntime) -> Result<(), Fail> {
    for most in 0..8 {
        same!(rt; differ(rt.alloc(), 100, most)?, 0);
    }
    Ok(())
}

#[test]
fn fuel_may_end_within_a_pair(rt: HostRuntime) -> Result<(), Fail> {
    for fuel in 0..8 {
        same!(rt; differ(rt.alloc(), fuel, 100)?, 0);
    }
    Ok(())
}

#[test]
fn a_run_ends_at_each_slot(rt: HostRuntime) -> Result<(), Fail> {
    for end in 0..5 {
        for most in 0..6 {
            same!(rt; differ_to(rt.alloc(), 100, most, end)?, 0);
        }
    }
    Ok(())
}

#[test]
fn fuel_may_end_where_a_run_ends(rt: HostRuntime) -> Result<(), Fail> {
    for end in 0..5 {
        for fuel in 0..6 {
            same!(rt; differ_to(rt.alloc(), fuel, 100, end)?, 0);
        }
    }
    Ok(())
}

#[test]
fn a_run_of_one_does_the_first_of_a_pair(rt: HostRuntime) -> Result<(), Fail> {
    let code = &[0xbf10_0000_0000_0000, 0x0f20_0000_0000_0000, EXIT];
    let mut machine = machine_of(rt.alloc(), 10, [5, 7, 0, 0, 0], code)?;
    let mut store = objects(rt.alloc())?;
    let mut memory = StoreMemory {
        store: &mut store,
        who: 1,
    };
    same!(rt; machine.run(1, &mut memory), Ended::AllRan);
    same!(rt; (machine.slot(), machine.fuel(), machine.registers()[0]), (1, 9, 5));
    same!(rt; machine.run(1, &mut memory), Ended::AllRan);
    same!(rt; (machine.slot(), machine.fuel(), machine.registers()[0]), (2, 8, 12));
    Ok(())
}
