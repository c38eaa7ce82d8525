//! What the debugger keeps of each machine stays as it is when a service opens, and when it closes. No clause says so.
ghost use Rattle.ship_service.specs.Opening.{IsNamed};

use crate::compared::same;
use crate::opening::{Script, carry, one_said, world_after};
use crate::stage::Lines;
use debugger::Debugger;
use far_store::{FarStore, OwnStore};
use ship_service::{Agent, Closed, Opened};
use std::alloc::{AllocError, Global};
use std::marker::Brand;
use std::process::Abort;
use std::sync::Wait;
use std::test::Fail;
use workers::{Moved, TableName};

/// mov r0, 1 · mov r0, 2 · exit: machine 1 is paused at the first of two breakpoints, and machine 2 was resumed at one.
const DEBUGGED: Lines<'static> = (
    b"ship 10 0 0 0 0 0 b700000001000000b7000000020000009500000000000000\n\
        break 1 1\n\
        break 1 2\n\
        watch 1 0x100000000 8\n\
        step 1\n\
        step 1\n\
        ship 10 0 0 0 0 0 b700000001000000b7000000020000009500000000000000\n\
        break 2 0\n\
        step 2\n\
        resume 2\n",
    b"shipped 1\nok\nok\nok\nran 1 1\npaused 1 1\nshipped 2\nok\npaused 2 0\nok\n",
);

const ASKED: &Script = &Script {
    world: DEBUGGED,
    turns: 0,
    connections: &[(
        b"regs 1\nstep 1\nunbreak 1 1\nunbreak 1 2\nunwatch 1 0x100000000 8\nresume 1\nstep 1\nstep 2\nunbreak 2 0\n",
        b"regs 1 1 9 paused 0000000000000001 0000000000000000 0000000000000000 0000000000000000 0000000000000000 \
            0000000000000000 0000000000000000 0000000000000000 0000000000000000 0000000000000000 ffffffff00001000\n\
            paused 1 1\n\
            ok\n\
            ok\n\
            ok\n\
            ok\n\
            ran 1 2\n\
            ran 2 1\n\
            ok\n",
    )],
};

#[test]
fn debug_states_stay_when_a_service_opens(rt: HostRuntime) -> Result<(), Fail> {
    same!(rt; carry(&rt, rt.alloc(), ASKED)?, one_said(0, Moved::NoObject));
    Ok(())
}

/// What the debugger keeps of a machine.
#[derive(Clone, Copy, Drop, Debug, PartialEq, Eq)]
struct Kept {
    paused: bool,
    /// Whether the machine passes the breakpoint where it is.
    passes: bool,
    /// The first two breakpoints.
    breakpoints: [Option<usize>; 2],
    /// How many ranges are watched.
    watches: usize,
}

/// What is kept by it.
fn kept_by(debugger: &Debugger) -> Kept {
    let slots = debugger.breakpoints();
    Kept {
        paused: debugger.is_paused(),
        passes: debugger.passes(),
        breakpoints: [slots.first().copied(), slots.get(1).copied()],
        watches: debugger.watches().len(),
    }
}

/// What is kept of the machine of a cell, where so many cells go before.
fn kept_in<F: FarStore>(closed: &Closed<F>, before: usize) -> Option<Kept> {
    let running = closed.cells().get(before)?.running.as_ref()?;
    Some(kept_by(&running.debuggee().debugger))
}

/// What a service leaves that opens and closes, and in which nobody says anything.
fn closed_unused<F: FarStore + Drop, K: TableName, R: Wait>(
    rt: &R,
    alloc: Global,
    opened: Opened<F>,
) -> Result<Closed<F>, Fail>
    requires { IsNamed K.table K.opening K.starts K.seats K.passed opened.shared.table opened.machines.items }
{
    let Ok((agent, connections, served)) = Agent::<F, K>::open(rt, alloc, opened) else {
        return Err(Fail::from(AllocError));
    };
    Ok(agent.close(alloc, connections, served)?)
}

/// What such a service leaves of the debug states of machines 1 and 2.
fn left_unused<F: FarStore + Drop, K: TableName, R: Wait>(
    rt: &R,
    alloc: Global,
    opened: Opened<F>,
) -> Result<[Option<Kept>; 2], Fail>
    requires { IsNamed K.table K.opening K.starts K.seats K.passed opened.shared.table opened.machines.items }
{
    let closed = closed_unused::<F, K, R>(rt, alloc, opened)?;
    Ok([kept_in(&closed, 0), kept_in(&closed, 1)])
}

/// The same, of a service that begins with the world that was told this.
fn kept_after<R: Wait + Abort>(
    rt: &R,
    alloc: Global,
    lines: Lines,
) -> Result<[Option<Kept>; 2], Fail> {
    let Ok(opened) = Opened::new(alloc, world_after(rt, alloc, lines)?) else {
        return Err(Fail::from(AllocError));
    };
    left_unused::<OwnStore, Brand, R>(rt, alloc, opened)
}

#[test]
fn debug_states_stay_when_a_service_closes(rt: HostRuntime) -> Result<(), Fail> {
    let first = Kept {
        paused: true,
        passes: false,
        breakpoints: [Some(1), Some(2)],
        watches: 1,
    };
    let second = Kept {
        paused: false,
        passes: true,
        breakpoints: [Some(0), None],
        watches: 0,
    };
    same!(rt; kept_after(&rt, rt.alloc(), DEBUGGED)?, [Some(first), Some(second)]);
    Ok(())
}
