//! Turns of one worker, which runs on the thread of the test. Expected values are worked out by hand.
ghost use Rattle.shared_objects.specs.Tables.{IsMoverOf};

use crate::common::{ADD, EXIT, JUMP, LOAD, OBJECT};
use crate::compared::same;
use crate::course::{Code, Course, Left, left_of};
use debugger::{DebugCommand, ShowCommand, ShowReply, State};
use far_store::{FarStore, OwnStore};
use machine::Stop;
use shared_objects::{MoverSeat, SharedTable};
use std::alloc::{AllocError, Global};
use std::sync::Wait;
use std::test::Fail;
use std::thread::Threads;
use test_gates::{Rounds, Turns};
use workers::{Direction, Gate, Pool, TableName, work};

/// Lets a worker have its turns without being told of instructions. If it is told of one all the same, `turns` counts it.
#[derive(Drop)]
struct Untold<'a> {
    rounds: Rounds,
    turns: &'a Turns,
}

impl Gate for Untold<'_> {
    const IS_TOLD: bool = false;

    fn before(&self, worker: usize, machine: usize) {
        self.turns.before(worker, machine);
    }

    fn after(&self, _worker: usize, _machine: usize) {}

    fn go_on(&self) -> bool {
        self.rounds.go_on()
    }
}

/// What is done before the worker has its turns, and after them.
#[derive(Clone, Copy, Drop)]
pub struct Plan {
    turns: u64,
    /// Whether the gate is told of instructions.
    told: bool,
    /// Whether object 1 is on its way.
    away: bool,
    /// How often both machines are queued beforehand, beside that they are queued when the pool is made.
    queued: u32,
    /// How many objects are asked to leave beforehand, each twice: from number 100 on, so that no such object is there.
    requests: u32,
    /// Whether both machines are resumed and queued after it, and the worker has as many turns again.
    resumed: bool,
}

const PLAN: Plan = Plan {
    turns: 3,
    told: true,
    away: false,
    queued: 0,
    requests: 0,
    resumed: false,
};

/// A machine's slot, fuel and state.
pub type Point = (usize, u64, State);

/// What a worker left.
#[derive(Clone, Copy, Drop, Debug, PartialEq, Eq)]
pub struct TurnsLeft {
    /// How often it came to an instruction of machine 1, of machine 2, of machine 3, and of any other.
    came: [u64; 4],
    machines: [Option<Point>; 2],
    /// Whether there is room for one request more.
    room: bool,
}

fn point_of(shown: ShowReply) -> Option<Point> {
    match shown {
        ShowReply::Registers(shown) => Some((shown.slot, shown.fuel, shown.state)),
        _ => None,
    }
}

/// Where a machine is.
pub fn point<F: FarStore, K: TableName, R: Wait>(
    rt: &R,
    alloc: Global,
    pool: &Pool<F, K>,
    number: usize,
) -> Option<Point> {
    let cell = pool.cell(number)?;
    let shown = cell.lock(rt).show(alloc, ShowCommand::Regs)?;
    point_of(shown)
}

/// Queues a machine, which is resumed before, if so asked.
fn queue<F: FarStore, K: TableName, R: Wait>(
    rt: &R,
    pool: &Pool<F, K>,
    number: usize,
    resumed: bool,
) {
    let Some(cell) = pool.cell(number) else {
        return;
    };
    let mut locked = cell.lock(rt);
    if resumed {
        let _ = locked.debug(DebugCommand::Resume);
    }
    pool.queue(rt, &mut locked);
}

fn queue_both<F: FarStore, K: TableName, R: Wait>(rt: &R, pool: &Pool<F, K>, resumed: bool) {
    queue(rt, pool, 1, resumed);
    queue(rt, pool, 2, resumed);
}

/// So many turns of a worker.
fn have_turns<F: FarStore, K: TableName, R: Wait>(
    rt: &R,
    alloc: Global,
    pool: &Pool<F, K>,
    plan: Plan,
) -> TurnsLeft {
    let turns = Turns::new(plan.turns);
    if plan.told {
        work(rt, &turns, pool, 0);
    } else {
        let gate = Untold {
            rounds: Rounds::new(plan.turns),
            turns: &turns,
        };
        work(rt, &gate, pool, 0);
    }
    let machines = [point(rt, alloc, pool, 1), point(rt, alloc, pool, 2)];
    let room = pool.request(rt, 1, Direction::Leave);
    TurnsLeft {
        came: turns.counts(),
        machines,
        room,
    }
}

/// What is left after the turns, and after those that follow, if any.
fn left_by<F: FarStore, K: TableName, R: Wait>(
    rt: &R,
    alloc: Global,
    pool: &Pool<F, K>,
    plan: Plan,
) -> [TurnsLeft; 2] {
    for _ in 0..plan.queued {
        queue_both(rt, pool, false);
    }
    for other in 0..plan.requests {
        pool.request(rt, other.wrapping_add(100), Direction::Leave);
        pool.request(rt, other.wrapping_add(100), Direction::Leave);
    }
    let first = have_turns(rt, alloc, pool, plan);
    if !plan.resumed {
        return [first, first];
    }
    queue_both(rt, pool, true);
    [first, have_turns(rt, alloc, pool, plan)]
}

/// Object 1 begins to leave, if so asked, and stays on its way.
fn send_away(table: &SharedTable, mut mover: MoverSeat, away: bool)
    requires { IsMoverOf table.now mover }
{
    if away {
        let _ = table.begin_leave(&mut mover, 1);
    }
}

/// What a worker leaves of two machines over two objects.
pub fn turned<K: TableName, R: Wait>(
    rt: &R,
    alloc: Global,
    pool: &Pool<OwnStore, K>,
    mover: MoverSeat,
    plan: Plan,
) -> [TurnsLeft; 2]
    requires { IsMoverOf pool.now.shared.table mover }
{
    send_away(pool.table(), mover, plan.away);
    left_by(rt, alloc, pool, plan)
}

/// The same of these machines.
fn left_of_two<R: Threads + Wait + Sync>(
    rt: &R,
    alloc: Global,
    codes: &[Code],
    plan: Plan,
) -> Result<[TurnsLeft; 2], Fail> {
    match left_of(rt, alloc, codes, Course::Turns(plan))? {
        Left::Turns(left) => Ok(left),
        _ => Err(Fail::from(AllocError)),
    }
}

/// A machine with the address of object 1 and the number 1, and fuel 1000.
const COUNTING: Code = Code {
    fuel: 1000,
    arguments: [OBJECT, 1, 0, 0, 0],
    slots: &[EXIT],
    debug: None,
};

const JUMPING: Code = Code {
    slots: &[JUMP],
    ..COUNTING
};

const ADDING: Code = Code {
    slots: &[ADD, EXIT],
    ..COUNTING
};

const LOADING: Code = Code {
    slots: &[LOAD, EXIT],
    ..COUNTING
};

const EXIT_0: State = State::Stopped(Stop::Exit(0));

/// Two machines that jump, after a turn and two.
const JUMPED: [Option<Point>; 2] = [
    Some((0, 872, State::Running)),
    Some((0, 936, State::Running)),
];

/// The first waits, and the second has ended.
const WAITED: [Option<Point>; 2] = [Some((0, 1000, State::Running)), Some((0, 999, EXIT_0))];

const JUMPS: &[Code] = &[JUMPING, JUMPING];

#[test]
fn a_turn_is_64_instructions(rt: HostRuntime) -> Result<(), Fail> {
    let [left, _] = left_of_two(&rt, rt.alloc(), JUMPS, PLAN)?;
    same!(rt; left.came, [128, 64, 0, 0]);
    same!(rt; left.machines, JUMPED);
    Ok(())
}

const ENDS: &[Code] = &[COUNTING, ADDING];

#[test]
fn a_machine_is_queued_once(rt: HostRuntime) -> Result<(), Fail> {
    let plan = Plan {
        turns: 9,
        queued: 3,
        ..PLAN
    };
    let [left, _] = left_of_two(&rt, rt.alloc(), ENDS, plan)?;
    same!(rt; left.came, [1, 2, 0, 0]);
    same!(rt; left.machines, [Some((0, 999, EXIT_0)), Some((1, 998, EXIT_0))]);
    Ok(())
}

/// Both add and end. The first has a breakpoint at its end, and of the second the object is watched.
const DEBUGGED: &[Code] = &[
    Code {
        debug: Some(DebugCommand::Break { slot: 1 }),
        ..ADDING
    },
    Code {
        debug: Some(DebugCommand::Watch {
            address: OBJECT,
            length: 1,
        }),
        ..ADDING
    },
];

#[test]
fn breakpoints_and_watched_ranges_pause(rt: HostRuntime) -> Result<(), Fail> {
    let plan = Plan {
        resumed: true,
        ..PLAN
    };
    let [first, then] = left_of_two(&rt, rt.alloc(), DEBUGGED, plan)?;
    same!(rt; first.came, [2, 1, 0, 0]);
    same!(rt; first.machines, [Some((1, 999, State::Paused)); 2]);
    same!(rt; then.came, [1, 1, 0, 0]);
    same!(rt; then.machines, [Some((1, 998, EXIT_0)); 2]);
    Ok(())
}

const LOADS: &[Code] = &[LOADING, COUNTING];

#[test]
fn a_machine_waits_and_its_object_is_asked_for(rt: HostRuntime) -> Result<(), Fail> {
    let plan = Plan {
        requests: 63,
        ..PLAN
    };
    let [here, _] = left_of_two(&rt, rt.alloc(), LOADS, plan)?;
    same!(rt; here.came, [2, 1, 0, 0]);
    same!(rt; here.room, true);
    let plan = Plan { away: true, ..plan };
    let [away, _] = left_of_two(&rt, rt.alloc(), LOADS, plan)?;
    // the one that waits isn't stepped again
    same!(rt; away.came, [1, 1, 0, 0]);
    same!(rt; away.machines, WAITED);
    same!(rt; away.room, false);
    Ok(())
}

#[test]
fn a_gate_that_is_not_told_changes_no_turn(rt: HostRuntime) -> Result<(), Fail> {
    let plan = Plan {
        told: false,
        requests: 63,
        ..PLAN
    };
    let [ran, _] = left_of_two(&rt, rt.alloc(), JUMPS, plan)?;
    same!(rt; ran.came, [0; 4]);
    same!(rt; ran.machines, JUMPED);
    same!(rt; ran.room, true);
    let plan = Plan { away: true, ..plan };
    let [away, _] = left_of_two(&rt, rt.alloc(), LOADS, plan)?;
    same!(rt; away.machines, WAITED);
    same!(rt; away.room, false);
    Ok(())
}
