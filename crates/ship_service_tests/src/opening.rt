//! Services that begin with a world.
ghost use Rattle.ship_service.specs.Opening.{IsNamed};

use crate::closing::move_one;
use crate::compared::same;
use crate::stage::{Lines, tells};
use console::{Console, drive};
use far_store::{FarStore, OwnStore};
use ship_service::{Agent, Connection, ListenFault, OpenAgent, Opened};
use std::alloc::Global;
use std::fmt::Display;
use std::marker::Brand;
use std::process::Abort;
use std::sync::Wait;
use std::test::Fail;
use test_devices::{Narrow, Pieces};
use test_gates::Turns;
use workers::{Direction, Moved, Mover, TableName, work};
use world::World;

/// The most bytes of the objects that aren't far.
const BUDGET: u32 = 1 << 26;

/// What a service left that began with a world, beside what was answered.
#[derive(Clone, Copy, Drop, Debug, PartialEq, Eq)]
pub struct Left {
    /// How many connections there are, and how many of them said something.
    connections: usize,
    conversations: usize,
    /// The instructions that a worker did before the first connection.
    done: [u64; 4],
    /// What came of taking object 1 away then.
    moved: Moved,
}

/// A world, and a service that begins with it.
#[derive(Clone, Copy, Drop)]
pub struct Script {
    /// What the world is told, and answers.
    pub world: Lines<'static>,
    /// How many numbers a worker takes out of the queue before the first connection.
    pub turns: u64,
    /// What each connection says, one after the other, and what it is answered.
    pub connections: &'static [Lines<'static>],
}

/// A service that began with a world.
#[derive(Drop)]
struct Begun<F: FarStore, K: TableName> {
    agent: Agent<F, K>,
    connections: Vec<Connection<K>>,
    served: Mover<F, K>,
}

/// The world answers so.
fn world_tells(
    rt: &impl Abort,
    alloc: Global,
    world: &mut World<OwnStore>,
    (said, wanted): Lines,
) -> Result<(), Fail> {
    let mut console = Console::new(alloc)?;
    let mut reader = Pieces::new(said, 64);
    let mut writer = Narrow::new(alloc, usize::MAX, usize::MAX);
    drive(&mut reader, &mut writer, &mut console, world)?;
    same!(rt; writer.taken.as_slice(), wanted);
    Ok(())
}

/// A world that was told this, and answered so.
pub fn world_after(rt: &impl Abort, alloc: Global, lines: Lines) -> Result<World<OwnStore>, Fail> {
    let mut world = World::new(alloc, BUDGET, OwnStore::new(alloc))?;
    world_tells(rt, alloc, &mut world, lines)?;
    Ok(world)
}

/// The service begins.
fn begin<F: FarStore + Drop, K: TableName, R: Wait>(
    rt: &R,
    alloc: Global,
    opened: Opened<F>,
) -> Result<Begun<F, K>, OpenAgent>
    requires { IsNamed K.table K.opening K.starts K.seats K.passed opened.shared.table opened.machines.items }
{
    let (agent, connections, served) = Agent::<F, K>::open(rt, alloc, opened)?;
    Ok(Begun {
        agent,
        connections,
        served,
    })
}

/// Each connection says its lines, one after the other, and is answered so: how many there were.
fn converse<F: FarStore, K: TableName, R: Wait + Abort>(
    rt: &R,
    alloc: Global,
    agent: &Agent<F, K>,
    connections: &mut Vec<Connection<K>>,
    table: &[Lines],
) -> usize {
    for row in 0..table.len() {
        let Some(connection) = connections.get_mut(row) else {
            return row;
        };
        tells(rt, alloc, agent, connection, table[row]);
    }
    table.len()
}

/// How often a worker came to instructions, which took so many numbers out of the queue.
fn turned<F: FarStore, K: TableName, R: Wait>(rt: &R, agent: &Agent<F, K>, turns: u64) -> [u64; 4] {
    let gate = Turns::new(turns);
    work(rt, &gate, agent.pool(), 0);
    gate.counts()
}

/// A worker takes so many numbers out of the queue; then each connection says its lines, one after the other.
fn serves<F: FarStore + Drop, K: TableName, R: Wait + Abort>(
    rt: &R,
    alloc: Global,
    opened: Opened<F>,
    turns: u64,
    table: &[Lines],
) -> Result<Left, OpenAgent>
    requires { IsNamed K.table K.opening K.starts K.seats K.passed opened.shared.table opened.machines.items }
{
    let Begun::<F, K> {
        agent,
        mut connections,
        mut served,
    } = begin(rt, alloc, opened)?;
    let done = turned(rt, &agent, turns);
    let count = connections.len();
    Ok(Left {
        connections: count,
        conversations: converse(rt, alloc, &agent, &mut connections, table),
        done,
        moved: move_one(&agent, &mut served, Direction::Leave),
    })
}

/// A world answers so, and then the connections of a service that begins with it, unless it is refused.
fn carry_on<R: Wait + Abort>(
    rt: &R,
    alloc: Global,
    lines: Lines,
    turns: u64,
    table: &[Lines],
) -> Result<Result<Left, OpenAgent>, Fail> {
    let world = world_after(rt, alloc, lines)?;
    match Opened::new(alloc, world) {
        Ok(opened) => Ok(serves::<OwnStore, Brand, R>(rt, alloc, opened, turns, table)),
        Err(why) => Ok(Err(why)),
    }
}

/// The world and the service of a script answer so.
pub fn carry<R: Wait + Abort>(
    rt: &R,
    alloc: Global,
    script: &Script,
) -> Result<Result<Left, OpenAgent>, Fail> {
    carry_on(rt, alloc, script.world, script.turns, script.connections)
}

const BY_NUMBER: &Script = &Script {
    world: (
        b"make 4\nput 1 1 0a0b\nmake 2\nmake 3\nput 3 0 ff\nfree 2\n",
        b"made 1\nok\nmade 2\nmade 3\nok\nfreed 2\n",
    ),
    turns: 0,
    connections: &[(
        b"get 1 0 4\nget 2 0 1\nleave 2\nreturn 2\nget 3 0 3\nget 3 0 4\nget 4 0 1\nleave 4\n",
        b"bytes 000a0b00\noutside\nnone\nnone\nbytes ff0000\noutside\noutside\nnone\n",
    )],
};

#[test]
fn bytes_stay_by_number(rt: HostRuntime) -> Result<(), Fail> {
    same!(rt; carry(&rt, rt.alloc(), BY_NUMBER)?, one_said(0, Moved::Done));
    Ok(())
}

const WITHOUT_OBJECTS: &Script = &Script {
    world: (b"", b""),
    turns: 0,
    connections: &[(
        b"get 1 0 1\nput 1 0 00\nleave 1\nregs 1\nship 1 0 0 0 0 0 9500000000000000\n",
        b"outside\noutside\nnone\nnone\nshipped 1\n",
    )],
};

/// What one connection of a service left, whose worker did so many instructions of machine 3.
pub fn one_said(done: u64, moved: Moved) -> Result<Left, OpenAgent> {
    Ok(Left {
        connections: 8,
        conversations: 1,
        done: [0, 0, done, 0],
        moved,
    })
}

#[test]
fn a_world_without_objects(rt: HostRuntime) -> Result<(), Fail> {
    same!(rt; carry(&rt, rt.alloc(), WITHOUT_OBJECTS)?, one_said(0, Moved::NoObject));
    Ok(())
}

const AWAY_3: &Script = &Script {
    world: (
        b"make 1\nmake 1\nmake 1\nmake 1\nfree 1\nleave 4\nleave 3\nleft 3\n",
        b"made 1\nmade 2\nmade 3\nmade 4\nfreed 1\nleaving 4\nleaving 3\nleft 3\n",
    ),
    turns: 0,
    connections: &[(b"", b"")],
};

const AWAY_1: &Script = &Script {
    world: (
        b"make 1\nleave 1\nleft 1\nreturn 1\n",
        b"made 1\nleaving 1\nleft 1\nreturning 1\n",
    ),
    turns: 0,
    connections: &[(b"", b"")],
};

#[test]
fn the_least_object_that_is_away_is_told(rt: HostRuntime) -> Result<(), Fail> {
    same!(rt; carry(&rt, rt.alloc(), AWAY_3)?, Err(OpenAgent::NotHere(3)));
    same!(rt; carry(&rt, rt.alloc(), AWAY_1)?, Err(OpenAgent::NotHere(1)));
    Ok(())
}

const HOME: &Script = &Script {
    world: (
        b"make 2\nput 1 0 0708\nleave 1\nleft 1\nreturn 1\nreturned 1\n",
        b"made 1\nok\nleaving 1\nleft 1\nreturning 1\nhome 1\n",
    ),
    turns: 0,
    connections: &[(b"get 1 0 2\n", b"bytes 0708\n")],
};

#[test]
fn an_object_that_came_home_is_here(rt: HostRuntime) -> Result<(), Fail> {
    same!(rt; carry(&rt, rt.alloc(), HOME)?, one_said(0, Moved::Done));
    Ok(())
}

/// mov r0, 1 · exit
const MACHINES: Lines<'static> = (
    b"ship 10 0 0 0 0 0 b7000000010000009500000000000000\n\
        break 1 1\n\
        step 1\n\
        step 1\n\
        ship 10 0 0 0 0 0 9500000000000000\n\
        step 2\n\
        ship 10 0 0 0 0 0 b7000000010000009500000000000000\n\
        step 3\n",
    b"shipped 1\nok\nran 1 1\npaused 1 1\nshipped 2\nstopped 2 exit 0000000000000000\nshipped 3\nran 3 1\n",
);

const STAYING: &Script = &Script {
    world: MACHINES,
    turns: 0,
    connections: &[(
        b"regs 3\nstep 1\nresume 1\nstep 1\nstep 2\nstep 3\nship 1 0 0 0 0 0 9500000000000000\n",
        b"regs 3 1 9 run 0000000000000001 0000000000000000 0000000000000000 0000000000000000 0000000000000000 \
            0000000000000000 0000000000000000 0000000000000000 0000000000000000 0000000000000000 ffffffff00001000\n\
            paused 1 1\n\
            ok\n\
            stopped 1 exit 0000000000000001\n\
            stopped 2 exit 0000000000000000\n\
            stopped 3 exit 0000000000000001\n\
            shipped 4\n",
    )],
};

#[test]
fn machines_stay_as_they_are(rt: HostRuntime) -> Result<(), Fail> {
    same!(rt; carry(&rt, rt.alloc(), STAYING)?, one_said(0, Moved::NoObject));
    Ok(())
}

const GOING_ON: &Script = &Script {
    world: MACHINES,
    turns: 8,
    connections: &[(
        b"step 1\nstep 3\n",
        b"paused 1 1\nstopped 3 exit 0000000000000001\n",
    )],
};

#[test]
fn those_that_go_on_are_queued(rt: HostRuntime) -> Result<(), Fail> {
    // machine 1 is paused and machine 2 is stopped; machine 3 comes to its exit at once
    same!(rt; carry(&rt, rt.alloc(), GOING_ON)?, one_said(1, Moved::NoObject));
    Ok(())
}

/// ldxb r0, [r1] · exit
const SCOPED: &Script = &Script {
    world: (
        b"make 8\nship 10 0x100000000 0 0 0 0 71100000000000009500000000000000\nstep 1\nleave 1\n",
        b"made 1\nshipped 1\nran 1 1\nkept 1 scoped\n",
    ),
    turns: 0,
    connections: &[(b"step 1\n", b"stopped 1 exit 0000000000000000\n")],
};

#[test]
fn scopes_are_closed(rt: HostRuntime) -> Result<(), Fail> {
    same!(rt; carry(&rt, rt.alloc(), SCOPED)?, one_said(0, Moved::Done));
    Ok(())
}

/// What is said to a world that makes an object and ships 48 machines, and what it answers.
fn crowd(alloc: Global) -> Result<(Vec<u8>, Vec<u8>), Fail> {
    let mut said = b"make 1\n".to_vec(alloc)?;
    let mut told = b"made 1\n".to_vec(alloc)?;
    for machine in 1..49u32 {
        said.extend_from_slice(b"ship 1 0 0 0 0 0 9500000000000000\n")?;
        told.extend_from_slice(format!(in alloc; "shipped {machine}\n")?.as_bytes())?;
    }
    Ok((said, told))
}

const GET: Lines<'static> = (b"put 1 0 01\nget 1 0 1\n", b"ok\nbytes 01\n");

const LAST: Lines<'static> = (
    b"step 48\nship 1 0 0 0 0 0 9500000000000000\nget 1 0 1\n",
    b"stopped 48 exit 0000000000000000\nfull\nbytes 01\n",
);

/// One more than there are.
const NINE: &[Lines<'static>] = &[GET, GET, GET, GET, GET, GET, GET, LAST, GET];

#[test]
fn eight_connections_and_as_many_machines_as_there_may_be(rt: HostRuntime) -> Result<(), Fail> {
    let (said, told) = crowd(rt.alloc())?;
    let lines = (said.as_slice(), told.as_slice());
    let left = carry_on(&rt, rt.alloc(), lines, 0, NINE)??;
    same!(rt; [left.connections, left.conversations], [8, 8]);
    Ok(())
}

/// The value is told by this line.
fn is_told<T: Display>(rt: &impl Abort, alloc: Global, value: &T, line: &str) -> Result<(), Fail> {
    let told = format!(in alloc; "{value}")?;
    same!(rt; told.as_str(), line);
    Ok(())
}

#[test]
fn what_is_wrong_is_told_by_a_line(rt: HostRuntime) -> Result<(), Fail> {
    let away = OpenAgent::NotHere(1024);
    is_told(&rt, rt.alloc(), &away, "object 1024 isn't here")?;
    is_told(&rt, rt.alloc(), &OpenAgent::Memory, "no memory")
}

#[test]
fn how_a_service_ended_is_told_by_a_line(rt: HostRuntime) -> Result<(), Fail> {
    let away = ListenFault::NotHere(1024);
    is_told(&rt, rt.alloc(), &away, "object 1024 isn't here")?;
    is_told(&rt, rt.alloc(), &ListenFault::Memory, "no memory")?;
    is_told(&rt, rt.alloc(), &ListenFault::Net, "net fault")?;
    is_told(&rt, rt.alloc(), &ListenFault::Write, "write fault")
}
