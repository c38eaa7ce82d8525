//! What a service leaves when it closes, and the lines that tell it. Expected digests are those of `sha256sum`.
ghost use Rattle.std.specs.Prelude.{◌≡◌, ◌≤◌, length, All, IfOk};
ghost use Rattle.shared_objects.specs.Kinds.{dealer};
ghost use Rattle.shared_objects.specs.Opened.{AreFresh, seated};
ghost use Rattle.shared_objects.specs.Tables.{IsActorOf};
ghost use Rattle.workers.specs.Cells.{IsSeatOf, IsTableOf};
ghost use Rattle.workers.specs.TableNames.{each_passed};
ghost use Rattle.workers.specs.Pools.{machines_of};

use crate::compared::same;
use crate::stage::{Lines, last_seat, machine, tells};
use debugger::Debuggee;
use far_store::{FarStore, OwnStore};
use shared_objects::{ActorSeat, MoverSeat, Shared};
use ship_service::{Agent, Closed, Connection, write_closing_lines};
use std::alloc::{AllocError, Global};
use std::marker::Brand;
use std::process::Abort;
use std::sync::Wait;
use std::test::Fail;
use test_devices::Narrow;
use workers::{Direction, Moved, Mover, Pool, TableName};

/// A service with one connection, in parts.
#[derive(Drop)]
pub struct Parts<F: FarStore> {
    pub shared: Shared<F>,
    pub machines: Vec<Debuggee>,
    pub seats: Vec<ActorSeat>,
    pub connection: ActorSeat,
    pub mover: MoverSeat,
    pub store: F,
}

/// Object 1, which is `abc`; number 2, which is none; and object 3, of two zero bytes.
fn objects(alloc: Global) -> Result<Vec<Vec<u8>>, AllocError>
    ensures { IfOk result (λ v. length v.items ≤ 1024) }
{
    let mut bodies = Vec::new(alloc);
    bodies.push(b"abc".to_vec(alloc)?)?;
    bodies.push(Vec::new(alloc))?;
    bodies.push(vec![in alloc; 0u8; 2]?)?;
    Ok(bodies)
}

/// What the far store gives for object 1: no bytes, if it doesn't have it.
pub fn fetched<F: FarStore>(alloc: Global, closed: &mut Closed<F>) -> Vec<u8> {
    match closed.get(1) {
        Some(Ok(bytes)) => bytes,
        _ => Vec::new(alloc),
    }
}

/// A service without workers, with one connection.
#[derive(Drop)]
pub struct Service<F: FarStore, K: TableName> {
    pub agent: Agent<F, K>,
    pub connection: Connection<K>,
    pub served: Mover<F, K>,
}

/// The service of these parts.
pub fn service_of<F: FarStore + Drop, K: TableName, R: Wait>(
    rt: &R,
    alloc: Global,
    parts: Parts<F>,
) -> Result<Service<F, K>, AllocError>
    requires table { IsTableOf K.table K.opening parts.shared.table }
    requires seats { AreFresh (dealer F.RETURNS K.opening) parts.seats.items × All (IsActorOf parts.shared.table) parts.seats.items
        × (length parts.seats.items ≡ 48) }
    requires machines { (K.starts ≡ machines_of parts.machines.items) × (length parts.machines.items ≤ 48) }
    requires lent { K.passed ≡ each_passed }
    requires connection { IsSeatOf K.table K.opening parts.connection }
    requires mover { (parts.mover.seat.table_id ≡ K.table) × (parts.mover.seat.me.0 ≡ seated K.seats (dealer F.RETURNS K.opening)) }
{
    let Parts {
        shared,
        machines,
        seats,
        connection,
        mover,
        store,
    } = parts;
    Ok(Service {
        agent: Agent::new(Pool::new(rt, alloc, shared, seats, machines)?),
        connection: Connection::new(alloc, connection)?,
        served: Mover::new(alloc, mover, store)?,
    })
}

/// What comes of a move of object 1 for which the mover is called.
pub fn move_one<F: FarStore, K: TableName>(
    agent: &Agent<F, K>,
    served: &mut Mover<F, K>,
    direction: Direction,
) -> Moved {
    served.one(agent.pool(), 1, direction)
}

/// The service closes with its one connection.
pub fn closed_of<F: FarStore + Drop, K: TableName>(
    alloc: Global,
    agent: Agent<F, K>,
    connection: Connection<K>,
    served: Mover<F, K>,
) -> Result<Closed<F>, AllocError>
    requires { K.seats ≡ 49 }
{
    agent.close(alloc, Vec::from_array(alloc, [connection])?, served)
}

/// What is said and answered in a service, and how it ends.
#[derive(Clone, Copy, Drop)]
struct Course<'a> {
    /// What the connection says, and what it is answered.
    lines: Lines<'a>,
    /// Whether object 1 leaves then.
    leaves: bool,
    /// The lines of the service when it has closed.
    last: &'a [u8],
    /// What its far store gives for object 1 then, or no bytes.
    fetched: &'a [u8],
}

/// A service has this course, and closes.
fn closed_after<F: FarStore + Drop, K: TableName, R: Wait + Abort>(
    rt: &R,
    alloc: Global,
    service: Service<F, K>,
    course: &Course,
) -> Result<Closed<F>, AllocError>
    requires { K.seats ≡ 49 }
{
    let Service {
        agent,
        mut connection,
        mut served,
    } = service;
    tells(rt, alloc, &agent, &mut connection, course.lines);
    if course.leaves {
        same!(rt; move_one(&agent, &mut served, Direction::Leave), Moved::Done);
    }
    closed_of(alloc, agent, connection, served)
}

/// A service of these parts has this course.
fn close_after<F: FarStore + Drop, K: TableName, R: Wait + Abort>(
    rt: &R,
    alloc: Global,
    parts: Parts<F>,
    course: &Course,
) -> Result<(), Fail>
    requires table { IsTableOf K.table K.opening parts.shared.table }
    requires seats { AreFresh (dealer F.RETURNS K.opening) parts.seats.items × All (IsActorOf parts.shared.table) parts.seats.items
        × (length parts.seats.items ≡ 48) }
    requires machines { (K.starts ≡ machines_of parts.machines.items) × (length parts.machines.items ≤ 48) }
    requires lent { K.passed ≡ each_passed }
    requires connection { IsSeatOf K.table K.opening parts.connection }
    requires mover { (parts.mover.seat.table_id ≡ K.table) × (parts.mover.seat.me.0 ≡ seated K.seats (dealer F.RETURNS K.opening)) }
    requires all { K.seats ≡ 49 }
{
    let service: Service<F, K> = service_of(rt, alloc, parts)?;
    let mut closed = closed_after(rt, alloc, service, course)?;
    ends(rt, alloc, &mut closed, course)
}

/// The lines and the far store of a service that has closed are those of its course.
fn ends<F: FarStore>(
    rt: &impl Abort,
    alloc: Global,
    closed: &mut Closed<F>,
    course: &Course,
) -> Result<(), Fail> {
    let mut writer = Narrow::new(alloc, 7, usize::MAX);
    write_closing_lines(&mut writer, closed)?;
    same!(rt; writer.taken.as_slice(), course.last);
    same!(rt; fetched(alloc, closed).as_slice(), course.fetched);
    Ok(())
}

/// A service whose machine 1 has this code has this course.
fn closes<R: Wait + Abort>(
    rt: &R,
    alloc: Global,
    code: &[u64],
    course: &Course,
) -> Result<(), Fail> {
    let mut machines = Vec::new(alloc);
    machines.push(machine(alloc, 1, code, 10, [0; 5])?)?;
    let (shared, mut seats, mover) = Shared::<OwnStore>::open(alloc, objects(alloc)?, 49)?;
    let Some(connection) = last_seat(&shared, &mut seats) else {
        return Err(Fail::from(AllocError));
    };
    let parts = Parts {
        shared,
        machines,
        seats,
        connection,
        mover,
        store: OwnStore::new(alloc),
    };
    close_after::<OwnStore, Brand, R>(rt, alloc, parts, course)
}

/// mov r0, 7 · exit
const SEVEN: &[u64] = &[0xb700_0000_0700_0000, 0x9500_0000_0000_0000];

const IDLE: &Course<'static> = &Course {
    lines: (b"", b""),
    leaves: false,
    last: b"object 1 3 ba7816bf8f01cfea414140de5dae2223b00361a396177a9cb410ff61f20015ad\n\
        object 3 2 96a296d224f285c67bee93c30f8a309157f0daa35dc5b87e410b78630a09cfc7\n\
        regs 1 0 10 run 0000000000000000 0000000000000000 0000000000000000 0000000000000000 0000000000000000 \
        0000000000000000 0000000000000000 0000000000000000 0000000000000000 0000000000000000 ffffffff00001000\n",
    fetched: b"",
};

#[test]
fn nothing_done(rt: HostRuntime) -> Result<(), Fail> {
    closes(&rt, rt.alloc(), SEVEN, IDLE)
}

const ONE_OUT: &Course<'static> = &Course {
    lines: (
        b"put 3 0 2a\nput 1 0 7879\nstep 1\nstep 1\n",
        b"ok\nok\nran 1 1\nstopped 1 exit 0000000000000007\n",
    ),
    leaves: true,
    last: b"object 1 out\n\
        object 3 2 17d5f5a33ab5f6aed0395d2bc0a4e5df61d92441ea8d77b0952c01bc8aa8bde0\n\
        regs 1 1 8 exit 0000000000000007 0000000000000000 0000000000000000 0000000000000000 0000000000000000 \
        0000000000000000 0000000000000000 0000000000000000 0000000000000000 0000000000000000 ffffffff00001000\n",
    fetched: b"xyc",
};

#[test]
fn an_object_that_is_out(rt: HostRuntime) -> Result<(), Fail> {
    closes(&rt, rt.alloc(), SEVEN, ONE_OUT)
}

/// Pauses before its first instruction.
const PAUSED: &Course<'static> = &Course {
    lines: (b"break 1 0\nstep 1\n", b"ok\npaused 1 0\n"),
    leaves: false,
    last: b"object 1 3 ba7816bf8f01cfea414140de5dae2223b00361a396177a9cb410ff61f20015ad\n\
        object 3 2 96a296d224f285c67bee93c30f8a309157f0daa35dc5b87e410b78630a09cfc7\n\
        regs 1 0 10 paused 0000000000000000 0000000000000000 0000000000000000 0000000000000000 0000000000000000 \
        0000000000000000 0000000000000000 0000000000000000 0000000000000000 0000000000000000 ffffffff00001000\n",
    fetched: b"",
};

#[test]
fn a_machine_that_is_paused(rt: HostRuntime) -> Result<(), Fail> {
    closes(&rt, rt.alloc(), SEVEN, PAUSED)
}
