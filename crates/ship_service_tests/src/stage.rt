//! Services without workers and mover, with two connections.
ghost use Rattle.std.specs.Prelude.{◌≡◌, ◌≤◌, ◌+◌, length, All, IfOk, IfSome};
ghost use Rattle.shared_objects.specs.Kinds.{dealer};
ghost use Rattle.shared_objects.specs.Opened.{AreFresh};
ghost use Rattle.shared_objects.specs.Tables.{IsActorOf, IsMoverOf};
ghost use Rattle.workers.specs.Cells.{IsSeatOf, IsTableOf};
ghost use Rattle.workers.specs.TableNames.{each_passed};
ghost use Rattle.workers.specs.Pools.{machines_of};
ghost use Rattle.ship_service_tests.specs.Stages.{AreNewSeats};

use crate::compared::same;
use console::DriveFault;
use debugger::{Debuggee, Start};
use far_store::{FarStore, OwnStore};
use loader::{Program, load};
use shared_objects::{ActorSeat, Leave, MoverSeat, Shared};
use ship_service::{Agent, Connection, serve};
use std::alloc::{AllocError, Global};
use std::cell::Cell;
use std::marker::Brand;
use std::process::Abort;
use std::sync::Wait;
use std::test::Fail;
use test_devices::{FailingReader, Narrow, Pieces, PipeReader, PipeWriter};
use workers::{Pool, TableName};

/// Where a conversation begins.
#[derive(Clone, Copy, Drop)]
pub struct Setting<'a> {
    /// How many objects there are, of eight zero bytes each.
    pub objects: usize,
    /// The code of machine 1, if there is one: slots, each written as its bytes, first to last.
    pub code: &'a [u64],
    /// The fuel of machine 1, and what R1 to R5 begin with.
    pub fuel: u64,
    pub arguments: [u64; 5],
    /// Whether object 1 is on its way to the far store.
    pub leaving: bool,
    /// The stamp up to which the first connection has seen.
    pub stamp: u64,
    /// How many reads of the first conversation come before the one that fails, each of at most 16 bytes.
    pub reads: usize,
    /// How many bytes the writer of the first conversation takes.
    pub room: usize,
    /// Whether the first connection says what is said second, too.
    pub again: bool,
    /// Whether the first client says its next line only when it has read the reply to the last one. It has all reads and all room then.
    pub piped: bool,
}

/// An object, no machine, and nothing that happened before.
pub const PLAIN: Setting<'static> = Setting {
    objects: 1,
    code: &[],
    fuel: 10,
    arguments: [0; 5],
    leaving: false,
    stamp: 0,
    reads: usize::MAX,
    room: usize::MAX,
    again: false,
    piped: false,
};

/// What is said in a conversation, and what is answered.
pub type Lines<'a> = (&'a [u8], &'a [u8]);

/// A conversation without a word.
pub const NOTHING: Lines<'static> = (b"", b"");

/// What two conversations left, beside what was answered.
#[derive(Clone, Copy, Drop, Debug, PartialEq, Eq)]
pub struct Left {
    /// How the first ended.
    pub ended: Result<(), DriveFault>,
    /// The stamps up to which both connections have seen, and that of machine 1.
    pub stamps: [u64; 3],
    /// Whether the mover can take object 1 then.
    pub leaves: bool,
}

/// So many objects of eight bytes, all zero.
fn objects(alloc: Global, count: usize) -> Result<Vec<Vec<u8>>, AllocError>
    ensures { IfOk result (λ v. length v.items ≡ count) }
{
    let mut bodies = Vec::new(alloc);
    'objects: while bodies.len() < count {
        bodies.push(vec![in alloc; 0u8; 8]?)?;
    }
    Ok(bodies)
}

/// A program of these slots.
fn code(alloc: Global, slots: &[u64]) -> Result<Program, Fail> {
    let mut bytes = Vec::new(alloc);
    for slot in slots {
        bytes.extend_from_slice(&slot.to_be_bytes())?;
    }
    Ok(load(alloc, bytes.as_slice())?)
}

/// A machine of this number, at the start of this code.
pub fn machine(
    alloc: Global,
    number: usize,
    slots: &[u64],
    fuel: u64,
    arguments: [u64; 5],
) -> Result<Debuggee, Fail> {
    let program = code(alloc, slots)?;
    Ok(Debuggee::new(program, number, Start::new(fuel, arguments)))
}

/// Machine 1 as the setting has it, if it has one.
fn machines(alloc: Global, setting: &Setting) -> Result<Vec<Debuggee>, Fail>
    ensures { IfOk result (λ v. length v.items ≤ 1) }
{
    let mut machines = Vec::new(alloc);
    if !setting.code.is_empty() {
        machines.push(machine(alloc, 1, setting.code, setting.fuel, setting.arguments)?)?;
    }
    Ok(machines)
}

/// What a connection is answered to these bytes, and how the conversation ends, where so many reads are good and so many
/// bytes are taken.
pub fn talk<F: FarStore, K: TableName, R: Wait>(
    rt: &R,
    alloc: Global,
    agent: &Agent<F, K>,
    connection: &mut Connection<K>,
    input: &[u8],
    reads: usize,
    room: usize,
) -> (Vec<u8>, Result<(), DriveFault>) {
    let mut reader = FailingReader::new(Pieces::new(input, 16), reads);
    let mut writer = Narrow::new(alloc, usize::MAX, room);
    let ended = serve(rt, &mut reader, &mut writer, agent, connection);
    (writer.taken, ended)
}

/// The same of a client that waits for the reply to each line before it says the next.
fn talk_piped<F: FarStore, K: TableName, R: Wait>(
    rt: &R,
    alloc: Global,
    agent: &Agent<F, K>,
    connection: &mut Connection<K>,
    input: &[u8],
) -> (Vec<u8>, Result<(), DriveFault>) {
    let replies = Cell::new(0usize);
    let mut reader = PipeReader::new(input, &replies);
    let mut writer = PipeWriter::new(alloc, &replies);
    let ended = serve(rt, &mut reader, &mut writer, agent, connection);
    (writer.taken, ended)
}

/// What a connection says is answered so, and the conversation ends well.
pub fn tells<F: FarStore, K: TableName, R: Wait + Abort>(
    rt: &R,
    alloc: Global,
    agent: &Agent<F, K>,
    connection: &mut Connection<K>,
    (said, wanted): Lines,
) {
    let (told, ended) = talk(rt, alloc, agent, connection, said, usize::MAX, usize::MAX);
    same!(rt; told.as_slice(), wanted);
    same!(rt; ended, Ok(()));
}

/// What is said is answered so, over the reader and the writer of the setting: how the conversation ends.
fn tells_as_set<F: FarStore, K: TableName, R: Wait + Abort>(
    rt: &R,
    alloc: Global,
    agent: &Agent<F, K>,
    connection: &mut Connection<K>,
    setting: &Setting,
    (said, wanted): Lines,
) -> Result<(), DriveFault> {
    let (told, ended) = if setting.piped {
        talk_piped(rt, alloc, agent, connection, said)
    } else {
        talk(
            rt,
            alloc,
            agent,
            connection,
            said,
            setting.reads,
            setting.room,
        )
    };
    same!(rt; told.as_slice(), wanted);
    ended
}

/// The stamp up to which machine 1 has seen.
fn stamp_of<F: FarStore, K: TableName, R: Wait>(rt: &R, agent: &Agent<F, K>) -> u64 {
    match agent.pool().cell(1) {
        Some(cell) => cell.lock(rt).stamp(),
        None => 0,
    }
}

/// The parts of a service.
#[derive(Drop)]
struct Parts<F: FarStore> {
    shared: Shared<F>,
    machines: Vec<Debuggee>,
    seats: Vec<ActorSeat>,
    first: ActorSeat,
    second: ActorSeat,
    mover: MoverSeat,
}

/// The stamp up to which a connection has seen.
fn stamp_seen<K: TableName>(connection: Connection<K>) -> u64 {
    connection.into_seat().stamp()
}

/// The first connection says its bytes, and then the second, or the first again: each is answered so.
fn talks<F: FarStore, K: TableName, R: Wait + Abort>(
    rt: &R,
    alloc: Global,
    parts: Parts<F>,
    setting: &Setting,
    lines: [Lines; 2],
) -> Result<Left, AllocError>
    requires table { IsTableOf K.table K.opening parts.shared.table }
    requires seats { AreFresh (dealer F.RETURNS K.opening) parts.seats.items × All (IsActorOf parts.shared.table) parts.seats.items
        × (length parts.seats.items ≡ 48) }
    requires machines { (K.starts ≡ machines_of parts.machines.items) × (length parts.machines.items ≤ 48) }
    requires lent { K.passed ≡ each_passed }
    requires connections { IsSeatOf K.table K.opening parts.first × IsSeatOf K.table K.opening parts.second }
    requires mover { IsMoverOf parts.shared.table parts.mover }
{
    let Parts {
        shared,
        machines,
        seats,
        first,
        second,
        mut mover,
    } = parts;
    let pool: Pool<F, K> = Pool::new(rt, alloc, shared, seats, machines)?;
    let agent = Agent::new(pool);
    let mut first = Connection::new(alloc, first)?;
    let mut second = Connection::new(alloc, second)?;
    let ended = tells_as_set(rt, alloc, &agent, &mut first, setting, lines[0]);
    let other = if setting.again {
        &mut first
    } else {
        &mut second
    };
    tells(rt, alloc, &agent, other, lines[1]);
    let stamps = [stamp_seen(first), stamp_seen(second), stamp_of(rt, &agent)];
    let leave = agent.pool().table().begin_leave(&mut mover, 1);
    Ok(Left {
        ended,
        stamps,
        leaves: matches!(leave, Leave::Taken(_)),
    })
}

/// The last of the seats that are left.
pub fn last_seat<F: FarStore>(shared: &Shared<F>, seats: &mut Vec<ActorSeat>) -> Option<ActorSeat>
    requires { AreNewSeats F.RETURNS shared.now.table seats.old.items }
    ensures left { AreNewSeats F.RETURNS shared.now.table seats.new.items }
    ensures some { IfSome result (λ seat. IsActorOf shared.now.table seat × (length seats.old.items ≡ length seats.new.items + 1)) }
{
    seats.pop()
}

/// Two conversations, one after the other, are answered so.
pub fn answers<R: Wait + Abort>(
    rt: &R,
    alloc: Global,
    setting: &Setting,
    lines: [Lines; 2],
) -> Result<Left, Fail> {
    let bodies = objects(alloc, setting.objects.min(1024))?;
    let machines = machines(alloc, setting)?;
    let (shared, mut seats, mut mover) = Shared::<OwnStore>::open(alloc, bodies, 50)?;
    if setting.leaving {
        let _body = shared.table().begin_leave(&mut mover, 1);
    }
    let Some(second) = last_seat(&shared, &mut seats) else {
        return Err(Fail::from(AllocError));
    };
    let Some(mut first) = last_seat(&shared, &mut seats) else {
        return Err(Fail::from(AllocError));
    };
    first.learn(setting.stamp);
    let parts = Parts {
        shared,
        machines,
        seats,
        first,
        second,
        mover,
    };
    Ok(talks::<OwnStore, Brand, R>(rt, alloc, parts, setting, lines)?)
}
