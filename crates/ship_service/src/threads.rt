//! The threads of a service: one for each connection, its workers and its mover.
ghost use Rattle.std.specs.Prelude.{◌≡◌, ◌+◌, true, length, map, All, IfOk, IfSome, IfNone, OnOk, Err};
ghost use Rattle.std.specs.Vec.Iter.{into_iter_items};
ghost use Rattle.scopes.specs.Windows.{machine_limit};
ghost use Rattle.workers.specs.TableNames.Passage.{Ran};
ghost use Rattle.ship_service.specs.Closing.{Settles};
ghost use Rattle.ship_service.specs.Conversed.{IsUnused, HadOneClient};
ghost use Rattle.ship_service.specs.Opening.{first_mover_view};
ghost use denote.Param.Send.{IsSend, IsSync};

use crate::closing::Closed;
use crate::connection::Connection;
use crate::journal::ServiceEvent;
use crate::serving::serve;
use crate::shared_agent::Agent;
use far_store::FarStore;
use listener::{Door, Journal, accept};
use std::alloc::{AllocError, Global};
use std::marker::PhantomData;
use std::net::{Shutdown, TcpStream};
use std::sync::Wait;
use std::sync::atomic::{AtomicBool, Ordering};
use std::thread;
use std::thread::{Promise, PromisedHandle, SpawnError, Threads};
use std::vec::IntoIter;
use workers::{Gate, Moved, Mover, MoverEvent, Request, TableName, Upkeep, mover, work};

/// Why a service ended before all its connections had.
#[derive(Clone, Copy, Drop, Debug, PartialEq, Eq)]
pub enum ThreadFault {
    /// A connection can't be accepted.
    Net,
    /// A thread can't be made.
    Memory,
}

/// How many connections a service takes, and who works for it.
#[derive(Clone, Copy, Drop, Debug, PartialEq, Eq)]
pub struct Plan {
    /// How many connections are accepted in all, at most as many as there are.
    pub connections: usize,
    pub workers: usize,
    /// What the mover does of its own accord.
    pub upkeep: Upkeep,
}

impl From<AllocError> for ThreadFault {
    fn from(_refused: AllocError) -> ThreadFault {
        ThreadFault::Memory
    }
}

/// What a service leaves when all its threads have ended: the mover, whose loop began with all objects here and ended with what the
/// mover is, and all connections, each of which had one client, or none. Nothing else moved an object or used a connection, since nobody
/// had them but their threads, and then who closes.
#[derive(Drop)]
pub struct Ended<F: FarStore, K: TableName> {
    mover: Mover<F, K>,
    connections: Vec<Connection<K>>,
    pub ghost ran: { K.passed (Ran (first_mover_view F.RETURNS K.opening) mover.view) ≡ true },
    pub ghost clients: { All (λ c. HadOneClient K.table F.RETURNS K.opening K.passed c.session.seat) connections.items },
}

impl<F: FarStore + Drop, K: TableName> Ended<F, K> {
    /// Closes the agent with them.
    pub fn close(self, alloc: Global, agent: Agent<F, K>) -> Result<Closed<F>, AllocError>
        requires all { K.seats ≡ machine_limit + length self.connections.items }
        ensures { IfOk result (λ closed. Settles F.RETURNS K.table K.opening K.starts self.mover (map (λ c. c.session.seat) self.connections.items) closed) }
    {
        let Ended { mover, connections } = self;
        agent.close(alloc, connections, mover)
    }

    /// The same with these connections too, which nobody came to.
    fn and_unused(self, unused: Vec<Connection<K>>) -> Result<Self, AllocError>
        requires { All (λ c. IsUnused K.table F.RETURNS K.opening c.session.seat) unused.items }
        ensures { IfOk result (λ all. length all.connections.items ≡ length self.connections.items + length unused.items) }
    {
        let Ended {
            mover,
            mut connections,
        } = self;
        let mut others = unused;
        connections.append(&mut others)?;
        Ok(Ended { mover, connections })
    }
}

/// Of a mover that comes back from its thread: its loop began with all objects here, and ended with what the mover is.
#[derive(Drop)]
struct RanOnce<F: FarStore, K: TableName> {
    of: PhantomData<(F, K)>,
}

impl<F: FarStore, K: TableName> Promise<Mover<F, K>> for RanOnce<F, K> {
    ghost use Rattle.std.specs.Prelude.{◌≡◌, true};
    ghost use Rattle.workers.specs.TableNames.Passage.{Ran};
    ghost use Rattle.ship_service.specs.Opening.{first_mover_view};

    ghost kept_by = { λ promise served. K.passed (Ran (first_mover_view F.RETURNS K.opening) served.view) ≡ true };
}

/// Of a connection that comes back from its thread: it had one client.
#[derive(Drop)]
struct ServedOne<F: FarStore, K: TableName> {
    of: PhantomData<(F, K)>,
}

impl<F: FarStore, K: TableName> Promise<Connection<K>> for ServedOne<F, K> {
    ghost use Rattle.ship_service.specs.Conversed.{HadOneClient};

    ghost kept_by = { λ promise connection. HadOneClient K.table F.RETURNS K.opening K.passed connection.session.seat };
}

/// The thread of a connection.
type Conversation<F, K> = PromisedHandle<Connection<K>, ServedOne<F, K>>;

/// Lets workers and mover go on until it is told that the service ends. It passes moves on to a journal.
#[derive(Drop)]
struct UntilEnd<'a, J: Journal<ServiceEvent>> {
    ended: AtomicBool,
    journal: &'a J,
}

impl<'a, J: Journal<ServiceEvent>> UntilEnd<'a, J> {
    fn new(journal: &'a J) -> Self {
        UntilEnd {
            ended: AtomicBool::new(false),
            journal,
        }
    }
}

impl<'a, J: Journal<ServiceEvent>> Gate for UntilEnd<'a, J> {
    const IS_TOLD: bool = false;

    fn before(&self, _worker: usize, _machine: usize) {}

    fn after(&self, _worker: usize, _machine: usize) {}

    fn moved(&self, request: Request, moved: Moved) {
        self.journal.note(ServiceEvent::Moved(request, moved));
    }

    fn event(&self, event: MoverEvent) {
        self.journal.note(ServiceEvent::Mover(event));
    }

    fn go_on(&self) -> bool {
        !self.ended.load(Ordering::SeqCst)
    }
}

/// What all threads of a service share.
#[derive(Drop)]
struct Tools<'a, R: Wait, F: FarStore, K: TableName, J: Journal<ServiceEvent>> {
    rt: &'a R,
    gate: &'a UntilEnd<'a, J>,
    agent: &'a Agent<F, K>,
    upkeep: Upkeep,
}

impl<'a, R: Wait, F: FarStore, K: TableName, J: Journal<ServiceEvent>> Tools<'a, R, F, K, J> {
    /// From now on workers and mover end, also those that sleep, and a move that waits for the far store of this stream is cut off.
    fn end(&self, far: &Option<TcpStream>) {
        self.gate.ended.store(true, Ordering::SeqCst);
        self.agent.pool().wake_all();
        if let Some(stream) = far {
            let _ = stream.shutdown(Shutdown::Both);
        }
    }
}

/// Where clients come from, and the connections that serve them, one each.
#[derive(Drop)]
struct Front<K: TableName> {
    alloc: Global,
    door: Door,
    connections: Vec<Connection<K>>,
    // the stream of the far store, if it has one
    far: Option<TcpStream>,
}

/// Answers all that the client of a number says. What goes wrong on its stream ends its connection alone.
fn serve_client<R: Wait, F: FarStore, K: TableName, J: Journal<ServiceEvent>>(
    tools: &Tools<R, F, K, J>,
    client: u64,
    unused: Connection<K>,
    stream: TcpStream,
) -> Connection<K>
    requires { IsUnused K.table F.RETURNS K.opening unused.session.seat }
    ensures { HadOneClient K.table F.RETURNS K.opening K.passed result.session.seat }
{
    tools.gate.journal.note(ServiceEvent::Came(client));
    let mut connection = unused;
    let mut reader = &stream;
    let mut writer = &stream;
    let outcome = serve(
        tools.rt,
        &mut reader,
        &mut writer,
        tools.agent,
        &mut connection,
    );
    let _ = stream.shutdown(Shutdown::Both);
    tools.gate.journal.note(ServiceEvent::Went(client, outcome));
    connection
}

/// Ends the connections of these streams, for this fault.
fn given_up<K: TableName>(
    streams: &[TcpStream],
    fault: ThreadFault,
) -> Result<Vec<Connection<K>>, ThreadFault>
    ensures { result ≡ Err fault }
{
    for stream in streams {
        let _ = stream.shutdown(Shutdown::Both);
    }
    Err(fault)
}

/// The next connection of those that are left.
fn next_unused<F: FarStore, K: TableName>(
    left: &mut IntoIter<Connection<K>>,
) -> Option<Connection<K>>
    requires { All (λ c. IsUnused K.table F.RETURNS K.opening c.session.seat) (into_iter_items left.old) }
    ensures some { IfSome result (λ next. IsUnused K.table F.RETURNS K.opening next.session.seat
        × All (λ c. IsUnused K.table F.RETURNS K.opening c.session.seat) (into_iter_items left.new)
        × (length (into_iter_items left.old) ≡ length (into_iter_items left.new) + 1)) }
    ensures none { IfNone result (length (into_iter_items left.old) ≡ 0) }
{
    left.next()
}

/// The stream of the next client, of which another handle is added to these.
fn next_client<R: Wait>(
    rt: &R,
    door: &Door,
    streams: &mut Vec<TcpStream>,
) -> Result<TcpStream, ThreadFault> {
    let Ok((stream, shown)) = accept(rt, door) else {
        return Err(ThreadFault::Net);
    };
    match streams.push(shown) {
        Ok(()) => Ok(stream),
        Err(_) => Err(ThreadFault::Memory),
    }
}

/// Adds a conversation to these, if its thread could be made.
fn note<F: FarStore, K: TableName, C: Drop>(
    conversations: &mut Vec<Conversation<F, K>>,
    begun: Result<Conversation<F, K>, SpawnError<C>>,
) -> Result<(), AllocError>
    ensures { OnOk result (length conversations.new.items ≡ length conversations.old.items + 1) }
{
    conversations.push(begun?)?;
    Ok(())
}

/// The connections of these threads, once these have ended.
fn joined<F: FarStore, K: TableName, R: Threads>(
    rt: &R,
    alloc: Global,
    conversations: Vec<Conversation<F, K>>,
) -> Result<Vec<Connection<K>>, AllocError>
    ensures all { IfOk result (λ ended. length ended.items ≡ length conversations.items) }
    ensures clients { IfOk result (λ ended. All (λ c. HadOneClient K.table F.RETURNS K.opening K.passed c.session.seat) ended.items) }
{
    let mut ended = Vec::new(alloc);
    for conversation in conversations {
        ended.push(conversation.join(rt))?;
    }
    Ok(ended)
}

/// Accepts one client for each of these connections, each served on a thread of its own, and waits for the ends of all, which give the
/// connections back. The listener is closed with the last of them, so that a client too many is refused at once. Where one can't be
/// accepted, those that are there are cut off.
fn serve_clients<
    F: FarStore + Send + Sync,
    K: TableName + Send + Sync,
    R: Threads + Wait + Sync,
    J: Journal<ServiceEvent> + Sync,
>(
    tools: &Tools<R, F, K, J>,
    alloc: Global,
    door: Door,
    connections: Vec<Connection<K>>,
) -> Result<Vec<Connection<K>>, ThreadFault>
where
    F::Parcel: Send,
    requires { All (λ c. IsUnused K.table F.RETURNS K.opening c.session.seat) connections.items }
    ensures all { IfOk result (λ ended. length ended.items ≡ length connections.items) }
    ensures clients { IfOk result (λ ended. All (λ c. HadOneClient K.table F.RETURNS K.opening K.passed c.session.seat) ended.items) }
{
    thread::scope(
        thread::scope_env(),
        tools.rt,
        |scope| -> Result<Vec<Connection<K>>, ThreadFault>
            requires send { IsSend K.row × IsSync R.row × IsSync J.row }
            requires unused { All (λ c. IsUnused K.table F.RETURNS K.opening c.session.seat) connections.items }
            ensures all { IfOk result (λ ended. length ended.items ≡ length connections.items) }
            ensures clients { IfOk result (λ ended. All (λ c. HadOneClient K.table F.RETURNS K.opening K.passed c.session.seat) ended.items) }
        {
            let count = connections.len();
            let mut conversations = Vec::with_capacity(alloc, count)?;
            let mut streams = Vec::new(alloc);
            let mut client: u64 = 0;
            let mut left = connections.into_iter();
            'clients: while let Some(connection) = next_unused::<F, K>(&mut left) {
                let stream = match next_client(tools.rt, &door, &mut streams) {
                    Ok(stream) => stream,
                    Err(fault) => return given_up(&streams, fault),
                };
                client = client.wrapping_add(1);
                let promise: ServedOne<F, K> = ServedOne { of: PhantomData };
                let begun = scope.spawn_with(
                    promise,
                    move || -> Connection<K>
                        requires { IsUnused K.table F.RETURNS K.opening connection.session.seat }
                        ensures { HadOneClient K.table F.RETURNS K.opening K.passed result.session.seat }
                    { serve_client(tools, client, connection, stream) },
                );
                if note(&mut conversations, begun).is_err() {
                    return given_up(&streams, ThreadFault::Memory);
                }
            }
            drop(door);
            match joined(tools.rt, alloc, conversations) {
                Ok(ended) => Ok(ended),
                Err(_) => given_up(&streams, ThreadFault::Memory),
            }
        },
    )
}

fn step_machines<R: Wait, F: FarStore, K: TableName, J: Journal<ServiceEvent>>(
    tools: &Tools<R, F, K, J>,
    worker: usize,
) {
    work(tools.rt, tools.gate, tools.agent.pool(), worker);
}

fn move_objects<R: Wait, F: FarStore, K: TableName, J: Journal<ServiceEvent>>(
    tools: &Tools<R, F, K, J>,
    first: Mover<F, K>,
) -> Mover<F, K>
    requires { first.view ≡ first_mover_view F.RETURNS K.opening }
    ensures { K.passed (Ran (first_mover_view F.RETURNS K.opening) result.view) ≡ true }
{
    let mut served = first;
    mover(
        tools.rt,
        tools.gate,
        tools.agent.pool(),
        &mut served,
        tools.upkeep,
    );
    served
}

/// Serves clients beside so many workers, which end with the last connection, as the mover does, and gives the connections back.
fn serve_beside_workers<
    F: FarStore + Send + Sync,
    K: TableName + Send + Sync,
    R: Threads + Wait + Sync,
    J: Journal<ServiceEvent> + Sync,
>(
    tools: &Tools<R, F, K, J>,
    front: Front<K>,
    workers: usize,
) -> Result<Vec<Connection<K>>, ThreadFault>
where
    F::Parcel: Send,
    requires { All (λ c. IsUnused K.table F.RETURNS K.opening c.session.seat) front.connections.items }
    ensures all { IfOk result (λ ended. length ended.items ≡ length front.connections.items) }
    ensures clients { IfOk result (λ ended. All (λ c. HadOneClient K.table F.RETURNS K.opening K.passed c.session.seat) ended.items) }
{
    let Front {
        alloc,
        door,
        connections,
        far,
    } = front;
    thread::scope(
        thread::scope_env(),
        tools.rt,
        |scope| -> Result<Vec<Connection<K>>, ThreadFault>
            requires send { IsSend F.row × IsSend K.row × IsSend F.Parcel.row × IsSync R.row × IsSync J.row }
            requires unused { All (λ c. IsUnused K.table F.RETURNS K.opening c.session.seat) connections.items }
            ensures all { IfOk result (λ ended. length ended.items ≡ length connections.items) }
            ensures clients { IfOk result (λ ended. All (λ c. HadOneClient K.table F.RETURNS K.opening K.passed c.session.seat) ended.items) }
        {
            for worker in 0..workers {
                if scope.spawn(move || step_machines(tools, worker)).is_err() {
                    tools.end(&far);
                    return Err(ThreadFault::Memory);
                }
            }
            let outcome = serve_clients(tools, alloc, door, connections);
            tools.end(&far);
            outcome
        },
    )
}

/// Serves clients beside the mover and so many workers, and gives the mover and the connections back.
fn serve_beside_mover<
    F: FarStore + Drop + Send + Sync,
    K: TableName + Send + Sync,
    R: Threads + Wait + Sync,
    J: Journal<ServiceEvent> + Sync,
>(
    tools: &Tools<R, F, K, J>,
    front: Front<K>,
    first: Mover<F, K>,
    workers: usize,
) -> Result<Ended<F, K>, ThreadFault>
where
    F::Parcel: Send,
    requires first { first.view ≡ first_mover_view F.RETURNS K.opening }
    requires unused { All (λ c. IsUnused K.table F.RETURNS K.opening c.session.seat) front.connections.items }
    ensures { IfOk result (λ ended. length ended.connections.items ≡ length front.connections.items) }
{
    thread::scope(
        thread::scope_env(),
        tools.rt,
        |scope| -> Result<Ended<F, K>, ThreadFault>
            requires send { IsSend F.row × IsSend K.row × IsSend F.Parcel.row × IsSync R.row × IsSync J.row }
            requires first { first.view ≡ first_mover_view F.RETURNS K.opening }
            requires unused { All (λ c. IsUnused K.table F.RETURNS K.opening c.session.seat) front.connections.items }
            ensures { IfOk result (λ ended. length ended.connections.items ≡ length front.connections.items) }
        {
            let promise: RanOnce<F, K> = RanOnce { of: PhantomData };
            let Ok(moving) = scope.spawn_with(promise, move || move_objects(tools, first)) else {
                return Err(ThreadFault::Memory);
            };
            let outcome = serve_beside_workers(tools, front, workers);
            let mover = moving.join(tools.rt);
            Ok(Ended {
                mover,
                connections: outcome?,
            })
        },
    )
}

/// The first so many of these connections, and the others.
fn parted<F: FarStore, K: TableName>(
    connections: Vec<Connection<K>>,
    count: usize,
) -> Result<(Vec<Connection<K>>, Vec<Connection<K>>), AllocError>
    requires { All (λ c. IsUnused K.table F.RETURNS K.opening c.session.seat) connections.items }
    ensures first { IfOk result (λ parts. All (λ c. IsUnused K.table F.RETURNS K.opening c.session.seat) parts.0.items) }
    ensures others { IfOk result (λ parts. All (λ c. IsUnused K.table F.RETURNS K.opening c.session.seat) parts.1.items) }
    ensures all { IfOk result (λ parts. length parts.0.items + length parts.1.items ≡ length connections.items) }
{
    let mut first = connections;
    let most = count.min(first.len());
    let others = first.split_off(most)?;
    Ok((first, others))
}

/// Serves as many clients as are planned, one after another as they come and each on a thread of its own, beside workers and
/// mover, until all have ended. Where a client can't be accepted or a thread can't be made, those that are there are cut off. A move
/// that still waits for the far store then is cut off by `far`, which is its stream, if it has one.
/// The journal is told of clients and moves. All threads have ended then, so the agent can be closed with what they leave.
/// Out of memory is an error, after which those that are there are cut off.
pub fn serve_all<
    F: FarStore + Drop + Send + Sync,
    K: TableName + Send + Sync,
    R: Threads + Wait + Sync,
    J: Journal<ServiceEvent> + Sync,
>(
    rt: &R,
    alloc: Global,
    agent: &Agent<F, K>,
    connections: Vec<Connection<K>>,
    first: Mover<F, K>,
    door: Door,
    far: Option<TcpStream>,
    plan: Plan,
    journal: &J,
) -> Result<Ended<F, K>, ThreadFault>
where
    F::Parcel: Send,
    requires first { first.view ≡ first_mover_view F.RETURNS K.opening }
    requires unused { All (λ c. IsUnused K.table F.RETURNS K.opening c.session.seat) connections.items }
    ensures { IfOk result (λ ended. length ended.connections.items ≡ length connections.items) }
{
    let gate = UntilEnd::new(journal);
    let tools = Tools {
        rt,
        gate: &gate,
        agent,
        upkeep: plan.upkeep,
    };
    let (connections, unused) = parted::<F, K>(connections, plan.connections)?;
    let front = Front {
        alloc,
        door,
        connections,
        far,
    };
    let ended = serve_beside_mover(&tools, front, first, plan.workers)?;
    Ok(ended.and_unused(unused)?)
}
