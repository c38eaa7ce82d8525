//! Workers and the mover, on threads of their own.
ghost use denote.Param.Send.{IsSend, IsSync};
ghost use Rattle.std.specs.Prelude.{◌≡◌, true, length};
ghost use Rattle.workers.specs.TableNames.Passage.{Ran};
ghost use Rattle.workers.specs.Turning.{MovesOn};

use crate::gate::Gate;
use crate::job::{Direction, Request};
use crate::movers::{Landing, Looked, Mover};
use crate::pool::{Pool, work};
use crate::table_name::TableName;
use crate::upkeep::{MoverEvent, Upkeep};
use far_store::FarStore;
use placement::Moved;
use std::snapshot::Snapshot;
use std::sync::Wait;
use std::thread;
use std::thread::Threads;

/// For how many milliseconds the mover sleeps at most where it looks of its own accord, or has to ask for a return again.
const PAUSE_MILLIS: u64 = 10;

/// Serves the requests of a pool, as long as the gate lets it: one that doesn't fit, or finds its object held, is dropped, and a
/// return that the far store failed to give is asked for again after a while. Where there is none it sleeps until it is woken. What it
/// leaves of the mover is what requests and looks made of it, one after the other.
///
/// With `sweep` it looks, where there was no request for 10 ms, at the next object of its own accord. With a bound it sends objects away
/// before one comes back that would go past it, and where more is here: those that nobody has used since it looked at them last. An
/// object that is in a scope stays, and one that came back for a machine which hasn't used it yet. If it finds no room an object comes
/// back all the same. Then the mover looks again when a machine or a command has ended, or after 1, 2, 4 and up to 4096 turns.
pub fn mover<F: FarStore, K: TableName, R: Wait, G: Gate>(
    rt: &R,
    gate: &G,
    pool: &Pool<F, K>,
    served: &mut Mover<F, K>,
    upkeep: Upkeep,
)
    ensures chain { MovesOn F.RETURNS F.called F.faults_of (length K.opening) served.old served.new }
    ensures ran { K.passed (Ran served.old.view served.new.view) ≡ true }
{
    let began = Snapshot::of(served);
    serve_moving(rt, gate, pool, served, upkeep);
    pool.passages().ran(&began, served);
}

/// The loop of the mover.
fn serve_moving<F: FarStore, K: TableName, R: Wait, G: Gate>(
    rt: &R,
    gate: &G,
    pool: &Pool<F, K>,
    served: &mut Mover<F, K>,
    upkeep: Upkeep,
)
    ensures chain { MovesOn F.RETURNS F.called F.faults_of (length K.opening) served.old served.new }
{
    let mut turn = false;
    for _ in rt.forever() {
        let seen = pool.requests().count();
        if !gate.go_on() {
            pool.wake_all();
            return;
        }
        turn = !turn;
        match next_request(rt, pool, turn) {
            Some(request) => serve_within(rt, gate, pool, served, request, upkeep),
            None => idle(rt, gate, pool, served, seen, upkeep),
        }
    }
}

/// The next request of the queue, or a return that is due again, if there is one: this first in every other turn.
fn next_request<F: FarStore, K: TableName, R: Wait>(
    rt: &R,
    pool: &Pool<F, K>,
    turn: bool,
) -> Option<Request> {
    let due = pool.requests().due(rt);
    if turn && due.is_some() {
        return due;
    }
    match pool.requests().next(rt) {
        Some(request) => Some(request),
        None => due,
    }
}

/// Steps machines again whose object has come back.
#[derive(Drop)]
struct Wakes<'a, F: FarStore, K: TableName, R: Wait> {
    rt: &'a R,
    pool: &'a Pool<F, K>,
}

impl<'a, F: FarStore, K: TableName, R: Wait> Landing for Wakes<'a, F, K, R> {
    fn landed(&self, number: u32) {
        let direction = Direction::Return;
        let request = Request { number, direction };
        self.pool.end_request(self.rt, request, Moved::Done);
    }
}

/// Serves a request. If an object is to come back it makes room first.
fn serve_within<F: FarStore, K: TableName, R: Wait, G: Gate>(
    rt: &R,
    gate: &G,
    pool: &Pool<F, K>,
    mover: &mut Mover<F, K>,
    request: Request,
    upkeep: Upkeep,
)
    ensures chain { MovesOn F.RETURNS F.called F.faults_of (length K.opening) mover.old mover.new }
{
    gate.event(MoverEvent::Begins(request));
    make_room_for(rt, gate, pool, mover, request, upkeep);
    let moved = serve_request(rt, gate, pool, mover, request);
    tell_passed(gate, pool, mover, request.direction, moved, upkeep);
}

/// Serves a request, tells the gate, and leaves the far store alone for a while if it failed. Machines that wait for an object go on
/// as soon as it is here, before its parcel is forgotten.
fn serve_request<F: FarStore, K: TableName, R: Wait, G: Gate>(
    rt: &R,
    gate: &G,
    pool: &Pool<F, K>,
    mover: &mut Mover<F, K>,
    request: Request,
) -> Moved
    ensures chain { MovesOn F.RETURNS F.called F.faults_of (length K.opening) mover.old mover.new }
{
    let wakes = Wakes { rt, pool };
    let moved = mover.one_landing(pool, request.number, request.direction, &wakes);
    if !has_landed(request.direction, moved) {
        pool.end_request(rt, request, moved);
    }
    gate.moved(request, moved);
    tell_carried(gate, pool, request, moved);
    leave_alone(rt, pool, request.direction, moved);
    moved
}

/// Tells the gate of an object that left or came back.
fn tell_carried<F: FarStore, K: TableName, G: Gate>(
    gate: &G,
    pool: &Pool<F, K>,
    request: Request,
    moved: Moved,
) {
    if moved != Moved::Done {
        return;
    }
    if request.direction == Direction::Leave {
        pool.requests().set_awaited(request.number, false);
    }
    let bytes = pool.table().length(request.number as u64);
    gate.event(MoverEvent::Carried(request.direction, bytes));
}

/// Tells the gate if more bytes are here than are kept, after this move, if an object came back.
fn tell_passed<F: FarStore, K: TableName, G: Gate>(
    gate: &G,
    pool: &Pool<F, K>,
    mover: &Mover<F, K>,
    direction: Direction,
    moved: Moved,
    upkeep: Upkeep,
) {
    if !has_landed(direction, moved) {
        return;
    }
    if let Some(bound) = upkeep.bound() {
        let here = mover.bytes_here(pool);
        if here > bound {
            gate.event(MoverEvent::Passed(here));
        }
    }
}

/// A search for room: how many bytes may be here, how many are or will be, and at how many objects the mover still looks.
#[derive(Clone, Copy, Drop, Debug, PartialEq, Eq)]
struct Search {
    bound: u64,
    here: u64,
    looks: usize,
}

impl Search {
    fn has_room(&self) -> bool {
        self.here <= self.bound
    }

    fn is_over(&self) -> bool {
        self.has_room() || self.looks == 0
    }

    /// What came of a look at an object of so many bytes. If the far store failed the search is over.
    fn heed(&mut self, bytes: usize, looked: Looked) {
        self.looks = self.looks.saturating_sub(1);
        match looked {
            Looked::Cold(Moved::Done) => self.here = self.here.saturating_sub(bytes as u64),
            Looked::Cold(Moved::Fault(_)) => self.looks = 0,
            _ => {}
        }
    }
}

/// Whether a search is over. One for room that nobody waits for gives way to requests.
fn is_over<F: FarStore, K: TableName>(pool: &Pool<F, K>, search: &Search, coming: u64) -> bool {
    search.is_over() || coming == 0 && !pool.requests().is_empty()
}

/// Looks at the next object, which may leave to make room.
fn evict_next<F: FarStore, K: TableName, R: Wait, G: Gate>(
    rt: &R,
    gate: &G,
    pool: &Pool<F, K>,
    mover: &mut Mover<F, K>,
    search: &mut Search,
)
    ensures chain { MovesOn F.RETURNS F.called F.faults_of (length K.opening) mover.old mover.new }
{
    let looked = mover.look_past(pool);
    let number = mover.last();
    heed_look(rt, gate, pool, number, looked);
    if looked == Looked::Cold(Moved::Done) {
        gate.event(MoverEvent::Evicted(number));
    }
    search.heed(pool.table().length(number as u64), looked);
}

/// Sends objects away until so many bytes are here at most with those that come. It looks at each object twice at most, so that one that
/// was used has a second chance. If none comes it ends where there is a request. Says whether there is room.
fn make_room<F: FarStore, K: TableName, R: Wait, G: Gate>(
    rt: &R,
    gate: &G,
    pool: &Pool<F, K>,
    mover: &mut Mover<F, K>,
    bound: u64,
    coming: u64,
) -> bool
    ensures chain { MovesOn F.RETURNS F.called F.faults_of (length K.opening) mover.old mover.new }
{
    let mut search = Search {
        bound,
        here: mover.bytes_here(pool).saturating_add(coming),
        looks: mover.numbers().saturating_mul(2),
    };
    for _ in rt.forever() {
        if is_over(pool, &search, coming) {
            return search.has_room();
        }
        evict_next(rt, gate, pool, mover, &mut search);
    }
    false
}

/// Makes room for an object that is to come back.
fn make_room_for<F: FarStore, K: TableName, R: Wait, G: Gate>(
    rt: &R,
    gate: &G,
    pool: &Pool<F, K>,
    mover: &mut Mover<F, K>,
    request: Request,
    upkeep: Upkeep,
)
    ensures chain { MovesOn F.RETURNS F.called F.faults_of (length K.opening) mover.old mover.new }
{
    let Some(bound) = upkeep.bound() else {
        return;
    };
    let coming = mover.bytes_coming(pool, request);
    if coming == 0 {
        return;
    }
    make_room(rt, gate, pool, mover, bound, coming);
}

/// Sends objects away if more is here than is kept. If it finds no room it is woken when scopes may have ended.
fn stay_within<F: FarStore, K: TableName, R: Wait, G: Gate>(
    rt: &R,
    gate: &G,
    pool: &Pool<F, K>,
    mover: &mut Mover<F, K>,
    upkeep: Upkeep,
)
    ensures chain { MovesOn F.RETURNS F.called F.faults_of (length K.opening) mover.old mover.new }
{
    let Some(bound) = upkeep.bound() else {
        return;
    };
    if mover.bytes_here(pool) <= bound {
        pool.requests().shortage().end();
        return;
    }
    pool.requests().shortage().begin();
    if make_room(rt, gate, pool, mover, bound, 0) {
        pool.requests().shortage().end();
    }
}

/// Where there is no request: makes room if more is here than is kept, and rests.
fn idle<F: FarStore, K: TableName, R: Wait, G: Gate>(
    rt: &R,
    gate: &G,
    pool: &Pool<F, K>,
    mover: &mut Mover<F, K>,
    seen: u64,
    upkeep: Upkeep,
)
    ensures chain { MovesOn F.RETURNS F.called F.faults_of (length K.opening) mover.old mover.new }
{
    stay_within(rt, gate, pool, mover, upkeep);
    rest(rt, gate, pool, mover, seen, upkeep.sweep);
}

/// Whether this is a return of which the machines that waited were notified.
fn has_landed(direction: Direction, moved: Moved) -> bool {
    direction == Direction::Return && moved == Moved::Done
}

/// Leaves the far store alone for a while, if it failed.
fn leave_alone<F: FarStore, K: TableName, R: Wait>(
    rt: &R,
    pool: &Pool<F, K>,
    direction: Direction,
    moved: Moved,
) {
    let millis = pool.requests().pause_after(rt, direction, moved);
    if millis > 0 {
        pool.rest(rt, millis);
        pool.requests().pass(rt, millis);
    }
}

/// Where there is no request: sleeps, and looks at the next object, with `sweep`, if there is none still.
fn rest<F: FarStore, K: TableName, R: Wait, G: Gate>(
    rt: &R,
    gate: &G,
    pool: &Pool<F, K>,
    mover: &mut Mover<F, K>,
    seen: u64,
    sweep: bool,
)
    ensures chain { MovesOn F.RETURNS F.called F.faults_of (length K.opening) mover.old mover.new }
{
    sleep(rt, pool, seen, sweep);
    if !sweep || !pool.requests().is_empty() {
        return;
    }
    let looked = mover.look(pool);
    heed_look(rt, gate, pool, mover.last(), looked);
}

/// Sleeps until the mover is woken, or until it looks of its own accord, or for as long as is left until a return is due again.
fn sleep<F: FarStore, K: TableName, R: Wait>(rt: &R, pool: &Pool<F, K>, seen: u64, sweep: bool) {
    match pool.requests().due_in(rt) {
        Some(left) => {
            let millis = left.min(PAUSE_MILLIS);
            pool.rest(rt, millis);
            pool.requests().pass(rt, millis);
        }
        None if sweep => pool.requests().sleep_for(rt, seen, PAUSE_MILLIS),
        None => pool.requests().sleep(rt, seen),
    }
}

/// After a look at the object of this number: tells the gate of one that left, and of a far store that failed, which is left alone for
/// a while.
fn heed_look<F: FarStore, K: TableName, R: Wait, G: Gate>(
    rt: &R,
    gate: &G,
    pool: &Pool<F, K>,
    number: u32,
    looked: Looked,
) {
    let Looked::Cold(moved) = looked else {
        return;
    };
    let direction = Direction::Leave;
    let request = Request { number, direction };
    if matches!(moved, Moved::Done | Moved::Fault(_)) {
        gate.moved(request, moved);
    }
    tell_carried(gate, pool, request, moved);
    leave_alone(rt, pool, direction, moved);
}

/// What the mover's thread takes, as one reference.
#[derive(Drop)]
struct Tools<'a, R: Wait, G: Gate, F: FarStore, K: TableName> {
    rt: &'a R,
    gate: &'a G,
    pool: &'a Pool<F, K>,
    upkeep: Upkeep,
}

fn serve_moves<R: Wait, G: Gate, F: FarStore, K: TableName>(
    tools: &Tools<R, G, F, K>,
    served: &mut Mover<F, K>,
) {
    mover(tools.rt, tools.gate, tools.pool, served, tools.upkeep);
}

/// Runs so many workers until the gate ends them, and tells how many threads were made.
pub fn run_workers<
    F: FarStore + Send + Sync,
    K: TableName + Send + Sync,
    R: Threads + Wait + Sync,
    G: Gate + Sync,
>(rt: &R, gate: &G, pool: &Pool<F, K>, workers: usize) -> usize
where
    F::Parcel: Send,
{
    thread::scope(thread::scope_env(), rt, |scope| {
        let mut made: usize = 0;
        for worker in 0..workers {
            if scope.spawn(move || work(rt, gate, pool, worker)).is_ok() {
                made = made.wrapping_add(1);
            }
        }
        made
    })
}

fn run_tools<
    F: FarStore + Send + Sync,
    K: TableName + Send + Sync,
    R: Threads + Wait + Sync,
    G: Gate + Sync,
>(tools: &Tools<R, G, F, K>, served: &mut Mover<F, K>, workers: usize) -> usize
where
    F::Parcel: Send,
{
    let served = &mut *served;
    thread::scope(
        thread::scope_env(),
        tools.rt,
        |scope| -> usize
            requires { IsSend F.row × IsSend K.row × IsSend F.Parcel.row × IsSync R.row × IsSync G.row }
        {
            let moves = scope.spawn(move || serve_moves(tools, served)).is_ok();
            let made = run_workers(tools.rt, tools.gate, tools.pool, workers);
            if moves { made.wrapping_add(1) } else { made }
        },
    )
}

/// Runs so many workers and the mover until the gate ends them, and tells how many threads were made.
pub fn run_all<
    F: FarStore + Send + Sync,
    K: TableName + Send + Sync,
    R: Threads + Wait + Sync,
    G: Gate + Sync,
>(
    rt: &R,
    gate: &G,
    pool: &Pool<F, K>,
    served: &mut Mover<F, K>,
    workers: usize,
    upkeep: Upkeep,
) -> usize
where
    F::Parcel: Send,
{
    let tools = Tools {
        rt,
        gate,
        pool,
        upkeep,
    };
    run_tools(&tools, served, workers)
}
