//! The table, the cells of its machines, and the queues.
ghost use Rattle.std.specs.Prelude.{◌≡◌, ◌≤◌, ◌+◌, ◌-◌, Some, length, drop, slice_get, All, IfOk, IfSome, IfNone, true, false, if◌then◌else◌};
ghost use Rattle.std.specs.Vec.Iter.{into_iter_items};
ghost use Rattle.std.specs.Sync.Mutex.{mutex_guard_value};
ghost use Rattle.shared_objects.specs.Kinds.{dealer};
ghost use Rattle.shared_objects.specs.Opened.{AreFresh};
ghost use Rattle.shared_objects.specs.Tables.{IsActorOf, table_returns};
ghost use Rattle.workers.specs.Cells.{IsTableOf, opened_as};
ghost use Rattle.workers.specs.Closing.{WereCells};
ghost use Rattle.workers.specs.TableNames.{each_passed};
ghost use Rattle.workers.specs.TableNames.Passage.{Leaves, Lends};
ghost use Rattle.workers.specs.Pools.{IsNewSeat, AreSeats, machines_of, machine_of, QueuesCell, TurnsCell, turn_limit};

use crate::cell::{Locked, MachineCell, Occupied, Ticket};
use crate::closing::{PoolParts, parts_of};
use crate::gate::Gate;
use crate::job::{Direction, Job, Request, put_into};
use crate::passages::Passages;
use crate::patience::give_time;
use crate::requests::Requests;
use crate::table_name::TableName;
use crossbeam_queue::ArrayQueue;
use debugger::{Debuggee, StepReply, Way};
use far_store::FarStore;
use placement::Moved;
use shared_objects::{ActorSeat, Shared, SharedTable};
use std::alloc::{AllocError, Global};
use std::sync::atomic::{AtomicU64, Ordering};
use std::sync::{Mutex, MutexGuard, Wait};
use std::time::Duration;
use std::vec::IntoIter;

/// How many machines may be queued, and how many requests by command: this project's choice.
pub const QUEUE_LIMIT: usize = 64;

/// How many instructions a worker does in one turn of a machine at most: this project's choice.
pub const TURN_LIMIT: u32 = 64;

/// One table, the cells of its machines, the queue of machines to be run, and that of objects to be moved.
///
/// No thread sleeps through what it has to do. Who sleeps has read the count on which it sleeps first, and then looked at its queue
/// and asked its gate; who gives it something to do does so first, and raises the count then. A machine is put among those that wait
/// before the worker looks whether the return of its object is still asked for; the mover ends the return first, and looks for
/// machines that wait for it then. Those that wait are under one lock, so none of them is out of sight meanwhile.
#[derive(Drop)]
pub struct Pool<F: FarStore, K: TableName> {
    shared: Shared<F>,
    // that of machine 1 first
    cells: Vec<MachineCell<K>>,
    // cells that are known to have machines, so that nobody waits for their locks to look for an empty one
    occupied: Mutex<Occupied<K>>,
    runs: ArrayQueue<Job>,
    // machines that wait for an object which is away
    waits: Mutex<ArrayQueue<Job>>,
    requests: Requests,
    // how often a worker that sleeps was to be woken
    queued: AtomicU64,
    // how often all threads were to be woken
    called: AtomicU64,
    // how many workers run whose gate is notified of no instruction
    working: AtomicU64,
    passages: Passages<K>,
    pub ghost of: { IsTableOf K.table K.opening shared.table },
}

/// How a turn of a machine ended.
#[derive(Clone, Copy, Drop, Debug, PartialEq, Eq)]
enum Ending {
    /// As many instructions were done as a turn has.
    Full,
    /// It waits for the object of this number, which is away.
    Waits(u32),
    /// It is paused or stopped, or there is none.
    Over,
}

/// Puts the number of the cell's machine into the queue, unless it is there.
fn queue_machine<K: TableName, R: Wait>(rt: &R, runs: &ArrayQueue<Job>, locked: &mut Locked<K>)
    ensures { QueuesCell locked.old locked.new }
{
    let Some(ticket) = locked.enqueue() else {
        return;
    };
    if let Err(Job::Run(ticket)) = runs.push(rt, Job::Run(ticket)) {
        locked.dequeue(ticket);
    }
}

/// Puts the number of the cell's machine among those that wait for an object, unless it is queued.
fn queue_waiting<K: TableName, R: Wait>(
    rt: &R,
    waits: &Mutex<ArrayQueue<Job>>,
    locked: &mut Locked<K>,
    object: u32,
)
    ensures { QueuesCell locked.old locked.new }
{
    let Some(ticket) = locked.enqueue() else {
        return;
    };
    if let Err(Job::Wait(ticket, _)) = waits.lock(rt).push(rt, Job::Wait(ticket, object)) {
        locked.dequeue(ticket);
    }
}

/// How often in a row a machine has found another's turn, after a run of so many instructions that ended with that.
fn found_busy(before: u32, ran: u64) -> u32 {
    if ran == 0 {
        before.saturating_add(1)
    } else {
        0
    }
}

/// The ticket goes back to its cell, if it is this one.
fn take_back<K: TableName>(locked: &mut Locked<K>, ticket: Ticket) -> bool
    ensures { locked.new ≡ (if result then record locked.old { queued = false } else locked.old) }
{
    let own = locked.number() == ticket.number();
    if own {
        locked.dequeue(ticket);
    }
    own
}

/// The cell of a number, with its machine, if there is one.
fn cell_of<K: TableName>(number: usize, seat: ActorSeat, machine: Option<Debuggee>) -> Locked<K>
    requires seat { IsNewSeat K.table K.opening number seat }
    requires machine { opened_as K.starts number ≡ machine_of machine }
{
    match machine {
        Some(debuggee) => Locked::opened(number, seat, debuggee),
        None => Locked::empty(number, seat),
    }
}

/// The next seat of those that are left, where so many went before.
fn next_seat<K: TableName>(_before: usize, left: &mut IntoIter<ActorSeat>) -> Option<ActorSeat>
    requires { AreSeats K.table K.opening (_before + 1) (into_iter_items left.old) }
    ensures some { IfSome result (λ seat. IsNewSeat K.table K.opening (_before + 1) seat
        × AreSeats K.table K.opening (_before + 1 + 1) (into_iter_items left.new)
        × (length (into_iter_items left.old) ≡ length (into_iter_items left.new) + 1)) }
    ensures none { IfNone result (length (into_iter_items left.old) ≡ 0) }
{
    left.next()
}

/// The next machine of those that are left, where so many went before, if there is one.
fn next_machine<K: TableName>(_before: usize, left: &mut IntoIter<Debuggee>) -> Option<Debuggee>
    requires { machines_of (into_iter_items left.old) ≡ drop _before K.starts }
    ensures machine { opened_as K.starts (_before + 1) ≡ machine_of result }
    ensures rest { machines_of (into_iter_items left.new) ≡ drop (_before + 1) K.starts }
{
    left.next()
}

/// A cell for each seat. The first ones have these machines, of which those that go on are queued.
fn cells_of<K: TableName, R: Wait>(
    rt: &R,
    alloc: Global,
    runs: &ArrayQueue<Job>,
    seats: Vec<ActorSeat>,
    machines: Vec<Debuggee>,
) -> Result<Vec<MachineCell<K>>, AllocError>
    requires seats { AreSeats K.table K.opening 1 seats.items }
    requires machines { K.starts ≡ machines_of machines.items }
    ensures { IfOk result (λ cells. length cells.items ≡ length seats.items) }
{
    let mut cells = Vec::new(alloc);
    let mut seats_left = seats.into_iter();
    let mut machines_left = machines.into_iter();
    'cells: while let Some(seat) = next_seat::<K>(cells.len(), &mut seats_left) {
        let machine = next_machine::<K>(cells.len(), &mut machines_left);
        let mut locked: Locked<K> = cell_of(cells.len() + 1, seat, machine);
        if locked.is_going() {
            queue_machine(rt, runs, &mut locked);
        }
        cells.push(MachineCell::new(locked))?;
    }
    Ok(cells)
}

/// The first cells, as long as they have machines.
fn occupied_of<K: TableName, R: Wait>(rt: &R, cells: &[MachineCell<K>]) -> Occupied<K>
    requires { K.passed ≡ each_passed }
{
    let mut occupied = Occupied::none();
    for cell in cells {
        let locked = cell.lock(rt);
        if !occupied.is_next(&locked) {
            return occupied;
        }
        occupied = occupied.and(&locked);
    }
    occupied
}

impl<F: FarStore, K: TableName> Pool<F, K> {
    /// A pool over a table that was opened, with a cell for each of these seats. The first ones have these machines, in order,
    /// as K names them; those that are neither paused nor stopped are queued. On a refusal all is dropped.
    pub fn new<R: Wait>(
        rt: &R,
        alloc: Global,
        shared: Shared<F>,
        seats: Vec<ActorSeat>,
        machines: Vec<Debuggee>,
    ) -> Result<Self, AllocError>
        requires table { IsTableOf K.table K.opening shared.table }
        requires seats { AreFresh (dealer F.RETURNS K.opening) seats.items × All (IsActorOf shared.table) seats.items }
        requires machines { K.starts ≡ machines_of machines.items }
        requires room { length machines.items ≤ length seats.items }
        requires lent { K.passed ≡ each_passed }
        ensures { IfOk result (λ pool. (pool.shared ≡ shared) × (length pool.cells.items ≡ length seats.items)) }
    {
        let runs = ArrayQueue::new(alloc, QUEUE_LIMIT)?;
        let waits = ArrayQueue::new(alloc, QUEUE_LIMIT)?;
        let requests = Requests::new(alloc)?;
        let cells = cells_of(rt, alloc, &runs, seats, machines)?;
        let occupied = Mutex::new(occupied_of(rt, &cells));
        Ok(Pool {
            shared,
            cells,
            occupied,
            runs,
            waits: Mutex::new(waits),
            requests,
            queued: AtomicU64::new(0),
            called: AtomicU64::new(0),
            working: AtomicU64::new(0),
            passages: Passages::new(),
        })
    }

    /// The table.
    pub fn table(&self) -> &SharedTable
        ensures same { result.now ≡ self.now.shared.table }
        ensures of { IsTableOf K.table K.opening result.now }
        ensures returns { table_returns result.now ≡ F.RETURNS }
    {
        self.shared.table()
    }

    /// The cell of the machine of a number, if there are so many.
    pub fn cell(&self, number: usize) -> Option<&MachineCell<K>>
        ensures none { IfNone result ((1 ≤ number) × (number ≤ length self.now.cells.items) → ⊥) }
        ensures some { IfSome result (λ cell. (1 ≤ number) × (slice_get self.now.cells.items (number - 1) ≡ Some cell.now)) }
    {
        if number == 0 {
            return None;
        }
        self.cells.get(number - 1)
    }

    /// The lock of the cell of a number, if there are so many, once nobody else has it, with what it lends.
    pub fn lend<'a, R: Wait>(&'a self, rt: &R, number: usize) -> Option<MutexGuard<'a, Locked<K>>>
        ensures none { IfNone result ((1 ≤ number) × (number ≤ length self.now.cells.items) → ⊥) }
        ensures exists { IfSome result (λ guard. (1 ≤ number) × (number ≤ length self.now.cells.items)) }
        ensures lends { IfSome result (λ guard. K.passed (Lends (mutex_guard_value guard)) ≡ true) }
    {
        if number == 0 || number > self.cells.len() {
            return None;
        }
        let locked = self.cells[number - 1].lock(rt);
        self.passages.lent(&locked);
        Some(locked)
    }

    /// Gives the lock of a cell back, which is left with what it lends now.
    pub fn give_back(&self, locked: MutexGuard<'_, Locked<K>>)
        ensures { K.passed (Leaves (mutex_guard_value locked.entry)) ≡ true }
    {
        self.passages.left(&locked);
    }

    /// Of the first so many cells those that are known to have machines.
    pub fn occupied<R: Wait>(&self, rt: &R, most: usize) -> Occupied<K>
        ensures { result ≤ most }
    {
        self.occupied.lock(rt).up_to(most)
    }

    /// From now on these cells are known to have machines, and so is the next one, if it has one.
    pub fn know_occupied<R: Wait>(&self, rt: &R, occupied: &Occupied<K>, next: &Locked<K>) {
        let first = occupied.up_to(occupied.count());
        let found = if first.is_next(next) {
            first.and(next)
        } else {
            first
        };
        let mut known = self.occupied.lock(rt);
        if known.count() < found.count() {
            *known = found;
        }
    }

    /// Puts the number of the cell's machine into the queue of those to be run, unless it is there. Where the queue is full it isn't
    /// put, and isn't marked as queued. A worker is woken for it once the cell's lock is given back.
    pub fn put_in_queue<R: Wait>(&self, rt: &R, locked: &mut Locked<K>)
        ensures { QueuesCell locked.old locked.new }
    {
        queue_machine(rt, &self.runs, locked);
    }

    /// Puts the number of the cell's machine into the queue of those to be run, unless it is there, and wakes a worker that
    /// sleeps. Where the queue is full it isn't put, and isn't marked as queued.
    pub fn queue<R: Wait>(&self, rt: &R, locked: &mut Locked<K>)
        ensures { QueuesCell locked.old locked.new }
    {
        self.put_in_queue(rt, locked);
        self.wake_worker();
    }

    /// Whether workers run whose gate is notified of no instruction. Others may then do turns as they do.
    pub fn is_worked(&self) -> bool {
        self.working.load(Ordering::SeqCst) != 0
    }

    /// Wakes a worker that sleeps. Whoever puts a machine into the queue calls it after that.
    pub fn wake_worker(&self) {
        self.queued.fetch_add(1, Ordering::SeqCst);
        self.queued.wake_one();
    }

    /// Puts the machines that wait for an object back into the queue, to be stepped again, and wakes a worker for each.
    fn resume_waiting<R: Wait>(&self, rt: &R, object: u32) {
        let waits = self.waits.lock(rt);
        for _ in 0..waits.len(rt) {
            match waits.pop(rt) {
                Some(Job::Wait(ticket, awaited)) if awaited == object => {
                    self.requests.set_awaited(object, true);
                    // there are fewer machines than places
                    put_into(rt, &self.runs, Job::Run(ticket));
                    self.wake_worker();
                }
                Some(job) => put_into(rt, &waits, job),
                None => return,
            }
        }
    }

    /// The ticket of the next machine in the queue, if there is one.
    fn next_run<R: Wait>(&self, rt: &R) -> Option<Ticket> {
        self.runs.pop(rt)?.into_ticket()
    }

    /// Asks the mover to move an object, and says whether there was room for that. A move that is asked for already isn't asked for
    /// twice, and needs no room.
    pub fn request<R: Wait>(&self, rt: &R, number: u32, direction: Direction) -> bool {
        let request = Request { number, direction };
        if self.requests.is_full(rt) && !self.requests.is_open(request) {
            return false;
        }
        self.requests.ask(rt, request);
        true
    }

    /// Asks the mover to bring back an object for which somebody waits, unless it is asked to do so already. There is room for that.
    pub fn call<R: Wait>(&self, rt: &R, number: u32) {
        let direction = Direction::Return;
        self.requests.ask(rt, Request { number, direction });
    }

    /// A command has ended, and with it its scopes. Whoever does commands at a seat of the table calls it after each.
    pub fn command_ended(&self) {
        self.requests.scopes_ended();
    }

    /// What says that something passed.
    pub(crate) fn passages(&self) -> &Passages<K> {
        &self.passages
    }

    /// What the mover is asked for.
    pub(crate) fn requests(&self) -> &Requests {
        &self.requests
    }

    /// Sleeps for so many milliseconds, or until all threads are woken.
    pub(crate) fn rest<R: Wait>(&self, rt: &R, millis: u64) {
        let seen = self.called.load(Ordering::SeqCst);
        self.called.park_timeout(rt, (seen % (1 << 32)) as u32, Duration::from_millis(millis));
    }

    /// Wakes all workers and the mover, which ask their gate then. Whoever changes what a gate says calls it after that.
    pub fn wake_all(&self) {
        self.queued.fetch_add(1, Ordering::SeqCst);
        self.queued.wake_all();
        self.called.fetch_add(1, Ordering::SeqCst);
        self.called.wake_all();
        self.requests.wake();
    }

    /// A move that was asked for has ended in this way. Machines that wait for a return are stepped again, unless it failed and is
    /// still asked for.
    pub(crate) fn end_request<R: Wait>(&self, rt: &R, request: Request, moved: Moved) {
        let ended = self.requests.end(rt, request, moved);
        if ended && request.direction == Direction::Return {
            self.resume_waiting(rt, request.number);
        }
    }

    /// After a step of a turn: nothing where the turn goes on, else how it ends. One that found another's turn on an object goes
    /// on, since the object is here.
    fn end_after<R: Wait>(
        &self,
        rt: &R,
        locked: &mut Locked<K>,
        reply: Option<StepReply>,
    ) -> Option<Ending>
        ensures { locked.new ≡ locked.old }
    {
        match reply {
            Some(StepReply::Ran(_)) => None,
            Some(StepReply::Waiting(object)) => {
                if !locked.finds_away(self.table(), object) {
                    return None;
                }
                self.call(rt, object);
                Some(Ending::Waits(object))
            }
            _ => Some(Ending::Over),
        }
    }

    /// One step of a turn: nothing where the turn goes on, else how it ends.
    fn step_once<R: Wait>(&self, rt: &R, cell: &MachineCell<K>) -> Option<Ending> {
        let mut locked = cell.lock(rt);
        let reply = locked.step(self.table(), Way::Step);
        self.end_after(rt, &mut locked, reply)
    }

    /// At most so many instructions of the cell's machine, of each of which the gate is notified: how the turn ended.
    fn run_gated<R: Wait, G: Gate>(
        &self,
        rt: &R,
        gate: &G,
        worker: usize,
        number: usize,
        cell: &MachineCell<K>,
    ) -> Ending {
        for _ in 0..TURN_LIMIT {
            gate.before(worker, number);
            let end = self.step_once(rt, cell);
            gate.after(worker, number);
            if let Some(ending) = end {
                return ending;
            }
        }
        Ending::Full
    }

    /// The same with no gate to notify, with the lock of the cell, which comes back. From where nothing is set for the machine a
    /// turn is done in one go. Before a step that found another's turn is tried again, whoever wants the lock has it, or some time passes.
    fn run_ungated<'a, R: Wait>(
        &self,
        rt: &R,
        cell: &'a MachineCell<K>,
        held: MutexGuard<'a, Locked<K>>,
    ) -> (MutexGuard<'a, Locked<K>>, Ending) {
        let mut locked = held;
        let mut left = TURN_LIMIT as u64;
        let mut busy: u32 = 0;
        for _ in 0..TURN_LIMIT {
            let Some(run) = locked.run(self.table(), left) else {
                return (locked, Ending::Over);
            };
            if run.end.is_none() {
                return (locked, Ending::Full);
            }
            if let Some(ending) = self.end_after(rt, &mut locked, run.end) {
                return (locked, ending);
            }
            left = left.saturating_sub(run.ran);
            busy = found_busy(busy, run.ran);
            if cell.is_wanted() {
                locked = cell.give_way(rt, locked);
            } else {
                give_time(rt, busy);
            }
        }
        (locked, Ending::Full)
    }

    /// After a turn: puts the machine into the queue of those to be run, or among those that wait, or nowhere.
    fn requeue<R: Wait>(&self, rt: &R, locked: &mut Locked<K>, ending: Ending)
        ensures { QueuesCell locked.old locked.new }
    {
        match ending {
            // no worker is woken for it, since this one looks at the queue next
            Ending::Full => queue_machine(rt, &self.runs, locked),
            Ending::Waits(object) => {
                queue_waiting(rt, &self.waits, locked, object);
                let awaited = Request {
                    number: object,
                    direction: Direction::Return,
                };
                if !self.requests.is_open(awaited) {
                    self.resume_waiting(rt, object);
                }
            }
            Ending::Over => self.requests.scopes_ended(),
        }
    }

    /// One turn of the machine whose cell's lock this is, by somebody who isn't a worker and has no ticket: at most 64 instructions. If
    /// it waits for an object that is away it is put among those that wait. Says whether it goes on, for whoever steps it next.
    pub fn turn_lent<R: Wait>(&self, rt: &R, locked: &mut Locked<K>) -> bool
        ensures { TurnsCell turn_limit locked.old locked.new }
    {
        let Some(run) = locked.run(self.table(), TURN_LIMIT as u64) else {
            return false;
        };
        self.requests.turn_ended();
        if run.end.is_none() {
            return true;
        }
        let Some(ending) = self.end_after(rt, locked, run.end) else {
            give_time(rt, 1);
            return true;
        };
        self.requeue(rt, locked, ending);
        false
    }

    /// One turn of a machine whose ticket was taken from the queue, with a gate to notify of each instruction. Says whether the gate
    /// lets the worker go on.
    fn turn<R: Wait, G: Gate>(
        &self,
        rt: &R,
        gate: &G,
        worker: usize,
        cell: &MachineCell<K>,
        ticket: Ticket,
    ) -> bool {
        let number = ticket.number();
        if take_back(&mut cell.lock(rt), ticket) {
            let ending = self.run_gated(rt, gate, worker, number, cell);
            self.requests.turn_ended();
            self.requeue(rt, &mut cell.lock(rt), ending);
        }
        gate.go_on()
    }

    /// Turns of a machine whose ticket was taken from the queue, with no gate to notify: one, and others as long as the queue is
    /// empty, from which this worker would take the machine next. Between two of them the lock of the cell is another's, who wants
    /// it. Says whether the gate lets the worker go on.
    fn turns<R: Wait, G: Gate>(
        &self,
        rt: &R,
        gate: &G,
        cell: &MachineCell<K>,
        ticket: Ticket,
    ) -> bool {
        let mut locked = cell.lock_for_turns(rt);
        if !take_back(&mut locked, ticket) {
            return gate.go_on();
        }
        for _ in rt.forever() {
            let (held, ending) = self.run_ungated(rt, cell, locked);
            locked = held;
            self.requests.turn_ended();
            let on = gate.go_on();
            if on && ending == Ending::Full && self.runs.is_empty() {
                if cell.is_wanted() {
                    locked = cell.give_way(rt, locked);
                }
                continue;
            }
            self.requeue(rt, &mut locked, ending);
            return on;
        }
        true
    }

    /// The turn of the next machine in the queue, or its turns. The ticket is back before its first instruction. Where no machine is
    /// queued, the worker sleeps until it is woken, if the gate lets it. Says whether the worker goes on.
    fn take_turns<R: Wait, G: Gate>(&self, rt: &R, gate: &G, worker: usize) -> bool {
        let seen = self.queued.load(Ordering::SeqCst);
        let Some(ticket) = self.next_run(rt) else {
            let on = gate.go_on();
            if on {
                self.queued.park(rt, (seen % (1 << 32)) as u32);
            }
            return on;
        };
        let Some(cell) = self.cell(ticket.number()) else {
            return gate.go_on();
        };
        if G::IS_TOLD {
            self.turn(rt, gate, worker, cell, ticket)
        } else {
            self.turns(rt, gate, cell, ticket)
        }
    }

    /// A worker comes.
    fn begin_work<G: Gate>(&self) {
        if !G::IS_TOLD {
            self.working.fetch_add(1, Ordering::SeqCst);
        }
    }

    /// It goes.
    fn end_work<G: Gate>(&self) {
        if !G::IS_TOLD {
            self.working.fetch_sub(1, Ordering::SeqCst);
        }
    }

    /// Takes the pool apart. Requests and machines that are queued are dropped. Where memory runs out all is dropped.
    pub fn into_parts(self, alloc: Global) -> Result<PoolParts<F>, AllocError>
        ensures { IfOk result (λ parts. (parts.shared ≡ self.shared) × IsTableOf K.table K.opening parts.shared.table
            × WereCells K.table K.opening K.starts parts.seats.items parts.cells.items × (length parts.seats.items ≡ length self.cells.items)) }
    {
        let Pool {
            shared,
            cells,
            occupied: _,
            runs: _,
            waits: _,
            requests: _,
            queued: _,
            called: _,
            working: _,
            passages: _,
        } = self;
        let (seats, cells) = parts_of(alloc, cells)?;
        Ok(PoolParts {
            shared,
            seats,
            cells,
        })
    }
}

/// Steps machines of the queue, each until it waits, pauses, stops or has done 64 instructions, as long as the gate lets it. Where no
/// other machine is queued it goes on with the same, and where none is it sleeps until it is woken. Wakes all others at its end.
pub fn work<F: FarStore, K: TableName, R: Wait, G: Gate>(
    rt: &R,
    gate: &G,
    pool: &Pool<F, K>,
    worker: usize,
) {
    pool.begin_work::<G>();
    if gate.go_on() {
        for _ in rt.forever() {
            if !pool.take_turns(rt, gate, worker) {
                break;
            }
        }
    }
    pool.end_work::<G>();
    pool.wake_all();
}
