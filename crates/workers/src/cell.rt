//! What lies under a cell's lock.
ghost use Rattle.std.specs.Prelude.{◌≡◌, ◌+◌, [], None, Some, is_some, not, ◌&&◌, IfSome, IfNone, max, min, true, false, if◌then◌else◌};
ghost use Rattle.debugger.specs.Debuggees.{DebugsMachine, debuggee_start};
ghost use Rattle.debugger.specs.Showing.{Shows};
ghost use Rattle.machine.specs.MachineState.{granted_start};
ghost use Rattle.shared_objects.specs.Tables.{table_returns};
ghost use Rattle.workers.specs.TableNames.{each_passed, AreLent};
ghost use Rattle.workers.specs.Cells.{IsSeatOf, IsTableOf, seat_state, opened_as, IsStamped, FitsCell, StepsCell, RunsCell, DebugsCell, ShowsCell, SeesAway};
ghost use Rattle.workers.specs.Cells.{may_queue, is_going};

use crate::running::Running;
use crate::table_name::TableName;
use crossbeam_utils::CachePadded;
use debugger::{
    DebugCommand, Debugged, Debuggee, MachineRun, ShowCommand, ShowReply, Start, StepReply, Way,
};
use loader::Program;
use pointer_word::is_away;
use shared_objects::{ActorSeat, SharedTable};
use std::alloc::Global;
use std::marker::{Model, PhantomData};
use std::sync::atomic::{AtomicBool, AtomicU64, Ordering};
use std::sync::{Mutex, MutexGuard, Wait};
use std::time::Duration;

/// A machine, or none, with its seat, under a lock. Whoever keeps the lock for more than one instruction can see whether another
/// wants it. Neighbouring cells share no cache line.
#[derive(Drop)]
pub struct MachineCell<K: TableName> {
    locked: CachePadded<Mutex<Locked<K>>>,
    // how many want the lock and haven't got it yet
    wanting: AtomicU64,
    // whether a worker gave the lock up and sleeps until one of them has it
    gave_way: AtomicBool,
}

/// How many milliseconds a worker that gave the lock up sleeps at most.
const GIVEN_MILLIS: u64 = 10;

impl<K: TableName> MachineCell<K> {
    /// What the lock is to lend, which nobody wants yet.
    pub fn new(locked: Locked<K>) -> Self {
        MachineCell {
            locked: CachePadded::new(Mutex::new(locked)),
            wanting: AtomicU64::new(0),
            gave_way: AtomicBool::new(false),
        }
    }

    /// The lock, once nobody else has it. The worker that gave it up for this wakes.
    pub fn lock<R: Wait>(&self, rt: &R) -> MutexGuard<'_, Locked<K>> {
        self.wanting.fetch_add(1, Ordering::SeqCst);
        let guard = self.locked.lock(rt);
        self.wanting.fetch_sub(1, Ordering::SeqCst);
        if self.gave_way.load(Ordering::SeqCst) {
            self.wanting.wake_all();
        }
        guard
    }

    /// The lock for the worker that has the machine's ticket, which gives it up where it is wanted.
    pub(crate) fn lock_for_turns<R: Wait>(&self, rt: &R) -> MutexGuard<'_, Locked<K>> {
        self.locked.lock(rt)
    }

    /// Gives the lock to somebody who wants it, and takes it again after that. A lock that is only given up goes back to the worker that
    /// runs, before whoever sleeps has woken: so the worker sleeps until the lock was taken.
    pub(crate) fn give_way<'a, R: Wait>(
        &'a self,
        rt: &R,
        held: MutexGuard<'a, Locked<K>>,
    ) -> MutexGuard<'a, Locked<K>> {
        let wanting = self.wanting.load(Ordering::SeqCst);
        self.gave_way.store(true, Ordering::SeqCst);
        drop(held);
        if wanting != 0 {
            self.wanting.park_timeout(
                rt,
                (wanting % (1 << 32)) as u32,
                Duration::from_millis(GIVEN_MILLIS),
            );
        }
        self.gave_way.store(false, Ordering::SeqCst);
        self.locked.lock(rt)
    }

    /// Whether somebody wants the lock and hasn't got it yet.
    #[inline]
    pub(crate) fn is_wanted(&self) -> bool {
        self.wanting.load(Ordering::SeqCst) != 0
    }

    /// What the lock lent, which nobody has any more.
    pub(crate) fn into_inner(self) -> Locked<K> {
        let MachineCell {
            locked,
            wanting: _,
            gave_way: _,
        } = self;
        locked.into_inner().into_inner()
    }
}

/// The right to put a machine's number into the queue, once. Its cell gives it where the number isn't there, and it can't be
/// copied.
#[derive(Drop, Debug)]
pub struct Ticket {
    number: usize,
}

impl Ticket {
    /// The number of the machine.
    pub fn number(&self) -> usize
        ensures { result ≡ self.now.number }
    {
        self.number
    }
}

/// How many cells of the table that K names, from that of number 1 on, were each lent with a machine in it. It counts on by a cell
/// that is lent, and by nothing else. A machine that has come stays, so what was known of the first cells is known later too.
#[derive(Drop)]
pub struct Occupied<K: TableName> {
    count: usize,
    of: PhantomData<K>,
}

impl<K: TableName> Model for Occupied<K> {
    ghost use Rattle.std.specs.Prelude.{◌≡◌, ℕ};
    ghost use Rattle.workers.specs.TableNames.{each_passed};

    ghost Value = { ℕ };

    ghost view = { λ t. t.count };

    ghost invariant = { λ t. K.passed ≡ each_passed };
}

impl<K: TableName> Occupied<K> {
    /// None yet.
    pub fn none() -> Self
        requires { K.passed ≡ each_passed }
        ensures { result ≡ 0 }
    {
        Occupied {
            count: 0,
            of: PhantomData,
        }
    }

    /// How many they are.
    pub fn count(&self) -> usize
        ensures { result ≡ self.now }
    {
        self.count
    }

    /// Each of them was lent with a machine in it.
    pub fn fact(&self)
        ensures { AreLent K.passed self.now }
    {
        let _count = self.count;
    }

    /// The first so many of them, or all, where they are fewer.
    pub fn up_to(&self, most: usize) -> Self
        ensures { result ≡ min self.now most }
    {
        Occupied {
            count: self.count.min(most),
            of: PhantomData,
        }
    }

    /// Whether this is the next cell, with a machine.
    pub fn is_next(&self, locked: &Locked<K>) -> bool
        ensures yes { result ≡ true → (locked.now.number ≡ self.now + 1) × (is_some locked.now.running ≡ true) }
        ensures all { (locked.now.number ≡ self.now + 1) → (is_some locked.now.running ≡ true) → result ≡ true }
    {
        locked.has_machine() && locked.number() > self.count && locked.number() - self.count == 1
    }

    /// One more: the next cell, which has a machine.
    pub fn and(self, locked: &Locked<K>) -> Self
        requires next { locked.now.number ≡ self + 1 }
        requires machine { is_some locked.now.running ≡ true }
        ensures { result ≡ self + 1 }
    {
        let _count = self.count;
        Occupied {
            count: locked.number(),
            of: PhantomData,
        }
    }
}

/// What a cell's lock lends: a seat of the table, and a machine or none. The machine is the replay of the seat's entries from
/// its start: the state that the table was opened with, or that in which it was shipped.
#[derive(Drop)]
pub struct Locked<K: TableName> {
    number: usize,
    seat: ActorSeat,
    running: Option<Running>,
    queued: bool,
    of: PhantomData<K>,
}

impl<K: TableName> Model for Locked<K> {
    ghost use Rattle.std.specs.Prelude.{◌≡◌};
    ghost use Rattle.workers.specs.Cells.{CellState, FitsCell, IsSeatOf, seat_state};

    ghost Value = { CellState };

    ghost view = { λ c. record { number = c.number; seat = seat_state c.seat; running = c.running; queued = c.queued } };

    ghost invariant = { λ c. IsSeatOf K.table K.opening c.seat × (c.seat.seat.me.0.actor ≡ c.number)
        × FitsCell K.opening K.starts c.number (seat_state c.seat) c.running };
}

impl<K: TableName> Locked<K> {
    /// The cell of this number, whose machine has not come yet.
    pub fn empty(number: usize, seat: ActorSeat) -> Self
        requires of { IsSeatOf K.table K.opening seat × (seat.seat.me.0.actor ≡ number) }
        requires fresh { seat.seat.me.0.entries ≡ [] }
        requires none { opened_as K.starts number ≡ None }
        ensures { result ≡ record { number = number; seat = seat_state seat; running = None; queued = false } }
    {
        Locked {
            number,
            seat,
            running: None,
            queued: false,
            of: PhantomData,
        }
    }

    /// The cell of this number, with the machine that was there when the table was opened.
    pub fn opened(number: usize, seat: ActorSeat, debuggee: Debuggee) -> Self
        requires of { IsSeatOf K.table K.opening seat × (seat.seat.me.0.actor ≡ number) }
        requires fresh { seat.seat.me.0.entries ≡ [] }
        requires named { opened_as K.starts number ≡ Some debuggee.machine }
        ensures { result ≡ record { number = number; seat = seat_state seat; running = Some (record { debuggee = debuggee; shipped = None }); queued = false } }
    {
        Locked {
            number,
            seat,
            running: Some(Running::opened(debuggee)),
            queued: false,
            of: PhantomData,
        }
    }

    /// The empty cell gets its machine, at the start of this program.
    pub fn ship(&mut self, program: Program, start: Start)
        requires { self.old.running ≡ None }
        ensures { self.new ≡ record self.old {
          running =
              Some (record {
                debuggee = debuggee_start self.old.number program start;
                shipped = Some (granted_start self.old.number program start.fuel start.arguments start.grants);
              });
        } }
    {
        self.running = Some(Running::shipped(program, self.number, start));
    }

    /// What the lock keeps: the seat is of the table and of this number, and has seen up to its last entry, and the machine is
    /// the replay of its entries.
    pub fn fact(&self)
        ensures number { self.now.seat.view.actor ≡ self.now.number }
        ensures opening { self.now.seat.view.opening ≡ K.opening }
        ensures stamped { IsStamped self.now.seat }
        ensures fits { FitsCell K.opening K.starts self.now.number self.now.seat self.now.running }
    {
        let _number = self.number;
    }

    /// The number of the machine, and of the seat's actor.
    pub fn number(&self) -> usize
        ensures { result ≡ self.now.number }
    {
        self.number
    }

    /// Whether the machine has come.
    pub fn has_machine(&self) -> bool
        ensures { result ≡ is_some self.now.running }
    {
        self.running.is_some()
    }

    /// Whether there is a machine that is neither paused nor stopped.
    pub fn is_going(&self) -> bool
        ensures { result ≡ is_going self.now.running }
    {
        match &self.running {
            Some(running) => running.is_going(),
            None => false,
        }
    }

    /// The stamp up to which the seat has seen.
    pub fn stamp(&self) -> u64
        ensures { result ≡ self.now.seat.stamp }
    {
        self.seat.stamp()
    }

    /// What is seen up to this stamp stands before each later entry of the machine.
    pub fn learn(&mut self, stamp: u64)
        ensures { self.new ≡ record self.old { seat = record self.old.seat { stamp = max self.old.seat.stamp stamp } } }
    {
        self.seat.learn(stamp);
    }

    /// One step of the machine over its seat, or a pause in its place, if the machine has come.
    pub fn step(&mut self, shared: &SharedTable, way: Way) -> Option<StepReply>
        requires { IsTableOf K.table K.opening shared.now }
        ensures none { IfNone result ((self.old.running ≡ None) × (self.new ≡ self.old)) }
        ensures step { IfSome result (λ reply. StepsCell way self.old reply self.new) }
    {
        let running = self.running.as_mut()?;
        Some(running.step(shared, &mut self.seat, way))
    }

    /// At most so many steps of the machine over its seat, up to the first that doesn't run, if the machine has come. From where
    /// nothing is set for it they are done in one go.
    pub fn run(&mut self, shared: &SharedTable, most: u64) -> Option<MachineRun>
        requires { IsTableOf K.table K.opening shared.now }
        ensures none { IfNone result ((self.old.running ≡ None) × (self.new ≡ self.old)) }
        ensures run { IfSome result (λ run. RunsCell most self.old run.ran run.end self.new) }
    {
        let running = self.running.as_mut()?;
        Some(running.run(shared, &mut self.seat, most))
    }

    /// Whether the object of this number is away, as a look at its word finds it. One that there isn't is not.
    pub fn finds_away(&mut self, shared: &SharedTable, object: u32) -> bool
        requires { IsTableOf K.table K.opening shared.now }
        ensures same { self.new ≡ self.old }
        ensures away { SeesAway (table_returns shared.now) K.opening self.old.seat.view object result }
    {
        if shared.length(object as u64) == 0 {
            return false;
        }
        is_away(shared.look(&mut self.seat, object))
    }

    /// What is shown of the machine, if it has come: its state, as it is.
    pub fn show(&self, alloc: Global, command: ShowCommand) -> Option<ShowReply>
        ensures none { IfNone result (self.now.running ≡ None) }
        ensures shows { IfSome result (λ reply. ShowsCell command self.now reply) }
    {
        let running = self.running.as_ref()?;
        Some(running.debuggee().show(alloc, command))
    }

    /// Does a command of the debugger, if the machine has come.
    pub fn debug(&mut self, command: DebugCommand) -> Option<Debugged>
        ensures none { IfNone result ((self.old.running ≡ None) × (self.new ≡ self.old)) }
        ensures debugs { IfSome result (λ reply. DebugsCell command self.old reply self.new) }
    {
        let running = self.running.as_mut()?;
        Some(running.debug(command))
    }

    /// Marks the machine as queued and gives its ticket, if there is a machine that isn't in the queue.
    pub fn enqueue(&mut self) -> Option<Ticket>
        ensures ticket { result ≡ (if may_queue self.old then Some (record { number = self.old.number }) else None) }
        ensures new { self.new ≡ (if may_queue self.old then record self.old { queued = true } else self.old) }
    {
        if self.queued || self.running.is_none() {
            return None;
        }
        self.queued = true;
        Some(Ticket {
            number: self.number,
        })
    }

    /// Takes the machine's ticket back: it is in the queue no more.
    pub fn dequeue(&mut self, ticket: Ticket)
        requires { ticket.number ≡ self.old.number }
        ensures { self.new ≡ record self.old { queued = false } }
    {
        drop(ticket);
        self.queued = false;
    }

    /// Number, seat and machine.
    pub fn into_parts(self) -> (usize, ActorSeat, Option<Running>)
        ensures of { IsSeatOf K.table K.opening result.1 × (result.1.seat.me.0.actor ≡ result.0) }
        ensures fits { FitsCell K.opening K.starts result.0 (seat_state result.1) result.2 }
        ensures same { (self.number ≡ result.0) × (self.seat ≡ seat_state result.1) × (self.running ≡ result.2) }
    {
        let Locked {
            number,
            seat,
            running,
            queued: _,
            of: _,
        } = self;
        (number, seat, running)
    }
}
