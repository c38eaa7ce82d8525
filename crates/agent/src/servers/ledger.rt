//! What a service has moved, counted for its last line.

use crate::servers::notes::{Note, Notes, ending_of};
use ship_service::{Journal, ServiceEvent, Tally};
use std::fmt::{self, Display, Formatter};
use std::io::Eprint;
use std::sync::atomic::{AtomicBool, AtomicU64, Ordering};
use std::time::{Clock, Instant};
use workers::{Direction, Moved, MoverEvent, Request};

/// What a service has moved.
#[derive(Clone, Copy, Drop, Debug, PartialEq, Eq)]
pub(crate) struct Moves {
    /// How many bytes left, and came back.
    pub left: u64,
    pub back: u64,
    /// How many objects came back, and how many microseconds the mover took for them.
    pub faults: u64,
    pub micros: u64,
    /// How many objects left to make room.
    pub evictions: u64,
    /// How often the far store failed.
    pub failures: u64,
    /// How many objects came back for which there was no room.
    pub passes: u64,
}

impl Display for Moves {
    fn fmt<W: fmt::Write>(&self, f: &mut Formatter<W>) -> fmt::Result {
        let Moves {
            left,
            back,
            faults,
            micros,
            evictions,
            failures,
            passes,
        } = *self;
        let (left_s, back_s) = (ending_of(left), ending_of(back));
        let (fault_s, eviction_s, failure_s) = (
            ending_of(faults),
            ending_of(evictions),
            ending_of(failures),
        );
        let pass_s = if passes == 1 { "" } else { "es" };
        write!(
            f,
            "{left} byte{left_s} left, {back} byte{back_s} returned, "
        )?;
        write!(f, "{faults} fault{fault_s} in {} ms, ", micros / 1000)?;
        write!(f, "{evictions} eviction{eviction_s}, ")?;
        write!(f, "{failures} failure{failure_s}, ")?;
        write!(f, "{passes} pass{pass_s} of the bound")
    }
}

/// Writes down what happens to a service, and counts what it moves. The mover alone tells of moves.
#[derive(Drop)]
pub(crate) struct Ledger<'a, R> {
    notes: &'a Notes<R>,
    /// When the service began, if its clock can be read.
    start: Option<Instant>,
    /// When the last request began, in microseconds since then.
    began: AtomicU64,
    left: AtomicU64,
    back: AtomicU64,
    faults: AtomicU64,
    micros: AtomicU64,
    evictions: AtomicU64,
    failures: AtomicU64,
    passes: AtomicU64,
    is_closed: AtomicBool,
    /// When it has closed: objects and bytes here, and objects and bytes far.
    here: [AtomicU64; 2],
    far: [AtomicU64; 2],
}

/// None yet.
fn none() -> [AtomicU64; 2] {
    [AtomicU64::new(0), AtomicU64::new(0)]
}

/// Keeps how many objects there are, and their bytes.
fn keep(kept: &[AtomicU64; 2], tally: Tally) {
    kept[0].store(tally.objects, Ordering::SeqCst);
    kept[1].store(tally.bytes, Ordering::SeqCst);
}

fn kept(kept: &[AtomicU64; 2]) -> Tally {
    Tally {
        objects: kept[0].load(Ordering::SeqCst),
        bytes: kept[1].load(Ordering::SeqCst),
    }
}

/// So many more.
fn add(count: &AtomicU64, more: u64) {
    let before = count.load(Ordering::SeqCst);
    count.store(before.saturating_add(more), Ordering::SeqCst);
}

impl<'a, R: Clock + Eprint> Ledger<'a, R> {
    /// Nothing has moved yet.
    pub fn new(notes: &'a Notes<R>) -> Self {
        Ledger {
            notes,
            start: match notes.clock() {
                Some(rt) => Instant::now(rt).ok(),
                None => None,
            },
            began: AtomicU64::new(0),
            left: AtomicU64::new(0),
            back: AtomicU64::new(0),
            faults: AtomicU64::new(0),
            micros: AtomicU64::new(0),
            evictions: AtomicU64::new(0),
            failures: AtomicU64::new(0),
            passes: AtomicU64::new(0),
            is_closed: AtomicBool::new(false),
            here: none(),
            far: none(),
        }
    }

    /// Writes the last lines, when the far store is closed too, if the service has closed. What becomes of objects that are far is said
    /// also without `-v`.
    pub fn end(&self, has_far_store: bool) {
        if !self.is_closed.load(Ordering::SeqCst) {
            return;
        }
        let (here, far) = (kept(&self.here), kept(&self.far));
        self.notes.write(Note::Kept(here, far, self.moves()));
        if far.objects > 0 {
            self.notes.say(if has_far_store {
                Note::Dropped(far)
            } else {
                Note::Lost(far)
            });
        }
    }

    /// How many microseconds the service has run; 0 if nothing is written down.
    fn now(&self) -> u64 {
        let (Some(start), Some(rt)) = (self.start, self.notes.clock()) else {
            return 0;
        };
        match start.elapsed(rt) {
            Ok(elapsed) => elapsed
                .as_secs()
                .saturating_mul(1_000_000)
                .saturating_add(u64::from(elapsed.subsec_micros())),
            Err(_) => 0,
        }
    }

    /// An object has come back.
    fn count_fault(&self) {
        let taken = self.now().saturating_sub(self.began.load(Ordering::SeqCst));
        add(&self.faults, 1);
        add(&self.micros, taken);
    }

    /// What has moved up to now.
    fn moves(&self) -> Moves {
        Moves {
            left: self.left.load(Ordering::SeqCst),
            back: self.back.load(Ordering::SeqCst),
            faults: self.faults.load(Ordering::SeqCst),
            micros: self.micros.load(Ordering::SeqCst),
            evictions: self.evictions.load(Ordering::SeqCst),
            failures: self.failures.load(Ordering::SeqCst),
            passes: self.passes.load(Ordering::SeqCst),
        }
    }

    /// This became of an object that was asked to move.
    fn note_move(&self, request: Request, moved: Moved) {
        if let Moved::Fault(_) = moved {
            add(&self.failures, 1);
        }
        if request.direction == Direction::Return && moved == Moved::Done {
            self.count_fault();
        }
        let object = request.number;
        self.notes.write(match (request.direction, moved) {
            (Direction::Leave, Moved::Done) => Note::Left(object),
            (Direction::Leave, Moved::Scoped) => Note::Held(object),
            (Direction::Leave, Moved::Fault(fault)) => Note::Stayed(object, fault),
            (Direction::Return, Moved::Done) => Note::Returned(object),
            (Direction::Return, Moved::Fault(fault)) => Note::StayedFar(object, fault),
            _ => return,
        });
    }

    /// Counts what the mover tells of its work.
    fn count(&self, event: MoverEvent) {
        match event {
            MoverEvent::Begins(_) => self.began.store(self.now(), Ordering::SeqCst),
            MoverEvent::Carried(Direction::Leave, bytes) => add(&self.left, bytes as u64),
            MoverEvent::Carried(Direction::Return, bytes) => add(&self.back, bytes as u64),
            MoverEvent::Evicted(_) => add(&self.evictions, 1),
            MoverEvent::Passed(_) => add(&self.passes, 1),
        }
    }

    /// All clients have ended: so many objects are here, and so many are far.
    fn close(&self, here: Tally, far: Tally) {
        keep(&self.here, here);
        keep(&self.far, far);
        self.is_closed.store(true, Ordering::SeqCst);
    }
}

impl<'a, R: Clock + Eprint> Journal<ServiceEvent> for Ledger<'a, R> {
    fn note(&self, event: ServiceEvent) {
        match event {
            ServiceEvent::Came(client) => self.notes.write(Note::Came(client)),
            ServiceEvent::Went(client, Ok(())) => self.notes.write(Note::Went(client)),
            ServiceEvent::Went(client, Err(fault)) => {
                self.notes.write(Note::Unheard(client, fault));
            }
            ServiceEvent::Moved(request, moved) => self.note_move(request, moved),
            ServiceEvent::Mover(event) => self.count(event),
            ServiceEvent::Closed { here, far } => self.close(here, far),
        }
    }
}
