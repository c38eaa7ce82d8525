//! Seats: what an actor and the mover hold.
ghost use Rattle.std.specs.Prelude.{◌≡◌, true, ℕ, ◌≤◌, ◌<◌, max, length, map, vec_capacity};
ghost use Rattle.std.proofs.Props.{props};
ghost use Rattle.shared_objects.specs.History.{top};
ghost use Rattle.shared_objects.specs.Phases.{phase_of, Makes};
ghost use Rattle.shared_objects.specs.Resting.{Rests, AllBelow};
ghost use Rattle.shared_objects.specs.Rule.{times, place_of, is_moving, total};
ghost use Rattle.shared_objects.specs.declared.view.Whereabouts.TheVariants.{Here};

use crate::body::Body;
use crate::view::View;
use scopes::Window;

pub type Seat = atomic_table::Seat<Body, View>;

/// An actor's seat, with the window of the objects that it has open, and the stamp up to which it has seen.
#[derive(Drop)]
pub struct ActorSeat {
    pub(crate) seat: Seat,
    pub(crate) window: Window,
    pub(crate) stamp: u64,
    pub ghost rests: { Rests seat.me },
    pub ghost opens: { seat.me.0.scopes ≡ window },
    pub ghost near: { AllBelow (length seat.me.0.opening) window } by { Prim.hlevel props },
    pub ghost stamped: { top 0 seat.me.0.entries ≤ stamp },
}

impl ActorSeat {
    /// The stamp up to which the seat has seen: at least that of its last entry.
    pub fn stamp(&self) -> u64
        ensures { result ≡ self.now.stamp }
    {
        self.stamp
    }

    /// What is seen up to this stamp stands before each later entry.
    pub fn learn(&mut self, stamp: u64)
        ensures stamp { self.new.stamp ≡ max self.old.stamp stamp }
        ensures seat { self.new.seat ≡ self.old.seat }
        ensures window { self.new.window ≡ self.old.window }
    {
        self.stamp = self.stamp.max(stamp);
    }
}

/// Where an object is for the mover.
#[derive(Clone, Copy, Drop, Debug, PartialEq, Eq)]
pub enum Phase {
    /// It is here.
    In,
    /// It is on its way to the far store, or back.
    Moving,
    /// The far store has it.
    Far,
}

/// The mover's seat, the first of a table. The slots of the objects that are on their way are with it, in this order.
#[derive(Drop)]
pub struct MoverSeat {
    pub(crate) seat: Seat,
    // by number
    pub(crate) phases: Vec<Phase>,
    pub(crate) order: Vec<usize>,
    pub ghost makes: { Makes seat.me.0 },
    pub ghost phased: { phases.items ≡ map phase_of seat.me.0.out },
    pub ghost wide: { length seat.me.0.out ≡ length seat.me.0.opening },
    pub ghost ordered: { order.items ≡ map (λ p. p.0) seat.me.1 },
    pub ghost held: { (n : ℕ) → is_moving (place_of seat.me.0 n) ≡ 1 → 0 < times n order.items } by { Prim.hlevel props },
    pub ghost counted: { length order.items ≡ total is_moving seat.me.0.out },
    pub ghost room: { length seat.me.0.opening ≤ vec_capacity order },
}

impl MoverSeat {
    /// How many numbers there are, of which 0 is no object's.
    pub fn numbers(&self) -> usize
        ensures { result ≡ length self.now.seat.me.0.opening }
    {
        self.phases.len()
    }

    /// Where the object of that number is.
    pub fn phase(&self, number: u32) -> Phase
        ensures { result ≡ phase_of (place_of self.now.seat.me.0 number) }
    {
        let n = number as usize;
        if n < self.phases.len() {
            self.phases[n]
        } else {
            Phase::In
        }
    }

    /// Whether the object of that number is here.
    #[tactic(auto, using(crate::proofs::Slots::is_here_place))]
    pub(crate) fn is_here(&self, number: u32) -> bool
        ensures here { result ≡ true → place_of self.now.seat.me.0 number ≡ Here }
    {
        matches!(self.phase(number), Phase::In)
    }
}
