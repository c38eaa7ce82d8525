//! Bodies leave and come back. The slots of the objects that are on their way are with the mover's seat.
ghost use Rattle.std.specs.Prelude.{◌≡◌, ◌≢◌, ◌⊎◌, ◌+◌, ◌-◌, ◌%◌, IfSome, ℕ, ◌<◌, ◌≤◌, true, nat_eq, List, ◌∷◌, length, map, None, Some, MatchResult};
ghost use Rattle.std.specs.Prelude.{MatchOption, vec_capacity};
ghost use Rattle.memory.specs.Objects.{bytes_of};
ghost use Rattle.shared_objects.specs.Kinds.{placed, sent, called, with_cooling};
ghost use Rattle.shared_objects.specs.Leaves.{Leaves};
ghost use Rattle.shared_objects.specs.Phases.{phase_of, IsObject};
ghost use Rattle.shared_objects.specs.Rule.{times, place_of, bytes_taken};
ghost use Rattle.shared_objects.specs.Tables.{IsMoverOf};
ghost use Rattle.shared_objects.specs.declared.view.Whereabouts.TheVariants.{Here};

use crate::body::Body;
use crate::kinds::{BeginsLeave, BeginsReturn, Cools, EndsLeave, EndsReturn};
use crate::seats::{MoverSeat, Phase, Seat};
use crate::table::{SharedTable, WORDS_APART};
use pointer_word::{FARTHER, HOT, STAMP};

/// What became of a try to take a body.
#[derive(Drop, Debug)]
pub enum Leave {
    /// The body: the object is on its way.
    Taken(Vec<u8>),
    /// A scope is open on the object, its turn is held, it is out, or its word changed meanwhile.
    Held,
    /// There is no object of that number.
    NoObject,
}

/// The word of an object that begins to leave, where no scope is open and no turn held. The mark of heat goes.
fn word_leaving(word: u64) -> Option<u64>
    ensures some { IfSome result (λ next. ((word % STAMP ≡ 0) ⊎ (word % STAMP ≡ HOT)) × (next ≡ word - word % STAMP + FARTHER)) }
    ensures none { result ≡ None → (word % STAMP ≢ 0) × (word % STAMP ≢ HOT) }
{
    let low = word % STAMP;
    if low == 0 || low == HOT {
        Some(word - low + FARTHER)
    } else {
        None
    }
}

/// Turns the slots until that of the object n is the first. Only objects on their way have one here, one as a rule.
fn bring(seat: &mut Seat, order: &mut Vec<usize>, n: usize)
    requires ordered { order.old.items ≡ map (λ p. p.0) seat.old.me.1 }
    requires held { 0 < times n order.old.items }
    ensures ordered { order.new.items ≡ map (λ p. p.0) seat.new.me.1 }
    ensures first { (rest : List ℕ) × (order.new.items ≡ n ∷ rest) }
    ensures held { (m : ℕ) → times m order.new.items ≡ times m order.old.items }
    ensures same { (seat.new.table_id ≡ seat.old.table_id) × (seat.new.me.0 ≡ seat.old.me.0) }
    ensures room { (length order.new.items ≡ length order.old.items) × (vec_capacity order.new ≡ vec_capacity order.old) }
{
    while order[0] != n {
        seat.turn();
        let first = order.remove(0);
        order.push_reserved(first);
    }
}

impl SharedTable {
    /// Begin leave: the body, where the object is here with no scope open and no turn held. Whether it is hot doesn't
    /// matter, and it is not hot then.
    #[tactic(auto, using(crate::proofs::Logs::object_home))]
    pub fn begin_leave(&self, mover: &mut MoverSeat, number: u32) -> Leave
        requires mover { IsMoverOf self.now mover.old }
        ensures mover { IsMoverOf self.now mover.new }
        ensures leave { Leaves mover.old.seat.me.0 number result mover.new.seat.me.0 }
    {
        if self.length(number as u64) == 0 {
            return Leave::NoObject;
        }
        let n = number as usize;
        if !mover.is_here(number) {
            return Leave::Held;
        }
        let old = self.table.shared.peek(n * WORDS_APART);
        let Some(next) = word_leaving(old) else {
            return Leave::Held;
        };
        let found = self
            .table
            .shared
            .compare_exchange::<BeginsLeave>(&mut mover.seat, n * WORDS_APART, old, next);
        if found != old {
            return Leave::Held;
        }
        let empty = Body {
            bytes: Vec::new(self.alloc),
        };
        let Body { bytes } = self.table.shared.exchange(&mut mover.seat, n, empty);
        mover.seat.turn();
        mover.order.push_reserved(n);
        mover.phases[n] = Phase::Moving;
        Leave::Taken(bytes)
    }

    /// End leave: what is on its way is far.
    #[tactic(auto, using(crate::proofs::Logs::object_home))]
    pub fn end_leave(&self, mover: &mut MoverSeat, number: u32)
        requires mover { IsMoverOf self.now mover.old }
        requires phase { phase_of (place_of mover.old.seat.me.0 number) ≡ Phase.Moving }
        ensures mover { IsMoverOf self.now mover.new }
        ensures view { mover.new.seat.me.0 ≡ placed number (sent (place_of mover.old.seat.me.0 number)) mover.old.seat.me.0 }
    {
        let n = number as usize;
        bring(&mut mover.seat, &mut mover.order, n);
        self.table
            .shared
            .fetch_add::<EndsLeave>(&mut mover.seat, n * WORDS_APART, FARTHER);
        mover.order.remove(0);
        mover.phases[n] = Phase::Far;
    }

    /// End leave: what was to come back is far as before.
    pub fn undo_return(&self, mover: &mut MoverSeat, number: u32)
        requires mover { IsMoverOf self.now mover.old }
        requires phase { phase_of (place_of mover.old.seat.me.0 number) ≡ Phase.Moving }
        ensures mover { IsMoverOf self.now mover.new }
        ensures view { mover.new.seat.me.0 ≡ placed number (sent (place_of mover.old.seat.me.0 number)) mover.old.seat.me.0 }
    {
        self.end_leave(mover, number);
    }

    /// Begin return: what is far is on its way.
    #[tactic(auto, using(crate::proofs::Logs::object_home))]
    pub fn begin_return(&self, mover: &mut MoverSeat, number: u32)
        requires mover { IsMoverOf self.now mover.old }
        requires phase { phase_of (place_of mover.old.seat.me.0 number) ≡ Phase.Far }
        ensures mover { IsMoverOf self.now mover.new }
        ensures view { mover.new.seat.me.0 ≡ placed number (called (place_of mover.old.seat.me.0 number)) mover.old.seat.me.0 }
    {
        let n = number as usize;
        self.table
            .shared
            .fetch_sub::<BeginsReturn>(&mut mover.seat, n * WORDS_APART, FARTHER);
        mover.seat.turn();
        mover.order.push_reserved(n);
        mover.phases[n] = Phase::Moving;
    }

    /// End return.
    #[tactic(auto, using(crate::proofs::Logs::object_home))]
    fn land(&self, mover: &mut MoverSeat, n: usize, bytes: Vec<u8>)
        requires mover { IsMoverOf self.now mover.old }
        requires phase { phase_of (place_of mover.old.seat.me.0 n) ≡ Phase.Moving }
        requires long { (old : List ℕ) → bytes_taken (place_of mover.old.seat.me.0 n) ≡ Some old
            → length old ≡ length (bytes_of mover.old.seat.me.0.opening n) → length bytes.items ≡ length (bytes_of mover.old.seat.me.0.opening n) }
        requires body { mover.old.seat.me.0.returns ≡ true → bytes_taken (place_of mover.old.seat.me.0 n) ≡ Some bytes.items }
        ensures mover { IsMoverOf self.now mover.new }
        ensures view { mover.new.seat.me.0 ≡ placed n Here mover.old.seat.me.0 }
    {
        bring(&mut mover.seat, &mut mover.order, n);
        drop(
            self.table
                .shared
                .exchange(&mut mover.seat, n, Body { bytes }),
        );
        self.table
            .shared
            .fetch_sub::<EndsReturn>(&mut mover.seat, n * WORDS_APART, FARTHER);
        mover.order.remove(0);
        mover.phases[n] = Phase::In;
    }

    /// End return: the body that was taken is back, as it was.
    pub fn undo_leave(&self, mover: &mut MoverSeat, number: u32, bytes: Vec<u8>)
        requires mover { IsMoverOf self.now mover.old }
        requires phase { phase_of (place_of mover.old.seat.me.0 number) ≡ Phase.Moving }
        requires body { bytes_taken (place_of mover.old.seat.me.0 number) ≡ Some bytes.items }
        ensures mover { IsMoverOf self.now mover.new }
        ensures view { mover.new.seat.me.0 ≡ placed number Here mover.old.seat.me.0 }
    {
        let n = number as usize;
        self.land(mover, n, bytes);
    }

    /// End return: a body is back, which is what was taken where far stores give back what was put. One of another length
    /// is handed back, and nothing changes.
    pub fn end_return(
        &self,
        mover: &mut MoverSeat,
        number: u32,
        bytes: Vec<u8>,
    ) -> Result<(), Vec<u8>>
        requires mover { IsMoverOf self.now mover.old }
        requires phase { phase_of (place_of mover.old.seat.me.0 number) ≡ Phase.Moving }
        requires body { self.now.table.shared.key.returns ≡ true → bytes_taken (place_of mover.old.seat.me.0 number) ≡ Some bytes.items }
        ensures mover { IsMoverOf self.now mover.new }
        ensures view { MatchResult result
            (λ _. (length bytes.items ≡ length (bytes_of mover.old.seat.me.0.opening number)) × (mover.new.seat.me.0 ≡ placed number Here mover.old.seat.me.0))
            (λ back. (length bytes.items ≢ length (bytes_of mover.old.seat.me.0.opening number)) × (back.items ≡ bytes.items)
            × (mover.new.seat.me.0 ≡ mover.old.seat.me.0)) }
    {
        if bytes.len() != self.length(number as u64) {
            return Err(bytes);
        }
        self.land(mover, number as usize, bytes);
        Ok(())
    }

    /// Cool: whether the object was hot, if there is an object of that number. It is not hot then.
    #[tactic(auto, using(crate::proofs::Logs::object_home))]
    pub fn cool(&self, mover: &mut MoverSeat, number: u32) -> Option<bool>
        requires mover { IsMoverOf self.now mover.old }
        ensures mover { IsMoverOf self.now mover.new }
        ensures cool { MatchOption result
            ((IsObject mover.old.seat.me.0.opening number → ⊥) × (mover.new.seat.me.0 ≡ mover.old.seat.me.0))
            (λ hot. IsObject mover.old.seat.me.0.opening number × (mover.new.seat.me.0 ≡ with_cooling number hot mover.old.seat.me.0)) }
    {
        if self.length(number as u64) == 0 {
            return None;
        }
        let n = number as usize;
        let found = self
            .table
            .shared
            .fetch_and::<Cools>(&mut mover.seat, n * WORDS_APART, !HOT);
        Some(found / HOT % 2 == 1)
    }
}
