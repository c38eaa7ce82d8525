//! Accesses of actors.
ghost use Rattle.std.specs.Prelude.{◌≡◌, ℕ, ◌^◌, ◌<◌, ◌≤◌, ◌+◌, max, true, List, [], length, None, Some, MatchBool, IfSome, IfOk, IfErr, Ok, Err, IsTrue, ◌↔◌, false};
ghost use Rattle.memory.specs.Access.{answer, after, part, replaced};
ghost use Rattle.memory.specs.Access.{IsInside};
ghost use Rattle.memory.specs.declared.deeds.Deed.TheVariants.{Accesses, Reads, Writes};
ghost use Rattle.memory.specs.declared.deeds.Given.TheVariants.{Number, Bytes, Nothing};
ghost use Rattle.memory.specs.Objects.{bytes_of};
ghost use Rattle.scopes.specs.Windows.{IsWindow, holds, noted};
ghost use Rattle.shared_objects.specs.Beginnings.{Begins};
ghost use Rattle.shared_objects.specs.History.{top, entry};
ghost use Rattle.shared_objects.specs.Kinds.{turn, marked, looking, holding, recorded, worn_out, Witness};
ghost use Rattle.shared_objects.specs.Phases.{IsObject};
ghost use Rattle.shared_objects.specs.Opening.{opening_bytes};
ghost use Rattle.shared_objects.specs.Resting.{Rests, AllBelow, HoldsBody};
ghost use Rattle.shared_objects.specs.Tables.{IsActorOf, table_opening, table_returns};
ghost use Rattle.shared_objects.specs.Touches.{Touches, PutsRange, GetsRange};
ghost use Rattle.shared_objects.specs.declared.errors.GetError.{GetError};
ghost use Rattle.shared_objects.specs.declared.view.Mark.TheVariants.{Away};

use crate::errors::{Denied, GetError};
use crate::kinds::{Looks, Opened, Told};
use crate::seats::{ActorSeat, Seat};
use crate::table::{SharedTable, WORDS_APART};
use memory::{Op, Reach};
use pointer_word::STAMP_LIMIT;
use scopes::Window;
use std::marker::Brand;

/// The stamps of an access that has the turn.
#[derive(Clone, Copy, Drop)]
pub(crate) struct Stamps {
    /// The one that the turn found.
    found: u64,
    /// That of the entry.
    stamp: u64,
}

impl SharedTable {
    /// Opens the object's scope, if it is here, and closes that of the object that is pushed out of the window. Mostly it is open
    /// already, and then there is no call.
    #[inline(always)]
    fn note(&self, seat: &mut Seat, window: &mut Window, number: u32) -> bool
        requires seat { seat.old.table_id ≡ self.now.table.shared.table_id }
        requires rests { Rests seat.old.me }
        requires object { number < length self.now.lengths.items }
        requires window { (seat.old.me.0.scopes ≡ window.old) × AllBelow (length self.now.lengths.items) window.old }
        ensures id { seat.new.table_id ≡ seat.old.table_id }
        ensures me { MatchBool result
            ((seat.new.me ≡ (looking number seat.old.me.0, [])) × (window.new ≡ noted number window.old))
            ((seat.new.me ≡ (marked (Away number) seat.old.me.0, [])) × (window.new ≡ window.old)) }
        ensures window { IsWindow window.old }
    {
        if window.holds(number) {
            return true;
        }
        self.note_new(seat, window, number)
    }

    /// The same of an object whose scope isn't open.
    #[cold]
    #[inline(never)]
    fn note_new(&self, seat: &mut Seat, window: &mut Window, number: u32) -> bool
        requires seat { seat.old.table_id ≡ self.now.table.shared.table_id }
        requires rests { Rests seat.old.me }
        requires object { number < length self.now.lengths.items }
        requires window { (seat.old.me.0.scopes ≡ window.old) × AllBelow (length self.now.lengths.items) window.old }
        requires new { holds number window.old ≡ false }
        ensures id { seat.new.table_id ≡ seat.old.table_id }
        ensures me { MatchBool result
            ((seat.new.me ≡ (looking number seat.old.me.0, [])) × (window.new ≡ noted number window.old))
            ((seat.new.me ≡ (marked (Away number) seat.old.me.0, [])) × (window.new ≡ window.old)) }
    {
        if !self.open_scope(seat, number as usize) {
            self.leave_pass(seat, number as usize);
            return false;
        }
        if let Some(oldest) = window.note_new(number) {
            self.close_scope(seat, oldest as usize);
        }
        true
    }

    /// Notes the object and takes its turn. Where that was had and the stamps have run out, the turn is given up.
    #[inline(always)]
    fn begin(
        &self,
        seat: &mut Seat,
        window: &mut Window,
        last: u64,
        number: u32,
    ) -> Result<Stamps, Denied>
        requires seat { seat.old.table_id ≡ self.now.table.shared.table_id }
        requires rests { Rests seat.old.me }
        requires object { number < length self.now.lengths.items }
        requires window { (seat.old.me.0.scopes ≡ window.old) × AllBelow (length self.now.lengths.items) window.old }
        ensures id { seat.new.table_id ≡ seat.old.table_id }
        ensures begins { Begins seat.old.me.0 window.old last number result seat.new.me window.new }
    {
        if !self.note(seat, window, number) {
            return Err(Denied::Away);
        }
        let n = number as usize;
        let Some(found) = self.take_turn(seat, n) else {
            return Err(Denied::Busy);
        };
        let greatest = found.max(last);
        if greatest >= STAMP_LIMIT {
            self.give_up_turn(seat, n, found);
            return Err(Denied::Worn);
        }
        Ok(Stamps {
            found,
            stamp: greatest + 1,
        })
    }

    /// The access, on the body that the seat has.
    #[inline(always)]
    fn act(&self, seat: &mut Seat, n: usize, op: &Op) -> u64
        requires seat { seat.old.table_id ≡ self.now.table.shared.table_id }
        requires held { HoldsBody seat.old.me n (λ body. IsInside op.now (length body.bytes.items)) }
        ensures id { seat.new.table_id ≡ seat.old.table_id }
        ensures view { seat.new.me.0 ≡ seat.old.me.0 }
        ensures held { HoldsBody seat.old.me n (λ body. (result ≡ answer op.now body.bytes.items)
            × HoldsBody seat.new.me n (λ left. left.bytes.items ≡ after op.now body.bytes.items)) }
    {
        seat.slot_mut(&self.table.shared, n).act(op)
    }

    /// The bytes of a range, of the body that the seat has.
    fn read(&self, seat: &mut Seat, n: usize, offset: usize, into: &mut Vec<u8>)
        requires seat { seat.old.table_id ≡ self.now.table.shared.table_id }
        requires held { HoldsBody seat.old.me n (λ body. offset + length into.old.items ≤ length body.bytes.items) }
        ensures id { seat.new.table_id ≡ seat.old.table_id }
        ensures view { seat.new.me.0 ≡ seat.old.me.0 }
        ensures held { HoldsBody seat.old.me n (λ body. (into.new.items ≡ part offset (length into.old.items) body.bytes.items)
            × HoldsBody seat.new.me n (λ left. left.bytes.items ≡ body.bytes.items)) }
    {
        seat.slot_mut(&self.table.shared, n)
            .read(offset, into.as_mut_slice());
    }

    /// Writes over a range of the body that the seat has.
    fn write(&self, seat: &mut Seat, n: usize, offset: usize, bytes: &[u8])
        requires seat { seat.old.table_id ≡ self.now.table.shared.table_id }
        requires held { HoldsBody seat.old.me n (λ body. offset + length bytes.now ≤ length body.bytes.items) }
        ensures id { seat.new.table_id ≡ seat.old.table_id }
        ensures view { seat.new.me.0 ≡ seat.old.me.0 }
        ensures held { HoldsBody seat.old.me n (λ body. HoldsBody seat.new.me n (λ left. left.bytes.items ≡ replaced offset bytes.now body.bytes.items)) }
    {
        seat.slot_mut(&self.table.shared, n).write(offset, bytes);
    }

    /// Records the access, with the entry that the caller picks.
    #[inline(always)]
    fn record_access<T: Told>(
        &self,
        seat: &mut Seat,
        n: usize,
        found: u64,
        stamp: u64,
        _op: &Op,
        _reply: u64,
    )
        requires seat { seat.old.table_id ≡ self.now.table.shared.table_id }
        requires live { (seat.old.me.0.live ≡ true) × (seat.old.me.0.made ≡ 0) }
        requires object { n < length self.now.lengths.items }
        requires stamps { (found < stamp) × (stamp < 2 ^ 48) × (top 0 seat.old.me.0.entries < stamp) }
        requires entry { T.entry ≡ entry seat.old.me.0.actor stamp found n (Accesses _op.now) (Number _reply) }
        requires held { (bytes : List ℕ) × (seat.old.me.0.turn ≡ Some (turn n found bytes)) × IsInside _op.now (length bytes)
            × (_reply ≡ answer _op.now bytes) × HoldsBody seat.old.me n (λ body. body.bytes.items ≡ after _op.now bytes) }
        ensures id { seat.new.table_id ≡ seat.old.table_id }
        ensures me { seat.new.me ≡ (recorded (entry seat.old.me.0.actor stamp found n (Accesses _op.now) (Number _reply)) seat.old.me.0, []) }
    {
        self.give_turn::<T>(seat, n, found, stamp);
    }

    /// Records the read range, with the entry that the caller picks.
    fn record_read<T: Told>(
        &self,
        seat: &mut Seat,
        n: usize,
        found: u64,
        stamp: u64,
        _offset: u32,
        _count: u32,
        _bytes: &Vec<u8>,
    )
        requires seat { seat.old.table_id ≡ self.now.table.shared.table_id }
        requires live { (seat.old.me.0.live ≡ true) × (seat.old.me.0.made ≡ 0) }
        requires object { n < length self.now.lengths.items }
        requires stamps { (found < stamp) × (stamp < 2 ^ 48) × (top 0 seat.old.me.0.entries < stamp) }
        requires entry { T.entry ≡ entry seat.old.me.0.actor stamp found n (Reads _offset _count) (Bytes _bytes.now.items) }
        requires held { (bytes : List ℕ) × (seat.old.me.0.turn ≡ Some (turn n found bytes)) × (0 < length bytes) × (_offset + _count ≤ length bytes)
            × (_bytes.now.items ≡ part _offset _count bytes) × HoldsBody seat.old.me n (λ body. body.bytes.items ≡ bytes) }
        ensures id { seat.new.table_id ≡ seat.old.table_id }
        ensures me { seat.new.me ≡ (recorded (entry seat.old.me.0.actor stamp found n (Reads _offset _count) (Bytes _bytes.now.items)) seat.old.me.0, []) }
    {
        self.give_turn::<T>(seat, n, found, stamp);
    }

    /// Records the range that was written, with the entry that the caller picks.
    fn record_write<T: Told>(
        &self,
        seat: &mut Seat,
        n: usize,
        found: u64,
        stamp: u64,
        _offset: u32,
        _bytes: &[u8],
    )
        requires seat { seat.old.table_id ≡ self.now.table.shared.table_id }
        requires live { (seat.old.me.0.live ≡ true) × (seat.old.me.0.made ≡ 0) }
        requires object { n < length self.now.lengths.items }
        requires stamps { (found < stamp) × (stamp < 2 ^ 48) × (top 0 seat.old.me.0.entries < stamp) }
        requires entry { T.entry ≡ entry seat.old.me.0.actor stamp found n (Writes _offset _bytes.now) Nothing }
        requires held { (bytes : List ℕ) × (seat.old.me.0.turn ≡ Some (turn n found bytes)) × (0 < length bytes)
            × (_offset + length _bytes.now ≤ length bytes) × HoldsBody seat.old.me n (λ body. body.bytes.items ≡ replaced _offset _bytes.now bytes) }
        ensures id { seat.new.table_id ≡ seat.old.table_id }
        ensures me { seat.new.me ≡ (recorded (entry seat.old.me.0.actor stamp found n (Writes _offset _bytes.now) Nothing) seat.old.me.0, []) }
    {
        self.give_turn::<T>(seat, n, found, stamp);
    }

    /// One access to one object, as one entry.
    #[inline(always)]
    pub fn touch(&self, actor: &mut ActorSeat, number: u32, op: &Op) -> Reach
        requires { IsActorOf self.now actor.old }
        ensures actor { IsActorOf self.now actor.new }
        ensures touch { Touches actor.old.seat.me.0 actor.old.stamp number op.now result actor.new.seat.me.0 actor.new.stamp }
    {
        if !op.is_inside(self.length(number as u64)) {
            return Reach::Outside;
        }
        let n = number as usize;
        match self.begin(&mut actor.seat, &mut actor.window, actor.stamp, number) {
            Err(denied) => denied.reach(),
            Ok(Stamps { found, stamp }) => {
                let reply = self.act(&mut actor.seat, n, op);
                self.record_access::<Brand>(&mut actor.seat, n, found, stamp, op, reply);
                actor.stamp = stamp;
                Reach::Done(reply)
            }
        }
    }

    /// Whether there is an object, within whose bytes the range ends.
    fn has_range(&self, number: u32, offset: u32, count: usize) -> bool
        ensures value { IsTrue result ↔ ((0 < length (bytes_of (table_opening self.now) number))
            × (offset + count ≤ length (bytes_of (table_opening self.now) number))) }
        ensures object { result ≡ true → number < length self.now.lengths.items }
    {
        let length = self.length(number as u64);
        length > 0 && count <= length && offset as usize <= length - count
    }

    /// Writes over a range of an object, as one entry.
    pub fn put(
        &self,
        actor: &mut ActorSeat,
        number: u32,
        offset: u32,
        bytes: &[u8],
    ) -> Result<(), Denied>
        requires { IsActorOf self.now actor.old }
        ensures actor { IsActorOf self.now actor.new }
        ensures put { PutsRange actor.old.seat.me.0 actor.old.stamp number offset bytes.now result actor.new.seat.me.0 actor.new.stamp }
    {
        if !self.has_range(number, offset, bytes.len()) {
            return Err(Denied::Outside);
        }
        let n = number as usize;
        let Stamps { found, stamp } = self.begin(
            &mut actor.seat,
            &mut actor.window,
            actor.stamp,
            number,
        )?;
        self.write(&mut actor.seat, n, offset as usize, bytes);
        self.record_write::<Brand>(&mut actor.seat, n, found, stamp, offset, bytes);
        actor.stamp = stamp;
        Ok(())
    }

    /// Reads a range of an object, as one entry. The memory for it is taken before any step.
    pub fn get(
        &self,
        actor: &mut ActorSeat,
        number: u32,
        offset: u32,
        count: u32,
    ) -> Result<Vec<u8>, GetError>
        requires { IsActorOf self.now actor.old }
        ensures actor { IsActorOf self.now actor.new }
        ensures got { IfOk result (λ v. GetsRange actor.old.seat.me.0 actor.old.stamp number offset count (Ok v.items) actor.new.seat.me.0 actor.new.stamp) }
        ensures refused { IfErr result (λ error. GetsRange actor.old.seat.me.0 actor.old.stamp number offset count (Err error)
            actor.new.seat.me.0 actor.new.stamp) }
        ensures memory { IfErr result (λ error. error ≡ GetError.Memory → actor.new ≡ actor.old) }
    {
        if !self.has_range(number, offset, count as usize) {
            return Err(GetError::Denied(Denied::Outside));
        }
        let n = number as usize;
        let mut bytes = vec![in self.alloc; 0u8; count as usize]?;
        let Stamps { found, stamp } = self.begin(
            &mut actor.seat,
            &mut actor.window,
            actor.stamp,
            number,
        )?;
        self.read(&mut actor.seat, n, offset as usize, &mut bytes);
        self.record_read::<Brand>(&mut actor.seat, n, found, stamp, offset, count, &bytes);
        actor.stamp = stamp;
        Ok(bytes)
    }

    /// The object's word, as a load finds it: at that moment the whole table kept the rule, this seat had this view, and the
    /// word was this number. It changes nothing.
    pub fn look(&self, actor: &mut ActorSeat, number: u32) -> u64
        requires actor { IsActorOf self.now actor.old }
        requires object { IsObject actor.old.seat.me.0.opening number }
        ensures actor { IsActorOf self.now actor.new }
        ensures same { (actor.new.seat.me.0 ≡ actor.old.seat.me.0) × (actor.new.stamp ≡ actor.old.stamp) }
        ensures rule { Witness (table_returns self.now) (table_opening self.now) actor.old.seat.me.0 number result }
    {
        self.look_at::<Brand>(actor, number)
    }

    /// The same, where the caller picks the name of what the table was told.
    #[tactic(auto, using(crate::proofs::Logs::object_home))]
    fn look_at<T: Opened>(&self, actor: &mut ActorSeat, number: u32) -> u64
        requires actor { IsActorOf self.now actor.old }
        requires object { IsObject actor.old.seat.me.0.opening number }
        requires table { (T.returns ≡ table_returns self.now) × (T.opening ≡ table_opening self.now) }
        ensures actor { IsActorOf self.now actor.new }
        ensures same { (actor.new.seat.me.0 ≡ actor.old.seat.me.0) × (actor.new.stamp ≡ actor.old.stamp) }
        ensures rule { Witness (table_returns self.now) (table_opening self.now) actor.old.seat.me.0 number result }
    {
        self.table
            .shared
            .load::<Looks<T>>(&mut actor.seat, number as usize * WORDS_APART)
    }
}
