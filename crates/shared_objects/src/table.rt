//! The table, and the single steps of an actor.
ghost use Rattle.std.specs.Prelude.{◌≡◌, ℕ, ◌^◌, ◌<◌, ◌≤◌, ◌+◌, true, List, [], length, map, None, Some, MatchOption, MatchBool, IfSome};
ghost use Rattle.memory.specs.Objects.{bytes_of, number_count};
ghost use Rattle.memory.specs.Deeds.{EndsInside, given_by, left_by};
ghost use Rattle.shared_objects.specs.History.{top, entry};
ghost use Rattle.shared_objects.specs.Opening.{opening_bytes};
ghost use Rattle.shared_objects.specs.Kinds.{turn, with_scope, without_scope, with_pass, without_pass, marked, holding, recorded, worn_out};
ghost use Rattle.shared_objects.specs.Rule.{has_open, has_pass, word_of};
ghost use Rattle.shared_objects.specs.Resting.{HoldsBody};
ghost use Rattle.shared_objects.specs.declared.view.Mark.TheVariants.{Busy};

use crate::body::Body;
use crate::kinds::{
    ClosesScope, GivesTurn, GivesUpTurn, Key, LeavesPass, OpensScope, Rule, TakesTurn, Told,
};
use crate::seats::Seat;
use crate::view::View;
use atomic_table::Table;
use pointer_word::{HOT, PLACE, SCOPE, STAMP, TURN};
use std::alloc::Global;

/// How many words of the table there are for one object, so that no two objects share a cache line.
pub(crate) const WORDS_APART: usize = 16;

/// Objects by number, from 1 on, that threads share.
#[derive(Drop)]
pub struct SharedTable {
    pub(crate) alloc: Global,
    pub(crate) table: Table<Body, View, Key, Rule, Global>,
    // by number
    pub(crate) lengths: Vec<usize>,
    ghost words: { table.shared.table_id.words ≡ word_of (length lengths.items) },
    ghost slots: { table.shared.table_id.slots ≡ length lengths.items },
    ghost sizes: { lengths.items ≡ map length (opening_bytes table.shared.key.bodies.value) },
    ghost few: { (0 < length lengths.items) × (length lengths.items ≤ number_count) },
}

impl SharedTable {
    /// Open scope: whether the object is here.
    #[tactic(auto, using(crate::proofs::Logs::object_home))]
    pub(crate) fn open_scope(&self, seat: &mut Seat, n: usize) -> bool
        requires seat { seat.old.table_id ≡ self.now.table.shared.table_id }
        requires live { (seat.old.me.0.live ≡ true) × (seat.old.me.0.made ≡ 0) }
        requires object { n < length self.now.lengths.items }
        requires shut { has_open n seat.old.me.0 + has_pass n seat.old.me.0 ≡ 0 }
        requires free { seat.old.me.0.turn ≡ None }
        ensures id { seat.new.table_id ≡ seat.old.table_id }
        ensures me { MatchBool result (seat.new.me ≡ (with_scope n seat.old.me.0, seat.old.me.1)) (seat.new.me ≡ (with_pass n seat.old.me.0, seat.old.me.1)) }
    {
        let found = self
            .table
            .shared
            .fetch_add::<OpensScope>(seat, n * WORDS_APART, SCOPE);
        found & PLACE == 0
    }

    /// Close scope.
    #[tactic(auto, using(crate::proofs::Logs::object_home))]
    pub(crate) fn close_scope(&self, seat: &mut Seat, n: usize)
        requires seat { seat.old.table_id ≡ self.now.table.shared.table_id }
        requires live { (seat.old.me.0.live ≡ true) × (seat.old.me.0.made ≡ 0) }
        requires object { n < length self.now.lengths.items }
        requires open { has_open n seat.old.me.0 ≡ 1 }
        requires free { seat.old.me.0.turn ≡ None }
        ensures id { seat.new.table_id ≡ seat.old.table_id }
        ensures me { seat.new.me ≡ (without_scope n seat.old.me.0, seat.old.me.1) }
    {
        self.table
            .shared
            .fetch_sub::<ClosesScope>(seat, n * WORDS_APART, SCOPE);
    }

    /// Close scope, of an object that was found away.
    #[tactic(auto, using(crate::proofs::Logs::object_home))]
    pub(crate) fn leave_pass(&self, seat: &mut Seat, n: usize)
        requires seat { seat.old.table_id ≡ self.now.table.shared.table_id }
        requires live { (seat.old.me.0.live ≡ true) × (seat.old.me.0.made ≡ 0) }
        requires object { n < length self.now.lengths.items }
        requires counted { has_pass n seat.old.me.0 ≡ 1 }
        ensures id { seat.new.table_id ≡ seat.old.table_id }
        ensures me { seat.new.me ≡ (without_pass n seat.old.me.0, seat.old.me.1) }
    {
        self.table
            .shared
            .fetch_sub::<LeavesPass>(seat, n * WORDS_APART, SCOPE);
    }

    /// Take turn: the stamp that it found, where the turn was free.
    #[tactic(auto, using(crate::proofs::Logs::object_home))]
    pub(crate) fn take_turn(&self, seat: &mut Seat, n: usize) -> Option<u64>
        requires seat { seat.old.table_id ≡ self.now.table.shared.table_id }
        requires live { (seat.old.me.0.live ≡ true) × (seat.old.me.0.made ≡ 0) }
        requires object { n < length self.now.lengths.items }
        requires rests { (seat.old.me.1 ≡ []) × (seat.old.me.0.turn ≡ None) }
        requires open { (has_open n seat.old.me.0 ≡ 1) × (length seat.old.me.0.scopes ≤ 4) }
        ensures id { seat.new.table_id ≡ seat.old.table_id }
        ensures me { MatchOption result (seat.new.me ≡ (marked (Busy n) seat.old.me.0, []))
            (λ stamp. HoldsBody seat.new.me n (λ body. (seat.new.me.0 ≡ holding n stamp body.bytes.items seat.old.me.0)
            × (length body.bytes.items ≡ length (bytes_of seat.old.me.0.opening n)))) }
    {
        let found = self
            .table
            .shared
            .fetch_or::<TakesTurn>(seat, n * WORDS_APART, TURN | HOT);
        if found / TURN % 2 == 0 {
            Some(found / STAMP)
        } else {
            None
        }
    }

    /// Give turn, with the entry that the caller picks.
    #[tactic(auto, using(crate::proofs::Logs::object_home))]
    #[inline(always)]
    pub(crate) fn give_turn<T: Told>(&self, seat: &mut Seat, n: usize, found: u64, stamp: u64)
        requires seat { seat.old.table_id ≡ self.now.table.shared.table_id }
        requires live { (seat.old.me.0.live ≡ true) × (seat.old.me.0.made ≡ 0) }
        requires object { n < length self.now.lengths.items }
        requires stamps { (found < stamp) × (stamp < 2 ^ 48) × (top 0 seat.old.me.0.entries < stamp) }
        requires entry { T.entry ≡ entry seat.old.me.0.actor stamp found n T.entry.deed T.entry.given }
        requires held { (bytes : List ℕ) × (seat.old.me.0.turn ≡ Some (turn n found bytes)) × EndsInside T.entry.deed (length bytes)
            × (T.entry.given ≡ given_by T.entry.deed bytes) × HoldsBody seat.old.me n (λ body. body.bytes.items ≡ left_by T.entry.deed bytes) }
        ensures id { seat.new.table_id ≡ seat.old.table_id }
        ensures me { seat.new.me ≡ (recorded T.entry seat.old.me.0, []) }
    {
        self.table
            .shared
            .fetch_add::<GivesTurn<T>>(seat, n * WORDS_APART, (stamp - found) * STAMP - TURN);
    }

    /// Give turn, without an entry.
    #[tactic(auto, using(crate::proofs::Logs::object_home))]
    pub(crate) fn give_up_turn(&self, seat: &mut Seat, n: usize, found: u64)
        requires seat { seat.old.table_id ≡ self.now.table.shared.table_id }
        requires live { (seat.old.me.0.live ≡ true) × (seat.old.me.0.made ≡ 0) }
        requires object { n < length self.now.lengths.items }
        requires held { (bytes : List ℕ) × (seat.old.me.0.turn ≡ Some (turn n found bytes)) × HoldsBody seat.old.me n (λ body. body.bytes.items ≡ bytes) }
        ensures id { seat.new.table_id ≡ seat.old.table_id }
        ensures me { seat.new.me ≡ (worn_out n found seat.old.me.0, []) }
    {
        let _found = found;
        self.table
            .shared
            .fetch_sub::<GivesUpTurn>(seat, n * WORDS_APART, TURN);
    }

    /// How many bytes the object has; 0 where there is none of this number.
    #[inline(always)]
    pub fn length(&self, number: u64) -> usize
        ensures length { result ≡ length (bytes_of (opening_bytes self.now.table.shared.key.bodies.value) number) }
        ensures object { 0 < result → number < length self.now.lengths.items }
    {
        if number < self.lengths.len() as u64 {
            self.lengths[number as usize]
        } else {
            0
        }
    }
}
