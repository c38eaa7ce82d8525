//! The table closes: all seats are handed back.
ghost use Rattle.std.specs.Prelude.{◌≡◌, ℕ, ◌+◌, ◌<◌, ◌≤◌, [], ◌∷◌, length, map, All, IfOk, true, vec_capacity};
ghost use Rattle.shared_objects.specs.Ends.{shown, all_shown, Closes};
ghost use Rattle.shared_objects.specs.Kinds.{gathers_all, shut};
ghost use Rattle.shared_objects.specs.Resting.{Rests, AllBelow};
ghost use Rattle.shared_objects.specs.Parts.{part_of};
ghost use Rattle.shared_objects.specs.Tables.{IsActorOf, IsShutOf, IsMoverOf, table_opening, table_returns};
ghost use Rattle.std.specs.Mem.Slots.{slots_items, slots_len, IsFull};

use crate::body::Body;
use crate::kinds::Gathers;
use crate::seats::{ActorSeat, MoverSeat, Phase, Seat};
use crate::table::SharedTable;
use atomic_table::Closed;
use scopes::Window;
use std::alloc::{AllocError, Global};

/// What is left of an object when the table has closed.
#[derive(Drop)]
pub enum ObjectEnd {
    /// It is here, with its bytes.
    Here(Vec<u8>),
    /// The mover had it out.
    Out,
}

impl SharedTable {
    /// Closes all scopes of the window.
    fn close_all(&self, seat: &mut Seat, window: &mut Window)
        requires seat { seat.old.table_id ≡ self.now.table.shared.table_id }
        requires rests { Rests seat.old.me }
        requires window { (seat.old.me.0.scopes ≡ window.old) × AllBelow (length self.now.lengths.items) window.old }
        ensures id { seat.new.table_id ≡ seat.old.table_id }
        ensures me { seat.new.me ≡ (shut seat.old.me.0, []) }
        ensures window { window.new ≡ [] }
    {
        while let Some(oldest) = window.pop() {
            self.close_scope(seat, oldest as usize);
        }
    }

    /// Closes all scopes of the actor.
    pub fn close_scopes(&self, actor: &mut ActorSeat)
        requires { IsActorOf self.now actor.old }
        ensures actor { IsActorOf self.now actor.new }
        ensures view { actor.new.seat.me.0 ≡ shut actor.old.seat.me.0 }
        ensures stamp { actor.new.stamp ≡ actor.old.stamp }
    {
        self.close_all(&mut actor.seat, &mut actor.window);
    }

    /// Closes all scopes of each actor.
    fn close_each(&self, actors: Vec<ActorSeat>) -> Result<Vec<ActorSeat>, AllocError>
        requires { All (IsActorOf self.now) actors.items }
        ensures { IfOk result (λ v. All (IsShutOf self.now) v.items × (map part_of v.items ≡ map part_of actors.items)) }
    {
        let mut shut = Vec::new(self.alloc);
        for mut actor in actors {
            self.close_scopes(&mut actor);
            shut.push(actor)?;
        }
        Ok(shut)
    }

    /// The first seat takes another in.
    fn gather(&self, mover: &mut MoverSeat, actor: ActorSeat)
        requires mover { IsMoverOf self.now mover.old }
        requires actor { IsShutOf self.now actor }
        ensures mover { IsMoverOf self.now mover.new }
        ensures view { mover.new.seat.me.0 ≡ gathers_all mover.old.seat.me.0 (part_of actor ∷ []) }
    {
        self.table
            .shared
            .join_seat::<Gathers>(&mut mover.seat, actor.seat);
    }

    /// The first seat takes all in.
    fn gather_all(&self, mover: &mut MoverSeat, actors: Vec<ActorSeat>)
        requires mover { IsMoverOf self.now mover.old }
        requires actors { All (IsShutOf self.now) actors.items }
        ensures mover { IsMoverOf self.now mover.new }
        ensures view { mover.new.seat.me.0 ≡ gathers_all mover.old.seat.me.0 (map part_of actors.items) }
    {
        for actor in actors {
            self.gather(mover, actor);
        }
    }

    /// All seats are handed back. The scopes of all seats are closed before the first is taken in. All entries are one list,
    /// in which each seat's entries stand; where far stores give back what was put, that list run from the opening bytes gives
    /// each answer, and the bytes of each object. An object is out exactly where the mover has it out, with these bytes.
    pub fn close(
        self,
        actors: Vec<ActorSeat>,
        mut mover: MoverSeat,
    ) -> Result<Vec<ObjectEnd>, AllocError>
        requires mover { IsMoverOf self mover × (mover.seat.me.0.gathered ≡ []) }
        requires all { mover.seat.me.0.alive ≡ length actors.items + 1 }
        requires actors { All (IsActorOf self) actors.items }
        ensures { IfOk result (λ ended. Closes (table_returns self) (table_opening self) mover.seat.me.0 (map part_of actors.items) ended.items) }
    {
        let ended = Vec::with_capacity(self.alloc, self.lengths.len())?;
        let shut = self.close_each(actors)?;
        self.gather_all(&mut mover, shut);
        let MoverSeat {
            seat,
            phases,
            order: _,
        } = mover;
        let SharedTable {
            table,
            lengths: _,
            alloc: _,
        } = self;
        let closed = table.close_with(seat);
        Ok(emptied(closed, &phases, ended))
    }
}

/// What is shown of an object.
fn show(phase: Phase, body: Body) -> ObjectEnd
    ensures { result ≡ shown phase body }
{
    match phase {
        Phase::In => {
            let Body { bytes } = body;
            ObjectEnd::Here(bytes)
        }
        Phase::Moving => ObjectEnd::Out,
        Phase::Far => ObjectEnd::Out,
    }
}

/// The bodies of a closed table, in order, of those objects that are in.
fn emptied(
    mut closed: Closed<Body, Global>,
    phases: &[Phase],
    mut ended: Vec<ObjectEnd>,
) -> Vec<ObjectEnd>
    requires full { IsFull closed.slots }
    requires phases { length phases.now ≡ slots_len closed.slots }
    requires room { (ended.items ≡ []) × (slots_len closed.slots ≤ vec_capacity ended) }
    ensures { result.items ≡ all_shown phases.now (slots_items closed.slots) }
{
    let mut i = 0;
    while i < phases.len() {
        let body = closed.take(i);
        let phase = phases[i];
        ended.push_reserved(show(phase, body));
        i += 1;
    }
    closed.free();
    ended
}
