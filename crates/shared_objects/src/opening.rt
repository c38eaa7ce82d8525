//! A table is opened.
ghost use Rattle.std.specs.Prelude.{◌≡◌, ◌+◌, ◌<◌, ◌≤◌, [], ◌∷◌, length, map, All, IfOk, true};
ghost use Rattle.memory.specs.Objects.{object_limit};
ghost use Rattle.shared_objects.specs.Kinds.{dealer, dealt, newcomer};
ghost use Rattle.shared_objects.specs.Opened.{AreFresh, seated};
ghost use Rattle.shared_objects.specs.Opening.{opening_bytes};
ghost use Rattle.shared_objects.specs.Rule.{actor_limit, seat_limit};
ghost use Rattle.shared_objects.specs.Tables.{IsActorOf, IsMoverOf, table_opening, table_returns};

use crate::body::Body;
use crate::kinds::{Deals, Key};
use crate::seats::{ActorSeat, MoverSeat, Phase};
use crate::table::{SharedTable, WORDS_APART};
use atomic_table::{Refused, Table};
use scopes::Window;
use std::alloc::{AllocError, Global};
use std::snapshot::Snapshot;

/// The bodies in slots. The one at number 0 is empty.
fn filled(alloc: Global, bodies: Vec<Vec<u8>>) -> Result<Vec<Body>, AllocError>
    ensures { IfOk result (λ v. map (λ b. b.bytes.items) v.items ≡ opening_bytes bodies) }
{
    let mut slots = Vec::new(alloc);
    slots.push(Body {
        bytes: Vec::new(alloc),
    })?;
    for bytes in bodies {
        slots.push(Body { bytes })?;
    }
    Ok(slots)
}

fn lengths_of(alloc: Global, slots: &[Body]) -> Result<Vec<usize>, AllocError>
    ensures { IfOk result (λ v. v.items ≡ map (λ b. length b.bytes.items) slots.now) }
{
    let mut lengths = Vec::new(alloc);
    for body in slots {
        lengths.push(body.bytes.len())?;
    }
    Ok(lengths)
}

fn phases_of(alloc: Global, slots: &[Body]) -> Result<Vec<Phase>, AllocError>
    ensures { IfOk result (λ v. v.items ≡ map (λ _. Phase.In) slots.now) }
{
    let mut phases = Vec::new(alloc);
    for _ in slots {
        phases.push(Phase::In)?;
    }
    Ok(phases)
}

impl SharedTable {
    /// A table of these objects, with its first seat.
    fn with_mover(
        alloc: Global,
        bodies: Vec<Vec<u8>>,
        returns: bool,
    ) -> Result<(SharedTable, MoverSeat), AllocError>
        requires { length bodies.items ≤ object_limit }
        ensures { IfOk result (λ r. IsMoverOf r.0 r.1 × (table_opening r.0 ≡ opening_bytes bodies) × (table_returns r.0 ≡ returns)
            × (r.1.seat.me.0 ≡ dealer returns (opening_bytes bodies))) }
    {
        let key = Key {
            bodies: Snapshot::of(&bodies),
            returns,
        };
        let slots = filled(alloc, bodies)?;
        let lengths = lengths_of(alloc, &slots)?;
        let phases = phases_of(alloc, &slots)?;
        let order = Vec::with_capacity(alloc, slots.len())?;
        let words = vec![in alloc; 0u64; slots.len() * WORDS_APART]?;
        let (table, seat) = match Table::new(alloc, &words, slots, &key) {
            Ok(made) => made,
            Err(Refused { slots: _ }) => return Err(AllocError),
        };
        Ok((
            SharedTable {
                alloc,
                table,
                lengths,
            },
            MoverSeat {
                seat,
                phases,
                order,
            },
        ))
    }

    /// One more actor.
    fn seat(&self, mover: &mut MoverSeat) -> ActorSeat
        requires mover { IsMoverOf self.now mover.old }
        requires room { mover.old.seat.me.0.made < seat_limit }
        ensures mover { IsMoverOf self.now mover.new }
        ensures view { mover.new.seat.me.0 ≡ dealt mover.old.seat.me.0 }
        ensures actor { IsActorOf self.now result × (result.stamp ≡ 0) × (result.seat.me.0 ≡ newcomer mover.old.seat.me.0) }
    {
        let seat = self.table.shared.split_seat::<Deals>(&mut mover.seat);
        ActorSeat {
            seat,
            window: Window::new(),
            stamp: 0,
        }
    }

    /// So many actors.
    fn seats(&self, mover: &mut MoverSeat, count: usize) -> Result<Vec<ActorSeat>, AllocError>
        requires mover { IsMoverOf self.now mover.old }
        requires room { mover.old.seat.me.0.made + count ≤ seat_limit }
        ensures mover { IsMoverOf self.now mover.new }
        ensures seats { IfOk result (λ v. (length v.items ≡ count) × (mover.new.seat.me.0 ≡ seated count mover.old.seat.me.0)
            × AreFresh mover.old.seat.me.0 v.items × All (IsActorOf self.now) v.items) }
    {
        let mut actors = Vec::new(self.alloc);
        while actors.len() < count {
            actors.push(self.seat(mover))?;
        }
        Ok(actors)
    }

    /// A table of these objects, numbered from 1 on, with the seats of so many actors, numbered from 1 on, and that of the
    /// mover. An empty body is no object. Where memory runs out the bodies are dropped.
    pub fn open(
        alloc: Global,
        bodies: Vec<Vec<u8>>,
        actors: usize,
        returns: bool,
    ) -> Result<(SharedTable, Vec<ActorSeat>, MoverSeat), AllocError>
        requires bodies { length bodies.items ≤ object_limit }
        requires actors { actors ≤ actor_limit }
        ensures { IfOk result (λ r. IsMoverOf r.0 r.2 × All (IsActorOf r.0) r.1.items × (table_opening r.0 ≡ opening_bytes bodies)
            × (table_returns r.0 ≡ returns) × (length r.1.items ≡ actors)
            × AreFresh (dealer returns (opening_bytes bodies)) r.1.items × (r.2.seat.me.0 ≡ seated actors (dealer returns (opening_bytes bodies)))) }
    {
        let (table, mut mover) = SharedTable::with_mover(alloc, bodies, returns)?;
        let seats = table.seats(&mut mover, actors)?;
        Ok((table, seats, mover))
    }
}
