//! The table of a far store.
ghost use Rattle.std.specs.Prelude.{◌≡◌, ◌+◌, ◌≤◌, [], length, map, All, IfOk};
ghost use Rattle.memory.specs.Objects.{object_limit};
ghost use Rattle.shared_objects.specs.Ends.{Closes};
ghost use Rattle.shared_objects.specs.Kinds.{dealer};
ghost use Rattle.shared_objects.specs.Opened.{AreFresh, seated};
ghost use Rattle.shared_objects.specs.Opening.{opening_bytes};
ghost use Rattle.shared_objects.specs.Parts.{part_of};
ghost use Rattle.shared_objects.specs.Rule.{actor_limit};
ghost use Rattle.shared_objects.specs.Tables.{IsActorOf, IsMoverOf, table_opening};

use crate::closing::ObjectEnd;
use crate::seats::{ActorSeat, MoverSeat};
use crate::table::SharedTable;
use far_store::FarStore;
use std::alloc::{AllocError, Global};
use std::marker::PhantomData;
use thiserror::Error;

/// Why a table was not opened.
#[derive(Clone, Copy, Drop, Debug, PartialEq, Eq, Error)]
pub enum OpenFault {
    /// Out of memory. The bodies are dropped.
    #[error("no memory")]
    Memory = 1,
}

/// A table of objects whose bodies go to far stores of the type `F`.
#[derive(Drop)]
pub struct Shared<F: FarStore> {
    table: SharedTable,
    of: PhantomData<F>,
    pub ghost told: { table.table.shared.key.returns ≡ F.RETURNS },
}

impl<F: FarStore> Shared<F> {
    /// A table of these objects, numbered from 1 on, with the seats of so many actors, numbered from 1 on, and that of the
    /// mover. There are 1 to 1024 bodies of at most 65,536 bytes; an empty one is no object.
    pub fn open(
        alloc: Global,
        bodies: Vec<Vec<u8>>,
        actors: usize,
    ) -> Result<(Shared<F>, Vec<ActorSeat>, MoverSeat), OpenFault>
        requires bodies { length bodies.items ≤ object_limit }
        requires actors { actors ≤ actor_limit }
        ensures { IfOk result (λ r. IsMoverOf r.0.table r.2 × All (IsActorOf r.0.table) r.1.items
            × (table_opening r.0.table ≡ opening_bytes bodies) × (length r.1.items ≡ actors)
            × AreFresh (dealer F.RETURNS (opening_bytes bodies)) r.1.items × (r.2.seat.me.0 ≡ seated actors (dealer F.RETURNS (opening_bytes bodies)))) }
    {
        match SharedTable::open(alloc, bodies, actors, F::RETURNS) {
            Ok((table, seats, mover)) => Ok((
                Shared {
                    table,
                    of: PhantomData,
                },
                seats,
                mover,
            )),
            Err(_) => Err(OpenFault::Memory),
        }
    }

    /// The table, with its calls.
    pub fn table(&self) -> &SharedTable
        ensures { result.now ≡ self.now.table }
    {
        &self.table
    }

    /// All seats are handed back, as [`SharedTable::close`] says.
    pub fn close(
        self,
        actors: Vec<ActorSeat>,
        mover: MoverSeat,
    ) -> Result<Vec<ObjectEnd>, AllocError>
        requires mover { IsMoverOf self.table mover × (mover.seat.me.0.gathered ≡ []) }
        requires all { mover.seat.me.0.alive ≡ length actors.items + 1 }
        requires actors { All (IsActorOf self.table) actors.items }
        ensures { IfOk result (λ ended. Closes F.RETURNS (table_opening self.table) mover.seat.me.0 (map part_of actors.items) ended.items) }
    {
        let Shared { table, of: _ } = self;
        table.close(actors, mover)
    }
}
