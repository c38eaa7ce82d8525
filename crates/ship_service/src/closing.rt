//! The service closes, once workers, mover and connections have ended.
ghost use Rattle.std.specs.Prelude.{◌≡◌, ◌+◌, ◌++◌, length, map, slice_index_or, All, IfOk, IfSome, IfNone, None};
ghost use Rattle.std.specs.Option.{option_copied};
ghost use Rattle.far_store.specs.Stores.{parcel_bytes};
ghost use Rattle.scopes.specs.Windows.{machine_limit};
ghost use Rattle.shared_objects.specs.Tables.{table_opening};
ghost use Rattle.workers.specs.Cells.{IsSeatOf};
ghost use Rattle.ship_service.specs.Closing.{AreLengths, Settles, live_object, GivesParcel};

use crate::connection::Connection;
use crate::journal::{ServiceEvent, Tally};
use crate::shared_agent::Agent;
use far_store::{FarStore, StoreFault};
use listener::Journal;
use shared_objects::{ActorSeat, ObjectEnd, SharedTable};
use std::alloc::{AllocError, Global};
use std::marker::Model;
use workers::{ClosedCell, Mover, PoolParts, TableName};

/// What the service leaves when it closes.
#[derive(Drop)]
pub struct Closed<F: FarStore> {
    // by number
    lengths: Vec<usize>,
    // by number
    objects: Vec<ObjectEnd>,
    cells: Vec<ClosedCell>,
    store: F,
    // by number
    parcels: Vec<Option<F::Parcel>>,
}

/// What the service leaves, apart.
#[derive(Drop)]
pub struct ClosedParts<F: FarStore> {
    /// By number, whether the object is here, with its bytes, or out. A number that is no object's is here without bytes.
    pub objects: Vec<ObjectEnd>,
    /// Number and machine of each cell.
    pub cells: Vec<ClosedCell>,
    pub store: F,
    /// By number, the parcel of each object that is far.
    pub parcels: Vec<Option<F::Parcel>>,
}

impl<F: FarStore> Model for Closed<F> {
    ghost use Rattle.std.specs.Prelude.{map};
    ghost use Rattle.far_store.specs.Stores.{parcel_bytes};
    ghost use Rattle.ship_service.specs.Closing.{ClosedState};

    ghost Value = { ClosedState F };

    ghost view = { λ c. record {
      lengths = c.lengths.items;
      objects = c.objects.items;
      cells = c.cells.items;
      store = c.store;
      parcels = map (parcel_bytes F.bytes_in) c.parcels.items;
    } };
}

impl<F: FarStore> Closed<F> {
    /// How many numbers there are, of which 0 is no object's.
    pub fn numbers(&self) -> usize
        ensures { result ≡ length self.now.lengths }
    {
        self.lengths.len()
    }

    /// The object of a number, if there is one: here, with its bytes, or out.
    pub fn object(&self, number: usize) -> Option<&ObjectEnd>
        ensures { option_copied result ≡ live_object self.now number }
    {
        let length = self.lengths.get(number)?;
        if *length == 0 {
            return None;
        }
        self.objects.get(number)
    }

    /// Tells a journal how many objects are here, and how many are far.
    pub(crate) fn tell<J: Journal<ServiceEvent>>(&self, journal: &J) {
        let mut here = Tally::none();
        let mut far = Tally::none();
        for number in 0..self.lengths.len() {
            let length = self.lengths[number];
            match self.object(number) {
                Some(ObjectEnd::Here(_)) => here = here.and(length),
                Some(ObjectEnd::Out) => far = far.and(length),
                None => {}
            }
        }
        journal.note(ServiceEvent::Closed { here, far });
    }

    /// Number and machine of each cell.
    pub fn cells(&self) -> &[ClosedCell]
        ensures { result.now ≡ self.now.cells }
    {
        &self.cells
    }

    /// Gets the bytes of the object of a number from the far store, if a parcel is kept of it.
    pub fn get(&mut self, number: usize) -> Option<Result<Vec<u8>, StoreFault>>
        ensures none { IfNone result (slice_index_or self.old.parcels number None ≡ None) }
        ensures some { IfSome result (λ given. GivesParcel F.RETURNS (slice_index_or self.old.parcels number None) given) }
        ensures same { self.new ≡ record self.old { store = self.new.store } }
    {
        if number >= self.parcels.len() {
            return None;
        }
        let parcel = self.parcels[number].as_ref()?;
        Some(self.store.get(parcel))
    }

    /// Hands out all that is left.
    pub fn into_parts(self) -> ClosedParts<F>
        ensures objects { result.objects.items ≡ self.objects }
        ensures cells { result.cells.items ≡ self.cells }
        ensures store { result.store ≡ self.store }
        ensures parcels { map (parcel_bytes F.bytes_in) result.parcels.items ≡ self.parcels }
    {
        let Closed {
            lengths: _,
            objects,
            cells,
            store,
            parcels,
        } = self;
        ClosedParts {
            objects,
            cells,
            store,
            parcels,
        }
    }
}

/// How many bytes the objects of so many numbers have, by number.
fn lengths_of(alloc: Global, table: &SharedTable, count: usize) -> Result<Vec<usize>, AllocError>
    requires { count ≡ length (table_opening table.now) }
    ensures { IfOk result (λ v. AreLengths (table_opening table.now) v.items) }
{
    let mut lengths = Vec::new(alloc);
    for number in 0..count {
        lengths.push(table.length(number as u64))?;
    }
    Ok(lengths)
}

/// Adds the seats of connections.
fn hand_back<K: TableName>(
    mut seats: Vec<ActorSeat>,
    connections: Vec<Connection<K>>,
) -> Result<Vec<ActorSeat>, AllocError>
    requires { All (IsSeatOf K.table K.opening) seats.items }
    ensures of { IfOk result (λ v. All (IsSeatOf K.table K.opening) v.items) }
    ensures seats { IfOk result (λ v. v.items ≡ seats.items ++ map (λ c. c.session.seat) connections.items) }
{
    for connection in connections {
        seats.push(connection.into_seat())?;
    }
    Ok(seats)
}

impl<F: FarStore + Drop, K: TableName> Agent<F, K> {
    /// Closes with these connections, which are all that there are beside the machines, and this mover. Each object is left
    /// here or out, as the mover has it; each machine as its cell has it; the far store and its parcels as the mover has them.
    /// Where memory runs out all is dropped.
    pub fn close(
        self,
        alloc: Global,
        connections: Vec<Connection<K>>,
        mover: Mover<F, K>,
    ) -> Result<Closed<F>, AllocError>
        requires all { K.seats ≡ machine_limit + length connections.items }
        ensures { IfOk result (λ closed. Settles F.RETURNS K.table K.opening K.starts mover (map (λ c. c.session.seat) connections.items) closed) }
    {
        let PoolParts {
            shared,
            seats,
            cells,
        } = self.into_pool().into_parts(alloc)?;
        let (seat, store, parcels) = mover.into_parts();
        let lengths = lengths_of(alloc, shared.table(), parcels.len())?;
        let seats = hand_back(seats, connections)?;
        let objects = shared.close(seats, seat)?;
        Ok(Closed {
            lengths,
            objects,
            cells,
            store,
            parcels,
        })
    }
}
