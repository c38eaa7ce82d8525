//! The mover of a table: it takes objects to the far store, and brings them back.
ghost use Rattle.std.specs.Prelude.{◌≡◌, ◌⊎◌, ◌≤◌, true, false, [], ◌∷◌, length, map, None, Some, Ok, Err, IfOk, IfErr, OnOk, OnErr, MatchResult, List, ℕ};
ghost use Rattle.far_store.specs.Stores.{Rises, parcel_bytes};
ghost use Rattle.far_store.specs.Calls.{Calls, AsksInVain};
ghost use Rattle.far_store.specs.Calls.Call.{Put, Get, Forget};
ghost use Rattle.memory.specs.Objects.{bytes_of};
ghost use Rattle.shared_objects.specs.Kinds.{dealer, placed};
ghost use Rattle.shared_objects.specs.Opened.{seated};
ghost use Rattle.shared_objects.specs.Phases.{IsObject};
ghost use Rattle.shared_objects.specs.Rule.{place_of};
ghost use Rattle.shared_objects.specs.Tables.{IsMoverOf, table_returns};
ghost use Rattle.shared_objects.specs.declared.view.Whereabouts.TheVariants.{Here, Far};
ghost use Rattle.workers.specs.Cells.{IsTableOf};
ghost use Rattle.workers.specs.Moves.{LeavesFor, ReturnsFrom, AsksToLeave, AsksToReturn, FailsToBring, IsMoverSeat, IsMoverView, KeepsParcels, MovesOne};
ghost use Rattle.workers.specs.Moves.{AsksOne, LooksAt, number_after};

use crate::job::{Direction, Request};
use crate::pool::Pool;
use crate::table_name::TableName;
use far_store::{FarStore, StoreFault};
use memory::OBJECT_LIMIT;
use placement::{Moved, Place};
use shared_objects::{Leave, MoverSeat, SharedTable};
use std::alloc::{AllocError, Global};
use std::marker::{Model, PhantomData};

/// What became of a look at one object.
#[derive(Clone, Copy, Drop, Debug, PartialEq, Eq)]
pub enum Looked {
    /// There is no object of this number.
    NoObject,
    /// It was used since the last look, and stays.
    Hot,
    /// It wasn't, and stays: it came back for a machine that hasn't used it yet.
    Awaited,
    /// It wasn't, and was asked to leave.
    Cold(Moved),
}

/// Who is notified that an object has come back, before its parcel is forgotten.
pub(crate) trait Landing {
    /// The object of this number is here.
    fn landed(&self, number: u32);
}

/// Nobody is notified.
struct Nobody;

impl Landing for Nobody {
    fn landed(&self, _number: u32) {}
}

/// The mover of a table, with its far store, and a parcel of each object that is far.
#[derive(Drop)]
pub struct Mover<F: FarStore, K: TableName> {
    seat: MoverSeat,
    store: F,
    // by number
    parcels: Vec<Option<F::Parcel>>,
    // the object at which it looked last of its own accord
    last: u32,
    of: PhantomData<K>,
}

impl<F: FarStore, K: TableName> Model for Mover<F, K> {
    ghost use Rattle.std.specs.Prelude.{map};
    ghost use Rattle.far_store.specs.Stores.{parcel_bytes};
    ghost use Rattle.workers.specs.Moves.{MoverState, IsMoverSeat, KeepsParcels};

    ghost Value = { MoverState F };

    ghost view = { λ m. record { view = m.seat.seat.me.0; store = m.store; parcels = map (parcel_bytes F.bytes_in) m.parcels.items; last = m.last } };

    ghost invariant = { λ m. IsMoverSeat K.table K.opening F.RETURNS K.seats m.seat
        × KeepsParcels m.seat.seat.me.0 (map (parcel_bytes F.bytes_in) m.parcels.items) };
}

/// Takes an object that is here to the far store.
fn send<F: FarStore>(
    shared: &SharedTable,
    seat: &mut MoverSeat,
    store: &mut F,
    number: u32,
) -> Result<F::Parcel, Moved>
    requires mover { IsMoverOf shared.now seat.old }
    requires object { IsObject seat.old.seat.me.0.opening number }
    requires here { place_of seat.old.seat.me.0 number ≡ Here }
    ensures mover { IsMoverOf shared.now seat.new }
    ensures sent { MatchResult result
        (λ parcel. (seat.new.seat.me.0 ≡ placed number (Far (F.bytes_in parcel)) seat.old.seat.me.0)
        × (length (F.bytes_in parcel) ≡ length (bytes_of seat.old.seat.me.0.opening number))
        × Calls F.called store.old (Put (F.bytes_in parcel) None ∷ []) store.new × (F.faults_of store.new ≡ F.faults_of store.old))
        (λ moved. (seat.new.seat.me.0 ≡ seat.old.seat.me.0) × LeavesFor seat.old.seat.me.0 number moved seat.new.seat.me.0
        × AsksToLeave F.called F.faults_of seat.old.seat.me.0 store.old number moved seat.new.seat.me.0 store.new) }
{
    let Leave::Taken(bytes) = shared.begin_leave(seat, number) else {
        return Err(Moved::Scoped);
    };
    match store.put(bytes) {
        Ok(parcel) => {
            shared.end_leave(seat, number);
            Ok(parcel)
        }
        Err((fault, bytes)) => {
            shared.undo_leave(seat, number, bytes);
            Err(Moved::Fault(fault))
        }
    }
}

/// Brings an object that is far back, by its parcel.
fn fetch<F: FarStore>(
    shared: &SharedTable,
    seat: &mut MoverSeat,
    store: &mut F,
    parcel: &F::Parcel,
    number: u32,
) -> Result<(), StoreFault>
    requires mover { IsMoverOf shared.now seat.old × (table_returns shared.now ≡ F.RETURNS) }
    requires object { IsObject seat.old.seat.me.0.opening number }
    requires far { place_of seat.old.seat.me.0 number ≡ Far (F.bytes_in parcel.now) }
    requires long { length (F.bytes_in parcel.now) ≡ length (bytes_of seat.old.seat.me.0.opening number) }
    ensures mover { IsMoverOf shared.now seat.new }
    ensures fetched { MatchResult result
        (λ _. (seat.new.seat.me.0 ≡ placed number Here seat.old.seat.me.0)
        × ((came : List ℕ) × (length came ≡ length (F.bytes_in parcel.now))
        × Calls F.called store.old (Get (F.bytes_in parcel.now) (Ok came) ∷ []) store.new) × (F.faults_of store.new ≡ F.faults_of store.old))
        (λ fault. (seat.new.seat.me.0 ≡ seat.old.seat.me.0)
        × AsksInVain F.called store.old (Some (F.bytes_in parcel.now)) (length (F.bytes_in parcel.now)) fault store.new
        × FailsToBring F.RETURNS (F.faults_of store.old) fault (F.faults_of store.new)) }
{
    shared.begin_return(seat, number);
    let bytes = match store.get(parcel) {
        Ok(bytes) => bytes,
        Err(fault) => {
            shared.undo_return(seat, number);
            return Err(fault);
        }
    };
    match shared.end_return(seat, number, bytes) {
        Ok(()) => {}
        Err(_) => {
            shared.undo_return(seat, number);
            return Err(StoreFault::Damaged);
        }
    }
    Ok(())
}

/// The number after the last, of so many.
fn next_number(count: usize, last: u32) -> u32
    ensures { result ≡ number_after count last }
{
    let next = (last as usize).saturating_add(1);
    if next < count && next <= OBJECT_LIMIT {
        next as u32
    } else {
        1
    }
}

impl<F: FarStore + Drop, K: TableName> Mover<F, K> {
    /// The mover of K's table, all of whose objects are here. Where memory runs out all is dropped.
    pub fn new(alloc: Global, seat: MoverSeat, store: F) -> Result<Self, AllocError>
        requires table { seat.seat.table_id ≡ K.table }
        requires fresh { seat.seat.me.0 ≡ seated K.seats (dealer F.RETURNS K.opening) }
        ensures { IfOk result (λ m. (m.view ≡ seat.seat.me.0) × (m.store ≡ store) × (m.last ≡ 0)) }
    {
        let mut parcels = Vec::new(alloc);
        for _ in 0..seat.numbers() {
            parcels.push(None)?;
        }
        Ok(Mover {
            seat,
            store,
            parcels,
            last: 0,
            of: PhantomData,
        })
    }
}

impl<F: FarStore, K: TableName> Mover<F, K> {
    /// What a mover keeps between two requests: its seat is that of K's table, and a parcel is kept of each object that is
    /// far and of no other, which stands for the bytes with which it was taken. Nothing is on its way.
    pub fn fact(&self)
        ensures view { IsMoverView K.opening F.RETURNS K.seats self.now.view }
        ensures parcels { KeepsParcels self.now.view self.now.parcels }
    {
        let _last = self.last;
    }

    /// One request. No memory is taken but what the far store takes.
    ///
    /// `NoObject`: there is no object of this number. `Misplaced`: it is far and was to leave, or is here and was to return.
    /// `Scoped`: it stays, since a scope is open on it, its turn is held, or its word changed meanwhile. `Fault`: the far
    /// store failed, or gave more bytes or fewer, and the object is where it was. `NoRoom` doesn't come.
    pub fn one(&mut self, pool: &Pool<F, K>, number: u32, direction: Direction) -> Moved
        ensures moves { MovesOne direction self.old.view number result self.new.view }
        ensures asks { AsksOne F.RETURNS F.called F.faults_of direction self.old number result self.new }
        ensures last { self.new.last ≡ self.old.last }
    {
        let _seat = &self.seat;
        self.one_landing(pool, number, direction, &Nobody)
    }

    /// The same. This one is notified of an object that comes back, as soon as it is here and before its parcel is forgotten.
    pub(crate) fn one_landing<L: Landing>(
        &mut self,
        pool: &Pool<F, K>,
        number: u32,
        direction: Direction,
        landing: &L,
    ) -> Moved
        ensures moves { MovesOne direction self.old.view number result self.new.view }
        ensures asks { AsksOne F.RETURNS F.called F.faults_of direction self.old number result self.new }
        ensures last { self.new.last ≡ self.old.last }
    {
        let _seat = &self.seat;
        let shared = pool.table();
        if shared.length(number as u64) == 0 {
            return Moved::NoObject;
        }
        match direction {
            Direction::Leave => self.leave(shared, number),
            Direction::Return => self.bring_back(shared, number, landing),
        }
    }

    /// An object goes to the far store.
    fn leave(&mut self, shared: &SharedTable, number: u32) -> Moved
        requires table { IsTableOf K.table K.opening shared.now × (table_returns shared.now ≡ F.RETURNS) }
        requires object { IsObject K.opening number }
        ensures moves { LeavesFor self.old.view number result self.new.view }
        ensures asks { AsksToLeave F.called F.faults_of self.old.view self.old.store number result self.new.view self.new.store }
        ensures last { self.new.last ≡ self.old.last }
    {
        let n = number as usize;
        let None = &self.parcels[n] else {
            return Moved::Misplaced(Place::Far);
        };
        match send(shared, &mut self.seat, &mut self.store, number) {
            Ok(parcel) => {
                self.parcels[n] = Some(parcel);
                Moved::Done
            }
            Err(moved) => moved,
        }
    }

    /// An object comes back from the far store. That is notified before its parcel is forgotten.
    fn bring_back<L: Landing>(&mut self, shared: &SharedTable, number: u32, landing: &L) -> Moved
        requires table { IsTableOf K.table K.opening shared.now × (table_returns shared.now ≡ F.RETURNS) }
        requires object { IsObject K.opening number }
        ensures moves { ReturnsFrom self.old.view number result self.new.view }
        ensures asks { AsksToReturn F.RETURNS F.called F.faults_of self.old.view self.old.store number result self.new.store }
        ensures last { self.new.last ≡ self.old.last }
    {
        let n = number as usize;
        let Some(kept) = self.parcels[n].take() else {
            return Moved::Misplaced(Place::Here);
        };
        match fetch(shared, &mut self.seat, &mut self.store, &kept, number) {
            Ok(()) => {
                landing.landed(number);
                self.store.forget(kept);
                Moved::Done
            }
            Err(fault) => {
                self.parcels[n] = Some(kept);
                Moved::Fault(fault)
            }
        }
    }

    /// Looks at the next object, that of number 1 after the last one: one that was used since the last look is passed over,
    /// and any other is asked to leave.
    pub fn look(&mut self, pool: &Pool<F, K>) -> Looked
        ensures looks { LooksAt F.called F.faults_of self.old result self.new }
        ensures last { self.new.last ≡ number_after (length K.opening) self.old.last }
    {
        self.last = next_number(self.parcels.len(), self.last);
        let shared = pool.table();
        let number = self.last;
        match shared.cool(&mut self.seat, number) {
            None => Looked::NoObject,
            Some(true) => Looked::Hot,
            Some(false) => Looked::Cold(self.leave(shared, number)),
        }
    }

    /// Looks at the next object for room: as above, but an object stays that came back for a machine which hasn't used it yet.
    pub fn look_past(&mut self, pool: &Pool<F, K>) -> Looked
        ensures looks { LooksAt F.called F.faults_of self.old result self.new }
        ensures last { self.new.last ≡ number_after (length K.opening) self.old.last }
    {
        self.last = next_number(self.parcels.len(), self.last);
        let shared = pool.table();
        let object = self.last;
        let is_awaited = pool.requests().is_awaited(object);
        match shared.cool(&mut self.seat, object) {
            None => Looked::NoObject,
            Some(true) => {
                pool.requests().set_awaited(object, false);
                Looked::Hot
            }
            Some(false) if is_awaited => Looked::Awaited,
            Some(false) => Looked::Cold(self.leave(shared, object)),
        }
    }

    /// How many numbers there are, of which 0 is no object's.
    pub(crate) fn numbers(&self) -> usize {
        self.parcels.len()
    }

    /// How many bytes the objects have that are here.
    pub fn bytes_here(&self, pool: &Pool<F, K>) -> u64 {
        let mut bytes: u64 = 0;
        for number in 0..self.parcels.len() {
            if self.parcels[number].is_none() {
                bytes = bytes.saturating_add(pool.table().length(number as u64) as u64);
            }
        }
        bytes
    }

    /// How many bytes come with a request: none, unless it has an object come back that is far.
    pub(crate) fn bytes_coming(&self, pool: &Pool<F, K>, request: Request) -> u64 {
        if request.direction == Direction::Leave {
            return 0;
        }
        match self.parcels.get(request.number as usize) {
            Some(Some(_)) => pool.table().length(request.number as u64) as u64,
            _ => 0,
        }
    }

    /// The number of the object at which it looked last: 0, if it didn't look yet.
    pub fn last(&self) -> u32
        ensures { result ≡ self.now.last }
    {
        self.last
    }

    /// Its seat, the far store, and by number the parcels of the objects that are far.
    pub fn into_parts(self) -> (MoverSeat, F, Vec<Option<F::Parcel>>)
        ensures of { IsMoverSeat K.table K.opening F.RETURNS K.seats result.0 }
        ensures keeps { KeepsParcels result.0.seat.me.0 (map (parcel_bytes F.bytes_in) result.2.items) }
        ensures same { (result.0.seat.me.0 ≡ self.view) × (result.1 ≡ self.store) × (map (parcel_bytes F.bytes_in) result.2.items ≡ self.parcels) }
    {
        let Mover {
            seat,
            store,
            parcels,
            last: _,
            of: _,
        } = self;
        (seat, store, parcels)
    }
}
