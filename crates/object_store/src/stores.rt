//! The objects of an agent, and their moves to a far store and back.
ghost use Rattle.std.specs.Prelude.{◌≡◌, ◌≤◌, [], ◌∷◌, ◌++◌, true, false, map, set, None, Ok, Err, IfOk, IfErr, IfSome, OnOk, OnErr, length};
ghost use Rattle.memory.specs.Objects.{IsLive, bytes_of, object_bytes, object_limit};
ghost use Rattle.object_store.specs.Stores.{HasWindow, IsStore, IsScoped, StandsAt, Touches, store_start, with_window, unsent, sent_of};
ghost use Rattle.object_store.specs.Asking.{AsksNothing, AsksToFree, AsksToLeave, AsksToReturn, sent_after};
ghost use Rattle.far_store.specs.Calls.{Calls};
ghost use Rattle.object_store.specs.Parts.{AllHere, RefusesParts, bodies_of, forgets_all};
ghost use Rattle.object_store.specs.declared.errors.GetError.{GetError};
ghost use Rattle.object_store.specs.Calls.{Makes, Frees, Gets, Puts, BeginsLeave, EndsLeave, BeginsReturn, EndsReturn};

mod handing;
pub(crate) mod leased;
mod lending;

use crate::bodies::ObjectBody;
use crate::errors::{Denied, GetError, MakeError, PartsError};
use crate::parts::{Parts, first_away, from_one, take_all};
use crate::scoping::{close, note};
use crate::standing::{length_at, place_at, stand, stand_range};
use far_store::FarStore;
use memory::{Memory, OBJECT_LIMIT, Op, Reach};
use placement::{Moved, Place};
use scopes::{MACHINE_LIMIT, Window};
use std::alloc::{AllocError, Global};
use std::marker::Model;

/// Objects by number, from 1 on, a window for each machine, and the far store to which objects are moved. It is seen as
/// the lists of the objects' bytes, of their places and of the windows; a number without bytes is no object, and number 0
/// never is one.
#[derive(Drop)]
pub struct ObjectStore<F: FarStore> {
    alloc: Global,
    bodies: Vec<ObjectBody<F>>,
    // by the number of the machine
    windows: [Window; MACHINE_LIMIT + 1],
    budget: u32,
    // what the objects that aren't far leave of it
    spare: u32,
    store: F,
}

impl<F: FarStore> Model for ObjectStore<F> {
    ghost use Rattle.std.specs.Prelude.{map, ◌≡◌, vec_capacity};
    ghost use Rattle.memory.specs.Objects.{number_count};
    ghost use Rattle.object_store.specs.Stores.{StoreWithin};
    ghost use Rattle.object_store.specs.Bodies.{IsKeptStore, bytes_in, place_in, sent_in};

    ghost Value = { StoreWithin F };

    ghost view = { λ s. record {
      state = record {
        objects = map bytes_in s.bodies.items;
        places = map place_in s.bodies.items;
        windows = s.windows;
        budget = s.budget;
        faults = F.faults_of s.store;
      };
      far = s.store;
      sent = map sent_in s.bodies.items;
    } };

    ghost invariant = { λ s. IsKeptStore s.bodies.items s.windows s.budget s.spare × (vec_capacity s.bodies ≡ number_count) };
}

impl<F: FarStore + Drop> ObjectStore<F> {
    /// A store without objects, over a far store. It takes the memory for all that can be made, their bytes apart. The
    /// objects that aren't far have at most `budget` bytes.
    pub fn new(alloc: Global, budget: u32, store: F) -> Result<Self, AllocError>
        ensures { IfOk result (λ s. s ≡ record { state = store_start budget (F.faults_of store); far = store; sent = unsent ∷ [] }) }
    {
        let mut bodies = Vec::with_capacity(alloc, OBJECT_LIMIT + 1)?;
        bodies.push_reserved(ObjectBody::none(alloc));
        Ok(ObjectStore {
            alloc,
            bodies,
            windows: Default::default(),
            budget,
            spare: budget,
            store,
        })
    }

    /// Takes the store apart, where all objects are here. All scopes close, and parcels that are kept are forgotten, by
    /// rising numbers.
    pub fn into_parts(self) -> Result<Parts<F>, PartsError>
        ensures here { OnOk result (AllHere self.state.places) }
        ensures bodies { IfOk result (λ p. map (λ b. b.items) p.bodies.items ≡ bodies_of self.state.objects) }
        ensures few { IfOk result (λ p. length p.bodies.items ≤ object_limit) }
        ensures calls { IfOk result (λ p. Calls F.called self.far (forgets_all self.sent) p.store) }
        ensures faults { IfOk result (λ p. self.state.faults ≤ F.faults_of p.store) }
        ensures refused { IfErr result (λ e. RefusesParts self.state e) }
    {
        let ObjectStore {
            alloc,
            bodies,
            mut store,
            ..
        } = self;
        if let Some(number) = first_away(bodies.as_slice()) {
            return Err(PartsError::NotHere(number as u32));
        }
        let taken = take_all(alloc, bodies, &mut store)?;
        Ok(Parts {
            bodies: from_one(taken),
            store,
        })
    }
}

impl<F: FarStore> ObjectStore<F> {
    /// Makes an object of so many zeros, and gives its number.
    pub fn make(&mut self, length: u32) -> Result<u32, MakeError>
        requires { (1 ≤ length) × (length ≤ object_bytes) }
        ensures makes { Makes self.old.state length result self.new.state }
        ensures far { self.new.far ≡ self.old.far }
        ensures sent { OnOk result (self.new.sent ≡ self.old.sent ++ unsent ∷ []) }
        ensures same { OnErr result (self.new.sent ≡ self.old.sent) }
    {
        let number = self.bodies.len();
        if number > OBJECT_LIMIT {
            return Err(MakeError::Full);
        }
        if length > self.spare {
            return Err(MakeError::NoRoom);
        }
        match vec![in self.alloc; 0u8; length as usize] {
            Ok(bytes) => {
                self.bodies.push_reserved(ObjectBody::with_bytes(bytes));
                self.spare -= length;
                Ok(number as u32)
            }
            Err(_) => Err(MakeError::Memory),
        }
    }

    /// Whether a machine has an object in scope.
    fn is_scoped(&self, number: u32) -> bool
        requires { IsLive self.now.state.objects number }
        ensures scoped { result ≡ true → IsScoped self.now.state number }
        ensures free { result ≡ false → IsScoped self.now.state number → ⊥ }
    {
        let index = number as usize;
        let bodies = self.bodies.as_slice();
        bodies[index].scopes() > 0
    }

    /// Frees an object that is here and in no scope. Its number is not used again.
    pub fn free(&mut self, number: u32) -> Moved
        ensures frees { Frees self.old.state number result self.new.state }
        ensures asks { AsksToFree F.called self.old number result self.new }
    {
        let index = number as usize;
        match self.place(number) {
            None => Moved::NoObject,
            Some(Place::Here) => {
                if self.is_scoped(number) {
                    return Moved::Scoped;
                }
                let freed = self.length(number as u64) as u32;
                let bodies = self.bodies.as_mut_slice();
                bodies[index].free(self.alloc, &mut self.store);
                self.spare += freed;
                Moved::Done
            }
            Some(place) => Moved::Misplaced(place),
        }
    }

    /// How many bytes an object has, wherever it is; 0 where there is none of this number.
    pub fn length(&self, number: u64) -> usize
        ensures length { result ≡ length (bytes_of self.now.state.objects number) }
        ensures store { IsStore self.now.state }
    {
        length_at(self.bodies.as_slice(), number as usize)
    }

    /// Where an object is, if there is one of this number.
    pub fn place(&self, number: u32) -> Option<Place>
        ensures none { result ≡ None → IsLive self.now.state.objects number → ⊥ }
        ensures some { IfSome result (λ p. StandsAt p self.now.state number) }
    {
        place_at(self.bodies.as_slice(), number as usize)
    }

    /// Reads a range of an object.
    pub fn get(&self, number: u32, offset: u32, length: u32) -> Result<Vec<u8>, GetError>
        ensures got { IfOk result (λ v. Gets self.now.state number offset length (Ok v.items)) }
        ensures refused { IfErr result (λ error. Gets self.now.state number offset length (Err error)) }
    {
        let bodies = self.bodies.as_slice();
        let (index, offset, count) = (number as usize, offset as usize, length as usize);
        stand_range(bodies, index, offset, count)?;
        Ok(bodies[index].copy(self.alloc, offset, count)?)
    }

    /// Copies a range of an object over these bytes, as many as they are. It takes no memory, and on a refusal the bytes stay.
    pub fn read(&self, number: u32, offset: u32, into: &mut [u8]) -> Result<(), Denied>
        ensures got { OnOk result (Gets self.now.state number offset (length into.old) (Ok into.new)) }
        ensures refused { IfErr result (λ denied. Gets self.now.state number offset (length into.old) (Err (GetError.Denied denied))) }
        ensures kept { OnErr result (into.new ≡ into.old) }
    {
        let bodies = self.bodies.as_slice();
        let (index, offset) = (number as usize, offset as usize);
        stand_range(bodies, index, offset, into.len())?;
        bodies[index].read(offset, into);
        Ok(())
    }

    /// Writes bytes over a range of an object.
    pub fn put(&mut self, number: u32, offset: u32, bytes: &[u8]) -> Result<(), Denied>
        ensures puts { Puts self.old.state number offset bytes.now result self.new.state }
        ensures far { self.new.far ≡ self.old.far }
        ensures sent { OnOk result (self.new.sent ≡ set self.old.sent number (record (sent_of self.old.sent number) { clean = false })) }
        ensures same { OnErr result (self.new.sent ≡ self.old.sent) }
    {
        let (index, offset) = (number as usize, offset as usize);
        stand_range(self.bodies.as_slice(), index, offset, bytes.len())?;
        let bodies = self.bodies.as_mut_slice();
        bodies[index].write(offset, bytes);
        Ok(())
    }

    /// Does one access of an object by a machine, which then has it in scope. Takes no memory.
    #[inline(always)]
    pub fn touch(&mut self, who: usize, number: u32, op: &Op) -> Reach
        requires { HasWindow who }
        ensures touches { Touches who self.old.state number op.now result self.new.state }
        ensures far { self.new.far ≡ self.old.far }
        ensures sent { self.new.sent ≡ sent_after op.now result self.old.sent number }
    {
        let index = number as usize;
        match stand(self.bodies.as_slice(), index, op) {
            Err(Denied::Outside) => Reach::Outside,
            Err(Denied::Away) => Reach::Away,
            Ok(()) => {
                let bodies = self.bodies.as_mut_slice();
                let answer = bodies[index].act(op);
                note(bodies, &mut self.windows, who, number);
                Reach::Done(answer)
            }
        }
    }

    /// Closes all scopes of a machine.
    pub fn close_scopes(&mut self, who: usize)
        requires { HasWindow who }
        ensures closes { self.new.state ≡ with_window self.old.state who [] }
        ensures asks { AsksNothing self.old self.new }
    {
        close(self.bodies.as_mut_slice(), &mut self.windows, who);
    }

    /// An object that is here and in no scope begins to leave.
    pub fn leave(&mut self, number: u32) -> Moved
        ensures begins { BeginsLeave self.old.state number result self.new.state }
        ensures asks { AsksNothing self.old self.new }
    {
        let index = number as usize;
        match self.place(number) {
            None => Moved::NoObject,
            Some(Place::Here) => {
                if self.is_scoped(number) {
                    return Moved::Scoped;
                }
                let bodies = self.bodies.as_mut_slice();
                bodies[index].begin_leave();
                Moved::Done
            }
            Some(place) => Moved::Misplaced(place),
        }
    }

    /// An object that leaves is put in the far store. Where that fails it is here again.
    pub fn left(&mut self, number: u32) -> Moved
        ensures ends { EndsLeave self.old.state number result self.new.state }
        ensures asks { AsksToLeave F.called self.old number result self.new }
    {
        let index = number as usize;
        match self.place(number) {
            None => Moved::NoObject,
            Some(Place::Leaving) => {
                let gained = self.length(number as u64) as u32;
                let bodies = self.bodies.as_mut_slice();
                match bodies[index].end_leave(self.alloc, &mut self.store) {
                    Ok(()) => {
                        self.spare += gained;
                        Moved::Done
                    }
                    Err(fault) => Moved::Fault(fault),
                }
            }
            Some(place) => Moved::Misplaced(place),
        }
    }

    /// An object that is far begins to return, where the budget has room for it.
    pub fn return_(&mut self, number: u32) -> Moved
        ensures begins { BeginsReturn self.old.state number result self.new.state }
        ensures asks { AsksNothing self.old self.new }
    {
        let index = number as usize;
        match self.place(number) {
            None => Moved::NoObject,
            Some(Place::Far) => {
                let needed = self.length(number as u64) as u32;
                if needed > self.spare {
                    return Moved::NoRoom;
                }
                let bodies = self.bodies.as_mut_slice();
                bodies[index].begin_return();
                self.spare -= needed;
                Moved::Done
            }
            Some(place) => Moved::Misplaced(place),
        }
    }

    /// An object that returns is got from the far store. Where that fails it is far again.
    pub fn returned(&mut self, number: u32) -> Moved
        ensures ends { EndsReturn F.RETURNS self.old.state number result self.new.state }
        ensures asks { AsksToReturn F.RETURNS F.called self.old number result self.new }
    {
        let index = number as usize;
        match self.place(number) {
            None => Moved::NoObject,
            Some(Place::Returning) => {
                let length = self.length(number as u64) as u32;
                let bodies = self.bodies.as_mut_slice();
                match bodies[index].end_return(&mut self.store) {
                    Ok(()) => Moved::Done,
                    Err(fault) => {
                        self.spare += length;
                        Moved::Fault(fault)
                    }
                }
            }
            Some(place) => Moved::Misplaced(place),
        }
    }
}

/// A store as the memory of a machine.
#[derive(Drop)]
pub struct StoreMemory<'a, F: FarStore> {
    pub store: &'a mut ObjectStore<F>,
    pub who: usize,
}

impl<'a, F: FarStore> Memory for StoreMemory<'a, F> {
    ghost use Rattle.object_store.specs.Stores.{HasWindow};
    ghost use Rattle.object_store.specs.Lending.{lent_memory};
    ghost use Rattle.object_store.specs.Promised.{lent_promises};

    ghost is_ready = { λ m. HasWindow m.who };

    ghost acts = { lent_memory (λ m. m.store.now) (λ m. m.store.ghost_name) (λ m. m.who) };

    ghost promises = { lent_promises (λ m. m.store.now) (λ m. m.store.ghost_name) (λ m. m.who) };

    fn length(&self, number: u64) -> usize {
        self.store.length(number)
    }

    #[inline(always)]
    fn touch(&mut self, number: u32, op: &Op) -> Reach {
        self.store.touch(self.who, number, op)
    }

    fn close_scopes(&mut self) {
        self.store.close_scopes(self.who);
    }
}
