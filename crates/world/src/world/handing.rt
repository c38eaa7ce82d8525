//! Objects whose bytes the caller keeps while they are away, objects that are freed where they are far, and where objects are.
ghost use Rattle.std.specs.Prelude.{◌≡◌, ◌≢◌, true, None, IfSome, length};
ghost use Rattle.memory.specs.Objects.{IsLive, bytes_of};
ghost use Rattle.far_store.specs.declared.fault.StoreFault.{StoreFault};
ghost use Rattle.far_store.specs.declared.fault.StoreFault.TheVariants.{Damaged};
ghost use Rattle.placement.specs.declared.places.Moved.{Moved};
ghost use Rattle.placement.specs.declared.places.Place.TheVariants as place;
ghost use Rattle.object_store.specs.Asking.{AsksToFree, AsksToLeave, AsksToReturn};
ghost use Rattle.object_store.specs.Stores.{StandsAt};
ghost use Rattle.object_store.specs.Handing.{FreesFar};
ghost use Rattle.world.specs.Answers.{Event, ObjectCommand, Move, Reply, Answers};
ghost use Rattle.world.specs.Plain.{PlainAnswers, plain_of};
ghost use Rattle.world.specs.WorldState.{state_of};

use super::World;
use far_store::{FarStore, HandsOut};
use object_store::{Moved, Place};

impl<F: FarStore> World<F> {
    /// Where an object is, if there is one of this number.
    pub fn place(&self, object: u32) -> Option<Place>
        ensures none { result ≡ None → IsLive self.now.store.state.objects object → ⊥ }
        ensures some { IfSome result (λ p. StandsAt p self.now.store.state object) }
    {
        self.store.place(object)
    }

    /// How many bytes an object has, wherever it is; 0 where there is none of this number.
    pub fn length(&self, object: u32) -> usize
        ensures { result ≡ length (bytes_of self.now.store.state.objects object) }
    {
        self.store.length(object as u64)
    }

    /// The parcel that stands for the bytes of an object, where the far store alone has them.
    pub fn parcel(&self, object: u32) -> Option<&F::Parcel>
        ensures some { IfSome result (λ p. F.bytes_in p.now ≡ bytes_of self.now.store.state.objects object) }
        ensures far { result ≡ None → StandsAt place.Far self.now.store.state object → ⊥ }
        ensures returning { result ≡ None → StandsAt place.Returning self.now.store.state object → ⊥ }
    {
        self.store.parcel(object)
    }

    /// Frees an object that is far, as `free` does one that is here.
    pub fn forget(&mut self, object: u32) -> Moved
        ensures frees { FreesFar self.old.store.state object result self.new.store.state }
        ensures asks { AsksToFree F.called self.old.store object result self.new.store }
        ensures machines { self.new.machines ≡ self.old.machines }
        ensures plain { result ≡ Moved.Done
            → PlainAnswers (plain_of (state_of self.old)) (Event.Object object ObjectCommand.Free) (Reply.Freed object Moved.Done) (plain_of (state_of self.new)) }
        ensures refused { result ≢ Moved.Done → state_of self.new ≡ state_of self.old }
    {
        self.store.forget(object)
    }
}

impl<F: HandsOut> World<F> {
    /// The command `left`, where the caller keeps the bytes: they are copied over these, which are as many. It never fails.
    #[tactic(auto, using(crate::proofs::Moves::ends_leave))]
    pub fn left_into(&mut self, object: u32, into: &mut [u8]) -> Moved
        requires count { length into.old ≡ length (bytes_of self.old.store.state.objects object) }
        ensures answers { Answers (state_of self.old) (Event.Object object (ObjectCommand.Move Move.Left))
            (Reply.Moved object Move.Left result) (state_of self.new) }
        ensures asks { AsksToLeave F.called self.old.store object result self.new.store }
        ensures bytes { result ≡ Moved.Done → into.new ≡ bytes_of self.old.store.state.objects object }
        ensures kept { result ≢ Moved.Done → into.new ≡ into.old }
        ensures far { result ≡ Moved.Done → StandsAt place.Far self.new.store.state object }
        ensures objects { self.new.store.state.objects ≡ self.old.store.state.objects }
        ensures never { (f : StoreFault) → result ≢ Moved.Fault f }
    {
        self.store.left_into(object, into)
    }

    /// The command `returned`, with the bytes that the caller kept. Where they are others, or find no memory, the far store
    /// fails. Bytes that the far store cannot tell from those have to be those.
    pub fn returned_from(&mut self, object: u32, bytes: &[u8]) -> Moved
        requires premise { F.alike (bytes_of self.old.store.state.objects object) bytes.now → bytes.now ≡ bytes_of self.old.store.state.objects object }
        ensures answers { Answers (state_of self.old) (Event.Object object (ObjectCommand.Move Move.Returned))
            (Reply.Moved object Move.Returned result) (state_of self.new) }
        ensures asks { AsksToReturn true F.called self.old.store object result self.new.store }
        ensures given { result ≡ Moved.Done → bytes.now ≡ bytes_of self.old.store.state.objects object }
        ensures damaged { result ≡ Moved.Fault Damaged → bytes.now ≢ bytes_of self.old.store.state.objects object }
        ensures others { (f : StoreFault) → result ≡ Moved.Fault f → bytes.now ≢ bytes_of self.old.store.state.objects object → f ≡ Damaged }
    {
        self.store.returned_from(object, bytes)
    }
}
