//! Objects whose bytes the caller keeps while they are away, and objects that are freed where they are far.
ghost use Rattle.std.specs.Prelude.{◌≡◌, ◌≢◌, true, length, None, IfSome};
ghost use Rattle.memory.specs.Objects.{bytes_of};
ghost use Rattle.object_store.specs.Stores.{StandsAt};
ghost use Rattle.object_store.specs.Asking.{AsksToFree, AsksToLeave, AsksToReturn};
ghost use Rattle.object_store.specs.Calls.{EndsLeave, EndsReturn};
ghost use Rattle.object_store.specs.Handing.{FreesFar};
ghost use Rattle.placement.specs.declared.places.Moved.{Moved};
ghost use Rattle.placement.specs.declared.places.Place.TheVariants as place;
ghost use Rattle.far_store.specs.declared.fault.StoreFault.{StoreFault};
ghost use Rattle.far_store.specs.declared.fault.StoreFault.TheVariants.{Damaged};

use super::ObjectStore;
use far_store::{FarStore, HandsOut};
use placement::{Moved, Place};

impl<F: FarStore> ObjectStore<F> {
    /// The parcel that stands for the bytes of an object, where the far store alone has them.
    pub fn parcel(&self, number: u32) -> Option<&F::Parcel>
        ensures some { IfSome result (λ p. F.bytes_in p.now ≡ bytes_of self.now.state.objects number) }
        ensures far { result ≡ None → StandsAt place.Far self.now.state number → ⊥ }
        ensures returning { result ≡ None → StandsAt place.Returning self.now.state number → ⊥ }
    {
        let bodies = self.bodies.as_slice();
        let index = number as usize;
        if index >= bodies.len() {
            return None;
        }
        bodies[index].parcel()
    }

    /// Frees an object that is far, and lets go of its parcel. Its number is not used again.
    pub fn forget(&mut self, number: u32) -> Moved
        ensures frees { FreesFar self.old.state number result self.new.state }
        ensures asks { AsksToFree F.called self.old number result self.new }
    {
        let index = number as usize;
        match self.place(number) {
            None => Moved::NoObject,
            Some(Place::Far) => {
                let bodies = self.bodies.as_mut_slice();
                bodies[index].free_far(&mut self.store);
                Moved::Done
            }
            Some(place) => Moved::Misplaced(place),
        }
    }
}

impl<F: HandsOut> ObjectStore<F> {
    /// An object that leaves is far, and the caller keeps its bytes: they are copied over these, which are as many. Where the
    /// object wasn't written since the caller had them, its parcel stays.
    pub fn left_into(&mut self, number: u32, into: &mut [u8]) -> Moved
        requires count { length into.old ≡ length (bytes_of self.old.state.objects number) }
        ensures ends { EndsLeave self.old.state number result self.new.state }
        ensures asks { AsksToLeave F.called self.old number result self.new }
        ensures bytes { result ≡ Moved.Done → into.new ≡ bytes_of self.old.state.objects number }
        ensures kept { result ≢ Moved.Done → into.new ≡ into.old }
        ensures far { result ≡ Moved.Done → StandsAt place.Far self.new.state number }
        ensures never { (f : StoreFault) → result ≢ Moved.Fault f }
    {
        let index = number as usize;
        match self.place(number) {
            None => Moved::NoObject,
            Some(Place::Leaving) => {
                let gained = self.length(number as u64) as u32;
                let bodies = self.bodies.as_mut_slice();
                bodies[index].end_leave_into(self.alloc, &mut self.store, into);
                self.spare += gained;
                Moved::Done
            }
            Some(place) => Moved::Misplaced(place),
        }
    }

    /// An object that returns has its bytes back from the caller, who kept them. Where they are others, or find no memory, it is
    /// far again.
    pub fn returned_from(&mut self, number: u32, bytes: &[u8]) -> Moved
        requires premise { F.alike (bytes_of self.old.state.objects number) bytes.now → bytes.now ≡ bytes_of self.old.state.objects number }
        ensures ends { EndsReturn true self.old.state number result self.new.state }
        ensures asks { AsksToReturn true F.called self.old number result self.new }
        ensures given { result ≡ Moved.Done → bytes.now ≡ bytes_of self.old.state.objects number }
        ensures damaged { result ≡ Moved.Fault Damaged → bytes.now ≢ bytes_of self.old.state.objects number }
        ensures others { (f : StoreFault) → result ≡ Moved.Fault f → bytes.now ≢ bytes_of self.old.state.objects number → f ≡ Damaged }
    {
        let index = number as usize;
        match self.place(number) {
            None => Moved::NoObject,
            Some(Place::Returning) => {
                let length = self.length(number as u64) as u32;
                let bodies = self.bodies.as_mut_slice();
                match bodies[index].end_return_from(&mut self.store, bytes) {
                    Ok(()) => Moved::Done,
                    Err(fault) => {
                        self.spare += length;
                        Moved::Fault(fault)
                    }
                }
            }
            Some(place) => Moved::Misplaced(place),
        }
    }
}
