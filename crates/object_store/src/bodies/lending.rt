//! One object that is taken out of its place for a time.
ghost use Rattle.std.specs.Prelude.{◌≡◌, [], false, None};
ghost use Rattle.placement.specs.declared.places.Place.TheVariants as place;

use super::ObjectBody;
use far_store::FarStore;
use placement::Place;
use std::alloc::Global;
use std::mem;

impl<F: FarStore> ObjectBody<F> {
    /// Takes it out. No object is left, and as many windows hold its number.
    pub fn take(&mut self, alloc: Global) -> Self
        requires here { self.old.place ≡ place.Here }
        ensures taken { result ≡ record self.old { scopes = 0 } }
        ensures left { self.new ≡ record { bytes = []; place = place.Here; scopes = self.old.scopes; parcel = None; clean = false } }
    {
        ObjectBody {
            length: mem::replace(&mut self.length, 0),
            bytes: mem::replace(&mut self.bytes, Vec::new(alloc)),
            parcel: self.parcel.take(),
            place: Place::Here,
            scopes: 0,
            clean: mem::replace(&mut self.clean, false),
        }
    }

    /// Puts an object in its place, which as many windows hold.
    pub fn fill(&mut self, body: Self)
        requires here { self.old.place ≡ place.Here }
        requires there { body.place ≡ place.Here }
        ensures { self.new ≡ record body { scopes = self.old.scopes } }
    {
        let ObjectBody {
            length,
            bytes,
            parcel,
            clean,
            ..
        } = body;
        self.length = length;
        self.bytes = bytes;
        self.parcel = parcel;
        self.clean = clean;
    }
}
