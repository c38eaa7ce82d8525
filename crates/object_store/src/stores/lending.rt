//! Objects that are taken out of a store for a time.
ghost use Rattle.std.specs.Prelude.{◌≡◌, ◌≤◌, length};
ghost use Rattle.memory.specs.Objects.{number_count};
ghost use Rattle.object_store.specs.Stores.{IsStore, StandsAt};
ghost use Rattle.object_store.specs.Leases.{IsOut, filled, without};
ghost use Rattle.placement.specs.declared.places.Place.TheVariants as place;

use super::ObjectStore;
use crate::bodies::ObjectBody;
use far_store::FarStore;

impl<F: FarStore> ObjectStore<F> {
    /// How many numbers it has, with 0.
    pub(crate) fn count(&self) -> usize
        ensures objects { result ≡ length self.now.state.objects }
        ensures sent { result ≡ length self.now.sent }
        ensures limit { result ≤ number_count }
        ensures store { IsStore self.now.state }
    {
        self.bodies.len()
    }

    /// Takes out an object that is here.
    pub(crate) fn take(&mut self, number: u32) -> ObjectBody<F>
        requires { StandsAt place.Here self.old.state number }
        ensures without { self.new ≡ without self.old number }
        ensures seen { filled self.new number result ≡ self.old }
        ensures out { IsOut self.new number result }
    {
        let index = number as usize;
        let gained = self.length(number as u64) as u32;
        let bodies = self.bodies.as_mut_slice();
        let taken = bodies[index].take(self.alloc);
        self.spare += gained;
        taken
    }

    /// Puts back an object that is out.
    pub(crate) fn fill(&mut self, number: u32, body: ObjectBody<F>)
        requires { IsOut self.old number body }
        ensures { self.new ≡ filled self.old number body }
    {
        let index = number as usize;
        let needed = body.len() as u32;
        let bodies = self.bodies.as_mut_slice();
        bodies[index].fill(body);
        self.spare -= needed;
    }
}
