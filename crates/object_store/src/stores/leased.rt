//! A store as the memory of a machine that runs. The object that the machine reached last is taken out meanwhile, so that the
//! next access to it looks for no object, no place and no window.
ghost use Rattle.std.specs.Prelude.{◌≡◌, ◌<◌, true, length};
ghost use Rattle.scopes.specs.Windows.{holds};
ghost use Rattle.object_store.specs.Stores.{HasWindow, StandsAt, window_of};
ghost use Rattle.object_store.specs.Lending.{TouchesWithin};
ghost use Rattle.object_store.specs.Leases.{IsIdle, IsLeased, IsLeasing, filled};
ghost use Rattle.placement.specs.declared.places.Place.TheVariants as place;

use super::ObjectStore;
use crate::bodies::ObjectBody;
use far_store::FarStore;
use memory::{Memory, Op, Reach};
use std::mem;

/// A number that no object has.
const NONE: u32 = 0xffff_ffff;

/// After so many accesses in turn to one object, none of which was out, it is taken out. Taking out and putting back costs more
/// than an access, so that a machine that goes to and fro between objects does without.
const STEADY: u8 = 8;

/// Accesses to objects that weren't out.
#[derive(Clone, Copy, Drop)]
pub(crate) struct Misses {
    count: u32,
    // the object of the last one, and how many there were in turn
    number: u32,
    in_turn: u8,
}

impl Misses {
    const NONE: Misses = Misses {
        count: 0,
        number: NONE,
        in_turn: 0,
    };

    /// Notes an access, and answers whether there were enough of them in turn to one object.
    #[inline]
    fn is_steady(&mut self, number: u32) -> bool {
        let again = number == self.number && self.in_turn < STEADY;
        self.count = self.count.saturating_add(1);
        self.number = number;
        self.in_turn = if again { self.in_turn + 1 } else { 0 };
        self.in_turn == STEADY
    }
}

/// Puts the object back that is out, if one is.
fn end<F: FarStore>(store: &mut ObjectStore<F>, who: usize, at: &mut u32, body: &mut ObjectBody<F>)
    requires { IsLeasing who store.old at.old body.old }
    ensures back { store.new ≡ filled store.old at.old body.old }
    ensures idle { IsIdle store.new at.new body.new }
{
    if body.len() > 0 {
        let taken = mem::replace(body, ObjectBody::none(store.alloc));
        store.fill(*at, taken);
    }
    let count = store.count();
    prove!(count <= NONE as usize);
    *at = NONE;
}

/// Takes out an object that is here, and that the machine has in scope.
fn begin<F: FarStore>(
    store: &mut ObjectStore<F>,
    who: usize,
    number: u32,
    at: &mut u32,
    body: &mut ObjectBody<F>,
)
    requires stands { StandsAt place.Here store.old.state number }
    requires window { who < length store.old.state.windows }
    requires held { holds number (window_of store.old.state.windows who) ≡ true }
    ensures seen { filled store.new at.new body.new ≡ store.old }
    ensures leased { IsLeased who store.new at.new body.new }
{
    *body = store.take(number);
    *at = number;
}

/// Does an access to another object, which is out from then on if it was reached often in turn. The access is passed by value: a
/// reference would have its bytes written to memory before each access, and not before this one alone.
#[cold]
#[inline(never)]
fn touch_other<F: FarStore>(
    store: &mut ObjectStore<F>,
    who: usize,
    at: &mut u32,
    body: &mut ObjectBody<F>,
    misses: &mut Misses,
    number: u32,
    op: Op,
) -> Reach
    requires { IsLeasing who store.old at.old body.old }
    ensures touches { TouchesWithin who (filled store.old at.old body.old) number op result (filled store.new at.new body.new) }
    ensures ready { IsLeasing who store.new at.new body.new }
{
    end(store, who, at, body);
    let answer = store.touch(who, number, &op);
    let count = store.count();
    prove!(count > 0);
    if !misses.is_steady(number) {
        return answer;
    }
    if let Reach::Done(_) = answer {
        begin(store, who, number, at, body);
    }
    answer
}

/// The object that is out of a store, and its number. Or none is.
#[derive(Drop)]
pub struct Lease<F: FarStore> {
    pub(crate) at: u32,
    pub(crate) body: ObjectBody<F>,
    pub(crate) misses: Misses,
}

impl<F: FarStore> Lease<F> {
    /// How many accesses were to objects that weren't out. Each takes some three times as long as one to the object that is.
    pub fn misses(&self) -> u32 {
        self.misses.count
    }
}

/// A store as the memory of a machine that runs, with the object that the machine reached last out of it. It is seen as the
/// store with that object in its place.
#[derive(Drop)]
pub struct LeasedMemory<'a, F: FarStore> {
    pub store: &'a mut ObjectStore<F>,
    pub who: usize,
    pub lease: Lease<F>,
}

impl<F: FarStore> ObjectStore<F> {
    /// No object is out. The clause alone reads `who`.
    pub fn lease_none(&self, who: usize) -> Lease<F>
        requires { HasWindow who }
        ensures ready { IsLeasing who self.now result.at result.body }
        ensures seen { filled self.now result.at result.body ≡ self.now }
    {
        let count = self.count();
        prove!(count <= NONE as usize);
        Lease {
            at: NONE,
            body: ObjectBody::none(self.alloc),
            misses: Misses::NONE,
        }
    }

    /// Puts back the object that is out, if one is.
    pub fn end_lease(&mut self, who: usize, lease: Lease<F>)
        requires { IsLeasing who self.old lease.at lease.body }
        ensures { self.new ≡ filled self.old lease.at lease.body }
    {
        let Lease { at, body, .. } = lease;
        if body.len() > 0 {
            self.fill(at, body);
        }
    }
}

impl<'a, F: FarStore> Memory for LeasedMemory<'a, F> {
    ghost use Rattle.object_store.specs.Lending.{lent_memory};
    ghost use Rattle.object_store.specs.Promised.{lent_promises};
    ghost use Rattle.object_store.specs.Leases.{IsLeasing, filled};

    ghost is_ready = { λ m. IsLeasing m.who m.store.now m.lease.at m.lease.body };

    ghost acts = { lent_memory (λ m. filled m.store.now m.lease.at m.lease.body) (λ m. m.store.ghost_name) (λ m. m.who) };

    ghost promises = { lent_promises (λ m. filled m.store.now m.lease.at m.lease.body) (λ m. m.store.ghost_name) (λ m. m.who) };

    fn length(&self, number: u64) -> usize {
        if number == self.lease.at as u64 {
            return self.lease.body.len();
        }
        self.store.length(number)
    }

    #[inline(always)]
    fn touch(&mut self, number: u32, op: &Op) -> Reach {
        if number != self.lease.at {
            return touch_other(
                self.store,
                self.who,
                &mut self.lease.at,
                &mut self.lease.body,
                &mut self.lease.misses,
                number,
                *op,
            );
        }
        if !op.is_inside(self.lease.body.len()) {
            return Reach::Outside;
        }
        Reach::Done(self.lease.body.act(op))
    }

    fn close_scopes(&mut self) {
        end(
            self.store,
            self.who,
            &mut self.lease.at,
            &mut self.lease.body,
        );
        self.store.close_scopes(self.who);
    }
}
