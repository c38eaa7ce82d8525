//! One object whose bytes the caller keeps while it is away.
ghost use Rattle.std.specs.Prelude.{◌≡◌, ◌≢◌, ◌<◌, ◌≤◌, ℕ, [], true, false, ◌∷◌, ◌++◌, Some, None, Ok, is_some, length, IfSome, IfOk, IfErr, OnOk, OnErr};
ghost use Rattle.object_store.specs.Stores.{HasRisen};
ghost use Rattle.far_store.specs.Stores.{Rises, parcel_bytes};
ghost use Rattle.object_store.specs.Bodies.{sent, sent_in};
ghost use Rattle.object_store.specs.Asking.{forgets, leave_calls};
ghost use Rattle.far_store.specs.Calls.Call.{Put, Get};
ghost use Rattle.far_store.specs.Calls.{Calls, parcel_of, AsksInVain};
ghost use Rattle.placement.specs.declared.places.Place.TheVariants as place;
ghost use Rattle.far_store.specs.declared.fault.StoreFault.TheVariants.{Damaged};

use super::{ObjectBody, forget_kept};
use far_store::{FarStore, HandsOut, StoreFault};
use placement::Place;
use std::alloc::Global;

/// Makes a parcel for bytes that the caller keeps, and lets go of an older one first.
#[tactic(auto, using(crate::proofs::Asked::asked_steps))]
fn send_out<F: HandsOut>(store: &mut F, parcel: &mut Option<F::Parcel>, bytes: &Vec<u8>)
    ensures sent { (is_some parcel.new ≡ true) × (sent F.bytes_in parcel.new ≡ bytes.now.items) }
    ensures faults { F.faults_of store.old ≤ F.faults_of store.new }
    ensures puts { Calls F.called store.old (forgets (parcel_bytes F.bytes_in parcel.old) ++ Put bytes.now.items None ∷ []) store.new }
{
    forget_kept(store, parcel);
    *parcel = Some(store.hand_out(bytes));
}

/// Takes the bytes of a parcel from the caller.
#[tactic(auto, using(crate::proofs::Asked::asked_steps))]
fn take_in<F: HandsOut>(
    store: &mut F,
    parcel: &F::Parcel,
    bytes: &[u8],
) -> Result<Vec<u8>, StoreFault>
    requires premise { F.alike (F.bytes_in parcel.now) bytes.now → bytes.now ≡ F.bytes_in parcel.now }
    ensures taken { IfOk result (λ v. (v.items ≡ F.bytes_in parcel.now) × (bytes.now ≡ F.bytes_in parcel.now)) }
    ensures damaged { IfErr result (λ f. f ≡ Damaged → bytes.now ≢ F.bytes_in parcel.now) }
    ensures others { IfErr result (λ f. bytes.now ≢ F.bytes_in parcel.now → f ≡ Damaged) }
    ensures calm { OnOk result (F.faults_of store.new ≡ F.faults_of store.old) }
    ensures fault { OnErr result (Rises (F.faults_of store.old) (F.faults_of store.new)) }
    ensures gets { IfOk result (λ v. Calls F.called store.old (Get (F.bytes_in parcel.now) (Ok v.items) ∷ []) store.new) }
    ensures vain { IfErr result (λ f. (count : ℕ) → AsksInVain F.called store.old (Some (F.bytes_in parcel.now)) count f store.new) }
{
    store.take_back(parcel, bytes)
}

impl<F: FarStore> ObjectBody<F> {
    /// The parcel that stands for its bytes, where the far store alone has them.
    pub fn parcel(&self) -> Option<&F::Parcel>
        ensures some { IfSome result (λ p. F.bytes_in p.now ≡ self.now.bytes) }
        ensures far { result ≡ None → self.now.place ≢ place.Far }
        ensures returning { result ≡ None → self.now.place ≢ place.Returning }
    {
        match self.place {
            Place::Far | Place::Returning => self.parcel.as_ref(),
            Place::Here | Place::Leaving => None,
        }
    }

    /// It is no object any more, and was far.
    pub fn free_far(&mut self, store: &mut F)
        requires far { self.old.place ≡ place.Far }
        ensures new { self.new ≡ record self.old { bytes = []; place = place.Here; parcel = None; clean = false } }
        ensures calls { Calls F.called store.old (forgets self.old.parcel) store.new }
        ensures faults { F.faults_of store.old ≤ F.faults_of store.new }
    {
        forget_kept(store, &mut self.parcel);
        self.clean = false;
        self.length = 0;
        self.place = Place::Here;
    }
}

impl<F: HandsOut> ObjectBody<F> {
    /// Its bytes go to the caller, over these, which are as many. Where its parcel stands for them it stays.
    pub fn end_leave_into(&mut self, alloc: Global, store: &mut F, into: &mut [u8])
        requires leaving { self.old.place ≡ place.Leaving }
        requires live { 0 < length self.old.bytes }
        requires count { length into.old ≡ length self.old.bytes }
        ensures done { self.new ≡ record self.old { place = place.Far; parcel = Some self.old.bytes } }
        ensures into { into.new ≡ self.old.bytes }
        ensures puts { Calls F.called store.old (leave_calls (sent_in self.old) self.old.bytes None) store.new }
        ensures faults { F.faults_of store.old ≤ F.faults_of store.new }
    {
        into.copy_from_slice(self.bytes.as_slice());
        if !self.clean {
            send_out(store, &mut self.parcel, &self.bytes);
        }
        self.bytes = Vec::new(alloc);
        self.place = Place::Far;
    }

    /// Its bytes come from the caller, and its parcel is kept.
    pub fn end_return_from(&mut self, store: &mut F, bytes: &[u8]) -> Result<(), StoreFault>
        requires returning { self.old.place ≡ place.Returning }
        requires live { 0 < length self.old.bytes }
        requires premise { F.alike self.old.bytes bytes.now → bytes.now ≡ self.old.bytes }
        ensures done { OnOk result (self.new ≡ record self.old { place = place.Here; clean = true }) }
        ensures given { OnOk result (bytes.now ≡ self.old.bytes) }
        ensures failed { OnErr result (self.new ≡ record self.old { place = place.Far }) }
        ensures damaged { IfErr result (λ f. f ≡ Damaged → bytes.now ≢ self.old.bytes) }
        ensures others { IfErr result (λ f. bytes.now ≢ self.old.bytes → f ≡ Damaged) }
        ensures calm { OnOk result (F.faults_of store.new ≡ F.faults_of store.old) }
        ensures fault { OnErr result (HasRisen (F.faults_of store.old) (F.faults_of store.new)) }
        ensures gets { OnOk result (Calls F.called store.old (Get (parcel_of self.old.parcel) (Ok self.new.bytes) ∷ []) store.new) }
        ensures vain { IfErr result (λ f. AsksInVain F.called store.old self.old.parcel (length self.old.bytes) f store.new) }
    {
        let taken = match &self.parcel {
            Some(parcel) => take_in(store, parcel, bytes),
            None => unreachable!(),
        };
        match taken {
            Ok(bytes) => {
                self.bytes = bytes;
                self.clean = true;
                self.place = Place::Here;
                Ok(())
            }
            Err(fault) => {
                self.place = Place::Far;
                Err(fault)
            }
        }
    }
}
