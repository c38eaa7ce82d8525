//! What is kept of one object: its place, its bytes, and the parcel that stands for them in the far store.
ghost use Rattle.std.specs.Prelude.{◌≡◌, ◌<◌, ◌≤◌, ◌+◌, ◌-◌, [], true, false, ◌∷◌, ◌++◌, Some, None, Ok, is_some, length, IfOk, IfErr, OnOk, OnErr, IsOk, take};
ghost use Rattle.std.specs.Prelude.{drop, vec_capacity};
ghost use Rattle.memory.specs.Access.{IsInside, answer, after, replaced};
ghost use Rattle.object_store.specs.Stores.{HasRisen};
ghost use Rattle.object_store.specs.Calls.{FailsToReturn};
ghost use Rattle.far_store.specs.Stores.{parcel_bytes};
ghost use Rattle.object_store.specs.Bodies.{sent, sent_in, ReturnsTo};
ghost use Rattle.object_store.specs.Asking.{forgets, leave_calls, clean_after};
ghost use Rattle.far_store.specs.Calls.Call.{Put, Get};
ghost use Rattle.far_store.specs.Calls.{Calls, parcel_of, AsksInVain};
ghost use Rattle.placement.specs.declared.places.Place.TheVariants as place;

mod handing;
mod lending;

use far_store::{FarStore, StoreFault};
use memory::{Action, Op, act, overwrite};
use placement::Place;
use std::alloc::{AllocError, Global};
use std::marker::Model;
use std::mem;

/// One object. It is seen as its bytes, wherever they are, its place, how many windows hold it, and whether it is clean.
///
/// Its parcel stays with it after it has come back, and the mark that it is clean says that the parcel still stands for
/// its bytes: then it leaves again without being sent. An access that can write takes the mark away. Over a store that
/// doesn't promise to return what was put the mark is never set (this project's choice). What is out takes no memory for
/// bytes here.
#[derive(Drop)]
pub struct ObjectBody<F: FarStore> {
    // wherever its bytes are
    length: usize,
    // none where it is out
    bytes: Vec<u8>,
    parcel: Option<F::Parcel>,
    place: Place,
    // how many windows hold it
    scopes: u8,
    clean: bool,
}

impl<F: FarStore> Model for ObjectBody<F> {
    ghost use Rattle.std.specs.Prelude.{vec_capacity};
    ghost use Rattle.far_store.specs.Stores.{parcel_bytes};
    ghost use Rattle.object_store.specs.Bodies.{Kept, IsKept, contents};

    ghost Value = { Kept };

    ghost view = { λ b. record {
      bytes = contents F.bytes_in b.place b.bytes.items b.parcel;
      place = b.place;
      scopes = b.scopes;
      parcel = parcel_bytes F.bytes_in b.parcel;
      clean = b.clean;
    } };

    ghost invariant = { λ b. IsKept F.bytes_in b.length b.bytes.items (vec_capacity b.bytes) b.parcel b.place b.clean };
}

/// Lets go of a parcel, if there is one.
#[tactic(auto, using(crate::proofs::Asked::asked_steps))]
fn forget_kept<F: FarStore>(store: &mut F, parcel: &mut Option<F::Parcel>)
    ensures gone { parcel.new ≡ None }
    ensures calls { Calls F.called store.old (forgets (parcel_bytes F.bytes_in parcel.old)) store.new }
    ensures faults { F.faults_of store.old ≤ F.faults_of store.new }
{
    if let Some(old) = parcel.take() {
        store.forget(old);
    }
}

/// Sends bytes to the far store, and lets go of an older parcel first.
#[tactic(auto, using(crate::proofs::Asked::asked_steps))]
fn send<F: FarStore>(
    alloc: Global,
    store: &mut F,
    parcel: &mut Option<F::Parcel>,
    bytes: &mut Vec<u8>,
) -> Result<(), StoreFault>
    ensures sent { OnOk result ((is_some parcel.new ≡ true) × (sent F.bytes_in parcel.new ≡ bytes.old.items)) }
    ensures lost { OnErr result (parcel.new ≡ None) }
    ensures gone { OnOk result (vec_capacity bytes.new ≡ 0) }
    ensures back { OnErr result (bytes.new.items ≡ bytes.old.items) }
    ensures faults { OnOk result (F.faults_of store.old ≤ F.faults_of store.new) }
    ensures fault { OnErr result (HasRisen (F.faults_of store.old) (F.faults_of store.new)) }
    ensures puts { OnOk result (Calls F.called store.old (forgets (parcel_bytes F.bytes_in parcel.old) ++ Put bytes.old.items None ∷ []) store.new) }
    ensures tries { IfErr result (λ f. Calls F.called store.old (forgets (parcel_bytes F.bytes_in parcel.old) ++ Put bytes.old.items (Some f) ∷ []) store.new) }
{
    forget_kept(store, parcel);
    match store.put(mem::replace(bytes, Vec::new(alloc))) {
        Ok(new) => {
            *parcel = Some(new);
            Ok(())
        }
        Err((fault, back)) => {
            *bytes = back;
            Err(fault)
        }
    }
}

/// Fetches the bytes of a parcel, which are to be so many.
#[tactic(auto, using(crate::proofs::Asked::asked_steps))]
fn fetch<F: FarStore>(
    store: &mut F,
    parcel: &F::Parcel,
    count: usize,
) -> Result<Vec<u8>, StoreFault>
    requires count { length (F.bytes_in parcel.now) ≡ count }
    ensures count { IfOk result (λ v. length v.items ≡ count) }
    ensures bytes { IfOk result (λ v. F.RETURNS ≡ true → v.items ≡ F.bytes_in parcel.now) }
    ensures calm { OnOk result (F.faults_of store.new ≡ F.faults_of store.old) }
    ensures fault { OnErr result (FailsToReturn F.RETURNS (F.faults_of store.old) (F.faults_of store.new)) }
    ensures gets { IfOk result (λ v. Calls F.called store.old (Get (F.bytes_in parcel.now) (Ok v.items) ∷ []) store.new) }
    ensures vain { IfErr result (λ f. AsksInVain F.called store.old (Some (F.bytes_in parcel.now)) count f store.new) }
{
    match store.get(parcel) {
        Ok(bytes) => {
            if bytes.len() == count {
                Ok(bytes)
            } else {
                Err(StoreFault::Damaged)
            }
        }
        Err(fault) => Err(fault),
    }
}

impl<F: FarStore> ObjectBody<F> {
    /// No object.
    pub fn none(alloc: Global) -> Self
        ensures { result ≡ record { bytes = []; place = place.Here; scopes = 0; parcel = None; clean = false } }
    {
        ObjectBody {
            length: 0,
            bytes: Vec::new(alloc),
            parcel: None,
            place: Place::Here,
            scopes: 0,
            clean: false,
        }
    }

    /// An object of these bytes.
    pub fn with_bytes(bytes: Vec<u8>) -> Self
        requires { 0 < length bytes.items }
        ensures { result ≡ record { bytes = bytes.items; place = place.Here; scopes = 0; parcel = None; clean = false } }
    {
        ObjectBody {
            length: bytes.len(),
            bytes,
            parcel: None,
            place: Place::Here,
            scopes: 0,
            clean: false,
        }
    }

    /// How many bytes it has.
    #[inline(always)]
    pub fn len(&self) -> usize
        ensures { result ≡ length self.now.bytes }
    {
        self.length
    }

    /// Where it is.
    #[inline(always)]
    pub fn place(&self) -> Place
        ensures { result ≡ self.now.place }
    {
        self.place
    }

    /// Whether it may be reached.
    #[inline(always)]
    pub fn is_here(&self) -> bool
        ensures here { result ≡ true → self.now.place ≡ place.Here }
        ensures away { result ≡ false → self.now.place ≡ place.Here → ⊥ }
    {
        matches!(self.place, Place::Here)
    }

    /// How many windows hold it.
    pub fn scopes(&self) -> u8
        ensures { result ≡ self.now.scopes }
    {
        self.scopes
    }

    /// Does an access.
    #[inline(always)]
    pub fn act(&mut self, op: &Op) -> u64
        requires here { self.old.place ≡ place.Here }
        requires inside { IsInside op.now (length self.old.bytes) }
        ensures answer { result ≡ answer op.now self.old.bytes }
        ensures new { self.new ≡ record self.old { bytes = after op.now self.old.bytes; clean = clean_after op.now.action self.old.clean } }
    {
        // A compare-exchange can write, whatever it finds. A load doesn't write the mark again, since it is done more often.
        if !matches!(&op.action, Action::Load { .. }) {
            self.clean = false;
        }
        act(self.bytes.as_mut_slice(), op)
    }

    /// A copy of a range.
    pub fn copy(&self, alloc: Global, offset: usize, count: usize) -> Result<Vec<u8>, AllocError>
        requires here { self.now.place ≡ place.Here }
        requires inside { offset + count ≤ length self.now.bytes }
        ensures { IfOk result (λ v. v.items ≡ take count (drop offset self.now.bytes)) }
    {
        Vec::from_slice(alloc, &self.bytes[offset..offset + count])
    }

    /// Copies a range over these bytes, which are as many.
    pub fn read(&self, offset: usize, into: &mut [u8])
        requires here { self.now.place ≡ place.Here }
        requires inside { offset + length into.old ≤ length self.now.bytes }
        ensures { into.new ≡ take (length into.old) (drop offset self.now.bytes) }
    {
        into.copy_from_slice(&self.bytes[offset..offset + into.len()]);
    }

    /// Writes over a range.
    pub fn write(&mut self, offset: usize, bytes: &[u8])
        requires here { self.old.place ≡ place.Here }
        requires inside { offset + length bytes.now ≤ length self.old.bytes }
        ensures { self.new ≡ record self.old { bytes = replaced offset bytes.now self.old.bytes; clean = false } }
    {
        self.clean = false;
        overwrite(self.bytes.as_mut_slice(), offset, bytes);
    }

    /// One window more holds it.
    #[inline(always)]
    pub fn open_scope(&mut self)
        requires { self.old.scopes < 255 }
        ensures { self.new ≡ record self.old { scopes = self.old.scopes + 1 } }
    {
        self.scopes += 1;
    }

    /// One window fewer holds it.
    #[inline(always)]
    pub fn close_scope(&mut self)
        requires { 0 < self.old.scopes }
        ensures { self.new ≡ record self.old { scopes = self.old.scopes - 1 } }
    {
        self.scopes -= 1;
    }

    /// It is no object any more.
    pub fn free(&mut self, alloc: Global, store: &mut F)
        requires here { self.old.place ≡ place.Here }
        ensures new { self.new ≡ record self.old { bytes = []; parcel = None; clean = false } }
        ensures calls { Calls F.called store.old (forgets self.old.parcel) store.new }
        ensures faults { F.faults_of store.old ≤ F.faults_of store.new }
    {
        forget_kept(store, &mut self.parcel);
        self.clean = false;
        self.bytes = Vec::new(alloc);
        self.length = 0;
    }

    /// Its bytes, where it is here. Its parcel is forgotten.
    pub fn into_bytes(self, store: &mut F) -> Vec<u8>
        ensures bytes { self.place ≡ place.Here → result.items ≡ self.bytes }
        ensures calls { Calls F.called store.old (forgets self.parcel) store.new }
        ensures faults { F.faults_of store.old ≤ F.faults_of store.new }
    {
        let ObjectBody {
            bytes,
            mut parcel,
            ..
        } = self;
        forget_kept(store, &mut parcel);
        bytes
    }

    /// It begins to leave.
    pub fn begin_leave(&mut self)
        requires here { self.old.place ≡ place.Here }
        requires alone { self.old.scopes ≡ 0 }
        ensures { self.new ≡ record self.old { place = place.Leaving } }
    {
        self.place = Place::Leaving;
    }

    /// Its bytes go to the far store, unless its parcel stands for them.
    pub fn end_leave(&mut self, alloc: Global, store: &mut F) -> Result<(), StoreFault>
        requires leaving { self.old.place ≡ place.Leaving }
        requires live { 0 < length self.old.bytes }
        ensures done { OnOk result (self.new ≡ record self.old { place = place.Far; parcel = Some self.old.bytes }) }
        ensures failed { OnErr result (self.new ≡ record self.old { place = place.Here; parcel = None }) }
        ensures clean { self.old.clean ≡ true → IsOk result }
        ensures puts { OnOk result (Calls F.called store.old (leave_calls (sent_in self.old) self.old.bytes None) store.new) }
        ensures tries { IfErr result (λ f. Calls F.called store.old (leave_calls (sent_in self.old) self.old.bytes (Some f)) store.new) }
        ensures faults { OnOk result (F.faults_of store.old ≤ F.faults_of store.new) }
        ensures fault { OnErr result (HasRisen (F.faults_of store.old) (F.faults_of store.new)) }
    {
        if self.clean {
            self.bytes = Vec::new(alloc);
        } else if let Err(fault) = send(alloc, store, &mut self.parcel, &mut self.bytes) {
            self.place = Place::Here;
            return Err(fault);
        }
        self.place = Place::Far;
        Ok(())
    }

    /// It begins to return.
    pub fn begin_return(&mut self)
        requires far { self.old.place ≡ place.Far }
        ensures { self.new ≡ record self.old { place = place.Returning } }
    {
        self.place = Place::Returning;
    }

    /// Its bytes come from the far store, and its parcel is kept.
    pub fn end_return(&mut self, store: &mut F) -> Result<(), StoreFault>
        requires returning { self.old.place ≡ place.Returning }
        requires live { 0 < length self.old.bytes }
        ensures done { OnOk result (ReturnsTo F.RETURNS self.old self.new) }
        ensures failed { OnErr result (self.new ≡ record self.old { place = place.Far }) }
        ensures calm { OnOk result (F.faults_of store.new ≡ F.faults_of store.old) }
        ensures fault { OnErr result (FailsToReturn F.RETURNS (F.faults_of store.old) (F.faults_of store.new)) }
        ensures gets { OnOk result (Calls F.called store.old (Get (parcel_of self.old.parcel) (Ok self.new.bytes) ∷ []) store.new) }
        ensures vain { IfErr result (λ f. AsksInVain F.called store.old self.old.parcel (length self.old.bytes) f store.new) }
    {
        let fetched = match &self.parcel {
            Some(parcel) => fetch(store, parcel, self.length),
            None => unreachable!(),
        };
        match fetched {
            Ok(bytes) => {
                self.bytes = bytes;
                self.clean = F::RETURNS;
                self.place = Place::Here;
                Ok(())
            }
            Err(fault) => {
                self.place = Place::Far;
                Err(fault)
            }
        }
    }
}
