//! What is left of a store that is taken apart: the bytes of its objects, and the far store.
ghost use Rattle.std.specs.Prelude.{◌≡◌, ◌<◌, ◌≤◌, length, map, None, IfSome, IfOk, OnOk};
ghost use Rattle.far_store.specs.Calls.{Calls};
ghost use Rattle.object_store.specs.Bodies.{bytes_in, place_in, sent_in};
ghost use Rattle.object_store.specs.Parts.{AllHere, AreHere, IsFirstAway, bodies_of, forgets_all};

use crate::bodies::ObjectBody;
use far_store::FarStore;
use std::alloc::{AllocError, Global};

/// The parts of a store of which all objects were here.
#[derive(Drop)]
pub struct Parts<F> {
    /// The bytes of each object, from number 1 on: none where it was freed. Where no object was ever made this is one
    /// body without bytes.
    pub bodies: Vec<Vec<u8>>,
    /// The far store, which keeps no parcel of these objects.
    pub store: F,
}

/// The least number whose object isn't here, if there is one.
#[tactic(auto, using(crate::proofs::Apart::scan_steps))]
pub fn first_away<F: FarStore>(bodies: &[ObjectBody<F>]) -> Option<usize>
    ensures none { result ≡ None → AllHere (map place_in bodies.now) }
    ensures some { IfSome result (λ n. IsFirstAway (map place_in bodies.now) n) }
    ensures found { IfSome result (λ n. n < length bodies.now) }
{
    for number in 0..bodies.len() {
        if !bodies[number].is_here() {
            return Some(number);
        }
    }
    None
}

/// The bytes of all objects, which are here. Their parcels are forgotten.
pub fn take_all<F: FarStore>(
    alloc: Global,
    bodies: Vec<ObjectBody<F>>,
    store: &mut F,
) -> Result<Vec<Vec<u8>>, AllocError>
    ensures bytes { IfOk result (λ v. AreHere bodies.items → map (λ b. b.items) v.items ≡ map bytes_in bodies.items) }
    ensures calls { OnOk result (Calls F.called store.old (forgets_all (map sent_in bodies.items)) store.new) }
    ensures faults { OnOk result (F.faults_of store.old ≤ F.faults_of store.new) }
{
    let mut taken = Vec::with_capacity(alloc, bodies.len())?;
    for body in bodies {
        taken.push_reserved(body.into_bytes(store));
    }
    Ok(taken)
}

/// Bodies from number 1 on, of those from number 0 on. Where there is none but that of number 0, it stays.
#[tactic(auto, using(crate::proofs::Apart::number_steps))]
pub fn from_one(bodies: Vec<Vec<u8>>) -> Vec<Vec<u8>>
    ensures { map (λ b. b.items) result.items ≡ bodies_of (map (λ b. b.items) bodies.items) }
{
    let mut bodies = bodies;
    if bodies.len() > 1 {
        let _none = bodies.remove(0);
    }
    bodies
}
