//! One object of a list: how long it is, where it is, and whether an access can be done.
ghost use Rattle.std.specs.Prelude.{◌≡◌, ◌<◌, length, map, None, IfSome, IsSome, IsOk};
ghost use Rattle.memory.specs.Objects.{bytes_of};
ghost use Rattle.object_store.specs.Stores.{place_of};
ghost use Rattle.object_store.specs.Bodies.{bytes_in, place_in};
ghost use Rattle.object_store.specs.Standings.{Stands, StandsRange};
ghost use Rattle.placement.specs.declared.places.Place.TheVariants as place;

use crate::bodies::ObjectBody;
use crate::errors::Denied;
use far_store::FarStore;
use memory::Op;
use placement::Place;

/// How many bytes a number has, wherever they are.
#[tactic(auto, using(crate::proofs::Listed::at_steps))]
#[inline(always)]
pub fn length_at<F: FarStore>(bodies: &[ObjectBody<F>], number: usize) -> usize
    ensures value { result ≡ length (bytes_of (map bytes_in bodies.now) number) }
    ensures found { 0 < result → number < length bodies.now }
{
    if number >= bodies.len() {
        return 0;
    }
    bodies[number].len()
}

/// The place of an object, if there is one.
#[tactic(auto, using(crate::proofs::Listed::at_steps))]
pub fn place_at<F: FarStore>(bodies: &[ObjectBody<F>], number: usize) -> Option<Place>
    ensures none { result ≡ None → length (bytes_of (map bytes_in bodies.now) number) ≡ 0 }
    ensures some { IfSome result (λ p. (0 < length (bytes_of (map bytes_in bodies.now) number)) × (place_of (map place_in bodies.now) number ≡ p)) }
    ensures found { IsSome result → number < length bodies.now }
{
    if length_at(bodies, number) == 0 {
        return None;
    }
    Some(bodies[number].place())
}

/// Whether an access can be done.
#[tactic(auto, using(crate::proofs::Listed::at_steps))]
#[inline(always)]
pub fn stand<F: FarStore>(bodies: &[ObjectBody<F>], number: usize, op: &Op) -> Result<(), Denied>
    ensures stands { Stands (map bytes_in bodies.now) (map place_in bodies.now) number op.now result }
    ensures found { IsOk result → number < length bodies.now }
{
    if number >= bodies.len() {
        return Err(Denied::Outside);
    }
    let body = &bodies[number];
    if !op.is_inside(body.len()) {
        return Err(Denied::Outside);
    }
    if body.is_here() {
        Ok(())
    } else {
        Err(Denied::Away)
    }
}

/// Whether a range can be read or written.
#[tactic(auto, using(crate::proofs::Listed::at_steps))]
pub fn stand_range<F: FarStore>(
    bodies: &[ObjectBody<F>],
    number: usize,
    offset: usize,
    count: usize,
) -> Result<(), Denied>
    ensures stands { StandsRange (map bytes_in bodies.now) (map place_in bodies.now) number offset count result }
    ensures found { IsOk result → number < length bodies.now }
{
    let length = length_at(bodies, number);
    if length == 0 || offset > length || count > length - offset {
        return Err(Denied::Outside);
    }
    match bodies[number].place() {
        Place::Here => Ok(()),
        _ => Err(Denied::Away),
    }
}
