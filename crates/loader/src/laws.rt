//! What the reasons of refusals say of one another.
ghost use Rattle.loader.specs.Laws.{OneRefusal, NoRefusalOfValid};

/// Out of memory apart, bytes are refused at one slot and for one reason.
#[tactic(auto, using(crate::proofs::OneReason::one_refusal))]
pub fn refused_for_one_reason()
    ensures { OneRefusal }
{}

/// Valid code is refused only where memory runs out.
#[tactic(auto, using(crate::proofs::OneReason::no_refusal_of_valid))]
pub fn valid_code_is_taken()
    ensures { NoRefusalOfValid }
{}
