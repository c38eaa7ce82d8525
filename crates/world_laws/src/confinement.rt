//! What nobody learns.
ghost use Rattle.world_laws.specs.Confinement.{RunsAreConfined};

/// What bytes an object has, nobody learns by machines that weren't granted it.
pub fn runs_are_confined()
    ensures { RunsAreConfined }
{}
