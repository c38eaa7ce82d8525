//! How a machine starts.
ghost use Rattle.std.specs.Prelude.{◌≡◌};
ghost use Rattle.machine.specs.Grants.{all_granted};

use machine::Grants;

/// What a machine starts with, beside its code.
#[derive(Drop, Debug)]
pub struct Start {
    /// How many instructions may be done.
    pub fuel: u64,
    /// What R1 to R5 begin with.
    pub arguments: [u64; 5],
    /// The objects that it may reach.
    pub grants: Grants,
}

impl Start {
    /// One that may reach every object.
    pub fn new(fuel: u64, arguments: [u64; 5]) -> Self
        ensures { result ≡ record { fuel = fuel; arguments = arguments; grants = all_granted } }
    {
        Start {
            fuel,
            arguments,
            grants: Grants::all(),
        }
    }
}
