//! Where objects are, and how machines step over them.

ghost use Rattle.world_laws.specs.Moves.{PlacesAreRead, MovesChangeNoByte, BudgetHolds, ScopesStay};
ghost use Rattle.world_laws.specs.Stepping.{WaitsExactly, StoppedMachinesAreCalm, StepsTellWhatTheyWrite, StepsCommute};

/// A step waits exactly where its object isn't here.
pub fn waits_exactly()
    ensures { WaitsExactly }
{}

/// The replies tell where each object is.
pub fn places_are_read()
    ensures { PlacesAreRead }
{}

/// A move changes where its object is, and nothing else.
pub fn moves_change_no_byte()
    ensures { MovesChangeNoByte }
{}

/// The objects that aren't far fit into the budget.
pub fn budget_holds()
    ensures { BudgetHolds }
{}

/// An object that a machine has in scope is here.
pub fn scopes_stay()
    ensures { ScopesStay }
{}

/// A machine that is stopped isn't paused, and has no object in scope.
pub fn stopped_machines_are_calm()
    ensures { StoppedMachinesAreCalm }
{}

/// A step writes one object at most, and of it the range at most that it tells.
pub fn steps_tell_what_they_write()
    ensures { StepsTellWhatTheyWrite }
{}

/// Steps of two machines that come to no common object commute.
pub fn steps_commute()
    ensures { StepsCommute }
{}
