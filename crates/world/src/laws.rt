//! What the definitions say, apart from any call.
ghost use Rattle.world.specs.Unseen.{MovingChangesNothing, DebuggingChangesNothing, NeitherChangesAnything};

/// Without the moves, and without what was answered that an object is away, a run is one of an agent whose objects never
/// move.
pub fn moving_changes_nothing()
    ensures { MovingChangesNothing }
{}

/// Without the debugging commands, and without what was answered that a machine is paused, a run is one in which nobody
/// debugs.
pub fn debugging_changes_nothing()
    ensures { DebuggingChangesNothing }
{}

/// Without both, a run is one of an agent that nobody debugs and whose objects never move.
pub fn neither_changes_anything()
    ensures { NeitherChangesAnything }
{}
