//! What replies tell of the state, and which replies there may be.

ghost use Rattle.world_laws.specs.Replies.{RefusalsChangeNothing, FaultsChangeOnePlace, ShowingChangesNothing, DebuggingChangesDebugStateAlone, OthersStay};
ghost use Rattle.world_laws.specs.Replies.{RunsWhatWasShipped, MachinesStay, ObjectsStay, PutsStayApart, GetsWhatWasPut, NumbersCountUp, AnswersOneWay};
ghost use Rattle.world_laws.specs.Replies.{RunsOneWay};

/// A refusal changes nothing.
pub fn refusals_change_nothing()
    ensures { RefusalsChangeNothing }
{}

/// A fault of the far store changes the place of one object, and the count of faults.
pub fn faults_change_one_place()
    ensures { FaultsChangeOnePlace }
{}

/// Showing changes nothing.
pub fn showing_changes_nothing()
    ensures { ShowingChangesNothing }
{}

/// Debugging changes the debug state of one machine alone.
pub fn debugging_changes_debug_state_alone()
    ensures { DebuggingChangesDebugStateAlone }
{}

/// A command on one machine leaves every other machine, its debug state and what it has in scope, as they were.
pub fn others_stay()
    ensures { OthersStay }
{}

/// Whatever was done, the programs are those that were shipped.
pub fn runs_what_was_shipped()
    ensures { RunsWhatWasShipped }
{}

/// Commands on objects leave the machines as they were.
pub fn machines_stay()
    ensures { MachinesStay }
{}

/// Commands on machines leave the objects as they were, but for steps.
pub fn objects_stay()
    ensures { ObjectsStay }
{}

/// Writing bytes into an object leaves every other object as it was.
pub fn puts_stay_apart()
    ensures { PutsStayApart }
{}

/// What was put is what is got.
pub fn gets_what_was_put()
    ensures { GetsWhatWasPut }
{}

/// Objects are numbered from 1, in the order in which they are made.
pub fn numbers_count_up()
    ensures { NumbersCountUp }
{}

/// Unless memory runs out or the far store fails, a command has one reply and one effect.
pub fn answers_one_way()
    ensures { AnswersOneWay }
{}

/// Unless memory runs out or the far store fails, commands have one run.
pub fn runs_one_way()
    ensures { RunsOneWay }
{}
