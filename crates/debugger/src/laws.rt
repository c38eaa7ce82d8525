//! What the definitions say of breakpoints, watched ranges and steps, apart from any call.
ghost use Rattle.debugger.specs.Laws.{SetBreaksAreSet, ClearedBreaksAreClear, BreaksStayAtInstructions, SetWatchesAreSet, ClearedWatchesAreClear};
ghost use Rattle.debugger.specs.Laws.{HitsShareAByte, ReadsNeverHit, FailedExchangesNeverHit, PausingStays, ResumingGoesOn, PassingEnds, WaitingChangesNothing};
ghost use Rattle.debugger.specs.Laws.{StopsEndPauses, OnesPause, NothingSetNothingPauses};

/// A breakpoint that was set is set, and no other with it.
pub fn set_breaks_are_set()
    ensures { SetBreaksAreSet }
{}

/// A breakpoint that was cleared is not set, and no other goes with it.
pub fn cleared_breaks_are_clear()
    ensures { ClearedBreaksAreClear }
{}

/// Breakpoints are at instructions of the machine's code.
pub fn breaks_stay_at_instructions()
    ensures { BreaksStayAtInstructions }
{}

/// A range that was set is watched, and no other with it.
pub fn set_watches_are_set()
    ensures { SetWatchesAreSet }
{}

/// A range that was cleared is not watched, and no other goes with it.
pub fn cleared_watches_are_clear()
    ensures { ClearedWatchesAreClear }
{}

/// A write hits exactly where it shares a byte with a watched range.
pub fn hits_share_a_byte()
    ensures { HitsShareAByte }
{}

/// A read never hits.
pub fn reads_never_hit()
    ensures { ReadsNeverHit }
{}

/// A compare-exchange whose comparison fails never hits.
pub fn failed_exchanges_never_hit()
    ensures { FailedExchangesNeverHit }
{}

/// A paused machine stays paused.
pub fn pausing_stays()
    ensures { PausingStays }
{}

/// The step after `resume` does not pause.
pub fn resuming_goes_on()
    ensures { ResumingGoesOn }
{}

/// A breakpoint is passed by one instruction alone.
pub fn passing_ends()
    ensures { PassingEnds }
{}

/// A machine that waits changes nothing.
pub fn waiting_changes_nothing()
    ensures { WaitingChangesNothing }
{}

/// A machine that stops is not paused.
pub fn stops_end_pauses()
    ensures { StopsEndPauses }
{}

/// `one` differs from `step` in that the machine is paused after it.
pub fn ones_pause()
    ensures { OnesPause }
{}

/// Where nothing is set, nothing pauses.
pub fn nothing_set_nothing_pauses()
    ensures { NothingSetNothingPauses }
{}
