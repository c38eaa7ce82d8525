//! What the table step promises, whatever the program. Each function has the law as its clause, and does nothing.
ghost use Rattle.machine.specs.Laws.{StepsOneWay, MapStepsOneWay, AlwaysSteps, MapAlwaysSteps, StoppedStays, StopsInPlace, WaitsInPlace, WaitingDoesNothing};
ghost use Rattle.machine.specs.Laws.{FuelCounts, FuelBounds, StartsWhole, StaysWhole, StaysSized, ChangesOne, LeavesOthers, StepsCommute};
ghost use Rattle.machine.specs.FramePointer.{StartsAtTop, StaysAtDepth};
ghost use Rattle.machine.specs.Replay.{ReplaysOneWay, StartsAsReplay, StaysReplay};
ghost use Rattle.machine.specs.Carrying.{StepsCarry};
ghost use Rattle.machine.specs.Confinement.{StepIsConfined, StepsAreConfined, StepsProtect};
ghost use Rattle.machine.specs.Granted.{EntriesAreGranted, ReplaysAreConfined};

use memory::Memory;

/// Over a memory with one answer to each access, a machine has one next state, and one answer.
pub fn steps_one_way<M: Memory>()
    ensures { StepsOneWay M.acts }
{}

/// So it is over the map of objects.
pub fn map_steps_one_way()
    ensures { MapStepsOneWay }
{}

/// Over a memory that answers each access, a machine whose slot begins an instruction can step.
pub fn always_steps<M: Memory>()
    ensures { AlwaysSteps M.acts }
{}

/// So it is over the map of objects.
pub fn map_always_steps()
    ensures { MapAlwaysSteps }
{}

/// A machine that is stopped stays as it is, answers its stop, and does nothing to memory.
pub fn stopped_stays<M: Memory>()
    ensures { StoppedStays M.acts }
{}

/// A stop other than exit changes the stop alone.
pub fn stops_in_place<M: Memory>()
    ensures { StopsInPlace M.acts }
{}

/// Waiting changes nothing in the machine, and comes from an access that was away or busy and from nothing else.
pub fn waits_in_place<M: Memory>()
    ensures { WaitsInPlace M.acts }
{}

/// Nor does it do anything to an object, over any memory.
pub fn waiting_does_nothing<M: Memory>()
    ensures { WaitingDoesNothing M.acts }
{}

/// Fuel falls by one with each instruction that ran, EXIT included, and with nothing else.
pub fn fuel_counts<M: Memory>()
    ensures { FuelCounts M.acts }
{}

/// No more instructions run than there is fuel, whatever the program.
pub fn fuel_bounds<M: Memory>()
    ensures { FuelBounds M.acts }
{}

/// At the start of valid code an instruction begins, no call is open, and each list has its length.
pub fn starts_whole()
    ensures { StartsWhole }
{}

/// After a step an instruction begins at the slot, and at each slot to which a call goes back; at most eight are open.
pub fn stays_whole<M: Memory>()
    ensures { StaysWhole M.acts }
{}

/// After a step there are eleven registers, 4096 bytes of stack, and at most 64 emitted values.
pub fn stays_sized<M: Memory>()
    ensures { StaysSized M.acts }
{}

/// At the start R10 is the address after the last byte of the stack.
pub fn starts_at_top()
    ensures { StartsAtTop }
{}

/// After a step R10 is 512 lower for each open call, and no lower. Any function may write all of the stack.
pub fn stays_at_depth<M: Memory>()
    ensures { StaysAtDepth M.acts }
{}

/// A step writes one object at most, or the stack, and of it the range at most that it tells, which is within it.
pub fn changes_one()
    ensures { ChangesOne }
{}

/// A machine whose accesses go elsewhere leaves an object as it was.
pub fn leaves_others()
    ensures { LeavesOthers }
{}

/// Of two machines that reach no common object, a step of one and then one of the other is the same in the other order.
pub fn steps_commute()
    ensures { StepsCommute }
{}

/// With the same answers to its accesses a machine goes the same way.
pub fn replays_one_way()
    ensures { ReplaysOneWay }
{}

/// A machine is the replay of nothing at its start.
pub fn starts_as_replay()
    ensures { StartsAsReplay }
{}

/// After a step over any memory a machine is the replay of its accesses, this one too.
pub fn stays_replay<M: Memory>()
    ensures { StaysReplay M.acts }
{}

/// A step over one memory is a step over another as which it is seen.
pub fn steps_carry<M: Memory, N: Memory>()
    ensures { StepsCarry M.acts N.acts }
{}

/// Over two maps of objects that agree on what a machine may read, a step gives the same machine, the same answer, and
/// again two such maps.
pub fn step_is_confined()
    ensures { StepIsConfined }
{}

/// So do any number of steps.
pub fn steps_are_confined()
    ensures { StepsAreConfined }
{}

/// An object that isn't granted for writing keeps its bytes.
pub fn steps_protect()
    ensures { StepsProtect }
{}

/// Whoever else reaches the objects, each entry of a machine is an access to an object that it was granted, a writing one only
/// with `w`.
pub fn entries_are_granted()
    ensures { EntriesAreGranted }
{}

/// Two machines that started alike, and whose accesses to granted objects were answered alike, go alike.
pub fn replays_are_confined()
    ensures { ReplaysAreConfined }
{}
