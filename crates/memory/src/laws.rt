//! What the definitions say of accesses and objects, apart from any call.
ghost use Rattle.memory.specs.Laws.{WritesAreInside, OtherBytesStay, UnwrittenStays, FailedExchangesChangeNothing, OtherObjectsStay, LengthsStay};
ghost use Rattle.memory.specs.Laws.{LoadsWhatWasStored, AccessesOneWay, AccessesCommute};
ghost use Rattle.memory.specs.Memories.{KeepsPromises};
ghost use Rattle.memory.specs.MapMemory.{map_memory};

/// A byte that an access wrote is one of the object's.
pub fn writes_are_inside()
    ensures { WritesAreInside }
{}

/// A byte that an access didn't write is as it was.
pub fn other_bytes_stay()
    ensures { OtherBytesStay }
{}

/// An access that wrote nothing changes nothing.
pub fn unwritten_stays()
    ensures { UnwrittenStays }
{}

/// A compare-exchange that finds another number than R0's changes nothing.
pub fn failed_exchanges_change_nothing()
    ensures { FailedExchangesChangeNothing }
{}

/// An access changes no object but its own.
pub fn other_objects_stay()
    ensures { OtherObjectsStay }
{}

/// An access changes no object's length.
pub fn lengths_stay()
    ensures { LengthsStay }
{}

/// A load after a store of the same size at the same place gives the number stored, cut to the size.
pub fn loads_what_was_stored()
    ensures { LoadsWhatWasStored }
{}

/// An access has one answer and leaves one state.
pub fn accesses_one_way()
    ensures { AccessesOneWay }
{}

/// Two accesses of different objects do the same in either order.
pub fn accesses_commute()
    ensures { AccessesCommute }
{}

/// The map of objects keeps the promises of memories.
pub fn map_keeps_promises()
    ensures { KeepsPromises map_memory }
{}
