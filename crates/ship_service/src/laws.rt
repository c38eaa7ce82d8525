//! What the definitions say, apart from any call.
ghost use Rattle.ship_service.specs.Closing.{MachinesReplayTheList};
ghost use Rattle.ship_service.specs.Granted.{SeenMachinesAreGranted, SharesAreGranted, UnwrittenObjectsStay};
ghost use Rattle.ship_service.specs.Served.{AnsweredMachinesAreSeen, OpenedMachinesStay};
ghost use Rattle.ship_service.specs.Telling.{RepliesAreEntries, ReplyIsEntry, StepsStandAbove};

use far_store::FarStore;
use workers::TableName;

/// In a conversation the `ok` of `put` and the `bytes` of `get` are, in order, the answers of the entries that are added at
/// the connection's seat.
pub fn replies_are_entries<K: TableName>()
    ensures { RepliesAreEntries K.opening K.starts K.passed }
{}

/// So it is for a line whose reply is written in part.
pub fn reply_is_entry<K: TableName>()
    ensures { ReplyIsEntry K.opening K.starts K.passed }
{}

/// A machine that was there when the table was opened is never answered to be none.
pub fn opened_machines_stay<K: TableName>()
    ensures { OpenedMachinesStay K.opening K.starts K.passed }
{}

/// Whatever a command on a machine is answered, the machine is then the replay of entries up to the stamp that the connection
/// has seen, from the state that the table was opened with or from the start of valid code.
pub fn answered_machines_are_seen<K: TableName>()
    ensures { AnsweredMachinesAreSeen K.opening K.starts K.passed }
{}

/// What a machine does in a step that a connection asks for stands above all that the connection had seen before, and the
/// connection has seen it then.
pub fn steps_stand_above<K: TableName>()
    ensures { StepsStandAbove K.opening K.starts K.passed }
{}

/// Each machine that a closed service leaves is the replay of its own share of the one list.
pub fn machines_replay_the_list<F: FarStore, K: TableName>()
    ensures { MachinesReplayTheList F F.RETURNS K.table K.opening K.starts }
{}

/// Each entry of a machine that a connection has seen is an access to an object that the machine was granted, a writing one only
/// with `w`.
pub fn seen_machines_are_granted<K: TableName>()
    ensures { SeenMachinesAreGranted K.opening K.starts }
{}

/// So is each entry of a machine's share of the one list.
pub fn shares_are_granted<K: TableName>()
    ensures { SharesAreGranted K.opening K.starts }
{}

/// An object that no machine may write, and into which no connection put bytes, closes with the bytes with which it was opened.
pub fn unwritten_objects_stay<F: FarStore, K: TableName>()
    ensures { UnwrittenObjectsStay F F.RETURNS K.table K.opening K.starts }
{}
