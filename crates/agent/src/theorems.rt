//! The five theorems of docs/CLAIMS.md, apart from any call. Each function has one as its clause; `specs/Theorems` has them all.
ghost use Rattle.agent.specs.Theorems.{ClosingTheorem, EachStepIsItsRow, OneLegalHistory, RepliesAreExplained, RunTheorem, SafeAndTotal};

use memory::Memory;
use workers::TableName;

/// 1. Bytes are an instruction exactly where its encoding stands, each refusal is a function of the bytes, and every step has one
/// outcome.
pub fn safe_and_total()
    ensures { SafeAndTotal }
{}

/// 2. A step does its row whole, or waits and changes nothing, or stops. It does nothing to what wasn't granted.
pub fn each_step_is_its_row<M: Memory>()
    ensures { EachStepIsItsRow M.acts }
{}

/// 3. The replies of `run` are those of a run of its commands, in which moving and debugging change nothing.
pub fn run_theorem()
    ensures { RunTheorem }
{}

/// 4. All accesses of all threads form one history.
pub fn one_legal_history()
    ensures { OneLegalHistory }
{
    shared_objects::tables_have_histories();
    shared_objects::words_show_seats();
    shared_objects::sorted_entries_run();
    shared_objects::one_lists_are_legal();
    shared_objects::legal_histories_run();
    shared_objects::stamps_cover();
    shared_objects::learnt_stands_before();
}

/// 5. When `serve` closes, one list explains every object and every machine.
pub fn closing_theorem()
    ensures { ClosingTheorem }
{
    shared_objects::sorted_entries_run();
    shared_objects::one_lists_are_legal();
}

/// 5. Each reply of a connection tells of the entries that it adds.
pub fn replies_are_explained<K: TableName>()
    ensures { RepliesAreExplained K.opening K.starts K.passed }
{
    ship_service::replies_are_entries::<K>();
    ship_service::reply_is_entry::<K>();
    ship_service::answered_machines_are_seen::<K>();
    ship_service::steps_stand_above::<K>();
    ship_service::opened_machines_stay::<K>();
    ship_service::seen_machines_are_granted::<K>();
}
