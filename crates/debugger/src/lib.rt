//! A debugged machine: its steps over any memory, where it pauses, and what is shown of it.
#![tactic(auto)]

mod commands;
mod debuggee;
mod debugger;
mod laws;
mod replies;
mod running;
mod show;
mod shown;
mod start;
mod watch;

pub use commands::{DebugCommand, MachineCommand, Way};
pub use debuggee::Debuggee;
pub use debugger::{BREAK_LIMIT, Debugger, WATCH_LIMIT};
pub use laws::{
    breaks_stay_at_instructions, cleared_breaks_are_clear, cleared_watches_are_clear,
    failed_exchanges_never_hit, hits_share_a_byte, nothing_set_nothing_pauses, ones_pause,
    passing_ends, pausing_stays, reads_never_hit, resuming_goes_on, set_breaks_are_set,
    set_watches_are_set, stops_end_pauses, waiting_changes_nothing,
};
pub use replies::{Debugged, StepReply};
pub use running::MachineRun;
pub use show::{ShowCommand, ShowReply};
pub use shown::{LineText, Shown, State, Values};
pub use start::Start;
pub use watch::Watch;
