//! What the definitions of the commands say, in the agent's own words.
#![tactic(auto)]

mod confinement;
mod places;
mod replies;

pub use confinement::runs_are_confined;
pub use places::{
    budget_holds, moves_change_no_byte, places_are_read, scopes_stay, steps_commute,
    steps_tell_what_they_write, stopped_machines_are_calm, waits_exactly,
};
pub use replies::{
    answers_one_way, debugging_changes_debug_state_alone, faults_change_one_place,
    gets_what_was_put, machines_stay, numbers_count_up, objects_stay, others_stay, puts_stay_apart,
    refusals_change_nothing, runs_one_way, runs_what_was_shipped, showing_changes_nothing,
};
