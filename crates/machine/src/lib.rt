//! The machine that runs a program over a memory: one row of the instruction table a step.
#![tactic(auto)]

mod accesses;
mod alu;
mod calls;
mod frames;
mod grants;
mod jumps;
mod laws;
mod machine;
mod outcomes;
mod pairs;
mod processor;
mod registers;
mod rights;
mod rows;
mod run_arms;
mod runs;
mod state;

pub use grants::{GRANT_LIMIT, Grant, Grants, is_writing};
pub use laws::{
    always_steps, changes_one, entries_are_granted, fuel_bounds, fuel_counts, leaves_others,
    map_always_steps, map_steps_one_way, replays_are_confined, replays_one_way, starts_as_replay,
    starts_at_top, starts_whole, stays_at_depth, stays_replay, stays_sized, stays_whole,
    step_is_confined, steps_are_confined, steps_carry, steps_commute, steps_one_way, steps_protect,
    stopped_stays, stops_in_place, waiting_does_nothing, waits_in_place,
};
pub use machine::Machine;
pub use runs::has_slot;
pub use state::{Accessing, Done, Ended, Frame, Point, STACK_SIZE, Stepped, Stop, Written};
