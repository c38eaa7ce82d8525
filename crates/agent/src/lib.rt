//! The program, as a function of its arguments and its three streams.
#![tactic(auto)]

mod arguments;
mod assembly;
mod commands;
mod failure;
mod front;
mod reporting;
mod running;
mod servers;
mod theorems;

pub use arguments::{
    Asked, Server, Serving, Showing, Storing, Task, VERSION, invalid_arguments, invalid_budgets,
    read_arguments, right_arguments, right_arguments_name_a_task, right_budgets, right_flags,
    right_ports, right_services,
};
pub use assembly::dis;
pub use failure::{ExitStatus, Failure};
pub use front::{do_task, show_answer, tool};
pub use reporting::refuse_arguments;
pub use running::run;
pub use servers::{ServeFault, run_service, run_store};
pub use theorems::{
    closing_theorem, each_step_is_its_row, one_legal_history, replies_are_explained, run_theorem,
    safe_and_total,
};
