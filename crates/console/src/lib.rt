//! Lines of commands in, lines of replies out.
#![tactic(auto)]

mod answerer;
mod commands;
mod console;
mod conversation;
mod digits;
mod fault;
mod gathering;
mod kind;
mod laws;
mod link;
mod numbers;
mod replies;
mod table;
mod tokens;

pub use answerer::Answerer;
pub use console::Console;
pub use conversation::{converse, converse_gathering, converse_over, drive};
pub use fault::{DriveFault, LineFault};
pub use gathering::Gathering;
pub use laws::{conversations_are_plain, one_command};
pub use link::{Link, StdLink};
pub use replies::{
    REPLY_LIMIT, ReplyLine, name_of_place, name_of_state, print_bytes, print_fault, print_reply,
    put_named,
};
pub use table::{CommandTable, command_table};
