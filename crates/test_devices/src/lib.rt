//! What crates of tests share: readers, writers, streams and far stores that give and take as they are told, fail when they are
//! told, and count their calls; objects and code. None of the readers, writers and streams says in a contract what it gives or
//! takes.
#![tactic(auto)]

mod far_stores;
mod made;
mod pipe;
mod readers;
mod tcp;
mod writers;

pub use far_stores::{Asked, Call, Counting, LOGGED, Short, number_kept};
pub use made::{code, number_of, objects};
pub use pipe::{PipeReader, PipeWriter};
pub use readers::{FailingReader, Pieces};
pub use tcp::{Flaw, ends, serve_flawed};
pub use writers::{FailingWriter, Failure, Narrow};
