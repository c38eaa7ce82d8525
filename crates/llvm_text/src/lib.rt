//! Instructions in, their spelling by `llvm-objdump` out.
#![tactic(auto)]

mod lines;
mod listing;
mod operands;
mod rows;
mod signs;

pub use lines::llvm_line;
pub use listing::llvm_listing;
