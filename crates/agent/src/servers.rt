//! The servers: `store` and `serve`.

mod ledger;
mod moment;
mod noted_stream;
mod notes;
mod pace;
mod serving;
mod storing;

pub use serving::{ServeFault, run_service};
pub use storing::run_store;
