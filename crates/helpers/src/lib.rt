//! The helper functions, which a program calls by number (RFC 9669, section 4.3.1, leaves them to the platform).
#![tactic(auto)]

mod helper;
mod running;
mod side;

pub use helper::Helper;
pub use running::run;
pub use side::{EMITTED_LIMIT, Side};
