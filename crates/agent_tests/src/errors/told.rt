//! What an error is told by.

use crate::compared::same;
use std::alloc::Global;
use std::fmt::Display;
use std::process::Abort;
use std::test::Fail;

/// Each of these is told by its text.
pub fn are_told<T: Display>(
    rt: &impl Abort,
    alloc: Global,
    errors: &[(T, &str)],
) -> Result<(), Fail> {
    for (error, text) in errors {
        same!(rt; format!(in alloc; "{error}")?.as_str(), *text);
    }
    Ok(())
}
