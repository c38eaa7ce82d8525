//! Why a text is refused.
use asm_grammar::Why;
use thiserror::Error;

/// A line, counted from 1, and what is wrong with it. Out of memory has line 0.
#[derive(Clone, Copy, Drop, Debug, PartialEq, Eq, Error)]
#[error("line {line}: {why}")]
pub struct AsmError {
    pub line: usize,
    pub why: Why,
}
