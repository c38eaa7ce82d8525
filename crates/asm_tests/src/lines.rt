//! Where lines end.
use crate::answers::{at, code_of, refusal, spelling_of};
use crate::compared::same;
use assembler::Why;
use std::test::Fail;

/// Texts that are the two instructions.
const SAME: &[&str] = &[
    "neg r1\nexit",
    "neg r1\nexit\n",
    "neg r1\r\nexit\r\n",
    "neg r1\r\nexit",
    "\nneg r1\n\nexit\n\n",
    "neg r1 # \r\nexit # \r",
    "neg r1 # \r\r\nexit ; \r \u{7f}\n",
];

#[test]
fn the_last_line_may_end(rt: HostRuntime) -> Result<(), Fail> {
    for text in SAME {
        let code = code_of(rt.alloc(), text)?;
        let told = spelling_of(rt.alloc(), code.as_slice())?;
        same!(rt; told.as_slice(), b"neg r1\nexit\n".as_slice(), text);
    }
    Ok(())
}

/// Texts with a CR that doesn't stand before the line end alone.
const STRAY: &[(&str, usize)] = &[
    ("exit\r", 1),
    ("exit\n\r", 2),
    ("exit\r\r\n", 1),
    ("neg\rr1\n", 1),
    ("neg r1\n\rexit\n", 2),
    ("neg r1\r exit\n", 1),
];

#[test]
fn a_cr_is_dropped_before_a_line_end_alone(rt: HostRuntime) -> Result<(), Fail> {
    for (text, line) in STRAY {
        same!(rt; refusal(rt.alloc(), text), at(*line, Why::Word), text);
    }
    Ok(())
}
