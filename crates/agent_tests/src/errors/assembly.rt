//! Errors of assembly: tokens, and lines.

use crate::compared::same;
use crate::errors::told::are_told;
use asm_grammar::Why;
use asm_text::Fault;
use std::test::Fail;

#[test]
fn tokens(rt: HostRuntime) -> Result<(), Fail> {
    let faults = &[(Fault::Char, "Char"), (Fault::Number, "Number")];
    are_told(&rt, rt.alloc(), faults)
}

const WHYS: &[(Why, &str)] = &[
    (Why::Word, "Word"),
    (Why::Operand, "Operand"),
    (Why::Range, "Range"),
    (Why::Label, "Label"),
    (Why::TwiceLabel, "TwiceLabel"),
    (Why::TooLong, "TooLong"),
    (Why::Memory, "Memory"),
];

#[test]
fn lines(rt: HostRuntime) -> Result<(), Fail> {
    for (why, text) in WHYS {
        same!(rt; why.name(), *text);
    }
    are_told(&rt, rt.alloc(), WHYS)
}
