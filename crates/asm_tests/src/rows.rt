//! Whole texts.
use crate::answers::{at, code_of, hex_of, refusal, spelling_of};
use crate::compared::same;
use assembler::Why;
use std::test::Fail;

#[test]
fn a_loop_by_a_label(rt: HostRuntime) -> Result<(), Fail> {
    let code = code_of(
        rt.alloc(),
        "mov r0, 0 # n\nagain: add r0, 1\njlt r0, 3, again\nexit\n",
    )?;
    let hex = hex_of(rt.alloc(), code.as_slice())?;
    same!(rt; hex.as_str(), "b7000000000000000700000001000000a500feff030000009500000000000000");
    let told = spelling_of(rt.alloc(), code.as_slice())?;
    same!(rt; told.as_slice(), b"mov r0, 0\nadd r0, 1\njlt r0, 3, -2\nexit\n".as_slice());
    Ok(())
}

#[test]
fn the_errors_of_one_line(rt: HostRuntime) -> Result<(), Fail> {
    same!(rt; refusal(rt.alloc(), "jump +1"), at(1, Why::Word));
    same!(rt; refusal(rt.alloc(), "mov r0"), at(1, Why::Operand));
    same!(rt; refusal(rt.alloc(), "mov r0, 2147483648"), at(1, Why::Range));
    same!(rt; refusal(rt.alloc(), "ja x"), at(1, Why::Label));
    same!(rt; refusal(rt.alloc(), "a:\na:"), at(2, Why::TwiceLabel));
    Ok(())
}

#[test]
fn a_number_of_64_bits_may_be_negative(rt: HostRuntime) -> Result<(), Fail> {
    let code = code_of(rt.alloc(), "lddw r0, -1\nexit")?;
    let hex = hex_of(rt.alloc(), code.as_slice())?;
    same!(rt; hex.as_str(), "18000000ffffffff00000000ffffffff9500000000000000");
    let told = spelling_of(rt.alloc(), code.as_slice())?;
    same!(rt; told.as_slice(), b"lddw r0, 0xffffffffffffffff\nexit\n".as_slice());
    Ok(())
}

/// Texts, and the canonical spelling of what they are.
const TEXTS: &[(&str, &str)] = &[
    ("acmpxchg32 [r1], r2\nexit", "acmpxchg32 [r1], r2\nexit\n"),
    (
        "lddw r0, 0x8000000000000000\nsdiv r0, -1\nexit",
        "lddw r0, 0x8000000000000000\nsdiv r0, -1\nexit\n",
    ),
    ("r0: ja r0 ; any name is a label", "ja -1\n"),
    ("exit: exit", "exit\n"),
    ("a:exit", "exit\n"),
    ("mov r0,1\nexit", "mov r0, 1\nexit\n"),
    (
        "ldxb r0,[r1+0x1F]\nldxb r0 , [ r1 + 0x1f ]\nexit",
        "ldxb r0, [r1+31]\nldxb r0, [r1+31]\nexit\n",
    ),
    ("local: call local local", "call local -1\n"),
    ("call\t local\t+ 1", "call local +1\n"),
    ("call 99\nja +5", "call 99\nja +5\n"),
    ("call + 1", "call 1\n"),
    (
        "a:\nb: lddw r0, 0\nja b\nja end\nja32 a\nend:",
        "lddw r0, 0x0\nja -3\nja +1\nja32 -5\n",
    ),
    (
        "ja over\nlddw r1, 1\nover: exit",
        "ja +2\nlddw r1, 0x1\nexit\n",
    ),
    (
        "back: lddw r1, 1\ncall local back\nexit",
        "lddw r1, 0x1\ncall local -3\nexit\n",
    ),
    ("\t add\tr1 , +7 # seven", "add r1, 7\n"),
    ("ldxb r1,[r10-8]", "ldxb r1, [r10-8]\n"),
    ("stdw [ r1 + 0 ] , - 0", "stdw [r1], 0\n"),
    ("mov r1, 010", "mov r1, 10\n"),
    ("mov r1, 0x1F\nmov r2, 0x1f", "mov r1, 31\nmov r2, 31\n"),
    ("jeq r1, 0x10, -0", "jeq r1, 16, +0\n"),
    ("add r1, 1; a comment\n# another\n;\n", "add r1, 1\n"),
    ("# control bytes \u{1} and \u{7f} may stand here\n", ""),
    ("", ""),
    ("\n\n \t\n", ""),
];

#[test]
fn texts_are_what_they_spell(rt: HostRuntime) -> Result<(), Fail> {
    for (text, want) in TEXTS {
        let code = code_of(rt.alloc(), text)?;
        let told = spelling_of(rt.alloc(), code.as_slice())?;
        same!(rt; told.as_slice(), want.as_bytes(), text);
    }
    Ok(())
}
