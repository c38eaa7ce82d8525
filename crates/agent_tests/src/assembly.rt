//! `asm` and `dis`.

use crate::compared::same;
use crate::outcome::{ended, leaves, outcome_of};
use agent::Failure;
use assembler::{AsmError, Why};
use std::test::Fail;
use test_devices::{FailingReader, Narrow};

/// The code of `lddw r0, -1`, `exit`.
const ALL_ONES: &[u8] =
    b"\x18\x00\x00\x00\xff\xff\xff\xff\x00\x00\x00\x00\xff\xff\xff\xff\x95\x00\x00\x00\x00\x00\x00\x00";

/// Texts, and the code that they spell.
const TEXTS: &[(&[u8], &[u8])] = &[
    (b"lddw r0, -1\nexit", ALL_ONES),
    (b"lddw r0, -1 # all ones\r\n\n  exit\n", ALL_ONES),
    (b"", b""),
    (b"# nothing\n", b""),
];

#[test]
fn a_text_becomes_its_code(rt: HostRuntime) {
    for &(text, code) in TEXTS {
        leaves(&rt, rt.alloc(), &["asm"], text, (0, code, b""));
    }
}

/// Code, and the text that it is shown as.
const CODES: &[(&[u8], &[u8])] = &[
    (ALL_ONES, b"lddw r0, 0xffffffffffffffff\nexit\n"),
    (
        b"\xc3\x21\x00\x00\xf1\x00\x00\x00\x95\x00\x00\x00\x00\x00\x00\x00",
        b"acmpxchg32 [r1], r2\nexit\n",
    ),
];

#[test]
fn code_becomes_its_text(rt: HostRuntime) {
    for &(code, text) in CODES {
        leaves(&rt, rt.alloc(), &["dis"], code, (0, text, b""));
    }
}

#[test]
fn slots_stand_before_the_lines(rt: HostRuntime) {
    let text: &[u8] = b"0: lddw r0, 0xffffffffffffffff\n2: exit\n";
    leaves(
        &rt,
        rt.alloc(),
        &["dis", "--slots"],
        ALL_ONES,
        (0, text, b""),
    );
}

/// The words of `dis`, and what it shows of `ALL_ONES`: lines of llvm-objdump 19 with `--mcpu=v4` and `--no-print-imm-hex`.
const LLVM_LINES: &[(&[&str], &[u8])] = &[
    (&["dis", "--llvm"], b"r0 = -1 ll\nexit\n"),
    (&["dis", "--slots", "--llvm"], b"0: r0 = -1 ll\n2: exit\n"),
];

#[test]
fn code_becomes_text_of_llvm(rt: HostRuntime) {
    for &(words, text) in LLVM_LINES {
        leaves(&rt, rt.alloc(), words, ALL_ONES, (0, text, b""));
    }
}

/// Texts with a wrong line, and what is said of it.
const WRONG_LINES: &[(&[u8], &[u8])] = &[
    (b"exit\nexot\n", b"line 2: Word\n"),
    (b"exit # \xc3\xa9\n", b"line 1: Word\n"),
    (b"mov r0\n", b"line 1: Operand\n"),
    (b"exit\nja x\n", b"line 2: Label\n"),
    (b"x: exit\nx: exit\n", b"line 2: TwiceLabel\n"),
];

#[test]
fn a_wrong_line_goes_to_the_errors(rt: HostRuntime) {
    for &(text, line) in WRONG_LINES {
        leaves(&rt, rt.alloc(), &["asm"], text, (1, b"", line));
    }
}

/// Texts with a wrong line, and what is said of it with an explanation.
const EXPLAINED: &[(&[u8], &[u8])] = &[
    (
        b"exit\n\texot ; leave",
        b"line 2: Word\ncolumn 2: 'exot' in ' exot ; leave', where a mnemonic fits\n",
    ),
    (
        b"exit # \xc3\xa9\n",
        b"line 1: Word\ncolumn 6: '# ??' in 'exit # ??', where a name, a number or one of :,[]+- in ASCII fits\n",
    ),
    (
        b"mov r0 ",
        b"line 1: Operand\nat the end of 'mov r0 ', where a comma fits\n",
    ),
    (
        b"mov r0,",
        b"line 1: Operand\nat the end of 'mov r0,', where a register or a number fits\n",
    ),
    (
        b"mov r0 5",
        b"line 1: Operand\ncolumn 8: '5' in 'mov r0 5', where a comma fits\n",
    ),
    (
        b"x: mov r0, 5, 6",
        b"line 1: Operand\ncolumn 13: ',' in 'x: mov r0, 5, 6', where the line's end fits\n",
    ),
    (
        b"ldxb r1, r2",
        b"line 1: Operand\ncolumn 10: 'r2' in 'ldxb r1, r2', where a place in memory, such as [r1+8], fits\n",
    ),
    (
        b"ja 1",
        b"line 1: Operand\ncolumn 4: '1' in 'ja 1', where a label, or a number with a sign, fits\n",
    ),
    (
        b"call x",
        b"line 1: Operand\ncolumn 6: 'x' in 'call x', where a number fits\n",
    ),
    (
        b"mov r11, 3",
        b"line 1: Operand\ncolumn 5: 'r11' in 'mov r11, 3', where a register, r0 to r10, fits\n",
    ),
    (
        b"mov r0, 2147483648",
        b"line 1: Range\ncolumn 9: '2147483648' in 'mov r0, 2147483648', where a number from -2147483648 to 2147483647 fits\n",
    ),
    (
        b"ldxb r1, [r2+40000]",
        b"line 1: Range\ncolumn 14: '40000' in 'ldxb r1, [r2+40000]', where an offset from -32768 to 32767 fits\n",
    ),
    (
        b"jeq r1, 2, +32768",
        b"line 1: Range\ncolumn 13: '32768' in 'jeq r1, 2, +32768', where an offset from -32768 to 32767 fits\n",
    ),
    (
        b"ja32 -2147483649",
        b"line 1: Range\ncolumn 7: '2147483649' in 'ja32 -2147483649', where an offset from -2147483648 to 2147483647 fits\n",
    ),
    (
        b"lddw r1, -9223372036854775809",
        b"line 1: Range\n\
            column 11: '9223372036854775809' in 'lddw r1, -9223372036854775809', \
            where a number from -9223372036854775808 to 18446744073709551615 fits\n",
    ),
    (
        b"jeq r1, 2, r3\n",
        b"line 1: Label\ncolumn 12: 'r3' in 'jeq r1, 2, r3', where a label of the text fits\n",
    ),
    (
        b"x: exit\n x:exit\n",
        b"line 2: TwiceLabel\ncolumn 2: 'x' in ' x:exit', where a label of no other line fits\n",
    ),
];

#[test]
fn an_explanation_names_the_token(rt: HostRuntime) {
    for &(text, said) in EXPLAINED {
        leaves(&rt, rt.alloc(), &["asm", "--explain"], text, (1, b"", said));
    }
}

#[test]
fn nothing_is_explained_of_a_right_text(rt: HostRuntime) {
    let text: &[u8] = b"lddw r0, -1\nexit";
    leaves(
        &rt,
        rt.alloc(),
        &["asm", "--explain"],
        text,
        (0, ALL_ONES, b""),
    );
}

/// Code that is refused, and what is said of it.
const REFUSED: &[(&[u8], &[u8])] = &[(b"\x95\x00", b"slot 0: Short\n"), (b"", b"slot 0: Empty\n")];

#[test]
fn code_that_is_refused_has_no_text(rt: HostRuntime) {
    for &(code, line) in REFUSED {
        leaves(&rt, rt.alloc(), &["dis"], code, (1, b"", line));
    }
}

/// Subcommands, what they say of 1,060,000 line ends, and how many of these they leave in the input.
const TOO_LONG: &[(&str, &[u8], usize)] = &[
    ("asm", b"input too long\n", 1_060_000 - 1_048_577),
    ("dis", b"slot 0: TooLong\n", 1_060_000 - 32_769),
];

#[test]
fn one_byte_past_the_longest_input_is_read(rt: HostRuntime) -> Result<(), Fail> {
    let alloc = rt.alloc();
    let input = vec![in alloc; b'\n'; 1_060_000]?;
    for &(name, line, left) in TOO_LONG {
        let mut reader = input.as_slice();
        let found = outcome_of(alloc, &[name], &mut reader);
        same!(rt; (found.status, found.errors.as_slice()), (1, line), name);
        same!(rt; (found.output.len(), reader.len()), (0, left), name);
    }
    let longest = vec![in alloc; b'\n'; 1_048_576]?;
    leaves(&rt, alloc, &["asm"], &longest, (0, b"", b""));
    Ok(())
}

/// Subcommands, and an input that each takes.
const OVER_STREAMS: &[(&str, &[u8])] = &[
    ("asm", b"exit\n"),
    ("dis", b"\x95\x00\x00\x00\x00\x00\x00\x00"),
];

#[test]
fn a_stream_that_fails_is_named(rt: HostRuntime) {
    let alloc = rt.alloc();
    for &(name, input) in OVER_STREAMS {
        let mut reader = FailingReader::new(input, 1);
        let found = outcome_of(alloc, &[name], &mut reader);
        same!(rt; (found.status, found.errors.as_slice()), (3, b"read fault\n".as_slice()), name);
        let mut reader = input;
        let mut closed = Narrow::new(alloc, 1, 2);
        let (status, errors) = ended(alloc, &[name], &mut reader, &mut closed);
        same!(rt; (status, errors.as_slice()), (3, b"write fault\n".as_slice()), name);
        same!(rt; closed.taken.len(), 2, name);
    }
}

#[test]
fn failures_of_a_text_have_their_texts(rt: HostRuntime) -> Result<(), Fail> {
    let alloc = rt.alloc();
    let wrong = AsmError {
        line: 7,
        why: Why::Range,
    };
    let texts = [
        (Failure::WrongLine(wrong), "line 7: Range"),
        (Failure::InputTooLong, "input too long"),
    ];
    for (failure, text) in texts {
        same!(rt; format!(in alloc; "{failure}")?.as_str(), text);
    }
    Ok(())
}
