//! What is wrong with a text: each error alone, each two on one line and on two lines.
use crate::answers::{at, refusal};
use crate::compared::same;
use asm_text::Fault;
use assembler::Why;
use std::test::Fail;

/// One line each, with the least that is wrong with it.
const ALONE: &[(&str, Why)] = &[
    ("jump +1", Why::Word),
    ("MOV r0, 1", Why::Word),
    ("7", Why::Word),
    ("99999999999999999999", Why::Word),
    (", mov r0, 1", Why::Word),
    ("a: b: exit", Why::Word),
    (": exit", Why::Word),
    ("exit .", Why::Word),
    ("exit (", Why::Word),
    ("exit \u{80}", Why::Word),
    ("exit # \u{80}", Why::Word),
    ("exit \u{1}", Why::Word),
    ("local +1", Why::Word),
    ("movs64 r1, r2", Why::Word),
    ("mov r0", Why::Operand),
    ("mov r0, ", Why::Operand),
    ("mov r0 1", Why::Operand),
    ("mov r0, 1,", Why::Operand),
    ("mov r0, 1 2", Why::Operand),
    ("mov 1, r0", Why::Operand),
    ("mov r11, 1", Why::Operand),
    ("mov r01, 1", Why::Operand),
    ("mov R0, 1", Why::Operand),
    ("mov r0, x", Why::Operand),
    ("mov r0, 0x", Why::Operand),
    ("mov r0, 0X1", Why::Operand),
    ("mov r0, 1a", Why::Operand),
    ("mov r0, 1_0", Why::Operand),
    ("mov r0, --1", Why::Operand),
    ("mov r0, +-1", Why::Operand),
    ("exit 1", Why::Operand),
    ("exit exit", Why::Operand),
    ("exit: exit: exit", Why::Operand),
    ("ja 1", Why::Operand),
    ("ja", Why::Operand),
    ("ja +", Why::Operand),
    ("ja [r1]", Why::Operand),
    ("call", Why::Operand),
    ("call local", Why::Operand),
    ("call local 1", Why::Operand),
    ("call x", Why::Operand),
    ("call locals +1", Why::Operand),
    ("call LOCAL +1", Why::Operand),
    ("ldxb r0, r1", Why::Operand),
    ("ldxb r0, [r1+-1]", Why::Operand),
    ("ldxb r0, [r1 1]", Why::Operand),
    ("ldxb r0, [1]", Why::Operand),
    ("ldxb r0, [r1", Why::Operand),
    ("ldxb r0, [r11+1]", Why::Operand),
    ("ldxb r0, [x]", Why::Operand),
    ("stb 1, [r1]", Why::Operand),
    ("stb [r1], r2", Why::Operand),
    ("stxb [r1], 2", Why::Operand),
    ("neg r1, r2", Why::Operand),
    ("neg 1", Why::Operand),
    ("lddw 1, r0", Why::Operand),
    ("lddw r0, r1", Why::Operand),
    ("movs8 r0, 1", Why::Operand),
    ("jeq r0, 1", Why::Operand),
    ("jeq r0, 1, 2", Why::Operand),
    ("jeq 1, r0, +1", Why::Operand),
    ("mov r0, 2147483648", Why::Range),
    ("mov r0, 99999999999999999999", Why::Range),
    ("lddw r0, 18446744073709551616", Why::Range),
    ("ldxb r0, [r1+32768]", Why::Range),
    ("ldxb r0, [r1-99999999999999999999]", Why::Range),
    ("ja +32768", Why::Range),
    ("jeq r0, 2147483648, nowhere", Why::Range),
    ("ja x", Why::Label),
    ("ja32 x", Why::Label),
    ("call local x", Why::Label),
    ("call local local", Why::Label),
    ("jset32 r1, r2, r3", Why::Label),
];

#[test]
fn each_error_alone(rt: HostRuntime) -> Result<(), Fail> {
    for (text, why) in ALONE {
        same!(rt; refusal(rt.alloc(), text), at(1, *why), text);
        let later = format!(in rt.alloc(); "exit\n\n{text}\nexit")?;
        same!(rt; refusal(rt.alloc(), later.as_str()), at(3, *why), text);
    }
    Ok(())
}

/// Lines with two errors, after a line with the label `a`, and the least of the two.
const TWO_ON_ONE: &[(&str, Why)] = &[
    ("mov r0, . ,", Why::Word),
    ("mov r0, 2147483648 .", Why::Word),
    ("a: jump", Why::Word),
    ("a: exit \u{80}", Why::Word),
    ("mov r0, 2147483648, 1", Why::Operand),
    ("mov 2147483648, 2147483648", Why::Operand),
    ("a: mov r0", Why::Operand),
    ("jeq x, 1, nowhere", Why::Operand),
    ("a: mov r0, 2147483648", Why::Range),
    ("jeq r0, 2147483648, nowhere", Why::Range),
    ("a: ja nowhere", Why::TwiceLabel),
];

#[test]
fn of_two_errors_on_one_line_the_least(rt: HostRuntime) -> Result<(), Fail> {
    for (text, why) in TWO_ON_ONE {
        let whole = format!(in rt.alloc(); "a: exit\n{text}\n")?;
        same!(rt; refusal(rt.alloc(), whole.as_str()), at(2, *why), text);
    }
    Ok(())
}

/// A line with one error each, after a line with the label `a`.
const ONE_EACH: &[(&str, Why)] = &[
    ("jump", Why::Word),
    ("mov r0", Why::Operand),
    ("mov r0, 2147483648", Why::Range),
    ("ja nowhere", Why::Label),
    ("a: exit", Why::TwiceLabel),
];

#[test]
fn of_two_errors_on_two_lines_the_first_but_label(rt: HostRuntime) -> Result<(), Fail> {
    for (first, why) in ONE_EACH {
        for (second, other) in ONE_EACH {
            let text = format!(in rt.alloc(); "a: exit\n{first}\n{second}\n")?;
            let want = if *why == Why::Label && *other != Why::Label {
                at(3, *other)
            } else {
                at(2, *why)
            };
            same!(rt; refusal(rt.alloc(), text.as_str()), want, (first, second));
        }
    }
    Ok(())
}

#[test]
fn too_long_with_each_other_error(rt: HostRuntime) -> Result<(), Fail> {
    let mut full = String::new(rt.alloc());
    full.push_str("a: exit\n")?;
    for _ in 0..4095 {
        full.push_str("exit\n")?;
    }
    for (line, why) in ONE_EACH {
        // past the last slot, on one line
        let least = match *why {
            Why::Label => Why::TooLong,
            w => w,
        };
        let text = format!(in rt.alloc(); "{full}{line}\n")?;
        same!(rt; refusal(rt.alloc(), text.as_str()), at(4097, least), line);
        // and on two
        let text = format!(in rt.alloc(); "{full}exit\n{line}\n")?;
        same!(rt; refusal(rt.alloc(), text.as_str()), at(4097, Why::TooLong), line);
    }
    Ok(())
}

#[test]
fn faults_of_tokens_by_number_and_text(rt: HostRuntime) -> Result<(), Fail> {
    same!(rt; (Fault::Char.number(), Fault::Number.number()), (1, 2));
    let told = format!(in rt.alloc(); "{} {}", Fault::Char, Fault::Number)?;
    same!(rt; told.as_str(), "Char Number");
    Ok(())
}
