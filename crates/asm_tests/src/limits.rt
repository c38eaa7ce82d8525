//! Numbers at both ends of each range, and how much a text may hold.
use crate::answers::{at, code_of, refusal, spelling_of};
use crate::compared::same;
use assembler::Why;
use std::alloc::{AllocError, Global};
use std::test::Fail;

/// A form, the greatest and the least number that it takes, and the next above and below.
const RANGES: &[(&str, &str, &str, &str, &str, &str)] = &[
    (
        "mov r1, ",
        "",
        "2147483647",
        "-2147483648",
        "2147483648",
        "-2147483649",
    ),
    (
        "jeq32 r1, ",
        ", +0",
        "0x7fffffff",
        "-0x80000000",
        "0x80000000",
        "-0x80000001",
    ),
    (
        "stw [r1], ",
        "",
        "2147483647",
        "-2147483648",
        "2147483648",
        "-2147483649",
    ),
    (
        "call ",
        "",
        "2147483647",
        "-2147483648",
        "2147483648",
        "-2147483649",
    ),
    ("ldxw r1, [r2", "]", "+32767", "-32768", "+32768", "-32769"),
    ("aadd [r2", "], r1", "+32767", "-32768", "+32768", "-32769"),
    ("ja ", "", "+32767", "-32768", "+32768", "-32769"),
    ("jne r1, r2, ", "", "+32767", "-32768", "+32768", "-32769"),
    (
        "ja32 ",
        "",
        "+2147483647",
        "-2147483648",
        "+2147483648",
        "-2147483649",
    ),
    (
        "call local ",
        "",
        "+2147483647",
        "-2147483648",
        "+2147483648",
        "-2147483649",
    ),
    (
        "lddw r1, ",
        "",
        "18446744073709551615",
        "-9223372036854775808",
        "18446744073709551616",
        "-9223372036854775809",
    ),
    (
        "lddw r1, ",
        "",
        "0xffffffffffffffff",
        "-0x8000000000000000",
        "0x10000000000000000",
        "-0x8000000000000001",
    ),
];

#[test]
fn ranges_end_where_they_end(rt: HostRuntime) -> Result<(), Fail> {
    for (before, after, greatest, least, above, below) in RANGES {
        for good in [greatest, least] {
            let text = format!(in rt.alloc(); "{before}{good}{after}")?;
            same!(rt; refusal(rt.alloc(), text.as_str()), None, text);
        }
        for bad in [above, below] {
            let text = format!(in rt.alloc(); "{before}{bad}{after}")?;
            same!(rt; refusal(rt.alloc(), text.as_str()), at(1, Why::Range), text);
        }
    }
    Ok(())
}

fn repeated(alloc: Global, line: &str, times: usize) -> Result<String, AllocError> {
    let mut text = String::new(alloc);
    for _ in 0..times {
        text.push_str(line)?;
    }
    Ok(text)
}

#[test]
fn a_text_has_4096_slots(rt: HostRuntime) -> Result<(), Fail> {
    let mut text = repeated(rt.alloc(), "exit\n", 4096)?;
    text.push_str("end:\n# no instruction\n")?;
    same!(rt; code_of(rt.alloc(), text.as_str())?.len(), 4096);
    text.push_str("exit")?;
    same!(rt; refusal(rt.alloc(), text.as_str()), at(4099, Why::TooLong));
    Ok(())
}

#[test]
fn the_wide_instruction_has_two_slots(rt: HostRuntime) -> Result<(), Fail> {
    let mut text = repeated(rt.alloc(), "lddw r0, 0\n", 2047)?;
    text.push_str("exit\nexit\n")?;
    same!(rt; code_of(rt.alloc(), text.as_str())?.len(), 2049);
    text.push_str("exit")?;
    same!(rt; refusal(rt.alloc(), text.as_str()), at(2050, Why::TooLong));
    let mut odd = repeated(rt.alloc(), "exit\n", 4095)?;
    odd.push_str("lddw r0, 0")?;
    same!(rt; refusal(rt.alloc(), odd.as_str()), at(4096, Why::TooLong));
    Ok(())
}

#[test]
fn a_label_may_stand_after_the_last_slot(rt: HostRuntime) -> Result<(), Fail> {
    let mut text = String::new(rt.alloc());
    text.push_str("ja end\nstart: ja32 end\n")?;
    text.push_str(repeated(rt.alloc(), "exit\n", 4093)?.as_str())?;
    text.push_str("ja start\nend:")?;
    let code = code_of(rt.alloc(), text.as_str())?;
    let told = spelling_of(rt.alloc(), code.as_slice())?;
    same!(rt; told.as_slice().starts_with(b"ja +4095\nja32 +4094\nexit\n"), true);
    same!(rt; told.as_slice().ends_with(b"exit\nja -4095\n"), true);
    Ok(())
}
