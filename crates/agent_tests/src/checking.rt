//! `check`.

use crate::compared::same;
use crate::outcome::{ended, leaves, outcome_of};
use std::alloc::Global;
use std::process::Abort;
use std::test::Fail;
use test_devices::{FailingReader, Narrow};

/// `lddw r0, 0x8000000000000000`, `sdiv r0, -1`, `exit`.
const WIDE: [u8; 32] = [
    0x18, 0, 0, 0, 0, 0, 0, 0, 0, 0, 0, 0, 0, 0, 0, 0x80, 0x37, 0, 1, 0, 0xff, 0xff, 0xff, 0xff,
    0x95, 0, 0, 0, 0, 0, 0, 0,
];

/// `exit`.
const EXIT: [u8; 8] = [0x95, 0, 0, 0, 0, 0, 0, 0];

#[test]
fn a_wide_instruction_has_two_slots(rt: HostRuntime) {
    leaves(&rt, rt.alloc(), &["check"], &WIDE, (0, b"ok 4\n", b""));
}

#[test]
fn a_refusal_goes_to_the_errors(rt: HostRuntime) {
    let cases: &[(&[u8], &[u8])] = &[
        (b"", b"slot 0: Empty\n"),
        (b"\x95\x00", b"slot 0: Short\n"),
        (&WIDE[..24], b"slot 2: FallsOff\n"),
        (&WIDE[8..], b"slot 0: Opcode\n"),
    ];
    for &(code, line) in cases {
        leaves(&rt, rt.alloc(), &["check"], code, (1, b"", line));
    }
}

/// Code that is refused for each reason, the line of its refusal, and what is said beside it.
const EXPLAINED: &[(&[u8], &[u8], &[u8])] = &[
    (
        b"",
        b"slot 0: Empty\n",
        b"there are no bytes, and code has at least one instruction\n",
    ),
    (
        b"\x95\x00",
        b"slot 0: Short\n",
        b"9500: the slot has 2 of 8 bytes (RFC 9669, section 3.1)\n",
    ),
    (
        b"\x95\x00\x00\x00\x00\x00\x00\x00\x8d\x00\x00\x00\x00\x00\x00\x00",
        b"slot 1: Opcode\n",
        b"8d00000000000000: no instruction has opcode 0x8d (RFC 9669, section 3.1)\n",
    ),
    (
        b"\xb7\x0b\x00\x00\x00\x00\x00\x00\x95\x00\x00\x00\x00\x00\x00\x00",
        b"slot 0: Register\n",
        b"b70b000000000000: dst is 11, and has to be 0 to 10 in mov; see RFC 9669, sections 3 to 5\n",
    ),
    (
        b"\x95\x00\x00\x00\x01\x00\x00\x00",
        b"slot 0: Field\n",
        b"9500000001000000: imm is 1, and has to be 0 in exit; see RFC 9669, sections 3 to 5\n",
    ),
    (
        b"\x18\x00\x00\x00\x00\x00\x00\x00",
        b"slot 0: HalfWide\n",
        b"1800000000000000: lddw takes two slots, and the second one has 0 of 8 bytes (RFC 9669, section 3.2)\n",
    ),
    (
        b"\x20\x00\x00\x00\x00\x00\x00\x00\x95\x00\x00\x00\x00\x00\x00\x00",
        b"slot 0: Packet\n",
        b"2000000000000000: opcode 0x20 is legacy packet access, which is deprecated and isn't run here (RFC 9669, section 5.5)\n",
    ),
    (
        b"\x18\x10\x00\x00\x00\x00\x00\x00\x00\x00\x00\x00\x00\x00\x00\x00\x95\x00\x00\x00\x00\x00\x00\x00",
        b"slot 0: Platform\n",
        b"1810000000000000: src is 1, so lddw loads a map by its file descriptor; there is no platform here to supply it (RFC 9669, section 5.4)\n",
    ),
    (
        b"\x05\x00\x05\x00\x00\x00\x00\x00\x95\x00\x00\x00\x00\x00\x00\x00",
        b"slot 0: JumpOut\n",
        b"ja +5: it leads to slot 6, outside the code; slots are counted from the next one (RFC 9669, section 4.3)\n",
    ),
    (
        b"\x95\x00\x00\x00\x00\x00\x00\x00\x85\x10\x00\x00\xfd\xff\xff\xff\x95\x00\x00\x00\x00\x00\x00\x00",
        b"slot 1: JumpOut\n",
        b"call local -3: it leads to slot -1, outside the code; slots are counted from the next one (RFC 9669, section 4.3)\n",
    ),
    (
        b"\x15\x01\x01\x00\x02\x00\x00\x00\x18\x00\x00\x00\x00\x00\x00\x00\x00\x00\x00\x00\x00\x00\x00\x00\x95\x00\x00\x00\x00\x00\x00\x00",
        b"slot 0: JumpInside\n",
        b"jeq r1, 2, +1: it leads to slot 2, the second one of a wide instruction; slots are counted from the next one (RFC 9669, section 4.3)\n",
    ),
    (
        b"\x18\x0a\x00\x00\x00\x00\x00\x00\x00\x00\x00\x00\x00\x00\x00\x00\x95\x00\x00\x00\x00\x00\x00\x00",
        b"slot 0: WritesR10\n",
        b"lddw r10, 0x0: R10, the frame pointer, is only read (the ABI of BPF)\n",
    ),
    (
        b"\x85\x00\x00\x00\x05\x00\x00\x00\x95\x00\x00\x00\x00\x00\x00\x00",
        b"slot 0: Helper\n",
        b"call 5: no helper function has this number, they are 1 to 4 (RFC 9669, section 4.3.1)\n",
    ),
    (
        b"\xb7\x00\x00\x00\x07\x00\x00\x00",
        b"slot 0: FallsOff\n",
        b"mov r0, 7: the last instruction has to be exit, ja or ja32\n",
    ),
    (
        b"\x7f\x45\x4c\x46\x02\x01\x01\x00\x00\x00\x00\x00\x00\x00\x00\x00",
        b"slot 0: Field\n",
        b"this is an ELF object file, and not raw code; 'bpfagent-ship FILE' takes object files\n",
    ),
];

#[test]
fn an_explanation_names_the_instruction_and_the_rule(rt: HostRuntime) -> Result<(), Fail> {
    for &(code, line, explanation) in EXPLAINED {
        leaves(&rt, rt.alloc(), &["check"], code, (1, b"", line));
        let mut both = Vec::new(rt.alloc());
        both.extend_from_slice(line)?;
        both.extend_from_slice(explanation)?;
        leaves(
            &rt,
            rt.alloc(),
            &["check", "--explain"],
            code,
            (1, b"", &both),
        );
    }
    Ok(())
}

/// Slots with fields that no instruction of the opcode may have (RFC 9669, sections 3.1, 3.2, 4.1, 4.2, 4.3.1, 5.3 and 5.4),
/// the name of the fault, and what is said of the fields.
const FIELDS: &[(&[u8], &[u8], &[u8])] = &[
    // A register above R10, and both.
    (
        b"\x0f\xcb\x00\x00\x00\x00\x00\x00",
        b"Register",
        b"0fcb000000000000: dst is 11, and has to be 0 to 10 in add; src is 12, and has to be 0 to 10 in add; ",
    ),
    // An atomic operation is named by its imm field.
    (
        b"\xdb\xf1\x00\x00\xe1\x00\x00\x00",
        b"Register",
        b"dbf10000e1000000: src is 15, and has to be 0 to 10 in axchg; ",
    ),
    // Fields that aren't used.
    (
        b"\xb7\x20\x00\x00\x01\x00\x00\x00",
        b"Field",
        b"b720000001000000: src is 2, and has to be 0 in mov; ",
    ),
    (
        b"\x04\x01\xff\xff\x01\x00\x00\x00",
        b"Field",
        b"0401ffff01000000: offset is -1, and has to be 0 in add32; ",
    ),
    (
        b"\x7b\x1a\xf8\xff\xff\xff\xff\xff",
        b"Field",
        b"7b1af8ffffffffff: imm is -1, and has to be 0 in stxdw; ",
    ),
    (
        b"\x05\x23\x01\x00\x07\x00\x00\x00",
        b"Field",
        b"0523010007000000: dst is 3, and has to be 0 in ja; src is 2, and has to be 0 in ja; imm is 7, and has to be 0 in ja; ",
    ),
    (
        b"\x85\x13\x00\x00\x01\x00\x00\x00",
        b"Field",
        b"8513000001000000: dst is 3, and has to be 0 in call local; ",
    ),
    // Fields that have one of a few numbers.
    (
        b"\x85\x70\x00\x00\x01\x00\x00\x00",
        b"Field",
        b"8570000001000000: src is 7, and has to be 0 in call or 1 in call local; ",
    ),
    (
        b"\x37\x01\x05\x00\x02\x00\x00\x00",
        b"Field",
        b"3701050002000000: offset is 5, and has to be 0 in div or 1 in sdiv; ",
    ),
    (
        b"\xbf\x21\x07\x00\x09\x00\x00\x00",
        b"Field",
        b"bf21070009000000: offset is 7, and has to be 0 in mov or 8 in movs8 or 16 in movs16 or 32 in movs32; imm is 9, and has to be 0 in mov; ",
    ),
    (
        b"\xd4\x01\x00\x00\x18\x00\x00\x00",
        b"Field",
        b"d401000018000000: imm is 24, and has to be 16 in le16 or 32 in le32 or 64 in le64; ",
    ),
    (
        b"\xc3\x21\x00\x00\x02\x00\x00\x00",
        b"Field",
        b"c321000002000000: imm is 2, and has to be 0 in aadd32 or 1 in afadd32 \
            or 64 in aor32 or 65 in afor32 or 80 in aand32 or 81 in afand32 \
            or 160 in axor32 or 161 in afxor32 or 225 in axchg32 or 241 in acmpxchg32; ",
    ),
    // The wide encoding.
    (
        b"\x18\x70\x00\x00\x00\x00\x00\x00\x00\x00\x00\x00\x00\x00\x00\x00",
        b"Field",
        b"1870000000000000: src is 7, and has to be 0 in lddw; ",
    ),
    (
        b"\x18\x01\x00\x00\x00\x00\x00\x00\x95\x00\x00\x00\x00\x00\x00\x00",
        b"Field",
        b"1801000000000000: the second slot begins with 95000000, and has to begin with 00000000 in lddw; ",
    ),
];

/// What a platform would have to supply, by the source field (RFC 9669, sections 4.3.1 and 5.4).
const PLATFORM: &[(u8, u8, &[u8])] = &[
    (
        0x18,
        0x10,
        b"1810000000000000: src is 1, so lddw loads a map by its file descriptor",
    ),
    (
        0x18,
        0x20,
        b"1820000000000000: src is 2, so lddw loads an address in a map, by the map's file descriptor",
    ),
    (
        0x18,
        0x30,
        b"1830000000000000: src is 3, so lddw loads the address of a variable",
    ),
    (
        0x18,
        0x40,
        b"1840000000000000: src is 4, so lddw loads the address of an instruction",
    ),
    (
        0x18,
        0x50,
        b"1850000000000000: src is 5, so lddw loads a map by its index",
    ),
    (
        0x18,
        0x60,
        b"1860000000000000: src is 6, so lddw loads an address in a map, by the map's index",
    ),
    (
        0x85,
        0x20,
        b"8520000000000000: src is 2, so call calls a function by its BTF ID",
    ),
];

/// Code is refused at slot 0 for the fault of this name, and this is said beside the line of that.
fn is_explained(
    rt: &impl Abort,
    alloc: Global,
    code: &[u8],
    fault: &[u8],
    says: &[&[u8]],
) -> Result<(), Fail> {
    let mut line = Vec::new(alloc);
    line.extend_from_slice(b"slot 0: ")?;
    line.extend_from_slice(fault)?;
    line.extend_from_slice(b"\n")?;
    for part in says {
        line.extend_from_slice(part)?;
    }
    leaves(rt, alloc, &["check", "--explain"], code, (1, b"", &line));
    Ok(())
}

#[test]
fn each_wrong_field_is_named_with_its_number(rt: HostRuntime) -> Result<(), Fail> {
    for &(code, fault, says) in FIELDS {
        is_explained(
            &rt,
            rt.alloc(),
            code,
            fault,
            &[says, b"see RFC 9669, sections 3 to 5\n"],
        )?;
    }
    Ok(())
}

#[test]
fn what_a_platform_would_supply_is_named(rt: HostRuntime) -> Result<(), Fail> {
    for &(opcode, registers, says) in PLATFORM {
        let section: &[u8] = if opcode == 0x18 { b"5.4" } else { b"4.3.1" };
        let code = [opcode, registers, 0, 0, 0, 0, 0, 0, 0, 0, 0, 0, 0, 0, 0, 0];
        let rest: &[u8] = b"; there is no platform here to supply it (RFC 9669, section ";
        is_explained(
            &rt,
            rt.alloc(),
            &code,
            b"Platform",
            &[says, rest, section, b")\n"],
        )?;
    }
    Ok(())
}

#[test]
fn bytes_that_are_missing_are_counted(rt: HostRuntime) -> Result<(), Fail> {
    let code = b"\x18\x00\x00\x00\x00\x00\x00\x00\x00\x00\x00";
    let half: &[u8] =
        b"1800000000000000: lddw takes two slots, and the second one has 3 of 8 bytes (RFC 9669, section 3.2)\n";
    is_explained(&rt, rt.alloc(), code, b"HalfWide", &[half])?;
    let short: &[u8] = b"95: the slot has 1 of 8 bytes (RFC 9669, section 3.1)\n";
    is_explained(&rt, rt.alloc(), b"\x95", b"Short", &[short])
}

#[test]
fn nothing_is_explained_of_valid_code_and_of_streams(rt: HostRuntime) {
    leaves(
        &rt,
        rt.alloc(),
        &["check", "--explain"],
        &WIDE,
        (0, b"ok 4\n", b""),
    );
    let mut reader = FailingReader::new(EXIT.as_slice(), 1);
    let outcome = outcome_of(rt.alloc(), &["check", "--explain"], &mut reader);
    same!(rt; (outcome.status, outcome.errors.as_slice()), (3, b"read fault\n".as_slice()));
    let mut reader = EXIT.as_slice();
    let mut closed = Narrow::new(rt.alloc(), 1, 2);
    let (status, errors) = ended(
        rt.alloc(),
        &["check", "--explain"],
        &mut reader,
        &mut closed,
    );
    same!(rt; (status, errors.as_slice()), (3, b"write fault\n".as_slice()));
}

#[test]
fn the_longest_code_is_taken_and_one_byte_more_is_not(rt: HostRuntime) -> Result<(), Fail> {
    let mut code = Vec::new(rt.alloc());
    for _ in 0..4096 {
        code.extend_from_slice(&EXIT)?;
    }
    leaves(&rt, rt.alloc(), &["check"], &code, (0, b"ok 4096\n", b""));
    code.push(0)?;
    leaves(
        &rt,
        rt.alloc(),
        &["check"],
        &code,
        (1, b"", b"slot 0: TooLong\n"),
    );
    let both = b"slot 0: TooLong\nthere are more than 32768 bytes, which are 4096 slots\n";
    leaves(
        &rt,
        rt.alloc(),
        &["check", "--explain"],
        &code,
        (1, b"", both),
    );
    Ok(())
}

#[test]
fn one_byte_past_the_longest_code_is_read(rt: HostRuntime) -> Result<(), Fail> {
    let input = vec![in rt.alloc(); 0; 40_000]?;
    let mut reader = input.as_slice();
    let outcome = outcome_of(rt.alloc(), &["check"], &mut reader);
    same!(rt; (outcome.status, reader.len()), (1, 40_000 - 32_769));
    Ok(())
}

#[test]
fn a_stream_that_fails_is_named(rt: HostRuntime) {
    let mut reader = FailingReader::new(EXIT.as_slice(), 1);
    let outcome = outcome_of(rt.alloc(), &["check"], &mut reader);
    same!(rt; (outcome.status, outcome.errors.as_slice()), (3, b"read fault\n".as_slice()));
    let mut reader = EXIT.as_slice();
    let mut closed = Narrow::new(rt.alloc(), 1, 2);
    let (status, errors) = ended(rt.alloc(), &["check"], &mut reader, &mut closed);
    same!(rt; (status, errors.as_slice()), (3, b"write fault\n".as_slice()));
    same!(rt; closed.taken.as_slice(), b"ok".as_slice());
}
