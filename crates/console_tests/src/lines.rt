//! Which lines are commands.

use crate::compared::same;
use console::{Console, LineFault};
use machine::{GRANT_LIMIT, Grant, Grants};
use std::alloc::{AllocError, Global};
use std::test::Fail;
use world::{Bytes, Event, Start};

/// What a console has next.
#[derive(Clone, Copy, Drop, Debug, PartialEq, Eq)]
enum Next {
    Nothing,
    Fault(LineFault),
    /// A command on the machine of this number.
    OnMachine(usize),
    Other,
}

/// Takes what a console has next.
fn next_of(console: &mut Console) -> Next {
    match console.next_command() {
        None => Next::Nothing,
        Some(Err(fault)) => Next::Fault(fault),
        Some(Ok(Event::Machine { machine, .. })) => Next::OnMachine(machine),
        Some(Ok(_)) => Next::Other,
    }
}

/// How many of these bytes a console takes.
fn feed(console: &mut Console, bytes: &[u8]) -> usize {
    console.feed(bytes)
}

/// Whether a console holds the beginning of a line.
fn rest(console: &Console) -> bool {
    console.rest()
}

#[test]
fn bytes_in_commands_out(rt: HostRuntime) -> Result<(), Fail> {
    let mut console = Console::new(rt.alloc())?;
    same!(rt; next_of(&mut console), Next::Nothing);
    same!(rt; feed(&mut console, b"st"), 2);
    same!(rt; rest(&console), true);
    same!(rt; feed(&mut console, b"ep 1\nregs 2\n"), 5);
    same!(rt; rest(&console), false);
    // a line waits
    same!(rt; feed(&mut console, b"regs 2\n"), 0);
    same!(rt; next_of(&mut console), Next::OnMachine(1));
    same!(rt; next_of(&mut console), Next::Nothing);
    same!(rt; feed(&mut console, b"regs 2\n"), 7);
    same!(rt; next_of(&mut console), Next::OnMachine(2));
    same!(rt; feed(&mut console, b"\n"), 1);
    same!(rt; next_of(&mut console), Next::Fault(LineFault::Bad));
    same!(rt; feed(&mut console, b"regs"), 4);
    console.clear();
    same!(rt; rest(&console), false);
    Ok(())
}

/// Lines, each with the command that it spells.
const GOOD: &[(&str, &str)] = &[
    ("make 1", "Make { length: ObjectLength { count: 1 } }"),
    (
        "make 65536",
        "Make { length: ObjectLength { count: 65536 } }",
    ),
    ("free 1024", "Object { object: 1024, command: Free }"),
    (
        "put 1 65535 0Ff0",
        "Object { object: 1, command: Put { offset: 65535, bytes: Bytes { bytes: [15, 240] } } }",
    ),
    (
        "get 0x400 0xFFFF 0x1000",
        "Object { object: 1024, command: Get { offset: 65535, length: 4096 } }",
    ),
    (
        "get 1 0 1",
        "Object { object: 1, command: Get { offset: 0, length: 1 } }",
    ),
    ("leave 1", "Object { object: 1, command: Move(Leave) }"),
    (
        "leave 1024",
        "Object { object: 1024, command: Move(Leave) }",
    ),
    ("left 1", "Object { object: 1, command: Move(Left) }"),
    ("left 0x400", "Object { object: 1024, command: Move(Left) }"),
    ("return 1", "Object { object: 1, command: Move(Return) }"),
    (
        "return 1024",
        "Object { object: 1024, command: Move(Return) }",
    ),
    (
        "returned 1",
        "Object { object: 1, command: Move(Returned) }",
    ),
    (
        "returned 1024",
        "Object { object: 1024, command: Move(Returned) }",
    ),
    ("step 48", "Machine { machine: 48, command: Step(Step) }"),
    ("step 0x30", "Machine { machine: 48, command: Step(Step) }"),
    ("one 1", "Machine { machine: 1, command: Step(One) }"),
    ("one 48", "Machine { machine: 48, command: Step(One) }"),
    ("regs 1", "Machine { machine: 1, command: Show(Regs) }"),
    ("out 48", "Machine { machine: 48, command: Show(Out) }"),
    (
        "stack 48 4095 4096",
        "Machine { machine: 48, command: Show(Stack { offset: 4095, length: 4096 }) }",
    ),
    (
        "stack 1 0 1",
        "Machine { machine: 1, command: Show(Stack { offset: 0, length: 1 }) }",
    ),
    (
        "line 1 0",
        "Machine { machine: 1, command: Show(Line { slot: 0 }) }",
    ),
    (
        "line 48 4095",
        "Machine { machine: 48, command: Show(Line { slot: 4095 }) }",
    ),
    (
        "break 1 0",
        "Machine { machine: 1, command: Debug(Break { slot: 0 }) }",
    ),
    (
        "break 48 0xfff",
        "Machine { machine: 48, command: Debug(Break { slot: 4095 }) }",
    ),
    (
        "unbreak 1 0",
        "Machine { machine: 1, command: Debug(Unbreak { slot: 0 }) }",
    ),
    (
        "unbreak 48 4095",
        "Machine { machine: 48, command: Debug(Unbreak { slot: 4095 }) }",
    ),
    (
        "watch 1 0 1",
        "Machine { machine: 1, command: Debug(Watch { address: 0, length: 1 }) }",
    ),
    (
        "watch 48 18446744073709551615 4096",
        "Machine { machine: 48, command: Debug(Watch { address: 18446744073709551615, length: 4096 }) }",
    ),
    (
        "watch 2 0x100000008 8",
        "Machine { machine: 2, command: Debug(Watch { address: 4294967304, length: 8 }) }",
    ),
    (
        "unwatch 1 0 1",
        "Machine { machine: 1, command: Debug(Unwatch { address: 0, length: 1 }) }",
    ),
    (
        "unwatch 48 0xffffFFFFffffFFFF 0x1000",
        "Machine { machine: 48, command: Debug(Unwatch { address: 18446744073709551615, length: 4096 }) }",
    ),
    ("resume 1", "Machine { machine: 1, command: Debug(Resume) }"),
    (
        "resume 48",
        "Machine { machine: 48, command: Debug(Resume) }",
    ),
];

/// Which objects a line grants.
#[derive(Clone, Copy, Drop, Debug)]
enum Granted {
    All,
    Nothing,
    /// Object 1 to read.
    One,
    /// Object 1 to write, and object 1024 to read.
    Two,
    /// Objects 1 to 8 to read, and objects 9 to 16 to write.
    Sixteen,
}

/// Object 1 to read.
fn one() -> Grants {
    let mut grants = Grants::none();
    grants.add(Grant {
        number: 1,
        writes: false,
    });
    grants
}

/// Object 1 to write, and object 1024 to read.
fn two() -> Grants {
    let mut grants = Grants::none();
    grants.add(Grant {
        number: 1,
        writes: true,
    });
    grants.add(Grant {
        number: 1024,
        writes: false,
    });
    grants
}

/// Objects 1 to 8 to read, and objects 9 to 16 to write.
fn sixteen() -> Grants {
    let mut grants = Grants::none();
    for count in 0..GRANT_LIMIT {
        grants.add(Grant {
            number: count as u32 + 1,
            writes: count >= 8,
        });
    }
    grants
}

fn grants_of(granted: Granted) -> Grants {
    match granted {
        Granted::All => Grants::all(),
        Granted::Nothing => Grants::none(),
        Granted::One => one(),
        Granted::Two => two(),
        Granted::Sixteen => sixteen(),
    }
}

/// Lines that ship code of one byte, each with fuel, arguments, grants and that byte.
const SHIPPED: &[(&str, u64, [u64; 5], Granted, u8)] = &[
    (
        "ship 18446744073709551615 0xffffffffffffffff 0xFfFf 0 0 0x0000000000000001 00",
        u64::MAX,
        [u64::MAX, 65535, 0, 0, 1],
        Granted::All,
        0x00,
    ),
    (
        "ship2 1 0 0 0 0 2 95",
        1,
        [0, 0, 0, 0, 2],
        Granted::Nothing,
        0x95,
    ),
    (
        "ship2 1 0 0 0 0 2 95 r1",
        1,
        [0, 0, 0, 0, 2],
        Granted::One,
        0x95,
    ),
    (
        "ship2 1 0 0 0 0 0x2 95 w0x1 r1024",
        1,
        [0, 0, 0, 0, 2],
        Granted::Two,
        0x95,
    ),
    (
        "ship2 1 0 0 0 0 2 95 r1 r2 r3 r4 r5 r6 r7 r8 w9 w10 w11 w12 w13 w14 w15 w16",
        1,
        [0, 0, 0, 0, 2],
        Granted::Sixteen,
        0x95,
    ),
];

/// What a line says, as text: a command, or why it is none.
fn text_of(alloc: Global, said: Option<Result<Event, LineFault>>) -> Result<String, Fail> {
    match said {
        Some(Ok(event)) => Ok(format!(in alloc; "{event:?}")?),
        Some(Err(fault)) => Ok(format!(in alloc; "{fault:?}")?),
        None => Ok(String::from_str(alloc, "nothing")?),
    }
}

/// The same of a fresh console that takes all of it.
fn read(alloc: Global, line: &str) -> Result<String, Fail> {
    let mut console = Console::new(alloc)?;
    let taken = console.feed(line.as_bytes());
    let ended = console.feed(b"\n");
    if taken != line.len() || ended != 1 {
        return Ok(String::from_str(alloc, "too much")?);
    }
    text_of(alloc, console.next_command())
}

#[test]
fn good_lines(rt: HostRuntime) -> Result<(), Fail> {
    for &(line, event) in GOOD {
        same!(rt; read(rt.alloc(), line)?.as_str(), event, line);
    }
    Ok(())
}

#[test]
fn shipped_code(rt: HostRuntime) -> Result<(), Fail> {
    for &(line, fuel, arguments, granted, byte) in SHIPPED {
        let mut code = Vec::new(rt.alloc());
        code.extend_from_slice(&[byte])?;
        let start = Start {
            fuel,
            arguments,
            grants: grants_of(granted),
        };
        let event = Event::Ship {
            start,
            code: Bytes::new(code),
        };
        let wanted = text_of(rt.alloc(), Some(Ok(event)))?;
        same!(rt; read(rt.alloc(), line)?.as_str(), wanted.as_str(), line);
    }
    Ok(())
}

/// Lines that spell no command.
const BAD: &[&str] = &[
    // names and spaces
    "",
    " ",
    "step",
    "step ",
    " step 1",
    "step 1 ",
    "step  1",
    "step 1 1",
    "step\t1",
    "step 1\r",
    "Step 1",
    "steps 1",
    "made 8",
    // numbers
    "step 00",
    "step 01",
    "step +1",
    "step -1",
    "step 0X1",
    "step 0x",
    "step 0x00000000000000001",
    "step 18446744073709551617",
    "step 1a",
    // limits
    "step 0",
    "step 49",
    "step 0x31",
    "regs 0",
    "out 49",
    "stack 0 0 1",
    "stack 49 0 1",
    "stack 1 4096 1",
    "stack 1 0 0",
    "stack 1 0 4097",
    "make 0",
    "make 65537",
    "free 0",
    "free 1025",
    "put 0 0 00",
    "put 1025 0 00",
    "put 1 65536 00",
    "get 0 0 1",
    "get 1025 0 1",
    "get 1 65536 1",
    "get 1 0 0",
    "get 1 0 4097",
    // bytes
    "put 1 0",
    "put 1 0 ",
    "put 1 0 0",
    "put 1 0 0g",
    "put 1 0 00 00",
    "ship 0 0 0 0 0 0",
    "ship 0 0 0 0 0 0 ",
    "ship 0 0 0 0 0 0 9",
    "ship 0 0 0 0 0 0 9g",
    "ship 0 0 0 0 0 0 0x95",
    "ship 0 0 0 0 0 95",
    "ship 0 0 0 0 0 0 95 0",
    "ship 0 18446744073709551616 0 0 0 0 95",
    "ship 0 00 0 0 0 0 95",
    // grants
    "ship2 1 0 0 0 0 2",
    "ship2 1 0 0 0 0 2 ",
    "ship2 1 0 0 0 0 2 9",
    "ship2 1 0 0 0 0 2 95 ",
    "ship2 1 0 0 0 0 2 95 r",
    "ship2 1 0 0 0 0 2 95 1",
    "ship2 1 0 0 0 0 2 95 x1",
    "ship2 1 0 0 0 0 2 95 R1",
    "ship2 1 0 0 0 0 2 95 r0",
    "ship2 1 0 0 0 0 2 95 w1025",
    "ship2 1 0 0 0 0 2 95 r01",
    "ship2 1 0 0 0 0 2 95 r0x",
    "ship2 1 0 0 0 0 2 95 r1 ",
    "ship2 1 0 0 0 0 2 95  r1",
    "ship2 1 0 0 0 0 2 95 r1 w1",
    "ship2 1 0 0 0 0 2 95 r2 r1",
    "ship2 1 0 0 0 0 2 95 w3 r3",
    "ship2 1 0 0 0 0 2 95 r4294967297",
    "ship2 1 0 0 0 0 2 95 r1 r2 r3 r4 r5 r6 r7 r8 r9 r10 r11 r12 r13 r14 r15 r16 r17",
    "ship2 1 0 0 0 0 2 9g r1",
    "ship 1 0 0 0 0 2 95 r1",
    "ship3 1 0 0 0 0 2 95",
    // moves
    "leave",
    "leave 0",
    "leave 1025",
    "leave 1 1",
    "left 0",
    "left 1025",
    "Left 1",
    "lefts 1",
    "leaving 1",
    "return 0",
    "return 1025",
    "returned 0",
    "returned 1025",
    "returned 01",
    "home 1",
    // debugging
    "one",
    "one 0",
    "one 49",
    "one 1 1",
    "line 1 4096",
    "line 49 0",
    "break 1",
    "break 0 0",
    "break 49 0",
    "break 1 4096",
    "break 1 0 0",
    "unbreak 1",
    "unbreak 0 0",
    "unbreak 49 0",
    "unbreak 1 4096",
    "watch 1 0",
    "watch 0 0 1",
    "watch 49 0 1",
    "watch 1 0 0",
    "watch 1 0 4097",
    "watch 1 0 1 1",
    "watch 1 18446744073709551616 1",
    "unwatch 1 0",
    "unwatch 0 0 1",
    "unwatch 49 0 1",
    "unwatch 1 0 0",
    "unwatch 1 0 4097",
    "unwatch 1 0x10000000000000000 1",
    "resume",
    "resume 0",
    "resume 49",
    "resume 1 0",
    "pause 1",
];

#[test]
fn bad_lines(rt: HostRuntime) -> Result<(), Fail> {
    for &line in BAD {
        same!(rt; read(rt.alloc(), line)?.as_str(), "Bad", line);
    }
    Ok(())
}
