//! The arguments of the command line, and help.

use crate::compared::same;
use crate::help_list::{
    ASM_HELP, CHECK_HELP, COMMANDS_HELP, DIS_HELP, RUN_HELP, SERVE_HELP, STORE_HELP, TOP_HELP,
};
use crate::outcome::{ended, leaves};
use agent::refuse_arguments;
use std::alloc::{AllocError, Global};
use std::io::{Error, ErrorKind};
use std::test::Fail;
use test_devices::Narrow;

// What help says first, and of the options.

const TOP_HEAD: &str =
    "Runs BPF programs (RFC 9669) beside objects that move to a far store and back

Usage: bpfagent <COMMAND>

Commands:
  run       Do the commands of standard input, one a line
  check     Check the raw code of standard input
  asm       Turn the assembly of standard input into raw code
  dis       Show the raw code of standard input as assembly
  store     Keep the objects of other agents
  serve     Share objects and machines with clients
  commands  List the commands of run, and what each takes

Options:
  -h, --help     Print help
  -V, --version  Print version

";

const RUN_HEAD: &str = "Do the commands of standard input, one a line

Usage: bpfagent run [OPTIONS]

Options:
      --budget <N>  The most bytes of objects that are not far, 0 to 67108864 [default: 67108864]
  -h, --help        Print help

";

const CHECK_HEAD: &str = "Check the raw code of standard input

Usage: bpfagent check [OPTIONS]

Options:
      --explain  Name the instruction, and the rule that it breaks, in a second line
  -h, --help     Print help

";

const ASM_HEAD: &str = "Turn the assembly of standard input into raw code

Usage: bpfagent asm [OPTIONS]

Options:
      --explain  Quote the line of an error, and name the token, in a second line
  -h, --help     Print help

";

const DIS_HEAD: &str = "Show the raw code of standard input as assembly

Usage: bpfagent dis [OPTIONS]

Options:
      --slots  Show the number of its slot before each instruction
      --llvm   Spell each instruction as llvm-objdump does
  -h, --help   Print help

";

const STORE_HEAD: &str = "Keep the objects of other agents

Usage: bpfagent store [OPTIONS]

Options:
      --port <P>        The port to listen on, 0 to 65535, where 0 is any free one [default: 0]
      --idle <SECONDS>  The most seconds that a client may be idle, 0 to 86400, where 0 is for ever [default: 0]
      --memory <BYTES>  The most bytes that are kept, 0 to 4294967295, where 0 is no bound [default: 0]
  -v, --verbose         Write what happens to standard error, a line each with the time
  -h, --help            Print help

";

const SERVE_HEAD: &str = "Share objects and machines with clients

Usage: bpfagent serve [OPTIONS]

Options:
      --port <P>          The port to listen on, 0 to 65535, where 0 is any free one [default: 0]
      --unix <PATH>       The socket file to listen at instead of a port; only its owner can connect
      --connections <N>   How many connections are taken in all, 1 to 8 [default: 1]
      --workers <W>       How many workers step machines, 0 to 16 [default: 2]
      --budget <N>        The most bytes of objects that are not far, 0 to 67108864 [default: 67108864]
      --sweep             Send away objects that nobody has used for a while
      --keep <BYTES>      The most bytes of objects that are here while clients are served, 65536 to 67108864; those in use stay [default: 67108864]
      --far <HOST:PORT>   The server that keeps far objects, HOST an IP address; without it they stay in this process
      --far-timeout <MS>  The most milliseconds that connecting to the far server, a read or a write may take, 1 to 600000 [default: 5000]
  -v, --verbose           Write what happens to standard error, a line each with the time
  -h, --help              Print help

";

const COMMANDS_HEAD: &str = "List the commands of run, and what each takes

Usage: bpfagent commands

Options:
  -h, --help  Print help

";

const NO_SUBCOMMAND: &str = "error: 'bpfagent' requires a subcommand but one was not provided
  [subcommands: run, check, asm, dis, store, serve, commands]

Usage: bpfagent <COMMAND>

For more information, try '--help'.
";

const UNKNOWN: &str = "error: unrecognized subcommand 'stor'

  tip: a similar subcommand exists: 'store'

Usage: bpfagent <COMMAND>

For more information, try '--help'.
";

const HELP_SUBCOMMAND: &str = "error: unrecognized subcommand 'help'

Usage: bpfagent <COMMAND>

For more information, try '--help'.
";

const OPTION: &str = "error: unexpected argument '--budget' found

Usage: bpfagent check [OPTIONS]

For more information, try '--help'.
";

const TOO_GREAT: &str =
    "error: invalid value '67108865' for '--budget <N>': 67108865 is not in 0..=67108864

For more information, try '--help'.
";

const NO_PORT: &str = "error: invalid value '65536' for '--port <P>': 65536 is not in 0..=65535

For more information, try '--help'.
";

const TOO_LONG: &str =
    "error: invalid value '86401' for '--idle <SECONDS>': 86401 is not in 0..=86400

For more information, try '--help'.
";

const NO_NUMBER: &str = "error: invalid value 'x' for '--budget <N>': invalid digit found in string

For more information, try '--help'.
";

const NO_TEXT: &str =
    "error: invalid value '' for '--budget <N>': cannot parse integer from empty string

For more information, try '--help'.
";

const NO_VALUE: &str = "error: a value is required for '--budget <N>' but none was supplied

For more information, try '--help'.
";

const TWICE: &str = "error: the argument '--budget <N>' cannot be used multiple times

Usage: bpfagent run [OPTIONS]

For more information, try '--help'.
";

/// Arguments that are refused, and what is said then.
const INVALID: &[(&[&str], &str)] = &[
    (&[], NO_SUBCOMMAND),
    (&["stor"], UNKNOWN),
    (&["help"], HELP_SUBCOMMAND),
    (&["check", "--budget", "8"], OPTION),
    (&["run", "--budget", "67108865"], TOO_GREAT),
    (&["store", "--port", "65536"], NO_PORT),
    (&["store", "--idle", "86401"], TOO_LONG),
    (&["run", "--budget", "x"], NO_NUMBER),
    (&["run", "--budget="], NO_TEXT),
    (&["run", "--budget"], NO_VALUE),
    (&["run", "--budget", "8", "--budget", "8"], TWICE),
];

#[test]
fn invalid_arguments_are_named(rt: HostRuntime) {
    for &(arguments, text) in INVALID {
        let wanted: (u8, &[u8], &[u8]) = (2, b"", text.as_bytes());
        leaves(&rt, rt.alloc(), arguments, b"step 1\n", wanted);
    }
}

/// Arguments that ask for help, and both parts of the help.
const HELPS: &[(&[&str], &str, &str)] = &[
    (&["--help"], TOP_HEAD, TOP_HELP),
    (&["store", "--help"], STORE_HEAD, STORE_HELP),
    (&["-h"], TOP_HEAD, TOP_HELP),
    (&["check", "--help"], CHECK_HEAD, CHECK_HELP),
    (&["asm", "--help"], ASM_HEAD, ASM_HELP),
    (&["dis", "-h"], DIS_HEAD, DIS_HELP),
    (&["serve", "--help"], SERVE_HEAD, SERVE_HELP),
    (&["commands", "-h"], COMMANDS_HEAD, COMMANDS_HELP),
    (&["run", "--help"], RUN_HEAD, RUN_HELP),
    (&["run", "--budget", "8", "-h"], RUN_HEAD, RUN_HELP),
];

/// Both parts, as one text.
fn help_of(alloc: Global, head: &str, rest: &str) -> Result<Vec<u8>, AllocError> {
    let mut text = head.as_bytes().to_vec(alloc)?;
    text.extend_from_slice(rest.as_bytes())?;
    text.push(b'\n')?;
    Ok(text)
}

#[test]
fn help_goes_to_the_output(rt: HostRuntime) -> Result<(), Fail> {
    for &(arguments, head, rest) in HELPS {
        let text = help_of(rt.alloc(), head, rest)?;
        let wanted: (u8, &[u8], &[u8]) = (0, text.as_slice(), b"");
        leaves(&rt, rt.alloc(), arguments, b"step 1\n", wanted);
    }
    Ok(())
}

#[test]
fn the_version_goes_to_the_output(rt: HostRuntime) {
    for arguments in [["--version"].as_slice(), &["-V"], &["--version", "run"]] {
        let wanted: (u8, &[u8], &[u8]) = (0, b"bpfagent 0.9.0\n", b"");
        leaves(&rt, rt.alloc(), arguments, b"step 1\n", wanted);
    }
    let mut input = b"".as_slice();
    let mut closed = Narrow::new(rt.alloc(), 1, 2);
    let (status, errors) = ended(rt.alloc(), &["--version"], &mut input, &mut closed);
    same!(rt; (status, errors.as_slice()), (3, b"write fault\n".as_slice()));
    same!(rt; closed.taken.as_slice(), b"bp".as_slice());
}

#[test]
fn help_that_is_not_taken_is_a_write_fault(rt: HostRuntime) {
    let mut input = b"".as_slice();
    let mut closed = Narrow::new(rt.alloc(), 1, 0);
    let (status, errors) = ended(rt.alloc(), &["--help"], &mut input, &mut closed);
    same!(rt; (status, errors.as_slice()), (3, b"write fault\n".as_slice()));
}

/// Why there are no arguments, the status then, and what is said.
const NO_ARGUMENTS: &[(ErrorKind, u8, &[u8])] = &[
    (
        ErrorKind::InvalidData,
        2,
        b"error: the arguments are not valid UTF-8\n",
    ),
    (ErrorKind::OutOfMemory, 3, b"no memory\n"),
];

#[test]
fn arguments_that_cannot_be_had_are_named(rt: HostRuntime) {
    for &(kind, status, text) in NO_ARGUMENTS {
        let mut errors = Vec::new(rt.alloc());
        same!(rt; refuse_arguments(&Error::from(kind), &mut errors), status);
        same!(rt; errors.as_slice(), text);
    }
}
