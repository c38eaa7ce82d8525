//! What help says beside the options. Lines have at most 80 columns, as a terminal has.

/// In a sentence, what the program is.
pub(crate) const ABOUT: &str =
    "Runs BPF programs (RFC 9669) beside objects that move to a far store and back";

/// What help says of the program.
pub(crate) const TOP_HELP: &str = "\
'bpfagent run' answers commands, 'bpfagent serve' those of many clients at the
same time. 'check', 'asm' and 'dis' are for those who write programs. 'store'
keeps what leaves a service. 'commands' is for those who write clients.
'bpfagent COMMAND --help' says more of each.

Each command but 'commands' reads standard input. Status 0: done. Status 1: the
input is refused. Status 2: invalid arguments. Status 3: a stream failed, or out
of memory. Unless the status is 0, standard error says what is wrong.";

/// What help says of `run`.
pub(crate) const RUN_HELP: &str = "\
Reads commands from standard input, one a line. For each it writes a line to
standard output, the reply, before it does the next.

Objects are arrays of bytes, numbered n = 1, 2, 3 and so on:
  make LENGTH                          made n
  put n OFFSET BYTES                   ok
  get n OFFSET LENGTH                  bytes BYTES
  free n                               freed n

Machines are BPF programs, numbered m = 1, 2, 3, stepped by instructions:
  ship FUEL A1 A2 A3 A4 A5 CODE        shipped m
  ship2 FUEL A1 A2 A3 A4 A5 CODE G ..  shipped m, for objects granted by G ..
  step m                               ran m SLOT, stopped m exit V and others
  regs m                               regs m SLOT FUEL STATE R0 .. R10
  out m                                out m V ..
  stack m OFFSET LENGTH                bytes BYTES
  line m SLOT                          line m SLOT TEXT

An object leaves for the far store in two commands, and comes back in two:
  leave n, left n                      leaving n, left n
  return n, returned n                 returning n, home n

Debugging:
  break m SLOT, unbreak m SLOT         ok
  watch m ADDRESS LENGTH, unwatch ..   ok
  one m, resume m                      ran m SLOT, ok

FUEL is how many instructions a machine may do. A1 to A5 are its registers R1
to R5. The address of a byte of object n is n * 2^32 + OFFSET. BYTES and CODE
are hex digits. Numbers are decimal, or 0x and hex digits.

A line that is no command is answered 'bad', and an unfinished last line 'cut'.
A command that is refused has another reply, such as 'none', 'outside' or
'full', and changes nothing.

Example:
  printf 'make 8\\nput 1 0 616263\\nget 1 0 3\\n' | bpfagent run

Status 0: the input has ended. Status 3: a stream failed, or out of memory at
the start. Standard error says which.";

/// What help says of `check`.
pub(crate) const CHECK_HELP: &str = "\
Reads raw code (bytes, not hex) from standard input. If the code is valid, it
writes 'ok N' to standard output: the code has N slots of eight bytes.
Otherwise it writes 'slot S: WHY' to standard error.

WHY is one of these:
  Empty       there is no code
  TooLong     more than 32768 bytes
  Short       fewer than eight bytes are left
  Opcode      no instruction has this opcode
  Register    a register above R10
  Field       an unused field isn't zero, or a field has a value it can't have
  HalfWide    a 64-bit load of a constant without its second slot
  Packet      legacy packet access
  Platform    a map, a variable or a function of a platform
  JumpOut     a jump or call leads outside the code
  JumpInside  a jump or call leads to the second slot of an instruction
  WritesR10   the frame pointer is written
  Helper      no helper has this number, they are 1 to 4
  FallsOff    the last instruction is neither EXIT nor an unconditional jump

Status 0: the code is valid. Status 1: it isn't. Status 3: a stream failed, or
out of memory. Standard error says which.";

/// What help says of `asm`.
pub(crate) const ASM_HELP: &str = "\
Reads assembly from standard input, at most 1048576 bytes, and writes raw code
(bytes, not hex) to standard output. A line has an optional label, such as
'again:', and an optional instruction. '#' and ';' begin a comment.

  add sub mul div sdiv or and lsh rsh mod smod xor mov arsh      R, R or R, I
  movs8 movs16 movs32 movs8_32 movs16_32                         R, R
  neg le16 le32 le64 be16 be32 be64 bswap16 bswap32 bswap64      R
  lddw                                                           R, L
  ldxb ldxh ldxw ldxdw ldxsb ldxsh ldxsw                         R, M
  stb sth stw stdw                                               M, I
  stxb stxh stxw stxdw                                           M, R
  aadd aor aand axor afadd afor afand afxor axchg acmpxchg       M, R
  ja ja32, call local                                            T
  jeq jgt jge jset jne jsgt jsge jlt jle jslt jsle       R, R, T or R, I, T
  call                                                           I
  exit

R is r0 to r10. I is a number of 32 bits, L one of 64. M is [R], [R+n] or
[R-n]. T is a label, or how many slots to skip, with a sign. Arithmetic of the
first line, neg, atomic operations and jumps on a condition have a form of 32
bits, such as 'add32'.

If the text isn't assembly, standard error has 'line L: WHY' or 'input too
long'. WHY is Word, Operand, Range, Label, TwiceLabel or TooLong.

Example:
  printf 'mov r0, 7\\nexit\\n' | bpfagent asm | od -An -v -tx1

Status 0: the code is written. Status 1: the text isn't assembly. Status 3: a
stream failed, or out of memory. Standard error says which.";

/// What help says of `dis`.
pub(crate) const DIS_HELP: &str = "\
Reads raw code (bytes, not hex) from standard input, and writes assembly to
standard output, a line for each instruction. 'bpfagent asm' makes the same
code of it. With --slots or --llvm the text is for people, and 'asm' doesn't
read it. --llvm spells each instruction as llvm-objdump of LLVM 19 does with
'-d --mcpu=v4 --no-print-imm-hex'. If the code isn't valid, standard error has
'slot S: WHY', as for 'bpfagent check'.

Example:
  printf 'mov r0, 7\\nexit\\n' | bpfagent asm | bpfagent dis --slots

Status 0: the text is written. Status 1: the code isn't valid. Status 3: a
stream failed, or out of memory. Standard error says which.";

/// What help says of `store`.
pub(crate) const STORE_HELP: &str = "\
Listens on 127.0.0.1, and writes 'listening P' to standard output, where P is
the port. It serves up to 64 clients at the same time, each from an empty store
of its own, until standard input ends. One more finds its socket closed.
'bpfagent serve --far 127.0.0.1:P' is such a client. A client that breaks the
protocol is given up: standard error has 'client N: WHY', and the others are
served. So is one that is idle for longer than --idle. A put that would keep
more than --memory finds no room.

Status 0: standard input has ended. Status 3: the port can't be had, a stream
failed, or out of memory. Standard error says which.";

/// What help says of `serve`.
pub(crate) const SERVE_HELP: &str = "\
First does the commands of standard input, as 'bpfagent run' does, and writes
their replies. Then listens at the socket file of --unix, to which only its
owner can connect, and writes 'listening PATH' to standard output. Without
--unix it listens on 127.0.0.1, to which every user and every web page of the
machine can connect, and writes 'listening P', where P is the port. It takes N
connections in all. Each is a conversation of its own over the same objects and
machines. Workers step the machines that are neither paused nor stopped. A
mover takes objects away and brings them back. With --far they go to a server
such as 'bpfagent store', to which the program connects before it reads
anything. A server that answers nothing, or has no room for another client, is
a net fault.

With --keep the mover sends objects away that nobody has used lately, before
another comes back that would go past the bound. If those in use have more, it
goes below the bound as soon as they allow it. Without --far objects go to
memory of this process, so that --keep bounds nothing but what is here.

In a conversation 'make', 'free', 'left' and 'returned' are answered
'unserved'. 'leave n' and 'return n' ask the mover, and are answered 'asked n'.

When all connections have ended, it writes 'closed', a line for each object,
and the 'regs' line of each machine. The socket file is removed then. One that
a killed service left is removed at the start; one at which somebody listens is
a net fault.

Example:
  printf 'make 8\\n' | bpfagent serve --unix agent.sock

Status 0: all connections have ended. Status 1: an object is on its way or far
when standard input ends; standard error has \"object N isn't here\". Status 3:
the far server can't be reached, the port or the socket file can't be had, a
stream failed, or out of memory. Standard error says which.";

/// What help says of `commands`.
pub(crate) const COMMANDS_HELP: &str = "\
Writes a line to standard output for each command of 'bpfagent run', and reads
nothing. The line has the command's name, and then what comes after it:

  LEAST-MOST  a number, and what it may be
  bytes-N     1 to N bytes, as hex digits
  grants      any number of words, each of which grants an object

Example:
  bpfagent commands | grep get

Status 0: the lines are written. Status 3: the output failed, or out of memory.
Standard error says which.";
