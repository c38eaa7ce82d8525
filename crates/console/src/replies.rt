//! Replies in, their lines out.
ghost use Rattle.std.specs.Prelude.{◌≡◌, ◌≤◌, ◌+◌, ◌*◌, ◌++◌, ◌∷◌, [], codes, length, flat_map};
ghost use Rattle.arrayvec.specs.ArrayVec.{array_vec_len};
ghost use Rattle.console.specs.Lines.{ended, bad_text, nomem_text};
ghost use Rattle.hex.specs.Hex.{encode_lower};
ghost use Rattle.loader.specs.Refusals.{why_name};
ghost use Rattle.machine.specs.Stops.{stop_name};
ghost use Rattle.world.specs.Machines.{reply_of};
ghost use Rattle.world.specs.declared.replies.Reply.{Reply};
ghost use Rattle.console.specs.Replies.{reply_text, number_text, value_text, stop_value_text, state_name, shown_text, place_name, IsShort};
ghost use Rattle.console.specs.Replies.{step_text, show_text, debug_text, move_name, moved_text};

use crate::digits::write_digits;
use crate::fault::LineFault;
use crate::kind::RANGE_LIMIT;
use loader::LoadError;
use machine::Stop;
use streams::Line;
use world::{Debugged, Move, Moved, Place, Reply, ShowReply, Shown, State, StepReply};

/// The most bytes of a reply, with its line end.
pub const REPLY_LIMIT: usize = 8_200;

/// The line of a reply.
pub type ReplyLine = Line<REPLY_LIMIT>;

/// Adds a space and a number in decimal.
fn put_number(line: &mut ReplyLine, number: u64)
    requires { array_vec_len line.old + 21 ≤ REPLY_LIMIT }
    ensures text { line.new.items ≡ line.old.items ++ number_text number }
    ensures short { array_vec_len line.new ≤ array_vec_len line.old + 21 }
{
    line.put(b" ");
    line.put_decimal(number);
}

/// Adds a name, a space and a number in decimal.
pub fn put_named(line: &mut ReplyLine, name: &[u8], number: u64)
    requires { array_vec_len line.old + length name.now + 21 ≤ REPLY_LIMIT }
    ensures text { line.new.items ≡ line.old.items ++ name.now ++ number_text number }
    ensures short { array_vec_len line.new ≤ array_vec_len line.old + length name.now + 21 }
{
    line.put(name);
    put_number(line, number);
}

/// Adds a name and two numbers.
fn put_pair(line: &mut ReplyLine, name: &[u8], first: u64, second: u64)
    requires { array_vec_len line.old + length name.now + 42 ≤ REPLY_LIMIT }
    ensures text { line.new.items ≡ line.old.items ++ name.now ++ number_text first ++ number_text second }
    ensures short { array_vec_len line.new ≤ array_vec_len line.old + length name.now + 42 }
{
    put_named(line, name, first);
    put_number(line, second);
}

/// Adds a space and a register's value in hex.
fn put_value(line: &mut ReplyLine, value: u64)
    requires { array_vec_len line.old + 17 ≤ REPLY_LIMIT }
    ensures text { line.new.items ≡ line.old.items ++ value_text value }
    ensures short { array_vec_len line.new ≡ array_vec_len line.old + 17 }
{
    let mut digits = [0u8; 16];
    write_digits(&value.to_be_bytes(), &mut digits);
    line.put(b" ");
    line.put(&digits);
}

/// Adds values in hex.
fn put_values(line: &mut ReplyLine, values: &[u64])
    requires { array_vec_len line.old + 17 * length values.now ≤ REPLY_LIMIT }
    ensures text { line.new.items ≡ line.old.items ++ flat_map value_text values.now }
    ensures short { array_vec_len line.new ≡ array_vec_len line.old + 17 * length values.now }
{
    for value in values {
        put_value(line, *value);
    }
}

/// How many bytes are written in hex at a time.
const BLOCK: usize = 64;

/// Adds bytes in hex.
fn put_bytes(line: &mut ReplyLine, bytes: &[u8])
    requires { array_vec_len line.old + 2 * length bytes.now ≤ REPLY_LIMIT }
    ensures text { line.new.items ≡ line.old.items ++ encode_lower bytes.now }
    ensures short { array_vec_len line.new ≡ array_vec_len line.old + 2 * length bytes.now }
{
    let mut digits = [0u8; 2 * BLOCK];
    let mut rest = bytes;
    while !rest.is_empty() {
        let count = rest.len().min(BLOCK);
        let text = &mut digits[..2 * count];
        write_digits(&rest[..count], text);
        line.put(text);
        rest = &rest[count..];
    }
}

/// Adds that these bytes are shown.
fn put_shown_bytes(line: &mut ReplyLine, bytes: &[u8])
    requires { array_vec_len line.old + 2 * length bytes.now + 6 ≤ REPLY_LIMIT }
    ensures text { line.new.items ≡ line.old.items ++ codes "bytes " ++ encode_lower bytes.now }
    ensures short { array_vec_len line.new ≡ array_vec_len line.old + 2 * length bytes.now + 6 }
{
    line.put(b"bytes ");
    put_bytes(line, bytes);
}

/// Adds a stop, and its value if it has one.
fn put_stop(line: &mut ReplyLine, stop: Stop)
    requires { array_vec_len line.old + 28 ≤ REPLY_LIMIT }
    ensures text { line.new.items ≡ line.old.items ++ codes " " ++ stop_name stop ++ stop_value_text stop }
    ensures short { array_vec_len line.new ≤ array_vec_len line.old + 28 }
{
    line.put(b" ");
    line.put(stop.name());
    if let Stop::Exit(value) = stop {
        put_value(line, value);
    }
}

/// The name of a state, as `regs` shows it: that of its stop if the machine is stopped.
pub fn name_of_state(state: State) -> &'static [u8]
    ensures name { result.now ≡ state_name state }
    ensures short { length result.now ≤ 10 }
{
    match state {
        State::Running => b"run",
        State::Paused => b"paused",
        State::Stopped(stop) => stop.name(),
    }
}

/// Adds the name of a state.
fn put_state(line: &mut ReplyLine, state: State)
    requires { array_vec_len line.old + 11 ≤ REPLY_LIMIT }
    ensures text { line.new.items ≡ line.old.items ++ codes " " ++ state_name state }
    ensures short { array_vec_len line.new ≤ array_vec_len line.old + 11 }
{
    line.put(b" ");
    line.put(name_of_state(state));
}

/// Adds what is shown of a machine.
fn put_shown(line: &mut ReplyLine, shown: &Shown)
    requires { array_vec_len line.old + 240 ≤ REPLY_LIMIT }
    ensures text { line.new.items ≡ line.old.items ++ shown_text shown.now }
    ensures short { array_vec_len line.new ≤ array_vec_len line.old + 240 }
{
    put_number(line, shown.slot as u64);
    put_number(line, shown.fuel);
    put_state(line, shown.state);
    put_values(line, &shown.registers);
}

/// The name of a place.
pub fn name_of_place(place: Place) -> &'static [u8]
    ensures name { result.now ≡ place_name place }
    ensures short { length result.now ≤ 9 }
{
    match place {
        Place::Here => b"here",
        Place::Leaving => b"leaving",
        Place::Far => b"far",
        Place::Returning => b"returning",
    }
}

/// The name of a move that is done.
fn name_of_move(kind: Move) -> &'static [u8]
    ensures name { result.now ≡ move_name kind }
    ensures short { length result.now ≤ 9 }
{
    match kind {
        Move::Leave => b"leaving",
        Move::Left => b"left",
        Move::Return => b"returning",
        Move::Returned => b"home",
    }
}

/// Adds that an object stays, and why.
fn put_kept(line: &mut ReplyLine, object: u32, why: &[u8])
    requires { array_vec_len line.old + length why.now + 25 ≤ REPLY_LIMIT }
    ensures text { line.new.items ≡ line.old.items ++ codes "kept" ++ number_text object ++ why.now }
    ensures short { array_vec_len line.new ≤ array_vec_len line.old + length why.now + 25 }
{
    put_named(line, b"kept", object as u64);
    line.put(why);
}

/// Adds what came of a move of an object, or of its freeing: a name where it is done, and a place where the far store fails.
fn put_moved(line: &mut ReplyLine, name: &[u8], back: Place, object: u32, moved: Moved)
    requires { array_vec_len line.old + length name.now + 100 ≤ REPLY_LIMIT }
    ensures text { line.new.items ≡ line.old.items ++ moved_text name.now back object moved }
    ensures short { array_vec_len line.new ≤ array_vec_len line.old + length name.now + 100 }
{
    match moved {
        Moved::Done => put_named(line, name, object as u64),
        Moved::NoObject => line.put(b"none"),
        Moved::Misplaced(place) => {
            put_named(line, b"place", object as u64);
            line.put(b" ");
            line.put(name_of_place(place));
        }
        Moved::Scoped => put_kept(line, object, b" scoped"),
        Moved::NoRoom => line.put(b"noroom"),
        Moved::Fault(_) => {
            put_kept(line, object, b" fault ");
            line.put(name_of_place(back));
        }
    }
}

/// Adds where and why code is refused.
fn put_refusal(line: &mut ReplyLine, error: &LoadError)
    requires { array_vec_len line.old + 39 ≤ REPLY_LIMIT }
    ensures text { line.new.items ≡ line.old.items ++ codes "refused" ++ number_text error.now.slot ++ codes " " ++ why_name error.now.why }
    ensures short { array_vec_len line.new ≤ array_vec_len line.old + 39 }
{
    put_named(line, b"refused", error.slot as u64);
    line.put(b" ");
    line.put(error.why.name());
}

/// Adds the reply to a step of a machine.
fn put_step(line: &mut ReplyLine, machine: usize, reply: StepReply)
    requires { array_vec_len line.old + 100 ≤ REPLY_LIMIT }
    ensures text { line.new.items ≡ line.old.items ++ step_text machine reply }
    ensures short { array_vec_len line.new ≤ array_vec_len line.old + 100 }
{
    match reply {
        StepReply::Ran(slot) => put_pair(line, b"ran", machine as u64, slot as u64),
        StepReply::Hit(slot) => put_pair(line, b"hit", machine as u64, slot as u64),
        StepReply::Waiting(object) => put_pair(line, b"waiting", machine as u64, object as u64),
        StepReply::Paused(slot) => put_pair(line, b"paused", machine as u64, slot as u64),
        StepReply::Stopped(stop) => {
            put_named(line, b"stopped", machine as u64);
            put_stop(line, stop);
        }
    }
}

/// Adds what is shown of a machine, or why it isn't.
fn put_show(line: &mut ReplyLine, machine: usize, reply: &ShowReply)
    requires room { array_vec_len line.old + 8_199 ≤ REPLY_LIMIT }
    requires short { IsShort (Reply.Shown machine reply.now) }
    ensures text { line.new.items ≡ line.old.items ++ show_text machine reply.now }
    ensures short { array_vec_len line.new ≤ array_vec_len line.old + 8_198 }
{
    match reply {
        ShowReply::Registers(shown) => {
            put_named(line, b"regs", machine as u64);
            put_shown(line, shown);
        }
        ShowReply::Emitted(values) => {
            put_named(line, b"out", machine as u64);
            put_values(line, values.as_slice());
        }
        ShowReply::Bytes(bytes) => put_shown_bytes(line, bytes.as_slice()),
        ShowReply::Disassembled { slot, text } => {
            put_pair(line, b"line", machine as u64, *slot as u64);
            line.put(b" ");
            line.put(text.as_slice());
        }
        ShowReply::Outside => line.put(b"outside"),
        ShowReply::NoSlot => line.put(b"noslot"),
        ShowReply::NoMemory => line.put(b"nomem"),
    }
}

/// What a command of the debugger did, as its line says it.
fn text_of_debugged(done: Debugged) -> &'static [u8]
    ensures text { result.now ≡ debug_text done }
    ensures short { length result.now ≤ 9 }
{
    match done {
        Debugged::Done => b"ok",
        Debugged::NoSlot => b"noslot",
        Debugged::Outside => b"outside",
        Debugged::Full => b"full",
        Debugged::NoWatch => b"nowatch",
        Debugged::NotPaused => b"notpaused",
    }
}

/// Makes this the line of a reply.
pub fn print_reply(reply: &Reply, line: &mut ReplyLine)
    requires { IsShort reply.now }
    ensures { line.new.items ≡ ended (reply_text reply.now) }
{
    line.clear();
    match reply {
        Reply::Made { object } => put_named(line, b"made", *object as u64),
        Reply::Freed { object, moved } => put_moved(line, b"freed", Place::Here, *object, *moved),
        Reply::Moved {
            object,
            kind,
            moved,
        } => put_moved(line, name_of_move(*kind), kind.back(), *object, *moved),
        Reply::Done => line.put(b"ok"),
        Reply::Bytes(bytes) => put_shown_bytes(line, bytes.as_slice()),
        Reply::Shipped { machine } => put_named(line, b"shipped", *machine as u64),
        Reply::Stepped { machine, reply } => put_step(line, *machine, *reply),
        Reply::Shown { machine, reply } => put_show(line, *machine, reply),
        Reply::Debugged(done) => line.put(text_of_debugged(*done)),
        Reply::NoMemory => line.put(b"nomem"),
        Reply::Full => line.put(b"full"),
        Reply::NoRoom => line.put(b"noroom"),
        Reply::Outside => line.put(b"outside"),
        Reply::Away { object } => put_named(line, b"away", *object as u64),
        Reply::Refused(error) => put_refusal(line, error),
        Reply::Missing => line.put(b"none"),
    }
    line.end();
}

/// Makes this the line of the reply that shows these bytes.
pub fn print_bytes(bytes: &[u8], line: &mut ReplyLine)
    requires { length bytes.now ≤ RANGE_LIMIT }
    ensures { line.new.items ≡ ended (reply_text (Reply.Bytes bytes.now)) }
{
    line.clear();
    put_shown_bytes(line, bytes);
    line.end();
}

/// Makes this the line of the reply to a step of the machine of this number, if there is one.
pub fn print_step(machine: usize, reply: Option<StepReply>, line: &mut ReplyLine)
    ensures { line.new.items ≡ ended (reply_text (reply_of machine reply)) }
{
    line.clear();
    match reply {
        Some(reply) => put_step(line, machine, reply),
        None => line.put(b"none"),
    }
    line.end();
}

/// Makes this the line that answers a line of which no command came.
pub fn print_fault(fault: LineFault, line: &mut ReplyLine)
    ensures bad { fault ≡ LineFault.Bad → line.new.items ≡ ended bad_text }
    ensures no_memory { fault ≡ LineFault.NoMemory → line.new.items ≡ ended nomem_text }
{
    line.clear();
    match fault {
        LineFault::Bad => line.put(b"bad\n"),
        LineFault::NoMemory => line.put(b"nomem\n"),
    }
}
