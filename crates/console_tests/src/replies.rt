//! The text of each reply.
ghost use Rattle.console.specs.Replies.{IsShort};
ghost use Rattle.world.specs.declared.replies.Reply.TheVariants as answer;

use crate::compared::same;
use console::{LineFault, ReplyLine, print_fault, print_reply};
use far_store::StoreFault;
use loader::{LoadError, Why};
use machine::Stop;
use std::process::Abort;
use std::test::Fail;
use world::{
    Bytes, Debugged, Move, Moved, Place, Reply, ShowReply, Shown, State, StepReply, Values,
};

/// What is shown of a machine that stands thus.
const SHOWN: Shown = Shown {
    slot: 4095,
    fuel: u64::MAX,
    state: State::Running,
    registers: [0, 1, 0xab, 0x1234567890abcdef, 4, 5, 6, 7, 8, 9, u64::MAX],
};

/// Asserts that the reply has this text.
fn prints(rt: &impl Abort, reply: Reply, text: &str)
    requires { IsShort reply }
{
    let mut line = ReplyLine::new();
    print_reply(&reply, &mut line);
    same!(*rt; line.as_slice(), text.as_bytes());
}

/// Asserts that a machine's reply to a step has this text.
fn prints_step(rt: &impl Abort, machine: usize, reply: StepReply, text: &str) {
    prints(rt, Reply::Stepped { machine, reply }, text);
}

/// Asserts that what came of a move of object 7 has this text.
fn prints_move(rt: &impl Abort, kind: Move, moved: Moved, text: &str) {
    let reply = Reply::Moved {
        object: 7,
        kind,
        moved,
    };
    prints(rt, reply, text);
}

/// Asserts that what came of freeing object 7 has this text.
fn prints_freed(rt: &impl Abort, moved: Moved, text: &str) {
    prints(rt, Reply::Freed { object: 7, moved }, text);
}

/// Asserts that what is shown of machine 48 has this text.
fn prints_show(rt: &impl Abort, reply: ShowReply, text: &str)
    requires { IsShort (answer.Shown 48 reply) }
{
    let reply = Reply::Shown { machine: 48, reply };
    prints(rt, reply, text);
}

/// Machine 3 is stopped.
fn prints_stop(rt: &impl Abort, stop: Stop, text: &str) {
    prints_step(rt, 3, StepReply::Stopped(stop), text);
}

#[test]
fn each_reply(rt: HostRuntime) {
    prints(&rt, Reply::Made { object: 1024 }, "made 1024\n");
    prints(&rt, Reply::Done, "ok\n");
    prints(&rt, Reply::Shipped { machine: 1 }, "shipped 1\n");
    prints(&rt, Reply::NoMemory, "nomem\n");
    prints(&rt, Reply::Full, "full\n");
    prints(&rt, Reply::NoRoom, "noroom\n");
    prints(&rt, Reply::Outside, "outside\n");
    prints(&rt, Reply::Away { object: 5 }, "away 5\n");
    prints(&rt, Reply::Missing, "none\n");
    let refused = LoadError {
        slot: 7,
        why: Why::WritesR10,
    };
    prints(&rt, Reply::Refused(refused), "refused 7 WritesR10\n");
}

#[test]
fn each_step(rt: HostRuntime) {
    prints_step(&rt, 2, StepReply::Ran(10), "ran 2 10\n");
    prints_step(&rt, 2, StepReply::Waiting(1024), "waiting 2 1024\n");
    prints_step(&rt, 2, StepReply::Hit(0), "hit 2 0\n");
    prints_step(&rt, 48, StepReply::Paused(4095), "paused 48 4095\n");
}

#[test]
fn each_debugged(rt: HostRuntime) {
    prints(&rt, Reply::Debugged(Debugged::Done), "ok\n");
    prints(&rt, Reply::Debugged(Debugged::NoSlot), "noslot\n");
    prints(&rt, Reply::Debugged(Debugged::Outside), "outside\n");
    prints(&rt, Reply::Debugged(Debugged::Full), "full\n");
    prints(&rt, Reply::Debugged(Debugged::NoWatch), "nowatch\n");
    prints(&rt, Reply::Debugged(Debugged::NotPaused), "notpaused\n");
}

#[test]
fn each_move(rt: HostRuntime) {
    prints_move(&rt, Move::Leave, Moved::Done, "leaving 7\n");
    prints_move(&rt, Move::Left, Moved::Done, "left 7\n");
    prints_move(&rt, Move::Return, Moved::Done, "returning 7\n");
    prints_move(&rt, Move::Returned, Moved::Done, "home 7\n");
    prints_move(&rt, Move::Return, Moved::NoRoom, "noroom\n");
    prints_move(&rt, Move::Leave, Moved::Scoped, "kept 7 scoped\n");
    prints_move(&rt, Move::Left, Moved::NoObject, "none\n");
    let last = Reply::Moved {
        object: 1024,
        kind: Move::Returned,
        moved: Moved::Done,
    };
    prints(&rt, last, "home 1024\n");
}

#[test]
fn each_fault(rt: HostRuntime) {
    let fault = Moved::Fault(StoreFault::Io);
    prints_move(&rt, Move::Leave, fault, "kept 7 fault here\n");
    prints_move(&rt, Move::Left, fault, "kept 7 fault here\n");
    prints_move(&rt, Move::Return, fault, "kept 7 fault far\n");
    prints_move(&rt, Move::Returned, fault, "kept 7 fault far\n");
}

#[test]
fn each_place(rt: HostRuntime) {
    for &(place, text) in &[
        (Place::Here, "place 7 here\n"),
        (Place::Leaving, "place 7 leaving\n"),
        (Place::Far, "place 7 far\n"),
        (Place::Returning, "place 7 returning\n"),
    ] {
        prints_move(&rt, Move::Leave, Moved::Misplaced(place), text);
        prints_freed(&rt, Moved::Misplaced(place), text);
    }
}

#[test]
fn each_freed(rt: HostRuntime) {
    prints_freed(&rt, Moved::Done, "freed 7\n");
    prints_freed(&rt, Moved::NoObject, "none\n");
    prints_freed(&rt, Moved::Scoped, "kept 7 scoped\n");
}

#[test]
fn not_shown(rt: HostRuntime) {
    prints_show(&rt, ShowReply::Outside, "outside\n");
    prints_show(&rt, ShowReply::NoSlot, "noslot\n");
    prints_show(&rt, ShowReply::NoMemory, "nomem\n");
}

#[test]
fn each_stop(rt: HostRuntime) {
    prints_stop(&rt, Stop::Exit(0xf0), "stopped 3 exit 00000000000000f0\n");
    prints_stop(&rt, Stop::Outside, "stopped 3 outside\n");
    prints_stop(&rt, Stop::Misaligned, "stopped 3 misaligned\n");
    prints_stop(&rt, Stop::Depth, "stopped 3 depth\n");
    prints_stop(&rt, Stop::Spent, "stopped 3 spent\n");
    prints_stop(&rt, Stop::Worn, "stopped 3 worn\n");
    prints_stop(&rt, Stop::NotGranted, "stopped 3 notgranted\n");
}

#[test]
fn bytes_and_values(rt: HostRuntime) -> Result<(), Fail> {
    let bytes = Vec::from_slice(rt.alloc(), &[0, 0x7f, 0xab, 255])?;
    prints(&rt, Reply::Bytes(Bytes::new(bytes)), "bytes 007fabff\n");
    let stack = Vec::from_slice(rt.alloc(), &[0, 0x7f, 0xab, 255])?;
    let stack = ShowReply::Bytes(Bytes::new(stack));
    prints_show(&rt, stack, "bytes 007fabff\n");
    let none = ShowReply::Emitted(Values::new(&[]));
    prints_show(&rt, none, "out 48\n");
    let two = ShowReply::Emitted(Values::new(&[0, u64::MAX]));
    prints_show(&rt, two, "out 48 0000000000000000 ffffffffffffffff\n");
    Ok(())
}

#[test]
fn registers(rt: HostRuntime) {
    for &(state, text) in &[
        (
            State::Running,
            "regs 48 4095 18446744073709551615 run 0000000000000000 0000000000000001 00000000000000ab 1234567890abcdef 0000000000000004 \
                0000000000000005 0000000000000006 0000000000000007 0000000000000008 0000000000000009 ffffffffffffffff\n",
        ),
        (
            State::Paused,
            "regs 48 4095 18446744073709551615 paused 0000000000000000 0000000000000001 00000000000000ab 1234567890abcdef 0000000000000004 \
                0000000000000005 0000000000000006 0000000000000007 0000000000000008 0000000000000009 ffffffffffffffff\n",
        ),
        (
            State::Stopped(Stop::Exit(7)),
            "regs 48 4095 18446744073709551615 exit 0000000000000000 0000000000000001 00000000000000ab 1234567890abcdef 0000000000000004 \
                0000000000000005 0000000000000006 0000000000000007 0000000000000008 0000000000000009 ffffffffffffffff\n",
        ),
        (
            State::Stopped(Stop::Misaligned),
            "regs 48 4095 18446744073709551615 misaligned 0000000000000000 0000000000000001 00000000000000ab 1234567890abcdef 0000000000000004 \
                0000000000000005 0000000000000006 0000000000000007 0000000000000008 0000000000000009 ffffffffffffffff\n",
        ),
    ] {
        let mut shown = SHOWN;
        shown.state = state;
        prints_show(&rt, ShowReply::Registers(shown), text);
    }
}

/// Asserts that the reply to a line that spells no command has this text.
fn prints_fault(rt: &impl Abort, fault: LineFault, text: &str) {
    let mut line = ReplyLine::new();
    print_fault(fault, &mut line);
    same!(*rt; line.as_slice(), text.as_bytes());
}

#[test]
fn faults_of_lines(rt: HostRuntime) {
    prints_fault(&rt, LineFault::Bad, "bad\n");
    prints_fault(&rt, LineFault::NoMemory, "nomem\n");
}
