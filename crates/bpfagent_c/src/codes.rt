//! Replies, places and stops as the numbers that the header names.
ghost use Rattle.std.specs.Prelude.{◌≡◌, ◌≢◌, ℕ, Some, IfSome, IfNone};
ghost use Rattle.debugger.specs.declared.shown.State.{State};
ghost use Rattle.world.specs.Answers.{denied};
ghost use Rattle.world.specs.Machines.{refused_stack};
ghost use Rattle.bpfagent_c.specs.Codes.{code_of, code_of_back, code_of_end, code_of_fault, code_of_moved, code_of_place, code_of_reply};
ghost use Rattle.bpfagent_c.specs.Codes.{code_of_state, code_of_step, code_of_text, code_of_why, number_of_place, place_numbered, stop_of_state};

use crate::numbers::{
    AWAY, DAMAGED, FAR, FAULT_FAR, FAULT_HERE, FULL, GOES_ON, HERE, HIT, IS_FAR, IS_HERE,
    IS_LEAVING, IS_PAUSED, IS_RETURNING, IS_STOPPED, LEAVING, NOAGENT, NOMEM, NONE, NOROOM, NOSLOT,
    NOTPAUSED, NOWATCH, OK, OUTSIDE, PAUSED, RAN, REFUSED, RETURNING, RUNNING, SCOPED, STOPPED,
    WAITING,
};
use asm_grammar::Why as WrongText;
use debugger::{Debugged, ShowReply, State, StepReply};
use far_store::StoreFault;
use loader::Why;
use machine::Stop;
use object_store::{Denied, Moved, Place};
use world::{Reply, StackError};

/// The number of what a call answers.
pub(crate) fn code_of(given: &Option<Reply>) -> u32
    ensures { result ≡ code_of given.now }
{
    match given {
        None => NOAGENT,
        Some(reply) => code_of_reply(reply),
    }
}

/// The number of a reply.
fn code_of_reply(reply: &Reply) -> u32
    ensures { result ≡ code_of_reply reply.now }
{
    match reply {
        Reply::Freed { moved, .. } => code_of_moved(*moved, Place::Here),
        Reply::Moved { kind, moved, .. } => code_of_moved(*moved, kind.back()),
        Reply::Stepped { reply, .. } => code_of_step(*reply),
        Reply::NoMemory
        | Reply::Shown {
            reply: ShowReply::NoMemory,
            ..
        } => NOMEM,
        Reply::Full | Reply::Debugged(Debugged::Full) => FULL,
        Reply::NoRoom => NOROOM,
        Reply::Outside
        | Reply::Shown {
            reply: ShowReply::Outside,
            ..
        }
        | Reply::Debugged(Debugged::Outside) => OUTSIDE,
        Reply::Away { .. } => AWAY,
        Reply::Shown {
            reply: ShowReply::NoSlot,
            ..
        }
        | Reply::Debugged(Debugged::NoSlot) => NOSLOT,
        Reply::Debugged(Debugged::NoWatch) => NOWATCH,
        Reply::Debugged(Debugged::NotPaused) => NOTPAUSED,
        Reply::Refused(_) => REFUSED,
        Reply::Missing => NONE,
        _ => OK,
    }
}

/// The number of an access that is denied.
pub(crate) fn code_of_denied(why: Denied) -> u32
    ensures number { (object : ℕ) → result ≡ code_of_reply (denied object why) }
    ensures memory { result ≢ NOMEM }
{
    match why {
        Denied::Outside => OUTSIDE,
        Denied::Away => AWAY,
    }
}

/// The number of a reading of a stack that is refused.
pub(crate) fn code_of_stack(error: StackError) -> u32
    ensures number { (machine : ℕ) → result ≡ code_of_reply (refused_stack machine error) }
    ensures memory { result ≢ NOMEM }
{
    match error {
        StackError::Missing => NONE,
        StackError::Outside => OUTSIDE,
    }
}

/// The number that says in which place an object is.
fn code_of_place(place: Place) -> u32
    ensures { result ≡ code_of_place place }
{
    match place {
        Place::Here => IS_HERE,
        Place::Leaving => IS_LEAVING,
        Place::Far => IS_FAR,
        Place::Returning => IS_RETURNING,
    }
}

/// The number that says in which place an object is again.
fn code_of_fault(place: Place) -> u32
    ensures { result ≡ code_of_fault place }
{
    match place {
        Place::Here => FAULT_HERE,
        _ => FAULT_FAR,
    }
}

/// The number of what a step was answered.
pub(crate) fn code_of_step(reply: StepReply) -> u32
    ensures { result ≡ code_of_step (Some reply) }
{
    match reply {
        StepReply::Ran(_) => RAN,
        StepReply::Hit(_) => HIT,
        StepReply::Waiting(_) => WAITING,
        StepReply::Paused(_) => PAUSED,
        StepReply::Stopped(_) => STOPPED,
    }
}

/// The number of what a run ended with.
pub(crate) fn code_of_end(end: Option<StepReply>) -> u32
    ensures { result ≡ code_of_end end }
{
    match end {
        None => RAN,
        Some(reply) => code_of_step(reply),
    }
}

/// The number of whether a machine goes on.
pub(crate) fn code_of_state(state: State) -> u32
    ensures { result ≡ code_of_state state }
{
    match state {
        State::Running => RUNNING,
        State::Paused => IS_PAUSED,
        State::Stopped(_) => IS_STOPPED,
    }
}

/// The number of the stop of a machine that is stopped; `GOES_ON` for another.
pub(crate) fn stop_of_state(state: State) -> u32
    ensures { result ≡ stop_of_state state }
{
    match state {
        State::Stopped(stop) => stop.number(),
        _ => GOES_ON,
    }
}

/// The state of its number and of its stop's, which is `GOES_ON` for a machine that isn't stopped.
pub(crate) fn state_numbered(state: u32, stop: u32) -> Option<State>
    ensures some { IfSome result (λ found. (code_of_state found ≡ state) × (stop_of_state found ≡ stop)) }
    ensures none { IfNone result ((one : State) → code_of_state one ≡ state → stop_of_state one ≢ stop) }
{
    match (state, stop) {
        (RUNNING, GOES_ON) => Some(State::Running),
        (IS_PAUSED, GOES_ON) => Some(State::Paused),
        (IS_STOPPED, _) => match Stop::numbered(stop) {
            Some(found) => Some(State::Stopped(found)),
            None => None,
        },
        _ => None,
    }
}

/// The number of what came of a move, or of freeing, after which the object is back in a place where the far store fails.
pub(crate) fn code_of_moved(moved: Moved, back: Place) -> u32
    ensures { result ≡ code_of_moved back moved }
{
    match moved {
        Moved::Done => OK,
        Moved::NoObject => NONE,
        Moved::Misplaced(place) => code_of_place(place),
        Moved::Scoped => SCOPED,
        Moved::NoRoom => NOROOM,
        Moved::Fault(_) => code_of_fault(back),
    }
}

/// The number of what was answered where bytes came back. Bytes that are others have a number of their own.
pub(crate) fn code_of_back(moved: Moved) -> u32
    ensures { result ≡ code_of_back moved }
{
    if moved == Moved::Fault(StoreFault::Damaged) {
        return DAMAGED;
    }
    code_of_moved(moved, Place::Far)
}

/// The number of a place.
pub(crate) fn number_of_place(place: Place) -> u32
    ensures { result ≡ number_of_place place }
{
    match place {
        Place::Here => HERE,
        Place::Leaving => LEAVING,
        Place::Far => FAR,
        Place::Returning => RETURNING,
    }
}

/// The place of a number.
pub(crate) fn place_numbered(number: u32) -> Option<Place>
    ensures { result ≡ place_numbered number }
{
    match number {
        HERE => Some(Place::Here),
        LEAVING => Some(Place::Leaving),
        FAR => Some(Place::Far),
        RETURNING => Some(Place::Returning),
        _ => None,
    }
}

/// The number for code that is refused for this reason.
pub(crate) fn code_of_why(why: Why) -> u32
    ensures { result ≡ code_of_why why }
{
    match why {
        Why::Memory => NOMEM,
        _ => REFUSED,
    }
}

/// The number for a text that is refused for this reason.
pub(crate) fn code_of_text(why: WrongText) -> u32
    ensures { result ≡ code_of_text why }
{
    match why {
        WrongText::Memory => NOMEM,
        _ => REFUSED,
    }
}
