//! Names of states, stops, places and reasons, by their numbers.
ghost use Rattle.std.specs.Prelude.{◌≡◌, ◌≢◌, length, IfSome, IfNone, None, Some};
ghost use Rattle.asm_grammar.specs.Reasons.{why_name as wrong_name, why_number as wrong_number};
ghost use Rattle.asm_grammar.specs.declared.why.Why.{Why as WrongText};
ghost use Rattle.bpf_codec.specs.declared.fault.Fault.{Fault};
ghost use Rattle.bpf_codec.specs.Faults.{fault_number};
ghost use Rattle.console.specs.Replies.{place_name, state_name};
ghost use Rattle.debugger.specs.declared.shown.State.{State};
ghost use Rattle.loader.specs.Refusals.{why_name, why_number};
ghost use Rattle.loader.specs.declared.loading.Why.{Why};
ghost use Rattle.machine.specs.declared.state.Stop.{Stop};
ghost use Rattle.placement.specs.declared.places.Place.{Place};
ghost use Rattle.bpfagent_c.specs.Codes.{code_of_state, place_numbered, stop_of_state};
ghost use Rattle.bpfagent_c.specs.Shown.{over};

use crate::codes::{place_numbered, state_numbered};
use crate::numbers::{
    BAD, OK, WRONG_LABEL, WRONG_OPERAND, WRONG_RANGE, WRONG_TOO_LONG, WRONG_TWICE_LABEL, WRONG_WORD,
};
use crate::shown::write_bytes;
use asm_grammar::Why as WrongText;
use bpf_codec::Fault;
use console::{name_of_place, name_of_state};
use loader::Why;

/// The number of a reason that the header doesn't name, since where memory ran out no line is told.
const WRONG_MEMORY: u32 = 7;

/// Writes a name: as many bytes as there is room for, and how many it has.
fn tell_name(name: &[u8], text: &mut [u8], count: &mut usize) -> u32
    ensures number { result ≡ OK }
    ensures text { text.new ≡ over name.now text.old }
    ensures count { count.new ≡ length name.now }
{
    write_bytes(text, name);
    *count = name.len();
    OK
}

/// The name of a machine's state, as `regs` shows it: that of its stop if it is stopped.
#[unsafe(no_mangle)]
pub extern "C" fn bpfagent_state_name(
    state: u32,
    stop: u32,
    text: &mut [u8],
    count: &mut usize,
) -> u32
    ensures known { result ≡ OK → (found : State) × (code_of_state found ≡ state) × (stop_of_state found ≡ stop)
        × (text.new ≡ over (state_name found) text.old) × (count.new ≡ length (state_name found)) }
    ensures unknown { result ≢ OK → (result ≡ BAD) × ((one : State) → code_of_state one ≡ state → stop_of_state one ≢ stop)
        × (text.new ≡ text.old) × (count.new ≡ count.old) }
{
    match state_numbered(state, stop) {
        Some(found) => tell_name(name_of_state(found), text, count),
        None => BAD,
    }
}

/// The name of a place.
#[unsafe(no_mangle)]
pub extern "C" fn bpfagent_place_name(place: u32, text: &mut [u8], count: &mut usize) -> u32
    ensures known { result ≡ OK → (found : Place) × (place_numbered place ≡ Some found)
        × (text.new ≡ over (place_name found) text.old) × (count.new ≡ length (place_name found)) }
    ensures unknown { result ≢ OK → (result ≡ BAD) × (place_numbered place ≡ None) × (text.new ≡ text.old) × (count.new ≡ count.old) }
{
    match place_numbered(place) {
        Some(found) => tell_name(name_of_place(found), text, count),
        None => BAD,
    }
}

/// The fault of the decoder of a number.
fn fault_numbered(number: u32) -> Option<Fault>
    ensures some { IfSome result (λ fault. fault_number fault ≡ number) }
    ensures none { IfNone result ((fault : Fault) → fault_number fault ≢ number) }
{
    match number {
        1 => Some(Fault::Opcode),
        2 => Some(Fault::Register),
        3 => Some(Fault::Field),
        4 => Some(Fault::HalfWide),
        5 => Some(Fault::Packet),
        6 => Some(Fault::Platform),
        7 => Some(Fault::Short),
        _ => None,
    }
}

/// The reason of a number.
fn why_numbered(number: u32) -> Option<Why>
    ensures some { IfSome result (λ why. why_number why ≡ number) }
    ensures none { IfNone result ((why : Why) → why_number why ≢ number) }
{
    match number {
        8 => Some(Why::Empty),
        9 => Some(Why::TooLong),
        10 => Some(Why::JumpOut),
        11 => Some(Why::JumpInside),
        12 => Some(Why::WritesR10),
        13 => Some(Why::Helper),
        14 => Some(Why::FallsOff),
        15 => Some(Why::Memory),
        _ => match fault_numbered(number) {
            Some(fault) => Some(Why::Decoder(fault)),
            None => None,
        },
    }
}

/// The name of the reason for which code is refused.
#[unsafe(no_mangle)]
pub extern "C" fn bpfagent_reason_name(reason: u32, text: &mut [u8], count: &mut usize) -> u32
    ensures known { result ≡ OK → (found : Why) × (why_number found ≡ reason)
        × (text.new ≡ over (why_name found) text.old) × (count.new ≡ length (why_name found)) }
    ensures unknown { result ≢ OK → (result ≡ BAD) × ((one : Why) → why_number one ≢ reason) × (text.new ≡ text.old) × (count.new ≡ count.old) }
{
    match why_numbered(reason) {
        Some(found) => tell_name(found.name(), text, count),
        None => BAD,
    }
}

/// The reason of a number for which a text is refused.
fn wrong_numbered(number: u32) -> Option<WrongText>
    ensures some { IfSome result (λ wrong. wrong_number wrong ≡ number) }
    ensures none { IfNone result ((wrong : WrongText) → wrong_number wrong ≢ number) }
{
    match number {
        WRONG_WORD => Some(WrongText::Word),
        WRONG_OPERAND => Some(WrongText::Operand),
        WRONG_RANGE => Some(WrongText::Range),
        WRONG_LABEL => Some(WrongText::Label),
        WRONG_TWICE_LABEL => Some(WrongText::TwiceLabel),
        WRONG_TOO_LONG => Some(WrongText::TooLong),
        WRONG_MEMORY => Some(WrongText::Memory),
        _ => None,
    }
}

/// The name of the reason for which a text is refused.
#[unsafe(no_mangle)]
pub extern "C" fn bpfagent_wrong_name(wrong: u32, text: &mut [u8], count: &mut usize) -> u32
    ensures known { result ≡ OK → (found : WrongText) × (wrong_number found ≡ wrong)
        × (text.new ≡ over (wrong_name found) text.old) × (count.new ≡ length (wrong_name found)) }
    ensures unknown { result ≢ OK → (result ≡ BAD) × ((one : WrongText) → wrong_number one ≢ wrong) × (text.new ≡ text.old) × (count.new ≡ count.old) }
{
    match wrong_numbered(wrong) {
        Some(found) => tell_name(found.name().as_bytes(), text, count),
        None => BAD,
    }
}
