//! What is written for the caller, and what it hands in.
ghost use Rattle.std.specs.Prelude.{◌≡◌, Some, IfSome, IfNone};
ghost use Rattle.loader.specs.Refusals.{why_number};
ghost use Rattle.bpfagent_c.specs.Codes.{code_of_state, stop_of_state};
ghost use Rattle.bpfagent_c.specs.Shown.{over, grant_of, grants_of, IsGrant, AreGrants, end_after, value_of_step, value_of_stop, stop_of_step, ran_of_step};

use crate::codes::{code_of_state, stop_of_state};
use crate::numbers::GOES_ON;
use debugger::StepReply;
use loader::LoadError;
use machine::{GRANT_LIMIT, Grant, Grants, Stop};
use memory::OBJECT_LIMIT;
use world::Shown;

/// How steps ended.
#[repr(C)]
#[derive(Clone, Copy, Drop)]
pub struct End {
    /// How many steps ran.
    pub ran: u64,
    /// The slot where the machine is, the object that it waits for, or R0 at an exit.
    pub value: u64,
    /// Why the machine is stopped.
    pub stop: u32,
}

/// What a machine is.
#[repr(C)]
#[derive(Clone, Copy, Drop)]
pub struct Registers {
    /// R0 to R10.
    pub registers: [u64; 11],
    /// The slot where the next instruction begins.
    pub slot: u64,
    /// How many instructions may still be done.
    pub fuel: u64,
    /// Whether it goes on.
    pub state: u32,
    /// Why it is stopped.
    pub stop: u32,
}

/// Why code is refused.
#[repr(C)]
#[derive(Clone, Copy, Drop)]
pub struct Refusal {
    /// The slot of the instruction that is wrong.
    pub slot: u64,
    /// The reason's number.
    pub reason: u32,
}

/// An object that a machine may reach.
#[repr(C)]
#[derive(Clone, Copy, Drop)]
pub struct Granted {
    /// Its number.
    pub object: u32,
    /// Whether it may be written too: not, where this is 0.
    pub writes: u32,
}

/// What the agent keeps of bytes that it handed out, beside their length.
#[repr(C)]
#[derive(Clone, Copy, Drop)]
pub struct Parcel {
    /// Their SHA-256.
    pub digest: [u8; 32],
}

/// Writes bytes over the first ones, as many as there is room for.
pub(crate) fn write_bytes(to: &mut [u8], shown: &[u8])
    ensures { to.new ≡ over shown.now to.old }
{
    let count = shown.len().min(to.len());
    to[..count].copy_from_slice(&shown[..count]);
}

/// Writes values over the first ones, as many as there is room for.
pub(crate) fn write_values(to: &mut [u64], shown: &[u64])
    ensures { to.new ≡ over shown.now to.old }
{
    let count = shown.len().min(to.len());
    to[..count].copy_from_slice(&shown[..count]);
}

/// Writes numbers over the first ones, as many as there is room for.
pub(crate) fn write_numbers(to: &mut [u32], shown: &[u32])
    ensures { to.new ≡ over shown.now to.old }
{
    let count = shown.len().min(to.len());
    to[..count].copy_from_slice(&shown[..count]);
}

impl Registers {
    /// What is shown of a machine.
    pub(crate) fn of(shown: &Shown) -> Registers
        ensures registers { result.registers ≡ shown.now.registers }
        ensures slot { result.slot ≡ shown.now.slot }
        ensures fuel { result.fuel ≡ shown.now.fuel }
        ensures state { result.state ≡ code_of_state shown.now.state }
        ensures stop { result.stop ≡ stop_of_state shown.now.state }
    {
        Registers {
            registers: shown.registers,
            slot: shown.slot as u64,
            fuel: shown.fuel,
            state: code_of_state(shown.state),
            stop: stop_of_state(shown.state),
        }
    }
}

impl Refusal {
    /// Why code is refused.
    pub(crate) fn of(error: &LoadError) -> Refusal
        ensures { result ≡ record { slot = error.now.slot; reason = why_number error.now.why } }
    {
        Refusal {
            slot: error.slot as u64,
            reason: error.why.number() as u32,
        }
    }
}

/// What an exit leaves in R0; 0 at another stop.
fn value_of_stop(stop: Stop) -> u64
    ensures { result ≡ value_of_stop stop }
{
    match stop {
        Stop::Exit(value) => value,
        _ => 0,
    }
}

impl End {
    /// How steps ended, of which so many ran, and one was answered so.
    pub(crate) fn after(ran: u64, reply: StepReply) -> End
        ensures { result ≡ end_after ran (Some reply) }
    {
        let (value, stop) = match reply {
            StepReply::Ran(slot) | StepReply::Hit(slot) | StepReply::Paused(slot) => {
                (slot as u64, GOES_ON)
            }
            StepReply::Waiting(object) => (object as u64, GOES_ON),
            StepReply::Stopped(stop) => (value_of_stop(stop), stop.number()),
        };
        End { ran, value, stop }
    }

    /// How one step ended.
    pub(crate) fn of_step(reply: StepReply) -> End
        ensures { result ≡ record { ran = ran_of_step reply; value = value_of_step reply; stop = stop_of_step reply } }
    {
        match reply {
            StepReply::Ran(_) => End::after(1, reply),
            _ => End::after(0, reply),
        }
    }

    /// How a run ended, of which so many steps ran.
    pub(crate) fn of_run(ran: u64, end: Option<StepReply>) -> End
        ensures { result ≡ end_after ran end }
    {
        match end {
            None => End {
                ran,
                value: 0,
                stop: GOES_ON,
            },
            Some(reply) => End::after(ran, reply),
        }
    }
}

/// A grant, if the number may be that of an object.
fn grant_of(granted: &Granted) -> Option<Grant>
    ensures some { IfSome result (λ grant. (grant ≡ grant_of granted.now) × IsGrant granted.now) }
    ensures none { IfNone result (IsGrant granted.now → ⊥) }
{
    if granted.object == 0 || granted.object as usize > OBJECT_LIMIT {
        return None;
    }
    Some(Grant {
        number: granted.object,
        writes: granted.writes != 0,
    })
}

/// The grants, if there are at most sixteen, each of a number that may be that of an object.
pub(crate) fn grants_of(granted: &[Granted]) -> Option<Grants>
    ensures some { IfSome result (λ grants. (grants ≡ grants_of granted.now) × AreGrants granted.now) }
    ensures none { IfNone result (AreGrants granted.now → ⊥) }
{
    if granted.len() > GRANT_LIMIT {
        return None;
    }
    let mut grants = Grants::none();
    for one in granted {
        let grant = grant_of(one)?;
        grants.add(grant);
    }
    Some(grants)
}
