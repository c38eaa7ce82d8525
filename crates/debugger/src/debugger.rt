//! The debug state of one machine.
ghost use Rattle.std.specs.Prelude.{◌≡◌, ◌≤◌, ℕ, nat_eq, true, false, not, List, length, if◌then◌else◌};
ghost use Rattle.std.specs.List.{list_any, filter};
ghost use Rattle.loader.specs.ValidCode.{IsAt};
ghost use Rattle.debugger.specs.declared.commands.DebugCommand.{DebugCommand};
ghost use Rattle.debugger.specs.DebugState.{debug_start, AreDistinctBy, has_break, has_watch, is_same_watch, watch_at, overlaps, hits, break_limit};
ghost use Rattle.debugger.specs.DebugState.{watch_limit};
ghost use Rattle.debugger.specs.Changes.{Debugs};
ghost use Rattle.debugger.specs.Pausing.{is_to_pause, with_pause, after_run, after_stop};

use crate::commands::{DebugCommand, Way};
use crate::replies::Debugged;
use crate::watch::Watch;
use arrayvec::ArrayVec;
use loader::Program;
use machine::{Written, has_slot};
use std::marker::Model;
use std::mem;

/// How many breakpoints a machine may have (this project's choice).
pub const BREAK_LIMIT: usize = 16;

/// How many ranges a machine may watch (this project's choice).
pub const WATCH_LIMIT: usize = 8;

/// The breakpoints and watched ranges of one machine, and whether it is paused. Takes no memory.
#[derive(Drop)]
pub struct Debugger {
    breakpoints: ArrayVec<usize, BREAK_LIMIT>,
    watches: ArrayVec<Watch, WATCH_LIMIT>,
    paused: bool,
    pass: bool,
}

impl Model for Debugger {
    ghost use Rattle.std.specs.Prelude.{nat_eq};
    ghost use Rattle.debugger.specs.DebugState.{DebugState, AreDistinctBy, is_same_watch};

    ghost Value = { DebugState };

    ghost view = { λ d. record { breakpoints = d.breakpoints.items; watches = d.watches.items; paused = d.paused; pass = d.pass } };

    ghost invariant = { λ d. AreDistinctBy nat_eq d.breakpoints.items × AreDistinctBy is_same_watch d.watches.items };
}

impl Debugger {
    /// Nothing is set, and the machine is not paused.
    pub fn new() -> Self
        ensures { result ≡ debug_start }
    {
        Debugger {
            breakpoints: ArrayVec::new(),
            watches: ArrayVec::new(),
            paused: false,
            pass: false,
        }
    }

    // ---- readers

    /// The slots where the machine pauses, in the order in which they were set.
    pub fn breakpoints(&self) -> &[usize]
        ensures value { result.now ≡ self.now.breakpoints }
        ensures distinct { AreDistinctBy nat_eq self.now.breakpoints }
        ensures count { length result.now ≤ break_limit }
    {
        self.breakpoints.as_slice()
    }

    /// The watched ranges, in the order in which they were set.
    pub fn watches(&self) -> &[Watch]
        ensures value { result.now ≡ self.now.watches }
        ensures distinct { AreDistinctBy is_same_watch self.now.watches }
        ensures count { length result.now ≤ watch_limit }
    {
        self.watches.as_slice()
    }

    /// Whether the machine is paused.
    pub fn is_paused(&self) -> bool
        ensures { result ≡ self.now.paused }
    {
        self.paused
    }

    /// Whether the next instruction runs although a breakpoint is set at it.
    pub fn passes(&self) -> bool
        ensures { result ≡ self.now.pass }
    {
        self.pass
    }

    // ---- commands

    /// Does a command on the machine of this program. A refusal changes nothing.
    pub fn apply(&mut self, program: &Program, command: DebugCommand) -> Debugged
        ensures { Debugs command program.now self.old result self.new }
    {
        match command {
            DebugCommand::Break { slot } => self.set_break(program, slot),
            DebugCommand::Unbreak { slot } => self.clear_break(slot),
            DebugCommand::Watch { address, length } => self.set_watch(address, length),
            DebugCommand::Unwatch { address, length } => self.clear_watch(address, length),
            DebugCommand::Resume => self.resume(),
        }
    }

    /// Sets a breakpoint at a slot of the machine's program. One that is set already stays.
    fn set_break(&mut self, program: &Program, slot: u32) -> Debugged
        ensures { Debugs (DebugCommand.Break slot) program.now self.old result self.new }
    {
        let slot = slot as usize;
        if !begins(program, slot) {
            return Debugged::NoSlot;
        }
        if has_slot(self.breakpoints.as_slice(), slot) {
            return Debugged::Done;
        }
        if self.breakpoints.is_full() {
            return Debugged::Full;
        }
        self.breakpoints.push(slot);
        Debugged::Done
    }

    /// Clears the breakpoint at a slot.
    fn clear_break(&mut self, slot: u32) -> Debugged
        ensures { (code : List ℕ) → Debugs (DebugCommand.Unbreak slot) code self.old result self.new }
    {
        let slot = slot as usize;
        if !has_slot(self.breakpoints.as_slice(), slot) {
            return Debugged::NoSlot;
        }
        self.breakpoints = slots_but(self.breakpoints.as_slice(), slot);
        Debugged::Done
    }

    /// Watches so many bytes from an address on. A range that is watched already stays.
    fn set_watch(&mut self, address: u64, length: u32) -> Debugged
        ensures { (code : List ℕ) → Debugs (DebugCommand.Watch address length) code self.old result self.new }
    {
        let watch = Watch::at(address, length);
        if !watch.ends_within() {
            return Debugged::Outside;
        }
        if has_range(self.watches.as_slice(), &watch) {
            return Debugged::Done;
        }
        if self.watches.is_full() {
            return Debugged::Full;
        }
        self.watches.push(watch);
        Debugged::Done
    }

    /// Watches a range no more. It has to have this address and this length.
    fn clear_watch(&mut self, address: u64, length: u32) -> Debugged
        ensures { (code : List ℕ) → Debugs (DebugCommand.Unwatch address length) code self.old result self.new }
    {
        let watch = Watch::at(address, length);
        if !has_range(self.watches.as_slice(), &watch) {
            return Debugged::NoWatch;
        }
        self.watches = ranges_but(self.watches.as_slice(), &watch);
        Debugged::Done
    }

    /// Lets a paused machine go on. The breakpoint where it is, if any, is passed.
    fn resume(&mut self) -> Debugged
        ensures { (code : List ℕ) → Debugs DebugCommand.Resume code self.old result self.new }
    {
        if !mem::take(&mut self.paused) {
            return Debugged::NotPaused;
        }
        self.pass = true;
        Debugged::Done
    }

    // ---- around a step

    /// Whether a `step` of a machine at this slot that isn't stopped pauses there, which is noted.
    #[inline]
    pub fn pauses(&mut self, slot: usize) -> bool
        ensures answer { result ≡ is_to_pause slot self.old }
        ensures new { self.new ≡ with_pause slot self.old }
    {
        if self.paused {
            return true;
        }
        if self.breakpoints.is_empty() || self.pass {
            return false;
        }
        self.paused = has_slot(self.breakpoints.as_slice(), slot);
        self.paused
    }

    /// After a step that ran and wrote these bytes, if any: whether it wrote a byte of a watched range. A `step` that did
    /// pauses the machine, and each `one` does.
    #[inline]
    pub fn after(&mut self, way: Way, written: Option<Written>) -> bool
        ensures answer { result ≡ hits written self.old }
        ensures new { self.new ≡ after_run way written self.old }
    {
        let hit = self.is_hit(written);
        self.pass = false;
        match way {
            Way::Step => self.paused |= hit,
            Way::One => self.paused = true,
        }
        hit
    }

    /// After a stop: the machine is not paused.
    pub fn after_stop(&mut self)
        ensures { self.new ≡ after_stop self.old }
    {
        self.paused = false;
    }

    /// Whether these bytes, if any, are in a watched range.
    fn is_hit(&self, written: Option<Written>) -> bool
        ensures { result ≡ hits written self.now }
    {
        match written {
            Some(written) => reaches_any(self.watches.as_slice(), &written),
            None => false,
        }
    }
}

fn begins(program: &Program, slot: usize) -> bool
    ensures begins { result ≡ true → IsAt program.now slot }
    ensures none { result ≡ false → IsAt program.now slot → ⊥ }
{
    match program.at(slot) {
        Some(_) => true,
        None => false,
    }
}

fn has_range(watches: &[Watch], watch: &Watch) -> bool
    ensures { result ≡ list_any (is_same_watch watch.now) watches.now }
{
    for w in watches {
        if watch.is_same(w) {
            return true;
        }
    }
    false
}

fn reaches_any(watches: &[Watch], written: &Written) -> bool
    ensures { result ≡ list_any (overlaps written.now) watches.now }
{
    for w in watches {
        if w.is_reached(written) {
            return true;
        }
    }
    false
}

/// All but one of the slots.
fn slots_but(slots: &[usize], slot: usize) -> ArrayVec<usize, BREAK_LIMIT>
    requires { length slots.now ≤ break_limit }
    ensures { result.items ≡ filter (λ other. not (nat_eq slot other)) slots.now }
{
    let mut kept = ArrayVec::new();
    for s in slots {
        if slot != *s {
            kept.push(*s);
        }
    }
    kept
}

/// All but one of the ranges.
fn ranges_but(watches: &[Watch], watch: &Watch) -> ArrayVec<Watch, WATCH_LIMIT>
    requires { length watches.now ≤ watch_limit }
    ensures { result.items ≡ filter (λ other. not (is_same_watch watch.now other)) watches.now }
{
    let mut kept = ArrayVec::new();
    for w in watches {
        if !watch.is_same(w) {
            kept.push(*w);
        }
    }
    kept
}
