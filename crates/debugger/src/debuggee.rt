//! A machine and its debugger.
ghost use Rattle.std.specs.Prelude.{◌≡◌, cond, if◌then◌else◌};
ghost use Rattle.debugger.specs.DebugState.{hits};
ghost use Rattle.debugger.specs.Changes.{Debugs};
ghost use Rattle.debugger.specs.Pausing.{with_pause, after_run, debugged};
ghost use Rattle.debugger.specs.Debuggees.{debuggee_start, holds_back, reply_after, AnswersStep, DebugsMachine};

use crate::commands::{DebugCommand, Way};
use crate::debugger::Debugger;
use crate::replies::{Debugged, StepReply};
use crate::start::Start;
use loader::Program;
use machine::{Machine, Stepped, Written};
use memory::Memory;

/// A machine with its debugger.
#[derive(Drop)]
pub struct Debuggee {
    pub machine: Machine,
    pub debugger: Debugger,
}

impl Debuggee {
    /// The machine of this number at the start of its program. Nothing is set. Takes no memory.
    pub fn new(program: Program, number: usize, start: Start) -> Self
        ensures { result ≡ debuggee_start number program start }
    {
        Debuggee {
            machine: Machine::granted(program, number, start.fuel, start.arguments, start.grants),
            debugger: Debugger::new(),
        }
    }

    /// One step over any memory, or a pause in its place. It is no `inline`: the step itself is inlined here, once.
    pub fn step<M: Memory>(&mut self, way: Way, memory: &mut M) -> StepReply
        requires { M.is_ready memory.old }
        ensures ready { M.is_ready memory.new }
        ensures step { AnswersStep M.acts way self.old memory.old result self.new memory.new }
    {
        if self.pauses(way) {
            return StepReply::Paused(self.machine.slot());
        }
        let answer = self.machine.step(memory);
        self.reply_to(way, answer)
    }

    /// Does a command of the debugger.
    pub fn debug(&mut self, command: DebugCommand) -> Debugged
        ensures { DebugsMachine command self.old result self.new }
    {
        self.debugger.apply(self.machine.program(), command)
    }

    /// Whether the machine pauses in place of a step, which it then notes. One that is stopped doesn't.
    #[inline]
    fn pauses(&mut self, way: Way) -> bool
        ensures answer { result ≡ holds_back way self.old }
        ensures new { self.new ≡ (if result then record self.old { debugger = with_pause self.old.machine.slot self.old.debugger } else self.old) }
    {
        match way {
            Way::Step => self.machine.stop().is_none() && self.debugger.pauses(self.machine.slot()),
            Way::One => false,
        }
    }

    /// Notes what a step was answered, and replies to it.
    #[inline]
    fn reply_to(&mut self, way: Way, answer: Stepped) -> StepReply
        ensures reply { result ≡ reply_after answer self.old.machine.slot self.old.debugger }
        ensures new { self.new ≡ record self.old { debugger = debugged way answer self.old.debugger } }
    {
        match answer {
            Stepped::Ran(written) => self.reply_to_run(way, written),
            Stepped::Waiting(object) => StepReply::Waiting(object),
            Stepped::Stopped(stop) => {
                self.debugger.after_stop();
                StepReply::Stopped(stop)
            }
        }
    }

    /// Notes that a step ran, which wrote these bytes, if any, and replies to it.
    #[inline]
    fn reply_to_run(&mut self, way: Way, written: Option<Written>) -> StepReply
        ensures reply { result ≡ cond (hits written self.old.debugger) (StepReply.Hit self.old.machine.slot) (StepReply.Ran self.old.machine.slot) }
        ensures new { self.new ≡ record self.old { debugger = after_run way written self.old.debugger } }
    {
        let slot = self.machine.slot();
        if self.debugger.after(way, written) {
            StepReply::Hit(slot)
        } else {
            StepReply::Ran(slot)
        }
    }
}
