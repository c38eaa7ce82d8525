//! A machine with what it started as, and its steps over a seat.
ghost use Rattle.std.specs.Prelude.{◌≡◌, Some, None, length};
ghost use Rattle.loader.specs.ValidCode.{ValidCode};
ghost use Rattle.shared_objects.specs.Tables.{IsActorOf};
ghost use Rattle.machine.specs.MachineState.{granted_start};
ghost use Rattle.debugger.specs.Debuggees.{AnswersStep, DebugsMachine, debuggee_start};
ghost use Rattle.debugger.specs.Running.{RunsUpTo};
ghost use Rattle.workers.specs.Cells.{seat_acts, seat_state, shipped_as, is_going_on};

use debugger::{DebugCommand, Debugged, Debuggee, MachineRun, Start, StepReply, Way};
use loader::Program;
use shared_objects::{ActorSeat, SeatMemory, SharedTable};
use std::marker::Model;

/// What a machine was shipped with, beside its code and its grants, which never change.
#[derive(Clone, Copy, Drop, Debug)]
pub struct Shipment {
    pub fuel: u64,
    pub arguments: [u64; 5],
}

/// A machine with its debugger, and what it started with where it was shipped after the table was opened.
#[derive(Drop)]
pub struct Running {
    debuggee: Debuggee,
    shipment: Option<Shipment>,
}

impl Model for Running {
    ghost use Rattle.workers.specs.Cells.{RunningState, shipped_as};

    ghost Value = { RunningState };

    ghost view = { λ r. record { debuggee = r.debuggee; shipped = shipped_as r.debuggee.machine r.shipment } };
}

/// Says in a clause what the type says, for callers.
fn are_five(arguments: [u64; 5])
    ensures { length arguments ≡ 5 }
{
    prove!(arguments.len() == 5);
}

impl Running {
    /// A machine that was there when the table was opened.
    pub fn opened(debuggee: Debuggee) -> Self
        ensures { result ≡ record { debuggee = debuggee; shipped = None } }
    {
        Running {
            debuggee,
            shipment: None,
        }
    }

    /// A machine that is shipped, at the start of its program.
    pub fn shipped(program: Program, number: usize, start: Start) -> Self
        ensures is { result ≡ record {
          debuggee = debuggee_start number program start;
          shipped = Some (granted_start number program start.fuel start.arguments start.grants);
        } }
        ensures valid { ValidCode program }
        ensures five { length start.arguments ≡ 5 }
    {
        prove!(program.slots() > 0);
        let arguments = start.arguments;
        are_five(arguments);
        let shipment = Shipment {
            fuel: start.fuel,
            arguments,
        };
        Running {
            debuggee: Debuggee::new(program, number, start),
            shipment: Some(shipment),
        }
    }

    /// The machine with its debugger.
    pub fn debuggee(&self) -> &Debuggee
        ensures { result.now ≡ self.now.debuggee }
    {
        &self.debuggee
    }

    /// What it was shipped with, if it came after the table was opened. Its start is then that of its code and grants with these. The
    /// start of a machine that was there before is the one that it was opened with.
    pub fn shipment(&self) -> Option<Shipment>
        ensures { shipped_as self.now.debuggee.machine result ≡ self.now.shipped }
    {
        self.shipment
    }

    /// Whether the machine is neither paused nor stopped.
    pub fn is_going(&self) -> bool
        ensures { result ≡ is_going_on self.now.debuggee }
    {
        self.debuggee.machine.stop().is_none() && !self.debuggee.debugger.is_paused()
    }

    /// One step over a seat of the table.
    pub fn step(&mut self, shared: &SharedTable, seat: &mut ActorSeat, way: Way) -> StepReply
        requires { IsActorOf shared.now seat.old }
        ensures seat { IsActorOf shared.now seat.new }
        ensures step { AnswersStep seat_acts way self.old.debuggee (seat_state seat.old) result self.new.debuggee (seat_state seat.new) }
        ensures same { self.new.shipped ≡ self.old.shipped }
    {
        prove!(self.debuggee.machine.frames().len() <= 8);
        let mut memory = SeatMemory { shared, seat };
        self.debuggee.step(way, &mut memory)
    }

    /// At most so many steps over a seat of the table, up to the first that doesn't run. From where nothing is set for the
    /// machine they are done in one go.
    pub fn run(&mut self, shared: &SharedTable, seat: &mut ActorSeat, most: u64) -> MachineRun
        requires { IsActorOf shared.now seat.old }
        ensures seat { IsActorOf shared.now seat.new }
        ensures runs { RunsUpTo seat_acts most self.old.debuggee (seat_state seat.old) result.ran result.end self.new.debuggee (seat_state seat.new) }
        ensures same { self.new.shipped ≡ self.old.shipped }
    {
        prove!(self.debuggee.machine.frames().len() <= 8);
        let mut memory = SeatMemory { shared, seat };
        self.debuggee.run(most, &mut memory)
    }

    /// Does a command of the debugger.
    pub fn debug(&mut self, command: DebugCommand) -> Debugged
        ensures debugs { DebugsMachine command self.old.debuggee result self.new.debuggee }
        ensures same { self.new.shipped ≡ self.old.shipped }
    {
        self.debuggee.debug(command)
    }
}
