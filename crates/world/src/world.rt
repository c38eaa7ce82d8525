//! What the commands do.
ghost use Rattle.std.specs.Prelude.{◌≡◌, ◌≤◌, ◌++◌, List, map, true, length, IfOk, IfErr, OnOk, OnErr};
ghost use Rattle.far_store.specs.Calls.{Calls};
ghost use Rattle.memory.specs.Objects.{object_limit};
ghost use Rattle.object_store.specs.Lending.{within_memory, store_memory};
ghost use Rattle.scopes.specs.Windows.{machine_limit};
ghost use Rattle.object_store.specs.Calls.{Frees};
ghost use Rattle.object_store.specs.Asking.{AsksToFree};
ghost use Rattle.object_store.specs.Parts.{AllHere, RefusesParts, bodies_of, forgets_all};
ghost use Rattle.debugger.specs.declared.commands.MachineCommand.{MachineCommand};
ghost use Rattle.world.specs.Run.{Runs};
ghost use Rattle.world.specs.WorldState.{opened_world, state_of};
ghost use Rattle.world.specs.Asking.{AsksToMake, AsksToPut, AsksMove, AsksObject, Asks, AnswersWithin};
ghost use Rattle.debugger.specs.declared.show.ShowCommand.{ShowCommand};
ghost use Rattle.debugger.specs.declared.show.ShowReply.{ShowReply};
ghost use Rattle.world.specs.Machines.{AnswersMachine, reply_of, refused_stack};
ghost use Rattle.world.specs.Running.{RunsMachine, RunAsks};
ghost use Rattle.world.specs.Unseen.{IsPlainRun};
ghost use Rattle.world.specs.Answers.{Event, Reply, Answers, AnswersMake, AnswersPut, AnswersGet, denied, AnswersMove, AnswersObject, AnswersShip};
ghost use Rattle.world.specs.Moves.{MoveAsks, Moves};

mod handing;
mod moving;

use crate::events::{Event, ObjectCommand, ObjectLength};
use crate::machines::{answer_machine, run_machine, step_machine};
use crate::replies::Reply;
use crate::stack::{StackError, read_stack};
use debugger::{Debuggee, MachineCommand, MachineRun, Start, StepReply, Way};
use far_store::FarStore;
use loader::{Why, load};
use memory::Bytes;
pub use moving::Move;
use object_store::{Denied, GetError, MakeError, ObjectStore, PartsError};
use scopes::MACHINE_LIMIT;
use std::alloc::{AllocError, Global};
use std::marker::Model;

/// The machines and objects of an agent, over a far store that returns what was put in it.
#[derive(Drop)]
pub struct World<F: FarStore> {
    alloc: Global,
    machines: Vec<Debuggee>,
    store: ObjectStore<F>,
}

/// The parts of a world of which all objects were here.
#[derive(Drop)]
pub struct WorldParts<F> {
    /// The machines, each with its debugger, in the order in which they were shipped.
    pub machines: Vec<Debuggee>,
    /// The bytes of each object, from number 1 on: none where it was freed. Where no object was ever made this is one
    /// body without bytes.
    pub bodies: Vec<Vec<u8>>,
    /// The far store, which keeps no parcel of these objects.
    pub store: F,
}

impl<F: FarStore> Model for World<F> {
    ghost use Rattle.std.specs.Prelude.{◌≡◌, ◌≤◌, true, length, vec_capacity};
    ghost use Rattle.scopes.specs.Windows.{machine_limit};
    ghost use Rattle.world.specs.WorldState.{WorldWithin};

    ghost Value = { WorldWithin F };

    ghost view = { λ w. record { machines = w.machines.items; store = w.store } };

    ghost invariant = { λ w. (length w.machines.items ≤ machine_limit) × (vec_capacity w.machines ≡ machine_limit) × (F.RETURNS ≡ true) };
}

impl<F: FarStore + Drop> World<F> {
    /// A world without machines and objects. It takes the memory for all that can be shipped and made, but for code and
    /// bytes. The objects that aren't far have at most `budget` bytes; the bytes of the others are in the far store.
    pub fn new(alloc: Global, budget: u32, store: F) -> Result<Self, AllocError>
        requires { F.RETURNS ≡ true }
        ensures { IfOk result (λ w. w ≡ opened_world budget (F.faults_of store) store) }
    {
        let machines = Vec::with_capacity(alloc, MACHINE_LIMIT)?;
        let store = ObjectStore::new(alloc, budget, store)?;
        Ok(World {
            alloc,
            machines,
            store,
        })
    }

    /// Takes the world apart, where all objects are here. All scopes close, and parcels that are kept are forgotten, by
    /// rising numbers.
    pub fn into_parts(self) -> Result<WorldParts<F>, PartsError>
        ensures here { OnOk result (AllHere self.store.state.places) }
        ensures machines { IfOk result (λ p. p.machines.items ≡ self.machines) }
        ensures bodies { IfOk result (λ p. map (λ b. b.items) p.bodies.items ≡ bodies_of self.store.state.objects) }
        ensures few { IfOk result (λ p. (length p.machines.items ≤ machine_limit) × (length p.bodies.items ≤ object_limit)) }
        ensures calls { IfOk result (λ p. Calls F.called self.store.far (forgets_all self.store.sent) p.store) }
        ensures faults { IfOk result (λ p. self.store.state.faults ≤ F.faults_of p.store) }
        ensures refused { IfErr result (λ e. RefusesParts self.store.state e) }
    {
        let World {
            machines,
            store,
            ..
        } = self;
        let parts = store.into_parts()?;
        Ok(WorldParts {
            machines,
            bodies: parts.bodies,
            store: parts.store,
        })
    }
}

impl<F: FarStore> World<F> {
    /// Does one command.
    pub fn apply(&mut self, event: Event) -> Reply
        ensures answers { Answers (state_of self.old) event result (state_of self.new) }
        ensures asks { Asks F.called self.old event result self.new }
    {
        match event {
            Event::Make { length } => self.make(length),
            Event::Ship { start, code } => self.ship(start, code.as_slice()),
            Event::Object { object, command } => self.answer_object(object, command),
            Event::Machine { machine, command } => self.answer_machine(machine, command),
        }
    }

    /// Does the commands in order, and adds their replies. Without what moves and debugs, the run is one of an agent whose
    /// objects never move and that nobody debugs. An `Err` comes before the first command, and changes nothing.
    pub fn run(&mut self, events: Vec<Event>, replies: &mut Vec<Reply>) -> Result<(), AllocError>
        ensures ok { OnOk result ((given : List Reply) × (replies.new.items ≡ replies.old.items ++ given)
            × Runs (AnswersWithin F.called) self.old events.items given self.new
            × Runs Answers (state_of self.old) events.items given (state_of self.new)
            × IsPlainRun (state_of self.old) events.items given (state_of self.new)) }
        ensures err { OnErr result ((self.new ≡ self.old) × (replies.new.items ≡ replies.old.items)) }
    {
        replies.reserve(events.len())?;
        for event in events {
            replies.push_reserved(self.apply(event));
        }
        Ok(())
    }

    // ---- objects

    /// Does a command on an object.
    fn answer_object(&mut self, object: u32, command: ObjectCommand) -> Reply
        ensures answers { AnswersObject (state_of self.old) object command result (state_of self.new) }
        ensures asks { AsksObject F.called self.old.store object command result self.new.store }
    {
        match command {
            ObjectCommand::Free => self.free(object),
            ObjectCommand::Put { offset, bytes } => self.put(object, offset, bytes.as_slice()),
            ObjectCommand::Get { offset, length } => self.get(object, offset, length),
            ObjectCommand::Move(kind) => self.answer_move(object, kind),
        }
    }

    /// Makes an object.
    fn make(&mut self, length: ObjectLength) -> Reply
        ensures answers { AnswersMake (state_of self.old) length result (state_of self.new) }
        ensures asks { AsksToMake self.old.store result self.new.store }
    {
        match self.store.make(length.get()) {
            Ok(object) => Reply::Made { object },
            Err(MakeError::Full) => Reply::Full,
            Err(MakeError::NoRoom) => Reply::NoRoom,
            Err(MakeError::Memory) => Reply::NoMemory,
        }
    }

    /// Frees an object.
    fn free(&mut self, object: u32) -> Reply
        ensures answers { AnswersMove Frees (Reply.Freed object) (state_of self.old) object result (state_of self.new) }
        ensures asks { AsksMove (AsksToFree F.called) (Reply.Freed object) self.old.store object result self.new.store }
    {
        let moved = self.store.free(object);
        Reply::Freed { object, moved }
    }

    /// Writes bytes into an object.
    pub fn put(&mut self, object: u32, offset: u32, bytes: &[u8]) -> Reply
        ensures answers { AnswersPut (state_of self.old) object offset bytes.now result (state_of self.new) }
        ensures asks { AsksToPut self.old.store object result self.new.store }
    {
        match self.store.put(object, offset, bytes) {
            Ok(()) => Reply::Done,
            Err(why) => Reply::denied(object, why),
        }
    }

    /// Copies bytes of an object over these, as many as they are, which the command `get` would show. Where it is refused, the
    /// bytes stay. It takes no memory.
    pub fn read(&self, object: u32, offset: u32, into: &mut [u8]) -> Result<(), Denied>
        ensures shown { OnOk result (AnswersGet self.now.store.state object offset (length into.old) (Reply.Bytes into.new)) }
        ensures refused { IfErr result (λ why. AnswersGet self.now.store.state object offset (length into.old) (denied object why)) }
        ensures kept { OnErr result (into.new ≡ into.old) }
    {
        self.store.read(object, offset, into)
    }

    /// Bytes of an object.
    fn get(&self, object: u32, offset: u32, length: u32) -> Reply
        ensures { AnswersGet self.now.store.state object offset length result }
    {
        match self.store.get(object, offset, length) {
            Ok(bytes) => Reply::Bytes(Bytes::new(bytes)),
            Err(GetError::Denied(why)) => Reply::denied(object, why),
            Err(GetError::Memory) => Reply::NoMemory,
        }
    }

    // ---- moves

    /// Does a move of an object, or ends it, and answers it.
    fn answer_move(&mut self, object: u32, kind: Move) -> Reply
        ensures answers { AnswersMove (Moves kind) (Reply.Moved object kind) (state_of self.old) object result (state_of self.new) }
        ensures asks { AsksMove (MoveAsks F.called kind) (Reply.Moved object kind) self.old.store object result self.new.store }
    {
        let moved = self.move_object(object, kind);
        Reply::Moved {
            object,
            kind,
            moved,
        }
    }

    // ---- machines

    /// Makes a machine of the code.
    pub fn ship(&mut self, start: Start, code: &[u8]) -> Reply
        ensures machines { AnswersShip self.old.machines start code.now result self.new.machines }
        ensures store { self.new.store ≡ self.old.store }
    {
        if self.machines.len() >= MACHINE_LIMIT {
            return Reply::Full;
        }
        let machine = self.machines.len() + 1;
        match load(self.alloc, code) {
            Ok(program) => {
                let debuggee = Debuggee::new(program, machine, start);
                self.machines.push_reserved(debuggee);
                Reply::Shipped { machine }
            }
            Err(error) if error.why == Why::Memory => Reply::NoMemory,
            Err(error) => Reply::Refused(error),
        }
    }

    /// Does a command on a machine.
    fn answer_machine(&mut self, machine: usize, command: MachineCommand) -> Reply
        ensures answers { AnswersMachine (store_memory machine) self.old.machines self.old.store.state machine command
            result self.new.machines self.new.store.state }
        ensures asks { AnswersMachine (within_memory machine) self.old.machines self.old.store machine command result self.new.machines self.new.store }
    {
        answer_machine(
            self.alloc,
            self.machines.as_mut_slice(),
            &mut self.store,
            machine,
            command,
        )
    }

    /// One step of a machine, if there is one of this number: what the commands `step` and `one` do. Its reply is small,
    /// and is moved faster than one of [`apply`](World::apply).
    pub fn step(&mut self, machine: usize, way: Way) -> Option<StepReply>
        ensures answers { Answers (state_of self.old) (Event.Machine machine (MachineCommand.Step way)) (reply_of machine result) (state_of self.new) }
        ensures asks { Asks F.called self.old (Event.Machine machine (MachineCommand.Step way)) (reply_of machine result) self.new }
    {
        step_machine(self.machines.as_mut_slice(), &mut self.store, machine, way)
    }

    /// Copies bytes of a machine's stack over these, as many as they are, which the command `stack` would show. Where it is
    /// refused, the bytes stay. It takes no memory.
    pub fn read_stack(&self, machine: usize, offset: u32, into: &mut [u8]) -> Result<(), StackError>
        ensures shown { OnOk result (Answers (state_of self.now) (Event.Machine machine (MachineCommand.Show (ShowCommand.Stack offset (length into.old))))
            (Reply.Shown machine (ShowReply.Bytes into.new)) (state_of self.now)) }
        ensures refused { IfErr result
            (λ error. Answers (state_of self.now) (Event.Machine machine (MachineCommand.Show (ShowCommand.Stack offset (length into.old))))
            (refused_stack machine error) (state_of self.now)) }
        ensures kept { OnErr result (into.new ≡ into.old) }
    {
        read_stack(self.machines.as_slice(), machine, offset, into)
    }

    /// At most so many steps of a machine, if there is one of this number: what as many commands `step` do, up to the first
    /// that doesn't run. The machine is found once.
    pub fn run_machine(&mut self, machine: usize, most: u64) -> Option<MachineRun>
        ensures runs { RunsMachine machine most (state_of self.old) result (state_of self.new) }
        ensures asks { RunAsks machine most self.old result self.new }
    {
        run_machine(self.machines.as_mut_slice(), &mut self.store, machine, most)
    }
}
