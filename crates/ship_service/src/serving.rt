//! Conversations with the service.
ghost use Rattle.std.specs.Prelude.{◌≡◌, ◌≤◌, OnOk, IfSome, true};
ghost use Rattle.std.specs.Result.{IsErrOf};
ghost use Rattle.console.specs.Held.{nothing_held};
ghost use Rattle.console.specs.Conversations.{AnswersAll, StopsReading};
ghost use Rattle.console.specs.Gathered.{StopsShort};
ghost use Rattle.workers.specs.Cells.{IsSeatOf, seat_state};
ghost use Rattle.workers.specs.TableNames.{each_passed};
ghost use Rattle.workers.specs.TableNames.Passage.{Conversed};
ghost use Rattle.console.specs.Lines.{ended};
ghost use Rattle.console.specs.Commands.{range_limit};
ghost use Rattle.world.specs.declared.events.Event.TheVariants.{Object};
ghost use Rattle.world.specs.declared.events.ObjectCommand.TheVariants.{Get};
ghost use Rattle.ship_service.specs.declared.replies.ServiceReply.{ServiceReply};
ghost use Rattle.ship_service.specs.Replies.{service_text};
ghost use Rattle.ship_service.specs.Served.{Serves, ServesObject, ServesTurn, service};

use crate::cells::{answer_machine, ship};
use crate::connection::{Connection, Session};
use crate::ranges::{ask, fetch, get, print_found, put};
use crate::replies::{ServiceReply, print_service_reply};
use crate::shared_agent::Agent;
use console::{Answerer, DriveFault, ReplyLine, converse_gathering};
use far_store::FarStore;
use shared_objects::ActorSeat;
use std::alloc::Global;
use std::io::{Read, Write};
use std::marker::{Model, PhantomData};
use std::snapshot::Snapshot;
use std::sync::Wait;
use workers::{Direction, TableName};
use world::{Event, Move, ObjectCommand};

/// What all connections share, and the runtime by which one may wait for a machine that is being stepped.
#[derive(Drop)]
pub struct Service<'a, R, F: FarStore, K: TableName> {
    rt: &'a R,
    agent: &'a Agent<F, K>,
}

/// Says what a conversation made of its seat. An agent has this, and only [`serve`] can have it say so.
#[derive(Drop)]
pub(crate) struct Conversations<K: TableName> {
    of: PhantomData<K>,
}

impl<K: TableName> Model for Conversations<K> {
    ghost use Rattle.std.specs.Prelude.{◌≡◌, ⊤};
    ghost use Rattle.workers.specs.TableNames.{each_passed};

    ghost Value = { ⊤ };

    ghost view = { λ c. tt };

    ghost invariant = { λ c. K.passed ≡ each_passed };
}

impl<K: TableName> Conversations<K> {
    /// Those over the table that K names.
    pub(crate) fn new() -> Self
        requires { K.passed ≡ each_passed }
    {
        Conversations { of: PhantomData }
    }

    /// Says that a conversation over this stream began with the one seat and ended with the other.
    fn held<I: Read>(&self, _reader: &Snapshot<I>, _began: &Snapshot<ActorSeat>, _ended: &ActorSeat)
        ensures { K.passed (Conversed (I.remaining _reader.now.value) _began.now.value _ended.now) ≡ true }
    {
        let _of = &self.of;
    }
}

fn answer_object<F: FarStore, K: TableName, R: Wait>(
    rt: &R,
    agent: &Agent<F, K>,
    seat: &mut ActorSeat,
    object: u32,
    command: ObjectCommand,
) -> ServiceReply
    requires { IsSeatOf K.table K.opening seat.old }
    ensures of { IsSeatOf K.table K.opening seat.new }
    ensures serves { ServesObject (seat_state seat.old) object command result (seat_state seat.new) }
{
    let pool = agent.pool();
    match command {
        ObjectCommand::Put { offset, bytes } => {
            put(rt, pool, seat, object, offset, bytes.as_slice())
        }
        ObjectCommand::Get { offset, length } => get(rt, pool, seat, object, offset, length),
        ObjectCommand::Move(Move::Leave) => ask(rt, pool, object, Direction::Leave),
        ObjectCommand::Move(Move::Return) => ask(rt, pool, object, Direction::Return),
        _ => ServiceReply::Unserved,
    }
}

fn answer<F: FarStore, K: TableName, R: Wait>(
    rt: &R,
    alloc: Global,
    agent: &Agent<F, K>,
    seat: &mut ActorSeat,
    event: Event,
) -> ServiceReply
    requires { IsSeatOf K.table K.opening seat.old }
    ensures of { IsSeatOf K.table K.opening seat.new }
    ensures serves { Serves K.opening K.starts K.passed (seat_state seat.old) event result (seat_state seat.new) }
{
    match event {
        Event::Make { .. } => ServiceReply::Unserved,
        Event::Ship { start, code } => ship(rt, alloc, agent, start, code.as_slice()),
        Event::Object { object, command } => answer_object(rt, agent, seat, object, command),
        Event::Machine { machine, command } => {
            answer_machine(rt, alloc, agent, seat, machine, command)
        }
    }
}

/// Answers `get` and makes the line of it.
fn answer_get<'a, F: FarStore, K: TableName, R: Wait>(
    shared: &Service<'a, R, F, K>,
    seat: &mut ActorSeat,
    object: u32,
    offset: u32,
    length: u32,
    reply: &mut ReplyLine,
)
    requires seat { IsSeatOf K.table K.opening seat.old }
    requires short { length ≤ range_limit }
    ensures of { IsSeatOf K.table K.opening seat.new }
    ensures serves { (answered : ServiceReply) × ServesTurn K.opening K.starts K.passed (seat_state seat.old) (Object object (Get offset length)) answered
        (seat_state seat.new) × (reply.new.items ≡ ended (service_text answered)) }
{
    let pool = shared.agent.pool();
    let found = fetch(shared.rt, pool, seat, object, offset, length);
    pool.table().close_scopes(seat);
    print_found(shared.rt, pool, object, found, reply);
}

impl<'a, R: Wait, F: FarStore, K: TableName> Answerer<Service<'a, R, F, K>> for Session<K> {
    ghost use Rattle.workers.specs.Cells.{seat_state};
    ghost use Rattle.ship_service.specs.Served.{service};

    ghost protocol = { service K.opening K.starts K.passed };

    ghost state = { λ session. seat_state session.seat };

    fn perform(&mut self, shared: &Service<'a, R, F, K>, event: Event, reply: &mut ReplyLine) {
        if let Event::Object {
            object,
            command: ObjectCommand::Get { offset, length },
        } = event
        {
            answer_get(shared, &mut self.seat, object, offset, length, reply);
            shared.agent.pool().command_ended();
            return;
        }
        let pool = shared.agent.pool();
        let answered = answer(shared.rt, self.alloc, shared.agent, &mut self.seat, event);
        pool.table().close_scopes(&mut self.seat);
        pool.command_ended();
        print_service_reply(&answered, reply);
    }
}

/// Answers each line of one connection, from its first byte to its end. What an earlier conversation left of a line is
/// dropped.
pub fn serve<F: FarStore, K: TableName, R: Wait, I: Read, O: Write>(
    rt: &R,
    reader: &mut I,
    writer: &mut O,
    agent: &Agent<F, K>,
    connection: &mut Connection<K>,
) -> Result<(), DriveFault>
    ensures ok { OnOk result (IfSome (I.remaining reader.old) (λ input.
        AnswersAll (service K.opening K.starts K.passed) (seat_state connection.old.session.seat) input (O.contents writer.old) (O.contents writer.new)
        (seat_state connection.new.session.seat))) }
    ensures read { IsErrOf result DriveFault.Read → IfSome (I.remaining reader.old) (λ input.
        StopsReading (service K.opening K.starts K.passed) (seat_state connection.old.session.seat) input (O.contents writer.old) (O.contents writer.new)
        (seat_state connection.new.session.seat) connection.new.console (I.remaining reader.new)) }
    ensures write { IsErrOf result DriveFault.Write → IfSome (I.remaining reader.old) (λ input. IfSome (O.contents writer.old) (λ before.
        StopsShort (service K.opening K.starts K.passed) (seat_state connection.old.session.seat) input before (O.contents writer.new)
        (seat_state connection.new.session.seat) (I.remaining reader.new))) }
    ensures conversed { K.passed (Conversed (I.remaining reader.old) connection.old.session.seat connection.new.session.seat) ≡ true }
{
    connection.console.clear();
    let before = Snapshot::of(reader);
    let began = Snapshot::of(&connection.session.seat);
    let service = Service { rt, agent };
    let outcome = converse_gathering(
        reader,
        writer,
        &mut connection.console,
        &service,
        &mut connection.session,
    );
    agent
        .conversations()
        .held(&before, &began, &connection.session.seat);
    outcome
}
