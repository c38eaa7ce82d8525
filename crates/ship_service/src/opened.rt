//! A world is opened for many connections.
ghost use Rattle.std.specs.Prelude.{◌≡◌, ◌≤◌, ◌+◌, length, map, All, IfOk, IfErr, OnOk};
ghost use Rattle.console.specs.Held.{nothing_held};
ghost use Rattle.far_store.specs.Calls.{Calls};
ghost use Rattle.object_store.specs.Parts.{AllHere, RefusesParts, forgets_all};
ghost use Rattle.object_store.specs.declared.errors.PartsError.{PartsError as OpenAgent};
ghost use Rattle.world.specs.WorldState.{state_of};
ghost use Rattle.memory.specs.Objects.{object_limit};
ghost use Rattle.shared_objects.specs.Opened.{AreFresh, IsActorOf, IsMoverOf, dealer, seated};
ghost use Rattle.shared_objects.specs.Opening.{opening_bytes};
ghost use Rattle.shared_objects.specs.Tables.{table_opening};
ghost use Rattle.workers.specs.Cells.{IsSeatOf};
ghost use Rattle.ship_service.specs.Opening.{machine_limit, AreFreshSeats, IsNamed, connection_limit, first_mover, opened_bytes, seat_count};

use crate::connection::Connection;
use crate::shared_agent::Agent;
use debugger::Debuggee;
use far_store::FarStore;
use scopes::MACHINE_LIMIT;
use shared_objects::{ActorSeat, MoverSeat, Shared};
use std::alloc::{AllocError, Global};
use std::sync::Wait;
use workers::{Mover, Pool, TableName};
use world::{World, WorldParts};

/// Why no agent is opened: its world isn't taken apart, or there is no memory. What it was to be opened with is dropped.
pub use object_store::PartsError as OpenAgent;

/// How many connections there are: this project's choice.
pub const CONNECTION_LIMIT: usize = 8;

/// How many actors have seats: the machines, and then the connections.
const SEAT_COUNT: usize = MACHINE_LIMIT + CONNECTION_LIMIT;

/// What a world became: a table of its objects that nobody uses yet, with the seats of all who will, its machines, and its far
/// store.
#[derive(Drop)]
pub struct Opened<F: FarStore> {
    shared: Shared<F>,
    // those of the machines, and then those of the connections
    seats: Vec<ActorSeat>,
    mover: MoverSeat,
    machines: Vec<Debuggee>,
    store: F,
    pub ghost fresh: { AreFresh (dealer F.RETURNS (table_opening shared.table)) seats.items × All (IsActorOf shared.table) seats.items },
    pub ghost all: { length seats.items ≡ seat_count },
    pub ghost moving: { IsMoverOf shared.table mover × (mover.seat.me.0 ≡ seated seat_count (dealer F.RETURNS (table_opening shared.table))) },
    pub ghost few: { length machines.items ≤ machine_limit },
}

/// The parts of a world, with its objects as a table.
fn open_parts<F: FarStore + Drop>(
    alloc: Global,
    parts: WorldParts<F>,
) -> Result<Opened<F>, OpenAgent>
    requires few { (length parts.machines.items ≤ machine_limit) × (length parts.bodies.items ≤ object_limit) }
    ensures opening { IfOk result (λ opened. table_opening opened.shared.table ≡ opening_bytes parts.bodies) }
    ensures machines { IfOk result (λ opened. opened.machines ≡ parts.machines) }
    ensures store { IfOk result (λ opened. opened.store ≡ parts.store) }
    ensures refused { IfErr result (λ why. why ≡ OpenAgent.Memory) }
{
    let WorldParts {
        machines,
        bodies,
        store,
    } = parts;
    let Ok((shared, seats, mover)) = Shared::open(alloc, bodies, SEAT_COUNT) else {
        return Err(OpenAgent::Memory);
    };
    Ok(Opened {
        shared,
        seats,
        mover,
        machines,
        store,
    })
}

impl<F: FarStore + Drop> Opened<F> {
    /// Opens a table of the world's objects, which all have to be here. A number whose object was freed has no bytes; where no
    /// object was ever made, the table has one body without bytes. The machines and their debug states stay as they are; no scope
    /// is open. On a refusal all is dropped.
    pub fn new(alloc: Global, world: World<F>) -> Result<Opened<F>, OpenAgent>
        ensures here { OnOk result (AllHere world.store.state.places) }
        ensures opening { IfOk result (λ opened. table_opening opened.shared.table ≡ opened_bytes (state_of world)) }
        ensures machines { IfOk result (λ opened. opened.machines.items ≡ world.machines) }
        ensures store { IfOk result (λ opened. Calls F.called world.store.far (forgets_all world.store.sent) opened.store) }
        ensures refused { IfErr result (λ why. RefusesParts world.store.state why) }
    {
        let parts = world.into_parts()?;
        open_parts(alloc, parts)
    }

    /// The same over another far store than the world's, which is dropped.
    pub fn over<G: FarStore + Drop>(
        alloc: Global,
        world: World<G>,
        store: F,
    ) -> Result<Opened<F>, OpenAgent>
        ensures here { OnOk result (AllHere world.store.state.places) }
        ensures opening { IfOk result (λ opened. table_opening opened.shared.table ≡ opened_bytes (state_of world)) }
        ensures machines { IfOk result (λ opened. opened.machines.items ≡ world.machines) }
        ensures store { IfOk result (λ opened. opened.store ≡ store) }
        ensures refused { IfErr result (λ why. RefusesParts world.store.state why) }
    {
        let WorldParts {
            machines,
            bodies,
            ..
        } = world.into_parts()?;
        let parts = WorldParts {
            machines,
            bodies,
            store,
        };
        open_parts(alloc, parts)
    }
}

/// A connection with each of these seats, in order.
fn connections_of<K: TableName>(
    alloc: Global,
    seats: Vec<ActorSeat>,
) -> Result<Vec<Connection<K>>, AllocError>
    requires { All (IsSeatOf K.table K.opening) seats.items }
    ensures seats { IfOk result (λ connections. map (λ c. c.session.seat) connections.items ≡ seats.items) }
    ensures empty { IfOk result (λ connections. All (λ c. c.console ≡ nothing_held) connections.items) }
{
    let mut connections = Vec::new(alloc);
    for seat in seats {
        connections.push(Connection::new(alloc, seat)?)?;
    }
    Ok(connections)
}

impl<F: FarStore + Drop, K: TableName> Agent<F, K> {
    /// The agent of what was opened, its connections, and the mover of its table. The machines have their cells, in order; those
    /// that are neither paused nor stopped are queued. Each connection has a seat of its own, which has seen and done nothing,
    /// and the mover has no parcel. On a refusal all is dropped.
    pub fn open<R: Wait>(
        rt: &R,
        alloc: Global,
        opened: Opened<F>,
    ) -> Result<(Agent<F, K>, Vec<Connection<K>>, Mover<F, K>), OpenAgent>
        requires { IsNamed K.table K.opening K.starts K.seats K.passed opened.shared.table opened.machines.items }
        ensures agent { IfOk result (λ r. r.0.pool.shared ≡ opened.shared) }
        ensures seats { IfOk result (λ r. AreFreshSeats K.table F.RETURNS K.opening (machine_limit + 1) (map (λ c. c.session.seat) r.1.items)) }
        ensures connections { IfOk result (λ r. (length r.1.items ≡ connection_limit) × All (λ c. c.console ≡ nothing_held) r.1.items) }
        ensures mover { IfOk result (λ r. r.2 ≡ first_mover F.RETURNS K.opening opened.store) }
        ensures refused { IfErr result (λ why. why ≡ OpenAgent.Memory) }
    {
        let Opened {
            shared,
            mut seats,
            mover,
            machines,
            store,
        } = opened;
        let posts = seats.split_off(MACHINE_LIMIT)?;
        let connections = connections_of(alloc, posts)?;
        let mover = Mover::new(alloc, mover, store)?;
        mover.fact();
        let pool = Pool::new(rt, alloc, shared, seats, machines)?;
        Ok((Agent::new(pool), connections, mover))
    }
}
