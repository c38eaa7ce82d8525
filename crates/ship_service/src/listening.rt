//! A service that listens.
ghost use Rattle.std.specs.Prelude.{◌≡◌, ◌+◌, length};
ghost use Rattle.scopes.specs.Windows.{machine_limit};
ghost use Rattle.world.specs.WorldState.{state_of};
ghost use Rattle.ship_service.specs.declared.listening.ListenFault.{ListenFault};
ghost use Rattle.ship_service.specs.Listening.{FindsHere, OpensAll, SaysAs, SaysAtPort, SaysClosing, TellsClosing, TellsClosingOf, of_opening, of_threads};
ghost use Rattle.ship_service.specs.Opening.{IsNamed};

use crate::closing_lines::write_closing_lines;
use crate::journal::ServiceEvent;
use crate::opened::{OpenAgent, Opened};
use crate::shared_agent::Agent;
use crate::texts::closed_line;
use crate::threads::{Ended, Plan, ThreadFault, serve_all};
use far_store::FarStore;
use listener::{Door, Journal, NET_FAULT, Name, Unwritten, announce_at, port_name};
use std::alloc::{AllocError, Global};
use std::io::Write;
use std::marker::Brand;
use std::net::{TcpListener, TcpStream};
use std::sync::Wait;
use std::thread::Threads;
use streams::{NO_MEMORY, WRITE_FAULT, WriteFault, put_all};
use thiserror::Error;
use workers::{TableName, Upkeep};
use world::World;

/// Why a service ended otherwise than with its connections.
#[derive(Clone, Copy, Drop, Debug, PartialEq, Eq, Error)]
pub enum ListenFault {
    /// The object of this number isn't here, the least one.
    #[error("object {0} isn't here")]
    NotHere(u32),
    /// Out of memory, or a thread can't be made.
    #[error("{NO_MEMORY}")]
    Memory,
    /// A connection can't be accepted.
    #[error("{NET_FAULT}")]
    Net,
    /// The output failed.
    #[error("{WRITE_FAULT}")]
    Write,
}

impl From<OpenAgent> for ListenFault {
    ghost from_gives = { λ why fault. fault ≡ of_opening why };

    fn from(why: OpenAgent) -> ListenFault {
        match why {
            OpenAgent::NotHere(number) => ListenFault::NotHere(number),
            OpenAgent::Memory => ListenFault::Memory,
        }
    }
}

impl From<ThreadFault> for ListenFault {
    ghost from_gives = { λ ended fault. fault ≡ of_threads ended };

    fn from(ended: ThreadFault) -> ListenFault {
        match ended {
            ThreadFault::Net => ListenFault::Net,
            ThreadFault::Memory => ListenFault::Memory,
        }
    }
}

impl From<AllocError> for ListenFault {
    ghost from_gives = { λ _ fault. fault ≡ ListenFault.Memory };

    fn from(_refused: AllocError) -> ListenFault {
        ListenFault::Memory
    }
}

impl From<WriteFault> for ListenFault {
    ghost from_gives = { λ _ fault. fault ≡ ListenFault.Write };

    fn from(_failed: WriteFault) -> ListenFault {
        ListenFault::Write
    }
}

/// Closes with all its connections, and says what is left.
fn close<F: FarStore + Drop, K: TableName, W: Write, J: Journal<ServiceEvent>>(
    alloc: Global,
    journal: &J,
    writer: &mut W,
    agent: Agent<F, K>,
    ended: Ended<F, K>,
) -> Result<(), ListenFault>
    requires all { K.seats ≡ machine_limit + length ended.connections.items }
    ensures { SaysClosing (TellsClosing F F.RETURNS K.table K.opening K.starts K.passed) (W.contents writer.old) (W.contents writer.new) result }
{
    let closed = ended.close(alloc, agent)?;
    closed.tell(journal);
    put_all(writer, closed_line())?;
    write_closing_lines(writer, &closed)?;
    Ok(())
}

/// Serves all connections of what was opened, and closes with what their threads and the mover's left.
fn listen_opened<
    F: FarStore + Drop + Send + Sync,
    K: TableName + Send + Sync,
    W: Write,
    R: Threads + Wait + Sync,
    J: Journal<ServiceEvent> + Sync,
>(
    rt: &R,
    alloc: Global,
    door: Door,
    name: &Name,
    writer: &mut W,
    opened: Opened<F>,
    far: Option<TcpStream>,
    plan: Plan,
    journal: &J,
) -> Result<(), ListenFault>
where
    F::Parcel: Send,
    requires { IsNamed K.table K.opening K.starts K.seats K.passed opened.shared.table opened.machines.items }
    ensures says { SaysAs (TellsClosing F F.RETURNS K.table K.opening K.starts K.passed) name.now.items (W.contents writer.old) (W.contents writer.new) result }
    ensures here { OpensAll result }
{
    let (agent, connections, mover) = Agent::<F, K>::open(rt, alloc, opened)?;
    announce_at(name, writer)?;
    let ended = serve_all(
        rt,
        alloc,
        &agent,
        connections,
        mover,
        door,
        far,
        plan,
        journal,
    )?;
    close(alloc, journal, writer, agent, ended)
}

/// Shares the objects and machines of a world, which all have to be here, with so many connections, at most eight, on a
/// listener that was bound: says on the writer which port it listens on, serves each connection on a thread of its own
/// beside so many workers and a mover, and when all have ended closes and says what is left: a line for each object, in order,
/// and then the `regs` line of each machine. The mover takes objects away of its own accord as `upkeep` says.
///
/// What goes wrong with a connection ends that connection alone. Where one can't be accepted or a thread can't be made,
/// connections, workers and mover end first.
pub fn listen<F: FarStore + Drop + Send + Sync, W: Write, R: Threads + Wait + Sync>(
    rt: &R,
    alloc: Global,
    listener: TcpListener,
    writer: &mut W,
    world: World<F>,
    connections: usize,
    workers: usize,
    upkeep: Upkeep,
) -> Result<(), ListenFault>
where
    F::Parcel: Send,
    ensures says { SaysAtPort (TellsClosingOf F F.RETURNS (state_of world)) (W.contents writer.old) (W.contents writer.new) result }
    ensures here { FindsHere world.store.state.places result }
{
    let opened = Opened::new(alloc, world)?;
    let plan = Plan {
        connections,
        workers,
        upkeep,
    };
    let Ok(address) = listener.local_addr() else {
        return Err(ListenFault::Net);
    };
    let name = port_name(address.port());
    let door = Door::Port(listener);
    listen_opened::<F, Brand, W, R, Unwritten>(
        rt, alloc, door, &name, writer, opened, None, plan, &Unwritten,
    )
}

/// The same at a door, whose name is said, and over another far store than the world's, which is dropped: objects that leave go to
/// this one. If it has a stream, `far` is another handle of that: it is shut down with the last connection, so that no move keeps the
/// service from ending. The journal is told of clients, of moves and of what is left.
pub fn listen_over<
    F: FarStore + Drop,
    S: FarStore + Drop + Send + Sync,
    W: Write,
    R: Threads + Wait + Sync,
    J: Journal<ServiceEvent> + Sync,
>(
    rt: &R,
    alloc: Global,
    door: Door,
    name: &Name,
    writer: &mut W,
    world: World<F>,
    store: S,
    far: Option<TcpStream>,
    plan: Plan,
    journal: &J,
) -> Result<(), ListenFault>
where
    S::Parcel: Send,
    ensures says { SaysAs (TellsClosingOf S S.RETURNS (state_of world)) name.now.items (W.contents writer.old) (W.contents writer.new) result }
    ensures here { FindsHere world.store.state.places result }
{
    let opened = Opened::over(alloc, world, store)?;
    listen_opened::<S, Brand, W, R, J>(rt, alloc, door, name, writer, opened, far, plan, journal)
}
