//! `serve`: shares objects and machines with clients.
ghost use Rattle.std.specs.Prelude.{◌≡◌, ◌&&◌, is_some, ℕ, List, ◌++◌, ◌∷◌, [], None, Some, option_map, IfErr, IfOk, IfSome, OnOk};
ghost use Rattle.world.specs.WorldState.{state_of};
ghost use Rattle.ship_service.specs.Listening.{FindsHere, SaysAs, TellsClosingOf};
ghost use Rattle.agent.specs.ServeLeaves.{IsAddress, IsDoorName, ReportsServe, ReportsService, ServeLeaves, ServesOver, Unconnected};
ghost use Rattle.agent.specs.ServeLeaves.{listen_text, serve_status, serve_text};
ghost use Rattle.agent.specs.declared.servers.serving.ServeFault.{ServeFault};
ghost use Rattle.ship_service.specs.declared.listening.ListenFault.{ListenFault};

use crate::arguments::Serving;
use crate::failure::{ExitStatus, Failure, FailureLine, line_of};
use crate::reporting::say;
use crate::running::do_commands;
use crate::servers::ledger::Ledger;
use crate::servers::noted_stream::NotedStream;
use crate::servers::notes::{Note, Notes};
use far_store::{FarStore, OwnStore, StoreFault};
use far_stream::{Buffered, DeferringStore};
use listener::{Door, NET_FAULT, Name, SocketFile, bind, bind_file, file_name, port_name};
use ship_service::{ListenFault, Plan, listen_over};
use std::alloc::{AllocError, Global};
use std::fs::File;
use std::io::{self, Eprint, Read, Write};
use std::net::{AddrParseError, Net, SocketAddr, TcpListener, TcpStream};
use std::rt::Files;
use std::sync::Wait;
use std::thread::Threads;
use std::time::{Clock, Duration};
use streams::{NO_MEMORY, WRITE_FAULT};
use workers::Upkeep;
use world::World;

/// Why a service ended otherwise than with its connections.
#[derive(Clone, Copy, Drop, Debug, PartialEq, Eq)]
pub enum ServeFault {
    /// The far server's address isn't an IP address and a port.
    Address,
    /// The far server can't be reached.
    Unreachable,
    /// It doesn't answer a first request, as one that has no room for another client.
    Unanswered,
    /// Both a port and a socket file are asked for.
    Doors,
    /// The commands of the input weren't all done.
    Setup(Failure),
    /// The port or the socket file can't be had.
    Bind,
    /// It ended later, for this reason.
    Listen(ListenFault),
}

impl From<AddrParseError> for ServeFault {
    ghost from_gives = { λ _ fault. fault ≡ ServeFault.Address };

    fn from(_refused: AddrParseError) -> ServeFault {
        ServeFault::Address
    }
}

// of a first request: a fault of a later one ends no service
impl From<StoreFault> for ServeFault {
    ghost from_gives = { λ _ fault. fault ≡ ServeFault.Unanswered };

    fn from(_failed: StoreFault) -> ServeFault {
        ServeFault::Unanswered
    }
}

impl From<Failure> for ServeFault {
    ghost from_gives = { λ failure fault. fault ≡ ServeFault.Setup failure };

    fn from(failure: Failure) -> ServeFault {
        ServeFault::Setup(failure)
    }
}

impl From<ListenFault> for ServeFault {
    ghost from_gives = { λ ended fault. fault ≡ ServeFault.Listen ended };

    fn from(ended: ListenFault) -> ServeFault {
        ServeFault::Listen(ended)
    }
}

impl From<AllocError> for ServeFault {
    ghost from_gives = { λ _ fault. fault ≡ ServeFault.Listen ListenFault.Memory };

    fn from(_refused: AllocError) -> ServeFault {
        ServeFault::Listen(ListenFault::Memory)
    }
}

/// The line of an object that isn't here.
fn line_not_here(number: u32) -> FailureLine
    ensures { result.items ≡ listen_text (ListenFault.NotHere number) ++ 10 ∷ [] }
{
    let mut line = FailureLine::new();
    line.put(b"object ");
    line.put_decimal(number);
    line.put(b" isn't here");
    line.end();
    line
}

/// The line of a service that ended otherwise than with its connections.
fn line_of_listening(fault: ListenFault) -> FailureLine
    ensures { result.items ≡ listen_text fault ++ 10 ∷ [] }
{
    match fault {
        ListenFault::NotHere(number) => line_not_here(number),
        ListenFault::Memory => line_of(NO_MEMORY.as_bytes()),
        ListenFault::Net => line_of(NET_FAULT.as_bytes()),
        ListenFault::Write => line_of(WRITE_FAULT.as_bytes()),
    }
}

impl ServeFault {
    /// The status that the program ends with.
    fn status(self) -> ExitStatus
        ensures { result ≡ serve_status self }
    {
        match self {
            ServeFault::Address | ServeFault::Doors => ExitStatus::InvalidArguments,
            ServeFault::Setup(failure) => failure.status(),
            ServeFault::Listen(ListenFault::NotHere(_)) => ExitStatus::Refused,
            ServeFault::Unreachable
            | ServeFault::Unanswered
            | ServeFault::Bind
            | ServeFault::Listen(_) => ExitStatus::Failed,
        }
    }

    /// The line that tells of it.
    fn line(self) -> FailureLine
        ensures { result.items ≡ serve_text self ++ 10 ∷ [] }
    {
        match self {
            ServeFault::Address => line_of(b"error: --far takes an IP address and a port"),
            ServeFault::Doors => line_of(b"error: --unix takes the place of --port"),
            ServeFault::Unreachable => line_of(b"far server can't be reached"),
            ServeFault::Setup(failure) => failure.line(),
            ServeFault::Unanswered | ServeFault::Bind => line_of(NET_FAULT.as_bytes()),
            ServeFault::Listen(fault) => line_of_listening(fault),
        }
    }
}

/// Reports how a service ended, and gives the status. What the stream doesn't take of the line is lost.
fn report_service<E: Write>(outcome: Result<(), ServeFault>, errors: &mut E) -> u8
    ensures { ReportsService (E.contents errors.old) (E.contents errors.new) outcome result }
{
    match outcome {
        Ok(()) => ExitStatus::Done.number(),
        Err(fault) => {
            let _told = say(&fault.line(), errors);
            fault.status().number()
        }
    }
}

/// Where clients come in, what it is called, and its file if it has one.
struct Entrance<'a> {
    door: Door,
    name: Name,
    file: Option<SocketFile<'a>>,
}

/// An entrance at this port of 127.0.0.1, or at any free one where it is 0, of which the notes tell.
fn open_port<'a, R>(rt: &R, port: u16, notes: &Notes<R>) -> io::Result<Entrance<'a>>
where
    R: Net<Listener = TcpListener, Stream = TcpStream> + Clock + Eprint,
    ensures { IfOk result (λ entrance. IsDoorName None entrance.name.items) }
{
    match bind(rt, port) {
        Ok((listener, address)) => {
            notes.write(Note::Listening(address.port()));
            Ok(Entrance {
                door: Door::Port(listener),
                name: port_name(address.port()),
                file: None,
            })
        }
        Err(error) => {
            notes.refused_port(port, &error);
            Err(error)
        }
    }
}

/// An entrance at the socket file of this path, of which the notes tell.
fn open_file<'a, R>(
    rt: &R,
    alloc: Global,
    path: &'a str,
    notes: &Notes<R>,
) -> io::Result<Entrance<'a>>
where
    R: Net + Files<File = File> + Clock + Eprint,
    ensures { IfOk result (λ entrance. IsDoorName (Some path.entry.now) entrance.name.items) }
{
    let name = file_name(path)?;
    match bind_file(rt, alloc, path) {
        Ok((door, file)) => {
            notes.listening_at(path);
            Ok(Entrance {
                door,
                name,
                file: Some(file),
            })
        }
        Err(error) => {
            notes.refused_path(path, &error);
            Err(error)
        }
    }
}

/// An entrance at the socket file of this path, or at the port where there is none.
fn open_entrance<'a, R>(
    rt: &R,
    alloc: Global,
    port: u16,
    unix: Option<&'a str>,
    notes: &Notes<R>,
) -> io::Result<Entrance<'a>>
where
    R: Net<Listener = TcpListener, Stream = TcpStream> + Files<File = File> + Clock + Eprint,
    ensures { IfOk result (λ entrance. IsDoorName (option_map (λ text. text.now) unix.entry) entrance.name.items) }
{
    match unix {
        Some(path) => open_file(rt, alloc, path, notes),
        None => open_port(rt, port, notes),
    }
}

/// Serves this world at an entrance, whose file goes at the end, until all connections have ended. Objects that leave go to this
/// store.
fn listen_at<F: FarStore + Drop + Send + Sync, R, W: Write>(
    rt: &R,
    alloc: Global,
    serving: Serving,
    entrance: Entrance,
    writer: &mut W,
    world: World<OwnStore>,
    store: F,
    far: Option<TcpStream>,
    notes: &Notes<R>,
) -> Result<(), ListenFault>
where
    F::Parcel: Send,
    R: Files + Threads + Wait + Clock + Eprint + Sync,
    ensures says { SaysAs (TellsClosingOf F F.RETURNS (state_of world)) entrance.entry.name.items (W.contents writer.old) (W.contents writer.new) result }
    ensures here { FindsHere world.store.state.places result }
{
    let Entrance { door, name, file } = entrance;
    let plan = Plan {
        connections: serving.connections as usize,
        workers: serving.workers as usize,
        upkeep: Upkeep {
            sweep: serving.sweep,
            keep: u64::from(serving.keep),
        },
    };
    let ledger = Ledger::new(notes);
    let has_far_store = far.is_some();
    let outcome = listen_over(
        rt, alloc, door, &name, writer, world, store, far, plan, &ledger,
    );
    ledger.end(has_far_store);
    if let Some(file) = file {
        file.remove(rt);
    }
    outcome
}

/// Does the commands of the reader, and then those of clients, until all connections have ended. Objects that leave then go to
/// this store, whose stream is cut off then, if it has one.
fn serve_over<F: FarStore + Drop + Send + Sync, R, I: Read, W: Write>(
    rt: &R,
    alloc: Global,
    serving: Serving,
    store: F,
    far: Option<TcpStream>,
    unix: Option<&str>,
    notes: Notes<R>,
    reader: &mut I,
    writer: &mut W,
) -> Result<(), ServeFault>
where
    F::Parcel: Send,
    R: Net<Listener = TcpListener, Stream = TcpStream>
        + Files<File = File>
        + Threads
        + Wait
        + Clock
        + Eprint
        + Copy
        + Send
        + Sync,
    ensures { IfSome (I.remaining reader.old)
        (λ input. ServesOver F F.RETURNS serving.budget (option_map (λ text. text.now) unix.entry) input (W.contents writer.old) (W.contents writer.new)
        (I.remaining reader.new) result) }
{
    let world = do_commands(alloc, serving.budget, reader, writer)?;
    let Ok(entrance) = open_entrance(rt, alloc, serving.port, unix, &notes) else {
        return Err(ServeFault::Bind);
    };
    listen_at(
        rt, alloc, serving, entrance, writer, world, store, far, &notes,
    )?;
    Ok(())
}

/// A stream to this address; connecting, and then each read and each write, takes so long at most.
fn connect_within<R: Net<Listener = TcpListener, Stream = TcpStream>>(
    rt: &R,
    address: SocketAddr,
    longest: Duration,
) -> io::Result<TcpStream> {
    let stream = TcpStream::connect_timeout(rt, &address, longest)?;
    let _ = stream.set_nodelay(true);
    stream.set_read_timeout(Some(longest))?;
    stream.set_write_timeout(Some(longest))?;
    Ok(stream)
}

/// The client of a far server.
type FarClient<R> = DeferringStore<Buffered<NotedStream<R>>>;

/// A store over this stream, whose other end has answered a request.
fn reach<R>(alloc: Global, stream: NotedStream<R>) -> Result<FarClient<R>, ServeFault>
where
    R: Clock + Eprint + Copy,
    ensures { IfErr result (λ fault. (far : List ℕ) → IsAddress far → Unconnected far fault) }
{
    let buffered = Buffered::new(alloc, stream)?;
    let mut store = DeferringStore::new(alloc, buffered);
    store.reach()?;
    Ok(store)
}

/// The far store at a server, of which this is the address, and another handle of its stream, if it can be had. A read or write
/// that takes longer than so many milliseconds breaks the store's stream, as any error of the device does, and so does an answer
/// whose bytes come too slowly.
fn connect<R>(
    rt: &R,
    alloc: Global,
    far: &str,
    timeout: u32,
    notes: Notes<R>,
) -> Result<(FarClient<R>, Option<TcpStream>), ServeFault>
where
    R: Net<Listener = TcpListener, Stream = TcpStream> + Clock + Eprint + Copy,
    ensures ok { OnOk result (IsAddress far.now) }
    ensures err { IfErr result (Unconnected far.now) }
{
    let address = far.parse::<SocketAddr>()?;
    let longest = Duration::from_millis(u64::from(timeout));
    match connect_within(rt, address, longest) {
        Ok(stream) => {
            notes.write(Note::Connected(address));
            let handle = stream.try_clone().ok();
            let store = reach(alloc, NotedStream::new(*rt, stream, longest, notes))?;
            Ok((store, handle))
        }
        Err(error) => {
            notes.unreached(address, &error);
            Err(ServeFault::Unreachable)
        }
    }
}

/// Whether both a port and a socket file are asked for.
fn is_twofold(serving: Serving, unix: Option<&str>) -> bool
    ensures { result ≡ (serving.has_port && is_some unix.entry) }
{
    serving.has_port && unix.is_some()
}

/// Serves over the far server of this address, or over a store of this process where there is none. Reads nothing if both a port
/// and a socket file are asked for.
fn serve_with<R, I: Read, W: Write>(
    rt: &R,
    alloc: Global,
    serving: Serving,
    far: Option<&str>,
    unix: Option<&str>,
    reader: &mut I,
    writer: &mut W,
) -> Result<(), ServeFault>
where
    R: Net<Listener = TcpListener, Stream = TcpStream>
        + Files<File = File>
        + Threads
        + Wait
        + Clock
        + Eprint
        + Copy
        + Send
        + Sync,
    ensures { IfSome (I.remaining reader.old)
        (λ input. ServeLeaves serving (option_map (λ text. text.now) far.entry) (option_map (λ text. text.now) unix.entry) input
        (W.contents writer.old) (W.contents writer.new) (I.remaining reader.new) result) }
{
    if is_twofold(serving, unix) {
        return Err(ServeFault::Doors);
    }
    let notes = Notes::new(*rt, serving.verbose);
    let Some(address) = far else {
        let store = OwnStore::new(alloc);
        return serve_over(rt, alloc, serving, store, None, unix, notes, reader, writer);
    };
    let (store, far) = connect(rt, alloc, address, serving.far_timeout, notes)?;
    serve_over(rt, alloc, serving, store, far, unix, notes, reader, writer)
}

/// Connects to the far server of this address, `HOST:PORT`, if one is given: objects that leave go there, and stay in this
/// process without one. It has to answer a first request. Connecting, and each read and write of that stream, is bounded by the far
/// time-out. Then does the commands of the reader to its end, as [`run`](crate::run) does, and writes their replies. Then listens at
/// the socket file of the path, if one is given, or else on the port of 127.0.0.1, or on any free one where it is 0; says which on
/// the writer, and shares the objects and machines that there are with as many connections as are asked for. Gives the exit status
/// when all have ended; the socket file is removed then. With `verbose` what happens is written to the runtime's standard error,
/// beside what is told on `errors`.
///
/// What went wrong is told on `errors`: a port and a path that are both given, an address that isn't an IP address and a port, a far
/// server that can't be reached or doesn't answer, the first of a reader or a writer that failed in the input's commands, a port or
/// a file that can't be had, an object that isn't here, and then whatever came first. Without its far server nothing is read.
pub fn run_service<R, I: Read, W: Write, E: Write>(
    rt: &R,
    alloc: Global,
    serving: Serving,
    far: Option<&str>,
    unix: Option<&str>,
    reader: &mut I,
    writer: &mut W,
    errors: &mut E,
) -> u8
where
    R: Net<Listener = TcpListener, Stream = TcpStream>
        + Files<File = File>
        + Threads
        + Wait
        + Clock
        + Eprint
        + Copy
        + Send
        + Sync,
    ensures { IfSome (I.remaining reader.old)
        (λ input. ReportsServe (ServeLeaves serving (option_map (λ text. text.now) far.entry) (option_map (λ text. text.now) unix.entry) input
        (W.contents writer.old) (W.contents writer.new) (I.remaining reader.new)) (E.contents errors.old) (E.contents errors.new) result) }
{
    let outcome = serve_with(rt, alloc, serving, far, unix, reader, writer);
    report_service(outcome, errors)
}
