//! The threads of a server: one that waits for the end of the input, one that waits for clients, and one for each client.
ghost use Rattle.std.specs.Prelude.{OnOk};
ghost use Rattle.std.specs.Io.KnownBytes.{IsAtEnd};

use crate::clients::{Admission, Clients};
use crate::ended::ClientEnd;
use crate::journal::{Refusal, ServerEvent};
use crate::limits::Limits;
use crossbeam_channel::{Receiver, Sender, bounded};
use listener::{Bell, Journal, Shortage, accept_or_rest};
use std::alloc::{AllocError, Global};
use std::io::Read;
use std::net::{TcpListener, TcpStream};
use std::sync::{Arc, Wait};
use std::thread::{self, JoinHandle, Threads};
use streams::ReadFault;

/// The network failed.
#[derive(Clone, Copy, Drop, Debug, PartialEq, Eq)]
pub(crate) struct NetFault;

/// How many bytes of the input are read at once.
const PIECE: usize = 512;

/// How many ends of clients may wait to be told.
const UNTOLD_LIMIT: usize = 64;

/// Reads the input to its end, and drops it.
fn drain<I: Read>(input: &mut I) -> Result<(), ReadFault>
    ensures { OnOk result (IsAtEnd (I.remaining input.new)) }
{
    let mut piece = [0u8; PIECE];
    for _ in 0..u64::MAX {
        match input.read(&mut piece) {
            Ok(0) => return Ok(()),
            Ok(_) => {}
            Err(_) => return Err(ReadFault),
        }
    }
    Err(ReadFault)
}

/// Waits for the end of the input, and lets no more clients in.
fn watch<R: Wait, I: Read + Drop>(rt: &R, clients: &Clients, input: I) -> Result<(), ReadFault> {
    let mut input = input;
    let outcome = drain(&mut input);
    clients.close(rt);
    outcome
}

/// What the threads of clients share.
#[derive(Drop)]
struct Tools<'a, R: Wait, J: Journal<ServerEvent>> {
    rt: &'a R,
    alloc: Global,
    clients: &'a Clients,
    ends: &'a Sender<ClientEnd, Global>,
    journal: &'a J,
}

impl<'a, R: Wait, J: Journal<ServerEvent>> Journal<Shortage> for Tools<'a, R, J> {
    fn note(&self, shortage: Shortage) {
        let Shortage(error) = shortage;
        self.journal.note(ServerEvent::Short(error));
    }
}

/// Serves a client, and hands on how that ended, unless it was cut off by the end of the input.
fn serve_client<R: Wait, J: Journal<ServerEvent>>(
    tools: &Tools<R, J>,
    client: u64,
    stream: TcpStream,
) {
    let mut stream = stream;
    tools.clients.bound(&stream);
    let ended = ClientEnd::of_client(tools.alloc, client, &mut stream, tools.clients.budget());
    tools
        .journal
        .note(ServerEvent::Went(client, ended.outcome()));
    if tools.clients.is_open(tools.rt) {
        let _ = tools.ends.send(tools.rt, ended);
    }
    tools.clients.dismiss(tools.rt, client);
}

/// The next client that is let in, and its number; none where the input has ended. One for which there is no room finds its
/// socket closed.
fn next_client<R: Wait, J: Journal<ServerEvent>>(
    tools: &Tools<R, J>,
    listener: &TcpListener,
) -> Result<Option<(u64, TcpStream)>, NetFault> {
    for _ in tools.rt.forever() {
        let Ok(accepted) = accept_or_rest(tools.rt, listener, tools.clients.bell(), tools) else {
            return Err(NetFault);
        };
        let Some((stream, shown)) = accepted else {
            return Ok(None);
        };
        match tools.clients.admit(tools.rt, shown) {
            Admission::Admitted(client) => {
                tools.journal.note(ServerEvent::Came(client));
                return Ok(Some((client, stream)));
            }
            Admission::Full => tools.journal.note(ServerEvent::Refused(Refusal::TooMany)),
            Admission::Closed => return Ok(None),
        }
    }
    unreachable!()
}

/// Serves each client that comes on a thread of its own, until the input has ended and all have gone. One for which no thread
/// can be made finds its socket closed. If the listener is broken, those that are there are cut off.
fn serve_clients<R: Threads + Wait + Sync, J: Journal<ServerEvent> + Sync>(
    tools: &Tools<R, J>,
    listener: &TcpListener,
) -> Result<(), NetFault> {
    thread::scope(
        thread::scope_env(),
        tools.rt,
        |scope| -> Result<(), NetFault> {
            for _ in 0..u64::MAX {
                let Ok(next) = next_client(tools, listener) else {
                    tools.clients.close(tools.rt);
                    return Err(NetFault);
                };
                let Some((client, stream)) = next else {
                    return Ok(());
                };
                if scope
                    .spawn(move || serve_client(tools, client, stream))
                    .is_err()
                {
                    tools.clients.dismiss(tools.rt, client);
                    tools.journal.note(ServerEvent::Refused(Refusal::NoThread));
                }
            }
            Err(NetFault)
        },
    )
}

/// Serves all clients. What it was given is dropped when the last has gone.
fn host<R: Threads + Wait + Sync + Copy, J: Journal<ServerEvent> + Sync + Copy>(
    rt: R,
    alloc: Global,
    clients: Arc<Clients>,
    listener: TcpListener,
    ends: Sender<ClientEnd, Global>,
    journal: J,
) -> Result<(), NetFault> {
    let tools = Tools {
        rt: &rt,
        alloc,
        clients: &clients,
        ends: &ends,
        journal: &journal,
    };
    serve_clients(&tools, &listener)
}

/// A server whose threads were made.
#[derive(Drop)]
pub(crate) struct Server {
    clients: Arc<Clients>,
    host: JoinHandle<Result<(), NetFault>>,
    /// How clients ended, one after the other, until the last has gone.
    pub ends: Receiver<ClientEnd, Global>,
}

impl Server {
    /// Starts to serve all clients that come to this listener, until its bell rings.
    pub fn start<R, J>(
        rt: R,
        alloc: Global,
        listener: TcpListener,
        bell: Bell,
        limits: Limits,
        journal: J,
    ) -> Result<Server, AllocError>
    where
        R: Threads + Wait + Sync + Copy + Send + 'static,
        J: Journal<ServerEvent> + Copy + Sync + Send + 'static,
    {
        let clients = Arc::new(alloc, Clients::new(alloc, bell, limits)?)?;
        let theirs = Arc::try_clone(&clients)?;
        let (sender, ends) = bounded(alloc, UNTOLD_LIMIT)?;
        let host = thread::spawn(&rt, move || {
            host(rt, alloc, theirs, listener, sender, journal)
        })?;
        Ok(Server {
            clients,
            host,
            ends,
        })
    }

    /// Starts to wait for the end of the input, which ends the server.
    pub fn end_with<R, I>(
        &self,
        rt: R,
        input: I,
    ) -> Result<JoinHandle<Result<(), ReadFault>>, AllocError>
    where
        R: Threads + Wait + Copy + Send + 'static,
        I: Read + Send + Drop + 'static,
    {
        let theirs = Arc::try_clone(&self.clients)?;
        Ok(thread::spawn(&rt, move || { watch(&rt, &theirs, input) })?)
    }

    /// Cuts off all clients, and waits for the threads that served them.
    pub fn stop<R: Threads + Wait>(self, rt: &R) {
        self.clients.close(rt);
        let _ = self.join(rt);
    }

    /// Waits for the end of all clients.
    pub fn join<R: Threads>(self, rt: &R) -> Result<(), NetFault> {
        let Server { host, .. } = self;
        host.join(rt)
    }
}
