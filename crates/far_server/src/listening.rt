//! A server that listens, until the input ends.
ghost use Rattle.std.specs.Prelude.{OnErr, OnOk};
ghost use Rattle.std.specs.Io.KnownBytes.{Appends};
ghost use Rattle.streams.specs.Streams.{AppendsPart};
ghost use Rattle.far_server.specs.Announced.{Announces, AnnouncesAs};
ghost use Rattle.far_server.specs.Told.{Tells};

use crate::ended::ClientEnd;
use crate::fault::ServerFault;
use crate::journal::ServerEvent;
use crate::limits::Limits;
use crate::threads::Server;
use crossbeam_channel::Receiver;
use listener::{Bell, Journal, announce, bind};
use std::alloc::Global;
use std::io::{self, Read, Write};
use std::net::{Net, SocketAddr, TcpListener, TcpStream};
use std::sync::Wait;
use std::thread::Threads;
use streams::{ReadFault, WriteFault};

/// Says which port is listened on: the one that was asked for, or the bound one where that was 0.
fn announce_asked<W: Write>(asked: u16, bound: u16, writer: &mut W) -> Result<(), WriteFault>
    ensures ok { OnOk result (Announces asked (Appends (W.contents writer.old) (W.contents writer.new))) }
    ensures err { OnErr result (Announces asked (AppendsPart (W.contents writer.old) (W.contents writer.new))) }
{
    let port = if asked == 0 { bound } else { asked };
    announce(port, writer)
}

/// A listener on this port, its address, and its bell.
fn bind_with_bell<R: Net<Listener = TcpListener, Stream = TcpStream>>(
    rt: &R,
    port: u16,
) -> io::Result<(TcpListener, SocketAddr, Bell)> {
    let (listener, address) = bind(rt, port)?;
    let bell = Bell::of(&listener)?;
    Ok((listener, address, bell))
}

/// Says why clients were given up, as they end, until the last has gone.
fn tell_all<R: Wait, E: Write>(rt: &R, ends: &Receiver<ClientEnd, Global>, errors: &mut E)
    ensures { Tells (E.contents errors.old) (E.contents errors.new) }
{
    for _ in rt.forever() {
        match ends.recv(rt) {
            Ok(ended) => ended.tell(errors),
            Err(_) => return,
        }
    }
    unreachable!()
}

/// Listens on this port of 127.0.0.1, or on any free one where it is 0, says which on the writer, and serves clients until the
/// input ends: [`CLIENT_LIMIT`](crate::CLIENT_LIMIT) at the same time, each on a thread of its own and from a store of its own
/// that is empty at first. One more finds its socket closed. Who is served when the input ends is cut off. A client that can't be
/// accepted for now, for want of descriptors or memory, waits in the system's queue, and
/// [`accept_or_rest`](listener::accept_or_rest) says when it is tried again. Only a listener that is broken ends the server before
/// its input does. A client that goes beyond the limits is given up, or finds no room.
///
/// Why a client was given up is told on `errors`, in the order in which they end, by its number: clients are numbered from 1
/// as they are let in. What a client sends and is sent is `serve_store`'s; of a socket's bytes no clause can speak.
#[tactic(auto, using(crate::proofs::Telling::nothing_told))]
pub fn run_server<R, I, W: Write, E: Write, J>(
    rt: &R,
    alloc: Global,
    port: u16,
    input: I,
    writer: &mut W,
    errors: &mut E,
    limits: Limits,
    journal: J,
) -> Result<(), ServerFault>
where
    R: Net<Listener = TcpListener, Stream = TcpStream>
        + Threads
        + Wait
        + Sync
        + Copy
        + Send
        + 'static,
    I: Read + Send + Drop + 'static,
    J: Journal<ServerEvent> + Copy + Sync + Send + 'static,
    ensures announced { AnnouncesAs port (W.contents writer.old) (W.contents writer.new) result }
    ensures told { Tells (E.contents errors.old) (E.contents errors.new) }
{
    let (listener, address, bell) = match bind_with_bell(rt, port) {
        Ok(bound) => bound,
        Err(error) => {
            journal.note(ServerEvent::PortRefused(port, error));
            return Err(ServerFault::Net);
        }
    };
    let Ok(server) = Server::start(*rt, alloc, listener, bell, limits, journal) else {
        return Err(ServerFault::NoMemory);
    };
    let Ok(watcher) = server.end_with(*rt, input) else {
        server.stop(rt);
        return Err(ServerFault::NoMemory);
    };
    journal.note(ServerEvent::Listening(address.port()));
    if announce_asked(port, address.port(), writer).is_err() {
        server.stop(rt);
        return Err(ServerFault::Write);
    }
    tell_all(rt, &server.ends, errors);
    if server.join(rt).is_err() {
        return Err(ServerFault::Net);
    }
    match watcher.join(rt) {
        Ok(()) => Ok(()),
        Err(ReadFault) => Err(ServerFault::Read),
    }
}
