//! What servers write to standard error: a line each, with `-v` after the time.

use crate::servers::ledger::Moves;
use crate::servers::moment::Moment;
use console::DriveFault;
use far_server::{CLIENT_LIMIT, Journal, Refusal, ServerEvent};
use far_store::StoreFault;
use far_stream::StreamFault;
use ship_service::Tally;
use std::fmt::{self, Display, Formatter};
use std::io::{Eprint, Error, ErrorKind};
use std::net::SocketAddr;
use std::time::Clock;

/// Linux' numbers of the errors for want of memory and of descriptors.
const ENOMEM: i32 = 12;

const ENFILE: i32 = 23;

const EMFILE: i32 = 24;

const ENOBUFS: i32 = 105;

/// Something that whoever runs a server has to know.
#[derive(Clone, Copy, Drop, Debug, PartialEq, Eq)]
pub(crate) enum Note {
    Listening(u16),
    PortTaken(u16),
    PortRefused(u16),
    Came(u64),
    Went(u64),
    GivenUp(u64, StreamFault),
    Unheard(u64, DriveFault),
    TooMany,
    NoThread,
    Short(Option<i32>),
    Connected(SocketAddr),
    Unanswered(SocketAddr),
    Unreached(SocketAddr),
    Broken(ErrorKind),
    Left(u32),
    Held(u32),
    Stayed(u32, StoreFault),
    Returned(u32),
    StayedFar(u32, StoreFault),
    Kept(Tally, Tally, Moves),
    Dropped(Tally),
    Lost(Tally),
}

/// Why the stream of a far server broke.
fn reason_of(kind: ErrorKind) -> &'static str {
    match kind {
        ErrorKind::TimedOut | ErrorKind::WouldBlock => "no answer in time",
        ErrorKind::ConnectionReset => "connection reset",
        ErrorKind::ConnectionAborted => "connection aborted",
        ErrorKind::BrokenPipe | ErrorKind::NotConnected => "broken pipe",
        ErrorKind::UnexpectedEof => "connection closed",
        _ => "device error",
    }
}

/// Why no client can be accepted, by Linux' number of the error.
fn shortage_of(code: Option<i32>) -> &'static str {
    match code {
        Some(ENFILE | EMFILE) => "no descriptor is left",
        Some(ENOMEM | ENOBUFS) => "no memory",
        _ => "device error",
    }
}

/// The ending of the word for so many.
pub(crate) fn ending_of(count: u64) -> &'static str {
    if count == 1 { "" } else { "s" }
}

/// So many objects and their bytes, as they are written.
#[derive(Clone, Copy, Drop, Debug, PartialEq, Eq)]
struct Counted(Tally);

impl Display for Counted {
    fn fmt<W: fmt::Write>(&self, f: &mut Formatter<W>) -> fmt::Result {
        let Counted(Tally { objects, bytes }) = *self;
        let (object, byte) = (ending_of(objects), ending_of(bytes));
        write!(f, "{objects} object{object} of {bytes} byte{byte}")
    }
}

impl Display for Note {
    fn fmt<W: fmt::Write>(&self, f: &mut Formatter<W>) -> fmt::Result {
        match self {
            Note::Listening(port) => write!(f, "listening on 127.0.0.1:{port}"),
            Note::PortTaken(port) => write!(f, "port {port} is taken"),
            Note::PortRefused(port) => write!(f, "port {port} can't be listened on"),
            Note::Came(client) => write!(f, "client {client} came"),
            Note::Went(client) => write!(f, "client {client} went"),
            Note::GivenUp(client, fault) => write!(f, "client {client} is given up: {fault}"),
            Note::Unheard(client, fault) => write!(f, "client {client} is given up: {fault}"),
            Note::TooMany => write!(f, "a client is refused: {CLIENT_LIMIT} are served"),
            Note::NoThread => write!(f, "a client is refused: no thread can be made"),
            Note::Short(code) => {
                let reason = shortage_of(*code);
                write!(f, "clients wait to be accepted: {reason}")
            }
            Note::Connected(far) => write!(f, "connected to the far server {far}"),
            Note::Unanswered(far) => write!(f, "the far server {far} doesn't answer in time"),
            Note::Unreached(far) => write!(f, "the far server {far} can't be reached"),
            Note::Broken(kind) => {
                let reason = reason_of(*kind);
                write!(f, "the stream of the far server broke: {reason}")
            }
            Note::Left(object) => write!(f, "object {object} left"),
            Note::Held(object) => write!(f, "object {object} couldn't leave: it is in use"),
            Note::Stayed(object, fault) => write!(f, "object {object} couldn't leave: {fault}"),
            Note::Returned(object) => write!(f, "object {object} returned"),
            Note::StayedFar(object, fault) => {
                write!(f, "object {object} couldn't return: {fault}")
            }
            Note::Kept(here, far, moves) => {
                let (here, far) = (Counted(*here), Counted(*far));
                write!(f, "the service ends: {here} here, {far} far; {moves}")
            }
            Note::Dropped(far) => {
                let are = if far.objects == 1 { "is" } else { "are" };
                let far = Counted(*far);
                write!(
                    f,
                    "{far} {are} far at the end, and dropped by the far store"
                )
            }
            Note::Lost(far) => {
                let are = if far.objects == 1 { "is" } else { "are" };
                let far = Counted(*far);
                write!(f, "{far} {are} far at the end, and lost with this process")
            }
        }
    }
}

/// Writes what happens to the runtime's standard error, if that is asked for.
#[derive(Clone, Copy)]
pub(crate) struct Notes<R> {
    rt: R,
    is_written: bool,
}

impl<R: Clock + Eprint> Notes<R> {
    pub fn new(rt: R, is_written: bool) -> Self {
        Notes { rt, is_written }
    }

    /// Writes a line. What standard error doesn't take of it is lost.
    pub fn write(&self, note: Note) {
        if self.is_written {
            let now = Moment::now(&self.rt);
            let _ = eprintln!(self.rt; "{now} {note}");
        }
    }

    /// Writes a line also if none was asked for, and then without the time.
    pub fn say(&self, note: Note) {
        if self.is_written {
            self.write(note);
        } else {
            let _ = eprintln!(self.rt; "{note}");
        }
    }

    /// A line that begins so, and then has the path of a socket file.
    fn write_path(&self, text: &str, path: &str) {
        if self.is_written {
            let now = Moment::now(&self.rt);
            let _ = eprintln!(self.rt; "{now} {text} {path}");
        }
    }

    /// The clock by which lines have their times, if any are written.
    pub fn clock(&self) -> Option<&R> {
        if self.is_written {
            Some(&self.rt)
        } else {
            None
        }
    }

    /// This port can't be listened on.
    pub fn refused_port(&self, port: u16, error: &Error) {
        self.write(match error.kind() {
            ErrorKind::AddrInUse => Note::PortTaken(port),
            _ => Note::PortRefused(port),
        });
    }

    /// The socket file of this path is listened at.
    pub fn listening_at(&self, path: &str) {
        self.write_path("listening at", path);
    }

    /// The socket file of this path can't be had.
    pub fn refused_path(&self, path: &str, error: &Error) {
        self.write_path(
            match error.kind() {
                ErrorKind::AddrInUse | ErrorKind::WouldBlock => "somebody listens at",
                _ => "no socket can be made at",
            },
            path,
        );
    }

    /// The far server at this address can't be connected to.
    pub fn unreached(&self, far: SocketAddr, error: &Error) {
        self.write(match error.kind() {
            ErrorKind::TimedOut => Note::Unanswered(far),
            _ => Note::Unreached(far),
        });
    }
}

impl<R: Clock + Eprint> Journal<ServerEvent> for Notes<R> {
    fn note(&self, event: ServerEvent) {
        match event {
            ServerEvent::PortRefused(port, error) => self.refused_port(port, &error),
            ServerEvent::Listening(port) => self.write(Note::Listening(port)),
            ServerEvent::Came(client) => self.write(Note::Came(client)),
            ServerEvent::Went(client, Ok(())) => self.write(Note::Went(client)),
            ServerEvent::Went(client, Err(fault)) => self.write(Note::GivenUp(client, fault)),
            ServerEvent::Refused(Refusal::TooMany) => self.write(Note::TooMany),
            ServerEvent::Refused(Refusal::NoThread) => self.write(Note::NoThread),
            ServerEvent::Short(error) => self.write(Note::Short(error.raw_os_error())),
        }
    }
}
