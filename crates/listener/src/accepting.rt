//! Accepting clients.
ghost use Rattle.std.specs.Prelude.{◌≡◌, true, false, IfErr};
ghost use Rattle.std.specs.IoError.{error_kind};
ghost use Rattle.listener.specs.Accepting.{GivesUp, IsBroken, Passes};

use crate::bell::Bell;
use crate::door::Accepts;
use crate::journal::{Journal, Shortage};
use crate::patience::Patience;
use std::io::{self, Error, ErrorKind};
use std::net::{TcpListener, TcpStream};
use std::sync::Wait;

/// Linux' numbers of the errors that mean that nobody can wait for a client at this listener.
const EBADF: i32 = 9;

const EAGAIN: i32 = 11;

const EINVAL: i32 = 22;

const ENOTSOCK: i32 = 88;

/// Whether a client went before it was accepted, or a signal came: the next may be accepted.
fn is_passing(error: &Error) -> bool
    ensures passes { result ≡ true → Passes (error_kind error.now) }
    ensures stays { result ≡ false → ¬ (Passes (error_kind error.now)) }
{
    matches!(
        error.kind(),
        ErrorKind::ConnectionAborted | ErrorKind::Interrupted
    )
}

/// The next client's stream.
fn next_stream<R: Wait, D: Accepts>(rt: &R, door: &D) -> io::Result<TcpStream>
    ensures { IfErr result (λ error. ¬ (Passes (error_kind error))) }
{
    for _ in rt.forever() {
        match door.next_client() {
            Ok(stream) => return Ok(stream),
            Err(error) if is_passing(&error) => {}
            Err(error) => return Err(error),
        }
    }
    unreachable!()
}

/// The next client's stream, twice: one to be served, and one by which it can be cut off. A client that went before it was
/// accepted is passed over.
pub fn accept<R: Wait, D: Accepts>(rt: &R, door: &D) -> io::Result<(TcpStream, TcpStream)> {
    let stream = next_stream(rt, door)?;
    let shown = stream.try_clone()?;
    Ok((stream, shown))
}

/// Whether the listener is broken: it isn't open, doesn't wait for clients, doesn't listen any more, or is no socket.
fn is_broken(error: &Error) -> bool
    ensures broken { result ≡ true → IsBroken error.now }
    ensures whole { result ≡ false → ¬ (IsBroken error.now) }
{
    match error.raw_os_error() {
        Some(code) => code == EBADF || code == EAGAIN || code == EINVAL || code == ENOTSOCK,
        None => false,
    }
}

/// The next client's stream; none if the bell has rung. After an error that neither passes at once nor means that the listener is
/// broken, this thread rests and tries again.
fn next_stream_or_rest<R: Wait, J: Journal<Shortage>>(
    rt: &R,
    listener: &TcpListener,
    bell: &Bell,
    journal: &J,
    patience: &mut Patience,
) -> io::Result<Option<TcpStream>>
    ensures { IfErr result GivesUp }
{
    for _ in rt.forever() {
        match next_stream(rt, listener) {
            Ok(stream) => return Ok(Some(stream)),
            Err(error) if is_broken(&error) => {
                return if bell.has_rung() {
                    Ok(None)
                } else {
                    Err(error)
                };
            }
            Err(error) => {
                if !patience.rest(rt, bell, journal, error) {
                    return Ok(None);
                }
            }
        }
    }
    unreachable!()
}

/// A second handle of a client's stream; none if the bell has rung. This thread rests and tries again until it has one.
fn second_or_rest<R: Wait, J: Journal<Shortage>>(
    rt: &R,
    stream: &TcpStream,
    bell: &Bell,
    journal: &J,
    patience: &mut Patience,
) -> Option<TcpStream> {
    for _ in rt.forever() {
        match stream.try_clone() {
            Ok(shown) => return Some(shown),
            Err(error) => {
                if !patience.rest(rt, bell, journal, error) {
                    return None;
                }
            }
        }
    }
    unreachable!()
}

/// The same as [`accept`], but a client that can't be accepted for now waits; none if the bell has rung.
///
/// If a client can't be accepted for want of descriptors or of memory, or for any other reason that isn't the listener's own, this
/// thread tells the journal and rests: for 10 ms, doubled for each try that fails up to a second. Meanwhile clients wait in the
/// system's queue. It tries until one is accepted or the bell rings. An error means that the listener is broken.
pub fn accept_or_rest<R: Wait, J: Journal<Shortage>>(
    rt: &R,
    listener: &TcpListener,
    bell: &Bell,
    journal: &J,
) -> io::Result<Option<(TcpStream, TcpStream)>>
    ensures { IfErr result GivesUp }
{
    let mut patience = Patience::new();
    let stream = match next_stream_or_rest(rt, listener, bell, journal, &mut patience) {
        Ok(Some(stream)) => stream,
        Ok(None) => return Ok(None),
        Err(error) => return Err(error),
    };
    match second_or_rest(rt, &stream, bell, journal, &mut patience) {
        Some(shown) => Ok(Some((stream, shown))),
        None => Ok(None),
    }
}
