//! `store`: keeps what clients send away.
ghost use Rattle.agent.specs.StoreLeaves.{ReportsServer, StoreLeaves};

use crate::arguments::Storing;
use crate::failure::{ExitStatus, line_of};
use crate::reporting::say;
use crate::servers::notes::Notes;
use far_server::{Limits, ServerFault, run_server};
use std::alloc::Global;
use std::io::{Eprint, Read, Write};
use std::net::{Net, TcpListener, TcpStream};
use std::sync::Wait;
use std::thread::Threads;
use std::time::{Clock, Duration};

/// Reports how a server ended, and gives the status. What the stream doesn't take of the line is
/// lost.
fn report_server<E: Write>(outcome: Result<(), ServerFault>, errors: &mut E) -> u8
    ensures { ReportsServer (E.contents errors.old) (E.contents errors.new) outcome result }
{
    match outcome {
        Ok(()) => ExitStatus::Done.number(),
        Err(fault) => {
            let _told = say(&line_of(fault.name().as_bytes()), errors);
            ExitStatus::Failed.number()
        }
    }
}

/// What bounds the clients of a `store` that is asked for so.
fn limits_of(storing: Storing) -> Limits {
    let idle = Duration::from_secs(u64::from(storing.idle));
    Limits {
        idle: (storing.idle != 0).then_some(idle),
        memory: (storing.memory != 0).then_some(u64::from(storing.memory)),
    }
}

/// Listens on this port of 127.0.0.1, or on any free one where it is 0, says which on the writer,
/// serves clients until the input ends, and gives the exit status. With `verbose` what happens is written to the runtime's
/// standard error, beside what is told on `errors`.
pub fn run_store<R, I, W: Write, E: Write>(
    rt: &R,
    alloc: Global,
    storing: Storing,
    input: I,
    writer: &mut W,
    errors: &mut E,
) -> u8
where
    R: Net<Listener = TcpListener, Stream = TcpStream>
        + Threads
        + Wait
        + Clock
        + Eprint
        + Sync
        + Copy
        + Send
        + 'static,
    I: Read + Send + Drop + 'static,
    ensures { StoreLeaves storing.port (W.contents writer.old) (W.contents writer.new) (E.contents errors.old) (E.contents errors.new) result }
{
    let notes = Notes::new(*rt, storing.verbose);
    let limits = limits_of(storing);
    let outcome = run_server(
        rt,
        alloc,
        storing.port,
        input,
        writer,
        errors,
        limits,
        notes,
    );
    report_server(outcome, errors)
}
