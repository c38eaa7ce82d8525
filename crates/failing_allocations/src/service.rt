//! A service that begins with a world, whose connection reads an object, and which closes.
ghost use Rattle.ship_service.specs.Opening.{IsNamed};

use crate::first_world::with_machine;
use far_store::{FarStore, OwnStore};
use ship_service::{Agent, Connection, OpenAgent, Opened, serve};
use std::alloc::Global;
use std::marker::Brand;
use std::sync::Wait;
use workers::TableName;

/// Two commands that step the machine, and the same range twice.
const LINES: &[u8] = b"step 1\nstep 1\nget 1 0 2\nget 1 0 2\n";

/// The replies, where all allocations are granted, and where the first or the second range is refused.
const READ: &[u8] = b"ran 1 1\nstopped 1 exit 0000000000000007\nbytes 0000\nbytes 0000\n";

const READ_AGAIN: &[u8] = b"ran 1 1\nstopped 1 exit 0000000000000007\nnomem\nbytes 0000\n";

const READ_ONCE: &[u8] = b"ran 1 1\nstopped 1 exit 0000000000000007\nbytes 0000\nnomem\n";

/// How a conversation went.
#[derive(Clone, Copy, Drop, Debug, PartialEq, Eq)]
enum Talk {
    Read,
    ReadAgain,
    ReadOnce,
    ReadWrongly,
    NotServed,
}

/// How the service went.
#[derive(Clone, Copy, Drop, Debug, PartialEq, Eq)]
enum Outcome {
    NoAgent,
    NotNamed,
    NoConnection,
    NotClosed(Talk),
    Closed(Talk),
}

impl Outcome {
    fn text(self) -> &'static str {
        match self {
            Outcome::NoAgent => "no agent",
            Outcome::NotNamed => "not named",
            Outcome::NoConnection => "no connection",
            Outcome::NotClosed(Talk::Read) => "opened, read, not closed",
            Outcome::Closed(Talk::Read) => "opened, read, closed",
            Outcome::Closed(Talk::ReadAgain) => "opened, read again, closed",
            Outcome::Closed(Talk::ReadOnce) => "opened, read once, closed",
            Outcome::NotClosed(_) | Outcome::Closed(_) => "opened, not read",
        }
    }
}

/// How one conversation goes.
fn one_talk<F: FarStore, K: TableName, R: Wait>(
    rt: &R,
    agent: &Agent<F, K>,
    connection: &mut Connection<K>,
) -> Talk {
    let mut said = [0u8; 128];
    let mut reader = LINES;
    let mut writer = said.as_mut_slice();
    let ended = serve(rt, &mut reader, &mut writer, agent, connection);
    let left = writer.len();
    let told = &said[..128 - left.min(128)];
    if ended.is_err() {
        Talk::NotServed
    } else if told == READ {
        Talk::Read
    } else if told == READ_AGAIN {
        Talk::ReadAgain
    } else if told == READ_ONCE {
        Talk::ReadOnce
    } else {
        Talk::ReadWrongly
    }
}

/// How a service goes whose first connection talks, and which closes then.
fn served<F: FarStore + Drop, K: TableName, R: Wait>(
    rt: &R,
    alloc: Global,
    opened: Opened<F>,
) -> Outcome
    requires { IsNamed K.table K.opening K.starts K.seats K.passed opened.shared.table opened.machines.items }
{
    let (agent, mut connections, mover) = match Agent::<F, K>::open(rt, alloc, opened) {
        Ok(parts) => parts,
        Err(OpenAgent::Memory) => return Outcome::NoAgent,
        Err(_) => return Outcome::NotNamed,
    };
    let Some(first) = connections.first_mut() else {
        return Outcome::NoConnection;
    };
    let said = one_talk(rt, &agent, first);
    match agent.close(alloc, connections, mover) {
        Ok(_closed) => Outcome::Closed(said),
        Err(_) => Outcome::NotClosed(said),
    }
}

/// How the service went, or what there wasn't.
pub fn run<R: Wait>(rt: &R, alloc: Global) -> &'static str {
    let Ok(world) = with_machine(alloc) else {
        return "no world";
    };
    match Opened::new(alloc, world) {
        Ok(opened) => served::<OwnStore, Brand, _>(rt, alloc, opened).text(),
        Err(OpenAgent::Memory) => "not opened",
        Err(_) => "not here",
    }
}
