//! Services that listen. What a client says is on its way before the service begins, so that no thread is needed for it.

use crate::compared::same;
use console::{Console, drive};
use far_store::OwnStore;
use listener::{Door, port_name};
use ship_service::{ListenFault, Plan, Unwritten, listen, listen_over};
use std::alloc::Global;
use std::io::{Read, Write};
use std::net::{Ipv4Addr, Net, Shutdown, TcpListener, TcpStream};
use std::process::Abort;
use std::sync::Wait;
use std::test::Fail;
use std::thread::Threads;
use test_devices::Narrow;
use workers::{KEEP_ALL, Upkeep};
use world::World;

/// aadd [r1], r2 · exit
const SETUP: &[u8] = b"make 8\nship 10 0x100000000 1 0 0 0 db210000000000009500000000000000\n";

const SAID: &[u8] =
    b"step 1\nget 1 0 1\nleft 1\nleave 1\nstep 1\nship 10 0 0 0 0 0 9500000000000000\nline 2 0\nstack 2 0 1\nbreak 2 0\nwatch 2 0x100000000 1\nstep 2\nget 1";

const TOLD: &[u8] =
    b"ran 1 1\nbytes 01\nunserved\nasked 1\nstopped 1 exit 0000000000000000\nshipped 2\nline 2 0 exit\nbytes 00\nok\nok\npaused 2 0\ncut\n";

/// What is left of it when the service has closed, where the mover came to the object's request while the machine had it in scope,
/// so that it stays. The digest is that of `sha256sum`.
const LEFT_HERE: &[u8] = b"\n\
    closed\n\
    object 1 8 7c9fa136d4413fa6173637e883b6998d32e1d675f88cddff9dcbcf331820f4b8\n\
    regs 1 1 8 exit 0000000000000000 0000000100000000 0000000000000001 0000000000000000 0000000000000000 \
    0000000000000000 0000000000000000 0000000000000000 0000000000000000 0000000000000000 ffffffff00001000\n\
    regs 2 0 10 paused 0000000000000000 0000000000000000 0000000000000000 0000000000000000 0000000000000000 \
    0000000000000000 0000000000000000 0000000000000000 0000000000000000 0000000000000000 ffffffff00001000\n";

/// The same where the mover came later, and the object left.
const LEFT_OUT: &[u8] = b"\n\
    closed\n\
    object 1 out\n\
    regs 1 1 8 exit 0000000000000000 0000000100000000 0000000000000001 0000000000000000 0000000000000000 \
    0000000000000000 0000000000000000 0000000000000000 0000000000000000 0000000000000000 ffffffff00001000\n\
    regs 2 0 10 paused 0000000000000000 0000000000000000 0000000000000000 0000000000000000 0000000000000000 \
    0000000000000000 0000000000000000 0000000000000000 0000000000000000 0000000000000000 ffffffff00001000\n";

/// The world that these commands leave.
fn world_after(alloc: Global, setup: &[u8]) -> Result<World<OwnStore>, Fail> {
    let mut world = World::new(alloc, 64, OwnStore::new(alloc))?;
    let mut console = Console::new(alloc)?;
    let mut input = setup;
    let mut output = Vec::new(alloc);
    let _ = drive(&mut input, &mut output, &mut console, &mut world);
    Ok(world)
}

/// A client that has said this, and says nothing more.
fn client_of<R: Net<Listener = TcpListener, Stream = TcpStream>>(
    rt: &R,
    listener: &TcpListener,
    said: &[u8],
) -> Result<TcpStream, Fail> {
    let mut client = TcpStream::connect(rt, listener.local_addr()?)?;
    client.write_all(said)?;
    client.shutdown(Shutdown::Write)?;
    Ok(client)
}

/// What the client hears until its stream ends.
fn heard(alloc: Global, client: &mut TcpStream) -> Result<Vec<u8>, Fail> {
    let mut bytes = Vec::new(alloc);
    client.read_to_end(&mut bytes)?;
    Ok(bytes)
}

/// A listener that anyone may reach here.
fn bound<R: Net<Listener = TcpListener, Stream = TcpStream>>(rt: &R) -> Result<TcpListener, Fail> {
    Ok(TcpListener::bind(rt, (Ipv4Addr::LOCALHOST, 0))?)
}

/// What a service said on its output.
#[derive(Clone, Copy, Drop, Debug, PartialEq, Eq)]
enum Output {
    Nothing,
    /// That it listens, and not that it closed.
    Listening,
    /// That it listens, and what is left of the first client's service.
    Closed,
    /// Anything else, which is wrong.
    Other,
}

fn output_of(output: &[u8]) -> Output {
    if output.is_empty() {
        return Output::Nothing;
    }
    if !output.starts_with(b"listening ") {
        return Output::Other;
    }
    if output.ends_with(LEFT_HERE) || output.ends_with(LEFT_OUT) {
        return Output::Closed;
    }
    if output.windows(6).any(|part| part == b"closed".as_slice()) {
        return Output::Other;
    }
    Output::Listening
}

/// How a service ends, and what it says.
type Ended = (Result<(), ListenFault>, Output);

/// The mover does what it is asked for.
const NOTHING_ELSE: Upkeep = Upkeep {
    sweep: false,
    keep: KEEP_ALL,
};

/// The plan of a service with one connection and nobody beside it.
const ALONE: Plan = Plan {
    connections: 1,
    workers: 0,
    upkeep: NOTHING_ELSE,
};

/// How a service ends over the store of its world, which these commands leave, and what it says.
fn ends_over_its_own<R>(
    rt: &R,
    alloc: Global,
    listener: TcpListener,
    setup: &[u8],
    plan: Plan,
) -> Result<Ended, Fail>
where
    R: Net<Listener = TcpListener, Stream = TcpStream> + Threads + Wait + Sync,
{
    let mut output = Vec::new(alloc);
    let world = world_after(alloc, setup)?;
    let Plan {
        connections,
        workers,
        upkeep,
    } = plan;
    let ended = listen(
        rt,
        alloc,
        listener,
        &mut output,
        world,
        connections,
        workers,
        upkeep,
    );
    Ok((ended, output_of(&output)))
}

/// The same over a store that isn't the world's, without workers.
fn ends_over_another<R>(
    rt: &R,
    alloc: Global,
    listener: TcpListener,
    setup: &[u8],
) -> Result<Ended, Fail>
where
    R: Net<Listener = TcpListener, Stream = TcpStream> + Threads + Wait + Sync,
{
    let mut output = Vec::new(alloc);
    let world = world_after(alloc, setup)?;
    let store = OwnStore::new(alloc);
    let name = port_name(listener.local_addr()?.port());
    let ended = listen_over(
        rt,
        alloc,
        Door::Port(listener),
        &name,
        &mut output,
        world,
        store,
        None,
        ALONE,
        &Unwritten,
    );
    Ok((ended, output_of(&output)))
}

/// Over which far store a service runs.
#[derive(Clone, Copy, Drop)]
enum Over {
    ItsOwn,
    Another,
}

/// What a client hears of a service without workers when it said what it says, and how the service ends.
fn one_client<R>(rt: &R, alloc: Global, over: Over) -> Result<(Vec<u8>, Ended), Fail>
where
    R: Net<Listener = TcpListener, Stream = TcpStream> + Threads + Wait + Sync,
{
    let listener = bound(rt)?;
    let mut client = client_of(rt, &listener, SAID)?;
    let ended = match over {
        Over::ItsOwn => ends_over_its_own(rt, alloc, listener, SETUP, ALONE)?,
        Over::Another => ends_over_another(rt, alloc, listener, SETUP)?,
    };
    Ok((heard(alloc, &mut client)?, ended))
}

/// A service without workers serves its one client.
fn serves_one<R>(rt: &R, alloc: Global, over: Over) -> Result<(), Fail>
where
    R: Net<Listener = TcpListener, Stream = TcpStream> + Threads + Wait + Sync + Abort,
{
    let (heard, ended) = one_client(rt, alloc, over)?;
    same!(rt; ended, (Ok(()), Output::Closed));
    same!(rt; heard.as_slice(), TOLD);
    Ok(())
}

#[test]
fn a_client_without_workers(rt: HostRuntime) -> Result<(), Fail> {
    serves_one(&rt, rt.alloc(), Over::ItsOwn)
}

#[test]
fn a_client_over_another_store(rt: HostRuntime) -> Result<(), Fail> {
    serves_one(&rt, rt.alloc(), Over::Another)
}

#[test]
fn an_object_that_is_not_here_over_another_store(rt: HostRuntime) -> Result<(), Fail> {
    let setup = b"make 8\nmake 8\nleave 2\nleft 2\n".as_slice();
    let ended = ends_over_another(&rt, rt.alloc(), bound(&rt)?, setup)?;
    same!(rt; ended, (Err(ListenFault::NotHere(2)), Output::Nothing));
    Ok(())
}

/// What a client hears of a service that waits for a second one and can't accept it, and how the service ends.
fn cut_off<R>(rt: &R, alloc: Global) -> Result<(Vec<u8>, Ended), Fail>
where
    R: Net<Listener = TcpListener, Stream = TcpStream> + Threads + Wait + Sync,
{
    let listener = bound(rt)?;
    // its second `accept` fails, since nobody waits
    listener.set_nonblocking(true)?;
    let mut client = TcpStream::connect(rt, listener.local_addr()?)?;
    let plan = Plan {
        connections: 2,
        workers: 2,
        upkeep: Upkeep {
            sweep: true,
            keep: 0,
        },
    };
    let ended = ends_over_its_own(rt, alloc, listener, SETUP, plan)?;
    Ok((heard(alloc, &mut client)?, ended))
}

#[test]
fn a_client_that_cannot_be_accepted(rt: HostRuntime) -> Result<(), Fail> {
    let (heard, ended) = cut_off(&rt, rt.alloc())?;
    same!(rt; ended, (Err(ListenFault::Net), Output::Listening));
    // the first client is cut off
    same!(rt; heard.as_slice(), b"".as_slice());
    Ok(())
}

#[test]
fn objects_that_are_not_here(rt: HostRuntime) -> Result<(), Fail> {
    let setup = b"make 8\nmake 8\nmake 8\nleave 3\nleave 2\nleft 2\n".as_slice();
    let plan = Plan {
        workers: 2,
        ..ALONE
    };
    let ended = ends_over_its_own(&rt, rt.alloc(), bound(&rt)?, setup, plan)?;
    same!(rt; ended, (Err(ListenFault::NotHere(2)), Output::Nothing));
    Ok(())
}

/// How a service ends whose output takes so many bytes, and how many it took.
fn ends_with_room<R>(
    rt: &R,
    alloc: Global,
    room: usize,
) -> Result<(Result<(), ListenFault>, usize), Fail>
where
    R: Net<Listener = TcpListener, Stream = TcpStream> + Threads + Wait + Sync,
{
    let listener = bound(rt)?;
    let _client = client_of(rt, &listener, b"")?;
    let mut output = Narrow::new(alloc, usize::MAX, room);
    let world = world_after(alloc, SETUP)?;
    let ended = listen(rt, alloc, listener, &mut output, world, 1, 1, NOTHING_ELSE);
    Ok((ended, output.taken.len()))
}

#[test]
fn an_output_that_fails(rt: HostRuntime) -> Result<(), Fail> {
    // in the first line, and in the last
    for &room in &[0usize, 5, 18] {
        let ended = ends_with_room(&rt, rt.alloc(), room)?;
        same!(rt; ended, (Err(ListenFault::Write), room), room);
    }
    Ok(())
}
