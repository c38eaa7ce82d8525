//! The mover over a far store at the other end of a stream, over TCP, in a thread of its own.

use crate::compared::same;
use crate::trial::{Act, Answer, DONE, LEFT, Left, Row, tried};
use debugger::StepReply::{Ran, Stopped, Waiting};
use far_store::StoreFault;
use far_stream::{StreamFault, StreamStore};
use machine::Stop;
use shared_objects::Phase;
use std::alloc::Global;
use std::net::{Net, TcpListener, TcpStream};
use std::sync::Wait;
use std::test::Fail;
use std::thread;
use std::thread::Threads;
use test_devices::{Flaw, serve_flawed};
use workers::{Moved, Place};

/// Both machines add, both objects leave, and the first comes back damaged. It is far then, and comes back when it is asked for
/// again.
const DAMAGED: &[Row] = &[
    (Act::Step(1), Answer::Replied(Ran(1))),
    (Act::Step(1), Answer::Replied(Ran(2))),
    (Act::Step(2), Answer::Replied(Ran(1))),
    (Act::Step(2), Answer::Replied(Ran(2))),
    (Act::Leave(1), DONE),
    (Act::Leave(2), DONE),
    (
        Act::Return(1),
        Answer::Moved(Moved::Fault(StoreFault::Damaged)),
    ),
    (Act::Step(1), Answer::Replied(Waiting(1))),
    (Act::Leave(1), Answer::Moved(Moved::Misplaced(Place::Far))),
    (Act::Return(1), DONE),
    (Act::Step(1), Answer::Replied(Ran(3))),
    (Act::Step(1), Answer::Replied(Stopped(Stop::Exit(5)))),
];

/// The stream has ended.
const ENDED: Answer = Answer::Moved(Moved::Fault(StoreFault::Io));

/// Object 1 leaves, and the stream ends before it comes back: it stays far, and object 2 stays here.
const CUT_OFF: &[Row] = &[
    (Act::Leave(1), DONE),
    (Act::Return(1), ENDED),
    (Act::Return(1), ENDED),
    (Act::Leave(2), ENDED),
    (Act::Step(1), Answer::Replied(Waiting(1))),
    (Act::Step(2), Answer::Replied(Ran(1))),
];

/// What the acts of these rows leave over a server of which the answer after so many goes wrong, and how the server ends.
fn over_tcp<R: Net<Listener = TcpListener, Stream = TcpStream> + Threads + Wait>(
    rt: &R,
    alloc: Global,
    flaw: Flaw,
    good: usize,
    rows: &[Row],
) -> Result<(Left, Result<(), StreamFault>), Fail> {
    let listener = TcpListener::bind(rt, "127.0.0.1:0")?;
    let stream = TcpStream::connect(rt, listener.local_addr()?)?;
    let server = thread::spawn(rt, move || serve_flawed(alloc, listener, flaw, good))?;
    let left = tried(rt, alloc, StreamStore::new(alloc, stream), rows)?;
    Ok((left, server.join(rt)))
}

#[test]
fn a_damaged_object_is_far_and_comes_back(rt: HostRuntime) -> Result<(), Fail> {
    let found = over_tcp(&rt, rt.alloc(), Flaw::Damages, 2, DAMAGED)?;
    let wanted = Left {
        phases: [Phase::In, Phase::Far, Phase::In],
        kept: [None, Some(6), None],
        faults: 1,
        ..LEFT
    };
    same!(rt; found, (wanted, Ok(())));
    Ok(())
}

#[test]
fn an_object_stays_where_it_is_when_the_stream_ends(rt: HostRuntime) -> Result<(), Fail> {
    let found = over_tcp(&rt, rt.alloc(), Flaw::Fails, 1, CUT_OFF)?;
    let wanted = Left {
        phases: [Phase::Far, Phase::In, Phase::In],
        faults: 3,
        ..LEFT
    };
    same!(rt; found, (wanted, Err(StreamFault::Io)));
    Ok(())
}
