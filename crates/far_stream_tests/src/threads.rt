//! Both ends over TCP, each in a thread.

use crate::calls::{Client, Outcome};
use crate::compared::same;
use crate::frames::{first, pattern};
use far_store::StoreFault;
use far_stream::{StreamFault, StreamStore};
use std::alloc::Global;
use std::io::Write;
use std::net::{TcpListener, TcpStream};
use std::test::Fail;
use std::thread;
use test_devices::{Flaw, serve_flawed};

/// Three objects leave and come home, where the second answer to a get is damaged: what comes of each
/// call, and how many faults were counted before and after they are forgotten.
fn there_and_back(
    alloc: Global,
    stream: TcpStream,
    longest: &[u8],
) -> ([Outcome; 3], [Outcome; 4], [u64; 2]) {
    let mut client = Client::new(alloc, StreamStore::new(alloc, stream));
    let (short, middle) = (first(longest, 1), first(longest, 64));
    let put = [client.put(short), client.put(middle), client.put(longest)];
    let got = [
        client.get(0, short),
        client.get(1, middle),
        client.get(1, middle),
        client.get(2, longest),
    ];
    let faults = client.faults();
    client.forget();
    client.forget();
    client.forget();
    (put, got, [faults, client.faults()])
}

/// Three objects leave. One comes home damaged and is asked for again; the stream goes on.
#[test]
fn objects_leave_and_come_home(rt: HostRuntime) -> Result<(), Fail> {
    let alloc = rt.alloc();
    let longest = pattern(alloc, 65_536)?;
    let listener = TcpListener::bind(&rt, "127.0.0.1:0")?;
    let stream = TcpStream::connect(&rt, listener.local_addr()?)?;
    let server = thread::spawn(&rt, move || serve_flawed(alloc, listener, Flaw::Damages, 4))?;
    let (put, got, faults) = there_and_back(alloc, stream, &longest);
    same!(rt; server.join(&rt), Ok(()));
    same!(rt; put, [Outcome::Done; 3]);
    let damaged = Outcome::Fault(StoreFault::Damaged);
    same!(rt; got, [Outcome::Done, damaged, Outcome::Done, Outcome::Done]);
    same!(rt; faults, [1, 1]);
    Ok(())
}

/// The client goes in the middle of a request.
#[test]
fn a_client_that_goes(rt: HostRuntime) -> Result<(), Fail> {
    let alloc = rt.alloc();
    let listener = TcpListener::bind(&rt, "127.0.0.1:0")?;
    let mut stream = TcpStream::connect(&rt, listener.local_addr()?)?;
    let never = usize::MAX;
    let server = thread::spawn(
        &rt,
        move || serve_flawed(alloc, listener, Flaw::Fails, never),
    )?;
    stream.write_all(b"\x01\0\0\0\0\0\0\0\x01\0\0\0\x03ab")?;
    drop(stream);
    same!(rt; server.join(&rt), Err(StreamFault::Protocol));
    Ok(())
}
