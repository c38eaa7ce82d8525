//! A server that listens, and its clients.

use crate::compared::same;
use crate::frames::{ASKS, GET_ASKS, GET_SAYS, SAYS, first};
use far_server::{CLIENT_LIMIT, ServerFault, UNLIMITED, Unwritten, run_server};
use std::alloc::Global;
use std::io::{Error, ErrorKind, Read, Result as IoResult, Write};
use std::net::{Ipv4Addr, Net, Shutdown, SocketAddr, TcpListener, TcpStream};
use std::sync::Wait;
use std::test::Fail;
use std::thread::{self, Threads};
use test_devices::ends;

/// The port in a line `listening P`.
fn port_of(line: &[u8]) -> Option<u16> {
    let digits = line.strip_prefix(b"listening ".as_slice())?;
    let digits = digits.strip_suffix(b"\n".as_slice())?;
    std::str::from_utf8(digits).ok()?.parse().ok()
}

/// Reads a line.
fn line_of(alloc: Global, reader: &mut TcpStream) -> IoResult<Vec<u8>> {
    let mut line = Vec::new(alloc);
    let mut byte = [0u8; 1];
    for _ in 0..64u8 {
        if line.last() == Some(&b'\n') || reader.read(&mut byte)? == 0 {
            return Ok(line);
        }
        line.push(byte[0])?;
    }
    Ok(line)
}

/// Whether the server answers what is asked so.
fn answers(stream: &mut TcpStream, asks: &[u8], wanted: &[u8]) -> IoResult<bool> {
    stream.write_all(asks)?;
    let mut heard = [0u8; 64];
    let n = wanted.len().min(heard.len());
    stream.read_exact(&mut heard[..n])?;
    Ok(&heard[..n] == wanted)
}

/// Whether a client is served that puts `abc`, gets it and goes.
fn is_served<R: Net<Stream = TcpStream>>(rt: &R, address: SocketAddr) -> IoResult<bool> {
    let mut stream = TcpStream::connect(rt, address)?;
    answers(&mut stream, first(ASKS, GET_ASKS), first(SAYS, GET_SAYS))
}

/// Whether a client is cut off that is served, and then asks what is no request.
fn is_cut_off<R: Net<Stream = TcpStream>>(rt: &R, address: SocketAddr) -> IoResult<bool> {
    let mut stream = TcpStream::connect(rt, address)?;
    let is_served = answers(&mut stream, first(ASKS, GET_ASKS), first(SAYS, GET_SAYS))?;
    stream.write_all(b"\x04\0\0\0\0\0\0\0\x01\0\0\0\0")?;
    Ok(is_served && stream.read(&mut [0u8; 8])? == 0)
}

/// Whether a client that ends within a request finds its socket closed, which is so once its end was told.
fn is_given_up<R: Net<Stream = TcpStream>>(rt: &R, address: SocketAddr) -> IoResult<bool> {
    let mut stream = TcpStream::connect(rt, address)?;
    stream.write_all(&[1, 0, 0])?;
    stream.shutdown(Shutdown::Write)?;
    Ok(stream.read(&mut [0u8; 8])? == 0)
}

/// Whether a client that finds nothing kept is cut off by the end of the input, which comes as `held`
/// is dropped.
fn is_ended<R: Net<Stream = TcpStream>>(
    rt: &R,
    address: SocketAddr,
    held: TcpStream,
) -> IoResult<bool> {
    let mut stream = TcpStream::connect(rt, address)?;
    let asks = b"\x02\0\0\0\0\0\0\0\x01\0\0\0\0";
    let finds_nothing = answers(&mut stream, asks, b"\x01\0\0\0\0\0\0\0\x01\0\0\0\0")?;
    drop(held);
    Ok(finds_nothing && stream.read(&mut [0u8; 8])? == 0)
}

/// What four clients of a server on this port find: one that is served, one that breaks the protocol,
/// one that ends within a request, and one that is cut off by the end of the input.
fn four_clients<R: Net<Stream = TcpStream>>(
    rt: &R,
    port: u16,
    held: TcpStream,
) -> IoResult<[bool; 4]> {
    let address = SocketAddr::from((Ipv4Addr::LOCALHOST, port));
    let served = is_served(rt, address)?;
    let cut_off = is_cut_off(rt, address)?;
    let given_up = is_given_up(rt, address)?;
    let ended = is_ended(rt, address, held)?;
    Ok([served, cut_off, given_up, ended])
}

/// How a server ends that listens on this port, or on any if it is 0, its output then, and what it told of clients.
fn listens<I, O, R>(
    rt: &R,
    alloc: Global,
    port: u16,
    input: I,
    mut output: O,
) -> (Result<(), ServerFault>, O, Vec<u8>)
where
    I: Read + Send + Drop + 'static,
    O: Write,
    R: Net<Listener = TcpListener, Stream = TcpStream>
        + Threads
        + Wait
        + Sync
        + Copy
        + Send
        + 'static,
{
    let mut errors = Vec::new(alloc);
    let ended = run_server(
        rt,
        alloc,
        port,
        input,
        &mut output,
        &mut errors,
        UNLIMITED,
        Unwritten,
    );
    (ended, output, errors)
}

/// What is told of the second and the third client, whichever ends first.
const TOLD: [&[u8]; 2] = [
    b"client 2: protocol fault\nclient 3: protocol fault\n",
    b"client 3: protocol fault\nclient 2: protocol fault\n",
];

/// Whether a server told of the second and the third client.
fn is_told(errors: &[u8]) -> bool {
    errors == TOLD[0] || errors == TOLD[1]
}

/// A request for the bytes under id 1, and the answer that there are none.
const GET_FIRST: &[u8] = b"\x02\0\0\0\0\0\0\0\x01\0\0\0\0";

const NOT_KEPT: &[u8] = b"\x01\0\0\0\0\0\0\0\x01\0\0\0\0";

/// How many clients are served at the same time that come to this address, of two more than there may be. The first keeps bytes
/// that the others don't find.
fn are_served<R: Net<Stream = TcpStream>>(
    rt: &R,
    alloc: Global,
    address: SocketAddr,
) -> IoResult<usize> {
    let mut first_client = TcpStream::connect(rt, address)?;
    let mut served = usize::from(answers(
        &mut first_client,
        first(ASKS, GET_ASKS),
        first(SAYS, GET_SAYS),
    )?);
    let mut others = Vec::new(alloc);
    for _ in 0..=CLIENT_LIMIT {
        let mut stream = TcpStream::connect(rt, address)?;
        if answers(&mut stream, GET_FIRST, NOT_KEPT).unwrap_or(false) {
            served = served.saturating_add(1);
        }
        others.push(stream)?;
    }
    Ok(served)
}

/// Clients are served at the same time, each from a store of its own. One more than there is room for finds its socket closed.
#[test]
fn clients_are_served_at_the_same_time(rt: HostRuntime) -> Result<(), Fail> {
    let alloc = rt.alloc();
    let (mut held, stream) = ends(&rt)?;
    let output = stream.try_clone()?;
    let server = thread::spawn(&rt, move || listens(&rt, alloc, 0, stream, output))?;
    let port = port_of(&line_of(alloc, &mut held)?);
    let address = SocketAddr::from((Ipv4Addr::LOCALHOST, port.unwrap_or(0)));
    same!(rt; are_served(&rt, alloc, address)?, CLIENT_LIMIT);
    drop(held);
    let (ended, _, errors) = server.join(&rt);
    same!(rt; (ended, errors.is_empty()), (Ok(()), true));
    Ok(())
}

/// Each client begins with nothing kept, and those that break the protocol are told of.
#[test]
fn clients_are_served_one_after_another(rt: HostRuntime) -> Result<(), Fail> {
    let alloc = rt.alloc();
    let (mut held, stream) = ends(&rt)?;
    let output = stream.try_clone()?;
    let server = thread::spawn(&rt, move || listens(&rt, alloc, 0, stream, output))?;
    let port = port_of(&line_of(alloc, &mut held)?);
    assert!(rt; port.is_some());
    let found = four_clients(&rt, port.unwrap_or(0), held)?;
    same!(rt; found, [true; 4]);
    let (ended, _, errors) = server.join(&rt);
    same!(rt; (ended, is_told(&errors)), (Ok(()), true));
    Ok(())
}

/// An input that has ended.
const ENDED: &[u8] = b"";

/// A listener on any port, and which it is.
fn taken<R: Net<Listener = TcpListener, Stream = TcpStream>>(
    rt: &R,
) -> IoResult<(TcpListener, u16)> {
    let listener = TcpListener::bind(rt, (Ipv4Addr::LOCALHOST, 0))?;
    let port = listener.local_addr()?.port();
    Ok((listener, port))
}

/// The port that is asked for is the one that is listened on, and a second server can't have it.
#[test]
fn a_port_is_had_once(rt: HostRuntime) -> Result<(), Fail> {
    let alloc = rt.alloc();
    let (holder, port) = taken(&rt)?;
    let (ended, output, _) = listens(&rt, alloc, port, ENDED, Vec::new(alloc));
    same!(rt; (ended, port_of(&output)), (Err(ServerFault::Net), None));
    drop(holder);
    let (ended, output, errors) = listens(&rt, alloc, port, ENDED, Vec::new(alloc));
    same!(rt; (ended, port_of(&output)), (Ok(()), Some(port)));
    assert!(rt; errors.is_empty());
    Ok(())
}

/// A reader that fails at once.
#[derive(Drop)]
struct Broken;

impl Read for Broken {
    fn read(&mut self, _buf: &mut [u8]) -> IoResult<usize> {
        Err(Error::from(ErrorKind::BrokenPipe))
    }
}

/// A writer that takes nothing.
#[derive(Drop)]
struct Full;

impl Write for Full {
    fn write(&mut self, _buf: &[u8]) -> IoResult<usize> {
        Ok(0)
    }

    fn flush(&mut self) -> IoResult<()> {
        Ok(())
    }
}

#[test]
fn an_input_of_a_server_that_fails(rt: HostRuntime) {
    let output = Vec::new(rt.alloc());
    let (ended, output, errors) = listens(&rt, rt.alloc(), 0, Broken, output);
    same!(rt; ended, Err(ServerFault::Read));
    // it said before on which port it listens
    same!(rt; (port_of(&output).is_some(), errors.is_empty()), (true, true));
}

#[test]
fn an_output_of_a_server_that_fails(rt: HostRuntime) {
    let (ended, _, errors) = listens(&rt, rt.alloc(), 0, ENDED, Full);
    same!(rt; (ended, errors.is_empty()), (Err(ServerFault::Write), true));
}

#[test]
fn texts_of_a_server(rt: HostRuntime) -> Result<(), Fail> {
    for &(fault, text) in &[
        (ServerFault::Net, "net fault"),
        (ServerFault::Read, "read fault"),
        (ServerFault::Write, "write fault"),
        (ServerFault::NoMemory, "no memory"),
    ] {
        same!(rt; format!(in rt.alloc(); "{fault}")?.as_str(), text);
    }
    Ok(())
}
