//! A far store over a stream: a client and a server, each in a thread, speak over TCP.

use far_store::FarStore;
use far_stream::{StreamFault, StreamStore, serve_store};
use sha2::{Digest, Sha256};
use std::alloc::{AllocError, Global};
use std::io;
use std::net::{Ipv4Addr, Net, TcpListener, TcpStream};
use std::thread::{self, Threads};

/// What is done.
#[derive(Clone, Copy)]
pub enum Kind {
    /// A put, and the forget after it.
    Put,
    /// A get of what one put left there.
    Get,
    /// A digest, without a stream.
    Digest,
}

impl Kind {
    /// The kind of this name.
    pub fn named(name: &str) -> Option<Self> {
        match name {
            "put" => Some(Kind::Put),
            "get" => Some(Kind::Get),
            "digest" => Some(Kind::Digest),
            _ => None,
        }
    }
}

/// Bytes that differ from their neighbours.
fn pattern(alloc: Global, length: usize) -> Result<Vec<u8>, AllocError> {
    let mut bytes = Vec::with_capacity(alloc, length)?;
    for place in 0..length {
        bytes.push((place % 251) as u8)?;
    }
    Ok(bytes)
}

/// Puts the same bytes, and forgets them, so many times: how often that went well.
fn put_all<S: FarStore>(alloc: Global, store: &mut S, source: &[u8], count: u64) -> u64 {
    for done in 0..count {
        let Ok(bytes) = source.to_vec(alloc) else {
            return done;
        };
        let Ok(parcel) = store.put(bytes) else {
            return done;
        };
        store.forget(parcel);
    }
    count
}

/// Gets what was put so many times: how often it came home.
fn get_all<S: FarStore>(alloc: Global, store: &mut S, source: &[u8], count: u64) -> u64 {
    let Ok(bytes) = source.to_vec(alloc) else {
        return 0;
    };
    let Ok(parcel) = store.put(bytes) else {
        return 0;
    };
    for done in 0..count {
        if store.get(&parcel).is_err() {
            return done;
        }
    }
    count
}

/// Takes the digest of the same bytes so many times: the sum of their first words.
fn digest_all(source: &[u8], count: u64) -> u64 {
    let mut sum = 0u64;
    for _ in 0..count {
        let digest = Sha256::digest(source);
        let first = u32::from_be_bytes([digest[0], digest[1], digest[2], digest[3]]);
        sum = sum.wrapping_add(u64::from(first));
    }
    sum
}

/// Both ends of a stream, neither of which waits to fill a packet.
fn ends<R: Net<Listener = TcpListener, Stream = TcpStream>>(
    rt: &R,
) -> io::Result<(TcpStream, TcpStream)> {
    let listener = TcpListener::bind(rt, (Ipv4Addr::LOCALHOST, 0))?;
    let near = TcpStream::connect(rt, listener.local_addr()?)?;
    let (far, _) = listener.accept()?;
    near.set_nodelay(true)?;
    far.set_nodelay(true)?;
    Ok((near, far))
}

/// Serves one client.
fn serve(alloc: Global, mut stream: TcpStream) -> Result<(), StreamFault> {
    serve_store(alloc, &mut stream)
}

/// A client that asks and a server that answers: how often all went well.
fn converse<R>(rt: &R, alloc: Global, source: &[u8], kind: Kind, count: u64) -> Option<u64>
where
    R: Net<Listener = TcpListener, Stream = TcpStream> + Threads,
{
    let (near, far) = ends(rt).ok()?;
    let server = thread::spawn(rt, move || serve(alloc, far)).ok()?;
    let mut store = StreamStore::new(alloc, near);
    let done = match kind {
        Kind::Put => put_all(alloc, &mut store, source, count),
        _ => get_all(alloc, &mut store, source, count),
    };
    drop(store);
    server.join(rt).ok()?;
    Some(done)
}

/// What is done so many times with so many bytes: how often it went well, or the sum of the digests' first words.
pub fn done<R>(rt: &R, alloc: Global, kind: Kind, count: u64, length: usize) -> Option<u64>
where
    R: Net<Listener = TcpListener, Stream = TcpStream> + Threads,
{
    let source = pattern(alloc, length).ok()?;
    match kind {
        Kind::Digest => Some(digest_all(&source, count)),
        _ => converse(rt, alloc, &source, kind, count),
    }
}
