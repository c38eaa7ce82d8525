//! What more than one thread does, for scripts that measure it. `bench_threads KIND COUNT LENGTH` has a far store over a stream
//! `put`, `get` or `digest` so many times that many bytes, and prints how many went well, or the sum of the digests' first words.
//! `bench_threads KIND COUNT THREADS` has so many threads `load`, `add` or `store` eight bytes so many times, each in an object of
//! its own, or `all`, where all add to one object, and prints the sum of the objects' numbers. `bench_threads FUEL CODE` has a worker
//! run code written in hex, and prints in how many turns. Without arguments it does nothing.
#![tactic(auto)]

mod far;
mod shared;
mod turns;

use std::alloc::Global;
use std::net::{Net, TcpListener, TcpStream};
use std::sync::Wait;
use std::thread::Threads;
use std::{env, io};

/// What comes of these words, if they ask for something that can be done.
fn done<R>(rt: &R, alloc: Global, words: &[String]) -> Option<u64>
where
    R: Net<Listener = TcpListener, Stream = TcpStream> + Threads + Wait + Sync,
{
    match words {
        [fuel, code] => turns::done(rt, alloc, fuel.parse().ok()?, code.as_str()),
        [kind, count, size] => {
            let count = count.parse().ok()?;
            if let Some(kind) = far::Kind::named(kind.as_str()) {
                return far::done(rt, alloc, kind, count, size.parse().ok()?);
            }
            let task = shared::Task {
                kind: shared::Kind::named(kind.as_str())?,
                count,
                threads: size.parse().ok()?,
            };
            shared::done(rt, alloc, task)
        }
        _ => None,
    }
}

fn main(rt: HostRuntime) -> io::Result<()> {
    let words: Vec<String> = env::args(&rt)?.skip(1).collect(rt.alloc())?;
    if let Some(count) = done(&rt, rt.alloc(), words.as_slice()) {
        println!(rt; "{count}")?;
    }
    Ok(())
}
