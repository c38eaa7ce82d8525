//! `store`: how it ends.

use crate::compared::same;
use crate::outcome::leaves;
use agent::{Storing, run_store};
use std::io::{Error, ErrorKind, Read, Result as IoResult};
use std::net::{Ipv4Addr, TcpListener};
use std::test::Fail;
use test_devices::Narrow;

/// The work of `store` is its caller's: `tool` reads and writes nothing.
#[test]
fn tool_leaves_it_to_its_caller(rt: HostRuntime) {
    let arguments = &["store", "--port", "1"];
    leaves(&rt, rt.alloc(), arguments, b"step 1\n", (0, b"", b""));
}

/// `store` without options.
const PLAIN: Storing = Storing {
    port: 0,
    idle: 0,
    memory: 0,
    verbose: false,
};

/// A reader that fails at once.
#[derive(Drop)]
struct Broken;

impl Read for Broken {
    fn read(&mut self, _buf: &mut [u8]) -> IoResult<usize> {
        Err(Error::from(ErrorKind::BrokenPipe))
    }
}

#[test]
fn how_a_server_ends(rt: HostRuntime) -> Result<(), Fail> {
    let alloc = rt.alloc();
    let empty: &'static [u8] = b"";
    let (mut output, mut errors) = (Vec::new(alloc), Vec::new(alloc));
    let status = run_store(&rt, alloc, PLAIN, empty, &mut output, &mut errors);
    same!(rt; (status, errors.len()), (0, 0));
    same!(rt; output.starts_with(b"listening "), true);

    let status = run_store(&rt, alloc, PLAIN, Broken, &mut output, &mut errors);
    same!(rt; (status, errors.as_slice()), (3, b"read fault\n".as_slice()));

    errors.clear();
    let mut closed = Narrow::new(alloc, 1, 0);
    let status = run_store(&rt, alloc, PLAIN, empty, &mut closed, &mut errors);
    same!(rt; (status, errors.as_slice()), (3, b"write fault\n".as_slice()));

    errors.clear();
    let taken = TcpListener::bind(&rt, (Ipv4Addr::LOCALHOST, 0))?;
    let port = taken.local_addr()?.port();
    let status = run_store(
        &rt,
        alloc,
        Storing { port, ..PLAIN },
        empty,
        &mut output,
        &mut errors,
    );
    same!(rt; (status, errors.as_slice()), (3, b"net fault\n".as_slice()));
    Ok(())
}
