//! Servers that the arguments ask for.

use crate::compared::same;
use crate::outcome::leaves;
use agent::{Asked, Server, Serving, Storing, read_arguments};

/// What `serve` alone asks for.
const PLAIN: Serving = Serving {
    port: 0,
    has_port: false,
    connections: 1,
    workers: 2,
    budget: 67_108_864,
    sweep: false,
    keep: 67_108_864,
    far_timeout: 5000,
    verbose: false,
};

/// `serve` with all its options.
const ALL: Serving = Serving {
    port: 7070,
    has_port: true,
    connections: 8,
    workers: 16,
    budget: 0,
    sweep: true,
    keep: 65_536,
    far_timeout: 600_000,
    verbose: true,
};

/// `store` without options.
const STORING: Storing = Storing {
    port: 0,
    idle: 0,
    memory: 0,
    verbose: false,
};

/// Arguments, and the server that they ask for.
const ASKED: &[(&[&str], Option<Server>)] = &[
    (&["store"], Some(Server::Store(STORING))),
    (
        &["store", "--port", "7070"],
        Some(Server::Store(Storing {
            port: 7070,
            ..STORING
        })),
    ),
    (
        &["store", "-v", "--port=65535"],
        Some(Server::Store(Storing {
            port: 65_535,
            verbose: true,
            ..STORING
        })),
    ),
    (
        &["store", "--idle", "86400", "--memory=4294967295"],
        Some(Server::Store(Storing {
            idle: 86_400,
            memory: 4_294_967_295,
            ..STORING
        })),
    ),
    (&["store", "--idle=86401"], None),
    (&["store", "--memory=4294967296"], None),
    (&["store", "--memory", "-1"], None),
    (&["store", "--port=65536"], None),
    (&["store", "-v", "--verbose"], None),
    (&["store", "-x"], None),
    (&["store", "--help"], None),
    (
        &["serve"],
        Some(Server::Serve {
            serving: PLAIN,
            far: None,
            unix: None,
        }),
    ),
    (
        &["serve", "--far", "127.0.0.1:7070"],
        Some(Server::Serve {
            serving: PLAIN,
            far: Some("127.0.0.1:7070"),
            unix: None,
        }),
    ),
    (
        &["serve", "--far=x"],
        Some(Server::Serve {
            serving: PLAIN,
            far: Some("x"),
            unix: None,
        }),
    ),
    (
        &[
            "serve",
            "--workers=16",
            "--sweep",
            "--keep=65536",
            "--connections",
            "8",
            "--budget",
            "0",
            "--far=[::1]:7070",
            "--far-timeout=600000",
            "--verbose",
            "--port=7070",
        ],
        Some(Server::Serve {
            serving: ALL,
            far: Some("[::1]:7070"),
            unix: None,
        }),
    ),
    (
        &["serve", "--unix", "agent.sock", "--far=x"],
        Some(Server::Serve {
            serving: PLAIN,
            far: Some("x"),
            unix: Some("agent.sock"),
        }),
    ),
    (
        &["serve", "--port", "0", "--unix="],
        Some(Server::Serve {
            serving: Serving {
                has_port: true,
                ..PLAIN
            },
            far: None,
            unix: Some(""),
        }),
    ),
    (&["serve", "--unix"], None),
    (&["serve", "--unix=a", "--unix=b"], None),
    (&["store", "--unix", "agent.sock"], None),
    (&["serve", "--connections", "9"], None),
    (&["serve", "--far"], None),
    (&["serve", "--far-timeout", "0"], None),
    (&["serve", "--far-timeout", "600001"], None),
    (&["serve", "--far-timeout=x"], None),
    (&["store", "--far-timeout", "1"], None),
    (&["serve", "--keep", "65535"], None),
    (&["serve", "--keep=67108865"], None),
    (&["serve", "--keep=-1"], None),
    (&["serve", "--keep"], None),
    (&["serve", "--keep=65536", "--keep=65536"], None),
    (&["run", "--keep", "65536"], None),
    (&["serve", "--help"], None),
    (&["run"], None),
    (&["check", "--port", "1"], None),
    (&[], None),
];

#[test]
fn the_server_that_is_asked_for(rt: HostRuntime) {
    for &(arguments, server) in ASKED {
        let asked = match read_arguments(rt.alloc(), arguments) {
            Ok(Asked::Server(server)) => Some(server),
            Ok(Asked::Task(_)) | Err(_) => None,
        };
        same!(rt; asked, server, arguments);
    }
}

/// The work of `serve` is its caller's: `tool` reads and writes nothing.
#[test]
fn tool_leaves_it_to_its_caller(rt: HostRuntime) {
    let arguments = &["serve", "--connections", "2"];
    leaves(&rt, rt.alloc(), arguments, b"step 1\n", (0, b"", b""));
}
