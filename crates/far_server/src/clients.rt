//! The clients that are there.

use crate::limits::Limits;
use far_stream::Budget;
use listener::Bell;
use std::alloc::{AllocError, Global};
use std::net::{Shutdown, TcpStream};
use std::sync::{Mutex, Wait};
use std::time::Duration;

/// How many clients are served at the same time: this project's choice.
pub const CLIENT_LIMIT: usize = 64;

/// A client that is served.
#[derive(Drop)]
struct Client {
    number: u64,
    stream: TcpStream,
}

/// What all threads know: whether the input has ended, how many clients came, and who is there.
#[derive(Drop)]
struct State {
    is_closed: bool,
    came: u64,
    served: Vec<Client>,
}

/// Whether a client is let in.
#[derive(Clone, Copy, Drop, Debug, PartialEq, Eq)]
pub(crate) enum Admission {
    /// It is, as the client of this number.
    Admitted(u64),
    /// As many are there as are served at the same time.
    Full,
    /// The input has ended.
    Closed,
}

/// The clients that are served, and who may come: so many at the same time, until these are closed.
#[derive(Drop)]
pub(crate) struct Clients {
    state: Mutex<State>,
    bell: Bell,
    idle: Option<Duration>,
    budget: Budget,
}

impl Clients {
    /// Open, and none yet, with the bell of their listener. All the memory that it needs is taken here.
    pub fn new(alloc: Global, bell: Bell, limits: Limits) -> Result<Clients, AllocError> {
        let served = Vec::with_capacity(alloc, CLIENT_LIMIT)?;
        Ok(Clients {
            state: Mutex::new(State {
                is_closed: false,
                came: 0,
                served,
            }),
            bell,
            idle: limits.idle,
            budget: match limits.memory {
                Some(limit) => Budget::new(limit),
                None => Budget::unlimited(),
            },
        })
    }

    /// What all clients share of the bytes that are kept.
    pub fn budget(&self) -> &Budget {
        &self.budget
    }

    /// Has a client's stream fail when the client has been idle for too long.
    pub fn bound(&self, stream: &TcpStream) {
        if self.idle.is_some() {
            let _ = stream.set_read_timeout(self.idle);
            let _ = stream.set_write_timeout(self.idle);
        }
    }

    /// What ends the wait for the next client.
    pub fn bell(&self) -> &Bell {
        &self.bell
    }

    /// Lets a client in, if there is room. By its stream it can be cut off.
    pub fn admit<R: Wait>(&self, rt: &R, stream: TcpStream) -> Admission {
        let mut state = self.state.lock(rt);
        if state.is_closed {
            return Admission::Closed;
        }
        let number = state.came.saturating_add(1);
        let is_full = state.served.len() >= CLIENT_LIMIT;
        if is_full || state.served.push(Client { number, stream }).is_err() {
            return Admission::Full;
        }
        state.came = number;
        Admission::Admitted(number)
    }

    /// Whether the input goes on.
    pub fn is_open<R: Wait>(&self, rt: &R) -> bool {
        !self.state.lock(rt).is_closed
    }

    /// Lets the client of this number out.
    pub fn dismiss<R: Wait>(&self, rt: &R, client: u64) {
        let mut state = self.state.lock(rt);
        state.served.retain(|it| it.number != client);
    }

    /// From now on no client is accepted any more, and those that are served are cut off.
    pub fn close<R: Wait>(&self, rt: &R) {
        let mut state = self.state.lock(rt);
        state.is_closed = true;
        for client in &state.served {
            let _ = client.stream.shutdown(Shutdown::Both);
        }
        self.bell.ring();
    }
}
