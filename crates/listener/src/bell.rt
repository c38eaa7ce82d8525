//! Ending the wait for clients from another thread.

use std::io;
use std::net::{Shutdown, TcpListener, TcpStream};
use std::os::fd::OwnedFd;
use std::sync::Wait;
use std::sync::atomic::{AtomicU64, Ordering};
use std::time::Duration;

/// Ends the wait for clients of one listener, and the rests in between.
#[derive(Drop)]
pub struct Bell {
    // 0 until it rings
    rung: AtomicU64,
    socket: TcpStream,
}

impl Bell {
    /// A bell for this listener. It takes a descriptor now, so that ringing needs none: they may have run out then.
    pub fn of(listener: &TcpListener) -> io::Result<Bell> {
        let handle = listener.try_clone()?;
        Ok(Bell {
            rung: AtomicU64::new(0),
            // The call that shuts a socket down is a stream's. The system takes it for a listener too.
            socket: TcpStream::from(OwnedFd::from(handle)),
        })
    }

    /// From now on no client is accepted. A thread that waits for one in [`accept_or_rest`](crate::accept_or_rest), or rests there,
    /// returns.
    pub fn ring(&self) {
        self.rung.store(1, Ordering::SeqCst);
        self.rung.wake_all();
        let _ = self.socket.shutdown(Shutdown::Both);
    }

    /// Whether it has rung.
    pub(crate) fn has_rung(&self) -> bool {
        self.rung.load(Ordering::SeqCst) != 0
    }

    /// Sleeps for so many milliseconds, or until it rings.
    pub(crate) fn rest<R: Wait>(&self, rt: &R, millis: u64) {
        self.rung.park_timeout(rt, 0, Duration::from_millis(millis));
    }
}
