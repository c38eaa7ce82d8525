//! What belongs to one client of a service.
ghost use Rattle.std.specs.Prelude.{◌≡◌, IfOk};
ghost use Rattle.console.specs.Held.{nothing_held};
ghost use Rattle.workers.specs.Cells.{IsSeatOf};

use console::Console;
use shared_objects::ActorSeat;
use std::alloc::{AllocError, Global};
use std::marker::PhantomData;
use workers::TableName;

/// A connection: its seat, and the line that is coming.
#[derive(Drop)]
pub struct Connection<K: TableName> {
    pub(crate) session: Session<K>,
    pub(crate) console: Console,
}

/// The seat of a connection, which answers its commands.
#[derive(Drop)]
pub struct Session<K: TableName> {
    pub(crate) alloc: Global,
    pub(crate) seat: ActorSeat,
    of: PhantomData<K>,
    pub ghost seated: { IsSeatOf K.table K.opening seat },
}

impl<K: TableName> Connection<K> {
    /// One with this seat. All the memory that it needs for lines is taken here.
    pub fn new(alloc: Global, seat: ActorSeat) -> Result<Self, AllocError>
        requires { IsSeatOf K.table K.opening seat }
        ensures { IfOk result (λ c. (c.session.seat ≡ seat) × (c.console ≡ nothing_held)) }
    {
        let console = Console::new(alloc)?;
        let session = Session {
            alloc,
            seat,
            of: PhantomData,
        };
        Ok(Connection { session, console })
    }

    /// Gives the seat back.
    pub fn into_seat(self) -> ActorSeat
        ensures same { result ≡ self.session.seat }
        ensures of { IsSeatOf K.table K.opening result }
    {
        let Connection {
            session,
            console: _,
        } = self;
        let Session {
            alloc: _,
            seat,
            of: _,
        } = session;
        seat
    }
}
