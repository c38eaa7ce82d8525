//! Machines that workers step over one table of objects, each under a lock of its own.
#![tactic(auto)]

mod cell;
mod closing;
mod gate;
mod job;
mod movers;
mod passages;
mod patience;
mod pool;
mod requests;
mod retries;
mod running;
mod shortage;
mod table_name;
mod threads;
mod upkeep;

pub use cell::{Locked, MachineCell, Occupied, Ticket};
pub use closing::{ClosedCell, PoolParts};
pub use gate::Gate;
pub use job::{Direction, Job, Request};
pub use movers::{Looked, Mover};
pub use patience::give_time;
pub use placement::{Moved, Place};
pub use pool::{Pool, QUEUE_LIMIT, TURN_LIMIT, work};
pub use running::{Running, Shipment};
pub use table_name::TableName;
pub use threads::{mover, run_all, run_workers};
pub use upkeep::{KEEP_ALL, MoverEvent, Upkeep};
