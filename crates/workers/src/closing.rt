//! A pool is taken apart, once nobody runs it any more.
ghost use Rattle.std.specs.Prelude.{◌≡◌, length, IfOk};
ghost use Rattle.workers.specs.Closing.{WereCells};

use crate::cell::MachineCell;
use crate::running::Running;
use crate::table_name::TableName;
use far_store::FarStore;
use shared_objects::{ActorSeat, Shared};
use std::alloc::{AllocError, Global};

/// What a cell leaves beside its seat: its number, and its machine, if one had come.
#[derive(Drop)]
pub struct ClosedCell {
    pub number: usize,
    pub running: Option<Running>,
}

/// A pool, taken apart: the table, the seats of its cells, and what else the cells leave, in the same order.
#[derive(Drop)]
pub struct PoolParts<F: FarStore> {
    pub shared: Shared<F>,
    pub seats: Vec<ActorSeat>,
    pub cells: Vec<ClosedCell>,
}

/// The seats of cells, and what else they leave, in the same order.
pub(crate) fn parts_of<K: TableName>(
    alloc: Global,
    cells: Vec<MachineCell<K>>,
) -> Result<(Vec<ActorSeat>, Vec<ClosedCell>), AllocError>
    ensures { IfOk result (λ r. WereCells K.table K.opening K.starts r.0.items r.1.items × (length r.0.items ≡ length cells.items)) }
{
    let mut seats = Vec::new(alloc);
    let mut closed = Vec::new(alloc);
    for cell in cells {
        let (number, seat, running) = cell.into_inner().into_parts();
        seats.push(seat)?;
        closed.push(ClosedCell { number, running })?;
    }
    Ok((seats, closed))
}
