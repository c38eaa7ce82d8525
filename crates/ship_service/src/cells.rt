//! Commands on machines by their numbers, each under the lock of the machine's cell.
ghost use Rattle.std.specs.Prelude.{◌≡◌, ◌≤◌, ◌<◌, ◌+◌, ℕ, true, None, IfSome, IfNone, IfOk, IfErr};
ghost use Rattle.std.specs.Sync.Mutex.{mutex_guard_value};
ghost use Rattle.scopes.specs.Windows.{machine_limit};
ghost use Rattle.workers.specs.Cells.{seat_state};
ghost use Rattle.workers.specs.TableNames.Passage.{Lends};
ghost use Rattle.ship_service.specs.Served.{IsCell, ServesMachine, ServesShip};

use crate::lent::{answer_lent, ship_lent};
use crate::replies::ServiceReply;
use crate::shared_agent::Agent;
use crate::turns::{go_on, resumes};
use debugger::{MachineCommand, Start};
use far_store::FarStore;
use scopes::MACHINE_LIMIT;
use shared_objects::ActorSeat;
use std::alloc::Global;
use std::sync::{MutexGuard, Wait};
use workers::{Locked, Occupied, Pool, TableName};
use world::Reply;

/// The lock of the cell of this number, if there can be such a machine.
pub(crate) fn lend<'a, F: FarStore, K: TableName, R: Wait>(
    rt: &R,
    agent: &'a Agent<F, K>,
    machine: usize,
) -> Option<MutexGuard<'a, Locked<K>>>
    ensures some { IfSome result (λ guard. IsCell K.opening K.starts machine (mutex_guard_value guard)) }
    ensures lent { IfSome result (λ guard. K.passed (Lends (mutex_guard_value guard)) ≡ true) }
    ensures exists { IfSome result (λ guard. (1 ≤ machine) × (machine ≤ machine_limit)) }
    ensures none { IfNone result ((1 ≤ machine) × (machine ≤ machine_limit) → ⊥) }
{
    // the first round is the last, since the cells stand in the order of their numbers: of a lock no type can say which it is
    for _ in rt.forever() {
        let locked = agent.pool().lend(rt, machine)?;
        locked.fact();
        if locked.number() == machine {
            return Some(locked);
        }
    }
    unreachable!()
}

/// Does a command on the machine of a number, if there is one. A machine that is resumed goes on for some turns before the next command.
pub(crate) fn answer_machine<F: FarStore, K: TableName, R: Wait>(
    rt: &R,
    alloc: Global,
    agent: &Agent<F, K>,
    seat: &mut ActorSeat,
    machine: usize,
    command: MachineCommand,
) -> ServiceReply
    ensures seat { seat.new.seat ≡ seat.old.seat }
    ensures serves { ServesMachine K.opening K.starts K.passed (seat_state seat.old) machine command result (seat_state seat.new) }
{
    let Some(mut locked) = lend(rt, agent, machine) else {
        return ServiceReply::Plain(Reply::Missing);
    };
    let said = answer_lent(rt, alloc, agent.pool(), &mut locked, seat, machine, command);
    locked.fact();
    agent.pool().give_back(locked);
    if resumes(command, &said) {
        go_on(rt, agent, seat, machine);
        return ServiceReply::Plain(said);
    }
    ServiceReply::Plain(said)
}

/// The lock of the first cell that has no machine, and the cells of the lesser numbers, which were each lent with a machine; or
/// else all cells, which were. No cell is lent that is known to have one, since a worker may have its lock.
fn lend_empty<'a, F: FarStore, K: TableName, R: Wait>(
    rt: &R,
    agent: &'a Agent<F, K>,
) -> Result<(MutexGuard<'a, Locked<K>>, Occupied<K>), Occupied<K>>
    ensures found { IfOk result (λ r. (r.1 < machine_limit) × IsCell K.opening K.starts (r.1 + 1) (mutex_guard_value r.0)
        × ((mutex_guard_value r.0).running ≡ None)) }
    ensures lent { IfOk result (λ r. K.passed (Lends (mutex_guard_value r.0)) ≡ true) }
    ensures none { IfErr result (λ occupied. occupied ≡ machine_limit) }
{
    let mut occupied = agent.pool().occupied(rt, MACHINE_LIMIT);
    for lesser in occupied.count()..MACHINE_LIMIT {
        let Some(locked) = lend(rt, agent, lesser + 1) else {
            unreachable!()
        };
        if !locked.has_machine() {
            return Ok((locked, occupied));
        }
        occupied = occupied.and(&locked);
    }
    Err(occupied)
}

/// Wakes a worker for a machine that has come.
fn wake_for<F: FarStore, K: TableName>(pool: &Pool<F, K>, said: &Reply) {
    if matches!(said, Reply::Shipped { .. }) {
        pool.wake_worker();
    }
}

/// Makes the code a machine, in the first cell that has none. A worker runs it, and not this connection.
pub(crate) fn ship<F: FarStore, K: TableName, R: Wait>(
    rt: &R,
    alloc: Global,
    agent: &Agent<F, K>,
    start: Start,
    code: &[u8],
) -> ServiceReply
    ensures { ServesShip K.opening K.starts K.passed start code.now result }
{
    let (mut locked, occupied) = match lend_empty(rt, agent) {
        Ok(found) => found,
        Err(occupied) => {
            occupied.fact();
            return ServiceReply::Plain(Reply::Full);
        }
    };
    occupied.fact();
    let said = ship_lent(rt, alloc, agent.pool(), &mut locked, start, code);
    locked.fact();
    agent.pool().know_occupied(rt, &occupied, &locked);
    agent.pool().give_back(locked);
    wake_for(agent.pool(), &said);
    ServiceReply::Plain(said)
}
