//! Accesses to a shared table: so many threads, each with a seat of its own, access eight bytes.
ghost use Rattle.std.specs.Prelude.{◌≡◌, ◌≤◌, length, All, IfOk};
ghost use Rattle.shared_objects.specs.Tables.{IsActorOf};

use far_store::OwnStore;
use isa_table::{AtomicOp, Size, Width};
use memory::{Action, Op, Reach};
use shared_objects::{ActorSeat, MoverSeat, ObjectEnd, Shared, SharedTable};
use std::alloc::{AllocError, Global};
use std::thread::{Threads, map_vec};

/// How many objects there are, and the most threads.
const OBJECTS: u32 = 8;

/// How many bytes each has, so that no two share a cache line.
const LENGTH: usize = 256;

/// What is done, how often by each thread, and by how many.
#[derive(Clone, Copy, Drop)]
pub struct Task {
    pub kind: Kind,
    pub count: u64,
    pub threads: u32,
}

/// What is done to eight bytes.
#[derive(Clone, Copy, Drop)]
pub struct Kind {
    op: Op,
    /// Whether all threads do it to one object; else each has its own.
    on_one: bool,
}

impl Kind {
    /// The kind of this name.
    pub fn named(name: &str) -> Option<Self> {
        let action = match name {
            "load" => Action::Load { size: Size::Double },
            "store" => Action::Store {
                size: Size::Double,
                value: 1,
            },
            "add" | "all" => Action::Atomic {
                width: Width::W64,
                op: AtomicOp::Add,
                src: 1,
                r0: 0,
            },
            _ => return None,
        };
        Some(Kind {
            op: Op { offset: 0, action },
            on_one: name == "all",
        })
    }
}

/// An actor, with the number of the object that it accesses.
#[derive(Drop)]
struct Job {
    actor: ActorSeat,
    number: u32,
}

/// As many accesses as the task says. Where another has the turn it is tried again.
fn access_all(table: &SharedTable, mut job: Job, task: Task) -> ActorSeat
    requires { IsActorOf table.now job.actor }
    ensures { IsActorOf table.now result }
{
    let mut left = task.count;
    for _ in 0..u64::MAX {
        if left == 0 {
            break;
        }
        if let Reach::Done(_) = table.touch(&mut job.actor, job.number, &task.kind.op) {
            left -= 1;
        }
    }
    job.actor
}

/// A job for each of the first actors.
fn jobs_of(
    alloc: Global,
    table: &SharedTable,
    actors: Vec<ActorSeat>,
    task: Task,
) -> Result<Vec<Job>, AllocError>
    requires { All (IsActorOf table.now) actors.items }
    ensures { IfOk result (λ v. All (λ j. IsActorOf table.now j.actor) v.items) }
{
    let mut jobs = Vec::new(alloc);
    let mut number = 1;
    for actor in actors {
        jobs.push(Job { actor, number })?;
        if !task.kind.on_one && number < OBJECTS {
            number += 1;
        }
    }
    Ok(jobs)
}

/// Each job on a thread of its own.
fn access_by_each<R: Threads + Sync>(
    rt: &R,
    table: &SharedTable,
    jobs: Vec<Job>,
    task: Task,
) -> Result<Vec<ActorSeat>, AllocError>
    requires { All (λ j. IsActorOf table.now j.actor) jobs.items }
    ensures { IfOk result (λ v. All (IsActorOf table.now) v.items × (length v.items ≡ length jobs.items)) }
{
    map_vec(
        rt,
        jobs,
        &|job: Job| -> ActorSeat
            requires { IsActorOf table.now job.actor }
            ensures { IsActorOf table.entry.now result }
        { access_all(table, job, task) },
    )
}

/// Bodies of zeros.
fn bodies(alloc: Global) -> Result<Vec<Vec<u8>>, AllocError>
    ensures { IfOk result (λ v. length v.items ≤ 1024) }
{
    let mut bodies = Vec::new(alloc);
    while bodies.len() < OBJECTS as usize {
        bodies.push(vec![in alloc; 0u8; LENGTH]?)?;
    }
    Ok(bodies)
}

/// The sum of the first eight bytes of all objects that are here.
fn sum_of(ended: &[ObjectEnd]) -> u64 {
    let mut sum = 0u64;
    for one in ended {
        if let ObjectEnd::Here(bytes) = one {
            let first: Option<[u8; 8]> = bytes.get(0..8).and_then(|bytes| bytes.try_into().ok());
            sum = sum.wrapping_add(first.map_or(0, u64::from_le_bytes));
        }
    }
    sum
}

/// The sum of the objects' numbers after the task.
pub fn done<R: Threads + Sync>(rt: &R, alloc: Global, task: Task) -> Option<u64> {
    let threads = task.threads as usize;
    if threads > OBJECTS as usize {
        return None;
    }
    let (shared, actors, mover): (Shared<OwnStore>, Vec<ActorSeat>, MoverSeat) = Shared::open(
        alloc,
        bodies(alloc).ok()?,
        threads,
    ).ok()?;
    let jobs = jobs_of(alloc, shared.table(), actors, task).ok()?;
    let actors = access_by_each(rt, shared.table(), jobs, task).ok()?;
    if actors.len() != threads {
        return None;
    }
    let ended = shared.close(actors, mover).ok()?;
    Some(sum_of(ended.as_slice()))
}
