//! A table of objects of eight bytes, with all its seats.
ghost use Rattle.std.specs.Prelude.{◌≡◌, ◌<◌, ◌≤◌, false, length, IfOk};
ghost use Rattle.std.proofs.Props.{props};
ghost use Rattle.shared_objects.specs.Rule.{actor_limit};
ghost use Rattle.shared_objects.specs.Tables.{IsMoverOf};
ghost use Rattle.shared_objects_tests.specs.Stages.{AreSeatsOf};

use far_store::FarStore;
use isa_table::{AtomicOp, Size, Width};
use memory::{Action, Op, Reach};
use shared_objects::{
    ActorSeat, Denied, GetError, Leave, MoverSeat, ObjectEnd, OpenFault, Phase, Shared, SharedTable,
};
use std::alloc::{AllocError, Global};

/// Eight bytes, read.
pub const LOAD: Op = Op {
    offset: 0,
    action: Action::Load { size: Size::Double },
};

/// Adds a number to eight bytes.
pub fn add(number: u64) -> Op {
    Op {
        offset: 0,
        action: Action::Atomic {
            width: Width::W64,
            op: AtomicOp::Add,
            src: number,
            r0: 0,
        },
    }
}

/// A table with all its seats. The first actor has the index 0.
#[derive(Drop)]
pub struct Stage<F: FarStore> {
    pub shared: Shared<F>,
    pub actors: Vec<ActorSeat>,
    pub mover: MoverSeat,
    pub ghost seats: { AreSeatsOf shared.table actors.items mover } by { Prim.hlevel props },
}

impl<F: FarStore> Stage<F> {
    pub fn open(alloc: Global, objects: usize, actors: usize) -> Result<Stage<F>, OpenFault>
        requires { (objects ≤ 1024) × (actors ≤ actor_limit) }
        ensures { IfOk result (λ s. length s.actors.items ≡ actors) }
    {
        let Ok(bodies) = test_devices::objects(alloc, objects, 8) else {
            return Err(OpenFault::Memory);
        };
        let (shared, actors, mover) = Shared::open(alloc, bodies, actors)?;
        Ok(Stage {
            shared,
            actors,
            mover,
        })
    }

    pub fn touch(&mut self, who: usize, number: u32, op: &Op) -> Reach
        requires { who < length self.old.actors.items }
        ensures { length self.new.actors.items ≡ length self.old.actors.items }
    {
        self.shared.table().touch(&mut self.actors[who], number, op)
    }

    pub fn put(&mut self, who: usize, number: u32, offset: u32, bytes: &[u8]) -> Result<(), Denied>
        requires { who < length self.old.actors.items }
        ensures { length self.new.actors.items ≡ length self.old.actors.items }
    {
        self.shared
            .table()
            .put(&mut self.actors[who], number, offset, bytes)
    }

    pub fn get(
        &mut self,
        who: usize,
        number: u32,
        offset: u32,
        count: u32,
    ) -> Result<Vec<u8>, GetError>
        requires { who < length self.old.actors.items }
        ensures { length self.new.actors.items ≡ length self.old.actors.items }
    {
        self.shared
            .table()
            .get(&mut self.actors[who], number, offset, count)
    }

    /// The word of an object, as an actor finds it.
    pub fn look(&mut self, who: usize, number: u32) -> Option<u64>
        requires { who < length self.old.actors.items }
        ensures { length self.new.actors.items ≡ length self.old.actors.items }
    {
        let table = self.shared.table();
        if table.length(number as u64) == 0 {
            return None;
        }
        Some(table.look(&mut self.actors[who], number))
    }

    pub fn close_scopes(&mut self, who: usize)
        requires { who < length self.old.actors.items }
        ensures { length self.new.actors.items ≡ length self.old.actors.items }
    {
        self.shared.table().close_scopes(&mut self.actors[who]);
    }

    pub fn learn(&mut self, who: usize, stamp: u64)
        requires { who < length self.old.actors.items }
        ensures { length self.new.actors.items ≡ length self.old.actors.items }
    {
        self.actors[who].learn(stamp);
    }

    pub fn begin_leave(&mut self, number: u32) -> Leave
        ensures { length self.new.actors.items ≡ length self.old.actors.items }
    {
        self.shared.table().begin_leave(&mut self.mover, number)
    }

    /// Where the body may leave it does, and comes home as it was.
    pub fn may_leave(&mut self, number: u32) -> bool
        ensures { length self.new.actors.items ≡ length self.old.actors.items }
    {
        may_leave(self.shared.table(), &mut self.mover, number)
    }

    pub fn end_leave(&mut self, number: u32) -> bool
        ensures { length self.new.actors.items ≡ length self.old.actors.items }
    {
        let moving = self.mover.phase(number) == Phase::Moving;
        if moving {
            self.shared.table().end_leave(&mut self.mover, number);
        }
        moving
    }

    pub fn begin_return(&mut self, number: u32) -> bool
        ensures { length self.new.actors.items ≡ length self.old.actors.items }
    {
        let far = self.mover.phase(number) == Phase::Far;
        if far {
            self.shared.table().begin_return(&mut self.mover, number);
        }
        far
    }

    pub fn undo_return(&mut self, number: u32) -> bool
        ensures { length self.new.actors.items ≡ length self.old.actors.items }
    {
        let moving = self.mover.phase(number) == Phase::Moving;
        if moving {
            self.shared.table().undo_return(&mut self.mover, number);
        }
        moving
    }

    pub fn end_return(&mut self, number: u32, bytes: Vec<u8>) -> Option<Result<(), Vec<u8>>>
        requires { F.RETURNS ≡ false }
        ensures { length self.new.actors.items ≡ length self.old.actors.items }
    {
        if self.mover.phase(number) != Phase::Moving {
            return None;
        }
        Some(
            self.shared
                .table()
                .end_return(&mut self.mover, number, bytes),
        )
    }

    pub fn cool(&mut self, number: u32) -> Option<bool>
        ensures { length self.new.actors.items ≡ length self.old.actors.items }
    {
        self.shared.table().cool(&mut self.mover, number)
    }

    pub fn close(self) -> Result<Vec<ObjectEnd>, AllocError> {
        let Stage {
            shared,
            actors,
            mover,
        } = self;
        shared.close(actors, mover)
    }
}

/// Where the body may leave it does, and comes home as it was.
pub fn may_leave(table: &SharedTable, mover: &mut MoverSeat, number: u32) -> bool
    requires { IsMoverOf table.now mover.old }
    ensures mover { IsMoverOf table.now mover.new }
    ensures others { (mover.new.seat.me.0.gathered ≡ mover.old.seat.me.0.gathered) × (mover.new.seat.me.0.alive ≡ mover.old.seat.me.0.alive) }
{
    let Leave::Taken(bytes) = table.begin_leave(mover, number) else {
        return false;
    };
    table.undo_leave(mover, number, bytes);
    true
}

/// The body goes to the far place, where it may leave, and stays there, since its return is undone.
pub fn stays_far(table: &SharedTable, mover: &mut MoverSeat, number: u32) -> bool
    requires { IsMoverOf table.now mover.old }
    ensures { IsMoverOf table.now mover.new }
{
    let Leave::Taken(_) = table.begin_leave(mover, number) else {
        return false;
    };
    table.end_leave(mover, number);
    table.begin_return(mover, number);
    table.undo_return(mover, number);
    true
}

/// The body goes to the far place and back, where it may leave.
pub fn goes_and_returns(table: &SharedTable, mover: &mut MoverSeat, number: u32) -> bool
    requires { IsMoverOf table.now mover.old }
    ensures mover { IsMoverOf table.now mover.new }
    ensures others { (mover.new.seat.me.0.gathered ≡ mover.old.seat.me.0.gathered) × (mover.new.seat.me.0.alive ≡ mover.old.seat.me.0.alive) }
{
    let Leave::Taken(bytes) = table.begin_leave(mover, number) else {
        return false;
    };
    table.end_leave(mover, number);
    table.begin_return(mover, number);
    table.end_return(mover, number, bytes).is_ok()
}

/// The eight bytes of an object that is here as a number, the least first.
pub fn number_of(ended: &ObjectEnd) -> Option<u64> {
    let ObjectEnd::Here(bytes) = ended else {
        return None;
    };
    test_devices::number_of(bytes)
}
