//! A seat of an actor as the memory of a machine.
ghost use Rattle.shared_objects.specs.Tables.{IsActorOf};

use crate::seats::ActorSeat;
use crate::table::SharedTable;
use memory::{Memory, Op, Reach};

/// A seat of an actor as the memory of a machine: under it the machine's accesses are entries of the table's history.
#[derive(Drop)]
pub struct SeatMemory<'a> {
    pub shared: &'a SharedTable,
    pub seat: &'a mut ActorSeat,
}

impl<'a> Memory for SeatMemory<'a> {
    ghost use Rattle.shared_objects.specs.Tables.{IsActorOf};
    ghost use Rattle.shared_objects.specs.SeatMemories.{seat_memory};
    ghost use Rattle.shared_objects.specs.Promised.{seat_promises};

    ghost is_ready = { λ m. IsActorOf m.shared.now m.seat.now };

    ghost acts = { seat_memory (λ m. m.seat.now.seat.me.0) (λ m. m.seat.now.stamp) (λ m. m.seat.ghost_name) (λ m. m.shared) };

    ghost promises = { seat_promises (λ m. m.seat.now.seat.me.0) (λ m. m.seat.now.stamp) (λ m. m.seat.ghost_name) (λ m. m.shared) };

    fn length(&self, number: u64) -> usize {
        self.shared.length(number)
    }

    #[inline(always)]
    fn touch(&mut self, number: u32, op: &Op) -> Reach {
        self.shared.touch(self.seat, number, op)
    }

    fn close_scopes(&mut self) {
        self.shared.close_scopes(self.seat);
    }
}
