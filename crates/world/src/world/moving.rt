//! Moves of an object: which there are, and what each does in the store.
ghost use Rattle.std.specs.Prelude.{◌≡◌};
ghost use Rattle.world.specs.Moves.{MoveAsks, Moves, place_before};

use super::World;
use far_store::FarStore;
use object_store::{Moved, Place};

/// A move of an object, or its end.
#[derive(Clone, Copy, Drop, Debug, PartialEq, Eq)]
pub enum Move {
    /// An object that is here begins to leave.
    Leave,
    /// An object that is leaving is put in the far store.
    Left,
    /// An object that is far begins to return.
    Return,
    /// An object that is returning is got from the far store.
    Returned,
}

impl<F: FarStore> World<F> {
    /// What the store does at a move.
    pub(super) fn move_object(&mut self, object: u32, kind: Move) -> Moved
        ensures store { Moves kind self.old.store.state object result self.new.store.state }
        ensures asks { MoveAsks F.called kind self.old.store object result self.new.store }
        ensures machines { self.new.machines ≡ self.old.machines }
    {
        match kind {
            Move::Leave => self.store.leave(object),
            Move::Left => self.store.left(object),
            Move::Return => self.store.return_(object),
            Move::Returned => self.store.returned(object),
        }
    }
}

impl Move {
    /// Where the object is again where the far store fails.
    pub fn back(self) -> Place
        ensures { result ≡ place_before self }
    {
        match self {
            Move::Leave | Move::Left => Place::Here,
            Move::Return | Move::Returned => Place::Far,
        }
    }
}
