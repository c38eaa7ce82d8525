//! What passes at the locks of cells, and in the mover's thread.
ghost use Rattle.std.specs.Prelude.{◌≡◌, true};
ghost use Rattle.workers.specs.TableNames.{each_passed};
ghost use Rattle.workers.specs.TableNames.Passage.{Lends, Leaves, Ran};

use crate::cell::Locked;
use crate::movers::Mover;
use crate::table_name::TableName;
use far_store::FarStore;
use std::marker::{Model, PhantomData};
use std::snapshot::Snapshot;

/// Says what the lock of a cell lent, with what it was left, and what the mover's loop made of its mover. A pool has one and shows it
/// to nobody, so who serves can't say so.
#[derive(Drop)]
pub struct Passages<K: TableName> {
    of: PhantomData<K>,
}

impl<K: TableName> Model for Passages<K> {
    ghost use Rattle.std.specs.Prelude.{◌≡◌, ⊤};
    ghost use Rattle.workers.specs.TableNames.{each_passed};

    ghost Value = { ⊤ };

    ghost view = { λ p. tt };

    ghost invariant = { λ p. K.passed ≡ each_passed };
}

impl<K: TableName> Passages<K> {
    /// Those of the table that K names.
    pub fn new() -> Self
        requires { K.passed ≡ each_passed }
    {
        Passages { of: PhantomData }
    }

    /// Says that a lock of a cell lent this.
    pub fn lent(&self, _locked: &Locked<K>)
        ensures { K.passed (Lends _locked.now) ≡ true }
    {
        let _of = &self.of;
    }

    /// Says that a lock of a cell is left with this.
    pub fn left(&self, _locked: &Locked<K>)
        ensures { K.passed (Leaves _locked.now) ≡ true }
    {
        let _of = &self.of;
    }

    /// Says that the loop of a mover began with the one and ended with the other.
    pub fn ran<F: FarStore>(&self, _began: &Snapshot<Mover<F, K>>, _ended: &Mover<F, K>)
        ensures { K.passed (Ran _began.now.value.view _ended.now.view) ≡ true }
    {
        let _of = &self.of;
    }
}
