//! What a machine may do with an object, looked up by the object's number.
ghost use Rattle.std.specs.Prelude.{◌≡◌, ◌≤◌, ℕ, Bool, true, get_or, ◌||◌};
ghost use Rattle.memory.specs.Objects.{object_limit};
ghost use Rattle.machine.specs.Grants.{GrantState, is_granted, is_listed};
ghost use Rattle.machine.specs.Rights.{suffices, joined, full_of, IsOpen, IsLastOpen, IsTableOf, HasMore};
ghost use Rattle.machine.specs.declared.rights.Right.TheVariants.{Nothing};

use crate::grants::{Grant, Grants};
use memory::OBJECT_LIMIT;
use std::marker::Model;

/// How many numbers are looked up: 0, which is no object's, and those of objects.
const NUMBERS: usize = OBJECT_LIMIT + 1;

/// What a machine may do with an object.
#[derive(Clone, Copy, Drop, Debug, PartialEq, Eq)]
pub(crate) enum Right {
    Nothing,
    Reads,
    Writes,
}

/// The right to the object of each number. That to number 0, which is no object's, is `Writes`.
type Table = [Right; NUMBERS];

/// The grants of a machine, and what they come to for each number: they are read once, so that an access looks at one
/// byte, and at none where all objects are granted. Takes no memory.
#[derive(Drop)]
pub(crate) struct Rights {
    grants: Grants,
    // the greatest number up to which each object may be read and written
    open_to: u32,
    table: Table,
}

impl Model for Rights {
    ghost use Rattle.machine.specs.Grants.{GrantState};
    ghost use Rattle.machine.specs.Rights.{IsLastOpen, IsTableOf};

    ghost Value = { GrantState };

    ghost view = { λ r. r.grants };

    ghost invariant = { λ r. IsTableOf r.grants r.table × IsLastOpen r.grants r.open_to };
}

impl Right {
    /// Whether it is enough to read, or to write where that is asked.
    #[inline(always)]
    fn suffices(self, writes: bool) -> bool
        ensures { result ≡ suffices self writes }
    {
        match self {
            Right::Nothing => false,
            Right::Reads => !writes,
            Right::Writes => true,
        }
    }

    /// The right with a grant of the same object.
    fn joined(self, writes: bool) -> Right
        ensures { result ≡ joined self writes }
    {
        if writes {
            return Right::Writes;
        }
        match self {
            Right::Nothing => Right::Reads,
            right => right,
        }
    }
}

impl Rights {
    /// What the grants come to.
    pub(crate) fn of(grants: Grants) -> Self
        ensures { result ≡ grants }
    {
        let table = table_of(&grants);
        let open_to = last_open(&grants, &table);
        Rights {
            grants,
            open_to,
            table,
        }
    }

    pub(crate) fn grants(&self) -> &Grants
        ensures { result.now ≡ self.now }
    {
        &self.grants
    }

    /// Whether the object of the number may be read, or written too. What is no object's number needs no grant.
    #[inline(always)]
    pub(crate) fn allow(&self, number: u64, writes: bool) -> bool
        ensures { result ≡ is_granted self.now writes number }
    {
        if number > OBJECT_LIMIT as u64 {
            return true;
        }
        self.allow_object(number as usize, writes)
    }

    /// Whether each object up to that number may be read and written: no table is needed for it.
    #[inline(always)]
    pub(crate) fn is_open(&self, number: u32) -> bool
        ensures open { result ≡ true → IsOpen self.now number }
        ensures closed { IsOpen self.now number → result ≡ true }
    {
        number <= self.open_to
    }

    /// Whether the object of a number that an object may have may be read, or written too.
    #[inline(always)]
    pub(crate) fn allow_object(&self, number: usize, writes: bool) -> bool
        requires { number ≤ object_limit }
        ensures { result ≡ is_granted self.now writes number }
    {
        self.table[number].suffices(writes)
    }
}

/// The greatest number up to which each object may be read and written.
fn last_open(grants: &Grants, table: &Table) -> u32
    requires { IsTableOf grants.now table.now }
    ensures { IsLastOpen grants.now result }
{
    if grants.is_all() {
        return OBJECT_LIMIT as u32;
    }
    let mut last = 0;
    while last < OBJECT_LIMIT && table[last + 1].suffices(true) {
        last += 1;
    }
    last as u32
}

/// The same right to each number.
#[tactic(auto, unfolding(crate::specs::Rights::full_of))]
fn full_of(right: Right) -> Table
    ensures { result ≡ full_of right }
{
    [right; NUMBERS]
}

fn table_of(grants: &Grants) -> Table
    ensures { IsTableOf grants.now result }
{
    if grants.is_all() {
        return full_of(Right::Writes);
    }
    let mut table = full_of(Right::Nothing);
    table[0] = Right::Writes;
    let all = grants.kept();
    for kept in all {
        add(&mut table, kept.grant());
    }
    table
}

fn add(table: &mut Table, grant: Grant)
    ensures { HasMore table.old grant table.new }
{
    let number = grant.number as usize;
    if number < NUMBERS {
        table[number] = table[number].joined(grant.writes);
    }
}
