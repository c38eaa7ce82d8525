//! Which objects a machine may reach.
ghost use Rattle.std.specs.Prelude.{◌≡◌, ◌≤◌, ◌<◌, ◌++◌, ◌∷◌, [], false, length};
ghost use Rattle.memory.specs.Objects.{object_limit};
ghost use Rattle.machine.specs.Grants.{GrantState, all_granted, is_writing};
ghost use Rattle.machine.specs.KeptGrants.{grants_in};

use memory::Action;
use std::marker::Model;

/// How many objects are granted one by one at most.
pub const GRANT_LIMIT: usize = 16;

/// An object that a machine may read, or write too.
#[derive(Clone, Copy, Drop, Debug, Default, PartialEq, Eq)]
pub struct Grant {
    pub number: u32,
    pub writes: bool,
}

/// A grant in 16 bits, since grants are passed on with each command. Number 0 keeps none.
#[derive(Clone, Copy, Drop, Debug)]
pub(crate) struct KeptGrant {
    // twice the number, and one more if the object may be written
    word: u16,
}

impl Model for KeptGrant {
    ghost use Rattle.machine.specs.declared.grants.Grant.{Grant};
    ghost use Rattle.machine.specs.KeptGrants.{grant_of, word_of, word_of_grant};

    ghost Value = { Grant };

    ghost view = { λ k. grant_of k.word };

    ghost inverse = { λ g. record { word = word_of g } };

    ghost inverse_ok = { λ k h i. record { word = word_of_grant k.word i } };
}

const NO_GRANT: KeptGrant = KeptGrant { word: 0 };

impl KeptGrant {
    fn of(grant: Grant) -> Self
        requires { grant.number ≤ object_limit }
        ensures { result ≡ grant }
    {
        KeptGrant {
            word: grant.number as u16 * 2 + u16::from(grant.writes),
        }
    }

    pub(crate) fn grant(self) -> Grant
        ensures { result ≡ self }
    {
        Grant {
            number: u32::from(self.word / 2),
            writes: self.word % 2 == 1,
        }
    }
}

/// The objects that a machine may reach: all, for writing, or some. Takes no memory.
#[derive(Drop, Debug)]
pub struct Grants {
    all: bool,
    count: u8,
    // those granted one by one, and none behind the last
    kept: [KeptGrant; GRANT_LIMIT],
}

impl Model for Grants {
    ghost use Rattle.std.specs.Prelude.{length, ◌≡◌};
    ghost use Rattle.machine.specs.Grants.{GrantState};
    ghost use Rattle.machine.specs.KeptGrants.{grants_in, AreKept};

    ghost Value = { GrantState };

    ghost view = { λ g. record { all = g.all; listed = grants_in g.kept } };

    ghost invariant = { λ g. AreKept g.count g.kept × (length g.kept ≡ 16) };
}

impl Grants {
    /// All objects, for writing.
    pub fn all() -> Self
        ensures { result ≡ all_granted }
    {
        Grants {
            all: true,
            count: 0,
            kept: [NO_GRANT; GRANT_LIMIT],
        }
    }

    /// No object.
    pub fn none() -> Self
        ensures { result ≡ record { all = false; listed = [] } }
    {
        Grants {
            all: false,
            count: 0,
            kept: [NO_GRANT; GRANT_LIMIT],
        }
    }

    /// One object more.
    pub fn add(&mut self, grant: Grant)
        requires room { length self.old.listed < GRANT_LIMIT }
        requires object { (1 ≤ grant.number) × (grant.number ≤ object_limit) }
        ensures { self.new ≡ record self.old { listed = self.old.listed ++ grant ∷ [] } }
    {
        let count = self.count;
        self.kept[count as usize] = KeptGrant::of(grant);
        self.count = count + 1;
    }

    /// Whether all objects are granted.
    pub fn is_all(&self) -> bool
        ensures { result ≡ self.now.all }
    {
        self.all
    }

    /// The grants one by one, and none behind the last.
    pub(crate) fn kept(&self) -> &[KeptGrant]
        ensures { grants_in result.now ≡ self.now.listed }
    {
        self.kept.as_slice()
    }
}

pub fn is_writing(action: &Action) -> bool
    ensures { result ≡ is_writing action.now }
{
    match action {
        Action::Load { .. } => false,
        Action::Store { .. } | Action::Atomic { .. } => true,
    }
}
