//! The rule of the table, and the nine kinds of step. A proof of a step is as good as this list: no other module has kinds.
ghost use Rattle.shared_objects.specs.Kinds.{opens_scope, closes_scope, leaves_pass, takes_turn, gives_turn, gives_up_turn, begins_leave, ends_leave};
ghost use Rattle.shared_objects.specs.Kinds.{begins_return, ends_return, cools, looks, dealer, dealt, newcomer, gathers};
ghost use Rattle.shared_objects.specs.Rule.{Kept, spent};
ghost use Rattle.shared_objects.specs.Opening.{opening_bytes};

use crate::body::Body;
use crate::view::View;
use atomic_table::{Join, Play, Split, TableRule};
use std::marker::{Brand, PhantomData};
use std::snapshot::Snapshot;

/// What a table is told when it is opened: its bytes, and whether the far store gives back what was put.
#[derive(Drop)]
pub struct Key {
    pub bodies: Snapshot<Vec<Vec<u8>>>,
    pub returns: bool,
}

/// The rule of the table.
pub struct Rule;

impl TableRule<Body, View, Key> for Rule {
    ghost holds = { λ key. Kept key.returns (opening_bytes key.bodies.value) };

    ghost first = { λ key. dealer key.returns (opening_bytes key.bodies.value) };
}

/// The first seat makes one more.
pub struct Deals;

impl Split<View> for Deals {
    ghost left = { dealt };

    ghost right = { newcomer };
}

/// The first seat takes another in.
pub struct Gathers;

impl Join<View> for Gathers {
    ghost both = { gathers };

    ghost spent = { spent };
}

/// Adds one to the count: the object is open if it was here, otherwise `LeavesPass` has to take the one back.
pub struct OpensScope;

impl Play<Body, View> for OpensScope {
    ghost then = { opens_scope };
}

/// Takes one from the count: the object was open.
pub struct ClosesScope;

impl Play<Body, View> for ClosesScope {
    ghost then = { closes_scope };
}

/// Takes one from the count: `OpensScope` had found the object away.
pub struct LeavesPass;

impl Play<Body, View> for LeavesPass {
    ghost then = { leaves_pass };
}

/// Sets the marks of a turn and of heat. If nobody had the turn, the seat has it now, with the bytes.
pub struct TakesTurn;

impl Play<Body, View> for TakesTurn {
    ghost then = { takes_turn };
}

/// The entry that a step adds, which a call picks.
pub trait Told {
    ghost use Rattle.shared_objects.specs.declared.view.SharedEntry.{SharedEntry};

    ghost entry: { SharedEntry };
}

impl Told for Brand {
    ghost use Rattle.shared_objects.specs.Kinds.{no_entry};

    ghost entry = { no_entry };
}

/// Clears the mark of the turn and puts the entry's stamp into the word.
pub struct GivesTurn<T>(PhantomData<T>);

impl<T: Told> Play<Body, View> for GivesTurn<T> {
    ghost then = { gives_turn T.entry };
}

/// Clears the mark of the turn without an entry, since the stamps have run out.
pub struct GivesUpTurn;

impl Play<Body, View> for GivesUpTurn {
    ghost then = { gives_up_turn };
}

/// From here to on its way, if the word is still the one that was read. The mover has the bytes then.
pub struct BeginsLeave;

impl Play<Body, View> for BeginsLeave {
    ghost then = { begins_leave };
}

/// From on its way to far, when the far store has the bytes.
pub struct EndsLeave;

impl Play<Body, View> for EndsLeave {
    ghost then = { ends_leave };
}

/// From far to on its way: the mover has the slot, to fetch the bytes into it.
pub struct BeginsReturn;

impl Play<Body, View> for BeginsReturn {
    ghost then = { begins_return };
}

/// From on its way to here, when the bytes are in the slot again.
pub struct EndsReturn;

impl Play<Body, View> for EndsReturn {
    ghost then = { ends_return };
}

/// Clears the mark of heat and finds whether it was set, so that hot objects stay.
pub struct Cools;

impl Play<Body, View> for Cools {
    ghost then = { cools };
}

/// What a table was told when it was opened, which a call picks.
pub trait Opened {
    ghost use Rattle.std.specs.Prelude.{Bool, List, ℕ};

    ghost returns: { Bool };

    ghost opening: { List (List ℕ) };
}

impl Opened for Brand {
    ghost use Rattle.std.specs.Prelude.{false, []};

    ghost returns = { false };

    ghost opening = { [] };
}

/// A look, which changes nothing.
pub struct Looks<T>(PhantomData<T>);

impl<T: Opened> Play<Body, View> for Looks<T> {
    ghost then = { looks T.returns T.opening };
}
