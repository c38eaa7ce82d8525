//! Where an object is, and what a move did.

use far_store::StoreFault;

/// Where an object is.
#[derive(Clone, Copy, Drop, Debug, PartialEq, Eq)]
pub enum Place {
    /// It may be reached.
    Here,
    /// Its bytes are on their way to the far store.
    Leaving,
    /// The far store has its bytes.
    Far,
    /// Its bytes are on their way back.
    Returning,
}

/// What was done of a move, or of freeing. All but `Done` and `Fault` change nothing.
#[derive(Clone, Copy, Drop, Debug, PartialEq, Eq)]
pub enum Moved {
    /// It was done.
    Done,
    /// There is no object of this number.
    NoObject,
    /// The object is in this place, from which it isn't moved so.
    Misplaced(Place),
    /// A machine has the object in scope.
    Scoped,
    /// With the object the budget would be exceeded.
    NoRoom,
    /// The far store failed, and the object is where it was before the move began.
    Fault(StoreFault),
}
