//! Why an access of an object isn't done. Then the object's bytes are as they were.
ghost use Rattle.std.specs.Prelude.{◌≡◌};
ghost use Rattle.shared_objects.specs.Touches.{reach_of};

use memory::Reach;
use std::alloc::AllocError;
use thiserror::Error;

/// Why an access of an object is denied.
#[derive(Clone, Copy, Drop, Debug, PartialEq, Eq, Error)]
pub enum Denied {
    /// There is no such object, or the range does not end within its bytes.
    #[error("outside the object")]
    Outside,
    /// The object isn't here now.
    #[error("the object isn't here")]
    Away,
    /// Another has its turn on the object.
    #[error("another has the object's turn")]
    Busy,
    /// The object's stamps have run out.
    #[error("the object's stamps have run out")]
    Worn,
}

impl Denied {
    /// The same as what a machine is answered.
    #[inline(always)]
    pub(crate) fn reach(self) -> Reach
        ensures { result ≡ reach_of self }
    {
        match self {
            Denied::Outside => Reach::Outside,
            Denied::Away => Reach::Away,
            Denied::Busy => Reach::Busy,
            Denied::Worn => Reach::Worn,
        }
    }
}

/// Why a range isn't read.
#[derive(Clone, Copy, Drop, Debug, PartialEq, Eq, Error)]
pub enum GetError {
    /// The access is denied.
    #[error(transparent)]
    Denied(Denied),
    /// An allocation failed.
    #[error("no memory")]
    Memory,
}

impl From<Denied> for GetError {
    ghost use Rattle.shared_objects.specs.declared.errors.GetError.TheVariants as get_error;

    ghost from_gives = { λ denied error. error ≡ get_error.Denied denied };

    fn from(denied: Denied) -> GetError {
        GetError::Denied(denied)
    }
}

impl From<AllocError> for GetError {
    ghost use Rattle.shared_objects.specs.declared.errors.GetError.TheVariants as get_error;

    ghost from_gives = { λ _ error. error ≡ get_error.Memory };

    fn from(_error: AllocError) -> GetError {
        GetError::Memory
    }
}
