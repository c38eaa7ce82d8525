//! Why a call of a store is refused. A refusal changes nothing.
ghost use Rattle.std.specs.Prelude.{◌≡◌};

use std::alloc::AllocError;
use thiserror::Error;

/// Why no object is made.
#[derive(Clone, Copy, Drop, Debug, PartialEq, Eq, Error)]
pub enum MakeError {
    /// As many objects were made as there may be ([`OBJECT_LIMIT`](crate::OBJECT_LIMIT)).
    #[error("no more objects can be made")]
    Full,
    /// With the object the budget would be exceeded.
    #[error("the budget has no room for the object")]
    NoRoom,
    /// An allocation failed.
    #[error("no memory")]
    Memory,
}

/// Why an access of an object is denied.
#[derive(Clone, Copy, Drop, Debug, PartialEq, Eq, Error)]
pub enum Denied {
    /// There is no such object, or the range does not end within its bytes.
    #[error("outside the object")]
    Outside,
    /// The object isn't here.
    #[error("the object isn't here")]
    Away,
}

/// Why a range isn't read.
#[derive(Clone, Copy, Drop, Debug, PartialEq, Eq, Error)]
pub enum GetError {
    /// The access is denied.
    #[error(transparent)]
    Denied(Denied),
    /// An allocation failed.
    #[error("no memory")]
    Memory,
}

impl From<Denied> for GetError {
    ghost use Rattle.object_store.specs.declared.errors.GetError.TheVariants as get_error;

    ghost from_gives = { λ denied error. error ≡ get_error.Denied denied };

    fn from(denied: Denied) -> GetError {
        GetError::Denied(denied)
    }
}

impl From<AllocError> for GetError {
    ghost use Rattle.object_store.specs.declared.errors.GetError.TheVariants as get_error;

    ghost from_gives = { λ _ error. error ≡ get_error.Memory };

    fn from(_error: AllocError) -> GetError {
        GetError::Memory
    }
}

/// Why a store isn't taken apart.
#[derive(Clone, Copy, Drop, Debug, PartialEq, Eq, Error)]
pub enum PartsError {
    /// The object of this number isn't here, the least one.
    #[error("object {0} isn't here")]
    NotHere(u32),
    /// An allocation failed.
    #[error("no memory")]
    Memory,
}

impl From<AllocError> for PartsError {
    ghost use Rattle.object_store.specs.declared.errors.PartsError.TheVariants as parts_error;

    ghost from_gives = { λ _ error. error ≡ parts_error.Memory };

    fn from(_error: AllocError) -> PartsError {
        PartsError::Memory
    }
}
