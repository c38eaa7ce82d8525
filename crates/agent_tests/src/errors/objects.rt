//! Errors of objects, and of stores that they are sent to.

use crate::errors::told::are_told;
use far_store::StoreFault;
use far_stream::StreamFault;
use object_store::{Denied, GetError, MakeError, PartsError};
use shared_objects::OpenFault;
use std::test::Fail;

#[test]
fn far_stores(rt: HostRuntime) -> Result<(), Fail> {
    let cases = &[
        (StoreFault::Io, "the store's device failed"),
        (StoreFault::Damaged, "the store gave damaged bytes"),
        (StoreFault::Protocol, "the store gave no proper answer"),
        (StoreFault::Memory, "no memory"),
        (StoreFault::Refused, "the store refused"),
    ];
    are_told(&rt, rt.alloc(), cases)?;
    let ends = &[
        (StreamFault::Io, "the stream failed"),
        (StreamFault::Damaged, "damaged bytes"),
        (StreamFault::Protocol, "protocol broken"),
    ];
    are_told(&rt, rt.alloc(), ends)
}

#[test]
fn refusals(rt: HostRuntime) -> Result<(), Fail> {
    let makes = &[
        (MakeError::Full, "no more objects can be made"),
        (MakeError::NoRoom, "the budget has no room for the object"),
        (MakeError::Memory, "no memory"),
    ];
    are_told(&rt, rt.alloc(), makes)?;
    let gets = &[
        (GetError::Denied(Denied::Outside), "outside the object"),
        (GetError::Denied(Denied::Away), "the object isn't here"),
        (GetError::Memory, "no memory"),
    ];
    are_told(&rt, rt.alloc(), gets)?;
    let puts = &[
        (Denied::Outside, "outside the object"),
        (Denied::Away, "the object isn't here"),
    ];
    are_told(&rt, rt.alloc(), puts)?;
    let parts = &[
        (PartsError::NotHere(7), "object 7 isn't here"),
        (PartsError::Memory, "no memory"),
    ];
    are_told(&rt, rt.alloc(), parts)?;
    are_told(&rt, rt.alloc(), &[(OpenFault::Memory, "no memory")])
}
