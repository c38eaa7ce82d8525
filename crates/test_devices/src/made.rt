//! Objects, numbers and code.
ghost use Rattle.std.specs.Prelude.{◌≡◌, length, IfOk};

use std::alloc::{AllocError, Global};

/// So many objects of so many bytes, all zero.
pub fn objects(alloc: Global, count: usize, bytes: usize) -> Result<Vec<Vec<u8>>, AllocError>
    ensures { IfOk result (λ v. length v.items ≡ count) }
{
    let mut bodies = Vec::new(alloc);
    'objects: while bodies.len() < count {
        bodies.push(vec![in alloc; 0u8; bytes]?)?;
    }
    Ok(bodies)
}

/// The number that eight bytes are, the least first.
pub fn number_of(bytes: &[u8]) -> Option<u64> {
    Some(u64::from_le_bytes(bytes.try_into().ok()?))
}

/// The code of these slots, each written as its bytes, first to last.
pub fn code(alloc: Global, slots: &[u64]) -> Result<Vec<u8>, AllocError> {
    let mut bytes = Vec::new(alloc);
    for slot in slots {
        bytes.extend_from_slice(&slot.to_be_bytes())?;
    }
    Ok(bytes)
}
