//! The objects of a table.
ghost use Rattle.std.specs.Prelude.{◌≡◌, length, IfOk};

use std::alloc::{AllocError, Global};

/// A body of eight bytes, and one of two.
pub fn bodies(alloc: Global) -> Result<Vec<Vec<u8>>, AllocError>
    ensures { IfOk result (λ v. length v.items ≡ 2) }
{
    Ok(vec![in alloc; vec![in alloc; 0u8; 8]?, vec![in alloc; 0u8; 2]?]?)
}
