ghost use Rattle.std.specs.Prelude.{◌≡◌, ◌≤◌, [], IfOk};
ghost use Rattle.std.specs.Vec.{vec_capacity};

use base_types::OutOfMemory;
use std::alloc::{AllocError, Global};

/// An empty list with room for so many entries.
///
/// # Errors
///
/// `OutOfMemory` if an allocation fails.
pub fn room_for<T: Drop>(alloc: Global, entries: usize) -> Result<Vec<T>, OutOfMemory>
    ensures room { IfOk result (λ list. entries ≤ vec_capacity list) }
    ensures empty { IfOk result (λ list. list.items ≡ []) }
{
    let list = Vec::with_capacity(alloc, entries)?;
    if list.capacity() < entries {
        return Err(AllocError);
    }
    Ok(list)
}
