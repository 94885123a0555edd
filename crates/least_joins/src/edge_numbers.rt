ghost use Rattle.std.specs.Prelude.{◌≡◌, ◌-◌, ◌≤◌, length, slice_index, map, All, IfOk};

use mb_base::{EdgeId, OutOfMemory};
use std::alloc::Global;

/// Edges that are given by their places among these, by their numbers.
///
/// # Errors
///
/// `OutOfMemory` if an allocation fails.
pub fn numbers_of(
    alloc: Global,
    numbers: &[EdgeId],
    edges: &[EdgeId],
) -> Result<Vec<EdgeId>, OutOfMemory>
    requires edges { All (λ e. (1 ≤ e) × (e ≤ length numbers.now)) edges.now }

    // The number at each of these places, in the same order.
    ensures { IfOk result (λ v. v.items ≡ map (λ e. slice_index numbers.now (e - 1)) edges.now) }
{
    let mut all = Vec::with_capacity(alloc, edges.len())?;
    for edge in edges {
        all.push(numbers[edge.number() as usize - 1])?;
    }
    Ok(all)
}
