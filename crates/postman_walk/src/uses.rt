ghost use Rattle.std.specs.Prelude.{◌≡◌, ℕ, ◌+◌, ◌<◌, ◌≤◌, length, slice_index, All, if◌then◌else◌};
ghost use Rattle.std.specs.Prelude.{IfOk};
ghost use Rattle.graph_theory.specs.Parts.{holds};

use mb_base::{EdgeId, OutOfMemory};
use std::alloc::Global;

/// How often each edge is to be used: once, and those of the join twice.
pub(crate) fn uses_of(alloc: Global, count: usize, join: &[EdgeId]) -> Result<Vec<u32>, OutOfMemory>
    requires { All (λ e. (1 ≤ e) × (e ≤ count)) join.now }
    ensures size { IfOk result (λ uses. length uses.items ≡ count) }
    ensures each { IfOk result
        (λ uses. (k : ℕ) → k < count
        → slice_index uses.items k ≡ 1 + (if holds join.now (k + 1) then 1 else 0)) }
{
    let mut uses = vec![in alloc; 1u32; count]?;
    for edge in join {
        uses[edge.number() as usize - 1] = 2;
    }
    Ok(uses)
}
