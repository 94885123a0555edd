ghost use Rattle.std.specs.Prelude.{◌≡◌, ℕ, ◌+◌, ◌<◌, ◌≤◌, false, length, slice_index, IfOk};
ghost use Rattle.mb_problem.specs.Network.{IsNetwork, vertices};
ghost use Rattle.mb_problem.specs.Size.{edge_count_at};
ghost use Rattle.graph_parts.specs.Marks.{is_marked};
ghost use Rattle.graph_parts.specs.OddParts.{is_terminal};

use crate::marks::no_marks;
use mb_base::{OutOfMemory, VertexId};
use mb_problem::{Instance, Parity, count_edges, odd_by};
use std::alloc::Global;

/// How many edges meet each vertex, a loop twice: the index lists a loop once, so its lists are too
/// short for parities. The count of a vertex stands at the place of its number less 1.
fn edge_counts(alloc: Global, instance: &Instance) -> Result<Vec<u64>, OutOfMemory>
    ensures size { IfOk result (λ counts. length counts.items ≡ vertices instance.now) }
    ensures each { IfOk result (λ counts. (k : ℕ) → k < vertices instance.now
        → slice_index counts.items k ≡ edge_count_at instance.now (k + 1)) }
{
    let mut counts = vec![in alloc; 0u64; instance.vertices() as usize]?;
    count_edges(&mut counts, instance);
    Ok(counts)
}

/// Whether a join of this parity has odd degree at the vertex.
fn is_odd_at(instance: &Instance, counts: &[u64], parity: &Parity, v: VertexId) -> bool
    requires size { length counts.now ≡ vertices instance.now }
    requires each { (k : ℕ) → k < vertices instance.now → slice_index counts.now k
        ≡ edge_count_at instance.now (k + 1) }
    requires low { 1 ≤ v }
    requires high { v ≤ vertices instance.now }
    ensures { result ≡ is_terminal parity.now instance.now v }
{
    let degree = counts[v.number() as usize - 1];
    odd_by(*parity, degree, instance.value(v)) == 1
}

/// A flag at each vertex at which a join of this parity has odd degree. Place 0 isn't a vertex.
pub(crate) fn odd_flags(
    alloc: Global,
    instance: &Instance,
    parity: &Parity,
) -> Result<Vec<bool>, OutOfMemory>
    ensures size { IfOk result (λ flags. length flags.items ≡ vertices instance.now + 1) }
    ensures vertices { IfOk result (λ flags. is_marked flags.items 0 ≡ false) }
    ensures each { IfOk result (λ flags. (v : ℕ) → 1 ≤ v → v ≤ vertices instance.now
        → is_marked flags.items v ≡ is_terminal parity.now instance.now v) }
    ensures network { IsNetwork instance.now }
{
    let count = instance.vertices();
    let counts = edge_counts(alloc, instance)?;
    let mut flags = no_marks(alloc, count as usize + 1)?;
    for number in 0..count {
        let vertex = VertexId::new(number + 1);
        flags[vertex.number() as usize] = is_odd_at(instance, &counts, parity, vertex);
    }
    Ok(flags)
}
