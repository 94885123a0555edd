ghost use Rattle.std.specs.Prelude.{◌≡◌, ℕ, ◌+◌, ◌-◌, ◌*◌, ◌<◌, ◌≤◌, ◌^◌, ◌==◌, if◌then◌else◌};
ghost use Rattle.std.specs.Prelude.{length, slice_index, IfOk};
ghost use Rattle.graph_theory.specs.Graph.{ends_at, IsEdgeWithin};
ghost use Rattle.mb_problem.specs.Network.{Network, IsNetwork, plain, vertices};
ghost use Rattle.mb_problem.specs.Size.{edge_count_at};
ghost use Rattle.mb_problem.specs.Degrees.{AreDegrees};

use crate::instance::{Instance, InstanceEdge};
use crate::limits::EDGE_LIMIT;
use mb_base::{OutOfMemory, VertexId};
use std::alloc::Global;

/// Adds a count to the degree of a vertex.
fn add_at(degrees: &mut [u64], v: VertexId, count: u32)
    requires low { 1 ≤ v }
    requires high { v ≤ length degrees.old }
    requires value_limit { slice_index degrees.old (v - 1) < 2 ^ 63 }
    ensures size { length degrees.new ≡ length degrees.old }
    ensures each { (k : ℕ) → k < length degrees.old → slice_index degrees.new k
        ≡ slice_index degrees.old k + (if v == k + 1 then count else 0) }
{
    degrees[v.number() as usize - 1] += u64::from(count);
}

/// Adds a count to the degrees of both ends of an edge.
fn add_edge(degrees: &mut [u64], edge: &InstanceEdge, count: u32)
    requires ends { IsEdgeWithin (length degrees.old) (plain edge.now) }
    requires value_limit { (k : ℕ) → k < length degrees.old → slice_index degrees.old k < 2 ^ 62 }
    ensures size { length degrees.new ≡ length degrees.old }
    ensures each { (k : ℕ) → k < length degrees.old → slice_index degrees.new k
        ≡ slice_index degrees.old k + count * ends_at (plain edge.now) (k + 1) }
{
    add_at(degrees, edge.u, count);
    add_at(degrees, edge.v, count);
}

/// Adds each count to the degrees of both ends of its edge. At the start all degrees are 0.
fn add_counts(degrees: &mut [u64], instance: &Instance, counts: &[u32])
    requires counts { length counts.now ≡ length instance.now.edges }
    requires one_each { length degrees.old ≡ vertices instance.now }
    requires start { (k : ℕ) → k < length degrees.old → slice_index degrees.old k ≡ 0 }
    ensures { AreDegrees instance.now counts.now degrees.new }
{
    for (k, edge) in instance.edge_list().iter().enumerate() {
        add_edge(degrees, edge, counts[k]);
    }
}

/// The degrees of all vertices, in one pass over the edges.
pub fn degrees_of(
    alloc: Global,
    instance: &Instance,
    counts: &[u32],
) -> Result<Vec<u64>, OutOfMemory>
    requires { length counts.now ≡ length instance.now.edges }
    ensures { IfOk result (λ degrees. AreDegrees instance.now counts.now degrees.items) }
{
    let mut degrees = vec![in alloc; 0u64; instance.vertices() as usize]?;
    add_counts(&mut degrees, instance, counts);
    Ok(degrees)
}

/// Counts the edges at each vertex, a loop twice, in one pass over the edges. At the start all are
/// 0. The count of a vertex stands at the place of its number less 1.
pub fn count_edges(degrees: &mut [u64], instance: &Instance)
    requires room { vertices instance.now ≤ length degrees.old }
    requires start { (k : ℕ) → k < length degrees.old → slice_index degrees.old k ≡ 0 }
    ensures size { length degrees.new ≡ length degrees.old }
    ensures counts { (k : ℕ) → k < vertices instance.now → slice_index degrees.new k
        ≡ edge_count_at instance.now (k + 1) }
    ensures value_limit { (k : ℕ) → k < vertices instance.now → slice_index degrees.new k
        ≤ 2 * EDGE_LIMIT }
{
    for edge in instance.edge_list() {
        add_edge(degrees, edge, 1);
    }
}
