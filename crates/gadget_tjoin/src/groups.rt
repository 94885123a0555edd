ghost use Rattle.std.specs.Prelude.{◌≡◌, ℕ, ◌+◌, ◌-◌, ◌*◌, ◌/◌, ◌%◌, ◌<◌, ◌≤◌, ◌^◌, ◌++◌, pos};
ghost use Rattle.std.specs.Prelude.{length, slice_index, IfOk, OnOk};
ghost use Rattle.graph_theory.specs.Sums.{sum_to};
ghost use Rattle.mb_problem.specs.declared.limits.TheConstants.{EDGE_LIMIT};
ghost use Rattle.mb_problem.specs.Network.{IsNetwork, vertices};
ghost use Rattle.mb_problem.specs.Size.{edge_count_at, port_count};
ghost use Rattle.mb_problem.specs.Size.{odd_at};
ghost use Rattle.gadget_base.specs.Blocks.{blocks, clique};

use gadget_base::add_clique;
use mb_base::OutOfMemory;
use mb_problem::{Instance, Parity, count_edges, ports_by};
use std::alloc::Global;
use weighted_graph::Graph;

/// How many edges meet each vertex, a loop counted twice.
fn edge_counts(alloc: Global, instance: &Instance) -> Result<Vec<u64>, OutOfMemory>
    ensures size { IfOk result (λ counts. length counts.items ≡ vertices instance.now) }
    ensures each { IfOk result (λ counts. (k : ℕ) → k < vertices instance.now
        → slice_index counts.items k ≡ edge_count_at instance.now (k + 1)) }
    ensures value_limit { IfOk result (λ counts. (k : ℕ) → k < vertices instance.now
        → slice_index counts.items k ≤ 2 * EDGE_LIMIT) }
    ensures network { IsNetwork instance.now }
{
    let mut counts = vec![in alloc; 0u64; instance.vertices() as usize]?;
    count_edges(&mut counts, instance);
    Ok(counts)
}

/// How many ports and spares each vertex has.
pub fn group_sizes(
    alloc: Global,
    instance: &Instance,
    parity: Parity,
) -> Result<Vec<u32>, OutOfMemory>
    ensures size { IfOk result (λ sizes. length sizes.items ≡ vertices instance.now) }
    ensures each { IfOk result (λ sizes. (k : ℕ) → k < vertices instance.now
        → slice_index sizes.items k ≡ port_count instance.now (odd_at parity instance.now)
        (k + 1)) }
    ensures network { IsNetwork instance.now }
{
    let counts = edge_counts(alloc, instance)?;
    let mut sizes = Vec::with_capacity(alloc, counts.len())?;
    for (k, value) in instance.value_list().iter().enumerate() {
        let ports = ports_by(parity, counts[k], *value);
        sizes.push(ports as u32)?;
    }
    Ok(sizes)
}

/// Joins all vertices of each group: group k has `sizes[k]` vertices, after the first `before[k]`.
pub fn add_cliques(graph: &mut Graph, before: &[u32], sizes: &[u32]) -> Result<(), OutOfMemory>
    requires one_each { length sizes.now ≤ length before.now }
    requires inside { (k : ℕ) → k < length sizes.now
        → slice_index before.now k + slice_index sizes.now k ≤ graph.old.vertices }
    requires room { length graph.old.edges + sum_to
        (λ k. slice_index sizes.now k * (slice_index sizes.now k - 1) / 2)
        (length sizes.now) < 2 ^ 32 }
    ensures added { OnOk result (graph.new ≡ record graph.old {
      edges = graph.old.edges ++ blocks
          (λ k. clique (slice_index before.now k) (slice_index sizes.now k) (pos 0))
          (length sizes.now);
    }) }
{
    for (k, size) in sizes.iter().enumerate() {
        add_clique(graph, before[k], *size, 0)?;
    }
    Ok(())
}
