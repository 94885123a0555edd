ghost use Rattle.std.specs.Prelude.{ℕ, ◌↔◌, List, IsTrue, IfOk};
ghost use Rattle.graph_theory.specs.Graph.{IsPerfect};
ghost use Rattle.graph_theory.specs.Parts.{IsVertexSet};
ghost use Rattle.graph_theory.specs.Barrier.{IsBarrier};

use graph_parts::odd_components;
use mb_base::{OutOfMemory, VertexId};
use std::alloc::Global;
use weighted_graph::Graph;

/// Whether a set of vertices is a barrier: where it is removed, more components have an odd number
/// of vertices than the set has members.
pub fn is_barrier(alloc: Global, graph: &Graph, set: &[VertexId]) -> Result<bool, OutOfMemory>
    requires { IsVertexSet graph.now.vertices set.now }

    // Whether a set is a barrier.
    ensures exact { IfOk result (λ b. IsTrue b ↔ IsBarrier graph.now set.now) }

    // A graph with a barrier has no perfect matching.
    ensures none { IfOk result (λ b. IsTrue b → (counts : List ℕ) → IsPerfect graph.now counts
        → ⊥) }
{
    let odd = odd_components(alloc, graph, set)?;
    Ok((set.len() as u64) < odd)
}
