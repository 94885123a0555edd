ghost use Rattle.std.specs.Prelude.{◌≡◌, ◌↔◌, ◌≤◌, length, All, IsTrue, IfOk};
ghost use Rattle.gallai_theory.specs.Decomposition.{Alternates, IsEvenPath};
ghost use Rattle.mb_problem.specs.Degrees.{AreDegrees};
ghost use Rattle.mb_problem.specs.Network.{IsNetwork, vertices, graph_of};

use mb_base::{EdgeId, OutOfMemory, VertexId};
use mb_problem::{Instance, vertices_differ, walk_end};
use std::alloc::Global;

/// Whether edges are in the matching and outside it in turn, the first in it, an even number.
fn alternates(counts: &[u32], edges: &[EdgeId]) -> bool
    requires { All (λ e. (1 ≤ e) × (e ≤ length counts.now)) edges.now }
    ensures { IsTrue result ↔ Alternates counts.now edges.now }
{
    let mut wanted = 1;
    for edge in edges {
        if counts[edge.number() as usize - 1] != wanted {
            return false;
        }
        wanted = 1 - wanted;
    }
    wanted == 1
}

/// Whether edges are a path that comes to no vertex twice, of even length, along a matching in turn
/// from a vertex to one that the matching misses. It takes time and memory linear in the vertices.
///
/// # Errors
///
/// `OutOfMemory` if an allocation fails.
pub fn is_even_path(
    alloc: Global,
    instance: &Instance,
    counts: &[u32],
    degrees: &[u64],
    start: VertexId,
    edges: &[EdgeId],
) -> Result<bool, OutOfMemory>
    requires one_each { length counts.now ≡ length instance.now.edges }
    requires degrees { AreDegrees instance.now counts.now degrees.now }
    requires low { 1 ≤ start }
    requires high { start ≤ vertices instance.now }
    requires network { IsNetwork instance.now }

    // Exactly if the edges are a simple alternating path of even length to a missed vertex.
    ensures { IfOk result
        (λ b. IsTrue b ↔ IsEvenPath (graph_of instance.now) counts.now start edges.now) }
{
    let Some(end) = walk_end(instance, start, edges) else {
        return Ok(false);
    };
    if !vertices_differ(alloc, instance, start, edges)? {
        return Ok(false);
    }
    if !alternates(counts, edges) {
        return Ok(false);
    }
    Ok(degrees[end.number() as usize - 1] == 0)
}
