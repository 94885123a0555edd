//! Sets of vertices with their border, and the odd components that this leaves.
ghost use Rattle.std.specs.Prelude.{◌≡◌, ℕ, ◌+◌, ◌<◌, ◌≤◌, ◌^◌, ◌==◌, ◌↔◌, List, length};
ghost use Rattle.std.specs.Prelude.{false, not, ◌&&◌, ◌||◌, slice_index_or, IsTrue, IfOk};
ghost use Rattle.graph_theory.specs.Parts.{IsVertexSet};
ghost use Rattle.gallai_theory.specs.Matchings.{IsBorder};
ghost use Rattle.gallai_theory.specs.Decomposition.{IsDecomposed};
ghost use Rattle.mb_problem.specs.Marks.{AreMarks};
ghost use Rattle.cert_check.specs.Marked.{mark_of};

use crate::parts::{is_marked, marks_of};
use graph_parts::odd_components_within;
use mb_base::{OutOfMemory, VertexId};
use mb_problem::mark;
use std::alloc::Global;
use weighted_graph::Graph;

/// Marks the second vertex, if the first is an outer one and that isn't.
fn mark_beside(near: &mut [bool], outer: &[bool], from: VertexId, to: VertexId)
    requires from { (1 ≤ from) × (from ≤ length outer.now) }
    requires to { (1 ≤ to) × (to ≤ length outer.now) }
    requires size { length near.old ≡ length outer.now }
    ensures size { length near.new ≡ length outer.now }
    ensures each { (k : ℕ) → k < length outer.now → slice_index_or near.new k false
        ≡ (slice_index_or near.old k false
        || (mark_of outer.now from && (not (mark_of outer.now to) && (to == k + 1)))) }
{
    if !is_marked(outer, from) {
        return;
    }
    if is_marked(outer, to) {
        return;
    }
    mark(near, to.number());
}

/// Whether the border is that of the outer vertices: exactly the others with a neighbour among
/// them.
fn is_border(
    alloc: Global,
    graph: &Graph,
    outer: &[bool],
    border: &[VertexId],
) -> Result<bool, OutOfMemory>
    requires outer { length outer.now ≡ graph.now.vertices }
    requires border { IsVertexSet graph.now.vertices border.now }
    ensures { (set : List ℕ) → AreMarks graph.now.vertices outer.now set
        → IfOk result (λ b. IsTrue b ↔ IsBorder graph.now set border.now) }
{
    let mut near = vec![in alloc; false; graph.vertices() as usize]?;
    for edge in graph.edge_list() {
        mark_beside(&mut near, outer, edge.u, edge.v);
        mark_beside(&mut near, outer, edge.v, edge.u);
    }
    let marks = marks_of(alloc, graph.vertices(), border)?;
    Ok(near.as_slice() == marks.as_slice())
}

/// Whether the border is that of the outer vertices, and leaves as many odd components as a
/// matching of this size misses vertices and the border has members, each among the outer ones. It
/// takes time linear in vertices and edges.
pub fn is_decomposed(
    alloc: Global,
    graph: &Graph,
    size: u64,
    outer: &[bool],
    border: &[VertexId],
) -> Result<bool, OutOfMemory>
    requires outer { length outer.now ≡ graph.now.vertices }
    requires border { IsVertexSet graph.now.vertices border.now }
    requires size_limit { size ≤ 2 ^ 62 }
    ensures { (set : List ℕ) → AreMarks graph.now.vertices outer.now set
        → IfOk result (λ b. IsTrue b ↔ IsDecomposed graph.now size set border.now) }
{
    if !is_border(alloc, graph, outer, border)? {
        return Ok(false);
    }
    let Some(odd) = odd_components_within(alloc, graph, border, outer)? else {
        return Ok(false);
    };
    let wanted = u64::from(graph.vertices()) + border.len() as u64;
    Ok(odd + 2 * size == wanted)
}
