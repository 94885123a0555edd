ghost use Rattle.std.specs.Prelude.{◌≡◌, ℕ, ◌+◌, ◌%◌, ◌<◌, ◌≤◌};
ghost use Rattle.std.specs.Prelude.{true, [], length, slice_index, IfOk, OnOk};
ghost use Rattle.graph_theory.specs.Graph.{IsGraph, edge_at, touches, degree};
ghost use Rattle.graph_theory.specs.Walk.{IsClosedWalk};
ghost use Rattle.weighted_graph.specs.Index.{IsIndex};
ghost use Rattle.weighted_graph.specs.Left.{ArePassed};
ghost use Rattle.gadget_base.specs.Listed.{times};
ghost use Rattle.graph_parts.specs.Connected.{HasConnectedEdges};

use mb_base::{EdgeId, OutOfMemory, VertexId};
use std::alloc::Global;
use weighted_graph::{Graph, Incidence, take_left};

/// Goes on along edges that are left, and if none is, the last edge goes over to the finished walk.
/// At the start neither walk has an edge.
fn walk_on(
    graph: &Graph,
    index: &Incidence,
    cursors: &mut [usize],
    left: &mut [u32],
    opened: &mut Vec<EdgeId>,
    finished: &mut Vec<EdgeId>,
    start: VertexId,
) -> Result<(), OutOfMemory>
    requires graph { IsGraph graph.now }
    requires index { IsIndex graph.now index.now }
    requires passed { ArePassed graph.now left.old cursors.old }
    requires opened { opened.old.items ≡ [] }
    requires finished { finished.old.items ≡ [] }
    requires size { length left.old ≡ length graph.now.edges }
    requires even { (v : ℕ) → 1 ≤ v → v ≤ graph.now.vertices
        → degree graph.now left.old v % 2 ≡ 0 }
    requires all { (k : ℕ) → k < length graph.now.edges → 1 ≤ slice_index left.old k }
    requires connected { HasConnectedEdges graph.now }
    requires start { (k : ℕ) × (k < length graph.now.edges)
        × (touches (edge_at graph.now k) start ≡ true) }
    ensures closed { OnOk result (IsClosedWalk graph.now start finished.new.items) }
    ensures uses { OnOk result ((k : ℕ) → k < length graph.now.edges
        → times finished.new.items (k + 1) ≡ slice_index left.old k) }
{
    let mut here = start;
    'walk: loop {
        if let Some(edge) = take_left(graph, index, cursors, left, here) {
            opened.push(edge)?;
            here = graph.other_end(edge, here);
        } else if let Some(edge) = opened.pop() {
            finished.push(edge)?;
            here = graph.other_end(edge, here);
        } else {
            return Ok(());
        }
    }
}

/// The walk of `trace` over the graph's index.
fn walk_over(
    alloc: Global,
    graph: &Graph,
    index: &Incidence,
    left: &mut [u32],
    start: VertexId,
) -> Result<Vec<EdgeId>, OutOfMemory>
    requires graph { IsGraph graph.now }
    requires index { IsIndex graph.now index.now }
    requires size { length left.old ≡ length graph.now.edges }
    requires even { (v : ℕ) → 1 ≤ v → v ≤ graph.now.vertices
        → degree graph.now left.old v % 2 ≡ 0 }
    requires all { (k : ℕ) → k < length graph.now.edges → 1 ≤ slice_index left.old k }
    requires connected { HasConnectedEdges graph.now }
    requires start { (k : ℕ) × (k < length graph.now.edges)
        × (touches (edge_at graph.now k) start ≡ true) }
    ensures closed { IfOk result (λ walk. IsClosedWalk graph.now start walk.items) }
    ensures uses { IfOk result
        (λ walk. (k : ℕ) → k < length graph.now.edges
        → times walk.items (k + 1) ≡ slice_index left.old k) }
{
    let mut cursors = vec![in alloc; 0usize; graph.vertices() as usize + 1]?;
    let mut opened = Vec::with_capacity(alloc, 2 * left.len())?;
    let mut finished = Vec::with_capacity(alloc, 2 * left.len())?;
    walk_on(
        graph,
        index,
        &mut cursors,
        left,
        &mut opened,
        &mut finished,
        start,
    )?;
    Ok(finished)
}

/// A closed walk from the start that uses each edge as often as is left of it (Hierholzer's way):
/// it goes on along edges that are left, and if none is, the last edge goes over to the finished
/// walk.
pub(crate) fn trace(
    alloc: Global,
    graph: &Graph,
    uses: Vec<u32>,
    start: VertexId,
) -> Result<Vec<EdgeId>, OutOfMemory>
    requires size { length uses.items ≡ length graph.now.edges }
    requires even { (v : ℕ) → 1 ≤ v → v ≤ graph.now.vertices
        → degree graph.now uses.items v % 2 ≡ 0 }
    requires all { (k : ℕ) → k < length graph.now.edges → 1 ≤ slice_index uses.items k }
    requires connected { HasConnectedEdges graph.now }
    requires start { (k : ℕ) × (k < length graph.now.edges)
        × (touches (edge_at graph.now k) start ≡ true) }
    ensures closed { IfOk result (λ walk. IsClosedWalk graph.now start walk.items) }
    ensures uses { IfOk result
        (λ walk. (k : ℕ) → k < length graph.now.edges
        → times walk.items (k + 1) ≡ slice_index uses.items k) }
{
    let index = graph.index()?;
    let mut left = uses;
    walk_over(alloc, graph, &index, &mut left, start)
}
