ghost use Rattle.std.specs.Prelude.{◌≡◌, ℕ, ◌+◌, ◌-◌, ◌<◌, ◌≤◌, ◌↔◌, ◌⊎◌, ◌%◌, true, length, All};
ghost use Rattle.std.specs.Prelude.{IsTrue, IsSome, IfSome, IfOk, MatchOption};
ghost use Rattle.graph_theory.specs.Graph.{IsEdgeNumber, edge_of, touches, other_end};
ghost use Rattle.graph_theory.specs.Parts.{holds};
ghost use Rattle.graph_theory.specs.Walk.{IsWalk, IsClosedWalk, walk_end, walk_vertices};
ghost use Rattle.graph_theory.specs.Walk.{AllDiffer, IsCircuit};
ghost use Rattle.mb_problem.specs.Network.{Network, IsNetwork, vertices, graph_of};
ghost use Rattle.mb_problem.specs.Feasible.{IsTour, AreEnds, IsPath, IsPathOf};

use crate::instance::Instance;
use crate::marks::{are_all_marked, edges_differ, mark, marks_of};
use mb_base::{EdgeId, OutOfMemory, VertexId};
use std::alloc::Global;

/// If an edge leads to from a vertex, if that is one of its ends.
fn step(instance: &Instance, at: VertexId, e: EdgeId) -> Option<VertexId>
    ensures { MatchOption result
        (¬ (IsEdgeNumber (graph_of instance.now) e
        × (touches (edge_of (graph_of instance.now) e) at ≡ true)))
        (λ to. IsEdgeNumber (graph_of instance.now) e
        × (touches (edge_of (graph_of instance.now) e) at ≡ true)
        × (to ≡ other_end (edge_of (graph_of instance.now) e) at)) }
{
    if e.number() == 0 {
        return None;
    }
    if e.number() > instance.edges() {
        return None;
    }
    let (u, v, _, _) = instance.edge(e);
    if u == at {
        return Some(v);
    }
    if v == at {
        return Some(u);
    }
    None
}

/// Where a walk ends; nothing if the edges aren't a walk from the start.
pub fn walk_end(instance: &Instance, start: VertexId, edges: &[EdgeId]) -> Option<VertexId>
    ensures walk { IsSome result ↔ IsWalk (graph_of instance.now) start edges.now }
    ensures end { IfSome result (λ end. end ≡ walk_end (graph_of instance.now) start edges.now) }
{
    let mut at = start;
    for e in edges {
        at = step(instance, at, *e)?;
    }
    Some(at)
}

/// Whether the edges are a walk from the start back to it, of at least one edge.
fn is_round_trip(instance: &Instance, start: VertexId, edges: &[EdgeId]) -> bool
    ensures { IsTrue result ↔ ((1 ≤ length edges.now)
        × IsClosedWalk (graph_of instance.now) start edges.now) }
{
    match walk_end(instance, start, edges) {
        Some(end) => !edges.is_empty() && end == start,
        None => false,
    }
}

/// Whether each edge is listed.
fn uses_all(alloc: Global, instance: &Instance, edges: &[EdgeId]) -> Result<bool, OutOfMemory>
    requires { All (IsEdgeNumber (graph_of instance.now)) edges.now }
    ensures { IfOk result (λ b. IsTrue b ↔ ((e : ℕ) → 1 ≤ e → e ≤ length instance.now.edges
        → holds edges.now e ≡ true)) }
{
    let marks = marks_of(alloc, instance.edges(), edges)?;
    Ok(are_all_marked(&marks))
}

/// Whether a walk comes to no vertex twice.
pub fn vertices_differ(
    alloc: Global,
    instance: &Instance,
    start: VertexId,
    edges: &[EdgeId],
) -> Result<bool, OutOfMemory>
    requires low { 1 ≤ start }
    requires high { start ≤ vertices instance.now }
    requires walk { IsWalk (graph_of instance.now) start edges.now }
    ensures { IfOk result (λ b. IsTrue b
        ↔ AllDiffer (walk_vertices (graph_of instance.now) start edges.now)) }
{
    let mut marks = vec![in alloc; false; instance.vertices() as usize]?;
    mark(&mut marks, start.number());
    let mut at = start;
    for e in edges {
        let Some(to) = step(instance, at, *e) else {
            return Ok(false);
        };
        if !mark(&mut marks, to.number()) {
            return Ok(false);
        }
        at = to;
    }
    Ok(true)
}

/// Whether the edges are a closed walk that uses each edge, of at least one.
pub fn is_tour(
    alloc: Global,
    instance: &Instance,
    start: VertexId,
    edges: &[EdgeId],
) -> Result<bool, OutOfMemory>
    ensures { IfOk result (λ b. IsTrue b ↔ IsTour instance.now start edges.now) }
{
    if !is_round_trip(instance, start, edges) {
        return Ok(false);
    }
    uses_all(alloc, instance, edges)
}

/// Whether a vertex is one of these two.
fn is_one_of(v: u32, s: VertexId, t: VertexId) -> bool
    ensures { IsTrue result ↔ ((v ≡ s) ⊎ (v ≡ t)) }
{
    v == s.number() || v == t.number()
}

/// Whether two vertices are those of odd value, the lesser first.
fn are_ends(instance: &Instance, s: VertexId, t: VertexId) -> bool
    ensures { IsTrue result ↔ AreEnds instance.now s t }
{
    if s.number() == 0 {
        return false;
    }
    if s.number() >= t.number() {
        return false;
    }
    if t.number() > instance.vertices() {
        return false;
    }
    for (k, value) in instance.value_list().iter().enumerate() {
        let is_odd = *value % 2 == 1;
        if is_odd != is_one_of(k as u32 + 1, s, t) {
            return false;
        }
    }
    true
}

/// Whether the edges are a path between the two vertices of odd value, from the lesser one.
pub fn is_path(
    alloc: Global,
    instance: &Instance,
    start: VertexId,
    edges: &[EdgeId],
) -> Result<bool, OutOfMemory>
    ensures { IfOk result (λ b. IsTrue b ↔ IsPath instance.now start edges.now) }
{
    if edges.is_empty() {
        return Ok(false);
    }
    let Some(finish) = walk_end(instance, start, edges) else {
        return Ok(false);
    };
    if !are_ends(instance, start, finish) {
        return Ok(false);
    }
    vertices_differ(alloc, instance, start, edges)
}

/// Whether the edges are such a path, of an odd number of edges or of an even one.
pub fn is_path_of(
    alloc: Global,
    instance: &Instance,
    odd: bool,
    start: VertexId,
    edges: &[EdgeId],
) -> Result<bool, OutOfMemory>
    ensures { IfOk result (λ b. IsTrue b ↔ IsPathOf odd instance.now start edges.now) }
{
    if (edges.len() % 2 == 1) != odd {
        return Ok(false);
    }
    is_path(alloc, instance, start, edges)
}

/// Whether the edges are a circuit from this vertex: a closed walk of at least one edge that uses
/// no edge and comes to no vertex twice, its start counted once (chapter 3); so a loop is one. It
/// takes time linear in the walk, the vertices and the edges.
pub fn is_circuit(
    alloc: Global,
    instance: &Instance,
    start: VertexId,
    edges: &[EdgeId],
) -> Result<bool, OutOfMemory>
    // Whether a list of edges is a cycle of the instance.
    ensures { IfOk result (λ b. IsTrue b ↔ IsCircuit (graph_of instance.now) start edges.now) }
{
    if !is_round_trip(instance, start, edges) {
        return Ok(false);
    }
    if !edges_differ(alloc, instance.edges(), edges)? {
        return Ok(false);
    }
    vertices_differ(alloc, instance, start, &edges[..edges.len() - 1])
}
