ghost use Rattle.std.specs.Prelude.{◌≡◌, ℕ, ◌+◌, ◌-◌, ◌%◌, ◌≤◌, ◌↔◌, List, length, All, None};
ghost use Rattle.std.specs.Prelude.{true, false, slice_index_or, IsTrue, IfOk, IfSome};
ghost use Rattle.graph_theory.specs.Graph.{IsGraph};
ghost use Rattle.graph_theory.specs.Parts.{holds, IsVertexSet};
ghost use Rattle.graph_theory.specs.Barrier.{IsOddCount};
ghost use Rattle.gallai_theory.specs.Decomposition.{HoldsOddComponents};
ghost use Rattle.weighted_graph.specs.Index.{IsIndex};
ghost use Rattle.graph_parts.specs.Marks.{MarksSet};
ghost use Rattle.graph_parts.specs.Heads.{SeenBelow};
ghost use Rattle.graph_parts.specs.Forests.{Visited};

use crate::links::Link;
use crate::marks::{mark_all, no_marks};
use crate::search::search;
use mb_base::{OutOfMemory, VertexId};
use std::alloc::Global;
use weighted_graph::{Graph, Incidence};

fn is_odd(members: &[VertexId]) -> bool
    ensures { IsTrue result ↔ (length members.now % 2 ≡ 1) }
{
    members.len() % 2 == 1
}

/// Whether the vertex is the least of a component of odd size, where all components of lesser
/// vertices are marked. Its own is marked then, and the links of a tree that spans it are added.
pub(crate) fn visit(
    graph: &Graph,
    index: &Incidence,
    removed: &[bool],
    vertex: VertexId,
    seen: &mut [bool],
    reached: &mut Vec<VertexId>,
    links: &mut Vec<Link>,
) -> Result<bool, OutOfMemory>
    requires graph { IsGraph graph.now }
    requires index { IsIndex graph.now index.now }
    requires low { 1 ≤ vertex }
    requires high { vertex ≤ graph.now.vertices }
    requires removed { length removed.now ≡ graph.now.vertices + 1 }
    requires size { length seen.old ≡ graph.now.vertices + 1 }
    ensures { IfOk result (λ odd. (set : List ℕ) → MarksSet removed.now set
        → SeenBelow graph.now set vertex seen.old
        → Visited graph.now set vertex odd seen.old seen.new reached.new.items links.old.items
        links.new.items) }
{
    let place = vertex.number() as usize;
    if seen[place] {
        return Ok(false);
    }
    if removed[place] {
        return Ok(false);
    }
    search(graph, index, removed, vertex, seen, reached, links)?;
    Ok(is_odd(reached))
}

/// A mark at each vertex of the set. Place 0 isn't a vertex.
fn marks_of(alloc: Global, graph: &Graph, members: &[VertexId]) -> Result<Vec<bool>, OutOfMemory>
    requires { IsVertexSet graph.now.vertices members.now }
    ensures size { IfOk result (λ marks. length marks.items ≡ graph.now.vertices + 1) }
    ensures marks { IfOk result (λ marks. MarksSet marks.items members.now) }
{
    let mut marks = no_marks(alloc, graph.vertices() as usize + 1)?;
    mark_all(&mut marks, members);
    Ok(marks)
}

/// How many components have an odd number of vertices where the marked vertices are removed.
fn count_odd(
    alloc: Global,
    graph: &Graph,
    index: &Incidence,
    out: &[bool],
) -> Result<u64, OutOfMemory>
    requires graph { IsGraph graph.now }
    requires index { IsIndex graph.now index.now }
    requires out { length out.now ≡ graph.now.vertices + 1 }
    ensures { (set : List ℕ) → MarksSet out.now set → IfOk result (IsOddCount graph.now set) }
{
    let mut seen = no_marks(alloc, graph.vertices() as usize + 1)?;
    let mut reached = Vec::new(alloc);
    let mut links = Vec::new(alloc);
    let mut count = 0u64;
    for number in 0..graph.vertices() {
        let vertex = VertexId::new(number + 1);
        if visit(
            graph,
            index,
            out,
            vertex,
            &mut seen,
            &mut reached,
            &mut links,
        )? {
            count += 1;
        }
    }
    Ok(count)
}

/// How many components have an odd number of vertices where the set is removed. It takes time
/// linear in vertices and edges.
pub fn odd_components(
    alloc: Global,
    graph: &Graph,
    removed: &[VertexId],
) -> Result<u64, OutOfMemory>
    requires { IsVertexSet graph.now.vertices removed.now }

    // How many components of odd size a set leaves.
    ensures count { IfOk result (IsOddCount graph.now removed.now) }
    ensures graph { IsGraph graph.now }
{
    let index = graph.index()?;
    let out = marks_of(alloc, graph, removed)?;
    count_odd(alloc, graph, &index, &out)
}

/// Whether each of these vertices is marked; the mark of a vertex stands at the place of its number
/// less 1.
fn are_all_inside(inside: &[bool], members: &[VertexId]) -> bool
    requires { All (λ v. (1 ≤ v) × (v ≤ length inside.now)) members.now }
    ensures { IsTrue result ↔ All (λ v. slice_index_or inside.now (v - 1) false ≡ true)
        members.now }
{
    members.iter().all(|v| inside[v.number() as usize - 1])
}

/// The same count as that of `count_odd`, or nothing if a component of odd size isn't inside.
fn count_odd_within(
    alloc: Global,
    graph: &Graph,
    index: &Incidence,
    out: &[bool],
    inside: &[bool],
) -> Result<Option<u64>, OutOfMemory>
    requires graph { IsGraph graph.now }
    requires index { IsIndex graph.now index.now }
    requires out { length out.now ≡ graph.now.vertices + 1 }
    requires some { (set : List ℕ) × MarksSet out.now set }
    requires inside { length inside.now ≡ graph.now.vertices }
    ensures count { (removed : List ℕ) → MarksSet out.now removed
        → IfOk result (λ o. IfSome o (IsOddCount graph.now removed)) }
    ensures within { (removed : List ℕ) → MarksSet out.now removed → (set : List ℕ)
        → ((v : ℕ) → 1 ≤ v → v ≤ graph.now.vertices
        → holds set v ≡ slice_index_or inside.now (v - 1) false)
        → IfOk result (λ o. (o ≡ None → HoldsOddComponents graph.now set removed → ⊥)
        × IfSome o (λ _. HoldsOddComponents graph.now set removed)) }
{
    let mut seen = no_marks(alloc, graph.vertices() as usize + 1)?;
    let mut reached = Vec::new(alloc);
    let mut links = Vec::new(alloc);
    let mut count = 0u64;
    for number in 0..graph.vertices() {
        let vertex = VertexId::new(number + 1);
        if visit(
            graph,
            index,
            out,
            vertex,
            &mut seen,
            &mut reached,
            &mut links,
        )? {
            if !are_all_inside(inside, &reached) {
                return Ok(None);
            }
            count += 1;
        }
    }
    Ok(Some(count))
}

/// The same count, where each component of odd size lies among the marked vertices, and nothing if
/// one doesn't. The mark of a vertex stands at the place of its number less 1. It takes time linear
/// in vertices and edges.
pub fn odd_components_within(
    alloc: Global,
    graph: &Graph,
    removed: &[VertexId],
    inside: &[bool],
) -> Result<Option<u64>, OutOfMemory>
    requires removed { IsVertexSet graph.now.vertices removed.now }
    requires inside { length inside.now ≡ graph.now.vertices }
    ensures count { IfOk result (λ o. IfSome o (IsOddCount graph.now removed.now)) }
    ensures within { (set : List ℕ)
        → ((v : ℕ) → 1 ≤ v → v ≤ graph.now.vertices
        → holds set v ≡ slice_index_or inside.now (v - 1) false)
        → IfOk result (λ o. (o ≡ None → HoldsOddComponents graph.now set removed.now → ⊥)
        × IfSome o (λ _. HoldsOddComponents graph.now set removed.now)) }
    ensures graph { IsGraph graph.now }
{
    let index = graph.index()?;
    let out = marks_of(alloc, graph, removed)?;
    count_odd_within(alloc, graph, &index, &out, inside)
}
