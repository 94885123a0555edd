ghost use Rattle.std.specs.Prelude.{◌≡◌, ℕ, ◌+◌, ◌<◌, ◌≤◌, ◌==◌, ◌+ℤ◌, pos, false, length};
ghost use Rattle.std.specs.Prelude.{All, IfOk, OnOk, if◌then◌else◌};
ghost use Rattle.std.specs.List.Sorted.{IsStrictlyIncreasing};
ghost use Rattle.graph_theory.specs.Graph.{IsEdgeNumber, HasNoLoop, edge_of, edges_around};
ghost use Rattle.graph_theory.specs.Duals.{IsNumber};
ghost use Rattle.graph_theory.specs.OddSets.{AreEarlier, HaveItemForm, IsGivenWithin};
ghost use Rattle.weighted_graph.specs.Index.{IsIndex};
ghost use Rattle.graph_parts.specs.Marks.{is_marked};
ghost use Rattle.dual_check.specs.Crossed.{total_at, AddsAt, AddsSet, AreCrossed, IsWithin};
ghost use Rattle.dual_check.specs.Crossed.{given_out};
ghost use Rattle.dual_check.specs.Forests.{AddsNested, AreAlone};
ghost use Rattle.dual_check.specs.Shared.{crossed_at, other_dual, taken_dual};

use crate::forest::Forest;
use crate::holders::holders_of;
use crate::narrow::{left_out, narrow_sets};
use crate::nested::{add_nested, alone};
use crate::sets::refers;
use crate::shares::add_taken;
use crate::totals::add_to;
use graph_parts::{mark_all, no_marks, unmark_all};
use graph_theory::OddSet;
use mb_base::{EdgeId, OutOfMemory, VertexId};
use std::alloc::Global;
use weighted_graph::{Graph, Incidence};

/// Adds the dual at the total of a place where a vertex has no mark.
fn add_unmarked(totals: &mut [i128], marks: &[bool], vertex: VertexId, place: usize, dual: i64)
    requires vertex { vertex < length marks.now }
    requires in_range { place < length totals.old }
    requires value_limit { IsWithin 3 (total_at totals.old place) }
    requires dual { IsNumber dual }
    ensures size { length totals.new ≡ length totals.old }
    ensures exact { (p : ℕ) → total_at totals.new p ≡ (total_at totals.old p
        +ℤ (if place == p then (if is_marked marks.now vertex then pos 0 else dual) else pos 0)) }
{
    if marks[vertex.number() as usize] {
        return;
    }
    add_to(totals, place, i128::from(dual));
}

/// Adds the dual at each edge of the vertex that leads to a vertex with no mark.
fn add_from(
    graph: &Graph,
    numbers: &[EdgeId],
    marks: &[bool],
    vertex: VertexId,
    dual: i64,
    totals: &mut [i128],
)
    requires numbers { numbers.now ≡ edges_around graph.now vertex }
    requires marks { length marks.now ≡ graph.now.vertices + 1 }
    requires size { length totals.old ≡ length graph.now.edges + 1 }
    requires value_limit { (e : ℕ) → IsEdgeNumber graph.now e → IsWithin 3 (total_at totals.old e) }
    requires dual { IsNumber dual }
    ensures { AddsAt graph.now vertex (given_out graph.now marks.now vertex dual) totals.old
        totals.new }
{
    for number in numbers {
        let far = graph.other_end(*number, vertex);
        add_unmarked(totals, marks, far, number.number() as usize, dual);
    }
}

/// Adds the set's dual at each edge that crosses the set. There are no marks before and after.
fn add_set(
    graph: &Graph,
    incidence: &Incidence,
    set: &OddSet,
    marks: &mut [bool],
    totals: &mut [i128],
)
    requires index { IsIndex graph.now incidence.now }
    requires ascending { IsStrictlyIncreasing set.now.vertices }
    requires in_range { All (λ m. (1 ≤ m) × (m ≤ graph.now.vertices)) set.now.vertices }
    requires dual { IsNumber set.now.dual }
    requires marks { length marks.old ≡ graph.now.vertices + 1 }
    requires none { (v : ℕ) → is_marked marks.old v ≡ false }
    requires size { length totals.old ≡ length graph.now.edges + 1 }
    requires value_limit { (e : ℕ) → IsEdgeNumber graph.now e → IsWithin 1 (total_at totals.old e) }
    ensures none { (v : ℕ) → is_marked marks.new v ≡ false }
    ensures adds { AddsSet graph.now set.now totals.old totals.new }
{
    let members = set.vertices.as_slice();
    mark_all(marks, members);
    for vertex in members {
        add_from(
            graph,
            incidence.at(*vertex),
            marks,
            *vertex,
            set.dual,
            totals,
        );
    }
    unmark_all(marks, members);
}

/// Adds at each edge the duals of the sets that it crosses and that aren't taken, set by set.
fn add_others(
    alloc: Global,
    graph: &Graph,
    incidence: &Incidence,
    sets: &[OddSet],
    taken: &[bool],
) -> Result<Vec<i128>, OutOfMemory>
    requires index { IsIndex graph.now incidence.now }
    requires numbers { All (λ s. IsNumber s.dual) sets.now }
    requires within { All (IsGivenWithin graph.now.vertices) sets.now }
    requires forms { All (λ s. IsStrictlyIncreasing s.vertices) sets.now }
    requires one_each { length taken.now ≡ length sets.now }
    ensures size { IfOk result (λ totals. length totals.items ≡ length graph.now.edges + 1) }
    ensures totals { IfOk result (λ totals. (e : ℕ) → IsEdgeNumber graph.now e
        → total_at totals.items e ≡ crossed_at sets.now (other_dual sets.now taken.now)
        (length sets.now) (edge_of graph.now e)) }
{
    let mut marks = no_marks(alloc, graph.vertices() as usize + 1)?;
    let mut totals = vec![in alloc; 0i128; graph.edges() as usize + 1]?;
    for (k, set) in sets.iter().enumerate() {
        if !taken[k] {
            add_set(graph, incidence, set, &mut marks, &mut totals);
        }
    }
    Ok(totals)
}

/// At each edge, by its number, the duals of the sets that it crosses and that are alone. A set
/// takes the lesser of the number of edges at its members and the square of the number of its
/// members.
fn crossed_alone(
    alloc: Global,
    graph: &Graph,
    incidence: &Incidence,
    sets: &[OddSet],
    alone: &[bool],
) -> Result<Vec<i128>, OutOfMemory>
    requires index { IsIndex graph.now incidence.now }
    requires loopless { HasNoLoop graph.now }
    requires numbers { All (λ s. IsNumber s.dual) sets.now }
    requires within { All (IsGivenWithin graph.now.vertices) sets.now }
    requires forms { All (λ s. IsStrictlyIncreasing s.vertices) sets.now }
    requires one_each { length alone.now ≡ length sets.now }
    ensures size { IfOk result (λ totals. length totals.items ≡ length graph.now.edges + 1) }
    ensures totals { IfOk result (λ totals. (e : ℕ) → IsEdgeNumber graph.now e
        → total_at totals.items e ≡ crossed_at sets.now (taken_dual sets.now alone.now)
        (length sets.now) (edge_of graph.now e)) }
{
    let narrow = narrow_sets(alloc, graph, incidence, sets, alone)?;
    let left = left_out(alloc, &narrow, alone)?;
    let mut totals = add_others(alloc, graph, incidence, sets, &left)?;
    let holders = holders_of(alloc, graph.vertices(), sets, &narrow)?;
    add_taken(
        alloc,
        graph,
        incidence,
        sets,
        &narrow,
        &holders,
        &mut totals,
    )?;
    Ok(totals)
}

/// Adds at each edge the duals of the sets that it crosses and that aren't alone, by their trees.
fn add_trees(
    alloc: Global,
    graph: &Graph,
    incidence: &Incidence,
    sets: &[OddSet],
    alone: &[bool],
    totals: &mut [i128],
) -> Result<(), OutOfMemory>
    requires index { IsIndex graph.now incidence.now }
    requires loopless { HasNoLoop graph.now }
    requires numbers { All (λ s. IsNumber s.dual) sets.now }
    requires within { All (IsGivenWithin graph.now.vertices) sets.now }
    requires earlier { AreEarlier sets.now }
    requires forms { HaveItemForm sets.now }
    requires alone { AreAlone sets.now alone.now }
    requires size { length totals.old ≡ length graph.now.edges + 1 }
    requires value_limit { (e : ℕ) → IsEdgeNumber graph.now e → IsWithin 1 (total_at totals.old e) }
    ensures { OnOk result (AddsNested graph.now sets.now alone.now totals.old totals.new) }
{
    let forest = Forest::of(alloc, sets, sets.len())?;
    add_nested(alloc, graph, incidence, sets, alone, &forest, totals)
}

/// At each edge, by its number, the duals of the sets that it crosses, over the graph's incidence.
fn crossed_in(
    alloc: Global,
    graph: &Graph,
    incidence: &Incidence,
    sets: &[OddSet],
) -> Result<Vec<i128>, OutOfMemory>
    requires index { IsIndex graph.now incidence.now }
    requires numbers { All (λ s. IsNumber s.dual) sets.now }
    requires within { All (IsGivenWithin graph.now.vertices) sets.now }
    requires earlier { AreEarlier sets.now }
    requires forms { HaveItemForm sets.now }
    requires loopless { HasNoLoop graph.now }
    ensures totals { IfOk result (λ totals. AreCrossed graph.now sets.now totals.items) }
{
    let flags = alone(alloc, sets)?;
    let mut totals = crossed_alone(alloc, graph, incidence, sets, &flags)?;
    if !refers(sets) {
        return Ok(totals);
    }
    add_trees(alloc, graph, incidence, sets, &flags, &mut totals)?;
    Ok(totals)
}

/// At each edge, by its number, the duals of the sets that it crosses.
pub(crate) fn crossed_all(
    alloc: Global,
    graph: &Graph,
    sets: &[OddSet],
) -> Result<Vec<i128>, OutOfMemory>
    requires numbers { All (λ s. IsNumber s.dual) sets.now }
    requires within { All (IsGivenWithin graph.now.vertices) sets.now }
    requires earlier { AreEarlier sets.now }
    requires forms { HaveItemForm sets.now }
    requires loopless { HasNoLoop graph.now }
    ensures totals { IfOk result (λ totals. AreCrossed graph.now sets.now totals.items) }
{
    let incidence = graph.index()?;
    crossed_in(alloc, graph, &incidence, sets)
}
