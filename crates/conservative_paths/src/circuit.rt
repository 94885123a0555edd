ghost use Rattle.std.specs.Prelude.{◌≡◌, ℕ, ◌+◌, ◌<◌, ◌≤◌, pos, ◌<ℤ◌, length, drop, IfOk};
ghost use Rattle.std.specs.Prelude.{MatchOption};
ghost use Rattle.graph_theory.specs.Graph.{IsGraph};
ghost use Rattle.graph_theory.specs.Walk.{walk_weight};
ghost use Rattle.weighted_graph.specs.Index.{IsIndex};
ghost use Rattle.mb_problem.specs.declared.answer.Parity.TheVariants.{Empty};
ghost use Rattle.mb_problem.specs.Network.{graph_of};
ghost use Rattle.mb_problem.specs.Size.{odd_at};
ghost use Rattle.mb_problem.specs.Feasible.{IsWalkWith};
ghost use Rattle.mb_problem.specs.Joins.{ListsJoin, listed_counts};
ghost use Rattle.conservative_paths.specs.Within.{IsNegativeCircuitWithin};
ghost use Rattle.conservative_paths.specs.Trails.{IsLeft, IsNegativeEven, IsDrained};
ghost use Rattle.conservative_paths.specs.Trails.{IsNegativeOver};

use crate::advance::go_on_or_close;
use crate::edges_left::EdgesLeft;
use crate::trail::Trail;
use mb_base::{EdgeId, OutOfMemory, Sequence, VertexId};
use mb_problem::{Answer, Instance, Join};
use std::alloc::Global;
use weighted_graph::{Graph, Incidence};

/// Walks from the base over edges that are left, until none is left there; or until a circuit that
/// weighs less than 0 closes: the edges of the path from the place that is answered on.
fn close_from(
    graph: &Graph,
    index: &Incidence,
    left: &mut EdgesLeft,
    trail: &mut Trail,
    base: VertexId,
) -> Result<Option<usize>, OutOfMemory>
    requires graph { IsGraph graph.now }
    requires index { IsIndex graph.now index.now }
    requires left { IsLeft graph.now left.old }
    requires even { IsNegativeEven graph.now left.old.counts.items }
    requires room { length trail.old.place.items ≡ graph.now.vertices + 1 }
    requires base { (1 ≤ base) × (base ≤ graph.now.vertices) }
    ensures left { IfOk result (λ _. IsLeft graph.now left.new) }
    ensures room { IfOk result (λ _. length trail.new.place.items ≡ graph.now.vertices + 1) }
    ensures found { IfOk result (λ found. MatchOption found
        (IsDrained graph.now base left.old.counts.items left.new.counts.items)
        (λ place. IsNegativeOver graph.now left.old.counts.items trail.new.here
        (drop place trail.new.edges.items))) }
{
    trail.begin(base)?;
    while let Some(step) = left.take(graph, index, trail.here) {
        if let Some(place) = go_on_or_close(graph, trail, step.edge, step.there)? {
            return Ok(Some(place));
        }
    }
    Ok(None)
}

/// A circuit over edges of an even set that weighs less than 0, where all of these edges are left.
fn circuit_left(
    instance: &Instance,
    graph: &Graph,
    index: &Incidence,
    join: &Join,
    left: &mut EdgesLeft,
    trail: &mut Trail,
) -> Result<Answer, OutOfMemory>
    requires even { ListsJoin instance.now (odd_at Empty instance.now) join.now.edges }
    requires negative { walk_weight (graph_of instance.now) join.now.edges <ℤ pos 0 }
    requires graph { graph.now ≡ graph_of instance.now }
    requires index { IsIndex graph.now index.now }
    requires left { IsLeft graph.now left.old }
    requires counts { left.old.counts.items
        ≡ listed_counts join.now.edges (length instance.now.edges) }
    requires room { length trail.old.place.items ≡ graph.now.vertices + 1 }
    ensures circuit { IfOk result
        (IsWalkWith (λ start edges. IsNegativeCircuitWithin (graph_of instance.now) join.now.edges
        start edges) ⊥) }
{
    for edge in join.edges.as_slice() {
        let (base, _, _) = graph.edge(*edge);
        if let Some(place) = close_from(graph, index, left, trail, base)? {
            let edges = Sequence::from_vec(trail.edges.split_off(place)?);
            return Ok(Answer::Walk {
                start: trail.here,
                edges,
            });
        }
    }
    Ok(Answer::Nothing)
}

/// The circuit of `negative_circuit` over the instance's graph.
fn circuit_in(
    alloc: Global,
    instance: &Instance,
    graph: &Graph,
    index: &Incidence,
    join: &Join,
) -> Result<Answer, OutOfMemory>
    requires even { ListsJoin instance.now (odd_at Empty instance.now) join.now.edges }
    requires negative { walk_weight (graph_of instance.now) join.now.edges <ℤ pos 0 }
    requires graph { graph.now ≡ graph_of instance.now }
    requires index { IsIndex graph.now index.now }
    ensures circuit { IfOk result
        (IsWalkWith (λ start edges. IsNegativeCircuitWithin (graph_of instance.now) join.now.edges
        start edges) ⊥) }
{
    let mut left = EdgesLeft::of(alloc, instance, join.edges.as_slice())?;
    let mut trail = Trail::new(alloc, instance.vertices())?;
    circuit_left(instance, graph, index, join, &mut left, &mut trail)
}

/// A circuit over edges of an even set that weighs less than 0, where that set does: it splits into
/// circuits, so one of these does (Schrijver, Combinatorial Optimization, volume A, chapter 29). It
/// takes time linear in the instance.
///
/// # Errors
///
/// `OutOfMemory` if an allocation fails.
pub fn negative_circuit(
    alloc: Global,
    instance: &Instance,
    join: &Join,
) -> Result<Answer, OutOfMemory>
    requires even { ListsJoin instance.now (odd_at Empty instance.now) join.now.edges }
    requires negative { walk_weight (graph_of instance.now) join.now.edges <ℤ pos 0 }

    // Within an even set of edges of negative weight, a cycle of negative weight.
    ensures circuit { IfOk result
        (IsWalkWith (λ start edges. IsNegativeCircuitWithin (graph_of instance.now) join.now.edges
        start edges) ⊥) }
{
    let graph = instance.graph()?;
    let index = graph.index()?;
    circuit_in(alloc, instance, &graph, &index, join)
}
