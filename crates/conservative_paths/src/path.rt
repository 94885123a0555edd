ghost use Rattle.std.specs.Prelude.{◌≡◌, ◌≢◌, ◌≤◌, ◌≤ℤ◌, IfOk, OnOk};
ghost use Rattle.graph_theory.specs.Graph.{IsGraph, CountsNoneAt};
ghost use Rattle.graph_theory.specs.Walk.{walk_weight};
ghost use Rattle.weighted_graph.specs.Index.{IsIndex};
ghost use Rattle.mb_problem.specs.declared.kind.Cost.TheVariants.{Total};
ghost use Rattle.mb_problem.specs.Network.{graph_of, vertices};
ghost use Rattle.mb_problem.specs.Feasible.{IsWalkWith, weight_by};
ghost use Rattle.mb_problem.specs.Joins.{ListsJoin, odd_between, HasNoNegativeEvenSet};
ghost use Rattle.conservative_paths.specs.Within.{IsPathWithin};
ghost use Rattle.conservative_paths.specs.Trails.{IsLeft, IsOpen};

use crate::advance::go_on;
use crate::edges_left::EdgesLeft;
use crate::trail::Trail;
use mb_base::{OutOfMemory, Sequence, VertexId};
use mb_problem::{Answer, Instance, Join};
use std::alloc::Global;
use weighted_graph::{Graph, Incidence};

/// Walks on from `s` over edges that are left, until none is left where the path has come to.
fn walk_on(
    graph: &Graph,
    index: &Incidence,
    left: &mut EdgesLeft,
    trail: &mut Trail,
    s: VertexId,
    t: VertexId,
) -> Result<(), OutOfMemory>
    requires graph { IsGraph graph.now }
    requires index { IsIndex graph.now index.now }
    requires left { IsLeft graph.now left.old }
    requires path { IsOpen graph.now left.old.counts.items left.old.counts.items s t trail.old }
    ensures path { OnOk result
        (IsOpen graph.now left.old.counts.items left.new.counts.items s t trail.new) }
    ensures settled { OnOk result (CountsNoneAt graph.now left.new.counts.items trail.new.here) }
{
    let _ = (s, t);
    while let Some(step) = left.take(graph, index, trail.here) {
        go_on(graph, trail, step.edge, step.there)?;
    }
    Ok(())
}

/// The path of `path_in` over the instance's graph.
fn path_over(
    alloc: Global,
    instance: &Instance,
    graph: &Graph,
    index: &Incidence,
    join: &Join,
    s: VertexId,
    t: VertexId,
) -> Result<Answer, OutOfMemory>
    requires apart { s ≢ t }
    requires s { (1 ≤ s) × (s ≤ vertices instance.now) }
    requires t { (1 ≤ t) × (t ≤ vertices instance.now) }
    requires join { ListsJoin instance.now (odd_between s t) join.now.edges }
    requires graph { graph.now ≡ graph_of instance.now }
    requires well_formed { IsGraph graph.now }
    requires index { IsIndex graph.now index.now }
    ensures path { IfOk result
        (IsWalkWith (λ start edges. IsPathWithin (graph_of instance.now) join.now.edges s t start
        edges) ⊥) }
    ensures weighs { HasNoNegativeEvenSet instance.now
        → IfOk result (λ answer. weight_by Total instance.now answer
        ≤ℤ walk_weight (graph_of instance.now) join.now.edges) }
{
    let mut left = EdgesLeft::of(alloc, instance, join.edges.as_slice())?;
    let mut trail = Trail::new(alloc, instance.vertices())?;
    trail.begin(s)?;
    walk_on(graph, index, &mut left, &mut trail, s, t)?;
    let edges = Sequence::from_vec(trail.edges);
    Ok(Answer::Walk { start: s, edges })
}

/// A path from `s` to `t` over edges of a join whose degree is odd at these two vertices and at no
/// other one. If no even set of edges weighs less than 0 it weighs no more than the join, so that a
/// least join gives a least path (Schrijver, Combinatorial Optimization, volume A, chapter 29). It
/// takes time linear in the instance.
///
/// # Errors
///
/// `OutOfMemory` if an allocation fails.
pub fn path_in(
    alloc: Global,
    instance: &Instance,
    join: &Join,
    s: VertexId,
    t: VertexId,
) -> Result<Answer, OutOfMemory>
    requires apart { s ≢ t }
    requires s { (1 ≤ s) × (s ≤ vertices instance.now) }
    requires t { (1 ≤ t) × (t ≤ vertices instance.now) }
    requires join { ListsJoin instance.now (odd_between s t) join.now.edges }

    // Within a join that is odd at two vertices alone, a path between them of at most the join's
    // weight, if no even set of edges has negative weight.
    ensures path { IfOk result
        (IsWalkWith (λ start edges. IsPathWithin (graph_of instance.now) join.now.edges s t start
        edges) ⊥) }
    ensures weighs { HasNoNegativeEvenSet instance.now
        → IfOk result (λ answer. weight_by Total instance.now answer
        ≤ℤ walk_weight (graph_of instance.now) join.now.edges) }
{
    let graph = instance.graph()?;
    let index = graph.index()?;
    path_over(alloc, instance, &graph, &index, join, s, t)
}
