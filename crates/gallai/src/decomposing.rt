ghost use Rattle.std.specs.Prelude.{◌≡◌, ◌≤◌, ◌+◌, true, None, Some, IfOk};
ghost use Rattle.graph_theory.specs.Parts.{holds};
ghost use Rattle.gallai_theory.specs.Decomposition.{IsEvenPath, unweighted};
ghost use Rattle.mb_problem.specs.declared.kind.Kind.TheVariants.{Gallai};
ghost use Rattle.mb_problem.specs.Network.{IsNetwork, graph_of, plain_graph};
ghost use Rattle.mb_problem.specs.Size.{size_of};
ghost use Rattle.gadget_base.specs.Links.{with_loops};
ghost use Rattle.mwpm_engine.specs.declared.outcome.Outcome.TheVariants.{Matched, Barrier};
ghost use Rattle.mwpm_engine.specs.Solutions.{Ends, matching_of, most_steps, size_of_graph};
ghost use Rattle.gallai.specs.Decompositions.{ArePathsFrom, IsDecomposition, link_numbers};
ghost use Rattle.gallai.specs.Finders.{Finds};

use crate::edge_numbers::link_numbers;
use crate::finding::{Finder, finder_of, tested_path};
use crate::found::Decomposition;
use crate::reading::{greatest_matching, outer_vertices};
use gadget_base::unweighted;
use gallai_theory::laws;
use least_joins::{barrier_vertices, matching, numbers_of};
use mb_base::{EdgeId, OutOfMemory, Sequence, Steps, VertexId};
use mb_problem::{EDGE_LIMIT, Instance};
use mwpm_engine::{Engine, Outcome};
use std::alloc::Global;
use std::sync::ledger::Ledger;
use weighted_graph::Graph;

/// What is said of a perfect matching: no greatest one misses a vertex.
fn whole(
    alloc: Global,
    instance: &Instance,
    engine: &Engine,
    graph: &Graph,
) -> Result<Decomposition, OutOfMemory>
    requires network { IsNetwork instance.now }
    requires graph { graph.now ≡ unweighted (plain_graph instance.now) }
    requires same_graph { engine.now.graph ≡ graph.now }
    requires matched { engine.now.outcome ≡ Some Matched }
    requires ends { Ends engine.now Matched }
    ensures { IfOk result (IsDecomposition instance.now) }
{
    laws();
    let numbers = link_numbers(alloc, instance)?;
    let edges = matching(alloc, engine, graph)?;
    let all = numbers_of(alloc, &numbers, &edges)?;
    Ok(Decomposition {
        matching: Sequence::from_vec(all),
        d: Sequence::new(alloc),
        a: Sequence::new(alloc),
        paths: Sequence::new(alloc),
    })
}

/// The engine's path from an outer vertex, by the numbers of the instance.
fn engine_path(
    alloc: Global,
    instance: &Instance,
    engine: &Engine,
    numbers: &[EdgeId],
    vertex: VertexId,
) -> Result<Vec<EdgeId>, OutOfMemory>
    requires barrier { engine.now.outcome ≡ Some Barrier }
    requires ends { Ends engine.now Barrier }
    requires graph { engine.now.graph ≡ unweighted (plain_graph instance.now) }
    requires links { numbers.now ≡ link_numbers instance.now }
    requires outer { holds engine.now.outer vertex ≡ true }
    ensures { IfOk result (λ es. IsEvenPath (graph_of instance.now) (with_loops instance.now
        (matching_of engine.now.graph engine.now.mates)) vertex es.items) }
{
    let _ = instance;
    let edges = engine.even_path(vertex)?;
    numbers_of(alloc, numbers, &edges)
}

/// A path from an outer vertex, by the numbers of the instance: the finder's, or the engine's if
/// that fails the test.
fn path_from(
    alloc: Global,
    instance: &Instance,
    engine: &Engine,
    numbers: &[EdgeId],
    finder: &Finder,
    vertex: VertexId,
) -> Result<Vec<EdgeId>, OutOfMemory>
    requires network { IsNetwork instance.now }
    requires barrier { engine.now.outcome ≡ Some Barrier }
    requires ends { Ends engine.now Barrier }
    requires graph { engine.now.graph ≡ unweighted (plain_graph instance.now) }
    requires links { numbers.now ≡ link_numbers instance.now }
    requires finder { Finds instance.now (with_loops instance.now
        (matching_of engine.now.graph engine.now.mates)) finder.now }
    requires outer { holds engine.now.outer vertex ≡ true }
    ensures { IfOk result (λ es. IsEvenPath (graph_of instance.now) (with_loops instance.now
        (matching_of engine.now.graph engine.now.mates)) vertex es.items) }
{
    match tested_path(alloc, instance, finder, vertex)? {
        Some(edges) => Ok(edges),
        None => engine_path(alloc, instance, engine, numbers, vertex),
    }
}

/// A path for each outer vertex, in order.
fn paths_from(
    alloc: Global,
    instance: &Instance,
    engine: &Engine,
    numbers: &[EdgeId],
    finder: &Finder,
    outer: &[VertexId],
) -> Result<Sequence<(VertexId, Sequence<EdgeId>)>, OutOfMemory>
    requires network { IsNetwork instance.now }
    requires barrier { engine.now.outcome ≡ Some Barrier }
    requires ends { Ends engine.now Barrier }
    requires graph { engine.now.graph ≡ unweighted (plain_graph instance.now) }
    requires links { numbers.now ≡ link_numbers instance.now }
    requires finder { Finds instance.now (with_loops instance.now
        (matching_of engine.now.graph engine.now.mates)) finder.now }
    requires outer { outer.now ≡ engine.now.outer }
    ensures { IfOk result (ArePathsFrom instance.now (with_loops instance.now
        (matching_of engine.now.graph engine.now.mates)) outer.now) }
{
    let mut paths = Sequence::new(alloc);
    for vertex in outer {
        let edges = path_from(alloc, instance, engine, numbers, finder, *vertex)?;
        paths.push((*vertex, Sequence::from_vec(edges)))?;
    }
    Ok(paths)
}

/// What is said of a forest that is stuck: its outer vertices are those that some greatest matching
/// misses, and its inner ones their neighbours.
fn parted(
    alloc: Global,
    instance: &Instance,
    engine: &Engine,
    graph: &Graph,
) -> Result<Decomposition, OutOfMemory>
    requires network { IsNetwork instance.now }
    requires graph { graph.now ≡ unweighted (plain_graph instance.now) }
    requires same_graph { engine.now.graph ≡ graph.now }
    requires barrier { engine.now.outcome ≡ Some Barrier }
    requires ends { Ends engine.now Barrier }
    ensures { IfOk result (IsDecomposition instance.now) }
{
    laws();
    let numbers = link_numbers(alloc, instance)?;
    let edges = greatest_matching(alloc, engine, graph)?;
    let all = numbers_of(alloc, &numbers, &edges)?;
    drop(edges);
    let outer = outer_vertices(alloc, engine, graph)?;
    let border = barrier_vertices(alloc, engine, graph)?;
    let finder = finder_of(alloc, instance, &all)?;
    let paths = paths_from(alloc, instance, engine, &numbers, &finder, &outer)?;
    Ok(Decomposition {
        matching: Sequence::from_vec(all),
        d: Sequence::from_vec(outer),
        a: Sequence::from_vec(border),
        paths,
    })
}

/// What the one run of an engine finds.
fn searched<L: Ledger>(
    alloc: Global,
    instance: &Instance,
    engine: &mut Engine,
    graph: &Graph,
    steps: &mut Steps<L>,
) -> Result<Decomposition, OutOfMemory>
    requires network { IsNetwork instance.now }
    requires graph { graph.now ≡ unweighted (plain_graph instance.now) }
    requires same_graph { engine.old.graph ≡ graph.now }
    requires not_run { engine.old.outcome ≡ None }
    ensures found { IfOk result (IsDecomposition instance.now) }
    ensures steps { steps.new ≤ steps.old + most_steps (size_of_graph graph.now) }
{
    match engine.run(graph, steps) {
        Outcome::Matched => whole(alloc, instance, engine, graph),
        Outcome::Barrier => parted(alloc, instance, engine, graph),
    }
}

/// A greatest matching, the vertices that some greatest one misses with a path for each, and their
/// neighbours (Gallai, Edmonds; Schrijver, Combinatorial Optimization, volume A, chapter 24), by
/// one search with all weights 0. Edges have the numbers of the instance. A second search, from the
/// vertices that the matching misses, guesses the paths in time linear in their edges. Each is
/// tested in time linear in the vertices, and the engine finds one in such a time if it fails.
/// `steps` counts the steps of the engine's search.
///
/// # Errors
///
/// `OutOfMemory` if an allocation fails.
pub fn decompose<L: Ledger>(
    alloc: Global,
    instance: &Instance,
    steps: &mut Steps<L>,
) -> Result<Decomposition, OutOfMemory>
    // A maximum matching, the Gallai-Edmonds sets D and A, and for each vertex of D an alternating
    // even path to a missed vertex.
    ensures found { IfOk result (IsDecomposition instance.now) }

    // Within the steps of one search.
    ensures steps { steps.new ≤ steps.old + most_steps (size_of Gallai instance.now) }
{
    prove!(instance.edges() <= EDGE_LIMIT);
    let graph = unweighted(alloc, instance)?;
    let mut engine = Engine::new(alloc, &graph)?;
    let found = searched(alloc, instance, &mut engine, &graph, steps);
    engine.release();
    found
}
