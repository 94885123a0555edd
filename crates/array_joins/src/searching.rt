//! A search over pairs of leaves, of which there is always a perfect matching.
ghost use Rattle.std.specs.Prelude.{◌≡◌, ◌*◌, ◌≤◌, ◌+◌, None};
ghost use Rattle.graph_theory.specs.Graph.{HasNoLoop};
ghost use Rattle.graph_theory.specs.Limits.{IsWithinLimits};
ghost use Rattle.mwpm_engine.specs.Solutions.{HasPerfect, most_steps, size_of_graph};

use crate::found::{Found, found_by};
use crate::pair_graph::pair_graph;
use crate::pairs::Pair;
use mb_base::{OutOfMemory, Steps};
use mwpm_engine::Engine;
use std::alloc::Global;
use std::sync::ledger::Ledger;
use weighted_graph::Graph;

/// Twice how many steps a search of a graph takes at most, if that has a perfect matching.
fn cost_of(graph: &Graph) -> u64
    requires { IsWithinLimits (size_of_graph graph.now) }
    ensures { result ≡ most_steps (size_of_graph graph.now) }
{
    let vertices = u64::from(graph.vertices());
    let edges = u64::from(graph.edges());
    (vertices + 1) * (3 * vertices + 2) * (edges + 1)
}

/// Runs an engine and reads what it has found.
fn found_after<L: Ledger>(
    alloc: Global,
    engine: &mut Engine,
    steps: &mut Steps<L>,
) -> Result<Found, OutOfMemory>
    requires not_run { engine.old.outcome ≡ None }
    requires perfect { HasPerfect engine.old.graph }
    ensures { 2 * steps.new ≤ 2 * steps.old + most_steps (size_of_graph engine.old.graph) }
{
    engine.solve_matched(steps);
    found_by(alloc, engine)
}

/// Searches a graph that has a perfect matching.
fn found_in<L: Ledger>(
    alloc: Global,
    graph: Graph,
    steps: &mut Steps<L>,
) -> Result<Found, OutOfMemory>
    requires limits { IsWithinLimits (size_of_graph graph) }
    requires loopless { HasNoLoop graph }
    requires perfect { HasPerfect graph }
    ensures { 2 * steps.new ≤ 2 * steps.old + most_steps (size_of_graph graph) }
{
    let mut engine = Engine::of(alloc, graph)?;
    let found = found_after(alloc, &mut engine, steps);
    engine.release();
    found
}

/// Searches the graph of the pairs of leaves 1 and 2, 3 and 4, and so on, at these distances, and
/// of other pairs; nothing if it is too large, or if the search may take more steps than half the
/// budget, which pays for it.
pub(crate) fn search<L: Ledger>(
    alloc: Global,
    distances: &[i64],
    pairs: &[Pair],
    budget: &mut u64,
    steps: &mut Steps<L>,
) -> Result<Option<Found>, OutOfMemory>
    ensures { 2 * steps.new + budget.new ≤ 2 * steps.old + budget.old }
{
    let Some(graph) = pair_graph(alloc, distances, pairs)? else {
        return Ok(None);
    };
    let cost = cost_of(&graph);
    if cost > *budget {
        return Ok(None);
    }
    *budget -= cost;
    let found = found_in(alloc, graph, steps)?;
    Ok(Some(found))
}
