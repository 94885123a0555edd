ghost use Rattle.std.specs.Prelude.{◌≡◌, ◌≤◌, ◌+◌, None, Some, length, All, IfOk};
ghost use Rattle.graph_theory.specs.Graph.{HasNoLoop, IsEdgeNumber, IsGraph};
ghost use Rattle.graph_theory.specs.Limits.{IsWithinLimits};
ghost use Rattle.mwpm_engine.specs.Solutions.{Ends, most_steps, size_of_graph};
ghost use Rattle.mwpm_engine.specs.declared.outcome.Outcome.TheVariants.{Matched};
ghost use Rattle.bottleneck.specs.Halving.{IsFound, chosen};

use crate::choosing::chosen_graph;
use crate::range::Found;
use least_joins::{barrier_vertices, matching, numbers_of};
use mb_base::{EdgeId, OutOfMemory, Steps};
use mwpm_engine::{Engine, Outcome};
use std::alloc::Global;
use std::sync::ledger::Ledger;
use weighted_graph::Graph;

/// The perfect matching that an engine has found, by the numbers that its edges have elsewhere.
fn matched(
    alloc: Global,
    numbers: &[EdgeId],
    engine: &Engine,
    part: &Graph,
) -> Result<Found, OutOfMemory>
    requires loopless { HasNoLoop part.now }
    requires numbers { length numbers.now ≡ length part.now.edges }
    requires same_graph { engine.now.graph ≡ part.now }
    requires matched { engine.now.outcome ≡ Some Matched }
    requires ends { Ends engine.now Matched }
    ensures { IfOk result (IsFound part.now numbers.now) }
{
    let edges = matching(alloc, engine, part)?;
    let all = numbers_of(alloc, numbers, &edges)?;
    Ok(Found::Matching(all))
}

/// What the one run of an engine finds.
fn searched<L: Ledger>(
    alloc: Global,
    numbers: &[EdgeId],
    engine: &mut Engine,
    part: &Graph,
    steps: &mut Steps<L>,
) -> Result<Found, OutOfMemory>
    requires loopless { HasNoLoop part.now }
    requires numbers { length numbers.now ≡ length part.now.edges }
    requires same_graph { engine.old.graph ≡ part.now }
    requires not_run { engine.old.outcome ≡ None }
    ensures found { IfOk result (IsFound part.now numbers.now) }
    ensures steps { steps.new ≤ steps.old + most_steps (size_of_graph part.now) }
{
    match engine.run(part, steps) {
        Outcome::Matched => matched(alloc, numbers, engine, part),
        Outcome::Barrier => {
            let set = barrier_vertices(alloc, engine, part)?;
            Ok(Found::Barrier(set))
        }
    }
}

/// A perfect matching of edges of these numbers, or a barrier of the graph of these edges, by one
/// search with all weights 0.
pub fn search<L: Ledger>(
    alloc: Global,
    graph: &Graph,
    numbers: &[EdgeId],
    steps: &mut Steps<L>,
) -> Result<Found, OutOfMemory>
    requires limits { IsWithinLimits (size_of_graph graph.now) }
    requires loopless { HasNoLoop graph.now }
    requires numbers { All (IsEdgeNumber graph.now) numbers.now }
    requires size_limit { length numbers.now ≤ length graph.now.edges }
    ensures found { IfOk result (IsFound (chosen graph.now numbers.now) numbers.now) }
    ensures steps { steps.new ≤ steps.old + most_steps (size_of_graph graph.now) }
{
    let part = chosen_graph(alloc, graph, numbers)?;
    let mut engine = Engine::new(alloc, &part)?;
    let found = searched(alloc, numbers, &mut engine, &part, steps);
    engine.release();
    found
}
