ghost use Rattle.std.specs.Prelude.{◌≡◌, ◌<◌, ◌≤◌, ◌+◌, ◌-◌, ◌*◌, ◌^◌, OnOk};
ghost use Rattle.graph_theory.specs.Graph.{HasNoLoop};
ghost use Rattle.graph_theory.specs.Limits.{IsWithinLimits};
ghost use Rattle.mwpm_engine.specs.Solutions.{most_steps, size_of_graph};
ghost use Rattle.mb_problem.specs.declared.limits.TheConstants.{EDGE_LIMIT};
ghost use Rattle.bottleneck.specs.Halving.{AreWeights, IsNarrowed, IsRange};

use crate::choosing::light_edges;
use crate::range::{Range, narrow};
use crate::searching::search;
use mb_base::{OutOfMemory, Steps};
use std::alloc::Global;
use std::sync::ledger::Ledger;
use weighted_graph::Graph;

/// Narrows a range by a search among the edges up to a place.
fn narrow_at<L: Ledger>(
    alloc: Global,
    graph: &Graph,
    weights: &[i64],
    range: &mut Range,
    place: usize,
    steps: &mut Steps<L>,
) -> Result<(), OutOfMemory>
    requires limits { IsWithinLimits (size_of_graph graph.now) }
    requires loopless { HasNoLoop graph.now }
    requires weights { AreWeights graph.now weights.now }
    requires range { IsRange graph.now weights.now range.old }
    requires low { range.old.low ≤ place }
    requires high { place < range.old.high }
    ensures narrowed { OnOk result (IsNarrowed graph.now weights.now place range.old range.new) }
    ensures steps { steps.new ≤ steps.old + most_steps (size_of_graph graph.now) }
{
    let numbers = light_edges(alloc, graph, weights[place])?;
    let found = search(alloc, graph, &numbers, steps)?;
    narrow(range, place, found);
    Ok(())
}

/// Tries the first place of a range that isn't one place. It is often the one that is sought, and
/// few edges come before it.
fn narrow_at_start<L: Ledger>(
    alloc: Global,
    graph: &Graph,
    weights: &[i64],
    range: &mut Range,
    steps: &mut Steps<L>,
) -> Result<(), OutOfMemory>
    requires limits { IsWithinLimits (size_of_graph graph.now) }
    requires loopless { HasNoLoop graph.now }
    requires weights { AreWeights graph.now weights.now }
    requires range { IsRange graph.now weights.now range.old }
    requires size_limit { range.old.high ≤ EDGE_LIMIT }
    ensures range { OnOk result (IsRange graph.now weights.now range.new) }
    ensures value_limit { OnOk result (range.new.high - range.new.low < 2 ^ 16) }
    ensures steps { steps.new ≤ steps.old + most_steps (size_of_graph graph.now) }
{
    let first = range.low;
    if first >= range.high {
        return Ok(());
    }
    narrow_at(alloc, graph, weights, range, first, steps)
}

/// Halves a range until it is one place, by at most 16 searches.
fn halve_all<L: Ledger>(
    alloc: Global,
    graph: &Graph,
    weights: &[i64],
    range: &mut Range,
    steps: &mut Steps<L>,
) -> Result<(), OutOfMemory>
    requires limits { IsWithinLimits (size_of_graph graph.now) }
    requires loopless { HasNoLoop graph.now }
    requires weights { AreWeights graph.now weights.now }
    requires range { IsRange graph.now weights.now range.old }
    requires value_limit { range.old.high - range.old.low < 2 ^ 16 }
    ensures range { OnOk result (IsRange graph.now weights.now range.new) }
    ensures one { OnOk result (range.new.low ≡ range.new.high) }
    ensures steps { steps.new ≤ steps.old + 16 * most_steps (size_of_graph graph.now) }
{
    while range.low < range.high {
        let middle = range.low + (range.high - range.low) / 2;
        narrow_at(alloc, graph, weights, range, middle, steps)?;
    }
    Ok(())
}

/// Halves a range until it is one place, after a try at its first one. These are no more than 17
/// searches: 65,536 places are fewer than 2^16 after the try.
pub fn halve<L: Ledger>(
    alloc: Global,
    graph: &Graph,
    weights: &[i64],
    range: &mut Range,
    steps: &mut Steps<L>,
) -> Result<(), OutOfMemory>
    requires limits { IsWithinLimits (size_of_graph graph.now) }
    requires loopless { HasNoLoop graph.now }
    requires weights { AreWeights graph.now weights.now }
    requires range { IsRange graph.now weights.now range.old }
    requires size_limit { range.old.high ≤ EDGE_LIMIT }
    ensures range { OnOk result (IsRange graph.now weights.now range.new) }
    ensures one { OnOk result (range.new.low ≡ range.new.high) }
    ensures steps { steps.new ≤ steps.old + 17 * most_steps (size_of_graph graph.now) }
{
    narrow_at_start(alloc, graph, weights, range, steps)?;
    halve_all(alloc, graph, weights, range, steps)
}
