ghost use Rattle.std.specs.Prelude.{◌+◌, ◌*◌, ◌≤◌, ◌≡◌, None, Some, IfOk};
ghost use Rattle.graph_theory.specs.Limits.{IsWithinLimits};
ghost use Rattle.mb_problem.specs.Size.{ports_size, odd_at};
ghost use Rattle.gadget_base.specs.Certified.{IsPerfectList};
ghost use Rattle.gadget_base.specs.Gadgets.{ports_graph};
ghost use Rattle.gadget_base.specs.Listed.{ListsCounts};
ghost use Rattle.gadget_tjoin.specs.Joins.{ReachesJoins};
ghost use Rattle.mwpm_engine.specs.Solutions.{IsSolved, most_steps, size_of_graph, matching_of};
ghost use Rattle.mwpm_engine.specs.declared.outcome.Outcome.TheVariants.{Matched};
ghost use Rattle.mb_problem.specs.Joins.{HasJoin};
ghost use Rattle.join_check.specs.Least.{IsLeastJoin};

use crate::matched::matching;
use gadget_tjoin::{extract, ports};
use graph_theory::GRAPH_VERTEX_LIMIT;
use mb_base::{OutOfMemory, Steps};
use mb_problem::{Instance, Join, Parity};
use mwpm_engine::Engine;
use std::alloc::Global;
use std::sync::ledger::Ledger;

/// The join that the matching of an engine for the graph of ports stands for, after its one run.
fn matched_join<L: Ledger>(
    alloc: Global,
    instance: &Instance,
    parity: &Parity,
    engine: &mut Engine,
    steps: &mut Steps<L>,
) -> Result<Join, OutOfMemory>
    requires not_run { engine.old.outcome ≡ None }
    requires ports { engine.old.graph ≡ ports_graph instance.now (odd_at parity.now instance.now) }
    requires reached { ReachesJoins parity.now instance.now }
    requires some { HasJoin parity.now instance.now }
    ensures least { IfOk result (λ join. IsLeastJoin parity.now instance.now join.edges) }
    ensures steps { steps.new ≤ steps.old + most_steps (size_of_graph engine.old.graph) }
    ensures half { 2 * steps.new ≤ 2 * steps.old + most_steps (size_of_graph engine.old.graph) }
{
    engine.solve_matched(steps);
    let edges = matching(alloc, engine, engine.graph())?;
    let join = extract(alloc, instance, parity, &edges)?;
    Ok(join)
}

/// A join of this parity that weighs the least, if there is a join: that of a perfect matching of
/// least weight in the graph of ports (Schrijver, Combinatorial Optimization, volume A, chapter
/// 29).
///
/// There is such a matching, so its one search is one pass, whose steps are counted on `steps`.
/// What it takes besides is linear in the instance and that graph.
///
/// # Errors
///
/// `OutOfMemory` if an allocation fails.
pub fn least_join<L: Ledger>(
    alloc: Global,
    instance: &Instance,
    parity: &Parity,
    steps: &mut Steps<L>,
) -> Result<Join, OutOfMemory>
    requires limits { IsWithinLimits (ports_size instance.now (odd_at parity.now instance.now)) }
    requires some { HasJoin parity.now instance.now }

    // A T-join of minimum weight for each parity.
    ensures least { IfOk result (λ join. IsLeastJoin parity.now instance.now join.edges) }

    // Within half the steps of one search.
    ensures steps { steps.new ≤ steps.old
        + most_steps (ports_size instance.now (odd_at parity.now instance.now)) }
    ensures half { 2 * steps.new ≤ 2 * steps.old
        + most_steps (ports_size instance.now (odd_at parity.now instance.now)) }
{
    let graph = ports(alloc, instance, parity)?;
    prove!(graph.vertices() <= GRAPH_VERTEX_LIMIT);
    let mut engine = Engine::of(alloc, graph)?;
    let join = matched_join(alloc, instance, parity, &mut engine, steps);
    engine.release();
    join
}
