ghost use Rattle.std.specs.Prelude.{◌≡◌, ◌≤◌, ◌+◌, ◌*◌, true, false, IfOk, Some, None};
ghost use Rattle.graph_theory.specs.declared.limits.TheConstants.{GRAPH_VERTEX_LIMIT};
ghost use Rattle.graph_theory.specs.Limits.{IsWithinLimits};
ghost use Rattle.graph_theory.specs.Parts.{IsVertexSet};
ghost use Rattle.mb_problem.specs.Kinds.{are_duals, obstruction_of, proof_of};
ghost use Rattle.mb_problem.specs.Network.{IsNetwork};
ghost use Rattle.mb_problem.specs.Ready.{HasNeededWeights};
ghost use Rattle.mb_problem.specs.Size.{size_of};
ghost use Rattle.gadget_base.specs.Certified.{gadget_graph, ReachesAll};
ghost use Rattle.doc_format.specs.declared.status.DocStatus.TheVariants.{Optimal};
ghost use Rattle.doc_format.specs.Form.{is_barrier, is_never};
ghost use Rattle.mwpm_engine.specs.Solutions.{HasPerfect, most_steps, size_of_graph};
ghost use Rattle.mwpm_engine.specs.declared.outcome.Outcome.TheVariants.{Barrier};
ghost use Rattle.solve_answers.specs.Excluding.{StatesSet};
ghost use Rattle.solve_answers.specs.Open.{IsOpen};
ghost use Rattle.solve_answers.specs.Settled.{SettlesFor};
ghost use Rattle.solve_answers.specs.Solved.{HasFitWeights};

use crate::optimal::optimal;
use certificates::certified;
use doc_format::Document;
use graph_theory::GRAPH_VERTEX_LIMIT;
use least_joins::barrier_vertices;
use mb_base::{OutOfMemory, Steps};
use mb_problem::{Instance, Kind, Obstruction};
use mwpm_engine::{Engine, Outcome};
use solve_answers::{Detail, infeasible};
use std::alloc::Global;
use std::sync::ledger::Ledger;
use weighted_graph::Graph;

/// The document of the barrier that a search has found.
fn barred(
    alloc: Global,
    kind: Kind,
    engine: &Engine,
    graph: &Graph,
) -> Result<Document, OutOfMemory>
    requires barrier { engine.now.outcome ≡ Some Barrier }
    requires same_graph { engine.now.graph ≡ graph.now }
    requires set { IsVertexSet graph.now.vertices engine.now.barrier }
    requires kind { is_never (obstruction_of kind) ≡ false }
    ensures { IfOk result (StatesSet kind engine.now.barrier) }
{
    let set = barrier_vertices(alloc, engine, graph)?;
    infeasible(alloc, kind, &set)
}

/// The document of a best answer or of a barrier, by one run of the engine, for a kind whose
/// answers a barrier can exclude.
fn decided<L: Ledger>(
    alloc: Global,
    instance: &Instance,
    kind: Kind,
    detail: Detail,
    engine: &mut Engine,
    steps: &mut Steps<L>,
) -> Result<Document, OutOfMemory>
    requires network { IsNetwork instance.now }
    requires not_run { engine.old.outcome ≡ None }
    requires duals { are_duals (proof_of kind) ≡ true }
    requires well_formed { IsOpen kind instance.now }
    requires conservative { HasFitWeights kind instance.now }
    requires size_limit { engine.old.graph.vertices ≤ GRAPH_VERTEX_LIMIT }
    requires certified { engine.old.graph ≡ gadget_graph kind instance.now }
    requires reached { ReachesAll kind instance.now }
    requires barrier { is_barrier (obstruction_of kind) ≡ true }
    ensures settled { IfOk result (SettlesFor detail kind instance.now) }
    ensures steps { steps.new ≤ steps.old + most_steps (size_of_graph engine.old.graph) }
{
    match engine.solve(steps) {
        Outcome::Matched => optimal(alloc, instance, kind, detail, engine, engine.graph()),
        Outcome::Barrier => barred(alloc, kind, engine, engine.graph()),
    }
}

/// The document of a best answer, by one pass of the engine, if it is known that there is a perfect
/// matching.
fn assured<L: Ledger>(
    alloc: Global,
    instance: &Instance,
    kind: Kind,
    detail: Detail,
    engine: &mut Engine,
    steps: &mut Steps<L>,
) -> Result<Document, OutOfMemory>
    requires network { IsNetwork instance.now }
    requires not_run { engine.old.outcome ≡ None }
    requires duals { are_duals (proof_of kind) ≡ true }
    requires well_formed { IsOpen kind instance.now }
    requires conservative { HasFitWeights kind instance.now }
    requires size_limit { engine.old.graph.vertices ≤ GRAPH_VERTEX_LIMIT }
    requires certified { engine.old.graph ≡ gadget_graph kind instance.now }
    requires reached { ReachesAll kind instance.now }
    requires perfect { HasPerfect engine.old.graph }
    ensures settled { IfOk result (SettlesFor detail kind instance.now) }
    ensures best { IfOk result (λ d. d.status ≡ Optimal) }
    ensures half { 2 * steps.new ≤ 2 * steps.old + most_steps (size_of_graph engine.old.graph) }
{
    engine.solve_matched(steps);
    optimal(alloc, instance, kind, detail, engine, engine.graph())
}

/// The document of a best answer or of a barrier, by one run of an engine for the kind's
/// certificate graph.
fn settled<L: Ledger>(
    alloc: Global,
    instance: &Instance,
    kind: Kind,
    detail: Detail,
    engine: &mut Engine,
    steps: &mut Steps<L>,
) -> Result<Document, OutOfMemory>
    requires network { IsNetwork instance.now }
    requires not_run { engine.old.outcome ≡ None }
    requires duals { are_duals (proof_of kind) ≡ true }
    requires well_formed { IsOpen kind instance.now }
    requires conservative { HasFitWeights kind instance.now }
    requires size_limit { engine.old.graph.vertices ≤ GRAPH_VERTEX_LIMIT }
    requires certified { engine.old.graph ≡ gadget_graph kind instance.now }
    requires reached { ReachesAll kind instance.now }
    requires perfect { is_barrier (obstruction_of kind) ≡ false → HasPerfect engine.old.graph }
    ensures settled { IfOk result (SettlesFor detail kind instance.now) }
    ensures best { IfOk result (λ d. is_barrier (obstruction_of kind) ≡ false → d.status
        ≡ Optimal) }
    ensures steps { steps.new ≤ steps.old + most_steps (size_of_graph engine.old.graph) }
    ensures half { is_barrier (obstruction_of kind) ≡ false
        → 2 * steps.new ≤ 2 * steps.old + most_steps (size_of_graph engine.old.graph) }
{
    if kind.obstruction() == Obstruction::Barrier {
        return decided(alloc, instance, kind, detail, engine, steps);
    }
    assured(alloc, instance, kind, detail, engine, steps)
}

/// The document of a best answer or of a barrier, by one search for a perfect matching of least
/// weight in the kind's certificate graph. For a kind that no barrier excludes there is such a
/// matching, and the search is one pass. In brief the document has no duals and no sets.
pub fn searched<L: Ledger>(
    alloc: Global,
    instance: &Instance,
    kind: Kind,
    detail: Detail,
    steps: &mut Steps<L>,
) -> Result<Document, OutOfMemory>
    requires limits { IsWithinLimits (size_of kind instance.now) }
    requires weights { HasNeededWeights kind instance.now }
    requires duals { are_duals (proof_of kind) ≡ true }
    requires well_formed { IsOpen kind instance.now }
    requires conservative { HasFitWeights kind instance.now }
    ensures settled { IfOk result (SettlesFor detail kind instance.now) }
    ensures best { IfOk result (λ d. is_barrier (obstruction_of kind) ≡ false → d.status
        ≡ Optimal) }
    ensures steps { steps.new ≤ steps.old + most_steps (size_of kind instance.now) }
    ensures half { is_barrier (obstruction_of kind) ≡ false
        → 2 * steps.new ≤ 2 * steps.old + most_steps (size_of kind instance.now) }
{
    let graph = certified(alloc, instance, kind)?;
    let mut engine = Engine::of(alloc, graph)?;
    let document = settled(alloc, instance, kind, detail, &mut engine, steps);
    engine.release();
    document
}
