ghost use Rattle.std.specs.Prelude.{◌≡◌, ◌≤◌, true, Some, IfOk};
ghost use Rattle.graph_theory.specs.Duals.{IsNumber};
ghost use Rattle.graph_theory.specs.Graph.{IsGraph, HasNoLoop};
ghost use Rattle.graph_theory.specs.declared.limits.TheConstants.{GRAPH_VERTEX_LIMIT};
ghost use Rattle.mb_problem.specs.Feasible.{weight_of, IsFeasible};
ghost use Rattle.mb_problem.specs.Kinds.{are_duals, proof_of};
ghost use Rattle.mb_problem.specs.Measured.{HasPlaces};
ghost use Rattle.mb_problem.specs.Network.{IsNetwork};
ghost use Rattle.gadget_base.specs.Certified.{gadget_graph, ReachesAll};
ghost use Rattle.mwpm_engine.specs.Solutions.{IsSolved, Solution};
ghost use Rattle.mwpm_engine.specs.declared.outcome.Outcome.TheVariants.{Matched};
ghost use Rattle.solve_answers.specs.Chosen.{IsChosenAnswer};
ghost use Rattle.solve_answers.specs.Details.{is_brief};
ghost use Rattle.solve_answers.specs.Open.{IsOpen};
ghost use Rattle.solve_kinds.specs.Presented.{PaysFor};
ghost use Rattle.solve_answers.specs.Stands.{HasFewSteps};
ghost use Rattle.solve_kinds.specs.Presented.{Presents, PresentsBriefly, PresentsFor};

use doc_format::{DocStatus, Document, Head};
use document_lines::{count_lines, dual_lines, set_lines, walk_line};
use least_joins::matching;
use mb_base::{OutOfMemory, Sequence};
use mb_problem::{Answer, Instance, Kind, weight};
use mwpm_engine::Engine;
use solve_answers::{Detail, answer};
use std::alloc::Global;
use weighted_graph::Graph;

/// The weight of an answer, as it stands in a document.
fn stated_weight(instance: &Instance, kind: Kind, answer: &Answer) -> i64
    requires places { HasPlaces instance.now answer.now }
    requires number { IsNumber (weight_of kind instance.now answer.now) }
    ensures { result ≡ weight_of kind instance.now answer.now }
{
    weight(instance, kind, answer) as i64
}

/// The document that states an answer, and nothing else.
fn stated(
    alloc: Global,
    instance: &Instance,
    kind: Kind,
    answer: &Answer,
) -> Result<Document, OutOfMemory>
    requires network { IsNetwork instance.now }
    requires duals { are_duals (proof_of kind) ≡ true }
    requires feasible { IsFeasible kind instance.now answer.now }
    requires few_steps { HasFewSteps instance.now answer.now }
    requires chosen { IsChosenAnswer kind instance.now answer.now }
    requires number { IsNumber (weight_of kind instance.now answer.now) }
    ensures { (s : Solution) → PaysFor kind instance.now s answer.now
        → IfOk result (PresentsBriefly kind instance.now s) }
{
    let weight = stated_weight(instance, kind, answer);
    let counts = Sequence::from_vec(count_lines(alloc, instance, answer)?);
    let walk = walk_line(alloc, answer)?;
    let head = Head {
        line: 1,
        status: DocStatus::Optimal,
        kind,
        weight,
    };
    let mut document = Document::new(alloc, head);
    document.counts = counts;
    document.walk = walk;
    Ok(document)
}

/// The document of the answer that the engine's perfect matching stands for, and of nothing else.
fn answered(
    alloc: Global,
    instance: &Instance,
    kind: Kind,
    engine: &Engine,
    graph: &Graph,
) -> Result<Document, OutOfMemory>
    requires network { IsNetwork instance.now }
    requires duals { are_duals (proof_of kind) ≡ true }
    requires well_formed { IsOpen kind instance.now }
    requires matched { engine.now.outcome ≡ Some Matched }
    requires same_graph { engine.now.graph ≡ graph.now }
    requires solved { IsSolved engine.now }
    requires is_graph { IsGraph graph.now }
    requires loopless { HasNoLoop graph.now }
    requires certified { graph.now ≡ gadget_graph kind instance.now }
    requires few_vertices { graph.now.vertices ≤ GRAPH_VERTEX_LIMIT }
    requires reached { ReachesAll kind instance.now }
    ensures { IfOk result (PresentsBriefly kind instance.now engine.now) }
{
    let edges = matching(alloc, engine, graph)?;
    let answer = answer(alloc, instance, kind, &edges);
    drop(edges);
    let answer = answer?;
    let document = stated(alloc, instance, kind, &answer);
    drop(answer);
    document
}

/// The document of the answer, with the duals and sets that prove the matching least.
fn certified(
    alloc: Global,
    instance: &Instance,
    kind: Kind,
    engine: &Engine,
    graph: &Graph,
) -> Result<Document, OutOfMemory>
    requires network { IsNetwork instance.now }
    requires duals { are_duals (proof_of kind) ≡ true }
    requires well_formed { IsOpen kind instance.now }
    requires matched { engine.now.outcome ≡ Some Matched }
    requires same_graph { engine.now.graph ≡ graph.now }
    requires solved { IsSolved engine.now }
    requires is_graph { IsGraph graph.now }
    requires loopless { HasNoLoop graph.now }
    requires certified { graph.now ≡ gadget_graph kind instance.now }
    requires few_vertices { graph.now.vertices ≤ GRAPH_VERTEX_LIMIT }
    requires reached { ReachesAll kind instance.now }
    ensures { IfOk result (Presents kind instance.now engine.now) }
{
    let sets = Sequence::from_vec(set_lines(alloc, engine, graph)?);
    let duals = Sequence::from_vec(dual_lines(alloc, engine, graph)?);
    let mut document = answered(alloc, instance, kind, engine, graph)?;
    document.duals = duals;
    document.sets = sets;
    Ok(document)
}

/// The document of the answer that the engine's perfect matching stands for, with the duals that
/// prove the matching least, unless it is to be written in brief.
pub fn optimal(
    alloc: Global,
    instance: &Instance,
    kind: Kind,
    detail: Detail,
    engine: &Engine,
    graph: &Graph,
) -> Result<Document, OutOfMemory>
    requires network { IsNetwork instance.now }
    requires duals { are_duals (proof_of kind) ≡ true }
    requires well_formed { IsOpen kind instance.now }
    requires matched { engine.now.outcome ≡ Some Matched }
    requires same_graph { engine.now.graph ≡ graph.now }
    requires solved { IsSolved engine.now }
    requires is_graph { IsGraph graph.now }
    requires loopless { HasNoLoop graph.now }
    requires certified { graph.now ≡ gadget_graph kind instance.now }
    requires few_vertices { graph.now.vertices ≤ GRAPH_VERTEX_LIMIT }
    requires reached { ReachesAll kind instance.now }
    ensures { IfOk result (PresentsFor (is_brief detail) kind instance.now engine.now) }
{
    if detail.is_brief() {
        return answered(alloc, instance, kind, engine, graph);
    }
    certified(alloc, instance, kind, engine, graph)
}
