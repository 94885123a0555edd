ghost use Rattle.std.specs.Prelude.{◌≡◌, IfOk};
ghost use Rattle.graph_theory.specs.Graph.{IsGraph};
ghost use Rattle.mb_problem.specs.Kinds.{obstruction_of};
ghost use Rattle.mb_problem.specs.Network.{Network, IsNetwork, graph_of};
ghost use Rattle.mb_problem.specs.declared.kind.Obstruction.TheVariants.{OddPart, SplitPart};
ghost use Rattle.solve_answers.specs.Settled.{SettlesOrHasNoPart};
ghost use Rattle.solve_answers.specs.Solved.{HasFitWeights};

use crate::obstruction::infeasible;
use doc_format::Document;
use graph_parts::{JoinOrOdd, component, edge_connected, join_or_odd};
use mb_base::OutOfMemory;
use mb_problem::{Instance, Kind, Obstruction, Parity};
use postman_walk::least_met;
use std::alloc::Global;
use weighted_graph::Graph;

/// The document of the first odd part, if there is no join on the vertices of odd value.
fn odd_part(alloc: Global, instance: &Instance, kind: Kind) -> Result<Option<Document>, OutOfMemory>
    requires kind { obstruction_of kind ≡ OddPart }
    requires network { IsNetwork instance.now }
    requires weights { HasFitWeights kind instance.now }
    ensures { IfOk result (SettlesOrHasNoPart kind instance.now) }
{
    match join_or_odd(alloc, instance, &Parity::Values)? {
        JoinOrOdd::Join(_) => Ok(None),
        JoinOrOdd::OddSet(part) => {
            let document = infeasible(alloc, kind, part.as_slice());
            drop(part);
            Ok(Some(document?))
        }
    }
}

/// The document of the component of the least vertex that an edge of the graph meets, if some edge
/// lies in another.
fn split_by(alloc: Global, graph: &Graph, kind: Kind) -> Result<Option<Document>, OutOfMemory>
    requires kind { obstruction_of kind ≡ SplitPart }
    requires is_graph { IsGraph graph.now }
    ensures { (i : Network) → IsNetwork i → HasFitWeights kind i → graph.now ≡ graph_of i
        → IfOk result (SettlesOrHasNoPart kind i) }
{
    if edge_connected(alloc, graph)? {
        return Ok(None);
    }
    let Some(first) = least_met(graph) else {
        return Ok(None);
    };
    let part = component(alloc, graph, first)?;
    let document = infeasible(alloc, kind, &part);
    drop(part);
    Ok(Some(document?))
}

/// The document of the component of the least vertex that an edge meets, if some edge lies in
/// another.
fn split_part(
    alloc: Global,
    instance: &Instance,
    kind: Kind,
) -> Result<Option<Document>, OutOfMemory>
    requires kind { obstruction_of kind ≡ SplitPart }
    requires network { IsNetwork instance.now }
    requires weights { HasFitWeights kind instance.now }
    ensures { IfOk result (SettlesOrHasNoPart kind instance.now) }
{
    let graph = instance.graph()?;
    let document = split_by(alloc, &graph, kind);
    drop(graph);
    document
}

/// The document of a part that excludes all answers of a kind, if there is one and this kind's
/// answers are excluded so: of no join (chapter 29) or no tour. It takes time linear in the
/// instance.
///
/// # Errors
///
/// `OutOfMemory` if an allocation fails.
pub fn excluded(
    alloc: Global,
    instance: &Instance,
    kind: Kind,
) -> Result<Option<Document>, OutOfMemory>
    requires network { IsNetwork instance.now }
    requires weights { HasFitWeights kind instance.now }
    ensures { IfOk result (SettlesOrHasNoPart kind instance.now) }
{
    match kind.obstruction() {
        Obstruction::OddPart => odd_part(alloc, instance, kind),
        Obstruction::SplitPart => split_part(alloc, instance, kind),
        Obstruction::Barrier | Obstruction::Never => Ok(None),
    }
}
