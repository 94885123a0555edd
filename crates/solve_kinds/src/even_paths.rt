//! Kinds whose best answers even paths prove.
ghost use Rattle.std.specs.Prelude.{◌≡◌, ◌≤◌, ◌+◌, ◌*◌, [], ◌∷◌};
ghost use Rattle.std.specs.Prelude.{◌++◌, length, map, All, IfOk, OnOk};
ghost use Rattle.graph_theory.specs.Graph.{IsEdgeNumber};
ghost use Rattle.graph_theory.specs.Limits.{IsWithinLimits};
ghost use Rattle.mb_problem.specs.declared.kind.BestProof.TheVariants.{OuterPaths};
ghost use Rattle.mb_problem.specs.Kinds.{proof_of, searches_of};
ghost use Rattle.mb_problem.specs.Network.{IsNetwork, graph_of};
ghost use Rattle.mb_problem.specs.Size.{size_of};
ghost use Rattle.gadget_base.specs.Listed.{times_each};
ghost use Rattle.doc_format.specs.Form.{AscendsBy};
ghost use Rattle.certificates.specs.Claims.{counts_of};
ghost use Rattle.certificates.specs.Within.{IsCountWithin};
ghost use Rattle.mwpm_engine.specs.Solutions.{most_steps};
ghost use Rattle.gallai.specs.Decompositions.{IsDecomposition};
ghost use Rattle.solve_answers.specs.Settled.{SettlesBare};
ghost use Rattle.solve_kinds.specs.Greatest.{path_line, StatesGreatest};

use doc_format::{CountLine, DocStatus, Document, Head, PathLine};
use document_lines::{count_lines, member_line};
use gadget_base::count_listed;
use gallai::{Decomposition, decompose};
use gallai_theory::laws;
use mb_base::{EdgeId, OutOfMemory, Sequence, Steps, VertexId};
use mb_problem::{Answer, EDGE_LIMIT, Instance, Kind};
use std::alloc::Global;
use std::sync::ledger::Ledger;

/// Puts the line of a path from a vertex at the end.
fn push_path(
    alloc: Global,
    lines: &mut Sequence<PathLine>,
    vertex: VertexId,
    edges: &[EdgeId],
) -> Result<(), OutOfMemory>
    ensures { OnOk result (lines.new ≡ lines.old ++ path_line (vertex, edges.now) ∷ []) }
{
    let mut numbers = Vec::with_capacity(alloc, edges.len())?;
    for edge in edges {
        numbers.push(i64::from(edge.number()))?;
    }
    lines.push(PathLine {
        line: 1,
        vertex: i64::from(vertex.number()),
        edges: Sequence::from_vec(numbers),
    })
}

/// The lines of paths, in order.
fn path_lines(alloc: Global, found: &Decomposition) -> Result<Sequence<PathLine>, OutOfMemory>
    ensures { IfOk result (λ lines. lines ≡ map path_line found.now.paths) }
{
    let mut lines = Sequence::new(alloc);
    for (vertex, edges) in found.paths.as_slice() {
        push_path(alloc, &mut lines, *vertex, edges.as_slice())?;
    }
    Ok(lines)
}

/// The `x` lines of a matching.
fn matching_lines(
    alloc: Global,
    instance: &Instance,
    matching: &[EdgeId],
) -> Result<Sequence<CountLine>, OutOfMemory>
    requires numbers { All (IsEdgeNumber (graph_of instance.now)) matching.now }
    requires size_limit { length matching.now ≤ 65536 }
    requires once { All (λ n. n ≤ 1) (times_each (graph_of instance.now) matching.now) }
    ensures counts { IfOk result (λ xs. counts_of xs (length instance.now.edges)
        ≡ times_each (graph_of instance.now) matching.now) }
    ensures ascending { IfOk result (AscendsBy (λ x. x.edge)) }
    ensures in_range { IfOk result (All (IsCountWithin (length instance.now.edges))) }
    ensures size_limit { IfOk result (λ xs. length xs ≤ length instance.now.edges) }
{
    let counts = count_listed(alloc, instance, matching)?;
    let answer = Answer::Counts(Sequence::from_vec(counts));
    let lines = count_lines(alloc, instance, &answer);
    drop(answer);
    Ok(Sequence::from_vec(lines?))
}

/// The document of a greatest matching with the vertices that some such one misses, their
/// neighbours and the paths from them.
fn stated(
    alloc: Global,
    instance: &Instance,
    kind: Kind,
    found: &Decomposition,
) -> Result<Document, OutOfMemory>
    requires network { IsNetwork instance.now }
    requires proof { proof_of kind ≡ OuterPaths }
    requires found { IsDecomposition instance.now found.now }
    ensures { IfOk result (StatesGreatest instance.now found.now) }
{
    let counts = matching_lines(alloc, instance, found.matching.as_slice())?;
    let outer = member_line(alloc, found.d.as_slice())?;
    let border = member_line(alloc, found.a.as_slice())?;
    let paths = path_lines(alloc, found)?;
    let head = Head {
        line: 1,
        status: DocStatus::Optimal,
        kind,
        weight: found.matching.len() as i64,
    };
    let mut document = Document::new(alloc, head);
    document.counts = counts;
    document.outer = Some(outer);
    document.barrier = Some(border);
    document.paths = paths;
    Ok(document)
}

/// The document of a greatest matching, with the vertices that some such one misses (Gallai,
/// Edmonds; chapter 24), by one search. It has no duals and no sets of odd size.
///
/// # Errors
///
/// `OutOfMemory` if an allocation fails.
pub fn greatest<L: Ledger>(
    alloc: Global,
    instance: &Instance,
    kind: Kind,
    steps: &mut Steps<L>,
) -> Result<Document, OutOfMemory>
    requires limits { IsWithinLimits (size_of kind instance.now) }
    requires proof { proof_of kind ≡ OuterPaths }
    ensures settled { IfOk result (SettlesBare kind instance.now) }
    ensures steps { steps.new ≤ steps.old
        + searches_of kind * most_steps (size_of kind instance.now) }
{
    prove!(instance.edges() <= EDGE_LIMIT);
    laws();
    let found = decompose(alloc, instance, steps)?;
    let document = stated(alloc, instance, kind, &found);
    drop(found);
    document
}
