//! Kinds whose best answers have no duals.
ghost use Rattle.std.specs.Prelude.{◌≡◌, ◌≢◌, ◌≤◌, ◌+◌, ◌*◌, IfOk};
ghost use Rattle.std.specs.List.Sorted.{IsStrictlyIncreasing};
ghost use Rattle.graph_theory.specs.Limits.{IsWithinLimits};
ghost use Rattle.graph_theory.specs.Parts.{IsVertexSet};
ghost use Rattle.mb_problem.specs.declared.kind.BestProof.TheVariants.{LighterBarrier};
ghost use Rattle.mb_problem.specs.Kinds.{proof_of, searches_of};
ghost use Rattle.mb_problem.specs.Network.{IsNetwork, vertices};
ghost use Rattle.mb_problem.specs.Size.{size_of};
ghost use Rattle.bottleneck.specs.declared.found.Bottleneck.TheVariants.{Best};
ghost use Rattle.bottleneck.specs.Thresholds.{IsThreshold};
ghost use Rattle.mwpm_engine.specs.Solutions.{most_steps};
ghost use Rattle.solve_answers.specs.Excluding.{StatesSet};
ghost use Rattle.solve_answers.specs.Settled.{SettlesBare};
ghost use Rattle.solve_kinds.specs.Lightest.{line_beside, StatesLightest};

use bottleneck::{Bottleneck, threshold};
use doc_format::{DocStatus, Document, Head, MemberLine};
use document_lines::{count_lines, member_line};
use gadget_base::extract_plain;
use mb_base::{EdgeId, OutOfMemory, Sequence, Steps, VertexId};
use mb_problem::{EDGE_LIMIT, Instance, Kind};
use solve_answers::infeasible_by;
use std::alloc::Global;
use std::sync::ledger::Ledger;

/// The line of a barrier that stands beside a best answer, if there is a vertex.
fn barrier_line(
    alloc: Global,
    instance: &Instance,
    set: &[VertexId],
) -> Result<Option<MemberLine>, OutOfMemory>
    requires { vertices instance.now ≢ 0 → IsVertexSet (vertices instance.now) set.now }
    ensures { IfOk result (λ line. line ≡ line_beside (vertices instance.now) set.now) }
{
    if instance.vertices() == 0 {
        return Ok(None);
    }
    Ok(Some(member_line(alloc, set)?))
}

/// The document of a perfect matching that minimises the largest edge weight, with a barrier of the
/// graph of lighter edges if there is a vertex.
fn best(
    alloc: Global,
    instance: &Instance,
    kind: Kind,
    weight: i64,
    matching: &[EdgeId],
    barrier: &[VertexId],
) -> Result<Document, OutOfMemory>
    requires network { IsNetwork instance.now }
    requires proof { proof_of kind ≡ LighterBarrier }
    requires found { IsThreshold instance.now (Best weight matching.now barrier.now) }
    ensures { IfOk result (StatesLightest instance.now weight barrier.now) }
{
    let answer = extract_plain(alloc, instance, matching)?;
    let lines = count_lines(alloc, instance, &answer);
    drop(answer);
    let counts = Sequence::from_vec(lines?);
    let line = barrier_line(alloc, instance, barrier)?;
    let head = Head {
        line: 1,
        status: DocStatus::Optimal,
        kind,
        weight,
    };
    let mut document = Document::new(alloc, head);
    document.counts = counts;
    document.barrier = line;
    Ok(document)
}

/// The document of a barrier of the graph.
fn unmatched(alloc: Global, kind: Kind, set: &[VertexId]) -> Result<Document, OutOfMemory>
    requires proof { proof_of kind ≡ LighterBarrier }
    requires ascending { IsStrictlyIncreasing set.now }
    ensures { IfOk result (StatesSet kind set.now) }
{
    let line = member_line(alloc, set)?;
    infeasible_by(alloc, kind, line)
}

/// The document of what halving over the weights has found.
fn stated(
    alloc: Global,
    instance: &Instance,
    kind: Kind,
    found: &Bottleneck,
) -> Result<Document, OutOfMemory>
    requires network { IsNetwork instance.now }
    requires proof { proof_of kind ≡ LighterBarrier }
    requires found { IsThreshold instance.now found.now }
    ensures { IfOk result (SettlesBare kind instance.now) }
{
    match found {
        Bottleneck::Best {
            weight,
            matching,
            barrier,
        } => best(
            alloc,
            instance,
            kind,
            *weight,
            matching.as_slice(),
            barrier.as_slice(),
        ),
        Bottleneck::Unmatched { barrier } => unmatched(alloc, kind, barrier.as_slice()),
    }
}

/// The document of a perfect matching that minimises the largest edge weight, with a barrier of the
/// graph of lighter edges if there is a vertex; or of a barrier of the graph (chapter 24). It has
/// no duals and no sets.
///
/// # Errors
///
/// `OutOfMemory` if an allocation fails.
pub fn lightest<L: Ledger>(
    alloc: Global,
    instance: &Instance,
    kind: Kind,
    steps: &mut Steps<L>,
) -> Result<Document, OutOfMemory>
    requires limits { IsWithinLimits (size_of kind instance.now) }
    requires proof { proof_of kind ≡ LighterBarrier }
    ensures settled { IfOk result (SettlesBare kind instance.now) }
    ensures steps { steps.new ≤ steps.old
        + searches_of kind * most_steps (size_of kind instance.now) }
{
    prove!(instance.edges() <= EDGE_LIMIT);
    let found = threshold(alloc, instance, steps)?;
    let document = stated(alloc, instance, kind, &found);
    drop(found);
    document
}
