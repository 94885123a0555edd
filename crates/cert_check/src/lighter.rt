//! Documents whose best answer a barrier of the graph of lighter edges proves.
ghost use Rattle.std.specs.Prelude.{◌≡◌, ◌↔◌, IsTrue, IfOk};
ghost use Rattle.mb_problem.specs.declared.kind.BestProof.TheVariants.{LighterBarrier};
ghost use Rattle.mb_problem.specs.Kinds.{proof_of};
ghost use Rattle.mb_problem.specs.Network.{IsNetwork};
ghost use Rattle.gadget_base.specs.Lighter.{lighter_than};
ghost use Rattle.certificates.specs.Certificates.{HasLighterBarrier};
ghost use Rattle.certificates.specs.Within.{AreWithin};
ghost use Rattle.certificates.specs.Proved.{StatesTruth};
ghost use Rattle.cert_check.specs.Extents.{MayBeJudged};
ghost use Rattle.cert_check.specs.Verdicts.{IsVerdict, KeepsBefore, HasFeasibleDuals};

use crate::claims::members_of;
use crate::rule::{DocRule, Verdict};
use certificates::certified;
use doc_format::{DocStatus, Document};
use dual_check::is_barrier;
use mb_base::OutOfMemory;
use mb_problem::{Instance, Kind};
use std::alloc::Global;
use weighted_graph::Graph;

/// The same vertices, and only the edges that weigh less than this.
fn lighter(alloc: Global, graph: &Graph, weight: i64) -> Result<Graph, OutOfMemory>
    ensures { IfOk result (λ h. h ≡ lighter_than weight graph.now) }
{
    let mut light = Graph::new(alloc, graph.vertices());
    for edge in graph.edge_list() {
        if edge.w < weight {
            light.add(edge.u, edge.v, edge.w)?;
        }
    }
    Ok(light)
}

/// Whether a document names a barrier of the graph of all edges that are lighter than its weight.
/// If there are no vertices it needs none.
fn has_lighter_barrier(
    alloc: Global,
    instance: &Instance,
    kind: Kind,
    document: &Document,
) -> Result<bool, OutOfMemory>
    requires judged { MayBeJudged kind instance.now }
    requires within { AreWithin kind instance.now document.now }
    ensures exact { IfOk result
        (λ b. IsTrue b ↔ HasLighterBarrier kind instance.now document.now) }
    ensures network { IsNetwork instance.now }
{
    if instance.vertices() == 0 {
        return Ok(true);
    }
    let Some(u) = &document.barrier else {
        return Ok(false);
    };
    let graph = certified(alloc, instance, kind)?;
    let light = lighter(alloc, &graph, document.weight)?;
    let members = members_of(alloc, u.members.as_slice())?;
    is_barrier(alloc, &light, &members)
}

/// The verdict on a document that states a best answer, which is in order, of a kind that a barrier
/// of the graph of all lighter edges proves best. Without vertices nothing is looked at.
pub fn judge_below(
    alloc: Global,
    instance: &Instance,
    kind: Kind,
    document: &Document,
) -> Result<Verdict, OutOfMemory>
    requires judged { MayBeJudged kind instance.now }
    requires proof { proof_of kind ≡ LighterBarrier }
    requires status { document.now.status ≡ DocStatus.Optimal }
    requires within { AreWithin kind instance.now document.now }
    requires before { KeepsBefore kind instance.now document.now DocRule.DualMissing }
    ensures verdict { IfOk result (IsVerdict kind instance.now document.now) }
    ensures sound { IfOk result
        (λ v. v ≡ Verdict.Accepted → StatesTruth kind instance.now document.now) }
    ensures duals { IfOk result
        (λ v. v ≡ Verdict.Accepted → HasFeasibleDuals kind instance.now document.now) }
{
    if !has_lighter_barrier(alloc, instance, kind, document)? {
        let rule = DocRule::NotBarrier;
        let line = document.line;
        return Ok(Verdict::Rejected { rule, line });
    }
    Ok(Verdict::Accepted)
}
