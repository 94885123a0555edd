ghost use Rattle.std.specs.Prelude.{◌≡◌, ◌↔◌, None, IfOk};
ghost use Rattle.mb_problem.specs.Ready.{HasNeededWeights};
ghost use Rattle.mb_problem.specs.Size.{size_of};
ghost use Rattle.graph_theory.specs.Limits.{IsWithinLimits};
ghost use Rattle.certificates.specs.Ranges.{first_out_of_range};
ghost use Rattle.certificates.specs.Within.{AreWithin};
ghost use Rattle.cert_check.specs.Extents.{MayBeJudged, IsExtent};
ghost use Rattle.cert_check.specs.Verdicts.{IsVerdict, HasFeasibleDuals};
ghost use Rattle.certificates.specs.Proved.{IsProved, StatesTruth};

use crate::circuit::judge_conservative;
use crate::extent::{Sizes, extent_of};
use crate::infeasible::judge_infeasible;
use crate::optimal::judge_optimal;
use crate::ranges::first_outside;
use crate::rule::{DocRule, Verdict};
use doc_format::{DocStatus, Document};
use mb_base::OutOfMemory;
use mb_problem::{Instance, Kind};
use std::alloc::Global;

/// The verdict on a document that is of the kind and whose numbers are in range.
fn judge_claims(
    alloc: Global,
    instance: &Instance,
    kind: Kind,
    document: &Document,
    extent: Sizes,
) -> Result<Verdict, OutOfMemory>
    requires judged { MayBeJudged kind instance.now }
    requires extent { IsExtent kind instance.now extent }
    requires same { document.now.kind ≡ kind }
    requires within { AreWithin kind instance.now document.now }
    requires in_range { first_out_of_range kind instance.now document.now ≡ None }
    ensures verdict { IfOk result (IsVerdict kind instance.now document.now) }
    ensures sound { IfOk result
        (λ v. v ≡ Verdict.Accepted → StatesTruth kind instance.now document.now) }
    ensures duals { IfOk result
        (λ v. v ≡ Verdict.Accepted → HasFeasibleDuals kind instance.now document.now) }
{
    match document.status {
        DocStatus::Optimal => judge_optimal(alloc, instance, kind, document, extent),
        DocStatus::Infeasible => judge_infeasible(alloc, instance, kind, document),
        DocStatus::NonConservative => judge_conservative(alloc, instance, kind, document),
    }
}

/// Whether a document proves what it states of an instance, or the first rule that it breaks, and
/// the line: by duals on vertices and odd sets (chapters 25 and 26), by a set that violates Tutte's
/// condition or by even paths (chapter 24), by a set that no edge leaves or by a circuit of
/// negative weight (chapter 29). It takes time linear in the instance, the graph of its
/// certificates and the document, and besides for the sets what `bound` of `dual_check` says, and
/// for each `r` line the number of vertices. The graph is within its limits, and no weight is
/// negative for the postman.
///
/// # Errors
///
/// `OutOfMemory` if an allocation fails.
pub fn judge(
    alloc: Global,
    instance: &Instance,
    kind: Kind,
    document: &Document,
) -> Result<Verdict, OutOfMemory>
    requires limits { IsWithinLimits (size_of kind instance.now) }
    requires weights { HasNeededWeights kind instance.now }

    // The first broken rule and its line, or acceptance.
    ensures verdict { IfOk result (IsVerdict kind instance.now document.now) }

    // Acceptance exactly if the document proves its statement.
    ensures accepted { IfOk result
        (λ v. (v ≡ Verdict.Accepted) ↔ IsProved kind instance.now document.now) }

    // What an accepted document states is true of the instance: the answer is feasible, weighs W
    // and none is better; or none is feasible; or there is a negative cycle.
    ensures sound { IfOk result
        (λ v. v ≡ Verdict.Accepted → StatesTruth kind instance.now document.now) }
{
    if document.kind != kind {
        let rule = DocRule::KindDiffers;
        let line = document.line;
        return Ok(Verdict::Rejected { rule, line });
    }
    let extent = extent_of(instance, kind);
    if let Some(line) = first_outside(document, extent) {
        let rule = DocRule::DocRange;
        return Ok(Verdict::Rejected { rule, line });
    }
    judge_claims(alloc, instance, kind, document, extent)
}
