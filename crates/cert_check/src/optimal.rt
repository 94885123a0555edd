ghost use Rattle.std.specs.Prelude.{◌≡◌, ◌≢◌, ℕ, ◌<◌, pos, ◌*ℤ◌, ◌≤ℤ◌, true, List, length, IfOk};
ghost use Rattle.graph_theory.specs.Graph.{IsPerfect, weight};
ghost use Rattle.graph_theory.specs.Duals.{AreDuals, dual_value};
ghost use Rattle.mb_problem.specs.Kinds.{proof_of, are_duals};
ghost use Rattle.gadget_base.specs.Certified.{gadget_graph, ReachesAll};
ghost use Rattle.certificates.specs.Claims.{duals_of, sets_of, answer_of};
ghost use Rattle.certificates.specs.Certificates.{HasLineForm, listed};
ghost use Rattle.certificates.specs.Within.{AreWithin};
ghost use Rattle.cert_check.specs.Extents.{MayBeJudged, IsExtent};
ghost use Rattle.cert_check.specs.Faults.{IsSorted, IsFirstNumber};
ghost use Rattle.cert_check.specs.Verdicts.{IsVerdict, KeepsBefore, HasFeasibleDuals};
ghost use Rattle.certificates.specs.Proved.{StatesTruth};

use crate::claims::{answer_of, duals_of, sets_of};
use crate::extent::Sizes;
use crate::lighter::judge_below;
use crate::paths::judge_paths;
use crate::rule::{DocRule, Verdict};
use crate::set_form::{first_formless, first_mixed};
use certificates::{certified, value_for};
use doc_format::{DocStatus, Document};
use dual_check::{DualFault, OddSet, bound};
use mb_base::OutOfMemory;
use mb_problem::{Answer, BestProof, Instance, Kind, feasible, weight};
use std::alloc::{AllocError, Global};

/// The verdict on a document that states a best answer, whose duals are feasible and have this
/// value.
fn judge_value(instance: &Instance, kind: Kind, document: &Document, value: i128) -> Verdict
    requires proof { are_duals (proof_of kind) ≡ true }
    requires status { document.now.status ≡ DocStatus.Optimal }
    requires within { AreWithin kind instance.now document.now }
    requires value { value ≡ dual_value (duals_of document.now)
        (listed kind instance.now document.now) }
    requires duals { AreDuals (gadget_graph kind instance.now) (duals_of document.now)
        (listed kind instance.now document.now) }
    requires before { KeepsBefore kind instance.now document.now DocRule.ValueDiffers }
    requires below { (counts : List ℕ) → IsPerfect (gadget_graph kind instance.now) counts →
        value ≤ℤ (pos 2 *ℤ weight (gadget_graph kind instance.now) counts) }
    requires reached { ReachesAll kind instance.now }
    ensures verdict { IsVerdict kind instance.now document.now result }
    ensures sound { result ≡ Verdict.Accepted → StatesTruth kind instance.now document.now }
    ensures duals { result ≡ Verdict.Accepted → HasFeasibleDuals kind instance.now document.now }
{
    if value != value_for(instance, kind, document.weight) {
        let rule = DocRule::ValueDiffers;
        let line = document.line;
        return Verdict::Rejected { rule, line };
    }
    Verdict::Accepted
}

/// The verdict on a document whose set of this number, from 1, is the first without form.
fn refuse_set(instance: &Instance, kind: Kind, document: &Document, number: u64) -> Verdict
    requires before { KeepsBefore kind instance.now document.now DocRule.SetForm }
    requires fault { IsFirstNumber (HasLineForm document.now) (length document.now.sets) number }
    ensures verdict { IsVerdict kind instance.now document.now result }
    ensures refused { result ≢ Verdict.Accepted }
{
    let _ = instance;
    let _ = kind;
    let rule = DocRule::SetForm;
    let line = document.sets.as_slice()[number as usize - 1].line;
    Verdict::Rejected { rule, line }
}

/// The verdict on a document that states a best answer and has a dual for each vertex, and sets on
/// whose lines no vertex comes after a reference.
fn judge_bound(
    alloc: Global,
    instance: &Instance,
    kind: Kind,
    document: &Document,
    sets: &[OddSet],
) -> Result<Verdict, OutOfMemory>
    requires judged { MayBeJudged kind instance.now }
    requires proof { are_duals (proof_of kind) ≡ true }
    requires status { document.now.status ≡ DocStatus.Optimal }
    requires within { AreWithin kind instance.now document.now }
    requires size { length document.now.duals ≡ (gadget_graph kind instance.now).vertices }
    requires before { KeepsBefore kind instance.now document.now DocRule.SetForm }
    requires sets { sets.now ≡ sets_of document.now }
    requires sorted { (k : ℕ) → k < length document.now.sets → IsSorted document.now.sets k }
    ensures verdict { IfOk result (IsVerdict kind instance.now document.now) }
    ensures sound { IfOk result
        (λ v. v ≡ Verdict.Accepted → StatesTruth kind instance.now document.now) }
    ensures duals { IfOk result
        (λ v. v ≡ Verdict.Accepted → HasFeasibleDuals kind instance.now document.now) }
{
    let line = document.line;
    let graph = certified(alloc, instance, kind)?;
    let y = duals_of(alloc, document.duals.as_slice())?;
    match bound(alloc, &graph, &y, sets) {
        Ok(value) => Ok(judge_value(instance, kind, document, value)),
        Err(DualFault::SetForm(number)) => Ok(refuse_set(instance, kind, document, number)),
        Err(DualFault::Slack(_)) => {
            let rule = DocRule::Slack;
            Ok(Verdict::Rejected { rule, line })
        }
        Err(DualFault::OutOfMemory) => Err(AllocError),
    }
}

/// The verdict on a document that states a best answer and has a dual for each vertex.
fn judge_sets(
    alloc: Global,
    instance: &Instance,
    kind: Kind,
    document: &Document,
    extent: Sizes,
) -> Result<Verdict, OutOfMemory>
    requires judged { MayBeJudged kind instance.now }
    requires extent { IsExtent kind instance.now extent }
    requires proof { are_duals (proof_of kind) ≡ true }
    requires status { document.now.status ≡ DocStatus.Optimal }
    requires within { AreWithin kind instance.now document.now }
    requires size { length document.now.duals ≡ (gadget_graph kind instance.now).vertices }
    requires before { KeepsBefore kind instance.now document.now DocRule.SetForm }
    ensures verdict { IfOk result (IsVerdict kind instance.now document.now) }
    ensures sound { IfOk result
        (λ v. v ≡ Verdict.Accepted → StatesTruth kind instance.now document.now) }
    ensures duals { IfOk result
        (λ v. v ≡ Verdict.Accepted → HasFeasibleDuals kind instance.now document.now) }
{
    let lines = document.sets.as_slice();
    let sets = sets_of(alloc, lines)?;
    // A line with a vertex after a reference is refused before the graph takes memory.
    if let Some(mixed) = first_mixed(lines) {
        let number = first_formless(alloc, extent.certified, document, &sets, mixed)?;
        return Ok(refuse_set(instance, kind, document, number));
    }
    judge_bound(alloc, instance, kind, document, &sets)
}

/// The verdict on the duals of a document that states a best answer, whose answer is in order.
fn judge_duals(
    alloc: Global,
    instance: &Instance,
    kind: Kind,
    document: &Document,
    extent: Sizes,
) -> Result<Verdict, OutOfMemory>
    requires judged { MayBeJudged kind instance.now }
    requires extent { IsExtent kind instance.now extent }
    requires proof { are_duals (proof_of kind) ≡ true }
    requires status { document.now.status ≡ DocStatus.Optimal }
    requires within { AreWithin kind instance.now document.now }
    requires before { KeepsBefore kind instance.now document.now DocRule.DualMissing }
    ensures verdict { IfOk result (IsVerdict kind instance.now document.now) }
    ensures sound { IfOk result
        (λ v. v ≡ Verdict.Accepted → StatesTruth kind instance.now document.now) }
    ensures duals { IfOk result
        (λ v. v ≡ Verdict.Accepted → HasFeasibleDuals kind instance.now document.now) }
{
    if document.duals.len() != extent.certified as usize {
        let rule = DocRule::DualMissing;
        let line = document.line;
        return Ok(Verdict::Rejected { rule, line });
    }
    judge_sets(alloc, instance, kind, document, extent)
}

/// The verdict on a document that states a best answer, which is this one.
fn judge_answer(
    alloc: Global,
    instance: &Instance,
    kind: Kind,
    document: &Document,
    extent: Sizes,
    answer: &Answer,
) -> Result<Verdict, OutOfMemory>
    requires judged { MayBeJudged kind instance.now }
    requires extent { IsExtent kind instance.now extent }
    requires status { document.now.status ≡ DocStatus.Optimal }
    requires within { AreWithin kind instance.now document.now }
    requires before { KeepsBefore kind instance.now document.now DocRule.NotFeasible }
    requires answer { answer.now ≡ answer_of kind instance.now document.now }
    ensures verdict { IfOk result (IsVerdict kind instance.now document.now) }
    ensures sound { IfOk result
        (λ v. v ≡ Verdict.Accepted → StatesTruth kind instance.now document.now) }
    ensures duals { IfOk result
        (λ v. v ≡ Verdict.Accepted → HasFeasibleDuals kind instance.now document.now) }
{
    let line = document.line;
    if !feasible(alloc, instance, kind, answer)? {
        let rule = DocRule::NotFeasible;
        return Ok(Verdict::Rejected { rule, line });
    }
    if weight(instance, kind, answer) != i128::from(document.weight) {
        let rule = DocRule::WeightDiffers;
        return Ok(Verdict::Rejected { rule, line });
    }
    match kind.proof() {
        BestProof::Duals(_) => judge_duals(alloc, instance, kind, document, extent),
        BestProof::LighterBarrier => judge_below(alloc, instance, kind, document),
        BestProof::OuterPaths => judge_paths(alloc, instance, kind, document),
    }
}

/// The verdict on a document that states a best answer.
pub fn judge_optimal(
    alloc: Global,
    instance: &Instance,
    kind: Kind,
    document: &Document,
    extent: Sizes,
) -> Result<Verdict, OutOfMemory>
    requires judged { MayBeJudged kind instance.now }
    requires extent { IsExtent kind instance.now extent }
    requires status { document.now.status ≡ DocStatus.Optimal }
    requires within { AreWithin kind instance.now document.now }
    requires before { KeepsBefore kind instance.now document.now DocRule.NotFeasible }
    ensures verdict { IfOk result (IsVerdict kind instance.now document.now) }
    ensures sound { IfOk result
        (λ v. v ≡ Verdict.Accepted → StatesTruth kind instance.now document.now) }
    ensures duals { IfOk result
        (λ v. v ≡ Verdict.Accepted → HasFeasibleDuals kind instance.now document.now) }
{
    let answer = answer_of(alloc, instance, kind, document)?;
    let verdict = judge_answer(alloc, instance, kind, document, extent, &answer);
    drop(answer);
    verdict
}
