ghost use Rattle.std.specs.Prelude.{◌≡◌, ◌↔◌, IsTrue, IfOk};
ghost use Rattle.mb_problem.specs.declared.kind.Obstruction.TheVariants.{Barrier};
ghost use Rattle.mb_problem.specs.Kinds.{obstruction_of};
ghost use Rattle.certificates.specs.Within.{AreWithin};
ghost use Rattle.cert_check.specs.Extents.{MayBeJudged};
ghost use Rattle.cert_check.specs.Verdicts.{IsVerdict, KeepsBefore};
ghost use Rattle.certificates.specs.Certificates.{HasBarrier, HasWantedBarrier};
ghost use Rattle.certificates.specs.Excluded.{HasNoAnswer, IsExcludedByBarrier};
ghost use Rattle.certificates.specs.Proved.{StatesTruth};

use crate::claims::members_of;
use crate::parts::has_wanted_part;
use crate::rule::{DocRule, Verdict};
use certificates::certified;
use doc_format::{DocStatus, Document};
use dual_check::is_barrier;
use mb_base::OutOfMemory;
use mb_problem::{Instance, Kind, Obstruction};
use std::alloc::Global;

/// Whether a document names a barrier.
fn has_barrier(
    alloc: Global,
    instance: &Instance,
    kind: Kind,
    document: &Document,
) -> Result<bool, OutOfMemory>
    requires judged { MayBeJudged kind instance.now }
    requires within { AreWithin kind instance.now document.now }
    requires excluded { obstruction_of kind ≡ Barrier }
    ensures exact { IfOk result (λ b. IsTrue b ↔ HasBarrier kind instance.now document.now) }
    ensures none { IfOk result (λ b. IsTrue b → HasNoAnswer kind instance.now) }
{
    let Some(u) = &document.barrier else {
        return Ok(false);
    };
    let graph = certified(alloc, instance, kind)?;
    let members = members_of(alloc, u.members.as_slice())?;
    is_barrier(alloc, &graph, &members)
}

/// Whether a document names the barrier that its kind wants, if it wants one.
fn has_wanted_barrier(
    alloc: Global,
    instance: &Instance,
    kind: Kind,
    document: &Document,
) -> Result<bool, OutOfMemory>
    requires judged { MayBeJudged kind instance.now }
    requires within { AreWithin kind instance.now document.now }
    ensures exact { IfOk result (λ b. IsTrue b ↔ HasWantedBarrier kind instance.now document.now) }
    ensures none { IfOk result (λ b. IsTrue b → IsExcludedByBarrier kind instance.now) }
{
    match kind.obstruction() {
        Obstruction::Barrier => has_barrier(alloc, instance, kind, document),
        Obstruction::OddPart | Obstruction::SplitPart => Ok(true),
        Obstruction::Never => Ok(false),
    }
}

/// The verdict on a document that states that no answer is feasible.
pub fn judge_infeasible(
    alloc: Global,
    instance: &Instance,
    kind: Kind,
    document: &Document,
) -> Result<Verdict, OutOfMemory>
    requires judged { MayBeJudged kind instance.now }
    requires status { document.now.status ≡ DocStatus.Infeasible }
    requires within { AreWithin kind instance.now document.now }
    requires before { KeepsBefore kind instance.now document.now DocRule.NotBarrier }
    ensures verdict { IfOk result (IsVerdict kind instance.now document.now) }
    ensures sound { IfOk result
        (λ v. v ≡ Verdict.Accepted → StatesTruth kind instance.now document.now) }
{
    let line = document.line;
    if !has_wanted_barrier(alloc, instance, kind, document)? {
        let rule = DocRule::NotBarrier;
        return Ok(Verdict::Rejected { rule, line });
    }
    if !has_wanted_part(alloc, instance, kind, document)? {
        let rule = DocRule::NotClosed;
        return Ok(Verdict::Rejected { rule, line });
    }
    Ok(Verdict::Accepted)
}
