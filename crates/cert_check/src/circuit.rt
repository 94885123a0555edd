ghost use Rattle.std.specs.Prelude.{◌≡◌, ◌↔◌, length, IsTrue, IfOk, IfSome};
ghost use Rattle.mb_problem.specs.Network.{Network, vertices};
ghost use Rattle.doc_format.specs.declared.document.Document.{Document};
ghost use Rattle.certificates.specs.Claims.{walk_of};
ghost use Rattle.certificates.specs.Within.{IsWalkWithin, AreWithin};
ghost use Rattle.cert_check.specs.Verdicts.{IsVerdict, KeepsBefore};
ghost use Rattle.certificates.specs.Certificates.{HasNegativeCircuit};
ghost use Rattle.certificates.specs.Proved.{StatesTruth};

use crate::claims::walk_of;
use crate::rule::{DocRule, Verdict};
use doc_format::{DocStatus, Document};
use mb_base::OutOfMemory;
use mb_problem::{Answer, Instance, Kind, is_circuit, weight};
use std::alloc::Global;

/// Whether an answer is a circuit that weighs less than 0.
fn is_negative(alloc: Global, instance: &Instance, answer: &Answer) -> Result<bool, OutOfMemory>
    ensures { (d : Document) → answer.now ≡ walk_of d.walk
        → IfOk result (λ b. IsTrue b ↔ HasNegativeCircuit instance.now d) }
{
    let Answer::Walk { start, edges } = answer else {
        return Ok(false);
    };
    if !is_circuit(alloc, instance, *start, edges.as_slice())? {
        return Ok(false);
    }
    Ok(weight(instance, Kind::Path, answer) < 0)
}

/// Whether a document names a circuit that weighs less than 0.
fn has_negative_circuit(
    alloc: Global,
    instance: &Instance,
    document: &Document,
) -> Result<bool, OutOfMemory>
    requires { IfSome document.now.walk
        (IsWalkWithin (vertices instance.now) (length instance.now.edges)) }
    ensures { IfOk result (λ b. IsTrue b ↔ HasNegativeCircuit instance.now document.now) }
{
    let walk = walk_of(alloc, instance, &document.walk)?;
    let found = is_negative(alloc, instance, &walk);
    drop(walk);
    found
}

/// The verdict on a document that states that the weights aren't conservative.
pub fn judge_conservative(
    alloc: Global,
    instance: &Instance,
    kind: Kind,
    document: &Document,
) -> Result<Verdict, OutOfMemory>
    requires status { document.now.status ≡ DocStatus.NonConservative }
    requires within { AreWithin kind instance.now document.now }
    requires before { KeepsBefore kind instance.now document.now DocRule.NotCircuit }
    ensures verdict { IfOk result (IsVerdict kind instance.now document.now) }
    ensures sound { IfOk result
        (λ v. v ≡ Verdict.Accepted → StatesTruth kind instance.now document.now) }
{
    if !has_negative_circuit(alloc, instance, document)? {
        let rule = DocRule::NotCircuit;
        let line = document.line;
        return Ok(Verdict::Rejected { rule, line });
    }
    Ok(Verdict::Accepted)
}
