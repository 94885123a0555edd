ghost use Rattle.std.specs.Prelude.{◌≡◌, ◌+◌, ◌*◌, ◌≤◌, false, length, IfOk};
ghost use Rattle.graph_theory.specs.Limits.{IsWithinLimits};
ghost use Rattle.mb_problem.specs.Kinds.{searches_of};
ghost use Rattle.mb_problem.specs.Network.{IsNetwork};
ghost use Rattle.mb_problem.specs.Size.{size_of};
ghost use Rattle.mb_problem.specs.Ready.{IsReady};
ghost use Rattle.doc_format.specs.Spelling.{document_text};
ghost use Rattle.certificates.specs.Proved.{IsProved, StatesTruth};
ghost use Rattle.mwpm_engine.specs.Solutions.{most_steps};
ghost use Rattle.solve_answers.specs.Chosen.{IsChosen};
ghost use Rattle.solve_answers.specs.Settled.{byte_limit_of};
ghost use Rattle.solve_answers.specs.Solved.{HasTrueStatus};

use cert_check::Verdict;
use check_text::judge_text;
use doc_format::Document;
use mb_base::{OutOfMemory, Steps};
use mb_problem::{Instance, Kind};
use solve_kinds::solve;
use std::alloc::Global;
use std::sync::ledger::Ledger;

/// A computed document, and the verdict on it as it reads back from its text.
#[derive(Drop)]
pub struct Trial {
    pub document: Document,
    pub verdict: Verdict,
}

/// Solves an instance, writes the document in full, reads it back and judges it (Schrijver,
/// Combinatorial Optimization, volume A, chapters 24 to 33): the verdict is yes, whatever the
/// instance is. The steps of the searches are counted on `steps`.
///
/// # Errors
///
/// `OutOfMemory` if an allocation fails.
pub fn try_instance<L: Ledger>(
    alloc: Global,
    instance: &Instance,
    kind: Kind,
    steps: &mut Steps<L>,
) -> Result<Trial, OutOfMemory>
    requires limits { IsWithinLimits (size_of kind instance.now) }
    requires well_formed { IsReady kind instance.now }
    requires network { IsNetwork instance.now }
    ensures proved { IfOk result (λ t. IsProved kind instance.now t.document) }
    ensures truth { IfOk result (λ t. StatesTruth kind instance.now t.document) }
    ensures exact { IfOk result (λ t. HasTrueStatus kind instance.now t.document.status) }
    ensures chosen { IfOk result (λ t. IsChosen kind instance.now t.document) }
    ensures size_limit { IfOk result (λ t. length (document_text t.document false)
        ≤ byte_limit_of kind) }

    // An instance that is solved, written, read back and judged is accepted.
    ensures accepted { IfOk result (λ t. t.verdict ≡ Verdict.Accepted) }

    // Within the steps of its search.
    ensures steps { steps.new ≤ steps.old + searches_of kind * most_steps
        (size_of kind instance.now) }
{
    let document = solve(alloc, instance, kind, steps)?;
    match judge_text(alloc, instance, kind, &document) {
        Ok(verdict) => Ok(Trial { document, verdict }),
        Err(error) => {
            drop(document);
            Err(error)
        }
    }
}
