ghost use Rattle.std.specs.Prelude.{◌≡◌, false, IfOk};
ghost use Rattle.graph_theory.specs.Limits.{IsWithinLimits};
ghost use Rattle.mb_problem.specs.Size.{size_of};
ghost use Rattle.mb_problem.specs.Ready.{IsReady};
ghost use Rattle.doc_format.specs.Law.{HasKeptNumbers};
ghost use Rattle.doc_format.specs.Reading.{Reads};
ghost use Rattle.doc_format.specs.Spelling.{document_text};
ghost use Rattle.certificates.specs.Proved.{IsProved};

use cert_check::{DocRule, Verdict, judge};
use doc_format::{DocError, Document, read, write};
use mb_base::OutOfMemory;
use mb_problem::{Instance, Kind};
use std::alloc::{AllocError, Global};

/// The document that reads back from the text of a document, which isn't kept.
fn read_back(alloc: Global, document: &Document) -> Result<Document, DocError>
    ensures { Reads 1 (document_text document.now false) result }
{
    let text = write(alloc, document, false)?;
    read(alloc, text.as_slice(), 1)
}

/// The verdict on a document that proves its answer (Schrijver, Combinatorial Optimization, volume
/// A, chapters 24 to 33), as it reads back from its text: it is yes.
///
/// # Errors
///
/// `OutOfMemory` if an allocation fails.
pub fn judge_text(
    alloc: Global,
    instance: &Instance,
    kind: Kind,
    document: &Document,
) -> Result<Verdict, OutOfMemory>
    requires limits { IsWithinLimits (size_of kind instance.now) }
    requires well_formed { IsReady kind instance.now }
    requires proved { IsProved kind instance.now document.now }
    requires kept { HasKeptNumbers document.now }

    // A document that proves its answer is accepted as it reads back from its text.
    ensures { IfOk result (λ v. v ≡ Verdict.Accepted) }
{
    match read_back(alloc, document) {
        Ok(again) => {
            let verdict = judge(alloc, instance, kind, &again);
            drop(again);
            verdict
        }
        Err(DocError::DocForm { line }) => {
            let rule = DocRule::DocForm;
            Ok(Verdict::Rejected { rule, line })
        }
        Err(DocError::OutOfMemory) => Err(AllocError),
    }
}
