ghost use Rattle.std.specs.Prelude.{◌≡◌, IfOk};
ghost use Rattle.check_text.specs.Codes.{status_of};
ghost use Rattle.check_text.specs.Lines.{statement_line, trial_text};

use crate::output::{Output, line_of_size, put_both};
use crate::verdict::judged;
use cert_check::Verdict;
use doc_format::{DocStatus, Document};
use itoa::Buffer;
use mb_base::OutOfMemory;
use std::alloc::Global;

/// The first line of a document.
fn statement(alloc: Global, document: &Document) -> Result<Vec<u8>, OutOfMemory>
    ensures { IfOk result (λ v. v.items ≡ statement_line document.now) }
{
    let mut text = Vec::new(alloc);
    put_both(&mut text, b"s ", document.status.name())?;
    put_both(&mut text, b" ", document.kind.name())?;
    if document.status == DocStatus::Optimal {
        let mut buffer = Buffer::new();
        put_both(&mut text, b" ", buffer.format(document.weight).as_bytes())?;
    }
    text.extend_from_slice(b"\n")?;
    Ok(text)
}

/// What a trial tells of a document and of the verdict on it, with the size of its certificate
/// graph.
///
/// # Errors
///
/// `OutOfMemory` if an allocation fails.
pub fn told(
    alloc: Global,
    vertices: u64,
    edges: u64,
    document: &Document,
    verdict: Verdict,
) -> Result<Output, OutOfMemory>
    // What is told of a document and of its verdict.
    ensures text { IfOk result (λ a. a.text.items
        ≡ trial_text (record { vertices = vertices; edges = edges }) document.now verdict) }
    ensures status { IfOk result (λ a. a.status ≡ status_of verdict) }
{
    let statement = statement(alloc, document)?;
    let judged = judged(alloc, verdict)?;
    let mut text = line_of_size(alloc, b"g ", vertices, edges)?;
    put_both(&mut text, &statement, &judged.text)?;
    let status = judged.status;
    Ok(Output { text, status })
}
