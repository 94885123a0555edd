ghost use Rattle.std.specs.Prelude.{◌≡◌, [], IfOk, OnOk};
ghost use Rattle.doc_format.specs.Spelling.{document_text};

use crate::document::Document;
use crate::line_writing::put_counts;
use crate::spelling::put_head;
use crate::status::DocStatus;
use mb_base::OutOfMemory;
use std::alloc::Global;

/// The text of a document, its lines consecutive. In brief it has the answer alone: no `y`, `z`,
/// `t`, `q` and `r` lines, `d` and `u` lines only if they are asked for, and no `w` line where that
/// is a circuit of negative weight.
pub fn write(alloc: Global, document: &Document, brief: bool) -> Result<Vec<u8>, OutOfMemory>
    // The one text of a document, with or without its certificate.
    ensures { IfOk result (λ v. v.items ≡ document_text document.now brief) }
{
    let mut out = Vec::new(alloc);
    put_document(&mut out, document, brief)?;
    Ok(out)
}

/// Puts the text of a document, if nothing is written yet.
fn put_document(out: &mut Vec<u8>, document: &Document, brief: bool) -> Result<(), OutOfMemory>
    requires { out.old.items ≡ [] }
    ensures { OnOk result (out.new.items ≡ document_text document.now brief) }
{
    put_head(out, document.status, document.kind, document.weight)?;
    put_counts(out, document.counts.as_slice())?;
    if !brief {
        document.put_walk(out)?;
        return document.put_certificate(out);
    }
    match document.status {
        DocStatus::NonConservative => Ok(()),
        DocStatus::Optimal | DocStatus::Infeasible => document.put_asked(out),
    }
}
