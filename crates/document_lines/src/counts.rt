ghost use Rattle.std.specs.Prelude.{◌≡◌, ◌+◌, ◌<◌, ◌≤◌, ◌==◌, if◌then◌else◌, [], ◌∷◌, ◌++◌};
ghost use Rattle.std.specs.Prelude.{length, slice_index, All, IfOk, OnOk};
ghost use Rattle.doc_format.specs.Form.{AscendsBy};
ghost use Rattle.mb_problem.specs.declared.limits.TheConstants.{VALUE_LIMIT};
ghost use Rattle.certificates.specs.Claims.{counts_of};
ghost use Rattle.certificates.specs.Within.{IsCountWithin};
ghost use Rattle.mb_problem.specs.Measured.{HasPlaces};
ghost use Rattle.document_lines.specs.Lines.{is_used, line_at, HasSmallCounts, ListsAnswer};

use doc_format::CountLine;
use mb_base::OutOfMemory;
use mb_problem::{Answer, Instance};
use std::alloc::Global;

/// Puts the line of an edge at the end where the edge is used.
fn push_used(lines: &mut Vec<CountLine>, counts: &[u32], e: u32) -> Result<(), OutOfMemory>
    requires low { 1 ≤ e }
    requires high { e ≤ length counts.now }
    ensures { OnOk result (lines.new.items ≡ (if is_used counts.now e
        then lines.old.items ++ line_at counts.now e ∷ [] else lines.old.items)) }
{
    let count = counts[e as usize - 1];
    if count == 0 {
        return Ok(());
    }
    lines.push(CountLine {
        line: 1,
        edge: i64::from(e),
        count: i64::from(count),
    })?;
    Ok(())
}

/// The `x` lines of counts on `m` edges.
fn used(alloc: Global, counts: &[u32], m: u32) -> Result<Vec<CountLine>, OutOfMemory>
    requires size { length counts.now ≡ m }
    requires value_limit { All (λ c. c ≤ VALUE_LIMIT) counts.now }
    ensures counts { IfOk result (λ v. counts_of v.items (length counts.now) ≡ counts.now) }
    ensures ascending { IfOk result (λ v. AscendsBy (λ x. x.edge) v.items) }
    ensures unread { IfOk result (λ v. All (λ x. x.line ≡ 1) v.items) }
    ensures in_range { IfOk result (λ v. All (IsCountWithin (length counts.now)) v.items) }
    ensures size_limit { IfOk result (λ v. length v.items ≤ length counts.now) }
{
    let mut lines = Vec::new(alloc);
    for place in 0..m {
        push_used(&mut lines, counts, place + 1)?;
    }
    Ok(lines)
}

/// The `x` lines of an answer: the edges that it uses, ascending. It takes time linear in the
/// edges.
pub fn count_lines(
    alloc: Global,
    instance: &Instance,
    answer: &Answer,
) -> Result<Vec<CountLine>, OutOfMemory>
    requires places { HasPlaces instance.now answer.now }
    requires value_limit { HasSmallCounts answer.now }

    // The lines that list an answer: exactly its edges with their counts, ascending.
    ensures counts { IfOk result (λ v. ListsAnswer answer.now v.items) }
    ensures ascending { IfOk result (λ v. AscendsBy (λ x. x.edge) v.items) }
    ensures unread { IfOk result (λ v. All (λ x. x.line ≡ 1) v.items) }
    ensures in_range { IfOk result (λ v. All (IsCountWithin (length instance.now.edges)) v.items) }
    ensures size_limit { IfOk result (λ v. length v.items ≤ length instance.now.edges) }
{
    match answer {
        Answer::Counts(counts) => used(alloc, counts.as_slice(), instance.edges()),
        _ => Ok(Vec::new(alloc)),
    }
}
