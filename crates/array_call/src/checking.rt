ghost use Rattle.std.specs.Prelude.{◌≡◌, length, true, false, All, None, IfOk, IfSome};
ghost use Rattle.graph_theory.specs.Limits.{IsWithinLimits};
ghost use Rattle.mb_problem.specs.Kinds.{form_of};
ghost use Rattle.mb_problem.specs.Ready.{IsReady};
ghost use Rattle.mb_problem.specs.Size.{size_of};
ghost use Rattle.solve_answers.specs.declared.detail.Detail.TheVariants.{Full};
ghost use Rattle.array_call.specs.Arrays.{arrays_of, network_of};
ghost use Rattle.array_call.specs.Layout.{numbers_for};
ghost use Rattle.array_call.specs.Made.{IsFaultless};
ghost use Rattle.array_call.specs.Sheets.{IsCountOn};
ghost use Rattle.array_call.specs.Checks.{IsOfNumbers, HasVerdict, Checks};
ghost use Rattle.doc_format.specs.declared.document.Document.{Document};

use crate::arrays::InstanceArrays;
use crate::building::document_of;
use crate::error::ArrayError;
use crate::laying::numbers_of;
use crate::making::instance_of;
use crate::parting::parted;
use cert_check::{DocRule, Verdict, judge};
use certificates::is_within_limits;
use doc_format::Document;
use mb_base::OutOfMemory;
use mb_problem::{Instance, Kind, gadget_size};
use solve_answers::Detail;
use std::alloc::Global;

/// Whether two lists of numbers of the same length are the same.
fn are_same(own: &[i64], numbers: &[i64]) -> bool
    requires { length own.now ≡ length numbers.now }
    ensures yes { result ≡ true → own.now ≡ numbers.now }
    ensures no { result ≡ false → own.now ≡ numbers.now → ⊥ }
{
    for k in 0..own.len() {
        if own[k] != numbers[k] {
            return false;
        }
    }
    true
}

/// Whether numbers are those of a document of a kind on `m` edges, in full.
fn is_laid(
    alloc: Global,
    kind: Kind,
    m: usize,
    document: &Document,
    numbers: &[i64],
) -> Result<bool, OutOfMemory>
    requires { All (IsCountOn m) document.now.counts }
    ensures yes { IfOk result (λ b. b ≡ true
        → numbers.now ≡ numbers_for Full (form_of kind) m document.now) }
    ensures no { IfOk result (λ b. b ≡ false
        → numbers.now ≡ numbers_for Full (form_of kind) m document.now → ⊥) }
{
    let own = numbers_of(alloc, kind, m, Detail::Full, document)?;
    if own.len() != numbers.len() {
        return Ok(false);
    }
    Ok(are_same(&own, numbers))
}

/// The document of a kind on `m` edges that has these numbers, if there is one.
fn document_in(
    alloc: Global,
    kind: Kind,
    m: usize,
    numbers: &[i64],
) -> Result<Option<Document>, OutOfMemory>
    ensures own { IfOk result (λ o. IfSome o
        (λ d. numbers.now ≡ numbers_for Full (form_of kind) m d)) }
    ensures kind { IfOk result (λ o. IfSome o (λ d. d.kind ≡ kind)) }
    ensures none { IfOk result (λ o. o ≡ None → (d : Document) → d.kind ≡ kind
        → numbers.now ≡ numbers_for Full (form_of kind) m d → ⊥) }
{
    let Some(parts) = parted(numbers) else {
        return Ok(None);
    };
    let Some(document) = document_of(alloc, kind, m, &parts)? else {
        return Ok(None);
    };
    match is_laid(alloc, kind, m, &document, numbers) {
        Ok(true) => Ok(Some(document)),
        Ok(false) => Ok(None),
        Err(error) => Err(error),
    }
}

/// The first rule that the document of numbers breaks; none if it proves what it states.
fn verdict_on(
    alloc: Global,
    kind: Kind,
    arrays: &InstanceArrays<'_>,
    instance: &Instance,
    document: &Document,
    numbers: &[i64],
) -> Result<Option<DocRule>, OutOfMemory>
    requires own { IsOfNumbers kind (arrays_of arrays.now) numbers.now document.now }
    requires kind { document.now.kind ≡ kind }
    requires same { instance.now ≡ network_of kind (arrays_of arrays.now) }
    requires limits { IsWithinLimits (size_of kind instance.now) }
    requires well_formed { IsReady kind instance.now }
    ensures { IfOk result (HasVerdict kind (arrays_of arrays.now) numbers.now) }
{
    let verdict = judge(alloc, instance, kind, document)?;
    match verdict {
        Verdict::Accepted => Ok(None),
        Verdict::Rejected { rule, .. } => Ok(Some(rule)),
    }
}

/// The first rule that numbers break; none if their document proves what it states.
fn judged(
    alloc: Global,
    kind: Kind,
    arrays: &InstanceArrays<'_>,
    instance: &Instance,
    numbers: &[i64],
) -> Result<Option<DocRule>, OutOfMemory>
    requires same { instance.now ≡ network_of kind (arrays_of arrays.now) }
    requires limits { IsWithinLimits (size_of kind instance.now) }
    requires well_formed { IsReady kind instance.now }
    ensures { IfOk result (HasVerdict kind (arrays_of arrays.now) numbers.now) }
{
    let Some(document) = document_in(alloc, kind, arrays.from.len(), numbers)? else {
        return Ok(Some(DocRule::DocForm));
    };
    let verdict = verdict_on(alloc, kind, arrays, instance, &document, numbers);
    drop(document);
    verdict
}

/// Judges numbers for the instance that arrays are: its size is tested first.
fn check_instance(
    alloc: Global,
    kind: Kind,
    arrays: &InstanceArrays<'_>,
    instance: &Instance,
    numbers: &[i64],
) -> Result<Option<DocRule>, ArrayError>
    requires same { instance.now ≡ network_of kind (arrays_of arrays.now) }
    requires faultless { IsFaultless kind (arrays_of arrays.now) }
    requires well_formed { IsReady kind instance.now }
    ensures { Checks kind (arrays_of arrays.now) numbers.now result }
{
    let (vertices, edges) = gadget_size(instance, kind);
    if !is_within_limits(vertices, edges) {
        return Err(ArrayError::TooLarge { vertices, edges });
    }
    let rule = judged(alloc, kind, arrays, instance, numbers)?;
    Ok(rule)
}

/// Judges the numbers of an answer for the instance that arrays are: no rule if they are those of a
/// document that proves what it states (`cert_check::judge`), else the first rule that it breaks;
/// `DocForm` exactly if the numbers aren't those of a document of the kind.
pub fn check_arrays(
    alloc: Global,
    kind: Kind,
    arrays: &InstanceArrays<'_>,
    numbers: &[i64],
) -> Result<Option<DocRule>, ArrayError>
    // Numbers are accepted only if they are those of a document that proves what it states of
    // exactly this instance; else the first rule that it breaks, `DocForm` exactly if no document
    // of the kind has the numbers, a fault of the arrays, a size past a limit, or that memory ran
    // out.
    ensures { Checks kind (arrays_of arrays.now) numbers.now result }
{
    let instance = instance_of(alloc, kind, arrays)?;
    check_instance(alloc, kind, arrays, &instance, numbers)
}
