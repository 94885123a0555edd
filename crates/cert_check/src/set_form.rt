ghost use Rattle.std.specs.Prelude.{◌≡◌, ◌==◌, ℕ, ◌<◌, ◌≤◌, length, drop, All, IfOk, MatchOption};
ghost use Rattle.graph_theory.specs.Duals.{IsNumber};
ghost use Rattle.graph_theory.specs.OddSets.{AreEarlier, IsGivenWithin};
ghost use Rattle.dual_check.specs.Fault.{IsFirstSetFault};
ghost use Rattle.certificates.specs.Claims.{vertices_in, sets_of};
ghost use Rattle.certificates.specs.Certificates.{vertices_first, HasLineForm};
ghost use Rattle.cert_check.specs.Faults.{IsSorted, IsFirstNumber};

use doc_format::{Document, SetItem, SetLine};
use dual_check::{OddSet, first_set_fault};
use mb_base::OutOfMemory;
use std::alloc::Global;

/// Whether no item is a vertex.
fn has_no_vertex(items: &[SetItem]) -> bool
    ensures { result ≡ (length (vertices_in items.now) == 0) }
{
    for item in items {
        if let SetItem::Vertex(_) = *item {
            return false;
        }
    }
    true
}

/// The items from this place on.
fn items_from(items: &[SetItem], place: usize) -> &[SetItem]
    requires { place ≤ length items.now }
    ensures { result.now ≡ drop place items.now }
{
    &items[place..]
}

/// Whether no vertex comes after a reference.
fn are_sorted(items: &[SetItem]) -> bool
    ensures { result ≡ vertices_first items.now }
{
    for (k, item) in items.iter().enumerate() {
        if let SetItem::Reference(_) = *item {
            return has_no_vertex(items_from(items, k));
        }
    }
    true
}

/// The number, from 1, of the first line with a vertex after a reference. It takes no memory.
pub fn first_mixed(lines: &[SetLine]) -> Option<u64>
    ensures { MatchOption result ((k : ℕ) → k < length lines.now → IsSorted lines.now k)
        (IsFirstNumber (IsSorted lines.now) (length lines.now)) }
{
    for (k, z) in lines.iter().enumerate() {
        if !are_sorted(z.items.as_slice()) {
            return Some(k as u64 + 1);
        }
    }
    None
}

/// The lesser of these numbers: of the first set that lacks form, and of the first line with a
/// vertex after a reference.
fn lesser(document: &Document, number: u64, mixed: u64) -> u64
    requires fault { IsFirstSetFault (sets_of document.now) number }
    requires mixed { IsFirstNumber (IsSorted document.now.sets) (length document.now.sets) mixed }
    ensures { IsFirstNumber (HasLineForm document.now) (length document.now.sets) result }
{
    let _ = document;
    if number < mixed {
        return number;
    }
    mixed
}

/// The number of the first set that lacks form, where `mixed` is that of the first line with a
/// vertex after a reference.
pub fn first_formless(
    alloc: Global,
    vertices: u32,
    document: &Document,
    sets: &[OddSet],
    mixed: u64,
) -> Result<u64, OutOfMemory>
    requires sets { sets.now ≡ sets_of document.now }
    requires numbers { All (λ s. IsNumber s.dual) sets.now }
    requires within { All (IsGivenWithin vertices) sets.now }
    requires earlier { AreEarlier sets.now }
    requires mixed { IsFirstNumber (IsSorted document.now.sets) (length document.now.sets) mixed }
    ensures { IfOk result
        (IsFirstNumber (HasLineForm document.now) (length document.now.sets)) }
{
    match first_set_fault(alloc, vertices, sets)? {
        Some(number) => Ok(lesser(document, number, mixed)),
        None => Ok(mixed),
    }
}
