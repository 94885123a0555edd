ghost use Rattle.std.specs.Prelude.{◌≡◌, ◌≢◌, ◌+◌, ◌*ℤ◌, ◌<◌, ◌≤◌, ◌%◌, ◌||◌, ◌↔◌, true, false, []};
ghost use Rattle.std.specs.Prelude.{length, pos, neg_ℤ, ◌≤ℤ◌, ℕ, All, IfOk, IsTrue, MatchOption};
ghost use Rattle.std.specs.List.Sorted.{IsStrictlyIncreasing};
ghost use Rattle.graph_theory.specs.Parts.{holds};
ghost use Rattle.graph_theory.specs.Sums.{int_sum_to};
ghost use Rattle.graph_theory.specs.Duals.{IsNumber};
ghost use Rattle.graph_theory.specs.OddSets.{AreEarlier, HasItemForm, HaveItemForm, IsGivenWithin};
ghost use Rattle.graph_theory.specs.OddSets.{given_at};
ghost use Rattle.graph_parts.specs.Marks.{is_marked};
ghost use Rattle.dual_check.specs.Fault.{IsFirstSetFault};
ghost use Rattle.dual_check.specs.Forests.{AreItemLists, IsItemList, IsFirstPlace};

use crate::forest::Forest;
use crate::overlap::first_overlap;
use graph_parts::no_marks;
use graph_theory::{NUMBER_LIMIT, OddSet};
use mb_base::{OutOfMemory, VertexId};
use std::alloc::Global;

/// Whether any set refers to another.
pub(crate) fn refers(sets: &[OddSet]) -> bool
    ensures { result ≢ true → (j : ℕ) → j < length sets.now
        → (given_at sets.now j).references ≡ [] }
{
    for set in sets {
        if !set.references.is_empty() {
            return true;
        }
    }
    false
}

fn do_vertices_ascend(vertices: &[VertexId]) -> bool
    ensures { IsTrue result ↔ IsStrictlyIncreasing vertices.now }
{
    vertices.is_sorted_by(|a, b| a < b)
}

fn do_references_ascend(references: &[u32]) -> bool
    ensures { IsTrue result ↔ IsStrictlyIncreasing references.now }
{
    references.is_sorted_by(|a, b| a < b)
}

/// Whether there are an odd number of items, at least three.
fn is_item_count(vertices: &[VertexId], references: &[u32]) -> bool
    ensures { IsTrue result ↔ ((3 ≤ length vertices.now + length references.now)
        × ((length vertices.now + length references.now) % 2 ≡ 1)) }
{
    let count = vertices.len() + references.len();
    count >= 3 && count % 2 == 1
}

/// Whether the items of a set are an odd number, at least three, and ascend.
fn has_items(set: &OddSet) -> bool
    ensures { IsTrue result
        ↔ ((3 ≤ length set.now.vertices + length set.now.references)
        × ((length set.now.vertices + length set.now.references) % 2 ≡ 1)
        × IsStrictlyIncreasing set.now.vertices × IsStrictlyIncreasing set.now.references) }
{
    let vertices = set.vertices.as_slice();
    let references = set.references.as_slice();
    is_item_count(vertices, references)
        && do_vertices_ascend(vertices)
        && do_references_ascend(references)
}

/// Whether no reference is marked.
fn are_free(marks: &[bool], references: &[u32]) -> bool
    requires { All (λ r. r < length marks.now) references.now }
    ensures { IsTrue result
        ↔ ((r : ℕ) → holds references.now r ≡ true → is_marked marks.now r ≡ false) }
{
    for reference in references {
        if marks[*reference as usize] {
            return false;
        }
    }
    true
}

/// Marks all references.
fn mark_references(marks: &mut [bool], references: &[u32])
    requires { All (λ r. r < length marks.old) references.now }
    ensures { (r : ℕ) → is_marked marks.new r
        ≡ (is_marked marks.old r || holds references.now r) }
{
    for reference in references {
        marks[*reference as usize] = true;
    }
}

/// The place of the first set that `first_list_fault` names, if there are no marks yet.
fn list_fault(sets: &[OddSet], marks: &mut [bool]) -> Option<usize>
    requires earlier { AreEarlier sets.now }
    requires size { length marks.old ≡ length sets.now + 1 }
    requires none { (r : ℕ) → is_marked marks.old r ≡ false }
    ensures { MatchOption result (AreItemLists sets.now (length sets.now))
        (IsFirstPlace (IsItemList sets.now) (length sets.now)) }
{
    for (k, set) in sets.iter().enumerate() {
        if !has_items(set) {
            return Some(k);
        }
        let references = set.references.as_slice();
        if !are_free(marks, references) {
            return Some(k);
        }
        mark_references(marks, references);
    }
    None
}

/// The place of the first set whose items are fewer than three, an even number, not ascending, or
/// refer to a set that an earlier set refers to.
pub(crate) fn first_list_fault(alloc: Global, sets: &[OddSet]) -> Result<Option<usize>, OutOfMemory>
    requires earlier { AreEarlier sets.now }
    ensures { IfOk result (λ o. MatchOption o (AreItemLists sets.now (length sets.now))
        (IsFirstPlace (IsItemList sets.now) (length sets.now))) }
{
    let mut marks = no_marks(alloc, sets.len() + 1)?;
    Ok(list_fault(sets, &mut marks))
}

/// How many sets there are before a fault, if there is one.
fn sets_before(sets: &[OddSet], fault: Option<usize>) -> usize
    ensures { MatchOption fault (result ≡ length sets.now) (λ k. result ≡ k) }
{
    match fault {
        Some(place) => place,
        None => sets.len(),
    }
}

/// The place of the first set that lacks form, from that of the first whose list of items does.
fn first_fault(
    alloc: Global,
    vertices: u32,
    sets: &[OddSet],
    list_fault: Option<usize>,
) -> Result<Option<usize>, OutOfMemory>
    requires numbers { All (λ s. IsNumber s.dual) sets.now }
    requires within { All (IsGivenWithin vertices) sets.now }
    requires earlier { AreEarlier sets.now }
    requires list_fault { MatchOption list_fault (AreItemLists sets.now (length sets.now))
        (IsFirstPlace (IsItemList sets.now) (length sets.now)) }
    ensures { IfOk result (λ o. MatchOption o (HaveItemForm sets.now)
        (IsFirstPlace (HasItemForm sets.now) (length sets.now))) }
{
    if !refers(sets) {
        return Ok(list_fault);
    }
    let count = sets_before(sets, list_fault);
    let forest = Forest::of(alloc, sets, count)?;
    if let Some(place) = first_overlap(alloc, vertices, sets, count, &forest)? {
        return Ok(Some(place));
    }
    Ok(list_fault)
}

/// The number, from 1, of the first set that lacks form, for sets of vertices up to `vertices`. It
/// takes time linear in their items.
pub fn first_set_fault(
    alloc: Global,
    vertices: u32,
    sets: &[OddSet],
) -> Result<Option<u64>, OutOfMemory>
    requires numbers { All (λ s. IsNumber s.dual) sets.now }
    requires within { All (IsGivenWithin vertices) sets.now }
    requires earlier { AreEarlier sets.now }
    ensures { IfOk result (λ o. MatchOption o (HaveItemForm sets.now)
        (IsFirstSetFault sets.now)) }
{
    let list_fault = first_list_fault(alloc, sets)?;
    if let Some(place) = first_fault(alloc, vertices, sets, list_fault)? {
        return Ok(Some(place as u64 + 1));
    }
    Ok(None)
}

/// The duals of the sets, added up.
pub(crate) fn set_total(sets: &[OddSet]) -> i128
    requires { All (λ s. IsNumber s.dual) sets.now }
    ensures value { result ≡ int_sum_to (λ j. (given_at sets.now j).dual) (length sets.now) }
    ensures low { (neg_ℤ NUMBER_LIMIT *ℤ pos (length sets.now)) ≤ℤ result }
    ensures high { result ≤ℤ (NUMBER_LIMIT *ℤ pos (length sets.now)) }
{
    let mut total = 0;
    for set in sets {
        total += i128::from(set.dual);
    }
    total
}
