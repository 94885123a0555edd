//! Items of sets that have a member in common.
ghost use Rattle.std.specs.Prelude.{◌≡◌, ◌≢◌, ◌≤◌, ◌<◌, ◌-◌, ℕ, true, false, length, All, IfOk};
ghost use Rattle.std.specs.Prelude.{MatchOption};
ghost use Rattle.graph_theory.specs.OddSets.{AreEarlier, IsGivenWithin};
ghost use Rattle.dual_check.specs.Forests.{AreItemLists, IsApart, IsFirstPlace, spans};
ghost use Rattle.dual_check.specs.Links.{IsGrown};

use crate::forest::Forest;
use graph_theory::OddSet;
use mb_base::OutOfMemory;
use std::alloc::Global;

/// The lesser of a place and that of the innermost set that spans a position and one before it,
/// which counts from 1: where it is 0 there is none. The sets stand for the contract alone.
fn lesser_place(
    sets: &[OddSet],
    count: usize,
    forest: &Forest,
    before: usize,
    position: usize,
    least: usize,
) -> usize
    requires grown { IsGrown sets.now count forest.now }
    requires order { before ≤ position }
    requires in_range { position < length forest.now.places.items }
    ensures most { result ≤ least }
    ensures place { result ≢ least → result < count }
    ensures stood { result ≢ least → 1 ≤ before }
    ensures first { result ≢ least → spans forest.now result (before - 1) ≡ true }
    ensures second { result ≢ least → spans forest.now result position ≡ true }
    ensures none { 1 ≤ before → (j : ℕ) → j < count → j < result
        → spans forest.now j (before - 1) ≡ true → spans forest.now j position ≡ false }
{
    if before == 0 {
        return least;
    }
    if let Some(place) = forest.innermost(sets, count, before - 1, position) {
        if place < least {
            return place;
        }
    }
    least
}

/// The place of the first of the `count` sets of a forest two of whose items have a member in
/// common, for sets of vertices up to `vertices`. Just such a set spans two positions of a vertex,
/// and then also two with no other position of that vertex between them.
pub(crate) fn first_overlap(
    alloc: Global,
    vertices: u32,
    sets: &[OddSet],
    count: usize,
    forest: &Forest,
) -> Result<Option<usize>, OutOfMemory>
    requires count { count ≤ length sets.now }
    requires within { All (IsGivenWithin vertices) sets.now }
    requires earlier { AreEarlier sets.now }
    requires lists { AreItemLists sets.now count }
    requires grown { IsGrown sets.now count forest.now }
    ensures { IfOk result (λ o. MatchOption o ((j : ℕ) → j < count → IsApart sets.now j)
        (IsFirstPlace (IsApart sets.now) count)) }
{
    let mut last = vec![in alloc; 0usize; vertices as usize + 1]?;
    let mut least = count;
    for (position, place) in forest.places.iter().enumerate() {
        let vertex = place.vertex.number() as usize;
        // No set spans a position of a greater vertex.
        if vertex < last.len() {
            least = lesser_place(sets, count, forest, last[vertex], position, least);
            last[vertex] = position + 1;
        }
    }
    if least < count {
        return Ok(Some(least));
    }
    Ok(None)
}
