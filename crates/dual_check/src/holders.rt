ghost use Rattle.std.specs.Prelude.{◌≡◌, ℕ, ◌-◌, ◌<◌, ◌≤◌, ◌^◌, ◌∷◌, ◌++◌, [], true, pos, length};
ghost use Rattle.std.specs.Prelude.{min};
ghost use Rattle.std.specs.Prelude.{All, OnOk, IfOk, if◌then◌else◌, ℤ};
ghost use Rattle.std.specs.List.Sorted.{IsStrictlyIncreasing};
ghost use Rattle.graph_theory.specs.Sums.{int_sum_to, sum_to};
ghost use Rattle.graph_theory.specs.Parts.{holds};
ghost use Rattle.graph_theory.specs.OddSets.{IsGivenWithin, given_at};
ghost use Rattle.weighted_graph.specs.Grouped.{items_of};
ghost use Rattle.graph_parts.specs.Marks.{is_marked};
ghost use Rattle.dual_check.specs.Shared.{IsHolders, HoldsTaken};

use graph_theory::OddSet;
use mb_base::{OutOfMemory, VertexId};
use std::alloc::Global;
use weighted_graph::ByVertex;

/// Puts the number of a set at the end, beside each of its members.
fn add_members(
    entries: &mut Vec<(VertexId, u32)>,
    members: &[VertexId],
    set: u32,
) -> Result<(), OutOfMemory>
    requires { IsStrictlyIncreasing members.now }
    ensures within { OnOk result ((n : ℕ) → All (λ m. m ≤ n) members.now
        → All (λ e. e.0 ≤ n) entries.old.items → All (λ e. e.0 ≤ n) entries.new.items) }
    ensures lists { OnOk result ((v : ℕ) → items_of entries.new.items v
        ≡ (if holds members.now v then items_of entries.old.items v ++ set ∷ []
        else items_of entries.old.items v)) }
{
    for vertex in members {
        entries.push((*vertex, set))?;
    }
    Ok(())
}

/// How many members the taken sets have together.
fn taken_size(sets: &[OddSet], taken: &[bool]) -> usize
    requires { length taken.now ≡ length sets.now }
    ensures { result ≡ min (2 ^ 64 - 1) (sum_to (λ k. if is_marked taken.now k
        then length (given_at sets.now k).vertices else 0) (length sets.now)) }
{
    let mut size = 0usize;
    for (k, set) in sets.iter().enumerate() {
        if taken[k] {
            size = size.saturating_add(set.vertices.len());
        }
    }
    size
}

/// The numbers, from 0, of the taken sets beside their members, set by set.
fn taken_members(
    alloc: Global,
    sets: &[OddSet],
    taken: &[bool],
) -> Result<Vec<(VertexId, u32)>, OutOfMemory>
    requires forms { All (λ s. IsStrictlyIncreasing s.vertices) sets.now }
    requires one_each { length taken.now ≡ length sets.now }
    requires numbered { (k : ℕ) → is_marked taken.now k ≡ true → length sets.now < 2 ^ 32 }
    ensures within { IfOk result (λ entries. (n : ℕ) → All (IsGivenWithin n) sets.now
        → All (λ e. e.0 ≤ n) entries.items) }
    ensures holders { IfOk result (λ entries. (v : ℕ)
        → HoldsTaken sets.now taken.now v (length sets.now) (items_of entries.items v)) }
{
    let mut entries = Vec::with_capacity(alloc, taken_size(sets, taken))?;
    for (k, set) in sets.iter().enumerate() {
        if taken[k] {
            add_members(&mut entries, set.vertices.as_slice(), k as u32)?;
        }
    }
    Ok(entries)
}

/// For each vertex from 1 to `vertices` the numbers, from 0, of the taken sets that hold it.
pub(crate) fn holders_of(
    alloc: Global,
    vertices: u32,
    sets: &[OddSet],
    taken: &[bool],
) -> Result<ByVertex<u32>, OutOfMemory>
    requires within { All (IsGivenWithin vertices) sets.now }
    requires forms { All (λ s. IsStrictlyIncreasing s.vertices) sets.now }
    requires one_each { length taken.now ≡ length sets.now }
    requires numbered { (k : ℕ) → is_marked taken.now k ≡ true → length sets.now < 2 ^ 32 }
    ensures { IfOk result (IsHolders vertices sets.now taken.now) }
{
    let entries = taken_members(alloc, sets, taken)?;
    let lists = ByVertex::of(alloc, vertices, &entries)?;
    Ok(lists)
}
