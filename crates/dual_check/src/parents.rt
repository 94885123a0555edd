ghost use Rattle.std.specs.Prelude.{◌≡◌, ℕ, ◌+◌, ◌≤◌, length, All, IfOk, if◌then◌else◌};
ghost use Rattle.graph_theory.specs.Parts.{holds};
ghost use Rattle.graph_theory.specs.OddSets.{AreEarlier};
ghost use Rattle.dual_check.specs.Forests.{AreItemLists};
ghost use Rattle.dual_check.specs.Trees.{AreParents, number_at};

use graph_theory::OddSet;
use mb_base::OutOfMemory;
use std::alloc::Global;

/// Notes the set at each that it refers to.
fn note_parent(parents: &mut Vec<usize>, references: &[u32], set: usize)
    requires in_range { All (λ r. (1 ≤ r) × (r ≤ length parents.old.items)) references.now }
    ensures size { length parents.new.items ≡ length parents.old.items }
    ensures noted { (k : ℕ) → number_at parents.new.items k
        ≡ (if holds references.now (k + 1) then set else number_at parents.old.items k) }
{
    for reference in references {
        parents[*reference as usize - 1] = set;
    }
}

/// For each of the first `count` sets the place of the one that refers to it, or `count`.
pub(crate) fn parents_of(
    alloc: Global,
    sets: &[OddSet],
    count: usize,
) -> Result<Vec<usize>, OutOfMemory>
    requires count { count ≤ length sets.now }
    requires earlier { AreEarlier sets.now }
    requires lists { AreItemLists sets.now count }
    ensures { IfOk result (λ parents. AreParents sets.now count parents.items) }
{
    let mut parents = vec![in alloc; count; count]?;
    for set in 0..count {
        note_parent(&mut parents, sets[set].references.as_slice(), set);
    }
    Ok(parents)
}
