ghost use Rattle.std.specs.Prelude.{◌≡◌, ℕ, ◌+◌, ◌-◌, ◌<◌, ◌≤◌, ◌^◌, false, length, slice_set, All};
ghost use Rattle.std.specs.Prelude.{IfOk};
ghost use Rattle.std.specs.List.Sorted.{IsStrictlyIncreasing};
ghost use Rattle.graph_theory.specs.Parts.{holds};
ghost use Rattle.graph_theory.specs.OddSets.{AreEarlier};
ghost use Rattle.dual_check.specs.Forests.{AreItemLists};
ghost use Rattle.dual_check.specs.Trees.{AreParents, AreSizes, AreEnds};
ghost use Rattle.dual_check.specs.Trees.{IsSpread, number_at, before, whole_size, roots_to};

use graph_theory::OddSet;
use mb_base::OutOfMemory;
use std::alloc::{AllocError, Global};

/// How many vertices a set and those inside name. There is no memory for more than 2^64.
fn size_of(sizes: &[usize], set: &OddSet) -> Result<usize, OutOfMemory>
    requires in_range { All (λ r. (1 ≤ r) × (r ≤ length sizes.now)) set.now.references }
    ensures { IfOk result (λ size. size ≡ whole_size sizes.now set.now) }
{
    let mut size = set.vertices.len();
    for reference in set.references.as_slice() {
        let Some(more) = size.checked_add(sizes[*reference as usize - 1]) else {
            return Err(AllocError);
        };
        size = more;
    }
    Ok(size)
}

/// For each of the first `count` sets how many vertices it and those inside name.
pub(crate) fn sizes_of(
    alloc: Global,
    sets: &[OddSet],
    count: usize,
) -> Result<Vec<usize>, OutOfMemory>
    requires count { count ≤ length sets.now }
    requires earlier { AreEarlier sets.now }
    ensures { IfOk result (λ sizes. AreSizes sets.now count sizes.items) }
{
    let mut sizes = Vec::with_capacity(alloc, count)?;
    for set in 0..count {
        let size = size_of(&sizes, &sets[set])?;
        sizes.push(size)?;
    }
    Ok(sizes)
}

/// How many vertices all trees name.
pub(crate) fn total_of(
    parents: &[usize],
    sizes: &[usize],
    count: usize,
) -> Result<usize, OutOfMemory>
    requires parents { length parents.now ≡ count }
    requires sizes { length sizes.now ≡ count }
    ensures { IfOk result (λ total. total ≡ roots_to count parents.now sizes.now count) }
{
    let mut total = 0usize;
    for set in 0..count {
        if parents[set] >= count {
            let Some(more) = total.checked_add(sizes[set]) else {
                return Err(AllocError);
            };
            total = more;
        }
    }
    Ok(total)
}

/// A set that none refers to begins where the trees so far end: it answers where they end then.
fn begin_root(
    parents: &[usize],
    sizes: &[usize],
    count: usize,
    set: usize,
    end: usize,
    begins: &mut Vec<usize>,
) -> usize
    requires set { set < count }
    requires parents { length parents.now ≡ count }
    requires sizes { length sizes.now ≡ count }
    requires begins { length begins.old.items ≡ count }
    requires room { count ≤ number_at parents.now set → end + number_at sizes.now set < 2 ^ 64 }
    ensures root { count ≤ number_at parents.now set
        → (result ≡ end + number_at sizes.now set)
        × (begins.new.items ≡ slice_set begins.old.items set end) }
    ensures inner { number_at parents.now set < count
        → (result ≡ end) × (begins.new.items ≡ begins.old.items) }
{
    if parents[set] < count {
        return end;
    }
    begins[set] = end;
    end + sizes[set]
}

/// The sets that a set refers to begin after its vertices, one after the other.
fn begin_inner(set: &OddSet, sizes: &[usize], begin: usize, begins: &mut Vec<usize>)
    requires in_range { All (λ r. (1 ≤ r) × (r ≤ length begins.old.items)) set.now.references }
    requires ascending { IsStrictlyIncreasing set.now.references }
    requires sizes { length sizes.now ≡ length begins.old.items }
    requires room { begin + whole_size sizes.now set.now < 2 ^ 64 }
    ensures size { length begins.new.items ≡ length begins.old.items }
    ensures inner { (a : ℕ) → a < length set.now.references
        → number_at begins.new.items (number_at set.now.references a - 1)
        ≡ begin + length set.now.vertices + before sizes.now set.now.references a }
    ensures others { (k : ℕ) → holds set.now.references (k + 1) ≡ false
        → number_at begins.new.items k ≡ number_at begins.old.items k }
{
    let mut at = begin + set.vertices.len();
    for reference in set.references.as_slice() {
        let inner = *reference as usize - 1;
        begins[inner] = at;
        at += sizes[inner];
    }
}

/// For each of the first `count` sets where it begins.
pub(crate) fn begins_of(
    alloc: Global,
    sets: &[OddSet],
    count: usize,
    parents: &[usize],
    sizes: &[usize],
) -> Result<Vec<usize>, OutOfMemory>
    requires count { count ≤ length sets.now }
    requires earlier { AreEarlier sets.now }
    requires lists { AreItemLists sets.now count }
    requires parents { AreParents sets.now count parents.now }
    requires sizes { AreSizes sets.now count sizes.now }
    requires room { roots_to count parents.now sizes.now count < 2 ^ 64 }
    ensures { IfOk result (λ begins. IsSpread sets.now count parents.now sizes.now begins.items) }
{
    let mut begins = vec![in alloc; 0usize; count]?;
    let mut end = 0usize;
    for k in 0..count {
        let set = count - 1 - k;
        end = begin_root(parents, sizes, count, set, end, &mut begins);
        let begin = begins[set];
        begin_inner(&sets[set], sizes, begin, &mut begins);
    }
    Ok(begins)
}

/// For each of the first `count` sets where it ends. The sets stand for the contract alone.
pub(crate) fn ends_of(
    alloc: Global,
    sets: &[OddSet],
    count: usize,
    parents: &[usize],
    sizes: &[usize],
    begins: &[usize],
) -> Result<Vec<usize>, OutOfMemory>
    requires spread { IsSpread sets.now count parents.now sizes.now begins.now }
    requires room { roots_to count parents.now sizes.now count < 2 ^ 64 }
    ensures { IfOk result (λ ends. AreEnds count sizes.now begins.now ends.items) }
{
    let mut ends = Vec::with_capacity(alloc, count)?;
    for set in 0..count {
        ends.push(begins[set] + sizes[set])?;
    }
    Ok(ends)
}
