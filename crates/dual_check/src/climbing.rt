ghost use Rattle.std.specs.Prelude.{◌≡◌, ℕ, ◌+◌, ◌<◌, ◌≤◌, length, All, IfOk};
ghost use Rattle.graph_theory.specs.Duals.{IsNumber};
ghost use Rattle.dual_check.specs.Trees.{AreParents, AreJumps, AreEnclosing, IsEnclosing};
ghost use Rattle.dual_check.specs.Trees.{number_at, from_parent};

use graph_theory::OddSet;
use mb_base::OutOfMemory;
use std::alloc::Global;

/// Where the jump of a set leads, and how many steps up it is: two jumps of the same length that
/// follow one another make one with the step before them.
fn jump_from(
    parents: &[usize],
    jumps: &[usize],
    lengths: &[usize],
    count: usize,
    set: usize,
) -> (usize, usize)
    requires set { set < count }
    requires parents { length parents.now ≡ count }
    requires jumps { length jumps.now ≡ count }
    requires lengths { length lengths.now ≡ count }
    requires later { number_at parents.now set < count → set < number_at parents.now set }
    requires known { (x : ℕ) → set < x → x < count
        → IsEnclosing count parents.now x (number_at jumps.now x) }
    ensures { IsEnclosing count parents.now set result.0 }
{
    let parent = parents[set];
    if parent >= count {
        return (set, 0);
    }
    let far = jumps[parent];
    if lengths[parent] != lengths[far] {
        return (parent, 1);
    }
    let both = lengths[parent].saturating_add(lengths[far]);
    (jumps[far], both.saturating_add(1))
}

/// For each of the first `count` sets one around it, some way up, or itself where none is. The sets
/// stand for the contract alone.
pub(crate) fn jumps_of(
    alloc: Global,
    sets: &[OddSet],
    count: usize,
    parents: &[usize],
) -> Result<Vec<usize>, OutOfMemory>
    requires { AreParents sets.now count parents.now }
    ensures { IfOk result (λ jumps. AreJumps count parents.now 0 jumps.items) }
{
    let mut jumps = vec![in alloc; 0usize; count]?;
    let mut lengths = vec![in alloc; 0usize; count]?;
    for k in 0..count {
        let set = count - 1 - k;
        let (jump, steps) = jump_from(parents, &jumps, &lengths, count, set);
        jumps[set] = jump;
        lengths[set] = steps;
    }
    Ok(jumps)
}

/// What the set around gives: 0 if there is none.
fn given_enclosing(parents: &[usize], enclosing: &[i128], count: usize, set: usize) -> i128
    requires set { set < count }
    requires parents { length parents.now ≡ count }
    requires enclosing { length enclosing.now ≡ count }
    ensures { result ≡ from_parent count parents.now enclosing.now set }
{
    if parents[set] >= count {
        return 0;
    }
    enclosing[parents[set]]
}

/// For each of the first `count` sets its dual and those of all sets around it, added up.
pub(crate) fn enclosing_of(
    alloc: Global,
    sets: &[OddSet],
    count: usize,
    parents: &[usize],
) -> Result<Vec<i128>, OutOfMemory>
    requires count { count ≤ length sets.now }
    requires parents { AreParents sets.now count parents.now }
    requires numbers { All (λ s. IsNumber s.dual) sets.now }
    ensures { IfOk result (λ enclosing. AreEnclosing sets.now count parents.now enclosing.items) }
{
    let mut enclosing = vec![in alloc; 0i128; count]?;
    for k in 0..count {
        let set = count - 1 - k;
        let given = given_enclosing(parents, &enclosing, count, set);
        enclosing[set] = i128::from(sets[set].dual) + given;
    }
    Ok(enclosing)
}
