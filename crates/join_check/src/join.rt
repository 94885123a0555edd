ghost use Rattle.std.specs.Prelude.{◌≡◌, ℕ, ◌+◌, ◌%◌, ◌<◌, ◌≤◌, length, slice_index, All, IsTrue};
ghost use Rattle.std.specs.Prelude.{IfOk};
ghost use Rattle.std.specs.List.Sorted.{IsStrictlyIncreasing};
ghost use Rattle.mb_problem.specs.Network.{IsNetwork, vertices};
ghost use Rattle.mb_problem.specs.Size.{odd_at};
ghost use Rattle.mb_problem.specs.Joins.{ListsJoin};

use gadget_base::count_listed;
use mb_base::{EdgeId, OutOfMemory};
use mb_problem::{Instance, Parity, degrees_of, odd_by};
use std::alloc::Global;

/// For each vertex 1 if a join of this parity has odd degree there, else 0.
pub(crate) fn odds_of(
    alloc: Global,
    instance: &Instance,
    parity: &Parity,
) -> Result<Vec<u64>, OutOfMemory>
    ensures size { IfOk result (λ odds. length odds.items ≡ vertices instance.now) }
    ensures each { IfOk result (λ odds. (j : ℕ) → j < vertices instance.now
        → slice_index odds.items j ≡ odd_at parity.now instance.now (j + 1)) }
    ensures network { IfOk result (λ _. IsNetwork instance.now) }
{
    let once = vec![in alloc; 1u32; instance.edges() as usize]?;
    let mut odds = degrees_of(alloc, instance, &once)?;
    for (vertex, value) in instance.value_list().iter().enumerate() {
        odds[vertex] = odd_by(*parity, odds[vertex], *value);
    }
    Ok(odds)
}

/// Whether numbers of edges ascend, from 1 to `m`.
fn ascend(m: u32, edges: &[EdgeId]) -> bool
    ensures ascending { IsTrue result → IsStrictlyIncreasing edges.now }
    ensures in_range { IsTrue result → All (λ e. (1 ≤ e) × (e ≤ m)) edges.now }
{
    let mut last = 0;
    for edge in edges {
        if edge.number() <= last {
            return false;
        }
        if edge.number() > m {
            return false;
        }
        last = edge.number();
    }
    true
}

/// Whether degrees have these parities.
fn have_parities(degrees: &[u64], odds: &[u64]) -> bool
    requires { length odds.now ≡ length degrees.now }
    ensures { IsTrue result → (j : ℕ) → j < length degrees.now → slice_index degrees.now j % 2
        ≡ slice_index odds.now j }
{
    for (vertex, degree) in degrees.iter().enumerate() {
        if *degree % 2 != odds[vertex] {
            return false;
        }
    }
    true
}

/// Whether the edges are a join with these parities of its degrees.
pub(crate) fn is_join(
    alloc: Global,
    instance: &Instance,
    parity: &Parity,
    join: &[EdgeId],
    odds: &[u64],
) -> Result<bool, OutOfMemory>
    requires size { length odds.now ≡ vertices instance.now }
    requires odds { (j : ℕ) → j < vertices instance.now → slice_index odds.now j
        ≡ odd_at parity.now instance.now (j + 1) }
    ensures { IfOk result (λ yes. IsTrue yes
        → ListsJoin instance.now (odd_at parity.now instance.now) join.now) }
{
    let m = instance.edges();
    if !ascend(m, join) {
        return Ok(false);
    }
    let counts = count_listed(alloc, instance, join)?;
    let degrees = degrees_of(alloc, instance, &counts)?;
    Ok(have_parities(&degrees, odds))
}
