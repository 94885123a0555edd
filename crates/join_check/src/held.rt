ghost use Rattle.std.specs.Prelude.{◌≡◌, ◌≢◌, ℕ, ◌+◌, ◌%◌, ◌<◌, ◌≤◌, ◌^◌, pos, length};
ghost use Rattle.std.specs.Prelude.{slice_index, IsTrue, IfOk};
ghost use Rattle.join_check.specs.Checks.{at, held_at, AreHeld, AreLengths, ArePostorder, HoldOdd};

use crate::items::add_if;
use mb_base::OutOfMemory;
use std::alloc::Global;

/// Counts the odd vertices at each node. At the start all are 0.
fn count_held(held: &mut [usize], nodes: &[u32], odd: &[bool])
    requires size_limit { length nodes.now < 2 ^ 32 }
    requires odd { length odd.now ≡ length nodes.now }
    requires nodes { (j : ℕ) → j < length nodes.now → slice_index nodes.now j
        < length held.old }
    requires zeros { (x : ℕ) → slice_index held.old x ≡ 0 }
    ensures size { length held.new ≡ length held.old }
    ensures each { (x : ℕ) → slice_index held.new x
        ≡ held_at odd.now nodes.now x (length nodes.now) }
{
    for vertex in 0..nodes.len() {
        add_if(held, nodes[vertex] as usize, odd[vertex]);
    }
}

/// Adds to the count at each node those before it.
fn add_before(held: &mut [usize], nodes: &[u32], odd: &[bool])
    requires size_limit { length nodes.now < 2 ^ 32 }
    requires counts { (x : ℕ) → slice_index held.old x
        ≡ held_at odd.now nodes.now x (length nodes.now) }
    ensures { AreHeld odd.now nodes.now (length held.old) held.new }
{
    let mut sum = 0;
    for node in 0..held.len() {
        sum += held[node];
        held[node] = sum;
    }
}

/// How many odd vertices have each node.
fn held_each(
    alloc: Global,
    nodes: &[u32],
    odd: &[bool],
    count: usize,
) -> Result<Vec<usize>, OutOfMemory>
    requires size_limit { length nodes.now < 2 ^ 32 }
    requires odd { length odd.now ≡ length nodes.now }
    requires nodes { (j : ℕ) → j < length nodes.now → slice_index nodes.now j < count }
    ensures size { IfOk result (λ held. length held.items ≡ count) }
    ensures each { IfOk result (λ held. (x : ℕ) → slice_index held.items x
        ≡ held_at odd.now nodes.now x (length nodes.now)) }
{
    let mut held = vec![in alloc; 0usize; count]?;
    count_held(&mut held, nodes, odd);
    Ok(held)
}

/// For each node how many odd vertices have it or one before it.
fn held_of(
    alloc: Global,
    nodes: &[u32],
    odd: &[bool],
    count: usize,
) -> Result<Vec<usize>, OutOfMemory>
    requires size_limit { length nodes.now < 2 ^ 32 }
    requires odd { length odd.now ≡ length nodes.now }
    requires nodes { (j : ℕ) → j < length nodes.now → slice_index nodes.now j < count }
    ensures { IfOk result (λ held. AreHeld odd.now nodes.now count held.items) }
{
    let mut held = held_each(alloc, nodes, odd, count)?;
    add_before(&mut held, nodes, odd);
    Ok(held)
}

/// Whether a node has no length, or an odd number is counted between its begin and its end.
fn is_odd_between(length: i64, first: usize, last: usize) -> bool
    ensures { IsTrue result → length ≢ pos 0 → (last + first) % 2 ≡ 1 }
{
    if length == 0 {
        return true;
    }
    first % 2 != last % 2
}

/// Whether each node that has a length holds an odd number of what is counted before its end.
fn are_odd(lengths: &[i64], befores: &[u32], held: &[usize]) -> bool
    requires befores { length befores.now ≡ length lengths.now }
    requires held { length held.now ≡ length lengths.now }
    requires postorder { ArePostorder befores.now (length befores.now) }
    ensures { IsTrue result → (b : ℕ) → 1 ≤ b → b < length lengths.now → at lengths.now b ≢ pos 0
        → (slice_index held.now b + slice_index held.now (slice_index befores.now b)) % 2 ≡ 1 }
{
    for node in 1..lengths.len() {
        let first = befores[node] as usize;
        if !is_odd_between(lengths[node], held[first], held[node]) {
            return false;
        }
    }
    true
}

/// Whether each node that has a length holds an odd number of odd vertices.
pub(crate) fn hold_odd(
    alloc: Global,
    lengths: &[i64],
    befores: &[u32],
    nodes: &[u32],
    odd: &[bool],
) -> Result<bool, OutOfMemory>
    requires size_limit { length nodes.now < 2 ^ 32 }
    requires befores { length befores.now ≡ length lengths.now }
    requires odd { length odd.now ≡ length nodes.now }
    requires nodes { (j : ℕ) → j < length nodes.now → slice_index nodes.now j
        < length lengths.now }
    requires lengths { AreLengths lengths.now }
    requires postorder { ArePostorder befores.now (length befores.now) }
    ensures { IfOk result (λ yes. IsTrue yes → HoldOdd lengths.now befores.now nodes.now
        odd.now) }
{
    let held = held_of(alloc, nodes, odd, lengths.len())?;
    Ok(are_odd(lengths, befores, &held))
}
