ghost use Rattle.std.specs.Prelude.{◌≡◌, ℕ, ◌<◌, ◌+◌, ◌-◌, ◌%◌, ◌==◌, pos, int_lt, length};
ghost use Rattle.std.specs.Prelude.{slice_index, IfOk, if◌then◌else◌};
ghost use Rattle.mb_problem.specs.Network.{vertices};
ghost use Rattle.join_check.specs.Forests.{is_turned};
ghost use Rattle.join_check.specs.Checks.{AreFlags};

use mb_base::OutOfMemory;
use mb_problem::{Instance, degrees_of};
use std::alloc::Global;

/// 1 for a negative weight, else 0.
fn one_if_negative(w: i64) -> u32
    ensures { result ≡ (if int_lt w (pos 0) then 1 else 0) }
{
    if w < 0 { 1 } else { 0 }
}

/// Whether a vertex that a join leaves this odd is odd once the edges at it are turned.
fn is_odd(odd: u64, turned: u64) -> bool
    ensures { result ≡ ((odd + turned) % 2 == 1) }
{
    (odd % 2 + turned % 2) % 2 == 1
}

/// Counts 1 for each edge whose weight is negative, and 0 for each other one.
fn negative_counts(alloc: Global, instance: &Instance) -> Result<Vec<u32>, OutOfMemory>
    ensures size { IfOk result (λ counts. length counts.items ≡ length instance.now.edges) }
    ensures each { IfOk result (λ counts. (k : ℕ) → k < length instance.now.edges
        → slice_index counts.items k ≡ (if is_turned instance.now k then 1 else 0)) }
{
    let mut counts = vec![in alloc; 0u32; instance.edges() as usize]?;
    for (place, edge) in instance.edge_list().iter().enumerate() {
        counts[place] = one_if_negative(edge.w);
    }
    Ok(counts)
}

/// For each vertex whether it is odd once the edges of negative weight are turned round: their ends
/// change their parity.
pub(crate) fn flags_of(
    alloc: Global,
    instance: &Instance,
    odds: &[u64],
) -> Result<Vec<bool>, OutOfMemory>
    requires size { length odds.now ≡ vertices instance.now }
    ensures { IfOk result
        (λ flags. AreFlags instance.now (λ v. slice_index odds.now (v - 1)) flags.items) }
{
    let negative = negative_counts(alloc, instance)?;
    let turned = degrees_of(alloc, instance, &negative)?;
    let mut flags = vec![in alloc; false; odds.len()]?;
    for (vertex, odd) in odds.iter().enumerate() {
        flags[vertex] = is_odd(*odd, turned[vertex]);
    }
    Ok(flags)
}
