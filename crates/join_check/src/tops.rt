ghost use Rattle.std.specs.Prelude.{◌≡◌, ℕ, ◌+ℤ◌, ◌-ℤ◌, pos, length, IfOk};
ghost use Rattle.join_check.specs.Checks.{at, AreLengths, ArePostorder, AreStarts, AreTops};
ghost use Rattle.join_check.specs.Checks.{IsLength};

use crate::items::add_length;
use mb_base::OutOfMemory;
use std::alloc::Global;

/// Adds the length of each node where it begins. At the start all are 0.
fn add_lengths(starts: &mut [i64], lengths: &[i64], befores: &[u32])
    requires size { length starts.old ≡ length lengths.now }
    requires zeros { (x : ℕ) → at starts.old x ≡ pos 0 }
    requires one_each { length befores.now ≡ length lengths.now }
    requires lengths { AreLengths lengths.now }
    requires postorder { ArePostorder befores.now (length befores.now) }
    ensures { AreStarts lengths.now befores.now starts.new }
{
    for node in 1..lengths.len() {
        add_length(starts, befores[node] as usize, lengths[node]);
    }
}

/// For each number of nodes, the lengths of those that begin after so many, added up.
fn starts_of(alloc: Global, lengths: &[i64], befores: &[u32]) -> Result<Vec<i64>, OutOfMemory>
    requires one_each { length befores.now ≡ length lengths.now }
    requires lengths { AreLengths lengths.now }
    requires postorder { ArePostorder befores.now (length befores.now) }
    ensures { IfOk result (λ starts. AreStarts lengths.now befores.now starts.items) }
{
    let mut starts = vec![in alloc; 0i64; lengths.len()]?;
    add_lengths(&mut starts, lengths, befores);
    Ok(starts)
}

/// What lies above the next node: this node's length goes, and those of the nodes that begin after
/// it come.
fn next_top(top: i64, length: i64, start: i64) -> i64
    requires top { IsLength top }
    requires length { IsLength length }
    requires start { IsLength start }
    ensures { result ≡ top -ℤ length +ℤ start }
{
    top - length + start
}

/// For each node the lengths of those that hold it, added up. The nodes that begin before each
/// stand for the contract alone.
fn fill_tops(tops: &mut [i64], lengths: &[i64], befores: &[u32], starts: &[i64])
    requires size { length tops.old ≡ length lengths.now }
    requires one_each { length befores.now ≡ length lengths.now }
    requires lengths { AreLengths lengths.now }
    requires postorder { ArePostorder befores.now (length befores.now) }
    requires starts { AreStarts lengths.now befores.now starts.now }
    ensures { AreTops lengths.now befores.now tops.new }
{
    let mut top = 0;
    for node in 0..lengths.len() {
        tops[node] = top;
        top = next_top(top, lengths[node], starts[node]);
    }
}

/// For each node the lengths of those that hold it, added up.
pub(crate) fn tops_of(
    alloc: Global,
    lengths: &[i64],
    befores: &[u32],
) -> Result<Vec<i64>, OutOfMemory>
    requires one_each { length befores.now ≡ length lengths.now }
    requires lengths { AreLengths lengths.now }
    requires postorder { ArePostorder befores.now (length befores.now) }
    ensures { IfOk result (λ tops. AreTops lengths.now befores.now tops.items) }
{
    let starts = starts_of(alloc, lengths, befores)?;
    let mut tops = vec![in alloc; 0i64; lengths.len()]?;
    fill_tops(&mut tops, lengths, befores, &starts);
    Ok(tops)
}
