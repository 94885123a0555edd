ghost use Rattle.std.specs.Prelude.{◌≡◌, ℕ, ◌<◌, ◌≤ℤ◌, ◌-ℤ◌, ◌+ℤ◌, false, pos};
ghost use Rattle.std.specs.Prelude.{length, slice_index, slice_index_or, IsTrue, IfOk};
ghost use Rattle.join_check.specs.Checks.{at, AreDepths, HasPlace, IsLength};

use mb_base::OutOfMemory;
use std::alloc::Global;

/// Whether a place lies within its node, and at the top of it if the vertex is odd.
fn has_place(lengths: &[i64], node: u32, height: i64, odd: bool) -> bool
    ensures { IsTrue result → HasPlace lengths.now node height odd }
{
    let node = node as usize;
    if node >= lengths.len() {
        return false;
    }
    if height < 0 {
        return false;
    }
    if height > lengths[node] {
        return false;
    }
    if odd && height < lengths[node] {
        return false;
    }
    true
}

/// Whether the place of each vertex lies within its node, and at the top of it if the vertex is
/// odd.
pub(crate) fn have_places(lengths: &[i64], nodes: &[u32], heights: &[i64], odd: &[bool]) -> bool
    requires heights { length heights.now ≡ length nodes.now }
    requires odd { length odd.now ≡ length nodes.now }
    ensures { IsTrue result → (j : ℕ) → j < length nodes.now → HasPlace lengths.now
        (slice_index nodes.now j) (at heights.now j) (slice_index_or odd.now j false) }
{
    for (vertex, node) in nodes.iter().enumerate() {
        if !has_place(lengths, *node, heights[vertex], odd[vertex]) {
            return false;
        }
    }
    true
}

/// How much length lies below a place.
fn depth_at(length: i64, top: i64, height: i64) -> i64
    requires top { IsLength top }
    requires low { pos 0 ≤ℤ height }
    requires high { height ≤ℤ length }
    requires above { length ≤ℤ top }
    ensures depth { result ≡ top -ℤ length +ℤ height }
    ensures value_limit { IsLength result }
{
    top - length + height
}

/// How much length lies below the place of each vertex.
fn fill_depths(depths: &mut [i64], lengths: &[i64], tops: &[i64], nodes: &[u32], heights: &[i64])
    requires size { length depths.old ≡ length nodes.now }
    requires one_each { length tops.now ≡ length lengths.now }
    requires heights { length heights.now ≡ length nodes.now }
    requires places { (j : ℕ) → j < length nodes.now → HasPlace lengths.now
        (slice_index nodes.now j) (at heights.now j) false }
    requires above { (x : ℕ) → x < length lengths.now → at lengths.now x ≤ℤ at tops.now x }
    requires value_limit { (x : ℕ) → x < length lengths.now → IsLength (at tops.now x) }
    ensures { AreDepths lengths.now tops.now nodes.now heights.now depths.new }
{
    for vertex in 0..nodes.len() {
        let node = nodes[vertex] as usize;
        depths[vertex] = depth_at(lengths[node], tops[node], heights[vertex]);
    }
}

/// How much length lies below the place of each vertex.
pub(crate) fn depths_of(
    alloc: Global,
    lengths: &[i64],
    tops: &[i64],
    nodes: &[u32],
    heights: &[i64],
) -> Result<Vec<i64>, OutOfMemory>
    requires one_each { length tops.now ≡ length lengths.now }
    requires heights { length heights.now ≡ length nodes.now }
    requires places { (j : ℕ) → j < length nodes.now → HasPlace lengths.now
        (slice_index nodes.now j) (at heights.now j) false }
    requires above { (x : ℕ) → x < length lengths.now → at lengths.now x ≤ℤ at tops.now x }
    requires value_limit { (x : ℕ) → x < length lengths.now → IsLength (at tops.now x) }
    ensures { IfOk result
        (λ depths. AreDepths lengths.now tops.now nodes.now heights.now depths.items) }
{
    let mut depths = vec![in alloc; 0i64; nodes.len()]?;
    fill_depths(&mut depths, lengths, tops, nodes, heights);
    Ok(depths)
}
