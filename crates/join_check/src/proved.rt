ghost use Rattle.std.specs.Prelude.{◌≡◌, ℕ, ◌<◌, ◌^◌, false, length, slice_index};
ghost use Rattle.std.specs.Prelude.{IsTrue, IfOk};
ghost use Rattle.join_check.specs.Least.{IsLeastJoin};
ghost use Rattle.join_check.specs.Checks.{at, ArePlaced, AreWide, HasPlace, HasShape};
ghost use Rattle.join_check.specs.Checks.{IsSmallForest};

use crate::flags::flags_of;
use crate::held::hold_odd;
use crate::join::{is_join, odds_of};
use crate::lengths::are_lengths;
use crate::levels::Levels;
use crate::paid::is_paid;
use crate::places::{depths_of, have_places};
use crate::postorder::is_postorder;
use crate::tops::tops_of;
use crate::wide::are_wide;
use mb_base::{EdgeId, OutOfMemory};
use mb_problem::{Instance, Parity};
use std::alloc::Global;

/// Whether each list has one item for each vertex or edge.
fn has_shape(instance: &Instance, levels: &Levels) -> bool
    ensures { IsTrue result → HasShape instance.now levels.now }
{
    if levels.nodes.len() != instance.vertices() as usize {
        return false;
    }
    if levels.heights.len() != instance.vertices() as usize {
        return false;
    }
    if levels.meets.len() != instance.edges() as usize {
        return false;
    }
    true
}

/// Whether the nodes stand in postorder, and their lengths stay within the limit.
fn is_forest(levels: &Levels) -> bool
    ensures { IsTrue result → IsSmallForest levels.now }
{
    if levels.befores.len() != levels.lengths.len() {
        return false;
    }
    if !are_lengths(levels.lengths.as_slice()) {
        return false;
    }
    if !is_postorder(levels.befores.as_slice()) {
        return false;
    }
    true
}

/// Whether each vertex has its place, and the nodes that have a length hold odd numbers of odd
/// vertices.
fn is_placed(alloc: Global, levels: &Levels, odd: &[bool]) -> Result<bool, OutOfMemory>
    requires size_limit { length levels.now.nodes < 2 ^ 32 }
    requires forest { IsSmallForest levels.now }
    requires heights { length levels.now.heights ≡ length levels.now.nodes }
    requires odd { length odd.now ≡ length levels.now.nodes }
    ensures { IfOk result (λ yes. IsTrue yes → ArePlaced levels.now odd.now) }
{
    let lengths = levels.lengths.as_slice();
    let befores = levels.befores.as_slice();
    let nodes = levels.nodes.as_slice();
    let heights = levels.heights.as_slice();
    if !have_places(lengths, nodes, heights, odd) {
        return Ok(false);
    }
    let hold = hold_odd(alloc, lengths, befores, nodes, odd)?;
    Ok(hold)
}

/// Whether each edge is at least as long as the way between the places of its ends.
fn is_wide(alloc: Global, instance: &Instance, levels: &Levels) -> Result<bool, OutOfMemory>
    requires shape { HasShape instance.now levels.now }
    requires forest { IsSmallForest levels.now }
    requires places { (j : ℕ) → j < length levels.now.nodes → HasPlace levels.now.lengths
        (slice_index levels.now.nodes j) (at levels.now.heights j) false }
    ensures { IfOk result (λ yes. IsTrue yes → AreWide instance.now levels.now) }
{
    let lengths = levels.lengths.as_slice();
    let befores = levels.befores.as_slice();
    let nodes = levels.nodes.as_slice();
    let heights = levels.heights.as_slice();
    let meets = levels.meets.as_slice();
    let tops = tops_of(alloc, lengths, befores)?;
    let depths = depths_of(alloc, lengths, &tops, nodes, heights)?;
    Ok(are_wide(instance, &tops, befores, nodes, &depths, meets))
}

/// Whether a forest of lengths proves that a list of edges is a join of this parity, and that no
/// such join weighs less: the levels of its nodes are odd cuts, each edge lies in at most twice as
/// many as it weighs, and twice the weight of the join is their number (Schrijver, Combinatorial
/// Optimization, volume A, chapter 29). Edges of negative weight are turned round first.
///
/// Whoever makes the forest need not be believed. It takes time linear in the instance and the
/// nodes.
///
/// # Errors
///
/// `OutOfMemory` if an allocation fails.
pub fn is_proved(
    alloc: Global,
    instance: &Instance,
    parity: &Parity,
    join: &[EdgeId],
    levels: &Levels,
) -> Result<bool, OutOfMemory>
    // An accepted list of edges is a T-join of minimum weight.
    ensures least { IfOk result (λ yes. IsTrue yes
        → IsLeastJoin parity.now instance.now join.now) }
{
    if !has_shape(instance, levels) {
        return Ok(false);
    }
    if !is_forest(levels) {
        return Ok(false);
    }
    let odds = odds_of(alloc, instance, parity)?;
    let joins = is_join(alloc, instance, parity, join, &odds)?;
    if !joins {
        return Ok(false);
    }
    if !is_paid(instance, join, levels.lengths.as_slice()) {
        return Ok(false);
    }
    let odd = flags_of(alloc, instance, &odds)?;
    let placed = is_placed(alloc, levels, &odd)?;
    if !placed {
        return Ok(false);
    }
    let wide = is_wide(alloc, instance, levels)?;
    Ok(wide)
}
