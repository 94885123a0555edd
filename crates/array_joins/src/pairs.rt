//! Pairs of leaves, each with the weight of some path between them.
use crate::arcs::Arcs;
use crate::leaves::Leaves;
use crate::spread::{NONE, Spread};
use graph_theory::WEIGHT_LIMIT;
use mb_base::{OutOfMemory, VertexId};
use std::alloc::Global;

/// Two leaves, the lesser number first, and what a path between them weighs.
#[derive(Clone, Copy, PartialEq, Eq, PartialOrd, Ord)]
pub(crate) struct Pair {
    pub low: u32,
    pub high: u32,
    pub weight: i64,
}

/// The pair of two leaves.
fn pair_of(one: u32, other: u32, weight: i64) -> Pair {
    if one < other {
        Pair {
            low: one,
            high: other,
            weight,
        }
    } else {
        Pair {
            low: other,
            high: one,
            weight,
        }
    }
}

/// Adds the pair of two leaves, if they differ and the weight is one that a graph may have.
pub(crate) fn add_pair(
    pairs: &mut Vec<Pair>,
    one: u32,
    other: u32,
    weight: i64,
) -> Result<(), OutOfMemory> {
    if one == other || weight > WEIGHT_LIMIT {
        return Ok(());
    }
    pairs.push(pair_of(one, other, weight))?;
    Ok(())
}

/// Adds the pair of a leaf and the vertex that a search from it has come to, if that has another
/// leaf. Answers whether it has.
fn add_reached(
    pairs: &mut Vec<Pair>,
    leaves: &Leaves,
    spread: &Spread,
    leaf: u32,
    vertex: VertexId,
) -> Result<bool, OutOfMemory> {
    let other = leaves.number(vertex);
    if other == 0 || other == leaf {
        return Ok(false);
    }
    let length = 0i64.wrapping_sub(spread.reach(vertex).height);
    add_pair(pairs, leaf, other, length / 2)?;
    Ok(true)
}

/// Adds the pairs of a leaf and the nearest so many others.
fn add_nearest(
    pairs: &mut Vec<Pair>,
    arcs: &Arcs,
    leaves: &Leaves,
    spread: &mut Spread,
    leaf: u32,
    near: u32,
) -> Result<(), OutOfMemory> {
    let mut left = near;
    spread.start(leaves.vertex(leaf), 0, leaf)?;
    for _ in 0..leaves.numbers.len() {
        let Some(vertex) = spread.settle() else {
            break;
        };
        if add_reached(pairs, leaves, spread, leaf, vertex)? {
            left = left.saturating_sub(1);
        }
        if left == 0 {
            break;
        }
        spread.follow(arcs, vertex, NONE)?;
    }
    spread.clear();
    Ok(())
}

/// Adds the pairs of each leaf and the nearest so many others, unless the searches for them follow
/// more arcs than this. Answers whether all were added.
pub(crate) fn add_near_pairs(
    pairs: &mut Vec<Pair>,
    arcs: &Arcs,
    leaves: &Leaves,
    spread: &mut Spread,
    near: u32,
    most_looks: u64,
) -> Result<bool, OutOfMemory> {
    for place in 0..leaves.count {
        if spread.looks > most_looks {
            return Ok(false);
        }
        add_nearest(pairs, arcs, leaves, spread, place + 1, near)?;
    }
    Ok(true)
}

/// Whether two pairs have the same leaves.
fn has_same_leaves(one: Pair, other: Pair) -> bool {
    one.low == other.low && one.high == other.high
}

/// Adds a pair, unless the last one has the same leaves.
fn push_new(pairs: &mut Vec<Pair>, pair: Pair) -> Result<(), OutOfMemory> {
    let Some(last) = pairs.last() else {
        pairs.push(pair)?;
        return Ok(());
    };
    if has_same_leaves(*last, pair) {
        return Ok(());
    }
    pairs.push(pair)?;
    Ok(())
}

/// The pairs in order, each once, with the least weight that is given.
pub(crate) fn distinct(alloc: Global, pairs: &mut Vec<Pair>) -> Result<Vec<Pair>, OutOfMemory> {
    pairs.sort_unstable();
    let mut kept = Vec::with_capacity(alloc, pairs.len())?;
    for pair in pairs.as_slice() {
        push_new(&mut kept, *pair)?;
    }
    Ok(kept)
}
