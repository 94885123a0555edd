ghost use Rattle.std.specs.Prelude.{IfOk, IfSome};
ghost use Rattle.mb_problem.specs.Measured.{HasPlaces};

use super::instances::instance;
use graph_parts::{JoinOrOdd, edge_connected, join_or_odd};
use mb_problem::{Answer, Instance, Kind, Parity, feasible, weight};
use postman_walk::{closed_walk, least_met};
use std::alloc::Global;
use std::test::Fail;

/// The closed walk of an instance whose edges lie in one component.
fn tour(alloc: Global, instance: &Instance) -> Result<Option<Answer>, Fail>
    ensures { IfOk result (λ found. IfSome found (HasPlaces instance.now)) }
{
    let graph = instance.graph()?;
    if !edge_connected(alloc, &graph)? {
        return Ok(None);
    }
    match join_or_odd(alloc, instance, &Parity::OddDegrees)? {
        JoinOrOdd::Join(join) => Ok(Some(closed_walk(alloc, instance, &join)?)),
        JoinOrOdd::OddSet(_) => Ok(None),
    }
}

/// A text, where the walk starts, how many edges it has, and what they weigh.
const TOURS: [(&[u8], u32, usize, i128); 12] = [
    // One edge, there and back.
    (b"p edge 2 1\ne 1 2 7\n", 1, 2, 14),
    (b"p edge 5 1\ne 5 3 2\n", 3, 2, 4),
    // A triangle.
    (b"p edge 3 3\ne 2 3 2\ne 3 1 4\ne 1 2 1\n", 1, 3, 7),
    // Two triangles at vertex 4, and vertex 1 that no edge meets.
    (
        b"p edge 6 6\ne 4 2 1\ne 2 6 1\ne 6 4 1\ne 4 3 1\ne 3 5 1\ne 5 4 1\n",
        2,
        6,
        6,
    ),
    // Two triangles and a bridge, which is the join.
    (
        b"p edge 6 7\ne 1 2 1\ne 2 3 1\ne 3 1 1\ne 3 4 10\ne 4 5 1\ne 5 6 1\ne 6 4 1\n",
        1,
        8,
        26,
    ),
    // Parallel edges: two, and three, of which the join has the first.
    (b"p edge 2 2\ne 1 2 3\ne 2 1 4\n", 1, 2, 7),
    (b"p edge 2 3\ne 2 1 5\ne 1 2 1\ne 2 1 1\n", 1, 4, 12),
    // Trees, where each edge lies in the join of the odd vertices: a star of three, and a path of
    // four.
    (b"p edge 4 3\ne 4 2 1\ne 4 3 2\ne 1 4 4\n", 1, 6, 14),
    (
        b"p edge 5 4\ne 5 2 1\ne 2 3 1\ne 3 4 0\ne 4 1 3\n",
        1,
        8,
        10,
    ),
    // Loops, each of which is used once: one alone, two at a vertex, and some at both ends of an
    // edge, which the join has.
    (b"p edge 3 1\ne 2 2 5\n", 2, 1, 5),
    (b"p edge 1 2\ne 1 1 5\ne 1 1 0\n", 1, 2, 5),
    (
        b"p edge 2 4\ne 2 2 1\ne 1 2 3\ne 1 1 4\ne 2 2 1\n",
        1,
        5,
        12,
    ),
];

/// Whether the answer is a tour of this start, length and weight.
fn is_wanted(
    alloc: Global,
    text: &[u8],
    first: u32,
    steps: usize,
    total: i128,
) -> Result<bool, Fail> {
    let Some(instance) = instance(alloc, text, Kind::Postman) else {
        return Ok(false);
    };
    let Some(answer) = tour(alloc, &instance)? else {
        return Ok(false);
    };
    if !feasible(alloc, &instance, Kind::Postman, &answer)? {
        return Ok(false);
    }
    if weight(&instance, Kind::Postman, &answer) != total {
        return Ok(false);
    }
    match &answer {
        Answer::Walk { start, edges } => Ok(start.number() == first && edges.len() == steps),
        Answer::Counts(_) | Answer::Nothing => Ok(false),
    }
}

#[test]
fn tours(rt: HostRuntime) -> Result<(), Fail> {
    for (text, first, steps, total) in &TOURS {
        assert!(rt; is_wanted(rt.alloc(), *text, *first, *steps, *total)?);
    }
    Ok(())
}

/// Instances without edges.
const EMPTY: [&[u8]; 3] = [b"p edge 0 0\n", b"p edge 1 0\n", b"p edge 3 0\n"];

/// Whether the answer is the empty walk, which is feasible.
fn is_nothing(alloc: Global, text: &[u8]) -> Result<bool, Fail> {
    let Some(instance) = instance(alloc, text, Kind::Postman) else {
        return Ok(false);
    };
    let graph = instance.graph()?;
    if least_met(&graph).is_some() {
        return Ok(false);
    }
    match tour(alloc, &instance)? {
        Some(Answer::Nothing) => Ok(feasible(alloc, &instance, Kind::Postman, &Answer::Nothing)?),
        _ => Ok(false),
    }
}

#[test]
fn empty_walks(rt: HostRuntime) -> Result<(), Fail> {
    for text in &EMPTY {
        assert!(rt; is_nothing(rt.alloc(), *text)?);
    }
    Ok(())
}
