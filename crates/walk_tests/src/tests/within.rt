use super::instances::instance;
use super::odd_joins::joined;
use conservative_paths::{negative_circuit, path_in};
use join_check::weight_of;
use mb_base::{EdgeId, VertexId};
use mb_problem::{Answer, Instance, Kind, feasible, is_circuit};
use std::alloc::Global;
use std::test::Fail;

/// Whether each of the edges is one of these numbers.
fn are_among(edges: &[EdgeId], numbers: &[u32]) -> bool {
    for edge in edges {
        if !numbers.contains(&edge.number()) {
            return false;
        }
    }
    true
}

/// The weights of the edges, added up.
fn plain_weight(instance: &Instance, edges: &[EdgeId]) -> i128 {
    let list = instance.edge_list();
    let mut total = 0i128;
    for edge in edges {
        let place = (edge.number() as usize).saturating_sub(1);
        if let Some(edge) = list.get(place) {
            total = total.saturating_add(i128::from(edge.w));
        }
    }
    total
}

/// The path within the join of these edges between two vertices, if that is one.
fn path(
    alloc: Global,
    instance: &Instance,
    numbers: &[u32],
    s: u32,
    t: u32,
) -> Result<Option<Answer>, Fail> {
    let Some(join) = joined(alloc, instance, numbers, s, t)? else {
        return Ok(None);
    };
    if s == 0 || t == 0 {
        return Ok(None);
    }
    if s == t {
        return Ok(None);
    }
    if s > instance.vertices() || t > instance.vertices() {
        return Ok(None);
    }
    let answer = path_in(alloc, instance, &join, VertexId::new(s), VertexId::new(t))?;
    Ok(Some(answer))
}

/// Two triangles at vertex 2, and an edge from it to vertex 6.
const TRIANGLES: &[u8] =
    b"p edge 6 8\nn 1 1\nn 6 1\ne 1 2 4\ne 2 3 1\ne 3 4 -2\ne 4 2 1\ne 2 5 0\ne 5 3 7\ne 5 2 0\ne 2 6 -3\n";

/// A text, the edges of a join between two vertices, and what the path within it weighs.
const PATHS: [(&[u8], &[u32], u32, u32, i128); 6] = [
    (b"p edge 2 1\nn 1 1\nn 2 1\ne 2 1 -5\n", &[1], 1, 2, -5),
    (
        b"p edge 2 3\nn 1 1\nn 2 1\ne 2 1 5\ne 1 2 5\ne 1 2 5\n",
        &[1, 2, 3],
        1,
        2,
        5,
    ),
    (
        b"p edge 4 3\nn 1 1\nn 4 1\ne 2 3 1\ne 3 4 1\ne 1 2 1\n",
        &[1, 2, 3],
        1,
        4,
        3,
    ),
    (TRIANGLES, &[1, 2, 3, 4, 8], 1, 6, 1),
    (TRIANGLES, &[1, 2, 3, 4, 5, 7, 8], 1, 6, 1),
    // Loops at both ends, which no path has.
    (
        b"p edge 2 4\nn 1 1\nn 2 1\ne 1 1 3\ne 2 2 0\ne 1 2 7\ne 2 2 1\n",
        &[1, 2, 3, 4],
        1,
        2,
        7,
    ),
];

/// Whether the path within the join is a path over its edges of this weight.
fn is_wanted(
    alloc: Global,
    text: &[u8],
    numbers: &[u32],
    s: u32,
    t: u32,
    total: i128,
) -> Result<bool, Fail> {
    let Some(instance) = instance(alloc, text, Kind::Path) else {
        return Ok(false);
    };
    let Some(answer) = path(alloc, &instance, numbers, s, t)? else {
        return Ok(false);
    };
    if !feasible(alloc, &instance, Kind::Path, &answer)? {
        return Ok(false);
    }
    match &answer {
        Answer::Walk { edges, .. } => Ok(
            are_among(edges.as_slice(), numbers)
                && plain_weight(&instance, edges.as_slice()) == total,
        ),
        Answer::Counts(_) | Answer::Nothing => Ok(false),
    }
}

#[test]
fn paths_within_joins(rt: HostRuntime) -> Result<(), Fail> {
    for (text, numbers, s, t, total) in &PATHS {
        assert!(rt; is_wanted(rt.alloc(), *text, *numbers, *s, *t, *total)?);
    }
    Ok(())
}

/// The circuit within the even set of these edges, if that is one and weighs less than 0.
fn circuit(alloc: Global, instance: &Instance, numbers: &[u32]) -> Result<Option<Answer>, Fail> {
    let Some(join) = joined(alloc, instance, numbers, 0, 0)? else {
        return Ok(None);
    };
    if weight_of(instance, join.edges.as_slice()) >= 0 {
        return Ok(None);
    }
    let answer = negative_circuit(alloc, instance, &join)?;
    Ok(Some(answer))
}

/// Circuits 1 to 3 of weight 1, 4 to 6 of weight 0 and 7 and 8 of weight -2, all at vertex 2.
const CIRCUITS: &[u8] =
    b"p edge 6 8\ne 1 2 1\ne 2 3 1\ne 3 1 -1\ne 2 4 2\ne 4 5 -1\ne 5 2 -1\ne 2 6 -3\ne 6 2 1\n";

/// A triangle of weight 1, a loop of weight 1 at vertex 1 and one of weight -3 at vertex 3.
const LOOPS: &[u8] = b"p edge 3 5\ne 1 1 1\ne 1 2 1\ne 2 3 1\ne 3 1 -1\ne 3 3 -3\n";

/// A text, the edges of an even set, and what the circuit within it weighs.
const NEGATIVE: [(&[u8], &[u32], i128); 6] = [
    (b"p edge 2 2\ne 2 1 -5\ne 1 2 4\n", &[1, 2], -1),
    (b"p edge 4 3\ne 2 3 1\ne 3 4 1\ne 4 2 -3\n", &[1, 2, 3], -1),
    (CIRCUITS, &[1, 2, 3, 4, 5, 6, 7, 8], -2),
    (CIRCUITS, &[4, 5, 6, 7, 8], -2),
    (b"p edge 1 1\ne 1 1 -3\n", &[1], -3),
    (LOOPS, &[1, 2, 3, 4, 5], -3),
];

/// Whether the circuit within the even set is a circuit over its edges of this weight.
fn is_negative(alloc: Global, text: &[u8], numbers: &[u32], total: i128) -> Result<bool, Fail> {
    let Some(instance) = instance(alloc, text, Kind::TJoin) else {
        return Ok(false);
    };
    let Some(answer) = circuit(alloc, &instance, numbers)? else {
        return Ok(false);
    };
    match &answer {
        Answer::Walk { start, edges } => {
            if !is_circuit(alloc, &instance, *start, edges.as_slice())? {
                return Ok(false);
            }
            Ok(
                are_among(edges.as_slice(), numbers)
                    && plain_weight(&instance, edges.as_slice()) == total,
            )
        }
        Answer::Counts(_) | Answer::Nothing => Ok(false),
    }
}

#[test]
fn circuits_within_even_sets(rt: HostRuntime) -> Result<(), Fail> {
    for (text, numbers, total) in &NEGATIVE {
        assert!(rt; is_negative(rt.alloc(), *text, *numbers, *total)?);
    }
    Ok(())
}
