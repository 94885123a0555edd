use super::instances::{are_edges, are_vertices, instance};
use graph_parts::{JoinOrOdd, edge_connected, join_or_odd};
use mb_base::{EdgeId, VertexId};
use mb_problem::{Kind, Parity};
use std::alloc::Global;
use std::test::Fail;

/// A text, and whether all its edges lie in one component.
const CONNECTED: [(&[u8], bool); 10] = [
    (b"p edge 0 0\n", true),
    (b"p edge 1 0\n", true),
    (b"p edge 2 0\n", true),
    (b"p edge 3 1\ne 3 2 0\n", true),
    (b"p edge 2 2\ne 1 2 0\ne 2 1 0\n", true),
    (b"p edge 4 2\ne 1 2 0\ne 3 4 0\n", false),
    (b"p edge 4 3\ne 3 4 0\ne 1 2 0\ne 3 2 0\n", true),
    (b"p edge 5 4\ne 1 2 0\ne 2 3 0\ne 3 1 0\ne 4 5 0\n", false),
    // A loop, alone and apart from an edge.
    (b"p edge 2 1\ne 2 2 0\n", true),
    (b"p edge 3 2\ne 1 1 0\ne 2 3 0\n", false),
];

/// Whether all edges of a text lie in one component; None if the text isn't an instance.
fn is_connected(alloc: Global, text: &[u8]) -> Result<Option<bool>, Fail> {
    let Some(instance) = instance(alloc, text, Kind::TJoin) else {
        return Ok(None);
    };
    let graph = instance.graph();
    drop(instance);
    Ok(Some(edge_connected(alloc, &graph?)?))
}

#[test]
fn edges_in_one_component(rt: HostRuntime) -> Result<(), Fail> {
    for (text, wanted) in &CONNECTED {
        assert!(rt; is_connected(rt.alloc(), *text)? == Some(*wanted));
    }
    Ok(())
}

/// What is wanted: the edges of a join, or the vertices of an odd part.
enum Wanted {
    Edges(&'static [u32]),
    Part(&'static [u32]),
}

use Wanted::{Edges, Part};

const TWO_PAIRS: &[u8] = b"p edge 4 2\nn 1 1\nn 2 1\nn 3 1\nn 4 1\ne 4 3 5\ne 1 2 -5\n";

const STAR: &[u8] = b"p edge 4 3\nn 2 1\ne 1 2 0\ne 1 3 0\ne 4 1 0\n";

const PATH: &[u8] = b"p edge 4 3\nn 1 1\nn 3 3\nn 4 2\ne 1 2 0\ne 2 3 0\ne 3 4 0\n";

/// Of the three edges between 1 and 2 the first is found.
const PARALLEL: &[u8] = b"p edge 2 3\nn 1 1\nn 2 1\ne 2 1 4\ne 1 2 1\ne 2 1 0\n";

/// The components are 1 and 4, 2 and 3 and 6, and 5.
const PARTS: &[u8] = b"p edge 6 3\nn 3 1\nn 5 1\ne 6 2 0\ne 4 1 0\ne 3 6 0\n";

/// A loop counts twice, so the degrees of vertices 1 and 2 are odd, and those of 3 even.
const LOOPS: &[u8] = b"p edge 3 4\nn 3 1\ne 1 1 2\ne 2 1 0\ne 3 3 0\ne 1 1 5\n";

const JOINS: [(&[u8], Parity, Wanted); 19] = [
    (b"p edge 0 0\n", Parity::Values, Edges(&[])),
    (b"p edge 0 0\n", Parity::OddDegrees, Edges(&[])),
    (b"p edge 1 0\n", Parity::Values, Edges(&[])),
    (b"p edge 1 0\nn 1 1\n", Parity::Values, Part(&[1])),
    (b"p edge 1 0\nn 1 1\n", Parity::Empty, Edges(&[])),
    (b"p edge 3 0\nn 2 1\nn 3 1\n", Parity::Values, Part(&[2])),
    (TWO_PAIRS, Parity::Values, Edges(&[1, 2])),
    (TWO_PAIRS, Parity::Empty, Edges(&[])),
    (STAR, Parity::OddDegrees, Edges(&[1, 2, 3])),
    (STAR, Parity::Values, Part(&[1, 2, 3, 4])),
    (PATH, Parity::Values, Edges(&[1, 2])),
    (PATH, Parity::OddDegrees, Edges(&[1, 2, 3])),
    (PARALLEL, Parity::Values, Edges(&[1])),
    (PARALLEL, Parity::OddDegrees, Edges(&[1])),
    (PARTS, Parity::Values, Part(&[2, 3, 6])),
    (b"p edge 1 1\ne 1 1 4\n", Parity::OddDegrees, Edges(&[])),
    (LOOPS, Parity::OddDegrees, Edges(&[2])),
    (LOOPS, Parity::Empty, Edges(&[])),
    (LOOPS, Parity::Values, Part(&[3])),
];

/// Whether the edges of a join are wanted.
fn wants_edges(wanted: &Wanted, edges: &[EdgeId]) -> bool {
    match wanted {
        Edges(numbers) => are_edges(edges, *numbers),
        Part(_) => false,
    }
}

/// Whether the vertices of an odd part are wanted.
fn wants_part(wanted: &Wanted, vertices: &[VertexId]) -> bool {
    match wanted {
        Edges(_) => false,
        Part(numbers) => are_vertices(vertices, *numbers),
    }
}

/// Whether the outcome for a text and a parity is the one that is wanted.
fn decides(alloc: Global, text: &[u8], parity: &Parity, wanted: &Wanted) -> Result<bool, Fail> {
    let Some(instance) = instance(alloc, text, Kind::TJoin) else {
        return Ok(false);
    };
    let found = join_or_odd(alloc, &instance, parity);
    drop(instance);
    match found? {
        JoinOrOdd::Join(join) => Ok(wants_edges(wanted, join.edges.as_slice())),
        JoinOrOdd::OddSet(part) => Ok(wants_part(wanted, part.as_slice())),
    }
}

#[test]
fn joins_or_odd_parts(rt: HostRuntime) -> Result<(), Fail> {
    for (text, parity, wanted) in &JOINS {
        assert!(rt; decides(rt.alloc(), *text, parity, wanted)?);
    }
    Ok(())
}
