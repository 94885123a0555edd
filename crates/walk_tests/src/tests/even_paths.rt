use super::instances::{are_edges, instance};
use alternating_paths::Forest;
use mb_base::{EdgeId, VertexId};
use mb_problem::Kind;
use std::alloc::Global;
use std::test::Fail;

/// A circuit of five vertices, of which a matching misses the first.
const CIRCUIT: &[u8] = b"p edge 5 5\ne 1 2 0\ne 2 3 0\ne 3 4 0\ne 4 5 0\ne 5 1 0\n";

/// A triangle 3, 4, 5 behind a path from vertex 1, which is missed, with a loop at vertex 4.
const STEM: &[u8] = b"p edge 5 6\ne 1 2 0\ne 2 3 0\ne 3 4 0\ne 4 5 0\ne 5 3 0\ne 4 4 0\n";

/// A triangle 1, 2, 3 within a circuit 2, 4, 5, 3 of odd length once the triangle is one vertex.
const NESTED: &[u8] = b"p edge 5 6\ne 1 2 0\ne 2 3 0\ne 3 1 0\ne 2 4 0\ne 4 5 0\ne 5 3 0\n";

/// A circuit of seven vertices, of which a matching misses the first.
const LONGER: &[u8] =
    b"p edge 7 7\ne 1 2 0\ne 2 3 0\ne 3 4 0\ne 4 5 0\ne 5 6 0\ne 6 7 0\ne 7 1 0\n";

/// A triangle 1, 2, 3 with a path 2, 4, 5 at a vertex that is reached first by an odd path.
const TAIL: &[u8] = b"p edge 5 5\ne 1 2 0\ne 2 3 0\ne 3 1 0\ne 2 4 0\ne 4 5 0\n";

/// A text, a maximum matching, a vertex that some maximum matching misses, and the one path of even
/// length from it along the matching to a missed vertex.
const PATHS: [(&[u8], &[u32], u32, &[u32]); 20] = [
    (CIRCUIT, &[2, 4], 1, &[]),
    (CIRCUIT, &[2, 4], 2, &[2, 3, 4, 5]),
    (CIRCUIT, &[2, 4], 3, &[2, 1]),
    (CIRCUIT, &[2, 4], 4, &[4, 5]),
    (CIRCUIT, &[2, 4], 5, &[4, 3, 2, 1]),
    (CIRCUIT, &[1, 4], 2, &[1, 5, 4, 3]),
    (CIRCUIT, &[1, 4], 4, &[4, 5, 1, 2]),
    (LONGER, &[2, 4, 6], 2, &[2, 3, 4, 5, 6, 7]),
    (LONGER, &[2, 4, 6], 7, &[6, 5, 4, 3, 2, 1]),
    (TAIL, &[2, 5], 5, &[5, 4, 2, 3]),
    (STEM, &[2, 4], 1, &[]),
    (STEM, &[2, 4], 3, &[2, 1]),
    (STEM, &[2, 4], 4, &[4, 5, 2, 1]),
    (STEM, &[2, 4], 5, &[4, 3, 2, 1]),
    (NESTED, &[2, 5], 1, &[]),
    (NESTED, &[2, 5], 2, &[2, 3]),
    (NESTED, &[2, 5], 3, &[2, 1]),
    (NESTED, &[2, 5], 4, &[5, 6, 2, 1]),
    (NESTED, &[2, 5], 5, &[5, 4, 2, 3]),
    (b"p edge 3 2\ne 1 3 0\ne 2 3 0\n", &[2], 2, &[2, 1]),
];

/// Whether the forest of a matching has this path from a vertex.
fn has_path(
    alloc: Global,
    text: &[u8],
    matching: &[u32],
    vertex: u32,
    path: &[u32],
) -> Result<bool, Fail> {
    let Some(instance) = instance(alloc, text, Kind::Gallai) else {
        return Ok(false);
    };
    let mut edges = Vec::new(alloc);
    for number in matching {
        edges.push(EdgeId::new(*number))?;
    }
    let graph = instance.graph()?;
    let forest = Forest::of(alloc, &graph, &edges)?;
    let found = forest.path(VertexId::new(vertex))?;
    Ok(are_edges(&found, path))
}

#[test]
fn even_paths_around_odd_circuits(rt: HostRuntime) -> Result<(), Fail> {
    for (text, matching, vertex, path) in &PATHS {
        assert!(rt; has_path(rt.alloc(), *text, *matching, *vertex, *path)?);
    }
    Ok(())
}
