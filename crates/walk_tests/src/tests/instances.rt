use dimacs_read::read;
use mb_base::{EdgeId, VertexId};
use mb_problem::{Instance, Kind};
use std::alloc::Global;

/// The instance of a text that is well-formed.
pub fn instance(alloc: Global, text: &[u8], kind: Kind) -> Option<Instance> {
    match read(alloc, text, kind) {
        Ok((instance, _)) => Some(instance),
        Err(_) => None,
    }
}

/// Whether these are the edges of these numbers, in this order.
pub fn are_edges(edges: &[EdgeId], numbers: &[u32]) -> bool {
    if edges.len() != numbers.len() {
        return false;
    }
    for (k, edge) in edges.iter().enumerate() {
        if edge.number() != numbers[k] {
            return false;
        }
    }
    true
}

/// Whether these are the vertices of these numbers, in this order.
pub fn are_vertices(vertices: &[VertexId], numbers: &[u32]) -> bool {
    if vertices.len() != numbers.len() {
        return false;
    }
    for (k, vertex) in vertices.iter().enumerate() {
        if vertex.number() != numbers[k] {
            return false;
        }
    }
    true
}
