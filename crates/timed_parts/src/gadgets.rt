use certificates::certified;
use dimacs_read::read;
use graph_theory::{GRAPH_EDGE_LIMIT, GRAPH_VERTEX_LIMIT};
use mb_problem::{Kind, gadget_size};
use std::alloc::Global;

/// Reads an instance, builds the certificate graph of its kind so often, and answers how many edges
/// it has; 0 times give 0.
pub fn run(alloc: Global, bytes: &[u8], kind: Kind, times: u32) -> Option<Vec<u8>> {
    let (instance, _) = read(alloc, bytes, kind).ok()?;
    let (vertices, edges) = gadget_size(&instance, kind);
    if vertices > u64::from(GRAPH_VERTEX_LIMIT) || edges > u64::from(GRAPH_EDGE_LIMIT) {
        return None;
    }
    let mut built = 0;
    for _ in 0..times {
        built = certified(alloc, &instance, kind).ok()?.edges();
    }
    let text = format!(in alloc; "{built}\n").ok()?;
    Some(text.into_bytes())
}
