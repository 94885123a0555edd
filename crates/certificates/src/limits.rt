ghost use Rattle.std.specs.Prelude.{◌↔◌, IsTrue};
ghost use Rattle.graph_theory.specs.Limits.{IsWithinLimits};

use graph_theory::{GRAPH_EDGE_LIMIT, GRAPH_VERTEX_LIMIT};

/// Whether a graph of this size may be searched and certified.
pub fn is_within_limits(vertices: u64, edges: u64) -> bool
    ensures { IsTrue result ↔ IsWithinLimits (record { vertices = vertices; edges = edges }) }
{
    if vertices > u64::from(GRAPH_VERTEX_LIMIT) {
        return false;
    }
    edges <= u64::from(GRAPH_EDGE_LIMIT)
}
