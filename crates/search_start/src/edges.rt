//! Edges that are kept for vertices, and a path that grows by them.
ghost use Rattle.std.specs.Prelude.{◌≡◌, ◌<◌, true, [], ◌∷◌, ◌++◌, Some, is_some, OnOk, length};
ghost use Rattle.alt_forest.specs.Searches.{edge_in};

use base_types::{EdgeId, OutOfMemory, VertexId};

/// The edge that is kept for a vertex, if any.
pub fn edge_at(edges: &[Option<EdgeId>], v: VertexId) -> Option<EdgeId>
    requires { v < length edges.now }
    ensures { result ≡ edge_in edges.now v }
{
    edges[v.number() as usize]
}

/// The edge that is kept for a vertex that has one.
pub fn kept_edge(edges: &[Option<EdgeId>], v: VertexId) -> EdgeId
    requires place { v < length edges.now }
    requires some { is_some (edge_in edges.now v) ≡ true }
    ensures { Some result ≡ edge_in edges.now v }
{
    match edge_at(edges, v) {
        Some(e) => e,
        None => unreachable!(),
    }
}

/// Two edges more at the end of a path.
pub fn push_both(path: &mut Vec<EdgeId>, first: EdgeId, second: EdgeId) -> Result<(), OutOfMemory>
    ensures { OnOk result (path.new.items ≡ (path.old.items ++ first ∷ []) ++ second ∷ []) }
{
    path.push(first)?;
    path.push(second)?;
    Ok(())
}
