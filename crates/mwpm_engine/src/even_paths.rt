//! Paths from outer vertices, of a search that is stuck and whose mates are unpacked.
ghost use Rattle.std.specs.Prelude.{◌<◌, IfOk, length};
ghost use Rattle.alt_forest.specs.Searches.{edge_in};
ghost use Rattle.augment.specs.Matching.{mate_counts};
ghost use Rattle.gallai_theory.specs.Decomposition.{IsEvenPath};
ghost use Rattle.mwpm_engine.specs.Alternating.{CanAlternate};

use base_types::{EdgeId, OutOfMemory, VertexId};
use search_start::{edge_at, kept_edge, push_both};
use std::alloc::Global;
use weighted_graph::Graph;

/// From a vertex its edge of a matching, then at the other end that of one which misses the vertex,
/// and so on, until the first has none. The first pairs all vertices met but the last, the second
/// all but the vertex, so each two further vertices are new.
pub(crate) fn alternate(
    alloc: Global,
    graph: &Graph,
    mates: &[Option<EdgeId>],
    other: &[Option<EdgeId>],
    v: VertexId,
) -> Result<Vec<EdgeId>, OutOfMemory>
    requires possible { CanAlternate graph.now (edge_in mates.now) (edge_in other.now) v }
    requires places { graph.now.vertices < length mates.now }
    requires other_places { graph.now.vertices < length other.now }
    ensures { IfOk result
        (λ es. IsEvenPath graph.now (mate_counts graph.now (edge_in mates.now)) v es.items) }
{
    let mut path = Vec::new(alloc);
    let mut at = v;
    while let Some(first) = edge_at(mates, at) {
        let across = graph.other_end(first, at);
        let second = kept_edge(other, across);
        push_both(&mut path, first, second)?;
        at = graph.other_end(second, across);
    }
    Ok(path)
}
