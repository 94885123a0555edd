ghost use Rattle.std.specs.Prelude.{◌≡◌, length, MatchOption};
ghost use Rattle.postman_walk.specs.Tours.{IsLeastMet};

use mb_base::VertexId;
use weighted_graph::Graph;

/// The least vertex that an edge meets, if there is an edge. It takes time linear in the edges.
pub fn least_met(graph: &Graph) -> Option<VertexId>
    // The least vertex that an edge meets.
    ensures { MatchOption result (length graph.now.edges ≡ 0) (IsLeastMet graph.now) }
{
    let edges = graph.edge_list();
    let Some(first) = edges.first() else {
        return None;
    };
    let mut least = first.u.number();
    for edge in edges {
        let end = edge.u.number().min(edge.v.number());
        least = least.min(end);
    }
    Some(VertexId::new(least))
}
