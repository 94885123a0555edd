//! Slacks where no blossom stands.
ghost use Rattle.std.specs.Prelude.{◌≡◌, ◌≤ℤ◌, ◌+ℤ◌, ◌*ℤ◌, neg_ℤ, pos, true};
ghost use Rattle.graph_theory.specs.declared.limits.TheConstants.{WEIGHT_LIMIT};
ghost use Rattle.graph_theory.specs.Graph.{IsWeight};
ghost use Rattle.blossom_arena.specs.Family.{dual_at, is_vertex};
ghost use Rattle.alt_forest.specs.State.{slack_of};
ghost use Rattle.alt_forest.specs.Searches.{IsSound, state_of};
ghost use Rattle.search_tables.specs.IncidentEdges.{IsIncidentEdge};
ghost use Rattle.search_start.specs.Starts.{IsBegun};

use alt_forest::{IncidentEdge, Search, Weights};
use base_types::VertexId;
use blossom_arena::NodeId;

/// The dual of a vertex.
pub(crate) fn vertex_dual(search: &Search, v: VertexId) -> i64
    requires sound { IsSound search.now }
    requires started { IsBegun (state_of search.now) search.now.start }
    requires vertex { is_vertex search.now.graph.vertices v ≡ true }
    ensures dual { result ≡ dual_at search.now.arena.duals v }
    ensures low { neg_ℤ WEIGHT_LIMIT ≤ℤ result }
    ensures high { result ≤ℤ (pos 3 *ℤ WEIGHT_LIMIT) }
{
    search.arena.dual(NodeId::new(v.number()))
}

/// The duals of two vertices, added up.
fn both_duals(search: &Search, u: VertexId, v: VertexId) -> i64
    requires sound { IsSound search.now }
    requires started { IsBegun (state_of search.now) search.now.start }
    requires u { is_vertex search.now.graph.vertices u ≡ true }
    requires v { is_vertex search.now.graph.vertices v ≡ true }
    ensures sum { result ≡ dual_at search.now.arena.duals u +ℤ dual_at search.now.arena.duals v }
    ensures low { neg_ℤ (pos 2 *ℤ WEIGHT_LIMIT) ≤ℤ result }
    ensures high { result ≤ℤ (pos 6 *ℤ WEIGHT_LIMIT) }
{
    vertex_dual(search, u) + vertex_dual(search, v)
}

/// Twice a weight.
fn twice(weight: i64) -> i64
    requires { IsWeight weight }
    ensures twice { result ≡ pos 2 *ℤ weight }
    ensures low { neg_ℤ (pos 2 *ℤ WEIGHT_LIMIT) ≤ℤ result }
    ensures high { result ≤ℤ (pos 2 *ℤ WEIGHT_LIMIT) }
{
    2 * weight
}

/// The slack of an edge at a vertex where no blossom stands: twice its weight, or 0 in the pass
/// without weights, less the duals of its ends.
pub(crate) fn slack_at(search: &Search, v: VertexId, incident: &IncidentEdge) -> i64
    requires sound { IsSound search.now }
    requires started { IsBegun (state_of search.now) search.now.start }
    requires vertex { is_vertex search.now.graph.vertices v ≡ true }
    requires incident { IsIncidentEdge search.now.graph v incident.now }
    ensures slack { result ≡ slack_of (state_of search.now) incident.now.edge }
{
    let duals = both_duals(search, v, incident.far);
    match search.weights {
        Weights::Zero => -duals,
        Weights::Given => twice(incident.weight) - duals,
    }
}
