ghost use Rattle.std.specs.Prelude.{◌≡◌, ◌≢◌, ℕ, ℤ, pos, ◌-ℤ◌, ◌*ℤ◌, ◌≤ℤ◌, true, Some, []};
ghost use Rattle.std.specs.Prelude.{if◌then◌else◌, slice_index_or};
ghost use Rattle.graph_theory.specs.Graph.{IsEdgeNumber, IsWeight, edge_of, touches};
ghost use Rattle.graph_theory.specs.declared.limits.TheConstants.{NUMBER_LIMIT};
ghost use Rattle.blossom_arena.specs.Family.{is_vertex, outermost};
ghost use Rattle.blossom_arena.specs.declared.label.Label.TheVariants.{Outer};
ghost use Rattle.alt_forest.specs.State.{dual_sum};
ghost use Rattle.search_tables.specs.IncidentEdges.{IsIncidentEdge};
ghost use Rattle.alt_forest.specs.Searches.{IsSound, is_given, label_at, state_of};
ghost use Rattle.search_keys.specs.Bounds.{ComesUp, HasNearSums, IsHalf, IsKey, reach};
ghost use Rattle.search_keys.specs.Keys.{IsFrom, IsGiver, IsKeyTo, IsLow, IsNoLower, IsReach};

use alt_forest::{IncidentEdge, Label, Search, doubled};
use base_types::{EdgeId, VertexId};
use blossom_arena::NodeId;

/// What is at hand of a vertex of an outer node while it gives its keys: the outermost node that
/// holds it, and how much its dual sum is ahead of the clock.
#[derive(Clone, Copy)]
pub(crate) struct Giver {
    pub(crate) vertex: VertexId,
    pub(crate) node: NodeId,
    pub(crate) reach: i64,
}

/// The least key that has been found for a vertex, and the edge that gives it; number 0 if none has
/// been found.
#[derive(Clone, Copy)]
pub(crate) struct Least {
    pub(crate) key: i64,
    pub(crate) edge: EdgeId,
}

/// Half of a number, rounded towards 0.
fn half(twice: i64) -> i64
    ensures { IsHalf twice result }
{
    twice / 2
}

/// How much the dual sum of a vertex is ahead of the clock.
fn reach_of(search: &Search, v: VertexId) -> i64
    requires sound { IsSound search.now }
    requires low { pos 0 ≤ℤ search.now.clock }
    requires high { search.now.clock ≤ℤ NUMBER_LIMIT }
    requires near { HasNearSums (state_of search.now) search.now.clock }
    requires vertex { is_vertex search.now.graph.vertices v ≡ true }
    ensures reach { result ≡ reach (state_of search.now) search.now.clock v }
    ensures in_range { IsReach result }
{
    search.arena.near_sum(v) - search.clock
}

/// What is at hand of a vertex of an outer node.
pub(crate) fn giver_of(search: &Search, v: VertexId, node: NodeId) -> Giver
    requires sound { IsSound search.now }
    requires low { pos 0 ≤ℤ search.now.clock }
    requires high { search.now.clock ≤ℤ NUMBER_LIMIT }
    requires near { HasNearSums (state_of search.now) search.now.clock }
    requires vertex { is_vertex search.now.graph.vertices v ≡ true }
    requires node { node ≡ outermost search.now.arena.blossoms v }
    requires outer { label_at search.now.labels.items (outermost search.now.arena.blossoms v)
        ≡ Outer }
    ensures giver { IsGiver (state_of search.now) search.now.clock result }
    ensures vertex { result.vertex ≡ v }
{
    Giver {
        vertex: v,
        node,
        reach: reach_of(search, v),
    }
}

/// The key that an edge of this weight gives from a vertex of this reach.
pub(crate) fn key_at(search: &Search, reach: i64, weight: i64) -> i64
    requires reach { IsReach reach }
    requires weight { IsWeight weight }
    ensures key { result ≡ (if is_given search.now.weights then pos 2 *ℤ weight else pos 0)
        -ℤ reach }
    ensures in_range { IsKey result }
{
    doubled(search.weights, weight) - reach
}

/// The key that an edge of this weight gives a vertex of a node from its other end, if that lies in
/// another node, an outer one.
pub(crate) fn key_to(search: &Search, node: NodeId, far: VertexId, weight: i64) -> Option<i64>
    requires sound { IsSound search.now }
    requires low { pos 0 ≤ℤ search.now.clock }
    requires high { search.now.clock ≤ℤ NUMBER_LIMIT }
    requires near { HasNearSums (state_of search.now) search.now.clock }
    requires vertex { is_vertex search.now.graph.vertices far ≡ true }
    requires weight { IsWeight weight }
    ensures { IsKeyTo (state_of search.now) search.now.clock node far weight result }
{
    let other = search.arena.outermost(far);
    if other.number() == node.number() {
        return None;
    }
    match search.label(other) {
        Label::Outer => Some(key_at(search, reach_of(search, far), weight)),
        _ => None,
    }
}

/// The moment at which the key of a vertex comes up, by the label of its node: when its dual sum
/// has come up to the key. In an inner node it falls.
pub(crate) fn comes_up(search: &Search, v: VertexId, label: Label, key: i64) -> Option<i64>
    requires sound { IsSound search.now }
    requires low { pos 0 ≤ℤ search.now.clock }
    requires high { search.now.clock ≤ℤ NUMBER_LIMIT }
    requires near { HasNearSums (state_of search.now) search.now.clock }
    requires vertex { is_vertex search.now.graph.vertices v ≡ true }
    requires key { IsKey key }
    ensures { ComesUp label (dual_sum (state_of search.now) v) search.now.clock (Some key) result }
{
    match label {
        Label::Outer => Some(half(key - reach_of(search, v))),
        Label::Out => Some(key - search.arena.near_sum(v)),
        Label::Inner => None,
    }
}

/// The vertex that is kept for a node, or 0.
fn tree_id_number(search: &Search, node: NodeId) -> u32 {
    match search.tree_id(node) {
        Some(v) => v.number(),
        None => 0,
    }
}

/// Whether the key that a vertex of one node gave to one of another comes up before others of the
/// same moment: if it joins two trees, since it ends both.
pub(crate) fn joins_trees(search: &Search, one: NodeId, other: NodeId) -> bool {
    let tree_id = tree_id_number(search, one);
    let other_tree_id = tree_id_number(search, other);
    tree_id != 0 && other_tree_id != 0 && tree_id != other_tree_id
}

/// Whether a key is lower than the least so far.
fn is_less(key: i64, least: &Least) -> bool
    ensures less { result ≡ true → (k : ℤ) → IsLow least.now k → key ≤ℤ k }
    ensures other { result ≢ true → IsLow least.now key }
{
    if least.edge.number() == 0 {
        return true;
    }
    key < least.key
}

/// The least of the key that one edge more gives a vertex of a node, if it gives one, and the least
/// so far.
fn lesser(
    search: &Search,
    v: VertexId,
    node: NodeId,
    incident: &IncidentEdge,
    least: Least,
) -> Least
    requires sound { IsSound search.now }
    requires low { pos 0 ≤ℤ search.now.clock }
    requires high { search.now.clock ≤ℤ NUMBER_LIMIT }
    requires near { HasNearSums (state_of search.now) search.now.clock }
    requires node { node ≡ outermost search.now.arena.blossoms v }
    requires incident { IsIncidentEdge search.now.graph v incident.now }
    requires from { IsFrom (state_of search.now) search.now.clock v least }
    ensures from { IsFrom (state_of search.now) search.now.clock v result }
    ensures here { IsNoLower (state_of search.now) search.now.clock v result incident.now.edge }
    ensures before { (k : ℤ) → IsLow least k → IsLow result k }
{
    let Some(key) = key_to(search, node, incident.far, incident.weight) else {
        return least;
    };
    if !is_less(key, &least) {
        return least;
    }
    Least {
        key,
        edge: incident.edge,
    }
}

/// The least key that the edges at a vertex give it.
pub(crate) fn least_key(search: &Search, v: VertexId, node: NodeId, edges: &[IncidentEdge]) -> Least
    requires sound { IsSound search.now }
    requires low { pos 0 ≤ℤ search.now.clock }
    requires high { search.now.clock ≤ℤ NUMBER_LIMIT }
    requires near { HasNearSums (state_of search.now) search.now.clock }
    requires vertex { is_vertex search.now.graph.vertices v ≡ true }
    requires node { node ≡ outermost search.now.arena.blossoms v }
    requires edges { edges.now ≡ slice_index_or search.now.incidence v [] }
    ensures from { IsFrom (state_of search.now) search.now.clock v result }
    ensures least { (e : ℕ) → IsEdgeNumber search.now.graph e
        → touches (edge_of search.now.graph e) v ≡ true
        → IsNoLower (state_of search.now) search.now.clock v result e }
{
    let mut least = Least {
        key: 0,
        edge: EdgeId::new(0),
    };
    for incident in edges {
        least = lesser(search, v, node, incident, least);
    }
    least
}
