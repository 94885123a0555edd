ghost use Rattle.std.specs.Prelude.{◌≡◌, ◌≢◌, ◌⊎◌, ◌≤◌, ◌+◌, ◌*◌, ◌≤ℤ◌, ℕ, pos, true, false, []};
ghost use Rattle.std.specs.Prelude.{length, is_some, if◌then◌else◌};
ghost use Rattle.graph_theory.specs.Graph.{IsEdgeNumber, edge_of, edges_around, touches};
ghost use Rattle.blossom_arena.specs.Family.{is_vertex};
ghost use Rattle.alt_forest.specs.State.{IsExposed, IsTight, slack_of};
ghost use Rattle.alt_forest.specs.Searches.{IsSound, state_of};
ghost use Rattle.search_tables.specs.IncidentEdges.{IsIncidentEdge};
ghost use Rattle.alt_forest.specs.Counts.{exposed_count, is_exposed};
ghost use Rattle.search_start.specs.Starts.{IsBegun, CanPair, IsAbove, IsRise, JoinsExposed};
ghost use Rattle.search_start.specs.Sweeps.{IsFirstExposed};

use crate::exposed::{is_exposed, is_free};
use crate::freeing::set_ends;
use crate::moving::move_dual;
use crate::slacks::slack_at;
use alt_forest::{IncidentEdge, Search};
use base_types::{EdgeId, Steps, VertexId};
use blossom_arena::NodeId;
use std::sync::ledger::Ledger;

/// How far the dual of a vertex can rise, and an edge to an exposed vertex that is tight then, if
/// there is one.
#[derive(Clone, Copy)]
struct Rise {
    by: i64,
    mate: Option<EdgeId>,
}

/// The slack of an edge at a vertex, and the edge itself if it leads to an exposed vertex.
fn rise_by(search: &Search, v: VertexId, incident: &IncidentEdge) -> Rise
    requires sound { IsSound search.now }
    requires started { IsBegun (state_of search.now) search.now.start }
    requires vertex { is_vertex search.now.graph.vertices v ≡ true }
    requires incident { IsIncidentEdge search.now.graph v incident.now }
    ensures rise { IsRise (state_of search.now) v result.by result.mate }
    ensures slack { result.by ≡ slack_of (state_of search.now) incident.now.edge }
    ensures found { CanPair (state_of search.now) v result.by incident.now.edge
        → is_some result.mate ≡ true }
{
    let by = slack_at(search, v, incident);
    if is_free(search, incident.far) {
        return Rise {
            by,
            mate: Some(incident.edge),
        };
    }
    Rise { by, mate: None }
}

/// The lesser of two; of equal ones one with an edge, if either has one.
fn lesser(one: Rise, other: Rise) -> Rise
    ensures which { (result ≡ one) ⊎ (result ≡ other) }
    ensures one { result.by ≤ℤ one.by }
    ensures other { result.by ≤ℤ other.by }
    ensures one_mate { result.by ≡ one.by → is_some one.mate ≡ true → is_some result.mate ≡ true }
    ensures other_mate { result.by ≡ other.by → is_some other.mate ≡ true
        → is_some result.mate ≡ true }
{
    if one.by < other.by {
        return one;
    }
    if other.by < one.by {
        return other;
    }
    if one.mate.is_some() {
        return one;
    }
    other
}

/// Whether no other edge can have less slack, and this one leads to an exposed vertex.
fn is_last(rise: &Rise) -> bool
    ensures by { result ≡ true → rise.now.by ≡ pos 0 }
    ensures mate { result ≡ true → is_some rise.now.mate ≡ true }
{
    rise.by == 0 && rise.mate.is_some()
}

/// The least slack of an edge at a vertex, with an edge of this slack to an exposed vertex, if
/// there is one; 0 if the vertex has no edge. Each edge there counts as one look, though none is
/// read after a tight one to an exposed vertex.
fn least_rise<L: Ledger>(search: &Search, v: VertexId, steps: &mut Steps<L>) -> Rise
    requires sound { IsSound search.now }
    requires started { IsBegun (state_of search.now) search.now.start }
    requires vertex { is_vertex search.now.graph.vertices v ≡ true }
    ensures rise { IsRise (state_of search.now) v result.by result.mate }
    ensures none { edges_around search.now.graph v ≡ [] → result.by ≡ pos 0 }
    ensures above { (e : ℕ) → IsEdgeNumber search.now.graph e
        → touches (edge_of search.now.graph e) v ≡ true
        → IsAbove (state_of search.now) v result.by result.mate e }
    ensures inspections { steps.new ≡ steps.old + length (edges_around search.now.graph v) }
{
    let incidence = search.incidence.at(v, steps);
    if incidence.is_empty() {
        return Rise { by: 0, mate: None };
    }
    let mut least = rise_by(search, v, &incidence[0]);
    for place in 1..incidence.len() {
        if is_last(&least) {
            return least;
        }
        least = lesser(least, rise_by(search, v, &incidence[place]));
    }
    least
}

/// Raises the dual of a vertex, if it is exposed, by the least slack of its edges, and matches it
/// where an edge that is tight then leads to an exposed vertex. It looks at each of its edges once
/// at most.
fn start_at<L: Ledger>(search: &mut Search, v: VertexId, steps: &mut Steps<L>)
    requires sound { IsSound search.old }
    requires started { IsBegun (state_of search.old) search.old.start }
    requires vertex { is_vertex search.old.graph.vertices v ≡ true }
    ensures sound { IsSound search.new }
    ensures started { IsBegun (state_of search.new) search.new.start }
    ensures frame { search.new
        ≡ record search.old {
          arena = record search.old.arena { duals = search.new.arena.duals };
          mates = search.new.mates;
        } }
    ensures settled { (e : ℕ) → touches (edge_of search.old.graph e) v ≡ true
        → JoinsExposed (state_of search.new) e → ⊥ }
    ensures others { (e : ℕ) → touches (edge_of search.old.graph e) v ≡ false
        → JoinsExposed (state_of search.new) e → JoinsExposed (state_of search.old) e }
    ensures exposed { exposed_count (state_of search.new) ≤ exposed_count (state_of search.old) }
    ensures unchanged { is_exposed (state_of search.old) v ≡ false → search.new ≡ search.old }
    ensures exact { steps.new ≡ steps.old + (if is_exposed (state_of search.old) v
        then length (edges_around search.old.graph v) else 0) }
{
    if !is_exposed(search, NodeId::new(v.number())) {
        return;
    }
    let rise = least_rise(search, v, steps);
    move_dual(search, v, rise.by);
    if let Some(e) = rise.mate {
        pair(search, e);
    }
}

/// Matches the two ends of a tight edge, both of which are exposed.
pub(crate) fn pair(search: &mut Search, e: EdgeId)
    requires sound { IsSound search.old }
    requires started { IsBegun (state_of search.old) search.old.start }
    requires tight { IsTight (state_of search.old) e }
    requires u { IsExposed (state_of search.old) (edge_of search.old.graph e).u }
    requires v { IsExposed (state_of search.old) (edge_of search.old.graph e).v }
    ensures sound { IsSound search.new }
    ensures started { IsBegun (state_of search.new) search.new.start }
    ensures free { (a : ℕ) → IsExposed (state_of search.new) a → IsExposed (state_of search.old) a
        × (a ≢ (edge_of search.old.graph e).u) × (a ≢ (edge_of search.old.graph e).v) }
    ensures exposed { exposed_count (state_of search.new) ≤ exposed_count (state_of search.old) }
    ensures frame { search.new ≡ record search.old { mates = search.new.mates } }
{
    set_ends(search, e, &Some(e));
}

/// Raises the dual of each exposed vertex in turn as far as its edges allow, and matches it where
/// it can be.
pub fn start_all<L: Ledger>(search: &mut Search, steps: &mut Steps<L>)
    requires sound { IsSound search.old }
    requires started { IsBegun (state_of search.old) search.old.start }
    ensures sound { IsSound search.new }
    ensures started { IsBegun (state_of search.new) search.new.start }
    ensures frame { search.new
        ≡ record search.old {
          arena = record search.old.arena { duals = search.new.arena.duals };
          mates = search.new.mates;
        } }

    // No tight edge joins two exposed vertices afterwards, and the inspections at the first exposed
    // vertex at least are counted.
    ensures maximal { (e : ℕ) → JoinsExposed (state_of search.new) e → ⊥ }
    ensures exposed { exposed_count (state_of search.new) ≤ exposed_count (state_of search.old) }
    ensures inspections { steps.new ≤ steps.old + 2 * length search.old.graph.edges }
    ensures grows { steps.old ≤ steps.new }
    ensures made { (v : ℕ) → IsFirstExposed (state_of search.old) v
        → steps.old + length (edges_around search.old.graph v) ≤ steps.new }
{
    for place in 0..search.graph.vertices() {
        start_at(search, VertexId::new(place + 1), steps);
    }
}
