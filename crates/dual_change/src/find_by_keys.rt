ghost use Rattle.std.specs.Prelude.{◌≡◌, ◌≢◌, ◌↔◌, ◌+◌, ◌<◌, ◌≤◌, ℕ, ℤ, pos, ◌+ℤ◌, ◌≤ℤ◌, true};
ghost use Rattle.std.specs.Prelude.{Some};
ghost use Rattle.graph_theory.specs.declared.limits.TheConstants.{NUMBER_LIMIT};
ghost use Rattle.blossom_arena.specs.Family.{is_vertex, outermost};
ghost use Rattle.blossom_arena.specs.declared.label.Label.TheVariants.{Inner};
ghost use Rattle.search_heap.specs.Moments.{IsLeast, moment_of};
ghost use Rattle.alt_forest.specs.Searches.{HasShape, IsSound, label_at, state_of};
ghost use Rattle.alt_forest.specs.Counts.{IsPlanted};
ghost use Rattle.alt_forest.specs.TreeNodes.{HasTreeNodes};
ghost use Rattle.search_keys.specs.Bounds.{IsBounding, IsIdle, bound_of};
ghost use Rattle.search_keys.specs.Looks.{is_stale_at, stale_ends};
ghost use Rattle.dual_change.specs.declared.event.Next.TheVariants.{Stuck};
ghost use Rattle.dual_change.specs.Changes.{IsNext, IsNextWithin, IsWithin, StaysInRange, applied};
ghost use Rattle.dual_change.specs.Changes.{edge_looks};
ghost use Rattle.dual_change.specs.Candidates.{ComesAt, IsCandidate};
ghost use Rattle.dual_change.specs.Turns.{turns_left};

use crate::event::Next;
use crate::find_by_queue::{by_blossom, by_edge, comes};
use crate::raise::raise;
use alt_forest::{Item, Label, Search};
use base_types::{Steps, VertexId};
use blossom_arena::NodeId;
use search_keys::EventBounds;
use std::sync::ledger::Ledger;
use weighted_graph::Graph;

/// An item whose moment is least, and its moment. The queue may order its entries anew, and keeps
/// every moment.
fn earliest(bounds: &mut EventBounds) -> Option<(Item, i128)>
    ensures least { IsLeast bounds.old.moments result }
    ensures same { bounds.new ≡ bounds.old }
{
    let (item, moment) = bounds.moments.least()?;
    Some((item, i128::from(moment)))
}

/// Takes the moment of a node away on which nothing rests.
fn drop_moment(search: &Search, bounds: &mut EventBounds, node: NodeId)
    requires sound { IsSound search.now }
    requires vertex_keys { IsBounding search.now bounds.old }
    requires has { (m : ℤ) × (bound_of bounds.old.moments node ≡ Some m) }
    requires idle { IsIdle (state_of search.now) node }
    ensures vertex_keys { IsBounding search.now bounds.new }
    ensures left { turns_left search.now bounds.new < turns_left search.now bounds.old }
    ensures stale { stale_ends search.now bounds.new ≡ stale_ends search.now bounds.old }
{
    bounds.drop_idle(search, node);
}

/// Looks anew at a vertex whose key isn't given any more. Each look is one end of an edge less that
/// is to be looked at.
fn renew<L: Ledger>(search: &Search, bounds: &mut EventBounds, v: VertexId, steps: &mut Steps<L>)
    requires sound { IsSound search.now }
    requires vertex_keys { IsBounding search.now bounds.old }
    requires vertex { is_vertex search.now.graph.vertices v ≡ true }
    requires stale { is_stale_at search.now bounds.old v ≡ true }
    requires lies { label_at search.now.labels.items (outermost search.now.arena.blossoms v)
        ≢ Inner }
    ensures vertex_keys { IsBounding search.now bounds.new }
    ensures left { turns_left search.now bounds.new < turns_left search.now bounds.old }
    ensures count { steps.new + stale_ends search.now bounds.new
        ≡ steps.old + stale_ends search.now bounds.old }
    ensures inspections { steps.old ≤ steps.new }
{
    bounds.look_anew(search, v, steps);
}

/// Whether a vertex lies in an inner node.
fn lies_in_inner(search: &Search, v: VertexId) -> bool
    requires shape { HasShape search.now }
    requires vertex { is_vertex search.now.graph.vertices v ≡ true }
    ensures { (result ≡ true)
        ↔ (label_at search.now.labels.items (outermost search.now.arena.blossoms v) ≡ Inner) }
{
    search.label(search.arena.outermost(v)) == Label::Inner
}

/// What a vertex lets come at its moment: in a node that isn't inner this is the event of the edge
/// that gave it its key, if that edge gives it still. Where nothing comes a turn less is left.
fn by_vertex<L: Ledger>(
    search: &Search,
    bounds: &mut EventBounds,
    graph: &Graph,
    v: VertexId,
    moment: i128,
    steps: &mut Steps<L>,
) -> Next
    requires sound { IsSound search.now }
    requires vertex_keys { IsBounding search.now bounds.old }
    requires same_graph { graph.now ≡ search.now.graph }
    requires listed { HasTreeNodes search.now }
    requires all_rooted { IsPlanted (state_of search.now) }
    requires vertex { is_vertex search.now.graph.vertices v ≡ true }
    requires has { bound_of bounds.old.moments v ≡ Some moment }
    ensures candidate { IsCandidate (state_of search.now) result }
    ensures comes { ComesAt search.now.clock moment result }
    ensures vertex_keys { IsBounding search.now bounds.new }
    ensures left { result ≡ Stuck
        → turns_left search.now bounds.new < turns_left search.now bounds.old }
    ensures count { steps.new + stale_ends search.now bounds.new
        ≡ steps.old + stale_ends search.now bounds.old + edge_looks result }
    ensures look { steps.old + edge_looks result ≤ steps.new }
{
    if lies_in_inner(search, v) {
        drop_moment(search, bounds, NodeId::new(v.number()));
        return Next::Stuck;
    }
    if bounds.is_stale(search, v) {
        renew(search, bounds, v, steps);
        return Next::Stuck;
    }
    by_edge(search, graph, bounds.hint(v), moment, steps)
}

/// What a node that isn't a vertex lets come at its moment. Where nothing comes a turn less is
/// left.
fn by_inner(search: &Search, bounds: &mut EventBounds, node: NodeId) -> Next
    requires sound { IsSound search.now }
    requires vertex_keys { IsBounding search.now bounds.old }
    requires above { search.now.graph.vertices < node }
    requires has { (m : ℤ) × (bound_of bounds.old.moments node ≡ Some m) }
    ensures candidate { IsCandidate (state_of search.now) result }
    ensures comes { (m : ℤ) → bound_of bounds.old.moments node ≡ Some m
        → ComesAt search.now.clock m result }
    ensures vertex_keys { IsBounding search.now bounds.new }
    ensures left { result ≡ Stuck
        → turns_left search.now bounds.new < turns_left search.now bounds.old }
    ensures stale { stale_ends search.now bounds.new ≡ stale_ends search.now bounds.old }
    ensures inspections { edge_looks result ≡ 0 }
{
    let next = by_blossom(search, node);
    if !comes(&next) {
        drop_moment(search, bounds, node);
    }
    next
}

/// What a node lets come at its moment. Where nothing comes a turn less is left.
fn by_node<L: Ledger>(
    search: &Search,
    bounds: &mut EventBounds,
    graph: &Graph,
    node: NodeId,
    moment: i128,
    steps: &mut Steps<L>,
) -> Next
    requires sound { IsSound search.now }
    requires vertex_keys { IsBounding search.now bounds.old }
    requires same_graph { graph.now ≡ search.now.graph }
    requires listed { HasTreeNodes search.now }
    requires all_rooted { IsPlanted (state_of search.now) }
    requires has { bound_of bounds.old.moments node ≡ Some moment }
    ensures candidate { IsCandidate (state_of search.now) result }
    ensures comes { ComesAt search.now.clock moment result }
    ensures vertex_keys { IsBounding search.now bounds.new }
    ensures left { result ≡ Stuck
        → turns_left search.now bounds.new < turns_left search.now bounds.old }
    ensures count { steps.new + stale_ends search.now bounds.new
        ≡ steps.old + stale_ends search.now bounds.old + edge_looks result }
    ensures look { steps.old + edge_looks result ≤ steps.new }
{
    if node.number() > search.arena.vertex_count() {
        return by_inner(search, bounds, node);
    }
    by_vertex(
        search,
        bounds,
        graph,
        VertexId::new(node.number()),
        moment,
        steps,
    )
}

/// What an item lets come at its moment. Where nothing comes a turn less is left. No item is an
/// edge.
fn by_item<L: Ledger>(
    search: &Search,
    bounds: &mut EventBounds,
    graph: &Graph,
    item: &Item,
    moment: i128,
    steps: &mut Steps<L>,
) -> Next
    requires sound { IsSound search.now }
    requires vertex_keys { IsBounding search.now bounds.old }
    requires same_graph { graph.now ≡ search.now.graph }
    requires listed { HasTreeNodes search.now }
    requires all_rooted { IsPlanted (state_of search.now) }
    requires has { moment_of bounds.old.moments item.now ≡ Some moment }
    ensures candidate { IsCandidate (state_of search.now) result }
    ensures comes { ComesAt search.now.clock moment result }
    ensures vertex_keys { IsBounding search.now bounds.new }
    ensures left { result ≡ Stuck
        → turns_left search.now bounds.new < turns_left search.now bounds.old }
    ensures count { steps.new + stale_ends search.now bounds.new
        ≡ steps.old + stale_ends search.now bounds.old + edge_looks result }
    ensures look { steps.old + edge_looks result ≤ steps.new }
{
    match item {
        Item::Edge(_) => Next::Stuck,
        Item::Blossom(node) => by_node(search, bounds, graph, *node, moment, steps),
    }
}

/// What comes next, as `find` says it, by bounds of the moments (chapter 26): the node whose moment
/// is least comes first. An inner blossom is expanded then. The moment of a vertex of an inner node
/// is dropped; where the edge that gave another vertex its key gives it still, its event is what
/// comes; else the vertex is looked at anew. These looks pay for themselves, since the vertex has a
/// key that is given then. It takes no memory.
pub fn find_bounding<L: Ledger>(
    search: &Search,
    bounds: &mut EventBounds,
    graph: &Graph,
    steps: &mut Steps<L>,
) -> Next
    requires sound { IsSound search.now }
    requires vertex_keys { IsBounding search.now bounds.old }
    requires same_graph { graph.now ≡ search.now.graph }
    requires listed { HasTreeNodes search.now }
    requires all_rooted { IsPlanted (state_of search.now) }

    // The same next event, by the least key; rescans are paid for by keys that are outdated no
    // more.
    ensures found { IsNext (state_of search.now) result }
    ensures within { IsNextWithin (state_of search.now) result }
    ensures vertex_keys { IsBounding search.now bounds.new }

    // It counts the inspections of its edge and of its rescans exactly.
    ensures count { steps.new + stale_ends search.now bounds.new
        ≡ steps.old + stale_ends search.now bounds.old + edge_looks result }
    ensures look { steps.old + edge_looks result ≤ steps.new }
{
    while let Some((item, moment)) = earliest(bounds) {
        let next = by_item(search, bounds, graph, &item, moment, steps);
        if comes(&next) {
            return next;
        }
    }
    Next::Stuck
}

/// Changes the duals along the trees by d, as `apply` does, if bounds are kept: the clock goes on
/// by d, so each bound stays one. It counts one step.
pub fn apply_bounding<L: Ledger>(
    search: &mut Search,
    bounds: &EventBounds,
    d: i128,
    steps: &mut Steps<L>,
)
    requires sound { IsSound search.old }
    requires vertex_keys { IsBounding search.old bounds.now }
    requires listed { HasTreeNodes search.old }
    requires all_rooted { IsPlanted (state_of search.old) }
    requires low { pos 0 ≤ℤ d }
    requires within { IsWithin (state_of search.old) d }
    requires in_range { StaysInRange (state_of search.old) d }
    requires clock { (search.old.clock +ℤ d) ≤ℤ NUMBER_LIMIT }
    ensures state { state_of search.new ≡ applied (state_of search.old) d }
    ensures frame { search.new
        ≡ record search.old {
          arena = record search.old.arena { duals = search.new.arena.duals };
          clock = search.old.clock +ℤ d;
        } }
    ensures sound { IsSound search.new }
    ensures vertex_keys { IsBounding search.new bounds.now }

    // Makes no key outdated and counts one step.
    ensures stale { stale_ends search.new bounds.now ≡ stale_ends search.old bounds.now }
    ensures listed { HasTreeNodes search.new }
    ensures all_rooted { IsPlanted (state_of search.new) }
    ensures step { steps.new ≡ steps.old + 1 }
{
    let _ = bounds;
    raise(search, d, steps);
}
