ghost use Rattle.std.specs.Prelude.{◌≡◌, ◌≢◌, ◌+◌, ◌<◌, ◌≤◌, ◌∷◌, [], ℕ, ℤ, pos, ◌≤ℤ◌, true, false};
ghost use Rattle.std.specs.Prelude.{None, Some, All, slice_index_or, vec_len};
ghost use Rattle.graph_theory.specs.declared.limits.TheConstants.{NUMBER_LIMIT};
ghost use Rattle.blossom_arena.specs.Family.{is_vertex, outermost};
ghost use Rattle.search_heap.specs.declared.item.Item.TheVariants.{Blossom as OfNode};
ghost use Rattle.search_heap.specs.Moments.{IsItem, with_moment};
ghost use Rattle.search_tables.specs.IncidentEdges.{IsIncidentEdge};
ghost use Rattle.alt_forest.specs.Searches.{IsSound, state_of};
ghost use Rattle.alt_forest.specs.Entries.{ends_looked};
ghost use Rattle.search_keys.specs.Bounds.{HasHints, HasNearSums, HasPlaces, IsBoundEntered};
ghost use Rattle.search_keys.specs.Bounds.{IsBounding, IsBoundingBut, IsKeyed, bound_of, hint_of};
ghost use Rattle.search_keys.specs.Bounds.{key_from};
ghost use Rattle.search_keys.specs.Keys.{HasGiven, IsGiver, IsLowered};
ghost use Rattle.search_keys.specs.Looks.{ends_outer, is_stale_at};

use crate::bounds::EventBounds;
use crate::keys::{Giver, comes_up, giver_of, joins_trees, key_at};
use alt_forest::{IncidentEdge, Label, Search};
use base_types::{Steps, VertexId};
use blossom_arena::NodeId;
use search_heap::RisingQueue;
use std::sync::ledger::Ledger;

/// Gives a node this moment, and lets it come up before others of the same moment if it is early.
fn set_moment(moments: &mut RisingQueue, node: NodeId, moment: i64, early: bool)
    requires { IsItem moments.old (OfNode node) }
    ensures { moments.new ≡ with_moment moments.old (OfNode node) (Some moment) }
{
    if early {
        moments.set_early(node, moment);
        return;
    }
    moments.set(node, moment);
}

impl EventBounds {
    /// Whether the key of a vertex comes up before others of the same moment, if its node has this
    /// label.
    fn comes_early(&self, search: &Search, v: VertexId, node: NodeId, label: Label) -> bool
        requires sound { IsSound search.now }
        requires vertex { is_vertex search.now.graph.vertices v ≡ true }
        requires places { HasPlaces search.now.graph self.now }
        requires hints { HasHints search.now.graph self.now }
        requires hint { hint_of self.now v ≢ 0 }
    {
        if label != Label::Outer {
            return false;
        }
        let far = search.graph.other_end(self.hint(v), v);
        joins_trees(search, node, search.arena.outermost(far))
    }

    /// Whether a vertex has neither a key nor a moment, as most have that lie far from all trees.
    fn is_blank(&self, v: VertexId) -> bool
        requires { v < vec_len self.now.hints }
        ensures key { result ≡ true → hint_of self.now v ≡ 0 }
        ensures moment { result ≡ true → bound_of self.now.moments v ≡ None }
    {
        if self.hint(v).number() != 0 {
            return false;
        }
        let place = NodeId::new(v.number());
        self.moments.moment(place).is_none()
    }

    /// Enters a vertex with the moment at which its key comes up.
    pub(crate) fn enter(&mut self, search: &Search, v: VertexId)
        requires sound { IsSound search.now }
        requires low { pos 0 ≤ℤ search.now.clock }
        requires high { search.now.clock ≤ℤ NUMBER_LIMIT }
        requires near { HasNearSums (state_of search.now) search.now.clock }
        requires vertex { is_vertex search.now.graph.vertices v ≡ true }
        requires places { HasPlaces search.now.graph self.old }
        requires hints { HasHints search.now.graph self.old }
        ensures entered { IsBoundEntered (state_of search.now) search.now.clock self.new v }
        ensures others { (a : ℕ) → a ≢ v
            → bound_of self.new.moments a ≡ bound_of self.old.moments a }
        ensures frame { self.new ≡ record self.old { moments = self.new.moments } }
        ensures places { HasPlaces search.now.graph self.new }
    {
        if self.is_blank(v) {
            return;
        }
        let place = NodeId::new(v.number());
        let Some(key) = self.key(v) else {
            self.remove(place);
            return;
        };
        let node = search.arena.outermost(v);
        let label = search.label(node);
        let Some(moment) = comes_up(search, v, label, key) else {
            self.remove(place);
            return;
        };
        let early = self.comes_early(search, v, node, label);
        set_moment(&mut self.moments, place, moment, early);
    }

    /// Whether a vertex has no key, or a higher one than this.
    fn is_lower(&self, v: VertexId, key: i64) -> bool
        requires hint { v < vec_len self.now.hints }
        requires key { v < vec_len self.now.keys }
        ensures lower { result ≡ true → (k : ℤ) → IsKeyed self.now v k → key ≤ℤ k }
        ensures keyed { result ≢ true → IsKeyed self.now v key }
    {
        match self.key(v) {
            Some(least) => key < least,
            None => true,
        }
    }

    /// Gives the key of one edge to its other end, if that has none that is as low and lies in
    /// another node.
    fn lower(&mut self, search: &Search, giver: &Giver, incident: &IncidentEdge)
        requires sound { IsSound search.now }
        requires low { pos 0 ≤ℤ search.now.clock }
        requires high { search.now.clock ≤ℤ NUMBER_LIMIT }
        requires near { HasNearSums (state_of search.now) search.now.clock }
        requires giver { IsGiver (state_of search.now) search.now.clock giver.now }
        requires incident { IsIncidentEdge search.now.graph giver.now.vertex incident.now }
        requires places { HasPlaces search.now.graph self.old }
        requires hints { HasHints search.now.graph self.old }
        ensures lowered { IsLowered search.now self.old self.new }
        ensures keyed { outermost search.now.arena.blossoms incident.now.far ≢ giver.now.node
            → IsKeyed self.new incident.now.far
            (key_from (state_of search.now) search.now.clock giver.now.vertex incident.now.weight) }
    {
        let far = incident.far;
        let key = key_at(search, giver.reach, incident.weight);
        if !self.is_lower(far, key) {
            return;
        }
        if search.arena.outermost(far).number() == giver.node.number() {
            return;
        }
        self.give(far, key, incident.edge);
        self.enter(search, far);
    }

    /// Gives the keys of these edges, which are those at the vertex that gives them.
    fn lower_around(&mut self, search: &Search, giver: &Giver, edges: &[IncidentEdge])
        requires sound { IsSound search.now }
        requires low { pos 0 ≤ℤ search.now.clock }
        requires high { search.now.clock ≤ℤ NUMBER_LIMIT }
        requires near { HasNearSums (state_of search.now) search.now.clock }
        requires giver { IsGiver (state_of search.now) search.now.clock giver.now }
        requires edges { edges.now ≡ slice_index_or search.now.incidence giver.now.vertex [] }
        requires places { HasPlaces search.now.graph self.old }
        requires hints { HasHints search.now.graph self.old }
        ensures lowered { IsLowered search.now self.old self.new }
        ensures given { HasGiven search.now self.new giver.now.vertex }
    {
        for incident in edges {
            self.lower(search, giver, incident);
        }
    }

    /// Gives the keys of the edges at a vertex, if that lies in an outer node.
    fn give_around<L: Ledger>(&mut self, search: &Search, v: VertexId, steps: &mut Steps<L>)
        requires sound { IsSound search.now }
        requires low { pos 0 ≤ℤ search.now.clock }
        requires high { search.now.clock ≤ℤ NUMBER_LIMIT }
        requires near { HasNearSums (state_of search.now) search.now.clock }
        requires vertex { is_vertex search.now.graph.vertices v ≡ true }
        requires places { HasPlaces search.now.graph self.old }
        requires hints { HasHints search.now.graph self.old }
        ensures lowered { IsLowered search.now self.old self.new }
        ensures given { HasGiven search.now self.new v }
        ensures inspections { steps.new ≡ steps.old + ends_outer (state_of search.now) (v ∷ []) }
    {
        let node = search.arena.outermost(v);
        if search.label(node) != Label::Outer {
            return;
        }
        let giver = giver_of(search, v, node);
        let edges = search.incidence.at(v, steps);
        self.lower_around(search, &giver, edges);
    }

    /// Looks at the edges at those of the vertices that a search has noted which lie in outer
    /// nodes: each gives its key to its other end, if that lies in another node and has none that
    /// is as low (chapter 26). Each noted vertex is entered with the moment at which its own key
    /// comes up. Each end of an edge that is looked at counts one step. It takes no memory.
    pub fn enter_scanned<L: Ledger>(&mut self, search: &Search, steps: &mut Steps<L>)
        requires sound { IsSound search.now }
        requires vertices { All (λ v. is_vertex search.now.graph.vertices v ≡ true)
            search.now.scanned.items }
        requires vertex_keys { IsBoundingBut search.now self.old search.now.scanned.items }

        // The event time of an edge is never before that at which the key of one of its ends
        // expires (`bounding`); entering counts one inspection for each end at the scanned vertices
        // of outer nodes.
        ensures vertex_keys { IsBounding search.now self.new }
        ensures edge_ends { steps.new ≡ steps.old
            + ends_outer (state_of search.now) search.now.scanned.items }

        // It makes no key outdated that wasn't.
        ensures inspections { steps.new ≤ steps.old
            + ends_looked (state_of search.now) search.now.scanned.items }
        ensures known_keys { (v : ℕ) → is_vertex search.now.graph.vertices v ≡ true
            → is_stale_at search.now self.old v ≡ false
            → is_stale_at search.now self.new v ≡ false }
    {
        for place in 0..search.scanned.len() {
            let v = search.scanned[place];
            self.give_around(search, v, steps);
            self.enter(search, v);
        }
    }
}
