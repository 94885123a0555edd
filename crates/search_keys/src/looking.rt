ghost use Rattle.std.specs.Prelude.{◌≡◌, ◌≢◌, ◌+◌, ◌≤◌, ℕ, true, false, None, length};
ghost use Rattle.graph_theory.specs.Graph.{edges_around};
ghost use Rattle.blossom_arena.specs.Family.{is_vertex};
ghost use Rattle.alt_forest.specs.Searches.{IsSound, state_of};
ghost use Rattle.search_keys.specs.Bounds.{IsBounding, IsIdle, bound_of, hint_of, key_of};
ghost use Rattle.search_keys.specs.Looks.{is_stale_at};

use crate::bounds::EventBounds;
use crate::keys::least_key;
use alt_forest::Search;
use base_types::{Steps, VertexId};
use blossom_arena::NodeId;
use std::sync::ledger::Ledger;

impl EventBounds {
    /// Looks anew at each edge at a vertex: it gets the least key that an outer vertex of another
    /// node gives it, and that edge, or none, and the moment at which that comes up. Each edge at
    /// the vertex counts one step.
    pub fn look_anew<L: Ledger>(&mut self, search: &Search, v: VertexId, steps: &mut Steps<L>)
        requires sound { IsSound search.now }
        requires vertex_keys { IsBounding search.now self.old }
        requires vertex { is_vertex search.now.graph.vertices v ≡ true }
        ensures vertex_keys { IsBounding search.now self.new }

        // A rescan gives a vertex its exact key; each is paid for by a key that is outdated no
        // more.
        ensures current { is_stale_at search.now self.new v ≡ false }
        ensures moments { (a : ℕ) → a ≢ v
            → bound_of self.new.moments a ≡ bound_of self.old.moments a }
        ensures keys { (a : ℕ) → a ≢ v → key_of self.new a ≡ key_of self.old a }
        ensures hints { (a : ℕ) → a ≢ v → hint_of self.new a ≡ hint_of self.old a }
        ensures inspections { steps.new ≡ steps.old + length (edges_around search.now.graph v) }
    {
        let edges = search.incidence.at(v, steps);
        let least = least_key(search, v, search.arena.outermost(v), edges);
        self.give(v, least.key, least.edge);
        self.enter(search, v);
    }

    /// Takes away the moment of a node that has no use: a vertex of an inner node, at whose edges
    /// no event comes, or a blossom that isn't an inner node now.
    pub fn drop_idle(&mut self, search: &Search, node: NodeId)
        requires sound { IsSound search.now }
        requires vertex_keys { IsBounding search.now self.old }
        requires low { 1 ≤ node }
        requires high { node ≤ length self.old.moments.blossoms }
        requires idle { IsIdle (state_of search.now) node }
        ensures vertex_keys { IsBounding search.now self.new }
        ensures none { bound_of self.new.moments node ≡ None }
        ensures others { (a : ℕ) → a ≢ node
            → bound_of self.new.moments a ≡ bound_of self.old.moments a }
        ensures frame { self.new ≡ record self.old { moments = self.new.moments } }
    {
        let _ = search;
        self.remove(node);
    }
}
