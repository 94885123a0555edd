ghost use Rattle.std.specs.Prelude.{◌≡◌, ◌≢◌, ◌+◌, ◌≤◌, ◌<◌, ℕ, ℤ, pos, ◌≤ℤ◌, true, false, None};
ghost use Rattle.std.specs.Prelude.{IfOk, length, vec_len};
ghost use Rattle.graph_theory.specs.Parts.{holds};
ghost use Rattle.graph_theory.specs.declared.limits.TheConstants.{NUMBER_LIMIT};
ghost use Rattle.blossom_arena.specs.Family.{is_vertex, names_of};
ghost use Rattle.search_heap.specs.declared.item.Item.TheVariants.{Blossom as OfNode};
ghost use Rattle.search_heap.specs.Moments.{no_moments, with_moment};
ghost use Rattle.alt_forest.specs.State.{IsOutermost};
ghost use Rattle.alt_forest.specs.Searches.{IsSound, state_of};
ghost use Rattle.alt_forest.specs.Entries.{IsBlossomEntered};
ghost use Rattle.search_keys.specs.Bounds.{HasPlaces, IsBounding, bound_of, hint_of, key_of};
ghost use Rattle.search_keys.specs.Keys.{IsGiven};
ghost use Rattle.search_keys.specs.Looks.{is_stale_at};

use crate::keys::key_to;
use alt_forest::{Label, Search};
use base_types::{EdgeId, OutOfMemory, VertexId};
use blossom_arena::NodeId;
use search_heap::RisingQueue;
use std::alloc::Global;

/// For each vertex of a search a key, the least that an edge from an outer vertex of another node
/// leaves of its doubled weight, or one that is lower, and the edge that gave it, its hint; 0 if
/// there is none. `moments` has by node when the keys of vertices come up, and when the duals of
/// inner blossoms come to 0; the vertices are the first nodes. `keys` and `hints` stand by vertex,
/// with place 0 unused. A key stays a bound through every step of a search; where one comes up and
/// its hint doesn't give it any more, the vertex is looked at anew.
#[derive(Drop)]
pub struct EventBounds {
    pub moments: RisingQueue,
    pub keys: Vec<i64>,
    pub hints: Vec<EdgeId>,
}

impl EventBounds {
    /// No keys and no moments, with places for so many vertices and nodes.
    ///
    /// # Errors
    ///
    /// `OutOfMemory` if an allocation fails.
    pub fn new(alloc: Global, vertices: u32, nodes: u32) -> Result<EventBounds, OutOfMemory>
        ensures moments { IfOk result (λ b. b.moments ≡ no_moments 0 nodes) }
        ensures hints { IfOk result (λ b. vec_len b.hints ≡ vertices + 1) }
        ensures keys { IfOk result (λ b. vec_len b.keys ≡ vertices + 1) }
        ensures none { IfOk result (λ b. (v : ℕ) → hint_of b v ≡ 0) }
    {
        let keys = vec![in alloc; 0i64; vertices as usize + 1]?;
        let hints = vec![in alloc; EdgeId::new(0); vertices as usize + 1]?;
        let moments = RisingQueue::new(alloc, nodes)?;
        Ok(EventBounds {
            moments,
            keys,
            hints,
        })
    }

    /// Takes all keys and moments away, in time linear in the nodes.
    pub fn clear(&mut self)
        ensures moments { self.new.moments
            ≡ no_moments (length self.old.moments.edges) (length self.old.moments.blossoms) }
        ensures none { (v : ℕ) → hint_of self.new v ≡ 0 }
        ensures hints { vec_len self.new.hints ≡ vec_len self.old.hints }
        ensures keys { self.new.keys ≡ self.old.keys }
    {
        self.moments.clear();
        self.hints.fill(EdgeId::new(0));
    }

    /// The edge that gave a vertex its key, or number 0, in constant time.
    pub fn hint(&self, v: VertexId) -> EdgeId
        requires { v < vec_len self.now.hints }
        ensures { result ≡ hint_of self.now v }
    {
        self.hints[v.number() as usize]
    }

    /// The key of a vertex, if it has one.
    pub(crate) fn key(&self, v: VertexId) -> Option<i64>
        requires hint { v < vec_len self.now.hints }
        requires key { v < vec_len self.now.keys }
        ensures { result ≡ key_of self.now v }
    {
        if self.hint(v).number() == 0 {
            return None;
        }
        Some(self.keys[v.number() as usize])
    }

    /// Gives a vertex this key by an edge, or none by number 0.
    pub(crate) fn give(&mut self, v: VertexId, key: i64, edge: EdgeId)
        requires hint { v < vec_len self.old.hints }
        requires key { v < vec_len self.old.keys }
        ensures { IsGiven self.old self.new v edge key }
    {
        self.keys[v.number() as usize] = key;
        self.hints[v.number() as usize] = edge;
    }

    /// Takes the moment of a node away.
    pub fn remove(&mut self, node: NodeId)
        requires low { 1 ≤ node }
        requires high { node ≤ length self.old.moments.blossoms }
        ensures { self.new ≡ record self.old
            { moments = with_moment self.old.moments (OfNode node) None } }
    {
        self.moments.remove(node);
    }

    /// Gives an inner blossom the moment at which its dual comes to 0; another node keeps what it
    /// has.
    pub fn enter_blossom(&mut self, search: &Search, node: NodeId)
        requires sound { IsSound search.now }
        requires low { pos 0 ≤ℤ search.now.clock }
        requires high { search.now.clock ≤ℤ NUMBER_LIMIT }
        requires outermost { IsOutermost (state_of search.now) node }
        requires places { HasPlaces search.now.graph self.old }
        ensures entered { holds (names_of search.now.arena.blossoms) node ≡ true
            → IsBlossomEntered (state_of search.now) search.now.clock self.new.moments node }
        ensures none { holds (names_of search.now.arena.blossoms) node ≡ false
            → self.new ≡ self.old }
        ensures others { (a : ℕ) → a ≢ node
            → bound_of self.new.moments a ≡ bound_of self.old.moments a }
        ensures frame { self.new ≡ record self.old { moments = self.new.moments } }
        ensures places { HasPlaces search.now.graph self.new }
    {
        if !search.arena.is_blossom(node) {
            return;
        }
        if search.label(node) == Label::Inner {
            let moment = search.clock + search.arena.dual(node);
            self.moments.set(node, moment);
        }
    }

    /// Whether the edge that gave a vertex its key doesn't give it any more. It reads that edge
    /// from the search's own copy, in constant time, and counts no step.
    pub fn is_stale(&self, search: &Search, v: VertexId) -> bool
        requires sound { IsSound search.now }
        requires vertex_keys { IsBounding search.now self.now }
        requires vertex { is_vertex search.now.graph.vertices v ≡ true }
        ensures { result ≡ is_stale_at search.now self.now v }
    {
        let edge = self.hint(v);
        if edge.number() == 0 {
            return false;
        }
        let (_, _, weight) = search.graph.edge(edge);
        let far = search.graph.other_end(edge, v);
        match key_to(search, search.arena.outermost(v), far, weight) {
            Some(key) => self.keys[v.number() as usize] < key,
            None => true,
        }
    }
}
