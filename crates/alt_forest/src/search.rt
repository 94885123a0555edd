ghost use Rattle.std.specs.Prelude.{◌≡◌, ◌≢◌, ◌⊎◌, ◌↔◌, ◌+◌, ◌≤◌, ℕ, ℤ, pos, true, None, [], IfOk};
ghost use Rattle.blossom_arena.specs.Family.{is_vertex, dual_at, empty_family, members_of};
ghost use Rattle.blossom_arena.specs.declared.label.Label.TheVariants.{Outer, Out};
ghost use Rattle.alt_forest.specs.declared.weights.Weights.TheVariants.{Zero};
ghost use Rattle.alt_forest.specs.Searches.{IsSearchGraph, HasShape, IsSound, IsStart, state_of};
ghost use Rattle.alt_forest.specs.Searches.{label_at, edge_in, put};
ghost use Rattle.alt_forest.specs.State.{IsOutermost, IsExposed};
ghost use Rattle.alt_forest.specs.Trees.{IsRoot};
ghost use Rattle.alt_forest.specs.Counts.{exposed_count, tree_count, is_outside};
ghost use Rattle.alt_forest.specs.Entries.{IsQueued, ends_around, entry_count, looks_left};
ghost use Rattle.alt_forest.specs.Entries.{outside_ends};
ghost use Rattle.alt_forest.specs.TreeNodes.{HasTreeNodes};

use crate::starts::{SearchLists, SearchParts, copied, give_duals, search_parts};
use crate::tables::{label_of, set_label, wipe_edges, wipe_labels};
use crate::tree_lists::vertex_within;
use crate::weights::Weights;
use base_types::{EdgeId, OutOfMemory, Steps, VertexId};
use blossom_arena::{Arena, Label, Link, NodeId};
use search_heap::EdgeQueue;
use search_tables::{IncidentEdges, TreeNodes};
use std::alloc::Global;
use std::sync::ledger::Ledger;
use weighted_graph::Graph;

/// A search over one graph: blossoms with their duals, a matching of the outermost nodes, and
/// trees. A step of a search is a look at an edge of the graph that it was made for, also one from
/// a vertex by `incidence`; an event (a grow, a shrink, an expand, an augment); or a change of the
/// duals. The ends of its mates and parents are read from `graph`, which counts none. `labels`,
/// `parents` and `mates` stand by node number, with place 0 unused; a parent or a mate is given by
/// the edge to it. `circuit` has room for n links. `graph` is the graph that the search was made
/// for, or a copy of it, and `incidence` its edges by vertex, which no call changes. `queue` has
/// the moment of each event that can come, by `clock`, the sum of the changes of duals since no
/// tree stood. `tree_nodes` lists the nodes in trees by tree, each with a vertex of the root of its
/// tree, and `scanned` has the vertices whose edges are looked at after a step.
#[derive(Drop)]
pub struct Search {
    pub arena: Arena,
    pub labels: Vec<Label>,
    pub parents: Vec<Option<EdgeId>>,
    pub mates: Vec<Option<EdgeId>>,
    pub circuit: Vec<Link>,
    pub graph: Graph,
    pub weights: Weights,
    pub start: i64,
    pub queue: EdgeQueue,
    pub incidence: IncidentEdges,
    pub clock: i64,
    pub tree_nodes: TreeNodes,
    pub scanned: Vec<VertexId>,
}

/// Labels an exposed node as the root of a tree.
fn label_root(search: &mut Search, v: NodeId)
    requires sound { IsSound search.old }
    requires exposed { IsExposed (state_of search.old) v }
    requires out { label_at search.old.labels.items v ≡ Out }
    ensures labels { label_at search.new.labels.items
        ≡ put (label_at search.old.labels.items) v Outer }
    ensures frame { search.new ≡ record search.old { labels = search.new.labels } }
    ensures roots { (a : ℕ) → IsRoot (state_of search.new) a
        ↔ (IsRoot (state_of search.old) a ⊎ (a ≡ v)) }
    ensures trees { tree_count (state_of search.new) ≡ tree_count (state_of search.old) + 1 }
    ensures exposed { exposed_count (state_of search.new) ≡ exposed_count (state_of search.old) }
    ensures sound { IsSound search.new }
{
    set_label(&mut search.labels, v, Label::Outer);
}

impl Search {
    /// A search over a graph, with no blossom, no mate and no tree, all duals 0 and weights that
    /// count as 0. All memory that its calls want is taken here. Its one pass over the edges, which
    /// copies the graph, counts no step.
    pub fn new(alloc: Global, graph: &Graph) -> Result<Search, OutOfMemory>
        requires graph { IsSearchGraph graph.now }

        // A search has nested blossoms on rings of tight edges, slacks and blossom duals that are
        // nonnegative, mates that pair outermost nodes by tight edges, and alternating trees; each
        // call keeps that (`sound`).
        ensures shape { IfOk result HasShape }
        ensures graph { IfOk result (λ s. s.graph ≡ graph.now) }
        ensures arena { IfOk result (λ s. s.arena ≡ empty_family graph.now.vertices) }
        ensures labels { IfOk result (λ s. (a : ℕ) → label_at s.labels.items a ≡ Out) }
        ensures parents { IfOk result (λ s. (a : ℕ) → edge_in s.parents.items a ≡ None) }
        ensures mates { IfOk result (λ s. (a : ℕ) → edge_in s.mates.items a ≡ None) }
        ensures weights { IfOk result (λ s. s.weights ≡ Zero) }
        ensures start { IfOk result (λ s. s.start ≡ pos 0) }
        ensures clock { IfOk result (λ s. s.clock ≡ pos 0) }
        ensures sound { IfOk result IsSound }
        ensures event_times { IfOk result IsQueued }
        ensures listed { IfOk result HasTreeNodes }
    {
        let copy = copied(alloc, graph)?;
        Search::of(alloc, copy)
    }

    /// The same search over a graph that it takes and doesn't copy.
    pub fn of(alloc: Global, graph: Graph) -> Result<Search, OutOfMemory>
        requires graph { IsSearchGraph graph }

        // A search over a graph that it owns begins as one over a copy.
        ensures shape { IfOk result HasShape }
        ensures graph { IfOk result (λ s. s.graph ≡ graph) }
        ensures arena { IfOk result (λ s. s.arena ≡ empty_family graph.vertices) }
        ensures labels { IfOk result (λ s. (a : ℕ) → label_at s.labels.items a ≡ Out) }
        ensures parents { IfOk result (λ s. (a : ℕ) → edge_in s.parents.items a ≡ None) }
        ensures mates { IfOk result (λ s. (a : ℕ) → edge_in s.mates.items a ≡ None) }
        ensures weights { IfOk result (λ s. s.weights ≡ Zero) }
        ensures start { IfOk result (λ s. s.start ≡ pos 0) }
        ensures clock { IfOk result (λ s. s.clock ≡ pos 0) }
        ensures sound { IfOk result IsSound }
        ensures event_times { IfOk result IsQueued }
        ensures listed { IfOk result HasTreeNodes }
    {
        let arena = Arena::new(alloc, graph.vertices())?;
        let SearchParts { kept, queue, lists } = search_parts(alloc, graph, arena.node_limit())?;
        let SearchLists {
            nodes,
            room,
            tree_nodes,
        } = lists;
        Ok(Search {
            arena,
            labels: nodes.labels,
            parents: nodes.parents,
            mates: nodes.mates,
            circuit: room.circuit,
            graph: kept.graph,
            weights: Weights::Zero,
            start: 0,
            queue,
            incidence: kept.incidence,
            clock: 0,
            tree_nodes,
            scanned: room.scanned,
        })
    }

    /// Begins a pass over the graph anew, as `begin` does. The graph is the one that the search was
    /// made for. It takes no memory.
    pub fn reset(&mut self, graph: &Graph, weights: Weights, start: i64)
        requires shape { HasShape self.old }
        requires graph { graph.now ≡ self.old.graph }
        requires start { IsStart graph.now weights start }
        ensures blossoms { self.new.arena.blossoms ≡ [] }
        ensures duals { (v : ℕ) → is_vertex graph.now.vertices v ≡ true
            → dual_at self.new.arena.duals v ≡ start }
        ensures labels { (a : ℕ) → label_at self.new.labels.items a ≡ Out }
        ensures parents { (a : ℕ) → edge_in self.new.parents.items a ≡ None }
        ensures mates { (a : ℕ) → edge_in self.new.mates.items a ≡ None }
        ensures weights { self.new.weights ≡ weights }
        ensures start { self.new.start ≡ start }
        ensures graph { self.new.graph ≡ self.old.graph }
        ensures circuit { self.new.circuit ≡ self.old.circuit }
        ensures trees { tree_count (state_of self.new) ≡ 0 }
        ensures exposed { exposed_count (state_of self.new) ≡ self.new.graph.vertices }
        ensures incidence { self.new.incidence ≡ self.old.incidence }
        ensures clock { self.new.clock ≡ pos 0 }
        ensures sound { IsSound self.new }
        ensures event_times { IsQueued self.new }
        ensures listed { HasTreeNodes self.new }
    {
        let _ = graph;
        self.begin(weights, start);
    }

    /// Begins a pass over the graph anew: no blossom, no mate, no tree, and each vertex has the
    /// dual `start`, which is 0 if weights count as 0 and else at most the weight of each edge
    /// (chapter 26). It takes no memory.
    pub fn begin(&mut self, weights: Weights, start: i64)
        requires shape { HasShape self.old }
        requires start { IsStart self.old.graph weights start }
        ensures blossoms { self.new.arena.blossoms ≡ [] }
        ensures duals { (v : ℕ) → is_vertex self.old.graph.vertices v ≡ true
            → dual_at self.new.arena.duals v ≡ start }
        ensures labels { (a : ℕ) → label_at self.new.labels.items a ≡ Out }
        ensures parents { (a : ℕ) → edge_in self.new.parents.items a ≡ None }
        ensures mates { (a : ℕ) → edge_in self.new.mates.items a ≡ None }
        ensures weights { self.new.weights ≡ weights }
        ensures start { self.new.start ≡ start }
        ensures graph { self.new.graph ≡ self.old.graph }
        ensures circuit { self.new.circuit ≡ self.old.circuit }
        ensures trees { tree_count (state_of self.new) ≡ 0 }
        ensures exposed { exposed_count (state_of self.new) ≡ self.new.graph.vertices }
        ensures incidence { self.new.incidence ≡ self.old.incidence }
        ensures clock { self.new.clock ≡ pos 0 }
        ensures sound { IsSound self.new }
        ensures event_times { IsQueued self.new }
        ensures listed { HasTreeNodes self.new }
    {
        self.arena.clear();
        give_duals(&mut self.arena, start);
        wipe_labels(&mut self.labels);
        wipe_edges(&mut self.parents);
        wipe_edges(&mut self.mates);
        self.weights = weights;
        self.start = start;
        self.queue.clear();
        self.clock = 0;
        self.remove_trees();
    }

    /// Makes an exposed node the root of a tree of its own (chapter 24), and notes its vertices,
    /// and no others, as those whose edges are to be looked at. It takes no memory.
    pub fn make_root(&mut self, v: NodeId)
        requires sound { IsSound self.old }
        requires listed { HasTreeNodes self.old }
        requires exposed { IsExposed (state_of self.old) v }
        requires out { label_at self.old.labels.items v ≡ Out }
        ensures labels { label_at self.new.labels.items
            ≡ put (label_at self.old.labels.items) v Outer }
        ensures scanned { self.new.scanned.items ≡ members_of self.old.arena.blossoms v }
        ensures frame { self.new ≡ record self.old {
          arena = record self.old.arena { motions = self.new.arena.motions };
          labels = self.new.labels;
          tree_nodes = self.new.tree_nodes;
          scanned = self.new.scanned;
        } }
        ensures roots { (a : ℕ) → IsRoot (state_of self.new) a
            ↔ (IsRoot (state_of self.old) a ⊎ (a ≡ v)) }
        ensures trees { tree_count (state_of self.new) ≡ tree_count (state_of self.old) + 1 }
        ensures exposed { exposed_count (state_of self.new) ≡ exposed_count (state_of self.old) }
        ensures sound { IsSound self.new }
        ensures listed { HasTreeNodes self.new }
        ensures inside { (w : ℕ) → is_outside (state_of self.new) w ≡ true
            → is_outside (state_of self.old) w ≡ true }
        ensures ends { outside_ends (state_of self.new)
            + ends_around self.old.graph self.new.scanned.items ≤ outside_ends (state_of self.old) }
    {
        label_root(self, v);
        let tree_id = vertex_within(&self.arena, v);
        self.stand(v, tree_id);
        self.scanned.clear();
        self.scan(v);
    }

    /// Makes an exposed node the root of a tree of its own (chapter 24), and looks at the edges at
    /// its vertices, which get their moments. It takes no memory.
    pub fn plant<L: Ledger>(&mut self, graph: &Graph, v: NodeId, steps: &mut Steps<L>)
        requires sound { IsSound self.old }
        requires event_times { IsQueued self.old }
        requires listed { HasTreeNodes self.old }
        requires same_graph { graph.now ≡ self.old.graph }
        requires exposed { IsExposed (state_of self.old) v }
        requires out { label_at self.old.labels.items v ≡ Out }

        // Makes an exposed node the root of a tree of its own.
        ensures labels { label_at self.new.labels.items
            ≡ put (label_at self.old.labels.items) v Outer }
        ensures frame { self.new ≡ record self.old {
          arena = record self.old.arena { motions = self.new.arena.motions };
          labels = self.new.labels;
          queue = self.new.queue;
          tree_nodes = self.new.tree_nodes;
          scanned = self.new.scanned;
        } }
        ensures roots { (a : ℕ) → IsRoot (state_of self.new) a
            ↔ (IsRoot (state_of self.old) a ⊎ (a ≡ v)) }
        ensures trees { tree_count (state_of self.new) ≡ tree_count (state_of self.old) + 1 }
        ensures exposed { exposed_count (state_of self.new) ≡ exposed_count (state_of self.old) }
        ensures sound { IsSound self.new }
        ensures event_times { IsQueued self.new }
        ensures listed { HasTreeNodes self.new }
        ensures inside { (w : ℕ) → is_outside (state_of self.new) w ≡ true
            → is_outside (state_of self.old) w ≡ true }

        // It inspects no more edge ends than there are at the vertices that come into an outer
        // node.
        ensures inspections { steps.new + looks_left (state_of self.new)
            ≤ steps.old + looks_left (state_of self.old) }
        ensures edge_ends { steps.new + outside_ends (state_of self.new)
            ≤ steps.old + outside_ends (state_of self.old) }
        ensures count { entry_count self.new.queue + steps.old ≤ entry_count self.old.queue
            + steps.new }
    {
        self.make_root(v);
        self.enter_scanned(graph, steps);
    }

    /// How a node stands in the trees, in constant time. Any number may be asked for; what it says
    /// of a node that isn't outermost means nothing.
    pub fn label(&self, node: NodeId) -> Label
        ensures label { result ≡ label_at self.now.labels.items node }
    {
        label_of(&self.labels, node.number())
    }

    /// Labels all nodes `Out`: no tree is left. Blossoms, duals and mates stay.
    pub fn clear(&mut self)
        requires sound { IsSound self.old }
        ensures labels { (a : ℕ) → label_at self.new.labels.items a ≡ Out }
        ensures frame { self.new ≡ record self.old {
          arena = record self.old.arena { motions = self.new.arena.motions };
          labels = self.new.labels;
          queue = self.new.queue;
          clock = pos 0;
          tree_nodes = self.new.tree_nodes;
        } }
        ensures trees { tree_count (state_of self.new) ≡ 0 }
        ensures exposed { exposed_count (state_of self.new) ≡ exposed_count (state_of self.old) }
        ensures sound { IsSound self.new }
        ensures event_times { IsQueued self.new }
        ensures listed { HasTreeNodes self.new }
    {
        wipe_labels(&mut self.labels);
        self.queue.clear();
        self.clock = 0;
        self.remove_trees();
    }
}
