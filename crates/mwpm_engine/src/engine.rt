ghost use Rattle.std.specs.Prelude.{◌≡◌, ◌<◌, ◌≤◌, ◌+◌, ◌*◌, ℕ, ℤ, true, Some, None, IfOk, length};
ghost use Rattle.std.specs.Prelude.{slice_index_or, pos};
ghost use Rattle.graph_theory.specs.Graph.{IsGraph, HasNoLoop};
ghost use Rattle.graph_theory.specs.Parts.{holds};
ghost use Rattle.graph_theory.specs.Duals.{dual_of, set_at};
ghost use Rattle.graph_theory.specs.Limits.{IsWithinLimits};
ghost use Rattle.gallai_theory.specs.Decomposition.{IsEvenPath};
ghost use Rattle.blossom_arena.specs.Family.{outermost};
ghost use Rattle.alt_forest.specs.Searches.{HasShape, edge_in, label_at};
ghost use Rattle.mwpm_engine.specs.Solutions.{Solution, Ends, HasPerfect, IsSolved};
ghost use Rattle.mwpm_engine.specs.Solutions.{AllWeigh, close_steps, most_steps};
ghost use Rattle.mwpm_engine.specs.Solutions.{found_mate, mate_at, matching_of, size_of_graph};
ghost use Rattle.mwpm_engine.specs.Solving.{number_or_none};
ghost use Rattle.mwpm_engine.specs.declared.outcome.Outcome.TheVariants.{Matched, Barrier};

use crate::even_paths::alternate;
use crate::outcome::Outcome;
use crate::solving::{solve, solve_matched};
use alt_forest::{Label, Search, room_for};
use augment::mates_missing;
use base_types::{EdgeId, OutOfMemory, Steps, VertexId};
use blossom_arena::{Members, NodeId};
use search_keys::EventBounds;
use search_start::{edge_at, list_sets};
use std::alloc::Global;
use std::marker::Model;
use std::sync::ledger::Ledger;
use weighted_graph::Graph;

/// Edmonds' search for a perfect matching of one graph (chapters 24 and 26): it is made, run once,
/// and then read. `sets` are the blossoms of dual at least 1. Contracts see what the run left.
#[derive(Drop)]
pub struct Engine {
    alloc: Global,
    search: Search,
    bounds: EventBounds,
    outcome: Option<Outcome>,
    sets: Vec<NodeId>,
}

impl Model for Engine {
    ghost use Rattle.mwpm_engine.specs.Solutions.{Solution};
    ghost use Rattle.mwpm_engine.specs.Kept.{seen, IsKept};

    ghost Value = { Solution };

    ghost view = { seen };

    ghost invariant = { IsKept };
}

/// The number of the edge that is kept for a node, or 0 if there is none.
fn edge_or_none(edges: &[Option<EdgeId>], node: u32) -> EdgeId
    requires { node < length edges.now }
    ensures { result ≡ number_or_none (edge_in edges.now node) }
{
    match edges[node as usize] {
        Some(e) => e,
        None => EdgeId::new(0),
    }
}

/// The label of the outermost node that holds a vertex.
fn label_of(search: &Search, v: VertexId) -> Label
    requires shape { HasShape search.now }
    requires low { 1 ≤ v }
    requires high { v ≤ search.now.graph.vertices }
    ensures { result ≡ label_at search.now.labels.items (outermost search.now.arena.blossoms v) }
{
    search.label(search.arena.outermost(v))
}

impl Engine {
    /// An engine for a graph within the limits and without loops, which it copies. All memory that
    /// a run needs is taken here. It takes time and memory linear in the vertices and edges.
    ///
    /// # Errors
    ///
    /// `OutOfMemory` if an allocation fails.
    pub fn new(alloc: Global, graph: &Graph) -> Result<Engine, OutOfMemory>
        requires limits { IsWithinLimits (size_of_graph graph.now) }
        requires loopless { HasNoLoop graph.now }
        ensures graph { IfOk result (λ s. s.graph ≡ graph.now) }
        ensures not_run { IfOk result (λ s. s.outcome ≡ None) }
    {
        let vertices = graph.vertices();
        let search = Search::new(alloc, graph)?;
        Engine::around(alloc, search, vertices)
    }

    /// An engine for a graph within the limits and without loops, which it takes and doesn't copy:
    /// `graph` reads it. All else is as `new` makes it.
    ///
    /// # Errors
    ///
    /// `OutOfMemory` if an allocation fails.
    pub fn of(alloc: Global, graph: Graph) -> Result<Engine, OutOfMemory>
        requires limits { IsWithinLimits (size_of_graph graph) }
        requires loopless { HasNoLoop graph }

        // An engine for a graph that it takes.
        ensures graph { IfOk result (λ s. s.graph ≡ graph) }
        ensures not_run { IfOk result (λ s. s.outcome ≡ None) }
    {
        let vertices = graph.vertices();
        let search = Search::of(alloc, graph)?;
        Engine::around(alloc, search, vertices)
    }

    /// An engine around a search over so many vertices that has just been made.
    fn around(alloc: Global, search: Search, vertices: u32) -> Result<Engine, OutOfMemory>
        requires shape { HasShape search }
        requires vertices { vertices ≡ search.graph.vertices }
        ensures graph { IfOk result (λ s. s.graph ≡ search.graph) }
        ensures not_run { IfOk result (λ s. s.outcome ≡ None) }
    {
        let blossoms = vertices.saturating_sub(1) / 2;
        let sets = room_for(alloc, blossoms as usize)?;
        let bounds = EventBounds::new(alloc, vertices, vertices + blossoms)?;
        Ok(Engine {
            alloc,
            search,
            bounds,
            outcome: None,
            sets,
        })
    }

    /// The graph that the engine was made for.
    pub fn graph(&self) -> &Graph
        // The graph that the engine was made for.
        ensures graph { result.now ≡ self.now.graph }
        ensures is_graph { IsGraph self.now.graph }
        ensures loopless { HasNoLoop self.now.graph }
    {
        &self.search.graph
    }

    /// Runs the search (chapters 24 and 26): it ends with a perfect matching of least weight or
    /// with a barrier. `steps` counts its looks at edges, its changes of duals and its events: with
    /// n vertices and m edges at most (n + 1)(3n + 2)(m + 1), and also at most 2m(n + 1)^2 + (n +
    /// 1)(3n + 2). There are two passes, or one: if it ends stuck, and if all edges weigh the same,
    /// so that any perfect matching weighs the least. A pass makes every exposed node the root of a
    /// tree and augments at most n / 2 times; an augment takes the two trees away that it joins,
    /// and all others stay. With no augment a pass counts at most m(n + 1) + 3n steps. An augment
    /// adds at most 2m(n + 1) + (9n + 3) / 2 to that, or 3 if it leaves no exposed node. The duals
    /// and mates that a pass starts with take four looks at each edge, or ten with weights and at
    /// least ten vertices; after the first pass each edge is looked at once for its weight, at
    /// most, and once more before a second. It takes no memory.
    pub fn solve<L: Ledger>(&mut self, steps: &mut Steps<L>) -> Outcome
        requires not_run { self.old.outcome ≡ None }
        ensures outcome { self.new.outcome ≡ Some result }
        ensures graph { self.new.graph ≡ self.old.graph }

        // A perfect matching of minimum weight with duals that prove it (none past (2n + 1) *
        // 10^12) on different sets, nested or disjoint, of at most (n^2 + 3n) / 4 members in all;
        // or a barrier with a maximum matching.
        ensures ends { Ends self.new result }

        // At most (n + 1)(3n + 2)(m + 1) steps.
        ensures steps { steps.new ≤ steps.old + most_steps (size_of_graph self.old.graph) }

        // Also at most 2m(n + 1)^2 + (n + 1)(3n + 2) steps, about two thirds of that on larger
        // graphs.
        ensures close_bound { steps.new ≤ steps.old + close_steps (size_of_graph self.old.graph) }

        // At most half of that if all edges weigh the same and a perfect matching is found.
        ensures alike { result ≡ Matched → (w : ℤ) → AllWeigh self.old.graph w
            → 2 * steps.new ≤ 2 * steps.old + most_steps (size_of_graph self.old.graph) }
    {
        let outcome = solve(&mut self.search, &mut self.bounds, steps);
        list_sets(&self.search.arena, &mut self.sets);
        self.outcome = Some(outcome);
        outcome
    }

    /// Runs the search on a graph that is known to have a perfect matching: one pass with weights,
    /// which ends with a perfect matching of least weight (chapter 26). `steps` counts at most half
    /// of what `solve` may. Before the pass each edge is looked at once, for its weight. It takes
    /// no memory.
    pub fn solve_matched<L: Ledger>(&mut self, steps: &mut Steps<L>)
        requires not_run { self.old.outcome ≡ None }
        requires perfect { HasPerfect self.old.graph }
        ensures outcome { self.new.outcome ≡ Some Matched }
        ensures graph { self.new.graph ≡ self.old.graph }

        // The same end for a graph that is known to have a perfect matching, within half the steps.
        ensures ends { IsSolved self.new }
        ensures steps { 2 * steps.new ≤ 2 * steps.old + most_steps (size_of_graph self.old.graph) }
        ensures close_bound { 2 * steps.new ≤ 2 * steps.old
            + close_steps (size_of_graph self.old.graph) }
    {
        solve_matched(&mut self.search, &mut self.bounds, steps);
        list_sets(&self.search.arena, &mut self.sets);
        self.outcome = Some(Outcome::Matched);
    }

    /// Runs the search, as `solve` does, within the same steps. The graph is the one that the
    /// engine was made for.
    pub fn run<L: Ledger>(&mut self, graph: &Graph, steps: &mut Steps<L>) -> Outcome
        requires same_graph { graph.now ≡ self.old.graph }
        requires not_run { self.old.outcome ≡ None }
        ensures outcome { self.new.outcome ≡ Some result }
        ensures graph { self.new.graph ≡ self.old.graph }

        // A perfect matching of minimum weight with duals that prove it (none past (2n + 1) *
        // 10^12) on different sets, nested or disjoint, of at most (n^2 + 3n) / 4 members in all;
        // or a barrier with a maximum matching.
        ensures ends { Ends self.new result }

        // At most (n + 1)(3n + 2)(m + 1) steps.
        ensures steps { steps.new ≤ steps.old + most_steps (size_of_graph self.old.graph) }

        // Also at most 2m(n + 1)^2 + (n + 1)(3n + 2) steps, about two thirds of that on larger
        // graphs.
        ensures close_bound { steps.new ≤ steps.old + close_steps (size_of_graph self.old.graph) }

        // At most half of that if all edges weigh the same and a perfect matching is found.
        ensures alike { result ≡ Matched → (w : ℤ) → AllWeigh self.old.graph w
            → 2 * steps.new ≤ 2 * steps.old + most_steps (size_of_graph self.old.graph) }
    {
        let _ = graph;
        self.solve(steps)
    }

    /// Runs the search on a graph that is known to have a perfect matching, as `solve_matched`
    /// does, within the same steps. The graph is the one that the engine was made for.
    pub fn run_matched<L: Ledger>(&mut self, graph: &Graph, steps: &mut Steps<L>)
        requires same_graph { graph.now ≡ self.old.graph }
        requires not_run { self.old.outcome ≡ None }
        requires perfect { HasPerfect graph.now }
        ensures outcome { self.new.outcome ≡ Some Matched }
        ensures graph { self.new.graph ≡ self.old.graph }

        // The same end for a graph that is known to have a perfect matching, within half the steps.
        ensures ends { IsSolved self.new }
        ensures steps { 2 * steps.new ≤ 2 * steps.old + most_steps (size_of_graph self.old.graph) }
        ensures close_bound { 2 * steps.new ≤ 2 * steps.old
            + close_steps (size_of_graph self.old.graph) }
    {
        let _ = graph;
        self.solve_matched(steps);
    }

    /// Gives its memory back, as `drop` does. What its parts give back is proved here, once, and
    /// not in each crate that has had an engine.
    pub fn release(self) {}

    /// The edge at a vertex in the perfect matching that was found, in constant time.
    pub fn mate(&self, v: VertexId) -> EdgeId
        requires matched { self.now.outcome ≡ Some Matched }
        requires low { 1 ≤ v }
        requires high { v ≤ self.now.graph.vertices }

        // The edge of the matching at a vertex.
        ensures { result ≡ mate_at self.now.mates v }
    {
        edge_or_none(&self.search.mates, v.number())
    }

    /// The dual of a vertex, in doubled units, in constant time.
    pub fn dual(&self, v: VertexId) -> i64
        requires matched { self.now.outcome ≡ Some Matched }
        requires low { 1 ≤ v }
        requires high { v ≤ self.now.graph.vertices }

        // The dual of a vertex, in doubled units.
        ensures { result ≡ dual_of self.now.duals v }
    {
        self.search.arena.dual(NodeId::new(v.number()))
    }

    /// How many odd sets have a dual of at least 1.
    pub fn set_count(&self) -> u32
        requires matched { self.now.outcome ≡ Some Matched }

        // How many odd sets have a positive dual.
        ensures { result ≡ length self.now.sets }
    {
        self.sets.len() as u32
    }

    /// The dual of an odd set, in doubled units, and its vertices in any order; the sets count from
    /// 0.
    pub fn set(&self, i: u32) -> (i64, Members<'_>)
        requires matched { self.now.outcome ≡ Some Matched }
        requires i { i < length self.now.sets }

        // The dual and the members of an odd set.
        ensures dual { result.0 ≡ (set_at self.now.sets i).dual }
        ensures members { result.1 ≡ (set_at self.now.sets i).members }
    {
        let node = self.sets[i as usize];
        (
            self.search.arena.dual(node),
            self.search.arena.members(node),
        )
    }

    /// Whether a vertex is in the barrier that was found, in constant time.
    pub fn in_barrier(&self, v: VertexId) -> bool
        requires barrier { self.now.outcome ≡ Some Barrier }
        requires low { 1 ≤ v }
        requires high { v ≤ self.now.graph.vertices }

        // Whether a vertex is in the barrier that was found.
        ensures { result ≡ holds self.now.barrier v }
    {
        label_of(&self.search, v) == Label::Inner
    }

    /// Whether a vertex lies in an outer node of the forest that is stuck, in constant time: some
    /// greatest matching misses these vertices, and no other one (chapter 24).
    pub fn in_outer(&self, v: VertexId) -> bool
        requires barrier { self.now.outcome ≡ Some Barrier }
        requires low { 1 ≤ v }
        requires high { v ≤ self.now.graph.vertices }

        // Whether a vertex lies in an outer node.
        ensures { result ≡ holds self.now.outer v }
    {
        label_of(&self.search, v) == Label::Outer
    }

    /// The edge at a vertex in the greatest matching that was found, in constant time; nothing if
    /// it misses the vertex.
    pub fn mate_of(&self, v: VertexId) -> Option<EdgeId>
        requires barrier { self.now.outcome ≡ Some Barrier }
        requires low { 1 ≤ v }
        requires high { v ≤ self.now.graph.vertices }

        // The edge of the maximum matching at a vertex, if it has one.
        ensures { result ≡ found_mate self.now.mates v }
    {
        edge_at(&self.search.mates, v)
    }

    /// A path from an outer vertex that comes to no vertex twice, along that matching in turn, to a
    /// vertex that it misses: where these edges are exchanged it misses the outer vertex in its
    /// place. It takes time and memory linear in the vertices.
    ///
    /// # Errors
    ///
    /// `OutOfMemory` if an allocation fails.
    pub fn even_path(&self, v: VertexId) -> Result<Vec<EdgeId>, OutOfMemory>
        requires barrier { self.now.outcome ≡ Some Barrier }
        requires low { 1 ≤ v }
        requires high { v ≤ self.now.graph.vertices }
        requires outer { holds self.now.outer v ≡ true }

        // A simple alternating path of even length from an outer vertex to one that the matching
        // misses.
        ensures { IfOk result
            (λ es. IsEvenPath self.now.graph (matching_of self.now.graph self.now.mates) v
            es.items) }
    {
        let other = mates_missing(self.alloc, &self.search, v)?;
        alternate(
            self.alloc,
            &self.search.graph,
            &self.search.mates,
            &other,
            v,
        )
    }
}
