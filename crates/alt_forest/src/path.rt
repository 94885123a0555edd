ghost use Rattle.std.specs.Prelude.{◌≡◌, ◌≢◌, ◌<◌, ℕ, zero, suc, length, Some};
ghost use Rattle.std.specs.Option.{ForSome};
ghost use Rattle.std.specs.Iterator.{YieldsFirst, item_count};
ghost use Rattle.graph_theory.specs.Graph.{IsEdgeNumber};
ghost use Rattle.blossom_arena.specs.declared.label.Label.TheVariants.{Out};
ghost use Rattle.alt_forest.specs.State.{IsOutermost, node_u};
ghost use Rattle.alt_forest.specs.Trees.{other_node, far_end, up_edge, path_within, path_of};
ghost use Rattle.alt_forest.specs.Searches.{HasShape, IsSound, state_of, label_at, edge_in};

use crate::search::Search;
use crate::tables::{edge_for, label_of};
use base_types::EdgeId;
use blossom_arena::{Label, NodeId};
use std::marker::Model;

/// The outermost node at the other end of an edge from this one. It counts no step.
pub(crate) fn other_node(search: &Search, e: EdgeId, node: u32) -> u32
    requires shape { HasShape search.now }
    requires edge { IsEdgeNumber search.now.graph e }
    ensures node { result ≡ other_node search.now.graph search.now.arena.blossoms e node }
    ensures outermost { IsOutermost (state_of search.now) result }
{
    let (u, v, _) = search.graph.edge(e);
    let near = search.arena.outermost(u).number();
    let far = search.arena.outermost(v).number();
    if near == node {
        return far;
    }
    near
}

/// The outermost node at the other end of an edge, or 0 if there is no edge.
fn far_end(search: &Search, edge: Option<EdgeId>, node: u32) -> u32
    requires shape { HasShape search.now }
    requires edge { ForSome edge (IsEdgeNumber search.now.graph) }
    ensures { result ≡ far_end (state_of search.now) edge node }
{
    match edge {
        Some(e) => other_node(search, e, node),
        None => 0,
    }
}

/// The edge from an outermost node towards its root.
fn up_edge(search: &Search, node: u32) -> Option<EdgeId>
    requires shape { HasShape search.now }
    requires outermost { IsOutermost (state_of search.now) node }
    ensures { result ≡ up_edge (state_of search.now) node }
{
    match label_of(&search.labels, node) {
        Label::Outer => edge_for(&search.mates, node),
        Label::Inner => edge_for(&search.parents, node),
        Label::Out => None,
    }
}

/// The nodes from one to the root of its tree, both included. Contracts see the list of those to
/// come.
#[derive(Drop)]
pub struct RootPath<'a> {
    search: &'a Search,
    // The next node, or 0.
    at: u32,
    // No more nodes than this are left.
    left: u32,
}

impl<'a> Model for RootPath<'a> {
    ghost use Rattle.std.specs.Prelude.{List, ℕ};
    ghost use Rattle.alt_forest.specs.Trees.{path_within};
    ghost use Rattle.alt_forest.specs.Searches.{state_of};
    ghost use Rattle.alt_forest.specs.Routes.{CanWalk};

    ghost Value = { List ℕ };

    ghost view = { λ p. path_within p.left (state_of p.search.now) p.at };

    ghost invariant = { λ p. CanWalk p.search.now p.at };
}

impl<'a> Iterator for RootPath<'a> {
    type Item = NodeId;

    ghost next_gives = { YieldsFirst (λ s. s) };

    ghost remaining = { item_count (λ s. s) };

    fn next(&mut self) -> Option<NodeId> {
        if self.left == 0 {
            return None;
        }
        if self.at == 0 {
            return None;
        }
        let node = self.at;
        self.at = far_end(self.search, up_edge(self.search, node), node);
        self.left -= 1;
        Some(NodeId::new(node))
    }
}

impl Search {
    /// The edge to the mate of an outermost node, if it has one.
    pub fn mate(&self, node: NodeId) -> Option<EdgeId>
        requires shape { HasShape self.now }
        requires outermost { IsOutermost (state_of self.now) node }
        ensures mate { result ≡ edge_in self.now.mates.items node }
    {
        edge_for(&self.mates, node.number())
    }

    /// The edge to the parent of an outermost node, which means something for inner nodes alone.
    pub fn parent(&self, node: NodeId) -> Option<EdgeId>
        requires shape { HasShape self.now }
        requires outermost { IsOutermost (state_of self.now) node }
        ensures parent { result ≡ edge_in self.now.parents.items node }
    {
        edge_for(&self.parents, node.number())
    }

    /// The outermost node at the other end of an edge from this one. It counts no step.
    pub fn other_node(&self, e: EdgeId, node: NodeId) -> NodeId
        requires shape { HasShape self.now }
        requires edge { IsEdgeNumber self.now.graph e }
        ensures node { result ≡ other_node self.now.graph self.now.arena.blossoms e node }
        ensures outermost { IsOutermost (state_of self.now) result }
    {
        NodeId::new(other_node(self, e, node.number()))
    }

    /// The nodes from one in a tree to the root of that tree, both included (chapter 24). It takes
    /// no memory.
    pub fn path_to_root(&self, node: NodeId) -> RootPath<'_>
        requires sound { IsSound self.now }
        requires outermost { IsOutermost (state_of self.now) node }
        requires in_tree { label_at self.now.labels.items node ≢ Out }

        // The nodes from one in a tree to its root.
        ensures path { result ≡ path_of (state_of self.now) node }
    {
        RootPath {
            search: self,
            at: node.number(),
            left: self.labels.len() as u32,
        }
    }
}
