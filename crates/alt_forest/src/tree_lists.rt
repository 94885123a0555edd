ghost use Rattle.std.specs.Prelude.{◌≡◌, ◌≢◌, ◌<◌, ◌≤◌, ◌+◌, ℕ, true, is_some, Some, None, []};
ghost use Rattle.std.specs.Prelude.{length};
ghost use Rattle.graph_theory.specs.Parts.{holds};
ghost use Rattle.blossom_arena.specs.Family.{is_node, is_vertex, members_of};
ghost use Rattle.blossom_arena.specs.declared.label.Label.TheVariants.{Out};
ghost use Rattle.alt_forest.specs.State.{IsOutermost};
ghost use Rattle.alt_forest.specs.Searches.{HasShape, label_at, put, state_of};
ghost use Rattle.alt_forest.specs.TreeNodes.{AreListed, IsTreeId, HasTreeNodes, tree_id_at};
ghost use Rattle.alt_forest.specs.Trees.{node_limit, root_of};

use crate::motions::{halt, set_motion};
use crate::search::Search;
use base_types::VertexId;
use blossom_arena::{Arena, NodeId};
use search_tables::TreeNodes;

/// A vertex of a node.
pub(crate) fn vertex_within(arena: &Arena, node: NodeId) -> VertexId
    requires node { is_node arena.now.vertex_count arena.now.blossoms node ≡ true }
    ensures vertex { is_vertex arena.now.vertex_count result ≡ true }
    ensures member { holds (members_of arena.now.blossoms node) result ≡ true }
{
    match arena.members(node).next() {
        Some(v) => v,
        None => unreachable!(),
    }
}

/// Takes a node off the list, if it is on it, in constant time.
fn forget(tree_nodes: &mut TreeNodes, node: NodeId)
    requires { node < length tree_nodes.old.tree_ids }
    ensures tree_ids { tree_id_at tree_nodes.new.tree_ids
        ≡ put (tree_id_at tree_nodes.old.tree_ids) node None }
    ensures places { length tree_nodes.new.tree_ids ≡ length tree_nodes.old.tree_ids }
    ensures listed { (n : ℕ) → AreListed n tree_nodes.old.nodes tree_nodes.old.tree_ids
        → AreListed n tree_nodes.new.nodes tree_nodes.new.tree_ids }
{
    if tree_nodes.tree_id(node).is_none() {
        return;
    }
    tree_nodes.remove_node(node);
}

impl Search {
    /// Lists a node that has come into a tree, or lists it anew, lets its dual move as its label
    /// says, and keeps a vertex for it, which is to lie in the root of its tree; in constant time.
    pub fn stand(&mut self, node: NodeId, tree_id: VertexId)
        requires shape { HasShape self.old }
        requires listed { AreListed self.old.graph.vertices self.old.tree_nodes.nodes
            self.old.tree_nodes.tree_ids }
        requires low { 1 ≤ node }
        requires high { node ≤ node_limit self.old.graph.vertices }
        requires outermost { IsOutermost (state_of self.old) node }
        requires vertex { is_vertex self.old.graph.vertices tree_id ≡ true }
        ensures frame { self.new ≡ record self.old {
          arena = record self.old.arena { motions = self.new.arena.motions };
          tree_nodes = self.new.tree_nodes;
        } }
        ensures shape { HasShape self.new }
        ensures listed { AreListed self.old.graph.vertices self.new.tree_nodes.nodes
            self.new.tree_nodes.tree_ids }
        ensures tree_ids { tree_id_at self.new.tree_nodes.tree_ids
            ≡ put (tree_id_at self.old.tree_nodes.tree_ids) node (Some tree_id) }
        ensures motions { label_at self.new.arena.motions
            ≡ put (label_at self.old.arena.motions) node (label_at self.old.labels.items node) }
    {
        let label = self.label(node);
        set_motion(&mut self.arena, node, label);
        forget(&mut self.tree_nodes, node);
        self.tree_nodes.list(node, tree_id);
    }

    /// Takes a node that is listed off the list, and lets its dual move no more, in constant time.
    pub fn remove_node(&mut self, node: NodeId)
        requires shape { HasShape self.old }
        requires listed { AreListed self.old.graph.vertices self.old.tree_nodes.nodes
            self.old.tree_nodes.tree_ids }
        requires in_tree { is_some (tree_id_at self.old.tree_nodes.tree_ids node) ≡ true }
        ensures frame { self.new ≡ record self.old {
          arena = record self.old.arena { motions = self.new.arena.motions };
          tree_nodes = self.new.tree_nodes;
        } }
        ensures shape { HasShape self.new }
        ensures listed { AreListed self.old.graph.vertices self.new.tree_nodes.nodes
            self.new.tree_nodes.tree_ids }
        ensures tree_ids { tree_id_at self.new.tree_nodes.tree_ids
            ≡ put (tree_id_at self.old.tree_nodes.tree_ids) node None }
        ensures motions { label_at self.new.arena.motions
            ≡ put (label_at self.old.arena.motions) node Out }
        ensures fewer { length self.new.tree_nodes.nodes + 1 ≡ length self.old.tree_nodes.nodes }
    {
        halt(&mut self.arena, node);
        self.tree_nodes.remove_node(node);
    }

    /// Lists no node any more, and lets no dual move.
    pub fn remove_trees(&mut self)
        requires shape { HasShape self.old }
        ensures frame { self.new ≡ record self.old {
          arena = record self.old.arena { motions = self.new.arena.motions };
          tree_nodes = self.new.tree_nodes;
        } }
        ensures shape { HasShape self.new }
        ensures none { self.new.tree_nodes.nodes ≡ [] }
        ensures motions { (a : ℕ) → label_at self.new.arena.motions a ≡ Out }
        ensures listed { AreListed self.old.graph.vertices self.new.tree_nodes.nodes
            self.new.tree_nodes.tree_ids }
    {
        self.arena.rest();
        self.tree_nodes.clear();
    }

    /// The vertex that is kept for a node, if it is listed. Any number may be asked for.
    pub fn tree_id(&self, node: NodeId) -> Option<VertexId>
        ensures tree_id { result ≡ tree_id_at self.now.tree_nodes.tree_ids node }
    {
        self.tree_nodes.tree_id(node)
    }

    /// A node that is listed with this tree id, if there is one, in constant time. So all nodes of
    /// a tree are found by the tree id that they have in common.
    pub fn listed_with(&self, tree_id: VertexId) -> Option<NodeId>
        requires shape { HasShape self.now }
        requires vertex { is_vertex self.now.graph.vertices tree_id ≡ true }

        // A listed node of a tree, by the vertex that its nodes share, or none if no node has it
        // (`tree_nodes`: each outermost node of a tree is listed).
        ensures found { (a : ℕ) → result ≡ Some a → tree_id_at self.now.tree_nodes.tree_ids a
            ≡ Some tree_id }
        ensures none { result ≡ None → (a : ℕ) → tree_id_at self.now.tree_nodes.tree_ids a
            ≢ Some tree_id }
    {
        self.tree_nodes.listed_with(tree_id)
    }

    /// A vertex of the root of the tree of an outermost node, the one that is kept for all nodes of
    /// that tree, in constant time.
    pub fn root_vertex(&self, node: NodeId) -> VertexId
        requires shape { HasShape self.now }
        requires listed { HasTreeNodes self.now }
        requires outermost { IsOutermost (state_of self.now) node }
        requires in_tree { label_at self.now.labels.items node ≢ Out }

        // A vertex of the root of a node's tree, the same one for all nodes of the tree.
        ensures tree_id { IsTreeId (state_of self.now) node result }
        ensures kept { tree_id_at self.now.tree_nodes.tree_ids node ≡ Some result }
    {
        match self.tree_id(node) {
            Some(v) => v,
            None => unreachable!(),
        }
    }

    /// The root of the tree of an outermost node (chapter 24), in constant time.
    pub fn root(&self, node: NodeId) -> NodeId
        requires shape { HasShape self.now }
        requires listed { HasTreeNodes self.now }
        requires outermost { IsOutermost (state_of self.now) node }
        requires in_tree { label_at self.now.labels.items node ≢ Out }

        // The root of a node's tree, in constant time.
        ensures root { result ≡ root_of (state_of self.now) node }
    {
        self.arena.outermost(self.root_vertex(node))
    }
}
