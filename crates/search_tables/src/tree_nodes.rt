ghost use Rattle.std.specs.Prelude.{◌≡◌, ◌<◌, ◌++◌, ◌∷◌, ℕ, [], true, is_some, Some, None, IfOk};
ghost use Rattle.std.specs.Prelude.{IsPermutation, slice_set, vec_len};
ghost use Rattle.std.specs.Vec.{vec_capacity};
ghost use Rattle.search_tables.specs.Listing.{tree_id_at};
ghost use Rattle.search_tables.specs.Linked.{ArePlaced, place_at};

use crate::room::room_for;
use base_types::{NodeId, OutOfMemory, VertexId};
use circular_lists::{CircularLists, put_behind, take_off};
use std::alloc::Global;
use std::marker::Model;

/// The nodes that are listed, each with a tree id, a vertex that is kept for it: those of one tree
/// id are found and taken off one by one, in constant time each. Contracts see the list of the
/// nodes and, by node number, the tree ids.
#[derive(Drop)]
pub struct TreeNodes {
    nodes: Vec<NodeId>,
    // By node number, its place in that list, and its tree id.
    places: Vec<usize>,
    tree_ids: Vec<Option<VertexId>>,
    // A node is on the list of its tree id. The list of a vertex begins at the number of the
    // vertex, past the numbers of all nodes.
    lists: CircularLists,
}

impl Model for TreeNodes {
    ghost use Rattle.search_tables.specs.Listing.{Listing};
    ghost use Rattle.search_tables.specs.Linked.{IsKept, listing_of};

    ghost Value = { Listing };

    ghost view = { listing_of };

    ghost invariant = { IsKept };
}

/// A list with no tree id at each of so many places.
fn no_tree_ids(alloc: Global, places: usize) -> Result<Vec<Option<VertexId>>, OutOfMemory>
    ensures none { IfOk result (λ tree_ids. (a : ℕ) → tree_id_at tree_ids.items a ≡ None) }
    ensures len { IfOk result (λ tree_ids. vec_len tree_ids ≡ places) }
{
    Ok(vec![in alloc; None; places]?)
}

/// Puts a node at the end of a list, and keeps its place there and its tree id.
fn put_last(
    nodes: &mut Vec<NodeId>,
    places: &mut Vec<usize>,
    tree_ids: &mut Vec<Option<VertexId>>,
    node: NodeId,
    tree_id: VertexId,
)
    requires placed { ArePlaced nodes.old.items (place_at places.old.items)
        (tree_id_at tree_ids.old.items) }
    requires room { vec_len nodes.old < vec_capacity nodes.old }
    requires sizes { vec_len places.old ≡ vec_len tree_ids.old }
    requires node { node < vec_len tree_ids.old }
    requires new { tree_id_at tree_ids.old.items node ≡ None }
    ensures placed { ArePlaced nodes.new.items (place_at places.new.items)
        (tree_id_at tree_ids.new.items) }
    ensures nodes { nodes.new.items ≡ nodes.old.items ++ node ∷ [] }
    ensures tree_ids { tree_ids.new.items ≡ slice_set tree_ids.old.items node (Some tree_id) }
    ensures capacity { vec_capacity nodes.new ≡ vec_capacity nodes.old }
    ensures places { vec_len places.new ≡ vec_len places.old }
{
    let number = node.number() as usize;
    places[number] = nodes.len();
    tree_ids[number] = Some(tree_id);
    nodes.push_reserved(node);
}

/// Takes a node that has a place in a list off it. The last one of the list comes to its place.
fn take_placed(
    nodes: &mut Vec<NodeId>,
    places: &mut Vec<usize>,
    tree_ids: &mut Vec<Option<VertexId>>,
    node: NodeId,
)
    requires placed { ArePlaced nodes.old.items (place_at places.old.items)
        (tree_id_at tree_ids.old.items) }
    requires sizes { vec_len places.old ≡ vec_len tree_ids.old }
    requires in_tree { is_some (tree_id_at tree_ids.old.items node) ≡ true }
    ensures placed { ArePlaced nodes.new.items (place_at places.new.items)
        (tree_id_at tree_ids.new.items) }
    ensures nodes { IsPermutation nodes.old.items (node ∷ nodes.new.items) }
    ensures tree_ids { tree_ids.new.items ≡ slice_set tree_ids.old.items node None }
    ensures capacity { vec_capacity nodes.new ≡ vec_capacity nodes.old }
    ensures places { vec_len places.new ≡ vec_len places.old }
{
    let number = node.number() as usize;
    let place = places[number];
    tree_ids[number] = None;
    nodes.swap_remove(place);
    if place >= nodes.len() {
        return;
    }
    places[nodes[place].number() as usize] = place;
}

impl TreeNodes {
    ghost use Rattle.std.specs.Prelude.{◌≡◌, ◌≢◌, ◌<◌, ◌+◌, ◌++◌, ◌∷◌, ℕ, [], true, is_some, Some};
    ghost use Rattle.std.specs.Prelude.{None, IsPermutation, length, slice_set};
    ghost use Rattle.search_tables.specs.Listing.{tree_id_at};

    /// No node is listed, and there is room for nodes up to a number, and for vertices up to it. No
    /// later call takes memory.
    pub fn new(alloc: Global, limit: u32) -> Result<TreeNodes, OutOfMemory>
        ensures nodes { IfOk result (λ s. s.nodes ≡ []) }
        ensures tree_ids { IfOk result (λ s. (a : ℕ) → tree_id_at s.tree_ids a ≡ None) }
        ensures places { IfOk result (λ s. length s.tree_ids ≡ limit + 1) }
    {
        let count = limit as usize + 1;
        let nodes = room_for(alloc, count)?;
        let places = vec![in alloc; 0usize; count]?;
        let tree_ids = no_tree_ids(alloc, count)?;
        let lists = CircularLists::new(alloc, 2 * count)?;
        Ok(TreeNodes {
            nodes,
            places,
            tree_ids,
            lists,
        })
    }

    /// The nodes that are listed, in any order.
    pub fn nodes(&self) -> &[NodeId]
        ensures { result.now ≡ self.now.nodes }
    {
        &self.nodes
    }

    /// The tree id of a node, if it is listed. Any number may be asked for.
    pub fn tree_id(&self, node: NodeId) -> Option<VertexId>
        ensures { result ≡ tree_id_at self.now.tree_ids node }
    {
        match self.tree_ids.get(node.number() as usize) {
            Some(tree_id) => *tree_id,
            None => None,
        }
    }

    /// A node that is listed with this tree id, if there is one, in constant time.
    pub fn listed_with(&self, tree_id: VertexId) -> Option<NodeId>
        requires { tree_id < length self.now.tree_ids }
        ensures found { (a : ℕ) → result ≡ Some a → tree_id_at self.now.tree_ids a ≡ Some tree_id }
        ensures none { result ≡ None → (a : ℕ) → tree_id_at self.now.tree_ids a ≢ Some tree_id }
    {
        let begin = self.lists.next[self.tree_ids.len() + tree_id.number() as usize];
        let first = begin as usize;
        if first >= self.tree_ids.len() {
            return None;
        }
        Some(self.nodes[self.places[first]])
    }

    /// Lists a node that isn't listed, with its tree id, in constant time.
    pub fn list(&mut self, node: NodeId, tree_id: VertexId)
        requires room { length self.old.nodes < length self.old.tree_ids }
        requires node { node < length self.old.tree_ids }
        requires tree_id { tree_id < length self.old.tree_ids }
        requires new { tree_id_at self.old.tree_ids node ≡ None }
        ensures nodes { self.new.nodes ≡ self.old.nodes ++ node ∷ [] }
        ensures tree_ids { self.new.tree_ids ≡ slice_set self.old.tree_ids node (Some tree_id) }
    {
        put_last(
            &mut self.nodes,
            &mut self.places,
            &mut self.tree_ids,
            node,
            tree_id,
        );
        let front = (self.tree_ids.len() + tree_id.number() as usize) as u32;
        put_behind(&mut self.lists, front, node.number());
    }

    /// Takes a node off the list, in constant time. The last one of the list comes to its place.
    pub fn remove_node(&mut self, node: NodeId)
        requires { is_some (tree_id_at self.old.tree_ids node) ≡ true }
        ensures nodes { IsPermutation self.old.nodes (node ∷ self.new.nodes) }
        ensures tree_ids { self.new.tree_ids ≡ slice_set self.old.tree_ids node None }
    {
        take_placed(&mut self.nodes, &mut self.places, &mut self.tree_ids, node);
        take_off(&mut self.lists, node.number());
    }

    /// The last node of the list, if there is one.
    fn last(&self) -> Option<NodeId>
        ensures in_tree { (a : ℕ) → result ≡ Some a → is_some (tree_id_at self.now.tree_ids a)
            ≡ true }
        ensures none { result ≡ None → self.now.nodes ≡ [] }
        ensures tree_ids { result ≡ None → (a : ℕ) → tree_id_at self.now.tree_ids a ≡ None }
    {
        if self.nodes.is_empty() {
            return None;
        }
        Some(self.nodes[self.nodes.len() - 1])
    }

    /// Takes all nodes off the list, in time linear in them.
    pub fn clear(&mut self)
        ensures nodes { self.new.nodes ≡ [] }
        ensures tree_ids { (a : ℕ) → tree_id_at self.new.tree_ids a ≡ None }
        ensures places { length self.new.tree_ids ≡ length self.old.tree_ids }
    {
        while let Some(node) = self.last() {
            self.remove_node(node);
        }
    }
}
