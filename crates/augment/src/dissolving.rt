ghost use Rattle.std.specs.Prelude.{◌≡◌, ◌≢◌, ◌≤◌, ◌+◌, ◌++◌, ◌&&◌, ℕ, true, false, not, is_some};
ghost use Rattle.std.specs.Prelude.{None, Some, length, vec_len, if◌then◌else◌};
ghost use Rattle.std.specs.Vec.{vec_capacity};
ghost use Rattle.blossom_arena.specs.Family.{is_vertex, members_of};
ghost use Rattle.blossom_arena.specs.declared.label.Label.TheVariants.{Out};
ghost use Rattle.alt_forest.specs.Searches.{HasShape, label_at, put};
ghost use Rattle.alt_forest.specs.TreeNodes.{AreMoving, AreListed, tree_id_at};
ghost use Rattle.augment.specs.Felling.{stands, is_either, falls, AreSeeded, Leaves, AreGone};
ghost use Rattle.augment.specs.Felling.{IsFelled};

use alt_forest::{Label, Search, set_label};
use base_types::VertexId;
use blossom_arena::NodeId;

/// Whether a node is outermost and in a tree. Any number may be asked for.
fn stands(search: &Search, node: NodeId) -> bool
    requires shape { HasShape search.now }
    ensures { result ≡ stands search.now node }
{
    if !search.arena.is_outermost(node) {
        return false;
    }
    search.label(node) != Label::Out
}

/// The last node that is listed, if it stands no more.
fn last_fallen(search: &Search) -> Option<NodeId>
    requires shape { HasShape search.now }
    requires listed { AreListed search.now.graph.vertices search.now.tree_nodes.nodes
        search.now.tree_nodes.tree_ids }
    ensures listed { (a : ℕ) → result ≡ Some a
        → is_some (tree_id_at search.now.tree_nodes.tree_ids a)
        ≡ true }
    ensures fallen { (a : ℕ) → result ≡ Some a → stands search.now a ≡ false }
    ensures none { result ≡ None → length search.now.tree_nodes.nodes ≢ 0
        → (a : ℕ) × (stands search.now a ≡ true) }
{
    let nodes = search.tree_nodes.nodes();
    if nodes.is_empty() {
        return None;
    }
    let node = nodes[nodes.len() - 1];
    if stands(search, node) {
        return None;
    }
    Some(node)
}

/// A node that is listed with one of two tree ids, or else the last one that is listed, if it
/// stands no more.
fn next_leaving(search: &Search, one: VertexId, other: VertexId) -> Option<NodeId>
    requires shape { HasShape search.now }
    requires listed { AreListed search.now.graph.vertices search.now.tree_nodes.nodes
        search.now.tree_nodes.tree_ids }
    requires one { is_vertex search.now.graph.vertices one ≡ true }
    requires other { is_vertex search.now.graph.vertices other ≡ true }
    ensures found { (a : ℕ) → result ≡ Some a → Leaves search.now one other a }
    ensures none { result ≡ None → AreGone search.now one other }
{
    if let Some(node) = search.listed_with(one) {
        return Some(node);
    }
    if let Some(node) = search.listed_with(other) {
        return Some(node);
    }
    last_fallen(search)
}

/// Labels a node that is listed out, keeps its vertices for looks and takes it off the list.
fn fell_node(search: &mut Search, node: NodeId)
    requires shape { HasShape search.old }
    requires listed { AreListed search.old.graph.vertices search.old.tree_nodes.nodes
        search.old.tree_nodes.tree_ids }
    requires in_tree { is_some (tree_id_at search.old.tree_nodes.tree_ids node) ≡ true }
    requires stands { stands search.old node ≡ true }
    requires room { vec_len search.old.scanned + length (members_of search.old.arena.blossoms node)
        ≤ vec_capacity search.old.scanned }
    ensures frame { search.new ≡ record search.old {
      arena = record search.old.arena { motions = search.new.arena.motions };
      labels = search.new.labels;
      tree_nodes = search.new.tree_nodes;
      scanned = search.new.scanned;
    } }
    ensures shape { HasShape search.new }
    ensures listed { AreListed search.old.graph.vertices search.new.tree_nodes.nodes
        search.new.tree_nodes.tree_ids }
    ensures labels { label_at search.new.labels.items
        ≡ put (label_at search.old.labels.items) node Out }
    ensures scanned { search.new.scanned.items ≡ search.old.scanned.items
        ++ members_of search.old.arena.blossoms node }
    ensures tree_ids { tree_id_at search.new.tree_nodes.tree_ids
        ≡ put (tree_id_at search.old.tree_nodes.tree_ids) node None }
    ensures motions { label_at search.new.arena.motions
        ≡ put (label_at search.old.arena.motions) node Out }
    ensures fewer { length search.new.tree_nodes.nodes + 1 ≡ length search.old.tree_nodes.nodes }
{
    set_label(&mut search.labels, node, Label::Out);
    search.scan(node);
    search.remove_node(node);
}

/// Labels exactly the nodes of the trees of two tree ids out, which rest then and are listed no
/// more, and keeps the vertices of those two trees for looks. All others in trees stay listed, and
/// some node stands if any is listed. It takes time linear in what it takes off the list.
pub(crate) fn fell(search: &mut Search, one: VertexId, other: VertexId)
    requires shape { HasShape search.old }
    requires listed { AreListed search.old.graph.vertices search.old.tree_nodes.nodes
        search.old.tree_nodes.tree_ids }
    requires seeded { AreSeeded search.old }
    requires moving { AreMoving search.old }
    requires one { is_vertex search.old.graph.vertices one ≡ true }
    requires other { is_vertex search.old.graph.vertices other ≡ true }
    ensures frame { search.new ≡ record search.old {
      arena = record search.old.arena { motions = search.new.arena.motions };
      labels = search.new.labels;
      tree_nodes = search.new.tree_nodes;
      scanned = search.new.scanned;
    } }
    ensures shape { HasShape search.new }
    ensures felled { IsFelled search.old search.new one other }
    ensures moving { AreMoving search.new }
{
    search.scanned.clear();
    'list: while let Some(node) = next_leaving(search, one, other) {
        if !stands(search, node) {
            search.remove_node(node);
            continue;
        }
        fell_node(search, node);
    }
}
