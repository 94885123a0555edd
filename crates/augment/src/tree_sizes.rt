ghost use Rattle.std.specs.Prelude.{◌≡◌, ◌⊎◌, ◌≤◌, ◌+◌, ◌*◌, ◌++◌, ◌&&◌, ℕ, true, Some, nat_eq};
ghost use Rattle.std.specs.Prelude.{length, vec_len, All};
ghost use Rattle.std.specs.List.{AllByRecursion, IsDistinct};
ghost use Rattle.std.specs.Vec.{vec_capacity};
ghost use Rattle.graph_theory.specs.Graph.{edges_around};
ghost use Rattle.blossom_arena.specs.Family.{is_node, is_vertex};
ghost use Rattle.alt_forest.specs.Entries.{ends_around};
ghost use Rattle.alt_forest.specs.Searches.{HasShape};
ghost use Rattle.augment.specs.Sides.{is_outer, outer_part, outer_vertices};

use alt_forest::{Label, Search};
use base_types::VertexId;
use blossom_arena::{Members, NodeId};

/// How many edges there are at a vertex.
fn degree(search: &Search, v: VertexId) -> usize
    requires shape { HasShape search.now }
    requires vertex { is_vertex search.now.graph.vertices v ≡ true }
    ensures { result ≡ length (edges_around search.now.graph v) }
{
    search.incidence.degree(v)
}

/// How many ends of edges there are at these vertices, if no edge has more than its two there.
fn ends_at(search: &Search, vertices: &[VertexId]) -> usize
    requires shape { HasShape search.now }
    requires vertices { All (λ v. is_vertex search.now.graph.vertices v ≡ true) vertices.now }
    requires size_limit { ends_around search.now.graph vertices.now
        ≤ 2 * length search.now.graph.edges }
    ensures { result ≡ ends_around search.now.graph vertices.now }
{
    let mut ends = 0;
    for v in vertices {
        ends += degree(search, *v);
    }
    ends
}

/// What is left of a number once it is lowered by another one, or `None` where that one is more.
fn without(most: usize, some: usize) -> Option<usize>
    ensures { (left : ℕ) → result ≡ Some left → left + some ≡ most }
{
    if most < some {
        return None;
    }
    Some(most - some)
}

/// What is left of a number once the ends of edges at these vertices are taken away, but one at
/// least for each vertex, or `None` where they are more. It passes at most one vertex more than
/// that number.
fn left_of(search: &Search, most: usize, vertices: Members<'_>) -> Option<usize>
    requires shape { HasShape search.now }
    requires vertices { AllByRecursion (λ v. is_vertex search.now.graph.vertices v ≡ true)
        vertices }
    ensures { (left : ℕ) → result ≡ Some left → left + ends_around search.now.graph vertices.entry
        ≤ most }
{
    let mut left = most;
    for v in vertices {
        let ends = degree(search, v);
        match without(left, if ends == 0 { 1 } else { ends }) {
            Some(fewer) => left = fewer,
            None => return None,
        }
    }
    Some(left)
}

/// Whether a node is outermost and outer. Any number may be asked for.
fn is_outer(search: &Search, node: NodeId) -> bool
    requires shape { HasShape search.now }
    ensures { result ≡ is_outer search.now node }
{
    if !search.arena.is_outermost(node) {
        return false;
    }
    search.label(node) == Label::Outer
}

/// The same for the vertices of a node, if one that isn't outer takes away 1.
fn left_after(search: &Search, node: NodeId, most: usize) -> Option<usize>
    requires shape { HasShape search.now }
    ensures { (left : ℕ) → result ≡ Some left
        → left + ends_around search.now.graph (outer_part search.now node) ≤ most }
{
    if !is_outer(search, node) {
        return without(most, 1);
    }
    left_of(search, most, search.arena.members(node))
}

/// Whether it is seen by passing so many nodes and vertices, and one more, that there are at most
/// so many ends of edges at the outer nodes that are listed.
fn is_outer_within(search: &Search, most: usize) -> bool
    requires shape { HasShape search.now }
    ensures { result ≡ true → ends_around search.now.graph (outer_vertices search.now) ≤ most }
{
    let mut left = most;
    for place in 0..search.tree_nodes.nodes().len() {
        let node = search.tree_nodes.nodes()[place];
        match left_after(search, node, left) {
            Some(fewer) => left = fewer,
            None => return false,
        }
    }
    true
}

/// Keeps the vertices of a node, if it is outer, for looks too.
fn scan_part(search: &mut Search, node: NodeId)
    requires shape { HasShape search.old }
    requires room { vec_len search.old.scanned + length (outer_part search.old node)
        ≤ vec_capacity search.old.scanned }
    ensures scanned { search.new.scanned.items ≡ search.old.scanned.items
        ++ outer_part search.old node }
    ensures frame { search.new ≡ record search.old { scanned = search.new.scanned } }
    ensures shape { HasShape search.new }
{
    if !is_outer(search, node) {
        return;
    }
    search.scan(node);
}

/// Keeps just the vertices of the outer nodes that are listed for looks.
fn scan_outer(search: &mut Search)
    requires shape { HasShape search.old }
    requires different { IsDistinct nat_eq search.old.tree_nodes.nodes }
    ensures scanned { search.new.scanned.items ≡ outer_vertices search.old }
    ensures frame { search.new ≡ record search.old { scanned = search.new.scanned } }
    ensures shape { HasShape search.new }
{
    search.scanned.clear();
    for place in 0..search.tree_nodes.nodes().len() {
        let node = search.tree_nodes.nodes()[place];
        scan_part(search, node);
    }
}

/// Keeps the vertices of the outer nodes that are listed for looks instead of those that are kept,
/// if there are no more ends of edges at them.
pub(crate) fn take_smaller_side(search: &mut Search)
    requires shape { HasShape search.old }
    requires different { IsDistinct nat_eq search.old.tree_nodes.nodes }
    requires vertices { All (λ v. is_vertex search.old.graph.vertices v ≡ true)
        search.old.scanned.items }
    requires size_limit { ends_around search.old.graph search.old.scanned.items
        ≤ 2 * length search.old.graph.edges }
    ensures side { (search.new.scanned.items ≡ outer_vertices search.old)
        ⊎ (search.new.scanned.items ≡ search.old.scanned.items) }
    ensures fewer { ends_around search.old.graph search.new.scanned.items
        ≤ ends_around search.old.graph search.old.scanned.items }
    ensures frame { search.new ≡ record search.old { scanned = search.new.scanned } }
    ensures shape { HasShape search.new }
{
    let ends = ends_at(search, &search.scanned);
    if is_outer_within(search, ends) {
        scan_outer(search);
    }
}
