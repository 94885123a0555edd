ghost use Rattle.std.specs.Prelude.{◌≡◌, ◌+◌, ◌≤◌, ◌++◌, ℕ, true, Some, length, vec_len};
ghost use Rattle.std.specs.Vec.{vec_capacity};
ghost use Rattle.graph_theory.specs.Parts.{holds};
ghost use Rattle.alt_forest.specs.State.{IsOutermost};
ghost use Rattle.alt_forest.specs.Trees.{up_edge, path_of};
ghost use Rattle.alt_forest.specs.Searches.{IsSound, state_of};
ghost use Rattle.tree_steps.specs.Circuits.{before, links_above};

use alt_forest::{Label, Search};
use base_types::EdgeId;
use blossom_arena::{Link, NodeId};

pub(crate) fn or_none(edge: Option<EdgeId>) -> EdgeId
    ensures { (e : ℕ) → edge ≡ Some e → result ≡ e }
{
    match edge {
        Some(e) => e,
        None => EdgeId::new(0),
    }
}

/// The edge from a node in a tree towards the root, where it has one.
fn edge_above(search: &Search, node: NodeId) -> EdgeId
    requires sound { IsSound search.now }
    requires outermost { IsOutermost (state_of search.now) node }
    ensures { (e : ℕ) → up_edge (state_of search.now) node ≡ Some e → result ≡ e }
{
    match search.label(node) {
        Label::Outer => or_none(search.mate(node)),
        Label::Inner => or_none(search.parent(node)),
        Label::Out => EdgeId::new(0),
    }
}

/// Puts the nodes of the way up from one to another, the last one left out, behind the circuit,
/// each with its edge towards the root.
pub(crate) fn push_way(search: &mut Search, from: NodeId, base: NodeId)
    requires sound { IsSound search.old }
    requires outermost { IsOutermost (state_of search.old) from }
    requires on_path { holds (path_of (state_of search.old) from) base ≡ true }
    requires room { vec_len search.old.circuit
        + length (before (path_of (state_of search.old) from) base)
        ≤ vec_capacity search.old.circuit }
    ensures circuit { search.new.circuit.items ≡ search.old.circuit.items
        ++ links_above (state_of search.old) (before (path_of (state_of search.old) from) base) }
    ensures frame { search.new ≡ record search.old { circuit = search.new.circuit } }
    ensures capacity { vec_capacity search.new.circuit ≡ vec_capacity search.old.circuit }
    ensures sound { IsSound search.new }
{
    let mut node = from;
    while node.number() != base.number() {
        let edge = edge_above(search, node);
        search.circuit.push_reserved(Link { node, edge });
        node = search.other_node(edge, node);
    }
}
