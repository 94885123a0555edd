ghost use Rattle.std.specs.Prelude.{◌≡◌, ◌≢◌, ℕ, true, Some};
ghost use Rattle.blossom_arena.specs.Family.{in_ring, is_vertex};
ghost use Rattle.blossom_arena.specs.declared.label.Label.TheVariants.{Out};
ghost use Rattle.alt_forest.specs.State.{IsOutermost};
ghost use Rattle.alt_forest.specs.Searches.{IsSound, state_of, label_at};
ghost use Rattle.alt_forest.specs.TreeNodes.{AreListed, tree_id_at};
ghost use Rattle.tree_steps.specs.Moving.{IsMoving, AreInserted};

use alt_forest::{Label, Search};
use base_types::VertexId;
use blossom_arena::NodeId;

/// Lists a node that a step took into a tree, lets its dual move as its label says, and keeps a
/// vertex of the root of that tree for it. For a node labelled out nothing is done.
pub(crate) fn insert_node(search: &mut Search, node: NodeId, tree_id: VertexId)
    requires sound { IsSound search.old }
    requires listed { AreListed search.old.graph.vertices search.old.tree_nodes.nodes
        search.old.tree_nodes.tree_ids }
    requires outermost { IsOutermost (state_of search.old) node }
    requires vertex { is_vertex search.old.graph.vertices tree_id ≡ true }
    ensures frame { search.new
        ≡ record search.old {
          arena = record search.old.arena { motions = search.new.arena.motions };
          tree_nodes = search.new.tree_nodes;
        } }
    ensures sound { IsSound search.new }
    ensures listed { AreListed search.old.graph.vertices search.new.tree_nodes.nodes
        search.new.tree_nodes.tree_ids }
    ensures in_tree { label_at search.old.labels.items node ≢ Out
        → tree_id_at search.new.tree_nodes.tree_ids node ≡ Some tree_id }
    ensures moves { label_at search.old.labels.items node ≢ Out → IsMoving search.new node }
    ensures keeps_moving { (a : ℕ) → IsMoving search.old a → IsMoving search.new a }
    ensures keeps { (a : ℕ) → a ≢ node
        → tree_id_at search.new.tree_nodes.tree_ids a
        ≡ tree_id_at search.old.tree_nodes.tree_ids a }
{
    if search.label(node) == Label::Out {
        return;
    }
    search.stand(node, tree_id);
}

/// The same for all nodes of the circuit.
pub(crate) fn insert_circuit(search: &mut Search, tree_id: VertexId)
    requires sound { IsSound search.old }
    requires listed { AreListed search.old.graph.vertices search.old.tree_nodes.nodes
        search.old.tree_nodes.tree_ids }
    requires circuit { (a : ℕ) → in_ring search.old.circuit.items a ≡ true
        → IsOutermost (state_of search.old) a }
    requires vertex { is_vertex search.old.graph.vertices tree_id ≡ true }
    ensures { AreInserted search.old search.new search.old.circuit.items tree_id }
{
    for place in 0..search.circuit.len() {
        let link = search.circuit[place];
        insert_node(search, link.node, tree_id);
    }
}
