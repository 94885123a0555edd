ghost use Rattle.std.specs.Prelude.{◌≡◌, drop};
ghost use Rattle.blossom_arena.specs.Tables.{next_node};

use base_types::{EdgeId, NodeId};

/// A node of a circuit, and the edge from it to the next node.
#[derive(Clone, Copy)]
pub struct Link {
    pub node: NodeId,
    pub edge: EdgeId,
}

/// The node at a place of a circuit, or what follows its end.
pub(crate) fn node_at(circuit: &[Link], place: usize, after: u32) -> u32
    ensures { result ≡ next_node (drop place circuit.now) after }
{
    match circuit.get(place) {
        Some(link) => link.node.number(),
        None => after,
    }
}
