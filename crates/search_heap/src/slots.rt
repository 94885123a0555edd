ghost use Rattle.std.specs.Prelude.{◌≡◌, ◌+◌, ◌<◌, ◌≤◌, ◌^◌, ◌↔◌, IsTrue};
ghost use Rattle.search_heap.specs.Moments.{IsNumbered};
ghost use Rattle.search_heap.specs.Slots.{number_of, slot_of, item_of};

use crate::item::Item;
use base_types::{EdgeId, NodeId};

/// Whether an item is one of so many edges and nodes.
pub(crate) fn is_numbered(edges: u32, nodes: u32, item: &Item) -> bool
    ensures { IsTrue result ↔ IsNumbered edges nodes item.now }
{
    match *item {
        Item::Edge(edge) => edge.number() != 0 && edge.number() <= edges,
        Item::Blossom(node) => node.number() != 0 && node.number() <= nodes,
    }
}

/// The slot of an item: those of the edges come first.
pub(crate) fn slot_of(edges: u32, item: &Item) -> u32
    requires number { 1 ≤ number_of item.now }
    requires fits { slot_of edges item.now < 2 ^ 32 }
    ensures { result ≡ slot_of edges item.now }
{
    match *item {
        Item::Edge(edge) => edge.number() - 1,
        Item::Blossom(node) => edges + (node.number() - 1),
    }
}

/// The item of a slot.
pub(crate) fn item_of(edges: u32, slot: u32) -> Item
    requires { slot + 1 < 2 ^ 32 }
    ensures { result ≡ item_of edges slot }
{
    if slot < edges {
        return Item::Edge(EdgeId::new(slot + 1));
    }
    Item::Blossom(NodeId::new(slot - edges + 1))
}
