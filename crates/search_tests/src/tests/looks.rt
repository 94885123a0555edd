ghost use Rattle.std.specs.Prelude.{◌≡◌, ◌≢◌, ◌↔◌, true, false, IfSome, None};
ghost use Rattle.blossom_arena.specs.declared.label.Label.TheVariants.{Out};
ghost use Rattle.alt_forest.specs.Searches.{HasShape, IsSound, state_of, label_at};
ghost use Rattle.alt_forest.specs.State.{IsOutermost, IsExposed};
ghost use Rattle.alt_forest.specs.Counts.{IsMatched, IsPlanted};
ghost use Rattle.alt_forest.specs.TreeNodes.{HasTreeNodes};

use alt_forest::{Label, Search};
use blossom_arena::NodeId;

/// Whether this is an outermost node. Any number may be asked for.
pub fn is_outermost(search: &Search, node: NodeId) -> bool
    requires shape { HasShape search.now }
    ensures { (result ≡ true) ↔ IsOutermost (state_of search.now) node }
{
    if !search.arena.is_node(node) {
        return false;
    }
    search.arena.is_outermost(node)
}

/// Whether this is an outermost node without a mate. Any number may be asked for.
fn is_exposed(search: &Search, node: NodeId) -> bool
    requires sound { IsSound search.now }
    ensures { (result ≡ true) ↔ IsExposed (state_of search.now) node }
{
    if !is_outermost(search, node) {
        return false;
    }
    search.mate(node).is_none()
}

/// Whether a tree can be planted at a node.
fn can_plant(search: &Search, node: NodeId) -> bool
    requires sound { IsSound search.now }
    ensures exposed { result ≡ true → IsExposed (state_of search.now) node }
    ensures out { result ≡ true → label_at search.now.labels.items node ≡ Out }
    ensures not { result ≡ false → IsExposed (state_of search.now) node
        → label_at search.now.labels.items node ≢ Out }
{
    if !is_exposed(search, node) {
        return false;
    }
    search.label(node) == Label::Out
}

/// The first node where a tree can be planted.
pub fn free_node(search: &Search) -> Option<NodeId>
    requires sound { IsSound search.now }
    ensures exposed { IfSome result (IsExposed (state_of search.now)) }
    ensures out { IfSome result (λ a. label_at search.now.labels.items a ≡ Out) }
    ensures none { result ≡ None → IsPlanted (state_of search.now) }
{
    for place in 0..search.arena.node_limit() {
        let node = NodeId::new(place + 1);
        if can_plant(search, node) {
            return Some(node);
        }
    }
    None
}

/// The first outermost node without a mate.
pub fn exposed_node(search: &Search) -> Option<NodeId>
    requires sound { IsSound search.now }
    ensures exposed { IfSome result (IsExposed (state_of search.now)) }
    ensures none { result ≡ None → IsMatched (state_of search.now) }
{
    for place in 0..search.arena.node_limit() {
        let node = NodeId::new(place + 1);
        if is_exposed(search, node) {
            return Some(node);
        }
    }
    None
}

/// Whether the root of a node is the last one on its way there. A node in no tree has nothing to
/// show.
fn has_root(search: &Search, node: NodeId) -> bool
    requires sound { IsSound search.now }
    requires listed { HasTreeNodes search.now }
{
    if !is_outermost(search, node) {
        return true;
    }
    if search.label(node) == Label::Out {
        return true;
    }
    search.path_to_root(node).last() == Some(search.root(node))
}

/// Whether the root of each node in a tree is the last one on its way there.
pub fn have_roots(search: &Search) -> bool
    requires sound { IsSound search.now }
    requires listed { HasTreeNodes search.now }
{
    for place in 0..search.arena.node_limit() {
        if !has_root(search, NodeId::new(place + 1)) {
            return false;
        }
    }
    true
}
