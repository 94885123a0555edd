ghost use Rattle.std.specs.Prelude.{◌≡◌, vec_len};
ghost use Rattle.blossom_arena.specs.declared.label.Label.TheVariants.{Outer};
ghost use Rattle.alt_forest.specs.State.{IsOutermost};
ghost use Rattle.alt_forest.specs.Searches.{HasShape, IsSound, state_of, edge_in};
ghost use Rattle.augment.specs.Turns.{JoinsTwoTrees, CanClimb, IsClimbed, IsUprooted, IsTurned};
ghost use Rattle.augment.specs.Turns.{edge_up};

use crate::marking::edge_for;
use alt_forest::{Label, Search, set_edge};
use base_types::EdgeId;
use blossom_arena::NodeId;

/// Changes the mates on the way from a node, which takes the edge, up to the root of its tree.
fn climb(search: &mut Search, e: EdgeId, start: NodeId)
    requires shape { HasShape search.old }
    requires possible { CanClimb (state_of search.old) e start }
    ensures frame { search.new ≡ record search.old { mates = search.new.mates } }
    ensures len { vec_len search.new.mates ≡ vec_len search.old.mates }
    ensures climbed { (h : CanClimb (state_of search.old) e start)
        → IsClimbed h.was h.base (edge_in search.old.mates.items) (edge_in search.new.mates.items) e
        start }
{
    let mut node = start;
    let mut edge = e;
    'path: while search.mate(node).is_some() {
        let hop = search.hop(node);
        set_edge(&mut search.mates, node, Some(edge));
        set_edge(&mut search.mates, hop.inner, Some(hop.parent));
        node = hop.outer;
        edge = hop.parent;
    }
    let root = node;
    set_edge(&mut search.mates, root, Some(edge));
}

/// Takes an outer node's mate away, and changes the mates on the way from there to the root of its
/// tree, which gets a mate in its place.
fn uproot(search: &mut Search, far: NodeId)
    requires sound { IsSound search.old }
    requires is { IsOutermost (state_of search.old) far }
    requires outer { (state_of search.old).label far ≡ Outer }
    ensures frame { search.new ≡ record search.old { mates = search.new.mates } }
    ensures len { vec_len search.new.mates ≡ vec_len search.old.mates }
    ensures uprooted { IsUprooted (state_of search.old) (edge_in search.new.mates.items) far }
{
    if search.mate(far).is_none() {
        return;
    }
    let hop = search.hop(far);
    set_edge(&mut search.mates, far, None);
    set_edge(&mut search.mates, hop.inner, Some(hop.parent));
    climb(search, hop.parent, hop.outer);
}

/// The edge that a node takes on the way up to a root: an inner one its parent, another one what
/// was taken last.
fn edge_up(search: &Search, last: Option<EdgeId>, node: NodeId) -> Option<EdgeId>
    requires shape { HasShape search.now }
    requires outermost { IsOutermost (state_of search.now) node }
    ensures { result ≡ edge_up (state_of search.now) last node }
{
    match search.label(node) {
        Label::Inner => search.parent(node),
        Label::Outer => last,
        Label::Out => last,
    }
}

/// Takes an outer node's mate away in a copy of the mates, and changes those on the way from there
/// to the root of its tree, which gets a mate in its place. The search's own stay.
pub(crate) fn uproot_in(search: &Search, mates: &mut Vec<Option<EdgeId>>, far: NodeId)
    requires sound { IsSound search.now }
    requires copy { mates.old.items ≡ search.now.mates.items }
    requires is { IsOutermost (state_of search.now) far }
    requires outer { (state_of search.now).label far ≡ Outer }
    ensures len { vec_len mates.new ≡ vec_len mates.old }
    ensures uprooted { IsUprooted (state_of search.now) (edge_in mates.new.items) far }
{
    let mut last = None;
    for node in search.path_to_root(far) {
        set_edge(mates, node, edge_up(search, last, node));
        last = edge_for(mates, node);
    }
}

/// Matches two nodes by the edge, and changes the mates from each of them to the root of its tree.
pub(crate) fn turn(search: &mut Search, e: EdgeId, near: NodeId, far: NodeId)
    requires sound { IsSound search.old }
    requires ends { JoinsTwoTrees (state_of search.old) e near far }
    ensures frame { search.new ≡ record search.old { mates = search.new.mates } }
    ensures len { vec_len search.new.mates ≡ vec_len search.old.mates }
    ensures turned { IsTurned (state_of search.old) (edge_in search.new.mates.items) e near far }
{
    uproot(search, far);
    set_edge(&mut search.mates, far, Some(e));
    climb(search, e, near);
}
