ghost use Rattle.std.specs.Prelude.{◌≡◌, ◌<◌, ◌%◌, ℕ, [], length, vec_len};
ghost use Rattle.std.specs.List.{AllByRecursion};
ghost use Rattle.blossom_arena.specs.declared.links.Link.{Link};
ghost use Rattle.blossom_arena.specs.declared.label.Label.TheVariants.{Outer, Inner};
ghost use Rattle.alt_forest.specs.Searches.{label_at, edge_in, put};
ghost use Rattle.tree_steps.specs.Circuits.{mirror, last_edge};
ghost use Rattle.tree_steps.specs.Expanded.{mated, labelled_out, labels_up, parents_up};

use alt_forest::{Label, set_edge, set_label};
use base_types::EdgeId;
use blossom_arena::{Link, NodeId};

/// Labels the nodes of links `Out`.
pub(crate) fn label_out(labels: &mut Vec<Label>, links: &[Link])
    requires places { AllByRecursion (λ (l : Link). l.node < vec_len labels.old) links.now }
    ensures labels { label_at labels.new.items
        ≡ labelled_out (label_at labels.old.items) links.now }
    ensures len { vec_len labels.new ≡ vec_len labels.old }
{
    let mut left = links;
    while let [link, rest @ ..] = left {
        set_label(labels, link.node, Label::Out);
        left = rest;
    }
}

/// Makes neighbours mates two by two, each pair by the edge of its first link.
pub(crate) fn mate_pairs(mates: &mut Vec<Option<EdgeId>>, links: &[Link])
    requires places { AllByRecursion (λ (l : Link). l.node < vec_len mates.old) links.now }
    ensures mates { edge_in mates.new.items ≡ mated (edge_in mates.old.items) links.now }
    ensures len { vec_len mates.new ≡ vec_len mates.old }
{
    let mut left = links;
    while let [one, other, rest @ ..] = left {
        set_edge(mates, one.node, Some(one.edge));
        set_edge(mates, other.node, Some(one.edge));
        left = rest;
    }
}

/// Labels a pair that comes into a tree.
fn label_pair(labels: &mut Vec<Label>, outer: NodeId, inner: NodeId)
    requires outer { outer < vec_len labels.old }
    requires inner { inner < vec_len labels.old }
    ensures labels { label_at labels.new.items
        ≡ put (put (label_at labels.old.items) outer Outer) inner Inner }
    ensures len { vec_len labels.new ≡ vec_len labels.old }
{
    set_label(labels, outer, Label::Outer);
    set_label(labels, inner, Label::Inner);
}

/// Takes pairs into a tree upwards from an inner node, which hangs by the edge `first` under the
/// first pair. The last node hangs by the edge `parent`.
pub(crate) fn climb_up(
    labels: &mut Vec<Label>,
    parents: &mut Vec<Option<EdgeId>>,
    links: &[Link],
    base: NodeId,
    first: EdgeId,
    parent: EdgeId,
)
    requires even { length links.now % 2 ≡ 0 }
    requires labels { AllByRecursion (λ (l : Link). l.node < vec_len labels.old) links.now }
    requires parents { AllByRecursion (λ (l : Link). l.node < vec_len parents.old) links.now }
    requires base { base < vec_len parents.old }
    ensures labels { label_at labels.new.items ≡ labels_up (label_at labels.old.items) links.now }
    ensures parents { edge_in parents.new.items
        ≡ parents_up (edge_in parents.old.items) base first parent links.now }
    ensures labels_len { vec_len labels.new ≡ vec_len labels.old }
    ensures parents_len { vec_len parents.new ≡ vec_len parents.old }
{
    let mut node = base;
    let mut edge = first;
    let mut left = links;
    while let [outer, inner, rest @ ..] = left {
        label_pair(labels, outer.node, inner.node);
        set_edge(parents, node, Some(edge));
        node = inner.node;
        edge = inner.edge;
        left = rest;
    }
    set_edge(parents, node, Some(parent));
}

/// Takes pairs into a tree upwards from an inner node, from the last one back. The first link's
/// node hangs by the edge `parent`.
pub(crate) fn climb_down(
    labels: &mut Vec<Label>,
    parents: &mut Vec<Option<EdgeId>>,
    links: &[Link],
    base: NodeId,
    parent: EdgeId,
)
    requires even { length links.now % 2 ≡ 0 }
    requires labels { AllByRecursion (λ (l : Link). l.node < vec_len labels.old) links.now }
    requires parents { AllByRecursion (λ (l : Link). l.node < vec_len parents.old) links.now }
    requires base { base < vec_len parents.old }
    ensures labels { label_at labels.new.items
        ≡ labels_up (label_at labels.old.items) (mirror parent links.now []) }
    ensures parents { edge_in parents.new.items
        ≡ parents_up (edge_in parents.old.items) base (last_edge parent links.now) parent
        (mirror parent links.now []) }
    ensures labels_len { vec_len labels.new ≡ vec_len labels.old }
    ensures parents_len { vec_len parents.new ≡ vec_len parents.old }
{
    let mut node = base;
    let mut left = links;
    while let [rest @ .., inner, outer] = left {
        label_pair(labels, outer.node, inner.node);
        set_edge(parents, node, Some(outer.edge));
        node = inner.node;
        left = rest;
    }
    set_edge(parents, node, Some(parent));
}
