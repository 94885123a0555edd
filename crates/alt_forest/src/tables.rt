ghost use Rattle.std.specs.Prelude.{◌≡◌, ◌<◌, ℕ, None, length, vec_len};
ghost use Rattle.blossom_arena.specs.declared.label.Label.TheVariants.{Out};
ghost use Rattle.alt_forest.specs.Searches.{label_at, edge_in, put};

use base_types::EdgeId;
use blossom_arena::{Label, NodeId};

/// The label of a node; `Out` if there is no place for its number.
pub(crate) fn label_of(labels: &[Label], node: u32) -> Label
    ensures { result ≡ label_at labels.now node }
{
    labels.get(node as usize).copied().unwrap_or(Label::Out)
}

/// The edge that is kept for a node.
pub(crate) fn edge_for(edges: &[Option<EdgeId>], node: u32) -> Option<EdgeId>
    requires { node < length edges.now }
    ensures { result ≡ edge_in edges.now node }
{
    edges[node as usize]
}

/// Gives a node another label.
pub fn set_label(labels: &mut Vec<Label>, node: NodeId, label: Label)
    requires place { node < vec_len labels.old }
    ensures labels { label_at labels.new.items ≡ put (label_at labels.old.items) node label }
    ensures len { vec_len labels.new ≡ vec_len labels.old }
{
    labels[node.number() as usize] = label;
}

/// Keeps another edge, or none, for a node: the one to its mate, or to its parent.
pub fn set_edge(edges: &mut Vec<Option<EdgeId>>, node: NodeId, edge: Option<EdgeId>)
    requires place { node < vec_len edges.old }
    ensures edges { edge_in edges.new.items ≡ put (edge_in edges.old.items) node edge }
    ensures len { vec_len edges.new ≡ vec_len edges.old }
{
    edges[node.number() as usize] = edge;
}

/// Labels all nodes `Out`.
pub(crate) fn wipe_labels(labels: &mut Vec<Label>)
    ensures out { (node : ℕ) → label_at labels.new.items node ≡ Out }
    ensures len { vec_len labels.new ≡ vec_len labels.old }
{
    labels.fill(Label::Out);
}

/// Keeps no edge for any node.
pub(crate) fn wipe_edges(edges: &mut Vec<Option<EdgeId>>)
    ensures none { (node : ℕ) → edge_in edges.new.items node ≡ None }
    ensures len { vec_len edges.new ≡ vec_len edges.old }
{
    edges.fill(None);
}
