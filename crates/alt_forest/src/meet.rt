ghost use Rattle.std.specs.Prelude.{◌≡◌, ◌≢◌, ◌+◌, ◌↔◌, ℕ, true, false, None, Some, IfNone, IfSome};
ghost use Rattle.std.specs.Prelude.{drop, take, length};
ghost use Rattle.graph_theory.specs.Parts.{holds};
ghost use Rattle.blossom_arena.specs.declared.label.Label.TheVariants.{Out};
ghost use Rattle.alt_forest.specs.State.{IsOutermost};
ghost use Rattle.alt_forest.specs.Trees.{path_of, root_of, first_common};
ghost use Rattle.alt_forest.specs.Searches.{IsSound, state_of, label_at};
ghost use Rattle.alt_forest.specs.Routes.{AreLevel, IsAt};

use crate::path::RootPath;
use crate::search::Search;
use blossom_arena::NodeId;

/// How many nodes deep a path is searched first for the place where it meets another one. Each
/// search in vain is followed by one that goes twice as deep.
const FIRST_REACH: u32 = 16;

/// A path without its first nodes.
fn shortened(path: RootPath<'_>, nodes: u32) -> RootPath<'_>
    ensures { result ≡ drop nodes path.entry }
{
    let mut rest = path;
    for _ in 0..nodes {
        rest.next();
    }
    rest
}

/// How many nodes a path has, if they are no more than `most`. Else it is `most`, and the node that
/// comes after so many.
fn counted(path: RootPath<'_>, most: u32) -> (u32, Option<NodeId>)
    ensures ended { IfNone result.1 (result.0 ≡ length path.entry) }
    ensures goes_on { IfSome result.1 (λ node. (result.0 ≡ most) × IsAt path.entry most node) }
{
    let mut rest = path;
    for nodes in 0..most {
        let Some(_) = rest.next() else {
            return (nodes, None);
        };
    }
    (most, rest.next())
}

/// How many nodes of a path come before this one, if it is among its first `most`.
fn place_of(path: RootPath<'_>, node: NodeId, most: u32) -> Option<u32>
    ensures found { IfSome result (λ place. IsAt path.entry place node) }
    ensures none { IfNone result (holds (take most path.entry) node ≡ false) }
{
    let mut rest = path;
    for place in 0..most {
        if is_found(rest.next(), node) {
            return Some(place);
        }
    }
    None
}

/// How many nodes the ways of two nodes have below a node of both, or in all: two numbers that
/// differ as the lengths of the ways do. Above the node where the ways meet it looks at no more
/// nodes than in proportion to those below.
fn heights(search: &Search, a: NodeId, b: NodeId) -> (u32, u32)
    requires sound { IsSound search.now }
    requires a_outermost { IsOutermost (state_of search.now) a }
    requires b_outermost { IsOutermost (state_of search.now) b }
    requires a_in_tree { label_at search.now.labels.items a ≢ Out }
    requires b_in_tree { label_at search.now.labels.items b ≢ Out }
    ensures { result.0 + length (path_of (state_of search.now) b)
        ≡ result.1 + length (path_of (state_of search.now) a) }
{
    let mut reach = FIRST_REACH;
    loop {
        let (left, next) = counted(search.path_to_root(a), reach);
        let Some(node) = next else {
            let (right, _) = counted(search.path_to_root(b), u32::MAX);
            return (left, right);
        };
        if let Some(right) = place_of(search.path_to_root(b), node, 2 * reach) {
            return (left, right);
        }
        reach *= 2;
    }
}

/// Whether this node was found.
pub(crate) fn is_found(found: Option<NodeId>, node: NodeId) -> bool
    ensures { (result ≡ true) ↔ (found ≡ Some node) }
{
    match found {
        Some(other) => other.number() == node.number(),
        None => false,
    }
}

/// The first node that two paths of one length share.
fn first_shared(left: RootPath<'_>, right: RootPath<'_>) -> Option<NodeId>
    requires { AreLevel left right }
    ensures { result ≡ first_common left.entry right.entry }
{
    let mut other = right;
    for node in left {
        if is_found(other.next(), node) {
            return Some(node);
        }
    }
    None
}

impl Search {
    /// The first node on the way from `a` to its root that is also on the way from `b`: none if the
    /// two lie in different trees (chapter 24). It takes time linear in the longer of the two ways
    /// to that node, or, if there is none, in the two paths, and no memory.
    pub fn meet(&self, a: NodeId, b: NodeId) -> Option<NodeId>
        requires sound { IsSound self.now }
        requires a_outermost { IsOutermost (state_of self.now) a }
        requires b_outermost { IsOutermost (state_of self.now) b }
        requires a_in_tree { label_at self.now.labels.items a ≢ Out }
        requires b_in_tree { label_at self.now.labels.items b ≢ Out }

        // Two paths to the root meet at their first common node, or lie in different trees.
        ensures meet { result ≡ first_common (path_of (state_of self.now) a)
            (path_of (state_of self.now) b) }
        ensures none { (result ≡ None)
            ↔ (root_of (state_of self.now) a ≢ root_of (state_of self.now) b) }
    {
        let (left, right) = heights(self, a, b);
        first_shared(
            shortened(self.path_to_root(a), left.saturating_sub(right)),
            shortened(self.path_to_root(b), right.saturating_sub(left)),
        )
    }
}
