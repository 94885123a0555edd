ghost use Rattle.std.specs.Prelude.{◌≡◌, ◌<◌, ℕ, suc, length, slice_index};
ghost use Rattle.std.specs.List.{AllByRecursion};
ghost use Rattle.std.specs.Iterator.{YieldsFirst, item_count};
ghost use Rattle.blossom_arena.specs.Fields.{climb, CanClimb, climb_to};

use base_types::NodeId;
use std::marker::Model;

/// The nodes that hold a vertex, innermost first. Contracts see the list of those to come.
#[derive(Drop)]
pub struct Chain<'a> {
    parents: &'a [u32],
    // The next node, or 0.
    at: u32,
}

impl<'a> Model for Chain<'a> {
    ghost use Rattle.std.specs.Prelude.{List, ℕ, length};
    ghost use Rattle.blossom_arena.specs.Fields.{climb, CanClimb};

    ghost Value = { List ℕ };

    ghost view = { λ s. climb (length s.parents.now) s.parents.now s.at };

    ghost invariant = { λ s. CanClimb s.parents.now s.at };
}

impl<'a> Chain<'a> {
    /// The nodes from one on, up by the table of parents.
    pub(crate) fn of(parents: &'a [u32], node: u32) -> Chain<'a>
        requires { CanClimb parents.now node }
        ensures { result ≡ climb (length parents.now) parents.now node }
    {
        Chain { parents, at: node }
    }
}

impl<'a> Iterator for Chain<'a> {
    type Item = NodeId;

    ghost next_gives = { YieldsFirst (λ s. s) };

    ghost remaining = { item_count (λ s. s) };

    fn next(&mut self) -> Option<NodeId> {
        if self.at == 0 {
            return None;
        }
        let node = self.at;
        self.at = self.parents[node as usize];
        Some(NodeId::new(node))
    }
}

/// The node below `stop` on the way up by the parents from a node that it holds.
pub(crate) fn child_below(parents: &[u32], node: u32, stop: u32) -> u32
    requires place { node < length parents.now }
    requires each { (x : ℕ) → x < length parents.now
        → slice_index parents.now x < length parents.now }
    ensures { result ≡ climb_to (length parents.now) parents.now stop node }
{
    let mut child = node;
    for _ in 0..parents.len() {
        let parent = parents[child as usize];
        if parent == stop {
            return child;
        }
        child = parent;
    }
    child
}
