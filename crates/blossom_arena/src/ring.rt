ghost use Rattle.std.specs.Prelude.{◌≡◌, ◌<◌, ℕ, length};
ghost use Rattle.std.specs.List.{AllByRecursion};
ghost use Rattle.std.specs.Iterator.{YieldsFirst, item_count};
ghost use Rattle.blossom_arena.specs.Tables.{walk, links_of};

use crate::links::Link;
use base_types::{EdgeId, NodeId};
use std::marker::Model;

/// The links of the circuit that a blossom was made of, in its order. Contracts see the list of
/// those to come.
#[derive(Drop)]
pub struct Ring<'a> {
    nexts: &'a [u32],
    edges: &'a [EdgeId],
    at: u32,
    left: u32,
}

impl<'a> Model for Ring<'a> {
    ghost use Rattle.std.specs.Prelude.{List, ℕ, ◌<◌, length};
    ghost use Rattle.std.specs.List.{AllByRecursion};
    ghost use Rattle.blossom_arena.specs.Tables.{walk, links_of};
    ghost use Rattle.blossom_arena.specs.declared.links.Link.{Link};

    ghost Value = { List Link };

    ghost view = { λ s. links_of s.edges.now (walk s.left s.nexts.now s.at) };

    ghost invariant = { λ s. AllByRecursion (λ a. (a < length s.nexts.now)
        × (a < length s.edges.now)) (walk s.left s.nexts.now s.at) };
}

impl<'a> Ring<'a> {
    /// So many links from a node on.
    pub(crate) fn of(nexts: &'a [u32], edges: &'a [EdgeId], first: u32, links: u32) -> Ring<'a>
        requires { AllByRecursion (λ a. (a < length nexts.now) × (a < length edges.now))
            (walk links nexts.now first) }
        ensures { result ≡ links_of edges.now (walk links nexts.now first) }
    {
        Ring {
            nexts,
            edges,
            at: first,
            left: links,
        }
    }
}

impl<'a> Iterator for Ring<'a> {
    type Item = Link;

    ghost next_gives = { YieldsFirst (λ s. s) };

    ghost remaining = { item_count (λ s. s) };

    fn next(&mut self) -> Option<Link> {
        if self.left == 0 {
            return None;
        }
        let node = self.at;
        let edge = self.edges[node as usize];
        self.at = self.nexts[node as usize];
        self.left -= 1;
        Some(Link {
            node: NodeId::new(node),
            edge,
        })
    }
}
