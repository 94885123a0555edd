ghost use Rattle.std.specs.Prelude.{◌≡◌, ◌<◌, ℕ, length};
ghost use Rattle.std.specs.List.{AllByRecursion};
ghost use Rattle.std.specs.Iterator.{YieldsFirst, item_count};
ghost use Rattle.blossom_arena.specs.Fields.{vertices_of};

use crate::runs::Run;
use base_types::VertexId;
use std::marker::Model;

/// The vertices of a node, in the order of the circuits that it was made of. Contracts see the list
/// of those to come.
#[derive(Drop)]
pub struct Members<'a> {
    followers: &'a [u32],
    at: u32,
    left: u32,
}

impl<'a> Model for Members<'a> {
    ghost use Rattle.std.specs.Prelude.{List, ℕ, ◌<◌, length};
    ghost use Rattle.std.specs.List.{AllByRecursion};
    ghost use Rattle.blossom_arena.specs.Tables.{walk};

    ghost Value = { List ℕ };

    ghost view = { λ s. walk s.left s.followers.now s.at };

    ghost invariant = { λ s. AllByRecursion (λ v. v < length s.followers.now)
        (walk s.left s.followers.now s.at) };
}

impl<'a> Members<'a> {
    /// The vertices of a run.
    pub(crate) fn of(followers: &'a [u32], run: Run) -> Members<'a>
        requires { AllByRecursion (λ v. v < length followers.now) (vertices_of followers.now run) }
        ensures { result ≡ vertices_of followers.now run }
    {
        Members {
            followers,
            at: run.head,
            left: run.size,
        }
    }
}

impl<'a> Iterator for Members<'a> {
    type Item = VertexId;

    ghost next_gives = { YieldsFirst (λ s. s) };

    ghost remaining = { item_count (λ s. s) };

    fn next(&mut self) -> Option<VertexId> {
        if self.left == 0 {
            return None;
        }
        let vertex = self.at;
        self.at = self.followers[vertex as usize];
        self.left -= 1;
        Some(VertexId::new(vertex))
    }
}
