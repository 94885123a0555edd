ghost use Rattle.std.specs.Prelude.{◌≡◌, ◌<◌, ℕ, length};
ghost use Rattle.std.specs.List.{AllByRecursion};
ghost use Rattle.std.specs.Iterator.{YieldsFirst, item_count};
ghost use Rattle.blossom_arena.specs.Tables.{walk};

use base_types::NodeId;
use std::marker::Model;

/// The nodes of all blossoms, newest first. Contracts see the list of those to come.
#[derive(Drop)]
pub struct Blossoms<'a> {
    older: &'a [u32],
    at: u32,
    left: u32,
}

impl<'a> Model for Blossoms<'a> {
    ghost use Rattle.std.specs.Prelude.{List, ℕ, ◌<◌, length};
    ghost use Rattle.std.specs.List.{AllByRecursion};
    ghost use Rattle.blossom_arena.specs.Tables.{walk};

    ghost Value = { List ℕ };

    ghost view = { λ s. walk s.left s.older.now s.at };

    ghost invariant = { λ s. AllByRecursion (λ a. a < length s.older.now)
        (walk s.left s.older.now s.at) };
}

impl<'a> Blossoms<'a> {
    /// So many nodes from the newest on.
    pub(crate) fn of(older: &'a [u32], newest: u32, count: u32) -> Blossoms<'a>
        requires { AllByRecursion (λ a. a < length older.now) (walk count older.now newest) }
        ensures { result ≡ walk count older.now newest }
    {
        Blossoms {
            older,
            at: newest,
            left: count,
        }
    }
}

impl<'a> Iterator for Blossoms<'a> {
    type Item = NodeId;

    ghost next_gives = { YieldsFirst (λ s. s) };

    ghost remaining = { item_count (λ s. s) };

    fn next(&mut self) -> Option<NodeId> {
        if self.left == 0 {
            return None;
        }
        let node = self.at;
        self.at = self.older[node as usize];
        self.left -= 1;
        Some(NodeId::new(node))
    }
}
