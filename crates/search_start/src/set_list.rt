ghost use Rattle.std.specs.Prelude.{◌≡◌, ◌≤◌, ℕ, true, vec_len};
ghost use Rattle.std.specs.List.{AllByRecursion};
ghost use Rattle.std.specs.Vec.{vec_capacity};
ghost use Rattle.graph_theory.specs.Nested.{most_blossoms};
ghost use Rattle.blossom_arena.specs.Family.{is_node};
ghost use Rattle.search_start.specs.Proving.{proving};

use blossom_arena::{Arena, NodeId};

/// Lists the blossoms of dual at least 1, the newest first.
pub fn list_sets(arena: &Arena, sets: &mut Vec<NodeId>)
    requires room { most_blossoms arena.now.vertex_count ≤ vec_capacity sets.old }
    ensures proving { sets.new.items ≡ proving arena.now.duals arena.now.blossoms }
    ensures nodes { AllByRecursion (λ b. is_node arena.now.vertex_count arena.now.blossoms b ≡ true)
        sets.new.items }
    ensures size_limit { vec_len sets.new ≤ most_blossoms arena.now.vertex_count }
    ensures capacity { vec_capacity sets.new ≡ vec_capacity sets.old }
{
    sets.clear();
    for b in arena.blossoms() {
        let counts = arena.dual(b) > 0;
        if counts {
            sets.push_reserved(b);
        }
    }
}
