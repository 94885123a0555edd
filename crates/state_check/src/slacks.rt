ghost use Rattle.std.specs.Prelude.{◌≡◌, ◌↔◌, ◌≤◌, ℕ, pos, ◌≤ℤ◌, true};
ghost use Rattle.graph_theory.specs.Graph.{IsEdgeNumber};
ghost use Rattle.alt_forest.specs.State.{slack_of};
ghost use Rattle.alt_forest.specs.Searches.{HasShape, state_of};

use crate::edges::slack_at;
use alt_forest::Search;
use base_types::EdgeId;

/// Whether no slack is negative.
pub(crate) fn slacks_hold(search: &Search) -> bool
    requires shape { HasShape search.now }
    ensures { (result ≡ true)
        ↔ ((e : ℕ) → IsEdgeNumber search.now.graph e → pos 0 ≤ℤ slack_of (state_of search.now) e) }
{
    for place in 0..search.graph.edges() {
        if slack_at(search, EdgeId::new(place + 1)) < 0 {
            return false;
        }
    }
    true
}
