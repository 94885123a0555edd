ghost use Rattle.std.specs.Prelude.{◌≡◌, ◌≤◌, ◌+◌, ◌*◌, []};
ghost use Rattle.alt_forest.specs.Searches.{IsSound, state_of};
ghost use Rattle.alt_forest.specs.Counts.{exposed_count};
ghost use Rattle.search_keys.specs.Bounds.{HasNearSums, HasPlaces};
ghost use Rattle.dual_change.specs.Changes.{IsPossible};
ghost use Rattle.mwpm_engine.specs.Solutions.{size_of_graph};
ghost use Rattle.mwpm_engine.specs.Passes.{IsSamePass, IsReady, IsRunning, EndsPass, Happens};
ghost use Rattle.mwpm_engine.specs.Passes.{pass_steps, stage_of};

use crate::running::{reach_bounding, take_in_bounding};
use alt_forest::Search;
use augment::join_bounding;
use base_types::Steps;
use dual_change::Event;
use search_keys::EventBounds;
use search_start::plant_all_bounding;
use std::sync::ledger::Ledger;

/// Makes an event happen. An augment takes the two trees away that it joins, and all others stay.
/// It answers whether a tree is left.
fn perform<L: Ledger>(
    search: &mut Search,
    bounds: &mut EventBounds,
    event: Event,
    steps: &mut Steps<L>,
) -> bool
    requires running { IsRunning search.old bounds.old }
    requires possible { IsPossible (state_of search.old) event }
    ensures happens { Happens (stage_of search.old bounds.old steps.old)
        (stage_of search.new bounds.new steps.new) event result }
    ensures pass { IsSamePass search.old search.new }
{
    match take_in_bounding(search, bounds, event, steps) {
        Some(e) => join_bounding(search, bounds, e, steps),
        None => true,
    }
}

/// A pass (chapters 24 and 26), once it has duals and mates to start with: every exposed node is
/// planted, and the forest grows, from one augment to the next, until no exposed node is left;
/// false where it is stuck. It keeps bounds of the moments of events, and begins with none.
pub(crate) fn pass<L: Ledger>(
    search: &mut Search,
    bounds: &mut EventBounds,
    steps: &mut Steps<L>,
) -> bool
    requires well_formed { IsReady search.old }
    requires near { HasNearSums (state_of search.old) search.old.clock }
    requires places { HasPlaces search.old.graph bounds.old }
    requires blossoms { search.old.arena.blossoms ≡ [] }
    ensures ends { EndsPass search.new result }
    ensures sound { IsSound search.new }
    ensures places { HasPlaces search.new.graph bounds.new }
    ensures pass { IsSamePass search.old search.new }
    ensures steps { 4 * steps.new ≤ 4 * steps.old + pass_steps (size_of_graph search.old.graph)
        (exposed_count (state_of search.old)) result }
{
    bounds.clear();
    let some = plant_all_bounding(search, bounds, steps);
    if !some {
        return true;
    }
    while let Some(event) = reach_bounding(search, bounds, steps) {
        let left = perform(search, bounds, event, steps);
        if !left {
            return true;
        }
    }
    false
}
