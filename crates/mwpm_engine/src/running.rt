ghost use Rattle.std.specs.Prelude.{◌≡◌, ◌≤◌, ◌+◌, ◌*◌};
ghost use Rattle.alt_forest.specs.Searches.{state_of};
ghost use Rattle.dual_change.specs.Changes.{IsPossible};
ghost use Rattle.mwpm_engine.specs.Passes.{IsSamePass, IsRunning, IsReached, KeepsCounts};
ghost use Rattle.mwpm_engine.specs.Passes.{TakesOrKeeps, pass_account, stage_of, steps_reached};

use crate::phases::event_of;
use alt_forest::Search;
use base_types::{EdgeId, Steps};
use dual_change::{Event, apply_bounding, find_bounding};
use search_keys::EventBounds;
use std::sync::ledger::Ledger;
use tree_steps::{expand_bounding, grow_bounding, shrink_bounding};

/// Changes the duals until an event can happen, and answers it; None if the forest is stuck.
pub(crate) fn reach_bounding<L: Ledger>(
    search: &mut Search,
    bounds: &mut EventBounds,
    steps: &mut Steps<L>,
) -> Option<Event>
    requires running { IsRunning search.old bounds.old }
    ensures running { IsRunning search.new bounds.new }
    ensures reached { IsReached search.new result }
    ensures keeps { KeepsCounts (state_of search.old) (state_of search.new) }
    ensures pass { IsSamePass search.old search.new }
    ensures paid { pass_account (stage_of search.new bounds.new steps.new)
        ≤ pass_account (stage_of search.old bounds.old steps.old) + 4 * steps_reached result }
{
    let next = find_bounding(search, bounds, &search.graph, steps);
    let (event, d) = event_of(&next)?;
    apply_bounding(search, bounds, d, steps);
    Some(event)
}

/// Makes an event happen that takes something into a tree or out of its way. An augment is left to
/// be done: its edge is answered.
pub(crate) fn take_in_bounding<L: Ledger>(
    search: &mut Search,
    bounds: &mut EventBounds,
    event: Event,
    steps: &mut Steps<L>,
) -> Option<EdgeId>
    requires running { IsRunning search.old bounds.old }
    requires possible { IsPossible (state_of search.old) event }
    ensures takes { TakesOrKeeps (stage_of search.old bounds.old steps.old)
        (stage_of search.new bounds.new steps.new) event result }
    ensures pass { IsSamePass search.old search.new }
{
    match event {
        Event::Augment(e) => Some(e),
        Event::Grow(e) => {
            grow_bounding(search, bounds, e, steps);
            None
        }
        Event::Shrink(e) => {
            shrink_bounding(search, bounds, e, steps);
            None
        }
        Event::Expand(b) => {
            expand_bounding(search, bounds, b, steps);
            None
        }
    }
}
