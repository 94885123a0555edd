ghost use Rattle.std.specs.Prelude.{◌≡◌, ℕ, IfSome};
ghost use Rattle.alt_forest.specs.State.{IsExposed};
ghost use Rattle.alt_forest.specs.Searches.{IsSound, state_of};
ghost use Rattle.alt_forest.specs.Counts.{IsPlanted};
ghost use Rattle.alt_forest.specs.Entries.{IsQueued};
ghost use Rattle.alt_forest.specs.Events.{CanAugment};
ghost use Rattle.alt_forest.specs.TreeNodes.{HasTreeNodes};
ghost use Rattle.dual_change.specs.Changes.{applied, IsWithin, IsPossible};

use super::looks::free_node;
use super::range::stays_in_range;
use alt_forest::Search;
use augment::{flip, join};
use dual_change::{Event, Next, apply, find};
use mb_base::{EdgeId, Steps};
use state_check::check_search;
use std::process::Abort;
use std::sync::ledger::Ledger;
use tree_steps::{expand, grow, shrink};
use weighted_graph::Graph;

/// Changes the duals by d, and answers the event that can happen then.
fn change<L: Ledger>(
    rt: &impl Abort,
    search: &mut Search,
    event: Event,
    d: i128,
    steps: &mut Steps<L>,
) -> Event
    requires sound { IsSound search.old }
    requires event_times { IsQueued search.old }
    requires listed { HasTreeNodes search.old }
    requires all_rooted { IsPlanted (state_of search.old) }
    requires exposed { (a : ℕ) × IsExposed (state_of search.old) a }
    requires within { IsWithin (state_of search.old) d }
    requires leads { IsPossible (applied (state_of search.old) d) event }
    ensures sound { IsSound search.new }
    ensures event_times { IsQueued search.new }
    ensures listed { HasTreeNodes search.new }
    ensures all_rooted { IsPlanted (state_of search.new) }
    ensures graph { search.new.graph ≡ search.old.graph }
    ensures possible { IsPossible (state_of search.new) result }
{
    if !stays_in_range(search, d) {
        panic!(rt; "a dual is large");
    }
    apply(search, d, steps);
    event
}

/// Changes the duals until an event can happen, and answers it; None if the forest is stuck.
pub fn reach<L: Ledger>(
    rt: &impl Abort,
    search: &mut Search,
    graph: &Graph,
    steps: &mut Steps<L>,
) -> Option<Event>
    requires sound { IsSound search.old }
    requires event_times { IsQueued search.old }
    requires listed { HasTreeNodes search.old }
    requires same_graph { graph.now ≡ search.old.graph }
    requires all_rooted { IsPlanted (state_of search.old) }
    requires exposed { (a : ℕ) × IsExposed (state_of search.old) a }
    ensures sound { IsSound search.new }
    ensures event_times { IsQueued search.new }
    ensures listed { HasTreeNodes search.new }
    ensures same_graph { graph.now ≡ search.new.graph }
    ensures all_rooted { IsPlanted (state_of search.new) }
    ensures possible { IfSome result (IsPossible (state_of search.new)) }
{
    match find(search, graph, steps) {
        Next::Grow(e, d) => Some(change(rt, search, Event::Grow(e), d, steps)),
        Next::Shrink(e, d) => Some(change(rt, search, Event::Shrink(e), d, steps)),
        Next::Augment(e, d) => Some(change(rt, search, Event::Augment(e), d, steps)),
        Next::Expand(b, d) => Some(change(rt, search, Event::Expand(b), d, steps)),
        Next::Stuck => None,
    }
}

/// Makes every exposed node the root of a tree that isn't one yet.
pub fn plant_all<L: Ledger>(
    rt: &impl Abort,
    search: &mut Search,
    graph: &Graph,
    steps: &mut Steps<L>,
)
    requires sound { IsSound search.old }
    requires event_times { IsQueued search.old }
    requires listed { HasTreeNodes search.old }
    requires same_graph { graph.now ≡ search.old.graph }
    ensures sound { IsSound search.new }
    ensures event_times { IsQueued search.new }
    ensures listed { HasTreeNodes search.new }
    ensures same_graph { graph.now ≡ search.new.graph }
    ensures all_rooted { IsPlanted (state_of search.new) }
{
    for _ in 0..search.arena.node_limit() {
        let Some(root) = free_node(search) else {
            return;
        };
        search.plant(graph, root, steps);
        assert!(rt; check_search(search));
    }
    panic!(rt; "more nodes are planted than there are");
}

/// Augments the matching: the other trees stay, or all are planted anew.
fn augment<L: Ledger>(
    rt: &impl Abort,
    search: &mut Search,
    graph: &Graph,
    e: EdgeId,
    trees_stay: bool,
    steps: &mut Steps<L>,
)
    requires sound { IsSound search.old }
    requires event_times { IsQueued search.old }
    requires listed { HasTreeNodes search.old }
    requires same_graph { graph.now ≡ search.old.graph }
    requires all_rooted { IsPlanted (state_of search.old) }
    requires possible { CanAugment (state_of search.old) e }
    ensures sound { IsSound search.new }
    ensures event_times { IsQueued search.new }
    ensures listed { HasTreeNodes search.new }
    ensures same_graph { graph.now ≡ search.new.graph }
    ensures all_rooted { IsPlanted (state_of search.new) }
{
    if trees_stay {
        join(search, graph, e, steps);
        return;
    }
    flip(search, graph, e, steps);
    assert!(rt; check_search(search));
    plant_all(rt, search, graph, steps);
}

/// Performs an event.
pub fn perform<L: Ledger>(
    rt: &impl Abort,
    search: &mut Search,
    graph: &Graph,
    event: Event,
    trees_stay: bool,
    steps: &mut Steps<L>,
)
    requires sound { IsSound search.old }
    requires event_times { IsQueued search.old }
    requires listed { HasTreeNodes search.old }
    requires same_graph { graph.now ≡ search.old.graph }
    requires all_rooted { IsPlanted (state_of search.old) }
    requires possible { IsPossible (state_of search.old) event }
    ensures sound { IsSound search.new }
    ensures event_times { IsQueued search.new }
    ensures listed { HasTreeNodes search.new }
    ensures same_graph { graph.now ≡ search.new.graph }
    ensures all_rooted { IsPlanted (state_of search.new) }
{
    match event {
        Event::Augment(e) => augment(rt, search, graph, e, trees_stay, steps),
        Event::Grow(e) => grow(search, graph, e, steps),
        Event::Shrink(e) => {
            shrink(search, graph, e, steps);
        }
        Event::Expand(b) => expand(search, graph, b, steps),
    }
}
