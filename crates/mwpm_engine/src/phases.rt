ghost use Rattle.std.specs.Prelude.{◌≡◌, ◌≤◌, ◌+◌, ℕ, length};
ghost use Rattle.blossom_arena.specs.declared.label.Label.TheVariants.{Out};
ghost use Rattle.alt_forest.specs.State.{IsExposed};
ghost use Rattle.alt_forest.specs.Searches.{IsSound, label_at, state_of};
ghost use Rattle.alt_forest.specs.Entries.{IsQueued};
ghost use Rattle.alt_forest.specs.TreeNodes.{HasTreeNodes};
ghost use Rattle.dual_change.specs.Changes.{IsPossible};
ghost use Rattle.search_start.specs.Bounds.{IsBounded};
ghost use Rattle.mwpm_engine.specs.Solutions.{size_of_graph};
ghost use Rattle.mwpm_engine.specs.Passes.{IsSamePass, IsGrowing, IsReached, KeepsCounts};
ghost use Rattle.mwpm_engine.specs.Passes.{TakesOrPuts, EndsPhase, account, event_of};
ghost use Rattle.mwpm_engine.specs.Passes.{steps_reached, phase_steps};

use crate::phase_end::PhaseEnd;
use alt_forest::Search;
use augment::flip;
use base_types::{EdgeId, Steps};
use dual_change::{Event, Next, apply, find};
use search_start::plant_all;
use std::sync::ledger::Ledger;
use tree_steps::{expand, grow, shrink};
use weighted_graph::Graph;

/// What comes next as an event with the change of duals that leads to it; None if the forest is
/// stuck.
pub(crate) fn event_of(next: &Next) -> Option<(Event, i128)>
    ensures { result ≡ event_of next.now }
{
    match next {
        Next::Grow(e, d) => Some((Event::Grow(*e), *d)),
        Next::Shrink(e, d) => Some((Event::Shrink(*e), *d)),
        Next::Augment(e, d) => Some((Event::Augment(*e), *d)),
        Next::Expand(b, d) => Some((Event::Expand(*b), *d)),
        Next::Stuck => None,
    }
}

/// Changes the duals until an event can happen, and answers it; None if the forest is stuck.
pub(crate) fn reach<L: Ledger>(
    search: &mut Search,
    graph: &Graph,
    steps: &mut Steps<L>,
) -> Option<Event>
    requires growing { IsGrowing search.old }
    requires same_graph { graph.now ≡ search.old.graph }
    ensures growing { IsGrowing search.new }
    ensures reached { IsReached search.new result }
    ensures keeps { KeepsCounts (state_of search.old) (state_of search.new) }
    ensures pass { IsSamePass search.old search.new }
    ensures paid { account search.new steps.new ≤ account search.old steps.old
        + steps_reached result }
{
    let next = find(search, graph, steps);
    let (event, d) = event_of(&next)?;
    apply(search, d, steps);
    Some(event)
}

/// Makes an event happen that takes something into a tree or out of its way. An augment is left to
/// be done: its edge is answered.
pub(crate) fn take_in<L: Ledger>(
    search: &mut Search,
    graph: &Graph,
    event: Event,
    steps: &mut Steps<L>,
) -> Option<EdgeId>
    requires growing { IsGrowing search.old }
    requires same_graph { graph.now ≡ search.old.graph }
    requires possible { IsPossible (state_of search.old) event }
    ensures takes { TakesOrPuts search.old steps.old search.new steps.new event result }
    ensures pass { IsSamePass search.old search.new }
{
    match event {
        Event::Augment(e) => Some(e),
        Event::Grow(e) => {
            grow(search, graph, e, steps);
            None
        }
        Event::Shrink(e) => {
            shrink(search, graph, e, steps);
            None
        }
        Event::Expand(b) => {
            expand(search, graph, b, steps);
            None
        }
    }
}

/// A phase (chapters 24 and 26): a forest with every exposed node as a root grows until the
/// matching can be augmented, and is; or until it is stuck. No tree stands before it, and none
/// after an augment. The duals are bounded before and after it: in the pass without weights they
/// are 0; in the pass with weights, on a graph with a perfect matching, no dual has moved farther
/// from its first value than the sum of all duals has risen. Where it begins with s blossoms on a
/// graph with n vertices and m edges it counts at most 4m(1 + s) + 3n + 2 steps. It takes no
/// memory.
pub fn phase<L: Ledger>(search: &mut Search, graph: &Graph, steps: &mut Steps<L>) -> PhaseEnd
    requires sound { IsSound search.old }
    requires event_times { IsQueued search.old }
    requires listed { HasTreeNodes search.old }
    requires same_graph { graph.now ≡ search.old.graph }
    requires labels { (a : ℕ) → label_at search.old.labels.items a ≡ Out }
    requires exposed { (a : ℕ) × IsExposed (state_of search.old) a }
    requires bounded { IsBounded (state_of search.old) search.old.start }

    // A phase leaves two exposed nodes fewer and no tree, or a stuck forest, and keeps the duals
    // bounded.
    ensures ends { EndsPhase search.old search.new result }
    ensures sound { IsSound search.new }
    ensures event_times { IsQueued search.new }
    ensures listed { HasTreeNodes search.new }
    ensures bounded { IsBounded (state_of search.new) search.new.start }
    ensures pass { IsSamePass search.old search.new }

    // At most 4m(1 + s) + 3n + 2 steps if it begins with s blossoms.
    ensures steps { steps.new ≤ steps.old + phase_steps (size_of_graph graph.now)
        (length search.old.arena.blossoms) }
{
    plant_all(search, graph, steps);
    while let Some(event) = reach(search, graph, steps) {
        if let Some(e) = take_in(search, graph, event, steps) {
            flip(search, graph, e, steps);
            return PhaseEnd::Augmented;
        }
    }
    PhaseEnd::Stuck
}
