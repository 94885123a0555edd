ghost use Rattle.std.specs.Prelude.{◌≡◌, ◌+◌, pos, ◌+ℤ◌, ◌≤ℤ◌};
ghost use Rattle.graph_theory.specs.declared.limits.TheConstants.{NUMBER_LIMIT};
ghost use Rattle.alt_forest.specs.Searches.{IsSound, state_of};
ghost use Rattle.alt_forest.specs.Entries.{HasNoTree, IsQueued};
ghost use Rattle.alt_forest.specs.Counts.{IsPlanted};
ghost use Rattle.alt_forest.specs.TreeNodes.{HasTreeNodes};
ghost use Rattle.dual_change.specs.Changes.{applied, IsWithin, StaysInRange};

use alt_forest::Search;
use base_types::Steps;
use std::sync::ledger::Ledger;

/// Gives each node in a tree its share of a change of d, since each moves as its label says.
fn raise_trees(search: &mut Search, d: i64)
    requires sound { IsSound search.old }
    requires listed { HasTreeNodes search.old }
    requires all_rooted { IsPlanted (state_of search.old) }
    requires low { pos 0 ≤ℤ d }
    requires within { IsWithin (state_of search.old) d }
    requires in_range { StaysInRange (state_of search.old) d }
    ensures state { state_of search.new ≡ applied (state_of search.old) d }
    ensures frame { search.new
        ≡ record search.old { arena = record search.old.arena { duals = search.new.arena.duals } } }
    ensures sound { IsSound search.new }
{
    search.arena.advance(d);
}

/// A change that the clock has room for.
fn narrowed(d: i128) -> i64
    requires low { pos 0 ≤ℤ d }
    requires high { d ≤ℤ NUMBER_LIMIT }
    ensures { result ≡ d }
{
    d as i64
}

/// The clock after a change of d.
fn later(clock: i64, d: i64) -> i64
    requires low { pos 0 ≤ℤ clock }
    requires change { pos 0 ≤ℤ d }
    requires high { (clock +ℤ d) ≤ℤ NUMBER_LIMIT }
    ensures { result ≡ clock +ℤ d }
{
    clock + d
}

/// Changes the duals along the trees by d, and the clock by as much, by one step.
pub(crate) fn raise<L: Ledger>(search: &mut Search, d: i128, steps: &mut Steps<L>)
    requires sound { IsSound search.old }
    requires listed { HasTreeNodes search.old }
    requires all_rooted { IsPlanted (state_of search.old) }
    requires low { pos 0 ≤ℤ d }
    requires within { IsWithin (state_of search.old) d }
    requires in_range { StaysInRange (state_of search.old) d }
    requires start { pos 0 ≤ℤ search.old.clock }
    requires clock { (search.old.clock +ℤ d) ≤ℤ NUMBER_LIMIT }
    ensures state { state_of search.new ≡ applied (state_of search.old) d }
    ensures frame { search.new
        ≡ record search.old {
          arena = record search.old.arena { duals = search.new.arena.duals };
          clock = search.old.clock +ℤ d;
        } }
    ensures sound { IsSound search.new }
    ensures listed { HasTreeNodes search.new }
    ensures all_rooted { IsPlanted (state_of search.new) }
    ensures step { steps.new ≡ steps.old + 1 }
{
    let d = narrowed(d);
    let clock = later(search.clock, d);
    raise_trees(search, d);
    search.clock = clock;
    steps.tick();
}

/// Changes the duals along the trees by d (chapter 26): the duals of outer nodes rise by d, those
/// of inner nodes fall by d, and all others stay. The clock goes on by d, so each moment stays what
/// it is. It counts one step, takes constant time (but time linear in the nodes once the changes of
/// a pass add up to more than 10^18), and no memory. Every exposed node is the root of a tree, so
/// all these keep one parity.
pub fn apply<L: Ledger>(search: &mut Search, d: i128, steps: &mut Steps<L>)
    requires sound { IsSound search.old }
    requires event_times { IsQueued search.old }
    requires listed { HasTreeNodes search.old }
    requires all_rooted { IsPlanted (state_of search.old) }
    requires tree { HasNoTree (state_of search.old) → ⊥ }
    requires low { pos 0 ≤ℤ d }
    requires within { IsWithin (state_of search.old) d }
    requires in_range { StaysInRange (state_of search.old) d }
    requires clock { (search.old.clock +ℤ d) ≤ℤ NUMBER_LIMIT }

    // Adds d to each outer node's dual, takes d from each inner node's, and keeps the state and all
    // event times.
    ensures state { state_of search.new ≡ applied (state_of search.old) d }
    ensures frame { search.new
        ≡ record search.old {
          arena = record search.old.arena { duals = search.new.arena.duals };
          clock = search.old.clock +ℤ d;
        } }
    ensures sound { IsSound search.new }
    ensures event_times { IsQueued search.new }
    ensures listed { HasTreeNodes search.new }
    ensures all_rooted { IsPlanted (state_of search.new) }
    ensures step { steps.new ≡ steps.old + 1 }
{
    raise(search, d, steps);
}
