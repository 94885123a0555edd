ghost use Rattle.std.specs.Prelude.{◌≡◌, ◌≤◌, ◌+◌, ◌*◌, ℕ, ℤ, true, MatchBool};
ghost use Rattle.alt_forest.specs.declared.weights.Weights.TheVariants.{Given, Zero};
ghost use Rattle.alt_forest.specs.Searches.{HasShape, IsStart};
ghost use Rattle.search_keys.specs.Bounds.{HasPlaces};
ghost use Rattle.mwpm_engine.specs.Solutions.{AllWeigh, HasPerfect};
ghost use Rattle.mwpm_engine.specs.Solving.{IsUnpacked, HasBoundedDuals, HasZeroDuals};
ghost use Rattle.mwpm_engine.specs.Passes.{IsParted, IsEnough, Concludes, pass_total};
ghost use Rattle.mwpm_engine.specs.declared.outcome.Outcome.TheVariants.{Matched};

use crate::outcome::Outcome;
use crate::pass::pass;
use alt_forest::{Search, Weights};
use augment::unpack;
use base_types::Steps;
use search_keys::EventBounds;
use search_start::{common_weight, least_weight, start_pass, weigh};
use std::sync::ledger::Ledger;

/// A pass from the beginning, with duals and mates to start with, whose blossoms are opened at its
/// end: its matching is perfect, or it answers false where the forest is stuck, and the matching
/// misses a vertex of each root. A pass with weights is made only if there is a perfect matching,
/// so it never is stuck: else its duals have no bound.
fn pass_anew<L: Ledger>(
    search: &mut Search,
    bounds: &mut EventBounds,
    weights: Weights,
    start: i64,
    steps: &mut Steps<L>,
) -> bool
    requires shape { HasShape search.old }
    requires places { HasPlaces search.old.graph bounds.old }
    requires start { IsStart search.old.graph weights start }
    requires perfect { weights ≡ Given → HasPerfect search.old.graph }
    ensures ends { MatchBool result (IsUnpacked search.new) (IsParted search.new) }
    ensures sure { weights ≡ Given → result ≡ true }
    ensures bounded { result ≡ true → HasBoundedDuals search.new }
    ensures zero_duals { weights ≡ Zero → result ≡ true → HasZeroDuals search.new }
    ensures shape { HasShape search.new }
    ensures places { HasPlaces search.new.graph bounds.new }
    ensures graph { search.new.graph ≡ search.old.graph }
    ensures weights { search.new.weights ≡ weights }
    ensures steps { 4 * steps.new ≤ 4 * steps.old + pass_total search.old.graph result }
{
    search.begin(weights, start);
    start_pass(search, steps);
    let done = pass(search, bounds, steps);
    unpack(search);
    done
}

/// One pass with weights, if there is a perfect matching (chapter 26).
pub(crate) fn solve_matched<L: Ledger>(
    search: &mut Search,
    bounds: &mut EventBounds,
    steps: &mut Steps<L>,
)
    requires shape { HasShape search.old }
    requires places { HasPlaces search.old.graph bounds.old }
    requires perfect { HasPerfect search.old.graph }
    ensures concludes { Concludes search.new Matched }
    ensures shape { HasShape search.new }
    ensures places { HasPlaces search.new.graph bounds.new }
    ensures graph { search.new.graph ≡ search.old.graph }
    ensures steps { (most : ℕ) → IsEnough search.old.graph most
        → 2 * steps.new ≤ 2 * steps.old + most }
{
    let start = least_weight(&search.graph, steps);
    pass_anew(search, bounds, Weights::Given, start, steps);
}

/// Searches for a perfect matching, whatever the weights, and then, if two weights differ, for one
/// of least weight (chapters 24 and 26). Where all edges weigh the same any perfect matching weighs
/// the least.
pub(crate) fn solve<L: Ledger>(
    search: &mut Search,
    bounds: &mut EventBounds,
    steps: &mut Steps<L>,
) -> Outcome
    requires shape { HasShape search.old }
    requires places { HasPlaces search.old.graph bounds.old }
    ensures concludes { Concludes search.new result }
    ensures shape { HasShape search.new }
    ensures places { HasPlaces search.new.graph bounds.new }
    ensures graph { search.new.graph ≡ search.old.graph }
    ensures steps { (most : ℕ) → IsEnough search.old.graph most → steps.new ≤ steps.old + most }
    ensures alike { result ≡ Matched → (w : ℤ) → AllWeigh search.old.graph w → (most : ℕ)
        → IsEnough search.old.graph most → 2 * steps.new ≤ 2 * steps.old + most }
{
    if !pass_anew(search, bounds, Weights::Zero, 0, steps) {
        return Outcome::Barrier;
    }
    if let Some(weight) = common_weight(&search.graph, steps) {
        weigh(search, weight);
        return Outcome::Matched;
    }
    solve_matched(search, bounds, steps);
    Outcome::Matched
}
