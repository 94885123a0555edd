ghost use Rattle.std.specs.Prelude.{◌≡◌, ◌≤ℤ◌, ◌+ℤ◌, ℤ, pos, negsuc, true};
ghost use Rattle.graph_theory.specs.declared.limits.TheConstants.{NUMBER_LIMIT};
ghost use Rattle.graph_theory.specs.Duals.{IsNumber};
ghost use Rattle.alt_forest.specs.Searches.{IsSound, state_of};
ghost use Rattle.alt_forest.specs.State.{IsOutermost};
ghost use Rattle.dual_change.specs.Changes.{applied, StaysInRange};

use alt_forest::Search;
use blossom_arena::NodeId;

/// Whether a dual is within 10^6.
fn is_small_dual(y: i64) -> bool
    ensures low { result ≡ true → negsuc 999999 ≤ℤ y }
    ensures high { result ≡ true → y ≤ℤ pos 1000000 }
{
    if y < -1_000_000 {
        return false;
    }
    if y > 1_000_000 {
        return false;
    }
    true
}

/// Whether the dual of a node is far from the ends of its range.
fn dual_fits(search: &Search, number: u32, d: i128) -> bool
    requires sound { IsSound search.now }
    requires low { pos 0 ≤ℤ d }
    requires high { d ≤ℤ pos 1000000 }
    ensures { result ≡ true → IsOutermost (state_of search.now) number
        → IsNumber ((applied (state_of search.now) d).dual number) }
{
    let node = NodeId::new(number);
    if !search.arena.is_node(node) {
        return true;
    }
    is_small_dual(search.arena.dual(node))
}

/// Whether the duals of all nodes are far from the ends of their range.
fn duals_fit(search: &Search, d: i128) -> bool
    requires sound { IsSound search.now }
    requires low { pos 0 ≤ℤ d }
    requires high { d ≤ℤ pos 1000000 }
    ensures { result ≡ true → StaysInRange (state_of search.now) d }
{
    for number in 1..search.arena.node_limit() + 1 {
        if !dual_fits(search, number, d) {
            return false;
        }
    }
    true
}

/// Whether a change leaves all duals and the clock in range; it refuses where a dual, the clock or
/// the change is beyond 10^6.
pub fn stays_in_range(search: &Search, d: i128) -> bool
    requires sound { IsSound search.now }
    ensures duals { result ≡ true → StaysInRange (state_of search.now) d }
    ensures clock { result ≡ true → (search.now.clock +ℤ d) ≤ℤ NUMBER_LIMIT }
{
    if d < 0 || search.clock > 1_000_000 {
        return false;
    }
    if d > 1_000_000 {
        return false;
    }
    duals_fit(search, d)
}
