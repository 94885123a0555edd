ghost use Rattle.std.specs.Prelude.{◌≡◌, ◌↔◌, ℕ, ℤ, pos, negsuc, ◌+ℤ◌, ◌≤ℤ◌, true};
ghost use Rattle.blossom_arena.specs.Family.{is_vertex};
ghost use Rattle.alt_forest.specs.State.{ExposedAgree, dual_sum};
ghost use Rattle.alt_forest.specs.Searches.{HasShape, state_of};
ghost use Rattle.state_check.specs.Checks.{HasParity, DualSumHas, DualSumsHave};

use alt_forest::Search;
use base_types::VertexId;

/// What a number leaves when it is halved, with its sign.
fn left_by_two(x: i64) -> i64
    ensures left { (half : ℤ) × (x ≡ result +ℤ (half +ℤ half)) }
    ensures low { negsuc 0 ≤ℤ result }
    ensures high { result ≤ℤ pos 1 }
{
    x % 2
}

/// Whether a number is odd.
fn is_odd(x: i64) -> bool
    ensures { HasParity x result }
{
    if left_by_two(x) == 0 {
        return false;
    }
    true
}

/// Whether the sum of a number, of which only this is known, and another one is odd.
fn is_odd_sum(odd: bool, x: i64) -> bool
    ensures { (y : ℤ) → HasParity y odd → HasParity (y +ℤ x) result }
{
    if odd {
        return !is_odd(x);
    }
    is_odd(x)
}

/// Whether the duals of all nodes that hold a vertex, added up, are odd.
fn has_odd_dual_sum(search: &Search, v: VertexId) -> bool
    requires shape { HasShape search.now }
    requires vertex { is_vertex search.now.graph.vertices v ≡ true }
    ensures { HasParity (dual_sum (state_of search.now) v) result }
{
    let mut odd = false;
    for node in search.arena.chain(v) {
        odd = is_odd_sum(odd, search.arena.dual(node));
    }
    odd
}

/// Whether the dual sum of a vertex, if its node is exposed, has a parity.
fn dual_sum_has(search: &Search, odd: bool, v: VertexId) -> bool
    requires shape { HasShape search.now }
    requires vertex { is_vertex search.now.graph.vertices v ≡ true }
    ensures { (result ≡ true) ↔ DualSumHas (state_of search.now) odd v }
{
    match search.mate(search.arena.outermost(v)) {
        Some(_) => true,
        None => has_odd_dual_sum(search, v) == odd,
    }
}

/// Whether the dual sums of all vertices whose nodes are exposed have this parity.
fn dual_sums_have(search: &Search, odd: bool) -> bool
    requires shape { HasShape search.now }
    ensures { (result ≡ true) ↔ DualSumsHave (state_of search.now) odd }
{
    for place in 0..search.graph.vertices() {
        if !dual_sum_has(search, odd, VertexId::new(place + 1)) {
            return false;
        }
    }
    true
}

/// Whether the dual sums of all vertices whose nodes are exposed have one parity.
pub(crate) fn exposed_agree(search: &Search) -> bool
    requires shape { HasShape search.now }
    ensures { (result ≡ true) ↔ ExposedAgree (state_of search.now) }
{
    if dual_sums_have(search, true) {
        return true;
    }
    dual_sums_have(search, false)
}
