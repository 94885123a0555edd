ghost use Rattle.std.specs.Prelude.{◌≡◌, ◌≢◌, ℕ, true, ◌<◌, ◌≤ℤ◌, ◌+ℤ◌, ◌*ℤ◌, pos, length};
ghost use Rattle.std.specs.Prelude.{slice_index, IsTrue};
ghost use Rattle.graph_theory.specs.Graph.{IsEdgeWithin, IsWeight, edge_at};
ghost use Rattle.mb_problem.specs.Network.{graph_of, plain, vertices};
ghost use Rattle.graph_theory.specs.declared.limits.TheConstants.{WEIGHT_LIMIT};
ghost use Rattle.join_check.specs.Forests.{magnitude};
ghost use Rattle.join_check.specs.Checks.{at, held_by, IsLength, IsWideBy};

use mb_problem::{Instance, InstanceEdge};

/// Whether node `b` holds node `x`.
fn holds_node(befores: &[u32], b: usize, x: u32) -> bool
    requires { b < length befores.now }
    ensures { result ≡ held_by befores.now b x }
{
    befores[b] < x && x as usize <= b
}

/// Whether node `b` holds nodes `x` and `y`, if it isn't the outside.
fn holds_both(befores: &[u32], b: usize, x: u32, y: u32) -> bool
    requires { b < length befores.now }
    ensures { IsTrue result → b ≢ 0
        → (held_by befores.now b x ≡ true) × (held_by befores.now b y ≡ true) }
{
    if b == 0 {
        return true;
    }
    if !holds_node(befores, b, x) {
        return false;
    }
    if !holds_node(befores, b, y) {
        return false;
    }
    true
}

/// A weight without its sign.
fn magnitude(w: i64) -> i64
    requires { IsWeight w }
    ensures magnitude { result ≡ magnitude w }
    ensures low { pos 0 ≤ℤ result }
    ensures high { result ≤ℤ WEIGHT_LIMIT }
{
    if w < 0 { -w } else { w }
}

/// Whether depths of two places, and of the top of a node around both, leave a way of at most
/// `most`.
fn is_near(one: i64, other: i64, top: i64, most: i64) -> bool
    requires one { IsLength one }
    requires other { IsLength other }
    requires top { IsLength top }
    requires most { IsLength most }
    ensures apart { IsTrue result → (one +ℤ other) ≤ℤ (pos 2 *ℤ top +ℤ most) }
    ensures up { IsTrue result → one ≤ℤ (other +ℤ most) }
    ensures down { IsTrue result → other ≤ℤ (one +ℤ most) }
{
    if one + other > 2 * top + most {
        return false;
    }
    if one > other + most {
        return false;
    }
    if other > one + most {
        return false;
    }
    true
}

/// Whether an edge is at least as long as the way between the places of its ends.
fn is_wide(
    tops: &[i64],
    befores: &[u32],
    nodes: &[u32],
    depths: &[i64],
    edge: &InstanceEdge,
    meet: u32,
) -> bool
    requires befores { length befores.now ≡ length tops.now }
    requires nodes { length nodes.now ≡ length depths.now }
    requires ends { IsEdgeWithin (length depths.now) (plain edge.now) }
    requires weight { IsWeight edge.now.w }
    requires tops { (x : ℕ) → x < length tops.now → IsLength (at tops.now x) }
    requires depths { (j : ℕ) → j < length depths.now → IsLength (at depths.now j) }
    ensures { IsTrue result → IsWideBy tops.now befores.now nodes.now depths.now (plain edge.now)
        meet }
{
    let meet = meet as usize;
    if meet >= tops.len() {
        return false;
    }
    let u = edge.u.number() as usize - 1;
    let v = edge.v.number() as usize - 1;
    if !holds_both(befores, meet, nodes[u], nodes[v]) {
        return false;
    }
    is_near(depths[u], depths[v], tops[meet], 2 * magnitude(edge.w))
}

/// Whether each edge is at least as long as the way between the places of its ends.
pub(crate) fn are_wide(
    instance: &Instance,
    tops: &[i64],
    befores: &[u32],
    nodes: &[u32],
    depths: &[i64],
    meets: &[u32],
) -> bool
    requires befores { length befores.now ≡ length tops.now }
    requires nodes { length nodes.now ≡ vertices instance.now }
    requires places { length depths.now ≡ vertices instance.now }
    requires meets { length meets.now ≡ length instance.now.edges }
    requires tops { (x : ℕ) → x < length tops.now → IsLength (at tops.now x) }
    requires depths { (j : ℕ) → j < length depths.now → IsLength (at depths.now j) }
    ensures { IsTrue result → (k : ℕ) → k < length instance.now.edges → IsWideBy tops.now
        befores.now nodes.now depths.now (edge_at (graph_of instance.now) k)
        (slice_index meets.now k) }
{
    for (place, edge) in instance.edge_list().iter().enumerate() {
        if !is_wide(tops, befores, nodes, depths, edge, meets[place]) {
            return false;
        }
    }
    true
}
