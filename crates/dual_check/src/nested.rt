//! The duals of sets that refer to others, or that others refer to, at the edges that they cross.
ghost use Rattle.std.specs.Prelude.{◌≡◌, ◌+◌, ◌-◌, ◌<◌, ◌≤◌, ◌&&◌, ◌||◌, ◌==◌, ℕ, true, not};
ghost use Rattle.std.specs.Prelude.{length};
ghost use Rattle.std.specs.Prelude.{All, IfOk, OnOk, ◌-ℤ◌};
ghost use Rattle.graph_theory.specs.Graph.{IsEdgeNumber, HasNoLoop, edge_of, edges_around};
ghost use Rattle.graph_theory.specs.Parts.{holds};
ghost use Rattle.graph_theory.specs.Duals.{IsNumber};
ghost use Rattle.graph_theory.specs.OddSets.{AreEarlier};
ghost use Rattle.graph_parts.specs.Marks.{is_marked};
ghost use Rattle.weighted_graph.specs.Index.{IsIndex};
ghost use Rattle.dual_check.specs.Crossed.{total_at, AddsAt, IsWithin};
ghost use Rattle.dual_check.specs.Forests.{AddsNested, AreAlone, vertex_at, shared_dual};
ghost use Rattle.dual_check.specs.Links.{IsGrown, passed};
ghost use Rattle.dual_check.specs.NestedTotals.{IsReady, IsStand, stand_of, unshared_dual};
ghost use Rattle.dual_check.specs.NestedTotals.{apart_at};
ghost use Rattle.dual_check.specs.NestedTotals.{AddsReached, reached};

use crate::forest::Forest;
use crate::totals::add_to;
use graph_theory::OddSet;
use mb_base::{EdgeId, OutOfMemory, VertexId};
use std::alloc::Global;
use weighted_graph::{Graph, Incidence};

/// Takes the flag off a set that refers to others.
fn drop_own(flags: &mut [bool], set: usize, references: &[u32])
    requires { set < length flags.old }
    ensures size { length flags.new ≡ length flags.old }
    ensures exact { (j : ℕ) → is_marked flags.new j ≡ (is_marked flags.old j
        && (not (set == j) || (length references.now == 0))) }
{
    if references.is_empty() {
        return;
    }
    flags[set] = false;
}

/// Takes the flags off the sets that one refers to, and off the set itself if there are any.
fn drop_flags(flags: &mut [bool], set: usize, references: &[u32])
    requires set { set < length flags.old }
    requires in_range { All (λ r. (1 ≤ r) × (r ≤ length flags.old)) references.now }
    ensures size { length flags.new ≡ length flags.old }
    ensures exact { (j : ℕ) → is_marked flags.new j
        ≡ ((is_marked flags.old j && not (holds references.now (j + 1)))
        && (not (set == j) || (length references.now == 0))) }
{
    for number in references {
        flags[*number as usize - 1] = false;
    }
    drop_own(flags, set, references);
}

/// For each set whether it is a tree by itself: it refers to no other set, and none refers to it.
pub(crate) fn alone(alloc: Global, sets: &[OddSet]) -> Result<Vec<bool>, OutOfMemory>
    requires earlier { AreEarlier sets.now }
    ensures { IfOk result (λ v. AreAlone sets.now v.items) }
{
    let mut flags = vec![in alloc; true; sets.len()]?;
    for (k, set) in sets.iter().enumerate() {
        drop_flags(&mut flags, k, set.references.as_slice());
    }
    Ok(flags)
}

/// Puts down for each vertex of the positions from `begin` and below `end` one more than its
/// position.
fn put_stands(forest: &Forest, begin: usize, end: usize, stands: &mut [usize])
    requires order { begin ≤ end }
    requires last { end ≤ length forest.now.places.items }
    requires places { (q : ℕ) → begin ≤ q → q < end → vertex_at forest.now q < length stands.old }
    requires early { (w : ℕ) → stand_of stands.old w ≤ begin }
    ensures size { length stands.new ≡ length stands.old }
    ensures stands { (w : ℕ) → IsStand forest.now begin end w (stand_of stands.new w) }
{
    for q in begin..end {
        stands[forest.vertex(q).number() as usize] = q + 1;
    }
}

/// The duals of the sets that span two positions, in either order.
fn shared_at(sets: &[OddSet], forest: &Forest, p: usize, q: usize) -> i128
    requires numbers { All (λ s. IsNumber s.dual) sets.now }
    requires grown { IsGrown sets.now (length sets.now) forest.now }
    requires first { p < length forest.now.places.items }
    requires second { q < length forest.now.places.items }
    ensures exact { result ≡ shared_dual sets.now (length sets.now) forest.now p q }
    ensures value_limit { IsWithin 1 result }
{
    if p <= q {
        return forest.shared(sets, sets.len(), p, q);
    }
    forest.shared(sets, sets.len(), q, p)
}

/// The duals of the sets around a position, `whole`, less those that are shared with the position
/// before `stand`, if that is past `begin`.
fn unshared(
    sets: &[OddSet],
    forest: &Forest,
    begin: usize,
    q: usize,
    stand: usize,
    whole: i128,
) -> i128
    requires numbers { All (λ s. IsNumber s.dual) sets.now }
    requires grown { IsGrown sets.now (length sets.now) forest.now }
    requires position { q < length forest.now.places.items }
    requires stand { stand ≤ length forest.now.places.items }
    requires whole { whole ≡ shared_dual sets.now (length sets.now) forest.now q q }
    requires value_limit { IsWithin 1 whole }
    ensures exact { result ≡ unshared_dual sets.now forest.now begin q stand }
    ensures value_limit { IsWithin 2 result }
{
    if begin < stand {
        return whole - shared_at(sets, forest, stand - 1, q);
    }
    whole
}

/// Adds at each edge of a vertex, that of a position, the duals around it, less those that the
/// other end shares, which stands where the table says, or outside the tree that begins at `begin`.
fn add_at(
    graph: &Graph,
    numbers: &[EdgeId],
    vertex: VertexId,
    sets: &[OddSet],
    forest: &Forest,
    stands: &[usize],
    begin: usize,
    q: usize,
    totals: &mut [i128],
)
    requires numbers { numbers.now ≡ edges_around graph.now vertex }
    requires duals { All (λ s. IsNumber s.dual) sets.now }
    requires grown { IsGrown sets.now (length sets.now) forest.now }
    requires position { q < length forest.now.places.items }
    requires table { length stands.now ≡ graph.now.vertices + 1 }
    requires stands { (w : ℕ) → stand_of stands.now w ≤ length forest.now.places.items }
    requires size { length totals.old ≡ length graph.now.edges + 1 }
    requires value_limit { (e : ℕ) → IsEdgeNumber graph.now e → IsWithin 3 (total_at totals.old e) }
    ensures { AddsAt graph.now vertex
        (apart_at graph.now sets.now forest.now stands.now begin q vertex) totals.old totals.new }
{
    let whole = shared_at(sets, forest, q, q);
    for number in numbers {
        let far = graph.other_end(*number, vertex).number() as usize;
        let apart = unshared(sets, forest, begin, q, stands[far], whole);
        add_to(totals, number.number() as usize, apart);
    }
}

/// Adds at each edge the duals of the sets of a tree that it crosses, if the set at its root isn't
/// alone. A set that another refers to isn't a root.
fn add_tree(
    graph: &Graph,
    incidence: &Incidence,
    sets: &[OddSet],
    alone: &[bool],
    forest: &Forest,
    root: usize,
    stands: &mut [usize],
    totals: &mut [i128],
)
    requires index { IsIndex graph.now incidence.now }
    requires loopless { HasNoLoop graph.now }
    requires well_formed { IsReady graph.now.vertices sets.now alone.now forest.now }
    requires in_range { root < length sets.now }
    requires table { length stands.old ≡ graph.now.vertices + 1 }
    requires early { (w : ℕ) → stand_of stands.old w
        ≤ passed forest.now (length sets.now) (root + 1) }
    requires size { length totals.old ≡ length graph.now.edges + 1 }
    requires value_limit { (e : ℕ) → IsEdgeNumber graph.now e → IsWithin 1 (total_at totals.old e
        -ℤ reached sets.now alone.now forest.now (edge_of graph.now e)
        (passed forest.now (length sets.now) (root + 1))) }
    ensures table { length stands.new ≡ length stands.old }
    ensures early { (w : ℕ) → stand_of stands.new w ≤ passed forest.now (length sets.now) root }
    ensures adds { AddsReached graph.now sets.now alone.now forest.now
        (passed forest.now (length sets.now) (root + 1))
        (passed forest.now (length sets.now) root) totals.old totals.new }
{
    if forest.parent(root) < sets.len() {
        return;
    }
    let begin = forest.begin(root);
    let end = forest.end(root);
    if alone[root] {
        return;
    }
    put_stands(forest, begin, end, stands);
    for q in begin..end {
        let vertex = forest.vertex(q);
        add_at(
            graph,
            incidence.at(vertex),
            vertex,
            sets,
            forest,
            stands,
            begin,
            q,
            totals,
        );
    }
}

/// Adds at each edge the duals of the sets that it crosses and that aren't alone. It takes time
/// linear in the sets and, for each tree, the edges at its vertices, with a factor of the logarithm
/// of how deeply its sets are nested.
pub(crate) fn add_nested(
    alloc: Global,
    graph: &Graph,
    incidence: &Incidence,
    sets: &[OddSet],
    alone: &[bool],
    forest: &Forest,
    totals: &mut [i128],
) -> Result<(), OutOfMemory>
    requires index { IsIndex graph.now incidence.now }
    requires loopless { HasNoLoop graph.now }
    requires well_formed { IsReady graph.now.vertices sets.now alone.now forest.now }
    requires size { length totals.old ≡ length graph.now.edges + 1 }
    requires value_limit { (e : ℕ) → IsEdgeNumber graph.now e → IsWithin 1 (total_at totals.old e) }
    ensures { OnOk result (AddsNested graph.now sets.now alone.now totals.old totals.new) }
{
    let mut stands = vec![in alloc; 0usize; graph.vertices() as usize + 1]?;
    for k in 0..sets.len() {
        let root = sets.len() - 1 - k;
        add_tree(
            graph,
            incidence,
            sets,
            alone,
            forest,
            root,
            &mut stands,
            totals,
        );
    }
    Ok(())
}
