ghost use Rattle.std.specs.Prelude.{◌≡◌, ℕ, ◌+◌, ◌<◌, ◌≤◌, ◌+ℤ◌, ◌-ℤ◌, pos, length, All, IfOk};
ghost use Rattle.std.specs.Prelude.{OnOk};
ghost use Rattle.std.specs.Prelude.{if◌then◌else◌};
ghost use Rattle.std.specs.List.Sorted.{IsStrictlyIncreasing};
ghost use Rattle.graph_theory.specs.Graph.{IsEdgeNumber, HasNoLoop, edges_around};
ghost use Rattle.graph_theory.specs.Parts.{holds};
ghost use Rattle.graph_theory.specs.Duals.{IsNumber};
ghost use Rattle.graph_theory.specs.OddSets.{IsGivenWithin};
ghost use Rattle.weighted_graph.specs.Index.{IsIndex};
ghost use Rattle.dual_check.specs.Crossed.{total_at, AddsAt, IsWithin};
ghost use Rattle.dual_check.specs.Shared.{IsHolders, AreShares, AddsCrossed, unshared_at};
ghost use Rattle.dual_check.specs.Shared.{taken_dual};

use crate::totals::add_to;
use graph_theory::OddSet;
use mb_base::{EdgeId, OutOfMemory, VertexId};
use std::alloc::Global;
use weighted_graph::{ByVertex, Graph, Incidence};

/// Duals of some sets, added up: of all, and at each vertex, by its number, of those that hold it.
#[derive(Drop)]
struct Shares {
    whole: i128,
    with_vertex: Vec<i128>,
}

impl Shares {
    /// The duals of the sets that don't hold a vertex.
    fn without(&self, vertex: VertexId) -> i128
        requires in_range { vertex < length self.now.with_vertex.items }
        requires whole { IsWithin 1 self.now.whole }
        requires with_vertex { IsWithin 1 (total_at self.now.with_vertex.items vertex) }
        ensures exact { result
            ≡ self.now.whole -ℤ total_at self.now.with_vertex.items vertex }
        ensures value_limit { IsWithin 2 result }
    {
        self.whole - self.with_vertex[vertex.number() as usize]
    }
}

/// Adds the dual at each member.
fn share(totals: &mut [i128], members: &[VertexId], dual: i64)
    requires in_range { All (λ m. m < length totals.old) members.now }
    requires ascending { IsStrictlyIncreasing members.now }
    requires value_limit { (v : ℕ) → IsWithin 1 (total_at totals.old v) }
    requires dual { IsNumber dual }
    ensures { (v : ℕ) → total_at totals.new v
        ≡ (total_at totals.old v +ℤ (if holds members.now v then dual else pos 0)) }
{
    for vertex in members {
        add_to(totals, vertex.number() as usize, i128::from(dual));
    }
}

/// What the sets of a list give, with a place for each vertex from 1 to `vertices`.
fn shares_of(
    alloc: Global,
    vertices: u32,
    sets: &[OddSet],
    list: &[u32],
) -> Result<Shares, OutOfMemory>
    requires numbers { All (λ s. IsNumber s.dual) sets.now }
    requires within { All (IsGivenWithin vertices) sets.now }
    requires forms { All (λ s. IsStrictlyIncreasing s.vertices) sets.now }
    requires list { All (λ j. j < length sets.now) list.now }
    ensures { IfOk result (AreShares vertices sets.now list.now) }
{
    let mut whole = 0i128;
    let mut with_vertex = vec![in alloc; 0i128; vertices as usize + 1]?;
    for number in list {
        let set = &sets[*number as usize];
        whole += i128::from(set.dual);
        share(&mut with_vertex, set.vertices.as_slice(), set.dual);
    }
    Ok(Shares { whole, with_vertex })
}

/// Adds at each edge of the vertex the duals of the sets that don't hold its other end.
fn add_unshared(
    graph: &Graph,
    numbers: &[EdgeId],
    shares: &Shares,
    vertex: VertexId,
    totals: &mut [i128],
)
    requires numbers { numbers.now ≡ edges_around graph.now vertex }
    requires places { length shares.now.with_vertex.items ≡ graph.now.vertices + 1 }
    requires whole { IsWithin 1 shares.now.whole }
    requires with_vertex { (v : ℕ) → IsWithin 1 (total_at shares.now.with_vertex.items v) }
    requires size { length totals.old ≡ length graph.now.edges + 1 }
    requires value_limit { (e : ℕ) → IsEdgeNumber graph.now e → IsWithin 3 (total_at totals.old e) }
    ensures { AddsAt graph.now vertex (unshared_at graph.now shares.now vertex) totals.old
        totals.new }
{
    for number in numbers {
        let far = graph.other_end(*number, vertex);
        add_to(totals, number.number() as usize, shares.without(far));
    }
}

/// Adds at each edge the duals of the sets that it crosses and that are taken, vertex by vertex.
/// The flags stand for the contract alone: the holders are theirs.
pub(crate) fn add_taken(
    alloc: Global,
    graph: &Graph,
    incidence: &Incidence,
    sets: &[OddSet],
    taken: &[bool],
    holders: &ByVertex<u32>,
    totals: &mut [i128],
) -> Result<(), OutOfMemory>
    requires index { IsIndex graph.now incidence.now }
    requires loopless { HasNoLoop graph.now }
    requires numbers { All (λ s. IsNumber s.dual) sets.now }
    requires within { All (IsGivenWithin graph.now.vertices) sets.now }
    requires forms { All (λ s. IsStrictlyIncreasing s.vertices) sets.now }
    requires holders { IsHolders graph.now.vertices sets.now taken.now holders.now }
    requires size { length totals.old ≡ length graph.now.edges + 1 }
    requires value_limit { (e : ℕ) → IsEdgeNumber graph.now e → IsWithin 1 (total_at totals.old e) }
    ensures { OnOk result (AddsCrossed graph.now sets.now
        (taken_dual sets.now taken.now) totals.old totals.new) }
{
    for k in 0..graph.vertices() {
        let vertex = VertexId::new(k + 1);
        let list = holders.at(vertex);
        if !list.is_empty() {
            let shares = shares_of(alloc, graph.vertices(), sets, list)?;
            add_unshared(graph, incidence.at(vertex), &shares, vertex, totals);
        }
    }
    Ok(())
}
