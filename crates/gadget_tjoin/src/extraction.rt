ghost use Rattle.std.specs.Prelude.{◌≡◌, ℕ, ◌+◌, ◌<◌, ◌≤◌, ◌++◌, ◌∷◌, [], Bool, true, false};
ghost use Rattle.std.specs.Prelude.{if◌then◌else◌, List, length, slice_index_or, All, IfOk, OnOk};
ghost use Rattle.std.specs.List.Sorted.{IsStrictlyIncreasing};
ghost use Rattle.graph_theory.specs.Graph.{IsEdgeNumber};
ghost use Rattle.graph_theory.specs.Parts.{holds};
ghost use Rattle.graph_theory.specs.Walk.{walk_weight};
ghost use Rattle.mb_problem.specs.declared.limits.TheConstants.{EDGE_LIMIT};
ghost use Rattle.mb_problem.specs.Network.{graph_of};
ghost use Rattle.mb_problem.specs.Size.{odd_at};
ghost use Rattle.gadget_base.specs.Gadgets.{ports_graph};
ghost use Rattle.gadget_base.specs.Certified.{IsPerfectList};
ghost use Rattle.mb_problem.specs.Joins.{IsJoinOf, listed_counts};

use mb_base::{EdgeId, OutOfMemory, Sequence};
use mb_problem::{Instance, Join, Parity, marks_of};
use std::alloc::Global;

/// Puts the number after a place at the end where the place is marked.
fn note(edges: &mut Vec<EdgeId>, place: usize, marked: bool) -> Result<(), OutOfMemory>
    requires { place < EDGE_LIMIT }
    ensures { OnOk result (edges.new.items ≡ (if marked then edges.old.items ++ (place + 1) ∷ []
        else edges.old.items)) }
{
    if marked {
        edges.push(EdgeId::new(place as u32 + 1))?;
    }
    Ok(())
}

/// The numbers of the marked edges, ascending. It takes time linear in the marks.
///
/// # Errors
///
/// `OutOfMemory` if an allocation fails.
pub fn marked(alloc: Global, marks: &[bool]) -> Result<Vec<EdgeId>, OutOfMemory>
    requires size_limit { length marks.now ≤ EDGE_LIMIT }
    ensures ascending { IfOk result (λ edges. IsStrictlyIncreasing edges.items) }
    ensures in_range { IfOk result
        (λ edges. All (λ e. (1 ≤ e) × (e ≤ length marks.now)) edges.items) }
    ensures exact { IfOk result (λ edges. (k : ℕ) → k < length marks.now → holds edges.items (k + 1)
        ≡ slice_index_or marks.now k false) }
{
    let mut edges = Vec::new(alloc);
    for (place, mark) in marks.iter().enumerate() {
        note(&mut edges, place, *mark)?;
    }
    Ok(edges)
}

/// The join that a perfect matching of the graph of `ports` stands for, given as the numbers of its
/// edges: exactly those of them that are the instance's own, which have the same numbers there,
/// ascending (Schrijver, Combinatorial Optimization, volume A, chapter 29). It takes time linear in
/// the instance and the matching.
///
/// # Errors
///
/// `OutOfMemory` if an allocation fails.
pub fn extract(
    alloc: Global,
    instance: &Instance,
    parity: &Parity,
    edges: &[EdgeId],
) -> Result<Join, OutOfMemory>
    requires perfect { IsPerfectList (ports_graph instance.now (odd_at parity.now instance.now))
        edges.now }

    // Exactly the join that a perfect matching names, of the parity asked for and of its weight.
    ensures ascending { IfOk result (λ join. IsStrictlyIncreasing join.edges) }
    ensures in_range { IfOk result (λ join. All (IsEdgeNumber (graph_of instance.now)) join.edges) }
    ensures exact { IfOk result (λ join. (k : ℕ) → k < length instance.now.edges
        → holds join.edges (k + 1) ≡ holds edges.now (k + 1)) }
    ensures join { IfOk result (λ join. IsJoinOf parity.now instance.now (listed_counts join.edges
        (length instance.now.edges))) }
    ensures weighs { IfOk result (λ join. walk_weight (graph_of instance.now) join.edges
        ≡ walk_weight (ports_graph instance.now (odd_at parity.now instance.now)) edges.now) }
{
    let _ = parity;
    let marks = marks_of(alloc, instance.edges(), edges)?;
    let edges = Sequence::from_vec(marked(alloc, &marks)?);
    Ok(Join { edges })
}
