ghost use Rattle.std.specs.Prelude.{◌≡◌, ℕ, ◌+◌, ◌*◌, ◌<◌, ◌≤◌, ◌^◌, length, slice_index};
ghost use Rattle.std.specs.Prelude.{All, IfOk};
ghost use Rattle.graph_theory.specs.Graph.{IsEdgeWithin, IsEdgeNumber};
ghost use Rattle.graph_theory.specs.Walk.{walk_weight};
ghost use Rattle.mb_problem.specs.declared.limits.TheConstants.{EDGE_LIMIT};
ghost use Rattle.mb_problem.specs.declared.answer.Answer.TheVariants.{Counts};
ghost use Rattle.mb_problem.specs.Network.{IsNetwork, vertices, plain, value_of};
ghost use Rattle.mb_problem.specs.Feasible.{IsFeasible, weight_of};
ghost use Rattle.gadget_base.specs.Certified.{gadget_graph, IsPerfectList};
ghost use Rattle.gadget_base.specs.Starts.{AreStarts};
ghost use Rattle.gadget_cap.specs.Capped.{capped_kind, capped_room, room_at};
ghost use Rattle.gadget_cap.specs.Places.{gate_size, gates_before, IsEntry, entry_counts};

use crate::rooms::room_at;
use gadget_base::{find_block, wide_starts};
use mb_base::{EdgeId, OutOfMemory, Sequence};
use mb_problem::{Answer, Instance, InstanceEdge};
use std::alloc::Global;

/// How many edges of the graph lead to the first gate of an edge, and how many stand for it in all.
fn gate_sizes(instance: &Instance, unit: bool, edge: &InstanceEdge) -> (u32, u32)
    requires { IsEdgeWithin (vertices instance.now) (plain edge.now) }
    ensures entries { result.0
        ≡ value_of instance.now edge.now.u * room_at unit instance.now edge.now }
    ensures all { result.1 ≡ value_of instance.now edge.now.u * room_at unit instance.now edge.now +
        (room_at unit instance.now edge.now * room_at unit instance.now edge.now + room_at unit
        instance.now edge.now * value_of instance.now edge.now.v) }
{
    let room = room_at(instance, unit, edge);
    let entries = instance.value(edge.u) * room;
    let exits = room * instance.value(edge.v);
    (entries, entries + (room * room + exits))
}

/// How many edges of the graph stand for each edge.
fn all_gate_sizes(alloc: Global, instance: &Instance, unit: bool) -> Result<Vec<u32>, OutOfMemory>
    ensures size { IfOk result (λ sizes. length sizes.items ≡ length instance.now.edges) }
    ensures each { IfOk result (λ sizes. (k : ℕ) → k < length instance.now.edges
        → slice_index sizes.items k ≡ gate_size instance.now (capped_room unit instance.now) k) }
    ensures size_limit { length instance.now.edges ≤ EDGE_LIMIT }
{
    let mut sizes = Vec::with_capacity(alloc, instance.edges() as usize)?;
    for edge in instance.edge_list() {
        sizes.push(gate_sizes(instance, unit, edge).1)?;
    }
    Ok(sizes)
}

/// How many edges of the graph stand before those of each edge, and at last all.
fn gate_starts(alloc: Global, instance: &Instance, unit: bool) -> Result<Vec<u64>, OutOfMemory>
    ensures { IfOk result
        (λ starts. AreStarts (gate_size instance.now (capped_room unit instance.now))
        (length instance.now.edges) starts.items) }
{
    let sizes = all_gate_sizes(alloc, instance, unit)?;
    wide_starts(alloc, &sizes)
}

/// The edge, by its place, to whose first gate an edge of the graph leads from a copy, if there is
/// one.
fn entered_by(instance: &Instance, unit: bool, starts: &[u64], edge: EdgeId) -> Option<usize>
    requires starts { AreStarts (gate_size instance.now (capped_room unit instance.now))
        (length instance.now.edges) starts.now }
    requires low { 1 ≤ edge }
    requires high { edge ≤ gates_before instance.now (capped_room unit instance.now)
        (length instance.now.edges) }
    ensures { IsEntry instance.now (capped_room unit instance.now) edge result }
{
    let place = u64::from(edge.number()) - 1;
    let k = find_block(starts, place);
    let (entries, _) = gate_sizes(instance, unit, &instance.edge_list()[k]);
    if place < starts[k] + u64::from(entries) {
        Some(k)
    } else {
        None
    }
}

/// How often each edge of the instance is used by listed edges of the graph of `capped`: as often
/// as its first gate is entered from copies of its end. It takes time linear in the instance, and
/// for each listed edge the logarithm of the number of the instance's edges.
///
/// # Errors
///
/// `OutOfMemory` if an allocation fails.
pub fn count_entries(
    alloc: Global,
    instance: &Instance,
    unit: bool,
    edges: &[EdgeId],
) -> Result<Vec<u32>, OutOfMemory>
    requires numbers { All (IsEdgeNumber (gadget_graph (capped_kind unit) instance.now)) edges.now }
    requires size_limit { IsNetwork instance.now → length edges.now < 2 ^ 32 }
    ensures counts { IfOk result (λ counts. counts.items
        ≡ entry_counts instance.now (capped_room unit instance.now) edges.now) }
    ensures network { IsNetwork instance.now }
{
    let count = instance.edges() as usize;
    let starts = gate_starts(alloc, instance, unit)?;
    let mut counts = vec![in alloc; 0u32; count]?;
    for edge in edges {
        if let Some(k) = entered_by(instance, unit, &starts, *edge) {
            counts[k] += 1;
        }
    }
    Ok(counts)
}

/// The answer that a perfect matching of the graph of `capped` stands for, given as the numbers of
/// its edges: each edge of the instance is used as often as its first gate is entered from copies
/// of its end (Schrijver, Combinatorial Optimization A, chapters 32 and 33). It takes time linear
/// in the instance, and for each edge of the matching the logarithm of the number of the instance's
/// edges.
///
/// # Errors
///
/// `OutOfMemory` if an allocation fails.
pub fn extract(
    alloc: Global,
    instance: &Instance,
    unit: bool,
    edges: &[EdgeId],
) -> Result<Answer, OutOfMemory>
    requires perfect { IsPerfectList (gadget_graph (capped_kind unit) instance.now) edges.now }

    // A perfect matching there gives a feasible answer of the weight that its value says.
    ensures counts { IfOk result (λ a. a
        ≡ Counts (entry_counts instance.now (capped_room unit instance.now) edges.now)) }
    ensures feasible { IfOk result (IsFeasible (capped_kind unit) instance.now) }
    ensures weighs { IfOk result (λ a. weight_of (capped_kind unit) instance.now a
        ≡ walk_weight (gadget_graph (capped_kind unit) instance.now) edges.now) }
{
    let counts = count_entries(alloc, instance, unit, edges)?;
    Ok(Answer::Counts(Sequence::from_vec(counts)))
}
