ghost use Rattle.std.specs.Prelude.{◌≡◌, ◌<◌, pos, ◌≤ℤ◌, length, All, IfOk, None};
ghost use Rattle.mb_problem.specs.declared.limits.TheConstants.{VALUE_LIMIT};
ghost use Rattle.mb_problem.specs.Network.{IsInstanceEdge, IsNetwork};
ghost use Rattle.mb_problem.specs.Ready.{IsReady};
ghost use Rattle.gadget_base.specs.Blocks.{tabled};
ghost use Rattle.array_call.specs.Arrays.{arrays_of, capacity_from, edge_at, value_at, low_at};
ghost use Rattle.array_call.specs.Arrays.{high_at, network_of};
ghost use Rattle.array_call.specs.Faults.{edge_fault, IsSized, edges_fault};
ghost use Rattle.array_call.specs.Made.{IsFaultless, Makes};

use crate::arrays::InstanceArrays;
use crate::error::ArrayError;
use crate::faults::{array_fault, capacity_mark, high_at, low_at, value_at, weight_at};
use mb_base::{OutOfMemory, VertexId};
use mb_problem::{Instance, InstanceEdge, Kind};
use std::alloc::Global;

/// The capacity that a number stands for.
fn capacity_from(mark: i64) -> Option<u32>
    requires { mark ≤ℤ pos VALUE_LIMIT }
    ensures { result ≡ capacity_from mark }
{
    if mark < 0 {
        return None;
    }
    Some(mark as u32)
}

/// The edge at a place, from 0, which breaks no rule.
fn edge_at(arrays: &InstanceArrays<'_>, k: usize) -> InstanceEdge
    requires in_range { k < length arrays.now.from.now }
    requires sized { IsSized (arrays_of arrays.now) }
    requires faultless { edge_fault (arrays_of arrays.now) k ≡ None }
    ensures edge { result ≡ edge_at (arrays_of arrays.now) k }
    ensures valid { IsInstanceEdge arrays.now.vertices result }
{
    InstanceEdge {
        u: VertexId::new(arrays.from[k]),
        v: VertexId::new(arrays.to[k]),
        w: weight_at(arrays, k),
        capacity: capacity_from(capacity_mark(arrays, k)),
    }
}

fn edges_of(alloc: Global, arrays: &InstanceArrays<'_>) -> Result<Vec<InstanceEdge>, OutOfMemory>
    requires sized { IsSized (arrays_of arrays.now) }
    requires faultless { edges_fault (arrays_of arrays.now) ≡ None }
    ensures edges { IfOk result (λ v. v.items
        ≡ tabled (edge_at (arrays_of arrays.now)) (length arrays.now.from.now)) }
    ensures valid { IfOk result (λ v. All (IsInstanceEdge arrays.now.vertices) v.items) }
{
    let mut edges = Vec::with_capacity(alloc, arrays.from.len())?;
    for k in 0..arrays.from.len() {
        edges.push(edge_at(arrays, k))?;
    }
    Ok(edges)
}

/// The value of each vertex.
fn values_of(
    alloc: Global,
    kind: Kind,
    arrays: &InstanceArrays<'_>,
) -> Result<Vec<u32>, OutOfMemory>
    ensures { IfOk result (λ v. v.items
        ≡ tabled (value_at kind (arrays_of arrays.now)) arrays.now.vertices) }
{
    let mut values = Vec::with_capacity(alloc, arrays.vertices as usize)?;
    for k in 0..arrays.vertices {
        values.push(value_at(kind, arrays, k))?;
    }
    Ok(values)
}

/// The least degree of each vertex.
fn lows_of(alloc: Global, kind: Kind, arrays: &InstanceArrays<'_>) -> Result<Vec<u32>, OutOfMemory>
    ensures { IfOk result (λ v. v.items
        ≡ tabled (low_at kind (arrays_of arrays.now)) arrays.now.vertices) }
{
    let mut lows = Vec::with_capacity(alloc, arrays.vertices as usize)?;
    for k in 0..arrays.vertices {
        lows.push(low_at(kind, arrays, k))?;
    }
    Ok(lows)
}

/// The greatest degree of each vertex.
fn highs_of(alloc: Global, kind: Kind, arrays: &InstanceArrays<'_>) -> Result<Vec<u32>, OutOfMemory>
    ensures { IfOk result (λ v. v.items
        ≡ tabled (high_at kind (arrays_of arrays.now)) arrays.now.vertices) }
{
    let mut highs = Vec::with_capacity(alloc, arrays.vertices as usize)?;
    for k in 0..arrays.vertices {
        highs.push(high_at(kind, arrays, k))?;
    }
    Ok(highs)
}

/// The instance that faultless arrays are.
fn build(alloc: Global, kind: Kind, arrays: &InstanceArrays<'_>) -> Result<Instance, OutOfMemory>
    requires sized { IsSized (arrays_of arrays.now) }
    requires faultless { IsFaultless kind (arrays_of arrays.now) }
    ensures instance { IfOk result (λ i. i ≡ network_of kind (arrays_of arrays.now)) }
    ensures well_formed { IfOk result (IsReady kind) }
    ensures network { IfOk result IsNetwork }
{
    let edges = edges_of(alloc, arrays)?;
    let values = values_of(alloc, kind, arrays)?;
    let lows = lows_of(alloc, kind, arrays)?;
    let highs = highs_of(alloc, kind, arrays)?;
    Ok(Instance::from_parts(alloc, edges, values, lows, highs))
}

/// The instance that arrays are for a kind, or their first fault: what the readers of text refuse
/// is refused here by the same rules, with an edge or a vertex in place of a line. It takes time
/// linear in vertices and edges.
pub fn instance_of(
    alloc: Global,
    kind: Kind,
    arrays: &InstanceArrays<'_>,
) -> Result<Instance, ArrayError>
    // The instance that arrays are, or their first fault in a stated order, or that memory ran out.
    ensures made { Makes kind (arrays_of arrays.now) result }
    ensures well_formed { IfOk result (IsReady kind) }
    ensures network { IfOk result IsNetwork }
{
    if let Some(fault) = array_fault(kind, arrays) {
        return Err(ArrayError::Malformed(fault));
    }
    let instance = build(alloc, kind, arrays)?;
    Ok(instance)
}
