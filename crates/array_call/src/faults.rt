//! The first fault of arrays, in the order of the rules.
ghost use Rattle.std.specs.Prelude.{◌≡◌, ◌≤◌, ◌<◌, length, slice_index_or, None};
ghost use Rattle.graph_theory.specs.Sums.{sum_to};
ghost use Rattle.array_call.specs.Arrays.{arrays_of, weight_at, capacity_mark};
ghost use Rattle.array_call.specs.Arrays.{value_width, value_at, low_at, high_at};
ghost use Rattle.array_call.specs.Faults.{fault, has_length, has_lengths, size_fault, IsSized};
ghost use Rattle.array_call.specs.Faults.{is_vertex, edge_rule, edge_fault, edges_fault};
ghost use Rattle.array_call.specs.Faults.{value_rule, value_fault, negative_fault};
ghost use Rattle.array_call.specs.Faults.{values_fault, negatives_fault, odd_values, ends_fault};
ghost use Rattle.array_call.specs.Faults.{kind_fault, array_fault};

use crate::arrays::InstanceArrays;
use crate::rule::{ArrayFault, ArrayRule};
use graph_theory::WEIGHT_LIMIT;
use mb_problem::{EDGE_LIMIT, Kind, Precondition, VALUE_LIMIT, VERTEX_LIMIT};

fn fault(rule: ArrayRule, place: u32) -> ArrayFault
    ensures { result ≡ fault rule place }
{
    ArrayFault { rule, place }
}

/// Whether there are as many items as are wanted, or none.
fn has_length(items: usize, wanted: usize) -> bool
    ensures { result ≡ has_length items wanted }
{
    items == 0 || items == wanted
}

/// How many numbers of `values` stand for a vertex.
fn value_width(kind: Kind) -> usize
    ensures { result ≡ value_width kind }
{
    if kind.has_bounds() { 2 } else { 1 }
}

/// Whether all arrays have the lengths that they should have.
fn has_lengths(kind: Kind, arrays: &InstanceArrays<'_>) -> bool
    ensures { result ≡ has_lengths kind (arrays_of arrays.now) }
{
    let edges = arrays.from.len();
    arrays.to.len() == edges
        && (has_length(arrays.weights.len(), edges)
            && (has_length(arrays.capacities.len(), edges)
                && has_length(
                    arrays.values.len(),
                    value_width(kind) * arrays.vertices as usize,
                )))
}

/// The fault of arrays of other lengths, or of too many vertices or edges.
fn size_fault(kind: Kind, arrays: &InstanceArrays<'_>) -> Option<ArrayFault>
    ensures fault { result ≡ size_fault kind (arrays_of arrays.now) }
    ensures sized { result ≡ None → IsSized (arrays_of arrays.now) }
{
    if !has_lengths(kind, arrays) {
        return Some(fault(ArrayRule::Lengths, 0));
    }
    if arrays.vertices > VERTEX_LIMIT {
        return Some(fault(ArrayRule::Vertices, 0));
    }
    if arrays.from.len() > EDGE_LIMIT as usize {
        return Some(fault(ArrayRule::Edges, 0));
    }
    None
}

/// The weight of the edge at a place, from 0.
pub fn weight_at(arrays: &InstanceArrays<'_>, k: usize) -> i64
    ensures { result ≡ weight_at (arrays_of arrays.now) k }
{
    match arrays.weights.get(k) {
        Some(weight) => *weight,
        None => 1,
    }
}

/// What stands for the capacity of the edge at a place: negative for none.
pub fn capacity_mark(arrays: &InstanceArrays<'_>, k: usize) -> i64
    ensures { result ≡ capacity_mark (arrays_of arrays.now) k }
{
    match arrays.capacities.get(k) {
        Some(capacity) => *capacity,
        None => -1,
    }
}

/// The number of `values` at a place; a default if there is none.
fn value_or(arrays: &InstanceArrays<'_>, k: usize, default: u32) -> u32
    ensures { result ≡ slice_index_or arrays.now.values.now k default }
{
    match arrays.values.get(k) {
        Some(value) => *value,
        None => default,
    }
}

/// The value of the vertex at a place.
pub fn value_at(kind: Kind, arrays: &InstanceArrays<'_>, k: u32) -> u32
    ensures { result ≡ value_at kind (arrays_of arrays.now) k }
{
    if kind.has_bounds() {
        return kind.default_value();
    }
    value_or(arrays, k as usize, kind.default_value())
}

/// The least degree of the vertex at a place.
pub fn low_at(kind: Kind, arrays: &InstanceArrays<'_>, k: u32) -> u32
    ensures { result ≡ low_at kind (arrays_of arrays.now) k }
{
    if !kind.has_bounds() {
        return 0;
    }
    value_or(arrays, 2 * k as usize, 0)
}

/// The greatest degree of the vertex at a place.
pub fn high_at(kind: Kind, arrays: &InstanceArrays<'_>, k: u32) -> u32
    ensures { result ≡ high_at kind (arrays_of arrays.now) k }
{
    if !kind.has_bounds() {
        return 1;
    }
    value_or(arrays, 2 * k as usize + 1, 1)
}

fn is_vertex(n: u32, v: u32) -> bool
    ensures { result ≡ is_vertex n v }
{
    v > 0 && !(v > n)
}

/// The rule that an edge breaks, of n vertices.
fn edge_rule(n: u32, u: u32, v: u32, weight: i64, capacity: i64) -> Option<ArrayRule>
    ensures { result ≡ edge_rule n u v weight capacity }
{
    if !is_vertex(n, u) || !is_vertex(n, v) {
        return Some(ArrayRule::End);
    }
    if weight < -WEIGHT_LIMIT || weight > WEIGHT_LIMIT {
        return Some(ArrayRule::Weight);
    }
    if capacity < -1 || capacity > i64::from(VALUE_LIMIT) {
        return Some(ArrayRule::Capacity);
    }
    None
}

/// The rule that the edge at a place breaks.
fn edge_fault(arrays: &InstanceArrays<'_>, k: usize) -> Option<ArrayRule>
    requires in_range { k < length arrays.now.from.now }
    requires sized { IsSized (arrays_of arrays.now) }
    ensures { result ≡ edge_fault (arrays_of arrays.now) k }
{
    let weight = weight_at(arrays, k);
    let capacity = capacity_mark(arrays, k);
    edge_rule(
        arrays.vertices,
        arrays.from[k],
        arrays.to[k],
        weight,
        capacity,
    )
}

/// The rule that a vertex breaks, by its value and its least and greatest degree.
fn value_rule(value: u32, low: u32, high: u32) -> Option<ArrayRule>
    ensures { result ≡ value_rule value low high }
{
    if value > VALUE_LIMIT || high > VALUE_LIMIT || high < low {
        return Some(ArrayRule::Value);
    }
    None
}

/// The rule that the vertex at a place breaks.
fn value_fault(kind: Kind, arrays: &InstanceArrays<'_>, k: u32) -> Option<ArrayRule>
    ensures { result ≡ value_fault kind (arrays_of arrays.now) k }
{
    let (value, low) = (value_at(kind, arrays, k), low_at(kind, arrays, k));
    value_rule(value, low, high_at(kind, arrays, k))
}

/// The rule that an edge breaks that weighs less than 0.
fn negative_fault(arrays: &InstanceArrays<'_>, k: usize) -> Option<ArrayRule>
    ensures { result ≡ negative_fault (arrays_of arrays.now) k }
{
    if weight_at(arrays, k) < 0 {
        return Some(ArrayRule::Negative);
    }
    None
}

/// The first fault of an edge.
fn edges_fault(arrays: &InstanceArrays<'_>) -> Option<ArrayFault>
    requires { IsSized (arrays_of arrays.now) }
    ensures { result ≡ edges_fault (arrays_of arrays.now) }
{
    for k in 0..arrays.from.len() {
        if let Some(rule) = edge_fault(arrays, k) {
            return Some(fault(rule, k as u32 + 1));
        }
    }
    None
}

/// The first fault of a vertex.
fn values_fault(kind: Kind, arrays: &InstanceArrays<'_>) -> Option<ArrayFault>
    requires { IsSized (arrays_of arrays.now) }
    ensures { result ≡ values_fault kind (arrays_of arrays.now) }
{
    for k in 0..arrays.vertices {
        if let Some(rule) = value_fault(kind, arrays, k) {
            return Some(fault(rule, k + 1));
        }
    }
    None
}

/// The first edge that weighs less than 0, as a fault.
fn negatives_fault(arrays: &InstanceArrays<'_>) -> Option<ArrayFault>
    requires { IsSized (arrays_of arrays.now) }
    ensures { result ≡ negatives_fault (arrays_of arrays.now) }
{
    for k in 0..arrays.from.len() {
        if let Some(rule) = negative_fault(arrays, k) {
            return Some(fault(rule, k as u32 + 1));
        }
    }
    None
}

/// How many values are odd.
fn odd_values(kind: Kind, arrays: &InstanceArrays<'_>) -> u32
    requires { IsSized (arrays_of arrays.now) }
    ensures { result ≡ odd_values kind (arrays_of arrays.now) }
{
    let mut count = 0;
    for k in 0..arrays.vertices {
        count += value_at(kind, arrays, k) % 2;
    }
    count
}

/// The fault of other than two odd values.
fn ends_fault(kind: Kind, arrays: &InstanceArrays<'_>) -> Option<ArrayFault>
    requires { IsSized (arrays_of arrays.now) }
    ensures { result ≡ ends_fault kind (arrays_of arrays.now) }
{
    if odd_values(kind, arrays) == 2 {
        return None;
    }
    Some(fault(ArrayRule::PathEnds, 0))
}

/// What a kind needs besides and the arrays lack. A weight comes before the ends.
fn kind_fault(kind: Kind, arrays: &InstanceArrays<'_>) -> Option<ArrayFault>
    requires { IsSized (arrays_of arrays.now) }
    ensures { result ≡ kind_fault kind (arrays_of arrays.now) }
{
    match kind.needs() {
        Precondition::Unrestricted => None,
        Precondition::WeightsFromZero => negatives_fault(arrays),
        Precondition::Ends => ends_fault(kind, arrays),
        Precondition::EndsAndWeightsFromZero => {
            let ends = ends_fault(kind, arrays);
            negatives_fault(arrays).or(ends)
        }
    }
}

/// The first fault of arrays as an instance of a kind.
pub fn array_fault(kind: Kind, arrays: &InstanceArrays<'_>) -> Option<ArrayFault>
    ensures fault { result ≡ array_fault kind (arrays_of arrays.now) }
    ensures sized { result ≡ None → IsSized (arrays_of arrays.now) }
{
    if let Some(fault) = size_fault(kind, arrays) {
        return Some(fault);
    }
    if let Some(fault) = edges_fault(arrays) {
        return Some(fault);
    }
    if let Some(fault) = values_fault(kind, arrays) {
        return Some(fault);
    }
    kind_fault(kind, arrays)
}
