ghost use Rattle.std.specs.Prelude.{◌≡◌, ℕ, ◌+◌, ◌-◌, ◌*◌, ◌%◌, ◌<◌, ◌≤◌, ◌↔◌, length, All, List};
ghost use Rattle.std.specs.Prelude.{slice_index, IsTrue, IfOk, IfSome};
ghost use Rattle.mb_problem.specs.Network.{Network, instance_edge_at};
ghost use Rattle.mb_problem.specs.Degrees.{AreDegrees};
ghost use Rattle.mb_problem.specs.Feasible.{IsFeasible, HasCounts, AtMostOnce, WithinCapacities};

use crate::answer::Answer;
use crate::degrees::degrees_of;
use crate::instance::Instance;
use crate::kind::{AnswerForm, Kind};
use crate::walks::{is_path, is_path_of, is_tour};
use mb_base::{EdgeId, OutOfMemory, VertexId};
use std::alloc::Global;

/// Whether there is one count for each edge.
fn has_counts(instance: &Instance, counts: &[u32]) -> bool
    ensures { IsTrue result ↔ HasCounts instance.now counts.now }
{
    counts.len() == instance.edge_list().len()
}

/// Whether no edge is used more than once.
fn is_at_most_once(counts: &[u32]) -> bool
    ensures { IsTrue result ↔ AtMostOnce counts.now }
{
    counts.iter().all(|&count| count <= 1)
}

/// Whether no edge is used more often than its capacity allows.
fn is_within_capacities(instance: &Instance, counts: &[u32]) -> bool
    requires { HasCounts instance.now counts.now }
    ensures { IsTrue result ↔ WithinCapacities instance.now counts.now }
{
    for (k, edge) in instance.edge_list().iter().enumerate() {
        if let Some(capacity) = edge.capacity {
            if counts[k] > capacity {
                return false;
            }
        }
    }
    true
}

/// Whether each degree is 1.
fn are_all_one(degrees: &[u64]) -> bool
    ensures { IsTrue result ↔ ((k : ℕ) → k < length degrees.now → slice_index degrees.now k ≡ 1) }
{
    for degree in degrees {
        if *degree != 1 {
            return false;
        }
    }
    true
}

/// Whether no degree is more than 1.
fn are_at_most_one(degrees: &[u64]) -> bool
    ensures { IsTrue result ↔ ((k : ℕ) → k < length degrees.now → slice_index degrees.now k ≤ 1) }
{
    for degree in degrees {
        if *degree > 1 {
            return false;
        }
    }
    true
}

/// Whether each degree is the value of its vertex.
fn are_values(degrees: &[u64], values: &[u32]) -> bool
    requires { length degrees.now ≡ length values.now }
    ensures { IsTrue result ↔ ((k : ℕ) → k < length degrees.now → slice_index degrees.now k
        ≡ slice_index values.now k) }
{
    for (k, value) in values.iter().enumerate() {
        if degrees[k] != u64::from(*value) {
            return false;
        }
    }
    true
}

/// Whether each degree lies between two bounds.
fn are_between(degrees: &[u64], lows: &[u32], highs: &[u32]) -> bool
    requires lows { length degrees.now ≡ length lows.now }
    requires highs { length degrees.now ≡ length highs.now }
    ensures { IsTrue result ↔ ((k : ℕ) → k < length degrees.now
        → (slice_index lows.now k ≤ slice_index degrees.now k)
        × (slice_index degrees.now k ≤ slice_index highs.now k)) }
{
    for (k, degree) in degrees.iter().enumerate() {
        if *degree < u64::from(lows[k]) {
            return false;
        }
        if *degree > u64::from(highs[k]) {
            return false;
        }
    }
    true
}

/// Whether each degree is odd where the value of its vertex is, and only there.
fn have_parities(degrees: &[u64], values: &[u32]) -> bool
    requires { length degrees.now ≡ length values.now }
    ensures { IsTrue result ↔ ((k : ℕ) → k < length degrees.now
        → slice_index degrees.now k % 2 ≡ slice_index values.now k % 2) }
{
    for (k, value) in values.iter().enumerate() {
        if degrees[k] % 2 != u64::from(*value % 2) {
            return false;
        }
    }
    true
}

/// Whether counts with these degrees are feasible for a kind.
fn are_fit(instance: &Instance, kind: Kind, counts: &[u32], degrees: &[u64]) -> bool
    requires counts { HasCounts instance.now counts.now }
    requires degrees { AreDegrees instance.now counts.now degrees.now }
    ensures { IsTrue result ↔ IsFeasible kind instance.now (Answer.Counts counts.now) }
{
    match kind {
        Kind::Perfect | Kind::Bottleneck => is_at_most_once(counts) && are_all_one(degrees),
        Kind::Match | Kind::Gallai => is_at_most_once(counts) && are_at_most_one(degrees),
        Kind::BMatch => are_values(degrees, instance.value_list()),
        Kind::CapMatch => {
            are_values(degrees, instance.value_list()) && is_within_capacities(instance, counts)
        }
        Kind::FFactor => is_at_most_once(counts) && are_values(degrees, instance.value_list()),
        Kind::TJoin => is_at_most_once(counts) && have_parities(degrees, instance.value_list()),
        Kind::Interval => {
            are_between(degrees, instance.low_list(), instance.high_list())
                && is_within_capacities(instance, counts)
        }
        _ => false,
    }
}

/// Whether counts are feasible for a kind whose answers are counts.
fn are_feasible(
    alloc: Global,
    instance: &Instance,
    kind: Kind,
    counts: &[u32],
) -> Result<bool, OutOfMemory>
    ensures { IfOk result (λ b. IsTrue b
        ↔ IsFeasible kind instance.now (Answer.Counts counts.now)) }
{
    if !has_counts(instance, counts) {
        return Ok(false);
    }
    let degrees = degrees_of(alloc, instance, counts)?;
    Ok(are_fit(instance, kind, counts, &degrees))
}

/// Whether a walk of edges is feasible for a kind.
fn is_feasible_walk(
    alloc: Global,
    instance: &Instance,
    kind: Kind,
    start: VertexId,
    edges: &[EdgeId],
) -> Result<bool, OutOfMemory>
    ensures { IfOk result (λ b. IsTrue b
        ↔ IsFeasible kind instance.now (Answer.Walk start edges.now)) }
{
    match kind {
        Kind::Postman => is_tour(alloc, instance, start, edges),
        Kind::Path => is_path(alloc, instance, start, edges),
        Kind::OddPath => is_path_of(alloc, instance, true, start, edges),
        Kind::EvenPath => is_path_of(alloc, instance, false, start, edges),
        _ => Ok(false),
    }
}

/// Whether the empty walk is feasible for a kind.
fn is_nothing_feasible(instance: &Instance, kind: Kind) -> bool
    ensures { IsTrue result ↔ IsFeasible kind instance.now Answer.Nothing }
{
    match kind.form() {
        AnswerForm::Counts => false,
        AnswerForm::Walk => kind == Kind::Postman && instance.edges() == 0,
    }
}

/// Whether an answer is feasible for a kind, in time linear in the answer and in vertices and
/// edges. Any answer may be asked about: counts aren't feasible where walks are wanted, or walks
/// where counts are, nor is a list with another number of counts than edges or a walk with a number
/// out of range.
pub fn feasible(
    alloc: Global,
    instance: &Instance,
    kind: Kind,
    answer: &Answer,
) -> Result<bool, OutOfMemory>
    // Whether an answer is feasible, for each kind; walks of any length in time linear in them.
    ensures { IfOk result (λ b. IsTrue b ↔ IsFeasible kind instance.now answer.now) }
{
    match answer {
        Answer::Counts(counts) => are_feasible(alloc, instance, kind, counts.as_slice()),
        Answer::Walk { start, edges } => {
            is_feasible_walk(alloc, instance, kind, *start, edges.as_slice())
        }
        Answer::Nothing => Ok(is_nothing_feasible(instance, kind)),
    }
}
