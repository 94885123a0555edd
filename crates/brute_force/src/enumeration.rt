ghost use Rattle.std.specs.Prelude.{◌≡◌, ◌+◌, ◌≤◌, true, All, IsTrue, ◌↔◌, IfOk, IfSome, MatchBool};
ghost use Rattle.std.specs.Prelude.{MatchOption};
ghost use Rattle.mb_problem.specs.Feasible.{IsAsGood, weight_of};
ghost use Rattle.mb_problem.specs.Measured.{HasPlaces};
ghost use Rattle.mb_problem.specs.declared.limits.TheConstants.{VALUE_LIMIT};
ghost use Rattle.brute_force.specs.Best.{is_counted, mosts, IsBestOrNone};
ghost use Rattle.brute_force.specs.Digits.{digit_lists};
ghost use Rattle.brute_force.specs.Tried.{IsBestBelow};
ghost use Rattle.brute_force.specs.declared.limits.TheConstants.{TRIAL_LIMIT};

use crate::digits::{digits_of, lists};
use crate::mosts::mosts;
use mb_base::OutOfMemory;
use mb_problem::{Answer, Instance, Kind, Objective, feasible, weight};
use std::alloc::Global;

/// Whether an answer of one weight is better than an answer of the other.
fn is_better(kind: Kind, one: i128, other: i128) -> bool
    ensures { MatchBool result (IsAsGood kind one other) (IsAsGood kind other one) }
{
    match kind.sense() {
        Objective::Greatest => one > other,
        Objective::Least => one < other,
    }
}

/// Whether a feasible answer is better than the one found before, or the first.
fn improves(instance: &Instance, kind: Kind, found: &Option<Answer>, answer: &Answer) -> bool
    requires found { IfSome found.now (HasPlaces instance.now) }
    requires answer { HasPlaces instance.now answer.now }
    ensures { MatchBool result
        (IfSome found.now (λ a. IsAsGood kind
        (weight_of kind instance.now answer.now) (weight_of kind instance.now a)))
        (MatchOption found.now ⊥ (λ a. IsAsGood kind
        (weight_of kind instance.now a) (weight_of kind instance.now answer.now))) }
{
    match found {
        Some(before) => is_better(
            kind,
            weight(instance, kind, answer),
            weight(instance, kind, before),
        ),
        None => true,
    }
}

/// The best answer of the codes up to this one, from the best of those below it.
fn try_code(
    alloc: Global,
    instance: &Instance,
    kind: Kind,
    mosts: &[u32],
    code: u64,
    found: Option<Answer>,
) -> Result<Option<Answer>, OutOfMemory>
    requires kind { is_counted kind ≡ true }
    requires value_limit { All (λ most. most ≤ VALUE_LIMIT) mosts.now }
    requires best { IsBestBelow kind instance.now mosts.now code found }
    ensures best { IfOk result (λ kept. IsBestBelow kind instance.now mosts.now (code + 1) kept) }
{
    let answer = Answer::Counts(digits_of(alloc, mosts, code)?);
    if !feasible(alloc, instance, kind, &answer)? {
        return Ok(found);
    }
    if improves(instance, kind, &found, &answer) {
        return Ok(Some(answer));
    }
    Ok(found)
}

/// How many lists of counts up to these there are, if they are few.
fn list_count(mosts: &[u32]) -> u64
    requires value_limit { All (λ most. most ≤ VALUE_LIMIT) mosts.now }
    requires size_limit { digit_lists mosts.now ≤ TRIAL_LIMIT }
    ensures { result ≡ digit_lists mosts.now }
{
    lists(mosts).unwrap_or(0)
}

/// Whether there are few enough counts for `best` to try: each goes from 0 to 1 or, for b-matchings
/// and those with capacities, to the least of the values at the edge's ends and its capacity; for
/// degrees between two bounds to the least of the greatest degrees there and its capacity.
///
/// # Errors
///
/// `OutOfMemory` if an allocation fails.
pub fn is_small(alloc: Global, instance: &Instance, kind: Kind) -> Result<bool, OutOfMemory>
    ensures { IfOk result (λ b. IsTrue b ↔ (digit_lists (mosts kind instance.now) ≤ TRIAL_LIMIT)) }
{
    let mosts = mosts(alloc, instance, kind)?;
    Ok(lists(&mosts).is_some())
}

/// A best answer to a small instance, by trying all counts; nothing if no answer is feasible. It
/// serves tests, as a plain second opinion on a solver. The kind is one whose answers are counts: a
/// perfect matching of least weight, a matching of greatest weight or of most edges (Schrijver,
/// Combinatorial Optimization, volume A, chapters 24 and 26), a b-matching (31), with capacities
/// (32), a factor (33), a T-join (29) or counts between bounds (35) of least weight. Each of the
/// counts that are tried takes time and memory linear in the vertices and edges.
///
/// # Errors
///
/// `OutOfMemory` if an allocation fails.
pub fn best(alloc: Global, instance: &Instance, kind: Kind) -> Result<Option<Answer>, OutOfMemory>
    requires kind { is_counted kind ≡ true }
    requires size_limit { digit_lists (mosts kind instance.now) ≤ TRIAL_LIMIT }

    // An optimal answer to a small instance by trying all, for tests.
    ensures { IfOk result (IsBestOrNone kind instance.now) }
{
    let mosts = mosts(alloc, instance, kind)?;
    let count = list_count(&mosts);
    let mut found = None;
    for code in 0..count {
        found = try_code(alloc, instance, kind, &mosts, code, found)?;
    }
    Ok(found)
}
