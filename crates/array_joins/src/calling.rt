ghost use Rattle.std.specs.Prelude.{◌≡◌, ◌+◌, ◌≤◌, ◌<◌, ◌^◌, [], ◌∷◌, length, pos, None, IfOk};
ghost use Rattle.mb_problem.specs.declared.kind.Kind.TheVariants.{TJoin};
ghost use Rattle.array_call.specs.declared.rule.ArrayRule.TheVariants.{Starts};
ghost use Rattle.array_call.specs.Rules.{number_of_rule};
ghost use Rattle.array_call.specs.Made.{IsFaultless};
ghost use Rattle.array_call.specs.Arrays.{arrays_of, edge_count};
ghost use Rattle.array_joins.specs.Sets.{set_count, starts_fault};
ghost use Rattle.array_joins.specs.Terminals.{HasNoTerminals};
ghost use Rattle.array_joins.specs.Numbers.{joins_room};
ghost use Rattle.array_joins.specs.Answers.{graph_network, joins_fault, GivesJoins, CountsJoins};
ghost use Rattle.array_joins.specs.Answers.{CountsEnded};

use crate::joining::answer_all;
use crate::laying::numbers_of;
use crate::sets::starts_fault;
use array_call::{ArrayAnswer, ArrayError, ArrayRule, ArrayStatus, InstanceArrays, instance_of};
use mb_base::{OutOfMemory, Steps};
use mb_problem::{Instance, Kind};
use std::alloc::{AllocError, Global};
use std::sync::ledger::Ledger;

/// The answer to a rule that is broken at an index.
fn malformed(alloc: Global, rule: ArrayRule, index: i64) -> Result<ArrayAnswer, OutOfMemory>
    ensures numbers { IfOk result (λ a. a.numbers.items
        ≡ pos (number_of_rule rule) ∷ index ∷ []) }
    ensures status { IfOk result (λ a. a.status ≡ ArrayStatus.Malformed) }
{
    let numbers = Vec::from_slice(alloc, &[i64::from(rule.number()), index])?;
    let status = ArrayStatus::Malformed;
    Ok(ArrayAnswer { numbers, status })
}

/// The answer to a wrong start at an index.
fn wrong_start(alloc: Global, index: usize) -> Result<ArrayAnswer, OutOfMemory>
    requires { index < 2 ^ 63 }
    ensures numbers { IfOk result (λ a. a.numbers.items
        ≡ pos (number_of_rule Starts) ∷ pos index ∷ []) }
    ensures status { IfOk result (λ a. a.status ≡ ArrayStatus.Malformed) }
{
    malformed(alloc, ArrayRule::Starts, index as i64)
}

/// The answer to each set of terminals as numbers, on the graph of arrays without a fault.
fn answered<L: Ledger>(
    alloc: Global,
    arrays: &InstanceArrays<'_>,
    instance: &mut Instance,
    starts: &[u32],
    terminals: &[u32],
    steps: &mut Steps<L>,
) -> Result<ArrayAnswer, OutOfMemory>
    requires same_graph { instance.old ≡ graph_network (arrays_of arrays.now) }
    requires bare { HasNoTerminals instance.old }
    requires faultless { joins_fault (arrays_of arrays.now) starts.now terminals.now ≡ None }
    requires starts { starts_fault starts.now (length terminals.now) ≡ None }
    ensures answer { IfOk result (λ a. GivesJoins (arrays_of arrays.now) starts.now terminals.now
        a.numbers.items a.status) }
    ensures steps { CountsEnded (arrays_of arrays.now) starts.now terminals.now steps.old steps.new
        result }
{
    let outcomes = answer_all(alloc, instance, starts, terminals, steps)?;
    let numbers = numbers_of(alloc, &outcomes)?;
    let status = ArrayStatus::Done;
    Ok(ArrayAnswer { numbers, status })
}

/// The same, or the first wrong start.
fn answered_unless<L: Ledger>(
    alloc: Global,
    arrays: &InstanceArrays<'_>,
    instance: &mut Instance,
    starts: &[u32],
    terminals: &[u32],
    steps: &mut Steps<L>,
) -> Result<ArrayAnswer, OutOfMemory>
    requires loopless { arrays.now.values.now ≡ [] }
    requires same_graph { instance.old ≡ graph_network (arrays_of arrays.now) }
    requires faultless { IsFaultless TJoin (arrays_of arrays.now) }
    ensures answer { IfOk result (λ a. GivesJoins (arrays_of arrays.now) starts.now terminals.now
        a.numbers.items a.status) }
    ensures steps { CountsEnded (arrays_of arrays.now) starts.now terminals.now steps.old steps.new
        result }
{
    match starts_fault(starts, terminals.len()) {
        Some(index) => wrong_start(alloc, index),
        None => answered(alloc, arrays, instance, starts, terminals, steps),
    }
}

/// What is answered to arrays and sets of terminals, unless memory runs out.
fn answer<L: Ledger>(
    alloc: Global,
    arrays: &InstanceArrays<'_>,
    starts: &[u32],
    terminals: &[u32],
    steps: &mut Steps<L>,
) -> Result<ArrayAnswer, OutOfMemory>
    requires { arrays.now.values.now ≡ [] }
    ensures answer { IfOk result (λ a. GivesJoins (arrays_of arrays.now) starts.now terminals.now
        a.numbers.items a.status) }
    ensures steps { CountsEnded (arrays_of arrays.now) starts.now terminals.now steps.old steps.new
        result }
{
    match instance_of(alloc, Kind::TJoin, arrays) {
        Ok(mut instance) => {
            let answer = answered_unless(alloc, arrays, &mut instance, starts, terminals, steps);
            drop(instance);
            answer
        }
        Err(ArrayError::Malformed(fault)) => malformed(alloc, fault.rule, i64::from(fault.place)),
        Err(_) => Err(AllocError),
    }
}

/// Finds a T-join of minimum weight for each of many sets of terminals on one graph, or says why
/// there is none (Schrijver, Combinatorial Optimization, volume A, chapter 29).
///
/// The set at an index begins at this index of `starts` and ends where the next one begins, so
/// there is one start more than there are sets. The graph is read once; each set takes time linear
/// in it, and at most one search.
///
/// The numbers are, for all sets in order, which answer it is (0 a join, 1 no join, 2 a terminal
/// out of range, 3 a repeated terminal, 4 a graph of ports past a limit); the weight of the join,
/// or the index of the faulty terminal within its set, else 0; where the edges of each set begin
/// and those of the last end; and the edges. If the arrays or `starts` have a fault, the numbers
/// are its rule and its index. If memory runs out there are none.
pub fn joins_to<L: Ledger>(
    alloc: Global,
    arrays: &InstanceArrays<'_>,
    starts: &[u32],
    terminals: &[u32],
    steps: &mut Steps<L>,
) -> ArrayAnswer
    requires { arrays.now.values.now ≡ [] }

    // For each set a T-join of minimum weight, or that there is none, its first fault, or that its
    // graph of ports is past a limit; or the first fault of the arrays or of `starts`.
    ensures gives { GivesJoins (arrays_of arrays.now) starts.now terminals.now
        result.numbers.items result.status }

    // At most 3K + 2 + Km numbers for K sets and m edges, however the call ends.
    ensures room { length result.numbers.items
        ≤ joins_room (set_count starts.now) (edge_count (arrays_of arrays.now)) }

    // Within the steps of one search for each set without a fault and within the limits; none if
    // the arrays or `starts` have a fault.
    ensures steps { CountsJoins (arrays_of arrays.now) starts.now terminals.now steps.old steps.new
        result.status }
{
    match answer(alloc, arrays, starts, terminals, steps) {
        Ok(answer) => answer,
        Err(_) => ArrayAnswer {
            numbers: Vec::new(alloc),
            status: ArrayStatus::OutOfMemory,
        },
    }
}
