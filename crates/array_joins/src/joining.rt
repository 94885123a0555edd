//! The answers to sets of terminals.
ghost use Rattle.std.specs.Prelude.{◌≡◌, ◌+◌, ◌*◌, ◌≤◌, ◌<◌, ◌^◌, length, true, false, None, IfOk};
ghost use Rattle.graph_theory.specs.Limits.{IsWithinLimits};
ghost use Rattle.mb_problem.specs.declared.answer.Parity.TheVariants.{Values};
ghost use Rattle.mb_problem.specs.Joins.{HasJoin};
ghost use Rattle.mb_problem.specs.Network.{vertices};
ghost use Rattle.mwpm_engine.specs.Solutions.{most_steps};
ghost use Rattle.join_check.specs.Least.{IsLeastJoin};
ghost use Rattle.array_joins.specs.Sets.{terminal_sets, starts_fault};
ghost use Rattle.array_joins.specs.Terminals.{first_fault, network_with, HasNoTerminals, join_size};
ghost use Rattle.array_joins.specs.Outcomes.{AnswersMarked, AnswersSet, AnswersEach, search_steps};
ghost use Rattle.array_joins.specs.Outcomes.{steps_by, set_steps, all_steps};

use crate::guessed::guessed_join;
use crate::marking::{mark, unmark};
use crate::outcome::{SetOutcome, TerminalFault};
use crate::rounds::GuessTables;
use crate::sets::set_at;
use crate::weighing::weight_of;
use certificates::is_within_limits;
use graph_parts::{JoinOrOdd, join_or_odd};
use least_joins::least_join;
use mb_base::{OutOfMemory, Steps};
use mb_problem::{EDGE_LIMIT, Instance, Join, Kind, Parity, gadget_size};
use std::alloc::Global;
use std::sync::ledger::Ledger;

/// Whether there is a join that is odd exactly where the values are.
fn has_join(alloc: Global, instance: &Instance) -> Result<bool, OutOfMemory>
    ensures some { IfOk result (λ b. b ≡ true → HasJoin Values instance.now) }
    ensures none { IfOk result (λ b. b ≡ false → ¬ HasJoin Values instance.now) }
{
    match join_or_odd(alloc, instance, &Parity::Values)? {
        JoinOrOdd::Join(_) => Ok(true),
        JoinOrOdd::OddSet(_) => Ok(false),
    }
}

/// The outcome that is a join of minimum weight.
fn joined(instance: &Instance, join: Join) -> SetOutcome
    requires limits { IsWithinLimits (join_size instance.now) }
    requires least { IsLeastJoin Values instance.now join.edges }
    ensures { AnswersMarked None instance.now result }
{
    prove!(instance.edges() <= EDGE_LIMIT);
    let weight = weight_of(instance, join.edges.as_slice());
    SetOutcome::Joined { join, weight }
}

/// The answer by a search of the graph of ports, if there is a join.
fn answer_by_search<L: Ledger>(
    alloc: Global,
    instance: &Instance,
    steps: &mut Steps<L>,
) -> Result<SetOutcome, OutOfMemory>
    requires { IsWithinLimits (join_size instance.now) }
    ensures answer { IfOk result (AnswersMarked None instance.now) }
    ensures half { 2 * steps.new ≤ 2 * steps.old + most_steps (join_size instance.now) }
{
    if !has_join(alloc, instance)? {
        return Ok(SetOutcome::NoJoin);
    }
    let join = least_join(alloc, instance, &Parity::Values, steps)?;
    Ok(joined(instance, join))
}

/// The answer within the limits: a join that is guessed and proved, or else that of a search. The
/// size is that of the graph of ports.
fn answer_within<L: Ledger>(
    alloc: Global,
    instance: &Instance,
    tables: &mut GuessTables,
    size: (u64, u64),
    steps: &mut Steps<L>,
) -> Result<SetOutcome, OutOfMemory>
    requires limits { IsWithinLimits (join_size instance.now) }
    requires vertices { size.0 ≡ (join_size instance.now).vertices }
    requires edges { size.1 ≡ (join_size instance.now).edges }
    ensures answer { IfOk result (AnswersMarked None instance.now) }
    ensures steps { steps.new ≤ steps.old + most_steps (join_size instance.now) }
{
    let parity = Parity::Values;
    if let Some(join) = guessed_join(alloc, tables, instance, &parity, size, steps)? {
        return Ok(joined(instance, join));
    }
    answer_by_search(alloc, instance, steps)
}

/// The answer to terminals without a fault, at which alone the values are odd.
fn answer<L: Ledger>(
    alloc: Global,
    instance: &Instance,
    tables: &mut GuessTables,
    steps: &mut Steps<L>,
) -> Result<SetOutcome, OutOfMemory>
    ensures answer { IfOk result (AnswersMarked None instance.now) }
    ensures steps { steps.new ≤ steps.old + search_steps (join_size instance.now) }
{
    let (vertices, edges) = gadget_size(instance, Kind::TJoin);
    if !is_within_limits(vertices, edges) {
        return Ok(SetOutcome::TooLarge);
    }
    answer_within(alloc, instance, tables, (vertices, edges), steps)
}

/// The answer to terminals with this first fault, if there is one.
fn answer_unless<L: Ledger>(
    alloc: Global,
    instance: &Instance,
    fault: Option<TerminalFault>,
    tables: &mut GuessTables,
    steps: &mut Steps<L>,
) -> Result<SetOutcome, OutOfMemory>
    ensures answer { IfOk result (AnswersMarked fault instance.now) }
    ensures steps { steps.new ≤ steps.old + steps_by fault instance.now }
{
    match fault {
        Some(fault) => Ok(SetOutcome::Faulty(fault)),
        None => answer(alloc, instance, tables, steps),
    }
}

/// The answer to a set of terminals. The instance has none before and behind it.
fn answer_set<L: Ledger>(
    alloc: Global,
    instance: &mut Instance,
    terminals: &[u32],
    tables: &mut GuessTables,
    steps: &mut Steps<L>,
) -> Result<SetOutcome, OutOfMemory>
    requires bare { HasNoTerminals instance.old }
    requires size_limit { length terminals.now < 2 ^ 32 }
    ensures answer { IfOk result (AnswersSet instance.old terminals.now) }
    ensures steps { steps.new ≤ steps.old + set_steps instance.old terminals.now }
    ensures unchanged { instance.new ≡ instance.old }
{
    let fault = mark(instance, terminals);
    let outcome = answer_unless(alloc, instance, fault, tables, steps);
    unmark(instance, terminals);
    outcome
}

/// The answer to each set of terminals, with tables of the graph.
fn answer_each<L: Ledger>(
    alloc: Global,
    instance: &mut Instance,
    starts: &[u32],
    terminals: &[u32],
    tables: &mut GuessTables,
    steps: &mut Steps<L>,
) -> Result<Vec<SetOutcome>, OutOfMemory>
    requires bare { HasNoTerminals instance.old }
    requires starts { starts_fault starts.now (length terminals.now) ≡ None }
    ensures answers { IfOk result (λ v.
        AnswersEach instance.old (terminal_sets starts.now terminals.now) v.items) }
    ensures steps { steps.new ≤ steps.old + all_steps instance.old starts.now terminals.now }
{
    let mut outcomes = Vec::with_capacity(alloc, starts.len() - 1)?;
    for k in 0..starts.len() - 1 {
        let set = set_at(starts, terminals, k);
        outcomes.push(answer_set(alloc, instance, set, tables, steps)?)?;
    }
    Ok(outcomes)
}

/// The answer to each set of terminals. The tables of the graph are made once.
pub(crate) fn answer_all<L: Ledger>(
    alloc: Global,
    instance: &mut Instance,
    starts: &[u32],
    terminals: &[u32],
    steps: &mut Steps<L>,
) -> Result<Vec<SetOutcome>, OutOfMemory>
    requires bare { HasNoTerminals instance.old }
    requires starts { starts_fault starts.now (length terminals.now) ≡ None }
    ensures answers { IfOk result (λ v.
        AnswersEach instance.old (terminal_sets starts.now terminals.now) v.items) }
    ensures steps { steps.new ≤ steps.old + all_steps instance.old starts.now terminals.now }
{
    let mut tables = GuessTables::new(alloc, instance, &Parity::Values)?;
    let outcomes = answer_each(alloc, instance, starts, terminals, &mut tables, steps);
    tables.release();
    outcomes
}
