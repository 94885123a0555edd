//! The answers to sets of terminals as numbers.
ghost use Rattle.std.specs.Prelude.{◌≡◌, ◌++◌, pos, map, IfOk, OnOk};
ghost use Rattle.array_call.specs.Layout.{offsets, all_items};
ghost use Rattle.array_joins.specs.Numbers.{rule_number, outcome_number, detail_number};
ghost use Rattle.array_joins.specs.Numbers.{edge_numbers, edge_lists, numbers_of};

use crate::outcome::{SetOutcome, TerminalRule};
use mb_base::{EdgeId, OutOfMemory};
use std::alloc::Global;

fn rule_number(rule: TerminalRule) -> i64
    ensures { result ≡ rule_number rule }
{
    match rule {
        TerminalRule::OutOfRange => 2,
        TerminalRule::Repeated => 3,
    }
}

/// Which answer it is.
fn outcome_number(outcome: &SetOutcome) -> i64
    ensures { result ≡ outcome_number outcome.now }
{
    match outcome {
        SetOutcome::Joined { .. } => 0,
        SetOutcome::NoJoin => 1,
        SetOutcome::Faulty(fault) => rule_number(fault.rule),
        SetOutcome::TooLarge => 4,
    }
}

/// The weight of a join, the index of a faulty terminal, else 0.
fn detail_number(outcome: &SetOutcome) -> i64
    ensures { result ≡ detail_number outcome.now }
{
    match outcome {
        SetOutcome::Joined { weight, .. } => *weight,
        SetOutcome::NoJoin => 0,
        SetOutcome::Faulty(fault) => i64::from(fault.index),
        SetOutcome::TooLarge => 0,
    }
}

/// Puts the numbers of edges at the end.
fn push_numbers(numbers: &mut Vec<i64>, edges: &[EdgeId]) -> Result<(), OutOfMemory>
    ensures { OnOk result (numbers.new.items ≡ numbers.old.items ++ map pos edges.now) }
{
    for edge in edges {
        numbers.push(i64::from(edge.number()))?;
    }
    Ok(())
}

/// Puts the edges of an answer at the end.
fn push_edges(numbers: &mut Vec<i64>, outcome: &SetOutcome) -> Result<(), OutOfMemory>
    ensures { OnOk result (numbers.new.items ≡ numbers.old.items ++ edge_numbers outcome.now) }
{
    match outcome {
        SetOutcome::Joined { join, .. } => push_numbers(numbers, join.edges.as_slice()),
        _ => Ok(()),
    }
}

/// The edges of answers, and where those of each begin.
#[derive(Drop)]
struct Edges {
    offsets: Vec<i64>,
    all: Vec<i64>,
}

/// The edges of all answers, where the last offset is the end of all.
fn edges_of(alloc: Global, outcomes: &[SetOutcome]) -> Result<Edges, OutOfMemory>
    ensures offsets { IfOk result (λ e. e.offsets.items ≡ offsets (edge_lists outcomes.now)) }
    ensures all { IfOk result (λ e. e.all.items ≡ all_items (edge_lists outcomes.now)) }
{
    let mut offsets = Vec::new(alloc);
    let mut all = Vec::new(alloc);
    for outcome in outcomes {
        offsets.push(all.len() as i64)?;
        push_edges(&mut all, outcome)?;
    }
    offsets.push(all.len() as i64)?;
    Ok(Edges { offsets, all })
}

/// Puts the number of each answer at the end.
fn push_outcomes(numbers: &mut Vec<i64>, outcomes: &[SetOutcome]) -> Result<(), OutOfMemory>
    ensures { OnOk result (numbers.new.items
        ≡ numbers.old.items ++ map outcome_number outcomes.now) }
{
    for outcome in outcomes {
        numbers.push(outcome_number(outcome))?;
    }
    Ok(())
}

/// Puts the detail of each answer at the end.
fn push_details(numbers: &mut Vec<i64>, outcomes: &[SetOutcome]) -> Result<(), OutOfMemory>
    ensures { OnOk result (numbers.new.items
        ≡ numbers.old.items ++ map detail_number outcomes.now) }
{
    for outcome in outcomes {
        numbers.push(detail_number(outcome))?;
    }
    Ok(())
}

/// The numbers of answers: which each is, its detail, where its edges begin, and the edges of all.
pub(crate) fn numbers_of(alloc: Global, outcomes: &[SetOutcome]) -> Result<Vec<i64>, OutOfMemory>
    ensures { IfOk result (λ v. v.items ≡ numbers_of outcomes.now) }
{
    let edges = edges_of(alloc, outcomes)?;
    let room = edges.all.len().saturating_add(edges.offsets.len());
    let both = outcomes.len().saturating_add(outcomes.len());
    let mut numbers = Vec::with_capacity(alloc, room.saturating_add(both))?;
    push_outcomes(&mut numbers, outcomes)?;
    push_details(&mut numbers, outcomes)?;
    numbers.extend_from_slice(&edges.offsets)?;
    numbers.extend_from_slice(&edges.all)?;
    Ok(numbers)
}
