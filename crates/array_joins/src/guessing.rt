ghost use Rattle.std.specs.Prelude.{◌≡◌, ◌*◌, ◌≤◌, ◌+◌, ◌<◌, ◌^◌};
ghost use Rattle.graph_theory.specs.Limits.{IsWithinLimits};
ghost use Rattle.mb_problem.specs.Size.{ports_size, odd_at};
ghost use Rattle.mwpm_engine.specs.Solutions.{most_steps};

use crate::rounds::{Guess, GuessTables};
use mb_base::{OutOfMemory, Steps};
use mb_problem::{Instance, Parity};
use std::sync::ledger::Ledger;

/// Twice how many steps a search of a graph of this size takes at most, if that has a perfect
/// matching.
fn budget_of(vertices: u64, edges: u64) -> u64
    requires vertices { vertices < 2 ^ 16 }
    requires edges { edges < 2 ^ 24 }
    ensures { result ≡ (vertices + 1) * (3 * vertices + 2) * (edges + 1) }
{
    (vertices + 1) * (3 * vertices + 2) * (edges + 1)
}

/// How many arcs searches for shortest paths may follow for each edge of the graph of ports.
const LOOKS: u64 = 3;

/// How many steps searches may take twice over, and how many arcs may be followed, by the size of
/// the graph of ports. The instance and the parity stand for the contract alone.
fn allowance(instance: &Instance, parity: &Parity, size: (u64, u64)) -> (u64, u64)
    requires limits { IsWithinLimits (ports_size instance.now (odd_at parity.now instance.now)) }
    requires vertices { size.0
        ≡ (ports_size instance.now (odd_at parity.now instance.now)).vertices }
    requires edges { size.1 ≡ (ports_size instance.now (odd_at parity.now instance.now)).edges }
    ensures { result.0 ≡ most_steps (ports_size instance.now (odd_at parity.now instance.now)) }
{
    let (vertices, edges) = size;
    (budget_of(vertices, edges), LOOKS.wrapping_mul(edges))
}

/// A guess whose searches take no more than half the budget's steps.
fn guess_within<L: Ledger>(
    tables: &mut GuessTables,
    instance: &Instance,
    parity: &Parity,
    allowed: (u64, u64),
    steps: &mut Steps<L>,
) -> Result<Option<Guess>, OutOfMemory>
    ensures { 2 * steps.new ≤ 2 * steps.old + allowed.0 }
{
    let (mut budget, looks) = allowed;
    if !tables.begin(instance, *parity, looks)? {
        return Ok(None);
    }
    tables.run(instance, &mut budget, steps)
}

/// Guesses a join of this parity that weighs the least, with a forest of lengths that may prove it;
/// nothing if the guess gives up. It finds shortest paths between neighbouring vertices of odd
/// degree and searches over these pairs, in at most six rounds. The tables are those of the graph
/// and the parity; the size is that of the graph of ports, which bounds the work.
///
/// Nothing is promised of a guess: whoever uses it tests it by `join_check`. Its searches count no
/// more steps than one search of the graph of ports that is known to have a perfect matching.
///
/// # Errors
///
/// `OutOfMemory` if an allocation fails.
pub fn guess<L: Ledger>(
    tables: &mut GuessTables,
    instance: &Instance,
    parity: &Parity,
    size: (u64, u64),
    steps: &mut Steps<L>,
) -> Result<Option<Guess>, OutOfMemory>
    requires limits { IsWithinLimits (ports_size instance.now (odd_at parity.now instance.now)) }
    requires vertices { size.0
        ≡ (ports_size instance.now (odd_at parity.now instance.now)).vertices }
    requires edges { size.1 ≡ (ports_size instance.now (odd_at parity.now instance.now)).edges }

    // Within half the steps of one search of the graph of ports, whether there is a guess or not.
    ensures steps { 2 * steps.new ≤ 2 * steps.old
        + most_steps (ports_size instance.now (odd_at parity.now instance.now)) }
{
    let allowed = allowance(instance, parity, size);
    guess_within(tables, instance, parity, allowed, steps)
}
