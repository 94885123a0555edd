ghost use Rattle.std.specs.Prelude.{◌≡◌, ◌+◌, ◌*◌, ◌≤◌, IfOk, IfSome};
ghost use Rattle.graph_theory.specs.Limits.{IsWithinLimits};
ghost use Rattle.mb_problem.specs.Size.{ports_size, odd_at};
ghost use Rattle.join_check.specs.Least.{IsLeastJoin};
ghost use Rattle.mwpm_engine.specs.Solutions.{most_steps};

use crate::guessing::guess;
use crate::rounds::{Guess, GuessTables};
use join_check::is_proved;
use mb_base::{OutOfMemory, Sequence, Steps};
use mb_problem::{Instance, Join, Parity};
use std::alloc::Global;
use std::sync::ledger::Ledger;

/// The join of a guess, if its forest proves that none weighs less.
fn accepted(
    alloc: Global,
    instance: &Instance,
    parity: &Parity,
    guess: Guess,
) -> Result<Option<Join>, OutOfMemory>
    ensures { IfOk result
        (λ o. IfSome o (λ join. IsLeastJoin parity.now instance.now join.edges)) }
{
    let proved = is_proved(alloc, instance, parity, &guess.join, &guess.levels)?;
    if !proved {
        return Ok(None);
    }
    Ok(Some(Join {
        edges: Sequence::from_vec(guess.join),
    }))
}

/// Guesses a T-join of minimum weight, and returns it if a check on the instance proves it
/// (Schrijver, Combinatorial Optimization, volume A, chapter 29). It is found by searches over
/// pairs of neighbouring vertices of odd degree. Without a result there may be a join or none.
///
/// The tables are those of the graph and the parity: with others there may be no result. The size
/// is that of the graph of ports, which bounds the work.
///
/// The steps of its searches are counted on `steps`.
///
/// # Errors
///
/// `OutOfMemory` if an allocation fails.
pub fn guessed_join<L: Ledger>(
    alloc: Global,
    tables: &mut GuessTables,
    instance: &Instance,
    parity: &Parity,
    size: (u64, u64),
    steps: &mut Steps<L>,
) -> Result<Option<Join>, OutOfMemory>
    requires limits { IsWithinLimits (ports_size instance.now (odd_at parity.now instance.now)) }
    requires vertices { size.0
        ≡ (ports_size instance.now (odd_at parity.now instance.now)).vertices }
    requires edges { size.1 ≡ (ports_size instance.now (odd_at parity.now instance.now)).edges }

    // What is answered is a T-join of minimum weight.
    ensures least { IfOk result
        (λ o. IfSome o (λ join. IsLeastJoin parity.now instance.now join.edges)) }

    // Within half the steps of one search.
    ensures half { 2 * steps.new ≤ 2 * steps.old
        + most_steps (ports_size instance.now (odd_at parity.now instance.now)) }
{
    let Some(guess) = guess(tables, instance, parity, size, steps)? else {
        return Ok(None);
    };
    accepted(alloc, instance, parity, guess)
}
