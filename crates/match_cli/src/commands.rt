//! A command: how many bytes it takes, and what it answers to them.
ghost use Rattle.std.specs.Prelude.{◌≡◌, ◌≤◌, ◌^◌, ◌↔◌, IsTrue, IfOk, IfSome, Some};
ghost use Rattle.match_cli.specs.Arguments.{HasRanges};
ghost use Rattle.match_cli.specs.Answers.{Answers, Gives};
ghost use Rattle.match_cli.specs.Commands.{limit_of, IsShort};
ghost use Rattle.match_cli.specs.Counts.{CountsAnswer, CountsInstance};

use crate::command::Command;
use crate::limits::{CHECK_BYTE_LIMIT, SOLVE_BYTE_LIMIT};
use crate::solve::{solve, solve_input};
use crate::trial::trial;
use check_text::{Output, check, check_input, too_long};
use mb_base::{OutOfMemory, Steps};
use std::alloc::Global;
use std::sync::ledger::Ledger;

/// How many bytes of input the command takes; None if it reads none.
pub fn limit(command: Command) -> Option<u64>
    ensures limit { result ≡ limit_of command }
    ensures size_limit { IfSome result (λ limit. limit ≤ 2 ^ 31) }
{
    match command {
        Command::Check { .. } => Some(CHECK_BYTE_LIMIT),
        Command::Solve { .. } => Some(SOLVE_BYTE_LIMIT),
        Command::Trial { .. } => None,
    }
}

/// Whether an input is within the limit of a command that reads it.
fn is_short(command: Command, bytes: &[u8]) -> bool
    ensures { IsTrue result ↔ IsShort command bytes.now }
{
    match limit(command) {
        Some(limit) => bytes.len() as u64 <= limit,
        None => true,
    }
}

/// What a command answers to bytes within its limit.
fn answer_within<L: Ledger>(
    alloc: Global,
    command: Command,
    bytes: &[u8],
    steps: &mut Steps<L>,
) -> Result<Output, OutOfMemory>
    requires ranges { HasRanges command }
    requires short { IsShort command bytes.now }
    ensures answer { IfOk result (λ a. Answers command bytes.now a.text.items a.status) }
    ensures steps { CountsAnswer command steps.old steps.new result }
    ensures counted { CountsInstance (Some command) bytes.now steps.old steps.new }
{
    match command {
        Command::Check { kind } => check(alloc, kind, bytes),
        Command::Solve { kind, detail } => solve(alloc, kind, detail, bytes, steps),
        Command::Trial { kind, start, n, m } => trial(alloc, kind, start, n, m, steps),
    }
}

/// What a command answers to the bytes of an input: the whole text, and the status. It is what the
/// program writes for words that are the command. `check` and `solve` look at the bytes (Schrijver,
/// Combinatorial Optimization, volume A, chapters 24 to 33), `trial` at none.
///
/// # Errors
///
/// `OutOfMemory` if an allocation fails.
pub fn answer_to<L: Ledger>(
    alloc: Global,
    command: Command,
    bytes: &[u8],
    steps: &mut Steps<L>,
) -> Result<Output, OutOfMemory>
    requires ranges { HasRanges command }

    // For a command and bytes, the whole text and the status, by the same relation.
    ensures answer { IfOk result (λ a. Gives command bytes.now a.text.items a.status) }

    // How many steps are counted.
    ensures steps { CountsAnswer command steps.old steps.new result }

    // If there is an instance, its search counts no more than the graph of its certificates allows.
    ensures counted { CountsInstance (Some command) bytes.now steps.old steps.new }
{
    if !is_short(command, bytes) {
        return too_long(alloc);
    }
    answer_within(alloc, command, bytes, steps)
}

/// What a command answers to an input within its limit that isn't kept.
fn answer_input_within<L: Ledger>(
    alloc: Global,
    command: Command,
    input: Vec<u8>,
    steps: &mut Steps<L>,
) -> Result<Output, OutOfMemory>
    requires ranges { HasRanges command }
    requires short { IsShort command input.items }
    ensures answer { IfOk result (λ a. Answers command input.items a.text.items a.status) }
    ensures steps { CountsAnswer command steps.old steps.new result }
    ensures counted { CountsInstance (Some command) input.items steps.old steps.new }
{
    match command {
        Command::Check { kind } => check_input(alloc, kind, input),
        Command::Solve { kind, detail } => solve_input(alloc, kind, detail, input, steps),
        Command::Trial { kind, start, n, m } => trial(alloc, kind, start, n, m, steps),
    }
}

/// What a command answers to an input that isn't kept: its bytes go before `check` reads the
/// document, and before `solve` searches.
pub fn answer_input<L: Ledger>(
    alloc: Global,
    command: Command,
    input: Vec<u8>,
    steps: &mut Steps<L>,
) -> Result<Output, OutOfMemory>
    requires ranges { HasRanges command }
    ensures answer { IfOk result (λ a. Gives command input.items a.text.items a.status) }
    ensures steps { CountsAnswer command steps.old steps.new result }
    ensures counted { CountsInstance (Some command) input.items steps.old steps.new }
{
    if !is_short(command, &input) {
        return too_long(alloc);
    }
    answer_input_within(alloc, command, input, steps)
}
