//! Reads the words with `clap`.
ghost use Rattle.std.specs.Prelude.{◌≡◌, ℕ, List, map, false, IfOk, Some, MatchOption};
ghost use Rattle.std.specs.Prelude.{string_bytes, codes};
ghost use Rattle.clap.specs.Words.{App, Row, Rule, app_of, new_app, found_of, rows_of};
ghost use Rattle.clap.specs.Words.{subcommand_rows_of, with_rule, with_subcommand};
ghost use Rattle.match_cli.specs.Program.{wanted, brief, solve, check, trial, program};
ghost use Rattle.match_cli.specs.Program.{subcommand_wanted, text_in, command_in, is_taken};
ghost use Rattle.match_cli.specs.Program.{found_in};
ghost use Rattle.match_cli.specs.Parts.{IsArgument, IsSubcommand};

use crate::command::{Command, detail_by, read_check, read_solve, read_trial};
use clap::error::ErrorKind;
use clap::{Arg, ArgAction, ArgMatches};
use mb_base::OutOfMemory;
use std::alloc::{AllocError, Global};

fn brief<'a>(alloc: Global) -> Arg<'a>
    ensures { IsArgument brief result }
{
    Arg::new(alloc, "brief")
        .long("brief")
        .action(ArgAction::SetTrue)
}

fn top<'a>(alloc: Global) -> clap::Command<'a>
    ensures { app_of result ≡ subcommand_wanted (new_app (codes "blossom")) }
{
    clap::Command::new(alloc, "blossom").subcommand_required(true)
}

/// A subcommand with one argument more.
fn with_argument<'a>(
    subcommand: Result<clap::Command<'a>, OutOfMemory>,
    argument: Arg<'a>,
) -> Result<clap::Command<'a>, OutOfMemory>
    ensures { (app : App) (rule : Rule) → IsArgument rule argument.entry
        → IfOk subcommand.entry (IsSubcommand app)
        → IfOk result (IsSubcommand (with_rule app rule)) }
{
    let Ok(subcommand) = subcommand else {
        drop(argument);
        return Err(AllocError);
    };
    subcommand.arg(argument)
}

/// A subcommand with one word more that is wanted.
fn with_wanted<'a>(
    alloc: Global,
    subcommand: Result<clap::Command<'a>, OutOfMemory>,
    id: &'a str,
) -> Result<clap::Command<'a>, OutOfMemory>
    ensures { (app : App) → IfOk subcommand.entry (IsSubcommand app)
        → IfOk result (IsSubcommand (with_rule app (wanted id.entry.now))) }
{
    with_argument(subcommand, Arg::new(alloc, id).required(true))
}

/// The subcommand that solves.
fn solve<'a>(alloc: Global) -> Result<clap::Command<'a>, OutOfMemory>
    ensures { IfOk result (IsSubcommand solve) }
{
    let solve = Ok(clap::Command::new(alloc, "solve"));
    let solve = with_wanted(alloc, solve, "kind");
    with_argument(solve, brief(alloc))
}

/// The subcommand that checks.
fn check<'a>(alloc: Global) -> Result<clap::Command<'a>, OutOfMemory>
    ensures { IfOk result (IsSubcommand check) }
{
    let check = Ok(clap::Command::new(alloc, "check"));
    with_wanted(alloc, check, "kind")
}

/// The subcommand that tries.
fn trial<'a>(alloc: Global) -> Result<clap::Command<'a>, OutOfMemory>
    ensures { IfOk result (IsSubcommand trial) }
{
    let trial = Ok(clap::Command::new(alloc, "trial"));
    let trial = with_wanted(alloc, trial, "kind");
    let trial = with_wanted(alloc, trial, "start");
    let trial = with_wanted(alloc, trial, "vertices");
    with_wanted(alloc, trial, "edges")
}

/// A program with one subcommand more.
fn with_command<'a>(
    program: Result<clap::Command<'a>, OutOfMemory>,
    subcommand: Result<clap::Command<'a>, OutOfMemory>,
) -> Result<clap::Command<'a>, OutOfMemory>
    ensures { (app sub : App) → IfOk program.entry (λ c. app_of c ≡ app)
        → IfOk subcommand.entry (IsSubcommand sub)
        → IfOk result (λ c. app_of c ≡ with_subcommand app sub.top) }
{
    let Ok(program) = program else {
        drop(subcommand);
        return Err(AllocError);
    };
    let Ok(subcommand) = subcommand else {
        drop(program);
        return Err(AllocError);
    };
    program.subcommand(subcommand)
}

/// The command line as `clap` reads it.
fn program<'a>(alloc: Global) -> Result<clap::Command<'a>, OutOfMemory>
    ensures { IfOk result (λ c. app_of c ≡ program) }
{
    let solving = with_command(Ok(top(alloc)), solve(alloc));
    let checking = with_command(solving, check(alloc));
    with_command(checking, trial(alloc))
}

/// What `clap` finds in the words; nothing if it refuses them.
pub fn parse<'a>(alloc: Global, words: &'a [String]) -> Result<Option<ArgMatches<'a>>, OutOfMemory>
    ensures { IfOk result (λ r. MatchOption r
        (is_taken (map string_bytes words.now) ≡ false)
        (λ m. subcommand_rows_of m ≡ found_in (map string_bytes words.now))) }
{
    let Ok(program) = program(alloc) else {
        return Err(AllocError);
    };
    match program.try_get_matches_from(words) {
        Ok(matches) => Ok(Some(matches)),
        Err(error) => {
            let kind = error.kind();
            drop(error);
            if kind == ErrorKind::OutOfMemory {
                return Err(AllocError);
            }
            Ok(None)
        }
    }
}

/// The text of an argument.
fn text_in<'a>(matches: &ArgMatches<'a>, id: &str) -> &'a str
    ensures { result.now ≡ text_in id.now (rows_of (found_of matches.now)) }
{
    matches.get_str(id).unwrap_or("")
}

/// The command that the matches of the subcommand that solves are.
fn solve_in(found: &ArgMatches<'_>) -> Option<Command>
    ensures { result ≡ command_in (codes "solve") (rows_of (found_of found.now)) }
{
    read_solve(
        text_in(found, "kind"),
        detail_by(text_in(found, "brief") == "true"),
    )
}

/// The command that the matches of the subcommand that checks are.
fn check_in(found: &ArgMatches<'_>) -> Option<Command>
    ensures { result ≡ command_in (codes "check") (rows_of (found_of found.now)) }
{
    read_check(text_in(found, "kind"))
}

/// The command that the matches of the subcommand that tries are.
fn trial_in(found: &ArgMatches<'_>) -> Option<Command>
    ensures { result ≡ command_in (codes "trial") (rows_of (found_of found.now)) }
{
    read_trial(
        text_in(found, "kind"),
        text_in(found, "start"),
        text_in(found, "vertices"),
        text_in(found, "edges"),
    )
}

/// The command that a subcommand and its matches are.
fn command_in(name: &str, found: &ArgMatches<'_>) -> Option<Command>
    ensures { result ≡ command_in name.now (rows_of (found_of found.now)) }
{
    match name {
        "solve" => solve_in(found),
        "check" => check_in(found),
        "trial" => trial_in(found),
        _ => None,
    }
}

/// The command that was found.
pub fn command_found(matches: &ArgMatches<'_>) -> Option<Command>
    ensures { (name : List ℕ) (rows : List Row) → subcommand_rows_of matches.now ≡ Some (name, rows)
        → result ≡ command_in name rows }
{
    match matches.subcommand() {
        Some((name, found)) => command_in(name, found),
        None => None,
    }
}
