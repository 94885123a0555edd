ghost use Rattle.std.specs.Prelude.{◌≡◌, map, string_bytes, IfOk, IfSome};
ghost use Rattle.clap.specs.Words.{subcommand_rows_of};
ghost use Rattle.match_cli.specs.Arguments.{command_of, HasRanges};
ghost use Rattle.match_cli.specs.Program.{found_in};

use crate::command::Command;
use crate::form::has_form;
use crate::parse::{command_found, parse};
use clap::ArgMatches;
use mb_base::OutOfMemory;
use std::alloc::Global;

/// The command of words that the parser takes: it takes some lists that aren't commands here, as
/// one with the word `--`.
fn command_of(words: &[String], matches: &ArgMatches<'_>) -> Option<Command>
    requires { subcommand_rows_of matches.now ≡ found_in (map string_bytes words.now) }
    ensures { result ≡ command_of (map string_bytes words.now) }
{
    if !has_form(words) {
        return None;
    }
    command_found(matches)
}

/// The command of words, where the parser takes them.
fn read_words(alloc: Global, words: &[String]) -> Result<Option<Command>, OutOfMemory>
    ensures { IfOk result (λ c. c ≡ command_of (map string_bytes words.now)) }
{
    let Some(matches) = parse(alloc, words)? else {
        return Ok(None);
    };
    Ok(command_of(words, &matches))
}

/// The command that the words of a command line are, the program's name first; None if they are
/// none. Taken are `solve KIND`, the same with `--brief` before or after the kind, `check KIND`,
/// and `trial KIND START N M`, where the numbers are digits alone.
///
/// # Errors
///
/// `OutOfMemory` if an allocation fails.
pub fn read_command(alloc: Global, words: &Vec<String>) -> Result<Option<Command>, OutOfMemory>
    // Which lists of arguments are commands, and which command each is; the numbers of a trial are
    // within their limits.
    ensures exact { IfOk result (λ c. c ≡ command_of (map string_bytes words.now.items)) }

    // The numbers of a trial are within their limits.
    ensures ranges { IfOk result (λ c. IfSome c HasRanges) }
{
    read_words(alloc, words.as_slice())
}
