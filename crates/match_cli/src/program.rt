ghost use Rattle.std.specs.Prelude.{◌≡◌, ◌<◌, ◌≤◌, ◌-◌, ◌^◌, length, map, string_bytes, Some, IfOk};
ghost use Rattle.std.specs.Prelude.{IfErr};
ghost use Rattle.match_cli.specs.Arguments.{command_of, HasRanges};
ghost use Rattle.match_cli.specs.Commands.{KeepsUnread};
ghost use Rattle.match_cli.specs.Answers.{Gives};
ghost use Rattle.match_cli.specs.Runs.{Runs, CountsRun, TellsTruth, IsAcceptedAgain, Completes};
ghost use Rattle.match_cli.specs.Counts.{CountsAnswer, CountsInstance, CountsSource};
ghost use Rattle.match_cli.specs.Prepared.{Prepares, PreparesUsage, CountsPrepared, Readies};
ghost use Rattle.match_cli.specs.Prepared.{CountsPreparedSteps};

use crate::command::Command;
use crate::commands::{answer_input, limit};
use crate::read::read_command;
use check_text::{Output, Status};
use mb_base::{OutOfMemory, ReadAll, Sink, Source, Steps, read_all, write_all};
use std::alloc::Global;
use std::sync::ledger::Ledger;

/// Why there is no answer.
#[derive(Clone, Copy)]
pub enum Failure {
    ReadFault,
    OutOfMemory,
}

fn ready(alloc: Global, text: &[u8], status: Status) -> Result<Output, Failure>
    ensures { Readies text.now status result }
{
    match Vec::from_slice(alloc, text) {
        Ok(text) => Ok(Output { text, status }),
        Err(_) => Err(Failure::OutOfMemory),
    }
}

/// What a command answers, if memory ran out before there was an answer.
fn decide<L: Ledger>(
    alloc: Global,
    command: Command,
    input: Vec<u8>,
    steps: &mut Steps<L>,
) -> Result<Output, Failure>
    requires ranges { HasRanges command }
    ensures answer { IfOk result (λ a. Gives command input.items a.text.items a.status) }
    ensures memory { IfErr result (λ stop. stop ≡ Failure.OutOfMemory) }
    ensures steps { CountsAnswer command steps.old steps.new result }
    ensures counted { CountsInstance (Some command) input.items steps.old steps.new }
{
    match answer_input(alloc, command, input, steps) {
        Ok(answer) => Ok(answer),
        Err(_) => Err(Failure::OutOfMemory),
    }
}

/// The whole answer, before anything is written.
fn prepare<I: Source, L: Ledger>(
    alloc: Global,
    words: &Vec<String>,
    source: &mut I,
    steps: &mut Steps<L>,
) -> Result<Output, Failure>
    requires { I.faults source.old < 2 ^ 64 - 1 }
    ensures answer { Prepares (map string_bytes words.now.items) (I.left source.old)
        (I.left source.new) result }
    ensures usage { PreparesUsage (map string_bytes words.now.items) result }
    ensures count { CountsPrepared (I.faults source.old) (I.faults source.new) result }
    ensures steps { CountsPreparedSteps (command_of (map string_bytes words.now.items))
        steps.old steps.new result }
    ensures counted { CountsSource (map string_bytes words.now.items) (I.left source.old)
        steps.old steps.new }
    ensures unread { KeepsUnread (command_of (map string_bytes words.now.items))
        source.old source.new }
{
    let Ok(taken) = read_command(alloc, words) else {
        return Err(Failure::OutOfMemory);
    };
    let Some(command) = taken else {
        return ready(alloc, b"s USAGE\n", Status::Usage);
    };
    let Some(limit) = limit(command) else {
        return decide(alloc, command, Vec::new(alloc), steps);
    };
    match read_all(alloc, source, limit) {
        Err(ReadAll::ReadFault) => Err(Failure::ReadFault),
        Err(ReadAll::OutOfMemory) => Err(Failure::OutOfMemory),
        Err(ReadAll::TooLong) => ready(alloc, b"s TOOLONG\n", Status::TooLong),
        Ok(bytes) => decide(alloc, command, bytes, steps),
    }
}

/// Does what the words of the command line say, and writes the answer to the sink. The words are
/// the program's name and then those of a command. `check` and the name of a kind judges the
/// document that follows an instance, `solve` and the name of a kind solves an instance (Schrijver,
/// Combinatorial Optimization, volume A, chapters 24 to 33): these two read the source to its end.
/// With `--brief` before or after the kind, `solve` writes the answer without what proves it.
/// `trial`, the name of a kind and three numbers reads nothing: it makes an instance, solves it,
/// and writes the size of the graph of its certificates, what its document states, and the verdict
/// on that document.
///
/// The whole answer stands ready before the first write, so if memory runs out the sink is
/// untouched.
///
/// Only `solve` and `trial` count steps, and none if they refuse: at most (n + 1)(3n + 2)(m + 1) on
/// a certificate graph of n vertices and m edges, twice as many for `path`, and 17 times as many
/// for `bottleneck`. The memory holds the input, the answer and what a search keeps.
pub fn run<I: Source, O: Sink, L: Ledger>(
    alloc: Global,
    words: &Vec<String>,
    source: &mut I,
    sink: &mut O,
    steps: &mut Steps<L>,
) -> Status
    requires source_count { I.faults source.old < 2 ^ 64 - 1 }
    requires sink_count { O.faults sink.old < 2 ^ 64 - 1 }

    // For each input the answer, its text, its status and what is left of source and sink are those
    // of the format: usage, too long, malformed, too large, rejected, accepted, a document that
    // proves its answer, or the report of a trial.
    ensures answer { Runs (map string_bytes words.now.items)
        (record {
          left = I.left source.old;
          taken = O.taken sink.old;
          room = O.room sink.old;
          steps = steps.old;
        })
        (record {
          left = I.left source.new;
          taken = O.taken sink.new;
          room = O.room sink.new;
          steps = steps.new;
        })
        result }

    // A failed read or write is reported exactly if a count of faults rose.
    ensures count { CountsRun (I.faults source.old) (I.faults source.new) (O.faults sink.old)
        (O.faults sink.new) result }

    // What an accepted, written or tried document states is true of its instance, by the definition
    // of the kind alone.
    ensures truth { TellsTruth (map string_bytes words.now.items) (I.left source.old) result }

    // What `solve` wrote with its certificate is accepted by `check` after its instance, if that
    // ends in a line feed.
    ensures again { IsAcceptedAgain (map string_bytes words.now.items) (I.left source.old)
        (O.taken sink.old) (O.taken sink.new) result }

    // A well-formed instance within the limits is always answered, unless memory runs out or a read
    // or write fails.
    ensures complete { Completes (map string_bytes words.now.items) (I.left source.old) result }

    // `solve` and `trial` count at most the steps of one search on the certificate graph, two for a
    // path and 17 for a bottleneck; by `answer`, `check` and refusals count none.
    ensures steps { CountsSource (map string_bytes words.now.items) (I.left source.old)
        steps.old steps.new }

    // If the arguments are no valid command, or those of a trial, the source is untouched.
    ensures unread { KeepsUnread (command_of (map string_bytes words.now.items))
        source.old source.new }
{
    match prepare(alloc, words, source, steps) {
        Err(Failure::ReadFault) => Status::ReadFault,
        Err(Failure::OutOfMemory) => Status::OutOfMemory,
        Ok(answer) => match write_all(sink, &answer.text) {
            Ok(()) => answer.status,
            Err(_) => Status::WriteFault,
        },
    }
}
