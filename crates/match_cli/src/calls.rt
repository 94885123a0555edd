ghost use Rattle.std.specs.Prelude.{◌≡◌, Some};
ghost use Rattle.match_cli.specs.Counts.{CountsCall, CountsInstance};
ghost use Rattle.match_cli.specs.Runs.{TellsTrue, IsAcceptedBehind, IsComplete};
ghost use Rattle.match_cli.specs.Calls.{command_for, Calls};

use crate::commands::answer_to;
use crate::task::{Task, command_for};
use check_text::{Output, Status};
use mb_base::Steps;
use mb_problem::Kind;
use std::alloc::Global;
use std::sync::ledger::Ledger;

/// Does the task for the kind on the bytes of an input, as `run` does for words that ask for the
/// same. If there isn't enough memory the status is that, and the text is empty.
pub fn call<L: Ledger>(
    alloc: Global,
    task: Task,
    kind: Kind,
    bytes: &[u8],
    steps: &mut Steps<L>,
) -> Output
    // For a task and a kind, the whole text and the status by the same relation; never usage, nor a
    // failed read or write; no text if memory runs out.
    ensures answer { Calls (command_for task kind) bytes.now result.text.items result.status }

    // What an accepted or written document states is true of its instance.
    ensures truth { TellsTrue (command_for task kind) bytes.now result.status }

    // What was solved with its certificate is accepted after its input, if that ends in a line
    // feed.
    ensures again { IsAcceptedBehind (command_for task kind) bytes.now
        result.text.items result.status }

    // Every instance within the limits is answered, unless memory runs out.
    ensures complete { IsComplete (command_for task kind) bytes.now result.status }

    // `check` and refusals count no step, and a search no more than on its certificate graph.
    ensures steps { CountsCall (command_for task kind) steps.old steps.new result.status }

    // If there is an instance, its search counts no more than the graph of its certificates allows.
    ensures counted { CountsInstance (Some (command_for task kind)) bytes.now steps.old steps.new }
{
    match answer_to(alloc, command_for(task, kind), bytes, steps) {
        Ok(answer) => answer,
        Err(_) => Output {
            text: Vec::new(alloc),
            status: Status::OutOfMemory,
        },
    }
}
