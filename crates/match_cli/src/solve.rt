ghost use Rattle.std.specs.Prelude.{Some, ◌≡◌, ◌≢◌, ◌+◌, ◌*◌, ◌≤◌, ◌^◌, ℕ, List, length, IfOk};
ghost use Rattle.mb_problem.specs.Kinds.{searches_of};
ghost use Rattle.mb_problem.specs.Network.{IsNetwork};
ghost use Rattle.mb_problem.specs.Size.{size_of};
ghost use Rattle.mb_problem.specs.Ready.{IsReady};
ghost use Rattle.dimacs_read.specs.Reading.{Reads};
ghost use Rattle.mwpm_engine.specs.Solutions.{most_steps};
ghost use Rattle.doc_format.specs.Spelling.{document_text};
ghost use Rattle.solve_answers.specs.Details.{is_brief};
ghost use Rattle.match_cli.specs.Answers.{DecidesSolve};
ghost use Rattle.match_cli.specs.Counts.{CountsAnswer, CountsInstance};
ghost use Rattle.match_cli.specs.Solving.{DecidesSized, DecidesFollowed};

use crate::command::Command;
use check_text::{Output, Status, malformed, too_large};
use dimacs_read::{InstanceError, Rest, Rule, read};
use doc_format::{Document, write};
use mb_base::{OutOfMemory, Steps};
use mb_problem::{Instance, Kind};
use solve_answers::Detail;
use solve_kinds::{SolveError, solve_sized};
use std::alloc::{AllocError, Global};
use std::sync::ledger::Ledger;

fn solved(alloc: Global, document: &Document, detail: Detail) -> Result<Output, OutOfMemory>
    ensures text { IfOk result (λ a. a.text.items ≡ document_text document.now (is_brief detail)) }
    ensures status { IfOk result (λ a. a.status ≡ Status.Done) }
{
    let text = write(alloc, document, detail.is_brief())?;
    let status = Status::Done;
    Ok(Output { text, status })
}

/// The answer to an instance: its document, or that its certificate graph is past a limit.
fn solve_instance<L: Ledger>(
    alloc: Global,
    kind: Kind,
    detail: Detail,
    instance: &Instance,
    steps: &mut Steps<L>,
) -> Result<Output, OutOfMemory>
    requires well_formed { IsReady kind instance.now }
    requires network { IsNetwork instance.now }
    ensures answer { IfOk result (DecidesSized kind detail instance.now) }
    ensures steps { CountsAnswer (Command.Solve kind detail) steps.old steps.new result }
    ensures counted { steps.new ≤ steps.old + searches_of kind * most_steps
        (size_of kind instance.now) }
{
    match solve_sized(alloc, instance, kind, detail, steps) {
        Ok(document) => {
            let reply = solved(alloc, &document, detail);
            drop(document);
            reply
        }
        Err(SolveError::TooLarge { vertices, edges }) => too_large(alloc, vertices, edges),
        Err(SolveError::OutOfMemory) => Err(AllocError),
    }
}

/// The answer to an instance and what follows it, which should be nothing.
fn solve_followed<L: Ledger>(
    alloc: Global,
    kind: Kind,
    detail: Detail,
    instance: &Instance,
    rest: &Rest,
    steps: &mut Steps<L>,
) -> Result<Output, OutOfMemory>
    requires well_formed { IsReady kind instance.now }
    requires network { IsNetwork instance.now }
    ensures answer { IfOk result (DecidesFollowed kind detail instance.now rest.now) }
    ensures steps { CountsAnswer (Command.Solve kind detail) steps.old steps.new result }
    ensures counted { steps.new ≤ steps.old + searches_of kind * most_steps
        (size_of kind instance.now) }
{
    if !rest.bytes.as_slice().is_empty() {
        return malformed(alloc, Rule::UnknownLine, rest.line);
    }
    solve_instance(alloc, kind, detail, instance, steps)
}

/// The answer to what was read of an input, whatever its bytes are.
fn solve_read<L: Ledger>(
    alloc: Global,
    kind: Kind,
    detail: Detail,
    reading: Result<(Instance, Rest), InstanceError>,
    steps: &mut Steps<L>,
) -> Result<Output, OutOfMemory>
    requires well_formed { IfOk reading (λ r. IsReady kind r.0) }
    ensures answer { (bytes : List ℕ) → Reads kind bytes reading
        → IfOk result (λ a. DecidesSolve kind detail bytes a.text.items a.status) }
    ensures steps { CountsAnswer (Command.Solve kind detail) steps.old steps.new result }
    ensures counted { (bytes : List ℕ) → Reads kind bytes reading
        → CountsInstance (Some (Command.Solve kind detail)) bytes steps.old steps.new }
{
    match reading {
        Ok((instance, rest)) => {
            let reply = solve_followed(alloc, kind, detail, &instance, &rest, steps);
            drop(instance);
            reply
        }
        Err(InstanceError::Malformed { rule, line }) => malformed(alloc, rule, line),
        Err(InstanceError::OutOfMemory) => Err(AllocError),
    }
}

/// What `solve` answers to bytes within its limit.
pub fn solve<L: Ledger>(
    alloc: Global,
    kind: Kind,
    detail: Detail,
    bytes: &[u8],
    steps: &mut Steps<L>,
) -> Result<Output, OutOfMemory>
    requires short { length bytes.now ≤ 2 ^ 32 }
    ensures answer { IfOk result (λ a. DecidesSolve kind detail bytes.now a.text.items a.status) }
    ensures steps { CountsAnswer (Command.Solve kind detail) steps.old steps.new result }
    ensures counted { CountsInstance (Some (Command.Solve kind detail)) bytes.now
        steps.old steps.new }
{
    let reading = read(alloc, bytes, kind);
    solve_read(alloc, kind, detail, reading, steps)
}

/// What `solve` answers to an input within its limit that isn't kept: its bytes go before the
/// search. The answer is the one of `solve`.
pub fn solve_input<L: Ledger>(
    alloc: Global,
    kind: Kind,
    detail: Detail,
    input: Vec<u8>,
    steps: &mut Steps<L>,
) -> Result<Output, OutOfMemory>
    requires short { length input.items ≤ 2 ^ 32 }
    ensures answer { IfOk result (λ a. DecidesSolve kind detail input.items a.text.items a.status) }
    ensures steps { CountsAnswer (Command.Solve kind detail) steps.old steps.new result }
    ensures counted { CountsInstance (Some (Command.Solve kind detail)) input.items
        steps.old steps.new }
{
    let reading = read(alloc, &input, kind);
    drop(input);
    solve_read(alloc, kind, detail, reading, steps)
}
