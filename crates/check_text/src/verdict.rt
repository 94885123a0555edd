ghost use Rattle.std.specs.Prelude.{◌≡◌, codes, IfOk};
ghost use Rattle.check_text.specs.Codes.{status_of};
ghost use Rattle.check_text.specs.Lines.{rejected_line, verdict_line};

use crate::output::{Output, line};
use crate::status::Status;
use cert_check::{DocRule, Verdict};
use mb_base::OutOfMemory;
use std::alloc::Global;

/// The answer to a document that breaks a rule at a line.
pub fn rejected(alloc: Global, rule: DocRule, number: u64) -> Result<Output, OutOfMemory>
    ensures text { IfOk result (λ a. a.text.items ≡ rejected_line rule number) }
    ensures status { IfOk result (λ a. a.status ≡ Status.Rejected) }
{
    let text = line(alloc, b"s REJECTED ", rule.name().as_bytes(), number)?;
    let status = Status::Rejected;
    Ok(Output { text, status })
}

fn accepted(alloc: Global) -> Result<Output, OutOfMemory>
    ensures text { IfOk result (λ a. a.text.items ≡ codes "s ACCEPTED\n") }
    ensures status { IfOk result (λ a. a.status ≡ Status.Done) }
{
    let text = Vec::from_slice(alloc, b"s ACCEPTED\n")?;
    let status = Status::Done;
    Ok(Output { text, status })
}

/// The answer to a verdict.
pub fn judged(alloc: Global, verdict: Verdict) -> Result<Output, OutOfMemory>
    ensures text { IfOk result (λ a. a.text.items ≡ verdict_line verdict) }
    ensures status { IfOk result (λ a. a.status ≡ status_of verdict) }
{
    match verdict {
        Verdict::Accepted => accepted(alloc),
        Verdict::Rejected { rule, line } => rejected(alloc, rule, line),
    }
}
