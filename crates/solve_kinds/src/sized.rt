//! Instances of any size: that of the certificate graph is tested before a search.
ghost use Rattle.std.specs.Prelude.{◌≡◌, true, IfOk};
ghost use Rattle.mb_problem.specs.Ready.{IsReady};
ghost use Rattle.doc_format.specs.declared.status.DocStatus.TheVariants.{Infeasible};
ghost use Rattle.solve_answers.specs.Solved.{is_tested_first};
ghost use Rattle.solve_kinds.specs.Sized.{CountsSized, SolvesSized};

use crate::solving::solve_written;
use certificates::is_within_limits;
use doc_format::Document;
use mb_base::Steps;
use mb_problem::{Instance, Kind, gadget_size};
use solve_answers::Detail;
use std::alloc::Global;
use std::sync::ledger::Ledger;

/// Why there is no document of an instance.
#[derive(Clone, Copy)]
pub enum SolveError {
    /// The certificate graph, of this size, is past a limit.
    TooLarge { vertices: u64, edges: u64 },
    /// There isn't enough memory.
    OutOfMemory,
}

/// Solves an instance as `solve` does, for a document that is to be written in full or in brief, if
/// its certificate graph is within the limits.
///
/// # Errors
///
/// `TooLarge` with the size of that graph if it is past a limit; `OutOfMemory` if an allocation
/// fails.
pub fn solve_sized<L: Ledger>(
    alloc: Global,
    instance: &Instance,
    kind: Kind,
    detail: Detail,
    steps: &mut Steps<L>,
) -> Result<Document, SolveError>
    requires well_formed { IsReady kind instance.now }

    // The document of an instance within the limits, or the size that is past one.
    ensures answer { SolvesSized detail kind instance.now result }

    // Within the steps of `solve`, and none past a limit.
    ensures steps { CountsSized kind instance.now steps.old steps.new result }

    // Where a part that no edge leaves excludes all answers that is seen without a search.
    ensures unsearched { IfOk result
        (λ d. is_tested_first kind ≡ true → d.status ≡ Infeasible → steps.new ≡ steps.old) }
{
    let (vertices, edges) = gadget_size(instance, kind);
    if !is_within_limits(vertices, edges) {
        return Err(SolveError::TooLarge { vertices, edges });
    }
    match solve_written(alloc, instance, kind, detail, steps) {
        Ok(document) => Ok(document),
        Err(_) => Err(SolveError::OutOfMemory),
    }
}
