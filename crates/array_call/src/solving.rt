ghost use Rattle.std.specs.Prelude.{◌≡◌, IfOk};
ghost use Rattle.mb_problem.specs.Ready.{IsReady};
ghost use Rattle.certificates.specs.Proved.{StatesTruth};
ghost use Rattle.solve_answers.specs.Solved.{HasTrueStatus};
ghost use Rattle.array_call.specs.Arrays.{arrays_of, network_of};
ghost use Rattle.array_call.specs.Made.{IsFaultless};
ghost use Rattle.array_call.specs.Answers.{Counts, Solves, SolvesFor};

use crate::arrays::InstanceArrays;
use crate::error::ArrayError;
use crate::making::instance_of;
use doc_format::Document;
use mb_base::Steps;
use mb_problem::{Instance, Kind};
use solve_answers::Detail;
use solve_kinds::{SolveError, solve_sized};
use std::alloc::Global;
use std::sync::ledger::Ledger;

/// Solves the instance that arrays are, in full or in brief.
fn solve_instance<L: Ledger>(
    alloc: Global,
    kind: Kind,
    detail: Detail,
    arrays: &InstanceArrays<'_>,
    instance: &Instance,
    steps: &mut Steps<L>,
) -> Result<Document, ArrayError>
    requires same { instance.now ≡ network_of kind (arrays_of arrays.now) }
    requires faultless { IsFaultless kind (arrays_of arrays.now) }
    requires well_formed { IsReady kind instance.now }
    ensures answer { SolvesFor detail kind (arrays_of arrays.now) result }
    ensures steps { Counts kind (arrays_of arrays.now) steps.old steps.new result }
{
    match solve_sized(alloc, instance, kind, detail, steps) {
        Ok(document) => Ok(document),
        Err(SolveError::TooLarge { vertices, edges }) => {
            Err(ArrayError::TooLarge { vertices, edges })
        }
        Err(SolveError::OutOfMemory) => Err(ArrayError::OutOfMemory),
    }
}

/// Solves the instance that arrays are for a kind, with all that proves the answer or, in brief, as
/// far as that is laid as numbers: no duals and no sets are made then.
pub(crate) fn solve_for<L: Ledger>(
    alloc: Global,
    kind: Kind,
    detail: Detail,
    arrays: &InstanceArrays<'_>,
    steps: &mut Steps<L>,
) -> Result<Document, ArrayError>
    ensures answer { SolvesFor detail kind (arrays_of arrays.now) result }
    ensures steps { Counts kind (arrays_of arrays.now) steps.old steps.new result }
{
    let instance = instance_of(alloc, kind, arrays)?;
    let answer = solve_instance(alloc, kind, detail, arrays, &instance, steps);
    drop(instance);
    answer
}

/// Solves the instance that arrays are for a kind, as `solve_kinds::solve` does: the document of a
/// best answer, or of what excludes all answers. Edges and vertices count from 1. The steps of the
/// searches are counted on `steps`.
pub fn solve_arrays<L: Ledger>(
    alloc: Global,
    kind: Kind,
    arrays: &InstanceArrays<'_>,
    steps: &mut Steps<L>,
) -> Result<Document, ArrayError>
    // The document that proves its answer of exactly this instance, or the first fault of the
    // arrays, or a size past a limit: each instance within the limits is answered, unless memory
    // runs out.
    ensures answer { Solves kind (arrays_of arrays.now) result }

    // What the document states is true of the instance.
    ensures truth { IfOk result (StatesTruth kind (network_of kind (arrays_of arrays.now))) }

    // It is optimal exactly if some answer is feasible (and, for a path, the weights are
    // conservative).
    ensures exact { IfOk result (λ d. HasTrueStatus kind (network_of kind (arrays_of arrays.now))
        d.status) }

    // Steps within the same bounds; a refusal counts none.
    ensures steps { Counts kind (arrays_of arrays.now) steps.old steps.new result }
{
    solve_for(alloc, kind, Detail::Full, arrays, steps)
}
