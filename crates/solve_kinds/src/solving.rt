ghost use Rattle.std.specs.Prelude.{◌≡◌, ◌≤◌, ◌+◌, ◌*◌, length, true, false, IfOk};
ghost use Rattle.mb_problem.specs.Kinds.{searches_of, proof_of, are_duals};
ghost use Rattle.mb_problem.specs.Ready.{HasWeightsFromZero, IsReady};
ghost use Rattle.mb_problem.specs.Size.{size_of};
ghost use Rattle.graph_theory.specs.Limits.{IsWithinLimits};
ghost use Rattle.doc_format.specs.Spelling.{document_text};
ghost use Rattle.doc_format.specs.declared.status.DocStatus.TheVariants.{Infeasible};
ghost use Rattle.certificates.specs.Proved.{IsProved, StatesTruth};
ghost use Rattle.mwpm_engine.specs.Solutions.{most_steps};
ghost use Rattle.solve_answers.specs.Chosen.{IsChosen};
ghost use Rattle.solve_answers.specs.Settled.{HasShortWalk, IsWrittenFor, Settles};
ghost use Rattle.solve_answers.specs.Settled.{SettlesFor, byte_limit_of};
ghost use Rattle.solve_answers.specs.Solved.{HasTrueStatus, is_tested_first};

use crate::barriers::lightest;
use crate::duals::solve_by_duals;
use crate::even_paths::greatest;
use doc_format::Document;
use mb_base::{OutOfMemory, Steps};
use mb_problem::{BestProof, Instance, Kind};
use solve_answers::Detail;
use std::alloc::Global;
use std::sync::ledger::Ledger;

/// Solves an instance: the document of a best answer, or of what excludes all answers. It proves
/// what it states, whole: an accepting judge is sure. If duals prove a best answer it is the one of
/// `solve_by_duals`, whose comment says how it is sought and what an instance needs. Else halving
/// over the weights minimises the largest edge weight of a perfect matching, or one search for a
/// maximum matching may end stuck (Schrijver, Combinatorial Optimization, volume A, chapter 24).
///
/// The steps of the searches are counted on `steps`, as there.
///
/// # Errors
///
/// `OutOfMemory` if an allocation fails.
pub fn solve<L: Ledger>(
    alloc: Global,
    instance: &Instance,
    kind: Kind,
    steps: &mut Steps<L>,
) -> Result<Document, OutOfMemory>
    requires limits { IsWithinLimits (size_of kind instance.now) }
    requires well_formed { IsReady kind instance.now }

    // For every kind, the document proves its answer, is true, and is optimal exactly if some
    // answer is feasible (and, for a path, the weights are conservative).
    ensures proved { IfOk result (IsProved kind instance.now) }
    ensures truth { IfOk result (StatesTruth kind instance.now) }
    ensures exact { IfOk result (λ d. HasTrueStatus kind instance.now d.status) }

    // The same choices; at most 8 MiB of text, or 128 MiB if alternating paths prove it; a `u` line
    // of `bottleneck` exactly if there is a vertex.
    ensures chosen { IfOk result (IsChosen kind instance.now) }
    ensures size_limit { IfOk result (λ d. length (document_text d false) ≤ byte_limit_of kind) }

    // A walk has at most twice as many edges as the instance.
    ensures short_walk { IfOk result (HasShortWalk instance.now) }

    // All of this by one name, which callers pass on.
    ensures settled { IfOk result (Settles kind instance.now) }

    // Within the steps of one search, two for a path if some weight is negative and 17 for a
    // bottleneck.
    ensures steps { steps.new ≤ steps.old
        + searches_of kind * most_steps (size_of kind instance.now) }
    ensures once { are_duals (proof_of kind) ≡ true → HasWeightsFromZero instance.now
        → steps.new ≤ steps.old + most_steps (size_of kind instance.now) }

    // Where a part that no edge leaves excludes all answers that is seen without a search.
    ensures unsearched { IfOk result
        (λ d. is_tested_first kind ≡ true → d.status ≡ Infeasible → steps.new ≡ steps.old) }
{
    solve_written(alloc, instance, kind, Detail::Full, steps)
}

/// The same for a document that is to be written, in full or in brief: it has the text of a
/// document that `solve` could answer. In brief it has no duals and no sets, which are not written
/// then; the sets and paths beside a greatest matching it has.
///
/// # Errors
///
/// `OutOfMemory` if an allocation fails.
pub fn solve_written<L: Ledger>(
    alloc: Global,
    instance: &Instance,
    kind: Kind,
    detail: Detail,
    steps: &mut Steps<L>,
) -> Result<Document, OutOfMemory>
    requires limits { IsWithinLimits (size_of kind instance.now) }
    requires well_formed { IsReady kind instance.now }

    // The same of a document to be written with or without its certificate.
    ensures written { IfOk result (IsWrittenFor kind instance.now detail) }

    // In full it settles the instance itself.
    ensures settled { IfOk result (SettlesFor detail kind instance.now) }
    ensures steps { steps.new ≤ steps.old
        + searches_of kind * most_steps (size_of kind instance.now) }
    ensures once { are_duals (proof_of kind) ≡ true → HasWeightsFromZero instance.now
        → steps.new ≤ steps.old + most_steps (size_of kind instance.now) }
    ensures unsearched { IfOk result
        (λ d. is_tested_first kind ≡ true → d.status ≡ Infeasible → steps.new ≡ steps.old) }
{
    match kind.proof() {
        BestProof::Duals(_) => solve_by_duals(alloc, instance, kind, detail, steps),
        BestProof::LighterBarrier => lightest(alloc, instance, kind, steps),
        BestProof::OuterPaths => greatest(alloc, instance, kind, steps),
    }
}
