ghost use Rattle.std.specs.Prelude.{◌≡◌, ◌≤◌, ◌+◌, ◌*◌, true, IfOk};
ghost use Rattle.mb_problem.specs.Kinds.{searches_of, proof_of, are_duals};
ghost use Rattle.mb_problem.specs.Ready.{HasWeightsFromZero, IsReady};
ghost use Rattle.mb_problem.specs.Size.{size_of};
ghost use Rattle.graph_theory.specs.Limits.{IsWithinLimits};
ghost use Rattle.doc_format.specs.declared.status.DocStatus.TheVariants.{Infeasible};
ghost use Rattle.mwpm_engine.specs.Solutions.{most_steps};
ghost use Rattle.solve_answers.specs.Settled.{SettlesFor};
ghost use Rattle.solve_answers.specs.Solved.{is_tested_first};

use crate::conservative::unfit;
use crate::searching::searched;
use doc_format::Document;
use mb_base::{OutOfMemory, Steps};
use mb_problem::{EDGE_LIMIT, Instance, Kind};
use solve_answers::{Detail, excluded};
use std::alloc::Global;
use std::sync::ledger::Ledger;

/// Solves an instance of a kind whose best answers duals prove: a document of a best answer, or of
/// what excludes all answers, that is to be written, in full or in brief. In full it proves what it
/// states, whole: an accepting judge is sure. In brief it has the text of such a document, and no
/// duals and no sets, which are not written then. A perfect matching of least weight is sought in
/// the certificate graph of the kind (Schrijver, Combinatorial Optimization, volume A, chapter 26
/// for matchings, 29 for joins, tours and paths, 31 to 33 for b-matchings, capacities and factors,
/// 35 for degrees between two bounds). If the kind asks for conservative weights and some edge
/// weighs less than 0, an even set of edges of least weight is sought first, to tell whether they
/// are. The instance has what the kind needs: for a tour no edge weighs less than 0, for a path two
/// vertices have odd values, its ends, and for a path of an odd or an even number of edges both
/// hold.
///
/// The steps of the searches are counted on `steps`: looks at edges and events. What it takes
/// besides them is linear in that graph and the members of the sets, but for sets of less than a
/// sixteenth of the vertices, which are sorted.
///
/// # Errors
///
/// `OutOfMemory` if an allocation fails.
pub fn solve_by_duals<L: Ledger>(
    alloc: Global,
    instance: &Instance,
    kind: Kind,
    detail: Detail,
    steps: &mut Steps<L>,
) -> Result<Document, OutOfMemory>
    requires limits { IsWithinLimits (size_of kind instance.now) }
    requires duals { are_duals (proof_of kind) ≡ true }
    requires well_formed { IsReady kind instance.now }

    // In full a document that proves its answer, is true, is optimal exactly if some answer is
    // feasible (and, for a path, the weights are conservative), has a tour from the least vertex
    // that an edge meets and a path from its lesser end, and has at most 8 MiB of text; in brief
    // one to be written, with the text of such a document, and without duals and odd sets.
    ensures settled { IfOk result (SettlesFor detail kind instance.now) }

    // Within the steps of one search on the certificate graph, two for a path if some weight is
    // negative.
    ensures steps { steps.new ≤ steps.old
        + searches_of kind * most_steps (size_of kind instance.now) }
    ensures once { HasWeightsFromZero instance.now
        → steps.new ≤ steps.old + most_steps (size_of kind instance.now) }

    // No step if no join or tour is feasible.
    ensures unsearched { IfOk result
        (λ d. is_tested_first kind ≡ true → d.status ≡ Infeasible → steps.new ≡ steps.old) }
{
    prove!(instance.edges() <= EDGE_LIMIT);
    if let Some(document) = unfit(alloc, instance, kind, steps)? {
        return Ok(document);
    }
    if let Some(document) = excluded(alloc, instance, kind)? {
        return Ok(document);
    }
    searched(alloc, instance, kind, detail, steps)
}
