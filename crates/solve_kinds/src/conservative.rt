ghost use Rattle.std.specs.Prelude.{◌≡◌, ◌+◌, ◌-◌, ◌*◌, ◌≤◌, pos};
ghost use Rattle.std.specs.Prelude.{◌≤ℤ◌, ◌<ℤ◌, ◌↔◌, true, false, IfOk, IsTrue};
ghost use Rattle.graph_theory.specs.Limits.{IsWithinLimits};
ghost use Rattle.graph_theory.specs.Walk.{walk_weight};
ghost use Rattle.mb_problem.specs.declared.answer.Parity.TheVariants.{Empty};
ghost use Rattle.mb_problem.specs.Kinds.{asks_conservative, searches_of};
ghost use Rattle.mb_problem.specs.Joins.{ListsJoin};
ghost use Rattle.mb_problem.specs.Network.{IsNetwork, graph_of};
ghost use Rattle.mb_problem.specs.Ready.{HasWeightsFromZero};
ghost use Rattle.mb_problem.specs.Size.{size_of, odd_at};
ghost use Rattle.join_check.specs.Least.{IsLeastJoin};
ghost use Rattle.mwpm_engine.specs.Solutions.{most_steps};
ghost use Rattle.solve_answers.specs.Settled.{SettlesOrIsFit};

use conservative_paths::{laws, negative_circuit};
use doc_format::{DocStatus, Document, Head};
use document_lines::walk_line;
use least_joins::least_join;
use mb_base::{OutOfMemory, Steps};
use mb_problem::{Instance, Join, Kind, Parity, weight};
use solve_answers::as_counts;
use std::alloc::Global;
use std::sync::ledger::Ledger;

/// Whether an even set of edges weighs less than 0.
fn is_negative(alloc: Global, instance: &Instance, even: &Join) -> Result<bool, OutOfMemory>
    requires network { IsNetwork instance.now }
    requires even { ListsJoin instance.now (odd_at Empty instance.now) even.now.edges }
    ensures below { IfOk result
        (λ t. t ≡ true → walk_weight (graph_of instance.now) even.now.edges <ℤ pos 0) }
    ensures above { IfOk result
        (λ t. t ≡ false → pos 0 ≤ℤ walk_weight (graph_of instance.now) even.now.edges) }
{
    let counts = as_counts(alloc, instance, even)?;
    Ok(weight(instance, Kind::TJoin, &counts) < 0)
}

/// The document of a circuit of negative weight, if there is one: this even set of edges of least
/// weight holds one or weighs 0 (chapter 29).
fn judged(
    alloc: Global,
    instance: &Instance,
    kind: Kind,
    even: &Join,
) -> Result<Option<Document>, OutOfMemory>
    requires network { IsNetwork instance.now }
    requires kind { asks_conservative kind ≡ true }
    requires even { IsLeastJoin Empty instance.now even.now.edges }
    ensures { IfOk result (SettlesOrIsFit kind instance.now) }
{
    laws();
    if !is_negative(alloc, instance, even)? {
        return Ok(None);
    }
    let circuit = negative_circuit(alloc, instance, even)?;
    let walk = walk_line(alloc, &circuit);
    drop(circuit);
    let walk = walk?;
    let head = Head {
        line: 1,
        status: DocStatus::NonConservative,
        kind,
        weight: 0,
    };
    let mut document = Document::new(alloc, head);
    document.walk = walk;
    Ok(Some(document))
}

/// Whether no edge weighs less than 0.
fn weighs_from_zero(instance: &Instance) -> bool
    ensures { IsTrue result ↔ HasWeightsFromZero instance.now }
{
    instance.edge_list().iter().all(|edge| edge.w >= 0)
}

/// The document of a circuit of negative weight, if the kind asks for conservative weights and the
/// instance has such a circuit: an even set of edges of least weight is sought first, and tells
/// (chapter 29). For the other kinds there is no document, and no search is made; nor where no edge
/// weighs less than 0, so that no circuit does.
pub fn unfit<L: Ledger>(
    alloc: Global,
    instance: &Instance,
    kind: Kind,
    steps: &mut Steps<L>,
) -> Result<Option<Document>, OutOfMemory>
    requires network { IsNetwork instance.now }
    requires limits { IsWithinLimits (size_of kind instance.now) }
    ensures settled { IfOk result (SettlesOrIsFit kind instance.now) }
    ensures idle { asks_conservative kind ≡ false → steps.new ≡ steps.old }
    ensures from_zero { HasWeightsFromZero instance.now → steps.new ≡ steps.old }
    ensures steps { steps.new ≤ steps.old
        + (searches_of kind - 1) * most_steps (size_of kind instance.now) }
{
    if !kind.asks_conservative() {
        return Ok(None);
    }
    if weighs_from_zero(instance) {
        laws();
        return Ok(None);
    }
    let even = least_join(alloc, instance, &Parity::Empty, steps)?;
    let document = judged(alloc, instance, kind, &even);
    drop(even);
    document
}
