ghost use Rattle.std.specs.Prelude.{Some, [], ◌≡◌, ◌+◌, ◌*◌, ◌<◌, ◌≤◌, IfOk};
ghost use Rattle.graph_theory.specs.Limits.{IsWithinLimits};
ghost use Rattle.mb_problem.specs.declared.kind.VertexValue.TheVariants.{End};
ghost use Rattle.mb_problem.specs.Kinds.{vertex_value_of, searches_of};
ghost use Rattle.mb_problem.specs.Size.{size_of};
ghost use Rattle.mb_problem.specs.Network.{IsNetwork};
ghost use Rattle.mb_problem.specs.Ready.{IsReady};
ghost use Rattle.inst_gen.specs.Made.{made};
ghost use Rattle.mwpm_engine.specs.Solutions.{most_steps};
ghost use Rattle.match_cli.specs.Counts.{CountsAnswer};
ghost use Rattle.match_cli.specs.Trying.{IsTried, DecidesTrial};

use crate::command::Command;
use crate::trials::try_instance;
use certificates::is_within_limits;
use check_text::{Output, Status, told, too_large};
use inst_gen::make;
use mb_base::{OutOfMemory, Steps};
use mb_problem::{EDGE_LIMIT, Instance, Kind, VERTEX_LIMIT, gadget_size};
use std::alloc::Global;
use std::sync::ledger::Ledger;

/// The answer to an instance within the limits: it is solved, and its document judged.
fn try_within<L: Ledger>(
    alloc: Global,
    kind: Kind,
    instance: &Instance,
    steps: &mut Steps<L>,
) -> Result<Output, OutOfMemory>
    requires well_formed { IsReady kind instance.now }
    requires network { IsNetwork instance.now }
    requires limits { IsWithinLimits (size_of kind instance.now) }
    ensures text { IfOk result (λ a. IsTried kind instance.now a.text.items) }
    ensures status { IfOk result (λ a. a.status ≡ Status.Done) }
    ensures counted { steps.new ≤ steps.old + searches_of kind * most_steps
        (size_of kind instance.now) }
{
    let (vertices, edges) = gadget_size(instance, kind);
    let tried = try_instance(alloc, instance, kind, steps)?;
    let reply = told(alloc, vertices, edges, &tried.document, tried.verdict);
    drop(tried);
    reply
}

/// What `trial` answers: an instance is made, its size is tested, and then it is solved and its
/// document judged.
pub fn trial<L: Ledger>(
    alloc: Global,
    kind: Kind,
    start: u64,
    n: u32,
    m: u32,
    steps: &mut Steps<L>,
) -> Result<Output, OutOfMemory>
    requires vertices { n ≤ VERTEX_LIMIT }
    requires edges { m ≤ EDGE_LIMIT }
    requires ends { 0 < m → 2 ≤ n }
    requires path { vertex_value_of kind ≡ End → 2 ≤ n }
    ensures answer { IfOk result (DecidesTrial kind (made kind start n m)) }
    ensures steps { CountsAnswer (Command.Trial kind start n m) steps.old steps.new result }
    ensures counted { steps.new ≤ steps.old + searches_of kind * most_steps
        (size_of kind (made kind start n m)) }
{
    let instance = make(alloc, kind, start, n, m)?;
    let (vertices, edges) = gadget_size(&instance, kind);
    if !is_within_limits(vertices, edges) {
        drop(instance);
        return too_large(alloc, vertices, edges);
    }
    let reply = try_within(alloc, kind, &instance, steps);
    drop(instance);
    reply
}
