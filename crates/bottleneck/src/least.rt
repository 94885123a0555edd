ghost use Rattle.std.specs.Prelude.{◌≡◌, ◌≤◌, ◌+◌, ◌*◌, pos, [], IfOk};
ghost use Rattle.mb_problem.specs.declared.kind.Kind.TheVariants.{Bottleneck as BottleneckKind};
ghost use Rattle.mb_problem.specs.Size.{size_of};
ghost use Rattle.mwpm_engine.specs.Solutions.{most_steps};
ghost use Rattle.bottleneck.specs.declared.found.Bottleneck.TheVariants.{Best};
ghost use Rattle.bottleneck.specs.Thresholds.{IsThreshold};

use crate::found::Bottleneck;
use crate::halving::halve;
use crate::range::{range_from, told};
use crate::starting::start;
use crate::weights::different_weights;
use mb_base::{OutOfMemory, Sequence, Steps};
use mb_problem::Instance;
use std::alloc::Global;
use std::sync::ledger::Ledger;

/// What is said of an instance without vertices.
fn nothing(alloc: Global) -> Bottleneck
    ensures { result ≡ Best (pos 0) [] [] }
{
    Bottleneck::Best {
        weight: 0,
        matching: Sequence::new(alloc),
        barrier: Sequence::new(alloc),
    }
}

/// A perfect matching that minimises the largest edge weight, with what proves that (Schrijver,
/// Combinatorial Optimization, volume A, chapter 24): a barrier of the graph of all lighter edges.
/// The different weights are halved over, from the greatest of the vertices' least weights on,
/// which is tried first: whether the edges of at most some weight have a perfect matching is one
/// search with all weights 0, and 65,536 different weights need 17 at most. Below the first weight
/// some vertex has no edge, so the empty set is a barrier. `steps` counts the searches' steps.
///
/// # Errors
///
/// `OutOfMemory` if an allocation fails.
pub fn threshold<L: Ledger>(
    alloc: Global,
    instance: &Instance,
    steps: &mut Steps<L>,
) -> Result<Bottleneck, OutOfMemory>
    // A perfect matching that minimises the largest edge weight, with a barrier of the graph of all
    // lighter edges; or a barrier of the graph.
    ensures found { IfOk result (IsThreshold instance.now) }

    // Within the steps of 17 searches.
    ensures steps { steps.new ≤ steps.old + 17 * most_steps (size_of BottleneckKind instance.now) }
{
    if instance.vertices() == 0 {
        return Ok(nothing(alloc));
    }
    let graph = instance.plain()?;
    let weights = different_weights(alloc, &graph)?;
    let first = start(alloc, &graph, &weights)?;
    let mut range = range_from(alloc, first, &weights);
    halve(alloc, &graph, &weights, &mut range, steps)?;
    Ok(told(&weights, range))
}
