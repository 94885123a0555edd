ghost use Rattle.std.specs.Prelude.{◌≡◌, ◌<◌, true};
ghost use Rattle.alt_forest.specs.Searches.{IsSound};
ghost use Rattle.mwpm_engine.specs.Passes.{IsReady};

use super::looks::exposed_node;
use alt_forest::{Search, Weights};
use mb_base::{OutOfMemory, Steps};
use mwpm_engine::{PhaseEnd, phase};
use state_check::{check_search, is_search_graph};
use std::alloc::Global;
use std::process::Abort;
use std::sync::ledger::{Blank, Ledger};
use weighted_graph::Graph;

/// A phase, if some node is exposed; whether it has augmented the matching.
fn augments<L: Ledger>(search: &mut Search, graph: &Graph, steps: &mut Steps<L>) -> bool
    requires well_formed { IsReady search.old }
    requires same_graph { graph.now ≡ search.old.graph }
    ensures well_formed { result ≡ true → IsReady search.new }
    ensures sound { IsSound search.new }
    ensures same_graph { graph.now ≡ search.new.graph }
{
    let Some(_) = exposed_node(search) else {
        return false;
    };
    match phase(search, graph, steps) {
        PhaseEnd::Augmented => true,
        PhaseEnd::Stuck => false,
    }
}

/// How many phases augment the matching, one after the other.
fn augment_count<L: Ledger>(search: &mut Search, graph: &Graph, steps: &mut Steps<L>) -> u32
    requires well_formed { IsReady search.old }
    requires same_graph { graph.now ≡ search.old.graph }
    ensures sound { IsSound search.new }
{
    for count in 0..graph.vertices() {
        if !augments(search, graph, steps) {
            return count;
        }
    }
    graph.vertices()
}

/// How many phases augment the matching in the pass without weights over a graph, after which no
/// node is asserted to be exposed.
pub fn phases_without_weights<L: Ledger>(
    rt: &impl Abort,
    alloc: Global,
    graph: &Graph,
    blank: Blank,
) -> Result<u32, OutOfMemory>
    requires name { blank.name ≡ L.name }
    requires parts { blank.parts ≡ L.parts }
    requires some { 0 < blank.parts }
{
    let mut steps = Steps::<L>::new(blank);
    assert!(rt; is_search_graph(graph));
    let mut search = Search::new(alloc, graph)?;
    search.reset(graph, Weights::Zero, 0);
    let count = augment_count(&mut search, graph, &mut steps);
    assert!(rt; check_search(&search));
    assert!(rt; exposed_node(&search).is_none());
    drop(search);
    Ok(count)
}
