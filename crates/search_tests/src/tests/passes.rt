ghost use Rattle.std.specs.Prelude.{◌≡◌, ◌<◌, ℕ, true};
ghost use Rattle.alt_forest.specs.State.{IsExposed};
ghost use Rattle.alt_forest.specs.Searches.{IsSound, state_of};
ghost use Rattle.alt_forest.specs.Counts.{IsMatched, IsPlanted};
ghost use Rattle.alt_forest.specs.Entries.{IsQueued};
ghost use Rattle.alt_forest.specs.TreeNodes.{HasTreeNodes};

use super::events::{perform, plant_all, reach};
use super::instances::can_start;
use super::looks::{exposed_node, have_roots};
use super::results::mates_of;
use super::tally::Tally;
use alt_forest::{Search, Weights};
use augment::unpack;
use mb_base::{OutOfMemory, Steps};
use state_check::{check_search, is_search_graph};
use std::alloc::Global;
use std::process::Abort;
use std::sync::ledger::{Blank, Ledger};
use weighted_graph::Graph;

/// How many events a pass of these tests has at most.
const MOST_EVENTS: u32 = 1000;

/// Lets the next event happen, and answers whether there is one.
fn advance<L: Ledger>(
    rt: &impl Abort,
    search: &mut Search,
    graph: &Graph,
    trees_stay: bool,
    tally: &mut Tally,
    steps: &mut Steps<L>,
) -> bool
    requires sound { IsSound search.old }
    requires event_times { IsQueued search.old }
    requires listed { HasTreeNodes search.old }
    requires same_graph { graph.now ≡ search.old.graph }
    requires all_rooted { IsPlanted (state_of search.old) }
    requires exposed { (a : ℕ) × IsExposed (state_of search.old) a }
    ensures sound { IsSound search.new }
    ensures event_times { IsQueued search.new }
    ensures listed { HasTreeNodes search.new }
    ensures same_graph { graph.now ≡ search.new.graph }
    ensures all_rooted { IsPlanted (state_of search.new) }
{
    let Some(event) = reach(rt, search, graph, steps) else {
        return false;
    };
    assert!(rt; check_search(search));
    tally.count(search, &event);
    perform(rt, search, graph, event, trees_stay, steps);
    assert!(rt; check_search(search));
    assert!(rt; have_roots(search));
    true
}

/// A forest grows from all exposed nodes until there are none, or until it is stuck; whether no
/// exposed node is left.
fn pass<L: Ledger>(
    rt: &impl Abort,
    search: &mut Search,
    graph: &Graph,
    trees_stay: bool,
    tally: &mut Tally,
    steps: &mut Steps<L>,
) -> bool
    requires sound { IsSound search.old }
    requires event_times { IsQueued search.old }
    requires listed { HasTreeNodes search.old }
    requires same_graph { graph.now ≡ search.old.graph }
    ensures sound { IsSound search.new }
    ensures matched { result ≡ true → IsMatched (state_of search.new) }
{
    plant_all(rt, search, graph, steps);
    for _ in 0..MOST_EVENTS {
        let Some(_) = exposed_node(search) else {
            return true;
        };
        if !advance(rt, search, graph, trees_stay, tally, steps) {
            return false;
        }
    }
    panic!(rt; "a pass has not ended");
}

/// The edges at the vertices of a search, its matching unpacked.
fn mates_unpacked(
    rt: &impl Abort,
    alloc: Global,
    search: &mut Search,
    vertices: u32,
    tally: &mut Tally,
) -> Result<Option<Vec<u32>>, OutOfMemory>
    requires sound { IsSound search.old }
{
    tally.count_kept(search);
    unpack(search);
    assert!(rt; check_search(search));
    Ok(Some(mates_of(alloc, search, vertices)?))
}

/// The edges at the vertices of a graph after a whole pass with its weights from a start; None if
/// the forest of all exposed nodes is stuck.
pub fn passed<L: Ledger>(
    rt: &impl Abort,
    alloc: Global,
    graph: &Graph,
    start: i64,
    trees_stay: bool,
    tally: &mut Tally,
    blank: Blank,
) -> Result<Option<Vec<u32>>, OutOfMemory>
    requires name { blank.name ≡ L.name }
    requires parts { blank.parts ≡ L.parts }
    requires some { 0 < blank.parts }
{
    let mut steps = Steps::<L>::new(blank);
    assert!(rt; is_search_graph(graph));
    let mut search = Search::new(alloc, graph)?;
    assert!(rt; check_search(&search));
    assert!(rt; can_start(graph, start));
    search.reset(graph, Weights::Given, start);
    assert!(rt; check_search(&search));
    let mates = if pass(rt, &mut search, graph, trees_stay, tally, &mut steps) {
        mates_unpacked(rt, alloc, &mut search, graph.vertices(), tally)
    } else {
        Ok(None)
    };
    drop(search);
    mates
}
