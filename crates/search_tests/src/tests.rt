mod engine;
mod events;
mod instances;
mod looks;
mod made;
mod passes;
mod phases;
mod range;
mod results;
mod rows;
mod runs;
mod sets;
mod stuck;
mod tally;

use engine::ends_with;
use instances::instance_of;
use made::odd_to_even;
use passes::passed;
use phases::phases_without_weights;
use results::is_best;
use rows::{ALL_EVENTS, APART, DEEP_BLOSSOMS, Row, TWO_TRIANGLES};
use runs::{RUNS, Run};
use sets::leaves_sets;
use std::alloc::Global;
use std::marker::Brand;
use std::process::Abort;
use std::sync::ledger::Blank;
use std::test::Fail;
use stuck::{STUCK, Stuck};
use tally::Tally;

/// Asserts that a row holds, by its name.
fn holds(rt: &impl Abort, name: &str, row: bool) {
    assert!(rt; row, "{name}");
}

/// The edges at the vertices of a graph after a pass, asserted to be a best matching; None if the
/// forest is stuck.
fn after_pass(
    rt: &impl Abort,
    alloc: Global,
    row: &Row,
    trees_stay: bool,
    tally: &mut Tally,
) -> Result<Option<Vec<u32>>, Fail> {
    let (name, vertices, start, edges) = *row;
    let instance = instance_of(rt, alloc, vertices, edges)?;
    let graph = instance.graph()?;
    let passed = passed::<Brand>(rt, alloc, &graph, start, trees_stay, tally, Blank::new(1));
    drop(graph);
    let passed = passed?;
    if let Some(mates) = &passed {
        holds(rt, name, is_best(alloc, &instance, mates)?);
    }
    Ok(passed)
}

/// Which events passes over the graphs of rows have had together: which of several events of one
/// moment comes first is free. Each pass is asserted to end with a best matching.
fn tally_of(rt: &impl Abort, alloc: Global, rows: &[Row], trees_stay: bool) -> Result<Tally, Fail> {
    let mut tally = Tally::new();
    for row in rows {
        let passed = after_pass(rt, alloc, row, trees_stay, &mut tally)?;
        holds(rt, row.0, passed.is_some());
    }
    Ok(tally)
}

/// Asserts that a run of the engine over a row's graph ends with what the row says.
fn runs_as(rt: &impl Abort, alloc: Global, row: &Run) -> Result<(), Fail> {
    let (name, vertices, edges, matched, marks) = *row;
    let instance = instance_of(rt, alloc, vertices, edges)?;
    let graph = instance.graph();
    drop(instance);
    let graph = graph?;
    let ends = ends_with::<Brand>(rt, alloc, &graph, matched, marks, Blank::new(1));
    drop(graph);
    holds(rt, name, ends?);
    Ok(())
}

/// Asserts that runs end with what their rows say.
fn run_as(rt: &impl Abort, alloc: Global, rows: &[Run]) -> Result<(), Fail> {
    for row in rows {
        runs_as(rt, alloc, row)?;
    }
    Ok(())
}

#[test]
fn runs_end_with_a_matching_or_a_barrier(rt: HostRuntime) -> Result<(), Fail> {
    run_as(&rt, rt.alloc(), &RUNS)
}

/// Asserts that a run of the engine over a row's graph leaves the sets that the row says.
fn leaves(rt: &impl Abort, alloc: Global, row: &Stuck) -> Result<(), Fail> {
    let (name, vertices, edges, marks, missed) = *row;
    let instance = instance_of(rt, alloc, vertices, edges)?;
    let graph = instance.graph();
    drop(instance);
    let graph = graph?;
    let left = leaves_sets::<Brand>(rt, alloc, &graph, marks, missed, Blank::new(1));
    drop(graph);
    holds(rt, name, left?);
    Ok(())
}

/// Asserts that runs leave the sets that their rows say.
fn leave(rt: &impl Abort, alloc: Global, rows: &[Stuck]) -> Result<(), Fail> {
    for row in rows {
        leaves(rt, alloc, row)?;
    }
    Ok(())
}

#[test]
fn stuck_runs_leave_outer_vertices_with_paths(rt: HostRuntime) -> Result<(), Fail> {
    leave(&rt, rt.alloc(), &STUCK)
}

/// How many phases augment the matching in the pass without weights, from 1635 edges of a made
/// graph.
fn phases_of_made(rt: &impl Abort, alloc: Global) -> Result<u32, Fail> {
    let instance = odd_to_even(rt, alloc)?;
    assert!(rt; instance.edges() == 1635);
    let graph = instance.graph()?;
    Ok(phases_without_weights::<Brand>(rt, alloc, &graph, Blank::new(1))?)
}

#[test]
fn each_phase_matches_two_more_vertices(rt: HostRuntime) -> Result<(), Fail> {
    assert!(rt; phases_of_made(&rt, rt.alloc())? == 150);
    Ok(())
}

/// Whether a pass over two triangles with an edge between them matches them by it.
fn matches_triangles(rt: &impl Abort, alloc: Global, trees_stay: bool) -> Result<bool, Fail> {
    let mut tally = Tally::new();
    match after_pass(rt, alloc, &TWO_TRIANGLES, trees_stay, &mut tally)? {
        Some(mates) => Ok(mates.as_slice() == [1, 1, 7, 7, 5, 5].as_slice()),
        None => Ok(false),
    }
}

#[test]
fn two_triangles_are_matched_by_the_edge_between(rt: HostRuntime) -> Result<(), Fail> {
    assert!(rt; matches_triangles(&rt, rt.alloc(), false)?);
    assert!(rt; matches_triangles(&rt, rt.alloc(), true)?);
    Ok(())
}

/// Whether a pass over two triangles with no edge between them is stuck, with each a blossom.
fn is_stuck(rt: &impl Abort, alloc: Global, trees_stay: bool) -> Result<bool, Fail> {
    let mut tally = Tally::new();
    let passed = after_pass(rt, alloc, &APART, trees_stay, &mut tally)?;
    Ok(passed.is_none() && tally.shrunk == 2)
}

#[test]
fn two_triangles_apart_leave_the_forest_stuck(rt: HostRuntime) -> Result<(), Fail> {
    assert!(rt; is_stuck(&rt, rt.alloc(), false)?);
    assert!(rt; is_stuck(&rt, rt.alloc(), true)?);
    Ok(())
}

/// Whether passes over the graphs for it have each event.
fn have_all(rt: &impl Abort, alloc: Global, trees_stay: bool) -> Result<bool, Fail> {
    Ok(tally_of(rt, alloc, &ALL_EVENTS, trees_stay)?.has_all())
}

#[test]
fn passes_with_each_event_end_with_a_best_matching(rt: HostRuntime) -> Result<(), Fail> {
    assert!(rt; have_all(&rt, rt.alloc(), false)?);
    assert!(rt; have_all(&rt, rt.alloc(), true)?);
    Ok(())
}

/// How many blossoms that hold blossoms passes over the graphs for it expand.
fn nests_expanded(rt: &impl Abort, alloc: Global, trees_stay: bool) -> Result<u32, Fail> {
    Ok(tally_of(rt, alloc, &DEEP_BLOSSOMS, trees_stay)?.nests_expanded)
}

#[test]
fn blossoms_in_blossoms_are_expanded_one_by_one(rt: HostRuntime) -> Result<(), Fail> {
    assert!(rt; nests_expanded(&rt, rt.alloc(), false)? >= 9);
    assert!(rt; nests_expanded(&rt, rt.alloc(), true)? >= 9);
    Ok(())
}
