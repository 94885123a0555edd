ghost use Rattle.std.specs.Prelude.{IfSome};
ghost use Rattle.mb_problem.specs.Ready.{IsReady};

mod back;
mod cases;
mod feasible_answers;
mod looked_up;
mod there;

use back::{counts_of, join_of, path_of};
use cases::{ANSWERS, Case, GRAPHS, JOINS, PATHS, SIZES};
use dimacs_read::read;
use mb_base::EdgeId;
use mb_problem::{Answer, Instance, Kind, gadget_size};
use std::alloc::Global;
use std::test::Fail;
use there::{graph_of, is_graph};

/// The instance of a text that is well-formed.
fn instance(alloc: Global, text: &[u8], kind: Kind) -> Option<Instance>
    ensures { IfSome result (IsReady kind) }
{
    match read(alloc, text, kind) {
        Ok((instance, _)) => Some(instance),
        Err(_) => None,
    }
}

#[test]
fn sizes_of_graphs(rt: HostRuntime) -> Result<(), Fail> {
    for (kind, text, size) in &SIZES {
        let instance = instance(rt.alloc(), *text, *kind);
        assert!(rt; instance.is_some_and(|instance| gadget_size(&instance, *kind) == *size));
    }
    Ok(())
}

/// Whether the graph of a case is the one that is wanted.
fn builds(alloc: Global, case: &Case) -> Result<bool, Fail> {
    let Some(instance) = instance(alloc, case.text, case.kind) else {
        return Ok(false);
    };
    match graph_of(alloc, &instance, case.kind)? {
        Some(graph) => Ok(is_graph(&graph, case.vertices, case.edges)),
        None => Ok(false),
    }
}

#[test]
fn graphs_of_worked_instances(rt: HostRuntime) -> Result<(), Fail> {
    for case in &GRAPHS {
        assert!(rt; builds(rt.alloc(), case)?);
    }
    Ok(())
}

#[test]
fn answers_of_perfect_matchings(rt: HostRuntime) -> Result<(), Fail> {
    let alloc = rt.alloc();
    for (kind, text, matching, wanted) in &ANSWERS {
        let Some(instance) = instance(alloc, *text, *kind) else {
            assert!(rt; false);
            return Ok(());
        };
        let counts = counts_of(alloc, &instance, *kind, *matching)?;
        assert!(rt; counts.is_some_and(|counts| counts.as_slice() == *wanted));
    }
    Ok(())
}

/// Whether these are the edges of these numbers.
fn are_numbers(edges: &[EdgeId], numbers: &[u32]) -> bool {
    if edges.len() != numbers.len() {
        return false;
    }
    for (k, edge) in edges.iter().enumerate() {
        if edge.number() != numbers[k] {
            return false;
        }
    }
    true
}

#[test]
fn joins_of_perfect_matchings(rt: HostRuntime) -> Result<(), Fail> {
    let alloc = rt.alloc();
    for (kind, text, matching, wanted) in &JOINS {
        let Some(instance) = instance(alloc, *text, *kind) else {
            assert!(rt; false);
            return Ok(());
        };
        let join = join_of(alloc, &instance, *kind, *matching)?;
        assert!(rt; join.is_some_and(|join| are_numbers(join.edges.as_slice(), *wanted)));
    }
    Ok(())
}

/// Whether an answer is this walk.
fn is_walk(answer: &Answer, from: u32, numbers: &[u32]) -> bool {
    match answer {
        Answer::Walk { start, edges } => {
            start.number() == from && are_numbers(edges.as_slice(), numbers)
        }
        _ => false,
    }
}

#[test]
fn paths_of_perfect_matchings(rt: HostRuntime) -> Result<(), Fail> {
    let alloc = rt.alloc();
    for (kind, text, matching, start, wanted) in &PATHS {
        let Some(instance) = instance(alloc, *text, *kind) else {
            assert!(rt; false);
            return Ok(());
        };
        let path = path_of(alloc, &instance, *kind, *matching)?;
        assert!(rt; path.is_some_and(|path| is_walk(&path, *start, *wanted)));
    }
    Ok(())
}
