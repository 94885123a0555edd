use super::back::numbered;
use super::cases::{BETWEEN, WAYS};
use super::instance;
use mb_base::{EdgeId, OutOfMemory, Sequence, VertexId};
use mb_problem::{Answer, Instance, Kind, degree, feasible, is_circuit, weight};
use std::alloc::Global;
use std::test::Fail;

/// An instance, counts of its edges, and whether they are feasible.
type Counted = (Kind, &'static [u8], &'static [u32], bool);

const COUNTED: [Counted; 18] = [
    (Kind::Perfect, b"p edge 2 1\ne 1 2 5\n", &[1], true),
    (Kind::Perfect, b"p edge 2 1\ne 1 2 5\n", &[1, 0], false),
    (
        Kind::CapMatch,
        b"p edge 2 1\nn 1 2\nn 2 2\ne 1 2 5 1\n",
        &[2],
        false,
    ),
    (
        Kind::BMatch,
        b"p edge 2 1\nn 1 2\nn 2 2\ne 1 2 5\n",
        &[2],
        true,
    ),
    (
        Kind::TJoin,
        b"p edge 3 3\ne 1 2 5\ne 2 3 -1\ne 3 1 2\n",
        &[1, 1, 1],
        true,
    ),
    (
        Kind::Match,
        b"p edge 3 3\ne 1 2 5\ne 2 3 -1\ne 3 1 2\n",
        &[1, 1, 1],
        false,
    ),
    (Kind::Gallai, b"p edge 2 2\ne 1 2\ne 1 2\n", &[0, 1], true),
    (Kind::Gallai, b"p edge 2 2\ne 1 2\ne 1 2\n", &[1, 1], false),
    // A loop counts twice.
    (Kind::Perfect, b"p edge 1 1\ne 1 1 5\n", &[1], false),
    (Kind::BMatch, b"p edge 1 1\nn 1 4\ne 1 1 5\n", &[2], true),
    (Kind::BMatch, b"p edge 1 1\nn 1 4\ne 1 1 5\n", &[4], false),
    (Kind::TJoin, b"p edge 1 1\ne 1 1 -3\n", &[1], true),
    (Kind::Interval, BETWEEN, &[0, 1], true),
    (Kind::Interval, BETWEEN, &[1, 1], true),
    (Kind::Interval, BETWEEN, &[0, 0], false),
    (Kind::Interval, BETWEEN, &[2, 0], false),
    (
        Kind::Interval,
        b"p edge 2 1\nn 1 0 2\nn 2 0 2\ne 1 2 5 1\n",
        &[2],
        false,
    ),
    (
        Kind::Interval,
        b"p edge 1 1\nn 1 2 2\ne 1 1 3\n",
        &[1],
        true,
    ),
];

/// Whether an answer is feasible for the instance of a text; None if the text is none.
fn is_feasible(
    alloc: Global,
    kind: Kind,
    text: &[u8],
    answer: Answer,
) -> Result<Option<bool>, Fail> {
    let Some(instance) = instance(alloc, text, kind) else {
        return Ok(None);
    };
    Ok(Some(feasible(alloc, &instance, kind, &answer)?))
}

#[test]
fn feasible_counts(rt: HostRuntime) -> Result<(), Fail> {
    for (kind, text, counts, wanted) in &COUNTED {
        let counts = Sequence::from_vec(Vec::from_slice(rt.alloc(), *counts)?);
        let found = is_feasible(rt.alloc(), *kind, *text, Answer::Counts(counts))?;
        assert!(rt; found == Some(*wanted));
    }
    Ok(())
}

const TRIANGLE: &[u8] = b"p edge 3 3\nn 1 1\nn 3 1\ne 1 2 3\ne 2 3 -1\ne 1 3 4\n";

const TOUR: &[u8] = b"p edge 3 3\ne 1 2 3\ne 2 3 1\ne 1 3 4\n";

/// A walk in an instance, by its start and the numbers of its edges, and whether it is feasible.
type Walked = (Kind, &'static [u8], u32, &'static [u32], bool);

const WALKED: [Walked; 13] = [
    (Kind::Postman, TOUR, 1, &[1, 2, 3], true),
    (Kind::Postman, TOUR, 1, &[1, 2, 3, 1], false),
    (Kind::Postman, TOUR, 1, &[1, 2, 4], false),
    (Kind::Path, TRIANGLE, 1, &[1, 2], true),
    (Kind::Path, TRIANGLE, 3, &[3], false),
    (Kind::Path, TRIANGLE, 1, &[1, 1, 3], false),
    (Kind::Path, TRIANGLE, 1, &[], false),
    (Kind::Postman, b"p edge 1 1\ne 1 1 4\n", 1, &[1], true),
    (
        Kind::Path,
        b"p edge 2 2\nn 1 1\nn 2 1\ne 1 1 0\ne 1 2 3\n",
        1,
        &[1, 2],
        false,
    ),
    (Kind::OddPath, WAYS, 1, &[1, 2, 3], true),
    (Kind::OddPath, WAYS, 1, &[4, 3], false),
    (Kind::EvenPath, WAYS, 1, &[4, 3], true),
    (Kind::EvenPath, WAYS, 1, &[1, 2, 3], false),
];

#[test]
fn feasible_walks(rt: HostRuntime) -> Result<(), Fail> {
    for (kind, text, start, numbers, wanted) in &WALKED {
        let answer = Answer::Walk {
            start: VertexId::new(*start),
            edges: Sequence::from_vec(numbered(rt.alloc(), *numbers)?),
        };
        assert!(rt; is_feasible(rt.alloc(), *kind, *text, answer)? == Some(*wanted));
    }
    Ok(())
}

/// Whether the greatest values of an instance are these.
fn allows(instance: &Instance, values: &[u32]) -> Result<bool, OutOfMemory> {
    Ok(instance.at_most()?.value_list() == values)
}

/// Whether an edge of an instance's graph has these ends and this weight.
fn joins(
    instance: &Instance,
    e: EdgeId,
    ends: (VertexId, VertexId, i64),
) -> Result<bool, OutOfMemory> {
    let graph = instance.graph()?;
    if e.number() < 1 || graph.edges() < e.number() {
        return Ok(false);
    }
    Ok(graph.edge(e) == ends)
}

#[test]
fn instance_by_its_calls(rt: HostRuntime) -> Result<(), Fail> {
    let alloc = rt.alloc();
    let (one, two, three) = (VertexId::new(1), VertexId::new(2), VertexId::new(3));
    let mut instance = Instance::new(alloc, 3, 2)?;
    let first = instance.add_edge(one, two, 5, Some(1))?;
    let second = instance.add_edge(two, three, -1, None)?;
    let third = instance.add_edge(three, one, 2, Some(4096))?;
    let walk = Vec::from_slice(alloc, &[first, second, third])?;
    instance.set_value(two, 0);
    assert!(rt; instance.value_list() == [2, 0, 2].as_slice());
    instance.set_range(two, 1, 3);
    assert!(rt; instance.range(two) == (1, 3));
    assert!(rt; instance.low_list() == [0, 1, 0].as_slice());
    assert!(rt; instance.high_list() == [1, 3, 1].as_slice());
    assert!(rt; instance.edge(third) == (three, one, 2, Some(4096)));
    assert!(rt; degree(&instance, &[1, 2, 4], two) == 3);
    let allowed = allows(&instance, &[1, 3, 1]);
    let joined = joins(&instance, third, (three, one, 2));
    let around = is_circuit(alloc, &instance, one, &walk);
    let edges = Sequence::from_vec(walk);
    let walk = Answer::Walk { start: one, edges };
    assert!(rt; weight(&instance, Kind::Postman, &walk) == 6);
    drop(walk);
    drop(instance);
    assert!(rt; allowed? && joined? && around?);
    Ok(())
}

/// Whether a loop at vertex 2 is a circuit from there alone, and the plain graph lacks it.
fn is_lone_circuit(alloc: Global, instance: &Instance, e: EdgeId) -> Result<bool, OutOfMemory> {
    let (one, two) = (VertexId::new(1), VertexId::new(2));
    if !is_circuit(alloc, instance, two, &[e])? {
        return Ok(false);
    }
    if is_circuit(alloc, instance, one, &[e])? || is_circuit(alloc, instance, one, &[])? {
        return Ok(false);
    }
    Ok(instance.graph()?.edges() == 2 && instance.plain()?.edges() == 1)
}

#[test]
fn a_loop_is_a_circuit(rt: HostRuntime) -> Result<(), Fail> {
    let (one, two) = (VertexId::new(1), VertexId::new(2));
    let mut instance = Instance::new(rt.alloc(), 2, 0)?;
    let around = instance.add_edge(two, two, -1, None)?;
    instance.add_edge(one, two, 5, None)?;
    let alone = is_lone_circuit(rt.alloc(), &instance, around);
    drop(instance);
    assert!(rt; alone?);
    Ok(())
}
