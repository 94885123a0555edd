ghost use Rattle.std.specs.Prelude.{◌≡◌, ◌<◌, [], ◌∷◌, IfOk};
ghost use Rattle.graph_theory.specs.Graph.{IsEdgeNumber};

use dual_check::{DualFault, OddSet, bound, is_barrier};
use graph_parts::{component, odd_components};
use graph_theory::WEIGHT_LIMIT;
use mb_base::{EdgeId, Sequence, Steps, VertexId};
use std::alloc::{AllocError, Global};
use std::marker::Brand;
use std::sync::ledger::{Blank, Ledger};
use std::test::Fail;
use weighted_graph::Graph;

fn look_once<L: Ledger>(graph: &Graph, e: EdgeId, blank: Blank) -> (VertexId, VertexId, i64)
    requires edge { IsEdgeNumber graph.now e }
    requires name { blank.name ≡ L.name }
    requires parts { blank.parts ≡ L.parts }
    requires some { 0 < blank.parts }
{
    let mut steps = Steps::<L>::new(blank);
    graph.look(e, &mut steps)
}

#[test]
fn edges_and_their_index(rt: HostRuntime) -> Result<(), Fail> {
    let of = VertexId::new;
    let mut graph = Graph::new(rt.alloc(), 3);
    let first = graph.add(of(1), of(2), 5)?;
    let second = graph.add(of(3), of(2), -WEIGHT_LIMIT)?;
    let third = graph.add(of(3), of(3), 1)?;
    let looked = look_once::<Brand>(&graph, second, Blank::new(1));
    assert_eq!(rt; looked, (of(3), of(2), -WEIGHT_LIMIT));
    let index = graph.index()?;
    assert_eq!(rt; index.at(of(1)), [first].as_slice());
    assert_eq!(rt; index.at(of(2)), [first, second].as_slice());
    assert_eq!(rt; index.at(of(3)), [second, third].as_slice());
    Ok(())
}

// Two vertices in the middle, each with two rays, as the gates of an edge with capacity 1 between
// vertices of value 2.
#[test]
fn odd_parts_of_two_stars(rt: HostRuntime) -> Result<(), Fail> {
    let of = VertexId::new;
    let mut graph = Graph::new(rt.alloc(), 6);
    graph.add(of(1), of(5), 4)?;
    graph.add(of(2), of(5), 4)?;
    graph.add(of(5), of(6), 0)?;
    graph.add(of(6), of(3), 0)?;
    graph.add(of(6), of(4), 0)?;
    assert_eq!(rt; odd_components(rt.alloc(), &graph, &[of(5), of(6)])?, 4);
    assert!(rt; is_barrier(rt.alloc(), &graph, &[of(5), of(6)])?);
    assert!(rt; !is_barrier(rt.alloc(), &graph, &[])?);
    Ok(())
}

#[test]
fn components_are_ascending(rt: HostRuntime) -> Result<(), Fail> {
    let of = VertexId::new;
    let mut graph = Graph::new(rt.alloc(), 3);
    graph.add(of(3), of(2), 0)?;
    let found = component(rt.alloc(), &graph, of(3))?;
    assert_eq!(rt; found.as_slice(), [of(2), of(3)].as_slice());
    Ok(())
}

fn three(alloc: Global, a: u32, b: u32, c: u32, dual: i64) -> Result<OddSet, AllocError>
    ensures { IfOk result (λ set.
        set ≡ record { dual = dual; vertices = a ∷ b ∷ c ∷ []; references = [] }) }
{
    let vertices = vec![in alloc; VertexId::new(a), VertexId::new(b), VertexId::new(c)]?;
    Ok(OddSet {
        dual,
        vertices: Sequence::from_vec(vertices),
        references: Sequence::new(alloc),
    })
}

// Two vertices and the first set.
fn around_first(alloc: Global, a: u32, b: u32, dual: i64) -> Result<OddSet, AllocError>
    ensures { IfOk result (λ set.
        set ≡ record { dual = dual; vertices = a ∷ b ∷ []; references = 1 ∷ [] }) }
{
    let vertices = vec![in alloc; VertexId::new(a), VertexId::new(b)]?;
    let references = vec![in alloc; 1]?;
    Ok(OddSet {
        dual,
        vertices: Sequence::from_vec(vertices),
        references: Sequence::from_vec(references),
    })
}

#[test]
fn bound_with_an_odd_set(rt: HostRuntime) -> Result<(), Fail> {
    let alloc = rt.alloc();
    let of = VertexId::new;
    let mut graph = Graph::new(alloc, 4);
    graph.add(of(1), of(2), 1)?;
    graph.add(of(2), of(3), 1)?;
    graph.add(of(3), of(4), 10)?;
    let sets = [three(alloc, 1, 2, 3, 9)?];
    assert_eq!(rt; bound(alloc, &graph, &[1, 1, 1, 10], &sets), Ok(22));
    let sets = [three(alloc, 3, 2, 1, 9)?];
    assert_eq!(rt;
        bound(alloc, &graph, &[1, 1, 1, 10], &sets),
        Err(DualFault::SetForm(1))
    );
    Ok(())
}

// The first edge lies in the inner set, the second leaves it, and the third leaves the outer one.
#[test]
fn bound_with_a_set_in_a_set(rt: HostRuntime) -> Result<(), Fail> {
    let alloc = rt.alloc();
    let of = VertexId::new;
    let mut graph = Graph::new(alloc, 6);
    graph.add(of(1), of(2), 1)?;
    graph.add(of(3), of(4), 3)?;
    graph.add(of(5), of(6), 4)?;
    let sets = [three(alloc, 1, 2, 3, 4)?, around_first(alloc, 4, 5, 6)?];
    assert_eq!(rt; bound(alloc, &graph, &[1, 1, 1, 1, 1, 1], &sets), Ok(16));
    let sets = [three(alloc, 1, 2, 3, 4)?, around_first(alloc, 3, 5, 6)?];
    assert_eq!(rt;
        bound(alloc, &graph, &[1, 1, 1, 1, 1, 1], &sets),
        Err(DualFault::SetForm(2))
    );
    Ok(())
}

// The doubled graph of one edge of weight 5.
#[test]
fn bound_of_a_doubled_edge(rt: HostRuntime) -> Result<(), Fail> {
    let alloc = rt.alloc();
    let of = VertexId::new;
    let mut graph = Graph::new(alloc, 4);
    graph.add(of(1), of(2), -5)?;
    graph.add(of(3), of(4), -5)?;
    graph.add(of(1), of(3), 0)?;
    graph.add(of(2), of(4), 0)?;
    assert_eq!(rt; bound(alloc, &graph, &[-5, -5, -5, -5], &[]), Ok(-20));
    assert_eq!(rt;
        bound(alloc, &graph, &[-6, -6, -5, 0], &[]),
        Err(DualFault::Slack(EdgeId::new(2)))
    );
    Ok(())
}
