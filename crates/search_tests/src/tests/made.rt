use super::instances::is_edge;
use inst_gen::make;
use mb_base::{EdgeId, OutOfMemory, VertexId};
use mb_problem::{EDGE_LIMIT, Instance, Kind};
use std::alloc::Global;
use std::process::Abort;

/// Adds an edge to an instance if one of its ends is odd and the other one even.
fn keep(
    rt: &impl Abort,
    instance: &mut Instance,
    u: VertexId,
    v: VertexId,
    w: i64,
) -> Result<(), OutOfMemory> {
    if u.number() % 2 == v.number() % 2 {
        return Ok(());
    }
    assert!(rt; instance.edges() < EDGE_LIMIT);
    assert!(rt; is_edge(instance, u.number(), v.number(), w));
    instance.add_edge(u, v, w, None)?;
    Ok(())
}

/// The instance with only the edges of a made one between an odd vertex and an even one.
fn kept(rt: &impl Abort, alloc: Global, made: &Instance) -> Result<Instance, OutOfMemory> {
    let mut instance = Instance::new(alloc, 300, 1)?;
    for place in 0..made.edges() {
        let (u, v, w, _) = made.edge(EdgeId::new(place + 1));
        keep(rt, &mut instance, u, v, w)?;
    }
    Ok(instance)
}

/// The instance that is made from 7 for a perfect matching of 300 vertices with 3000 edges, with
/// only its edges between an odd vertex and an even one. It has no circuit of odd length, so no
/// blossom.
pub fn odd_to_even(rt: &impl Abort, alloc: Global) -> Result<Instance, OutOfMemory> {
    let made = make(alloc, Kind::Perfect, 7, 300, 3000)?;
    let instance = kept(rt, alloc, &made);
    drop(made);
    instance
}
