//! Instances of T-joins that are drawn from a start: grids and random sparse graphs.
ghost use Rattle.std.specs.Prelude.{◌≡◌, ◌≤◌, None, IsTrue};
ghost use Rattle.mb_problem.specs.Network.{IsInstanceEdge, vertices};

use super::draws::Draws;
use graph_theory::WEIGHT_LIMIT;
use mb_base::{OutOfMemory, VertexId};
use mb_problem::{EDGE_LIMIT, Instance, VERTEX_LIMIT};
use std::alloc::Global;
use std::process::Abort;

/// The graph of a family.
#[derive(Clone, Copy)]
pub enum Shape {
    /// So many rows and columns.
    Grid(u32, u32),
    /// So many vertices on a random tree, and so many random edges besides.
    Sparse(u32, u32),
}

/// What instances are drawn from: the graph, the least weight and how many weights there are from
/// it on, and how many vertices are terminals.
#[derive(Clone, Copy)]
pub struct Family {
    pub shape: Shape,
    pub least: i64,
    pub weights: u32,
    pub terminals: u32,
}

/// Whether an edge can be one of the instance.
fn is_edge(instance: &Instance, u: u32, v: u32, w: i64) -> bool
    ensures { IsTrue result
        → IsInstanceEdge (vertices instance.now) (record { u = u; v = v; w = w; capacity = None }) }
{
    let n = instance.vertices();
    if u < 1 || n < u {
        return false;
    }
    if v < 1 || n < v {
        return false;
    }
    if w < -WEIGHT_LIMIT || WEIGHT_LIMIT < w {
        return false;
    }
    true
}

/// Adds an edge whose weight is drawn.
fn add(
    rt: &impl Abort,
    instance: &mut Instance,
    family: &Family,
    draws: &mut Draws,
    u: u32,
    v: u32,
) -> Result<(), OutOfMemory> {
    let w = family
        .least
        .wrapping_add(i64::from(draws.below(family.weights)));
    assert!(rt; instance.edges() < EDGE_LIMIT);
    assert!(rt; is_edge(instance, u, v, w));
    instance.add_edge(VertexId::new(u), VertexId::new(v), w, None)?;
    Ok(())
}

/// Whether a vertex of a grid is the last of its row.
fn ends_row(vertex: u32, columns: u32) -> bool {
    columns == 0 || vertex % columns == 0
}

/// Adds the edges of a grid.
fn add_grid(
    rt: &impl Abort,
    instance: &mut Instance,
    family: &Family,
    draws: &mut Draws,
    columns: u32,
) -> Result<(), OutOfMemory> {
    let vertices = instance.vertices();
    for place in 0..vertices {
        let vertex = place.wrapping_add(1);
        let below = vertex.wrapping_add(columns);
        if !ends_row(vertex, columns) {
            add(rt, instance, family, draws, vertex, vertex.wrapping_add(1))?;
        }
        if below <= vertices {
            add(rt, instance, family, draws, vertex, below)?;
        }
    }
    Ok(())
}

/// Adds the edges of a random tree.
fn add_tree(
    rt: &impl Abort,
    instance: &mut Instance,
    family: &Family,
    draws: &mut Draws,
) -> Result<(), OutOfMemory> {
    for place in 1..instance.vertices() {
        let parent = draws.below(place).wrapping_add(1);
        add(rt, instance, family, draws, parent, place.wrapping_add(1))?;
    }
    Ok(())
}

/// Adds so many random edges, of which some may be loops.
fn add_random(
    rt: &impl Abort,
    instance: &mut Instance,
    family: &Family,
    draws: &mut Draws,
    edges: u32,
) -> Result<(), OutOfMemory> {
    for _ in 0..edges {
        let u = draws.below(instance.vertices()).wrapping_add(1);
        let v = draws.below(instance.vertices()).wrapping_add(1);
        add(rt, instance, family, draws, u, v)?;
    }
    Ok(())
}

/// Gives the value 1 to so many vertices, each choice of which is as likely.
fn set_terminals(rt: &impl Abort, instance: &mut Instance, draws: &mut Draws, terminals: u32) {
    let vertices = instance.vertices();
    let mut wanted = terminals;
    for place in 0..vertices {
        if draws.below(vertices.wrapping_sub(place)) < wanted {
            assert!(rt; place < instance.vertices());
            instance.set_value(VertexId::new(place + 1), 1);
            wanted = wanted.wrapping_sub(1);
        }
    }
}

/// An instance of so many vertices without edges and terminals.
fn bare(rt: &impl Abort, alloc: Global, vertices: u32) -> Result<Instance, OutOfMemory> {
    assert!(rt; vertices <= VERTEX_LIMIT);
    Instance::new(alloc, vertices, 0)
}

/// The instance of a family that a start determines.
pub fn drawn(
    rt: &impl Abort,
    alloc: Global,
    family: &Family,
    start: u32,
) -> Result<Instance, OutOfMemory> {
    let mut draws = Draws::new(start);
    let mut instance = match family.shape {
        Shape::Grid(rows, columns) => bare(rt, alloc, rows.wrapping_mul(columns))?,
        Shape::Sparse(vertices, _) => bare(rt, alloc, vertices)?,
    };
    match family.shape {
        Shape::Grid(_, columns) => add_grid(rt, &mut instance, family, &mut draws, columns)?,
        Shape::Sparse(_, more) => {
            add_tree(rt, &mut instance, family, &mut draws)?;
            add_random(rt, &mut instance, family, &mut draws, more)?;
        }
    }
    set_terminals(rt, &mut instance, &mut draws, family.terminals);
    Ok(instance)
}
