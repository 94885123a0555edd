//! Paths through a forest, from a vertex towards the root of its tree.
use crate::label::{Label, Side, label_at};
use mb_base::{EdgeId, OutOfMemory, VertexId};
use std::alloc::Global;

/// What is left to be written of a path: an edge, or the path from an outer vertex to one that it
/// passes (to its root if that is 0), in either direction.
#[derive(Clone, Copy)]
enum Task {
    Edge(EdgeId),
    Ahead(VertexId, VertexId),
    Back(VertexId, VertexId),
}

/// Writes the path from a vertex to another one that it passes, as far as the next vertex from
/// which it goes on, and leaves the rest as tasks, the first of which is the last.
fn ahead(
    labels: &[Label],
    tasks: &mut Vec<Task>,
    edges: &mut Vec<EdgeId>,
    from: VertexId,
    to: VertexId,
) -> Result<(), OutOfMemory> {
    let label = label_at(labels, from);
    if from == to || label.mate.number() == 0 {
        return Ok(());
    }
    edges.push(label.mate)?;
    if let Side::Turned = label.side {
        tasks.push(Task::Ahead(label.far, to))?;
        tasks.push(Task::Edge(label.bridge))?;
        tasks.push(Task::Back(label.near, label.partner))?;
        return Ok(());
    }
    let inner = label_at(labels, label.partner);
    edges.push(inner.edge)?;
    tasks.push(Task::Ahead(inner.parent, to))?;
    Ok(())
}

/// The same path from its end to its start.
fn back(
    labels: &[Label],
    tasks: &mut Vec<Task>,
    from: VertexId,
    to: VertexId,
) -> Result<(), OutOfMemory> {
    let label = label_at(labels, from);
    if from == to || label.mate.number() == 0 {
        return Ok(());
    }
    tasks.push(Task::Edge(label.mate))?;
    if let Side::Turned = label.side {
        tasks.push(Task::Ahead(label.near, label.partner))?;
        tasks.push(Task::Edge(label.bridge))?;
        tasks.push(Task::Back(label.far, to))?;
        return Ok(());
    }
    let inner = label_at(labels, label.partner);
    tasks.push(Task::Edge(inner.edge))?;
    tasks.push(Task::Back(inner.parent, to))?;
    Ok(())
}

/// Does a task.
fn proceed(
    labels: &[Label],
    tasks: &mut Vec<Task>,
    edges: &mut Vec<EdgeId>,
    task: Task,
) -> Result<(), OutOfMemory> {
    match task {
        Task::Edge(edge) => {
            edges.push(edge)?;
            Ok(())
        }
        Task::Ahead(from, to) => ahead(labels, tasks, edges, from, to),
        Task::Back(from, to) => back(labels, tasks, from, to),
    }
}

/// The path from a vertex to its root. A path of fewer edges than there are vertices takes fewer
/// than two tasks a vertex, so a longer one is left unfinished.
pub(crate) fn trace(
    alloc: Global,
    labels: &[Label],
    vertex: VertexId,
) -> Result<Vec<EdgeId>, OutOfMemory> {
    let mut edges = Vec::new(alloc);
    let mut tasks = Vec::new(alloc);
    tasks.push(Task::Ahead(vertex, VertexId::new(0)))?;
    for _ in 0..2 * labels.len() {
        let Some(task) = tasks.pop() else {
            return Ok(edges);
        };
        proceed(labels, &mut tasks, &mut edges, task)?;
    }
    Ok(edges)
}
