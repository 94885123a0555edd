use dimacs_read::read;
use graph_parts::{JoinOrOdd, edge_connected, join_or_odd};
use mb_base::OutOfMemory;
use mb_problem::{Answer, Instance, Kind, Parity};
use postman_walk::closed_walk;
use std::alloc::Global;

/// How many edges the walk has, where all edges lie in one component. It is found so often; 0 times
/// give 0.
fn steps(alloc: Global, instance: &Instance, times: u32) -> Result<Option<usize>, OutOfMemory> {
    let graph = instance.graph()?;
    if !edge_connected(alloc, &graph)? {
        return Ok(None);
    }
    let JoinOrOdd::Join(join) = join_or_odd(alloc, instance, &Parity::OddDegrees)? else {
        return Ok(None);
    };
    let mut steps = 0;
    for _ in 0..times {
        if let Answer::Walk { edges, .. } = closed_walk(alloc, instance, &join)? {
            steps = edges.len();
        }
    }
    Ok(Some(steps))
}

/// Reads an instance of kind `postman`, finds the closed walk of its edges and a join so often, and
/// answers how many edges the walk has.
pub fn run(alloc: Global, bytes: &[u8], times: u32) -> Option<Vec<u8>> {
    let (instance, _) = read(alloc, bytes, Kind::Postman).ok()?;
    let steps = steps(alloc, &instance, times).ok()??;
    let text = format!(in alloc; "{steps}\n").ok()?;
    Some(text.into_bytes())
}
