ghost use Rattle.std.specs.Prelude.{◌≡◌, ℕ, ◌+◌, ◌-◌, ◌*◌, ◌/◌, ◌<◌, ◌≤◌, ◌^◌, ◌++◌, length};
ghost use Rattle.std.specs.Prelude.{OnOk, OnErr};
ghost use Rattle.graph_theory.specs.Graph.{IsGraph, IsWeight};
ghost use Rattle.gadget_base.specs.Added.{AddsFirst};
ghost use Rattle.gadget_base.specs.Blocks.{row, rectangle, clique};

use mb_base::{OutOfMemory, VertexId};
use weighted_graph::Graph;

/// Adds an edge of weight `w` from vertex `u` to each of the `count` vertices after `before`, which
/// are the numbers from `before + 1` on. After `OutOfMemory` the first of these edges have been
/// added, fewer than all.
pub fn add_row(
    graph: &mut Graph,
    u: u32,
    before: u32,
    count: u32,
    w: i64,
) -> Result<(), OutOfMemory>
    requires u_low { 1 ≤ u }
    requires u_high { u ≤ graph.old.vertices }
    requires inside { before + count ≤ graph.old.vertices }
    requires room { length graph.old.edges + count < 2 ^ 32 }
    requires weight { IsWeight w }

    // Edges are added exactly as named; if memory runs out a first part of them is there.
    ensures added { OnOk result (graph.new ≡ record graph.old {
      edges = graph.old.edges
          ++ row u before count w;
    }) }
    ensures cut_short { OnErr result (AddsFirst graph.old graph.new (row u before count w)) }
    ensures graph { IsGraph graph.new }
{
    prove!(graph.vertices() >= before + count);
    for j in 0..count {
        graph.add(VertexId::new(u), VertexId::new(before + j + 1), w)?;
    }
    Ok(())
}

/// Adds an edge of weight `w` from each of the `m` vertices after `first` to each of the `n`
/// vertices after `second`, row by row. After `OutOfMemory` the first of these edges have been
/// added, fewer than all.
pub fn add_rectangle(
    graph: &mut Graph,
    first: u32,
    m: u32,
    second: u32,
    n: u32,
    w: i64,
) -> Result<(), OutOfMemory>
    requires first_inside { first + m ≤ graph.old.vertices }
    requires second_inside { second + n ≤ graph.old.vertices }
    requires room { length graph.old.edges + m * n < 2 ^ 32 }
    requires weight { IsWeight w }

    // Edges between two blocks, exactly as named, under the same rule.
    ensures added { OnOk result (graph.new ≡ record graph.old {
      edges = graph.old.edges
          ++ rectangle first m second n w;
    }) }
    ensures cut_short { OnErr result
        (AddsFirst graph.old graph.new (rectangle first m second n w)) }
    ensures graph { IsGraph graph.new }
{
    prove!(graph.vertices() >= first + m);
    for a in 0..m {
        add_row(graph, first + a + 1, second, n, w)?;
    }
    Ok(())
}

/// Adds an edge of weight `w` between any two of the `n` vertices after `before`, the lesser end
/// first and slowest. After `OutOfMemory` the first of these edges have been added, fewer than all.
pub fn add_clique(graph: &mut Graph, before: u32, n: u32, w: i64) -> Result<(), OutOfMemory>
    requires inside { before + n ≤ graph.old.vertices }
    requires room { length graph.old.edges + n * (n - 1) / 2 < 2 ^ 32 }
    requires weight { IsWeight w }

    // Edges between all pairs of a block, exactly as named, under the same rule.
    ensures added { OnOk result (graph.new ≡ record graph.old {
      edges = graph.old.edges
          ++ clique before n w;
    }) }
    ensures cut_short { OnErr result (AddsFirst graph.old graph.new (clique before n w)) }
    ensures graph { IsGraph graph.new }
{
    prove!(graph.vertices() >= before + n);
    for a in 0..n {
        add_row(graph, before + a + 1, before + a + 1, n - 1 - a, w)?;
    }
    Ok(())
}
