ghost use Rattle.std.specs.Prelude.{◌≡◌, ℕ, ◌+◌, ◌≤◌, ◌^◌, true, false, []};
ghost use Rattle.std.specs.Prelude.{length, if◌then◌else◌, IfOk};
ghost use Rattle.std.specs.Prelude.{OnOk};
ghost use Rattle.graph_parts.specs.Marks.{is_marked};
ghost use Rattle.graph_parts.specs.Forests.{IsLeastTogether, IsSpanningForest};
ghost use Rattle.graph_parts.specs.Flags.{IsBalanced};
ghost use Rattle.graph_parts.specs.OddParts.{IsOutcome, IsJoinOrOdd};

use crate::carrying::carry_all;
use crate::components::component;
use crate::flags::odd_flags;
use crate::forest::spanning_forest;
use crate::links::Link;
use crate::marks::{first_marked, list_taken, no_marks};
use mb_base::{OutOfMemory, Sequence, VertexId};
use mb_problem::{Instance, Join, Parity};
use std::alloc::Global;
use weighted_graph::Graph;

/// A join, or the part of the graph in which there is none.
#[derive(Drop)]
pub enum JoinOrOdd {
    /// A join of the parity that was asked for.
    Join(Join),
    /// The first component that holds an odd number of the vertices where a join has odd degree.
    OddSet(Sequence<VertexId>),
}

/// The links of a spanning forest.
fn forest_links(alloc: Global, graph: &Graph) -> Result<Vec<Link>, OutOfMemory>
    ensures { IfOk result (λ links. IsSpanningForest graph.now links.items) }
{
    let index = graph.index()?;
    spanning_forest(alloc, graph, &index)
}

/// Takes edges, such that flags are left only at the least vertices of components.
fn take_edges(alloc: Global, graph: &Graph, flags: &mut [bool]) -> Result<Vec<bool>, OutOfMemory>
    requires flags { length flags.old ≡ graph.now.vertices + 1 }
    requires vertices { is_marked flags.old 0 ≡ false }
    ensures flags { OnOk result (length flags.new ≡ graph.now.vertices + 1) }
    ensures taken { IfOk result (λ taken. length taken.items ≡ length graph.now.edges + 1) }
    ensures roots { OnOk result ((v : ℕ) → is_marked flags.new v ≡ true
        → IsLeastTogether graph.now [] v) }
    ensures balanced { IfOk result (λ taken. IsBalanced graph.now
        (λ v. if is_marked flags.old v then 1 else 0) taken.items flags.new) }
{
    let links = forest_links(alloc, graph)?;
    let mut taken = no_marks(alloc, graph.edges() as usize + 1)?;
    carry_all(graph, links, flags, &mut taken);
    Ok(taken)
}

/// The join of the edges that are taken; or, where a flag is left, the component that it stands in.
fn outcome(
    alloc: Global,
    graph: &Graph,
    flags: &[bool],
    taken: &[bool],
) -> Result<JoinOrOdd, OutOfMemory>
    requires flags { length flags.now ≡ graph.now.vertices + 1 }
    requires few_flags { length flags.now ≤ 2 ^ 32 }
    requires few_taken { length taken.now ≤ 2 ^ 32 }
    requires roots { (v : ℕ) → is_marked flags.now v ≡ true → 1 ≤ v }
    ensures { IfOk result (IsOutcome graph.now flags.now taken.now) }
{
    match first_marked(flags) {
        Some(root) => {
            let part = Sequence::from_vec(component(alloc, graph, root)?);
            Ok(JoinOrOdd::OddSet(part))
        }
        None => {
            let edges = Sequence::from_vec(list_taken(alloc, taken)?);
            Ok(JoinOrOdd::Join(Join { edges }))
        }
    }
}

/// A join of this parity: a set of edges whose degree is odd exactly if the parity asks for it; or,
/// if there is none, the first component that holds an odd number of these vertices (Schrijver,
/// Combinatorial Optimization, volume A, chapter 29). Flags at these vertices are carried to the
/// roots of a spanning forest. It takes time linear in vertices and edges.
///
/// # Errors
///
/// `OutOfMemory` if an allocation fails.
pub fn join_or_odd(
    alloc: Global,
    instance: &Instance,
    parity: &Parity,
) -> Result<JoinOrOdd, OutOfMemory>
    // For each of three parities some join; or the first component with an odd number of terminals,
    // and then there is no join.
    ensures outcome { IfOk result (IsJoinOrOdd parity.now instance.now) }
{
    let graph = instance.graph()?;
    let mut flags = odd_flags(alloc, instance, parity)?;
    let taken = take_edges(alloc, &graph, &mut flags)?;
    outcome(alloc, &graph, &flags, &taken)
}
