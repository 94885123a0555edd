ghost use Rattle.std.specs.Prelude.{◌≡◌, ◌≢◌, ℕ, ◌+◌, ◌<◌, ◌==◌, ◌⊎◌, true, false, [], not, length};
ghost use Rattle.std.specs.Prelude.{if◌then◌else◌};
ghost use Rattle.graph_theory.specs.Graph.{IsEdgeNumber, edge_of, ends_at};
ghost use Rattle.graph_parts.specs.Marks.{is_marked};
ghost use Rattle.graph_parts.specs.Links.{from_of, IsLink};
ghost use Rattle.graph_parts.specs.Forests.{IsLeastTogether, IsSpanningForest};
ghost use Rattle.graph_parts.specs.Flags.{IsToggled, IsBalanced};

use crate::links::Link;
use mb_base::EdgeId;
use weighted_graph::Graph;

/// Turns the mark at a place.
fn turn(marks: &mut [bool], place: usize)
    requires { place < length marks.old }
    ensures size { length marks.new ≡ length marks.old }
    ensures turned { IsToggled place marks.old marks.new }
{
    marks[place] = !marks[place];
}

/// Takes an edge, or gives it back, and turns the flags at its two ends. That at a loop is turned
/// twice, and stays.
fn switch(graph: &Graph, edge: EdgeId, flags: &mut [bool], taken: &mut [bool])
    requires edge { IsEdgeNumber graph.now edge }
    requires flags { length flags.old ≡ graph.now.vertices + 1 }
    requires taken { length taken.old ≡ length graph.now.edges + 1 }
    ensures flags { length flags.new ≡ graph.now.vertices + 1 }
    ensures taken { length taken.new ≡ length graph.now.edges + 1 }
    ensures turned { (v : ℕ) → is_marked flags.new v
        ≡ (if ends_at (edge_of graph.now edge) v == 1 then not (is_marked flags.old v)
        else is_marked flags.old v) }
    ensures balanced { (odd : ℕ → ℕ) → IsBalanced graph.now odd taken.old flags.old
        → IsBalanced graph.now odd taken.new flags.new }
{
    let (u, v, _) = graph.edge(edge);
    turn(flags, u.number() as usize);
    turn(flags, v.number() as usize);
    turn(taken, edge.number() as usize);
}

/// Carries the flag at the end of a link to its other end, if there is one.
fn carry(graph: &Graph, link: Link, flags: &mut [bool], taken: &mut [bool])
    requires link { IsLink graph.now link }
    requires flags { length flags.old ≡ graph.now.vertices + 1 }
    requires taken { length taken.old ≡ length graph.now.edges + 1 }
    ensures flags { length flags.new ≡ graph.now.vertices + 1 }
    ensures taken { length taken.new ≡ length graph.now.edges + 1 }
    ensures cleared { (v : ℕ) → is_marked flags.new v ≡ true
        → (v ≡ from_of graph.now link) ⊎ ((v ≢ link.to) × (is_marked flags.old v ≡ true)) }
    ensures balanced { (odd : ℕ → ℕ) → IsBalanced graph.now odd taken.old flags.old
        → IsBalanced graph.now odd taken.new flags.new }
{
    prove!(link.to.number() <= graph.vertices());
    if !flags[link.to.number() as usize] {
        return;
    }
    switch(graph, link.edge, flags, taken);
}

/// Carries all flags to the roots of a forest, from the last links to the first. Along each link at
/// most one is carried, and the edges that are used an odd number of times are taken.
pub(crate) fn carry_all(graph: &Graph, links: Vec<Link>, flags: &mut [bool], taken: &mut [bool])
    requires forest { IsSpanningForest graph.now links.items }
    requires flags { length flags.old ≡ graph.now.vertices + 1 }
    requires taken { length taken.old ≡ length graph.now.edges + 1 }
    requires vertices { is_marked flags.old 0 ≡ false }
    ensures flags { length flags.new ≡ graph.now.vertices + 1 }
    ensures taken { length taken.new ≡ length graph.now.edges + 1 }
    ensures roots { (v : ℕ) → is_marked flags.new v ≡ true → IsLeastTogether graph.now [] v }
    ensures balanced { (odd : ℕ → ℕ) → IsBalanced graph.now odd taken.old flags.old
        → IsBalanced graph.now odd taken.new flags.new }
{
    let mut left = links;
    while let Some(link) = left.pop() {
        carry(graph, link, flags, taken);
    }
}
