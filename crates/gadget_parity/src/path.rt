ghost use Rattle.std.specs.Prelude.{◌≡◌, ℕ, ◌+◌, ◌*◌, ◌<◌, ◌≤◌, ◌≤ℤ◌, ◌&&◌, not, length, All};
ghost use Rattle.std.specs.Prelude.{IfOk};
ghost use Rattle.graph_theory.specs.Graph.{IsEdgeWithin, is_loop};
ghost use Rattle.graph_theory.specs.Walk.{walk_weight};
ghost use Rattle.mb_problem.specs.Feasible.{IsFeasible, IsWalkWith, weight_of};
ghost use Rattle.mb_problem.specs.Network.{IsNetwork, vertices, plain};
ghost use Rattle.mb_problem.specs.Ready.{HasEnds, HasWeightsFromZero};
ghost use Rattle.mb_problem.specs.Size.{in_first, in_second};
ghost use Rattle.gadget_base.specs.Blocks.{tabled};
ghost use Rattle.gadget_base.specs.Certified.{gadget_graph, IsPerfectList};
ghost use Rattle.gadget_parity.specs.Copies.{takes_one, ListsSingles};
ghost use Rattle.gadget_parity.specs.Numbers.{is_marked};
ghost use Rattle.gadget_parity.specs.Sides.{path_kind};

use conservative_paths::path_in;
use gadget_tjoin::marked;
use mb_base::{EdgeId, OutOfMemory, Sequence};
use mb_problem::{Answer, Instance, InstanceEdge, Join, VERTEX_LIMIT, ends, mark_sides, marks_of};
use std::alloc::Global;

/// Whether an edge has a copy where these vertices stand: it isn't a loop, and both of its ends do.
fn has_copy(edge: &InstanceEdge, there: &[bool]) -> bool
    requires { IsEdgeWithin (length there.now) (plain edge.now) }
    ensures { result ≡ (not (is_loop (plain edge.now))
        && (is_marked there.now edge.now.u && is_marked there.now edge.now.v)) }
{
    let u = there[edge.u.number() as usize - 1];
    let v = there[edge.v.number() as usize - 1];
    edge.u != edge.v && u && v
}

/// Whether there is a copy, and the mark at its place.
fn is_taken(copy: bool, listed: &[bool], place: usize) -> bool
    requires { place < length listed.now }
    ensures { result ≡ (copy && is_marked listed.now (place + 1)) }
{
    copy && listed[place]
}

/// For each edge whether exactly one of its copies is listed: the marks of the copies stand in the
/// order of the edges, that of the first copy before that of the second.
fn singles(
    alloc: Global,
    instance: &Instance,
    first: &[bool],
    second: &[bool],
    listed: &[bool],
) -> Result<Vec<bool>, OutOfMemory>
    requires first { vertices instance.now ≤ length first.now }
    requires second { vertices instance.now ≤ length second.now }
    requires room { 2 * length instance.now.edges ≤ length listed.now }
    ensures { IfOk result (λ marks. marks.items ≡ tabled (takes_one (is_marked first.now)
        (is_marked second.now) instance.now (is_marked listed.now))
        (length instance.now.edges)) }
{
    let mut marks = Vec::with_capacity(alloc, instance.edges() as usize)?;
    let mut place = 0;
    for edge in instance.edge_list() {
        let one = has_copy(edge, first);
        let two = has_copy(edge, second);
        let next = place + usize::from(one);
        marks.push(is_taken(one, listed, place) != is_taken(two, listed, next))?;
        place = next + usize::from(two);
    }
    Ok(marks)
}

/// The edges of which exactly one copy is listed.
fn single_join(
    alloc: Global,
    instance: &Instance,
    odd: bool,
    edges: &[EdgeId],
) -> Result<Join, OutOfMemory>
    requires numbers { All (λ e. 1 ≤ e) edges.now }
    ensures singles { IfOk result (λ join. ListsSingles (in_first odd instance.now)
        (in_second odd instance.now) instance.now edges.now join.edges) }
    ensures network { IsNetwork instance.now }
{
    let room = 2 * instance.edges();
    let mut first = [false; VERTEX_LIMIT as usize];
    let mut second = [false; VERTEX_LIMIT as usize];
    mark_sides(instance, odd, &mut first, &mut second);
    let listed = marks_of(alloc, room, edges)?;
    let singles = singles(alloc, instance, &first, &second, &listed)?;
    let edges = Sequence::from_vec(marked(alloc, &singles)?);
    Ok(Join { edges })
}

/// The path that a perfect matching of the graph of `parity` stands for, given as the numbers of
/// its edges, from the lesser of the two ends (Schrijver, Combinatorial Optimization, volume A,
/// chapter 29). The edges of the instance of which exactly one copy is matched are a join at the
/// two ends; a path within it takes the two copies in turn, so that it has the parity, and weighs
/// no more than the matching where no edge weighs less than 0. It takes time linear in the instance
/// and the matching.
///
/// # Errors
///
/// `OutOfMemory` if an allocation fails.
pub fn extract(
    alloc: Global,
    instance: &Instance,
    odd: bool,
    edges: &[EdgeId],
) -> Result<Answer, OutOfMemory>
    requires ends { HasEnds instance.now }
    requires weights { HasWeightsFromZero instance.now }
    requires perfect { IsPerfectList (gadget_graph (path_kind odd) instance.now) edges.now }

    // A path of the parity asked for between the two ends, of at most the matching's weight, if no
    // edge weight is negative.
    ensures feasible { IfOk result (IsFeasible (path_kind odd) instance.now) }
    ensures size_limit { IfOk result (IsWalkWith (λ start steps. length steps
        ≤ length instance.now.edges) ⊥) }
    ensures weighs { IfOk result (λ a. weight_of (path_kind odd) instance.now a
        ≤ℤ walk_weight (gadget_graph (path_kind odd) instance.now) edges.now) }
{
    let join = single_join(alloc, instance, odd, edges)?;
    let (s, t) = ends(instance);
    let answer = path_in(alloc, instance, &join, s, t)?;
    Ok(answer)
}
