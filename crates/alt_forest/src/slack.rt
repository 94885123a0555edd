ghost use Rattle.std.specs.Prelude.{◌≡◌, ◌<◌, ◌≤◌, ◌+◌, ◌^◌, ℕ, ℤ, pos, neg_ℤ, ◌+ℤ◌, ◌-ℤ◌, ◌*ℤ◌};
ghost use Rattle.std.specs.Prelude.{◌≤ℤ◌, true, false, if◌then◌else◌, drop, take, length};
ghost use Rattle.std.specs.List.{AllByRecursion};
ghost use Rattle.std.specs.Option.{ForSome};
ghost use Rattle.graph_theory.specs.declared.limits.TheConstants.{GRAPH_VERTEX_LIMIT, NUMBER_LIMIT};
ghost use Rattle.graph_theory.specs.declared.limits.TheConstants.{WEIGHT_LIMIT};
ghost use Rattle.graph_theory.specs.Graph.{IsEdgeNumber, IsEdgeWithin, IsWeight, edge_of, is_loop};
ghost use Rattle.graph_theory.specs.Duals.{slack};
ghost use Rattle.graph_theory.specs.Duals.{IsNumber};
ghost use Rattle.blossom_arena.specs.Family.{is_node, is_vertex, dual_at};
ghost use Rattle.blossom_arena.specs.Slack.{duals_across, vertex_duals, sets_of};
ghost use Rattle.alt_forest.specs.State.{slack_by, slack_of};
ghost use Rattle.alt_forest.specs.Searches.{HasShape, IsSound, state_of, is_given};
ghost use Rattle.alt_forest.specs.Chains.{apart, dual_of, holders, total_of, weighed};

use crate::meet::is_found;
use crate::search::Search;
use crate::weights::Weights;
use base_types::{EdgeId, Steps, VertexId};
use blossom_arena::{Arena, Chain, NodeId};
use graph_theory::{Edge, GRAPH_VERTEX_LIMIT, NUMBER_LIMIT, WEIGHT_LIMIT};
use std::sync::ledger::Ledger;
use weighted_graph::Graph;

/// How many nodes a chain has.
fn count(chain: Chain<'_>) -> u32
    requires { length chain < 2 ^ 32 }
    ensures { result ≡ length chain.entry }
{
    let mut nodes = 0;
    for _ in chain {
        nodes += 1;
    }
    nodes
}

/// A chain without its first nodes.
fn shortened(chain: Chain<'_>, nodes: u32) -> Chain<'_>
    ensures { result ≡ drop nodes chain.entry }
{
    let mut rest = chain;
    for _ in 0..nodes {
        rest.next();
    }
    rest
}

/// How many places come before the first one where two chains of one length have the same node.
fn apart(left: Chain<'_>, right: Chain<'_>) -> u32
    requires size_limit { length left < 2 ^ 32 }
    requires level { length left ≡ length right }
    ensures { result ≡ apart left.entry right.entry }
{
    let mut other = right;
    let mut nodes = 0;
    for node in left {
        if is_found(other.next(), node) {
            return nodes;
        }
        nodes += 1;
    }
    nodes
}

/// The dual of a node, or 0 if there is none.
fn dual_or_zero(arena: &Arena, node: Option<NodeId>) -> i64
    requires { ForSome node (λ a. is_node arena.now.vertex_count arena.now.blossoms a ≡ true) }
    ensures dual { result ≡ dual_of (dual_at arena.now.duals) node }
    ensures in_range { IsNumber result }
{
    match node {
        Some(node) => arena.dual(node),
        None => 0,
    }
}

/// The duals of the first nodes of a chain, added up.
fn total(arena: &Arena, chain: Chain<'_>, nodes: u32) -> i128
    requires nodes { AllByRecursion (λ a. is_node arena.now.vertex_count arena.now.blossoms a
        ≡ true) chain }
    requires size_limit { nodes ≤ GRAPH_VERTEX_LIMIT }
    ensures total { result ≡ total_of (dual_at arena.now.duals) (take nodes chain.entry) }
    ensures low { neg_ℤ (NUMBER_LIMIT *ℤ pos nodes) ≤ℤ result }
    ensures high { result ≤ℤ (NUMBER_LIMIT *ℤ pos nodes) }
{
    let mut rest = chain;
    let mut sum = 0i128;
    for _ in 0..nodes {
        sum += i128::from(dual_or_zero(arena, rest.next()));
    }
    sum
}

/// How many nodes hold the one end of an edge alone, and how many the other end alone. A node that
/// holds both comes in the two chains at one place from their ends, and so do all nodes after it.
fn holder_counts(arena: &Arena, edge: &Edge) -> (u32, u32)
    requires ends { IsEdgeWithin arena.now.vertex_count edge.now }
    requires loopless { is_loop edge.now ≡ false }
    ensures u { result.0 ≡ length (holders arena.now.blossoms edge.now.u edge.now.v) }
    ensures v { result.1 ≡ length (holders arena.now.blossoms edge.now.v edge.now.u) }
    ensures size_limit { result.0 + result.1 ≤ GRAPH_VERTEX_LIMIT }
{
    let left = count(arena.chain(edge.u));
    let right = count(arena.chain(edge.v));
    let more = left.saturating_sub(right);
    let less = right.saturating_sub(left);
    let both = apart(
        shortened(arena.chain(edge.u), more),
        shortened(arena.chain(edge.v), less),
    );
    (more + both, less + both)
}

/// The duals of the nodes that hold exactly one end of an edge, added up along the chains of its
/// two ends.
fn duals_along(arena: &Arena, edge: &Edge) -> i128
    requires ends { IsEdgeWithin arena.now.vertex_count edge.now }
    requires loopless { is_loop edge.now ≡ false }
    ensures duals_across { result ≡ duals_across (dual_at arena.now.duals) arena.now.blossoms
        edge.now }
    ensures low { neg_ℤ (NUMBER_LIMIT *ℤ pos GRAPH_VERTEX_LIMIT) ≤ℤ result }
    ensures high { result ≤ℤ (NUMBER_LIMIT *ℤ pos GRAPH_VERTEX_LIMIT) }
{
    let (u, v) = holder_counts(arena, edge);
    total(arena, arena.chain(edge.u), u) + total(arena, arena.chain(edge.v), v)
}

/// The duals of the nodes that hold exactly one end of an edge, added up: where no blossom holds
/// both ends, all that hold either.
fn duals_across(arena: &Arena, edge: &Edge) -> i128
    requires ends { IsEdgeWithin arena.now.vertex_count edge.now }
    requires loopless { is_loop edge.now ≡ false }
    ensures duals_across { result ≡ duals_across (dual_at arena.now.duals) arena.now.blossoms
        edge.now }
    ensures low { neg_ℤ (NUMBER_LIMIT *ℤ pos GRAPH_VERTEX_LIMIT) ≤ℤ result }
    ensures high { result ≤ℤ (NUMBER_LIMIT *ℤ pos GRAPH_VERTEX_LIMIT) }
{
    if arena.outermost(edge.u).number() == arena.outermost(edge.v).number() {
        return duals_along(arena, edge);
    }
    arena.dual_sum(edge.u) + arena.dual_sum(edge.v)
}

/// Twice a weight, or 0 in the pass without weights.
pub fn doubled(weights: Weights, w: i64) -> i64
    requires { IsWeight w }
    ensures doubled { result ≡ if is_given weights then pos 2 *ℤ w else pos 0 }
    ensures low { neg_ℤ (pos 2 *ℤ WEIGHT_LIMIT) ≤ℤ result }
    ensures high { result ≤ℤ (pos 2 *ℤ WEIGHT_LIMIT) }
{
    match weights {
        Weights::Zero => 0,
        Weights::Given => 2 * w,
    }
}

impl Search {
    /// The slack of an edge that isn't a loop, whose ends and weight are at hand (chapter 26):
    /// twice its weight, or 0 in the pass without weights, less the duals of the nodes that hold
    /// exactly one of its ends. It looks at no edge, and takes time linear in the nodes that hold
    /// the two ends and no memory.
    pub fn slack_by(&self, edge: &Edge) -> i128
        requires shape { HasShape self.now }
        requires ends { IsEdgeWithin self.now.graph.vertices edge.now }
        requires loopless { is_loop edge.now ≡ false }
        requires weight { IsWeight edge.now.w }

        // The same slack if the ends and the weight are known; it counts no step.
        ensures slack { result ≡ slack_by (is_given self.now.weights) (dual_at self.now.arena.duals)
            self.now.arena.blossoms edge.now }
        ensures same { (e : ℕ) → edge_of self.now.graph e ≡ edge.now
            → result ≡ slack_of (state_of self.now) e }
        ensures high { result ≤ℤ (NUMBER_LIMIT *ℤ pos (GRAPH_VERTEX_LIMIT + 1)) }
    {
        i128::from(doubled(self.weights, edge.w)) - duals_across(&self.arena, edge)
    }

    /// The slack of an edge, by one look at it. It takes time linear in the nodes that hold the two
    /// ends and no memory.
    pub fn slack<L: Ledger>(&self, graph: &Graph, e: EdgeId, steps: &mut Steps<L>) -> i128
        requires sound { IsSound self.now }
        requires graph { graph.now ≡ self.now.graph }
        requires edge { IsEdgeNumber graph.now e }

        // The slack that the search computes is that of certificates, for one counted inspection.
        ensures slack { result ≡ slack_of (state_of self.now) e }
        ensures certificate { result ≡ slack (vertex_duals graph.now.vertices self.now.arena.duals)
            (sets_of self.now.arena.duals self.now.arena.blossoms)
            (weighed self.now.weights (edge_of graph.now e)) }
        ensures step { steps.new ≡ steps.old + 1 }
    {
        let (u, v, w) = graph.look(e, steps);
        self.slack_by(&Edge { u, v, w })
    }
}
