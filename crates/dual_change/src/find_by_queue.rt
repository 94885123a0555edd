ghost use Rattle.std.specs.Prelude.{◌≡◌, ◌≢◌, ◌⊎◌, ◌↔◌, ◌<◌, ◌≤◌, ◌+◌, ℕ, ℤ, pos, ◌+ℤ◌, ◌≤ℤ◌, true};
ghost use Rattle.std.specs.Prelude.{false, None, Some};
ghost use Rattle.graph_theory.specs.Graph.{IsEdgeNumber};
ghost use Rattle.graph_theory.specs.Parts.{holds};
ghost use Rattle.blossom_arena.specs.Family.{names_of};
ghost use Rattle.search_heap.specs.declared.item.Item.{Item};
ghost use Rattle.search_heap.specs.Moments.{moment_of, IsLeast};
ghost use Rattle.blossom_arena.specs.declared.label.Label.TheVariants.{Outer, Inner, Out};
ghost use Rattle.alt_forest.specs.Searches.{HasShape, IsSound, state_of, label_at};
ghost use Rattle.alt_forest.specs.State.{IsOutermost};
ghost use Rattle.alt_forest.specs.Counts.{IsPlanted};
ghost use Rattle.alt_forest.specs.Entries.{NeedsMoment, IsQueued, entry_count};
ghost use Rattle.alt_forest.specs.TreeNodes.{HasTreeNodes};
ghost use Rattle.dual_change.specs.declared.event.Next.TheVariants.{Stuck};
ghost use Rattle.dual_change.specs.Changes.{IsNext, IsNextWithin, edge_looks};
ghost use Rattle.dual_change.specs.Candidates.{IsEdgeBetween, IsCandidate, IsDue, ComesAt, IsStale};
ghost use Rattle.dual_change.specs.Candidates.{item_looks, entries_left};

use crate::event::Next;
use alt_forest::{Item, Label, Search};
use base_types::{EdgeId, Steps};
use blossom_arena::NodeId;
use std::sync::ledger::Ledger;
use weighted_graph::Graph;

/// How far a moment lies ahead of the clock.
fn ahead(clock: i64, moment: i128) -> i128
    requires low { pos 0 ≤ℤ clock }
    requires later { clock ≤ℤ moment }
    ensures { (clock +ℤ result) ≡ moment }
{
    moment - i128::from(clock)
}

/// Whether something comes.
pub(crate) fn comes(next: &Next) -> bool
    ensures { (result ≡ false) ↔ (next.now ≡ Stuck) }
{
    match next {
        Next::Stuck => false,
        _ => true,
    }
}

/// What an edge between two different outer nodes lets come at its moment: a blossom is shrunk
/// where both are in one tree, else the matching is augmented.
fn between(search: &Search, e: EdgeId, one: NodeId, other: NodeId, moment: i128) -> Next
    requires sound { IsSound search.now }
    requires listed { HasTreeNodes search.now }
    requires ends { IsEdgeBetween search.now e one other }
    requires different { one ≢ other }
    requires one_outer { label_at search.now.labels.items one ≡ Outer }
    requires other_outer { label_at search.now.labels.items other ≡ Outer }
    requires low { pos 0 ≤ℤ search.now.clock }
    requires entered { NeedsMoment (state_of search.now) search.now.clock e (Some moment) }
    ensures candidate { IsCandidate (state_of search.now) result }
    ensures comes { ComesAt search.now.clock moment result }
    ensures not_stuck { result ≢ Stuck }
    ensures inspections { edge_looks result ≡ 1 }
{
    let d = ahead(search.clock, moment);
    if search.root(one).number() == search.root(other).number() {
        return Next::Shrink(e, d);
    }
    Next::Augment(e, d)
}

/// What an edge from an outer node to one labelled out lets come at its moment: the tree grows.
fn outward(search: &Search, e: EdgeId, near: NodeId, far: NodeId, moment: i128) -> Next
    requires sound { IsSound search.now }
    requires all_rooted { IsPlanted (state_of search.now) }
    requires ends { IsEdgeBetween search.now e near far }
    requires outer { label_at search.now.labels.items near ≡ Outer }
    requires out { label_at search.now.labels.items far ≡ Out }
    requires low { pos 0 ≤ℤ search.now.clock }
    requires entered { NeedsMoment (state_of search.now) search.now.clock e (Some moment) }
    ensures candidate { IsCandidate (state_of search.now) result }
    ensures comes { ComesAt search.now.clock moment result }
    ensures not_stuck { result ≢ Stuck }
    ensures inspections { edge_looks result ≡ 1 }
{
    Next::Grow(e, ahead(search.clock, moment))
}

/// The outermost nodes that hold the two ends of an edge, by one look at it.
fn nodes_at<L: Ledger>(
    search: &Search,
    graph: &Graph,
    e: EdgeId,
    steps: &mut Steps<L>,
) -> (NodeId, NodeId)
    requires shape { HasShape search.now }
    requires same_graph { graph.now ≡ search.now.graph }
    requires edge { IsEdgeNumber graph.now e }
    ensures ends { IsEdgeBetween search.now e result.0 result.1 }
    ensures step { steps.new ≡ steps.old + 1 }
{
    let (u, v, _) = graph.look(e, steps);
    (search.arena.outermost(u), search.arena.outermost(v))
}

/// What an edge lets come at its moment, by one look at it. Where its ends are such that it needs
/// no moment, the entry is stale and nothing comes.
pub(crate) fn by_edge<L: Ledger>(
    search: &Search,
    graph: &Graph,
    e: EdgeId,
    moment: i128,
    steps: &mut Steps<L>,
) -> Next
    requires sound { IsSound search.now }
    requires same_graph { graph.now ≡ search.now.graph }
    requires listed { HasTreeNodes search.now }
    requires all_rooted { IsPlanted (state_of search.now) }
    requires edge { IsEdgeNumber graph.now e }
    requires low { pos 0 ≤ℤ search.now.clock }
    requires entered { NeedsMoment (state_of search.now) search.now.clock e (Some moment) }
    ensures candidate { IsCandidate (state_of search.now) result }
    ensures comes { ComesAt search.now.clock moment result }
    ensures stale { result ≡ Stuck → NeedsMoment (state_of search.now) search.now.clock e None }
    ensures inspections { result ≢ Stuck → edge_looks result ≡ 1 }
    ensures step { steps.new ≡ steps.old + 1 }
{
    let (one, other) = nodes_at(search, graph, e, steps);
    if one.number() == other.number() {
        return Next::Stuck;
    }
    match (search.label(one), search.label(other)) {
        (Label::Outer, Label::Outer) => between(search, e, one, other, moment),
        (Label::Outer, Label::Out) => outward(search, e, one, other, moment),
        (Label::Out, Label::Outer) => outward(search, e, other, one, moment),
        _ => Next::Stuck,
    }
}

/// What a blossom lets come: an inner one is expanded once its dual is 0. The entry of any other
/// node is stale.
pub(crate) fn by_blossom(search: &Search, b: NodeId) -> Next
    requires sound { IsSound search.now }
    ensures candidate { IsCandidate (state_of search.now) result }
    ensures comes { (moment : ℤ) → IsDue (state_of search.now) search.now.clock b moment
        → ComesAt search.now.clock moment result }
    ensures stale { result ≡ Stuck → holds (names_of search.now.arena.blossoms) b ≡ true
        → IsOutermost (state_of search.now) b → label_at search.now.labels.items b ≢ Inner }
    ensures inspections { edge_looks result ≡ 0 }
{
    if !search.arena.is_blossom(b) {
        return Next::Stuck;
    }
    if !search.arena.is_outermost(b) {
        return Next::Stuck;
    }
    match search.label(b) {
        Label::Inner => Next::Expand(b, i128::from(search.arena.dual(b))),
        _ => Next::Stuck,
    }
}

/// What an item of the queue lets come at its moment, if its entry isn't stale.
fn by_item<L: Ledger>(
    search: &Search,
    graph: &Graph,
    item: &Item,
    moment: i128,
    steps: &mut Steps<L>,
) -> Next
    requires sound { IsSound search.now }
    requires event_times { IsQueued search.now }
    requires same_graph { graph.now ≡ search.now.graph }
    requires listed { HasTreeNodes search.now }
    requires all_rooted { IsPlanted (state_of search.now) }
    requires has { moment_of search.now.queue item.now ≡ Some moment }
    ensures candidate { IsCandidate (state_of search.now) result }
    ensures comes { ComesAt search.now.clock moment result }
    ensures stale { result ≡ Stuck → IsStale (state_of search.now) search.now.clock item.now }
    ensures inspections { result ≢ Stuck → edge_looks result ≡ item_looks item.now }
    ensures step { steps.new ≡ steps.old + item_looks item.now }
{
    match item {
        Item::Edge(e) => by_edge(search, graph, *e, moment, steps),
        Item::Blossom(b) => by_blossom(search, *b),
    }
}

/// An item whose moment is least, and its moment.
fn earliest(search: &Search) -> Option<(Item, i128)>
    ensures { IsLeast search.now.queue result }
{
    search.queue.least()
}

/// Drops a stale entry.
fn drop_entry(search: &mut Search, item: Item)
    requires sound { IsSound search.old }
    requires event_times { IsQueued search.old }
    requires has { (moment : ℤ) × (moment_of search.old.queue item ≡ Some moment) }
    requires stale { IsStale (state_of search.old) search.old.clock item }
    ensures frame { search.new ≡ record search.old { queue = search.new.queue } }
    ensures sound { IsSound search.new }
    ensures event_times { IsQueued search.new }
    ensures drops { (other : Item)
        → (moment_of search.new.queue other ≡ moment_of search.old.queue other)
        ⊎ (moment_of search.new.queue other ≡ None) }
    ensures left { entries_left search.new.queue < entries_left search.old.queue }
    ensures count { entry_count search.new.queue + item_looks item ≤ entry_count search.old.queue }
{
    search.queue.remove(item);
}

/// What comes next, with the least change of duals that makes it possible (chapter 26), in a forest
/// that has every exposed node as a root: an edge from an outer node to one labelled out may become
/// tight, so that the tree grows; an edge between two outer nodes may, so that a blossom is shrunk
/// where they are in one tree, and else the matching is augmented; or the dual of an inner blossom
/// comes to 0, so that it is expanded. The change for an edge between outer nodes is half of its
/// slack, which is even. It answers `Stuck` where no change makes any of these possible. The graph
/// is the one that the search was made for. It takes the least moments from the queue, drops
/// entries that no edge or blossom needs any more, enters none, and looks once at each edge whose
/// entry it takes, which is all that it counts. The entry of what comes stays. It takes no memory.
pub fn find<L: Ledger>(search: &mut Search, graph: &Graph, steps: &mut Steps<L>) -> Next
    requires sound { IsSound search.old }
    requires event_times { IsQueued search.old }
    requires same_graph { graph.now ≡ search.old.graph }
    requires listed { HasTreeNodes search.old }
    requires all_rooted { IsPlanted (state_of search.old) }

    // The least change of the duals that makes an event possible, and that event, or that no change
    // does.
    ensures found { IsNext (state_of search.new) result }
    ensures within { IsNextWithin (state_of search.new) result }
    ensures frame { search.new ≡ record search.old { queue = search.new.queue } }
    ensures sound { IsSound search.new }

    // Each item keeps its event time or loses it.
    ensures event_times { IsQueued search.new }
    ensures drops { (item : Item)
        → (moment_of search.new.queue item ≡ moment_of search.old.queue item)
        ⊎ (moment_of search.new.queue item ≡ None) }
    ensures listed { HasTreeNodes search.new }
    ensures all_rooted { IsPlanted (state_of search.new) }

    // At most one inspection of the event's edge and of each edge whose time is taken from the
    // queue, and at least one if the event has an edge.
    ensures count { entry_count search.new.queue + steps.new ≤ entry_count search.old.queue
        + steps.old + edge_looks result }
    ensures look { steps.old + edge_looks result ≤ steps.new }
{
    while let Some((item, moment)) = earliest(search) {
        let next = by_item(search, graph, &item, moment, steps);
        if comes(&next) {
            return next;
        }
        drop_entry(search, item);
    }
    Next::Stuck
}
