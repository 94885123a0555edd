ghost use Rattle.std.specs.Prelude.{◌≡◌, ◌≢◌, ◌⊎◌, ◌+◌, ◌*◌, ◌≤◌, ◌++◌, ◌∷◌, [], ℕ, ℤ, pos, ◌+ℤ◌};
ghost use Rattle.std.specs.Prelude.{◌*ℤ◌, ◌≤ℤ◌, true, false, ◌==◌, if◌then◌else◌, All, Option};
ghost use Rattle.std.specs.Prelude.{Some};
ghost use Rattle.std.specs.Prelude.{length, vec_len};
ghost use Rattle.std.specs.Vec.{vec_capacity};
ghost use Rattle.graph_theory.specs.Graph.{IsEdgeNumber, edge_of, edges_around, touches};
ghost use Rattle.graph_theory.specs.Parts.{holds};
ghost use Rattle.graph_theory.specs.declared.limits.TheConstants.{NUMBER_LIMIT, GRAPH_VERTEX_LIMIT};
ghost use Rattle.blossom_arena.specs.Family.{is_node, is_vertex, members_of, names_of, outermost};
ghost use Rattle.search_heap.specs.declared.item.Item.TheVariants.{Edge as OfEdge};
ghost use Rattle.search_heap.specs.declared.item.Item.TheVariants.{Blossom as OfBlossom};
ghost use Rattle.search_heap.specs.Moments.{IsItem, moment_of, with_moment};
ghost use Rattle.blossom_arena.specs.declared.label.Label.TheVariants.{Inner};
ghost use Rattle.alt_forest.specs.State.{IsOutermost, slack_of};
ghost use Rattle.search_tables.specs.IncidentEdges.{LeadsTo, IsIncidentEdge};
ghost use Rattle.alt_forest.specs.Ends.{IsNear};
ghost use Rattle.alt_forest.specs.Searches.{HasShape, IsSound, state_of, label_at};
ghost use Rattle.alt_forest.specs.Entries.{NeedsMoment, IsEntered, IsBlossomEntered, IsQueued};
ghost use Rattle.alt_forest.specs.Entries.{IsQueuedBut, entry_count, ends_around, ends_looked};
ghost use Rattle.alt_forest.specs.Entries.{touches_any};

use crate::search::Search;
use crate::slack::doubled;
use base_types::{Steps, VertexId};
use blossom_arena::{Label, Members, NodeId};
use graph_theory::{GRAPH_VERTEX_LIMIT, NUMBER_LIMIT};
use search_heap::{EdgeQueue, Item};
use search_tables::IncidentEdge;
use std::sync::ledger::Ledger;
use weighted_graph::Graph;

/// What is at hand of a vertex while the edges at it are looked at: the outermost node that holds
/// it, how that one is labelled, the vertex that is kept for it, or 0, and the duals of all nodes
/// that hold the vertex, added up.
#[derive(Clone, Copy)]
struct Near {
    vertex: VertexId,
    node: NodeId,
    label: Label,
    tree_id: u32,
    dual_sum: i128,
}

/// Half of a nonnegative even number.
fn half(twice: i128) -> i128
    requires low { pos 0 ≤ℤ twice }
    ensures half { (x : ℤ) → twice ≡ x +ℤ x → result ≡ x }
    ensures least { pos 0 ≤ℤ result }
    ensures most { result ≤ℤ twice }
{
    twice / 2
}

/// The clock at which so much slack, or so much of a dual, is used up.
fn moment_after(search: &Search, left: i128) -> i128
    requires low { pos 0 ≤ℤ search.now.clock }
    requires high { search.now.clock ≤ℤ NUMBER_LIMIT }
    requires left_low { pos 0 ≤ℤ left }
    requires left_high { left ≤ℤ (NUMBER_LIMIT *ℤ pos (2 * GRAPH_VERTEX_LIMIT + 1)) }
    ensures { result ≡ search.now.clock +ℤ left }
{
    i128::from(search.clock) + left
}

/// The slack of an edge to another outermost node: no blossom holds both its ends, so the duals of
/// all nodes that hold either of them count.
fn slack_to(search: &Search, near: &Near, incident: &IncidentEdge) -> i128
    requires sound { IsSound search.now }
    requires near { IsNear (state_of search.now) near.now }
    requires incident { IsIncidentEdge search.now.graph near.now.vertex incident.now }
    requires apart { outermost search.now.arena.blossoms incident.now.far ≢ near.now.node }
    ensures slack { result ≡ slack_of (state_of search.now) incident.now.edge }
    ensures low { pos 0 ≤ℤ result }
    ensures high { result ≤ℤ (NUMBER_LIMIT *ℤ pos (2 * GRAPH_VERTEX_LIMIT + 1)) }
{
    i128::from(doubled(search.weights, incident.weight))
        - (near.dual_sum + search.arena.dual_sum(incident.far))
}

/// The moment that an edge needs in the queue, if it needs one, where the outermost node at its far
/// end and the label of that one are known. Where it needs none its slack isn't taken.
fn moment_for(
    search: &Search,
    near: &Near,
    incident: &IncidentEdge,
    node: NodeId,
    label: Label,
) -> Option<i128>
    requires sound { IsSound search.now }
    requires low { pos 0 ≤ℤ search.now.clock }
    requires high { search.now.clock ≤ℤ NUMBER_LIMIT }
    requires near { IsNear (state_of search.now) near.now }
    requires incident { IsIncidentEdge search.now.graph near.now.vertex incident.now }
    requires node { node ≡ outermost search.now.arena.blossoms incident.now.far }
    requires label { label ≡ label_at search.now.labels.items node }
    ensures moment { NeedsMoment (state_of search.now) search.now.clock incident.now.edge result }
{
    if node.number() == near.node.number() {
        return None;
    }
    match (near.label, label) {
        (Label::Outer, Label::Outer) => {
            Some(moment_after(search, half(slack_to(search, near, incident))))
        }
        (Label::Outer, Label::Out) => Some(moment_after(search, slack_to(search, near, incident))),
        (Label::Out, Label::Outer) => Some(moment_after(search, slack_to(search, near, incident))),
        _ => None,
    }
}

/// The vertex that is kept for a node, or 0.
fn tree_id_number(search: &Search, node: NodeId) -> u32 {
    match search.tree_id(node) {
        Some(v) => v.number(),
        None => 0,
    }
}

/// Whether an edge to a node with this label comes up before others of the same moment: one that
/// joins two trees does, since it ends both. Only one between outer nodes can, so at others no tree
/// id is read.
fn comes_early(search: &Search, near: &Near, node: NodeId, label: Label) -> bool {
    if near.label != Label::Outer || label != Label::Outer {
        return false;
    }
    let tree_id = tree_id_number(search, node);
    near.tree_id != 0 && tree_id != 0 && near.tree_id != tree_id
}

/// Gives an item this moment, and lets it come up before others of the same moment if it is early.
fn set_moment(queue: &mut EdgeQueue, item: Item, moment: i128, early: bool)
    requires { IsItem queue.old item }
    ensures { queue.new ≡ with_moment queue.old item (Some moment) }
{
    if early {
        queue.set_early(item, moment);
        return;
    }
    queue.set(item, moment);
}

/// Gives an edge at a vertex the moment that it needs.
fn enter_edge(search: &mut Search, near: &Near, incident: &IncidentEdge)
    requires sound { IsSound search.old }
    requires low { pos 0 ≤ℤ search.old.clock }
    requires high { search.old.clock ≤ℤ NUMBER_LIMIT }
    requires near { IsNear (state_of search.old) near.now }
    requires incident { IsIncidentEdge search.old.graph near.now.vertex incident.now }
    ensures frame { search.new ≡ record search.old { queue = search.new.queue } }
    ensures sound { IsSound search.new }
    ensures entered { IsEntered (state_of search.old) search.old.clock search.new.queue
        incident.now.edge }
    ensures others { (d : ℕ) → d ≢ incident.now.edge
        → moment_of search.new.queue (OfEdge d) ≡ moment_of search.old.queue (OfEdge d) }
    ensures blossoms { search.new.queue.blossoms ≡ search.old.queue.blossoms }
    ensures count { entry_count search.new.queue ≤ entry_count search.old.queue + 1 }
{
    let node = search.arena.outermost(incident.far);
    let label = search.label(node);
    if let Some(moment) = moment_for(search, near, incident, node, label) {
        let early = comes_early(search, near, node, label);
        set_moment(&mut search.queue, Item::Edge(incident.edge), moment, early);
    }
}

/// What is at hand of a vertex whose outermost node and its label are known.
fn near_of(search: &Search, vertex: VertexId, node: NodeId, label: Label) -> Near
    requires sound { IsSound search.now }
    requires vertex { is_vertex search.now.graph.vertices vertex ≡ true }
    requires node { node ≡ outermost search.now.arena.blossoms vertex }
    requires label { label ≡ label_at search.now.labels.items node }
    ensures near { IsNear (state_of search.now) result }
    ensures vertex { result.vertex ≡ vertex }
{
    Near {
        vertex,
        node,
        label,
        tree_id: tree_id_number(search, node),
        dual_sum: search.arena.dual_sum(vertex),
    }
}

/// Gives each edge at a vertex the moment that it needs. At a vertex of an inner node none needs
/// one, and none is looked at.
fn enter_around<L: Ledger>(search: &mut Search, v: VertexId, steps: &mut Steps<L>)
    requires sound { IsSound search.old }
    requires low { pos 0 ≤ℤ search.old.clock }
    requires high { search.old.clock ≤ℤ NUMBER_LIMIT }
    requires vertex { is_vertex search.old.graph.vertices v ≡ true }
    ensures frame { search.new ≡ record search.old { queue = search.new.queue } }
    ensures sound { IsSound search.new }
    ensures entered { (e : ℕ) → IsEdgeNumber search.old.graph e
        → touches (edge_of search.old.graph e) v ≡ true
        → IsEntered (state_of search.old) search.old.clock search.new.queue e }
    ensures others { (e : ℕ) → IsEdgeNumber search.old.graph e
        → touches (edge_of search.old.graph e) v ≡ false
        → moment_of search.new.queue (OfEdge e) ≡ moment_of search.old.queue (OfEdge e) }
    ensures blossoms { search.new.queue.blossoms ≡ search.old.queue.blossoms }
    ensures inspections { steps.new ≡ steps.old + ends_looked (state_of search.old) (v ∷ []) }
    ensures count { entry_count search.new.queue + steps.old ≤ entry_count search.old.queue
        + steps.new }
{
    let node = search.arena.outermost(v);
    let label = search.label(node);
    if label == Label::Inner {
        return;
    }
    let near = near_of(search, v, node, label);
    let count = search.incidence.degree(v);
    for place in 0..count {
        let incident = search.incidence.look(v, place, steps);
        enter_edge(search, &near, &incident);
    }
}

/// Puts vertices behind those of a list.
fn append(list: &mut Vec<VertexId>, vertices: Members<'_>)
    requires { vec_len list.old + length vertices ≤ vec_capacity list.old }
    ensures items { list.new.items ≡ list.old.items ++ vertices.entry }
    ensures capacity { vec_capacity list.new ≡ vec_capacity list.old }
{
    for v in vertices {
        list.push_reserved(v);
    }
}

impl Search {
    /// Looks at the edges at each of the vertices in `scanned` and gives them the moments that they
    /// need (chapter 26), but for those at vertices of inner nodes, which need none. All other
    /// edges and each blossom keep what they have. Each end of an edge at these vertices costs one
    /// look at most. It takes no memory.
    pub fn enter_scanned<L: Ledger>(&mut self, graph: &Graph, steps: &mut Steps<L>)
        requires sound { IsSound self.old }
        requires same_graph { graph.now ≡ self.old.graph }
        requires vertices { All (λ v. is_vertex graph.now.vertices v ≡ true)
            self.old.scanned.items }
        requires event_times { IsQueuedBut self.old self.old.scanned.items }
        ensures frame { self.new ≡ record self.old { queue = self.new.queue } }
        ensures sound { IsSound self.new }

        // Each edge whose event can come has its event time in the queue; each end of an edge that
        // comes into an outer node costs one inspection at most.
        ensures event_times { IsQueued self.new }
        ensures inspections { steps.new ≤ steps.old + ends_around graph.now self.old.scanned.items }

        // Exactly one inspection for each end at a listed vertex that lies in no inner node.
        ensures edge_ends { steps.new ≡ steps.old
            + ends_looked (state_of self.old) self.old.scanned.items }

        // It changes the event time of no other edge and of no blossom.
        ensures others { (e : ℕ) → IsEdgeNumber graph.now e
            → touches_any self.old.scanned.items (edge_of graph.now e) ≡ false
            → moment_of self.new.queue (OfEdge e) ≡ moment_of self.old.queue (OfEdge e) }
        ensures blossoms { self.new.queue.blossoms ≡ self.old.queue.blossoms }
        ensures count { entry_count self.new.queue + steps.old ≤ entry_count self.old.queue
            + steps.new }
    {
        for place in 0..self.scanned.len() {
            let v = self.scanned[place];
            enter_around(self, v, steps);
        }
    }

    /// Puts the vertices of a node behind those whose edges are to be looked at.
    pub fn scan(&mut self, node: NodeId)
        requires shape { HasShape self.old }
        requires node { is_node self.old.graph.vertices self.old.arena.blossoms node ≡ true }
        requires room { vec_len self.old.scanned + length (members_of self.old.arena.blossoms node)
            ≤ vec_capacity self.old.scanned }
        ensures scanned { self.new.scanned.items ≡ self.old.scanned.items
            ++ members_of self.old.arena.blossoms node }
        ensures capacity { vec_capacity self.new.scanned ≡ vec_capacity self.old.scanned }
        ensures frame { self.new ≡ record self.old { scanned = self.new.scanned } }
    {
        append(&mut self.scanned, self.arena.members(node));
    }

    /// Gives an inner blossom the moment at which its dual comes to 0; another node gets none.
    pub fn enter_blossom(&mut self, node: NodeId)
        requires sound { IsSound self.old }
        requires low { pos 0 ≤ℤ self.old.clock }
        requires high { self.old.clock ≤ℤ NUMBER_LIMIT }
        requires outermost { IsOutermost (state_of self.old) node }
        ensures frame { self.new ≡ record self.old { queue = self.new.queue } }
        ensures sound { IsSound self.new }
        ensures entered { holds (names_of self.old.arena.blossoms) node ≡ true
            → IsBlossomEntered (state_of self.old) self.old.clock self.new.queue node }
        ensures none { (holds (names_of self.old.arena.blossoms) node ≡ false)
            ⊎ (label_at self.old.labels.items node ≢ Inner) → self.new.queue ≡ self.old.queue }
        ensures others { (b : ℕ) → b ≢ node
            → moment_of self.new.queue (OfBlossom b) ≡ moment_of self.old.queue (OfBlossom b) }
        ensures edges { self.new.queue.edges ≡ self.old.queue.edges }
    {
        if !self.arena.is_blossom(node) {
            return;
        }
        if self.label(node) == Label::Inner {
            let moment = moment_after(self, i128::from(self.arena.dual(node)));
            self.queue.set(Item::Blossom(node), moment);
        }
    }
}
