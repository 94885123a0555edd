ghost use Rattle.std.specs.Prelude.{◌≡◌, ◌≤◌, ℕ, ℤ, pos, true, None, [], IfOk, length, vec_len};
ghost use Rattle.std.specs.Vec.{vec_capacity};
ghost use Rattle.graph_theory.specs.declared.limits.TheConstants.{GRAPH_VERTEX_LIMIT};
ghost use Rattle.graph_theory.specs.Graph.{IsGraph, IsWeight};
ghost use Rattle.blossom_arena.specs.Family.{IsFamily, empty_family, is_vertex, dual_at};
ghost use Rattle.blossom_arena.specs.declared.label.Label.TheVariants.{Out};
ghost use Rattle.search_tables.specs.IncidentEdges.{AreIncidentEdges};
ghost use Rattle.alt_forest.specs.Blank.{AreBlank};
ghost use Rattle.search_heap.specs.Moments.{no_moments};
ghost use Rattle.alt_forest.specs.Searches.{IsSearchGraph, edge_in, label_at};

use base_types::{EdgeId, OutOfMemory, VertexId};
use blossom_arena::{Arena, Label, Link, NodeId};
use graph_theory::GRAPH_VERTEX_LIMIT;
use search_heap::EdgeQueue;
use search_tables::{IncidentEdges, TreeNodes, room_for};
use std::alloc::Global;
use weighted_graph::Graph;

/// The same graph once more.
pub(crate) fn copied(alloc: Global, graph: &Graph) -> Result<Graph, OutOfMemory>
    requires size_limit { IsSearchGraph graph.now }
    ensures { IfOk result (λ copy. copy ≡ graph.now) }
{
    let mut copy = Graph::new(alloc, graph.vertices());
    for edge in graph.edge_list() {
        copy.add(edge.u, edge.v, edge.w)?;
    }
    Ok(copy)
}

/// A list with no edge at each of so many places.
fn no_edges(alloc: Global, places: usize) -> Result<Vec<Option<EdgeId>>, OutOfMemory>
    ensures none { IfOk result (λ edges. (a : ℕ) → edge_in edges.items a ≡ None) }
    ensures len { IfOk result (λ edges. vec_len edges ≡ places) }
{
    Ok(vec![in alloc; None; places]?)
}

/// What a search keeps by node.
#[derive(Drop)]
pub(crate) struct NodeLists {
    pub(crate) labels: Vec<Label>,
    pub(crate) parents: Vec<Option<EdgeId>>,
    pub(crate) mates: Vec<Option<EdgeId>>,
}

/// Lists with so many places each, if no node is in a tree or has a mate.
fn node_lists(alloc: Global, places: usize) -> Result<NodeLists, OutOfMemory>
    ensures labels { IfOk result (λ l. (a : ℕ) → label_at l.labels.items a ≡ Out) }
    ensures parents { IfOk result (λ l. (a : ℕ) → edge_in l.parents.items a ≡ None) }
    ensures mates { IfOk result (λ l. (a : ℕ) → edge_in l.mates.items a ≡ None) }
    ensures label_places { IfOk result (λ l. vec_len l.labels ≡ places) }
    ensures parent_places { IfOk result (λ l. vec_len l.parents ≡ places) }
    ensures mate_places { IfOk result (λ l. vec_len l.mates ≡ places) }
{
    let labels = vec![in alloc; Label::Out; places]?;
    let parents = no_edges(alloc, places)?;
    let mates = no_edges(alloc, places)?;
    Ok(NodeLists {
        labels,
        parents,
        mates,
    })
}

/// The lists of a search that grow, within the room that they have from the start.
#[derive(Drop)]
pub(crate) struct RoomLists {
    pub(crate) circuit: Vec<Link>,
    pub(crate) scanned: Vec<VertexId>,
}

/// Empty lists with room for so many links and vertices.
fn room_lists(alloc: Global, vertices: usize) -> Result<RoomLists, OutOfMemory>
    ensures circuit { IfOk result (λ r. vertices ≤ vec_capacity r.circuit) }
    ensures scanned { IfOk result (λ r. vertices ≤ vec_capacity r.scanned) }
{
    let circuit = room_for(alloc, vertices)?;
    let scanned = room_for(alloc, vertices)?;
    Ok(RoomLists { circuit, scanned })
}

/// The lists of a search.
#[derive(Drop)]
pub(crate) struct SearchLists {
    pub(crate) nodes: NodeLists,
    pub(crate) room: RoomLists,
    pub(crate) tree_nodes: TreeNodes,
}

/// The lists of a search with nodes up to a number and so many vertices, if no node is in a tree or
/// has a mate.
fn search_lists(alloc: Global, limit: u32, vertices: usize) -> Result<SearchLists, OutOfMemory>
    ensures { IfOk result (AreBlank limit vertices) }
{
    let room = room_lists(alloc, vertices)?;
    let nodes = node_lists(alloc, limit as usize + 1)?;
    let tree_nodes = TreeNodes::new(alloc, limit)?;
    Ok(SearchLists {
        nodes,
        room,
        tree_nodes,
    })
}

/// A graph, and its edges by vertex.
#[derive(Drop)]
pub(crate) struct KeptGraph {
    pub(crate) graph: Graph,
    pub(crate) incidence: IncidentEdges,
}

/// A graph, and its edges by vertex.
fn kept_graph(alloc: Global, graph: Graph) -> Result<KeptGraph, OutOfMemory>
    requires size_limit { IsSearchGraph graph }
    ensures graph { IfOk result (λ kept. kept.graph ≡ graph) }
    ensures incidence { IfOk result (λ kept. AreIncidentEdges graph kept.incidence) }
{
    let incidence = IncidentEdges::of(alloc, &graph)?;
    Ok(KeptGraph { graph, incidence })
}

/// All of a search but its arena.
#[derive(Drop)]
pub(crate) struct SearchParts {
    pub(crate) kept: KeptGraph,
    pub(crate) queue: EdgeQueue,
    pub(crate) lists: SearchLists,
}

/// All of a search over a graph but its arena, with nodes up to a number, before there is a tree.
pub(crate) fn search_parts(
    alloc: Global,
    graph: Graph,
    limit: u32,
) -> Result<SearchParts, OutOfMemory>
    requires graph { IsSearchGraph graph }
    ensures graph { IfOk result (λ parts. parts.kept.graph ≡ graph) }
    ensures incidence { IfOk result (λ parts. AreIncidentEdges graph parts.kept.incidence) }
    ensures queue { IfOk result (λ parts. parts.queue ≡ no_moments (length graph.edges) limit) }
    ensures lists { IfOk result (λ parts. AreBlank limit graph.vertices parts.lists) }
{
    let queue = EdgeQueue::new(alloc, graph.edges(), limit)?;
    let lists = search_lists(alloc, limit, graph.vertices() as usize)?;
    let kept = kept_graph(alloc, graph)?;
    Ok(SearchParts { kept, queue, lists })
}

/// Gives each vertex of an arena with no blossom and all duals 0 the same dual.
pub(crate) fn give_duals(arena: &mut Arena, start: i64)
    requires size_limit { arena.old.vertex_count ≤ GRAPH_VERTEX_LIMIT }
    requires empty { arena.old ≡ empty_family arena.old.vertex_count }
    requires start { IsWeight start }
    ensures count { arena.new.vertex_count ≡ arena.old.vertex_count }
    ensures blossoms { arena.new.blossoms ≡ [] }
    ensures duals { (v : ℕ) → is_vertex arena.old.vertex_count v ≡ true
        → dual_at arena.new.duals v ≡ start }
    ensures is_family { IsFamily arena.new }
{
    for number in 0..arena.vertex_count() {
        arena.add_dual(NodeId::new(number + 1), i128::from(start));
    }
}
