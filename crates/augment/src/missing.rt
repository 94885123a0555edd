ghost use Rattle.std.specs.Prelude.{◌≡◌, ◌<◌, ℕ, ◌==◌, true, if◌then◌else◌, IfOk, vec_len};
ghost use Rattle.std.specs.Prelude.{slice_index};
ghost use Rattle.blossom_arena.specs.declared.label.Label.TheVariants.{Outer};
ghost use Rattle.blossom_arena.specs.Family.{is_vertex, outermost};
ghost use Rattle.alt_forest.specs.Searches.{IsSound, state_of, edge_in, label_at};
ghost use Rattle.augment.specs.Opening.{LeadsTo};
ghost use Rattle.gallai_theory.specs.Matchings.{IsMatched as IsMatchedBy};
ghost use Rattle.augment.specs.Matching.{mate_counts, AreVertexMates, MissesOneEach, MissesInstead};

use crate::marking::{clear_children, mark_mates};
use crate::opening::open_all;
use crate::turning::uproot_in;
use alt_forest::Search;
use base_types::{EdgeId, OutOfMemory, VertexId};
use blossom_arena::{Arena, NodeId};
use std::alloc::Global;

/// Puts another entry for a node.
fn set_entry(table: &mut Vec<u32>, node: NodeId, entry: u32)
    requires place { node < vec_len table.old }
    ensures entries { (a : ℕ) → slice_index table.new.items a
        ≡ (if node == a then entry else slice_index table.old.items a) }
    ensures len { vec_len table.new ≡ vec_len table.old }
{
    table[node.number() as usize] = entry;
}

/// For each blossom that holds a vertex its child that does, by node number, and 0 for all others.
fn children_holding(alloc: Global, arena: &Arena, v: VertexId) -> Result<Vec<u32>, OutOfMemory>
    requires vertex { is_vertex arena.now.vertex_count v ≡ true }
    ensures { IfOk result (λ t. LeadsTo arena.now.blossoms v (λ b. slice_index t.items b)) }
{
    let mut table = vec![in alloc; 0u32; arena.node_limit() as usize + 1]?;
    let mut below = 0;
    for holder in arena.chain(v) {
        set_entry(&mut table, holder, below);
        below = holder.number();
    }
    Ok(table)
}

/// The mates of a matching that misses an outer vertex, and of the vertices that the search's own
/// misses all but the one of the root of its tree: the way from its node to that root is changed in
/// a copy, in which the blossoms are opened again. It takes time and memory linear in the vertices.
pub fn mates_missing(
    alloc: Global,
    search: &Search,
    v: VertexId,
) -> Result<Vec<Option<EdgeId>>, OutOfMemory>
    requires sound { IsSound search.now }
    requires vertex { is_vertex search.now.graph.vertices v ≡ true }
    requires outer { label_at search.now.labels.items (outermost search.now.arena.blossoms v)
        ≡ Outer }
    requires misses { MissesOneEach (state_of search.now) (edge_in search.now.mates.items) }
    ensures size { IfOk result (λ m. vec_len m ≡ vec_len search.now.mates) }
    ensures mates { IfOk result (λ m. AreVertexMates search.now.graph (edge_in m.items)) }

    // In a copy of the mates another outer vertex can be the one that is missed.
    ensures matching { IfOk result
        (λ m. IsMatchedBy search.now.graph (mate_counts search.now.graph (edge_in m.items))) }
    ensures instead { IfOk result
        (λ m. MissesInstead search.now.graph.vertices (edge_in search.now.mates.items)
        (edge_in m.items) v) }
{
    let inner = children_holding(alloc, &search.arena, v)?;
    let mut mates = Vec::from_slice(alloc, &search.mates)?;
    uproot_in(search, &mut mates, search.arena.outermost(v));
    clear_children(&search.arena, &mut mates);
    mark_mates(&search.arena, &search.graph, &mut mates);
    open_all(&search.arena, &search.graph, &mut mates, &inner);
    Ok(mates)
}
