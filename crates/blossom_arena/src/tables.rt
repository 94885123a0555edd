ghost use Rattle.std.specs.Prelude.{◌≡◌, ◌<◌, ◌≤◌, ◌+◌, ◌^◌, ℕ, [], IfOk, replicate, slice_index};
ghost use Rattle.std.specs.Prelude.{slice_set, map, drop, length, vec_len};
ghost use Rattle.std.specs.List.{AllByRecursion};
ghost use Rattle.graph_theory.specs.declared.limits.TheConstants.{GRAPH_VERTEX_LIMIT};
ghost use Rattle.blossom_arena.specs.Tables.{filled, threaded, noted};
ghost use Rattle.blossom_arena.specs.Family.{nodes_of};
ghost use Rattle.blossom_arena.specs.Fields.{parent_entry};
ghost use Rattle.blossom_arena.specs.declared.links.Link.{Link};

use crate::links::{Link, node_at};
use base_types::{EdgeId, OutOfMemory};
use graph_theory::GRAPH_VERTEX_LIMIT;
use std::alloc::Global;

/// What the table of parents has for a number that no node has got.
pub(crate) const NO_NODE: u32 = 1;

/// What the table of parents has for a number if there is no blossom: 0 for a vertex.
fn bare_entry(number: u32, n: u32) -> u32
    ensures { result ≡ parent_entry n [] number }
{
    if number == 0 {
        return NO_NODE;
    }
    if number > n {
        return NO_NODE;
    }
    0
}

/// Makes it the table of parents of n vertices if there is no blossom.
pub(crate) fn bare(table: &mut Vec<u32>, n: u32)
    requires { vec_len table.old < 2 ^ 32 }
    ensures len { vec_len table.new ≡ vec_len table.old }
    ensures each { (x : ℕ) → x < vec_len table.old
        → slice_index table.new.items x ≡ parent_entry n [] x }
{
    for place in 0..table.len() {
        table[place] = bare_entry(place as u32, n);
    }
}

/// The table of parents of n vertices if there is no blossom, with so many places.
pub(crate) fn bare_table(alloc: Global, n: u32, places: usize) -> Result<Vec<u32>, OutOfMemory>
    requires { places < 2 ^ 32 }
    ensures len { IfOk result (λ v. vec_len v ≡ places) }
    ensures each { IfOk result (λ v. (x : ℕ) → x < places
        → slice_index v.items x ≡ parent_entry n [] x) }
{
    let mut parents = vec![in alloc; 0u32; places]?;
    bare(&mut parents, n);
    Ok(parents)
}

/// So many places for the next nodes in rings and the edges to them.
pub(crate) fn ring_tables(
    alloc: Global,
    places: usize,
) -> Result<(Vec<u32>, Vec<EdgeId>), OutOfMemory>
    ensures nexts { IfOk result (λ t. vec_len t.0 ≡ places) }
    ensures edges { IfOk result (λ t. vec_len t.1 ≡ places) }
{
    let nexts = vec![in alloc; 0u32; places]?;
    Ok((nexts, vec![in alloc; EdgeId::new(0); places]?))
}

/// So many places for the next older and the next newer blossoms, if there is none.
pub(crate) fn order_tables(
    alloc: Global,
    places: usize,
) -> Result<(Vec<u32>, Vec<u32>), OutOfMemory>
    ensures older { IfOk result (λ t. t.0.items ≡ replicate places 0) }
    ensures newer { IfOk result (λ t. t.1.items ≡ replicate places 0) }
{
    let older = vec![in alloc; 0u32; places]?;
    Ok((older, vec![in alloc; 0u32; places]?))
}

/// Puts an entry at a place.
pub(crate) fn set_entry<T: Copy>(table: &mut Vec<T>, place: u32, entry: T)
    requires { place < vec_len table.old }
    ensures items { table.new.items ≡ slice_set table.old.items place entry }
    ensures len { vec_len table.new ≡ vec_len table.old }
{
    table[place as usize] = entry;
}

/// The numbers 0 to n.
pub(crate) fn numbered(alloc: Global, n: u32) -> Result<Vec<u32>, OutOfMemory>
    requires { n ≤ GRAPH_VERTEX_LIMIT }
    ensures len { IfOk result (λ v. vec_len v ≡ n + 1) }
    ensures each { IfOk result (λ v. (i : ℕ) → i ≤ n → slice_index v.items i ≡ i) }
{
    let mut numbers = vec![in alloc; 0u32; n as usize + 1]?;
    renumber(&mut numbers);
    Ok(numbers)
}

/// Puts 0 at each place.
pub(crate) fn wipe(table: &mut Vec<u32>)
    ensures { table.new.items ≡ replicate (vec_len table.old) 0 }
{
    table.fill(0);
}

/// Puts its number at each place.
pub(crate) fn renumber(table: &mut Vec<u32>)
    requires { vec_len table.old < 2 ^ 32 }
    ensures len { vec_len table.new ≡ vec_len table.old }
    ensures each { (i : ℕ) → i < vec_len table.old → slice_index table.new.items i ≡ i }
{
    for place in 0..table.len() {
        table[place] = place as u32;
    }
}

/// Puts at each node of a circuit the one that comes after it, and at the last what follows.
pub(crate) fn thread(nexts: &mut Vec<u32>, circuit: &[Link], after: u32)
    requires { AllByRecursion (λ (l : Link). l.node < vec_len nexts.old) circuit.now }
    ensures items { nexts.new.items ≡ threaded nexts.old.items circuit.now after }
    ensures len { vec_len nexts.new ≡ vec_len nexts.old }
{
    for (place, link) in circuit.iter().enumerate() {
        set_entry(
            nexts,
            link.node.number(),
            node_at(circuit, place + 1, after),
        );
    }
}

/// Puts at each node of a circuit its edge, and the node that the circuit becomes.
pub(crate) fn note(edges: &mut Vec<EdgeId>, parents: &mut Vec<u32>, circuit: &[Link], node: u32)
    requires edges { AllByRecursion (λ (l : Link). l.node < vec_len edges.old) circuit.now }
    requires parents { AllByRecursion (λ (l : Link). l.node < vec_len parents.old) circuit.now }
    ensures edges { edges.new.items ≡ noted edges.old.items circuit.now }
    ensures edges_len { vec_len edges.new ≡ vec_len edges.old }
    ensures parents { parents.new.items ≡ filled parents.old.items (nodes_of circuit.now) node }
    ensures parents_len { vec_len parents.new ≡ vec_len parents.old }
{
    for link in circuit {
        let number = link.node.number();
        set_entry(edges, number, link.edge);
        set_entry(parents, number, node);
    }
}
