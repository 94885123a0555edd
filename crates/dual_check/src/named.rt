ghost use Rattle.std.specs.Prelude.{◌≡◌, ℕ, ◌+◌, ◌<◌, ◌≤◌, length, slice_index_or, IfOk};
ghost use Rattle.dual_check.specs.Forests.{place_of, no_place};
ghost use Rattle.dual_check.specs.Trees.{IsSpread, AreOwn, number_at, roots_to};

use crate::forest::Place;
use graph_theory::OddSet;
use mb_base::{OutOfMemory, VertexId};
use std::alloc::Global;

/// Puts the vertices of a set where it begins.
fn put_vertices(places: &mut Vec<Place>, vertices: &[VertexId], set: usize, begin: usize)
    requires room { begin + length vertices.now ≤ length places.old.items }
    ensures size { length places.new.items ≡ length places.old.items }
    ensures inside { (t : ℕ) → t < length vertices.now
        → slice_index_or places.new.items (begin + t) no_place
        ≡ place_of set (number_at vertices.now t) }
    ensures before { (x : ℕ) → x < begin
        → slice_index_or places.new.items x no_place ≡ slice_index_or places.old.items x no_place }
    ensures after { (x : ℕ) → begin + length vertices.now ≤ x
        → slice_index_or places.new.items x no_place ≡ slice_index_or places.old.items x no_place }
{
    for (k, vertex) in vertices.iter().enumerate() {
        places[begin + k] = Place {
            vertex: *vertex,
            set,
        };
    }
}

/// The vertices that the trees name, each with the set that names it.
pub(crate) fn places_of(
    alloc: Global,
    sets: &[OddSet],
    count: usize,
    parents: &[usize],
    sizes: &[usize],
    begins: &[usize],
    total: usize,
) -> Result<Vec<Place>, OutOfMemory>
    requires spread { IsSpread sets.now count parents.now sizes.now begins.now }
    requires total { total ≡ roots_to count parents.now sizes.now count }
    ensures size { IfOk result (λ places. length places.items ≡ total) }
    ensures own { IfOk result (λ places. AreOwn sets.now count begins.now places.items) }
{
    let blank = Place {
        vertex: VertexId::new(0),
        set: 0,
    };
    let mut places = vec![in alloc; blank; total]?;
    for set in 0..count {
        put_vertices(&mut places, sets[set].vertices.as_slice(), set, begins[set]);
    }
    Ok(places)
}
