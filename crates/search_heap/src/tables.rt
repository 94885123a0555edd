ghost use Rattle.std.specs.Prelude.{◌≡◌, ◌<◌, ◌≤◌, ◌^◌, IfSome, IfNone};
ghost use Rattle.std.specs.Prelude.{length, replicate, slice_index, slice_set, vec_len};
ghost use Rattle.std.specs.Vec.{vec_capacity};
ghost use Rattle.search_heap.specs.Heaps.{absent, blank, filled, IsPlaceOf};

use crate::entry::Entry;

/// What stands for the place of a slot that has none: past every place.
const ABSENT: u32 = u32::MAX;

/// What stands in a table of entries before any is put there.
const BLANK: Entry = Entry {
    low: 0,
    age: 0,
    slot: 0,
};

/// Fills a table up to a size, in the room that it has, if nothing stands in it yet.
pub(crate) fn fill_up<T: Copy>(table: &mut Vec<T>, size: u32, value: T)
    requires { vec_len table.old ≡ 0 → size ≤ vec_capacity table.old }
    ensures { table.new.items ≡ filled size value table.old.items }
{
    if !table.is_empty() {
        return;
    }
    table.resize(size as usize, value).unwrap();
}

/// Fills the tables of a heap up to a size where nothing stands in them yet.
pub(crate) fn lay_out(heap: &mut Vec<Entry>, places: &mut Vec<u32>, size: u32)
    requires same { vec_len places.old ≡ vec_len heap.old }
    requires heap { vec_len heap.old ≡ 0 → size ≤ vec_capacity heap.old }
    requires places { vec_len heap.old ≡ 0 → size ≤ vec_capacity places.old }
    ensures heap { heap.new.items ≡ filled size blank heap.old.items }
    ensures places { places.new.items ≡ filled size absent places.old.items }
{
    if !heap.is_empty() {
        return;
    }
    fill_up(heap, size, BLANK);
    fill_up(places, size, ABSENT);
}

/// Takes the place of each slot away.
pub(crate) fn wipe_places(places: &mut Vec<u32>)
    ensures { places.new.items ≡ replicate (vec_len places.old) absent }
{
    places.fill(ABSENT);
}

/// Takes the place of a slot away.
pub(crate) fn wipe_place(places: &mut Vec<u32>, slot: u32)
    requires { slot < vec_len places.old }
    ensures items { places.new.items ≡ slice_set places.old.items slot absent }
    ensures len { vec_len places.new ≡ vec_len places.old }
{
    places[slot as usize] = ABSENT;
}

/// The place of a slot, if it has one among the first so many.
pub(crate) fn place_of(places: &[u32], count: usize, slot: u32) -> Option<usize>
    ensures some { IfSome result (IsPlaceOf places.now count slot) }
    ensures none { IfNone result (slot < length places.now → count ≤ slice_index places.now slot) }
{
    let place = *places.get(slot as usize)? as usize;
    if place < count {
        return Some(place);
    }
    None
}

/// Puts an entry at a place of the heap.
pub(crate) fn put(heap: &mut Vec<Entry>, places: &mut Vec<u32>, place: usize, entry: Entry)
    requires place { place < vec_len heap.old }
    requires slot { entry.slot < vec_len places.old }
    requires size_limit { vec_len heap.old < 2 ^ 32 }
    ensures heap { heap.new.items ≡ slice_set heap.old.items place entry }
    ensures heap_len { vec_len heap.new ≡ vec_len heap.old }
    ensures places { places.new.items ≡ slice_set places.old.items entry.slot place }
    ensures places_len { vec_len places.new ≡ vec_len places.old }
{
    heap[place] = entry;
    places[entry.slot as usize] = place as u32;
}
