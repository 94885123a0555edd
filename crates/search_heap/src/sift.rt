ghost use Rattle.std.specs.Prelude.{◌≤ℤ◌, slice_set};
ghost use Rattle.search_heap.specs.Heaps.{key, HasHole, IsHeapBut, IsRising, IsSinking, IsMended};

use crate::entry::Entry;
use crate::highs::Highs;
use crate::order::{earlier_child, later_parent};
use crate::tables::put;

/// Puts an entry at a place that is free, or above it, where its parent stands before it.
pub(crate) fn rise(
    highs: &Highs,
    heap: &mut Vec<Entry>,
    places: &mut Vec<u32>,
    count: usize,
    start: usize,
    entry: Entry,
)
    requires tables { HasHole heap.old.items places.old.items count start entry.slot }
    requires order { IsRising (key highs.now (slice_set heap.old.items start entry)) start count }
    ensures { IsMended highs.now entry heap.old.items places.old.items
        heap.new.items places.new.items count }
{
    let mut place = start;
    while let Some(parent) = later_parent(highs, heap, place, &entry) {
        let above = heap[parent];
        put(heap, places, place, above);
        place = parent;
    }
    put(heap, places, place, entry);
}

/// Puts an entry at a place that is free, or below it, where it stands before its children.
fn sink(
    highs: &Highs,
    heap: &mut Vec<Entry>,
    places: &mut Vec<u32>,
    count: usize,
    start: usize,
    entry: Entry,
)
    requires tables { HasHole heap.old.items places.old.items count start entry.slot }
    requires order { IsSinking (key highs.now (slice_set heap.old.items start entry)) start count }
    ensures { IsMended highs.now entry heap.old.items places.old.items
        heap.new.items places.new.items count }
{
    let mut place = start;
    while let Some(child) = earlier_child(highs, heap, count, place, &entry) {
        let below = heap[child];
        put(heap, places, place, below);
        place = child;
    }
    put(heap, places, place, entry);
}

/// Puts an entry where it belongs: at a place that is free, above or below it, where all others are
/// in order.
pub(crate) fn settle(
    highs: &Highs,
    heap: &mut Vec<Entry>,
    places: &mut Vec<u32>,
    count: usize,
    place: usize,
    entry: Entry,
)
    requires tables { HasHole heap.old.items places.old.items count place entry.slot }
    requires order { IsHeapBut (key highs.now (slice_set heap.old.items place entry)) place count }
    ensures { IsMended highs.now entry heap.old.items places.old.items
        heap.new.items places.new.items count }
{
    if let Some(_) = later_parent(highs, heap, place, &entry) {
        rise(highs, heap, places, count, place, entry);
        return;
    }
    sink(highs, heap, places, count, place, entry);
}

/// Puts an entry at a place where that of the same slot stood: it sinks where its moment is later
/// than it was, and else it rises.
pub(crate) fn renew(
    highs: &Highs,
    heap: &mut Vec<Entry>,
    places: &mut Vec<u32>,
    count: usize,
    place: usize,
    entry: Entry,
    was: i128,
    moment: i128,
)
    requires tables { HasHole heap.old.items places.old.items count place entry.slot }
    requires later { was ≤ℤ moment
        → IsSinking (key highs.now (slice_set heap.old.items place entry)) place count }
    requires sooner { moment ≤ℤ was
        → IsRising (key highs.now (slice_set heap.old.items place entry)) place count }
    ensures { IsMended highs.now entry heap.old.items places.old.items
        heap.new.items places.new.items count }
{
    if was < moment {
        sink(highs, heap, places, count, place, entry);
        return;
    }
    rise(highs, heap, places, count, place, entry);
}
