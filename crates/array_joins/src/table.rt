//! Tables that ask for no proof: a place past the end reads as a given item, and is never written.

/// The item at a place, or `none` past the end.
pub(crate) fn item_at<T: Copy>(items: &[T], place: u32, none: T) -> T {
    let place = place as usize;
    if place < items.len() {
        items[place]
    } else {
        none
    }
}

/// Writes an item to a place, and nothing past the end.
pub(crate) fn set_item<T: Copy>(items: &mut [T], place: u32, item: T) {
    let place = place as usize;
    if place < items.len() {
        items[place] = item;
    }
}

/// Adds to the number at a place.
pub(crate) fn add_to(counts: &mut [u32], place: u32, more: u32) {
    let count = item_at(counts, place, 0);
    set_item(counts, place, count.wrapping_add(more));
}
