ghost use Rattle.std.specs.Prelude.{◌≡◌, ℕ, ◌+◌, ◌-◌, ◌*◌, ◌/◌, ◌<◌, ◌≤◌, ◌^◌, ◌≤ℤ◌, pos, IfSome};
ghost use Rattle.std.specs.Prelude.{IfNone, length, true, false};
ghost use Rattle.search_heap.specs.Heaps.{joined, key, moment_in, IsLaterParent, IsEarlierOf};
ghost use Rattle.search_heap.specs.Heaps.{IsLeastOf, IsEarlierChild, NoEarlierChild};

use crate::entry::Entry;
use crate::highs::Highs;

/// The low half of the moment of an entry and its age in one number, so that one comparison orders
/// two entries whose high halves are the same.
fn low_rank(entry: &Entry) -> u128
    ensures rank { result ≡ 18446744073709551616 * entry.now.low + entry.now.age }
    ensures low { entry.now.low < 2 ^ 64 }
    ensures age { entry.now.age < 2 ^ 32 }
{
    18_446_744_073_709_551_616 * u128::from(entry.low) + u128::from(entry.age)
}

/// Whether an entry stands before another one, where the high halves of both moments are 0.
#[tactic(auto, unfolding(crate::specs::Heaps::joined))]
fn low_before(a: &Entry, b: &Entry) -> bool
    ensures before { result ≡ true → joined (pos 0) a.now.low ≤ℤ joined (pos 0) b.now.low }
    ensures after { result ≡ false → joined (pos 0) b.now.low ≤ℤ joined (pos 0) a.now.low }
{
    low_rank(a) < low_rank(b)
}

/// Whether an entry stands before another one, where high halves may differ.
#[tactic(auto, unfolding(crate::specs::Heaps::joined))]
fn wide_before(highs: &Highs, a: &Entry, b: &Entry) -> bool
    ensures before { result ≡ true → moment_in highs.now a.now ≤ℤ moment_in highs.now b.now }
    ensures after { result ≡ false → moment_in highs.now b.now ≤ℤ moment_in highs.now a.now }
{
    let (high, other_high) = (highs.of(a.slot), highs.of(b.slot));
    let (one, other) = (low_rank(a), low_rank(b));
    if high == other_high {
        one < other
    } else {
        high < other_high
    }
}

/// Whether an entry stands before another one: its moment is less, or it is the same and was set
/// earlier.
fn comes_before(highs: &Highs, a: &Entry, b: &Entry) -> bool
    ensures before { result ≡ true → moment_in highs.now a.now ≤ℤ moment_in highs.now b.now }
    ensures after { result ≡ false → moment_in highs.now b.now ≤ℤ moment_in highs.now a.now }
{
    if highs.is_wide() {
        return wide_before(highs, a, b);
    }
    low_before(a, b)
}

/// The parent of a place, where an entry at this place stands before it.
pub(crate) fn later_parent(
    highs: &Highs,
    heap: &[Entry],
    place: usize,
    entry: &Entry,
) -> Option<usize>
    requires { place < length heap.now }
    ensures some { IfSome result
        (IsLaterParent (key highs.now heap.now) (moment_in highs.now entry.now) place) }
    ensures none { IfNone result (0 < place
        → key highs.now heap.now ((place - 1) / 4) ≤ℤ moment_in highs.now entry.now) }
{
    if place == 0 {
        return None;
    }
    let parent = (place - 1) / 4;
    if comes_before(highs, entry, &heap[parent]) {
        return Some(parent);
    }
    None
}

/// Of a place and a later one, if that is below the count, the one whose entry stands first.
fn earlier_of(highs: &Highs, heap: &[Entry], count: usize, first: usize, next: usize) -> usize
    requires within { first < count }
    requires count_limit { count ≤ length heap.now }
    ensures { IsEarlierOf (key highs.now heap.now) count first next result }
{
    if next >= count {
        return first;
    }
    if comes_before(highs, &heap[next], &heap[first]) {
        return next;
    }
    first
}

/// Of two places the one whose entry stands first.
fn earlier_within(highs: &Highs, heap: &[Entry], first: usize, next: usize) -> usize
    requires first { first < length heap.now }
    requires next { next < length heap.now }
    ensures { IsEarlierOf (key highs.now heap.now) (length heap.now) first next result }
{
    if comes_before(highs, &heap[next], &heap[first]) {
        return next;
    }
    first
}

/// Of four places side by side the one whose entry stands first, two by two.
fn least_of_pairs(highs: &Highs, heap: &[Entry], left: usize) -> usize
    requires within { left + 3 < length heap.now }
    requires size_limit { length heap.now < 2 ^ 32 }
    ensures { IsLeastOf (key highs.now heap.now) (length heap.now) left 4 result }
{
    let four = &heap[left..left + 4];
    let of_first = earlier_within(highs, four, 0, 1);
    let of_last = earlier_within(highs, four, 2, 3);
    left + earlier_within(highs, four, of_first, of_last)
}

/// Of four places side by side, those below the count, the one whose entry stands first.
fn least_of_four(highs: &Highs, heap: &[Entry], count: usize, left: usize) -> usize
    requires within { left < count }
    requires count_limit { count ≤ length heap.now }
    requires size_limit { length heap.now < 2 ^ 32 }
    ensures { IsLeastOf (key highs.now heap.now) count left 4 result }
{
    if left + 3 < count {
        return least_of_pairs(highs, heap, left);
    }
    let of_two = earlier_of(highs, heap, count, left, left + 1);
    earlier_of(highs, heap, count, of_two, left + 2)
}

/// The child of a place that stands first, where it stands before an entry at this place.
pub(crate) fn earlier_child(
    highs: &Highs,
    heap: &[Entry],
    count: usize,
    place: usize,
    entry: &Entry,
) -> Option<usize>
    requires within { place < count }
    requires count_limit { count ≤ length heap.now }
    requires size_limit { length heap.now < 2 ^ 32 }
    ensures some { IfSome result
        (IsEarlierChild (key highs.now heap.now) (moment_in highs.now entry.now) count place) }
    ensures none { IfNone result
        (NoEarlierChild (key highs.now heap.now) (moment_in highs.now entry.now) count place) }
{
    let left = place * 4 + 1;
    if left >= count {
        return None;
    }
    let child = least_of_four(highs, heap, count, left);
    if comes_before(highs, &heap[child], entry) {
        return Some(child);
    }
    None
}
