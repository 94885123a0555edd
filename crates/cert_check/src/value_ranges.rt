ghost use Rattle.std.specs.Prelude.{◌≡◌};
ghost use Rattle.std.specs.List.{list_all};
ghost use Rattle.doc_format.specs.Parts.{item_passes};
ghost use Rattle.certificates.specs.Ranges.{is_between, is_up_to, is_dual, is_set_dual, is_within};

use crate::extent::Sizes;
use doc_format::SetItem;
use graph_theory::NUMBER_LIMIT;

/// Whether a number is one of those from `low` to `high`.
fn is_between(low: i64, high: i64, number: i64) -> bool
    ensures { result ≡ is_between low high number }
{
    low <= number && number <= high
}

/// Whether a number is one of those from 1 to `high`.
pub fn is_up_to(high: u32, number: i64) -> bool
    ensures { result ≡ is_up_to high number }
{
    is_between(1, i64::from(high), number)
}

/// Whether all numbers are among those from 1 to `high`.
pub fn are_up_to(high: u32, numbers: &[i64]) -> bool
    ensures { result ≡ list_all (is_up_to high) numbers.now }
{
    numbers.iter().all(|&number| is_up_to(high, number))
}

/// Whether a number is the dual of a vertex, or a weight.
pub fn is_dual(number: i64) -> bool
    ensures { result ≡ is_dual number }
{
    is_between(-NUMBER_LIMIT, NUMBER_LIMIT, number)
}

/// Whether a number is the dual of a set.
pub fn is_set_dual(number: i64) -> bool
    ensures { result ≡ is_set_dual number }
{
    is_between(1, NUMBER_LIMIT, number)
}

/// Whether a number is that of one of so many earlier lines, from 1.
fn is_earlier(before: usize, number: i64) -> bool
    ensures { result ≡ is_up_to before number }
{
    if number < 1 {
        return false;
    }
    number as usize <= before
}

/// Whether an item is a vertex of the certificate graph, or one of so many earlier sets.
fn is_item_within(extent: Sizes, before: usize, item: SetItem) -> bool
    ensures { result ≡ item_passes
        (is_within extent.vertices extent.edges extent.certified before) item }
{
    match item {
        SetItem::Vertex(v) => is_up_to(extent.certified, v),
        SetItem::Reference(j) => is_earlier(before, j),
    }
}

/// Whether all items are.
pub fn are_items_within(extent: Sizes, before: usize, items: &[SetItem]) -> bool
    ensures { result ≡ list_all (item_passes
        (is_within extent.vertices extent.edges extent.certified before)) items.now }
{
    items
        .iter()
        .all(|&item| is_item_within(extent, before, item))
}
