ghost use Rattle.std.specs.Prelude.{◌≡◌, map};
ghost use Rattle.doc_format.specs.Parts.{at_most_one, parts_of};
ghost use Rattle.doc_format.specs.Reading.{body_of};
ghost use Rattle.certificates.specs.Ranges.{first_fault, first_outside, checked};

use crate::extent::Sizes;
use crate::value_ranges::{are_items_within, are_up_to, is_dual, is_set_dual, is_up_to};
use doc_format::{CountLine, Document, DualLine, MemberLine, Part, PathLine, SetLine, WalkLine};
use mb_problem::VALUE_LIMIT;

/// The first line of a count that isn't in range.
fn first_count(counts: &[CountLine], extent: Sizes) -> Option<u64>
    ensures { result ≡ first_fault (checked extent.vertices extent.edges extent.certified 0
        (map Part.Count counts.now)) }
{
    for x in counts {
        if !(is_up_to(extent.edges, x.edge) && is_up_to(VALUE_LIMIT, x.count)) {
            return Some(x.line);
        }
    }
    None
}

/// The line of a walk that isn't in range.
fn first_walk(walk: &Option<WalkLine>, extent: Sizes) -> Option<u64>
    ensures { result ≡ first_fault (checked extent.vertices extent.edges extent.certified 0
        (at_most_one Part.Walk walk.now)) }
{
    match walk {
        Some(w)
            if !(is_up_to(extent.vertices, w.start)
                && are_up_to(extent.edges, w.edges.as_slice())) => { Some(w.line) }
        _ => None,
    }
}

/// The first line of a dual that isn't in range.
fn first_dual(duals: &[DualLine], extent: Sizes) -> Option<u64>
    ensures { result ≡ first_fault (checked extent.vertices extent.edges extent.certified 0
        (map Part.Dual duals.now)) }
{
    for y in duals {
        if !(is_up_to(extent.certified, y.vertex) && is_dual(y.dual)) {
            return Some(y.line);
        }
    }
    None
}

/// The first line of a set that isn't in range.
fn first_set(sets: &[SetLine], extent: Sizes) -> Option<u64>
    ensures { result ≡ first_fault (checked extent.vertices extent.edges extent.certified 0
        (map Part.Set sets.now)) }
{
    for (k, z) in sets.iter().enumerate() {
        if !(is_set_dual(z.dual) && are_items_within(extent, k, z.items.as_slice())) {
            return Some(z.line);
        }
    }
    None
}

/// The line of outer vertices that isn't in range.
fn first_outer(outer: &Option<MemberLine>, extent: Sizes) -> Option<u64>
    ensures { result ≡ first_fault (checked extent.vertices extent.edges extent.certified 0
        (at_most_one Part.Outer outer.now)) }
{
    match outer {
        Some(d) if !are_up_to(extent.vertices, d.members.as_slice()) => Some(d.line),
        _ => None,
    }
}

/// The first line of a path that isn't in range.
fn first_path(paths: &[PathLine], extent: Sizes) -> Option<u64>
    ensures { result ≡ first_fault (checked extent.vertices extent.edges extent.certified 0
        (map Part.Even paths.now)) }
{
    for r in paths {
        if !(is_up_to(extent.vertices, r.vertex) && are_up_to(extent.edges, r.edges.as_slice())) {
            return Some(r.line);
        }
    }
    None
}

/// The line of a barrier that isn't in range.
fn first_barrier(barrier: &Option<MemberLine>, extent: Sizes) -> Option<u64>
    ensures { result ≡ first_fault (checked extent.vertices extent.edges extent.certified 0
        (at_most_one Part.Barrier barrier.now)) }
{
    match barrier {
        Some(u) if !are_up_to(extent.certified, u.members.as_slice()) => Some(u.line),
        _ => None,
    }
}

/// The line of an odd part that isn't in range.
fn first_odd(odd: &Option<MemberLine>, extent: Sizes) -> Option<u64>
    ensures { result ≡ first_fault (checked extent.vertices extent.edges extent.certified 0
        (at_most_one Part.Odd odd.now)) }
{
    match odd {
        Some(t) if !are_up_to(extent.vertices, t.members.as_slice()) => Some(t.line),
        _ => None,
    }
}

/// The line of a split part that isn't in range.
fn first_split(split: &Option<MemberLine>, extent: Sizes) -> Option<u64>
    ensures { result ≡ first_fault (checked extent.vertices extent.edges extent.certified 0
        (at_most_one Part.Split split.now)) }
{
    match split {
        Some(q) if !are_up_to(extent.vertices, q.members.as_slice()) => Some(q.line),
        _ => None,
    }
}

/// The first line after a document's first with a number out of range, for an instance of this
/// extent.
fn first_part(document: &Document, extent: Sizes) -> Option<u64>
    ensures { result ≡ first_fault (checked extent.vertices extent.edges extent.certified 0
        (parts_of (body_of document.now))) }
{
    let path = first_path(document.paths.as_slice(), extent);
    let split = first_split(&document.split, extent).or(path);
    let odd = first_odd(&document.odd, extent).or(split);
    let barrier = first_barrier(&document.barrier, extent).or(odd);
    let outer = first_outer(&document.outer, extent).or(barrier);
    let set = first_set(document.sets.as_slice(), extent).or(outer);
    let dual = first_dual(document.duals.as_slice(), extent).or(set);
    let walk = first_walk(&document.walk, extent).or(dual);
    first_count(document.counts.as_slice(), extent).or(walk)
}

/// The first line of a document with a number out of range, for an instance of this extent.
pub fn first_outside(document: &Document, extent: Sizes) -> Option<u64>
    ensures { result ≡ first_outside extent.vertices extent.edges extent.certified document.now }
{
    if !is_dual(document.weight) {
        return Some(document.line);
    }
    first_part(document, extent)
}
