ghost use Rattle.std.specs.Prelude.{◌≡◌, ◌≤◌, true, IfOk, IfSome};
ghost use Rattle.doc_format.specs.Parts.{letter_of, rank, key, ascends, is_formed};
ghost use Rattle.doc_format.specs.Parts.{count_in, dual_in, walk_in, set_in, members_in, path_in};
ghost use Rattle.doc_format.specs.Parts.{fields_say, part_in};

use crate::ascent::is_ascending;
use crate::items::led_items;
use crate::letter::Letter;
use crate::number_lists::{counted_numbers, led_numbers, pair};
use mb_base::{Fields, OutOfMemory, Sequence};
use std::alloc::Global;

/// An `x` line: an edge and how often the answer uses it.
#[derive(Clone, Copy, PartialEq, Eq)]
pub struct CountLine {
    pub line: u64,
    pub edge: i64,
    pub count: i64,
}

/// A `w` line: a walk, as the vertex that it starts from and its edges in order.
#[derive(Drop)]
pub struct WalkLine {
    pub line: u64,
    pub start: i64,
    pub edges: Sequence<i64>,
}

/// A `y` line: a vertex of the gadget graph and its dual.
#[derive(Clone, Copy, PartialEq, Eq)]
pub struct DualLine {
    pub line: u64,
    pub vertex: i64,
    pub dual: i64,
}

/// An item of a `z` line: a vertex of the gadget graph, or a reference to the set of an earlier `z`
/// line by its number among these, from 1. A reference is written with `@` before the number.
#[derive(Clone, Copy)]
pub enum SetItem {
    Vertex(i64),
    Reference(i64),
}

/// A `z` line: a set of vertices of the gadget graph and its dual. The set is the union of its
/// items.
#[derive(Drop)]
pub struct SetLine {
    pub line: u64,
    pub dual: i64,
    pub items: Sequence<SetItem>,
}

/// A `d`, `u`, `t` or `q` line: a set of vertices.
#[derive(Drop)]
pub struct MemberLine {
    pub line: u64,
    pub members: Sequence<i64>,
}

/// An `r` line: a path from a vertex, as its edges in order; there may be none.
#[derive(Drop)]
pub struct PathLine {
    pub line: u64,
    pub vertex: i64,
    pub edges: Sequence<i64>,
}

/// A line of a document after its first.
#[derive(Drop)]
pub enum Part {
    /// An `x` line.
    Count(CountLine),
    /// A `w` line.
    Walk(WalkLine),
    /// A `y` line.
    Dual(DualLine),
    /// A `z` line.
    Set(SetLine),
    /// A `d` line.
    Outer(MemberLine),
    /// A `u` line.
    Barrier(MemberLine),
    /// A `t` line.
    Odd(MemberLine),
    /// A `q` line.
    Split(MemberLine),
    /// An `r` line.
    Even(PathLine),
}

/// The letter of a part.
pub fn letter_of(part: &Part) -> Letter
    ensures { result ≡ letter_of part.now }
{
    match part {
        Part::Count(_) => Letter::Count,
        Part::Walk(_) => Letter::Walk,
        Part::Dual(_) => Letter::Dual,
        Part::Set(_) => Letter::Set,
        Part::Outer(_) => Letter::Outer,
        Part::Barrier(_) => Letter::Barrier,
        Part::Odd(_) => Letter::Odd,
        Part::Split(_) => Letter::Split,
        Part::Even(_) => Letter::Even,
    }
}

/// What ascends from line to line of a letter: the edge of an `x` line, the vertex of a `y` or an
/// `r` line.
pub fn key(part: &Part) -> i64
    ensures { result ≡ key part.now }
{
    match part {
        Part::Count(x) => x.edge,
        Part::Walk(_) => 0,
        Part::Dual(y) => y.vertex,
        Part::Set(_) => 0,
        Part::Outer(_) => 0,
        Part::Barrier(_) => 0,
        Part::Odd(_) => 0,
        Part::Split(_) => 0,
        Part::Even(r) => r.vertex,
    }
}

fn read_count(line: u64, fields: Fields<'_>) -> Option<Part>
    ensures value { result ≡ count_in line fields.entry }
    ensures form { IfSome result (λ p. is_formed p ≡ true) }
{
    let (edge, count) = pair(fields)?;
    Some(Part::Count(CountLine { line, edge, count }))
}

fn read_dual(line: u64, fields: Fields<'_>) -> Option<Part>
    ensures value { result ≡ dual_in line fields.entry }
    ensures form { IfSome result (λ p. is_formed p ≡ true) }
{
    let (vertex, dual) = pair(fields)?;
    Some(Part::Dual(DualLine { line, vertex, dual }))
}

fn read_walk(
    alloc: Global,
    line: u64,
    most: usize,
    fields: Fields<'_>,
) -> Result<Option<Part>, OutOfMemory>
    ensures value { IfOk result (λ o. o ≡ walk_in line fields.entry) }
    ensures form { IfOk result (λ o. IfSome o (λ p. is_formed p ≡ true)) }
{
    let Some((start, edges)) = led_numbers(alloc, most, fields)? else {
        return Ok(None);
    };
    if edges.is_empty() {
        return Ok(None);
    }
    Ok(Some(Part::Walk(WalkLine { line, start, edges })))
}

fn read_path(
    alloc: Global,
    line: u64,
    most: usize,
    fields: Fields<'_>,
) -> Result<Option<Part>, OutOfMemory>
    ensures value { IfOk result (λ o. o ≡ path_in line fields.entry) }
    ensures form { IfOk result (λ o. IfSome o (λ p. is_formed p ≡ true)) }
{
    let Some((vertex, edges)) = led_numbers(alloc, most, fields)? else {
        return Ok(None);
    };
    Ok(Some(Part::Even(PathLine {
        line,
        vertex,
        edges,
    })))
}

fn read_set(
    alloc: Global,
    line: u64,
    most: usize,
    fields: Fields<'_>,
) -> Result<Option<Part>, OutOfMemory>
    ensures value { IfOk result (λ o. o ≡ set_in line fields.entry) }
    ensures form { IfOk result (λ o. IfSome o (λ p. is_formed p ≡ true)) }
{
    let Some((dual, items)) = led_items(alloc, most, fields)? else {
        return Ok(None);
    };
    Ok(Some(Part::Set(SetLine { line, dual, items })))
}

fn read_members(
    alloc: Global,
    line: u64,
    most: usize,
    fields: Fields<'_>,
) -> Result<Option<MemberLine>, OutOfMemory>
    ensures value { IfOk result (λ o. o ≡ members_in line fields.entry) }
    ensures form { IfOk result (λ o. IfSome o (λ u. ascends u.members ≡ true)) }
{
    let Some(members) = counted_numbers(alloc, most, fields)? else {
        return Ok(None);
    };
    if !is_ascending(members.as_slice()) {
        return Ok(None);
    }
    Ok(Some(MemberLine { line, members }))
}

/// What the fields say as the members of a set of vertices, on a line of this letter.
fn read_vertices(
    alloc: Global,
    line: u64,
    letter: Letter,
    most: usize,
    fields: Fields<'_>,
) -> Result<Option<Part>, OutOfMemory>
    requires least { 5 ≤ rank letter }
    requires last { rank letter ≤ 8 }
    ensures value { IfOk result (λ o. o ≡ fields_say line fields.entry letter) }
    ensures form { IfOk result (λ o. IfSome o (λ p. is_formed p ≡ true)) }
{
    let members = read_members(alloc, line, most, fields)?;
    Ok(match letter {
        Letter::Outer => members.map(Part::Outer),
        Letter::Barrier => members.map(Part::Barrier),
        Letter::Odd => members.map(Part::Odd),
        Letter::Split => members.map(Part::Split),
        Letter::Count | Letter::Walk | Letter::Dual | Letter::Set | Letter::Even => None,
    })
}

/// What the fields after this letter say on a line of this number, which can hold at most `most`.
fn read_fields(
    alloc: Global,
    line: u64,
    letter: Letter,
    most: usize,
    fields: Fields<'_>,
) -> Result<Option<Part>, OutOfMemory>
    ensures value { IfOk result (λ o. o ≡ fields_say line fields.entry letter) }
    ensures form { IfOk result (λ o. IfSome o (λ p. is_formed p ≡ true)) }
{
    match letter {
        Letter::Count => Ok(read_count(line, fields)),
        Letter::Walk => read_walk(alloc, line, most, fields),
        Letter::Dual => Ok(read_dual(line, fields)),
        Letter::Set => read_set(alloc, line, most, fields),
        Letter::Outer | Letter::Barrier | Letter::Odd | Letter::Split => {
            read_vertices(alloc, line, letter, most, fields)
        }
        Letter::Even => read_path(alloc, line, most, fields),
    }
}

/// What a line of this number says after the first line of a document, by its first field and the
/// others. The line can hold at most `most` fields: no list takes room for more.
pub fn read_part(
    alloc: Global,
    line: u64,
    word: &[u8],
    most: usize,
    fields: Fields<'_>,
) -> Result<Option<Part>, OutOfMemory>
    ensures value { IfOk result (λ o. o ≡ part_in line word.now fields.entry) }
    ensures form { IfOk result (λ o. IfSome o (λ p. is_formed p ≡ true)) }
{
    let Some(letter) = Letter::named(word) else {
        return Ok(None);
    };
    read_fields(alloc, line, letter, most, fields)
}
