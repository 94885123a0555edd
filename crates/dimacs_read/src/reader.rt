ghost use Rattle.std.specs.Prelude.{◌≡◌, ℕ, ◌+◌, ◌<◌, ◌≤◌, ◌^◌, length, take, Option, Some};
ghost use Rattle.std.specs.Prelude.{None, OnOk, IfOk, vec_len};
ghost use Rattle.std.specs.List.{position};
ghost use Rattle.mb_base.specs.Text.{fields};
ghost use Rattle.mb_base.specs.Rows.{Row, rows, is_skipped, begins_with};
ghost use Rattle.mb_problem.specs.Network.{IsNetwork};
ghost use Rattle.mb_problem.specs.Ready.{IsReady};
ghost use Rattle.dimacs_read.specs.Rows.{instance_rows, is_header, is_edge, is_solution};
ghost use Rattle.dimacs_read.specs.Format.{line_fault};
ghost use Rattle.dimacs_read.specs.Line.{sizes, field_list, HasFewVertices, HasValues, is_valued};
ghost use Rattle.dimacs_read.specs.LineResult.{GivesTurn};
ghost use Rattle.dimacs_read.specs.Reading.{GivesLine, Reads, ReadsLines, IsDraft, negative_after};
ghost use Rattle.dimacs_read.specs.Reading.{network_from, ReadsOn};
ghost use Rattle.dimacs_read.specs.declared.keep.Line.TheVariants.{Edge};

use crate::end::end_fault;
use crate::error::InstanceError;
use crate::keep::{Line, VertexLists, keep_line, with_defaults};
use crate::line::{Given, Header, read_edge, read_header, read_node};
use crate::plain::plain_edge;
use crate::rest::Rest;
use crate::rule::Rule;
use arrayvec::ArrayVec;
use mb_base::{Fields, OutOfMemory, Sequence, next_line};
use mb_problem::{Instance, InstanceEdge, Kind};
use std::alloc::Global;

/// The fields of a line, but at most six: one more than the longest line may have.
fn some_fields(line: &[u8]) -> ArrayVec<&[u8], 6>
    ensures { field_list result.items ≡ take 6 (fields line.now) }
{
    let mut row = ArrayVec::new();
    for field in Fields::new(line) {
        if row.is_full() {
            return row;
        }
        row.push(field);
    }
    row
}

/// Whether a line is empty or a comment.
fn is_skipped(row: &[&[u8]]) -> bool
    ensures { result ≡ is_skipped (field_list row.now) }
{
    match row.first() {
        Some(first) => first.first() == Some(&b'c'),
        None => true,
    }
}

/// Whether the first field of a line is this word.
fn begins_with(row: &[&[u8]], word: &[u8]) -> bool
    ensures { result ≡ begins_with word.now (field_list row.now) }
{
    match row.first() {
        Some(first) => *first == word,
        None => false,
    }
}

/// What a line is, after a header or none. Value lines give bounds or values.
fn read_line(
    bounds: bool,
    earlier: Option<Header>,
    values: &[Option<Given>],
    row: &[&[u8]],
) -> Result<Line, Rule>
    requires size_limit { HasFewVertices earlier }
    requires room { HasValues earlier (length values.now) }
    ensures { GivesLine bounds earlier (is_valued values.now) (length values.now)
        (field_list row.now) result }
{
    if is_skipped(row) {
        return Ok(Line::Skipped);
    }
    if begins_with(row, b"p".as_slice()) {
        let header = read_header(earlier, row)?;
        return Ok(Line::Header(header));
    }
    if begins_with(row, b"e".as_slice()) {
        let edge = read_edge(earlier, row)?;
        return Ok(Line::Edge(edge));
    }
    if begins_with(row, b"n".as_slice()) {
        let node = read_node(bounds, earlier, values, row)?;
        return Ok(Line::Node(node));
    }
    Err(Rule::UnknownLine)
}

/// Whether a line is the first of a document. It looks no farther than the first field.
fn begins_solution(line: &[u8]) -> bool
    ensures { result ≡ is_solution (fields line.now) }
{
    let mut fields = Fields::new(line);
    let Some(first) = fields.next() else {
        return false;
    };
    first == b"s".as_slice()
}

/// The place of the first edge of negative weight, after the line of one more edge.
fn first_negative_edge(earlier: Option<u64>, edge: &InstanceEdge, place: u64) -> Option<u64>
    ensures { result ≡ negative_after earlier (Edge edge.now) place }
{
    if earlier.is_some() {
        return earlier;
    }
    if edge.w < 0 { Some(place) } else { None }
}

/// The place of the first edge of negative weight, after one more line.
fn first_negative(earlier: Option<u64>, line: &Line, place: u64) -> Option<u64>
    ensures { result ≡ negative_after earlier line.now place }
{
    match line {
        Line::Edge(edge) => first_negative_edge(earlier, edge, place),
        _ => earlier,
    }
}

/// What the next line of an instance is, and what follows it.
#[derive(Clone, Copy)]
pub enum LineResult<'a> {
    /// There is no line more, or the next is the first of a document.
    Ended,
    Broken(Rule),
    Found(Line, &'a [u8]),
}

/// The next line.
fn any_turn<'a>(
    bounds: bool,
    earlier: Option<Header>,
    values: &[Option<Given>],
    rest: &'a [u8],
) -> LineResult<'a>
    requires size_limit { HasFewVertices earlier }
    requires room { HasValues earlier (length values.now) }
    ensures { GivesTurn bounds earlier (is_valued values.now) (length values.now) rest.now
        result }
{
    let Some((text, after)) = next_line(rest) else {
        return LineResult::Ended;
    };
    if begins_solution(text) {
        return LineResult::Ended;
    }
    let row = some_fields(text);
    match read_line(bounds, earlier, values, &row) {
        Err(rule) => LineResult::Broken(rule),
        Ok(found) => LineResult::Found(found, after),
    }
}

/// Keeps the edges of the lines at the front that are written plainly, counts these lines, and
/// answers what follows them: nearly all lines of a large text are read here.
fn keep_plain<'a>(
    header: Option<Header>,
    edges: &mut Vec<InstanceEdge>,
    negative: &mut Option<u64>,
    line: &mut u64,
    rest: &'a [u8],
) -> Result<&'a [u8], OutOfMemory>
    requires size_limit { HasFewVertices header }
    requires room { line.old + length rest.now < 2 ^ 64 }
    ensures reads { IfOk result (λ after. ReadsOn header line.old rest.now edges.old.items
        negative.old line.new after.now edges.new.items negative.new) }
    ensures shorter { IfOk result (λ after. length after.now ≤ length rest.now) }
{
    let mut rest = rest;
    'plain: while let Some((edge, after)) = plain_edge(header, rest) {
        *negative = first_negative_edge(*negative, &edge, *line);
        edges.push(edge)?;
        *line += 1;
        rest = after;
    }
    Ok(rest)
}

/// What the lines of an instance say, and what follows them.
#[derive(Drop)]
pub struct Draft<'a> {
    pub header: Option<Header>,
    pub values: Vec<Option<Given>>,
    pub edges: Vec<InstanceEdge>,
    pub negative: Option<u64>,
    pub lines: u64,
    pub rest: &'a [u8],
}

/// Reads all lines before a document, up to the first that is at fault.
fn read_lines<'a>(alloc: Global, bounds: bool, bytes: &'a [u8]) -> Result<Draft<'a>, InstanceError>
    ensures { ReadsLines bounds bytes.now result }
{
    let mut header: Option<Header> = None;
    let mut values = Vec::new(alloc);
    let mut edges = Vec::new(alloc);
    let mut negative: Option<u64> = None;
    let mut rest = bytes;
    let mut line = 0u64;
    'lines: while !rest.is_empty() {
        rest = keep_plain(header, &mut edges, &mut negative, &mut line, rest)?;
        match any_turn(bounds, header, &values, rest) {
            LineResult::Ended => break,
            LineResult::Broken(rule) => {
                return Err(InstanceError::Malformed {
                    rule,
                    line: line + 1,
                });
            }
            LineResult::Found(found, after) => {
                negative = first_negative(negative, &found, line);
                keep_line(alloc, &mut header, &mut values, &mut edges, found)?;
                line += 1;
                rest = after;
            }
        }
    }
    Ok(Draft {
        header,
        values,
        edges,
        negative,
        lines: line,
        rest,
    })
}

/// A copy of what follows the instance.
fn copy_rest(alloc: Global, rest: &[u8], line: u64) -> Result<Rest, OutOfMemory>
    ensures bytes { IfOk result (λ r. r.bytes ≡ rest.now) }
    ensures line { IfOk result (λ r. r.line ≡ line) }
{
    let bytes = Vec::from_slice(alloc, rest)?;
    Ok(Rest {
        bytes: Sequence::from_vec(bytes),
        line,
    })
}

/// The instance of lines that are all in order, and a copy of what follows them.
fn build(
    alloc: Global,
    kind: Kind,
    values: &[Option<Given>],
    edges: Vec<InstanceEdge>,
) -> Result<Instance, OutOfMemory>
    requires { IsNetwork (network_from kind values.now edges.items) }
    ensures { IfOk result (λ i. i ≡ network_from kind values.now edges.items) }
{
    let all = with_defaults(alloc, values, kind.default_value())?;
    let VertexLists {
        values,
        lows,
        highs,
    } = all;
    Ok(Instance::from_parts(alloc, edges, values, lows, highs))
}

/// The instance of a text, for a kind, and what follows it; or the first rule that the text breaks.
///
/// The instance's lines are those before the first whose first field is exactly `s`. Lines that
/// only the end shows to be missing are named by the number after the last of them.
pub fn read(alloc: Global, bytes: &[u8], kind: Kind) -> Result<(Instance, Rest), InstanceError>
    // The instance of a text, or the first line that breaks a rule with that rule.
    ensures reading { Reads kind bytes.now result }

    // A tour's or parity path's instance has nonnegative weights, and a path's exactly two ends.
    ensures well_formed { IfOk result (λ r. IsReady kind r.0) }
    ensures short { IfOk result (λ r. r.1.line ≤ length bytes.now + 1) }
{
    let draft = read_lines(alloc, kind.has_bounds(), bytes)?;
    let Draft {
        header,
        values,
        edges,
        negative,
        lines,
        rest,
    } = draft;
    if let Some(fault) = end_fault(kind, header, &values, &edges, negative, lines) {
        return Err(InstanceError::Malformed {
            rule: fault.rule,
            line: fault.place + 1,
        });
    }
    let rest = copy_rest(alloc, rest, lines + 1)?;
    let instance = build(alloc, kind, &values, edges)?;
    Ok((instance, rest))
}
