ghost use Rattle.std.specs.Prelude.{◌≡◌, ℕ, ◌<◌, ◌≤◌, ◌^◌, map, length, pos, neg_ℤ, ◌≤ℤ◌, Result};
ghost use Rattle.std.specs.Prelude.{IfOk, Some, None, Option, if◌then◌else◌};
ghost use Rattle.std.specs.Prelude.{◌||◌, ◌==◌, nat_lt, true, false};
ghost use Rattle.graph_theory.specs.Graph.{IsWeight};
ghost use Rattle.mb_base.specs.Rows.{field_at};
ghost use Rattle.mb_problem.specs.Network.{IsInstanceEdge};
ghost use Rattle.dimacs_read.specs.Format.{number_in, natural_in, row_weight, row_capacity};
ghost use Rattle.dimacs_read.specs.Format.{edge_at};
ghost use Rattle.dimacs_read.specs.Format.{header_at, node_at, sizes_at, Sizes};
ghost use Rattle.dimacs_read.specs.Format.{bounds_at, value_at, given_at, value_or};
ghost use Rattle.dimacs_read.specs.Format.{low_or, high_or};
ghost use Rattle.dimacs_read.specs.Line.{sizes, seen, field_list, HasFewVertices, HasValues};
ghost use Rattle.dimacs_read.specs.Line.{sizes_of_header, is_valued, FitsHeader, IsAnnounced};
ghost use Rattle.dimacs_read.specs.Line.{IsSmall, IsGiven};

use crate::rule::Rule;
use graph_theory::WEIGHT_LIMIT;
use mb_base::{VertexId, number};
use mb_problem::{EDGE_LIMIT, InstanceEdge, VALUE_LIMIT, VERTEX_LIMIT};

/// What a header line says.
#[derive(Clone, Copy)]
pub struct Header {
    pub vertices: u32,
    pub edges: u32,
}

/// What a value line gives a vertex.
#[derive(Clone, Copy)]
pub enum Given {
    Value(u32),
    Bounds { low: u32, high: u32 },
}

/// The value of a vertex, which is the default where no line gives it one.
pub fn value_or(given: Option<Given>, default: u32) -> u32
    ensures { result ≡ value_or default given }
{
    match given {
        Some(Given::Value(value)) => value,
        Some(Given::Bounds { .. }) => default,
        None => default,
    }
}

/// The least and the greatest degree of a vertex, which are 0 and 1 where no line gives them.
pub fn bounds_or(given: Option<Given>) -> (u32, u32)
    ensures low { result.0 ≡ low_or given }
    ensures high { result.1 ≡ high_or given }
{
    match given {
        Some(Given::Bounds { low, high }) => (low, high),
        Some(Given::Value(_)) => (0, 1),
        None => (0, 1),
    }
}

/// A vertex and what a line gives it.
#[derive(Clone, Copy)]
pub struct Node {
    pub vertex: u32,
    pub given: Given,
}

fn number_between(field: &[u8], low: i64, high: i64) -> Result<i64, Rule>
    requires low { neg_ℤ WEIGHT_LIMIT ≤ℤ low }
    requires high { high ≤ℤ WEIGHT_LIMIT }
    ensures value { result ≡ number_in low high field.now }
    ensures range { IfOk result (λ z. (low ≤ℤ z) × (z ≤ℤ high)) }
{
    let Some(value) = number(field, WEIGHT_LIMIT) else {
        return Err(Rule::Number);
    };
    if value < low {
        return Err(Rule::Range);
    }
    if value > high {
        return Err(Rule::Range);
    }
    Ok(value)
}

/// A field as a number from low to high.
fn natural_between(field: &[u8], low: u32, high: u32) -> Result<u32, Rule>
    requires { pos high ≤ℤ WEIGHT_LIMIT }
    ensures value { result ≡ natural_in low high field.now }
    ensures range { IfOk result (λ n. (low ≤ n) × (n ≤ high)) }
{
    let value = number_between(field, i64::from(low), i64::from(high))?;
    Ok(value as u32)
}

/// The field at a place as a number from low to high.
fn natural_field(row: &[&[u8]], place: usize, low: u32, high: u32) -> Result<u32, Rule>
    requires place { place < length row.now }
    requires high { pos high ≤ℤ WEIGHT_LIMIT }
    ensures value { result ≡ natural_in low high (field_at (field_list row.now) place) }
    ensures range { IfOk result (λ n. (low ≤ n) × (n ≤ high)) }
{
    natural_between(row[place], low, high)
}

fn weight(row: &[&[u8]]) -> Result<i64, Rule>
    ensures value { result ≡ row_weight (field_list row.now) }
    ensures range { IfOk result IsWeight }
{
    if row.len() < 4 {
        return Ok(1);
    }
    number_between(row[3], -WEIGHT_LIMIT, WEIGHT_LIMIT)
}

fn capacity(row: &[&[u8]]) -> Result<Option<u32>, Rule>
    ensures value { result ≡ row_capacity (field_list row.now) }
    ensures range { IfOk result IsSmall }
{
    if row.len() < 5 {
        return Ok(None);
    }
    let value = natural_field(row, 4, 0, VALUE_LIMIT)?;
    Ok(Some(value))
}

fn header_sizes(row: &[&[u8]]) -> Result<Header, Rule>
    requires { length row.now ≡ 4 }
    ensures value { seen result ≡ sizes_at (field_list row.now) }
    ensures range { IfOk result IsAnnounced }
{
    let vertices = natural_field(row, 2, 0, VERTEX_LIMIT)?;
    let edges = natural_field(row, 3, 0, EDGE_LIMIT)?;
    Ok(Header { vertices, edges })
}

/// What a header line says, or the first test of such lines that it fails.
pub fn read_header(earlier: Option<Header>, row: &[&[u8]]) -> Result<Header, Rule>
    ensures value { seen result ≡ header_at (sizes earlier) (field_list row.now) }
    ensures range { IfOk result IsAnnounced }
{
    if let Some(_) = earlier {
        return Err(Rule::HeaderTwice);
    }
    if row.len() != 4 {
        return Err(Rule::HeaderForm);
    }
    if row[1] != b"edge".as_slice() && row[1] != b"col".as_slice() {
        return Err(Rule::HeaderForm);
    }
    header_sizes(row)
}

/// The edge of an edge line after a header, which has three to five fields.
#[tactic(auto, unfolding(crate::specs::Format::edge_at))]
fn read_ends(header: Header, row: &[&[u8]]) -> Result<InstanceEdge, Rule>
    requires size_limit { IsAnnounced header }
    requires count { (nat_lt (length (field_list row.now)) 3
        || nat_lt 5 (length (field_list row.now))) ≡ false }
    ensures value { result ≡ edge_at (Some (sizes_of_header header)) (field_list row.now) }
    ensures fits { IfOk result (IsInstanceEdge header.vertices) }
{
    let u = natural_field(row, 1, 1, header.vertices)?;
    let v = natural_field(row, 2, 1, header.vertices)?;
    let w = weight(row)?;
    let capacity = capacity(row)?;
    Ok(InstanceEdge {
        u: VertexId::new(u),
        v: VertexId::new(v),
        w,
        capacity,
    })
}

/// The edge of an edge line, or the first test of such lines that it fails.
#[tactic(auto, unfolding(crate::specs::Format::edge_at))]
pub fn read_edge(earlier: Option<Header>, row: &[&[u8]]) -> Result<InstanceEdge, Rule>
    requires { HasFewVertices earlier }
    ensures value { result ≡ edge_at (sizes earlier) (field_list row.now) }
    ensures fits { IfOk result (FitsHeader earlier) }
{
    let Some(header) = earlier else {
        return Err(Rule::HeaderMissing);
    };
    if row.len() < 3 || row.len() > 5 {
        return Err(Rule::FieldCount);
    }
    read_ends(header, row)
}

/// How many fields a value line has.
fn value_fields(bounds: bool) -> usize
    ensures count { result ≡ (if bounds then 4 else 3) }
    ensures vertex { 1 < result }
{
    if bounds { 4 } else { 3 }
}

/// The least and the greatest degree that a value line gives its vertex.
fn read_bounds(row: &[&[u8]]) -> Result<Given, Rule>
    requires { length row.now ≡ 4 }
    ensures given { result ≡ bounds_at (field_list row.now) }
    ensures range { IfOk result IsGiven }
{
    let low = natural_field(row, 2, 0, VALUE_LIMIT)?;
    let high = natural_field(row, 3, low, VALUE_LIMIT)?;
    Ok(Given::Bounds { low, high })
}

/// The value that a value line gives its vertex.
fn read_value(row: &[&[u8]]) -> Result<Given, Rule>
    requires { length row.now ≡ 3 }
    ensures given { result ≡ value_at (field_list row.now) }
    ensures range { IfOk result IsGiven }
{
    let value = natural_field(row, 2, 0, VALUE_LIMIT)?;
    Ok(Given::Value(value))
}

/// What a value line gives its vertex.
fn read_given(bounds: bool, row: &[&[u8]]) -> Result<Given, Rule>
    requires { length row.now ≡ (if bounds then 4 else 3) }
    ensures given { result ≡ given_at bounds (field_list row.now) }
    ensures range { IfOk result IsGiven }
{
    if bounds {
        return read_bounds(row);
    }
    read_value(row)
}

/// What a value line after a header gives to which vertex, where it has its number of fields.
#[tactic(auto, unfolding(crate::specs::Format::node_at))]
fn read_valued(
    bounds: bool,
    header: Header,
    values: &[Option<Given>],
    row: &[&[u8]],
) -> Result<Node, Rule>
    requires size_limit { IsAnnounced header }
    requires room { length values.now ≡ header.vertices }
    requires count { length row.now ≡ (if bounds then 4 else 3) }
    ensures value { result ≡ node_at bounds (Some (sizes_of_header header))
        (is_valued values.now) (field_list row.now) }
    ensures range { IfOk result
        (λ node. (1 ≤ node.vertex) × (node.vertex ≤ length values.now)) }
    ensures value_limit { IfOk result (λ node. IsGiven node.given) }
{
    let vertex = natural_field(row, 1, 1, header.vertices)?;
    let given = read_given(bounds, row)?;
    if values[vertex as usize - 1].is_some() {
        return Err(Rule::NodeTwice);
    }
    Ok(Node { vertex, given })
}

/// The vertex of a value line and what that gives it, bounds or a value, or the first test of such
/// lines that it fails.
#[tactic(auto, unfolding(crate::specs::Format::node_at))]
pub fn read_node(
    bounds: bool,
    earlier: Option<Header>,
    values: &[Option<Given>],
    row: &[&[u8]],
) -> Result<Node, Rule>
    requires size_limit { HasFewVertices earlier }
    requires room { HasValues earlier (length values.now) }
    ensures value { result
        ≡ node_at bounds (sizes earlier) (is_valued values.now) (field_list row.now) }
    ensures range { IfOk result
        (λ node. (1 ≤ node.vertex) × (node.vertex ≤ length values.now)) }
    ensures value_limit { IfOk result (λ node. IsGiven node.given) }
{
    let Some(header) = earlier else {
        return Err(Rule::HeaderMissing);
    };
    if row.len() != value_fields(bounds) {
        return Err(Rule::FieldCount);
    }
    read_valued(bounds, header, values, row)
}
