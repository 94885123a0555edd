ghost use Rattle.std.specs.Prelude.{◌≡◌, ℕ, ◌-◌, ◌<◌, ◌≤◌, ◌^◌, ◌↔◌, ℤ, pos, ◌≤ℤ◌, ◌<ℤ◌, nat_abs};
ghost use Rattle.std.specs.Prelude.{length, map, All, IfOk, IfSome, IsTrue};
ghost use Rattle.mb_problem.specs.Network.{Network, vertices};
ghost use Rattle.doc_format.specs.Form.{AscendsBy};
ghost use Rattle.certificates.specs.Claims.{numbers, counts_of, walk_of, answer_of};
ghost use Rattle.certificates.specs.Claims.{vertices_in, references_in, set_of};
ghost use Rattle.certificates.specs.Within.{IsUpTo, IsCountWithin, IsWalkWithin, IsItemWithin};
ghost use Rattle.certificates.specs.Within.{IsSetLineWithin, AreSetLinesWithin, AreWithin};

use doc_format::{CountLine, Document, DualLine, SetItem, SetLine, WalkLine};
use graph_theory::{GRAPH_VERTEX_LIMIT, OddSet};
use mb_base::{EdgeId, OutOfMemory, Sequence, VertexId};
use mb_problem::{Answer, AnswerForm, EDGE_LIMIT, Instance, Kind};
use std::alloc::{AllocError, Global};

/// The most sets that others can refer to.
const SET_LIMIT: u32 = u32::MAX;

/// A number of a document as the number of a vertex or an edge, or a count.
pub fn natural(number: i64) -> u32
    requires low { pos 0 ≤ℤ number }
    requires high { number <ℤ pos (2 ^ 32) }
    ensures { result ≡ nat_abs number }
{
    number as u32
}

/// The numbers of a line as vertices, of a graph within the limits.
pub fn members_of(alloc: Global, members: &[i64]) -> Result<Vec<VertexId>, OutOfMemory>
    requires { All (IsUpTo GRAPH_VERTEX_LIMIT) members.now }
    ensures { IfOk result (λ v. v.items ≡ numbers members.now) }
{
    let mut vertices = Vec::with_capacity(alloc, members.len())?;
    for member in members {
        vertices.push(VertexId::new(natural(*member)))?;
    }
    Ok(vertices)
}

/// A count for each of `m` edges.
pub fn counts_of(alloc: Global, lines: &[CountLine], m: u32) -> Result<Vec<u32>, OutOfMemory>
    requires in_range { All (IsCountWithin m) lines.now }
    requires ascending { AscendsBy (λ x. x.edge) lines.now }
    ensures { IfOk result (λ v. v.items ≡ counts_of lines.now m) }
{
    let mut counts = vec![in alloc; 0u32; m as usize]?;
    for x in lines {
        counts[natural(x.edge) as usize - 1] = natural(x.count);
    }
    Ok(counts)
}

/// The numbers of a line as edges, of an instance.
pub fn edges_of(alloc: Global, line: &[i64]) -> Result<Vec<EdgeId>, OutOfMemory>
    requires { All (IsUpTo EDGE_LIMIT) line.now }
    ensures { IfOk result (λ v. v.items ≡ numbers line.now) }
{
    let mut edges = Vec::with_capacity(alloc, line.len())?;
    for number in line {
        edges.push(EdgeId::new(natural(*number)))?;
    }
    Ok(edges)
}

/// The walk of a line, or the empty walk if there is none.
pub fn walk_of(
    alloc: Global,
    instance: &Instance,
    walk: &Option<WalkLine>,
) -> Result<Answer, OutOfMemory>
    requires { IfSome walk.now (IsWalkWithin (vertices instance.now) (length instance.now.edges)) }
    ensures { IfOk result (λ a. a ≡ walk_of walk.now) }
{
    let Some(w) = walk else {
        return Ok(Answer::Nothing);
    };
    prove!(w.start <= i64::from(instance.vertices()));
    let start = VertexId::new(natural(w.start));
    let edges = Sequence::from_vec(edges_of(alloc, w.edges.as_slice())?);
    Ok(Answer::Walk { start, edges })
}

/// The answer that a document states: counts on edges, or a walk.
pub fn answer_of(
    alloc: Global,
    instance: &Instance,
    kind: Kind,
    document: &Document,
) -> Result<Answer, OutOfMemory>
    requires { AreWithin kind instance.now document.now }
    ensures { IfOk result (λ a. a ≡ answer_of kind instance.now document.now) }
{
    match kind.form() {
        AnswerForm::Counts => {
            let counts = counts_of(alloc, document.counts.as_slice(), instance.edges())?;
            Ok(Answer::Counts(Sequence::from_vec(counts)))
        }
        AnswerForm::Walk => walk_of(alloc, instance, &document.walk),
    }
}

/// The duals of the vertices.
pub fn duals_of(alloc: Global, lines: &[DualLine]) -> Result<Vec<i64>, OutOfMemory>
    ensures { IfOk result (λ v. v.items ≡ map (λ y. y.dual) lines.now) }
{
    let mut duals = Vec::with_capacity(alloc, lines.len())?;
    for y in lines {
        duals.push(y.dual)?;
    }
    Ok(duals)
}

/// The vertices that a line names, of a graph within the limits.
fn vertices_in(alloc: Global, items: &[SetItem]) -> Result<Vec<VertexId>, OutOfMemory>
    requires { All (IsItemWithin GRAPH_VERTEX_LIMIT SET_LIMIT) items.now }
    ensures { IfOk result (λ v. v.items ≡ vertices_in items.now) }
{
    let mut vertices = Vec::new(alloc);
    for item in items {
        if let SetItem::Vertex(v) = *item {
            vertices.push(VertexId::new(natural(v)))?;
        }
    }
    Ok(vertices)
}

/// The lines that a line refers to.
fn references_in(alloc: Global, items: &[SetItem]) -> Result<Vec<u32>, OutOfMemory>
    requires { All (IsItemWithin GRAPH_VERTEX_LIMIT SET_LIMIT) items.now }
    ensures { IfOk result (λ v. v.items ≡ references_in items.now) }
{
    let mut references = Vec::new(alloc);
    for item in items {
        if let SetItem::Reference(j) = *item {
            references.push(natural(j))?;
        }
    }
    Ok(references)
}

/// The odd set of a line.
fn set_of(alloc: Global, z: &SetLine) -> Result<OddSet, OutOfMemory>
    requires { IsSetLineWithin GRAPH_VERTEX_LIMIT SET_LIMIT z.now }
    ensures { IfOk result (λ s. s ≡ set_of z.now) }
{
    let items = z.items.as_slice();
    let vertices = Sequence::from_vec(vertices_in(alloc, items)?);
    let references = Sequence::from_vec(references_in(alloc, items)?);
    Ok(OddSet {
        dual: z.dual,
        vertices,
        references,
    })
}

/// Whether there are more lines than references can name.
fn is_too_many(lines: &[SetLine]) -> bool
    ensures { IsTrue result ↔ (2 ^ 32 - 1 < length lines.now) }
{
    lines.len() > SET_LIMIT as usize
}

/// The odd sets with their duals. For more than `SET_LIMIT` there is no room.
pub fn sets_of(alloc: Global, lines: &[SetLine]) -> Result<Vec<OddSet>, OutOfMemory>
    requires { AreSetLinesWithin GRAPH_VERTEX_LIMIT lines.now }
    ensures { IfOk result (λ v. v.items ≡ map set_of lines.now) }
{
    if is_too_many(lines) {
        return Err(AllocError);
    }
    let mut sets = Vec::with_capacity(alloc, lines.len())?;
    for z in lines {
        sets.push(set_of(alloc, z)?)?;
    }
    Ok(sets)
}
