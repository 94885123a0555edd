ghost use Rattle.std.specs.Prelude.{◌≡◌, ◌≤◌, ◌%◌, ◌==◌, ◌↔◌, true};
ghost use Rattle.std.specs.Prelude.{false, length, All, IsTrue, IfOk, IfSome, count_by};
ghost use Rattle.graph_theory.specs.Parts.{IsVertexSet, IsOddPart, IsSplitPart};
ghost use Rattle.mb_problem.specs.Network.{Network, IsNetwork, vertices, graph_of, value_of};
ghost use Rattle.mb_problem.specs.Marks.{AreMarks};
ghost use Rattle.cert_check.specs.Marked.{mark_of, AgreeAtEnds, HasEdgeMarked};
ghost use Rattle.certificates.specs.Within.{IsUpTo, AreWithin};
ghost use Rattle.certificates.specs.Certificates.{HasOddPart, HasSplitPart, HasWantedPart};

use crate::claims::members_of;
use doc_format::Document;
use mb_base::{OutOfMemory, VertexId};
use mb_problem::{Instance, Kind, Obstruction, VERTEX_LIMIT, mark};
use std::alloc::Global;

/// Marks for the vertices from 1 to `n`: those that are listed.
pub fn marks_of(alloc: Global, n: u32, members: &[VertexId]) -> Result<Vec<bool>, OutOfMemory>
    requires { All (λ v. (1 ≤ v) × (v ≤ n)) members.now }
    ensures { IfOk result (λ marks. AreMarks n marks.items members.now) }
{
    let mut marks = vec![in alloc; false; n as usize]?;
    for v in members {
        mark(&mut marks, v.number());
    }
    Ok(marks)
}

/// Whether a vertex is marked.
pub fn is_marked(marks: &[bool], v: VertexId) -> bool
    requires low { 1 ≤ v }
    requires high { v ≤ length marks.now }
    ensures { result ≡ mark_of marks.now v }
{
    marks[v.number() as usize - 1]
}

/// Whether no edge has exactly one marked end.
fn leaves_none(instance: &Instance, marks: &[bool]) -> bool
    requires { length marks.now ≡ vertices instance.now }
    ensures { IsTrue result ↔ AgreeAtEnds instance.now marks.now }
{
    for edge in instance.edge_list() {
        if is_marked(marks, edge.u) != is_marked(marks, edge.v) {
            return false;
        }
    }
    true
}

/// Whether the first end of some edge is marked, or is not, as wanted.
fn has_edge(instance: &Instance, marks: &[bool], wanted: bool) -> bool
    requires { length marks.now ≡ vertices instance.now }
    ensures { IsTrue result ↔ HasEdgeMarked instance.now marks.now wanted }
{
    for edge in instance.edge_list() {
        if is_marked(marks, edge.u) == wanted {
            return true;
        }
    }
    false
}

/// Whether an odd number of these vertices have an odd value.
fn holds_odd(instance: &Instance, members: &[VertexId]) -> bool
    requires { All (λ v. (1 ≤ v) × (v ≤ vertices instance.now)) members.now }
    ensures { IsTrue result
        ↔ (count_by (λ v. value_of instance.now v % 2 == 1) members.now % 2 ≡ 1) }
{
    let mut count = 0usize;
    for v in members {
        if instance.value(*v) % 2 == 1 {
            count += 1;
        }
    }
    count % 2 == 1
}

/// Whether these vertices are an odd part: no edge leaves them, and an odd number of them is in T.
fn is_odd_part(
    alloc: Global,
    instance: &Instance,
    members: &[VertexId],
) -> Result<bool, OutOfMemory>
    requires { IsVertexSet (vertices instance.now) members.now }
    ensures { IfOk result
        (λ b. IsTrue b ↔ IsOddPart (graph_of instance.now)
        (λ v. value_of instance.now v % 2 == 1) members.now) }
{
    let n = instance.vertices();
    if !holds_odd(instance, members) {
        return Ok(false);
    }
    let marks = marks_of(alloc, n, members)?;
    Ok(leaves_none(instance, &marks))
}

/// Whether no edge has exactly one marked end, some edge has two and some none.
fn is_split(instance: &Instance, marks: &[bool]) -> bool
    requires { length marks.now ≡ vertices instance.now }
    ensures { IsTrue result ↔ (HasEdgeMarked instance.now marks.now true
        × HasEdgeMarked instance.now marks.now false × AgreeAtEnds instance.now marks.now) }
{
    if !has_edge(instance, marks, true) {
        return false;
    }
    if !has_edge(instance, marks, false) {
        return false;
    }
    leaves_none(instance, marks)
}

/// Whether these vertices are a split part: no edge leaves them, some edge lies inside and some
/// outside.
fn is_split_part(
    alloc: Global,
    instance: &Instance,
    members: &[VertexId],
) -> Result<bool, OutOfMemory>
    requires { IsVertexSet (vertices instance.now) members.now }
    ensures { IfOk result (λ b. IsTrue b ↔ IsSplitPart (graph_of instance.now) members.now) }
{
    let n = instance.vertices();
    let marks = marks_of(alloc, n, members)?;
    Ok(is_split(instance, &marks))
}

/// Whether a document names an odd part.
fn has_odd_part(
    alloc: Global,
    instance: &Instance,
    document: &Document,
) -> Result<bool, OutOfMemory>
    requires network { IsNetwork instance.now }
    requires within { IfSome document.now.odd
        (λ t. All (IsUpTo (vertices instance.now)) t.members) }
    ensures { IfOk result (λ b. IsTrue b ↔ HasOddPart instance.now document.now) }
{
    let Some(t) = &document.odd else {
        return Ok(false);
    };
    let members = members_of(alloc, t.members.as_slice())?;
    is_odd_part(alloc, instance, &members)
}

/// Whether a document names a split part.
fn has_split_part(
    alloc: Global,
    instance: &Instance,
    document: &Document,
) -> Result<bool, OutOfMemory>
    requires network { IsNetwork instance.now }
    requires within { IfSome document.now.split
        (λ q. All (IsUpTo (vertices instance.now)) q.members) }
    ensures { IfOk result (λ b. IsTrue b ↔ HasSplitPart instance.now document.now) }
{
    let Some(q) = &document.split else {
        return Ok(false);
    };
    let members = members_of(alloc, q.members.as_slice())?;
    is_split_part(alloc, instance, &members)
}

/// Whether a document names the part that its kind wants, if it wants one.
pub fn has_wanted_part(
    alloc: Global,
    instance: &Instance,
    kind: Kind,
    document: &Document,
) -> Result<bool, OutOfMemory>
    requires { AreWithin kind instance.now document.now }
    ensures exact { IfOk result (λ b. IsTrue b ↔ HasWantedPart kind instance.now document.now) }
    ensures network { IsNetwork instance.now }
{
    prove!(instance.vertices() <= VERTEX_LIMIT);
    match kind.obstruction() {
        Obstruction::OddPart => has_odd_part(alloc, instance, document),
        Obstruction::SplitPart => has_split_part(alloc, instance, document),
        Obstruction::Barrier | Obstruction::Never => Ok(true),
    }
}
