//! Documents whose best answer even paths prove, with the border of the vertices that these start
//! from.
ghost use Rattle.std.specs.Prelude.{◌≡◌, ◌↔◌, ◌<◌, ◌≤◌, pos, ◌≤ℤ◌, true, None, length, map, All};
ghost use Rattle.std.specs.Prelude.{nat_abs, slice_index_or, IsTrue, IfOk, IfSome};
ghost use Rattle.graph_theory.specs.Parts.{holds};
ghost use Rattle.mb_problem.specs.declared.kind.BestProof.TheVariants.{OuterPaths};
ghost use Rattle.mb_problem.specs.Degrees.{AreDegrees};
ghost use Rattle.mb_problem.specs.Kinds.{proof_of};
ghost use Rattle.mb_problem.specs.Marks.{AreMarks};
ghost use Rattle.mb_problem.specs.Network.{IsNetwork, vertices, graph_of};
ghost use Rattle.doc_format.specs.declared.part.PathLine.{PathLine};
ghost use Rattle.certificates.specs.Claims.{members_of};
ghost use Rattle.certificates.specs.Certificates.{IsStatedPath, HavePathForm, HasAllPaths};
ghost use Rattle.certificates.specs.Certificates.{HasDecomposition};
ghost use Rattle.certificates.specs.Within.{IsUpTo, IsCountWithin, IsPathWithin, AreWithin};
ghost use Rattle.certificates.specs.Proved.{StatesTruth};
ghost use Rattle.cert_check.specs.Extents.{MayBeJudged};
ghost use Rattle.cert_check.specs.Stated.{IsStated};
ghost use Rattle.cert_check.specs.Verdicts.{IsVerdict, IsFirstPathless, KeepsBefore};
ghost use Rattle.cert_check.specs.Verdicts.{HasFeasibleDuals};

use crate::border::is_decomposed;
use crate::claims::{counts_of, edges_of, members_of, natural};
use crate::parts::{is_marked, marks_of};
use crate::rule::{DocRule, Verdict};
use alternating_paths::is_even_path;
use certificates::certified;
use doc_format::{DocStatus, Document, MemberLine};
use graph_theory::GRAPH_VERTEX_LIMIT;
use mb_base::{EdgeId, OutOfMemory, VertexId};
use mb_problem::{Instance, Kind, degrees_of, vertices_differ, walk_end};
use std::alloc::Global;

/// What is looked up of a document in constant time: the stated matching, the degree of each vertex
/// in it, and which vertices the `d` line has.
#[derive(Drop)]
pub struct Stated {
    pub counts: Vec<u32>,
    pub degrees: Vec<u64>,
    pub outer: Vec<bool>,
}

/// The members of a line, and none if it is missing.
fn listed(alloc: Global, line: &Option<MemberLine>) -> Result<Vec<VertexId>, OutOfMemory>
    requires { IfSome line.now (λ u. All (IsUpTo GRAPH_VERTEX_LIMIT) u.members) }
    ensures { IfOk result (λ v. v.items ≡ members_of line.now) }
{
    match line {
        Some(u) => members_of(alloc, u.members.as_slice()),
        None => Ok(Vec::new(alloc)),
    }
}

/// What is looked up of a document.
fn stated_of(alloc: Global, instance: &Instance, document: &Document) -> Result<Stated, OutOfMemory>
    requires counts { All (IsCountWithin (length instance.now.edges)) document.now.counts }
    requires outer { IfSome document.now.outer
        (λ d. All (IsUpTo (vertices instance.now)) d.members) }
    ensures stated { IfOk result (IsStated instance.now document.now) }
    ensures network { IsNetwork instance.now }
{
    let counts = counts_of(alloc, document.counts.as_slice(), instance.edges())?;
    let degrees = degrees_of(alloc, instance, &counts)?;
    let members = listed(alloc, &document.outer)?;
    let outer = marks_of(alloc, instance.vertices(), &members)?;
    Ok(Stated {
        counts,
        degrees,
        outer,
    })
}

/// Whether the `r` line at a place is a path as it has to be, in time linear in the vertices.
fn is_stated_path(
    alloc: Global,
    instance: &Instance,
    document: &Document,
    stated: &Stated,
    place: usize,
) -> Result<bool, OutOfMemory>
    requires in_range { place < length document.now.paths }
    requires network { IsNetwork instance.now }
    requires stated { IsStated instance.now document.now stated.now }
    requires within { All (IsPathWithin (vertices instance.now) (length instance.now.edges))
        document.now.paths }
    ensures { IfOk result (λ b. (r : PathLine) → r ≡ slice_index_or document.now.paths place r
        → IsTrue b ↔ IsStatedPath instance.now document.now r) }
{
    let path = &document.paths.as_slice()[place];
    let start = VertexId::new(natural(path.vertex));
    if !is_marked(&stated.outer, start) {
        return Ok(false);
    }
    let edges = edges_of(alloc, path.edges.as_slice())?;
    is_even_path(
        alloc,
        instance,
        &stated.counts,
        &stated.degrees,
        start,
        &edges,
    )
}

/// The line of the first path that isn't as it has to be.
fn first_pathless(
    alloc: Global,
    instance: &Instance,
    document: &Document,
    stated: &Stated,
) -> Result<Option<u64>, OutOfMemory>
    requires network { IsNetwork instance.now }
    requires stated { IsStated instance.now document.now stated.now }
    requires within { All (IsPathWithin (vertices instance.now) (length instance.now.edges))
        document.now.paths }
    ensures fault { IfOk result (λ o. IfSome o (IsFirstPathless instance.now document.now)) }
    ensures none { IfOk result (λ o. o ≡ None → HavePathForm instance.now document.now) }
{
    for place in 0..document.paths.len() {
        if !is_stated_path(alloc, instance, document, stated, place)? {
            return Ok(Some(document.paths.as_slice()[place].line));
        }
    }
    Ok(None)
}

/// Whether there is a `d` line and each member has an `r` line. All of these begin at members, and
/// both ascend, so it is enough to count them.
fn have_paths(document: &Document) -> bool
    requires members { IfSome document.now.outer
        (λ d. All (IsUpTo GRAPH_VERTEX_LIMIT) d.members) }
    requires starts { All (λ r. IsUpTo GRAPH_VERTEX_LIMIT r.vertex) document.now.paths }
    requires inside { All (λ r. holds (members_of document.now.outer) (nat_abs r.vertex) ≡ true)
        document.now.paths }
    ensures { IsTrue result ↔ HasAllPaths document.now }
{
    match &document.outer {
        Some(d) => d.members.len() == document.paths.len(),
        None => false,
    }
}

/// A nonnegative weight as a number of edges.
fn edge_count(weight: i64) -> u64
    requires { pos 0 ≤ℤ weight }
    ensures { result ≡ nat_abs weight }
{
    weight as u64
}

/// Whether the `u` line is the border of the `d` line, and leaves as many odd components as it has
/// to, each within the `d` line.
fn has_decomposition(
    alloc: Global,
    instance: &Instance,
    kind: Kind,
    document: &Document,
    outer: &[bool],
) -> Result<bool, OutOfMemory>
    requires judged { MayBeJudged kind instance.now }
    requires proof { proof_of kind ≡ OuterPaths }
    requires within { AreWithin kind instance.now document.now }
    requires weight { pos 0 ≤ℤ document.now.weight }
    requires outer { AreMarks (vertices instance.now) outer.now (members_of document.now.outer) }
    ensures { IfOk result (λ b. IsTrue b ↔ HasDecomposition kind instance.now document.now) }
{
    let Some(u) = &document.barrier else {
        return Ok(false);
    };
    let border = members_of(alloc, u.members.as_slice())?;
    let graph = certified(alloc, instance, kind)?;
    is_decomposed(alloc, &graph, edge_count(document.weight), outer, &border)
}

/// The verdict on a document that states a best answer, which is in order, of a kind that even
/// paths prove best (chapter 24). It takes time linear in the instance, and in its vertices for
/// each path.
pub fn judge_paths(
    alloc: Global,
    instance: &Instance,
    kind: Kind,
    document: &Document,
) -> Result<Verdict, OutOfMemory>
    requires judged { MayBeJudged kind instance.now }
    requires proof { proof_of kind ≡ OuterPaths }
    requires status { document.now.status ≡ DocStatus.Optimal }
    requires within { AreWithin kind instance.now document.now }
    requires before { KeepsBefore kind instance.now document.now DocRule.DualMissing }
    ensures verdict { IfOk result (IsVerdict kind instance.now document.now) }
    ensures sound { IfOk result
        (λ v. v ≡ Verdict.Accepted → StatesTruth kind instance.now document.now) }
    ensures duals { IfOk result
        (λ v. v ≡ Verdict.Accepted → HasFeasibleDuals kind instance.now document.now) }
{
    gallai_theory::laws();
    let stated = stated_of(alloc, instance, document)?;
    if let Some(line) = first_pathless(alloc, instance, document, &stated)? {
        let rule = DocRule::PathForm;
        return Ok(Verdict::Rejected { rule, line });
    }
    let line = document.line;
    if !have_paths(document) {
        let rule = DocRule::PathMissing;
        return Ok(Verdict::Rejected { rule, line });
    }
    if !has_decomposition(alloc, instance, kind, document, &stated.outer)? {
        let rule = DocRule::NotBarrier;
        return Ok(Verdict::Rejected { rule, line });
    }
    Ok(Verdict::Accepted)
}
